// Numbers that are there once, or among others.
ghost use Rattle.std.specs.Prelude.{◌≡◌, ◌++◌, map, nat_eq, not, IfOk};
ghost use Rattle.std.specs.List.{list_all};
ghost use Rattle.core_rules.specs.Restrictions.{distinct};
ghost use Rattle.core_rules.specs.Words.{is_in};
ghost use Rattle.restrictions.specs.Found.{names_in, noted_onto};

use mlc_base::memory::NoMemory;
use scoped_map::scoped::Scoped;
use std::alloc::Global;

/// Whether no number is there twice.
pub fn are_once(alloc: Global, keys: &[usize]) -> Result<bool, NoMemory>
    ensures { IfOk result (λ once. once ≡ distinct nat_eq keys.now) }
{
    let mut seen: Scoped<usize> = Scoped::new(alloc);
    let mut i = keys.len();
    while i > 0 {
        i -= 1;
        let key = keys[i];
        if seen.find(key).is_some() {
            return Ok(false);
        }
        seen.bind(key, 0)?;
    }
    Ok(true)
}

/// Brings numbers into scope, the last first.
pub fn note_all(keys: &[usize], noted: &mut Scoped<usize>) -> Result<(), NoMemory>
    ensures { IfOk result (λ _. noted.new ≡ noted_onto keys.now noted.old) }
{
    let mut i = keys.len();
    while i > 0 {
        i -= 1;
        noted.bind(keys[i], 0)?;
    }
    Ok(())
}

/// Whether each number is in scope.
pub fn are_noted(noted: &Scoped<usize>, keys: &[usize]) -> bool
    ensures { result ≡ list_all (λ k. is_in nat_eq k (names_in noted.now)) keys.now }
{
    for i in 0..keys.len() {
        if !noted.find(keys[i]).is_some() {
            return false;
        }
    }
    true
}

/// Whether no number is in scope.
pub fn are_apart(noted: &Scoped<usize>, keys: &[usize]) -> bool
    ensures { result ≡ list_all (λ k. not (is_in nat_eq k (names_in noted.now))) keys.now }
{
    for i in 0..keys.len() {
        if noted.find(keys[i]).is_some() {
            return false;
        }
    }
    true
}
