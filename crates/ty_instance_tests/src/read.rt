// Types from short texts.

use mlc_base::memory::NoMemory;
use std::alloc::Global;
use ty_core::mark::Mark;
use ty_core::name::{Equality, TyName};
use ty_core::ty::Head;
use ty_solve::known::is_known;
use ty_solve::solve::unify;
use ty_solve::subst::Subst;

const LIST: TyName = TyName {
    stamp: 20,
    arity: 1,
    equality: Equality::ByArguments,
};

/// A number that no table has.
pub const NONE: usize = usize::MAX;

/// A list of this type.
pub fn list(alloc: Global, s: &mut Subst, part: usize) -> Result<usize, NoMemory> {
    if part < s.types.len() {
        s.apply(alloc, Head::Named(LIST), &[part])
    } else {
        Ok(NONE)
    }
}

/// A function from one type to another.
pub fn arrow(alloc: Global, s: &mut Subst, from: usize, to: usize) -> Result<usize, NoMemory> {
    if from < s.types.len() && to < s.types.len() {
        s.apply(alloc, Head::Function, &[from, to])
    } else {
        Ok(NONE)
    }
}

/// A variable of the substitution.
pub fn variable(alloc: Global, s: &mut Subst, v: usize) -> Result<usize, NoMemory> {
    if v < s.slots.len() {
        s.variable(alloc, v)
    } else {
        Ok(NONE)
    }
}

fn add_variables(s: &mut Subst, count: usize) -> Result<(), NoMemory> {
    for _variable in 0..count {
        let _fresh = s.fresh(Mark::Any)?;
    }
    Ok(())
}

/// So many variables.
pub fn variables(alloc: Global, count: usize) -> Result<Subst, NoMemory> {
    let mut s = Subst::new(alloc)?;
    add_variables(&mut s, count)?;
    Ok(s)
}

/// The last of the types that were read.
pub fn last(read: &mut Vec<usize>) -> usize {
    match read.pop() {
        Some(t) => t,
        None => NONE,
    }
}

/// The next type of a text.
fn next(
    alloc: Global,
    s: &mut Subst,
    letter: u8,
    read: &mut Vec<usize>,
) -> Result<usize, NoMemory> {
    match letter {
        b'l' => {
            let part = last(read);
            list(alloc, s, part)
        }
        b'f' => {
            let to = last(read);
            let from = last(read);
            arrow(alloc, s, from, to)
        }
        b'i' => s.apply(alloc, Head::Named(TyName::INT), &[]),
        digit => variable(alloc, s, digit.saturating_sub(b'0') as usize),
    }
}

/// Types in postfix, with spaces between them: digits are variables, `i` is int, `l` a list, `f` an arrow.
pub fn read_all(alloc: Global, s: &mut Subst, text: &str) -> Result<Vec<usize>, NoMemory> {
    let mut read = Vec::new(alloc);
    for letter in text.as_bytes() {
        if *letter != b' ' {
            let t = next(alloc, s, *letter, &mut read)?;
            read.push(t)?;
        }
    }
    Ok(read)
}

/// Makes two types equal, where that can be.
pub fn bind(alloc: Global, s: &mut Subst, left: usize, right: usize) -> bool {
    is_known(s, left) && is_known(s, right) && unify(alloc, s, left, right).is_ok()
}
