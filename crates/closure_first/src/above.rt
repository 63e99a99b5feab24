// A number above those of all variables of a program.
ghost use Rattle.std.specs.Prelude.{◌≡◌, ℕ, List, map, IfOk};
ghost use Rattle.flow_sets.specs.ByType.{bound};
ghost use Rattle.mono_bound.specs.Bound.{bound_of};
ghost use Rattle.mono_bound.specs.Reads.{mono_of};
ghost use Rattle.closure_bodies.specs.of_closure_whole.Rising.{larger as larger_of, above as above_of};
ghost use Rattle.closure_bodies.specs.of_closure_parts.Settings.{Texts};

use mlc_base::memory::NoMemory;
use mono_bound::bound::{Bound, push_bound};
use mono_bound::law::bound_is_bound;
use mono_types::types::Types;
use plain_tree::tree::Exp;
use std::alloc::Global;

/// The least number that is above a variable's and not below another one. No memory holds a program with more variables than there are numbers.
fn larger(variable: usize, than: usize) -> Result<usize, NoMemory>
    ensures { IfOk result (λ n. n ≡ larger_of variable than) }
{
    if variable < than {
        return Ok(than);
    }
    match variable.checked_add(1) {
        Some(next) => Ok(next),
        None => Err(NoMemory),
    }
}

fn above_all(found: &[Bound]) -> Result<usize, NoMemory>
    ensures { IfOk result (λ n. n ≡ above_of (map bound_of found.now)) }
{
    let mut least = 0;
    let mut left = found.len();
    while left > 0 {
        left -= 1;
        let next = larger(found[left].variable, least)?;
        least = next;
    }
    Ok(least)
}

/// The least number above those of all variables that a program binds.
pub fn above(alloc: Global, types: &Types, body: &Exp) -> Result<usize, NoMemory>
    ensures { IfOk result (λ n. (strings : Texts) → n ≡ above_of (bound types.now (mono_of types.now strings body.now))) }
{
    bound_is_bound();
    let mut found = Vec::new(alloc);
    push_bound(types, body, &mut found)?;
    above_all(&found)
}
