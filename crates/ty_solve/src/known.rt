// Whether a substitution has a type and its variables.
ghost use Rattle.std.specs.Prelude.{◌≡◌, ◌↔◌, ◌<◌, IfOk, IsTrue, length, true};
ghost use Rattle.ty_table.specs.TypeAt.{type_at, types_at, AllBelow};
ghost use Rattle.ty_solve.specs.Changes.{IsFitRow};
ghost use Rattle.ty_solve.specs.SlotsOf.{row_in};
ghost use Rattle.ty_solve.specs.Substitution.{is_below, are_below};

use crate::row::{Row, is_proper};
use crate::subst::Subst;
use mlc_base::memory::NoMemory;
use std::alloc::Global;

/// Whether the table has the type, and every variable of it is one of the substitution's.
pub fn is_known(s: &Subst, t: usize) -> bool
    ensures { IsTrue result ↔ ((t < length s.now.types) × (is_below (length s.now.slots.items) (type_at s.now.types t) ≡ true)) }
{
    if t >= s.types.len() {
        return false;
    }
    s.types.top(t) <= s.slots.len()
}

/// Whether the table has the types, and every variable of them is one of the substitution's.
fn are_known(s: &Subst, types: &[usize]) -> bool
    ensures { IsTrue result ↔ (AllBelow (length s.now.types) types.now
        × (are_below (length s.now.slots.items) (types_at s.now.types types.now) ≡ true)) }
{
    for i in 0..types.len() {
        if !is_known(s, types[i]) {
            return false;
        }
    }
    true
}

/// Whether a row has each label once, each with a type of the table, and the substitution has their variables.
pub fn fits(alloc: Global, s: &Subst, row: &Row) -> Result<bool, NoMemory>
    ensures { IfOk result (λ fit. IsTrue fit ↔ (AllBelow (length s.now.types) row.now.types.items
        × IsFitRow (length s.now.slots.items) (row_in s.now.types row.now))) }
{
    let proper = is_proper(alloc, &row.labels, &row.types)?;
    if !proper {
        return Ok(false);
    }
    Ok(are_known(s, &row.types))
}
