// Looking through the type that a number stands for.
ghost use Rattle.std.specs.Prelude.{◌≡◌, ◌↔◌, ◌++◌, ℕ, IfOk, IsTrue, true};
ghost use Rattle.ty_table.specs.of_ty_core.Types.{Typ, var};
ghost use Rattle.ty_table.specs.TypeAt.{type_at, types_at, top};
ghost use Rattle.ty_solve.specs.Said.{said};
ghost use Rattle.ty_solve.specs.Walk.{Looks, LooksInRow, LooksUnder};
ghost use Rattle.ty_solve.specs.Substitution.{Resolves, aside, sub, subs, is_in, are_in, is_open};
ghost use Rattle.ty_solve.specs.SlotsOf.{seen as seen_in};

use crate::subst::Subst;
use indexmap::IndexSet;
use mlc_base::memory::NoMemory;
use std::alloc::Global;
use ty_table::types::View;

/// Puts the types of a list on those that are pending.
pub fn add_all(pending: &mut Vec<usize>, types: &[usize]) -> Result<(), NoMemory>
    ensures { IfOk result (λ _. pending.new.items ≡ pending.old.items ++ types.now) }
{
    pending.extend_from_slice(types)?;
    Ok(())
}

/// Puts the types of a row's fields on those that are pending.
fn look_in_row(s: &Subst, x: usize, pending: &mut Vec<usize>) -> Result<(), NoMemory>
    requires { is_open (said s.now x) ≡ true }
    ensures { IfOk result (λ _. LooksInRow s.now.types (said s.now) x pending.old.items pending.new.items) }
{
    match s.row(x) {
        Some(row) => add_all(pending, &row.types),
        None => Ok(()),
    }
}

/// Puts what a variable stands for, or the types of its fields, on the types that are pending.
pub fn look_under(s: &Subst, v: usize, pending: &mut Vec<usize>) -> Result<(), NoMemory>
    ensures { IfOk result (λ _. LooksUnder s.now.types (said s.now) v pending.old.items pending.new.items) }
{
    match s.get(v) {
        Some(u) => pending.push(u)?,
        None => look_in_row(s, v, pending)?,
    }
    Ok(())
}

/// Puts what a type stands for, or its arguments or fields, on the types that are pending.
pub fn look_in(s: &Subst, t: usize, pending: &mut Vec<usize>) -> Result<(), NoMemory>
    ensures { IfOk result (λ _. Looks s.now.types (seen_in s.now.types s.now.slots.items) t pending.old.items pending.new.items) }
{
    match s.types.view(t) {
        View::Var(x) => match s.get(x) {
            Some(u) => pending.push(u)?,
            None => look_in_row(s, x, pending)?,
        },
        View::Apply(_, arguments) => add_all(pending, arguments)?,
    }
    Ok(())
}

/// Whether a type has no variable.
pub fn is_ground(s: &Subst, t: usize) -> bool
    ensures { IsTrue result ↔ (top (type_at s.now.types t) ≡ 0) }
{
    s.types.top(t) == 0
}

/// Whether a type is this variable.
fn is_variable(s: &Subst, t: usize, v: usize) -> bool
    ensures { IsTrue result ↔ (type_at s.now.types t ≡ var v) }
{
    match s.types.view(t) {
        View::Var(x) => x == v,
        View::Apply(_, _) => false,
    }
}

/// Whether a variable lies in what the pending types stand for. Each type is looked through once.
fn reaches(alloc: Global, s: &Subst, v: usize, types: Vec<usize>) -> Result<bool, NoMemory>
    ensures { IfOk result (λ found. (f : ℕ → Typ) → Resolves f (aside v (said s.now)) → found ≡ are_in v (subs f (types_at s.now.types types.items))) }
{
    let mut seen: IndexSet<usize> = IndexSet::new(alloc);
    let mut pending = types;
    while let Some(next) = pending.pop() {
        if is_variable(s, next, v) {
            return Ok(true);
        }
        if !is_ground(s, next) {
            let new = seen.insert(next)?;
            if new {
                look_in(s, next, &mut pending)?;
            }
        }
    }
    Ok(false)
}

/// Whether a variable lies in the type that t stands for.
pub fn occurs(alloc: Global, s: &Subst, v: usize, t: usize) -> Result<bool, NoMemory>
    ensures { IfOk result (λ found. (f : ℕ → Typ) → Resolves f (aside v (said s.now)) → found ≡ is_in v (sub f (type_at s.now.types t))) }
{
    let mut pending = Vec::new(alloc);
    pending.push(t)?;
    reaches(alloc, s, v, pending)
}

/// Whether a variable lies in one of the types that these stand for.
pub fn occurs_in(alloc: Global, s: &Subst, v: usize, types: &[usize]) -> Result<bool, NoMemory>
    ensures { IfOk result (λ found. (f : ℕ → Typ) → Resolves f (aside v (said s.now)) → found ≡ are_in v (subs f (types_at s.now.types types.now))) }
{
    let mut pending = Vec::new(alloc);
    add_all(&mut pending, types)?;
    reaches(alloc, s, v, pending)
}
