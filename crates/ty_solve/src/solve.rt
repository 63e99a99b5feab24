// The most general substitution that makes two types equal.
ghost use Rattle.std.specs.Prelude.{◌≡◌, ◌<◌, length, IfOk, IfErr, OnErr, Some, true};
ghost use Rattle.ty_table.specs.TypeAt.{type_at};
ghost use Rattle.ty_solve.specs.Substitution.{is_below};
ghost use Rattle.ty_solve.specs.SlotsOf.{seen, entries, tasks_of, write_of};
ghost use Rattle.ty_solve.specs.Held.{AreHeldTasks, IsHeldMove};
ghost use Rattle.ty_solve.specs.Tasks.{Fit};
ghost use Rattle.ty_solve.specs.Changes.{Changes, RefusesWrite};
ghost use Rattle.ty_solve.specs.Forces.{IsForced};
ghost use Rattle.ty_solve.specs.Solve.{problem, IsMostGeneral, IsSolvable, IsSmall, IsCause, IsEarlyCause, LeavesRest, undo};

use crate::bind::{bind_variable, lower_mark, narrow};
use crate::refused::UnifyRefused;
use crate::size::is_small;
use crate::step::next_write;
use crate::subst::Subst;
use crate::task::{Move, Todo};
use crate::trail::{Kept, put_back};
use indexmap::IndexSet;
use std::alloc::Global;

/// Makes a change.
fn change(
    alloc: Global,
    s: &mut Subst,
    write: Move,
    tasks: &mut Vec<Todo>,
    trail: &mut Vec<Kept>,
) -> Result<(), UnifyRefused>
    requires held { IsHeldMove (length s.old.types) (Some write) }
    requires fit { Fit (length (entries s.old.types s.old.slots.items)) (seen s.old.types s.old.slots.items) (Some (write_of s.old.types write)) }
    ensures undone { undo trail.new.items s.new.slots.items ≡ undo trail.old.items s.old.slots.items }
    ensures same_length { length s.new.slots.items ≡ length s.old.slots.items }
    ensures types { s.new.types ≡ s.old.types }
    ensures changes { IfOk result (λ _. Changes (entries s.old.types s.old.slots.items) (entries s.old.types s.new.slots.items)
        (tasks_of s.old.types tasks.old.items)
        (tasks_of s.old.types tasks.new.items) (write_of s.old.types write)) }
    ensures held { IfOk result (λ _. AreHeldTasks (length s.old.types) tasks.old.items → AreHeldTasks (length s.old.types) tasks.new.items) }
    ensures cause { IfErr result (RefusesWrite (seen s.old.types s.old.slots.items) (write_of s.old.types write)) }
{
    match write {
        Move::Bind(v, t) => bind_variable(alloc, s, v, t, tasks, trail),
        Move::Remark(v, mark) => lower_mark(s, v, mark, trail),
        Move::Further(v) => narrow(alloc, s, v, tasks, trail),
    }
}

/// Makes two types equal. What is changed is kept.
fn solve(
    alloc: Global,
    s: &mut Subst,
    a: usize,
    b: usize,
    trail: &mut Vec<Kept>,
) -> Result<(), UnifyRefused>
    requires a_held { a < length s.old.types }
    requires b_held { b < length s.old.types }
    requires a_below { is_below (length s.old.slots.items) (type_at s.old.types a) ≡ true }
    requires b_below { is_below (length s.old.slots.items) (type_at s.old.types b) ≡ true }
    ensures undone { undo trail.new.items s.new.slots.items ≡ undo trail.old.items s.old.slots.items }
    ensures same_length { length s.new.slots.items ≡ length s.old.slots.items }
    ensures types { s.new.types ≡ s.old.types }
    ensures general { IfOk result (λ _. IsMostGeneral (seen s.old.types s.old.slots.items) (seen s.old.types s.new.slots.items) (type_at s.old.types a)
        (type_at s.old.types b)) }
    ensures forced { IfOk result (λ _. IsForced (problem (seen s.old.types s.old.slots.items) (type_at s.old.types a) (type_at s.old.types b))
        (seen s.old.types s.new.slots.items)) }
    ensures cause { IfErr result (IsEarlyCause (seen s.old.types s.old.slots.items) (type_at s.old.types a) (type_at s.old.types b)) }
{
    let mut compared: IndexSet<(usize, usize)> = IndexSet::new(alloc);
    let mut tasks = Vec::new(alloc);
    tasks.push(Todo::Equal(a, b))?;
    loop {
        match next_write(alloc, s, &mut compared, &mut tasks) {
            Err(refused) => return Err(refused),
            Ok(next) => match next {
                None => return Ok(()),
                Some(write) => match change(alloc, s, write, &mut tasks, trail) {
                    Err(refused) => return Err(refused),
                    Ok(()) => {}
                },
            },
        }
    }
}

/// Makes two types equal, where their type is not too large. What is changed is kept.
pub fn attempt(
    alloc: Global,
    s: &mut Subst,
    a: usize,
    b: usize,
    trail: &mut Vec<Kept>,
) -> Result<(), UnifyRefused>
    requires a_held { a < length s.old.types }
    requires b_held { b < length s.old.types }
    requires a_below { is_below (length s.old.slots.items) (type_at s.old.types a) ≡ true }
    requires b_below { is_below (length s.old.slots.items) (type_at s.old.types b) ≡ true }
    ensures undone { undo trail.new.items s.new.slots.items ≡ undo trail.old.items s.old.slots.items }
    ensures same_length { length s.new.slots.items ≡ length s.old.slots.items }
    ensures types { s.new.types ≡ s.old.types }
    ensures general { IfOk result (λ _. IsMostGeneral (seen s.old.types s.old.slots.items) (seen s.old.types s.new.slots.items) (type_at s.old.types a)
        (type_at s.old.types b)) }
    ensures forced { IfOk result (λ _. IsForced (problem (seen s.old.types s.old.slots.items) (type_at s.old.types a) (type_at s.old.types b))
        (seen s.old.types s.new.slots.items)) }
    ensures small { IfOk result (λ _. IsSmall (seen s.old.types s.new.slots.items) (type_at s.old.types a)) }
    ensures cause { IfErr result (IsCause (seen s.old.types s.old.slots.items) (type_at s.old.types a) (type_at s.old.types b)) }
{
    match solve(alloc, s, a, b, trail) {
        Err(refused) => Err(refused),
        Ok(()) => {
            if is_small(alloc, s, a)? {
                Ok(())
            } else {
                Err(UnifyRefused::Large)
            }
        }
    }
}

/// Makes two types equal, by the least change to s. A refusal leaves s as it was.
pub fn unify(alloc: Global, s: &mut Subst, a: usize, b: usize) -> Result<(), UnifyRefused>
    requires a_held { a < length s.old.types }
    requires b_held { b < length s.old.types }
    requires a_below { is_below (length s.old.slots.items) (type_at s.old.types a) ≡ true }
    requires b_below { is_below (length s.old.slots.items) (type_at s.old.types b) ≡ true }

    ensures general { IfOk result (λ _. IsMostGeneral (seen s.old.types s.old.slots.items) (seen s.old.types s.new.slots.items) (type_at s.old.types a)
        (type_at s.old.types b)) }
    ensures solvable { IfOk result (λ _. IsSolvable (seen s.new.types s.new.slots.items)) }
    ensures small { IfOk result (λ _. IsSmall (seen s.old.types s.new.slots.items) (type_at s.old.types a)) }
    ensures same_length { IfOk result (λ _. length s.new.slots.items ≡ length s.old.slots.items) }
    ensures rest { IfOk result (λ _. LeavesRest (seen s.old.types s.old.slots.items) (seen s.old.types s.new.slots.items) (type_at s.old.types a)
        (type_at s.old.types b)) }
    ensures types { s.new.types ≡ s.old.types }

    ensures cause { IfErr result (IsCause (seen s.old.types s.old.slots.items) (type_at s.old.types a) (type_at s.old.types b)) }
    ensures unchanged { OnErr result (s.new.slots.items ≡ s.old.slots.items) }
{
    let mut trail = Vec::new(alloc);
    match attempt(alloc, s, a, b, &mut trail) {
        Ok(()) => Ok(()),
        Err(refused) => {
            put_back(&mut s.slots, &mut trail);
            Err(refused)
        }
    }
}
