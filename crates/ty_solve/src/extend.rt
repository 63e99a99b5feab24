// A type and the fields of a row.
ghost use Rattle.std.specs.Prelude.{◌≡◌, ◌<◌, length, IfOk, IfErr, true};
ghost use Rattle.ty_table.specs.of_ty_core.Types.{var};
ghost use Rattle.ty_table.specs.TypeAt.{type_at, AllBelow};
ghost use Rattle.ty_solve.specs.Substitution.{is_open, is_below};
ghost use Rattle.ty_solve.specs.SlotsOf.{entries, tasks_of, row_in};
ghost use Rattle.ty_solve.specs.Said.{said};
ghost use Rattle.ty_solve.specs.Held.{AreHeldTasks};
ghost use Rattle.ty_solve.specs.Finding.{IsWalked};
ghost use Rattle.ty_solve.specs.Changes.{Demands, RefusesRow, IsFitRow};
ghost use Rattle.ty_solve.specs.Fields.{IsBase};
ghost use Rattle.ty_solve.specs.Solve.{undo};
ghost use Rattle.ty_solve.specs.Rows.{Known};

use crate::close::close;
use crate::refused::UnifyRefused;
use crate::row::{Row, copy_row, join};
use crate::subst::{Slot, Subst};
use crate::task::Todo;
use crate::trail::{Kept, write};
use crate::walk::occurs_in;
use std::alloc::Global;
use ty_table::ty_core::mark::Mark;
use ty_table::types::View;

/// What is known of a record that an open variable stands for.
fn base(alloc: Global, s: &Subst, y: usize) -> Result<Row, UnifyRefused>
    requires { is_open (said s.now y) ≡ true }
    ensures base { IfOk result (λ r. IsBase (length s.now.slots.items) (said s.now) y (row_in s.now.types r)) }
    ensures held { IfOk result (λ r. AllBelow (length s.now.types) r.types.items) }
    ensures cause { IfErr result (λ e. (r : Known) → RefusesRow (said s.now) r (var y) e) }
{
    match s.row(y) {
        Some(row) => Ok(copy_row(alloc, row)?),
        None => match s.mark_of(y) {
            Mark::Any => Ok(Row::empty(alloc, false)),
            Mark::Equality => Ok(Row::empty(alloc, true)),
            Mark::Class(_) => Err(UnifyRefused::Clash),
        },
    }
}

/// Gives an open variable the fields of a row, where `known` says what is known of it.
fn extend_known(
    alloc: Global,
    s: &mut Subst,
    y: usize,
    known: Row,
    row: &Row,
    tasks: &mut Vec<Todo>,
    trail: &mut Vec<Kept>,
) -> Result<(), UnifyRefused>
    requires in_range { y < length s.old.slots.items }
    requires open { is_open (said s.old y) ≡ true }
    requires known_is { IsBase (length s.old.slots.items) (said s.old) y (row_in s.old.types known) }
    requires known_held { AllBelow (length s.old.types) known.types.items }
    requires row_fits { IsFitRow (length s.old.slots.items) (row_in s.old.types row.now) }
    requires row_held { AllBelow (length s.old.types) row.now.types.items }
    ensures undone { undo trail.new.items s.new.slots.items ≡ undo trail.old.items s.old.slots.items }
    ensures same_length { length s.new.slots.items ≡ length s.old.slots.items }
    ensures types { s.new.types ≡ s.old.types }
    ensures demands { IfOk result (λ _. Demands (entries s.old.types s.old.slots.items) (entries s.old.types s.new.slots.items)
        (tasks_of s.old.types tasks.old.items) (tasks_of s.old.types tasks.new.items) (row_in s.old.types row.now) (var y)) }
    ensures held { IfOk result (λ _. AreHeldTasks (length s.old.types) tasks.old.items → AreHeldTasks (length s.old.types) tasks.new.items) }
    ensures cause { IfErr result (RefusesRow (said s.old) (row_in s.old.types row.now) (var y)) }
{
    let joined = join(alloc, &s.types, known, row, tasks)?;
    if occurs_in(alloc, s, y, &joined.types)? {
        return Err(UnifyRefused::Circular);
    }
    write(s, y, Slot::Partial(joined), trail)?;
    Ok(())
}

/// Gives an open variable the fields of a row.
fn extend(
    alloc: Global,
    s: &mut Subst,
    y: usize,
    row: &Row,
    tasks: &mut Vec<Todo>,
    trail: &mut Vec<Kept>,
) -> Result<(), UnifyRefused>
    requires in_range { y < length s.old.slots.items }
    requires open { is_open (said s.old y) ≡ true }
    requires row_fits { IsFitRow (length s.old.slots.items) (row_in s.old.types row.now) }
    requires row_held { AllBelow (length s.old.types) row.now.types.items }
    ensures undone { undo trail.new.items s.new.slots.items ≡ undo trail.old.items s.old.slots.items }
    ensures same_length { length s.new.slots.items ≡ length s.old.slots.items }
    ensures types { s.new.types ≡ s.old.types }
    ensures demands { IfOk result (λ _. Demands (entries s.old.types s.old.slots.items) (entries s.old.types s.new.slots.items)
        (tasks_of s.old.types tasks.old.items) (tasks_of s.old.types tasks.new.items) (row_in s.old.types row.now) (var y)) }
    ensures held { IfOk result (λ _. AreHeldTasks (length s.old.types) tasks.old.items → AreHeldTasks (length s.old.types) tasks.new.items) }
    ensures cause { IfErr result (RefusesRow (said s.old) (row_in s.old.types row.now) (var y)) }
{
    match base(alloc, s, y) {
        Err(refused) => Err(refused),
        Ok(known) => extend_known(alloc, s, y, known, row, tasks, trail),
    }
}

/// Gives a type the fields of a row.
pub fn demand(
    alloc: Global,
    s: &mut Subst,
    t: usize,
    row: &Row,
    tasks: &mut Vec<Todo>,
    trail: &mut Vec<Kept>,
) -> Result<(), UnifyRefused>
    requires walked { IsWalked (said s.old) (type_at s.old.types t) }
    requires in_bounds { is_below (length s.old.slots.items) (type_at s.old.types t) ≡ true }
    requires row_fits { IsFitRow (length s.old.slots.items) (row_in s.old.types row.now) }
    requires row_held { AllBelow (length s.old.types) row.now.types.items }
    ensures undone { undo trail.new.items s.new.slots.items ≡ undo trail.old.items s.old.slots.items }
    ensures same_length { length s.new.slots.items ≡ length s.old.slots.items }
    ensures types { s.new.types ≡ s.old.types }
    ensures demands { IfOk result (λ _. Demands (entries s.old.types s.old.slots.items) (entries s.old.types s.new.slots.items)
        (tasks_of s.old.types tasks.old.items) (tasks_of s.old.types tasks.new.items) (row_in s.old.types row.now) (type_at s.old.types t)) }
    ensures held { IfOk result (λ _. AreHeldTasks (length s.old.types) tasks.old.items → AreHeldTasks (length s.old.types) tasks.new.items) }
    ensures cause { IfErr result (RefusesRow (said s.old) (row_in s.old.types row.now) (type_at s.old.types t)) }
{
    match s.types.view(t) {
        View::Var(y) => extend(alloc, s, y, row, tasks, trail),
        View::Apply(head, types) => close(alloc, &s.types, head, types, row, tasks),
    }
}
