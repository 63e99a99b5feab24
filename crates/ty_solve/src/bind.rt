// Changes to what a variable stands for.
ghost use Rattle.std.specs.Prelude.{◌≡◌, ◌<◌, ℕ, List, length, IfOk, IfErr, IfSome, MatchOption, true, false};
ghost use Rattle.ty_table.specs.of_ty_core.Types.{Typ};
ghost use Rattle.ty_table.specs.TypeAt.{type_at, AllBelow};
ghost use Rattle.ty_solve.specs.Substitution.{free, mark as mark_of, is_open, aside, Resolves, sub, is_in};
ghost use Rattle.ty_solve.specs.SlotsOf.{seen, entries, tasks_of, row_in, row_of};
ghost use Rattle.ty_solve.specs.Said.{said};
ghost use Rattle.ty_solve.specs.Held.{AreHeldTasks};
ghost use Rattle.ty_solve.specs.Tasks.{Binds, Lowers, Narrows};
ghost use Rattle.ty_solve.specs.Changes.{Changes, RefusesWrite};
ghost use Rattle.ty_solve.specs.Solve.{undo};
ghost use Rattle.ty_solve.specs.Task.{Task, Bind, Remark, Further};

use crate::equality::admit_all;
use crate::extend::demand;
use crate::refused::UnifyRefused;
use crate::row::{Row, copy_row};
use crate::subst::{Slot, Subst};
use crate::task::Todo;
use crate::trail::{Kept, write};
use crate::walk::occurs;
use mlc_base::memory::NoMemory;
use std::alloc::Global;
use ty_table::ty_core::mark::Mark;

/// Lets a free variable stand for a type, and its mark stand at that type.
fn bind_free(
    s: &mut Subst,
    v: usize,
    t: usize,
    tasks: &mut Vec<Todo>,
    trail: &mut Vec<Kept>,
) -> Result<(), UnifyRefused>
    requires held { t < length s.old.types }
    requires binds { Binds (length (entries s.old.types s.old.slots.items)) (seen s.old.types s.old.slots.items) v (type_at s.old.types t) }
    requires avoids { (f : ℕ → Typ) → Resolves f (aside v (seen s.old.types s.old.slots.items)) → is_in v (sub f (type_at s.old.types t)) ≡ false }
    requires is_free { (seen s.old.types s.old.slots.items) v ≡ free (mark_of ((seen s.old.types s.old.slots.items) v)) }
    ensures undone { undo trail.new.items s.new.slots.items ≡ undo trail.old.items s.old.slots.items }
    ensures same_length { length s.new.slots.items ≡ length s.old.slots.items }
    ensures types { s.new.types ≡ s.old.types }
    ensures changes { IfOk result (λ _. Changes (entries s.old.types s.old.slots.items) (entries s.old.types s.new.slots.items)
        (tasks_of s.old.types tasks.old.items)
        (tasks_of s.old.types tasks.new.items) (Bind v (type_at s.old.types t))) }
    ensures held { IfOk result (λ _. AreHeldTasks (length s.old.types) tasks.old.items → AreHeldTasks (length s.old.types) tasks.new.items) }
    ensures cause { IfErr result (λ e. e ≡ UnifyRefused.Memory) }
{
    let mark = s.mark_of(v);
    write(s, v, Slot::Full(t), trail)?;
    tasks.push(Todo::Admit(mark, t))?;
    Ok(())
}

/// The row of a variable, in memory of its own.
fn own_row(alloc: Global, s: &Subst, v: usize) -> Result<Option<Row>, NoMemory>
    ensures own { IfOk result (λ own. MatchOption own (is_open (said s.now v) ≡ true → said s.now v ≡ free (mark_of (said s.now v)))
        (λ r. said s.now v ≡ row_of (row_in s.now.types r))) }
    ensures held { IfOk result (λ own. IfSome own (λ r. AllBelow (length s.now.types) r.types.items)) }
{
    match s.row(v) {
        None => Ok(None),
        Some(row) => Ok(Some(copy_row(alloc, row)?)),
    }
}

/// Lets a row stand for a type, and gives that type its fields.
fn bind_row(
    alloc: Global,
    s: &mut Subst,
    v: usize,
    t: usize,
    row: &Row,
    tasks: &mut Vec<Todo>,
    trail: &mut Vec<Kept>,
) -> Result<(), UnifyRefused>
    requires held { t < length s.old.types }
    requires binds { Binds (length (entries s.old.types s.old.slots.items)) (said s.old) v (type_at s.old.types t) }
    requires avoids { (f : ℕ → Typ) → Resolves f (aside v (said s.old)) → is_in v (sub f (type_at s.old.types t)) ≡ false }
    requires is_row { said s.old v ≡ row_of (row_in s.old.types row.now) }
    requires row_held { AllBelow (length s.old.types) row.now.types.items }
    ensures undone { undo trail.new.items s.new.slots.items ≡ undo trail.old.items s.old.slots.items }
    ensures same_length { length s.new.slots.items ≡ length s.old.slots.items }
    ensures types { s.new.types ≡ s.old.types }
    ensures changes { IfOk result (λ _. Changes (entries s.old.types s.old.slots.items) (entries s.old.types s.new.slots.items)
        (tasks_of s.old.types tasks.old.items) (tasks_of s.old.types tasks.new.items) (Bind v (type_at s.old.types t))) }
    ensures held { IfOk result (λ _. AreHeldTasks (length s.old.types) tasks.old.items → AreHeldTasks (length s.old.types) tasks.new.items) }
    ensures cause { IfErr result (RefusesWrite (said s.old) (Bind v (type_at s.old.types t))) }
{
    write(s, v, Slot::Full(t), trail)?;
    demand(alloc, s, t, row, tasks, trail)
}

/// Lets a variable stand for a type, and what was asked of it stand at that type.
pub fn bind_variable(
    alloc: Global,
    s: &mut Subst,
    v: usize,
    t: usize,
    tasks: &mut Vec<Todo>,
    trail: &mut Vec<Kept>,
) -> Result<(), UnifyRefused>
    requires held { t < length s.old.types }
    requires binds { Binds (length (entries s.old.types s.old.slots.items)) (seen s.old.types s.old.slots.items) v (type_at s.old.types t) }
    ensures undone { undo trail.new.items s.new.slots.items ≡ undo trail.old.items s.old.slots.items }
    ensures same_length { length s.new.slots.items ≡ length s.old.slots.items }
    ensures types { s.new.types ≡ s.old.types }
    ensures changes { IfOk result (λ _. Changes (entries s.old.types s.old.slots.items) (entries s.old.types s.new.slots.items)
        (tasks_of s.old.types tasks.old.items)
        (tasks_of s.old.types tasks.new.items) (Bind v (type_at s.old.types t))) }
    ensures held { IfOk result (λ _. AreHeldTasks (length s.old.types) tasks.old.items → AreHeldTasks (length s.old.types) tasks.new.items) }
    ensures cause { IfErr result (RefusesWrite (seen s.old.types s.old.slots.items) (Bind v (type_at s.old.types t))) }
{
    if occurs(alloc, s, v, t)? {
        return Err(UnifyRefused::Circular);
    }
    match own_row(alloc, s, v)? {
        None => bind_free(s, v, t, tasks, trail),
        Some(row) => bind_row(alloc, s, v, t, &row, tasks, trail),
    }
}

/// Gives a free variable a mark that allows less.
pub fn lower_mark(
    s: &mut Subst,
    v: usize,
    mark: Mark,
    trail: &mut Vec<Kept>,
) -> Result<(), UnifyRefused>
    requires { Lowers (length (entries s.old.types s.old.slots.items)) (seen s.old.types s.old.slots.items) v mark }
    ensures undone { undo trail.new.items s.new.slots.items ≡ undo trail.old.items s.old.slots.items }
    ensures same_length { length s.new.slots.items ≡ length s.old.slots.items }
    ensures types { s.new.types ≡ s.old.types }
    ensures changes { IfOk result (λ _. (tasks : List Task) → Changes (entries s.old.types s.old.slots.items) (entries s.old.types s.new.slots.items)
        tasks tasks
        (Remark v mark)) }
    ensures cause { IfErr result (λ e. e ≡ UnifyRefused.Memory) }
{
    write(s, v, Slot::Open(mark), trail)?;
    Ok(())
}

/// Asks that all fields of a row admit equality.
pub fn narrow(
    alloc: Global,
    s: &mut Subst,
    v: usize,
    tasks: &mut Vec<Todo>,
    trail: &mut Vec<Kept>,
) -> Result<(), UnifyRefused>
    requires { Narrows (length (entries s.old.types s.old.slots.items)) (said s.old) v }
    ensures undone { undo trail.new.items s.new.slots.items ≡ undo trail.old.items s.old.slots.items }
    ensures same_length { length s.new.slots.items ≡ length s.old.slots.items }
    ensures types { s.new.types ≡ s.old.types }
    ensures changes { IfOk result (λ _. Changes (entries s.old.types s.old.slots.items) (entries s.old.types s.new.slots.items)
        (tasks_of s.old.types tasks.old.items) (tasks_of s.old.types tasks.new.items) (Further v)) }
    ensures held { IfOk result (λ _. AreHeldTasks (length s.old.types) tasks.old.items → AreHeldTasks (length s.old.types) tasks.new.items) }
    ensures cause { IfErr result (RefusesWrite (said s.old) (Further v)) }
{
    match own_row(alloc, s, v)? {
        None => Ok(()),
        Some(row) => {
            match admit_all(alloc, s, &row.types, tasks) {
                Err(refused) => return Err(refused),
                Ok(()) => {}
            }
            let Row { labels, types, .. } = row;
            let narrower = Row {
                equality: true,
                labels,
                types,
            };
            write(s, v, Slot::Partial(narrower), trail)?;
            Ok(())
        }
    }
}
