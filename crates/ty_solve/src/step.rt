// One task at a time: what it leaves to be done, or which change it asks for.
ghost use Rattle.std.specs.Prelude.{◌≡◌, ◌↔◌, ◌<◌, ◌++◌, ◌∷◌, [], false, ℕ, IsTrue, IfOk, IfErr, List, length, map, true, None};
ghost use Rattle.std.specs.Option.{option_map};
ghost use Rattle.ty_table.specs.of_ty_core.Types.{Typ, Symbol, var, con, none};
ghost use Rattle.ty_table.specs.of_ty_core.Marks.{IsOf, Allows, is_inhabited};
ghost use Rattle.ty_table.specs.TypeAt.{type_at, types_at, AllBelow};
ghost use Rattle.ty_solve.specs.Substitution.{is_below, are_below, is_open, free, mark as mark_of};
ghost use Rattle.ty_solve.specs.SlotsOf.{seen, entries, task_of, tasks_of, write_of, row_in, row_of};
ghost use Rattle.ty_solve.specs.Said.{said};
ghost use Rattle.ty_table.specs.of_ty_core.TypesOf.{head_of};
ghost use Rattle.ty_solve.specs.Finding.{Reads, IsWalked};
ghost use Rattle.ty_solve.specs.Compared.{Waits, WasThere, Remembers};
ghost use Rattle.ty_solve.specs.Held.{AreHeldTasks, IsHeldMove, KeepsHeld};
ghost use Rattle.ty_solve.specs.Parts.{EqualParts};
ghost use Rattle.ty_solve.specs.Task.{Task, Equal, Admit};
ghost use Rattle.ty_solve.specs.Tasks.{Steps, RefusesTask, Comes, RefusesTasks, AreWithin};

use crate::equality::admit_all;
use crate::refused::UnifyRefused;
use crate::row::Row;
use crate::subst::Subst;
use crate::task::{Move, Todo};
use indexmap::IndexSet;
use mlc_base::memory::NoMemory;
use std::alloc::Global;
use ty_table::ty_core::mark::{Class, Mark, is_of, meet};
use ty_table::ty_core::name::Equality;
use ty_table::ty_core::ty::{Head, equality_of, same_head};
use ty_table::types::View;

/// Asks that the types of two lists are equal, one by one.
fn equal_parts(s: &Subst, ts: &[usize], us: &[usize], tasks: &mut Vec<Todo>) -> Result<(), NoMemory>
    requires { length ts.now ≡ length us.now }
    ensures parts { IfOk result (λ _. EqualParts (tasks_of s.now.types tasks.old.items) (tasks_of s.now.types tasks.new.items) (types_at s.now.types ts.now)
        (types_at s.now.types us.now)) }
    ensures held { IfOk result (λ _. AllBelow (length s.now.types) ts.now → AllBelow (length s.now.types) us.now
        → AreHeldTasks (length s.now.types) tasks.old.items
        → AreHeldTasks (length s.now.types) tasks.new.items) }
{
    let _types = &s.types;
    for i in 0..ts.len() {
        tasks.push(Todo::Equal(ts[i], us[i]))?;
    }
    Ok(())
}

/// Notes a pair that is compared. Whether it is new.
fn note(compared: &mut IndexSet<(usize, usize)>, a: usize, b: usize) -> Result<bool, NoMemory>
    ensures new { IfOk result (λ new. new ≡ true → compared.new.keys ≡ compared.old.keys ++ (a, b) ∷ []) }
    ensures old { IfOk result (λ new. new ≡ false → WasThere compared.old.keys compared.new.keys a b) }
{
    let new = compared.insert((a, b))?;
    Ok(new)
}

/// Makes the parts of two types equal that have one symbol.
fn compare(
    s: &Subst,
    a: usize,
    ts: &[usize],
    b: usize,
    us: &[usize],
    compared: &mut IndexSet<(usize, usize)>,
    tasks: &mut Vec<Todo>,
) -> Result<(), NoMemory>
    requires same_length { length ts.now ≡ length us.now }
    requires same_symbol { (h : Symbol) × (type_at s.now.types a ≡ con h (types_at s.now.types ts.now))
        × (type_at s.now.types b ≡ con h (types_at s.now.types us.now)) }
    requires remembered { Remembers s.now.types (seen s.now.types s.now.slots.items) None compared.old.keys
        (tasks_of s.now.types tasks.old.items ++ Equal (type_at s.now.types a) (type_at s.now.types b) ∷ []) }
    ensures steps { IfOk result (λ _. Steps (length (entries s.now.types s.now.slots.items)) (seen s.now.types s.now.slots.items) s.now.acyclic.0
        (tasks_of s.now.types tasks.old.items) (Equal (type_at s.now.types a) (type_at s.now.types b)) (tasks_of s.now.types tasks.new.items) None) }
    ensures remembers { IfOk result (λ _. Remembers s.now.types (seen s.now.types s.now.slots.items) None compared.new.keys
        (tasks_of s.now.types tasks.new.items)) }
    ensures held { IfOk result (λ _. AllBelow (length s.now.types) ts.now → AllBelow (length s.now.types) us.now
        → AreHeldTasks (length s.now.types) tasks.old.items
        → AreHeldTasks (length s.now.types) tasks.new.items) }
{
    let new = note(compared, a, b)?;
    if !new {
        return Ok(());
    }
    equal_parts(s, ts, us, tasks)?;
    Ok(())
}

/// Makes two types equal that are no bound variables. Of two variables the later one is bound, so that type variables stay what they stand for.
fn equal_found(
    s: &Subst,
    a: usize,
    b: usize,
    compared: &mut IndexSet<(usize, usize)>,
    tasks: &mut Vec<Todo>,
) -> Result<Option<Move>, UnifyRefused>
    requires left_walked { IsWalked (seen s.now.types s.now.slots.items) (type_at s.now.types a) }
    requires right_walked { IsWalked (seen s.now.types s.now.slots.items) (type_at s.now.types b) }
    requires remembered { Remembers s.now.types (seen s.now.types s.now.slots.items) None compared.old.keys
        (tasks_of s.now.types tasks.old.items ++ Equal (type_at s.now.types a) (type_at s.now.types b) ∷ []) }
    ensures steps { IfOk result (λ write. Steps (length (entries s.now.types s.now.slots.items)) (seen s.now.types s.now.slots.items) s.now.acyclic.0
        (tasks_of s.now.types tasks.old.items) (Equal (type_at s.now.types a) (type_at s.now.types b)) (tasks_of s.now.types tasks.new.items)
        (option_map (write_of s.now.types) write)) }
    ensures remembers { IfOk result (λ write. Remembers s.now.types (seen s.now.types s.now.slots.items) (option_map (write_of s.now.types) write)
        compared.new.keys
        (tasks_of s.now.types tasks.new.items)) }
    ensures held { IfOk result (λ write. KeepsHeld (length s.now.types) tasks.old.items (Todo.Equal a b) tasks.new.items write) }
    ensures cause { IfErr result (RefusesTask (seen s.now.types s.now.slots.items) (Equal (type_at s.now.types a) (type_at s.now.types b))) }
{
    match s.types.view(a) {
        View::Var(x) => match s.types.view(b) {
            View::Var(y) => {
                if x == y {
                    Ok(None)
                } else if x < y {
                    Ok(Some(Move::Bind(y, a)))
                } else {
                    Ok(Some(Move::Bind(x, b)))
                }
            }
            View::Apply(_, _) => Ok(Some(Move::Bind(x, b))),
        },
        View::Apply(h, ts) => match s.types.view(b) {
            View::Var(y) => Ok(Some(Move::Bind(y, a))),
            View::Apply(g, us) => {
                if !same_head(h, g) {
                    return Err(UnifyRefused::Clash);
                }
                if ts.len() != us.len() {
                    return Err(UnifyRefused::Clash);
                }
                compare(s, a, ts, b, us, compared, tasks)?;
                Ok(None)
            }
        },
    }
}

/// Makes two types equal.
fn equal(
    s: &Subst,
    a: usize,
    b: usize,
    compared: &mut IndexSet<(usize, usize)>,
    tasks: &mut Vec<Todo>,
) -> Result<Option<Move>, UnifyRefused>
    requires remembered { Remembers s.now.types (seen s.now.types s.now.slots.items) None compared.old.keys
        (tasks_of s.now.types tasks.old.items ++ Equal (type_at s.now.types a) (type_at s.now.types b) ∷ []) }
    ensures steps { IfOk result (λ write. Steps (length (entries s.now.types s.now.slots.items)) (seen s.now.types s.now.slots.items) s.now.acyclic.0
        (tasks_of s.now.types tasks.old.items) (Equal (type_at s.now.types a) (type_at s.now.types b)) (tasks_of s.now.types tasks.new.items)
        (option_map (write_of s.now.types) write)) }
    ensures remembers { IfOk result (λ write. Remembers s.now.types (seen s.now.types s.now.slots.items) (option_map (write_of s.now.types) write)
        compared.new.keys
        (tasks_of s.now.types tasks.new.items)) }
    ensures held { IfOk result (λ write. KeepsHeld (length s.now.types) tasks.old.items (Todo.Equal a b) tasks.new.items write) }
    ensures cause { IfErr result (RefusesTask (seen s.now.types s.now.slots.items) (Equal (type_at s.now.types a) (type_at s.now.types b))) }
{
    if a == b {
        return Ok(None);
    }
    let left = s.find(a);
    let right = s.find(b);
    equal_found(s, left, right, compared, tasks)
}

/// Lets a mark stand at a free variable.
fn remark(s: &Subst, x: usize, mark: Mark) -> Result<Option<Move>, UnifyRefused>
    requires { (seen s.now.types s.now.slots.items) x ≡ free (mark_of ((seen s.now.types s.now.slots.items) x)) }
    ensures steps { IfOk result (λ write. (tasks : List Task) → Steps (length (entries s.now.types s.now.slots.items)) (seen s.now.types s.now.slots.items)
        s.now.acyclic.0 tasks (Admit mark (var x)) tasks (option_map (write_of s.now.types) write)) }
    ensures held { IfOk result (λ write. IsHeldMove (length s.now.types) write) }
    ensures cause { IfErr result (RefusesTask (seen s.now.types s.now.slots.items) (Admit mark (var x))) }
{
    let old = s.mark_of(x);
    match meet(old, mark) {
        None => Err(UnifyRefused::Clash),
        Some(next) => {
            if next == old {
                Ok(None)
            } else {
                Ok(Some(Move::Remark(x, next)))
            }
        }
    }
}

/// Lets a mark stand at a variable that stands for a record.
fn remark_row(
    alloc: Global,
    s: &Subst,
    x: usize,
    row: &Row,
    mark: Mark,
    tasks: &mut Vec<Todo>,
) -> Result<Option<Move>, UnifyRefused>
    requires { said s.now x ≡ row_of (row_in s.now.types row.now) }
    ensures steps { IfOk result (λ write. Steps (length (entries s.now.types s.now.slots.items)) (said s.now) s.now.acyclic.0
        (tasks_of s.now.types tasks.old.items) (Admit mark (var x)) (tasks_of s.now.types tasks.new.items) (option_map (write_of s.now.types) write)) }
    ensures stay { IfOk result (λ _. (a b : Typ) → Waits (tasks_of s.now.types tasks.old.items) a b → Waits (tasks_of s.now.types tasks.new.items) a b) }
    ensures held { IfOk result (λ write. AllBelow (length s.now.types) row.now.types.items → AreHeldTasks (length s.now.types) tasks.old.items
        → AreHeldTasks (length s.now.types) tasks.new.items × IsHeldMove (length s.now.types) write) }
    ensures cause { IfErr result (RefusesTask (said s.now) (Admit mark (var x))) }
{
    match mark {
        Mark::Any => Ok(None),
        Mark::Class(_) => Err(UnifyRefused::Clash),
        Mark::Equality => {
            if !row.equality {
                return Ok(Some(Move::Further(x)));
            }
            match admit_all(alloc, s, &row.types, tasks) {
                Err(refused) => Err(refused),
                Ok(()) => Ok(None),
            }
        }
    }
}

/// Lets a mark stand at a variable that stands for no type yet.
fn admit_variable(
    alloc: Global,
    s: &Subst,
    x: usize,
    mark: Mark,
    tasks: &mut Vec<Todo>,
) -> Result<Option<Move>, UnifyRefused>
    requires { is_open (said s.now x) ≡ true }
    ensures steps { IfOk result (λ write. Steps (length (entries s.now.types s.now.slots.items)) (said s.now) s.now.acyclic.0
        (tasks_of s.now.types tasks.old.items) (Admit mark (var x)) (tasks_of s.now.types tasks.new.items) (option_map (write_of s.now.types) write)) }
    ensures stay { IfOk result (λ _. (a b : Typ) → Waits (tasks_of s.now.types tasks.old.items) a b → Waits (tasks_of s.now.types tasks.new.items) a b) }
    ensures held { IfOk result (λ write. AreHeldTasks (length s.now.types) tasks.old.items
        → AreHeldTasks (length s.now.types) tasks.new.items × IsHeldMove (length s.now.types) write) }
    ensures cause { IfErr result (RefusesTask (said s.now) (Admit mark (var x))) }
{
    match s.row(x) {
        None => remark(s, x, mark),
        Some(row) => remark_row(alloc, s, x, row, mark, tasks),
    }
}

/// Whether a type with this head and no arguments is of the class.
fn head_is_of(class: Class, head: &Head) -> bool
    ensures { IsTrue result ↔ IsOf class (con (head_of head.now) none) }
{
    match head {
        Head::Named(name) => is_of(class, *name),
        Head::Function => false,
        Head::Record(_) => false,
    }
}

/// Lets a mark stand at a type that is no variable.
fn admit_applied(
    alloc: Global,
    s: &Subst,
    mark: Mark,
    h: &Head,
    ts: &[usize],
    tasks: &mut Vec<Todo>,
) -> Result<(), UnifyRefused>
    ensures steps { IfOk result (λ _. Steps (length (entries s.now.types s.now.slots.items)) (seen s.now.types s.now.slots.items) s.now.acyclic.0
        (tasks_of s.now.types tasks.old.items) (Admit mark (con (head_of h.now) (types_at s.now.types ts.now))) (tasks_of s.now.types tasks.new.items)
        None) }
    ensures stay { IfOk result (λ _. (a b : Typ) → Waits (tasks_of s.now.types tasks.old.items) a b → Waits (tasks_of s.now.types tasks.new.items) a b) }
    ensures held { IfOk result (λ _. AllBelow (length s.now.types) ts.now → AreHeldTasks (length s.now.types) tasks.old.items
        → AreHeldTasks (length s.now.types) tasks.new.items) }
    ensures cause { IfErr result (RefusesTask (seen s.now.types s.now.slots.items) (Admit mark (con (head_of h.now) (types_at s.now.types ts.now)))) }
{
    match mark {
        Mark::Any => Ok(()),
        Mark::Equality => match equality_of(h) {
            Equality::Always => Ok(()),
            Equality::ByArguments => admit_all(alloc, s, ts, tasks),
            Equality::Never => Err(UnifyRefused::Clash),
        },
        Mark::Class(class) => {
            if !ts.is_empty() {
                return Err(UnifyRefused::Clash);
            }
            if head_is_of(class, h) {
                Ok(())
            } else {
                Err(UnifyRefused::Clash)
            }
        }
    }
}

/// Lets a mark stand at a type.
fn admit(
    alloc: Global,
    s: &Subst,
    mark: Mark,
    t: usize,
    tasks: &mut Vec<Todo>,
) -> Result<Option<Move>, UnifyRefused>
    ensures steps { IfOk result (λ write. Steps (length (entries s.now.types s.now.slots.items)) (seen s.now.types s.now.slots.items) s.now.acyclic.0
        (tasks_of s.now.types tasks.old.items) (Admit mark (type_at s.now.types t)) (tasks_of s.now.types tasks.new.items)
        (option_map (write_of s.now.types) write)) }
    ensures stay { IfOk result (λ _. (a b : Typ) → Waits (tasks_of s.now.types tasks.old.items) a b → Waits (tasks_of s.now.types tasks.new.items) a b) }
    ensures held { IfOk result (λ write. KeepsHeld (length s.now.types) tasks.old.items (Todo.Admit mark t) tasks.new.items write) }
    ensures cause { IfErr result (RefusesTask (seen s.now.types s.now.slots.items) (Admit mark (type_at s.now.types t))) }
{
    let found = s.find(t);
    match s.types.view(found) {
        View::Var(x) => admit_variable(alloc, s, x, mark, tasks),
        View::Apply(h, ts) => match admit_applied(alloc, s, mark, h, ts, tasks) {
            Ok(()) => Ok(None),
            Err(refused) => Err(refused),
        },
    }
}

/// Takes one task.
fn take(
    alloc: Global,
    s: &Subst,
    task: Todo,
    compared: &mut IndexSet<(usize, usize)>,
    tasks: &mut Vec<Todo>,
) -> Result<Option<Move>, UnifyRefused>
    requires remembered { Remembers s.now.types (seen s.now.types s.now.slots.items) None compared.old.keys
        (tasks_of s.now.types tasks.old.items ++ task_of s.now.types task ∷ []) }
    ensures steps { IfOk result (λ write. Steps (length (entries s.now.types s.now.slots.items)) (seen s.now.types s.now.slots.items) s.now.acyclic.0
        (tasks_of s.now.types tasks.old.items) (task_of s.now.types task) (tasks_of s.now.types tasks.new.items)
        (option_map (write_of s.now.types) write)) }
    ensures remembers { IfOk result (λ write. Remembers s.now.types (seen s.now.types s.now.slots.items) (option_map (write_of s.now.types) write)
        compared.new.keys
        (tasks_of s.now.types tasks.new.items)) }
    ensures held { IfOk result (λ write. KeepsHeld (length s.now.types) tasks.old.items task tasks.new.items write) }
    ensures cause { IfErr result (RefusesTask (seen s.now.types s.now.slots.items) (task_of s.now.types task)) }
{
    match task {
        Todo::Equal(a, b) => equal(s, a, b, compared, tasks),
        Todo::Admit(mark, t) => admit(alloc, s, mark, t, tasks),
    }
}

/// Takes tasks up to the first that asks for a change.
pub fn next_write(
    alloc: Global,
    s: &Subst,
    compared: &mut IndexSet<(usize, usize)>,
    tasks: &mut Vec<Todo>,
) -> Result<Option<Move>, UnifyRefused>
    requires remembered { Remembers s.now.types (seen s.now.types s.now.slots.items) None compared.old.keys (tasks_of s.now.types tasks.old.items) }
    requires held { AreHeldTasks (length s.now.types) tasks.old.items }
    ensures comes { IfOk result (λ write. Comes (length (entries s.now.types s.now.slots.items)) (seen s.now.types s.now.slots.items)
        (tasks_of s.now.types tasks.old.items) (tasks_of s.now.types tasks.new.items) (option_map (write_of s.now.types) write)) }
    ensures remembers { IfOk result (λ write. Remembers s.now.types (seen s.now.types s.now.slots.items) (option_map (write_of s.now.types) write)
        compared.new.keys
        (tasks_of s.now.types tasks.new.items)) }
    ensures held_tasks { IfOk result (λ _. AreHeldTasks (length s.now.types) tasks.new.items) }
    ensures held_write { IfOk result (IsHeldMove (length s.now.types)) }
    ensures cause { IfErr result (RefusesTasks (seen s.now.types s.now.slots.items) (tasks_of s.now.types tasks.old.items)) }
{
    while let Some(task) = tasks.pop() {
        match take(alloc, s, task, compared, tasks) {
            Err(refused) => return Err(refused),
            Ok(found) => match found {
                Some(write) => return Ok(Some(write)),
                None => {}
            },
        }
    }
    Ok(None)
}
