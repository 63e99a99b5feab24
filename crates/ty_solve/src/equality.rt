// Types that are to admit equality.
ghost use Rattle.std.specs.Prelude.{◌≡◌, ◌<◌, length, IfOk, IfErr};
ghost use Rattle.ty_table.specs.TypeAt.{type_at, types_at, AllBelow};
ghost use Rattle.ty_solve.specs.SlotsOf.{tasks_of};
ghost use Rattle.ty_solve.specs.Said.{said};
ghost use Rattle.ty_solve.specs.Held.{AreHeldTasks};
ghost use Rattle.ty_solve.specs.Parts.{AdmitParts, RefusesParts, Looked, RefusesLook};

use crate::refused::UnifyRefused;
use crate::subst::Subst;
use crate::task::Todo;
use crate::walk::add_all;
use indexmap::IndexSet;
use std::alloc::Global;
use ty_table::ty_core::mark::Mark;
use ty_table::ty_core::name::Equality;
use ty_table::ty_core::ty::equality_of;
use ty_table::types::View;

/// Looks at the first node of a type that is to admit equality.
fn look_at(
    s: &Subst,
    k: usize,
    pending: &mut Vec<usize>,
    tasks: &mut Vec<Todo>,
) -> Result<(), UnifyRefused>
    ensures looked { IfOk result (λ _. Looked s.now.types (said s.now) k (tasks_of s.now.types tasks.old.items) (tasks_of s.now.types tasks.new.items)
        pending.old.items
        pending.new.items) }
    ensures held { IfOk result (λ _. k < length s.now.types → AllBelow (length s.now.types) pending.old.items
        → AreHeldTasks (length s.now.types) tasks.old.items
        → AllBelow (length s.now.types) pending.new.items × AreHeldTasks (length s.now.types) tasks.new.items) }
    ensures cause { IfErr result (RefusesLook (type_at s.now.types k)) }
{
    if s.types.admits_eq(k) {
        return Ok(());
    }
    match s.types.view(k) {
        View::Var(x) => match s.get(x) {
            Some(u) => pending.push(u)?,
            None => tasks.push(Todo::Admit(Mark::Equality, k))?,
        },
        View::Apply(head, parts) => match equality_of(head) {
            Equality::Always => {}
            Equality::ByArguments => add_all(pending, parts)?,
            Equality::Never => return Err(UnifyRefused::Clash),
        },
    }
    Ok(())
}

/// Asks that each type of a list admits equality. What is left is asked of open variables, and each type is looked at once.
pub fn admit_all(
    alloc: Global,
    s: &Subst,
    ts: &[usize],
    tasks: &mut Vec<Todo>,
) -> Result<(), UnifyRefused>
    ensures parts { IfOk result (λ _. AdmitParts (length s.now.slots.items) (said s.now) s.now.acyclic.0 (tasks_of s.now.types tasks.old.items)
        (tasks_of s.now.types tasks.new.items) (types_at s.now.types ts.now)) }
    ensures held { IfOk result (λ _. AllBelow (length s.now.types) ts.now → AreHeldTasks (length s.now.types) tasks.old.items
        → AreHeldTasks (length s.now.types) tasks.new.items) }
    ensures cause { IfErr result (RefusesParts (said s.now) (types_at s.now.types ts.now)) }
{
    let mut seen: IndexSet<usize> = IndexSet::new(alloc);
    let mut pending = Vec::new(alloc);
    add_all(&mut pending, ts)?;
    while let Some(next) = pending.pop() {
        let new = seen.insert(next)?;
        if new {
            match look_at(s, next, &mut pending, tasks) {
                Err(refused) => return Err(refused),
                Ok(()) => {}
            }
        }
    }
    Ok(())
}
