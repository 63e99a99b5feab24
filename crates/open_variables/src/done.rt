// Whether the open variables of types are done with. Each type is looked through once, whatever shares it.
ghost use Rattle.std.specs.Prelude.{◌≡◌, ◌↔◌, ◌++◌, IfOk, IsTrue, true};
ghost use Rattle.ty_table.specs.TypeAt.{type_at, top};
ghost use Rattle.ty_solve.specs.Said.{said};
ghost use Rattle.ty_solve.specs.Substitution.{is_open};
ghost use Rattle.ty_solve.specs.Walk.{LooksInRow};
ghost use Rattle.open_variables.specs.Open.{AreDone, is_done_in};
ghost use Rattle.open_variables.specs.Looking.{Sees, SeesOpen};

use indexmap::IndexSet;
use mlc_base::memory::NoMemory;
use std::alloc::Global;
use ty_solve::solver::Solver;
use ty_table::types::View;

/// Whether a variable is done with.
fn is_done(solver: &Solver, v: usize) -> bool
    ensures { result ≡ is_done_in solver.now v }
{
    v < solver.limits.len() && solver.limits[v].level == usize::MAX
}

/// Whether a type has no variable.
fn is_ground(solver: &Solver, k: usize) -> bool
    ensures { IsTrue result ↔ (top (type_at solver.now.subst.types k) ≡ 0) }
{
    solver.subst.types.top(k) == 0
}

/// Puts the types of a list on those that are pending.
fn add_all(pending: &mut Vec<usize>, types: &[usize]) -> Result<(), NoMemory>
    ensures { IfOk result (λ _. pending.new.items ≡ pending.old.items ++ types.now) }
{
    pending.extend_from_slice(types)?;
    Ok(())
}

/// Puts the types of a row's fields on those that are pending.
fn look_in_row(solver: &Solver, v: usize, pending: &mut Vec<usize>) -> Result<(), NoMemory>
    requires { is_open (said solver.now.subst v) ≡ true }
    ensures { IfOk result (λ _. LooksInRow solver.now.subst.types (said solver.now.subst) v pending.old.items pending.new.items) }
{
    match solver.subst.row(v) {
        Some(row) => add_all(pending, &row.types),
        None => Ok(()),
    }
}

/// Whether an open variable is done with. If so, the types of its fields are pending.
fn look_at_open(solver: &Solver, v: usize, pending: &mut Vec<usize>) -> Result<bool, NoMemory>
    requires { is_open (said solver.now.subst v) ≡ true }
    ensures { IfOk result (SeesOpen solver.now v pending.old.items pending.new.items) }
{
    if !is_done(solver, v) {
        return Ok(false);
    }
    look_in_row(solver, v, pending)?;
    Ok(true)
}

/// Whether a type is no open variable but one that is done with. If so, what it stands for, or its parts, are pending.
fn look_in(solver: &Solver, k: usize, pending: &mut Vec<usize>) -> Result<bool, NoMemory>
    ensures { IfOk result (Sees solver.now k pending.old.items pending.new.items) }
{
    match solver.subst.types.view(k) {
        View::Var(v) => match solver.subst.get(v) {
            Some(u) => {
                pending.push(u)?;
                Ok(true)
            }
            None => look_at_open(solver, v, pending),
        },
        View::Apply(_, parts) => {
            add_all(pending, parts)?;
            Ok(true)
        }
    }
}

/// Whether all variables that stand in these types, or in what their variables stand for, are bound or done with.
pub fn are_done(alloc: Global, solver: &Solver, types: Vec<usize>) -> Result<bool, NoMemory>
    ensures { IfOk result (λ done. IsTrue done ↔ AreDone solver.now types.items) }
{
    let mut seen: IndexSet<usize> = IndexSet::new(alloc);
    let mut pending = types;
    while let Some(next) = pending.pop() {
        if !is_ground(solver, next) {
            let new = seen.insert(next)?;
            if new {
                let done = look_in(solver, next, &mut pending)?;
                if !done {
                    return Ok(false);
                }
            }
        }
    }
    Ok(true)
}
