// Instances at new variables.
ghost use Rattle.std.specs.Prelude.{◌≡◌, ◌+◌, ◌<◌, ◌≤◌, ◌++◌, ℕ, Some, length, map, slice_get, take, IfOk, true};
ghost use Rattle.std.specs.List.{AllByRecursion};
ghost use Rattle.ty_solve.specs.of_ty_core.Statics.{replace};
ghost use Rattle.ty_solve.specs.of_ty_core.Marks.{is_inhabited};
ghost use Rattle.ty_solve.specs.of_ty_table.TypeAt.{type_at, AllBelow};
ghost use Rattle.ty_solve.specs.Said.{said};
ghost use Rattle.ty_solve.specs.Substitution.{is_below};
ghost use Rattle.ty_solve.specs.declared.subst.Slot.TheVariants.{Open};
ghost use Rattle.ty_instance.specs.Put.{put_for};
ghost use Rattle.ty_instance.specs.Renamed.{renamed, variables_from};

use crate::put::put;
use crate::within::instantiate_in;
use mlc_base::memory::NoMemory;
use std::alloc::Global;
use ty_solve::limit::Limit;
use ty_solve::solver::Solver;
use ty_solve::ty_core::mark::Mark;

/// The types that are new variables with these marks, in their order.
fn fresh_variables(
    alloc: Global,
    solver: &mut Solver,
    marks: &[Mark],
    limit: Limit,
) -> Result<Vec<usize>, NoMemory>
    requires inhabited { AllByRecursion (λ m. is_inhabited m ≡ true) marks.now }
    requires wide { 4 ≤ limit.names }
    ensures variables { IfOk result (λ ks. map (type_at solver.new.subst.types) ks.items ≡ variables_from (length solver.old.subst.slots.items) (length marks.now)) }
    ensures held { IfOk result (λ ks. AllBelow (length solver.new.subst.types) ks.items) }
    ensures marked { IfOk result (λ _. solver.new.subst.slots.items ≡ solver.old.subst.slots.items ++ map Open marks.now) }
    ensures limited { IfOk result (λ _. solver.new.limits.items ≡ solver.old.limits.items ++ map (λ _. limit) marks.now) }
    ensures earlier_stay { take (length solver.old.subst.types) solver.new.subst.types ≡ solver.old.subst.types }
    ensures slots_stay { take (length solver.old.subst.slots.items) solver.new.subst.slots.items ≡ solver.old.subst.slots.items }
    ensures limits_stay { take (length solver.old.limits.items) solver.new.limits.items ≡ solver.old.limits.items }
{
    let mut variables = Vec::new(alloc);
    for mark in marks {
        let v = solver.fresh(*mark, limit)?;
        variables.push(solver.variable(alloc, v)?)?;
    }
    Ok(variables)
}

/// The body of a scheme with new variables of these marks put for its parameters, each within the limit.
pub fn instantiate_fresh(
    alloc: Global,
    solver: &mut Solver,
    marks: &[Mark],
    body: usize,
    limit: Limit,
) -> Result<usize, NoMemory>
    requires inhabited { AllByRecursion (λ m. is_inhabited m ≡ true) marks.now }
    requires wide { 4 ≤ limit.names }
    requires body { body < length solver.old.subst.types }
    ensures is { IfOk result (λ r. slice_get solver.new.subst.types r
        ≡ Some (replace (renamed (length solver.old.subst.slots.items) (length marks.now)) (type_at solver.old.subst.types body))) }
    ensures marked { IfOk result (λ _. solver.new.subst.slots.items ≡ solver.old.subst.slots.items ++ map Open marks.now) }
    ensures limited { IfOk result (λ _. solver.new.limits.items ≡ solver.old.limits.items ++ map (λ _. limit) marks.now) }
    ensures known { IfOk result (λ r. is_below (length marks.now + length solver.old.subst.slots.items) (type_at solver.old.subst.types body) ≡ true
        → is_below (length solver.new.subst.slots.items) (type_at solver.new.subst.types r) ≡ true) }
    ensures says { IfOk result (λ _. (v : ℕ) → v < length solver.old.subst.slots.items → said solver.new.subst v ≡ said solver.old.subst v) }
    ensures earlier_stay { take (length solver.old.subst.types) solver.new.subst.types ≡ solver.old.subst.types }
    ensures slots_stay { take (length solver.old.subst.slots.items) solver.new.subst.slots.items ≡ solver.old.subst.slots.items }
    ensures limits_stay { take (length solver.old.limits.items) solver.new.limits.items ≡ solver.old.limits.items }
{
    let images = fresh_variables(alloc, solver, marks, limit)?;
    instantiate_in(alloc, &mut solver.subst, body, &images)
}

/// The body with new variables of these marks put for the variables `parameters`, each within the limit.
pub fn put_fresh(
    alloc: Global,
    solver: &mut Solver,
    marks: &[Mark],
    body: usize,
    parameters: &[usize],
    limit: Limit,
) -> Result<usize, NoMemory>
    requires inhabited { AllByRecursion (λ m. is_inhabited m ≡ true) marks.now }
    requires wide { 4 ≤ limit.names }
    requires body { body < length solver.old.subst.types }
    requires each_has_one { length parameters.now ≡ length marks.now }
    ensures is { IfOk result (λ r. slice_get solver.new.subst.types r
        ≡ Some (replace (put_for parameters.now (variables_from (length solver.old.subst.slots.items) (length marks.now)))
        (type_at solver.old.subst.types body))) }
    ensures marked { IfOk result (λ _. solver.new.subst.slots.items ≡ solver.old.subst.slots.items ++ map Open marks.now) }
    ensures limited { IfOk result (λ _. solver.new.limits.items ≡ solver.old.limits.items ++ map (λ _. limit) marks.now) }
    ensures says { IfOk result (λ _. (v : ℕ) → v < length solver.old.subst.slots.items → said solver.new.subst v ≡ said solver.old.subst v) }
    ensures earlier_stay { take (length solver.old.subst.types) solver.new.subst.types ≡ solver.old.subst.types }
    ensures slots_stay { take (length solver.old.subst.slots.items) solver.new.subst.slots.items ≡ solver.old.subst.slots.items }
    ensures limits_stay { take (length solver.old.limits.items) solver.new.limits.items ≡ solver.old.limits.items }
{
    let images = fresh_variables(alloc, solver, marks, limit)?;
    put(alloc, &mut solver.subst, body, parameters, &images)
}
