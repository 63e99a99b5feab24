// Types put for parameters, in the state.
ghost use Rattle.std.specs.Prelude.{◌≡◌, ◌<◌, true, Some, length, map, slice_get, take, IfOk};
ghost use Rattle.ty_core.specs.Statics.{replace};
ghost use Rattle.ty_table.specs.TypeAt.{type_at, AllBelow};
ghost use Rattle.ty_solve.specs.Said.{said};
ghost use Rattle.ty_solve.specs.Substitution.{is_below, sub};
ghost use Rattle.ty_instance.specs.Images.{image_at};
ghost use Rattle.ty_instance.specs.Put.{put_for};
ghost use Rattle.ir_poly.specs.Types.{changed, nth_type};
ghost use Rattle.elab_context.specs.of_elab_state.States.{types_in};
ghost use Rattle.elab_context.specs.of_elab_steps.Growing.{HasGeneral, HasType, Always, AreTypes, Grows};
ghost use Rattle.elab_context.specs.of_elab_steps.World.{type_of};
ghost use Rattle.use_elab.specs.Fresh.{images_of};

use elab_context::elab_state::state::State;
use mlc_base::memory::NoMemory;
use std::alloc::Global;
use ty_core::scheme::Quantified;
use ty_instance::put::put;
use ty_instance::within::instantiate_in;
use ty_solve::solver::Solver;

/// In the table of a solver.
fn instance_within(
    alloc: Global,
    solver: &mut Solver,
    body: usize,
    images: &[usize],
) -> Result<usize, NoMemory>
    requires body { body < length solver.old.subst.types }
    requires images { AllBelow (length solver.old.subst.types) images.now }
    ensures is { IfOk result (λ r. slice_get solver.new.subst.types r
        ≡ Some (replace (image_at solver.old.subst.types images.now) (type_at solver.old.subst.types body))) }
    ensures earlier_stay { take (length solver.old.subst.types) solver.new.subst.types ≡ solver.old.subst.types }
    ensures slots { solver.new.subst.slots.items ≡ solver.old.subst.slots.items }
    ensures limits { solver.new.limits.items ≡ solver.old.limits.items }
    ensures says { said solver.new.subst ≡ said solver.old.subst }
{
    instantiate_in(alloc, &mut solver.subst, body, images)
}

/// The body of a closed scheme at types for its parameters.
pub fn instance_with(
    alloc: Global,
    state: &mut State,
    body: usize,
    images: &[usize],
) -> Result<usize, NoMemory>
    requires body { body < length (types_in state.old) }
    requires closed { is_below (length images.now) (type_at (types_in state.old) body) ≡ true }
    requires images { AreTypes state.old images.now }
    ensures grows { IfOk result (λ _. Grows state.old state.new) }
    ensures is { IfOk result (λ r. HasType state.new r) }
    ensures has { IfOk result (λ r. Always state.new (λ W. type_of W r ≡ replace (nth_type (images_of W images.now)) (W.raw body))) }
    ensures next { IfOk result (λ _. state.new.next ≡ state.old.next) }
{
    instance_within(alloc, &mut state.solver, body, images)
}

/// The variables that are parameters.
fn variables_of(alloc: Global, parameters: &[Quantified]) -> Result<Vec<usize>, NoMemory>
    ensures { IfOk result (λ vs. vs.items ≡ map (λ q. q.variable) parameters.now) }
{
    let mut variables = Vec::new(alloc);
    for i in 0..parameters.len() {
        variables.push(parameters[i].variable)?;
    }
    Ok(variables)
}

/// In the table of a solver.
fn put_within(
    alloc: Global,
    solver: &mut Solver,
    body: usize,
    variables: &[usize],
    images: &[usize],
) -> Result<usize, NoMemory>
    requires body { body < length solver.old.subst.types }
    requires images { AllBelow (length solver.old.subst.types) images.now }
    requires each_has_one { length images.now ≡ length variables.now }
    ensures is { IfOk result (λ r. slice_get solver.new.subst.types r
        ≡ Some (replace (put_for variables.now (map (type_at solver.old.subst.types) images.now)) (type_at solver.old.subst.types body))) }
    ensures earlier_stay { take (length solver.old.subst.types) solver.new.subst.types ≡ solver.old.subst.types }
    ensures slots { solver.new.subst.slots.items ≡ solver.old.subst.slots.items }
    ensures limits { solver.new.limits.items ≡ solver.old.limits.items }
    ensures says { said solver.new.subst ≡ said solver.old.subst }
{
    put(alloc, &mut solver.subst, body, variables, images)
}

/// A type with other types for parameters, which are variables of the table.
pub fn put_with(
    alloc: Global,
    state: &mut State,
    body: usize,
    parameters: &[Quantified],
    images: &[usize],
) -> Result<usize, NoMemory>
    requires body { HasGeneral state.old parameters.now body }
    requires images { AreTypes state.old images.now }
    requires each_has_one { length images.now ≡ length parameters.now }
    ensures grows { IfOk result (λ _. Grows state.old state.new) }
    ensures is { IfOk result (λ r. HasType state.new r) }
    ensures has { IfOk result (λ r. Always state.new
        (λ W. type_of W r ≡ sub (changed parameters.now (images_of W images.now) W.value) (W.raw body))) }
    ensures next { IfOk result (λ _. state.new.next ≡ state.old.next) }
{
    let variables = variables_of(alloc, parameters)?;
    put_within(alloc, &mut state.solver, body, &variables, images)
}
