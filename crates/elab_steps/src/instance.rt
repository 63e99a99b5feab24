// Instances of schemes, in the state.
ghost use Rattle.std.specs.Prelude.{◌≡◌, ◌<◌, ◌≤◌, length, IfOk};
ghost use Rattle.elab_state.specs.States.{dead_level};
ghost use Rattle.elab_steps.specs.Growing.{HasType, Always, Grows};
ghost use Rattle.elab_steps.specs.Instances.{IsInstance, IsScheme};
ghost use Rattle.elab_steps.specs.World.{type_of};

use elab_state::state::State;
use elab_state::ty_instance::fresh::instantiate_fresh;
use elab_types::ty_solve::limit::Limit;
use mlc_base::memory::NoMemory;
use std::alloc::Global;
use ty_core::mark::Mark;

/// The body of a scheme with new variables for its parameters.
pub fn instance(
    alloc: Global,
    state: &mut State,
    marks: &[Mark],
    body: usize,
    limit: Limit,
) -> Result<usize, NoMemory>
    requires scheme { IsScheme state.old marks.now body }
    requires wide { 4 ≤ limit.names }
    requires deep { limit.level < dead_level }
    requires inside { limit.level ≤ state.old.level }
    ensures grows { IfOk result (λ _. Grows state.old state.new) }
    ensures is { IfOk result (λ r. HasType state.new r) }
    ensures instance { IfOk result (λ r. Always state.new (λ W. IsInstance W limit marks.now (W.raw body) (type_of W r))) }
    ensures next { IfOk result (λ _. state.new.next ≡ state.old.next) }
{
    let ty = instantiate_fresh(alloc, &mut state.solver, marks, body, limit)?;
    Ok(ty)
}
