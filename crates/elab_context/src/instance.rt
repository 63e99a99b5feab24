// Instances of the context's schemes.
ghost use Rattle.std.specs.Prelude.{◌≡◌, ◌<◌, length, IfOk};
ghost use Rattle.elab_steps.specs.Growing.{HasType, Always, Grows};
ghost use Rattle.elab_steps.specs.Instances.{IsInstance};
ghost use Rattle.elab_steps.specs.World.{type_of};
ghost use Rattle.elab_context.specs.Entries.{limit_of};
ghost use Rattle.elab_context.specs.Telling.{scheme_at, IsContext};

use crate::context::Context;
use elab_steps::elab_state::state::State;
use elab_steps::instance::instance;
use mlc_base::memory::NoMemory;
use std::alloc::Global;

/// The body of a scheme with new variables for its parameters.
pub fn instance_at(
    alloc: Global,
    state: &mut State,
    context: &Context,
    scheme: usize,
) -> Result<usize, NoMemory>
    requires context { IsContext state.old context.now }
    requires held { scheme < length context.now.schemes.items }
    ensures grows { IfOk result (λ _. Grows state.old state.new) }
    ensures is { IfOk result (λ r. HasType state.new r) }
    ensures instance { IfOk result (λ r. Always state.new
        (λ W. IsInstance W (limit_of context.now) (scheme_at context.now W scheme).marks (scheme_at context.now W scheme).body (type_of W r))) }
    ensures next { IfOk result (λ _. state.new.next ≡ state.old.next) }
{
    let found = context.schemes.at(scheme);
    let ty = instance(alloc, state, &found.marks, found.body, context.limit())?;
    Ok(ty)
}
