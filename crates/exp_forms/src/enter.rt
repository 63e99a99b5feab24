// The beginning of a rule: its pattern takes what the rules take, and its variables come into scope.
ghost use Rattle.std.specs.Prelude.{◌≡◌, IfOk};
ghost use Rattle.pat_elab.specs.of_elab_context.Telling.{IsContext};
ghost use Rattle.pat_elab.specs.of_elab_steps.Growing.{HasType};
ghost use Rattle.exp_forms.specs.Within.{within};
ghost use Rattle.pat_elab.specs.Elaborated.{AreVariables};
ghost use Rattle.exp_forms.specs.Rules.{IsEntered};

use crate::bind::bind_all;
use crate::distinct::check_once;
use elab_types::refused::Refused;
use mlc_base::place::Place;
use pat_elab::bound::BoundVariable;
use pat_elab::elab_context::context::Context;
use pat_elab::elab_state::state::State;
use pat_elab::elab_steps::step::unify;
use std::alloc::Global;

/// The type of a pattern is made that of what the rules take, and its variables come into scope.
pub fn enter(
    alloc: Global,
    state: &mut State,
    context: &mut Context,
    place: Place,
    domain: usize,
    ty: usize,
    bound: &[BoundVariable],
) -> Result<(), Refused>
    requires context { IsContext state.old context.old }
    requires domain { HasType state.old domain }
    requires ty { HasType state.old ty }
    requires have { AreVariables state.old bound.now }
    ensures within { IfOk result (λ _. context.new ≡ within context.old bound.now) }
    ensures entered { IfOk result (λ _. IsEntered state.old bound.now ty domain state.new) }
    ensures context { IfOk result (λ _. IsContext state.new context.new) }
{
    check_once(alloc, place, bound)?;
    unify(alloc, state, place, ty, domain)?;
    bind_all(context, bound)?;
    Ok(())
}
