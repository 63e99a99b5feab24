// Operands joined by `andalso`, or by `orelse`.
ghost use Rattle.std.specs.Prelude.{List, map, IfOk};
ghost use Rattle.ty_basis.specs.Types.{bool_type};
ghost use Rattle.sml_tree.specs.BareTree.{Exp as SourceExp};
ghost use Rattle.sml_tree.specs.Derived.{join as join_exps, right_chain};
ghost use Rattle.pat_elab.specs.of_elab_context.Telling.{IsContext};
ghost use Rattle.pat_elab.specs.of_elab_steps.Growing.{HasType};
ghost use Rattle.use_elab.specs.Elaborated.{IsExp};
ghost use Rattle.exp_forms.specs.Parts.{AreExpsOf};
ghost use Rattle.exp_forms.specs.Chains.{Operands};
ghost use Rattle.exp_forms.specs.Choices.{AreJoined};

use crate::series::tests;
use elab_types::refused::Refused;
use mlc_base::place::Place;
use pat_elab::elab_context::context::Context;
use pat_elab::elab_state::state::State;
use prog_tree::tree::Exp;
use std::alloc::Global;
use use_elab::typed::TypedExp;

/// A chain of `andalso` (true) or `orelse` (false), of operands that were added one after the other, and the last.
pub fn choices(
    alloc: Global,
    state: &mut State,
    context: &Context,
    place: Place,
    all: bool,
    before: Vec<Exp>,
    last: TypedExp,
) -> Result<TypedExp, Refused>
    requires context { IsContext state.old context.now }
    requires last { HasType state.old last.ty }
    ensures { IfOk result (λ r. (S M : State) (p q : Place) (a e : SourceExp) (os : Operands) (es : List (Place × SourceExp)) → AreJoined all p a os es q e
        → AreExpsOf S context.now (map (λ b. b.1) es) M before.items bool_type → IsExp M context.now e state.old last
        → IsExp S context.now (right_chain join_exps p a os) state.new r) }
{
    tests(alloc, state, context, place, all, before, last)
}
