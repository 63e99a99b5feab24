// An expression with its nodes.
ghost use Rattle.std.specs.Prelude.{◌≡◌, IfOk};
ghost use Rattle.sml_tree.specs.BareTree.{Exp as SourceExp};
ghost use Rattle.elab_steps.specs.Growing.{HasType};
ghost use Rattle.elab_context.specs.Telling.{IsContext};
ghost use Rattle.use_elab.specs.Elaborated.{IsExp};

use elab_context::context::Context;
use elab_state::state::State;
use elab_steps::step::write;
use elab_types::refused::Refused;
use mlc_base::make::boxed;
use prog_tree::tree::Exp;
use std::alloc::Global;
use use_elab::typed::TypedExp;

/// An expression that stands for so many nodes of the source: it elaborates to this as well.
pub fn counted(
    alloc: Global,
    state: &mut State,
    context: &Context,
    nodes: usize,
    made: TypedExp,
) -> Result<TypedExp, Refused>
    requires context { IsContext state.old context.now }
    requires ty { HasType state.old made.ty }
    ensures { IfOk result (λ r. (S : State) (C : Context) (e : SourceExp) → C ≡ context.now → IsExp S C e state.old made → IsExp S C e state.new r) }
{
    let ty = made.ty;
    let written = write(state, ty, context.naming)?;
    let exp = boxed(alloc, made.exp)?;
    Ok(TypedExp {
        exp: Exp::Counted(nodes, written, exp),
        ty,
    })
}
