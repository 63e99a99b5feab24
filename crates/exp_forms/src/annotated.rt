// Expressions with types.
ghost use Rattle.std.specs.Prelude.{IfOk};
ghost use Rattle.sml_tree.specs.BareTree.{Exp as SourceExp, typed};
ghost use Rattle.sml_tree.specs.TreeOf.{ty_of};
ghost use Rattle.pat_elab.specs.of_elab_context.Telling.{IsContext};
ghost use Rattle.pat_elab.specs.of_elab_steps.Growing.{HasType};
ghost use Rattle.use_elab.specs.Elaborated.{IsExp};

use elab_types::refused::Refused;
use mlc_base::place::Place;
use pat_elab::annotate::annotate;
use pat_elab::elab_context::context::Context;
use pat_elab::elab_state::state::State;
use sml_tree::tree::Ty;
use std::alloc::Global;
use use_elab::typed::TypedExp;

/// An expression of the type that is written.
pub fn with_type(
    alloc: Global,
    state: &mut State,
    context: &Context,
    place: Place,
    ty: &Ty,
    inner: TypedExp,
) -> Result<TypedExp, Refused>
    requires context { IsContext state.old context.now }
    requires inner { HasType state.old inner.ty }
    ensures { IfOk result (λ r. (S : State) (p : Place) (e : SourceExp) → IsExp S context.now e state.old inner
        → IsExp S context.now (typed p e (ty_of ty.now)) state.new r) }
{
    annotate(alloc, state, context, place, ty, inner.ty)?;
    Ok(inner)
}
