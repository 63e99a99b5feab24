// Types that are written in the heads of functions.
ghost use Rattle.std.specs.Prelude.{◌≡◌, IfOk};
ghost use Rattle.sml_tree.specs.TreeOf.{pat_of, some_ty_of};
ghost use Rattle.elab_context.specs.Telling.{IsContext};
ghost use Rattle.elab_steps.specs.Growing.{HasType};
ghost use Rattle.dec_forms.specs.of_pat_elab.Elaborated.{IsAnnotatedIf};
ghost use Rattle.rec_groups.specs.Heads.{IsAnnotatedHead};

use dec_forms::pat_elab::annotate::annotate;
use elab_context::context::Context;
use elab_state::state::State;
use elab_types::refused::Refused;
use mlc_base::place::Place;
use sml_tree::tree::{Pat, Ty};
use std::alloc::Global;

/// Makes a type the one that is written, if one is.
fn annotate_if(
    alloc: Global,
    state: &mut State,
    context: &Context,
    place: Place,
    written: &Option<Ty>,
    ty: usize,
) -> Result<(), Refused>
    requires context { IsContext state.old context.now }
    requires ty { HasType state.old ty }
    ensures { IfOk result (λ _. IsAnnotatedIf state.old context.now (some_ty_of written.now) ty state.new) }
{
    match written {
        Some(written) => annotate(alloc, state, context, place, written, ty),
        None => Ok(()),
    }
}

/// Makes the type of a function those that are written in its head, where the group is in scope.
pub fn annotate_head(
    alloc: Global,
    state: &mut State,
    context: &Context,
    pat: &Pat,
    ty: usize,
) -> Result<(), Refused>
    requires context { IsContext state.old context.now }
    requires ty { HasType state.old ty }
    ensures { IfOk result (λ _. IsAnnotatedHead state.old context.now (pat_of pat.now) ty state.new) }
{
    match pat {
        Pat::Typed(place, inner, written) => {
            annotate_head(alloc, state, context, inner, ty)?;
            annotate(alloc, state, context, *place, written, ty)
        }
        Pat::As(place, _, written, inner) => {
            annotate_if(alloc, state, context, *place, written, ty)?;
            annotate_head(alloc, state, context, inner, ty)
        }
        Pat::Wild(_) => Ok(()),
        Pat::Vid(_, _) => Ok(()),
        Pat::Constant(_, _) => Ok(()),
        Pat::BuiltIn(_, _) => Ok(()),
        Pat::Record(_, _, _) => Ok(()),
        Pat::Tuple(_, _) => Ok(()),
        Pat::List(_, _) => Ok(()),
        Pat::Con(_, _, _, _) => Ok(()),
        Pat::BuiltCon(_, _, _) => Ok(()),
        Pat::Chain(_, _, first, _) => annotate_head(alloc, state, context, first, ty),
    }
}
