// Arguments of exceptions.
ghost use Rattle.std.specs.Prelude.{◌≡◌, IfOk};
ghost use Rattle.sml_tree.specs.TreeOf.{some_ty_of, ty_of};
ghost use Rattle.exp_forms.specs.of_elab_context.Telling.{IsContext};
ghost use Rattle.dec_forms.specs.Exceptions.{IsArgumentOf};
ghost use Rattle.std.specs.Prelude.{Some};

use crate::made::Argument;
use closed_types::elab_state::state::State;
use closed_types::elab_steps::step::{fresh_type, write};
use elab_types::refused::Refused;
use exp_forms::elab_context::context::Context;
use exp_forms::pat_elab::annotate::annotate;
use mlc_base::place::Place;
use sml_tree::tree::Ty;
use std::alloc::Global;
use ty_core::mark::Mark;

/// An argument of the type that is written: one over the parameters and the type names in scope.
fn of_type(
    alloc: Global,
    state: &mut State,
    context: &Context,
    place: Place,
    ty: &Ty,
) -> Result<Argument, Refused>
    requires { IsContext state.old context.now }
    ensures { IfOk result (λ r. IsArgumentOf state.old context.now (Some (ty_of ty.now)) state.new r) }
{
    let number = fresh_type(alloc, state, Mark::Any, context.limit())?;
    annotate(alloc, state, context, place, ty, number)?;
    let written = write(state, number, context.naming)?;
    Ok(Argument {
        ty: Some(number),
        written: Some(written),
    })
}

/// What stands behind `of`, if that is there.
pub fn argument_of(
    alloc: Global,
    state: &mut State,
    context: &Context,
    place: Place,
    ty: &Option<Ty>,
) -> Result<Argument, Refused>
    requires { IsContext state.old context.now }
    ensures { IfOk result (λ r. IsArgumentOf state.old context.now (some_ty_of ty.now) state.new r) }
{
    match ty {
        Some(ty) => of_type(alloc, state, context, place, ty),
        None => Ok(Argument {
            ty: None,
            written: None,
        }),
    }
}
