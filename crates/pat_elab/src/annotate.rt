// Patterns with types.
ghost use Rattle.std.specs.Prelude.{IfOk};
ghost use Rattle.sml_tree.specs.TreeOf.{ty_of, some_ty_of};
ghost use Rattle.elab_context.specs.Telling.{IsContext};
ghost use Rattle.elab_context.specs.of_elab_steps.Growing.{HasType};
ghost use Rattle.pat_elab.specs.Elaborated.{IsAnnotated, IsAnnotatedIf, IsNamed};

use elab_context::context::Context;
use elab_context::elab_state::state::State;
use elab_context::elab_steps::annotate::annotated;
use elab_context::elab_steps::step::unify;
use elab_types::refused::Refused;
use mlc_base::place::Place;
use sml_tree::tree::Ty;
use std::alloc::Global;

/// Makes a type the one that is written.
#[tactic(auto, using(crate::proofs::Annotated::annotated_is))]
pub fn annotate(
    alloc: Global,
    state: &mut State,
    context: &Context,
    place: Place,
    ty: &Ty,
    number: usize,
) -> Result<(), Refused>
    requires context { IsContext state.old context.now }
    requires number { HasType state.old number }
    ensures { IfOk result (λ _. IsAnnotated state.old context.now (ty_of ty.now) number state.new) }
{
    let written = annotated(alloc, state, &context.types, place, ty)?;
    unify(alloc, state, place, number, written)?;
    Ok(())
}

/// The same of a type that may be written.
fn annotate_if(
    alloc: Global,
    state: &mut State,
    context: &Context,
    place: Place,
    ty: &Option<Ty>,
    number: usize,
) -> Result<(), Refused>
    requires context { IsContext state.old context.now }
    requires number { HasType state.old number }
    ensures { IfOk result (λ _. IsAnnotatedIf state.old context.now (some_ty_of ty.now) number state.new) }
{
    match ty {
        Some(ty) => annotate(alloc, state, context, place, ty, number),
        None => Ok(()),
    }
}

/// Gives a name and a pattern one type, which may be written.
#[tactic(auto, using(crate::proofs::Annotated::named_is))]
pub fn name(
    alloc: Global,
    state: &mut State,
    context: &Context,
    place: Place,
    ty: &Option<Ty>,
    number: usize,
    inner: usize,
) -> Result<(), Refused>
    requires context { IsContext state.old context.now }
    requires number { HasType state.old number }
    requires inner { HasType state.old inner }
    ensures { IfOk result (λ _. IsNamed state.old context.now (some_ty_of ty.now) number inner state.new) }
{
    annotate_if(alloc, state, context, place, ty, number)?;
    unify(alloc, state, place, number, inner)?;
    Ok(())
}
