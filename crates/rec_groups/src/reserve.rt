// Heads of functions get their variables and their types, before anything is elaborated in their scope.
ghost use Rattle.std.specs.Prelude.{◌≡◌, [], IfOk};
ghost use Rattle.mlc_base.specs.declared.place.Place.{Place as PlaceAt};
ghost use Rattle.sml_tree.specs.BareTree.{vid_pat};
ghost use Rattle.sml_tree.specs.Derived.{short};
ghost use Rattle.sml_tree.specs.TreeOf.{long_vid_of, pat_of};
ghost use Rattle.elab_context.specs.Telling.{IsContext};
ghost use Rattle.elab_steps.specs.Growing.{HasType};
ghost use Rattle.rec_groups.specs.Heads.{IsReserved, IsTaken, Reserves};

use crate::head::Head;
use dec_forms::pat_elab::bound::BoundVariable;
use elab_context::context::Context;
use elab_context::entry::is_kept;
use elab_state::state::State;
use elab_steps::step::{fresh_type, next_variable};
use elab_types::refused::Refused;
use mlc_base::place::Place;
use sml_tree::ident::{LongVid, Vid};
use sml_tree::tree::Pat;
use std::alloc::Global;
use ty_core::mark::Mark;

/// An identifier gets a variable of the program.
fn reserve_variable(
    state: &mut State,
    place: Place,
    vid: &Vid,
    ty: usize,
    variables: &mut Vec<BoundVariable>,
) -> Result<(), Refused>
    requires ty { HasType state.old ty }
    ensures { IfOk result (λ _. IsTaken state.old vid.now ty variables.old.items variables.new.items state.new) }
{
    if is_kept(*vid) {
        return Err(Refused::Broken(place));
    }
    let number = next_variable(state)?;
    variables.push(BoundVariable {
        vid: *vid,
        number,
        ty,
    })?;
    Ok(())
}

/// The same of an identifier that is written with its qualifiers, of which it may have none.
fn reserve_long(
    state: &mut State,
    context: &Context,
    place: Place,
    long: &LongVid,
    ty: usize,
    variables: &mut Vec<BoundVariable>,
) -> Result<(), Refused>
    requires ty { HasType state.old ty }
    requires none { variables.old.items ≡ [] }
    ensures { IfOk result (λ _. Reserves state.old (vid_pat place (long_vid_of long.now)) ty variables.new.items state.new) }
{
    if long.qualifiers.len() > 0 {
        context.value_at(place, long)?;
        return Err(Refused::Mistyped(place));
    }
    reserve_variable(state, place, &long.vid, ty, variables)
}

/// The identifiers of a head, the innermost first. Other patterns match no function.
fn reserve_all(
    state: &mut State,
    context: &Context,
    pat: &Pat,
    ty: usize,
    variables: &mut Vec<BoundVariable>,
) -> Result<(), Refused>
    requires ty { HasType state.old ty }
    requires none { variables.old.items ≡ [] }
    ensures { IfOk result (λ _. Reserves state.old (pat_of pat.now) ty variables.new.items state.new) }
{
    match pat {
        Pat::Wild(_) => Ok(()),
        Pat::Vid(place, long) => reserve_long(state, context, *place, long, ty, variables),
        Pat::Typed(_, inner, _) => reserve_all(state, context, inner, ty, variables),
        Pat::As(place, vid, _, inner) => {
            reserve_all(state, context, inner, ty, variables)?;
            reserve_variable(state, *place, vid, ty, variables)
        }
        Pat::Constant(place, _) => Err(Refused::Mistyped(*place)),
        Pat::BuiltIn(place, _) => Err(Refused::Mistyped(*place)),
        Pat::Record(place, _, _) => Err(Refused::Mistyped(*place)),
        Pat::Tuple(place, _) => Err(Refused::Mistyped(*place)),
        Pat::List(place, _) => Err(Refused::Mistyped(*place)),
        Pat::Con(place, _, _, _) => Err(Refused::Mistyped(*place)),
        Pat::BuiltCon(place, _, _) => Err(Refused::Mistyped(*place)),
        Pat::Chain(place, _, first, parts) => {
            if parts.len() > 0 {
                return Err(Refused::Mistyped(*place));
            }
            reserve_all(state, context, first, ty, variables)
        }
    }
}

/// The head of a function of `val rec`, at a new type.
pub fn reserve(
    alloc: Global,
    state: &mut State,
    context: &Context,
    pat: &Pat,
) -> Result<Head, Refused>
    requires context { IsContext state.old context.now }
    ensures { IfOk result (λ head. IsReserved state.old context.now (pat_of pat.now) state.new head) }
{
    let ty = fresh_type(alloc, state, Mark::Any, context.limit())?;
    let mut variables = Vec::new(alloc);
    reserve_all(state, context, pat, ty, &mut variables)?;
    Ok(Head { ty, variables })
}

/// The head of a function of `fun`.
pub fn reserve_name(
    alloc: Global,
    state: &mut State,
    context: &Context,
    place: Place,
    vid: &Vid,
) -> Result<Head, Refused>
    requires context { IsContext state.old context.now }
    ensures { IfOk result (λ head. (q : PlaceAt) → IsReserved state.old context.now (vid_pat q (short vid.now)) state.new head) }
{
    let ty = fresh_type(alloc, state, Mark::Any, context.limit())?;
    let mut variables = Vec::new(alloc);
    reserve_variable(state, place, vid, ty, &mut variables)?;
    Ok(Head { ty, variables })
}
