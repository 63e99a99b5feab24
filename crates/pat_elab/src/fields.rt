// Fields of patterns.
ghost use Rattle.std.specs.Prelude.{◌≡◌, ◌++◌, ◌∷◌, [], List, IfOk, true, false};
ghost use Rattle.std.specs.List.{AllByRecursion};
ghost use Rattle.sml_tree.specs.BareTree.{Pat as SourcePat, fields_pat};
ghost use Rattle.sml_tree.specs.TreeOf.{PatFieldOf, pat_fields_of};
ghost use Rattle.elab_context.specs.Telling.{IsContext};
ghost use Rattle.elab_context.specs.of_elab_steps.Growing.{HasType, Grows};
ghost use Rattle.pat_elab.specs.Elaborated.{IsPat};
ghost use Rattle.pat_elab.specs.Fields.{AreFields};

use crate::bound::{BoundVariable, TypedPat};
use crate::parts::Fields;
use elab_context::context::Context;
use elab_context::elab_state::state::State;
use elab_context::elab_steps::rows::{open_record_type, record_type};
use elab_context::elab_steps::step::write;
use elab_types::refused::Refused;
use label_rows::sort::Field;
use mlc_base::memory::NoMemory;
use mlc_base::place::Place;
use mlc_names::label::Label;
use prog_tree::tree::{Pat, PatField};
use std::alloc::Global;

/// No fields.
pub fn no_fields(alloc: Global, state: &State, context: &Context) -> Fields
    ensures { (bs : List BoundVariable) → AreFields state.now context.now [] state.now bs bs result }
{
    let _ = state;
    let _ = context;
    Fields {
        pats: Vec::new(alloc),
        row: Vec::new(alloc),
    }
}

/// One field more, with the type of what its pattern is matched with.
pub fn add_field(
    state: &mut State,
    context: &Context,
    label: &Label,
    one: TypedPat,
    fields: &mut Fields,
) -> Result<(), NoMemory>
    requires context { IsContext state.old context.now }
    requires part { HasType state.old one.ty }
    ensures { IfOk result (λ _. (S M : State) (before mid after : List BoundVariable) (fs : List PatFieldOf) (a : SourcePat)
        → AreFields S context.now fs M before mid fields.old → IsPat M context.now a state.old mid after one
        → AreFields S context.now (fs ++ record { label = label.now; pat = a } ∷ []) state.new before after fields.new) }
{
    let part = one.ty;
    let ty = write(state, part, context.naming)?;
    fields.row.push(Field {
        label: *label,
        part,
    })?;
    fields.pats.push(PatField {
        label: *label,
        ty,
        pat: one.pat,
    })?;
    Ok(())
}

/// A record pattern of these fields.
pub fn record(
    alloc: Global,
    state: &mut State,
    context: &Context,
    place: Place,
    fields: Fields,
) -> Result<TypedPat, Refused>
    requires context { IsContext state.old context.now }
    requires row { AllByRecursion (λ f. HasType state.old f.part) fields.row.items }
    ensures { IfOk result (λ r. (S : State) (before after : List BoundVariable) (fs : List PatFieldOf) (place : Place)
        → AreFields S context.now fs state.old before after fields
        → IsPat S context.now (fields_pat place (pat_fields_of fs) false) state.new before after r) }
{
    let _ = context;
    let ty = record_type(alloc, state, place, &fields.row)?;
    Ok(TypedPat {
        pat: Pat::Record(false, fields.pats),
        ty,
    })
}

/// A record pattern of these fields that ends in `...`.
pub fn open_record(
    alloc: Global,
    state: &mut State,
    context: &Context,
    place: Place,
    fields: Fields,
) -> Result<TypedPat, Refused>
    requires context { IsContext state.old context.now }
    requires row { AllByRecursion (λ f. HasType state.old f.part) fields.row.items }
    ensures { IfOk result (λ r. (S : State) (before after : List BoundVariable) (fs : List PatFieldOf) (place : Place)
        → AreFields S context.now fs state.old before after fields
        → IsPat S context.now (fields_pat place (pat_fields_of fs) true) state.new before after r) }
{
    let ty = open_record_type(alloc, state, place, &fields.row, context.limit())?;
    Ok(TypedPat {
        pat: Pat::Record(true, fields.pats),
        ty,
    })
}

/// A record pattern of these fields, and whether it ends in `...`.
pub fn record_by(
    alloc: Global,
    state: &mut State,
    context: &Context,
    place: Place,
    fields: Fields,
    is_open: bool,
) -> Result<TypedPat, Refused>
    requires context { IsContext state.old context.now }
    requires row { AllByRecursion (λ f. HasType state.old f.part) fields.row.items }
    ensures { IfOk result (λ r. (S : State) (before after : List BoundVariable) (fs : List PatFieldOf) (place : Place)
        → AreFields S context.now fs state.old before after fields
        → IsPat S context.now (fields_pat place (pat_fields_of fs) is_open) state.new before after r) }
{
    if is_open {
        open_record(alloc, state, context, place, fields)
    } else {
        record(alloc, state, context, place, fields)
    }
}
