// Patterns, whatever their form: recursion along nesting, loops along lists.
ghost use Rattle.std.specs.Prelude.{◌≡◌, ◌+◌, List, map, IfOk};
ghost use Rattle.mlc_names.specs.declared.label.Label.TheVariants.{Number};
ghost use Rattle.sml_tree.specs.BareTree.{Pat as SourcePat, fields_pat};
ghost use Rattle.sml_tree.specs.Derived.{join_pats, left_chain, list_pat_of, right_chain, tuple_pat};
ghost use Rattle.sml_tree.specs.TreeOf.{pat_of, pat_field_of, pat_fields_of, pat_part_of};
ghost use Rattle.elab_context.specs.Telling.{IsContext};
ghost use Rattle.elab_context.specs.of_elab_steps.Growing.{HasType};
ghost use Rattle.pat_elab.specs.Elaborated.{IsPat};

use crate::bound::{BoundVariable, TypedPat};
use crate::built::built_alone;
use crate::chain::{
    add_left, add_right, finish_left, finish_right, join_new, start_left, start_right,
};
use crate::fields::{add_field, no_fields, record, record_by};
use crate::form::{built_of, constructed, identifier, with_name, with_type};
use crate::leaf::{bind_variable, constant, wild};
use crate::list::{add_element, finish_list, start_list};
use crate::stopped::Stopped;
use elab_context::context::Context;
use elab_context::elab_state::state::State;
use mlc_base::memory::NoMemory;
use mlc_base::place::Place;
use mlc_names::label::Label;
use sml_tree::tree::{Pat, PatField, PatPart};
use std::alloc::Global;

/// A record pattern, and whether it ends in `...`.
#[cycle(pats)]
fn record_of(
    alloc: Global,
    state: &mut State,
    context: &Context,
    bound: &mut Vec<BoundVariable>,
    place: Place,
    fields: &[PatField],
    is_open: bool,
) -> Result<TypedPat, Stopped>
    requires { IsContext state.old context.now }
    ensures is { IfOk result (λ r. IsPat state.old context.now (fields_pat place (pat_fields_of (map pat_field_of fields.now)) is_open) state.new
        bound.old.items bound.new.items r) }
{
    let mut made = no_fields(alloc, state, context);
    for i in 0..fields.len() {
        let one = elab_pat(alloc, state, context, bound, &fields[i].pat)?;
        add_field(state, context, &fields[i].label, one, &mut made)?;
    }
    Ok(record_by(alloc, state, context, place, made, is_open)?)
}

/// The label of the part of a tuple behind so many others.
fn label_at(index: usize) -> Result<Label, NoMemory>
    ensures { IfOk result (λ l. l ≡ Number (index + 1)) }
{
    if index >= u32::MAX as usize {
        return Err(NoMemory);
    }
    Ok(Label::Number((index + 1) as u32))
}

/// A tuple: its parts are fields with their numbers for labels.
#[cycle(pats)]
fn tuple_of(
    alloc: Global,
    state: &mut State,
    context: &Context,
    bound: &mut Vec<BoundVariable>,
    place: Place,
    parts: &[Pat],
) -> Result<TypedPat, Stopped>
    requires { IsContext state.old context.now }
    ensures is { IfOk result (λ r. IsPat state.old context.now (tuple_pat place (map pat_of parts.now)) state.new bound.old.items bound.new.items r) }
{
    let mut made = no_fields(alloc, state, context);
    for i in 0..parts.len() {
        let label = label_at(i)?;
        let one = elab_pat(alloc, state, context, bound, &parts[i])?;
        add_field(state, context, &label, one, &mut made)?;
    }
    Ok(record(alloc, state, context, place, made)?)
}

/// A list.
#[cycle(pats)]
fn list_of(
    alloc: Global,
    state: &mut State,
    context: &Context,
    bound: &mut Vec<BoundVariable>,
    place: Place,
    elements: &[Pat],
) -> Result<TypedPat, Stopped>
    requires { IsContext state.old context.now }
    ensures is { IfOk result (λ r. IsPat state.old context.now (list_pat_of place (map pat_of elements.now)) state.new bound.old.items bound.new.items r) }
{
    let listed = start_list(alloc, state, context)?;
    let mut made = Vec::new(alloc);
    for i in 0..elements.len() {
        let one = elab_pat(alloc, state, context, bound, &elements[i])?;
        add_element(alloc, state, context, place, listed, one, &mut made)?;
    }
    Ok(finish_list(alloc, listed, made)?)
}

/// A chain of operators that associate to the left, behind its first operand.
#[cycle(pats)]
fn left_of(
    alloc: Global,
    state: &mut State,
    context: &Context,
    bound: &mut Vec<BoundVariable>,
    first: TypedPat,
    parts: &[PatPart],
) -> Result<TypedPat, Stopped>
    requires context { IsContext state.old context.now }
    requires first { HasType state.old first.ty }
    ensures { IfOk result (λ r. (S : State) (place : Place) (a : SourcePat) (before : List BoundVariable)
        → IsPat S context.now a state.old before bound.old.items first
        → IsPat S context.now (left_chain (λ v. join_pats v) place a (map pat_part_of parts.now)) state.new before bound.new.items r) }
{
    let mut made = start_left(alloc, first);
    for i in 0..parts.len() {
        let place = parts[i].vid_place;
        let vid = parts[i].vid;
        let one = elab_pat(alloc, state, context, bound, &parts[i].pat)?;
        add_left(alloc, state, context, place, vid, one, &mut made)?;
    }
    Ok(finish_left(alloc, made)?)
}

/// The same to the right.
#[cycle(pats)]
fn right_of(
    alloc: Global,
    state: &mut State,
    context: &Context,
    bound: &mut Vec<BoundVariable>,
    place: Place,
    first: TypedPat,
    parts: &[PatPart],
) -> Result<TypedPat, Stopped>
    requires context { IsContext state.old context.now }
    requires first { HasType state.old first.ty }
    ensures { IfOk result (λ r. (S : State) (place : Place) (a : SourcePat) (before : List BoundVariable)
        → IsPat S context.now a state.old before bound.old.items first
        → IsPat S context.now (right_chain (λ v. join_pats v) place a (map pat_part_of parts.now)) state.new before bound.new.items r) }
{
    let mut made = start_right(alloc, state, context, first)?;
    for i in 0..parts.len() {
        let at = parts[i].vid_place;
        let vid = parts[i].vid;
        let (joined, hole) = join_new(alloc, state, context, at, vid, made.last, made.hole)?;
        let one = elab_pat(alloc, state, context, bound, &parts[i].pat)?;
        add_right(joined, hole, one, &mut made)?;
    }
    Ok(finish_right(alloc, state, context, place, made)?)
}

/// The program's pattern, its type, and what it binds.
#[cycle(pats)]
pub fn elab_pat(
    alloc: Global,
    state: &mut State,
    context: &Context,
    bound: &mut Vec<BoundVariable>,
    pat: &Pat,
) -> Result<TypedPat, Stopped>
    requires { IsContext state.old context.now }
    ensures { IfOk result (λ r. IsPat state.old context.now (pat_of pat.now) state.new bound.old.items bound.new.items r) }
{
    match pat {
        Pat::Wild(_) => Ok(wild(alloc, state, context)?),
        Pat::Constant(_, value) => Ok(constant(alloc, state, context, value)?),
        Pat::Vid(place, long) => Ok(identifier(alloc, state, context, bound, *place, long)?),
        Pat::BuiltIn(place, built) => Ok(built_alone(alloc, state, context, *place, *built)?),
        Pat::Record(place, fields, is_open) => {
            record_of(alloc, state, context, bound, *place, fields, *is_open)
        }
        Pat::Tuple(place, parts) => tuple_of(alloc, state, context, bound, *place, parts),
        Pat::List(place, elements) => list_of(alloc, state, context, bound, *place, elements),
        Pat::Con(_, place, long, argument) => {
            let inner = elab_pat(alloc, state, context, bound, argument)?;
            Ok(constructed(alloc, state, context, *place, long, inner)?)
        }
        Pat::BuiltCon(place, built, argument) => {
            let inner = elab_pat(alloc, state, context, bound, argument)?;
            Ok(built_of(alloc, state, context, *place, *built, inner)?)
        }
        Pat::Chain(place, right, first, parts) => {
            let first = elab_pat(alloc, state, context, bound, first)?;
            if *right {
                right_of(alloc, state, context, bound, *place, first, parts)
            } else {
                left_of(alloc, state, context, bound, first, parts)
            }
        }
        Pat::Typed(place, inner, ty) => {
            let inner = elab_pat(alloc, state, context, bound, inner)?;
            Ok(with_type(alloc, state, context, *place, ty, inner)?)
        }
        Pat::As(place, vid, ty, inner) => {
            let variable = bind_variable(alloc, state, context, *place, vid, bound)?;
            let inner = elab_pat(alloc, state, context, bound, inner)?;
            Ok(with_name(alloc, state, context, *place, variable, ty, inner)?)
        }
    }
}
