// Lists of patterns: chains of `::` that `nil` ends.
ghost use Rattle.std.specs.Prelude.{◌≡◌, ◌++◌, ◌∷◌, [], List, IfOk};
ghost use Rattle.sml_tree.specs.BareTree.{Pat as SourcePat};
ghost use Rattle.sml_tree.specs.Derived.{list_pat_of};
ghost use Rattle.elab_context.specs.Telling.{IsContext};
ghost use Rattle.elab_context.specs.of_elab_steps.Growing.{HasType};
ghost use Rattle.pat_elab.specs.Elaborated.{IsPat};
ghost use Rattle.pat_elab.specs.Lists.{AreElements, IsListed};

use crate::bound::{BoundVariable, TypedPat};
use crate::built::{lists, nil, pairs};
use crate::parts::Listed;
use elab_context::context::Context;
use elab_context::elab_state::state::State;
use elab_context::elab_steps::step::{fresh_type, unify, write};
use elab_types::refused::Refused;
use mlc_base::make::boxed;
use mlc_base::memory::NoMemory;
use mlc_base::place::Place;
use mlc_names::words;
use prog_tree::tree::{Head, Pair, Pat, PatPart, Side};
use std::alloc::Global;
use ty_core::mark::Mark;

/// The types of a list.
pub fn start_list(alloc: Global, state: &mut State, context: &Context) -> Result<Listed, NoMemory>
    requires context { IsContext state.old context.now }
    ensures { IfOk result (λ l. IsListed state.old context.now state.new l) }
{
    let element = fresh_type(alloc, state, Mark::Any, context.limit())?;
    let ty = lists(alloc, state, element)?;
    let whole = pairs(alloc, state, element, ty)?;
    let whole = write(state, whole, context.naming)?;
    let left = write(state, element, context.naming)?;
    let right = write(state, ty, context.naming)?;
    Ok(Listed {
        head: Head::Constructor(words::CONS as usize),
        pair: Pair {
            ty: whole,
            left,
            right,
        },
        element,
        ty,
    })
}

/// One element more, of the elements' type.
pub fn add_element(
    alloc: Global,
    state: &mut State,
    context: &Context,
    place: Place,
    listed: Listed,
    one: TypedPat,
    parts: &mut Vec<PatPart>,
) -> Result<(), Refused>
    requires one { HasType state.old one.ty }
    requires element { HasType state.old listed.element }
    ensures { IfOk result (λ _. (S M : State) (before mid after : List BoundVariable) (as_ : List SourcePat) (a : SourcePat)
        → AreElements S context.now listed as_ M before mid parts.old.items → IsPat M context.now a state.old mid after one
        → AreElements S context.now listed (as_ ++ a ∷ []) state.new before after parts.new.items) }
{
    let _ = context;
    unify(alloc, state, place, one.ty, listed.element)?;
    parts.push(PatPart {
        head: listed.head,
        pair: listed.pair,
        pat: one.pat,
    })?;
    Ok(())
}

/// The pattern of a list of these elements.
pub fn finish_list(alloc: Global, listed: Listed, parts: Vec<PatPart>) -> Result<TypedPat, NoMemory>
    ensures { IfOk result (λ r. (S L T : State) (C : Context) (place : Place) (before after : List BoundVariable) (as_ : List SourcePat)
        → IsListed S C L listed → AreElements L C listed as_ T before after parts.items → IsPat S C (list_pat_of place as_) T before after r) }
{
    let end = nil(listed.ty);
    let count = parts.len();
    if count == 0 {
        return Ok(end);
    }
    let mut parts = parts;
    parts.push(PatPart {
        head: listed.head,
        pair: listed.pair,
        pat: end.pat,
    })?;
    let first = parts.remove(0);
    let first = boxed(alloc, first.pat)?;
    Ok(TypedPat {
        pat: Pat::Chain(Side::Right, first, parts),
        ty: listed.ty,
    })
}
