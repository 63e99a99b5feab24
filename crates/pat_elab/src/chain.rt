// Patterns joined by infix constructors.
ghost use Rattle.std.specs.Prelude.{◌≡◌, ◌++◌, ◌∷◌, [], List, IfOk};
ghost use Rattle.sml_tree.specs.BareTree.{Pat as SourcePat};
ghost use Rattle.sml_tree.specs.Derived.{join_pats, left_chain, right_chain, short, Operand, VidAt};
ghost use Rattle.sml_tree.specs.BareTree.{con_pat};
ghost use Rattle.elab_context.specs.Telling.{IsContext};
ghost use Rattle.elab_context.specs.of_elab_steps.Growing.{HasType, Grows};
ghost use Rattle.pat_elab.specs.Elaborated.{IsPat};
ghost use Rattle.pat_elab.specs.Matched.{IsHeaded};
ghost use Rattle.pat_elab.specs.Chains.{IsJoined, IsLeft, IsRight};

use crate::bound::{BoundVariable, TypedPat};
use crate::built::pairs;
use crate::headed::Headed;
use crate::matched::before;
use crate::parts::{Joined, LeftChain, RightChain};
use elab_context::context::Context;
use elab_context::elab_state::state::State;
use elab_context::elab_steps::step::{fresh_type, unify, write};
use elab_types::refused::Refused;
use mlc_base::make::boxed;
use mlc_base::memory::NoMemory;
use mlc_base::place::Place;
use prog_tree::tree::{Pair, Pat, PatPart, Side};
use sml_tree::ident::{LongVid, Vid};
use std::alloc::Global;
use ty_core::mark::Mark;

/// An infix identifier before a pair of this type.
fn infix(
    alloc: Global,
    state: &mut State,
    context: &Context,
    place: Place,
    vid: Vid,
    pair: usize,
) -> Result<Headed, Refused>
    requires context { IsContext state.old context.now }
    requires pair { HasType state.old pair }
    ensures { IfOk result (λ h. (p : Place) → IsHeaded state.old context.now (con_pat p place (short vid)) pair state.new h) }
{
    let long = LongVid {
        qualifiers: Vec::new(alloc),
        vid,
    };
    before(alloc, state, context, place, &long, pair)
}

/// Joins types by an infix constructor at a place.
pub fn join(
    alloc: Global,
    state: &mut State,
    context: &Context,
    place: Place,
    vid: Vid,
    left: usize,
    right: usize,
) -> Result<Joined, Refused>
    requires context { IsContext state.old context.now }
    requires left { HasType state.old left }
    requires right { HasType state.old right }
    ensures { IfOk result (λ d. IsJoined state.old context.now (join_pats (record { place = place; vid = vid })) left right d.ty state.new d) }
{
    let pair = pairs(alloc, state, left, right)?;
    let headed = infix(alloc, state, context, place, vid, pair)?;
    let left = write(state, left, context.naming)?;
    let right = write(state, right, context.naming)?;
    Ok(Joined {
        head: headed.head,
        pair: Pair {
            ty: headed.written,
            left,
            right,
        },
        ty: headed.ty,
    })
}

/// Joins a type and a new one by an infix constructor to a type that is given. The new type is answered too.
pub fn join_new(
    alloc: Global,
    state: &mut State,
    context: &Context,
    place: Place,
    vid: Vid,
    left: usize,
    whole: usize,
) -> Result<(Joined, usize), Refused>
    requires context { IsContext state.old context.now }
    requires left { HasType state.old left }
    requires whole { HasType state.old whole }
    ensures { IfOk result (λ r. IsJoined state.old context.now (join_pats (record { place = place; vid = vid })) left r.1 whole state.new r.0) }
{
    let right = fresh_type(alloc, state, Mark::Any, context.limit())?;
    let joined = join(alloc, state, context, place, vid, left, right)?;
    unify(alloc, state, place, whole, joined.ty)?;
    Ok((joined, right))
}

/// A chain of one operand, to the left.
pub fn start_left(alloc: Global, first: TypedPat) -> LeftChain
    ensures ty { result.ty ≡ first.ty }
    ensures is { (S T : State) (C : Context) (place : Place) (a : SourcePat) (before after : List BoundVariable) → IsPat S C a T before after first
        → IsLeft S C place a [] T before after result }
{
    LeftChain {
        first: first.pat,
        parts: Vec::new(alloc),
        ty: first.ty,
    }
}

/// One operand more, to the right of all.
pub fn add_left(
    alloc: Global,
    state: &mut State,
    context: &Context,
    place: Place,
    vid: Vid,
    one: TypedPat,
    chain: &mut LeftChain,
) -> Result<(), Refused>
    requires context { IsContext state.old context.now }
    requires chain { HasType state.old chain.old.ty }
    requires one { HasType state.old one.ty }
    ensures grows { IfOk result (λ _. Grows state.old state.new) }
    ensures ty { IfOk result (λ _. HasType state.new chain.new.ty) }
    ensures is { IfOk result (λ _. (S M : State) (whole : Place) (a : SourcePat) (os : List (Operand VidAt SourcePat)) (o : Operand VidAt SourcePat)
        (before mid after : List BoundVariable) → o.joint ≡ record { place = place; vid = vid } → IsLeft S context.now whole a os M before mid chain.old
        → IsPat M context.now o.operand state.old mid after one → IsLeft S context.now whole a (os ++ o ∷ []) state.new before after chain.new) }
{
    let joined = join(alloc, state, context, place, vid, chain.ty, one.ty)?;
    chain.parts.push(PatPart {
        head: joined.head,
        pair: joined.pair,
        pat: one.pat,
    })?;
    chain.ty = joined.ty;
    Ok(())
}

/// The pattern of a chain to the left.
pub fn finish_left(alloc: Global, chain: LeftChain) -> Result<TypedPat, NoMemory>
    ensures { IfOk result (λ r. (S T : State) (C : Context) (place : Place) (a : SourcePat) (os : List (Operand VidAt SourcePat))
        (before after : List BoundVariable) → IsLeft S C place a os T before after chain
        → IsPat S C (left_chain (λ v. join_pats v) place a os) T before after r) }
{
    let LeftChain { first, parts, ty } = chain;
    let first = boxed(alloc, first)?;
    Ok(TypedPat {
        pat: Pat::Chain(Side::Left, first, parts),
        ty,
    })
}

/// A chain of one operand, to the right.
pub fn start_right(
    alloc: Global,
    state: &mut State,
    context: &Context,
    first: TypedPat,
) -> Result<RightChain, NoMemory>
    requires context { IsContext state.old context.now }
    requires first { HasType state.old first.ty }
    ensures grows { IfOk result (λ _. Grows state.old state.new) }
    ensures last { IfOk result (λ m. m.last ≡ first.ty) }
    ensures hole { IfOk result (λ m. HasType state.new m.hole) }
    ensures is { IfOk result (λ m. (S : State) (a : SourcePat) (before after : List BoundVariable) → IsPat S context.now a state.old before after first
        → IsRight S context.now a [] state.new before after m) }
{
    let whole = fresh_type(alloc, state, Mark::Any, context.limit())?;
    Ok(RightChain {
        first: first.pat,
        parts: Vec::new(alloc),
        last: first.ty,
        hole: whole,
        whole,
    })
}

/// One operand more, joined to what is before it.
pub fn add_right(
    joined: Joined,
    hole: usize,
    one: TypedPat,
    chain: &mut RightChain,
) -> Result<(), NoMemory>
    ensures last { chain.new.last ≡ one.ty }
    ensures hole { chain.new.hole ≡ hole }
    ensures is { IfOk result (λ _. (S M N T : State) (C : Context) (a : SourcePat) (os : List (Operand VidAt SourcePat)) (o : Operand VidAt SourcePat)
        (before mid after : List BoundVariable) → IsRight S C a os M before mid chain.old
        → IsJoined M C (join_pats o.joint) chain.old.last hole chain.old.hole N joined → IsPat N C o.operand T mid after one → IsRight S C a (os ++ o ∷ []) T before after chain.new) }
{
    chain.last = one.ty;
    chain.hole = hole;
    chain.parts.push(PatPart {
        head: joined.head,
        pair: joined.pair,
        pat: one.pat,
    })?;
    Ok(())
}

/// The pattern of a chain to the right.
pub fn finish_right(
    alloc: Global,
    state: &mut State,
    context: &Context,
    place: Place,
    chain: RightChain,
) -> Result<TypedPat, Refused>
    requires last { HasType state.old chain.last }
    requires hole { HasType state.old chain.hole }
    ensures { IfOk result (λ r. (S : State) (place : Place) (a : SourcePat) (os : List (Operand VidAt SourcePat)) (before after : List BoundVariable)
        → IsRight S context.now a os state.old before after chain → IsPat S context.now (right_chain (λ v. join_pats v) place a os) state.new before after r) }
{
    let _ = context;
    unify(alloc, state, place, chain.last, chain.hole)?;
    let RightChain {
        first,
        parts,
        last: _,
        hole: _,
        whole: ty,
    } = chain;
    let first = boxed(alloc, first)?;
    Ok(TypedPat {
        pat: Pat::Chain(Side::Right, first, parts),
        ty,
    })
}
