// Operands joined by infix identifiers.
ghost use Rattle.std.specs.Prelude.{◌≡◌, ◌++◌, ◌∷◌, [], IfOk};
ghost use Rattle.sml_tree.specs.BareTree.{Exp as SourceExp, vid_exp};
ghost use Rattle.sml_tree.specs.Derived.{Operand, infix_app, join as join_exps, left_chain, right_chain, short};
ghost use Rattle.sml_tree.specs.declared.tree.Joint.{Joint};
ghost use Rattle.sml_tree.specs.declared.tree.Joint.TheVariants.{Infix};
ghost use Rattle.pat_elab.specs.of_elab_context.Telling.{IsContext};
ghost use Rattle.pat_elab.specs.of_elab_steps.Growing.{HasType};
ghost use Rattle.use_elab.specs.Elaborated.{IsExp};
ghost use Rattle.exp_forms.specs.Chains.{IsJoined, IsLeft, IsRight, Operands};

use crate::parts::{Joined, LeftChain, Operator, RightChain};
use elab_types::refused::Refused;
use mlc_base::make::boxed;
use mlc_base::memory::NoMemory;
use mlc_base::place::Place;
use pat_elab::built::pairs;
use pat_elab::elab_context::context::Context;
use pat_elab::elab_state::state::State;
use pat_elab::elab_steps::step::{fresh_type, unify, write};
use prog_tree::tree::{Exp, Join, Side};
use sml_tree::ident::LongVid;
use std::alloc::Global;
use ty_core::mark::Mark;
use use_elab::given::functions;
use use_elab::typed::TypedExp;
use use_elab::used::identifier;

/// An infix identifier used.
fn operator_used(
    alloc: Global,
    state: &mut State,
    context: &Context,
    operator: Operator,
) -> Result<TypedExp, Refused>
    requires { IsContext state.old context.now }
    ensures { IfOk result (λ r. IsExp state.old context.now (vid_exp operator.place (short operator.vid)) state.new r) }
{
    let long = LongVid {
        qualifiers: Vec::new(alloc),
        vid: operator.vid,
    };
    identifier(alloc, state, context, operator.place, &long)
}

/// Joins operands of these types, of which the left one begins at a place.
pub fn join(
    alloc: Global,
    state: &mut State,
    context: &Context,
    place: Place,
    operator: Operator,
    left: usize,
    right: usize,
) -> Result<Joined, Refused>
    requires context { IsContext state.old context.now }
    requires left { HasType state.old left }
    requires right { HasType state.old right }
    ensures { IfOk result (λ d. IsJoined state.old context.now (infix_app place operator.place operator.vid) left right d.ty state.new d) }
{
    let at = operator.place;
    let pair = pairs(alloc, state, left, right)?;
    let ty = fresh_type(alloc, state, Mark::Any, context.limit())?;
    let function = functions(alloc, state, pair, ty)?;
    let whole = write(state, ty, context.naming)?;
    let both = write(state, pair, context.naming)?;
    let used = operator_used(alloc, state, context, operator)?;
    unify(alloc, state, at, used.ty, function)?;
    let join = Join {
        place,
        ty: whole,
        pair: both,
    };
    Ok(Joined {
        join,
        operator: used.exp,
        ty,
    })
}

/// Joins an operand and one of a new type to one of a type that is given. The new type is answered too.
pub fn join_new(
    alloc: Global,
    state: &mut State,
    context: &Context,
    place: Place,
    operator: Operator,
    left: usize,
    whole: usize,
) -> Result<(Joined, usize), Refused>
    requires context { IsContext state.old context.now }
    requires left { HasType state.old left }
    requires whole { HasType state.old whole }
    ensures { IfOk result (λ r. IsJoined state.old context.now (infix_app place operator.place operator.vid) left r.1 whole state.new r.0) }
{
    let at = operator.place;
    let right = fresh_type(alloc, state, Mark::Any, context.limit())?;
    let joined = join(alloc, state, context, place, operator, left, right)?;
    unify(alloc, state, at, whole, joined.ty)?;
    Ok((joined, right))
}

/// A chain of one operand, to the left.
pub fn start_left(alloc: Global, first: TypedExp) -> LeftChain
    ensures ty { result.ty ≡ first.ty }
    ensures is { (S T : State) (C : Context) (place : Place) (a : SourceExp) → IsExp S C a T first → IsLeft S C place a [] T result }
{
    LeftChain {
        first: first.exp,
        parts: Vec::new(alloc),
        ty: first.ty,
    }
}

/// One operand more, to the right of all. The chain begins at a place.
pub fn add_left(
    alloc: Global,
    state: &mut State,
    context: &Context,
    place: Place,
    operator: Operator,
    one: TypedExp,
    chain: &mut LeftChain,
) -> Result<(), Refused>
    requires context { IsContext state.old context.now }
    requires chain { HasType state.old chain.old.ty }
    requires one { HasType state.old one.ty }
    ensures { IfOk result (λ _. (S M : State) (a : SourceExp) (os : Operands) (o : Operand Joint SourceExp) → o.joint ≡ Infix operator.place operator.vid
        → IsLeft S context.now place a os M chain.old → IsExp M context.now o.operand state.old one
        → IsLeft S context.now place a (os ++ o ∷ []) state.new chain.new) }
{
    let joined = join(alloc, state, context, place, operator, chain.ty, one.ty)?;
    chain.parts.push((joined.join, joined.operator, one.exp))?;
    chain.ty = joined.ty;
    Ok(())
}

/// The expression of a chain to the left.
pub fn finish_left(alloc: Global, chain: LeftChain) -> Result<TypedExp, NoMemory>
    ensures { IfOk result (λ r. (S T : State) (C : Context) (place : Place) (a : SourceExp) (os : Operands) → IsLeft S C place a os T chain
        → IsExp S C (left_chain join_exps place a os) T r) }
{
    let LeftChain { first, parts, ty } = chain;
    let first = boxed(alloc, first)?;
    Ok(TypedExp {
        exp: Exp::Infix(Side::Left, first, parts),
        ty,
    })
}

/// A chain of one operand, to the right, that begins at a place.
pub fn start_right(
    alloc: Global,
    state: &mut State,
    context: &Context,
    place: Place,
    first: TypedExp,
) -> Result<RightChain, NoMemory>
    requires context { IsContext state.old context.now }
    ensures { IfOk result (λ m. (S : State) (a : SourceExp) → IsExp S context.now a state.old first → IsRight S context.now place a [] state.new m) }
{
    let whole = fresh_type(alloc, state, Mark::Any, context.limit())?;
    Ok(RightChain {
        first: first.exp,
        parts: Vec::new(alloc),
        place,
        last: first.ty,
        hole: whole,
        whole,
    })
}

/// One operand more, that begins at a place, to the right of all.
pub fn add_right(
    alloc: Global,
    state: &mut State,
    context: &Context,
    place: Place,
    operator: Operator,
    one: TypedExp,
    chain: &mut RightChain,
) -> Result<(), Refused>
    requires context { IsContext state.old context.now }
    requires last { HasType state.old chain.old.last }
    requires hole { HasType state.old chain.old.hole }
    ensures { IfOk result (λ _. (S M : State) (whole : Place) (a : SourceExp) (os : Operands) (o : Operand Joint SourceExp)
        → o.joint ≡ Infix operator.place operator.vid → o.place ≡ place → IsRight S context.now whole a os M chain.old
        → IsExp M context.now o.operand state.old one → IsRight S context.now whole a (os ++ o ∷ []) state.new chain.new) }
{
    let (joined, hole) = join_new(
        alloc,
        state,
        context,
        chain.place,
        operator,
        chain.last,
        chain.hole,
    )?;
    chain.place = place;
    chain.last = one.ty;
    chain.hole = hole;
    chain.parts.push((joined.join, joined.operator, one.exp))?;
    Ok(())
}

/// The expression of a chain to the right.
pub fn finish_right(
    alloc: Global,
    state: &mut State,
    place: Place,
    chain: RightChain,
) -> Result<TypedExp, Refused>
    requires last { HasType state.old chain.last }
    requires hole { HasType state.old chain.hole }
    ensures { IfOk result (λ r. (S : State) (C : Context) (p : Place) (a : SourceExp) (os : Operands) → IsRight S C p a os state.old chain
        → IsExp S C (right_chain join_exps p a os) state.new r) }
{
    unify(alloc, state, place, chain.last, chain.hole)?;
    let RightChain {
        first,
        parts,
        place: _,
        last: _,
        hole: _,
        whole: ty,
    } = chain;
    let first = boxed(alloc, first)?;
    Ok(TypedExp {
        exp: Exp::Infix(Side::Right, first, parts),
        ty,
    })
}
