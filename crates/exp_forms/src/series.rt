// Sequences, and operands of `andalso` and `orelse`.
ghost use Rattle.std.specs.Prelude.{◌≡◌, ◌++◌, ◌∷◌, ℕ, [], List, map, IfOk};
ghost use Rattle.ty_basis.specs.Types.{bool_type};
ghost use Rattle.sml_tree.specs.BareTree.{Exp as SourceExp};
ghost use Rattle.pat_elab.specs.of_elab_context.Telling.{IsContext};
ghost use Rattle.pat_elab.specs.of_elab_steps.Growing.{HasType, Always, Grows};
ghost use Rattle.pat_elab.specs.of_elab_steps.World.{type_of};
ghost use Rattle.use_elab.specs.Elaborated.{IsExp};
ghost use Rattle.exp_forms.specs.Parts.{AreExps, AreExpsOf, before_last, tests_of};

use elab_types::refused::Refused;
use mlc_base::make::boxed;
use mlc_base::memory::NoMemory;
use mlc_base::place::Place;
use pat_elab::elab_context::context::Context;
use pat_elab::elab_state::state::State;
use pat_elab::elab_steps::step::{apply, unify, write};
use prog_tree::tree::Exp;
use std::alloc::Global;
use ty_core::name::{Equality, TyName};
use ty_core::ty::Head;
use use_elab::typed::TypedExp;

const BOOL: TyName = TyName {
    stamp: 6,
    arity: 0,
    equality: Equality::ByArguments,
};

/// One expression more, before the last.
pub fn add_before(one: TypedExp, before: &mut Vec<Exp>) -> Result<(), NoMemory>
    ensures { IfOk result (λ _. (S M T : State) (C : Context) (es : List SourceExp) (e : SourceExp) (types : List ℕ)
        → AreExps S C es M before.old.items types → IsExp M C e T one → AreExps S C (es ++ e ∷ []) T before.new.items (types ++ one.ty ∷ [])) }
{
    before.push(one.exp)?;
    Ok(())
}

/// Expressions whose values are dropped, and the last, whose value is that of all.
pub fn sequence(
    alloc: Global,
    state: &mut State,
    context: &Context,
    place: Place,
    before: Vec<Exp>,
    last: TypedExp,
) -> Result<TypedExp, NoMemory>
    requires context { IsContext state.old context.now }
    requires last { HasType state.old last.ty }
    ensures { IfOk result (λ r. (S M : State) (p : Place) (es : List SourceExp) (e : SourceExp) (types : List ℕ)
        → AreExps S context.now es M before.items types → IsExp M context.now e state.old last → IsExp S context.now (before_last p es e) state.new r) }
{
    let ty = last.ty;
    let written = write(state, ty, context.naming)?;
    let exp = boxed(alloc, last.exp)?;
    Ok(TypedExp {
        exp: Exp::Sequence(place, written, before, exp),
        ty,
    })
}

/// The type of truth values.
fn truths(alloc: Global, state: &mut State) -> Result<usize, NoMemory>
    ensures grows { IfOk result (λ _. Grows state.old state.new) }
    ensures is { IfOk result (λ r. HasType state.new r) }
    ensures has { IfOk result (λ r. Always state.new (λ W. type_of W r ≡ bool_type)) }
    ensures next { IfOk result (λ _. state.new.next ≡ state.old.next) }
{
    apply(alloc, state, Head::Named(BOOL), &[])
}

/// Makes a type that of truth values.
fn make_truth(alloc: Global, state: &mut State, place: Place, ty: usize) -> Result<(), Refused>
    requires { HasType state.old ty }
    ensures grows { IfOk result (λ _. Grows state.old state.new) }
    ensures has { IfOk result (λ _. Always state.new (λ W. type_of W ty ≡ bool_type)) }
    ensures next { IfOk result (λ _. state.new.next ≡ state.old.next) }
{
    let truth = truths(alloc, state)?;
    unify(alloc, state, place, ty, truth)?;
    Ok(())
}

/// One operand more, before the last.
pub fn add_operand(
    alloc: Global,
    state: &mut State,
    place: Place,
    one: TypedExp,
    before: &mut Vec<Exp>,
) -> Result<(), Refused>
    requires { HasType state.old one.ty }
    ensures grows { IfOk result (λ _. Grows state.old state.new) }
    ensures added { IfOk result (λ _. (S M : State) (C : Context) (es : List SourceExp) (e : SourceExp)
        → AreExpsOf S C es M before.old.items bool_type → IsExp M C e state.old one → AreExpsOf S C (es ++ e ∷ []) state.new before.new.items bool_type) }
{
    make_truth(alloc, state, place, one.ty)?;
    before.push(one.exp)?;
    Ok(())
}

/// Operands of `andalso` (true) or `orelse` (false), and the last.
pub fn tests(
    alloc: Global,
    state: &mut State,
    context: &Context,
    place: Place,
    all: bool,
    before: Vec<Exp>,
    last: TypedExp,
) -> Result<TypedExp, Refused>
    requires context { IsContext state.old context.now }
    requires last { HasType state.old last.ty }
    ensures { IfOk result (λ r. (S M : State) (es : List (Place × SourceExp)) (e : SourceExp)
        → AreExpsOf S context.now (map (λ b. b.1) es) M before.items bool_type → IsExp M context.now e state.old last
        → IsExp S context.now (tests_of all es e) state.new r) }
{
    let ty = last.ty;
    make_truth(alloc, state, place, ty)?;
    let written = write(state, ty, context.naming)?;
    let exp = boxed(alloc, last.exp)?;
    Ok(TypedExp {
        exp: Exp::Test(all, written, before, exp),
        ty,
    })
}
