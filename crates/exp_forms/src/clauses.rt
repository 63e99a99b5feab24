// The parameters of `fun`, and what its clauses take.
ghost use Rattle.std.specs.Prelude.{◌≡◌, ◌++◌, ◌∷◌, ◌<◌, [], IfOk, List, length};
ghost use Rattle.sml_tree.specs.BareTree.{Pat as SourcePat, Rules, fn as function};
ghost use Rattle.sml_tree.specs.Derived.{Clause, first_pats, fresh_exp, fresh_for, fun_of, one_or_tuple};
ghost use Rattle.pat_elab.specs.of_elab_context.Telling.{IsContext};
ghost use Rattle.pat_elab.specs.of_elab_steps.Growing.{HasType, AreTypes};
ghost use Rattle.use_elab.specs.Elaborated.{IsExp};
ghost use Rattle.exp_forms.specs.Clauses.{body_of, fresh_from};
ghost use Rattle.exp_forms.specs.Functions.{IsFunction};
ghost use Rattle.exp_forms.specs.Parameters.{AreEntered};

use crate::enter_function::{add, enter_fresh, start};
use crate::fields::{add_field, no_fields, record};
use crate::finish_function::finish;
use crate::functions_made::{Entered, FunctionMade};
use elab_types::refused::Refused;
use mlc_base::memory::NoMemory;
use mlc_base::place::Place;
use mlc_names::label::Label;
use pat_elab::elab_context::context::Context;
use pat_elab::elab_state::state::State;
use sml_tree::ident::{LongVid, Vid};
use std::alloc::Global;
use use_elab::typed::TypedExp;
use use_elab::used::identifier;

/// Fresh identifiers, as many as there are patterns in a clause, as parameters: they come into scope.
pub fn enter_all(
    alloc: Global,
    state: &mut State,
    context: &mut Context,
    place: Place,
    count: u32,
) -> Result<Entered, Refused>
    requires context { IsContext state.old context.old }
    requires some { 0 < count }
    ensures context { IfOk result (λ _. IsContext state.new context.new) }
    ensures entered { IfOk result (λ made.
        AreEntered state.old context.old (fresh_from place 1 count) state.new context.new (made.before.items ++ made.last ∷ []) made.types.items) }
{
    let (first, ty) = enter_fresh(alloc, state, context, place, 1)?;
    let mut made = start(alloc, first, ty)?;
    for i in 1..count {
        let (next, ty) = enter_fresh(alloc, state, context, place, i + 1)?;
        add(next, ty, &mut made)?;
    }
    Ok(made)
}

/// A fresh identifier used.
fn fresh_used(
    alloc: Global,
    state: &mut State,
    context: &Context,
    place: Place,
    number: u32,
) -> Result<TypedExp, Refused>
    requires { IsContext state.old context.now }
    ensures { IfOk result (λ r. IsExp state.old context.now (fresh_exp place number) state.new r) }
{
    let long = LongVid {
        qualifiers: Vec::new(alloc),
        vid: Vid::Fresh(number),
    };
    identifier(alloc, state, context, place, &long)
}

/// What the clauses are about: the fresh identifier, or a tuple of all of them.
pub fn taken(
    alloc: Global,
    state: &mut State,
    context: &Context,
    place: Place,
    count: u32,
) -> Result<TypedExp, Refused>
    requires { IsContext state.old context.now }
    ensures { IfOk result (λ r. (as_ : List SourcePat) → length as_ ≡ count
        → IsExp state.old context.now (one_or_tuple place (fresh_for place 1 as_)) state.new r) }
{
    if count == 1 {
        return fresh_used(alloc, state, context, place, 1);
    }
    let mut fields = no_fields(alloc);
    for i in 0..count {
        let one = fresh_used(alloc, state, context, place, i + 1)?;
        add_field(&Label::Number(i + 1), one, &mut fields)?;
    }
    record(alloc, state, context, place, fields)
}

/// The function of all clauses: its parameters, and what the clauses do with them, which was elaborated where the parameters are in scope.
pub fn finish_clauses(
    alloc: Global,
    state: &mut State,
    entered: Entered,
    body: TypedExp,
) -> Result<FunctionMade, NoMemory>
    requires types { AreTypes state.old entered.types.items }
    requires body { HasType state.old body.ty }
    ensures { IfOk result (λ r. (S M : State) (C D : Context) (p : Place) (cs : List Clause) (rs : Rules)
        → AreEntered S C (fresh_from p 1 (length (first_pats cs))) M D (entered.before.items ++ entered.last ∷ []) entered.types.items
        → IsExp M D (body_of p cs) state.old body → fun_of p cs ≡ function p rs → IsFunction S C rs state.new r) }
{
    finish(alloc, state, entered, body)
}
