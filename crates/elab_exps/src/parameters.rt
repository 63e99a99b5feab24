// The parameters of a function of `fun`, and the patterns of its clauses.
ghost use Rattle.std.specs.Prelude.{◌≡◌, ◌<◌, ◌++◌, ◌∷◌, [], length, map, IfOk};
ghost use Rattle.sml_tree.specs.Derived.{first_pats, fresh_pat, one_or_tuple_pat, tuple_pat};
ghost use Rattle.sml_tree.specs.TreeOf.{clause_of, pat_of};
ghost use Rattle.elab_context.specs.Telling.{IsContext};
ghost use Rattle.elab_steps.specs.Growing.{HasType};
ghost use Rattle.pat_elab.specs.Elaborated.{IsPat};
ghost use Rattle.scope_decs.specs.of_exp_forms.Begun.{IsBegun};
ghost use Rattle.scope_decs.specs.of_exp_forms.Clauses.{fresh_from};
ghost use Rattle.scope_decs.specs.of_exp_forms.Parameters.{AreEntered, IsEntered};
ghost use Rattle.elab_exps.specs.Groups.{HasVariables};

use crate::shapes::label_at;
use elab_context::context::Context;
use elab_state::state::State;
use elab_steps::step::write;
use elab_types::refused::Refused;
use mlc_base::memory::NoMemory;
use mlc_base::place::Place;
use pat_elab::bound::{BoundVariable, TypedPat};
use pat_elab::elab::elab_pat;
use pat_elab::fields::{add_field, no_fields, record};
use pat_elab::leaf::bind_variable;
use pat_elab::stopped::Stopped;
use prog_tree::tree::Parameter;
use scope_decs::exp_forms::begun::RuleBegun;
use scope_decs::exp_forms::bind::bind_all;
use scope_decs::exp_forms::enter::enter;
use scope_decs::exp_forms::enter_function::{add, start};
use scope_decs::exp_forms::functions_made::Entered;
use sml_tree::ident::Vid;
use sml_tree::tree::{Clause, Pat};
use std::alloc::Global;

/// How many patterns the first clause has.
fn first_count(clauses: &[Clause]) -> usize
    ensures { result ≡ length (first_pats (map clause_of clauses.now)) }
{
    if clauses.is_empty() {
        return 0;
    }
    let pats: &[Pat] = &clauses[0].pats;
    pats.len()
}

/// How many parameters a function has. The grammar has none without clauses or patterns.
pub fn parameter_count(place: Place, clauses: &[Clause]) -> Result<u32, Stopped>
    ensures some { IfOk result (λ n. 0 < n) }
    ensures count { IfOk result (λ n. n ≡ length (first_pats (map clause_of clauses.now))) }
{
    let count = first_count(clauses);
    if count == 0 {
        return Err(Stopped::Foreign(place));
    }
    if count > u32::MAX as usize {
        return Err(Stopped::Refuses(Refused::Memory));
    }
    Ok(count as u32)
}

/// A fresh identifier as a parameter: it comes into scope. Its type is answered too.
fn enter_parameter(
    alloc: Global,
    state: &mut State,
    context: &mut Context,
    place: Place,
    number: u32,
) -> Result<(Parameter, usize), Refused>
    requires { IsContext state.old context.old }
    ensures context { IfOk result (λ _. IsContext state.new context.new) }
    ensures within { IfOk result (λ _. HasVariables context.old context.new) }
    ensures entered { IfOk result (λ r. IsEntered state.old context.old (fresh_pat place number) state.new context.new r.0 r.1) }
{
    let mut bound = Vec::new(alloc);
    let vid = Vid::Fresh(number);
    let made = bind_variable(alloc, state, context, place, &vid, &mut bound)?;
    let ty = write(state, made.ty, context.naming)?;
    bind_all(context, &bound)?;
    let parameter = Parameter {
        variable: made.number,
        ty,
    };
    Ok((parameter, made.ty))
}

/// Fresh identifiers as parameters, so many: they come into scope.
pub fn enter_parameters(
    alloc: Global,
    state: &mut State,
    context: &mut Context,
    place: Place,
    count: u32,
) -> Result<Entered, Refused>
    requires context { IsContext state.old context.old }
    requires some { 0 < count }
    ensures context { IfOk result (λ _. IsContext state.new context.new) }
    ensures within { IfOk result (λ _. HasVariables context.old context.new) }
    ensures entered { IfOk result (λ made.
        AreEntered state.old context.old (fresh_from place 1 count) state.new context.new (made.before.items ++ made.last ∷ []) made.types.items) }
{
    let (first, ty) = enter_parameter(alloc, state, context, place, 1)?;
    let mut made = start(alloc, first, ty)?;
    for i in 1..count {
        let (next, ty) = enter_parameter(alloc, state, context, place, i + 1)?;
        add(next, ty, &mut made)?;
    }
    Ok(made)
}

/// Patterns as a tuple.
fn tuple_of(
    alloc: Global,
    state: &mut State,
    context: &Context,
    bound: &mut Vec<BoundVariable>,
    place: Place,
    pats: &[Pat],
) -> Result<TypedPat, Stopped>
    requires { IsContext state.old context.now }
    ensures { IfOk result (λ r. IsPat state.old context.now (tuple_pat place (map pat_of pats.now)) state.new bound.old.items bound.new.items r) }
{
    let mut made = no_fields(alloc, state, context);
    for i in 0..pats.len() {
        let label = label_at(i)?;
        let one = elab_pat(alloc, state, context, bound, &pats[i])?;
        add_field(state, context, &label, one, &mut made)?;
    }
    Ok(record(alloc, state, context, place, made)?)
}

/// The patterns of a clause: the one, or a tuple of them.
fn clause_pat(
    alloc: Global,
    state: &mut State,
    context: &Context,
    bound: &mut Vec<BoundVariable>,
    place: Place,
    pats: &[Pat],
) -> Result<TypedPat, Stopped>
    requires { IsContext state.old context.now }
    ensures { IfOk result (λ r. IsPat state.old context.now (one_or_tuple_pat place (map pat_of pats.now)) state.new bound.old.items bound.new.items r) }
{
    if pats.len() == 1 {
        return elab_pat(alloc, state, context, bound, &pats[0]);
    }
    tuple_of(alloc, state, context, bound, place, pats)
}

/// The patterns of a clause, whose variables come into scope.
pub fn begin_clause(
    alloc: Global,
    state: &mut State,
    context: &mut Context,
    place: Place,
    domain: usize,
    pats: &[Pat],
) -> Result<RuleBegun, Stopped>
    requires context { IsContext state.old context.old }
    requires domain { HasType state.old domain }
    ensures { IfOk result (λ r. IsBegun state.old context.old (one_or_tuple_pat place (map pat_of pats.now)) domain state.new context.new r) }
{
    let mark = context.values.mark();
    let mut bound = Vec::new(alloc);
    let pat = clause_pat(alloc, state, context, &mut bound, place, pats)?;
    enter(alloc, state, context, place, domain, pat.ty, &bound)?;
    Ok(RuleBegun { pat, mark })
}
