// Expressions and declarations, whatever their form: recursion along nesting, loops along lists. Each expression leaves the context as it found it.
ghost use Rattle.std.specs.Prelude.{◌≡◌, ◌∷◌, ℕ, [], length, map, reverse, IfOk};
ghost use Rattle.scope_decs.specs.of_dec_forms.Bringing.{IsBringing};
ghost use Rattle.sml_tree.specs.BareTree.{Exp as SourceExp, app, fields_exp, fn as fn_exp};
ghost use Rattle.sml_tree.specs.Derived.{app_of, list_of as listed_exp, tuple};
ghost use Rattle.sml_tree.specs.TreeOf.{bind_of, dec_of, exp_field_of, exp_fields_of, exp_of, rule_of, rules_of};
ghost use Rattle.core_elab.specs.Resolves.{IsCalled};
ghost use Rattle.elab_exps.specs.Decs.{AreDeclared, IsDeclared, StandsIn};
ghost use Rattle.elab_exps.specs.Groups.{AreMembers, HaveHeads, IsMember, clause_rule, function_bind};
ghost use Rattle.elab_exps.specs.Inside.{AreBound, IsWithin};
ghost use Rattle.elab_steps.specs.Growing.{Grows, HasType};
ghost use Rattle.use_elab.specs.Elaborated.{IsExp};
ghost use Rattle.scope_decs.specs.of_exp_forms.Calls.{IsCall};
ghost use Rattle.scope_decs.specs.of_exp_forms.Rules.{AreRules};
ghost use Rattle.general_decs.specs.of_rec_groups.Heads.{with_own};

use crate::absent::{absent, absent_dec};
use crate::heads::{enter_group, head_at, reserve_names, reserve_recs};
use crate::inside::{Inside, add_binding, none_inside};
use crate::made::add_dec;
use crate::members::{add_member, finish_inside, no_function};
use crate::parameters::{begin_clause, enter_parameters, parameter_count};
use crate::plain::plain_dec;
use crate::shapes::{Shape, label_at, operator_of, shape_of};
use elab_context::context::Context;
use elab_state::state::State;
use exp_weights::counted::counted;
use exp_weights::exps::{bound_nodes, clause_nodes, head_nodes, with_head};
use general_decs::begin::{Begun, begin};
use general_decs::rec_groups::annotate::annotate_head;
use general_decs::rec_groups::enter::leave_heads;
use general_decs::rec_groups::functions::by_rules as function_by_rules;
use general_decs::rec_groups::head::Head;
use mlc_base::place::Place;
use pat_elab::stopped::Stopped;
use prog_tree::tree::{Dec as ProgramDec, Function as ProgramFunction};
use scope_decs::dec_forms::block::{begin_block, block, leave_block};
use scope_decs::dec_forms::brought::Brought;
use scope_decs::dec_forms::local::{begin_local, end_local};
use scope_decs::exp_forms::annotated::with_type;
use scope_decs::exp_forms::bind::leave;
use scope_decs::exp_forms::built::built;
use scope_decs::exp_forms::call::{add_argument, finish_call, start_call};
use scope_decs::exp_forms::called::{is_called, is_fn};
use scope_decs::exp_forms::chain::{
    add_left, add_right, finish_left, finish_right, start_left, start_right,
};
use scope_decs::exp_forms::choices::choices;
use scope_decs::exp_forms::clauses::{finish_clauses, taken};
use scope_decs::exp_forms::fields::{add_field, no_fields, record};
use scope_decs::exp_forms::finish::{by_rules, case_of, handling};
use scope_decs::exp_forms::functions_made::FunctionMade;
use scope_decs::exp_forms::joints::are_joined;
use scope_decs::exp_forms::leaf::constant;
use scope_decs::exp_forms::list::{add_element, finish_list, start_list};
use scope_decs::exp_forms::made::Called;
use scope_decs::exp_forms::raising::raising;
use scope_decs::exp_forms::rules::{start_case, start_function, start_handle};
use scope_decs::exp_forms::rules_made::RulesMade;
use scope_decs::exp_forms::series::{add_before, add_operand, sequence};
use scope_decs::exp_forms::steps::{begin_rule, end_rule};
use scoped_tyvars::scoped::{scoped_in_fun, scoped_in_val};
use sml_tree::ident::Tyvar;
use sml_tree::tree::{Bind, Clause, Dec, Exp, ExpField, Function, Part, Rule};
use std::alloc::Global;
use use_elab::typed::TypedExp;
use use_elab::used::identifier;

/// A record.
#[cycle(exps)]
fn record_of(
    alloc: Global,
    state: &mut State,
    context: &mut Context,
    place: Place,
    fields: &[ExpField],
) -> Result<TypedExp, Stopped>
    requires { StandsIn state.old context.old }
    ensures context { IfOk result (λ _. context.new ≡ context.old) }
    ensures is { IfOk result (λ r. IsExp state.old context.old (fields_exp place (exp_fields_of (map exp_field_of fields.now))) state.new r) }
{
    let mut made = no_fields(alloc);
    for i in 0..fields.len() {
        let one = elab_exp(alloc, state, context, &fields[i].exp)?;
        add_field(&fields[i].label, one, &mut made)?;
    }
    Ok(record(alloc, state, context, place, made)?)
}

/// A tuple: its parts are fields with their numbers for labels.
#[cycle(exps)]
fn tuple_of(
    alloc: Global,
    state: &mut State,
    context: &mut Context,
    place: Place,
    parts: &[Exp],
) -> Result<TypedExp, Stopped>
    requires { StandsIn state.old context.old }
    ensures context { IfOk result (λ _. context.new ≡ context.old) }
    ensures is { IfOk result (λ r. IsExp state.old context.old (tuple place (map exp_of parts.now)) state.new r) }
{
    let mut made = no_fields(alloc);
    for i in 0..parts.len() {
        let label = label_at(i)?;
        let one = elab_exp(alloc, state, context, &parts[i])?;
        add_field(&label, one, &mut made)?;
    }
    Ok(record(alloc, state, context, place, made)?)
}

/// A sequence.
#[cycle(exps)]
fn sequence_of(
    alloc: Global,
    state: &mut State,
    context: &mut Context,
    exp: &Exp,
) -> Result<TypedExp, Stopped>
    requires { StandsIn state.old context.old }
    ensures context { IfOk result (λ _. context.new ≡ context.old) }
    ensures is { IfOk result (λ r. IsExp state.old context.old (exp_of exp.now) state.new r) }
{
    let Exp::Sequence(place, first, rest) = exp else {
        return Err(absent(exp));
    };
    let rest: &[Exp] = rest;
    let one = elab_exp(alloc, state, context, first)?;
    if rest.is_empty() {
        return Ok(one);
    }
    let mut before = Vec::new(alloc);
    add_before(one, &mut before)?;
    let end = rest.len() - 1;
    for i in 0..end {
        let one = elab_exp(alloc, state, context, &rest[i])?;
        add_before(one, &mut before)?;
    }
    let last = elab_exp(alloc, state, context, &rest[end])?;
    Ok(sequence(alloc, state, context, *place, before, last)?)
}

/// Further arguments.
#[cycle(exps)]
fn calls_from(
    alloc: Global,
    state: &mut State,
    context: &mut Context,
    place: Place,
    arguments: &[Exp],
    made: &mut Called,
) -> Result<(), Stopped>
    requires context { StandsIn state.old context.old }
    requires made { HasType state.old made.old.ty }
    ensures context { IfOk result (λ _. context.new ≡ context.old) }
    ensures is { IfOk result (λ _. (S : State) (f : SourceExp) → IsCalled f → IsCall S context.old place f state.old made.old
        → IsCall S context.old place (app_of place f (map exp_of arguments.now)) state.new made.new) }
{
    for i in 0..arguments.len() {
        let one = elab_exp(alloc, state, context, &arguments[i])?;
        add_argument(alloc, state, context, place, one, made)?;
    }
    Ok(())
}

/// An operator and its arguments.
#[cycle(exps)]
fn apply_of(
    alloc: Global,
    state: &mut State,
    context: &mut Context,
    exp: &Exp,
) -> Result<TypedExp, Stopped>
    requires { StandsIn state.old context.old }
    ensures context { IfOk result (λ _. context.new ≡ context.old) }
    ensures is { IfOk result (λ r. IsExp state.old context.old (exp_of exp.now) state.new r) }
{
    let Exp::Apply(place, operator, arguments) = exp else {
        return Err(absent(exp));
    };
    if is_fn(operator) {
        return fn_applied(alloc, state, context, exp);
    }
    if !is_called(operator) {
        return Err(absent(exp));
    }
    let function = elab_exp(alloc, state, context, operator)?;
    let mut made = start_call(alloc, function)?;
    calls_from(alloc, state, context, *place, arguments, &mut made)?;
    Ok(finish_call(*place, made))
}

/// A list.
#[cycle(exps)]
fn list_of(
    alloc: Global,
    state: &mut State,
    context: &mut Context,
    place: Place,
    elements: &[Exp],
) -> Result<TypedExp, Stopped>
    requires { StandsIn state.old context.old }
    ensures context { IfOk result (λ _. context.new ≡ context.old) }
    ensures is { IfOk result (λ r. IsExp state.old context.old (listed_exp place (map exp_of elements.now)) state.new r) }
{
    let listed = start_list(alloc, state, context, place)?;
    let mut made = Vec::new(alloc);
    for i in 0..elements.len() {
        let one = elab_exp(alloc, state, context, &elements[i])?;
        add_element(alloc, state, place, listed, one, &mut made)?;
    }
    Ok(finish_list(alloc, listed, made)?)
}

/// Operands of `andalso` (true) or `orelse` (false).
#[cycle(exps)]
fn tests_of(
    alloc: Global,
    state: &mut State,
    context: &mut Context,
    exp: &Exp,
    all: bool,
) -> Result<TypedExp, Stopped>
    requires { StandsIn state.old context.old }
    ensures context { IfOk result (λ _. context.new ≡ context.old) }
    ensures is { IfOk result (λ r. IsExp state.old context.old (exp_of exp.now) state.new r) }
{
    let Exp::Chain(place, right, first, parts) = exp else {
        return Err(absent(exp));
    };
    let parts: &[Part] = parts;
    if !*right {
        return Err(absent(exp));
    }
    if parts.is_empty() {
        return Err(absent(exp));
    }
    if !are_joined(parts, all) {
        return Err(absent(exp));
    }
    let one = elab_exp(alloc, state, context, first)?;
    let mut before = Vec::new(alloc);
    add_operand(alloc, state, *place, one, &mut before)?;
    let end = parts.len() - 1;
    for i in 0..end {
        let one = elab_exp(alloc, state, context, &parts[i].exp)?;
        add_operand(alloc, state, parts[i].place, one, &mut before)?;
    }
    let last = elab_exp(alloc, state, context, &parts[end].exp)?;
    let at = parts[end].place;
    Ok(choices(alloc, state, context, at, all, before, last)?)
}

/// Operands of infix identifiers that associate to the left.
#[cycle(exps)]
fn left_of(
    alloc: Global,
    state: &mut State,
    context: &mut Context,
    exp: &Exp,
) -> Result<TypedExp, Stopped>
    requires { StandsIn state.old context.old }
    ensures context { IfOk result (λ _. context.new ≡ context.old) }
    ensures is { IfOk result (λ r. IsExp state.old context.old (exp_of exp.now) state.new r) }
{
    let Exp::Chain(place, right, first, parts) = exp else {
        return Err(absent(exp));
    };
    let parts: &[Part] = parts;
    if *right {
        return Err(absent(exp));
    }
    let one = elab_exp(alloc, state, context, first)?;
    let mut made = start_left(alloc, one);
    for i in 0..parts.len() {
        let one = elab_exp(alloc, state, context, &parts[i].exp)?;
        let operator = operator_of(&parts[i])?;
        add_left(alloc, state, context, *place, operator, one, &mut made)?;
    }
    Ok(finish_left(alloc, made)?)
}

/// The same to the right.
#[cycle(exps)]
fn right_of(
    alloc: Global,
    state: &mut State,
    context: &mut Context,
    exp: &Exp,
) -> Result<TypedExp, Stopped>
    requires { StandsIn state.old context.old }
    ensures context { IfOk result (λ _. context.new ≡ context.old) }
    ensures is { IfOk result (λ r. IsExp state.old context.old (exp_of exp.now) state.new r) }
{
    let Exp::Chain(place, right, first, parts) = exp else {
        return Err(absent(exp));
    };
    let parts: &[Part] = parts;
    if !*right {
        return Err(absent(exp));
    }
    let one = elab_exp(alloc, state, context, first)?;
    let mut made = start_right(alloc, state, context, *place, one)?;
    for i in 0..parts.len() {
        let one = elab_exp(alloc, state, context, &parts[i].exp)?;
        let operator = operator_of(&parts[i])?;
        let at = parts[i].place;
        add_right(alloc, state, context, at, operator, one, &mut made)?;
    }
    let at = made.place;
    Ok(finish_right(alloc, state, at, made)?)
}

/// Rules, and how many nodes the head has that stands before them.
#[cycle(exps)]
fn rules_from(
    alloc: Global,
    state: &mut State,
    context: &mut Context,
    rules: &[Rule],
    head: usize,
    made: &mut RulesMade,
) -> Result<(), Stopped>
    requires context { StandsIn state.old context.old }
    requires domain { HasType state.old made.old.domain }
    requires range { HasType state.old made.old.range }
    ensures context { IfOk result (λ _. context.new ≡ context.old) }
    ensures grows { IfOk result (λ _. Grows state.old state.new) }
    ensures domain { IfOk result (λ _. made.new.domain ≡ made.old.domain) }
    ensures range { IfOk result (λ _. made.new.range ≡ made.old.range) }
    ensures are { IfOk result (λ _. (S : State) → AreRules S context.old [] state.old made.old
        → AreRules S context.old (map rule_of rules.now) state.new made.new) }
{
    for i in 0..rules.len() {
        let place = rules[i].place;
        let domain = made.domain;
        let begun = begin_rule(alloc, state, context, place, domain, &rules[i].pat)?;
        let exp = elab_exp(alloc, state, context, &rules[i].exp)?;
        let nodes = with_head(head, i, bound_nodes(&rules[i].pat, &rules[i].exp));
        let side = counted(alloc, state, context, nodes, exp)?;
        end_rule(alloc, state, context, place, begun, side, made)?;
    }
    Ok(())
}

/// `fn`.
#[cycle(exps)]
fn function_of(
    alloc: Global,
    state: &mut State,
    context: &mut Context,
    place: Place,
    rules: &[Rule],
) -> Result<TypedExp, Stopped>
    requires { StandsIn state.old context.old }
    ensures context { IfOk result (λ _. context.new ≡ context.old) }
    ensures is { IfOk result (λ r. IsExp state.old context.old (fn_exp place (rules_of (map rule_of rules.now))) state.new r) }
{
    let mut made = start_function(alloc, state, context)?;
    rules_from(alloc, state, context, rules, 0, &mut made)?;
    Ok(by_rules(alloc, state, context, place, made)?)
}

/// Rules on the value of an expression.
#[cycle(exps)]
fn case_from(
    alloc: Global,
    state: &mut State,
    context: &mut Context,
    place: Place,
    taken: TypedExp,
    rules: &[Rule],
) -> Result<TypedExp, Stopped>
    requires context { StandsIn state.old context.old }
    requires taken { HasType state.old taken.ty }
    ensures context { IfOk result (λ _. context.new ≡ context.old) }
    ensures is { IfOk result (λ r. (S : State) (p q : Place) (e : SourceExp) → IsExp S context.old e state.old taken
        → IsExp S context.old (app p (fn_exp q (rules_of (map rule_of rules.now))) e) state.new r) }
{
    let mut made = start_case(alloc, state, context, &taken)?;
    rules_from(alloc, state, context, rules, 0, &mut made)?;
    Ok(case_of(alloc, state, context, place, taken, made)?)
}

/// `fn` and its arguments: a `case`, applied to those behind the first.
#[cycle(exps)]
fn fn_applied(
    alloc: Global,
    state: &mut State,
    context: &mut Context,
    exp: &Exp,
) -> Result<TypedExp, Stopped>
    requires { StandsIn state.old context.old }
    ensures context { IfOk result (λ _. context.new ≡ context.old) }
    ensures is { IfOk result (λ r. IsExp state.old context.old (exp_of exp.now) state.new r) }
{
    let Exp::Apply(place, operator, arguments) = exp else {
        return Err(absent(exp));
    };
    let operator: &Exp = operator;
    let arguments: &[Exp] = arguments;
    let Exp::Fn(_, rules) = operator else {
        return Err(absent(exp));
    };
    if arguments.is_empty() {
        return Err(absent(exp));
    }
    let taken = elab_exp(alloc, state, context, &arguments[0])?;
    let made = case_from(alloc, state, context, *place, taken, rules)?;
    let mut made = start_call(alloc, made)?;
    calls_from(alloc, state, context, *place, &arguments[1..], &mut made)?;
    Ok(finish_call(*place, made))
}

/// `handle`.
#[cycle(exps)]
fn handle_of(
    alloc: Global,
    state: &mut State,
    context: &mut Context,
    exp: &Exp,
) -> Result<TypedExp, Stopped>
    requires { StandsIn state.old context.old }
    ensures context { IfOk result (λ _. context.new ≡ context.old) }
    ensures is { IfOk result (λ r. IsExp state.old context.old (exp_of exp.now) state.new r) }
{
    let Exp::Handle(_, body, rules) = exp else {
        return Err(absent(exp));
    };
    let body = elab_exp(alloc, state, context, body)?;
    let mut made = start_handle(alloc, state, context, &body)?;
    rules_from(alloc, state, context, rules, 0, &mut made)?;
    Ok(handling(alloc, state, context, body, made)?)
}

/// The program's expression, and its type.
#[cycle(exps)]
pub fn elab_exp(
    alloc: Global,
    state: &mut State,
    context: &mut Context,
    exp: &Exp,
) -> Result<TypedExp, Stopped>
    requires { StandsIn state.old context.old }
    ensures context { IfOk result (λ _. context.new ≡ context.old) }
    ensures is { IfOk result (λ r. IsExp state.old context.old (exp_of exp.now) state.new r) }
{
    match exp {
        Exp::Constant(_, value) => Ok(constant(alloc, state, context, value)?),
        Exp::Vid(place, long) => Ok(identifier(alloc, state, context, *place, long)?),
        Exp::BuiltIn(_, which) => Ok(built(alloc, state, context, *which)?),
        Exp::Record(place, fields) => record_of(alloc, state, context, *place, fields),
        Exp::Tuple(place, parts) => tuple_of(alloc, state, context, *place, parts),
        Exp::Sequence(_, _, _) => sequence_of(alloc, state, context, exp),
        Exp::Apply(_, _, _) => apply_of(alloc, state, context, exp),
        Exp::Typed(place, inner, ty) => {
            let inner = elab_exp(alloc, state, context, inner)?;
            Ok(with_type(alloc, state, context, *place, ty, inner)?)
        }
        Exp::Raise(place, packet) => {
            let packet = elab_exp(alloc, state, context, packet)?;
            Ok(raising(alloc, state, context, *place, packet)?)
        }
        Exp::List(place, elements) => list_of(alloc, state, context, *place, elements),
        Exp::Chain(_, right, _, parts) => match shape_of(*right, parts) {
            Shape::Left => left_of(alloc, state, context, exp),
            Shape::Right => right_of(alloc, state, context, exp),
            Shape::Tests(all) => tests_of(alloc, state, context, exp, all),
        },
        Exp::Handle(_, _, _) => handle_of(alloc, state, context, exp),
        Exp::Fn(place, rules) => function_of(alloc, state, context, *place, rules),
        Exp::Let(_, _, _) => let_of(alloc, state, context, exp),
    }
}

/// `let`: what its declarations bring is in scope in its expression alone.
#[cycle(exps)]
fn let_of(
    alloc: Global,
    state: &mut State,
    context: &mut Context,
    exp: &Exp,
) -> Result<TypedExp, Stopped>
    requires { StandsIn state.old context.old }
    ensures context { IfOk result (λ _. context.new ≡ context.old) }
    ensures is { IfOk result (λ r. IsExp state.old context.old (exp_of exp.now) state.new r) }
{
    let Exp::Let(place, decs, body) = exp else {
        return Err(absent(exp));
    };
    let mark = begin_block(context);
    let mut brought = Brought::new(alloc);
    let mut made = Vec::new(alloc);
    decs_from(alloc, state, context, decs, &mut made, &mut brought)?;
    let body = elab_exp(alloc, state, context, body)?;
    leave_block(context, mark);
    Ok(block(alloc, state, context, *place, made, body)?)
}

/// Declarations, one after the other: each in the scope of those before.
#[cycle(exps)]
pub fn decs_from(
    alloc: Global,
    state: &mut State,
    context: &mut Context,
    decs: &[Dec],
    made: &mut Vec<ProgramDec>,
    brought: &mut Brought,
) -> Result<(), Stopped>
    requires { StandsIn state.old context.old }
    ensures { IfOk result (λ _. AreDeclared state.old context.old (map dec_of decs.now) state.new context.new made.old.items made.new.items
        brought.old brought.new) }
{
    for i in 0..decs.len() {
        elab_dec(alloc, state, context, &decs[i], made, brought)?;
    }
    Ok(())
}

/// `local`: what its first part brings is in scope in the second alone.
#[cycle(exps)]
fn local_of(
    alloc: Global,
    state: &mut State,
    context: &mut Context,
    dec: &Dec,
    made: &mut Vec<ProgramDec>,
    brought: &mut Brought,
) -> Result<(), Stopped>
    requires { StandsIn state.old context.old }
    ensures { IfOk result (λ _. IsDeclared state.old context.old (dec_of dec.now) state.new context.new made.old.items made.new.items brought.old brought.new) }
{
    let Dec::Local(_, first, second) = dec else {
        return Err(absent_dec(dec));
    };
    let mark = begin_local(context);
    let mut hidden = Brought::new(alloc);
    decs_from(alloc, state, context, first, made, &mut hidden)?;
    let mut shown = Brought::new(alloc);
    decs_from(alloc, state, context, second, made, &mut shown)?;
    end_local(context, mark, &shown, brought)?;
    Ok(())
}

/// Bindings inside their declaration.
#[cycle(exps)]
fn bindings_from(
    alloc: Global,
    state: &mut State,
    context: &mut Context,
    begun: Begun,
    scoped: &[Tyvar],
    binds: &[Bind],
) -> Result<Inside, Stopped>
    requires context { StandsIn state.old context.old }
    requires within { IsWithin context.old begun scoped.now }
    ensures context { IfOk result (λ _. context.new ≡ context.old) }
    ensures are { IfOk result (λ r. AreBound state.old context.old begun (map bind_of binds.now) state.new r) }
{
    let mut inside = none_inside(alloc);
    for i in 0..binds.len() {
        let exp = elab_exp(alloc, state, context, &binds[i].exp)?;
        let nodes = bound_nodes(&binds[i].pat, &binds[i].exp);
        let side = counted(alloc, state, context, nodes, exp)?;
        add_binding(
            alloc,
            state,
            context,
            begun,
            scoped,
            &binds[i],
            side,
            &mut inside,
        )?;
    }
    Ok(inside)
}

/// A function of `val rec`, inside its group.
#[cycle(exps)]
fn rec_of(
    alloc: Global,
    state: &mut State,
    context: &mut Context,
    ty: usize,
    bind: &Bind,
) -> Result<FunctionMade, Stopped>
    requires context { StandsIn state.old context.old }
    requires ty { HasType state.old ty }
    ensures context { IfOk result (λ _. context.new ≡ context.old) }
    ensures is { IfOk result (λ m. IsMember state.old context.old (bind_of bind.now) ty state.new m) }
{
    let exp = &bind.exp;
    let Exp::Fn(place, rules) = exp else {
        return Err(no_function(bind.place));
    };
    annotate_head(alloc, state, context, &bind.pat, ty)?;
    let mut made = start_function(alloc, state, context)?;
    let head = bound_nodes(&bind.pat, &bind.exp);
    rules_from(alloc, state, context, rules, head, &mut made)?;
    Ok(function_by_rules(alloc, state, context, *place, made)?)
}

/// The functions of `val rec`, inside their group.
#[cycle(exps)]
fn recs_from(
    alloc: Global,
    state: &mut State,
    context: &mut Context,
    heads: &[Head],
    recs: &[Bind],
    inside: &mut Inside,
) -> Result<Vec<(Vec<usize>, usize, ProgramFunction)>, Stopped>
    requires context { StandsIn state.old context.old }
    requires heads { HaveHeads state.old heads.now }
    requires count { length heads.now ≡ length recs.now }
    ensures context { IfOk result (λ _. context.new ≡ context.old) }
    ensures are { IfOk result (λ fs. AreMembers state.old (with_own context.old (reverse heads.now)) (map bind_of recs.now) (reverse heads.now)
        inside.old state.new inside.new fs.items) }
{
    let mark = enter_group(context, heads)?;
    let mut funs = Vec::new(alloc);
    for i in 0..recs.len() {
        let place = recs[i].place;
        let head = head_at(heads, i);
        let made = rec_of(alloc, state, context, head.ty, &recs[i])?;
        add_member(alloc, state, context, place, head, made, inside, &mut funs)?;
    }
    leave_heads(context, mark);
    Ok(funs)
}

/// Clauses, each a rule on what the parameters take, and how many nodes the head has that stands before them.
#[cycle(exps)]
fn clauses_from(
    alloc: Global,
    state: &mut State,
    context: &mut Context,
    clauses: &[Clause],
    head: usize,
    made: &mut RulesMade,
) -> Result<(), Stopped>
    requires context { StandsIn state.old context.old }
    requires domain { HasType state.old made.old.domain }
    requires range { HasType state.old made.old.range }
    ensures context { IfOk result (λ _. context.new ≡ context.old) }
    ensures grows { IfOk result (λ _. Grows state.old state.new) }
    ensures domain { IfOk result (λ _. made.new.domain ≡ made.old.domain) }
    ensures range { IfOk result (λ _. made.new.range ≡ made.old.range) }
    ensures are { IfOk result (λ _. (S : State) → AreRules S context.old [] state.old made.old
        → AreRules S context.old (map clause_rule clauses.now) state.new made.new) }
{
    for i in 0..clauses.len() {
        let place = clauses[i].place;
        let domain = made.domain;
        let begun = begin_clause(alloc, state, context, place, domain, &clauses[i].pats)?;
        let exp = elab_exp(alloc, state, context, &clauses[i].exp)?;
        let nodes = with_head(head, i, clause_nodes(&clauses[i].pats, &clauses[i].exp));
        let side = counted(alloc, state, context, nodes, exp)?;
        end_rule(alloc, state, context, place, begun, side, made)?;
    }
    Ok(())
}

/// The body of a function of `fun`: clauses on what its parameters take.
#[cycle(exps)]
fn clauses_on(
    alloc: Global,
    state: &mut State,
    context: &mut Context,
    place: Place,
    taken: TypedExp,
    clauses: &[Clause],
    head: usize,
) -> Result<TypedExp, Stopped>
    requires context { StandsIn state.old context.old }
    requires taken { HasType state.old taken.ty }
    ensures context { IfOk result (λ _. context.new ≡ context.old) }
    ensures is { IfOk result (λ r. (S : State) (p q : Place) (e : SourceExp) → IsExp S context.old e state.old taken
        → IsExp S context.old (app p (fn_exp q (rules_of (map clause_rule clauses.now))) e) state.new r) }
{
    let mut made = start_case(alloc, state, context, &taken)?;
    clauses_from(alloc, state, context, clauses, head, &mut made)?;
    Ok(case_of(alloc, state, context, place, taken, made)?)
}

/// A function of `fun`, inside its group: its parameters, and its clauses on what they take.
#[cycle(exps)]
fn clausal_of(
    alloc: Global,
    state: &mut State,
    context: &mut Context,
    function: &Function,
) -> Result<FunctionMade, Stopped>
    requires { StandsIn state.old context.old }
    ensures context { IfOk result (λ _. context.new ≡ context.old) }
    ensures is { IfOk result (λ m. (ty : ℕ) → IsMember state.old context.old (function_bind function.now) ty state.new m) }
{
    let place = function.place;
    let clauses: &[Clause] = &function.clauses;
    let count = parameter_count(place, clauses)?;
    let mark = context.values.mark();
    let entered = enter_parameters(alloc, state, context, place, count)?;
    let operand = taken(alloc, state, context, place, count)?;
    let head = head_nodes(function);
    let body = clauses_on(alloc, state, context, place, operand, clauses, head)?;
    leave(context, mark);
    Ok(finish_clauses(alloc, state, entered, body)?)
}

/// The functions of `fun`, inside their group.
#[cycle(exps)]
fn functions_from(
    alloc: Global,
    state: &mut State,
    context: &mut Context,
    heads: &[Head],
    functions: &[Function],
    inside: &mut Inside,
) -> Result<Vec<(Vec<usize>, usize, ProgramFunction)>, Stopped>
    requires context { StandsIn state.old context.old }
    requires heads { HaveHeads state.old heads.now }
    requires count { length heads.now ≡ length functions.now }
    ensures context { IfOk result (λ _. context.new ≡ context.old) }
    ensures are { IfOk result (λ fs. AreMembers state.old (with_own context.old (reverse heads.now)) (map function_bind functions.now) (reverse heads.now)
        inside.old state.new inside.new fs.items) }
{
    let mark = enter_group(context, heads)?;
    let mut funs = Vec::new(alloc);
    for i in 0..functions.len() {
        let place = functions[i].place;
        let head = head_at(heads, i);
        let made = clausal_of(alloc, state, context, &functions[i])?;
        add_member(alloc, state, context, place, head, made, inside, &mut funs)?;
    }
    leave_heads(context, mark);
    Ok(funs)
}

/// `val`, with functions behind `rec` or without.
#[cycle(exps)]
fn val_of(
    alloc: Global,
    state: &mut State,
    context: &mut Context,
    dec: &Dec,
    brought: &mut Brought,
) -> Result<ProgramDec, Stopped>
    requires { StandsIn state.old context.old }
    ensures stands { IfOk result (λ _. StandsIn state.new context.new) }
    ensures schemes { IfOk result (λ _. context.new.schemes ≡ context.old.schemes) }
    ensures brings { IfOk result (λ d. IsBringing state.old context.old (dec_of dec.now) state.new context.new (d ∷ []) brought.old brought.new) }
{
    let Dec::Val(place, tyvars, binds, recs) = dec else {
        return Err(absent_dec(dec));
    };
    let binds: &[Bind] = binds;
    let recs: &[Bind] = recs;
    let tyvars: &[Tyvar] = &tyvars.tyvars;
    let scoped = scoped_in_val(alloc, &context.types.tyvars, tyvars, binds, recs)?;
    let scoped: &[Tyvar] = &scoped;
    let begun = begin(alloc, state, context, *place, scoped)?;
    let heads = reserve_recs(alloc, state, context, recs)?;
    let heads: &[Head] = &heads;
    let mut inside = bindings_from(alloc, state, context, begun, scoped, binds)?;
    let funs = recs_from(alloc, state, context, heads, recs, &mut inside)?;
    let made = finish_inside(
        alloc, state, context, *place, begun, scoped, inside, funs, brought,
    )?;
    Ok(made)
}

/// `fun`.
#[cycle(exps)]
fn fun_of(
    alloc: Global,
    state: &mut State,
    context: &mut Context,
    dec: &Dec,
    brought: &mut Brought,
) -> Result<ProgramDec, Stopped>
    requires { StandsIn state.old context.old }
    ensures stands { IfOk result (λ _. StandsIn state.new context.new) }
    ensures schemes { IfOk result (λ _. context.new.schemes ≡ context.old.schemes) }
    ensures brings { IfOk result (λ d. IsBringing state.old context.old (dec_of dec.now) state.new context.new (d ∷ []) brought.old brought.new) }
{
    let Dec::Fun(place, tyvars, functions) = dec else {
        return Err(absent_dec(dec));
    };
    let functions: &[Function] = functions;
    let tyvars: &[Tyvar] = &tyvars.tyvars;
    let scoped = scoped_in_fun(alloc, &context.types.tyvars, tyvars, functions)?;
    let scoped: &[Tyvar] = &scoped;
    let begun = begin(alloc, state, context, *place, scoped)?;
    let heads = reserve_names(alloc, state, context, functions)?;
    let heads: &[Head] = &heads;
    let mut inside = none_inside(alloc);
    let funs = functions_from(alloc, state, context, heads, functions, &mut inside)?;
    let made = finish_inside(
        alloc, state, context, *place, begun, scoped, inside, funs, brought,
    )?;
    Ok(made)
}

/// A declaration: its part of the program stands behind what was made, and what it brings is in scope.
#[cycle(exps)]
pub fn elab_dec(
    alloc: Global,
    state: &mut State,
    context: &mut Context,
    dec: &Dec,
    made: &mut Vec<ProgramDec>,
    brought: &mut Brought,
) -> Result<(), Stopped>
    requires { StandsIn state.old context.old }
    ensures { IfOk result (λ _. IsDeclared state.old context.old (dec_of dec.now) state.new context.new made.old.items made.new.items brought.old brought.new) }
{
    match dec {
        Dec::Val(_, _, _, _) => {
            let one = val_of(alloc, state, context, dec, brought)?;
            Ok(add_dec(made, one)?)
        }
        Dec::Fun(_, _, _) => {
            let one = fun_of(alloc, state, context, dec, brought)?;
            Ok(add_dec(made, one)?)
        }
        Dec::Local(_, _, _) => local_of(alloc, state, context, dec, made, brought),
        Dec::Declarations(_, decs) => decs_from(alloc, state, context, decs, made, brought),
        _ => Ok(plain_dec(alloc, state, context, dec, made, brought)?),
    }
}
