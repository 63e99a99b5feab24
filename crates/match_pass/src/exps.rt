// Expressions, rules, functions and declarations, each with the steps that make it.
ghost use Rattle.std.specs.Prelude.{◌≡◌, ◌<◌, ℕ, suc, List, [], reverse, drop, length, IfOk};
ghost use Rattle.mlc_base.specs.declared.place.Place.{Place as At};
ghost use Rattle.ir_poly.specs.Prog.{Decs, Binds as Bound, Exp as Clean, type_of as of_type};
ghost use Rattle.match_compile.specs.Compile.{past_funs, way};
ghost use Rattle.plain_tree.specs.declared.tree.Step.{Step as Row};
ghost use Rattle.prog_tree.specs.TreeOf.{Reading};
ghost use Rattle.prog_tree.specs.declared.tree.Exp.{Exp as Tree};
ghost use Rattle.general_bindings.specs.of_match_types.Views.{View, Sees, Keeps};
ghost use Rattle.general_bindings.specs.of_match_types.declared.work.Work.{Work as State};
ghost use Rattle.general_bindings.specs.of_match_steps.Steps.{Puts};
ghost use Rattle.general_bindings.specs.of_exp_steps.Making.{Makes, MakesAll, MakesTuple};
ghost use Rattle.general_bindings.specs.of_exp_steps.Made.{applied, recorded};
ghost use Rattle.general_bindings.specs.of_exp_steps.Ways.{way_of};
ghost use Rattle.general_bindings.specs.of_exp_steps.Joining.{Opens};
ghost use Rattle.general_bindings.specs.of_exp_blocks.Giving.{otherwise_of};
ghost use Rattle.match_pass.specs.Reading.{expression, fields_read, applied_to, left_chain, right_chain, rules_read, sequence_read, chain_read, function_read};
ghost use Rattle.match_pass.specs.Reading.{case_read, named_read, by_rules_read, decs_read, dec_before};
ghost use Rattle.match_pass.specs.Kinds.{IsLet, IsApply, IsInfix, IsTest, IsHandle};
ghost use Rattle.match_pass.specs.Chains.{LeftOpen, LeftMade, RightMade, last_first};
ghost use Rattle.match_pass.specs.Going.{GivesRules, GivesFunction, MakesRule, MakesTested, Linked, Attempted, Declares};
ghost use Rattle.match_pass.specs.Declaring.{Binds, Generalises, Groups, binds_read, bind_before, funs_read, grouping};
ghost use Rattle.match_pass.specs.Apart.{Begins, going, GoesOn, FirstOpen, OneMade};

use crate::chains::close_right;
use crate::choices::{add_attempt, finish_attempts, push_choice, push_handled};
use crate::groups::{bind_group, reserve};
use crate::heads::{add_member, named_head, unnamed_head, with_body, with_steps};
use crate::matches::push_match;
use crate::shapes::{generalises, is_direct};
use general_bindings::bindings::{push_shaped, sole_variable};
use general_bindings::exceptions::push_new_exception;
use general_bindings::exp_blocks::blocks::{
    Lambda, Otherwise, push_block, push_group, push_lambda, push_link,
};
use general_bindings::exp_blocks::scopes::{bind_all, push_scope};
use general_bindings::exp_steps::atoms::{push_atom, push_used};
use general_bindings::exp_steps::calls::{
    push_beginning, push_built, push_call, push_performed, push_raise, push_record,
};
use general_bindings::exp_steps::joins::{Opening, close};
use general_bindings::exp_steps::operations::push_counted;
use general_bindings::exp_steps::ways::{Way, application_way, pair_way, push_weights};
use general_bindings::match_types::types::{fresh, scoped_type};
use general_bindings::match_types::work::{ValueType, Work};
use general_bindings::pattern_tests::patterns::push_tests;
use general_bindings::pattern_tests::spots::{Spot, bind_spots};
use mlc_base::memory::NoMemory;
use mlc_base::place::Place;
use mlc_names::label::Label;
use plain_tree::tree::{Exp as Tests, Field, Function as Member, Step};
use prog_shapes::types::type_of;
use prog_tree::tree::{Binding as Manner, Dec, Exp, Function, Join, Parameter, Rule, Side};
use std::alloc::Global;

/// The value of an expression is made, in the variable that is given back.
#[cycle(exps)]
pub fn push_exp(
    alloc: Global,
    work: &mut Work,
    exp: &Exp,
    steps: &mut Vec<Step>,
) -> Result<usize, NoMemory>
    ensures { IfOk result (λ a. Makes work.old work.new steps.old.items steps.new.items (expression exp.now) a) }
{
    match exp {
        Exp::Atom(atom, u) => push_atom(alloc, work, *atom, *u, steps),
        Exp::Use(what, types, u) => push_used(alloc, work, *what, types, *u, steps),
        Exp::Record(u, fields) => push_recorded(alloc, work, *u, fields, steps),
        Exp::Let(_, _, _) => push_let(alloc, work, exp, steps),
        Exp::Apply(_, _, _) => push_application(alloc, work, exp, steps),
        Exp::Infix(_, _, _) => push_infix(alloc, work, exp, steps),
        Exp::Case(_, u, scrutinee, rules) => {
            let value = push_exp(alloc, work, scrutinee, steps)?;
            push_case(alloc, work, *u, type_of(scrutinee), rules, value, steps)
        }
        Exp::Sequence(_, _, dropped, last) => {
            push_dropped(alloc, work, dropped, steps)?;
            push_exp(alloc, work, last, steps)
        }
        Exp::Test(_, _, _, _) => push_chain(alloc, work, exp, steps),
        Exp::Handle(_, _, _) => push_handling(alloc, work, exp, steps),
        Exp::Raise(u, packet) => {
            let packet = push_exp(alloc, work, packet, steps)?;
            push_raise(alloc, work, *u, packet, steps)
        }
        Exp::Fn(u, function) => {
            let made = make_function(alloc, work, function)?;
            push_lambda(alloc, work, *u, made, steps)
        }
        Exp::Counted(count, _, inner) => {
            push_counted(*count, steps)?;
            push_exp(alloc, work, inner, steps)
        }
    }
}

/// A record of fields.
#[cycle(exps)]
fn push_recorded(
    alloc: Global,
    work: &mut Work,
    u: usize,
    fields: &[(Label, Exp)],
    steps: &mut Vec<Step>,
) -> Result<usize, NoMemory>
    ensures { IfOk result (λ a. Makes work.old work.new steps.old.items steps.new.items (recorded u (fields_read fields.now)) a) }
{
    let made = push_fields(alloc, work, fields, steps)?;
    let a = push_record(alloc, work, u, made, steps)?;
    Ok(a)
}

/// An expression in the scope of declarations, in a block of its own.
#[cycle(exps)]
fn push_let(
    alloc: Global,
    work: &mut Work,
    exp: &Exp,
    steps: &mut Vec<Step>,
) -> Result<usize, NoMemory>
    requires { IsLet exp.now }
    ensures { IfOk result (λ a. Makes work.old work.new steps.old.items steps.new.items (expression exp.now) a) }
{
    let Exp::Let(u, decs, body) = exp else {
        unreachable!()
    };
    let first = work.next;
    let bound = work.names.len();
    let mut inner = Vec::new(alloc);
    push_decs(alloc, work, decs, &mut inner)?;
    let value = push_exp(alloc, work, body, &mut inner)?;
    work.names.restore(bound)?;
    let t = ValueType::Source(*u);
    let other = Otherwise::Bind;
    let a = push_choice(alloc, work, *u, inner, value, t, first, other, steps)?;
    Ok(a)
}

/// A function with its arguments.
#[cycle(exps)]
fn push_application(
    alloc: Global,
    work: &mut Work,
    exp: &Exp,
    steps: &mut Vec<Step>,
) -> Result<usize, NoMemory>
    requires { IsApply exp.now }
    ensures { IfOk result (λ a. Makes work.old work.new steps.old.items steps.new.items (expression exp.now) a) }
{
    let Exp::Apply(place, function, arguments) = exp else {
        unreachable!()
    };
    let function: &Exp = function;
    let arguments: &[(usize, Exp)] = arguments;
    if arguments.is_empty() {
        let a = push_exp(alloc, work, function, steps)?;
        return Ok(a);
    }
    let way = application_way(function, &arguments[0].1);
    let opening = push_head(alloc, work, way, function, steps)?;
    let a = push_arguments(alloc, work, *place, opening, arguments, steps)?;
    Ok(a)
}

/// A chain of infix operators. Those that associate to the left: all of them, the first operand, and then each right operand with its application; those
/// that associate to the right: each before its left operand, and all applications at the end.
#[cycle(exps)]
fn push_infix(
    alloc: Global,
    work: &mut Work,
    exp: &Exp,
    steps: &mut Vec<Step>,
) -> Result<usize, NoMemory>
    requires { IsInfix exp.now }
    ensures { IfOk result (λ a. Makes work.old work.new steps.old.items steps.new.items (expression exp.now) a) }
{
    let Exp::Infix(side, first, joins) = exp else {
        unreachable!()
    };
    let joins: &[(Join, Exp, Exp)] = joins;
    match side {
        Side::Left => {
            let mut openings = Vec::new(alloc);
            push_operators(alloc, work, joins, &mut openings, steps)?;
            let value = push_exp(alloc, work, first, steps)?;
            let a = push_operands(alloc, work, joins, &mut openings, value, steps)?;
            Ok(a)
        }
        Side::Right => {
            let mut openings = Vec::new(alloc);
            let opening = push_operator(alloc, work, joins, 0, steps)?;
            let value = push_exp(alloc, work, first, steps)?;
            let last = push_waiting(alloc, work, joins, opening, value, &mut openings, steps)?;
            let a = close_right(alloc, work, joins, &mut openings, last, steps)?;
            Ok(a)
        }
    }
}

/// Operands of `andalso` or `orelse`, in a block of their own.
#[cycle(exps)]
fn push_chain(
    alloc: Global,
    work: &mut Work,
    exp: &Exp,
    steps: &mut Vec<Step>,
) -> Result<usize, NoMemory>
    requires { IsTest exp.now }
    ensures { IfOk result (λ a. Makes work.old work.new steps.old.items steps.new.items (expression exp.now) a) }
{
    let Exp::Test(goes_on, u, operands, last) = exp else {
        unreachable!()
    };
    let first = work.next;
    let t = ValueType::Bool;
    let other = Otherwise::Match;
    let mut inner = Vec::new(alloc);
    push_links(alloc, work, *goes_on, operands, &mut inner)?;
    let value = push_exp(alloc, work, last, &mut inner)?;
    let a = push_choice(alloc, work, *u, inner, value, t, first, other, steps)?;
    Ok(a)
}

/// An expression with rules for the packet that it raises.
#[cycle(exps)]
fn push_handling(
    alloc: Global,
    work: &mut Work,
    exp: &Exp,
    steps: &mut Vec<Step>,
) -> Result<usize, NoMemory>
    requires { IsHandle exp.now }
    ensures { IfOk result (λ a. Makes work.old work.new steps.old.items steps.new.items (expression exp.now) a) }
{
    let Exp::Handle(u, body, rules) = exp else {
        unreachable!()
    };
    let mut inner = Vec::new(alloc);
    let value = push_exp(alloc, work, body, &mut inner)?;
    let packet = fresh(work)?;
    let t = ValueType::Exception;
    let handler = make_rules(alloc, work, rules, t, *u, packet, Otherwise::Again)?;
    let a = push_handled(alloc, work, *u, inner, value, packet, handler, steps)?;
    Ok(a)
}

/// The values of fields, one after the other.
#[cycle(exps)]
fn push_fields(
    alloc: Global,
    work: &mut Work,
    fields: &[(Label, Exp)],
    steps: &mut Vec<Step>,
) -> Result<Vec<Field>, NoMemory>
    ensures { IfOk result (λ made. MakesAll work.old work.new steps.old.items steps.new.items (fields_read fields.now) made.items) }
{
    let mut made = Vec::new(alloc);
    for i in 0..fields.len() {
        let field = &fields[i];
        let atom = push_exp(alloc, work, &field.1, steps)?;
        made.push(Field {
            label: field.0,
            atom,
        })?;
    }
    Ok(made)
}

/// The parts of a tuple that is written.
#[cycle(exps)]
fn push_tuple(
    alloc: Global,
    work: &mut Work,
    tuple: &Exp,
    steps: &mut Vec<Step>,
) -> Result<Vec<Field>, NoMemory>
    ensures { IfOk result (λ made. MakesTuple work.old work.new steps.old.items steps.new.items (expression tuple.now) made.items) }
{
    match tuple {
        Exp::Record(_, fields) => push_fields(alloc, work, fields, steps),
        Exp::Counted(count, _, inner) => {
            push_counted(*count, steps)?;
            push_tuple(alloc, work, inner, steps)
        }
        Exp::Apply(_, inner, rest) if rest.is_empty() => push_tuple(alloc, work, inner, steps),
        Exp::Apply(_, _, _) => Ok(Vec::new(alloc)),
        Exp::Infix(_, inner, rest) if rest.is_empty() => push_tuple(alloc, work, inner, steps),
        Exp::Infix(_, _, _) => Ok(Vec::new(alloc)),
        Exp::Sequence(_, _, dropped, inner) if dropped.is_empty() => {
            push_tuple(alloc, work, inner, steps)
        }
        Exp::Sequence(_, _, _, _) => Ok(Vec::new(alloc)),
        Exp::Atom(_, _) => Ok(Vec::new(alloc)),
        Exp::Use(_, _, _) => Ok(Vec::new(alloc)),
        Exp::Let(_, _, _) => Ok(Vec::new(alloc)),
        Exp::Case(_, _, _, _) => Ok(Vec::new(alloc)),
        Exp::Test(_, _, _, _) => Ok(Vec::new(alloc)),
        Exp::Handle(_, _, _) => Ok(Vec::new(alloc)),
        Exp::Raise(_, _) => Ok(Vec::new(alloc)),
        Exp::Fn(_, _) => Ok(Vec::new(alloc)),
    }
}

/// What stands before the argument of a function, by the way that the application goes.
#[cycle(exps)]
fn push_head(
    alloc: Global,
    work: &mut Work,
    way: Way,
    function: &Exp,
    steps: &mut Vec<Step>,
) -> Result<Opening, NoMemory>
    ensures begins { IfOk result (λ o. Begins work.old work.new steps.old.items steps.new.items (expression function.now) o) }
    ensures goes { IfOk result (λ o. (R : Reading) → way_of way R ≡ going o R) }
{
    match way {
        Way::Call => {
            let operator = push_exp(alloc, work, function, steps)?;
            Ok(Opening::Call(operator))
        }
        Way::Building(built) => {
            let name = push_beginning(work, built, function, steps)?;
            Ok(Opening::Building(built, name))
        }
        Way::Performing(primitive, at) => {
            push_weights(function, steps)?;
            Ok(Opening::Performing(primitive, at))
        }
    }
}

/// The argument of a function, and the application to it.
#[cycle(exps)]
fn push_argument(
    alloc: Global,
    work: &mut Work,
    place: Place,
    u: usize,
    opening: Opening,
    argument: &Exp,
    steps: &mut Vec<Step>,
) -> Result<usize, NoMemory>
    ensures { IfOk result (λ a. (w : State) (ss : List Row) (f : Reading → Clean) → ((R : Reading) → way (f R) (expression argument.now R) ≡ going opening R)
        → Begins w work.old ss steps.old.items f opening → Makes w work.new ss steps.new.items (applied place u f (expression argument.now)) a) }
{
    match opening {
        Opening::Call(operator) => {
            let operand = push_exp(alloc, work, argument, steps)?;
            let a = push_call(alloc, work, place, u, operator, operand, steps)?;
            Ok(a)
        }
        Opening::Building(built, name) => {
            let value = push_exp(alloc, work, argument, steps)?;
            let of = type_of(argument);
            let a = push_built(alloc, work, built, name, place, u, of, value, steps)?;
            Ok(a)
        }
        Opening::Performing(primitive, at) => {
            let parts = push_tuple(alloc, work, argument, steps)?;
            let a = push_performed(alloc, work, place, u, primitive, at, &parts, steps)?;
            Ok(a)
        }
    }
}

/// Arguments in order, each with the application of what was made so far.
#[cycle(exps)]
fn push_arguments(
    alloc: Global,
    work: &mut Work,
    place: Place,
    opening: Opening,
    arguments: &[(usize, Exp)],
    steps: &mut Vec<Step>,
) -> Result<usize, NoMemory>
    requires { 0 < length arguments.now }
    ensures { IfOk result (λ a. (w : State) (ss : List Row) (f : Tree) → GoesOn f arguments.now opening → Begins w work.old ss steps.old.items (expression f) opening
        → Makes w work.new ss steps.new.items (applied_to place (expression f) arguments.now) a) }
{
    let first = &arguments[0];
    let mut value = push_argument(alloc, work, place, first.0, opening, &first.1, steps)?;
    for i in 1..arguments.len() {
        let next = &arguments[i];
        let argument = push_exp(alloc, work, &next.1, steps)?;
        value = push_call(alloc, work, place, next.0, value, argument, steps)?;
    }
    Ok(value)
}

/// What stands before the operands of an infix operator.
#[cycle(exps)]
fn push_opening(
    alloc: Global,
    work: &mut Work,
    operator: &Exp,
    steps: &mut Vec<Step>,
) -> Result<Opening, NoMemory>
    ensures { IfOk result (λ o. Opens work.old work.new steps.old.items steps.new.items (expression operator.now) o) }
{
    match pair_way(operator) {
        Way::Call => {
            let function = push_exp(alloc, work, operator, steps)?;
            Ok(Opening::Call(function))
        }
        Way::Building(built) => {
            let name = push_beginning(work, built, operator, steps)?;
            Ok(Opening::Building(built, name))
        }
        Way::Performing(primitive, at) => {
            push_weights(operator, steps)?;
            Ok(Opening::Performing(primitive, at))
        }
    }
}

/// Operators that associate to the left, from the outermost one on.
#[cycle(exps)]
fn push_operators(
    alloc: Global,
    work: &mut Work,
    joins: &[(Join, Exp, Exp)],
    openings: &mut Vec<Opening>,
    steps: &mut Vec<Step>,
) -> Result<(), NoMemory>
    ensures { IfOk result (λ _. openings.old.items ≡ []
        → LeftOpen work.old steps.old.items joins.now (reverse openings.new.items) work.new steps.new.items) }
{
    let mut left = joins.len();
    while left > 0 {
        left -= 1;
        let join = &joins[left];
        let opening = push_opening(alloc, work, &join.1, steps)?;
        openings.push(opening)?;
    }
    Ok(())
}

/// The right operands of operators that wait, each with its application to what was made so far.
#[cycle(exps)]
fn push_operands(
    alloc: Global,
    work: &mut Work,
    joins: &[(Join, Exp, Exp)],
    openings: &mut Vec<Opening>,
    first: usize,
    steps: &mut Vec<Step>,
) -> Result<usize, NoMemory>
    ensures { IfOk result (λ a. (start : State) (before : List Row) (e : Reading → Clean)
        → LeftMade start work.old before steps.old.items e [] joins.now (reverse openings.old.items) first
        → Makes start work.new before steps.new.items (left_chain e joins.now) a) }
{
    let mut value = first;
    for i in 0..joins.len() {
        let join = &joins[i];
        let right = push_exp(alloc, work, &join.2, steps)?;
        let Some(opening) = openings.pop() else {
            return Ok(value);
        };
        value = close(alloc, work, join.0, opening, value, right, steps)?;
    }
    Ok(value)
}

/// The operator with this number, where there are so many.
#[cycle(exps)]
fn push_operator(
    alloc: Global,
    work: &mut Work,
    joins: &[(Join, Exp, Exp)],
    i: usize,
    steps: &mut Vec<Step>,
) -> Result<Option<Opening>, NoMemory>
    ensures { IfOk result (λ o. FirstOpen work.old work.new steps.old.items steps.new.items (drop i joins.now) o) }
{
    if i >= joins.len() {
        return Ok(None);
    }
    let join = &joins[i];
    let opening = push_opening(alloc, work, &join.1, steps)?;
    Ok(Some(opening))
}

/// Operators that associate to the right, after the first and its left operand: each before its own left operand, and the last operand.
#[cycle(exps)]
fn push_waiting(
    alloc: Global,
    work: &mut Work,
    joins: &[(Join, Exp, Exp)],
    first: Option<Opening>,
    left: usize,
    openings: &mut Vec<(Opening, usize)>,
    steps: &mut Vec<Step>,
) -> Result<usize, NoMemory>
    ensures { IfOk result (λ a. (w v : State) (ss us : List Row) (e : Tree) → openings.old.items ≡ [] → FirstOpen w v ss us joins.now first
        → Makes v work.old us steps.old.items (expression e) left
        → RightMade w work.new ss steps.new.items (right_chain (expression e) joins.now) (reverse openings.new.items) (last_first joins.now) a) }
{
    let mut waiting = first;
    let mut value = left;
    for i in 0..joins.len() {
        let Some(opening) = waiting else {
            return Ok(value);
        };
        openings.push((opening, value))?;
        waiting = push_operator(alloc, work, joins, i + 1, steps)?;
        let join = &joins[i];
        value = push_exp(alloc, work, &join.2, steps)?;
    }
    Ok(value)
}

/// A match of a value of the source's type `of`. One rule that any value fits needs no block.
#[cycle(exps)]
fn push_case(
    alloc: Global,
    work: &mut Work,
    u: usize,
    of: usize,
    rules: &[Rule],
    value: usize,
    steps: &mut Vec<Step>,
) -> Result<usize, NoMemory>
    ensures { IfOk result (λ a. (place : At) (w : State) (ss : List Row) (e : Reading → Clean) → ((R : Reading) → R.type of ≡ of_type (e R))
        → Makes w work.old ss steps.old.items e value → Makes w work.new ss steps.new.items (case_read place u e rules.now) a) }
{
    if is_direct(rules) {
        let a = push_direct(alloc, work, &rules[0], value, steps)?;
        return Ok(a);
    }
    let matched = ValueType::Source(of);
    let made = make_rules(alloc, work, rules, matched, u, value, Otherwise::Match)?;
    let a = push_block(alloc, work, ValueType::Source(u), made, steps)?;
    Ok(a)
}

/// The expression of a rule whose pattern any value fits.
#[cycle(exps)]
fn push_direct(
    alloc: Global,
    work: &mut Work,
    rule: &Rule,
    value: usize,
    steps: &mut Vec<Step>,
) -> Result<usize, NoMemory>
    ensures { IfOk result (λ a. MakesRule work.old work.new steps.old.items steps.new.items rule.now value a) }
{
    let bound = work.names.len();
    bind_all(&mut work.names, &rule.pat, value)?;
    let a = push_exp(alloc, work, &rule.exp, steps)?;
    work.names.restore(bound)?;
    Ok(a)
}

/// A rule: the tests of its pattern, and then its expression.
#[cycle(exps)]
fn push_rule(
    alloc: Global,
    work: &mut Work,
    rule: &Rule,
    matched: ValueType,
    atom: usize,
    steps: &mut Vec<Step>,
) -> Result<usize, NoMemory>
    ensures { IfOk result (λ a. MakesTested work.old work.new steps.old.items steps.new.items rule.now matched atom a) }
{
    let bound = work.names.len();
    push_match(alloc, work, &rule.pat, matched, atom, steps)?;
    let value = push_exp(alloc, work, &rule.exp, steps)?;
    work.names.restore(bound)?;
    Ok(value)
}

/// A rule, as one attempt more.
#[cycle(exps)]
fn push_attempt(
    alloc: Global,
    work: &mut Work,
    rule: &Rule,
    matched: ValueType,
    atom: usize,
    attempts: &mut Vec<Tests>,
) -> Result<(), NoMemory>
    ensures { IfOk result (λ _. Attempted work.old work.new rule.now matched atom attempts.old.items attempts.new.items) }
{
    let mut steps = Vec::new(alloc);
    let value = push_rule(alloc, work, rule, matched, atom, &mut steps)?;
    add_attempt(alloc, steps, value, attempts)?;
    Ok(())
}

/// Rules one after the other, and what is raised where none applies.
#[cycle(exps)]
fn make_rules(
    alloc: Global,
    work: &mut Work,
    rules: &[Rule],
    matched: ValueType,
    u: usize,
    atom: usize,
    other: Otherwise,
) -> Result<Tests, NoMemory>
    ensures { IfOk result (λ made. GivesRules work.old work.new (rules_read rules.now) matched u atom (otherwise_of other) made) }
{
    let mut attempts = Vec::new(alloc);
    for i in 0..rules.len() {
        push_attempt(alloc, work, &rules[i], matched, atom, &mut attempts)?;
    }
    let made = finish_attempts(alloc, work, attempts, u, atom, other)?;
    Ok(made)
}

/// Expressions whose values are dropped.
#[cycle(exps)]
fn push_dropped(
    alloc: Global,
    work: &mut Work,
    dropped: &[Exp],
    steps: &mut Vec<Step>,
) -> Result<(), NoMemory>
    ensures { IfOk result (λ _. (place : At) (u : ℕ) (w : State) (ss : List Row) (last : Tree) (a : ℕ) → Makes work.new w steps.new.items ss (expression last) a
        → Makes work.old w steps.old.items ss (sequence_read place u dropped.now (expression last)) a) }
{
    for i in 0..dropped.len() {
        let next = &dropped[i];
        let _ = push_exp(alloc, work, next, steps)?;
    }
    Ok(())
}

/// Operands of `andalso` or `orelse` before the last, each with its test.
#[cycle(exps)]
fn push_links(
    alloc: Global,
    work: &mut Work,
    goes_on: bool,
    operands: &[Exp],
    steps: &mut Vec<Step>,
) -> Result<(), NoMemory>
    ensures { IfOk result (λ _. (last : Tree)
        → Linked work.old work.new steps.old.items steps.new.items goes_on (chain_read operands.now last) (chain_read [] last)) }
{
    for i in 0..operands.len() {
        let next = &operands[i];
        let value = push_exp(alloc, work, next, steps)?;
        push_link(alloc, work, goes_on, value, steps)?;
    }
    Ok(())
}

/// A body in the scope of parameters, as a function of them.
#[cycle(exps)]
fn make_named(
    alloc: Global,
    work: &mut Work,
    parameters: &[Parameter],
    last: Parameter,
    body: &Exp,
) -> Result<Lambda, NoMemory>
    ensures { IfOk result (λ made. GivesFunction work.old work.new (named_read parameters.now last (expression body.now)) made) }
{
    let bound = work.names.len();
    let head = named_head(alloc, work, parameters, last)?;
    let mut inner = Vec::new(alloc);
    let value = push_exp(alloc, work, body, &mut inner)?;
    work.names.restore(bound)?;
    let made = with_steps(alloc, head, inner, value)?;
    Ok(made)
}

/// Rules for the last argument, as a function of the parameters before it.
#[cycle(exps)]
fn make_by_rules(
    alloc: Global,
    work: &mut Work,
    parameters: &[Parameter],
    t: usize,
    u: usize,
    rules: &[Rule],
) -> Result<Lambda, NoMemory>
    ensures { IfOk result (λ made. (place : At) → GivesFunction work.old work.new (by_rules_read parameters.now place t u rules.now) made) }
{
    let bound = work.names.len();
    let matched = ValueType::Source(t);
    let head = unnamed_head(alloc, work, parameters, t)?;
    let value = head.last.variable;
    let body = make_rules(alloc, work, rules, matched, u, value, Otherwise::Match)?;
    work.names.restore(bound)?;
    Ok(with_body(head, body))
}

/// A function.
#[cycle(exps)]
fn make_function(alloc: Global, work: &mut Work, function: &Function) -> Result<Lambda, NoMemory>
    ensures { IfOk result (λ made. GivesFunction work.old work.new (function_read function.now) made) }
{
    match function {
        Function::Named(parameters, last, body) => {
            let made = make_named(alloc, work, parameters, *last, body)?;
            Ok(made)
        }
        Function::ByRules(parameters, _, t, u, rules) => {
            let made = make_by_rules(alloc, work, parameters, *t, *u, rules)?;
            Ok(made)
        }
    }
}

/// Declarations, one after the other. Their variables stay bound.
#[cycle(exps)]
pub fn push_decs(
    alloc: Global,
    work: &mut Work,
    decs: &[Dec],
    steps: &mut Vec<Step>,
) -> Result<(), NoMemory>
    ensures { IfOk result (λ _. Declares work.old work.new steps.old.items steps.new.items (decs_read decs.now) (decs_read [])) }
{
    for i in 0..decs.len() {
        push_dec(alloc, work, &decs[i], steps)?;
    }
    Ok(())
}

#[cycle(exps)]
fn push_dec(
    alloc: Global,
    work: &mut Work,
    dec: &Dec,
    steps: &mut Vec<Step>,
) -> Result<(), NoMemory>
    ensures { IfOk result (λ _. (rest : Reading → Decs) → Declares work.old work.new steps.old.items steps.new.items (dec_before dec.now rest) rest) }
{
    match dec {
        Dec::Val(parameters, bindings, functions) => {
            let functions: &[(Vec<usize>, usize, Function)] = functions;
            let mut spots = Vec::new(alloc);
            push_bindings(alloc, work, *parameters, bindings, steps, &mut spots)?;
            let first = reserve(work, functions.len())?;
            bind_group(&mut work.names, functions, first)?;
            push_functions(alloc, work, *parameters, functions, first, steps)?;
            bind_spots(&mut work.names, &spots)?;
            Ok(())
        }
        Dec::Exception(variable, identifier, argument) => {
            push_new_exception(alloc, work, *variable, *identifier, *argument, steps)?;
            Ok(())
        }
        Dec::Weight(count) => {
            push_counted(*count, steps)?;
            Ok(())
        }
    }
}

/// Bindings one after the other. Their variables are bound later.
#[cycle(exps)]
fn push_bindings(
    alloc: Global,
    work: &mut Work,
    parameters: usize,
    bindings: &[(Manner, Rule)],
    steps: &mut Vec<Step>,
    spots: &mut Vec<Spot>,
) -> Result<(), NoMemory>
    ensures { IfOk result (λ _. Binds work.old work.new steps.old.items steps.new.items parameters
        (binds_read bindings.now) (binds_read []) spots.old.items spots.new.items) }
{
    for i in 0..bindings.len() {
        let binding = &bindings[i];
        push_binding(alloc, work, parameters, binding.0, &binding.1, steps, spots)?;
    }
    Ok(())
}

/// The functions of a group, in the variables from a number on.
#[cycle(exps)]
fn push_functions(
    alloc: Global,
    work: &mut Work,
    parameters: usize,
    functions: &[(Vec<usize>, usize, Function)],
    first: usize,
    steps: &mut Vec<Step>,
) -> Result<(), NoMemory>
    ensures next { IfOk result (λ _. (v : View) → Sees work.new v → work.new.next ≡ past_funs (funs_read functions.now v.source) work.old.next) }
    ensures keeps { IfOk result (λ _. Keeps work.old work.new) }
    ensures puts { IfOk result (λ _. Puts work.new steps.old.items steps.new.items (grouping parameters functions.now first work.old.next)) }
{
    let scope = work.scope.len();
    push_scope(&mut work.scope, work.tables.parameters(parameters))?;
    let members = make_members(alloc, work, functions, first)?;
    work.scope.truncate(scope);
    push_group(parameters, members, steps)?;
    Ok(())
}

/// Functions in the variables from a number on.
#[cycle(exps)]
fn make_members(
    alloc: Global,
    work: &mut Work,
    functions: &[(Vec<usize>, usize, Function)],
    first: usize,
) -> Result<Vec<Member>, NoMemory>
    ensures { IfOk result (λ made. (c : ℕ) → Groups work.old work.new first c (funs_read functions.now) (funs_read []) made.items) }
{
    let mut made = Vec::new(alloc);
    let mut variable = first;
    for i in 0..functions.len() {
        let next = &functions[i];
        variable = push_member(alloc, work, next.1, &next.2, variable, &mut made)?;
    }
    Ok(made)
}

/// A function of a group, of the source's type `t`. Gives the next variable.
#[cycle(exps)]
fn push_member(
    alloc: Global,
    work: &mut Work,
    t: usize,
    function: &Function,
    variable: usize,
    made: &mut Vec<Member>,
) -> Result<usize, NoMemory>
    ensures next { IfOk result (λ n. n ≡ suc variable) }
    ensures made { IfOk result (λ _. OneMade work.old work.new t function.now variable made.old.items made.new.items) }
{
    let ty = scoped_type(alloc, work, ValueType::Source(t))?;
    let lambda = make_function(alloc, work, function)?;
    let next = add_member(variable, ty, lambda, made)?;
    Ok(next)
}

/// A binding: the steps of its value and its tests, and where its variables are.
#[cycle(exps)]
fn push_binding(
    alloc: Global,
    work: &mut Work,
    parameters: usize,
    manner: Manner,
    rule: &Rule,
    steps: &mut Vec<Step>,
    spots: &mut Vec<Spot>,
) -> Result<(), NoMemory>
    ensures { IfOk result (λ _. (rest : Reading → Bound)
        → Binds work.old work.new steps.old.items steps.new.items parameters (bind_before (manner, rule.now) rest) rest spots.old.items spots.new.items) }
{
    if generalises(&work.tables, parameters, manner.general) {
        push_general(alloc, work, parameters, manner.ty, rule, steps, spots)?;
        return Ok(());
    }
    let value = push_exp(alloc, work, &rule.exp, steps)?;
    let u = ValueType::Source(manner.ty);
    push_tests(alloc, work, &rule.pat, u, value, steps, spots)?;
    Ok(())
}

/// A binding over parameters.
#[cycle(exps)]
fn push_general(
    alloc: Global,
    work: &mut Work,
    parameters: usize,
    ty: usize,
    rule: &Rule,
    steps: &mut Vec<Step>,
    spots: &mut Vec<Spot>,
) -> Result<(), NoMemory>
    ensures { IfOk result (λ _. Generalises work.old work.new steps.old.items steps.new.items parameters ty rule.now spots.old.items spots.new.items) }
{
    let scope = work.scope.len();
    push_scope(&mut work.scope, work.tables.parameters(parameters))?;
    let mut inner = Vec::new(alloc);
    let value = push_exp(alloc, work, &rule.exp, &mut inner)?;
    let u = ValueType::Source(ty);
    let sole = sole_variable(&rule.pat);
    push_shaped(
        alloc, work, parameters, sole, &rule.pat, u, inner, value, steps, spots,
    )?;
    work.scope.truncate(scope);
    Ok(())
}
