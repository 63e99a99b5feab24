// Expressions, rules, functions and declarations. No answer stops the walk early. Each part leaves the scope as it found it, but for declarations, whose
// variables stay in scope.
ghost use Rattle.std.specs.Prelude.{◌≡◌, [], IfOk};
ghost use Rattle.ty_table.specs.TypeAt.{type_at};
ghost use Rattle.ir_poly.specs.TestsChecked.{exn_type};
ghost use Rattle.prog_leaves.specs.of_record_order.Order.{AreOrders};
ghost use Rattle.prog_known.specs.Lists.{run, hold, all_hold};
ghost use Rattle.prog_leaves.specs.of_prog_parts.Expressions.{argument_next, join_next, dec_step};
ghost use Rattle.prog_leaves.specs.Places.{Adds};
ghost use Rattle.prog_leaves.specs.Right.{exp_right, typed_right, field_right, record_right, argument_right, join_right, rule_right, raise_right, dropped_right, operand_right, function_right, fn_right, named_right, by_rules_right, member_right, group_right, inner_right, dec_right, decs_right};

use ir_tables::tables::Tables;
use mlc_base::memory::NoMemory;
use mlc_names::label::Label;
use prog_known::answers::both;
use prog_known::environment::Environment;
use prog_known::manner::Manner;
use prog_leaves::atoms::{check_atom, check_use};
use prog_leaves::bounds::{
    check_general, check_parameter, check_parameters, check_plains, has_known, is_known,
};
use prog_leaves::exceptions::declare_exception;
use prog_leaves::functions::is_function_type;
use prog_leaves::prog_binds::groups::{bind_bindings, bind_members};
use prog_leaves::prog_binds::pats::bind_pat;
use prog_leaves::prog_pats::pats::check_pat;
use prog_leaves::record_order::facts::Facts;
use prog_leaves::rows::is_row;
use prog_leaves::scopes::{declare, leave, mark_place};
use prog_leaves::types::{
    applies, has_type, is_bool, is_joined, is_last, is_test, left_after, right_of,
};
use prog_shapes::types::type_of;
use prog_tree::tree::{Binding, Dec, Exp, Function, Join, Parameter, Rule, Side};
use std::alloc::Global;

/// Whether an expression has the type that it has written.
#[cycle(exps)]
pub fn check_exp(
    alloc: Global,
    tables: &Tables,
    facts: &Facts,
    environment: &mut Environment,
    exp: &Exp,
) -> Result<bool, NoMemory>
    requires exn { type_at tables.now.types facts.now.exn ≡ exn_type }
    requires orders { AreOrders tables.now.types facts.now.orders }
    ensures right { IfOk result (λ so. so ≡ exp_right tables.now environment.old exp.now) }
    ensures kept { IfOk result (λ _. environment.new ≡ environment.old) }
{
    match exp {
        Exp::Atom(atom, ty) => check_atom(alloc, tables, environment, *atom, *ty),
        Exp::Use(used, ts, ty) => check_use(alloc, tables, environment, *used, ts, *ty),
        Exp::Record(ty, fields) => check_record(alloc, tables, facts, environment, *ty, fields),
        Exp::Let(ty, declarations, body) => {
            let back = mark_place(environment);
            let declared = check_decs(alloc, tables, facts, environment, declarations)?;
            let right = check_typed(alloc, tables, facts, environment, body, *ty)?;
            leave(environment, back);
            Ok(both(declared, right))
        }
        Exp::Apply(_, function, arguments) => {
            let right = check_exp(alloc, tables, facts, environment, function)?;
            let of = type_of(function);
            let applied = check_arguments(alloc, tables, facts, environment, of, arguments)?;
            Ok(both(right, applied))
        }
        Exp::Infix(side, first, joins) => {
            let right = check_exp(alloc, tables, facts, environment, first)?;
            let left = type_of(first);
            let joined = check_joins(alloc, tables, facts, environment, *side, left, joins)?;
            Ok(both(right, joined))
        }
        Exp::Case(_, ty, of, rules) => {
            let right = check_drop(alloc, tables, facts, environment, of)?;
            let matched = check_rules(alloc, tables, facts, environment, rules, type_of(of), *ty)?;
            Ok(both(right, matched))
        }
        Exp::Sequence(_, ty, before, last) => {
            let dropped = check_dropped(alloc, tables, facts, environment, before)?;
            let given = check_exp(alloc, tables, facts, environment, last)?;
            let typed = is_last(tables, before, last, *ty);
            Ok(both(dropped, both(given, typed)))
        }
        Exp::Test(_, ty, operands, last) => {
            let before = check_operands(alloc, tables, facts, environment, operands)?;
            let after = check_operand(alloc, tables, facts, environment, last)?;
            let truth = is_bool(tables, *ty);
            Ok(both(both(before, after), truth))
        }
        Exp::Handle(ty, body, rules) => {
            let right = check_typed(alloc, tables, facts, environment, body, *ty)?;
            let handled = check_rules(alloc, tables, facts, environment, rules, facts.exn, *ty)?;
            Ok(both(right, handled))
        }
        Exp::Raise(_, packet) => check_raise(alloc, tables, facts, environment, packet),
        Exp::Fn(ty, function) => check_fn(alloc, tables, facts, environment, *ty, function),
        Exp::Counted(_, ty, body) => check_typed(alloc, tables, facts, environment, body, *ty),
    }
}

/// An expression of this type.
#[cycle(exps)]
fn check_typed(
    alloc: Global,
    tables: &Tables,
    facts: &Facts,
    environment: &mut Environment,
    exp: &Exp,
    ty: usize,
) -> Result<bool, NoMemory>
    requires exn { type_at tables.now.types facts.now.exn ≡ exn_type }
    requires orders { AreOrders tables.now.types facts.now.orders }
    ensures right { IfOk result (λ so. so ≡ typed_right tables.now environment.old exp.now ty) }
    ensures kept { IfOk result (λ _. environment.new ≡ environment.old) }
{
    let right = check_exp(alloc, tables, facts, environment, exp)?;
    let typed = has_type(tables, exp, ty);
    Ok(both(right, typed))
}

/// A packet.
#[cycle(exps)]
fn check_raise(
    alloc: Global,
    tables: &Tables,
    facts: &Facts,
    environment: &mut Environment,
    packet: &Exp,
) -> Result<bool, NoMemory>
    requires exn { type_at tables.now.types facts.now.exn ≡ exn_type }
    requires orders { AreOrders tables.now.types facts.now.orders }
    ensures right { IfOk result (λ so. so ≡ raise_right tables.now environment.old packet.now) }
    ensures kept { IfOk result (λ _. environment.new ≡ environment.old) }
{
    let right = check_typed(alloc, tables, facts, environment, packet, facts.exn)?;
    Ok(right)
}

/// Fields, and the type of their record.
#[cycle(exps)]
fn check_record(
    alloc: Global,
    tables: &Tables,
    facts: &Facts,
    environment: &mut Environment,
    ty: usize,
    fields: &[(Label, Exp)],
) -> Result<bool, NoMemory>
    requires exn { type_at tables.now.types facts.now.exn ≡ exn_type }
    requires orders { AreOrders tables.now.types facts.now.orders }
    ensures right { IfOk result (λ so. so ≡ record_right tables.now environment.old ty fields.now) }
    ensures kept { IfOk result (λ _. environment.new ≡ environment.old) }
{
    let right = check_fields(alloc, tables, facts, environment, fields)?;
    let row = is_row(alloc, tables, fields, ty)?;
    Ok(both(right, row))
}

#[cycle(exps)]
fn check_fields(
    alloc: Global,
    tables: &Tables,
    facts: &Facts,
    environment: &mut Environment,
    fields: &[(Label, Exp)],
) -> Result<bool, NoMemory>
    requires exn { type_at tables.now.types facts.now.exn ≡ exn_type }
    requires orders { AreOrders tables.now.types facts.now.orders }
    ensures right { IfOk result (λ so. so ≡ all_hold (field_right tables.now environment.old) fields.now) }
    ensures kept { IfOk result (λ _. environment.new ≡ environment.old) }
{
    let mut so_far = true;
    for i in 0..fields.len() {
        let field = &fields[i];
        let one = check_exp(alloc, tables, facts, environment, &field.1)?;
        so_far = both(so_far, one);
    }
    Ok(so_far)
}

#[cycle(exps)]
fn check_arguments(
    alloc: Global,
    tables: &Tables,
    facts: &Facts,
    environment: &mut Environment,
    of: usize,
    arguments: &[(usize, Exp)],
) -> Result<bool, NoMemory>
    requires exn { type_at tables.now.types facts.now.exn ≡ exn_type }
    requires orders { AreOrders tables.now.types facts.now.orders }
    ensures right { IfOk result (λ so. so ≡ hold (argument_right tables.now environment.old)
        (argument_next tables.now) (type_at tables.now.types of) arguments.now) }
    ensures kept { IfOk result (λ _. environment.new ≡ environment.old) }
{
    let mut so_far = true;
    let mut now = of;
    for i in 0..arguments.len() {
        let argument = &arguments[i];
        let right = check_exp(alloc, tables, facts, environment, &argument.1)?;
        let fits = applies(tables, now, argument);
        let one = both(right, fits);
        so_far = both(so_far, one);
        now = argument.0;
    }
    Ok(so_far)
}

#[cycle(exps)]
fn check_joins(
    alloc: Global,
    tables: &Tables,
    facts: &Facts,
    environment: &mut Environment,
    side: Side,
    left: usize,
    joins: &[(Join, Exp, Exp)],
) -> Result<bool, NoMemory>
    requires exn { type_at tables.now.types facts.now.exn ≡ exn_type }
    requires orders { AreOrders tables.now.types facts.now.orders }
    ensures right { IfOk result (λ so. so ≡ hold (join_right tables.now environment.old side)
        (join_next tables.now side) (type_at tables.now.types left) joins.now) }
    ensures kept { IfOk result (λ _. environment.new ≡ environment.old) }
{
    let mut so_far = true;
    let mut now = left;
    for i in 0..joins.len() {
        let join = &joins[i];
        let operator = check_exp(alloc, tables, facts, environment, &join.1)?;
        let operand = check_exp(alloc, tables, facts, environment, &join.2)?;
        let operands = both(operator, operand);
        let right = right_of(tables, side, join, joins, i + 1);
        let joined = is_joined(tables, now, right, join);
        let one = both(operands, joined);
        so_far = both(so_far, one);
        now = left_after(tables, side, now, join);
    }
    Ok(so_far)
}

/// A rule for values of the type `of`, that gives this one.
#[cycle(exps)]
fn check_rule(
    alloc: Global,
    tables: &Tables,
    facts: &Facts,
    environment: &mut Environment,
    rule: &Rule,
    of: usize,
    ty: usize,
) -> Result<bool, NoMemory>
    requires exn { type_at tables.now.types facts.now.exn ≡ exn_type }
    requires orders { AreOrders tables.now.types facts.now.orders }
    ensures right { IfOk result (λ so. so ≡ rule_right tables.now environment.old of ty rule.now) }
    ensures kept { IfOk result (λ _. environment.new ≡ environment.old) }
{
    let matched = check_pat(alloc, tables, &facts.orders, environment, &rule.pat, of)?;
    let back = mark_place(environment);
    bind_pat(
        tables,
        &mut environment.variables,
        Manner::Plain,
        &rule.pat,
        of,
    )?;
    let right = check_typed(alloc, tables, facts, environment, &rule.exp, ty)?;
    leave(environment, back);
    Ok(both(matched, right))
}

#[cycle(exps)]
fn check_rules(
    alloc: Global,
    tables: &Tables,
    facts: &Facts,
    environment: &mut Environment,
    rules: &[Rule],
    of: usize,
    ty: usize,
) -> Result<bool, NoMemory>
    requires exn { type_at tables.now.types facts.now.exn ≡ exn_type }
    requires orders { AreOrders tables.now.types facts.now.orders }
    ensures right { IfOk result (λ so. so ≡ all_hold (rule_right tables.now environment.old of ty) rules.now) }
    ensures kept { IfOk result (λ _. environment.new ≡ environment.old) }
{
    let mut so_far = true;
    for i in 0..rules.len() {
        let rule = &rules[i];
        let one = check_rule(alloc, tables, facts, environment, rule, of, ty)?;
        so_far = both(so_far, one);
    }
    Ok(so_far)
}

/// An expression whose type is over the parameters in scope: what is matched, or dropped.
#[cycle(exps)]
fn check_drop(
    alloc: Global,
    tables: &Tables,
    facts: &Facts,
    environment: &mut Environment,
    exp: &Exp,
) -> Result<bool, NoMemory>
    requires exn { type_at tables.now.types facts.now.exn ≡ exn_type }
    requires orders { AreOrders tables.now.types facts.now.orders }
    ensures right { IfOk result (λ so. so ≡ dropped_right tables.now environment.old exp.now) }
    ensures kept { IfOk result (λ _. environment.new ≡ environment.old) }
{
    let right = check_exp(alloc, tables, facts, environment, exp)?;
    let known = has_known(alloc, tables, environment, exp)?;
    Ok(both(right, known))
}

#[cycle(exps)]
fn check_dropped(
    alloc: Global,
    tables: &Tables,
    facts: &Facts,
    environment: &mut Environment,
    exps: &[Exp],
) -> Result<bool, NoMemory>
    requires exn { type_at tables.now.types facts.now.exn ≡ exn_type }
    requires orders { AreOrders tables.now.types facts.now.orders }
    ensures right { IfOk result (λ so. so ≡ all_hold (dropped_right tables.now environment.old) exps.now) }
    ensures kept { IfOk result (λ _. environment.new ≡ environment.old) }
{
    let mut so_far = true;
    for i in 0..exps.len() {
        let exp = &exps[i];
        let one = check_drop(alloc, tables, facts, environment, exp)?;
        so_far = both(so_far, one);
    }
    Ok(so_far)
}

/// An operand of `andalso` or `orelse`.
#[cycle(exps)]
fn check_operand(
    alloc: Global,
    tables: &Tables,
    facts: &Facts,
    environment: &mut Environment,
    exp: &Exp,
) -> Result<bool, NoMemory>
    requires exn { type_at tables.now.types facts.now.exn ≡ exn_type }
    requires orders { AreOrders tables.now.types facts.now.orders }
    ensures right { IfOk result (λ so. so ≡ operand_right tables.now environment.old exp.now) }
    ensures kept { IfOk result (λ _. environment.new ≡ environment.old) }
{
    let right = check_exp(alloc, tables, facts, environment, exp)?;
    let test = is_test(tables, exp);
    Ok(both(right, test))
}

#[cycle(exps)]
fn check_operands(
    alloc: Global,
    tables: &Tables,
    facts: &Facts,
    environment: &mut Environment,
    exps: &[Exp],
) -> Result<bool, NoMemory>
    requires exn { type_at tables.now.types facts.now.exn ≡ exn_type }
    requires orders { AreOrders tables.now.types facts.now.orders }
    ensures right { IfOk result (λ so. so ≡ all_hold (operand_right tables.now environment.old) exps.now) }
    ensures kept { IfOk result (λ _. environment.new ≡ environment.old) }
{
    let mut so_far = true;
    for i in 0..exps.len() {
        let exp = &exps[i];
        let one = check_operand(alloc, tables, facts, environment, exp)?;
        so_far = both(so_far, one);
    }
    Ok(so_far)
}

/// A function of this type.
#[cycle(exps)]
fn check_fn(
    alloc: Global,
    tables: &Tables,
    facts: &Facts,
    environment: &mut Environment,
    ty: usize,
    function: &Function,
) -> Result<bool, NoMemory>
    requires exn { type_at tables.now.types facts.now.exn ≡ exn_type }
    requires orders { AreOrders tables.now.types facts.now.orders }
    ensures right { IfOk result (λ so. so ≡ fn_right tables.now environment.old ty function.now) }
    ensures kept { IfOk result (λ _. environment.new ≡ environment.old) }
{
    let right = check_function(alloc, tables, facts, environment, function)?;
    let typed = is_function_type(tables, function, ty);
    Ok(both(right, typed))
}

#[cycle(exps)]
fn check_function(
    alloc: Global,
    tables: &Tables,
    facts: &Facts,
    environment: &mut Environment,
    function: &Function,
) -> Result<bool, NoMemory>
    requires exn { type_at tables.now.types facts.now.exn ≡ exn_type }
    requires orders { AreOrders tables.now.types facts.now.orders }
    ensures right { IfOk result (λ so. so ≡ function_right tables.now environment.old function.now) }
    ensures kept { IfOk result (λ _. environment.new ≡ environment.old) }
{
    match function {
        Function::Named(parameters, last, body) => {
            check_named(alloc, tables, facts, environment, parameters, *last, body)
        }
        Function::ByRules(parameters, _, argument, given, rules) => {
            check_by_rules(
                alloc,
                tables,
                facts,
                environment,
                parameters,
                *argument,
                *given,
                rules,
            )
        }
    }
}

/// A function of these parameters, and the last one.
#[cycle(exps)]
fn check_named(
    alloc: Global,
    tables: &Tables,
    facts: &Facts,
    environment: &mut Environment,
    parameters: &[Parameter],
    last: Parameter,
    body: &Exp,
) -> Result<bool, NoMemory>
    requires exn { type_at tables.now.types facts.now.exn ≡ exn_type }
    requires orders { AreOrders tables.now.types facts.now.orders }
    ensures right { IfOk result (λ so. so ≡ named_right tables.now environment.old parameters.now last body.now) }
    ensures kept { IfOk result (λ _. environment.new ≡ environment.old) }
{
    let back = mark_place(environment);
    let before = check_parameters(alloc, tables, environment, parameters)?;
    let known = check_parameter(alloc, tables, environment, last)?;
    let right = check_exp(alloc, tables, facts, environment, body)?;
    leave(environment, back);
    Ok(both(before, both(known, right)))
}

/// A function of these parameters, and rules for the last one.
#[cycle(exps)]
fn check_by_rules(
    alloc: Global,
    tables: &Tables,
    facts: &Facts,
    environment: &mut Environment,
    parameters: &[Parameter],
    argument: usize,
    given: usize,
    rules: &[Rule],
) -> Result<bool, NoMemory>
    requires exn { type_at tables.now.types facts.now.exn ≡ exn_type }
    requires orders { AreOrders tables.now.types facts.now.orders }
    ensures right { IfOk result (λ so. so ≡ by_rules_right tables.now environment.old parameters.now argument given rules.now) }
    ensures kept { IfOk result (λ _. environment.new ≡ environment.old) }
{
    let back = mark_place(environment);
    let before = check_parameters(alloc, tables, environment, parameters)?;
    let known = is_known(alloc, tables, environment, argument)?;
    let matched = check_rules(alloc, tables, facts, environment, rules, argument, given)?;
    leave(environment, back);
    Ok(both(before, both(known, matched)))
}

#[cycle(exps)]
fn check_members(
    alloc: Global,
    tables: &Tables,
    facts: &Facts,
    environment: &mut Environment,
    members: &[(Vec<usize>, usize, Function)],
) -> Result<bool, NoMemory>
    requires exn { type_at tables.now.types facts.now.exn ≡ exn_type }
    requires orders { AreOrders tables.now.types facts.now.orders }
    ensures right { IfOk result (λ so. so ≡ all_hold (member_right tables.now environment.old) members.now) }
    ensures kept { IfOk result (λ _. environment.new ≡ environment.old) }
{
    let mut so_far = true;
    for i in 0..members.len() {
        let member = &members[i];
        let known = is_known(alloc, tables, environment, member.1)?;
        let right = check_function(alloc, tables, facts, environment, &member.2)?;
        let typed = is_function_type(tables, &member.2, member.1);
        let made = both(right, typed);
        let one = both(known, made);
        so_far = both(so_far, one);
    }
    Ok(so_far)
}

/// Functions that know each other.
#[cycle(exps)]
fn check_group(
    alloc: Global,
    tables: &Tables,
    facts: &Facts,
    environment: &mut Environment,
    members: &[(Vec<usize>, usize, Function)],
) -> Result<bool, NoMemory>
    requires exn { type_at tables.now.types facts.now.exn ≡ exn_type }
    requires orders { AreOrders tables.now.types facts.now.orders }
    ensures right { IfOk result (λ so. so ≡ group_right tables.now environment.old members.now) }
    ensures kept { IfOk result (λ _. environment.new ≡ environment.old) }
{
    let back = mark_place(environment);
    bind_members(tables, &mut environment.variables, Manner::Own, members)?;
    let right = check_members(alloc, tables, facts, environment, members)?;
    leave(environment, back);
    Ok(right)
}

#[cycle(exps)]
fn check_inners(
    alloc: Global,
    tables: &Tables,
    facts: &Facts,
    environment: &mut Environment,
    binds: &[(Binding, Rule)],
) -> Result<bool, NoMemory>
    requires exn { type_at tables.now.types facts.now.exn ≡ exn_type }
    requires orders { AreOrders tables.now.types facts.now.orders }
    ensures right { IfOk result (λ so. so ≡ all_hold (inner_right tables.now environment.old) binds.now) }
    ensures kept { IfOk result (λ _. environment.new ≡ environment.old) }
{
    let mut so_far = true;
    for i in 0..binds.len() {
        let bind = &binds[i];
        let general = check_general(alloc, tables, &facts.orders, environment, bind)?;
        let right = check_typed(alloc, tables, facts, environment, &bind.1.exp, bind.0.ty)?;
        let one = both(general, right);
        so_far = both(so_far, one);
    }
    Ok(so_far)
}

/// A declaration, whose variables are put in scope.
#[cycle(exps)]
fn check_dec(
    alloc: Global,
    tables: &Tables,
    facts: &Facts,
    environment: &mut Environment,
    declaration: &Dec,
) -> Result<bool, NoMemory>
    requires exn { type_at tables.now.types facts.now.exn ≡ exn_type }
    requires orders { AreOrders tables.now.types facts.now.orders }
    ensures right { IfOk result (λ so. so ≡ dec_right tables.now environment.old declaration.now) }
    ensures adds { IfOk result (λ _. Adds tables.now environment.old environment.new (dec_step tables.now declaration.now [])) }
{
    match declaration {
        Dec::Val(parameters, binds, members) => {
            let plain = check_plains(alloc, tables, &facts.orders, environment, binds)?;
            let back = mark_place(environment);
            let new = declare(tables, environment, *parameters)?;
            let inner = check_inners(alloc, tables, facts, environment, binds)?;
            let group = check_group(alloc, tables, facts, environment, members)?;
            leave(environment, back);
            bind_members(
                tables,
                &mut environment.variables,
                Manner::Over(*parameters),
                members,
            )?;
            bind_bindings(tables, &mut environment.variables, *parameters, binds)?;
            Ok(both(new, both(plain, both(inner, group))))
        }
        Dec::Exception(variable, _, argument) => {
            declare_exception(alloc, tables, environment, *variable, *argument)
        }
        Dec::Weight(_) => Ok(true),
    }
}

/// Declarations, whose variables are put in scope.
#[cycle(exps)]
pub fn check_decs(
    alloc: Global,
    tables: &Tables,
    facts: &Facts,
    environment: &mut Environment,
    declarations: &[Dec],
) -> Result<bool, NoMemory>
    requires exn { type_at tables.now.types facts.now.exn ≡ exn_type }
    requires orders { AreOrders tables.now.types facts.now.orders }
    ensures right { IfOk result (λ so. so ≡ decs_right tables.now environment.old declarations.now) }
    ensures adds { IfOk result (λ _. Adds tables.now environment.old environment.new (run (dec_step tables.now) declarations.now)) }
{
    let mut so_far = true;
    for i in 0..declarations.len() {
        let declaration = &declarations[i];
        let one = check_dec(alloc, tables, facts, environment, declaration)?;
        so_far = both(so_far, one);
    }
    Ok(so_far)
}
