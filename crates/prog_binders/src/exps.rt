// The variables that expressions and declarations bind.
ghost use Rattle.std.specs.Prelude.{sum_by, IfOk};
ghost use Rattle.ir_poly.specs.ProgOnce.{list_times, times, decs_times};
ghost use Rattle.prog_tree.specs.TreeOf.{tree_of, body_of};
ghost use Rattle.prog_binders.specs.Adding.{Adds, parameter_times, exp_times, field_times, argument_times, join_times, rule_times, bind_times, function_times, member_times, dec_times};

use crate::pats::push_pat;
use mlc_base::memory::NoMemory;
use mlc_names::label::Label;
use prog_tree::tree::{Binding, Dec, Exp, Function, Join, Parameter, Rule};

fn push_parameters(parameters: &[Parameter], found: &mut Vec<usize>) -> Result<(), NoMemory>
    ensures { IfOk result (λ _. Adds found.old.items found.new.items (λ R h. sum_by (parameter_times h) parameters.now)) }
{
    for i in 0..parameters.len() {
        let parameter = parameters[i];
        found.push(parameter.variable)?;
    }
    Ok(())
}

fn push_variables(variables: &[usize], found: &mut Vec<usize>) -> Result<(), NoMemory>
    ensures { IfOk result (λ _. Adds found.old.items found.new.items (λ R h. list_times h variables.now)) }
{
    found.extend_from_slice(variables)?;
    Ok(())
}

/// Puts the variables that an expression binds behind those found before.
#[cycle(binders)]
fn push_exp(exp: &Exp, found: &mut Vec<usize>) -> Result<(), NoMemory>
    ensures { IfOk result (λ _. Adds found.old.items found.new.items (λ R h. times h (tree_of R exp.now))) }
{
    match exp {
        Exp::Atom(_, _) => Ok(()),
        Exp::Use(_, _, _) => Ok(()),
        Exp::Record(_, fields) => {
            push_fields(fields, found)?;
            Ok(())
        }
        Exp::Let(_, declarations, body) => {
            push_decs(declarations, found)?;
            push_exp(body, found)?;
            Ok(())
        }
        Exp::Apply(_, function, arguments) => {
            push_exp(function, found)?;
            push_arguments(arguments, found)?;
            Ok(())
        }
        Exp::Infix(_, first, joins) => {
            push_exp(first, found)?;
            push_joins(joins, found)?;
            Ok(())
        }
        Exp::Case(_, _, of, rules) => {
            push_exp(of, found)?;
            push_rules(rules, found)?;
            Ok(())
        }
        Exp::Sequence(_, _, before, last) => {
            push_each(before, found)?;
            push_exp(last, found)?;
            Ok(())
        }
        Exp::Test(_, _, operands, last) => {
            push_each(operands, found)?;
            push_exp(last, found)?;
            Ok(())
        }
        Exp::Handle(_, body, rules) => {
            push_exp(body, found)?;
            push_rules(rules, found)?;
            Ok(())
        }
        Exp::Raise(_, packet) => {
            push_exp(packet, found)?;
            Ok(())
        }
        Exp::Fn(_, function) => {
            push_function(function, found)?;
            Ok(())
        }
        Exp::Counted(_, _, body) => {
            push_exp(body, found)?;
            Ok(())
        }
    }
}

#[cycle(binders)]
fn push_each(exps: &[Exp], found: &mut Vec<usize>) -> Result<(), NoMemory>
    ensures { IfOk result (λ _. Adds found.old.items found.new.items (λ R h. sum_by (exp_times R h) exps.now)) }
{
    for i in 0..exps.len() {
        let exp = &exps[i];
        push_exp(exp, found)?;
    }
    Ok(())
}

#[cycle(binders)]
fn push_fields(fields: &[(Label, Exp)], found: &mut Vec<usize>) -> Result<(), NoMemory>
    ensures { IfOk result (λ _. Adds found.old.items found.new.items (λ R h. sum_by (field_times R h) fields.now)) }
{
    for i in 0..fields.len() {
        let field = &fields[i];
        push_exp(&field.1, found)?;
    }
    Ok(())
}

#[cycle(binders)]
fn push_arguments(arguments: &[(usize, Exp)], found: &mut Vec<usize>) -> Result<(), NoMemory>
    ensures { IfOk result (λ _. Adds found.old.items found.new.items (λ R h. sum_by (argument_times R h) arguments.now)) }
{
    for i in 0..arguments.len() {
        let argument = &arguments[i];
        push_exp(&argument.1, found)?;
    }
    Ok(())
}

#[cycle(binders)]
fn push_joins(joins: &[(Join, Exp, Exp)], found: &mut Vec<usize>) -> Result<(), NoMemory>
    ensures { IfOk result (λ _. Adds found.old.items found.new.items (λ R h. sum_by (join_times R h) joins.now)) }
{
    for i in 0..joins.len() {
        let join = &joins[i];
        push_exp(&join.1, found)?;
        push_exp(&join.2, found)?;
    }
    Ok(())
}

#[cycle(binders)]
fn push_rule(rule: &Rule, found: &mut Vec<usize>) -> Result<(), NoMemory>
    ensures { IfOk result (λ _. Adds found.old.items found.new.items (λ R h. rule_times R h rule.now)) }
{
    push_pat(&rule.pat, found)?;
    push_exp(&rule.exp, found)?;
    Ok(())
}

#[cycle(binders)]
fn push_rules(rules: &[Rule], found: &mut Vec<usize>) -> Result<(), NoMemory>
    ensures { IfOk result (λ _. Adds found.old.items found.new.items (λ R h. sum_by (rule_times R h) rules.now)) }
{
    for i in 0..rules.len() {
        let rule = &rules[i];
        push_rule(rule, found)?;
    }
    Ok(())
}

#[cycle(binders)]
fn push_function(function: &Function, found: &mut Vec<usize>) -> Result<(), NoMemory>
    ensures { IfOk result (λ _. Adds found.old.items found.new.items (λ R h. function_times R h function.now)) }
{
    match function {
        Function::Named(parameters, last, body) => {
            push_parameters(parameters, found)?;
            found.push(last.variable)?;
            push_exp(body, found)?;
            Ok(())
        }
        Function::ByRules(parameters, _, _, _, rules) => {
            push_parameters(parameters, found)?;
            push_rules(rules, found)?;
            Ok(())
        }
    }
}

#[cycle(binders)]
fn push_dec(declaration: &Dec, found: &mut Vec<usize>) -> Result<(), NoMemory>
    ensures { IfOk result (λ _. Adds found.old.items found.new.items (λ R h. dec_times R h declaration.now)) }
{
    match declaration {
        Dec::Val(_, binds, functions) => {
            push_binds(binds, found)?;
            push_members(functions, found)?;
            Ok(())
        }
        Dec::Exception(variable, _, _) => {
            found.push(*variable)?;
            Ok(())
        }
        Dec::Weight(_) => Ok(()),
    }
}

#[cycle(binders)]
fn push_decs(declarations: &[Dec], found: &mut Vec<usize>) -> Result<(), NoMemory>
    ensures { IfOk result (λ _. Adds found.old.items found.new.items (λ R h. sum_by (dec_times R h) declarations.now)) }
{
    for i in 0..declarations.len() {
        let declaration = &declarations[i];
        push_dec(declaration, found)?;
    }
    Ok(())
}

#[cycle(binders)]
fn push_binds(binds: &[(Binding, Rule)], found: &mut Vec<usize>) -> Result<(), NoMemory>
    ensures { IfOk result (λ _. Adds found.old.items found.new.items (λ R h. sum_by (bind_times R h) binds.now)) }
{
    for i in 0..binds.len() {
        let bind = &binds[i];
        push_rule(&bind.1, found)?;
    }
    Ok(())
}

#[cycle(binders)]
fn push_members(
    functions: &[(Vec<usize>, usize, Function)],
    found: &mut Vec<usize>,
) -> Result<(), NoMemory>
    ensures { IfOk result (λ _. Adds found.old.items found.new.items (λ R h. sum_by (member_times R h) functions.now)) }
{
    for i in 0..functions.len() {
        let member = &functions[i];
        push_variables(&member.0, found)?;
        push_function(&member.2, found)?;
    }
    Ok(())
}

/// Puts the variables that declarations bind behind those found before.
pub fn push_binders(declarations: &[Dec], found: &mut Vec<usize>) -> Result<(), NoMemory>
    ensures { IfOk result (λ _. Adds found.old.items found.new.items (λ R h. decs_times h (body_of R declarations.now))) }
{
    push_decs(declarations, found)?;
    Ok(())
}
