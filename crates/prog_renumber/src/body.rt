// Expressions and declarations with other numbers for their types: recursion along nesting, loops along lists.
ghost use Rattle.std.specs.Prelude.{◌≡◌, map, IfOk};
ghost use Rattle.prog_tree.specs.TreeOf.{Reading, tree_of, function_of, dec_of, rule_of, field_of, argument_of, join_of, bind_of, body_of};
ghost use Rattle.prog_renumber.specs.Renumbered.{renumbered, argument_from, join_from, bind_from, member_of};

use crate::numbers::{Numbers, copy_variables};
use crate::pats::pattern;
use mlc_base::make::{both, boxed};
use mlc_base::memory::NoMemory;
use mlc_names::label::Label;
use prog_tree::tree::{Binding, Dec, Exp, Function, Join, Rule};
use std::alloc::Global;

/// An expression with its new numbers.
#[cycle(exps)]
fn expression(alloc: Global, numbers: &Numbers, exp: &Exp) -> Result<Exp, NoMemory>
    ensures { IfOk result (λ new. (Q : Reading) → tree_of Q new ≡ tree_of (renumbered numbers.now Q) exp.now) }
{
    match exp {
        Exp::Atom(atom, ty) => Ok(Exp::Atom(numbers.atom(*atom), numbers.at(*ty))),
        Exp::Use(used, types, ty) => {
            let made = numbers.types(alloc, types)?;
            Ok(Exp::Use(*used, made, numbers.at(*ty)))
        }
        Exp::Record(ty, fields) => {
            let made = record_fields(alloc, numbers, fields)?;
            Ok(Exp::Record(numbers.at(*ty), made))
        }
        Exp::Let(ty, declarations, body) => match both(
            all_declarations(alloc, numbers, declarations),
            boxed_expression(alloc, numbers, body),
        ) {
            Ok((declarations, body)) => Ok(Exp::Let(numbers.at(*ty), declarations, body)),
            Err(e) => Err(e),
        },
        Exp::Apply(place, function, arguments) => match both(
            boxed_expression(alloc, numbers, function),
            all_arguments(alloc, numbers, arguments),
        ) {
            Ok((function, arguments)) => Ok(Exp::Apply(*place, function, arguments)),
            Err(e) => Err(e),
        },
        Exp::Infix(side, first, joins) => match both(
            boxed_expression(alloc, numbers, first),
            all_joins(alloc, numbers, joins),
        ) {
            Ok((first, joins)) => Ok(Exp::Infix(*side, first, joins)),
            Err(e) => Err(e),
        },
        Exp::Case(place, ty, of, rules) => match both(
            boxed_expression(alloc, numbers, of),
            all_rules(alloc, numbers, rules),
        ) {
            Ok((of, rules)) => Ok(Exp::Case(*place, numbers.at(*ty), of, rules)),
            Err(e) => Err(e),
        },
        Exp::Sequence(place, ty, before, last) => match both(
            all_expressions(alloc, numbers, before),
            boxed_expression(alloc, numbers, last),
        ) {
            Ok((before, last)) => Ok(Exp::Sequence(*place, numbers.at(*ty), before, last)),
            Err(e) => Err(e),
        },
        Exp::Test(all, ty, operands, last) => match both(
            all_expressions(alloc, numbers, operands),
            boxed_expression(alloc, numbers, last),
        ) {
            Ok((operands, last)) => Ok(Exp::Test(*all, numbers.at(*ty), operands, last)),
            Err(e) => Err(e),
        },
        Exp::Handle(ty, body, rules) => match both(
            boxed_expression(alloc, numbers, body),
            all_rules(alloc, numbers, rules),
        ) {
            Ok((body, rules)) => Ok(Exp::Handle(numbers.at(*ty), body, rules)),
            Err(e) => Err(e),
        },
        Exp::Raise(ty, packet) => {
            let made = boxed_expression(alloc, numbers, packet)?;
            Ok(Exp::Raise(numbers.at(*ty), made))
        }
        Exp::Fn(ty, function) => {
            let made = function_with(alloc, numbers, function)?;
            Ok(Exp::Fn(numbers.at(*ty), made))
        }
        Exp::Counted(count, ty, body) => {
            let made = boxed_expression(alloc, numbers, body)?;
            Ok(Exp::Counted(*count, numbers.at(*ty), made))
        }
    }
}

#[cycle(exps)]
fn boxed_expression(alloc: Global, numbers: &Numbers, exp: &Exp) -> Result<Box<Exp>, NoMemory>
    ensures { IfOk result (λ new. (Q : Reading) → tree_of Q new.value ≡ tree_of (renumbered numbers.now Q) exp.now) }
{
    let made = expression(alloc, numbers, exp)?;
    boxed(alloc, made)
}

#[cycle(exps)]
fn all_expressions(alloc: Global, numbers: &Numbers, exps: &[Exp]) -> Result<Vec<Exp>, NoMemory>
    ensures { IfOk result (λ new. (Q : Reading) → map (tree_of Q) new.items ≡ map (tree_of (renumbered numbers.now Q)) exps.now) }
{
    let mut made = Vec::new(alloc);
    for i in 0..exps.len() {
        made.push(expression(alloc, numbers, &exps[i])?)?;
    }
    Ok(made)
}

#[cycle(exps)]
fn record_fields(
    alloc: Global,
    numbers: &Numbers,
    fields: &[(Label, Exp)],
) -> Result<Vec<(Label, Exp)>, NoMemory>
    ensures { IfOk result (λ new. (Q : Reading) → map (field_of Q) new.items ≡ map (field_of (renumbered numbers.now Q)) fields.now) }
{
    let mut made = Vec::new(alloc);
    for i in 0..fields.len() {
        let exp = expression(alloc, numbers, &fields[i].1)?;
        made.push((fields[i].0, exp))?;
    }
    Ok(made)
}

#[cycle(exps)]
fn all_arguments(
    alloc: Global,
    numbers: &Numbers,
    arguments: &[(usize, Exp)],
) -> Result<Vec<(usize, Exp)>, NoMemory>
    ensures { IfOk result (λ new. (Q : Reading) → map (argument_of Q) new.items ≡ map (argument_from numbers.now Q) arguments.now) }
{
    let mut made = Vec::new(alloc);
    for i in 0..arguments.len() {
        let exp = expression(alloc, numbers, &arguments[i].1)?;
        made.push((numbers.at(arguments[i].0), exp))?;
    }
    Ok(made)
}

#[cycle(exps)]
fn all_joins(
    alloc: Global,
    numbers: &Numbers,
    joins: &[(Join, Exp, Exp)],
) -> Result<Vec<(Join, Exp, Exp)>, NoMemory>
    ensures { IfOk result (λ new. (Q : Reading) → map (join_of Q) new.items ≡ map (join_from numbers.now Q) joins.now) }
{
    let mut made = Vec::new(alloc);
    for i in 0..joins.len() {
        let (operator, operand) = both(
            expression(alloc, numbers, &joins[i].1),
            expression(alloc, numbers, &joins[i].2),
        )?;
        made.push((numbers.join(joins[i].0), operator, operand))?;
    }
    Ok(made)
}

#[cycle(exps)]
fn rule_with(alloc: Global, numbers: &Numbers, rule: &Rule) -> Result<Rule, NoMemory>
    ensures { IfOk result (λ new. (Q : Reading) → rule_of Q new ≡ rule_of (renumbered numbers.now Q) rule.now) }
{
    match both(
        pattern(alloc, numbers, &rule.pat),
        expression(alloc, numbers, &rule.exp),
    ) {
        Ok((pat, exp)) => Ok(Rule { pat, exp }),
        Err(e) => Err(e),
    }
}

#[cycle(exps)]
fn all_rules(alloc: Global, numbers: &Numbers, rules: &[Rule]) -> Result<Vec<Rule>, NoMemory>
    ensures { IfOk result (λ new. (Q : Reading) → map (rule_of Q) new.items ≡ map (rule_of (renumbered numbers.now Q)) rules.now) }
{
    let mut made = Vec::new(alloc);
    for i in 0..rules.len() {
        made.push(rule_with(alloc, numbers, &rules[i])?)?;
    }
    Ok(made)
}

#[cycle(exps)]
fn function_with(
    alloc: Global,
    numbers: &Numbers,
    function: &Function,
) -> Result<Function, NoMemory>
    ensures { IfOk result (λ new. (Q : Reading) → function_of Q new ≡ function_of (renumbered numbers.now Q) function.now) }
{
    match function {
        Function::Named(parameters, last, body) => match both(
            numbers.parameters(alloc, parameters),
            boxed_expression(alloc, numbers, body),
        ) {
            Ok((parameters, body)) => Ok(Function::Named(
                parameters,
                numbers.parameter(*last),
                body,
            )),
            Err(e) => Err(e),
        },
        Function::ByRules(parameters, place, argument, answer, rules) => match both(
            numbers.parameters(alloc, parameters),
            all_rules(alloc, numbers, rules),
        ) {
            Ok((parameters, rules)) => Ok(Function::ByRules(
                parameters,
                *place,
                numbers.at(*argument),
                numbers.at(*answer),
                rules,
            )),
            Err(e) => Err(e),
        },
    }
}

#[cycle(exps)]
fn all_bindings(
    alloc: Global,
    numbers: &Numbers,
    bindings: &[(Binding, Rule)],
) -> Result<Vec<(Binding, Rule)>, NoMemory>
    ensures { IfOk result (λ new. (Q : Reading) → map (bind_of Q) new.items ≡ map (bind_from numbers.now Q) bindings.now) }
{
    let mut made = Vec::new(alloc);
    for i in 0..bindings.len() {
        let rule = rule_with(alloc, numbers, &bindings[i].1)?;
        made.push((numbers.binding(bindings[i].0), rule))?;
    }
    Ok(made)
}

#[cycle(exps)]
fn all_members(
    alloc: Global,
    numbers: &Numbers,
    members: &[(Vec<usize>, usize, Function)],
) -> Result<Vec<(Vec<usize>, usize, Function)>, NoMemory>
    ensures { IfOk result (λ new. (Q : Reading) → map (member_of Q) new.items ≡ map (member_of (renumbered numbers.now Q)) members.now) }
{
    let mut made = Vec::new(alloc);
    for i in 0..members.len() {
        let (variables, function) = both(
            copy_variables(alloc, &members[i].0),
            function_with(alloc, numbers, &members[i].2),
        )?;
        made.push((variables, numbers.at(members[i].1), function))?;
    }
    Ok(made)
}

#[cycle(exps)]
fn declaration(alloc: Global, numbers: &Numbers, dec: &Dec) -> Result<Dec, NoMemory>
    ensures { IfOk result (λ new. (Q : Reading) → dec_of Q new ≡ dec_of (renumbered numbers.now Q) dec.now) }
{
    match dec {
        Dec::Val(parameters, bindings, members) => match both(
            all_bindings(alloc, numbers, bindings),
            all_members(alloc, numbers, members),
        ) {
            Ok((bindings, members)) => Ok(Dec::Val(*parameters, bindings, members)),
            Err(e) => Err(e),
        },
        Dec::Exception(variable, identifier, argument) => Ok(Dec::Exception(
            *variable,
            *identifier,
            numbers.if_any(*argument),
        )),
        Dec::Weight(count) => Ok(Dec::Weight(*count)),
    }
}

#[cycle(exps)]
fn all_declarations(alloc: Global, numbers: &Numbers, decs: &[Dec]) -> Result<Vec<Dec>, NoMemory>
    ensures { IfOk result (λ new. (Q : Reading) → map (dec_of Q) new.items ≡ map (dec_of (renumbered numbers.now Q)) decs.now) }
{
    let mut made = Vec::new(alloc);
    for i in 0..decs.len() {
        made.push(declaration(alloc, numbers, &decs[i])?)?;
    }
    Ok(made)
}

/// A program's declarations with their new numbers.
pub fn renumber(alloc: Global, numbers: &Numbers, body: &[Dec]) -> Result<Vec<Dec>, NoMemory>
    ensures { IfOk result (λ new. (Q : Reading) → body_of Q new.items ≡ body_of (renumbered numbers.now Q) body.now) }
{
    all_declarations(alloc, numbers, body)
}
