// How many nodes of the source a tree stands for, or 2^64 - 1 where they are more.
ghost use Rattle.std.specs.Prelude.{◌≡◌, ◌^◌, ◌-◌, min, sum_by};
ghost use Rattle.ir_tables.specs.of_ir_poly.ProgWeight.{decs_weight};
ghost use Rattle.prog_tree.specs.Readings.{reading};
ghost use Rattle.prog_tree.specs.TreeOf.{body_of};
ghost use Rattle.prog_tree.specs.Weights.{exp_weight, field_weight, argument_weight, join_weight, rule_weight, bind_weight, function_weight, member_weight, dec_weight};

use crate::tree::{Binding, Dec, Exp, Function, Join, Rule};
use ir_tables::tables::Tables;
use mlc_names::label::Label;

#[cycle(nodes)]
fn exp_nodes(tables: &Tables, exp: &Exp) -> u64
    ensures { result ≡ min (exp_weight (reading tables.now) exp.now) (2 ^ 64 - 1) }
{
    match exp {
        Exp::Atom(_, _) => 0,
        Exp::Use(_, _, _) => 0,
        Exp::Record(_, fields) => field_nodes(tables, fields),
        Exp::Let(_, declarations, body) => decs_nodes(tables, declarations).saturating_add(
            exp_nodes(tables, body),
        ),
        Exp::Apply(_, function, arguments) => {
            exp_nodes(tables, function).saturating_add(argument_nodes(tables, arguments))
        }
        Exp::Infix(_, first, joins) => exp_nodes(tables, first).saturating_add(join_nodes(
            tables, joins,
        )),
        Exp::Case(_, _, of, rules) => exp_nodes(tables, of).saturating_add(rule_nodes(
            tables, rules,
        )),
        Exp::Sequence(_, _, before, last) => each_nodes(tables, before).saturating_add(exp_nodes(
            tables, last,
        )),
        Exp::Test(_, _, operands, last) => each_nodes(tables, operands).saturating_add(exp_nodes(
            tables, last,
        )),
        Exp::Handle(_, body, rules) => exp_nodes(tables, body).saturating_add(rule_nodes(
            tables, rules,
        )),
        Exp::Raise(_, packet) => exp_nodes(tables, packet),
        Exp::Fn(_, function) => function_nodes(tables, function),
        Exp::Counted(count, _, body) => exp_nodes(tables, body).saturating_add(*count as u64),
    }
}

#[cycle(nodes)]
fn each_nodes(tables: &Tables, exps: &[Exp]) -> u64
    ensures { result ≡ min (sum_by (exp_weight (reading tables.now)) exps.now) (2 ^ 64 - 1) }
{
    let mut total: u64 = 0;
    for i in 0..exps.len() {
        total = total.saturating_add(exp_nodes(tables, &exps[i]));
    }
    total
}

#[cycle(nodes)]
fn field_nodes(tables: &Tables, fields: &[(Label, Exp)]) -> u64
    ensures { result ≡ min (sum_by (field_weight (reading tables.now)) fields.now) (2 ^ 64 - 1) }
{
    let mut total: u64 = 0;
    for i in 0..fields.len() {
        total = total.saturating_add(exp_nodes(tables, &fields[i].1));
    }
    total
}

#[cycle(nodes)]
fn argument_nodes(tables: &Tables, arguments: &[(usize, Exp)]) -> u64
    ensures { result ≡ min (sum_by (argument_weight (reading tables.now)) arguments.now) (2 ^ 64 - 1) }
{
    let mut total: u64 = 0;
    for i in 0..arguments.len() {
        total = total.saturating_add(exp_nodes(tables, &arguments[i].1));
    }
    total
}

#[cycle(nodes)]
fn join_nodes(tables: &Tables, joins: &[(Join, Exp, Exp)]) -> u64
    ensures { result ≡ min (sum_by (join_weight (reading tables.now)) joins.now) (2 ^ 64 - 1) }
{
    let mut total: u64 = 0;
    for i in 0..joins.len() {
        let operator = exp_nodes(tables, &joins[i].1);
        let operand = exp_nodes(tables, &joins[i].2);
        total = total.saturating_add(operator.saturating_add(operand));
    }
    total
}

#[cycle(nodes)]
fn rule_nodes(tables: &Tables, rules: &[Rule]) -> u64
    ensures { result ≡ min (sum_by (rule_weight (reading tables.now)) rules.now) (2 ^ 64 - 1) }
{
    let mut total: u64 = 0;
    for i in 0..rules.len() {
        total = total.saturating_add(exp_nodes(tables, &rules[i].exp));
    }
    total
}

#[cycle(nodes)]
fn function_nodes(tables: &Tables, function: &Function) -> u64
    ensures { result ≡ min (function_weight (reading tables.now) function.now) (2 ^ 64 - 1) }
{
    match function {
        Function::Named(_, _, body) => exp_nodes(tables, body),
        Function::ByRules(_, _, _, _, rules) => rule_nodes(tables, rules),
    }
}

#[cycle(nodes)]
fn dec_nodes(tables: &Tables, declaration: &Dec) -> u64
    ensures { result ≡ min (dec_weight (reading tables.now) declaration.now) (2 ^ 64 - 1) }
{
    match declaration {
        Dec::Val(_, binds, functions) => {
            bind_nodes(tables, binds).saturating_add(member_nodes(tables, functions))
        }
        Dec::Exception(_, _, _) => 0,
        Dec::Weight(count) => *count as u64,
    }
}

#[cycle(nodes)]
fn decs_nodes(tables: &Tables, declarations: &[Dec]) -> u64
    ensures { result ≡ min (sum_by (dec_weight (reading tables.now)) declarations.now) (2 ^ 64 - 1) }
{
    let mut total: u64 = 0;
    for i in 0..declarations.len() {
        total = total.saturating_add(dec_nodes(tables, &declarations[i]));
    }
    total
}

#[cycle(nodes)]
fn bind_nodes(tables: &Tables, binds: &[(Binding, Rule)]) -> u64
    ensures { result ≡ min (sum_by (bind_weight (reading tables.now)) binds.now) (2 ^ 64 - 1) }
{
    let mut total: u64 = 0;
    for i in 0..binds.len() {
        total = total.saturating_add(exp_nodes(tables, &binds[i].1.exp));
    }
    total
}

#[cycle(nodes)]
fn member_nodes(tables: &Tables, functions: &[(Vec<usize>, usize, Function)]) -> u64
    ensures { result ≡ min (sum_by (member_weight (reading tables.now)) functions.now) (2 ^ 64 - 1) }
{
    let mut total: u64 = 0;
    for i in 0..functions.len() {
        total = total.saturating_add(function_nodes(tables, &functions[i].2));
    }
    total
}

/// Of declarations.
pub fn nodes(tables: &Tables, declarations: &[Dec]) -> u64
    ensures { result ≡ min (decs_weight (body_of (reading tables.now) declarations.now)) (2 ^ 64 - 1) }
{
    decs_nodes(tables, declarations)
}
