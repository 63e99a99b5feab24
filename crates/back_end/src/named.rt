// Whether a table of names has those of a program's exceptions.

ghost use Rattle.std.specs.Prelude.{◌≡◌, ◌<◌, ◌&&◌, true, All};
ghost use Rattle.back_end.specs.Lowered.{identifiers};
ghost use Rattle.back_end.specs.Keeping.{exp_keeps, field_keeps, argument_keeps, join_keeps, rule_keeps, bind_keeps, function_keeps, member_keeps, dec_keeps};

use match_pass::ir_prog::program::Program;
use mlc_names::label::Label;
use mlc_names::names::Name;
use prog_tree::tree::{Binding, Dec, Exp, Function, Join, Rule};

fn both(left: bool, right: bool) -> bool
    ensures { result ≡ (left && right) }
{
    left && right
}

fn is_below(limit: u32, identifier: Name) -> bool
    ensures { result ≡ true → identifier < limit }
{
    identifier.number() < limit
}

#[cycle(named)]
fn in_exp(limit: u32, exp: &Exp) -> bool
    ensures { result ≡ true → exp_keeps limit exp.now }
{
    match exp {
        Exp::Atom(_, _) => true,
        Exp::Use(_, _, _) => true,
        Exp::Record(_, fields) => in_fields(limit, fields),
        Exp::Let(_, declarations, body) => both(in_decs(limit, declarations), in_exp(limit, body)),
        Exp::Apply(_, function, arguments) => both(
            in_exp(limit, function),
            in_arguments(limit, arguments),
        ),
        Exp::Infix(_, first, joins) => both(in_exp(limit, first), in_joins(limit, joins)),
        Exp::Case(_, _, of, rules) => both(in_exp(limit, of), in_rules(limit, rules)),
        Exp::Sequence(_, _, before, last) => both(in_each(limit, before), in_exp(limit, last)),
        Exp::Test(_, _, operands, last) => both(in_each(limit, operands), in_exp(limit, last)),
        Exp::Handle(_, body, rules) => both(in_exp(limit, body), in_rules(limit, rules)),
        Exp::Raise(_, packet) => in_exp(limit, packet),
        Exp::Fn(_, function) => in_function(limit, function),
        Exp::Counted(_, _, body) => in_exp(limit, body),
    }
}

#[cycle(named)]
fn in_each(limit: u32, exps: &[Exp]) -> bool
    ensures { result ≡ true → All (exp_keeps limit) exps.now }
{
    for i in 0..exps.len() {
        if !in_exp(limit, &exps[i]) {
            return false;
        }
    }
    true
}

#[cycle(named)]
fn in_fields(limit: u32, fields: &[(Label, Exp)]) -> bool
    ensures { result ≡ true → All (field_keeps limit) fields.now }
{
    for i in 0..fields.len() {
        if !in_exp(limit, &fields[i].1) {
            return false;
        }
    }
    true
}

#[cycle(named)]
fn in_arguments(limit: u32, arguments: &[(usize, Exp)]) -> bool
    ensures { result ≡ true → All (argument_keeps limit) arguments.now }
{
    for i in 0..arguments.len() {
        if !in_exp(limit, &arguments[i].1) {
            return false;
        }
    }
    true
}

#[cycle(named)]
fn in_joins(limit: u32, joins: &[(Join, Exp, Exp)]) -> bool
    ensures { result ≡ true → All (join_keeps limit) joins.now }
{
    for i in 0..joins.len() {
        let operator = in_exp(limit, &joins[i].1);
        let operand = in_exp(limit, &joins[i].2);
        if !both(operator, operand) {
            return false;
        }
    }
    true
}

#[cycle(named)]
fn in_rules(limit: u32, rules: &[Rule]) -> bool
    ensures { result ≡ true → All (rule_keeps limit) rules.now }
{
    for i in 0..rules.len() {
        if !in_exp(limit, &rules[i].exp) {
            return false;
        }
    }
    true
}

#[cycle(named)]
fn in_function(limit: u32, function: &Function) -> bool
    ensures { result ≡ true → function_keeps limit function.now }
{
    match function {
        Function::Named(_, _, body) => in_exp(limit, body),
        Function::ByRules(_, _, _, _, rules) => in_rules(limit, rules),
    }
}

#[cycle(named)]
fn in_dec(limit: u32, declaration: &Dec) -> bool
    ensures { result ≡ true → dec_keeps limit declaration.now }
{
    match declaration {
        Dec::Val(_, binds, functions) => both(in_binds(limit, binds), in_members(limit, functions)),
        Dec::Exception(_, identifier, _) => is_below(limit, *identifier),
        Dec::Weight(_) => true,
    }
}

#[cycle(named)]
fn in_decs(limit: u32, declarations: &[Dec]) -> bool
    ensures { result ≡ true → All (dec_keeps limit) declarations.now }
{
    for i in 0..declarations.len() {
        if !in_dec(limit, &declarations[i]) {
            return false;
        }
    }
    true
}

#[cycle(named)]
fn in_binds(limit: u32, binds: &[(Binding, Rule)]) -> bool
    ensures { result ≡ true → All (bind_keeps limit) binds.now }
{
    for i in 0..binds.len() {
        if !in_exp(limit, &binds[i].1.exp) {
            return false;
        }
    }
    true
}

#[cycle(named)]
fn in_members(limit: u32, functions: &[(Vec<usize>, usize, Function)]) -> bool
    ensures { result ≡ true → All (member_keeps limit) functions.now }
{
    for i in 0..functions.len() {
        if !in_function(limit, &functions[i].2) {
            return false;
        }
    }
    true
}

fn are_below(limit: u32, identifiers: &[Name]) -> bool
    ensures { result ≡ true → All (λ i. i < limit) identifiers.now }
{
    for i in 0..identifiers.len() {
        if !is_below(limit, identifiers[i]) {
            return false;
        }
    }
    true
}

/// Whether all identifiers of a program's exceptions are below a limit, so that a table of as many names has them: what compile asks for. Linear in the program.
pub fn is_named(limit: u32, program: &Program) -> bool
    ensures { result ≡ true → All (λ i. i < limit) (identifiers program.now) }
{
    both(
        are_below(limit, &program.tables.initial),
        in_decs(limit, &program.body),
    )
}
