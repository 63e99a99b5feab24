// In which order the constructs print, and what is bound where.

use crate::made::{PLACE, declared, general, made, two_variables};
use ir_tables::tables::Constant;
use mlc_base::make::{boxed, one};
use mlc_base::memory::NoMemory;
use mlc_names::label::Label;
use mlc_prims::basis::BasisPrimitive;
use plain_tree::tree::{Arm, Exp as Tests, Function as Member, Operation, Step};
use prog_tree::tree::{Atom, Binding, Dec, Exp, Function, Join, Parameter, Pat, Rule, Side, Used};
use std::alloc::Global;
use std::test::Fail;

/// A printer that waits for its text, the last text, and what was printed, a digit each.
#[derive(Clone, Copy)]
struct Printed {
    printer: usize,
    text: usize,
    all: usize,
}

const NOTHING: Printed = Printed {
    printer: 0,
    text: 0,
    all: 0,
};

/// What a step without parts adds.
fn in_operation(variable: usize, operation: &Operation, seen: Printed) -> Printed {
    match operation {
        Operation::Primitive(BasisPrimitive::Print, _) => Printed {
            printer: variable,
            ..seen
        },
        Operation::Constant(Constant::Text(text)) => Printed {
            text: *text,
            ..seen
        },
        Operation::Apply { function, .. } => {
            if *function == seen.printer {
                return Printed {
                    all: seen.all.saturating_mul(10).saturating_add(seen.text),
                    ..seen
                };
            }
            seen
        }
        _ => seen,
    }
}

/// What is printed, in the order of steps: in each attempt after the one before it, in a handler after what it handles, in a function where it is made.
#[cycle(prints)]
fn in_tests(tests: &Tests, seen: Printed) -> Printed {
    match tests {
        Tests::Steps(steps, end) => in_tests(end, in_steps(steps, seen)),
        Tests::First(attempts, last) => in_tests(last, in_attempts(attempts, seen)),
        Tests::Switch { arms, .. } => in_arms(arms, seen),
        Tests::Ret(_) => seen,
        Tests::Miss => seen,
    }
}

#[cycle(prints)]
fn in_steps(steps: &[Step], seen: Printed) -> Printed {
    let mut seen = seen;
    for i in 0..steps.len() {
        seen = in_step(&steps[i], seen);
    }
    seen
}

#[cycle(prints)]
fn in_step(step: &Step, seen: Printed) -> Printed {
    match step {
        Step::Let(binding, operation) => in_operation(binding.variable, operation, seen),
        Step::Fn { body, .. } => in_tests(body, seen),
        Step::Block(_, body) => in_tests(body, seen),
        Step::Handle { body, handler, .. } => in_tests(handler, in_tests(body, seen)),
        Step::Group(_, members) => in_members(members, seen),
        Step::Test { others, .. } => in_arms(others, seen),
        Step::Exception { .. } => seen,
        Step::Name(_, _) => seen,
        Step::Counted(_) => seen,
    }
}

#[cycle(prints)]
fn in_attempts(attempts: &[Tests], seen: Printed) -> Printed {
    let mut seen = seen;
    for i in 0..attempts.len() {
        seen = in_tests(&attempts[i], seen);
    }
    seen
}

#[cycle(prints)]
fn in_arms(arms: &[Arm], seen: Printed) -> Printed {
    let mut seen = seen;
    for i in 0..arms.len() {
        seen = in_tests(&arms[i].body, seen);
    }
    seen
}

#[cycle(prints)]
fn in_members(members: &[Member], seen: Printed) -> Printed {
    let mut seen = seen;
    for i in 0..members.len() {
        seen = in_tests(&members[i].body, seen);
    }
    seen
}

/// What a program prints whose one declaration gives this value to a variable.
fn digits_of(alloc: Global, exp: Exp) -> Result<usize, NoMemory> {
    let tests = made(alloc, exp)?;
    Ok(in_tests(&tests, NOTHING).all)
}

/// Prints the text of this number.
fn print(alloc: Global, text: usize) -> Result<Exp, NoMemory> {
    let print = Exp::Use(Used::Primitive(BasisPrimitive::Print), Vec::new(alloc), 0);
    let function = boxed(alloc, print)?;
    let argument = Exp::Atom(Atom::Constant(Constant::Text(text)), 0);
    Ok(Exp::Apply(PLACE, function, one(alloc, (0, argument))?))
}

/// Prints two texts in an operand and an operator before it.
fn joint(alloc: Global, operator: usize, operand: usize) -> Result<(Join, Exp, Exp), NoMemory> {
    let join = Join {
        place: PLACE,
        ty: 0,
        pair: 0,
    };
    let function = print(alloc, operator)?;
    Ok((join, function, print(alloc, operand)?))
}

/// Two operators, of which the first prints 1 and its right operand 2, the second 3 and its 4, and a left operand that prints 5.
fn joined(alloc: Global, side: Side) -> Result<Exp, NoMemory> {
    let mut joins = one(alloc, joint(alloc, 1, 2)?)?;
    joins.push(joint(alloc, 3, 4)?)?;
    Ok(Exp::Infix(side, boxed(alloc, print(alloc, 5)?)?, joins))
}

/// A rule of a constant pattern that prints a text.
fn rule(alloc: Global, text: usize) -> Result<Rule, NoMemory> {
    Ok(Rule {
        pat: Pat::Constant(Constant::Int(7)),
        exp: print(alloc, text)?,
    })
}

/// Rules that print 2 and 3.
fn rules(alloc: Global) -> Result<Vec<Rule>, NoMemory> {
    let mut rules = one(alloc, rule(alloc, 2)?)?;
    rules.push(rule(alloc, 3)?)?;
    Ok(rules)
}

/// A binding of a variable, whose value prints a text.
fn binding(alloc: Global, text: usize) -> Result<(Binding, Rule), NoMemory> {
    let binding = Binding {
        place: PLACE,
        general: false,
        ty: 0,
    };
    let rule = Rule {
        pat: Pat::Variable(text),
        exp: print(alloc, text)?,
    };
    Ok((binding, rule))
}

/// A declaration of a variable, whose value prints a text.
fn declaration(alloc: Global, text: usize) -> Result<Dec, NoMemory> {
    let bindings = one(alloc, binding(alloc, text)?)?;
    Ok(Dec::Val(0, bindings, Vec::new(alloc)))
}

/// Two expressions that print 1 and 2.
fn two(alloc: Global) -> Result<Vec<Exp>, NoMemory> {
    let mut all = one(alloc, print(alloc, 1)?)?;
    all.push(print(alloc, 2)?)?;
    Ok(all)
}

/// A field whose value prints a text, with a label that is the less the greater the text is.
fn field(alloc: Global, text: u32) -> Result<(Label, Exp), NoMemory> {
    Ok((
        Label::Number(9_u32.saturating_sub(text)),
        print(alloc, text as usize)?,
    ))
}

#[test]
fn a_function_prints_before_its_arguments(rt: HostRuntime) -> Result<(), Fail> {
    let alloc = rt.alloc();
    let mut arguments = one(alloc, (0, print(alloc, 2)?))?;
    arguments.push((0, print(alloc, 3)?))?;
    let exp = Exp::Apply(PLACE, boxed(alloc, print(alloc, 1)?)?, arguments);
    assert_eq!(rt; digits_of(alloc, exp)?, 123);
    Ok(())
}

#[test]
fn fields_print_as_they_are_written(rt: HostRuntime) -> Result<(), Fail> {
    let alloc = rt.alloc();
    let mut fields = one(alloc, field(alloc, 1)?)?;
    fields.push(field(alloc, 2)?)?;
    assert_eq!(rt; digits_of(alloc, Exp::Record(0, fields))?, 12);
    Ok(())
}

#[test]
fn operators_to_the_left_print_from_the_last(rt: HostRuntime) -> Result<(), Fail> {
    let exp = joined(rt.alloc(), Side::Left)?;
    assert_eq!(rt; digits_of(rt.alloc(), exp)?, 31524);
    Ok(())
}

#[test]
fn operators_to_the_right_print_from_the_first(rt: HostRuntime) -> Result<(), Fail> {
    let exp = joined(rt.alloc(), Side::Right)?;
    assert_eq!(rt; digits_of(rt.alloc(), exp)?, 15324);
    Ok(())
}

#[test]
fn declarations_print_before_the_body(rt: HostRuntime) -> Result<(), Fail> {
    let alloc = rt.alloc();
    let mut decs = one(alloc, declaration(alloc, 1)?)?;
    decs.push(declaration(alloc, 2)?)?;
    let exp = Exp::Let(0, decs, boxed(alloc, print(alloc, 3)?)?);
    assert_eq!(rt; digits_of(alloc, exp)?, 123);
    Ok(())
}

#[test]
fn what_is_matched_prints_before_the_rules(rt: HostRuntime) -> Result<(), Fail> {
    let alloc = rt.alloc();
    let all = rules(alloc)?;
    let exp = Exp::Case(PLACE, 0, boxed(alloc, print(alloc, 1)?)?, all);
    assert_eq!(rt; digits_of(alloc, exp)?, 123);
    Ok(())
}

#[test]
fn what_is_handled_prints_before_the_handler(rt: HostRuntime) -> Result<(), Fail> {
    let alloc = rt.alloc();
    let all = rules(alloc)?;
    let exp = Exp::Handle(0, boxed(alloc, print(alloc, 1)?)?, all);
    assert_eq!(rt; digits_of(alloc, exp)?, 123);
    Ok(())
}

#[test]
fn operands_of_orelse_print_in_order(rt: HostRuntime) -> Result<(), Fail> {
    let alloc = rt.alloc();
    let all = two(alloc)?;
    let exp = Exp::Test(false, 0, all, boxed(alloc, print(alloc, 3)?)?);
    assert_eq!(rt; digits_of(alloc, exp)?, 123);
    Ok(())
}

#[test]
fn a_sequence_prints_in_order(rt: HostRuntime) -> Result<(), Fail> {
    let alloc = rt.alloc();
    let all = two(alloc)?;
    let exp = Exp::Sequence(PLACE, 0, all, boxed(alloc, print(alloc, 3)?)?);
    assert_eq!(rt; digits_of(alloc, exp)?, 123);
    Ok(())
}

#[test]
fn a_packet_prints_before_it_is_raised(rt: HostRuntime) -> Result<(), Fail> {
    let alloc = rt.alloc();
    let exp = Exp::Raise(0, boxed(alloc, print(alloc, 1)?)?);
    assert_eq!(rt; digits_of(alloc, exp)?, 1);
    Ok(())
}

/// A function of the variable 5 whose body prints 2.
fn function(alloc: Global) -> Result<Function, NoMemory> {
    let parameter = Parameter { variable: 5, ty: 0 };
    let body = boxed(alloc, print(alloc, 2)?)?;
    Ok(Function::Named(Vec::new(alloc), parameter, body))
}

#[test]
fn the_body_of_a_function_prints_inside_it_alone(rt: HostRuntime) -> Result<(), Fail> {
    let alloc = rt.alloc();
    let exp = Exp::Fn(0, function(alloc)?);
    assert_eq!(rt; digits_of(alloc, exp)?, 2);
    Ok(())
}

/// What a program of one declaration prints.
fn digits_in(alloc: Global, dec: Dec) -> Result<usize, NoMemory> {
    let tests = declared(alloc, dec)?;
    Ok(in_tests(&tests, NOTHING).all)
}

#[test]
fn bindings_of_one_declaration_print_in_order(rt: HostRuntime) -> Result<(), Fail> {
    let alloc = rt.alloc();
    let mut bindings = one(alloc, binding(alloc, 1)?)?;
    bindings.push(binding(alloc, 2)?)?;
    let dec = Dec::Val(0, bindings, Vec::new(alloc));
    assert_eq!(rt; digits_in(alloc, dec)?, 12);
    Ok(())
}

/// The operands 1 and 2 of a primitive.
fn operands(alloc: Global) -> Result<Exp, NoMemory> {
    let mut fields = one(alloc, (Label::Number(1), print(alloc, 1)?))?;
    fields.push((Label::Number(2), print(alloc, 2)?))?;
    Ok(Exp::Record(0, fields))
}

#[test]
fn operands_of_a_primitive_print_in_order(rt: HostRuntime) -> Result<(), Fail> {
    let alloc = rt.alloc();
    let add = Exp::Use(Used::Primitive(BasisPrimitive::Add), Vec::new(alloc), 0);
    let function = boxed(alloc, add)?;
    let exp = Exp::Apply(PLACE, function, one(alloc, (0, operands(alloc)?))?);
    assert_eq!(rt; digits_of(alloc, exp)?, 12);
    Ok(())
}

/// A function that matches its argument by rules, which print 2 and 3.
fn by_rules(alloc: Global) -> Result<Function, NoMemory> {
    let all = rules(alloc)?;
    Ok(Function::ByRules(Vec::new(alloc), PLACE, 0, 0, all))
}

#[test]
fn rules_of_a_function_print_inside_it_in_order(rt: HostRuntime) -> Result<(), Fail> {
    let alloc = rt.alloc();
    let exp = Exp::Fn(0, by_rules(alloc)?);
    assert_eq!(rt; digits_of(alloc, exp)?, 23);
    Ok(())
}

#[test]
fn functions_of_a_group_print_inside_themselves(rt: HostRuntime) -> Result<(), Fail> {
    let alloc = rt.alloc();
    let mut functions = one(alloc, (Vec::new(alloc), 0, function(alloc)?))?;
    functions.push((Vec::new(alloc), 0, by_rules(alloc)?))?;
    let dec = Dec::Val(0, Vec::new(alloc), functions);
    assert_eq!(rt; digits_in(alloc, dec)?, 223);
    Ok(())
}

#[test]
fn what_is_generalised_prints_once(rt: HostRuntime) -> Result<(), Fail> {
    let alloc = rt.alloc();
    let pat = two_variables(alloc)?;
    let tests = general(alloc, pat, print(alloc, 1)?)?;
    assert_eq!(rt; in_tests(&tests, NOTHING).all, 1);
    Ok(())
}
