// Which steps the constructs make.

use crate::made::{PLACE, general, joined, kinds, made, number, tables, two_variables};
use ir_tables::tables::Constant;
use match_pass::compile::compile;
use mlc_base::make::{boxed, one};
use mlc_base::memory::NoMemory;
use mlc_prims::basis::BasisPrimitive;
use plain_tree::tree::{Exp as Tests, Operation, Step};
use prog_tree::tree::{Exp, Pat, Rule, Side, Used};
use std::alloc::Global;
use std::test::Fail;
use ty_core::name::TyName;

#[test]
fn a_sum_performs_its_primitive(rt: HostRuntime) -> Result<(), Fail> {
    let exp = joined(
        rt.alloc(),
        Side::Left,
        Used::Primitive(BasisPrimitive::Add),
        2,
    )?;
    let tests = made(rt.alloc(), exp)?;
    assert_eq!(rt; kinds(&tests), 114146);
    Ok(())
}

#[test]
fn a_list_is_made_from_its_end(rt: HostRuntime) -> Result<(), Fail> {
    let exp = joined(
        rt.alloc(),
        Side::Right,
        Used::Constructor(1, TyName::REF),
        2,
    )?;
    let tests = made(rt.alloc(), exp)?;
    assert_eq!(rt; kinds(&tests), 11165656);
    Ok(())
}

#[test]
fn operators_that_are_called_come_from_the_last(rt: HostRuntime) -> Result<(), Fail> {
    let exp = joined(rt.alloc(), Side::Left, Used::Variable(7), 2)?;
    let tests = made(rt.alloc(), exp)?;
    assert_eq!(rt; kinds(&tests), 2211631636);
    Ok(())
}

#[test]
fn one_rule_that_fits_needs_no_block(rt: HostRuntime) -> Result<(), Fail> {
    let mut rules = Vec::new(rt.alloc());
    rules.push(Rule {
        pat: Pat::Variable(5),
        exp: Exp::Use(Used::Variable(5), Vec::new(rt.alloc()), 0),
    })?;
    let exp = Exp::Case(PLACE, 0, boxed(rt.alloc(), number(1))?, rules);
    let tests = made(rt.alloc(), exp)?;
    assert_eq!(rt; kinds(&tests), 126);
    Ok(())
}

#[test]
fn a_general_variable_is_a_block(rt: HostRuntime) -> Result<(), Fail> {
    let tests = general(rt.alloc(), Pat::Variable(3), number(1))?;
    assert_eq!(rt; kinds(&tests), 76);
    Ok(())
}

#[test]
fn a_general_record_is_a_block_and_one_more_a_variable(rt: HostRuntime) -> Result<(), Fail> {
    let pat = two_variables(rt.alloc())?;
    let tests = general(rt.alloc(), pat, number(1))?;
    assert_eq!(rt; kinds(&tests), 7776);
    Ok(())
}

/// What is raised in place of a value: an exception of the initial basis by its number, 100 a packet, 200 nothing.
fn raised(tests: &Tests) -> usize {
    match tests {
        Tests::Steps(steps, _) => match steps.first() {
            Some(Step::Let(_, Operation::RaiseInitial(number))) => *number,
            Some(Step::Let(_, Operation::Raise(_))) => 100,
            _ => 200,
        },
        Tests::First(_, last) => raised(last),
        _ => 200,
    }
}

/// What the first block or handler raises where none of its attempts fits.
fn raised_inside(tests: &Tests) -> usize {
    match tests {
        Tests::Steps(steps, _) => {
            for step in steps {
                match step {
                    Step::Block(_, body) => return raised(body),
                    Step::Handle { handler, .. } => return raised(handler),
                    _ => {}
                }
            }
            300
        }
        _ => 300,
    }
}

/// A match of 1 by one rule that not every value fits.
fn one_rule(alloc: Global) -> Result<Exp, NoMemory> {
    let mut rules = Vec::new(alloc);
    rules.push(Rule {
        pat: Pat::Constant(Constant::Int(7)),
        exp: number(2),
    })?;
    Ok(Exp::Case(PLACE, 0, boxed(alloc, number(1))?, rules))
}

#[test]
fn a_case_raises_match(rt: HostRuntime) -> Result<(), Fail> {
    let tests = made(rt.alloc(), one_rule(rt.alloc())?)?;
    assert_eq!(rt; raised_inside(&tests), 0);
    Ok(())
}

#[test]
fn a_let_raises_bind(rt: HostRuntime) -> Result<(), Fail> {
    let exp = Exp::Let(0, Vec::new(rt.alloc()), boxed(rt.alloc(), number(1))?);
    let tests = made(rt.alloc(), exp)?;
    assert_eq!(rt; raised_inside(&tests), 1);
    Ok(())
}

#[test]
fn a_packet_that_no_rule_fits_is_raised_again(rt: HostRuntime) -> Result<(), Fail> {
    let mut rules = Vec::new(rt.alloc());
    rules.push(Rule {
        pat: Pat::Constructor(7),
        exp: number(2),
    })?;
    let exp = Exp::Handle(0, boxed(rt.alloc(), number(1))?, rules);
    let tests = made(rt.alloc(), exp)?;
    assert_eq!(rt; raised_inside(&tests), 100);
    Ok(())
}

#[test]
fn a_program_raises_bind(rt: HostRuntime) -> Result<(), Fail> {
    let tables = tables(rt.alloc())?;
    let compiled = compile(rt.alloc(), tables, &[])?;
    assert_eq!(rt; raised(&compiled.body), 1);
    Ok(())
}

/// The number of the first variable that is used in the attempt of this number of the first block, 1000 where none is.
fn used_in(tests: &Tests, attempt: usize) -> usize {
    match tests {
        Tests::Steps(steps, _) => {
            for step in steps {
                match step {
                    Step::Block(_, body) => return used_in(body, attempt),
                    Step::Let(_, Operation::Use(number, _)) => return *number,
                    _ => {}
                }
            }
            1000
        }
        Tests::First(attempts, _) => match attempts.get(attempt) {
            Some(found) => used_in(found, attempt),
            None => 1000,
        },
        _ => 1000,
    }
}

#[test]
fn what_a_failing_rule_binds_is_gone_in_the_next(rt: HostRuntime) -> Result<(), Fail> {
    let alloc = rt.alloc();
    let mut rules = Vec::new(alloc);
    rules.push(Rule {
        pat: Pat::As(5, boxed(alloc, Pat::Constant(Constant::Int(7)))?),
        exp: Exp::Use(Used::Variable(5), Vec::new(alloc), 0),
    })?;
    rules.push(Rule {
        pat: Pat::Any,
        exp: Exp::Use(Used::Variable(5), Vec::new(alloc), 0),
    })?;
    let exp = Exp::Case(PLACE, 0, boxed(alloc, number(1))?, rules);
    let tests = made(alloc, exp)?;
    assert_eq!(rt; used_in(&tests, 0), 1);
    assert_eq!(rt; used_in(&tests, 1), 0);
    Ok(())
}

#[test]
fn a_function_comes_before_its_argument(rt: HostRuntime) -> Result<(), Fail> {
    let alloc = rt.alloc();
    let mut arguments = Vec::new(alloc);
    arguments.push((0, number(1)))?;
    let function = Exp::Use(Used::Variable(7), Vec::new(alloc), 0);
    let exp = Exp::Apply(PLACE, boxed(alloc, function)?, arguments);
    let tests = made(alloc, exp)?;
    assert_eq!(rt; kinds(&tests), 2136);
    Ok(())
}

#[test]
fn a_handler_is_one_step(rt: HostRuntime) -> Result<(), Fail> {
    let mut rules = Vec::new(rt.alloc());
    rules.push(Rule {
        pat: Pat::Any,
        exp: number(2),
    })?;
    let exp = Exp::Handle(0, boxed(rt.alloc(), number(1))?, rules);
    let tests = made(rt.alloc(), exp)?;
    assert_eq!(rt; kinds(&tests), 96);
    Ok(())
}

/// The first attempt of the first block, the same tests where there is none.
fn inner(tests: &Tests) -> &Tests {
    if let Tests::Steps(steps, _) = tests {
        for i in 0..steps.len() {
            if let Step::Block(_, body) = &steps[i] {
                if let Tests::First(attempts, last) = &**body {
                    if attempts.is_empty() {
                        return last;
                    }
                    return &attempts[0];
                }
            }
        }
    }
    tests
}

/// The variable that the first test looks at, 1000 where there is none.
fn tested(tests: &Tests) -> usize {
    if let Tests::Steps(steps, _) = tests {
        for i in 0..steps.len() {
            if let Step::Test { atom, .. } = &steps[i] {
                return *atom;
            }
        }
    }
    1000
}

/// A match of the variable 5 by one rule of a constant.
fn match_of_it(alloc: Global, constant: i32, exp: Exp) -> Result<Exp, NoMemory> {
    let rule = Rule {
        pat: Pat::Constant(Constant::Int(constant)),
        exp,
    };
    let it = Exp::Use(Used::Variable(5), Vec::new(alloc), 0);
    let rules = one(alloc, rule)?;
    Ok(Exp::Case(PLACE, 0, boxed(alloc, it)?, rules))
}

/// A match of a variable, in a rule of a match of the same one, which another match binds.
fn nested(alloc: Global) -> Result<Exp, NoMemory> {
    let exp = match_of_it(alloc, 2, number(20))?;
    let exp = match_of_it(alloc, 1, exp)?;
    let rules = one(
        alloc,
        Rule {
            pat: Pat::Variable(5),
            exp,
        },
    )?;
    Ok(Exp::Case(PLACE, 0, boxed(alloc, number(1))?, rules))
}

#[test]
fn nested_matches_use_one_variable(rt: HostRuntime) -> Result<(), Fail> {
    let tests = made(rt.alloc(), nested(rt.alloc())?)?;
    assert_eq!(rt; used_in(&tests, 0), 1);
    assert_eq!(rt; used_in(inner(&tests), 0), 1);
    Ok(())
}

#[test]
fn nested_matches_test_what_each_has_used(rt: HostRuntime) -> Result<(), Fail> {
    let tests = made(rt.alloc(), nested(rt.alloc())?)?;
    assert_eq!(rt; tested(inner(&tests)), 2);
    assert_eq!(rt; tested(inner(inner(&tests))), 3);
    Ok(())
}
