// Long programs: what takes more than near linear time takes minutes here.

use ir_tables::tables::{Constant, Tables};
use match_pass::compile::{Compiled, compile};
use mlc_base::make::{boxed, one};
use mlc_base::memory::NoMemory;
use mlc_base::place::Place;
use mlc_prims::basis::BasisPrimitive;
use plain_tree::tree::{Exp as Tests, Step};
use prog_tree::tree::{Atom, Binding, Dec, Exp, Head, Join, Pair, Pat, PatPart, Rule, Side, Used};
use std::alloc::Global;
use std::test::Fail;
use ty_core::name::TyName;
use ty_core::ty::Head as Symbol;

const PLACE: Place = Place { file: 0, byte: 0 };

fn number(value: i32) -> Exp {
    Exp::Atom(Atom::Constant(Constant::Int(value)), 0)
}

fn tables(alloc: Global) -> Result<Tables, NoMemory> {
    let mut tables = Tables::new(alloc)?;
    tables
        .types
        .apply(alloc, Symbol::Record(Vec::new(alloc)), &[])?;
    Ok(tables)
}

/// The declaration of a variable.
fn value_of(alloc: Global, exp: Exp) -> Result<Dec, NoMemory> {
    let rule = Rule {
        pat: Pat::Variable(1),
        exp,
    };
    let binding = Binding {
        place: PLACE,
        general: false,
        ty: 0,
    };
    Ok(Dec::Val(0, one(alloc, (binding, rule))?, Vec::new(alloc)))
}

/// The first attempt of a program of one declaration of a variable.
fn made(alloc: Global, exp: Exp) -> Result<Tests, NoMemory> {
    declared(alloc, value_of(alloc, exp)?)
}

/// The first attempt of a program of one declaration.
fn declared(alloc: Global, dec: Dec) -> Result<Tests, NoMemory> {
    let decs = one(alloc, dec)?;
    let compiled = compile(alloc, tables(alloc)?, &decs)?;
    first_attempt(compiled.body)
}

fn first_attempt(tests: Tests) -> Result<Tests, NoMemory> {
    match tests {
        Tests::First(mut attempts, _) => match attempts.pop() {
            Some(first) => Ok(first),
            None => Ok(Tests::Miss),
        },
        other => Ok(other),
    }
}

/// How many steps there are.
fn len(tests: &Tests) -> usize {
    match tests {
        Tests::Steps(steps, _) => steps.len(),
        _ => 0,
    }
}

/// How many steps the attempt of this number of the first block has.
fn len_inside(tests: &Tests, attempt: usize) -> usize {
    match inside(tests) {
        Some(Tests::First(attempts, _)) => {
            if attempt < attempts.len() {
                return len(&attempts[attempt]);
            }
            0
        }
        _ => 0,
    }
}

/// How many attempts the first block has before the last.
fn attempts_inside(tests: &Tests) -> usize {
    match inside(tests) {
        Some(Tests::First(attempts, _)) => attempts.len(),
        _ => 0,
    }
}

/// The first block.
fn inside(tests: &Tests) -> Option<&Tests> {
    match tests {
        Tests::Steps(steps, _) => {
            for i in 0..steps.len() {
                if let Step::Block(_, body) = &steps[i] {
                    return Some(body);
                }
            }
            None
        }
        _ => None,
    }
}

fn joined(alloc: Global, side: Side, used: Used, count: usize) -> Result<Exp, NoMemory> {
    let mut joins = Vec::new(alloc);
    let join = Join {
        place: PLACE,
        ty: 0,
        pair: 0,
    };
    for _ in 0..count {
        joins.push((join, Exp::Use(used, Vec::new(alloc), 0), number(2)))?;
    }
    let first = boxed(alloc, number(1))?;
    Ok(Exp::Infix(side, first, joins))
}

#[test]
fn a_long_list(rt: HostRuntime) -> Result<(), Fail> {
    let exp = joined(
        rt.alloc(),
        Side::Right,
        Used::Constructor(1, TyName::REF),
        100_000,
    )?;
    let tests = made(rt.alloc(), exp)?;
    assert_eq!(rt; len(&tests), 300_002);
    Ok(())
}

#[test]
fn a_long_sum(rt: HostRuntime) -> Result<(), Fail> {
    let exp = joined(
        rt.alloc(),
        Side::Left,
        Used::Primitive(BasisPrimitive::Add),
        100_000,
    )?;
    let tests = made(rt.alloc(), exp)?;
    assert_eq!(rt; len(&tests), 200_002);
    Ok(())
}

#[test]
fn a_long_chain_of_andalso(rt: HostRuntime) -> Result<(), Fail> {
    let mut all = Vec::new(rt.alloc());
    for _ in 0..100_000 {
        all.push(number(1))?;
    }
    let exp = Exp::Test(true, 0, all, boxed(rt.alloc(), number(1))?);
    let tests = made(rt.alloc(), exp)?;
    assert_eq!(rt; len_inside(&tests, 0), 200_001);
    Ok(())
}

/// So many rules, each of a constant.
fn rules(alloc: Global, count: usize) -> Result<Vec<Rule>, NoMemory> {
    let mut rules = Vec::new(alloc);
    for _ in 0..count {
        rules.push(Rule {
            pat: Pat::Constant(Constant::Int(7)),
            exp: number(1),
        })?;
    }
    Ok(rules)
}

#[test]
fn many_rules(rt: HostRuntime) -> Result<(), Fail> {
    let all = rules(rt.alloc(), 100_000)?;
    let exp = Exp::Case(PLACE, 0, boxed(rt.alloc(), number(1))?, all);
    let tests = made(rt.alloc(), exp)?;
    assert_eq!(rt; attempts_inside(&tests), 100_000);
    assert_eq!(rt; len_inside(&tests, 99_999), 2);
    Ok(())
}

/// A list of so many constants, with nil at its end.
fn list_pattern(alloc: Global, count: usize) -> Result<Pat, NoMemory> {
    let mut parts = Vec::new(alloc);
    let pair = Pair {
        ty: 0,
        left: 0,
        right: 0,
    };
    for i in 0..count {
        let pat = if i + 1 < count {
            Pat::Constant(Constant::Int(7))
        } else {
            Pat::Constructor(0)
        };
        parts.push(PatPart {
            head: Head::Constructor(1),
            pair,
            pat,
        })?;
    }
    let first = boxed(alloc, Pat::Constant(Constant::Int(7)))?;
    Ok(Pat::Chain(Side::Right, first, parts))
}

/// A match by one rule.
fn matched(alloc: Global, pat: Pat) -> Result<Exp, NoMemory> {
    let mut all = Vec::new(alloc);
    all.push(Rule {
        pat,
        exp: number(1),
    })?;
    Ok(Exp::Case(PLACE, 0, boxed(alloc, number(1))?, all))
}

/// An element takes five steps: its construction is tested, and that it is a pair; the head is taken and tested, and the tail is taken.
#[test]
fn a_long_list_pattern(rt: HostRuntime) -> Result<(), Fail> {
    let pat = list_pattern(rt.alloc(), 100_000)?;
    let exp = matched(rt.alloc(), pat)?;
    let tests = made(rt.alloc(), exp)?;
    assert_eq!(rt; len_inside(&tests, 0), 500_002);
    Ok(())
}

/// So many bindings, each of a constant.
fn bindings(alloc: Global, count: usize) -> Result<Vec<(Binding, Rule)>, NoMemory> {
    let mut bindings = Vec::new(alloc);
    let binding = Binding {
        place: PLACE,
        general: false,
        ty: 0,
    };
    for _ in 0..count {
        let rule = Rule {
            pat: Pat::Constant(Constant::Int(7)),
            exp: number(1),
        };
        bindings.push((binding, rule))?;
    }
    Ok(bindings)
}

#[test]
fn many_refutable_bindings(rt: HostRuntime) -> Result<(), Fail> {
    let all = bindings(rt.alloc(), 100_000)?;
    let dec = Dec::Val(0, all, Vec::new(rt.alloc()));
    let tests = declared(rt.alloc(), dec)?;
    assert_eq!(rt; len(&tests), 200_001);
    Ok(())
}

/// A program that matches a number with a string of 10,000 bytes, its only one.
fn long_string(alloc: Global) -> Result<Compiled, NoMemory> {
    let mut own = tables(alloc)?;
    let mut text = Vec::new(alloc);
    for _ in 0..10_000 {
        text.push(b'a')?;
    }
    own.strings.push(text)?;
    let exp = matched(alloc, Pat::Constant(Constant::Text(0)))?;
    compile(alloc, own, &one(alloc, value_of(alloc, exp)?)?)
}

/// How many bytes the first string has.
fn bytes(tables: &Tables) -> usize {
    if tables.strings.is_empty() {
        return 0;
    }
    tables.strings[0].len()
}

#[test]
fn a_long_string_is_one_test(rt: HostRuntime) -> Result<(), Fail> {
    let compiled = long_string(rt.alloc())?;
    assert_eq!(rt; bytes(&compiled.tables), 10_000);
    let tests = first_attempt(compiled.body)?;
    assert_eq!(rt; len_inside(&tests, 0), 2);
    Ok(())
}
