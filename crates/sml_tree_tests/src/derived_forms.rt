// Each derived form with ample memory.

use mlc_base::memory::NoMemory;
use mlc_base::place::Place;
use mlc_names::label::Label;
use sml_tree::derive::{conditional, disjunction, selector, while_loop};
use sml_tree::ident::Constant;
use sml_tree::tree::{Exp, Rule};
use std::alloc::Global;
use std::test::Fail;

fn place(byte: u32) -> Place {
    Place { file: 0, byte }
}

fn number(byte: u32, value: i32) -> Exp {
    Exp::Constant(place(byte), Constant::Int(value))
}

fn value_of(exp: &Exp) -> i32 {
    match exp {
        Exp::Constant(_, Constant::Int(value)) => *value,
        _ => 0,
    }
}

fn rule_value(rules: &[Rule], index: usize) -> i32 {
    if index < rules.len() {
        value_of(&rules[index].exp)
    } else {
        0
    }
}

// The values of the two rules of a function.
fn branches(exp: &Exp) -> (i32, i32) {
    match exp {
        Exp::Fn(_, rules) => (rule_value(rules, 0), rule_value(rules, 1)),
        _ => (0, 0),
    }
}

fn operator_branches(exp: &Exp) -> (i32, i32) {
    match exp {
        Exp::Apply(_, function, _) => branches(function),
        _ => (0, 0),
    }
}

// `if 0 then 1 else 2`
fn one_or_two(alloc: Global) -> Result<Exp, NoMemory> {
    conditional(alloc, place(7), number(10, 0), number(17, 1), number(24, 2))
}

#[test]
fn a_conditional_is_derived(rt: HostRuntime) -> Result<(), Fail> {
    let exp = one_or_two(rt.alloc())?;
    assert_eq!(rt; operator_branches(&exp), (1, 2));
    Ok(())
}

// The number of operands of an application.
fn operands(exp: &Exp) -> usize {
    match exp {
        Exp::Apply(_, _, arguments) => arguments.len(),
        _ => 0,
    }
}

fn is_let(exp: &Exp) -> bool {
    match exp {
        Exp::Let(_, _, _) => true,
        _ => false,
    }
}

fn is_function(exp: &Exp) -> bool {
    match exp {
        Exp::Fn(_, _) => true,
        _ => false,
    }
}

#[test]
fn a_loop_is_derived(rt: HostRuntime) -> Result<(), Fail> {
    let exp = while_loop(rt.alloc(), place(0), number(6, 0), number(11, 1))?;
    assert!(rt; is_let(&exp));
    Ok(())
}

#[test]
fn a_selector_is_derived(rt: HostRuntime) -> Result<(), Fail> {
    let exp = selector(rt.alloc(), place(0), Label::Number(1))?;
    assert!(rt; is_function(&exp));
    Ok(())
}

#[test]
fn a_disjunction_is_derived(rt: HostRuntime) -> Result<(), Fail> {
    let exp = disjunction(rt.alloc(), place(0), number(0, 1), number(9, 2))?;
    assert_eq!(rt; operands(&exp), 1);
    Ok(())
}
