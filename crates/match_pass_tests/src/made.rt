// Small programs, and what becomes of them.

use ir_tables::tables::{Constant, Tables};
use match_pass::compile::compile;
use mlc_base::make::{boxed, one};
use mlc_base::memory::NoMemory;
use mlc_base::place::Place;
use mlc_names::label::Label;
use plain_tree::tree::{Exp as Tests, Operation, Step};
use prog_tree::tree::{Atom, Binding, Dec, Exp, Join, Pat, PatField, Rule, Side, Used};
use std::alloc::Global;
use ty_core::mark::Mark;
use ty_core::scheme::Quantified;
use ty_core::ty::Head as Symbol;

pub const PLACE: Place = Place { file: 0, byte: 0 };

pub fn number(value: i32) -> Exp {
    Exp::Atom(Atom::Constant(Constant::Int(value)), 0)
}

pub fn tables(alloc: Global) -> Result<Tables, NoMemory> {
    let mut tables = Tables::new(alloc)?;
    tables
        .types
        .apply(alloc, Symbol::Record(Vec::new(alloc)), &[])?;
    Ok(tables)
}

/// The first attempt of a program of one declaration of a variable.
pub fn made(alloc: Global, exp: Exp) -> Result<Tests, NoMemory> {
    let rule = Rule {
        pat: Pat::Variable(1),
        exp,
    };
    let binding = Binding {
        place: PLACE,
        general: false,
        ty: 0,
    };
    declared(
        alloc,
        Dec::Val(0, one(alloc, (binding, rule))?, Vec::new(alloc)),
    )
}

/// The first attempt of a program of one declaration.
pub fn declared(alloc: Global, dec: Dec) -> Result<Tests, NoMemory> {
    let decs = one(alloc, dec)?;
    let compiled = compile(alloc, tables(alloc)?, &decs)?;
    first_attempt(compiled.body)
}

pub fn first_attempt(tests: Tests) -> Result<Tests, NoMemory> {
    match tests {
        Tests::First(mut attempts, _) => match attempts.pop() {
            Some(first) => Ok(first),
            None => Ok(Tests::Miss),
        },
        other => Ok(other),
    }
}

/// A short word for a step, a digit each: 1 a constant, 2 a use, 3 a call, 4 a primitive, 5 a construction, 6 a record, 7 a block, 8 a test, 9 another.
pub fn kind(step: &Step) -> u64 {
    match step {
        Step::Let(_, Operation::Constant(_)) => 1,
        Step::Let(_, Operation::Use(_, _)) => 2,
        Step::Let(_, Operation::Apply { .. }) => 3,
        Step::Let(_, Operation::Perform { .. }) => 4,
        Step::Let(_, Operation::Construct { .. }) => 5,
        Step::Let(_, Operation::Record { .. }) => 6,
        Step::Block(_, _) => 7,
        Step::Test { .. } => 8,
        _ => 9,
    }
}

/// The kinds of steps, in order.
pub fn kinds(tests: &Tests) -> u64 {
    match tests {
        Tests::Steps(steps, _) => {
            let mut all: u64 = 0;
            for i in 0..steps.len() {
                all = all.saturating_mul(10).saturating_add(kind(&steps[i]));
            }
            all
        }
        _ => 0,
    }
}

pub fn joined(alloc: Global, side: Side, used: Used, count: usize) -> Result<Exp, NoMemory> {
    let mut joins = Vec::new(alloc);
    let join = Join {
        place: PLACE,
        ty: 0,
        pair: 0,
    };
    for _ in 0..count {
        joins.push((join, Exp::Use(used, Vec::new(alloc), 0), number(2)))?;
    }
    let first = boxed(alloc, number(1))?;
    Ok(Exp::Infix(side, first, joins))
}

/// A program of one declaration over one parameter that is generalised.
pub fn general(alloc: Global, pat: Pat, exp: Exp) -> Result<Tests, NoMemory> {
    let mut own = tables(alloc)?;
    let mut parameters = Vec::new(alloc);
    parameters.push(Quantified {
        variable: 0,
        mark: Mark::Any,
    })?;
    own.parameters.push(parameters)?;
    let binding = Binding {
        place: PLACE,
        general: true,
        ty: 0,
    };
    let bindings = one(alloc, (binding, Rule { pat, exp }))?;
    let decs = one(alloc, Dec::Val(0, bindings, Vec::new(alloc)))?;
    let compiled = compile(alloc, own, &decs)?;
    first_attempt(compiled.body)
}

/// A record of two variables.
pub fn two_variables(alloc: Global) -> Result<Pat, NoMemory> {
    let mut fields = Vec::new(alloc);
    for i in 1..3 {
        fields.push(PatField {
            label: Label::Number(i),
            ty: 0,
            pat: Pat::Variable(i as usize),
        })?;
    }
    Ok(Pat::Record(false, fields))
}
