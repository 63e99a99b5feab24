// Instances of bodies at new variables.

use crate::read::NONE;
use mlc_base::memory::NoMemory;
use std::alloc::Global;
use std::test::Fail;
use ty_core::mark::Mark;
use ty_core::ty::Head;
use ty_instance::fresh::{instantiate_fresh, put_fresh};
use ty_solve::limit::Limit;
use ty_solve::solver::Solver;

const OUTER: Limit = Limit {
    names: 10,
    level: 1,
};

const INNER: Limit = Limit {
    names: 12,
    level: 2,
};

fn add_variables(s: &mut Solver, count: usize) -> Result<(), NoMemory> {
    for _variable in 0..count {
        let _fresh = s.fresh(Mark::Any, OUTER)?;
    }
    Ok(())
}

/// So many variables.
fn variables(alloc: Global, count: usize) -> Result<Solver, NoMemory> {
    let mut s = Solver::new(alloc)?;
    add_variables(&mut s, count)?;
    Ok(s)
}

fn variable(alloc: Global, s: &mut Solver, v: usize) -> Result<usize, NoMemory> {
    if v < s.subst.slots.len() {
        s.variable(alloc, v)
    } else {
        Ok(NONE)
    }
}

fn arrow(alloc: Global, s: &mut Solver, from: usize, to: usize) -> Result<usize, NoMemory> {
    if from < s.subst.types.len() && to < s.subst.types.len() {
        s.apply(alloc, Head::Function, &[from, to])
    } else {
        Ok(NONE)
    }
}

/// A function from one variable to another.
fn function(alloc: Global, s: &mut Solver, from: usize, to: usize) -> Result<usize, NoMemory> {
    let from = variable(alloc, s, from)?;
    let to = variable(alloc, s, to)?;
    arrow(alloc, s, from, to)
}

/// The instance of a body with two parameters, the second of which admits equality.
fn instance(alloc: Global, s: &mut Solver, body: usize) -> Result<usize, NoMemory> {
    if body < s.subst.types.len() {
        instantiate_fresh(alloc, s, &[Mark::Any, Mark::Equality], body, INNER)
    } else {
        Ok(NONE)
    }
}

/// A body from one variable to another, and the variables of its instance: of six, 0 and 1 are the parameters, 6 and 7 are new, and the
/// others are free and counted from 2.
static INSTANCES: [(usize, usize, usize, usize); 4] = [
    (0, 1, 6, 7),
    (1, 0, 7, 6),
    (2, 3, 0, 1),
    (5, 1, 3, 7),
];

fn instance_is(
    alloc: Global,
    s: &mut Solver,
    row: &(usize, usize, usize, usize),
) -> Result<bool, NoMemory> {
    let body = function(alloc, s, row.0, row.1)?;
    let found = instance(alloc, s, body)?;
    Ok(found == function(alloc, s, row.2, row.3)?)
}

fn instance_is_right(alloc: Global, row: &(usize, usize, usize, usize)) -> Result<bool, NoMemory> {
    let mut s = variables(alloc, 6)?;
    instance_is(alloc, &mut s, row)
}

#[test]
fn parameters_become_new_variables(rt: HostRuntime) -> Result<(), Fail> {
    for row in &INSTANCES {
        assert_eq!(rt; instance_is_right(rt.alloc(), row)?, true);
    }
    Ok(())
}

/// Whether there are two more variables, with the marks and the limit that were asked for.
fn are_new(s: &Solver) -> bool {
    s.subst.slots.len() == 8
        && s.subst.mark_of(6) == Mark::Any
        && s.subst.mark_of(7) == Mark::Equality
        && s.limits.as_slice()
            == [OUTER, OUTER, OUTER, OUTER, OUTER, OUTER, INNER, INNER].as_slice()
}

fn new_variables(alloc: Global) -> Result<bool, NoMemory> {
    let mut s = variables(alloc, 6)?;
    let body = function(alloc, &mut s, 0, 1)?;
    let _instance = instance(alloc, &mut s, body)?;
    Ok(are_new(&s))
}

#[test]
fn new_variables_have_their_marks_and_limits(rt: HostRuntime) -> Result<(), Fail> {
    assert_eq!(rt; new_variables(rt.alloc())?, true);
    Ok(())
}

/// A body with new variables put for the variables 5 and 2.
fn put_new(alloc: Global, s: &mut Solver, body: usize) -> Result<usize, NoMemory> {
    if body < s.subst.types.len() {
        put_fresh(alloc, s, &[Mark::Any, Mark::Equality], body, &[5, 2], INNER)
    } else {
        Ok(NONE)
    }
}

/// A body from one variable to another, and the variables that it has then.
static PUT: [(usize, usize, usize, usize); 3] = [(5, 2, 6, 7), (2, 0, 7, 0), (1, 3, 1, 3)];

fn put_is(
    alloc: Global,
    s: &mut Solver,
    row: &(usize, usize, usize, usize),
) -> Result<bool, NoMemory> {
    let body = function(alloc, s, row.0, row.1)?;
    let found = put_new(alloc, s, body)?;
    Ok(found == function(alloc, s, row.2, row.3)?)
}

fn put_is_right(alloc: Global, row: &(usize, usize, usize, usize)) -> Result<bool, NoMemory> {
    let mut s = variables(alloc, 6)?;
    put_is(alloc, &mut s, row)
}

#[test]
fn scattered_parameters_become_new_variables(rt: HostRuntime) -> Result<(), Fail> {
    for row in &PUT {
        assert_eq!(rt; put_is_right(rt.alloc(), row)?, true);
    }
    Ok(())
}
