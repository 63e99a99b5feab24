// What each measure takes.

use crate::make::{
    LIST, NONE, Problem, are_unified, deep_types, one, row, scheme_body, shared_types, variable,
};
use mlc_base::memory::NoMemory;
use std::alloc::Global;
use std::time::{Clock, Duration, Instant};
use ty_instance::instantiate::instantiate;
use ty_instance::resolve::resolve;
use ty_solve::subst::Subst;
use ty_table::types::Types;

/// What was answered, and the nanoseconds a node.
#[derive(Clone, Copy)]
pub struct Measured {
    pub answer: &'static str,
    pub nanos: u64,
}

fn per_node(answer: &'static str, took: Duration, nodes: usize) -> Measured {
    let total = u64::try_from(took.as_nanos()).unwrap_or(u64::MAX);
    Measured {
        answer,
        nanos: total.checked_div(nodes as u64).unwrap_or(0),
    }
}

fn are_equal(alloc: Global, problem: &mut Problem) -> bool {
    let left = problem.left;
    let right = problem.right;
    are_unified(alloc, &mut problem.s, left, right)
}

fn time_deep(
    alloc: Global,
    clock: &impl Clock,
    problem: &mut Problem,
    nodes: usize,
) -> anyhow::Result<Measured> {
    let start = Instant::now(clock)?;
    let answer = if are_equal(alloc, problem) {
        "equal"
    } else {
        "refused"
    };
    Ok(per_node(answer, start.elapsed(clock)?, nodes))
}

/// Unifies two types of so many nodes.
pub fn deep(alloc: Global, clock: &impl Clock, nodes: usize) -> anyhow::Result<Measured> {
    let mut problem = deep_types(alloc, nodes)?;
    time_deep(alloc, clock, &mut problem, nodes.saturating_mul(2))
}

/// Whether two types are refused each time.
fn are_refused(alloc: Global, problem: &mut Problem, count: usize) -> bool {
    let mut all = true;
    for _ in 0..count {
        all = !are_equal(alloc, problem) && all;
    }
    all
}

fn time_shared(
    alloc: Global,
    clock: &impl Clock,
    problem: &mut Problem,
    count: usize,
) -> anyhow::Result<Measured> {
    let start = Instant::now(clock)?;
    let answer = if are_refused(alloc, problem, count) {
        "refused"
    } else {
        "equal"
    };
    Ok(per_node(answer, start.elapsed(clock)?, count.saturating_mul(82)))
}

/// Refuses two shared types so many times.
pub fn shared(alloc: Global, clock: &impl Clock, count: usize) -> anyhow::Result<Measured> {
    let mut problem = shared_types(alloc)?;
    time_shared(alloc, clock, &mut problem, count)
}

/// A new variable, once the last one is bound to a list of it. No type where that is refused.
fn link(alloc: Global, s: &mut Subst, last: usize) -> Result<usize, NoMemory> {
    let next = variable(alloc, s)?;
    let list = one(alloc, s, LIST, next)?;
    if are_unified(alloc, s, last, list) {
        Ok(next)
    } else {
        Ok(NONE)
    }
}

/// Binds so many variables, each to a list of the next, and resolves the first.
fn resolved(alloc: Global, s: &mut Subst, count: usize) -> Result<&'static str, NoMemory> {
    let first = variable(alloc, s)?;
    let mut last = first;
    for _ in 0..count {
        last = link(alloc, s, last)?;
    }
    if first < s.types.len() && last < s.types.len() {
        let _resolved = resolve(alloc, s, first)?;
        Ok("resolved")
    } else {
        Ok("refused")
    }
}

fn time_chain(
    alloc: Global,
    clock: &impl Clock,
    s: &mut Subst,
    count: usize,
) -> anyhow::Result<Measured> {
    let start = Instant::now(clock)?;
    let answer = resolved(alloc, s, count)?;
    Ok(per_node(answer, start.elapsed(clock)?, count))
}

/// Binds and resolves a chain of variables.
pub fn chain(alloc: Global, clock: &impl Clock, count: usize) -> anyhow::Result<Measured> {
    let mut s = Subst::new(alloc)?;
    time_chain(alloc, clock, &mut s, count)
}

/// Makes so many rows, each equal to the last.
fn united(alloc: Global, s: &mut Subst, count: usize) -> Result<&'static str, NoMemory> {
    let mut last = row(alloc, s)?;
    let mut all = true;
    for _ in 0..count {
        let next = row(alloc, s)?;
        all = are_unified(alloc, s, last, next) && all;
        last = next;
    }
    Ok(if all { "united" } else { "refused" })
}

fn time_rows(
    alloc: Global,
    clock: &impl Clock,
    s: &mut Subst,
    count: usize,
) -> anyhow::Result<Measured> {
    let start = Instant::now(clock)?;
    let answer = united(alloc, s, count)?;
    Ok(per_node(answer, start.elapsed(clock)?, count))
}

/// Makes and unites rows.
pub fn rows(alloc: Global, clock: &impl Clock, count: usize) -> anyhow::Result<Measured> {
    let mut s = Subst::new(alloc)?;
    time_rows(alloc, clock, &mut s, count)
}

/// An instance of a body at two variables.
fn instance(alloc: Global, types: &mut Types, body: usize, v: usize) -> Result<bool, NoMemory> {
    let first = types.variable(alloc, v.saturating_sub(1))?;
    let second = types.variable(alloc, v.saturating_sub(2))?;
    let len = types.len();
    if body < len && first < len && second < len {
        let made = instantiate(alloc, types, body, &[first, second])?;
        Ok(types.size(made) == types.size(body))
    } else {
        Ok(false)
    }
}

fn all_instances(
    alloc: Global,
    types: &mut Types,
    body: usize,
    count: usize,
) -> Result<&'static str, NoMemory> {
    let mut all = true;
    for v in 0..count {
        all = instance(alloc, types, body, v)? && all;
    }
    Ok(if all { "made" } else { "wrong" })
}

fn time_instances(
    alloc: Global,
    clock: &impl Clock,
    types: &mut Types,
    count: usize,
) -> anyhow::Result<Measured> {
    let body = scheme_body(alloc, types)?;
    let start = Instant::now(clock)?;
    let answer = all_instances(alloc, types, body, count)?;
    Ok(per_node(answer, start.elapsed(clock)?, count.saturating_mul(20)))
}

/// Makes so many instances of a scheme of 20 nodes, each at another two variables.
pub fn instances(alloc: Global, clock: &impl Clock, count: usize) -> anyhow::Result<Measured> {
    let mut types = Types::new(alloc)?;
    time_instances(alloc, clock, &mut types, count)
}
