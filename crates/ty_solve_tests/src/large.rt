// Large types, and those that share their parts.

use crate::read::{LIST, NONE, answer, bare_answer, one, pair, variable, variables};
use mlc_base::memory::NoMemory;
use std::alloc::Global;
use std::test::Fail;
use ty_core::mark::Mark;
use ty_core::name::TyName;
use ty_core::ty::Head;
use ty_solve::subst::Subst;

/// The variable v under `depth` pairs of a type with itself.
fn doubled(alloc: Global, s: &mut Subst, v: usize, depth: u32) -> Result<usize, NoMemory> {
    let mut last = variable(alloc, s, v)?;
    for _ in 0..depth {
        last = pair(alloc, s, last, last)?;
    }
    Ok(last)
}

/// What two types answer that are equal once the variables 0 and 1 are.
fn doubled_told(alloc: Global, s: &mut Subst, depth: u32) -> Result<&'static str, NoMemory> {
    let left = doubled(alloc, s, 0, depth)?;
    let right = doubled(alloc, s, 1, depth)?;
    answer(alloc, s, left, right)
}

fn doubled_answer(alloc: Global, depth: u32) -> Result<&'static str, NoMemory> {
    let mut s = variables(alloc, "..")?;
    doubled_told(alloc, &mut s, depth)
}

#[test]
fn shared_parts_are_compared_once(rt: HostRuntime) -> Result<(), Fail> {
    for (depth, expected) in [(15, "ok"), (16, "large"), (40, "large")] {
        assert_eq!(rt; doubled_answer(rt.alloc(), depth)?, expected);
    }
    Ok(())
}

/// A function type with `count` equal parts.
fn wide(alloc: Global, s: &mut Subst, part: usize, count: usize) -> Result<usize, NoMemory> {
    let mut parts = Vec::new(alloc);
    for _part in 0..count {
        parts.push(part)?;
    }
    if part < s.types.len() {
        s.apply(alloc, Head::Function, &parts)
    } else {
        Ok(NONE)
    }
}

/// What the variable 0 and a type of so many nodes answer.
fn wide_told(alloc: Global, s: &mut Subst, nodes: usize) -> Result<&'static str, NoMemory> {
    let first = variable(alloc, s, 0)?;
    let int = one(alloc, s, TyName::INT, NONE)?;
    let wide = wide(alloc, s, int, nodes.saturating_sub(1))?;
    answer(alloc, s, first, wide)
}

fn wide_answer(alloc: Global, nodes: usize) -> Result<&'static str, NoMemory> {
    let mut s = variables(alloc, "..")?;
    wide_told(alloc, &mut s, nodes)
}

#[test]
fn a_type_has_at_most_65536_nodes(rt: HostRuntime) -> Result<(), Fail> {
    for (nodes, expected) in [(65_536, "ok"), (65_537, "large")] {
        assert_eq!(rt; wide_answer(rt.alloc(), nodes)?, expected);
    }
    Ok(())
}

/// The variable v under `depth` lists.
fn lists(alloc: Global, s: &mut Subst, v: usize, depth: u32) -> Result<usize, NoMemory> {
    let mut last = variable(alloc, s, v)?;
    for _ in 0..depth {
        last = one(alloc, s, LIST, last)?;
    }
    Ok(last)
}

/// Whether two deep types are made equal, and one is refused with its own variable.
fn deep_told(alloc: Global, s: &mut Subst) -> Result<bool, NoMemory> {
    let left = lists(alloc, s, 0, 65_535)?;
    let right = lists(alloc, s, 1, 65_535)?;
    let variable = variable(alloc, s, 1)?;
    Ok(
        bare_answer(alloc, s, left, right) == "ok"
            && bare_answer(alloc, s, variable, left) == "circular",
    )
}

fn deep_is_right(alloc: Global) -> Result<bool, NoMemory> {
    let mut s = variables(alloc, "..")?;
    deep_told(alloc, &mut s)
}

#[test]
fn types_65535_deep_are_made_equal(rt: HostRuntime) -> Result<(), Fail> {
    assert_eq!(rt; deep_is_right(rt.alloc())?, true);
    Ok(())
}

/// A new variable as a type, once the last one is bound to a list of it.
fn link(alloc: Global, s: &mut Subst, last: usize) -> Result<usize, NoMemory> {
    let v = s.fresh(Mark::Any)?;
    let next = variable(alloc, s, v)?;
    let list = one(alloc, s, LIST, next)?;
    if bare_answer(alloc, s, last, list) == "ok" {
        Ok(next)
    } else {
        Ok(NONE)
    }
}

/// Whether variables are bound, each to a list of the next, and the last is refused with the first.
fn chain_told(alloc: Global, s: &mut Subst, count: usize) -> Result<bool, NoMemory> {
    let first = variable(alloc, s, 0)?;
    let mut last = first;
    for _ in 0..count {
        last = link(alloc, s, last)?;
    }
    Ok(
        bare_answer(alloc, s, last, first) == "circular"
            && bare_answer(alloc, s, first, first) == "ok",
    )
}

fn chain_is_right(alloc: Global) -> Result<bool, NoMemory> {
    let mut s = variables(alloc, ".")?;
    chain_told(alloc, &mut s, 10_000)
}

#[test]
fn a_chain_of_ten_thousand(rt: HostRuntime) -> Result<(), Fail> {
    assert_eq!(rt; chain_is_right(rt.alloc())?, true);
    Ok(())
}
