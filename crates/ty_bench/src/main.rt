// Times types in a table: how long each node takes to unify, to resolve and to instantiate.
#![tactic(auto)]

mod make;
mod measure;

use crate::measure::{Measured, chain, deep, instances, rows, shared};
use std::env;
use std::process::ExitCode;

/// How much is measured.
#[derive(Clone, Copy)]
struct Sizes {
    /// The nodes of a deep type.
    nodes: usize,
    /// How often a shared type is refused.
    refusals: usize,
    /// The variables of a chain.
    variables: usize,
    /// The rows that are made equal.
    rows: usize,
    /// The instances of a scheme of 20 nodes.
    instances: usize,
}

const FULL: Sizes = Sizes {
    nodes: 60_000,
    refusals: 1_000,
    variables: 10_000,
    rows: 10_000,
    instances: 100_000,
};

const SMALL: Sizes = Sizes {
    nodes: 600,
    refusals: 10,
    variables: 100,
    rows: 100,
    instances: 1_000,
};

fn print(rt: &HostRuntime, name: &str, measured: Measured, with_times: bool) -> anyhow::Result<()> {
    let Measured { answer, nanos } = measured;
    if with_times {
        println!(rt; "{name}: {answer}, {nanos} ns a node")?;
    } else {
        println!(rt; "{name}: {answer}")?;
    }
    Ok(())
}

fn main(rt: HostRuntime) -> anyhow::Result<ExitCode> {
    let small = env::args(&rt)?
        .nth(1)
        .is_some_and(|word| word.as_str() == "small");
    let sizes = if small { SMALL } else { FULL };
    let deep = deep(rt.alloc(), &rt, sizes.nodes)?;
    print(&rt, "two deep types", deep, !small)?;
    let shared = shared(rt.alloc(), &rt, sizes.refusals)?;
    print(
        &rt,
        "two shared types of 2^40 written nodes",
        shared,
        !small,
    )?;
    let bound = chain(rt.alloc(), &rt, sizes.variables)?;
    print(&rt, "a chain of bindings, resolved", bound, !small)?;
    let united = rows(rt.alloc(), &rt, sizes.rows)?;
    print(&rt, "rows, each united with the last", united, !small)?;
    let instances = instances(rt.alloc(), &rt, sizes.instances)?;
    print(&rt, "instances of a scheme of 20 nodes", instances, !small)?;
    Ok(ExitCode::SUCCESS)
}
