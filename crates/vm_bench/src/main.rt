// How many instructions of the word machine a turn of some loops takes: as `emit` makes them of SSA form, and as the best code by hand.
#![tactic(auto)]

mod by_hand;
mod emitted;
mod exception;
mod list;
mod loops;
mod measure;
mod recursion;
mod reference;
mod runs;
mod tail_call;

use crate::loops::{Loop, Version};
use crate::measure::{instructions_a_turn, nanos_a_turn};
use std::env;
use std::process::ExitCode;

/// The most turns: of twice as many no integer is too large, and no heap or stack.
const MOST_TURNS: u16 = 30_000;

/// What the command line asks for.
#[derive(Clone, Copy)]
struct Wanted {
    turns: u16,
    /// How many runs of so many turns are timed.
    runs: u32,
}

/// Prints the instructions a turn of both versions, which are to give the same.
fn compare(rt: &HostRuntime, of: &Loop, turns: u16) -> anyhow::Result<()> {
    let emitted = instructions_a_turn(rt.alloc(), of, Version::Emitted, turns)?;
    let by_hand = instructions_a_turn(rt.alloc(), of, Version::ByHand, turns)?;
    if emitted.output.as_str() != by_hand.output.as_str() {
        anyhow::bail!("{}: {} by hand", emitted.output, by_hand.output);
    }
    println!(rt;
        "{}: {} emitted, {} by hand; both give {}",
        of.name, emitted.instructions, by_hand.instructions, by_hand.output
    )?;
    Ok(())
}

/// Prints the time that a turn of both versions takes.
fn time(rt: &HostRuntime, of: &Loop, wanted: Wanted) -> anyhow::Result<()> {
    let Wanted { turns, runs } = wanted;
    let emitted = nanos_a_turn(rt.alloc(), rt, of, Version::Emitted, turns, runs)?;
    let by_hand = nanos_a_turn(rt.alloc(), rt, of, Version::ByHand, turns, runs)?;
    println!(rt; "    {emitted} ns and {by_hand} ns")?;
    Ok(())
}

fn report(rt: &HostRuntime, of: &Loop, wanted: Wanted) -> anyhow::Result<()> {
    compare(rt, of, wanted.turns)?;
    if wanted.runs > 0 {
        time(rt, of, wanted)?;
    }
    Ok(())
}

fn read_wanted(rt: &HostRuntime) -> anyhow::Result<Wanted> {
    let mut words = env::args(rt)?;
    let turns = words.nth(1).and_then(|word| word.parse::<u16>().ok());
    let runs = words.next().and_then(|word| word.parse::<u32>().ok());
    Ok(Wanted {
        turns: turns.unwrap_or(0),
        runs: runs.unwrap_or(0),
    })
}

fn main(rt: HostRuntime) -> anyhow::Result<ExitCode> {
    let wanted = read_wanted(&rt)?;
    if wanted.turns == 0 || wanted.turns > MOST_TURNS {
        eprintln!(rt; "usage: vm_bench TURNS [RUNS], with 1 to {MOST_TURNS} turns")?;
        return Ok(ExitCode::from(64));
    }
    report(&rt, &tail_call::LOOP, wanted)?;
    report(&rt, &recursion::LOOP, wanted)?;
    report(&rt, &list::LOOP, wanted)?;
    report(&rt, &reference::LOOP, wanted)?;
    report(&rt, &exception::LOOP, wanted)?;
    Ok(ExitCode::SUCCESS)
}
