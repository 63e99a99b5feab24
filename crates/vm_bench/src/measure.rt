// What a turn of a loop takes.

use crate::loops::{Loop, Version};
use crate::runs::{run_to_end, time_to_end};
use std::alloc::Global;
use std::time::Clock;

/// What a version gives, and the instructions that it takes for a turn.
#[derive(Drop)]
pub struct Measured {
    pub output: String,
    pub instructions: u64,
}

/// Runs a version for so many turns and for twice as many, which give the output: the difference is what the further turns took.
pub fn instructions_a_turn(
    alloc: Global,
    of: &Loop,
    version: Version,
    turns: u16,
) -> anyhow::Result<Measured> {
    let few = run_to_end(alloc, of.image(alloc, version, turns)?)?;
    let many = run_to_end(alloc, of.image(alloc, version, turns.saturating_mul(2))?)?;
    let further = many.steps.saturating_sub(few.steps);
    Ok(Measured {
        output: many.output,
        instructions: further.checked_div(u64::from(turns)).unwrap_or(0),
    })
}

/// The nanoseconds that a turn takes, of so many runs.
pub fn nanos_a_turn(
    alloc: Global,
    clock: &impl Clock,
    of: &Loop,
    version: Version,
    turns: u16,
    runs: u32,
) -> anyhow::Result<u128> {
    let mut nanos = 0u128;
    for _ in 0..runs {
        let image = of.image(alloc, version, turns)?;
        nanos = nanos.saturating_add(time_to_end(alloc, clock, image)?.as_nanos());
    }
    let all_turns = u128::from(turns).saturating_mul(u128::from(runs));
    Ok(nanos.checked_div(all_turns).unwrap_or(0))
}
