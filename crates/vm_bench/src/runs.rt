// Runs of programs: how many steps they take, and how long.

use heap_vm::stop::Stop;
use heap_vm::vm::Vm;
use ir_code::image::Image;
use mlc_outside::mem_sink::MemSink;
use std::alloc::Global;
use std::time::{Clock, Duration, Instant};

/// The words of heap and of stack, and the bytes of output, of which a loop needs less.
const HEAP: u32 = 1 << 19;

const STACK: u32 = 1 << 19;

const ROOM: usize = 64;

/// A loop takes fewer steps.
const MOST_STEPS: u64 = 100_000_000;

/// What a program prints, and in how many steps it ends.
#[derive(Drop)]
pub struct Ending {
    pub output: String,
    pub steps: u64,
}

/// How many steps there are to the end, made one by one.
fn count_steps(vm: &mut Vm, out: &mut MemSink) -> anyhow::Result<u64> {
    for steps in 1..MOST_STEPS {
        match vm.run(1, out) {
            Stop::Steps => {}
            Stop::Ended => return Ok(steps),
            stop => anyhow::bail!("the machine stopped: {stop:?}"),
        }
    }
    anyhow::bail!("no end in {MOST_STEPS} steps")
}

/// Runs a program to its end.
pub fn run_to_end(alloc: Global, image: Image) -> anyhow::Result<Ending> {
    let mut vm = Vm::new(alloc, image, HEAP, STACK)?;
    let mut out = MemSink::new(alloc, ROOM, Vec::new(alloc))?;
    let steps = count_steps(&mut vm, &mut out)?;
    let output = String::from_utf8_lossy(alloc, out.bytes())?;
    Ok(Ending { output, steps })
}

/// How long a program takes to its end, in one run.
pub fn time_to_end(alloc: Global, clock: &impl Clock, image: Image) -> anyhow::Result<Duration> {
    let mut vm = Vm::new(alloc, image, HEAP, STACK)?;
    let mut out = MemSink::new(alloc, ROOM, Vec::new(alloc))?;
    let start = Instant::now(clock)?;
    match vm.run(u64::MAX, &mut out) {
        Stop::Ended => Ok(start.elapsed(clock)?),
        stop => anyhow::bail!("the machine stopped: {stop:?}"),
    }
}
