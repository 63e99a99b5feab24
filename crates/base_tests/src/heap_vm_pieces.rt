// Runs in pieces, and output in pieces.

use crate::heap_vm_machine::{image, machine, sink};
use heap_vm::stop::Stop;
use heap_vm::vm::Vm;
use ir_code::instr::Instr;
use mlc_base::memory::NoMemory;
use mlc_outside::mem_sink::MemSink;
use std::alloc::Global;
use std::process::Abort;
use std::test::Fail;

/// Counts down from 9 in slot 0, and prints each number.
const COUNTDOWN: [Instr; 8] = [
    Instr::Li { dst: 0, value: 9 },
    Instr::Li { dst: 1, value: 1 },
    Instr::Brz { test: 0, target: 7 },
    Instr::IText { dst: 2, src: 0 },
    Instr::Print { text: 2 },
    Instr::WSub {
        dst: 0,
        left: 0,
        right: 1,
    },
    Instr::Jmp { target: 2 },
    Instr::End,
];

/// The answer of the last of at most 61 runs of so many steps, each after one that answered `Steps`.
fn run_on(vm: &mut Vm, size: u64, out: &mut MemSink) -> Stop {
    let mut stop = vm.run(size, out);
    for _ in 0..60 {
        if stop == Stop::Steps {
            stop = vm.run(size, out);
        }
    }
    stop
}

/// The answer of the countdown in runs of so many steps, whether it writes this, and the answer of one more run.
fn count_down(
    rt: &impl Abort,
    alloc: Global,
    size: u64,
    output: &str,
    out: &mut MemSink,
) -> Result<(Stop, bool, Stop), NoMemory> {
    let mut vm = machine(rt, alloc, &[], &COUNTDOWN)?;
    let stop = run_on(&mut vm, size, out);
    let is_written = out.bytes() == output.as_bytes();
    Ok((stop, is_written, vm.run(9, out)))
}

/// The countdown in runs of so many steps ends like this, and so answers one more run.
fn assert_counts_down(
    rt: &impl Abort,
    alloc: Global,
    size: u64,
    want: Stop,
    output: &str,
) -> Result<(), NoMemory> {
    let mut out = sink(alloc, 0)?;
    let (stop, is_written, again) = count_down(rt, alloc, size, output, &mut out)?;
    assert_eq!(rt; stop, want, "at {size}");
    assert!(rt; is_written, "at {size}");
    assert_eq!(rt; again, want, "at {size}");
    Ok(())
}

#[test]
fn a_run_in_pieces_is_the_run(rt: HostRuntime) -> Result<(), Fail> {
    for size in 1..60 {
        assert_counts_down(&rt, rt.alloc(), size, Stop::Ended, "987654321")?;
    }
    Ok(())
}

#[test]
fn no_steps_do_nothing(rt: HostRuntime) -> Result<(), Fail> {
    assert_counts_down(&rt, rt.alloc(), 0, Stop::Steps, "")?;
    Ok(())
}

/// The answers of two runs of the countdown.
fn two_runs(rt: &impl Abort, alloc: Global, out: &mut MemSink) -> Result<(Stop, Stop), NoMemory> {
    let mut vm = machine(rt, alloc, &[], &COUNTDOWN)?;
    let stop = vm.run(48, out);
    Ok((stop, vm.run(1, out)))
}

#[test]
fn each_step_counts_also_the_one_that_stops(rt: HostRuntime) -> Result<(), Fail> {
    let mut out = sink(rt.alloc(), 0)?;
    let (first, second) = two_runs(&rt, rt.alloc(), &mut out)?;
    assert_eq!(rt; first, Stop::Steps);
    assert_eq!(rt; second, Stop::Ended);
    Ok(())
}

const PRINTS: [Instr; 4] = [
    Instr::Print { text: 0 },
    Instr::Li { dst: 0, value: 1 },
    Instr::Print { text: 0 },
    Instr::End,
];

/// A machine with 8 words of heap and of stack that prints the empty string at 0, and then 130 bytes at 1.
fn printing(rt: &impl Abort, alloc: Global) -> Result<Vm, NoMemory> {
    let mut constants = vec![in alloc; 97u32; 132]?;
    constants[0] = 0;
    constants[1] = 130;
    let image = image(rt, alloc, constants.as_slice(), &PRINTS)?;
    Vm::new(alloc, image, 8, 8)
}

/// The answers of two runs, and how many bytes were written after the first.
fn print(
    rt: &impl Abort,
    alloc: Global,
    out: &mut MemSink,
) -> Result<(Stop, usize, Stop), NoMemory> {
    let mut vm = printing(rt, alloc)?;
    let stop = vm.run(9, out);
    let written = out.bytes().len();
    Ok((stop, written, vm.run(9, out)))
}

/// What a run answers where the call with this number fails, and after how many bytes; and the same of the next run.
fn sent(
    rt: &impl Abort,
    alloc: Global,
    fails: u64,
) -> Result<(Stop, usize, Stop, usize), NoMemory> {
    let mut out = sink(alloc, fails)?;
    let (stop, written, again) = print(rt, alloc, &mut out)?;
    Ok((stop, written, again, out.bytes().len()))
}

/// Where the call with this number fails, a run answers this after so many bytes, and so does the next one.
fn assert_sends(
    rt: &impl Abort,
    alloc: Global,
    fails: u64,
    stop: Stop,
    bytes: usize,
) -> Result<(), NoMemory> {
    let (first, written, second, still) = sent(rt, alloc, fails)?;
    assert!(rt; first == stop && second == stop, "at {fails}");
    assert!(rt; written == bytes && still == bytes, "at {fails}");
    Ok(())
}

#[test]
fn output_goes_in_pieces_up_to_the_one_that_fails(rt: HostRuntime) -> Result<(), Fail> {
    for (fails, stop, bytes) in [
        (1, Stop::WriteFault, 0),
        (2, Stop::WriteFault, 64),
        (3, Stop::WriteFault, 128),
        (4, Stop::Ended, 130),
    ] {
        assert_sends(&rt, rt.alloc(), fails, stop, bytes)?;
    }
    Ok(())
}
