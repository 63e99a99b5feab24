// Machines, and what a run of them answers and writes.

use heap_vm::stop::Stop;
use heap_vm::vm::Vm;
use ir_code::image::Image;
use ir_code::instr::Instr;
use mlc_base::memory::NoMemory;
use mlc_outside::mem_sink::MemSink;
use std::alloc::Global;
use std::process::Abort;

pub const LEAST: u32 = 0x8000_0000;

pub const MOST: u32 = 0x7fff_ffff;

pub const MINUS_ONE: u32 = 0xffff_ffff;

/// A program, and what a run of it answers and writes.
#[derive(Clone, Copy)]
pub struct Row {
    pub constants: &'static [u32],
    pub code: &'static [Instr],
    pub stop: Stop,
    pub output: &'static str,
}

/// An image of few constants and few instructions.
pub fn image(
    rt: &impl Abort,
    alloc: Global,
    constants: &[u32],
    code: &[Instr],
) -> Result<Image, NoMemory> {
    assert!(rt; constants.len() < 1000);
    assert!(rt; code.len() < 1000);
    let constants = constants.to_vec(alloc)?;
    let code = code.to_vec(alloc)?;
    Ok(Image::new(constants, code))
}

/// A machine at the start of such an image.
pub fn machine(
    rt: &impl Abort,
    alloc: Global,
    constants: &[u32],
    code: &[Instr],
) -> Result<Vm, NoMemory> {
    let image = image(rt, alloc, constants, code)?;
    Vm::new(alloc, image, 1024, 256)
}

/// A sink of whose calls the one with this number fails, counted from 1.
pub fn sink(alloc: Global, fails: u64) -> Result<MemSink, NoMemory> {
    let fails = [fails].to_vec(alloc)?;
    MemSink::new(alloc, 1000, fails)
}

/// What a run of at most 1000 steps answers.
fn run(
    rt: &impl Abort,
    alloc: Global,
    constants: &[u32],
    code: &[Instr],
    out: &mut MemSink,
) -> Result<Stop, NoMemory> {
    let mut vm = machine(rt, alloc, constants, code)?;
    Ok(vm.run(1000, out))
}

/// What such a run answers, and whether it writes this.
fn told(
    rt: &impl Abort,
    alloc: Global,
    constants: &[u32],
    code: &[Instr],
    output: &str,
) -> Result<(Stop, bool), NoMemory> {
    let mut out = sink(alloc, 0)?;
    let stop = run(rt, alloc, constants, code, &mut out)?;
    Ok((stop, out.bytes() == output.as_bytes()))
}

/// A run of at most 1000 steps answers and writes this.
pub fn assert_runs(
    rt: &impl Abort,
    alloc: Global,
    constants: &[u32],
    code: &[Instr],
    stop: Stop,
    output: &str,
) -> Result<(), NoMemory> {
    let (stopped, is_written) = told(rt, alloc, constants, code, output)?;
    assert_eq!(rt; stopped, stop);
    assert!(rt; is_written, "{output}");
    Ok(())
}

/// So does the run of each row.
pub fn assert_all_run(rt: &impl Abort, alloc: Global, rows: &[Row]) -> Result<(), NoMemory> {
    for row in rows {
        assert_runs(rt, alloc, row.constants, row.code, row.stop, row.output)?;
    }
    Ok(())
}
