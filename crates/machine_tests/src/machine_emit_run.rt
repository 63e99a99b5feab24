// Runs of the images of programs.

ghost use Rattle.std.specs.Prelude.{◌≤◌, ◌^◌};

use emit_known::exceptions::exceptions_of;
use heap_vm::stop::Stop;
use heap_vm::vm::Vm;
use machine_emit::emit::emit;
use machine_emit::refused::EmitRefused;
use mlc_names::names::Names;
use mlc_outside::mem_sink::MemSink;
use ssa_form::form::Ssa;
use ssa_words::build::{functions, tables};
use ssa_words::standard::are_standard;
use ssa_words::words::{Given, Op};
use std::alloc::Global;
use std::process::Abort;

/// The steps that a run may take.
const STEPS: u64 = 1_000_000_000;

/// Room for what should not be written.
const ROOM: usize = 100;

/// A machine of so many words of heap and stack.
#[derive(Clone, Copy)]
pub struct Size {
    pub heap: u32,
    pub stack: u32,
}

pub const AMPLE: Size = Size {
    heap: 1000,
    stack: 1000,
};

/// The image of a program, in a machine.
fn machine(alloc: Global, given: &Given, ops: &[Op], size: Size) -> Result<Vm, EmitRefused>
    requires heap { size.heap ≤ 2 ^ 28 }
    requires stack { size.stack ≤ 2 ^ 24 }
{
    let program = Ssa {
        tables: tables(alloc, *given)?,
        funs: functions(alloc, ops)?,
        expansion: 1,
    };
    let names = Names::new(alloc)?;
    let found = exceptions_of(alloc, &program.tables, &program.funs)?;
    if !are_standard(&found) {
        return Err(EmitRefused::Memory);
    }
    let image = emit(alloc, &names, &program)?;
    Ok(Vm::new(alloc, image, size.heap, size.stack)?)
}

/// How a run ends, and whether it writes this and leaves a packet of this name.
pub fn run(
    alloc: Global,
    given: &Given,
    ops: &[Op],
    size: Size,
    output: &[u8],
    name: &str,
) -> Result<(Stop, bool, bool), EmitRefused>
    requires heap { size.heap ≤ 2 ^ 28 }
    requires stack { size.stack ≤ 2 ^ 24 }
{
    let mut out = MemSink::new(alloc, ROOM.saturating_add(output.len()), Vec::new(alloc))?;
    let mut err = MemSink::new(alloc, ROOM, Vec::new(alloc))?;
    let mut vm = machine(alloc, given, ops, size)?;
    let stop = vm.run(STEPS, &mut out);
    vm.put_name(&mut err);
    Ok((stop, out.bytes() == output, err.bytes() == name.as_bytes()))
}

/// It ends in a machine of this size, and has written this.
pub fn ends_in(
    rt: &impl Abort,
    alloc: Global,
    given: &Given,
    ops: &[Op],
    size: Size,
    output: &str,
) -> Result<(), EmitRefused>
    requires heap { size.heap ≤ 2 ^ 28 }
    requires stack { size.stack ≤ 2 ^ 24 }
{
    let (stop, written, named) = run(alloc, given, ops, size, output.as_bytes(), "")?;
    assert_eq!(rt; stop, Stop::Ended);
    assert!(rt; written);
    assert!(rt; named);
    Ok(())
}

pub fn ends(
    rt: &impl Abort,
    alloc: Global,
    given: &Given,
    ops: &[Op],
    output: &str,
) -> Result<(), EmitRefused> {
    ends_in(rt, alloc, given, ops, AMPLE, output)
}

/// An exception of this name is not handled.
pub fn uncaught(
    rt: &impl Abort,
    alloc: Global,
    given: &Given,
    ops: &[Op],
    output: &str,
    name: &str,
) -> Result<(), EmitRefused> {
    let (stop, written, named) = run(alloc, given, ops, AMPLE, output.as_bytes(), name)?;
    assert_eq!(rt; stop, Stop::Uncaught);
    assert!(rt; written);
    assert!(rt; named);
    Ok(())
}

/// The least machine in which a program ends so.
#[derive(Clone, Copy)]
pub struct Least {
    pub size: Size,
    pub end: Stop,
    pub output: &'static str,
    pub name: &'static str,
}

/// How a run ends in a machine of this size, whatever it writes.
fn stops(
    rt: &impl Abort,
    alloc: Global,
    given: &Given,
    ops: &[Op],
    size: Size,
    wanted: Stop,
) -> Result<(), EmitRefused>
    requires heap { size.heap ≤ 2 ^ 28 }
    requires stack { size.stack ≤ 2 ^ 24 }
{
    let (stop, _, _) = run(alloc, given, ops, size, b"", "")?;
    assert_eq!(rt; stop, wanted);
    Ok(())
}

/// In a machine with a word of heap less there is no heap, and in one with a word of stack less no stack.
fn needs(
    rt: &impl Abort,
    alloc: Global,
    given: &Given,
    ops: &[Op],
    size: Size,
) -> Result<(), EmitRefused>
    requires heap { size.heap ≤ 2 ^ 28 }
    requires stack { size.stack ≤ 2 ^ 24 }
{
    if size.heap > 0 {
        let less = Size {
            heap: size.heap - 1,
            stack: size.stack,
        };
        stops(rt, alloc, given, ops, less, Stop::NoHeap)?;
    }
    if size.stack > 0 {
        let less = Size {
            heap: size.heap,
            stack: size.stack - 1,
        };
        stops(rt, alloc, given, ops, less, Stop::NoStack)?;
    }
    Ok(())
}

/// A program ends so in this machine, and in none with a word of heap or of stack less.
pub fn is_least(
    rt: &impl Abort,
    alloc: Global,
    given: &Given,
    ops: &[Op],
    least: Least,
) -> Result<(), EmitRefused>
    requires heap { least.size.heap ≤ 2 ^ 28 }
    requires stack { least.size.stack ≤ 2 ^ 24 }
{
    let Least {
        size,
        end,
        output,
        name,
    } = least;
    let (stop, written, named) = run(alloc, given, ops, size, output.as_bytes(), name)?;
    assert_eq!(rt; stop, end);
    assert!(rt; written);
    assert!(rt; named);
    needs(rt, alloc, given, ops, size)
}
