// The name of the packet that no handler took.

ghost use Rattle.std.specs.Prelude.{◌≡◌, IfOk};
ghost use Rattle.ir_code.specs.Run.{run_of};
ghost use Rattle.heap_vm.specs.Told.{TellsFirst};

use crate::heap_vm_machine::{image, sink};
use heap_vm::stop::Stop;
use heap_vm::vm::Vm;
use ir_code::image::Image;
use ir_code::instr::Instr;
use mlc_base::memory::NoMemory;
use mlc_outside::mem_sink::MemSink;
use mlc_outside::sink::{Put, Sink};
use std::alloc::Global;
use std::process::Abort;
use std::test::Fail;

/// The first run of an image and the name that it leaves, as a caller sees them.
fn first_run<O: Sink, E: Sink>(
    alloc: Global,
    image: Image,
    steps: u64,
    out: &mut O,
    err: &mut E,
) -> Result<(Stop, Put), NoMemory>
    ensures { IfOk result (λ told.
        TellsFirst told.0 told.1 (run_of image 1024 256 steps)
        (O.written out.old) (O.written out.new) (O.faults out.old) (O.faults out.new)
        (E.written err.old) (E.written err.new)) }
{
    let mut vm = Vm::new(alloc, image, 1024, 256)?;
    let stop = vm.run(steps, out);
    let put = vm.put_name(err);
    Ok((stop, put))
}

// "No" at 0, its address at 3, and a packet of that name at 4.
const CONSTANTS: [u32; 6] = [2, 78, 111, 0, 3, 0];

const RAISE: [Instr; 2] = [Instr::Li { dst: 0, value: 4 }, Instr::Raise { packet: 0 }];

/// A run of so many steps, and what is told of the packet where the call with this number fails.
#[derive(Clone, Copy)]
struct Row {
    steps: u64,
    fails: u64,
    stop: Stop,
    put: Put,
    name: &'static str,
}

/// What the first run of the image and the name after it answer.
fn run(
    rt: &impl Abort,
    alloc: Global,
    steps: u64,
    out: &mut MemSink,
    err: &mut MemSink,
) -> Result<(Stop, Put), NoMemory> {
    match image(rt, alloc, &CONSTANTS, &RAISE) {
        Ok(image) => first_run(alloc, image, steps, out, err),
        Err(e) => Err(e),
    }
}

/// What is answered, and whether the row's name is told.
fn told(rt: &impl Abort, alloc: Global, row: &Row) -> Result<(Stop, Put, bool), NoMemory> {
    let mut out = sink(alloc, 0)?;
    let mut err = sink(alloc, row.fails)?;
    let (stop, put) = run(rt, alloc, row.steps, &mut out, &mut err)?;
    Ok((stop, put, err.bytes() == row.name.as_bytes()))
}

fn check(rt: &impl Abort, alloc: Global, row: &Row) -> Result<(), NoMemory> {
    let (stop, put, is_named) = told(rt, alloc, row)?;
    assert_eq!(rt; stop, row.stop);
    assert_eq!(rt; put, row.put);
    assert!(rt; is_named);
    Ok(())
}

const ROWS: [Row; 3] = [
    Row {
        steps: 9,
        fails: 2,
        stop: Stop::Uncaught,
        put: Put::Done,
        name: "No",
    },
    Row {
        steps: 9,
        fails: 1,
        stop: Stop::Uncaught,
        put: Put::Failed,
        name: "",
    },
    Row {
        steps: 1,
        fails: 1,
        stop: Stop::Steps,
        put: Put::Done,
        name: "",
    },
];

#[test]
fn an_uncaught_packet_has_its_name_and_no_other_stop_has_one(rt: HostRuntime) -> Result<(), Fail> {
    for row in ROWS.iter() {
        check(&rt, rt.alloc(), row)?;
    }
    Ok(())
}
