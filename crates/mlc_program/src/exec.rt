// Compiling a project, writing its image and running it.

ghost use Rattle.std.specs.Prelude.{◌≡◌, ◌≢◌, ◌^◌, ◌≤◌, IfOk, IfErr};
ghost use Rattle.mlc_outside.specs.Store.{with_file};
ghost use Rattle.ir_code.specs.ImageBytes.{IsProgram, image_bytes};
ghost use Rattle.ir_code.specs.Run.{stuck};
ghost use Rattle.mlc_program.specs.CommandOf.{command_of};
ghost use Rattle.mlc_program.specs.Exits.{Exited, Unbuilt};
ghost use Rattle.mlc_program.specs.Outside.{disk, stream};
ghost use Rattle.mlc_program.specs.Running.{Runs};
ghost use Rattle.mlc_program.specs.Statuses.{Compiles, run_by};

use crate::command::Command;
use crate::compile::compile_project;
use crate::exit::Exit;
use heap_vm::stop::Stop;
use heap_vm::vm::Vm;
use ir_code::image::Image;
use ir_code::write::write_image;
use mlc_base::memory::NoMemory;
use mlc_outside::sink::Sink;
use mlc_outside::store::{Store, Wrote};
use std::alloc::Global;

/// Runs an image, which is known not to get stuck.
fn run<O: Sink>(alloc: Global, command: &Command, image: Image, out: &mut O) -> Exit
    requires heap { command.now.heap ≤ 2 ^ 28 }
    requires stack { command.now.stack ≤ 2 ^ 24 }
    requires goes { (run_by (command_of command.now) image).end ≢ stuck }
    ensures { Runs result (command_of command.now) image
        (stream (O.written out.old) (O.faults out.old)) (stream (O.written out.new) (O.faults out.new)) }
{
    match Vm::new(alloc, image, command.heap, command.stack) {
        Err(NoMemory) => Exit::NoMemory,
        Ok(vm) => {
            let mut vm = vm;
            match vm.run(command.steps, out) {
                Stop::Ended => Exit::Ended,
                Stop::Uncaught => Exit::Uncaught(vm),
                Stop::Steps => Exit::StepLimit,
                Stop::NoHeap => Exit::OutOfHeap,
                Stop::NoStack => Exit::OutOfStack,
                Stop::WriteFault => Exit::OutFailed,
                Stop::Stuck => unreachable!(),
            }
        }
    }
}

/// Compiles the project of a command, and writes its image.
fn build<S: Store>(alloc: Global, command: &Command, store: &mut S) -> Result<Image, Exit>
    ensures compiled { IfOk result (λ image. Compiles (S.files store.old) (command_of command.now) image) }
    ensures program { IfOk result (λ image. IsProgram image) }
    ensures written { IfOk result (λ image. S.files store.new
        ≡ with_file (S.files store.old) command.now.output.now (image_bytes image)) }
    ensures exit { IfErr result (λ exit. Unbuilt exit
        (disk (S.files store.old) (S.read_faults store.old) (S.write_faults store.old))
        (disk (S.files store.new) (S.read_faults store.new) (S.write_faults store.new))
        (command_of command.now)) }
{
    match compile_project(alloc, command, store) {
        Err(exit) => Err(exit),
        Ok(image) => match write_image(alloc, &image) {
            Err(NoMemory) => Err(Exit::NoMemory),
            Ok(bytes) => match store.write(alloc, command.output, &bytes) {
                Wrote::Done => Ok(image),
                Wrote::Failed => Err(Exit::StoreFailed),
                Wrote::Memory => Err(Exit::NoMemory),
            },
        },
    }
}

/// Compiles the project of a command, writes its image and runs it.
pub fn exec<S: Store, O: Sink>(alloc: Global, command: &Command, store: &mut S, out: &mut O) -> Exit
    requires heap_least { 2 ^ 10 ≤ command.now.heap }
    requires heap_most { command.now.heap ≤ 2 ^ 28 }
    requires stack_least { 2 ^ 8 ≤ command.now.stack }
    requires stack_most { command.now.stack ≤ 2 ^ 24 }
    ensures { Exited result
        (disk (S.files store.old) (S.read_faults store.old) (S.write_faults store.old))
        (disk (S.files store.new) (S.read_faults store.new) (S.write_faults store.new))
        (stream (O.written out.old) (O.faults out.old)) (stream (O.written out.new) (O.faults out.new))
        (command_of command.now) }
{
    match build(alloc, command, store) {
        Err(exit) => exit,
        Ok(image) => run(alloc, command, image, out),
    }
}
