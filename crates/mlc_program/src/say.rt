// What is told on err.

ghost use Rattle.std.specs.Prelude.{◌≡◌, ◌++◌};
ghost use Rattle.heap_vm.specs.Loaded.{told_name};
ghost use Rattle.mlc_program.specs.Exits.{status_of, line_of};
ghost use Rattle.mlc_program.specs.Statuses.{Told, uncaught_line};

use crate::exit::Exit;
use heap_vm::vm::Vm;
use mlc_outside::sink::{Put, Sink};

/// Sends a line; a failing sink is let be.
pub fn say<E: Sink>(err: &mut E, line: &str)
    ensures { Told line.now (E.written err.old) (E.written err.new) (E.faults err.old) (E.faults err.new) }
{
    let _ = err.put(line.as_bytes());
}

/// Sends a line in two parts; a failing sink is let be.
fn say_both<E: Sink>(err: &mut E, first: &str, second: &str)
    ensures { Told (first.now ++ second.now) (E.written err.old) (E.written err.new) (E.faults err.old) (E.faults err.new) }
{
    match err.put(first.as_bytes()) {
        Put::Failed => {}
        Put::Done => {
            let _ = err.put(second.as_bytes());
        }
    }
}

/// Sends the line that tells of the exception that ended a machine's run; a failing sink is let be.
fn say_uncaught<E: Sink>(err: &mut E, vm: &Vm)
    ensures { Told (uncaught_line (told_name vm.now.stop vm.now.state))
        (E.written err.old) (E.written err.new) (E.faults err.old) (E.faults err.new) }
{
    match err.put("unhandled exception: ".as_bytes()) {
        Put::Failed => {}
        Put::Done => match vm.put_name(err) {
            Put::Failed => {}
            Put::Done => say(err, "\n"),
        },
    }
}

/// Tells how the program ends, and gives the status.
pub fn tell<E: Sink>(exit: Exit, err: &mut E) -> u8
    ensures status { result ≡ status_of exit }
    ensures line { Told (line_of exit) (E.written err.old) (E.written err.new) (E.faults err.old) (E.faults err.new) }
{
    match exit {
        Exit::Ended => 0,
        Exit::Uncaught(vm) => {
            say_uncaught(err, &vm);
            1
        }
        Exit::Refused(line) => {
            say(err, line.as_str());
            2
        }
        Exit::StepLimit => {
            say(err, "step limit\n");
            3
        }
        Exit::OutOfHeap => {
            say(err, "out of heap\n");
            4
        }
        Exit::OutOfStack => {
            say(err, "out of stack\n");
            5
        }
        Exit::Missing(path) => {
            say_both(err, path.as_str(), ": no such file\n");
            6
        }
        Exit::ReadFailed(path) => {
            say_both(err, path.as_str(), ": read failed\n");
            7
        }
        Exit::StoreFailed | Exit::OutFailed => {
            say(err, "write failed\n");
            8
        }
        Exit::NoMemory => {
            say(err, "out of memory\n");
            11
        }
    }
}
