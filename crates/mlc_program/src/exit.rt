// How the program ends, before it is told.

ghost use Rattle.std.specs.Prelude.{◌≡◌};
ghost use Rattle.mlc_program.specs.declared.exit.Exit.TheVariants.{NoMemory as no_memory};

use heap_vm::vm::Vm;
use mlc_base::memory::NoMemory;

/// How the program ends.
#[derive(Drop)]
pub enum Exit {
    /// The run ended.
    Ended,
    /// An exception that nothing handles ended the run of this machine.
    Uncaught(Vm),
    /// The run goes on after the steps that were asked for.
    StepLimit,
    /// The heap was not enough for the run.
    OutOfHeap,
    /// The stack was not enough for the run.
    OutOfStack,
    /// The project is refused, as this line tells.
    Refused(String),
    /// A path that is needed has no file.
    Missing(String),
    /// A path that is needed could not be read.
    ReadFailed(String),
    /// The image could not be written.
    StoreFailed,
    /// The output could not be written.
    OutFailed,
    /// There was no memory.
    NoMemory,
}

impl From<NoMemory> for Exit {
    ghost from_gives = { λ _ exit. exit ≡ no_memory };

    fn from(_error: NoMemory) -> Exit {
        Exit::NoMemory
    }
}
