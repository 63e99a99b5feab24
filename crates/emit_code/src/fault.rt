// Why there is no code.

ghost use Rattle.std.specs.Prelude.{◌≡◌};
ghost use Rattle.emit_code.specs.declared.fault.EmitFault.TheVariants.{Memory};

use mlc_base::memory::NoMemory;
use std::alloc::{AllocError, AllocFailed};

/// Why there is no code.
#[derive(Clone, Copy, PartialEq, Eq, Debug, Drop)]
pub enum EmitFault {
    /// A number or a place that the code names is no word.
    NoWord,
    /// A label is not where the places say.
    Unsettled,
    Memory,
}

impl From<NoMemory> for EmitFault {
    ghost from_gives = { λ _ fault. fault ≡ Memory };

    fn from(_error: NoMemory) -> EmitFault {
        EmitFault::Memory
    }
}

impl From<AllocError> for EmitFault {
    ghost from_gives = { λ _ fault. fault ≡ Memory };

    fn from(_error: AllocError) -> EmitFault {
        EmitFault::Memory
    }
}

impl<T: Drop> From<AllocFailed<T>> for EmitFault {
    ghost from_gives = { λ _ fault. fault ≡ Memory };

    fn from(_error: AllocFailed<T>) -> EmitFault {
        EmitFault::Memory
    }
}
