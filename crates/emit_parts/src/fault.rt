// Why a walk has no code.

ghost use Rattle.std.specs.Prelude.{◌≢◌};
ghost use Rattle.emit_parts.specs.declared.fault.WalkFault.TheVariants.{Unsettled};

use emit_code::fault::EmitFault;
use std::alloc::{AllocError, AllocFailed};

/// Why a walk has no code.
#[derive(Clone, Copy, PartialEq, Eq, Debug, Drop)]
pub enum WalkFault {
    /// A number or a place that the code names is no word.
    NoWord,
    /// A label is not where the places say.
    Unsettled,
    Memory,
}

impl From<EmitFault> for WalkFault {
    ghost from_gives = { λ _ fault. fault ≢ Unsettled };

    fn from(fault: EmitFault) -> WalkFault {
        match fault {
            // Nothing in emit_code answers Unsettled.
            EmitFault::NoWord | EmitFault::Unsettled => WalkFault::NoWord,
            EmitFault::Memory => WalkFault::Memory,
        }
    }
}

impl From<AllocError> for WalkFault {
    ghost from_gives = { λ _ fault. fault ≢ Unsettled };

    fn from(_error: AllocError) -> WalkFault {
        WalkFault::Memory
    }
}

impl<T: Drop> From<AllocFailed<T>> for WalkFault {
    ghost from_gives = { λ _ fault. fault ≢ Unsettled };

    fn from(_error: AllocFailed<T>) -> WalkFault {
        WalkFault::Memory
    }
}
