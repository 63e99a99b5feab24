// A refusal, or want of memory.

ghost use Rattle.std.specs.Prelude.{◌≡◌};
ghost use Rattle.mlc_faults.specs.declared.refused.Refused.TheVariants.{Memory};

use crate::fault::Fault;
use mlc_base::memory::NoMemory;
use std::alloc::{AllocError, AllocFailed};

/// Why a call has no answer.
#[derive(Clone, Copy, PartialEq, Eq, Debug)]
pub enum Refused {
    Fault(Fault),
    Memory,
}

impl From<NoMemory> for Refused {
    ghost from_gives = { λ _ r. r ≡ Memory };

    fn from(_error: NoMemory) -> Refused {
        Refused::Memory
    }
}

impl From<AllocError> for Refused {
    ghost from_gives = { λ _ r. r ≡ Memory };

    fn from(_error: AllocError) -> Refused {
        Refused::Memory
    }
}

impl<T: Drop> From<AllocFailed<T>> for Refused {
    ghost from_gives = { λ _ r. r ≡ Memory };

    fn from(_error: AllocFailed<T>) -> Refused {
        Refused::Memory
    }
}
