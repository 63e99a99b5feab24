// Why reading stops.

ghost use Rattle.std.specs.Prelude.{◌≡◌};
ghost use Rattle.phrase_base.specs.declared.stop.Stop.TheVariants.{Memory};

use mlc_base::memory::NoMemory;
use std::alloc::{AllocError, AllocFailed};

/// Why reading stops, with the number of tokens that were left there.
#[derive(Clone, Copy, PartialEq, Eq, Debug)]
pub enum Stop {
    Memory,
    /// No phrase is there.
    Bad(usize),
    /// The phrase is nested too deep.
    Deep(usize),
}

impl From<AllocError> for Stop {
    ghost from_gives = { λ _ e. e ≡ Memory };

    fn from(_e: AllocError) -> Self {
        Stop::Memory
    }
}

impl<T: Drop> From<AllocFailed<T>> for Stop {
    ghost from_gives = { λ _ e. e ≡ Memory };

    fn from(_e: AllocFailed<T>) -> Self {
        Stop::Memory
    }
}

impl From<NoMemory> for Stop {
    ghost from_gives = { λ _ e. e ≡ Memory };

    fn from(_e: NoMemory) -> Self {
        Stop::Memory
    }
}
