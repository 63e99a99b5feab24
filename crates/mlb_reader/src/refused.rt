// Why loading has no answer.

ghost use Rattle.std.specs.Prelude.{◌≡◌};
ghost use Rattle.mlb_reader.specs.Refusals.{load_refused_of};
ghost use Rattle.mlb_reader.specs.declared.refused.LoadRefused.TheVariants.{Memory};

use mlc_base::memory::NoMemory;
use mlc_faults::fault::Fault;
use mlc_faults::refused::Refused;
use std::alloc::{AllocError, AllocFailed};

/// Why a project isn't loaded.
#[derive(Drop)]
pub enum LoadRefused {
    /// A path that is needed has no file.
    NoFile(String),
    /// A path that is needed could not be read.
    ReadFault(String),
    Fault(Fault),
    Memory,
}

impl From<NoMemory> for LoadRefused {
    ghost from_gives = { λ _ r. r ≡ Memory };

    fn from(_error: NoMemory) -> LoadRefused {
        LoadRefused::Memory
    }
}

impl From<AllocError> for LoadRefused {
    ghost from_gives = { λ _ r. r ≡ Memory };

    fn from(_error: AllocError) -> LoadRefused {
        LoadRefused::Memory
    }
}

impl<T: Drop> From<AllocFailed<T>> for LoadRefused {
    ghost from_gives = { λ _ r. r ≡ Memory };

    fn from(_error: AllocFailed<T>) -> LoadRefused {
        LoadRefused::Memory
    }
}

impl From<Refused> for LoadRefused {
    ghost from_gives = { λ e r. r ≡ load_refused_of e };

    fn from(error: Refused) -> LoadRefused {
        match error {
            Refused::Fault(fault) => LoadRefused::Fault(fault),
            Refused::Memory => LoadRefused::Memory,
        }
    }
}
