// Why a phrase has no elaboration.
ghost use Rattle.std.specs.Prelude.{◌≡◌};
ghost use Rattle.elab_types.specs.declared.refused.Refused.TheVariants.{Memory};

use mlc_base::memory::NoMemory;
use mlc_base::place::Place;
use std::alloc::AllocFailed;

/// The cause, and where it stands.
#[derive(Clone, Copy, PartialEq, Eq, Debug)]
pub enum Refused {
    /// An identifier isn't bound.
    Unbound(Place),
    /// There is no typing.
    Mistyped(Place),
    /// A restriction is broken.
    Broken(Place),
    /// A type is too large.
    Large(Place),
    Memory,
}

impl From<NoMemory> for Refused {
    ghost from_gives = { λ _ e. e ≡ Memory };

    fn from(_error: NoMemory) -> Refused {
        Refused::Memory
    }
}

impl<T: Drop> From<AllocFailed<T>> for Refused {
    ghost from_gives = { λ _ e. e ≡ Memory };

    fn from(_error: AllocFailed<T>) -> Refused {
        Refused::Memory
    }
}
