// Why two types are not made equal.

ghost use Rattle.std.specs.Prelude.{◌≡◌};
ghost use Rattle.ty_solve.specs.declared.refused.UnifyRefused.TheVariants.{Memory};

use mlc_base::memory::NoMemory;
use std::alloc::{AllocError, AllocFailed};

/// Why two types are not made equal.
#[derive(Clone, Copy, PartialEq, Eq, Debug)]
pub enum UnifyRefused {
    /// Two heads or label sets differ, or a mark excludes a type.
    Clash,
    /// A variable lies within its own value.
    Circular,
    /// They can be made equal, and their type has over 65,536 nodes.
    Large,
    Memory,
}

impl From<NoMemory> for UnifyRefused {
    ghost from_gives = { λ _ r. r ≡ Memory };

    fn from(_error: NoMemory) -> UnifyRefused {
        UnifyRefused::Memory
    }
}

impl From<AllocError> for UnifyRefused {
    ghost from_gives = { λ _ r. r ≡ Memory };

    fn from(_error: AllocError) -> UnifyRefused {
        UnifyRefused::Memory
    }
}

impl<T: Drop> From<AllocFailed<T>> for UnifyRefused {
    ghost from_gives = { λ _ r. r ≡ Memory };

    fn from(_error: AllocFailed<T>) -> UnifyRefused {
        UnifyRefused::Memory
    }
}
