// Why bytes are refused.

ghost use Rattle.std.specs.Prelude.{◌≡◌};
ghost use Rattle.ir_code.specs.declared.refused.ImageRefused.TheVariants.{Memory};

use mlc_base::memory::NoMemory;
use std::alloc::{AllocError, AllocFailed};
use thiserror::Error;

/// Why no image was read.
#[derive(Debug, Drop, Error)]
pub enum ImageRefused {
    /// The bytes are no image; the first check that failed names this offset.
    #[error("not an image, at byte {0}")]
    BadImage(u64),
    /// There was no memory for the image.
    #[error("out of memory")]
    Memory,
}

impl From<NoMemory> for ImageRefused {
    ghost from_gives = { λ _ e. e ≡ Memory };

    fn from(_error: NoMemory) -> ImageRefused {
        ImageRefused::Memory
    }
}

impl From<AllocError> for ImageRefused {
    ghost from_gives = { λ _ e. e ≡ Memory };

    fn from(_error: AllocError) -> ImageRefused {
        ImageRefused::Memory
    }
}

impl<T: Drop> From<AllocFailed<T>> for ImageRefused {
    ghost from_gives = { λ _ e. e ≡ Memory };

    fn from(_error: AllocFailed<T>) -> ImageRefused {
        ImageRefused::Memory
    }
}
