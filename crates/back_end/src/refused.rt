// Why a program gets no image.

use machine_emit::refused::EmitRefused;
use mlc_runs::pass::PassFault;
use thiserror::Error;

#[derive(Clone, Copy, PartialEq, Eq, Debug, Error)]
pub enum CompileRefused {
    #[error("expansion over 1048576 nodes")]
    TooLarge,
    #[error("image over 134217728 words")]
    TooLong,
    /// Want of memory, or a number or a place that the code would name and no word holds.
    #[error("out of memory")]
    Memory,
}

impl From<PassFault> for CompileRefused {
    ghost use Rattle.std.specs.Prelude.{◌≡◌};
    ghost use Rattle.back_end.specs.Refusals.{of_pass};

    ghost from_gives = { λ fault refused. refused ≡ of_pass fault };

    fn from(fault: PassFault) -> CompileRefused {
        match fault {
            PassFault::Expansion => CompileRefused::TooLarge,
            PassFault::Memory => CompileRefused::Memory,
        }
    }
}

impl From<EmitRefused> for CompileRefused {
    ghost use Rattle.std.specs.Prelude.{◌≡◌};
    ghost use Rattle.back_end.specs.Refusals.{of_emit};

    ghost from_gives = { λ fault refused. refused ≡ of_emit fault };

    fn from(fault: EmitRefused) -> CompileRefused {
        match fault {
            EmitRefused::TooLong => CompileRefused::TooLong,
            EmitRefused::Memory => CompileRefused::Memory,
        }
    }
}
