// Why a program has no image here.

ghost use Rattle.std.specs.Prelude.{◌≡◌};
ghost use Rattle.machine_emit.specs.declared.refused.EmitRefused.TheVariants.{Memory};

use emit_code::fault::EmitFault;
use mlc_base::memory::NoMemory;

#[derive(Clone, Copy, PartialEq, Eq, Debug, Drop)]
pub enum EmitRefused {
    /// The image would have more than 2^27 words.
    TooLong,
    /// Want of memory, or a number or a place that the code would name and no word holds.
    Memory,
}

impl From<EmitFault> for EmitRefused {
    ghost from_gives = { λ _ refused. refused ≡ Memory };

    fn from(_fault: EmitFault) -> EmitRefused {
        EmitRefused::Memory
    }
}

impl From<NoMemory> for EmitRefused {
    ghost from_gives = { λ _ refused. refused ≡ Memory };

    fn from(_error: NoMemory) -> EmitRefused {
        EmitRefused::Memory
    }
}
