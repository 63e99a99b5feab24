// What the machine is loaded with.

ghost use Rattle.std.specs.Prelude.{◌≡◌, ◌+◌, ◌*◌, ◌^◌, ◌≤◌, length};

use crate::instr::Instr;
use std::marker::Model;

/// An image: constant words and instructions, at most 2^27 words in all.
#[derive(Drop)]
pub struct Image {
    constants: Vec<u32>,
    code: Vec<Instr>,
}

impl Model for Image {
    ghost use Rattle.std.specs.Prelude.{◌+◌, ◌*◌, ◌^◌, ◌≤◌, length};
    ghost use Rattle.ir_code.specs.Program.{Program};

    ghost Value = { Program };

    ghost view = { λ i. record { constants = i.constants.items; code = i.code.items } };

    ghost invariant = { λ i. length i.constants.items + 4 * length i.code.items ≤ 2 ^ 27 };
}

impl Image {
    /// An image of these constants and this code.
    pub fn new(constants: Vec<u32>, code: Vec<Instr>) -> Image
        requires { length constants.items + 4 * length code.items ≤ 2 ^ 27 }
        ensures constants { result.constants ≡ constants.items }
        ensures code { result.code ≡ code.items }
    {
        Image { constants, code }
    }

    /// The constant words.
    pub fn constants(&self) -> &[u32]
        ensures value { result.now ≡ self.now.constants }
        ensures small { length self.now.constants + 4 * length self.now.code ≤ 2 ^ 27 }
    {
        self.constants.as_slice()
    }

    /// The instructions.
    pub fn code(&self) -> &[Instr]
        ensures value { result.now ≡ self.now.code }
        ensures small { length self.now.constants + 4 * length self.now.code ≤ 2 ^ 27 }
    {
        self.code.as_slice()
    }

    /// The constants and the code by themselves.
    pub fn into_parts(self) -> (Vec<u32>, Vec<Instr>)
        ensures constants { result.0.items ≡ self.constants }
        ensures code { result.1.items ≡ self.code }
        ensures small { length self.constants + 4 * length self.code ≤ 2 ^ 27 }
    {
        let Image { constants, code } = self;
        (constants, code)
    }
}
