// The image of a loop by hand, and what stands around it.

use ir_code::image::Image;
use ir_code::instr::Instr;
use std::alloc::Global;

/// The slot of the turns that are left.
pub const TURNS: u32 = 0;

/// The slot of what the loop gives.
pub const RESULT: u32 = 1;

/// Where the result is printed.
pub const SHOW: u32 = 2;

/// Where Overflow is raised.
pub const FAIL: u32 = 5;

/// Where the loop's own code stands.
pub const START: u32 = 7;

static AROUND: [Instr; 6] = [
    Instr::Jmp { target: START },
    // SHOW
    Instr::IText {
        dst: RESULT,
        src: RESULT,
    },
    Instr::Print { text: RESULT },
    Instr::End,
    // FAIL
    Instr::Li {
        dst: RESULT,
        value: OVERFLOW,
    },
    Instr::Raise { packet: RESULT },
];

/// The address of the packet of Overflow.
const OVERFLOW: u32 = 12;

/// The address of the text E.
pub const TEXT_OF_E: u32 = 14;

/// 0 and 1, the text Overflow, a name with this text, its packet with unit, and the text E.
static CONSTANTS: [u32; 16] = [
    0, 1, 8, 0x4f, 0x76, 0x65, 0x72, 0x66, 0x6c, 0x6f, 0x77, 2, 11, 0, 1, 0x45,
];

/// More code than a loop has.
const MOST: usize = 1000;

/// The image of a loop with this code, which takes the turns in a slot and leaves an integer in another.
pub fn make(alloc: Global, turns: u16, code: &[Instr]) -> anyhow::Result<Image> {
    if code.len() > MOST {
        anyhow::bail!("too much code");
    }
    let mut whole = Vec::new(alloc);
    whole.push(Instr::Li {
        dst: TURNS,
        value: u32::from(turns),
    })?;
    whole.extend_from_slice(&AROUND)?;
    whole.extend_from_slice(code)?;
    Ok(Image::new(CONSTANTS.to_vec(alloc)?, whole))
}
