// Bytes to images.

ghost use Rattle.std.specs.Prelude.{◌≡◌, ◌+◌, ◌*◌, ◌^◌, ◌<◌, ◌≤◌, [], ◌∷◌, ◌++◌, length, drop, Some, None, Err, IfOk, IfErr, OnOk, IfSome, IsNone};
ghost use Rattle.ir_code.specs.Program.{Program};
ghost use Rattle.ir_code.specs.ImageBytes.{ImageBytes, IsProgram, word_bytes, words, header_failed, first_failed, unknown_from};
ghost use Rattle.ir_code.specs.Reading.{HasHeader, HasConstants, HasInstr, HasNoInstr, HasCode};
ghost use Rattle.ir_code.specs.Refused.{IfBadImage};

use crate::image::Image;
use crate::instr::Instr;
use crate::refused::ImageRefused;
use mlc_base::memory::NoMemory;
use std::alloc::Global;

/// What the header says, and the bytes after it.
#[derive(Clone, Copy)]
struct Header<'a> {
    constants: u32,
    code: u32,
    rest: &'a [u8],
}

/// The word at the front, and the bytes after it.
fn read_word(bytes: &[u8]) -> (u32, &[u8])
    requires { 4 ≤ length bytes.now }
    ensures parts { bytes.now ≡ word_bytes result.0 ++ result.1.now }
    ensures as_words { words bytes.now ≡ result.0 ∷ words result.1.now }
{
    let (front, rest) = bytes.split_at(4);
    let word = u32::from_le_bytes([front[0], front[1], front[2], front[3]]);
    (word, rest)
}

/// The header, where it and the length are as they must be, and else the offset of what is not.
fn read_header(bytes: &[u8]) -> Result<Header<'_>, u64>
    ensures found { IfOk result (λ h. HasHeader bytes.now h.constants h.code h.rest.now) }
    ensures passed { OnOk result (header_failed bytes.now ≡ None) }
    ensures goes_on { IfOk result (λ h. first_failed bytes.now ≡ unknown_from (16 + 4 * h.constants) (drop (4 * h.constants) h.rest.now)) }
    ensures refused { IfErr result (λ k. header_failed bytes.now ≡ Some k) }
{
    let len = bytes.len() as u64;
    if len < 16 {
        return Err(len);
    }
    if !bytes.starts_with(b"MLX1") {
        return Err(0);
    }
    let (_magic, rest) = read_word(bytes);
    let (version, rest) = read_word(rest);
    if version != 1 {
        return Err(4);
    }
    let (constants, rest) = read_word(rest);
    let (code, rest) = read_word(rest);
    let count = constants as u64 + 4 * code as u64;
    if count > 1 << 27 {
        return Err(8);
    }
    let whole = 16 + 4 * count;
    if len != whole {
        return Err(len.min(whole));
    }
    Ok(Header {
        constants,
        code,
        rest,
    })
}

/// So many words, and the bytes after them.
fn read_constants(alloc: Global, count: u32, bytes: &[u8]) -> Result<(Vec<u32>, &[u8]), NoMemory>
    requires { 4 * count ≤ length bytes.now }
    ensures found { IfOk result (λ r. HasConstants bytes.now r.0.items r.1.now) }
    ensures all { IfOk result (λ r. length r.0.items ≡ count) }
{
    let mut constants = Vec::new(alloc);
    let mut rest = bytes;
    for _ in 0..count {
        let (word, after) = read_word(rest);
        constants.push(word)?;
        rest = after;
    }
    Ok((constants, rest))
}

/// The instruction at the front, if there is one, and the bytes after it.
fn read_instr(bytes: &[u8]) -> (Option<Instr>, &[u8])
    requires { 16 ≤ length bytes.now }
    ensures found { IfSome result.0 (λ i. HasInstr bytes.now i result.1.now) }
    ensures unknown { IsNone result.0 → HasNoInstr bytes.now result.1.now }
    ensures left { length bytes.now ≡ 16 + length result.1.now }
{
    let (op, rest) = read_word(bytes);
    let (a, rest) = read_word(rest);
    let (b, rest) = read_word(rest);
    let (c, rest) = read_word(rest);
    (Instr::from_words(op, a, b, c), rest)
}

/// The instructions that these bytes are, so many; the bytes begin at start.
fn read_code(
    alloc: Global,
    start: u64,
    count: u32,
    bytes: &[u8],
) -> Result<Vec<Instr>, ImageRefused>
    requires whole { length bytes.now ≡ 16 * count }
    requires fits { start + 16 * count < 2 ^ 64 }
    ensures found { IfOk result (λ code. HasCode bytes.now code.items []) }
    ensures all { IfOk result (λ code. length code.items ≡ count) }
    ensures refused { IfBadImage result (λ k. unknown_from start bytes.now ≡ Some k) }
{
    let mut code = Vec::new(alloc);
    let mut rest = bytes;
    for index in 0..count {
        let (found, after) = read_instr(rest);
        let Some(instr) = found else {
            return Err(ImageRefused::BadImage(start + 16 * index as u64));
        };
        code.push(instr)?;
        rest = after;
    }
    Ok(code)
}

/// The image that has these bytes.
pub fn read_image(alloc: Global, bytes: &[u8]) -> Result<Image, ImageRefused>
    // What is read has these bytes.
    ensures found { IfOk result (λ i. IsProgram i × ImageBytes i bytes.now) }
    // No other program has them.
    ensures only { (p : Program) → IsProgram p → ImageBytes p bytes.now → IfOk result (λ i. i ≡ p) }
    // What the header or the length shows is refused before memory is asked for.
    ensures early { IfSome (header_failed bytes.now) (λ k. result ≡ Err (ImageRefused.BadImage k)) }
    // What is refused is refused at the first check that fails ..
    ensures refused { IfBadImage result (λ k. first_failed bytes.now ≡ Some k) }
    // .. and is no program's.
    ensures none { IfBadImage result (λ _. (p : Program) → IsProgram p → ¬ ImageBytes p bytes.now) }
{
    let header = match read_header(bytes) {
        Ok(header) => header,
        Err(at) => return Err(ImageRefused::BadImage(at)),
    };
    let (constants, rest) = read_constants(alloc, header.constants, header.rest)?;
    let start = 16 + 4 * header.constants as u64;
    let code = read_code(alloc, start, header.code, rest)?;
    Ok(Image::new(constants, code))
}
