// Images to bytes.

ghost use Rattle.std.specs.Prelude.{◌≡◌, ◌++◌, IfOk, OnOk};
ghost use Rattle.std.specs.List.{AllByRecursion, flat_map};
ghost use Rattle.ir_code.specs.ImageBytes.{ImageBytes, IsProgram, IsWord, word_bytes};
ghost use Rattle.ir_code.specs.Reading.{instr_bytes, HasWords};

use crate::image::Image;
use crate::instr::Instr;
use mlc_base::memory::NoMemory;
use std::alloc::Global;

fn put_words(out: &mut Vec<u8>, words: &[u32]) -> Result<(), NoMemory>
    ensures written { OnOk result (out.new.items ≡ out.old.items ++ flat_map word_bytes words.now) }
    ensures are_words { AllByRecursion IsWord words.now }
{
    for word in words {
        out.extend_from_slice(&word.to_le_bytes())?;
    }
    Ok(())
}

fn put_code(out: &mut Vec<u8>, code: &[Instr]) -> Result<(), NoMemory>
    ensures written { OnOk result (out.new.items ≡ out.old.items ++ flat_map instr_bytes code.now) }
    ensures are_words { OnOk result (AllByRecursion HasWords code.now) }
{
    for instr in code {
        put_words(out, &instr.words())?;
    }
    Ok(())
}

/// The image's bytes.
pub fn write_image(alloc: Global, image: &Image) -> Result<Vec<u8>, NoMemory>
    ensures { IfOk result (λ v. IsProgram image.now × ImageBytes image.now v.items) }
{
    let constants = image.constants();
    let code = image.code();
    let mut out = Vec::new(alloc);
    out.extend_from_slice(b"MLX1")?;
    put_words(&mut out, &[1, constants.len() as u32, code.len() as u32])?;
    put_words(&mut out, constants)?;
    put_code(&mut out, code)?;
    Ok(out)
}
