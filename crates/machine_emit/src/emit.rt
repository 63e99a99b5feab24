// Images.

ghost use Rattle.std.specs.Prelude.{◌≡◌, ◌+◌, ◌*◌, ◌^◌, ◌<◌, ◌≤◌, length, All, IfOk, IfErr};
ghost use Rattle.ssa_tree.specs.Exceptions.{exceptions};
ghost use Rattle.ssa_form.specs.Programs.{program_of};
ghost use Rattle.image_size.specs.of_image_law.ImageOf.{IsImageOf};
ghost use Rattle.image_size.specs.Size.{parts};
ghost use Rattle.machine_emit.specs.Contract.{Does, IsTooLong};
ghost use Rattle.machine_emit.specs.declared.refused.EmitRefused.TheVariants.{Memory, TooLong};

use crate::assemble::settled_code;
use crate::bytes::texts_are_bytes;
use crate::refused::EmitRefused;
use emit_known::exceptions::exceptions_of;
use emit_known::known::known_places;
use emit_known::texts::texts_of;
use image_size::image_law::law::image_is_right;
use image_size::law::images_are_small;
use ir_code::image::Image;
use ir_code::instr::Instr;
use mlc_names::names::Names;
use ssa_exceptions::law::texts_of_made_are_enough;
use ssa_form::form::Ssa;
use std::alloc::Global;

/// The most words that an image has.
const MOST_WORDS: usize = 134_217_728;

/// These constants and this code, if they are not too long.
fn finish(words: Vec<u32>, code: Vec<Instr>) -> Result<Image, EmitRefused>
    ensures constants { IfOk result (λ image. image.constants ≡ words.items) }
    ensures code { IfOk result (λ image. image.code ≡ code.items) }
    ensures small { IfOk result (λ image. length image.constants + 4 * length image.code ≤ 2 ^ 27) }
    ensures too_long { IfErr result (λ refused. 2 ^ 27 < length words.items + 4 * length code.items) }
{
    if code.len() > MOST_WORDS || words.len() > MOST_WORDS {
        return Err(EmitRefused::TooLong);
    }
    if words.len() + 4 * code.len() > MOST_WORDS {
        return Err(EmitRefused::TooLong);
    }
    Ok(Image::new(words, code))
}

/// The image of a program whose exceptions have names. It is exactly the one of the definition; a program's runs and its own are the same; and it is refused as
/// too long where it is, and only there.
pub fn emit(alloc: Global, names: &Names, program: &Ssa) -> Result<Image, EmitRefused>
    requires { All (λ i. i < length names.now) (exceptions (program_of program.now)) }
    ensures image { IfOk result (λ image. IsImageOf names.now (program_of program.now) image) }
    ensures runs { IfOk result (λ image. Does names.now (program_of program.now) image) }
    ensures short { IfOk result (λ image. ¬ IsTooLong names.now (program_of program.now)) }
    ensures too_long { IfErr result (λ refused. refused ≡ TooLong → IsTooLong names.now (program_of program.now)) }
    ensures large { IfErr result (λ refused. refused ≡ TooLong → 2 ^ 20 < parts names.now (program_of program.now)) }
    ensures memory { ¬ IsTooLong names.now (program_of program.now) → IfErr result (λ refused. refused ≡ Memory) }
{
    image_is_right();
    images_are_small();
    texts_of_made_are_enough();
    let found = exceptions_of(alloc, &program.tables, &program.funs)?;
    let identifiers = texts_of(alloc, names, &found)?;
    let (words, known) = known_places(alloc, &program.tables, &identifiers)?;
    let code = settled_code(alloc, program, known)?;
    texts_are_bytes(&identifiers);
    finish(words, code)
}
