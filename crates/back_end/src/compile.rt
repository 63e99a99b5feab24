// Images of programs.

ghost use Rattle.std.specs.Prelude.{◌≡◌, ◌≢◌, ◌+◌, ◌*◌, ◌^◌, ◌<◌, ◌≤◌, ℕ, length, All, IfOk, IfErr, IsSomeAnd};
ghost use Rattle.mlc_runs.specs.Outcome.{wrong};
ghost use Rattle.mlc_runs.specs.Passes.{greatest_expansion};
ghost use Rattle.match_pass.specs.of_ir_prog.Programs.{expansion, meaning};
ghost use Rattle.match_pass.specs.Typed.{IsWellTyped};
ghost use Rattle.machine_emit.specs.of_image_law.ImageOf.{IsImageOf};
ghost use Rattle.machine_emit.specs.of_image_size.Size.{parts, words};
ghost use Rattle.machine_emit.specs.Contract.{IsTooLong};
ghost use Rattle.back_end.specs.Contract.{Does};
ghost use Rattle.back_end.specs.Lowered.{identifiers, ssa_of};
ghost use Rattle.back_end.specs.declared.refused.CompileRefused.TheVariants.{TooLarge, TooLong};

use crate::lower::lower;
use crate::refused::CompileRefused;
use ir_code::image::Image;
use machine_emit::emit::emit;
use machine_emit::image_size::law::images_are_small;
use match_pass::ir_prog::program::Program;
use mlc_names::names::Names;
use std::alloc::Global;

/// The image of a program whose exceptions have names. Its runs and the program's meaning are the same where the program is well typed, and neither goes wrong.
/// It is exactly the image of the definition, and is refused as too large or too long just where it is.
pub fn compile(alloc: Global, names: &Names, program: Program) -> Result<Image, CompileRefused>
    requires named { All (λ i. i < length names.now) (identifiers program) }
    ensures runs { IsWellTyped program → IfOk result (λ image. Does names.now program image) }
    ensures never_wrong { IsWellTyped program → IfOk result (λ _. (turns : ℕ) → (meaning program turns).end ≢ wrong) }
    ensures image { IfOk result (λ image. IsSomeAnd (ssa_of program) (λ p. IsImageOf names.now p image)) }
    ensures size { IfOk result (λ image. IsSomeAnd (ssa_of program) (λ p. words image ≤ 42 + 44 * parts names.now p)) }
    ensures short { IfOk result (λ image. words image ≤ 2 ^ 27) }
    ensures within { IfOk result (λ _. expansion program ≤ greatest_expansion) }
    ensures expansion { IfErr result (λ refused. refused ≡ TooLarge → greatest_expansion < expansion program) }
    ensures too_long { IfErr result (λ refused. refused ≡ TooLong → IsSomeAnd (ssa_of program) (IsTooLong names.now)) }
    ensures large { IfErr result (λ refused. refused ≡ TooLong → IsSomeAnd (ssa_of program) (λ p. 2 ^ 20 < parts names.now p)) }
{
    images_are_small();
    let ssa = lower(alloc, program)?;
    let image = emit(alloc, names, &ssa)?;
    Ok(image)
}
