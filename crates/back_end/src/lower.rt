// The passes up to SSA, one after the other.

ghost use Rattle.std.specs.Prelude.{◌≡◌, ◌≢◌, ◌<◌, ◌≤◌, ℕ, Some, All, Contains, IfOk, IfErr};
ghost use Rattle.mlc_runs.specs.Outcome.{wrong};
ghost use Rattle.mlc_runs.specs.Passes.{greatest_expansion};
ghost use Rattle.match_pass.specs.of_ir_prog.Programs as source;
ghost use Rattle.match_pass.specs.Typed.{IsWellTyped};
ghost use Rattle.ir_ssa.specs.Meaning.{meaning};
ghost use Rattle.ir_ssa.specs.WellFormed.{IsWellFormed};
ghost use Rattle.ssa_tree.specs.Exceptions.{exceptions};
ghost use Rattle.ssa_form.specs.Programs.{program_of};
ghost use Rattle.back_end.specs.Lowered.{identifiers, ssa_of};
ghost use Rattle.back_end.specs.declared.refused.CompileRefused.TheVariants.{TooLarge, TooLong};

use crate::refused::CompileRefused;
use closure_pass::exceptions::conversions_make_no_more;
use closure_pass::pass::convert_program;
use match_compile::law::counts_are_kept;
use match_pass::ir_prog::program::Program;
use match_pass::pass::compile_program;
use mono_exceptions::law::copies_make_no_more;
use mono_pass::pass::monomorphise_program;
use monomorphise::law::expansion_is_counted;
use ssa_build::law::ssa_build_keeps;
use ssa_form::form::Ssa;
use ssa_pass::pass::build_program;
use std::alloc::Global;

/// The SSA form of a program, exactly that of the definition, whatever the program. Of a well typed one it is well formed, does the same at every number of
/// turns and goes wrong at none. TooLarge comes just where the program has more nodes than may be, written out.
pub fn lower(alloc: Global, program: Program) -> Result<Ssa, CompileRefused>
    ensures built { IfOk result (λ to. ssa_of program ≡ Some (program_of to)) }
    ensures same { IsWellTyped program → IfOk result (λ to. (turns : ℕ) → meaning (program_of to) turns ≡ source.meaning program turns) }
    ensures never_wrong { IsWellTyped program → IfOk result (λ _. (turns : ℕ) → (source.meaning program turns).end ≢ wrong) }
    ensures well_formed { IsWellTyped program → IfOk result (λ to. IsWellFormed (program_of to)) }
    ensures exceptions { IfOk result (λ to. All (Contains (identifiers program)) (exceptions (program_of to))) }
    ensures within { IfOk result (λ _. source.expansion program ≤ greatest_expansion) }
    ensures too_large { IfErr result (λ refused. refused ≡ TooLarge → greatest_expansion < source.expansion program) }
    ensures not_long { IfErr result (λ refused. refused ≢ TooLong) }
{
    counts_are_kept();
    expansion_is_counted();
    copies_make_no_more();
    conversions_make_no_more();
    ssa_build_keeps();
    let tests = compile_program(alloc, program)?;
    let copies = monomorphise_program(alloc, tests)?;
    let first = convert_program(alloc, copies)?;
    let ssa = build_program(alloc, first)?;
    Ok(ssa)
}
