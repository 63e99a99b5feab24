// The pass.
ghost use Rattle.std.specs.Prelude.{◌≡◌, ℕ, IfOk, IfErr};
ghost use Rattle.mlc_runs.specs.Passes.{BringsNone};
ghost use Rattle.mlc_runs.specs.declared.pass.PassFault.TheVariants.{Memory};
ghost use Rattle.ir_plain.specs.Once.{IsOnce};
ghost use Rattle.ir_poly.specs.Tests.{poly};
ghost use Rattle.ir_tables.specs.Tables.{strings_of};
ghost use Rattle.ir_prog.specs.Programs as source;
ghost use Rattle.ir_tests.specs.Programs as target;
ghost use Rattle.match_pass.specs.Typed.{IsWellTyped};

use crate::compile::compile;
use ir_prog::program::Program as Source;
use ir_tests::program::Program as Target;
use match_compile::law::{programs_are_kept, typing_is_kept, variables_are_bound};
use mlc_runs::pass::{Pass, PassFault};
use std::alloc::Global;

/// The tests of a program, and what they keep: the outcome at every number of turns, whatever the program, also where it goes wrong; that each variable is bound
/// once, whatever the program; so they are well formed where the program is well typed; its exceptions, its expansion and its strings. None only for want of
/// memory.
pub fn compile_program(alloc: Global, program: Source) -> Result<Target, PassFault>
    ensures built { IfOk result (λ to. target.tests_of to ≡ source.tests_in program) }
    ensures same { IfOk result (λ to. (turns : ℕ) → target.meaning to turns ≡ source.meaning program turns) }
    ensures once { IfOk result (λ to. IsOnce {F = poly} (λ x. x) (target.body_of to)) }
    ensures well_formed { IsWellTyped program → IfOk result (λ to. target.IsWellFormed to) }
    ensures exceptions { IfOk result (λ to. BringsNone (source.exceptions program) (target.exceptions to)) }
    ensures size { IfOk result (λ to. target.expansion to ≡ source.expansion program) }
    ensures strings { IfOk result (λ to. strings_of to.tables ≡ strings_of program.tables) }
    ensures memory { IfErr result (λ fault. fault ≡ Memory) }
{
    programs_are_kept();
    typing_is_kept();
    variables_are_bound();
    let exn = program.exn;
    let made = compile(alloc, program.tables, &program.body)?;
    Ok(Target {
        tables: made.tables,
        exn,
        body: made.body,
    })
}

/// From source matches to tests in plain order.
pub struct MatchCompile;

impl Pass<Source, Target> for MatchCompile {
    fn pass(alloc: Global, prog: Source) -> Result<Target, PassFault> {
        compile_program(alloc, prog)
    }
}
