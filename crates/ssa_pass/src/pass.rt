// The pass.
ghost use Rattle.std.specs.Prelude.{◌≡◌, ◌+◌, ◌≤◌, ℕ, IfOk, IfErr};
ghost use Rattle.mlc_runs.specs.Passes.{BringsNone};
ghost use Rattle.mlc_runs.specs.declared.pass.PassFault.TheVariants.{Memory};
ghost use Rattle.ir_first.specs.Meaning.{meaning as meant_before};
ghost use Rattle.ir_first.specs.WellFormed.{IsWellFormed as WasWellFormed};
ghost use Rattle.ir_first.specs.Size.{nodes_funs as nodes_before};
ghost use Rattle.ir_ssa.specs.Meaning.{meaning as meant_after};
ghost use Rattle.ir_ssa.specs.WellFormed.{IsWellFormed};
ghost use Rattle.ir_ssa.specs.Size.{nodes_funs as nodes_after};
ghost use Rattle.first_tree.specs.Exceptions.{exceptions as exceptions_before};
ghost use Rattle.ssa_tree.specs.Exceptions.{exceptions as exceptions_after};
ghost use Rattle.first_form.specs.Programs as source;
ghost use Rattle.ssa_form.specs.Programs as target;
ghost use Rattle.ssa_build.specs.Build.{ssa};
ghost use Rattle.ssa_pass.specs.Bounds.{FitBefore, FitAfter};

use crate::build::build_funs;
use first_form::form::First;
use mlc_runs::pass::{Pass, PassFault};
use ssa_build::law::ssa_build_keeps;
use ssa_form::form::Ssa;
use std::alloc::Global;

/// The SSA form of a program, and what it keeps: the outcome at every number of turns, whatever the program; well formed; at most twice the nodes; no more
/// variables in scope at one place of one function; the exceptions. None only for want of memory.
pub fn build_program(alloc: Global, program: First) -> Result<Ssa, PassFault>
    ensures built { IfOk result (λ to. target.program_of to ≡ ssa (source.program_of program)) }
    ensures same { IfOk result (λ to. (turns : ℕ) → meant_after (target.program_of to) turns ≡ meant_before (source.program_of program) turns) }
    ensures well_formed { WasWellFormed (source.program_of program) → IfOk result (λ to. IsWellFormed (target.program_of to)) }
    ensures small { IfOk result (λ to. nodes_after (target.program_of to).funs
        ≤ nodes_before (source.program_of program).funs + nodes_before (source.program_of program).funs) }
    ensures at_once { IfOk result (λ to. (n : ℕ) → FitBefore n (source.program_of program) → FitAfter n (target.program_of to)) }
    ensures exceptions { IfOk result (λ to. BringsNone (exceptions_before (source.program_of program)) (exceptions_after (target.program_of to))) }
    ensures expansion { IfOk result (λ to. to.expansion ≡ program.expansion) }
    ensures memory { IfErr result (λ fault. fault ≡ Memory) }
{
    ssa_build_keeps();
    let funs = build_funs(alloc, &program.funs)?;
    Ok(Ssa {
        tables: program.tables,
        funs,
        expansion: program.expansion,
    })
}

/// From the form without function values to SSA.
pub struct BuildSsa;

impl Pass<First, Ssa> for BuildSsa {
    fn pass(alloc: Global, prog: First) -> Result<Ssa, PassFault> {
        build_program(alloc, prog)
    }
}
