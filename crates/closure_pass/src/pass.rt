// The pass.
ghost use Rattle.std.specs.Prelude.{◌≡◌, ℕ, IfOk, IfErr};
ghost use Rattle.mlc_runs.specs.Passes.{BringsNone};
ghost use Rattle.mlc_runs.specs.declared.pass.PassFault.TheVariants.{Memory};
ghost use Rattle.mono_form.specs.of_mono_operations.Reads.{strings_of};
ghost use Rattle.mono_form.specs.Programs as source;
ghost use Rattle.first_form.specs.Programs as target;
ghost use Rattle.first_tree.specs.Exceptions.{exceptions};
ghost use Rattle.ir_first.specs.Meaning.{meaning};
ghost use Rattle.ir_first.specs.WellFormed.{IsWellFormed};
ghost use Rattle.closure_formed.specs.of_closure_whole.Tags.{AreDense};
ghost use Rattle.closure_formed.specs.of_closure_whole.Whole.{without_functions};
ghost use Rattle.closure_pass.specs.Given.{texts};

use crate::convert::convert;
use crate::exceptions::conversions_make_no_more;
use closure_first::flow_types::flow::flows;
use closure_first::whole::explicit;
use closure_formed::law::conversions_are_well_formed;
use first_form::form::First;
use mlc_runs::pass::{Pass, PassFault};
use mono_form::program::Program;
use std::alloc::Global;

/// A program without function values, and what it keeps of a well formed one: the outcome at every number of turns; that it is well formed; its exceptions and
/// its expansion. What is a function by itself becomes a `fn`, and the sets are all functions of each type, with the tags 0, 1, 2 and so on in each. None only
/// for want of memory or of numbers, or where a variable is bound twice.
pub fn convert_program(alloc: Global, program: Program) -> Result<First, PassFault>
    ensures made { IfOk result (λ to. target.program_of to ≡ without_functions (texts (strings_of program.tables)) (source.program_of program)) }
    ensures same { source.IsWellFormed program → IfOk result (λ to. (turns : ℕ) → meaning (target.program_of to) turns ≡ source.meaning program turns) }
    ensures well_formed { source.IsWellFormed program → IfOk result (λ to. IsWellFormed (target.program_of to)) }
    ensures dense { IfOk result (λ to. AreDense (target.program_of to).tables.sets) }
    ensures exceptions { source.IsWellFormed program → IfOk result (λ to. BringsNone (source.exceptions program) (exceptions (target.program_of to))) }
    ensures size { IfOk result (λ to. to.expansion ≡ program.expansion) }
    ensures memory { IfErr result (λ fault. fault ≡ Memory) }
{
    conversions_are_well_formed();
    conversions_make_no_more();
    let tables = program.tables;
    let types = tables.types;
    let given = program.body;
    let body = explicit(alloc, &types, &given)?;
    let flow = flows(alloc, &types, &body)?;
    convert(
        alloc,
        &types,
        tables.initial,
        tables.strings,
        program.expansion,
        flow,
        &body,
    )
}

/// From simple types to the form without function values.
pub struct ConvertFunctions;

impl Pass<Program, First> for ConvertFunctions {
    fn pass(alloc: Global, prog: Program) -> Result<First, PassFault> {
        convert_program(alloc, prog)
    }
}
