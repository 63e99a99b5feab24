// The pass.
ghost use Rattle.std.specs.Prelude.{◌≡◌, ◌<◌, ℕ, Some, None, IfOk, IfErr};
ghost use Rattle.mlc_runs.specs.Passes.{BringsNone, greatest_expansion};
ghost use Rattle.mlc_runs.specs.declared.pass.PassFault.TheVariants.{Expansion};
ghost use Rattle.ir_tables.specs.Tables as before;
ghost use Rattle.ir_tests.specs.Programs as source;
ghost use Rattle.mono_form.specs.Programs as target;
ghost use Rattle.mono_form.specs.of_mono_operations.Reads as after;
ghost use Rattle.monomorphise.specs.Laws.{monomorphise};

use crate::first::EXN_NUMBER;
use crate::make::make;
use ir_tests::program::Program as Source;
use mlc_runs::pass::{Pass, PassFault};
use mono_copy::program::copy_program;
use mono_exceptions::law::copies_make_no_more;
use mono_form::mono_operations::tables::Tables;
use mono_form::program::Program as Target;
use monomorphise::law::monomorphise_keeps;
use std::alloc::Global;

/// A program with simple types: what `monomorphise` makes. It keeps the outcome of a well formed one at every number of turns, goes wrong at none, and is well
/// formed; it has no further exceptions, the same strings, and carries its expansion. Expansion is answered only where there is no such program, its nodes being
/// more than may be; else Err is want of memory or of numbers.
pub fn monomorphise_program(alloc: Global, program: Source) -> Result<Target, PassFault>
    ensures made { IfOk result (λ to. monomorphise (source.tests_of program) ≡ Some (target.program_of to)) }
    ensures well_formed { source.IsWellFormed program → IfOk result (λ to. target.IsWellFormed to) }
    ensures same { source.IsWellFormed program → IfOk result (λ to. (turns : ℕ) → target.meaning to turns ≡ source.meaning program turns) }
    ensures never_wrong { source.IsWellFormed program → IfOk result (λ to. target.NeverWrong to) }
    ensures exceptions { IfOk result (λ to. BringsNone (source.exceptions program) (target.exceptions to)) }
    ensures size { IfOk result (λ to. to.expansion ≡ source.expansion program) }
    ensures strings { IfOk result (λ to. after.strings_of to.tables ≡ before.strings_of program.tables) }
    ensures refused { IfErr result (λ fault. fault ≡ Expansion → monomorphise (source.tests_of program) ≡ None) }
    ensures too_large { IfErr result (λ fault. fault ≡ Expansion → greatest_expansion < source.expansion program) }
{
    monomorphise_keeps();
    copies_make_no_more();
    let mut tables = program.tables;
    let body = program.body;
    let mut copier = copy_program(alloc, &tables, &body)?;
    let made = make(alloc, &mut tables.types, &tables.constructors, &mut copier)?;
    Ok(Target {
        tables: Tables {
            types: made.types,
            initial: tables.initial,
            strings: tables.strings,
            exn: EXN_NUMBER,
        },
        expansion: made.expansion,
        body: made.body,
    })
}

/// From instances to simple types.
pub struct Monomorphise;

impl Pass<Source, Target> for Monomorphise {
    fn pass(alloc: Global, prog: Source) -> Result<Target, PassFault> {
        monomorphise_program(alloc, prog)
    }
}
