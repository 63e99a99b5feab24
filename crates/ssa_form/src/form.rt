// Programs.
ghost use Rattle.std.specs.Prelude.{◌≡◌, ◌↔◌, ℕ, map, Some, IsTrue, IfOk, slice_get};
ghost use Rattle.first_known.specs.Takings.{takings_of};
ghost use Rattle.first_tables.specs.TablesOf.{tables_of};
ghost use Rattle.ssa_tree.specs.TreeOf.{fun_of};
ghost use Rattle.ssa_tree.specs.Exceptions.{exceptions as exceptions_of};
ghost use Rattle.ssa_form.specs.Programs.{program_of};
ghost use Rattle.ir_ssa.specs.Meaning.{meaning as meaning_of};
ghost use Rattle.ir_ssa.specs.WellFormed.{IsWellFormed, arity};

use crate::scoped::are_scoped;
use first_known::answers::both;
use first_known::calls::find_takings;
use first_known::tables::are_tables;
use first_tables::tables::Tables;
use mlc_base::memory::NoMemory;
use mlc_runs::pass::{Check, Form};
use ssa_tree::tree::Fun;
use std::alloc::Global;

/// A program in SSA form: its tables, its functions, of which the first is the program itself, and how many nodes it has written out.
#[derive(Drop)]
pub struct Ssa {
    pub tables: Tables,
    pub funs: Vec<Fun>,
    pub expansion: usize,
}

fn find_arities(alloc: Global, funs: &[Fun]) -> Result<Vec<usize>, NoMemory>
    ensures { IfOk result (λ arities. arities.items ≡ map arity (map fun_of funs.now)) }
{
    let mut arities = Vec::new(alloc);
    for i in 0..funs.len() {
        arities.push(funs[i].params.len())?;
    }
    Ok(arities)
}

/// Whether the first function takes nothing.
fn starts(arities: &[usize]) -> bool
    ensures { IsTrue result ↔ (slice_get arities.now 0 ≡ Some 0) }
{
    if arities.is_empty() {
        false
    } else {
        arities[0] == 0
    }
}

fn is_well_formed(alloc: Global, program: &Ssa) -> Result<bool, NoMemory>
    ensures { IfOk result (λ yes. IsTrue yes ↔ IsWellFormed (program_of program.now)) }
{
    let arities = find_arities(alloc, &program.funs)?;
    let takings = find_takings(alloc, &arities, &program.tables.sets)?;
    let scoped = are_scoped(alloc, &program.tables, &arities, &takings, &program.funs)?;
    let tables = are_tables(&program.tables);
    let main = starts(&arities);
    Ok(both(both(tables, main), scoped))
}

impl Form for Ssa {
    ghost meaning = { λ program. meaning_of (program_of program) };

    ghost is_well_formed = { λ program. IsWellFormed (program_of program) };

    ghost exceptions = { λ program. exceptions_of (program_of program) };

    ghost expansion = { λ program. program.expansion };

    fn check(&self, alloc: Global) -> Check {
        match is_well_formed(alloc, self) {
            Ok(yes) => if yes { Check::Yes } else { Check::No },
            Err(_) => Check::Memory,
        }
    }
}
