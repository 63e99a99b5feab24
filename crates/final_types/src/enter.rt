// All types that a program's tree writes.
ghost use Rattle.std.specs.Prelude.{◌≡◌, ℕ, length, take, IfOk};
ghost use Rattle.ty_core.specs.Types.{Typ};
ghost use Rattle.elab_state.specs.Namings.{AreNamings};
ghost use Rattle.final_types.specs.Images.{AreEntered};
ghost use Rattle.final_types.specs.Making.{IsSource, namings_of};
ghost use Rattle.final_types.specs.Nodes.{IsEnd, types_of};

use crate::bound::bounds_of;
use crate::making::Making;
use crate::names::{Names, jumps_of};
use crate::source::Source;
use elab_state::naming::{Naming, Written};
use mlc_base::memory::NoMemory;
use std::alloc::Global;
use ty_solve::solver::Solver;
use ty_table::types::Types;

/// The numbers of types that were written, one after the other.
fn enter_each(
    alloc: Global,
    source: &Source<'_>,
    written: &[Written],
    types: &mut Types,
) -> Result<Vec<usize>, NoMemory>
    requires { IsSource source.now }
    ensures entered { IfOk result (λ ks. (g : ℕ → Typ) → IsEnd source.now.solver.now g
        → AreEntered (types_of source.now.solver.now) types.new (namings_of source.now) g written.now ks.items) }
    ensures earlier_stay { take (length types.old) types.new ≡ types.old }
{
    let mut making = Making::new(alloc);
    let mut numbers = Vec::new(alloc);
    for i in 0..written.len() {
        let number = making.enter(alloc, source, types, written[i].ty, written[i].naming)?;
        numbers.push(number)?;
    }
    Ok(numbers)
}

/// The numbers in a program's table of the types that its tree writes, as they are in the end.
pub fn enter_all(
    alloc: Global,
    solver: &Solver,
    namings: &[Naming],
    written: &[Written],
    types: &mut Types,
) -> Result<Vec<usize>, NoMemory>
    requires { AreNamings namings.now }
    ensures entered { IfOk result (λ ks. (g : ℕ → Typ) → IsEnd solver.now g → AreEntered (types_of solver.now) types.new namings.now g written.now ks.items) }
    ensures earlier_stay { take (length types.old) types.new ≡ types.old }
{
    let jumps = jumps_of(alloc, namings)?;
    let bounds = bounds_of(alloc, solver)?;
    let source = Source {
        solver,
        names: Names {
            namings,
            jumps: &jumps,
        },
        bounds: &bounds,
    };
    enter_each(alloc, &source, written, types)
}
