// The program's tables at the end of elaboration.
ghost use Rattle.std.specs.Prelude.{◌≡◌, ℕ, length, slice_get, take, IfOk};
ghost use Rattle.ty_core.specs.Types.{Typ};
ghost use Rattle.ty_table.specs.TypeAt.{type_at};
ghost use Rattle.ir_poly.specs.TestsChecked.{exn_type};
ghost use Rattle.prog_renumber.specs.Renumbered.{number_at};
ghost use Rattle.elab_state.specs.Namings.{AreNamings};
ghost use Rattle.elab_state.specs.Readings.{type_if};
ghost use Rattle.final_types.specs.Ended.{IsEnded};
ghost use Rattle.final_types.specs.Nodes.{IsEnd, types_of};

use crate::enter::enter_all;
use elab_state::naming::{Naming, Written};
use elab_state::state::State;
use ir_tables::tables::Tables;
use mlc_base::memory::NoMemory;
use prog_renumber::numbers::Numbers;
use std::alloc::Global;
use ty_core::name::TyName;
use ty_core::ty::Head;
use ty_solve::solver::Solver;
use ty_table::types::Types;

/// The program's tables, the numbers in them of the types that the tree writes, and that of the type of exceptions.
#[derive(Drop)]
pub struct Finished {
    pub tables: Tables,
    pub numbers: Numbers,
    pub exn: usize,
}

/// The numbers in a table of the types that the tree writes, as they are in the end; and that of the type of exceptions.
fn enter_types(
    alloc: Global,
    solver: &Solver,
    namings: &[Naming],
    written: &[Written],
    types: &mut Types,
) -> Result<(Numbers, usize), NoMemory>
    requires { AreNamings namings.now }
    ensures numbers { IfOk result (λ made. (g : ℕ → Typ) → IsEnd solver.now g → (k : ℕ)
        → type_at types.new (number_at made.0 k) ≡ type_if (types_of solver.now) g namings.now (slice_get written.now k)) }
    ensures exn { IfOk result (λ made. type_at types.new made.1 ≡ exn_type) }
    ensures earlier_stay { take (length types.old) types.new ≡ types.old }
{
    let numbers = enter_all(alloc, solver, namings, written, types)?;
    let other = types.variable(alloc, 0)?;
    let exn = types.apply(alloc, Head::Named(TyName::EXN), &[])?;
    Ok((Numbers { numbers, other }, exn))
}

/// The tables of a program whose declarations were elaborated: the state's, with the types that the tree writes.
pub fn finish(alloc: Global, state: State) -> Result<Finished, NoMemory>
    ensures { IfOk result (IsEnded state) }
{
    let State {
        solver,
        written,
        namings,
        tables,
        next: _,
        level: _,
        flexible: _,
    } = state;
    let mut finished = tables;
    match enter_types(alloc, &solver, &namings, &written, &mut finished.types) {
        Ok((numbers, exn)) => Ok(Finished {
            tables: finished,
            numbers,
            exn,
        }),
        Err(e) => Err(e),
    }
}
