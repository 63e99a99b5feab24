// Constructors of the program's datatypes.
ghost use Rattle.std.specs.Prelude.{◌≡◌, length, nat_eq, IfOk};
ghost use Rattle.indexmap.specs.IndexMap.{get};
ghost use Rattle.elab_state.specs.Readings.{IsHeldArgument};
ghost use Rattle.datatype_forms.specs.Steps.{IsArgument, IsProgramRow, IsRow, KnowsTypes};

use crate::program_types::{Names, program_type};
use crate::standing::may_stand;
use elab_state::state::State;
use elab_types::refused::Refused;
use indexmap::IndexMap;
use ir_tables::constructors::Constructor;
use mlc_base::memory::NoMemory;
use std::alloc::Global;
use ty_core::name::TyName;

/// One more row that may stand in the program's table, where that has none of its numbers. No other is made.
fn push_row(state: &mut State, row: Constructor) -> Result<(), NoMemory>
    requires { IsHeldArgument (length state.old.tables.types) row.argument }
    ensures { IfOk result (λ _. IsRow state.old row state.new) }
{
    if state
        .tables
        .constructors
        .find(row.datatype, row.number)
        .is_some()
    {
        return Err(NoMemory);
    }
    if !may_stand(&state.tables.types, row) {
        return Err(NoMemory);
    }
    state.tables.constructors.push(row)?;
    Ok(())
}

/// The argument's type in the program's table.
fn program_argument(
    alloc: Global,
    state: &mut State,
    names: &Names<'_>,
    known: &mut IndexMap<usize, usize>,
    argument: Option<usize>,
) -> Result<Option<usize>, Refused>
    requires { KnowsTypes state.old names.now (get nat_eq known.old) }
    ensures { IfOk result (λ o. IsArgument state.old names.now argument state.new (get nat_eq known.new) o) }
{
    match argument {
        None => Ok(None),
        Some(ty) => {
            let solver = &state.solver;
            let tables = &mut state.tables;
            let number = program_type(
                alloc,
                &solver.subst.types,
                names,
                known,
                &mut tables.types,
                ty,
            )?;
            Ok(Some(number))
        }
    }
}

/// One more constructor of the program, whose argument has no type names but those in use.
pub fn add_row(
    alloc: Global,
    state: &mut State,
    names: &Names<'_>,
    known: &mut IndexMap<usize, usize>,
    datatype: TyName,
    number: usize,
    argument: Option<usize>,
) -> Result<(), Refused>
    requires { KnowsTypes state.old names.now (get nat_eq known.old) }
    ensures { IfOk result (λ _. IsProgramRow state.old names.now datatype number argument state.new (get nat_eq known.new)) }
{
    let argument = program_argument(alloc, state, names, known, argument)?;
    push_row(
        state,
        Constructor {
            datatype,
            number,
            argument,
        },
    )?;
    Ok(())
}
