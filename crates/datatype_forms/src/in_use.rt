// Arguments of constructors that have no type names but those in use.
ghost use Rattle.std.specs.Prelude.{map, nat_eq, option_map, IfOk};
ghost use Rattle.indexmap.specs.IndexMap.{get};
ghost use Rattle.ty_table.specs.TypeAt.{type_at};
ghost use Rattle.datatype_forms.specs.Arguments.{OverIf, RowOver, RowsOver, row_at, rows_at};
ghost use Rattle.datatype_forms.specs.ProgramTypes.{AreRight, number_by};

use crate::program_types::{Names, program_type};
use elab_types::refused::Refused;
use indexmap::IndexMap;
use mlc_base::place::Place;
use scoped_map::scoped::Scoped;
use std::alloc::Global;
use ty_table::types::Types;

/// Refuses an argument with another name. What was found of it is kept.
fn check_argument(
    alloc: Global,
    types: &Types,
    names: &Names<'_>,
    known: &mut IndexMap<usize, usize>,
    copies: &mut Types,
    argument: Option<usize>,
) -> Result<(), Refused>
    requires { AreRight types.now (number_by names.now.numbers.now) names.now.limit (get nat_eq known.old) copies.old }
    ensures over { IfOk result (λ _. OverIf names.now.limit (option_map (type_at types.now) argument)) }
    ensures right { IfOk result (λ _. AreRight types.now (number_by names.now.numbers.now) names.now.limit (get nat_eq known.new) copies.new) }
{
    match argument {
        None => Ok(()),
        Some(ty) => {
            let _copy = program_type(alloc, types, names, known, copies, ty)?;
            Ok(())
        }
    }
}

/// Refuses arguments of a datatype, of which one has another name.
fn check_row(
    alloc: Global,
    types: &Types,
    names: &Names<'_>,
    known: &mut IndexMap<usize, usize>,
    copies: &mut Types,
    row: &[Option<usize>],
) -> Result<(), Refused>
    requires { AreRight types.now (number_by names.now.numbers.now) names.now.limit (get nat_eq known.old) copies.old }
    ensures over { IfOk result (λ _. RowOver names.now.limit (row_at types.now row.now)) }
    ensures right { IfOk result (λ _. AreRight types.now (number_by names.now.numbers.now) names.now.limit (get nat_eq known.new) copies.new) }
{
    for i in 0..row.len() {
        check_argument(alloc, types, names, known, copies, row[i])?;
    }
    Ok(())
}

/// Refuses arguments of which one has a type name that isn't among the first so many.
pub fn check_over(
    alloc: Global,
    types: &Types,
    limit: usize,
    place: Place,
    rows: &[Vec<Option<usize>>],
) -> Result<(), Refused>
    ensures { IfOk result (λ _. RowsOver limit (rows_at types.now (map (λ ks. ks.items) rows.now))) }
{
    let numbers = Scoped::new(alloc);
    let names = Names {
        numbers: &numbers,
        limit,
        place,
    };
    let mut known = IndexMap::new(alloc);
    let mut copies = Types::new(alloc)?;
    for i in 0..rows.len() {
        check_row(alloc, types, &names, &mut known, &mut copies, &rows[i])?;
    }
    Ok(())
}
