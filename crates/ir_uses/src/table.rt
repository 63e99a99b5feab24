// The table of a program's constructors.
ghost use Rattle.std.specs.Prelude.{◌≡◌, ◌↔◌, ◌≤◌, IsTrue};
ghost use Rattle.std.specs.List.{AllByRecursion};
ghost use Rattle.std.specs.Option.{option_map};
ghost use Rattle.ty_table.specs.TypeAt.{type_at, top};
ghost use Rattle.ir_known.specs.of_ir_poly.Types.{IsConstructor};
ghost use Rattle.ir_known.specs.of_ir_tables.Rows.{constructor_at, constructors_at};
ghost use Rattle.ir_known.specs.of_ir_tables.Tables.{constructors_of};
ghost use Rattle.prog_check.specs.Program.{check_argument, check_constructor, check_datatype, check_table, respects};

use ir_known::ir_tables::constructors::Constructor;
use ir_known::ir_tables::tables::Tables;
use ty_core::name::{Equality, TyName};
use ty_table::types::Types;

/// How many type names the basis has.
const NAME_COUNT: u32 = 8;

/// Whether a type admits equality where it has to, for its datatype to do so.
fn has_equality(types: &Types, equality: Equality, t: usize) -> bool
    ensures { result ≡ respects equality (type_at types.now t) }
{
    match equality {
        Equality::Always => true,
        Equality::ByArguments => types.admits_eq_everywhere(t),
        Equality::Never => true,
    }
}

/// Whether the variables of a type are below a number.
fn is_below(types: &Types, t: usize, number: u32) -> bool
    ensures { IsTrue result ↔ (top (type_at types.now t) ≤ number) }
{
    types.top(t) <= number as usize
}

/// Whether a program may declare a datatype: it is none of the basis, and doesn't admit equality always.
fn is_declared(datatype: TyName) -> bool
    ensures { result ≡ check_datatype datatype }
{
    if datatype.stamp < NAME_COUNT {
        return false;
    }
    match datatype.equality {
        Equality::Always => false,
        Equality::ByArguments => true,
        Equality::Never => true,
    }
}

/// Whether the argument of a constructor of the datatype has a type over its parameters, which admits equality where the datatype does.
fn fits_datatype(types: &Types, datatype: TyName, argument: Option<usize>) -> bool
    ensures { result ≡ check_argument datatype.arity datatype.equality (option_map (type_at types.now) argument) }
{
    match argument {
        Some(t) => {
            if !is_below(types, t, datatype.arity) {
                return false;
            }
            has_equality(types, datatype.equality, t)
        }
        None => true,
    }
}

/// Whether a constructor may stand in a program's table.
fn is_row(types: &Types, row: Constructor) -> bool
    ensures { result ≡ check_constructor (constructor_at types.now row) }
{
    if !is_declared(row.datatype) {
        return false;
    }
    fits_datatype(types, row.datatype, row.argument)
}

/// Whether constructors may stand in a program's table.
fn are_constructors(types: &Types, rows: &[Constructor]) -> bool
    ensures { result ≡ check_table (constructors_at types.now rows.now) }
{
    for i in 0..rows.len() {
        if !is_row(types, rows[i]) {
            return false;
        }
    }
    true
}

/// Whether the constructors of the tables may stand in a program's table.
pub fn is_table(tables: &Tables) -> bool
    ensures fits { IsTrue result ↔ AllByRecursion IsConstructor (constructors_of tables.now) }
    ensures decided { result ≡ check_table (constructors_of tables.now) }
{
    are_constructors(&tables.types, tables.constructors.rows())
}
