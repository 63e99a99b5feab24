// Which constructors may stand in the program's table.
ghost use Rattle.std.specs.Prelude.{◌≡◌, false, true};
ghost use Rattle.ty_core.specs.declared.name.Equality.TheVariants.{Always};
ghost use Rattle.ty_table.specs.TypeAt.{type_at};
ghost use Rattle.ir_poly.specs.Types.{is_of_basis, IsConstructor};
ghost use Rattle.ir_tables.specs.Rows.{constructor_at};
ghost use Rattle.datatype_forms.specs.Standing.{IsFitting};

use ir_tables::constructors::Constructor;
use ty_core::name::{Equality, TyName};
use ty_table::types::Types;

/// The names of the basis.
const NAME_COUNT: u32 = 8;

/// Whether a datatype is none of the basis, and doesn't admit equality always.
fn is_declared(datatype: TyName) -> bool
    ensures declared { result ≡ true → is_of_basis datatype ≡ false }
    ensures equality { result ≡ true → datatype.equality ≡ Always → ⊥ }
{
    if datatype.stamp < NAME_COUNT {
        return false;
    }
    match datatype.equality {
        Equality::Always => false,
        Equality::ByArguments => true,
        Equality::Never => true,
    }
}

/// Whether an argument's type is over the datatype's parameters, and admits equality where the datatype does.
fn fits(types: &Types, datatype: TyName, argument: usize) -> bool
    ensures { result ≡ true → IsFitting datatype (type_at types.now argument) }
{
    if types.top(argument) > datatype.arity as usize {
        return false;
    }
    match datatype.equality {
        Equality::Always => true,
        Equality::ByArguments => types.admits_eq_everywhere(argument),
        Equality::Never => true,
    }
}

/// Whether a constructor may stand in the program's table.
pub fn may_stand(types: &Types, row: Constructor) -> bool
    ensures { result ≡ true → IsConstructor (constructor_at types.now row) }
{
    if !is_declared(row.datatype) {
        return false;
    }
    match row.argument {
        None => true,
        Some(argument) => fits(types, row.datatype, argument),
    }
}
