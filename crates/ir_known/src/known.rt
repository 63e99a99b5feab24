// What a variable is.
ghost use Rattle.std.specs.Prelude.{◌≡◌};
ghost use Rattle.ir_tables.specs.of_ty_table.TypeAt.{type_at};
ghost use Rattle.ir_tables.specs.Tables.{parameters_of, parameters_at};
ghost use Rattle.ir_tables.specs.of_ir_poly.TestsChecked.{declared};
ghost use Rattle.ir_known.specs.Knows.{known_of};

use ir_tables::tables::Tables;

/// Of one type; generalised over a list of parameters; a function inside its own group; or an exception, with the type of its argument.
#[derive(Clone, Copy)]
pub enum Known {
    OfType(usize),
    General { parameters: usize, ty: usize },
    Own(usize),
    Exception(Option<usize>),
}

/// A variable that is declared of a type over a list of parameters.
pub fn declare(tables: &Tables, parameters: usize, ty: usize) -> Known
    ensures { known_of tables.now.types (parameters_of tables.now) result
        ≡ declared (parameters_at (parameters_of tables.now) parameters) (type_at tables.now.types ty) }
{
    if tables.parameters(parameters).is_empty() {
        Known::OfType(ty)
    } else {
        Known::General { parameters, ty }
    }
}
