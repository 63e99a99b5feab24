// How variables are declared.
ghost use Rattle.std.specs.Prelude.{◌≡◌};
ghost use Rattle.ty_table.specs.TypeAt.{type_at};
ghost use Rattle.ir_known.specs.of_ir_tables.Tables.{parameters_of};
ghost use Rattle.ir_known.specs.Knows.{known_of};
ghost use Rattle.prog_known.specs.Onto.{known_by};

use ir_known::ir_tables::tables::Tables;
use ir_known::known::{Known, declare};

/// Each of one type; generalised over a list of parameters, where it has any; or as functions inside their own group.
#[derive(Clone, Copy)]
pub enum Manner {
    Plain,
    Over(usize),
    Own,
}

/// What a variable of a type is.
pub fn make_known(tables: &Tables, manner: Manner, ty: usize) -> Known
    ensures { known_of tables.now.types (parameters_of tables.now) result ≡ known_by tables.now manner (type_at tables.now.types ty) }
{
    match manner {
        Manner::Plain => Known::OfType(ty),
        Manner::Over(parameters) => declare(tables, parameters, ty),
        Manner::Own => Known::Own(ty),
    }
}
