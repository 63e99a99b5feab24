// Constants.
ghost use Rattle.std.specs.Prelude.{◌≡◌, ◌↔◌, List, ℕ, IsTrue};
ghost use Rattle.ty_table.specs.TypeAt.{type_at};
ghost use Rattle.ir_known.specs.of_ir_tables.Tables.{literal_at};
ghost use Rattle.ir_known.specs.of_ir_poly.TestsChecked.{HasLiteral};
ghost use Rattle.prog_check.specs.Deciding.{is_literal};
ghost use Rattle.ir_uses.specs.Uses.{name_of};

use ir_known::ask::is_named;
use ir_known::ir_tables::tables::Constant;
use ty_core::name::TyName;
use ty_table::types::Types;

/// The type name of a constant's type.
fn type_name(constant: Constant) -> TyName
    ensures { result ≡ name_of constant }
{
    match constant {
        Constant::Int(_) => TyName::INT,
        Constant::Word(_) => TyName::WORD,
        Constant::Char(_) => TyName::CHAR,
        Constant::Text(_) => TyName::STRING,
    }
}

/// Whether a constant has this type.
pub fn has_literal(types: &Types, constant: Constant, t: usize) -> bool
    ensures fits { (strings : List (List ℕ)) → IsTrue result ↔ HasLiteral (literal_at strings constant) (type_at types.now t) }
    ensures decided { (strings : List (List ℕ)) → result ≡ is_literal (literal_at strings constant) (type_at types.now t) }
{
    is_named(types, t, type_name(constant))
}
