// One variable.
ghost use Rattle.std.specs.Prelude.{◌∷◌, IfOk};
ghost use Rattle.ty_table.specs.TypeAt.{type_at};
ghost use Rattle.prog_known.specs.Onto.{Onto, known_by};

use ir_tables::tables::Tables;
use mlc_base::memory::NoMemory;
use prog_known::manner::{Manner, make_known};
use prog_known::variables::Variables;

/// Puts a variable of a type in scope.
pub fn bind_one(
    tables: &Tables,
    variables: &mut Variables,
    manner: Manner,
    variable: usize,
    ty: usize,
) -> Result<(), NoMemory>
    ensures { IfOk result (λ _. Onto tables.now variables.old variables.new (λ G. (variable, known_by tables.now manner (type_at tables.now.types ty)) ∷ G)) }
{
    let known = make_known(tables, manner, ty);
    variables.bind(variable, known)?;
    Ok(())
}
