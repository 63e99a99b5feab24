// A type that is no variable and the fields of a row.
ghost use Rattle.std.specs.Prelude.{◌≡◌, ℕ, length, IfOk, IfErr};
ghost use Rattle.ty_table.specs.of_ty_core.Types.{con, labels as labelled};
ghost use Rattle.ty_table.specs.of_ty_core.TypesOf.{head_of};
ghost use Rattle.ty_table.specs.TypeAt.{types_at, AllBelow};
ghost use Rattle.ty_solve.specs.Rows.{IsProper};
ghost use Rattle.ty_solve.specs.Substitution.{Entry};
ghost use Rattle.ty_solve.specs.SlotsOf.{row_in, tasks_of};
ghost use Rattle.ty_solve.specs.Held.{AreHeldTasks};
ghost use Rattle.ty_solve.specs.Changes.{RefusesRow};
ghost use Rattle.ty_solve.specs.Fields.{Closes};

use crate::refused::UnifyRefused;
use crate::row::{Row, admit_others, equal_common, is_proper, lacking};
use crate::task::Todo;
use mlc_names::label::Label;
use std::alloc::Global;
use ty_table::ty_core::ty::Head;
use ty_table::types::Types;

/// Gives a type that is no variable the fields of a row.
pub fn close(
    alloc: Global,
    table: &Types,
    head: &Head,
    types: &[usize],
    row: &Row,
    tasks: &mut Vec<Todo>,
) -> Result<(), UnifyRefused>
    requires { IsProper row.now.labels.items (types_at table.now row.now.types.items) }
    ensures closes { IfOk result (λ _. Closes (tasks_of table.now tasks.old.items) (tasks_of table.now tasks.new.items) (row_in table.now row.now)
        (con (head_of head.now) (types_at table.now types.now))) }
    ensures held { IfOk result (λ _. AllBelow (length table.now) types.now → AllBelow (length table.now) row.now.types.items
        → AreHeldTasks (length table.now) tasks.old.items → AreHeldTasks (length table.now) tasks.new.items) }
    ensures cause { IfErr result (λ e. (s : ℕ → Entry) → RefusesRow s (row_in table.now row.now) (con (head_of head.now) (types_at table.now types.now)) e) }
{
    match head {
        Head::Function => Err(UnifyRefused::Clash),
        Head::Named(_) => Err(UnifyRefused::Clash),
        Head::Record(labels) => close_record(alloc, table, labels, types, row, tasks),
    }
}

/// Gives a record the fields of a row.
fn close_record(
    alloc: Global,
    table: &Types,
    labels: &[Label],
    types: &[usize],
    row: &Row,
    tasks: &mut Vec<Todo>,
) -> Result<(), UnifyRefused>
    requires { IsProper row.now.labels.items (types_at table.now row.now.types.items) }
    ensures closes { IfOk result (λ _. Closes (tasks_of table.now tasks.old.items) (tasks_of table.now tasks.new.items) (row_in table.now row.now)
        (con (labelled labels.now) (types_at table.now types.now))) }
    ensures held { IfOk result (λ _. AllBelow (length table.now) types.now → AllBelow (length table.now) row.now.types.items
        → AreHeldTasks (length table.now) tasks.old.items → AreHeldTasks (length table.now) tasks.new.items) }
    ensures cause { IfErr result (λ e. (s : ℕ → Entry) → RefusesRow s (row_in table.now row.now) (con (labelled labels.now) (types_at table.now types.now)) e) }
{
    let _table = table.len();
    let proper = is_proper(alloc, labels, types)?;
    if !proper {
        return Err(UnifyRefused::Clash);
    }
    let missing = lacking(alloc, &row.labels, labels)?;
    match missing {
        Some(_) => Err(UnifyRefused::Clash),
        None => {
            equal_common(alloc, table, tasks, labels, types, &row.labels, &row.types)?;
            admit_others(
                alloc,
                table,
                tasks,
                row.equality,
                labels,
                types,
                &row.labels,
            )?;
            Ok(())
        }
    }
}
