// Which of the new names admit equality: as many as can.
ghost use Rattle.std.specs.Prelude.{◌≡◌, ◌++◌, ◌∷◌, [], List, Bool, length, map, IfOk};
ghost use Rattle.datatype_equality.specs.Respects.{AllBelow, Respects};
ghost use Rattle.elab_state.specs.States.{types_in};
ghost use Rattle.datatype_forms.specs.Arguments.{all_arguments, row_arguments};

use datatype_equality::argument::Argument;
use datatype_equality::equality::equality_of_datatypes;
use elab_state::state::State;
use mlc_base::memory::NoMemory;
use std::alloc::Global;

/// So many names, all of which admit equality.
pub fn all_marks(alloc: Global, count: usize) -> Result<Vec<bool>, NoMemory>
    ensures { IfOk result (λ qs. length qs.items ≡ count) }
{
    let marks = vec![in alloc; true; count]?;
    Ok(marks)
}

/// One argument more, if there is one.
fn push_argument(
    arguments: &mut Vec<Argument>,
    datatype: usize,
    ty: Option<usize>,
) -> Result<(), NoMemory>
    ensures { IfOk result (λ _. arguments.new.items ≡ arguments.old.items ++ row_arguments datatype (ty ∷ [])) }
{
    match ty {
        None => Ok(()),
        Some(ty) => {
            arguments.push(Argument { datatype, ty })?;
            Ok(())
        }
    }
}

/// Those of a datatype's constructors.
fn push_arguments(
    arguments: &mut Vec<Argument>,
    datatype: usize,
    row: &[Option<usize>],
) -> Result<(), NoMemory>
    ensures { IfOk result (λ _. arguments.new.items ≡ arguments.old.items ++ row_arguments datatype row.now) }
{
    for i in 0..row.len() {
        push_argument(arguments, datatype, row[i])?;
    }
    Ok(())
}

/// Those of all datatypes, each with the place of its datatype.
fn arguments_of(alloc: Global, rows: &[Vec<Option<usize>>]) -> Result<Vec<Argument>, NoMemory>
    ensures { IfOk result (λ found. found.items ≡ all_arguments 0 (map (λ ks. ks.items) rows.now)) }
{
    let mut arguments = Vec::new(alloc);
    for i in 0..rows.len() {
        push_arguments(&mut arguments, i, &rows[i])?;
    }
    Ok(arguments)
}

/// Which of the new names admit equality, where these are the arguments of each one's constructors.
pub fn best_marks(
    alloc: Global,
    state: &State,
    first: usize,
    rows: &[Vec<Option<usize>>],
) -> Result<Vec<bool>, NoMemory>
    ensures length { IfOk result (λ qs. length qs.items ≡ length rows.now) }
    ensures respects { IfOk result (λ qs. Respects first (types_in state.now) (all_arguments 0 (map (λ ks. ks.items) rows.now)) qs.items) }
    ensures greatest { IfOk result (λ qs. (rs : List Bool) → length rs ≡ length rows.now
        → Respects first (types_in state.now) (all_arguments 0 (map (λ ks. ks.items) rows.now)) rs → AllBelow rs qs.items) }
{
    let arguments = arguments_of(alloc, rows)?;
    let marks = equality_of_datatypes(
        alloc,
        &state.solver.subst.types,
        first,
        rows.len(),
        &arguments,
    )?;
    Ok(marks)
}
