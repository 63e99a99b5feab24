// Records with fields that are not yet known.
ghost use Rattle.std.specs.Prelude.{◌≡◌, ◌<◌, ◌↔◌, ◌++◌, ◌∷◌, [], List, nat_eq, length, IfOk, IsTrue, MatchOption};
ghost use Rattle.indexmap.specs.IndexMap.{get};
ghost use Rattle.ty_table.specs.of_ty_core.Types.{Typ};
ghost use Rattle.ty_table.specs.TypeAt.{type_at, types_at, AllBelow};
ghost use Rattle.ty_solve.specs.Rows.{Among, IsProper};
ghost use Rattle.ty_solve.specs.SlotsOf.{row_in, tasks_of};
ghost use Rattle.ty_solve.specs.Held.{AreHeldTasks};
ghost use Rattle.ty_solve.specs.Places.{AreNoted};
ghost use Rattle.ty_solve.specs.Fields.{IsLacking, FieldMeets, FieldsMeet, OthersAdmit, IsUnion, Joins};

use crate::places::{all_places, note, place};
use crate::task::Todo;
use indexmap::IndexMap;
use mlc_base::memory::NoMemory;
use mlc_names::label::Label;
use std::alloc::Global;
use ty_table::ty_core::mark::Mark;
use ty_table::ty_core::ty::copy_labels;
use ty_table::types::Types;

/// The fields that a record is known to have. It may have further ones, which admit equality where `equality` is true.
#[derive(Drop)]
pub struct Row {
    pub equality: bool,
    pub labels: Vec<Label>,
    pub types: Vec<usize>,
}

impl Row {
    /// A record of which nothing is known.
    pub fn empty(alloc: Global, equality: bool) -> Row
        ensures equality { result.equality ≡ equality }
        ensures labels { result.labels.items ≡ [] }
        ensures types { result.types.items ≡ [] }
    {
        Row {
            equality,
            labels: Vec::new(alloc),
            types: Vec::new(alloc),
        }
    }
}

/// The numbers of a list in memory of their own.
fn copy_numbers(alloc: Global, numbers: &[usize]) -> Result<Vec<usize>, NoMemory>
    ensures { IfOk result (λ to. to.items ≡ numbers.now) }
{
    let mut to = Vec::new(alloc);
    to.extend_from_slice(numbers)?;
    Ok(to)
}

/// The same row in memory of its own.
pub fn copy_row(alloc: Global, row: &Row) -> Result<Row, NoMemory>
    ensures equality { IfOk result (λ to. to.equality ≡ row.now.equality) }
    ensures labels { IfOk result (λ to. to.labels.items ≡ row.now.labels.items) }
    ensures types { IfOk result (λ to. to.types.items ≡ row.now.types.items) }
{
    let labels = copy_labels(alloc, &row.labels)?;
    let types = copy_numbers(alloc, &row.types)?;
    Ok(Row {
        equality: row.equality,
        labels,
        types,
    })
}

/// Whether each label has a type and none comes twice.
pub fn is_proper(alloc: Global, labels: &[Label], types: &[usize]) -> Result<bool, NoMemory>
    ensures { IfOk result (λ proper. (ts : List Typ) → IsTrue proper ↔ IsProper labels.now (types_at ts types.now)) }
{
    if labels.len() != types.len() {
        return Ok(false);
    }
    let mut places = IndexMap::new(alloc);
    for i in 0..labels.len() {
        match place(&places, labels[i]) {
            Some(_) => return Ok(false),
            None => note(&mut places, labels[i], i)?,
        }
    }
    Ok(true)
}

/// The first of the known labels that a record hasn't.
pub fn lacking(alloc: Global, known: &[Label], labels: &[Label]) -> Result<Option<Label>, NoMemory>
    ensures { IfOk result (λ found. MatchOption found ((l : Label) → Among l known.now → Among l labels.now) (IsLacking known.now labels.now)) }
{
    let places = all_places(alloc, labels)?;
    for i in 0..known.len() {
        match place(&places, known[i]) {
            Some(_) => {}
            None => return Ok(Some(known[i])),
        }
    }
    Ok(None)
}

/// Asks that a type is equal to that of the field with this label, if there is one.
fn equal_field(
    table: &Types,
    tasks: &mut Vec<Todo>,
    label: Label,
    t: usize,
    places: &IndexMap<u64, usize>,
    labels: &[Label],
    types: &[usize],
) -> Result<(), NoMemory>
    requires noted { AreNoted labels.now (length labels.now) (get nat_eq places.now) }
    requires proper { IsProper labels.now (types_at table.now types.now) }
    requires same_length { length labels.now ≡ length types.now }
    ensures meets { IfOk result (λ _. FieldMeets (tasks_of table.now tasks.old.items) (tasks_of table.now tasks.new.items) label (type_at table.now t)
        labels.now (types_at table.now types.now)) }
    ensures held { IfOk result (λ _. t < length table.now → AllBelow (length table.now) types.now → AreHeldTasks (length table.now) tasks.old.items
        → AreHeldTasks (length table.now) tasks.new.items) }
{
    let _table = table.len();
    let _labels = labels.len();
    match place(places, label) {
        None => Ok(()),
        Some(i) => {
            tasks.push(Todo::Equal(t, types[i]))?;
            Ok(())
        }
    }
}

/// Asks that the types of common labels are equal.
pub fn equal_common(
    alloc: Global,
    table: &Types,
    tasks: &mut Vec<Todo>,
    labels: &[Label],
    types: &[usize],
    others: &[Label],
    other_types: &[usize],
) -> Result<(), NoMemory>
    requires same_length { length labels.now ≡ length types.now }
    requires other_proper { IsProper others.now (types_at table.now other_types.now) }
    requires other_length { length others.now ≡ length other_types.now }
    ensures meet { IfOk result (λ _. FieldsMeet (tasks_of table.now tasks.old.items) (tasks_of table.now tasks.new.items) labels.now
        (types_at table.now types.now) others.now (types_at table.now other_types.now)) }
    ensures held { IfOk result (λ _. AllBelow (length table.now) types.now → AllBelow (length table.now) other_types.now
        → AreHeldTasks (length table.now) tasks.old.items → AreHeldTasks (length table.now) tasks.new.items) }
{
    let places = all_places(alloc, others)?;
    for i in 0..labels.len() {
        equal_field(
            table,
            tasks,
            labels[i],
            types[i],
            &places,
            others,
            other_types,
        )?;
    }
    Ok(())
}

/// Asks, where `equality` is true, that the types of labels other than the known ones admit equality.
pub fn admit_others(
    alloc: Global,
    table: &Types,
    tasks: &mut Vec<Todo>,
    equality: bool,
    labels: &[Label],
    types: &[usize],
    known: &[Label],
) -> Result<(), NoMemory>
    requires { length labels.now ≡ length types.now }
    ensures admit { IfOk result (λ _. OthersAdmit equality (tasks_of table.now tasks.old.items) (tasks_of table.now tasks.new.items) labels.now
        (types_at table.now types.now) known.now) }
    ensures held { IfOk result (λ _. AllBelow (length table.now) types.now → AreHeldTasks (length table.now) tasks.old.items
        → AreHeldTasks (length table.now) tasks.new.items) }
{
    let _table = table.len();
    if !equality {
        return Ok(());
    }
    let places = all_places(alloc, known)?;
    for i in 0..labels.len() {
        match place(&places, labels[i]) {
            Some(_) => {}
            None => tasks.push(Todo::Admit(Mark::Equality, types[i]))?,
        }
    }
    Ok(())
}

/// Adds a field.
fn add(row: &mut Row, label: Label, t: usize) -> Result<(), NoMemory>
    ensures equality { row.new.equality ≡ row.old.equality }
    ensures labels { IfOk result (λ _. row.new.labels.items ≡ row.old.labels.items ++ label ∷ []) }
    ensures types { IfOk result (λ _. row.new.types.items ≡ row.old.types.items ++ t ∷ []) }
{
    row.labels.push(label)?;
    row.types.push(t)?;
    Ok(())
}

/// Adds the fields with labels that the row hasn't yet.
fn unite(
    alloc: Global,
    table: &Types,
    row: &mut Row,
    labels: &[Label],
    types: &[usize],
) -> Result<(), NoMemory>
    requires proper { IsProper row.old.labels.items (types_at table.now row.old.types.items) }
    requires other_proper { IsProper labels.now (types_at table.now types.now) }
    requires other_length { length labels.now ≡ length types.now }
    ensures equality { IfOk result (λ _. row.new.equality ≡ row.old.equality) }
    ensures union { IfOk result (λ _. IsUnion row.old.labels.items (types_at table.now row.old.types.items) labels.now (types_at table.now types.now)
        row.new.labels.items (types_at table.now row.new.types.items)) }
    ensures held { IfOk result (λ _. AllBelow (length table.now) row.old.types.items → AllBelow (length table.now) types.now
        → AllBelow (length table.now) row.new.types.items) }
{
    let _table = table.len();
    let mut places = all_places(alloc, &row.labels)?;
    for i in 0..labels.len() {
        match place(&places, labels[i]) {
            Some(_) => {}
            None => {
                note(&mut places, labels[i], row.labels.len())?;
                add(row, labels[i], types[i])?;
            }
        }
    }
    Ok(())
}

/// The row of all fields of two rows.
pub fn join(
    alloc: Global,
    table: &Types,
    row: Row,
    other: &Row,
    tasks: &mut Vec<Todo>,
) -> Result<Row, NoMemory>
    requires proper { IsProper row.labels.items (types_at table.now row.types.items) }
    requires other_proper { IsProper other.now.labels.items (types_at table.now other.now.types.items) }
    ensures joins { IfOk result (λ r. Joins (tasks_of table.now tasks.old.items) (tasks_of table.now tasks.new.items) (row_in table.now row)
        (row_in table.now other.now) (row_in table.now r)) }
    ensures held { IfOk result (λ r. AllBelow (length table.now) row.types.items → AllBelow (length table.now) other.now.types.items
        → AllBelow (length table.now) r.types.items) }
    ensures held_tasks { IfOk result (λ _. AllBelow (length table.now) row.types.items → AllBelow (length table.now) other.now.types.items
        → AreHeldTasks (length table.now) tasks.old.items → AreHeldTasks (length table.now) tasks.new.items) }
{
    admit_others(
        alloc,
        table,
        tasks,
        row.equality,
        &other.labels,
        &other.types,
        &row.labels,
    )?;
    admit_others(
        alloc,
        table,
        tasks,
        other.equality,
        &row.labels,
        &row.types,
        &other.labels,
    )?;
    equal_common(
        alloc,
        table,
        tasks,
        &row.labels,
        &row.types,
        &other.labels,
        &other.types,
    )?;
    let mut all = row;
    unite(alloc, table, &mut all, &other.labels, &other.types)?;
    all.equality = all.equality || other.equality;
    Ok(all)
}
