// Types of records, in the state.
ghost use Rattle.std.specs.Prelude.{◌≡◌, ◌<◌, ◌≤◌, ℕ, true, map, IfOk};
ghost use Rattle.std.specs.List.{AllByRecursion};
ghost use Rattle.ty_basis.specs.Types.{row_type};
ghost use Rattle.elab_types.specs.of_core_rules.Objects.{sorted as sorted_row};
ghost use Rattle.elab_state.specs.of_ir_poly.Types.{ascend};
ghost use Rattle.label_rows.specs.Sorting.{sorted};
ghost use Rattle.elab_state.specs.States.{dead_level};
ghost use Rattle.elab_steps.specs.Growing.{HasType, Always, Grows, IsLimited, IsWithin};
ghost use Rattle.elab_steps.specs.Rows.{AreBounded, HasFields, row_of};
ghost use Rattle.elab_steps.specs.World.{type_of};

use crate::flexible::note_flexible;
use crate::step::{apply, fresh_row, fresh_type, unify};
use elab_state::state::State;
use elab_types::refused::Refused;
use elab_types::ty_solve::limit::Limit;
use elab_types::ty_solve::row::Row;
use label_rows::sort::{Field, sort_fields, stands_before};
use mlc_base::memory::NoMemory;
use mlc_base::place::Place;
use mlc_names::label::Label;
use std::alloc::Global;
use ty_core::mark::Mark;
use ty_core::ty::Head;

/// Whether each label stands before the next.
fn are_ascending(fields: &[Field]) -> bool
    ensures { result ≡ ascend (map (λ f. f.label) fields.now) }
{
    for i in 1..fields.len() {
        if !stands_before(fields[i - 1].label, fields[i].label) {
            return false;
        }
    }
    true
}

/// The labels of fields.
fn labels_of(alloc: Global, fields: &[Field]) -> Result<Vec<Label>, NoMemory>
    ensures { IfOk result (λ labels. labels.items ≡ map (λ f. f.label) fields.now) }
{
    let mut labels = Vec::new(alloc);
    for i in 0..fields.len() {
        labels.push(fields[i].label)?;
    }
    Ok(labels)
}

/// The type of records with these fields, however they are written; none has a label twice.
pub fn record_type(
    alloc: Global,
    state: &mut State,
    place: Place,
    fields: &[Field],
) -> Result<usize, Refused>
    requires { AllByRecursion (λ f. HasType state.old f.part) fields.now }
    ensures grows { IfOk result (λ _. Grows state.old state.new) }
    ensures is { IfOk result (λ r. HasType state.new r) }
    ensures once { IfOk result (λ _. ascend (map (λ f. f.label) (sorted fields.now)) ≡ true) }
    ensures has { IfOk result (λ r. Always state.new (λ W. type_of W r ≡ row_type (sorted_row (row_of W fields.now)))) }
    ensures next { IfOk result (λ _. state.new.next ≡ state.old.next) }
{
    let fields = sort_fields(alloc, fields)?;
    if !are_ascending(&fields) {
        return Err(Refused::Broken(place));
    }
    let mut labels = Vec::new(alloc);
    let mut parts = Vec::new(alloc);
    for i in 0..fields.len() {
        labels.push(fields[i].label)?;
        parts.push(fields[i].part)?;
    }
    Ok(apply(alloc, state, Head::Record(labels), &parts)?)
}

/// A type that is made the same, of which no variable reaches further than a limit.
fn bounded(
    alloc: Global,
    state: &mut State,
    place: Place,
    ty: usize,
    limit: Limit,
) -> Result<usize, Refused>
    requires part { HasType state.old ty }
    requires wide { 4 ≤ limit.names }
    requires deep { limit.level < dead_level }
    requires inside { limit.level ≤ state.old.level }
    ensures grows { IfOk result (λ _. Grows state.old state.new) }
    ensures is { IfOk result (λ r. HasType state.new r) }
    ensures limited { IfOk result (λ r. IsLimited state.new limit r) }
    ensures same { IfOk result (λ r. Always state.new (λ W. type_of W r ≡ type_of W ty)) }
    ensures next { IfOk result (λ _. state.new.next ≡ state.old.next) }
{
    let own = fresh_type(alloc, state, Mark::Any, limit)?;
    unify(alloc, state, place, own, ty)?;
    Ok(own)
}

/// The same of the types of fields.
fn bounded_parts(
    alloc: Global,
    state: &mut State,
    place: Place,
    fields: &[Field],
    limit: Limit,
) -> Result<Vec<usize>, Refused>
    requires parts { AllByRecursion (λ f. HasType state.old f.part) fields.now }
    requires wide { 4 ≤ limit.names }
    requires deep { limit.level < dead_level }
    requires inside { limit.level ≤ state.old.level }
    ensures { IfOk result (λ parts. AreBounded state.old limit fields.now state.new parts.items) }
{
    let mut parts = Vec::new(alloc);
    for i in 0..fields.len() {
        let part = bounded(alloc, state, place, fields[i].part, limit)?;
        parts.push(part)?;
    }
    Ok(parts)
}

/// A type of records with these fields and perhaps others, whose variables reach no further than a limit; none of the fields has a label twice. It is noted.
pub fn open_record_type(
    alloc: Global,
    state: &mut State,
    place: Place,
    fields: &[Field],
    limit: Limit,
) -> Result<usize, Refused>
    requires parts { AllByRecursion (λ f. HasType state.old f.part) fields.now }
    requires wide { 4 ≤ limit.names }
    requires deep { limit.level < dead_level }
    requires inside { limit.level ≤ state.old.level }
    ensures grows { IfOk result (λ _. Grows state.old state.new) }
    ensures is { IfOk result (λ r. HasType state.new r) }
    ensures within { IfOk result (λ r. Always state.new (λ W. IsWithin W limit r)) }
    ensures has { IfOk result (λ r. Always state.new (λ W. HasFields W fields.now (type_of W r))) }
    ensures next { IfOk result (λ _. state.new.next ≡ state.old.next) }
{
    let fields = sort_fields(alloc, fields)?;
    if !are_ascending(&fields) {
        return Err(Refused::Broken(place));
    }
    let labels = labels_of(alloc, &fields)?;
    let types = bounded_parts(alloc, state, place, &fields, limit)?;
    let row = Row {
        equality: false,
        labels,
        types,
    };
    let ty = fresh_row(alloc, state, row, limit)?;
    note_flexible(state, ty)?;
    Ok(ty)
}
