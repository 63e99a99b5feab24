// Types of records.
ghost use Rattle.std.specs.Prelude.{◌≡◌, ◌↔◌, List, Some, None, true, map, zip, length, IsTrue, IfSome, IfNone};
ghost use Rattle.std.specs.Option.{option_map, option_and_then};
ghost use Rattle.std.specs.Map.{lookup};
ghost use Rattle.mlc_names.specs.declared.label.Label.{Label};
ghost use Rattle.ty_core.specs.Types.{Typ};
ghost use Rattle.ty_table.specs.TypeAt.{type_at};
ghost use Rattle.prog_check.specs.of_ir_values.Values.{same_label};
ghost use Rattle.ir_known.specs.of_ir_poly.Types.{ascend, label_before, labels_in, row_type};
ghost use Rattle.ir_known.specs.of_ir_poly.TestsChecked.{is_size};
ghost use Rattle.prog_check.specs.Deciding.{row_in};
ghost use Rattle.ir_uses.specs.Fields.{field_types, HasField, IsSized};

use crate::parts::{is_label, record_parts};
use ir_known::ask::same_type;
use mlc_names::label::Label;
use ty_table::types::Types;

/// Whether labels are those of fields.
fn labels_are(labels: &[Label], fields: &[(Label, usize)]) -> bool
    ensures { IsTrue result ↔ (labels.now ≡ map (λ f. f.0) fields.now) }
{
    if labels.len() != fields.len() {
        return false;
    }
    for i in 0..labels.len() {
        if !is_label(labels[i], fields[i].0) {
            return false;
        }
    }
    true
}

/// Whether types are those of fields.
fn types_are(types: &Types, parts: &[usize], fields: &[(Label, usize)]) -> bool
    ensures { IsTrue result ↔ (map (type_at types.now) parts.now ≡ map (λ f. type_at types.now f.1) fields.now) }
{
    if parts.len() != fields.len() {
        return false;
    }
    for i in 0..parts.len() {
        if !same_type(types, parts[i], fields[i].1) {
            return false;
        }
    }
    true
}

/// Whether a type is that of records with exactly these fields, in this order.
pub fn is_record(types: &Types, t: usize, fields: &[(Label, usize)]) -> bool
    ensures { IsTrue result ↔ (type_at types.now t ≡ row_type (field_types types.now fields.now)) }
{
    match record_parts(types, t) {
        Some((labels, parts)) => {
            if !labels_are(labels, fields) {
                return false;
            }
            types_are(types, parts, fields)
        }
        None => false,
    }
}

/// Whether a label stands before another: numbers by value, then words by their numbers.
fn is_before(label: Label, other: Label) -> bool
    ensures { result ≡ label_before label other }
{
    match label {
        Label::Number(m) => match other {
            Label::Number(n) => m < n,
            Label::Word(_) => true,
        },
        Label::Word(x) => match other {
            Label::Number(_) => false,
            Label::Word(y) => x.number() < y.number(),
        },
    }
}

/// Whether the labels of fields ascend.
pub fn do_ascend(fields: &[(Label, usize)]) -> bool
    ensures { (ts : List Typ) → result ≡ ascend (labels_in (field_types ts fields.now)) }
{
    for i in 1..fields.len() {
        if !is_before(fields[i - 1].0, fields[i].0) {
            return false;
        }
    }
    true
}

/// Whether two labels are one.
fn is_same(label: &Label, other: &Label) -> bool
    ensures { IsTrue result ↔ (label.now ≡ other.now) }
{
    *label == *other
}

/// What stands beside a label.
fn beside(labels: &[Label], parts: &[usize], label: &Label) -> Option<usize>
    requires { length labels.now ≡ length parts.now }
    ensures { result ≡ lookup (same_label label.now) (zip labels.now parts.now) }
{
    for i in 0..labels.len() {
        let same = is_same(label, &labels[i]);
        if same {
            return Some(parts[i]);
        }
    }
    None
}

/// The type of a field, if the type is that of records that have it.
pub fn field(types: &Types, t: usize, label: Label) -> Option<usize>
    ensures { option_map (type_at types.now) result ≡ option_and_then (lookup (same_label label)) (row_in (type_at types.now t)) }
{
    match record_parts(types, t) {
        Some((labels, parts)) => {
            if labels.len() != parts.len() {
                return None;
            }
            beside(labels, parts, &label)
        }
        None => None,
    }
}

/// Whether a type is that of records that have this field, of this type.
pub fn is_selected(types: &Types, u: usize, label: Label, t: usize) -> bool
    ensures { IsTrue result ↔ HasField label (type_at types.now u) (type_at types.now t) }
{
    match field(types, u, label) {
        Some(found) => same_type(types, found, t),
        None => false,
    }
}

/// How many fields a type has, if it is that of records.
pub fn record_size(types: &Types, t: usize) -> Option<usize>
    ensures { result ≡ option_map length (row_in (type_at types.now t)) }
{
    match record_parts(types, t) {
        Some((labels, parts)) => {
            if labels.len() != parts.len() {
                return None;
            }
            Some(labels.len())
        }
        None => None,
    }
}

/// Whether a number is the one that is asked for, if one is.
fn is_of_size(size: Option<usize>, len: usize) -> bool
    ensures { result ≡ is_size size len }
{
    match size {
        Some(wanted) => wanted == len,
        None => true,
    }
}

/// Whether a type is that of records with so many fields, where a number is asked for.
pub fn is_sized_record(types: &Types, t: usize, size: Option<usize>) -> bool
    ensures { IsTrue result ↔ IsSized size (type_at types.now t) }
{
    match record_size(types, t) {
        Some(len) => is_of_size(size, len),
        None => false,
    }
}
