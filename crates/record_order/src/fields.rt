// The fields of record types, found by halves where their labels ascend.
ghost use Rattle.std.specs.Prelude.{◌≡◌, true, length, zip};
ghost use Rattle.std.specs.Option.{option_map, option_and_then};
ghost use Rattle.std.specs.Map.{lookup};
ghost use Rattle.ty_table.specs.TypeAt.{type_at};
ghost use Rattle.ir_values.specs.Values.{same_label};
ghost use Rattle.ir_uses.specs.of_ir_poly.Types.{ascend, label_before};
ghost use Rattle.ir_uses.specs.of_prog_check.Deciding.{row_in};
ghost use Rattle.record_order.specs.Order.{is_ordered};

use ir_uses::parts::record_parts;
use ir_uses::record::field;
use mlc_names::label::Label;
use ty_table::types::Types;

/// Whether a label stands before another: numbers by value, then words by their numbers.
fn is_before(label: Label, other: Label) -> bool
    ensures { result ≡ label_before label other }
{
    match label {
        Label::Number(m) => match other {
            Label::Number(n) => m < n,
            Label::Word(_) => true,
        },
        Label::Word(x) => match other {
            Label::Number(_) => false,
            Label::Word(y) => x.number() < y.number(),
        },
    }
}

fn is_earlier(label: &Label, other: &Label) -> bool
    ensures { result ≡ label_before label.now other.now }
{
    is_before(*label, *other)
}

/// Whether labels ascend.
fn do_ascend(labels: &[Label]) -> bool
    ensures { result ≡ ascend labels.now }
{
    for i in 1..labels.len() {
        if !is_before(labels[i - 1], labels[i]) {
            return false;
        }
    }
    true
}

/// Whether a type is that of records whose labels ascend.
pub fn has_order(types: &Types, row: usize) -> bool
    ensures { result ≡ is_ordered (type_at types.now row) }
{
    match record_parts(types, row) {
        Some((labels, parts)) => {
            if labels.len() != parts.len() {
                return false;
            }
            do_ascend(labels)
        }
        None => false,
    }
}

/// What stands beside a label, of labels that ascend.
fn beside(labels: &[Label], parts: &[usize], label: &Label) -> Option<usize>
    requires same { length labels.now ≡ length parts.now }
    requires ascend { ascend labels.now ≡ true }
    ensures { result ≡ lookup (same_label label.now) (zip labels.now parts.now) }
{
    let mut low = 0;
    let mut high = labels.len();
    while low < high {
        let middle = low + (high - low) / 2;
        let there = &labels[middle];
        if is_earlier(there, label) {
            low = middle + 1;
        } else if is_earlier(label, there) {
            high = middle;
        } else {
            return Some(parts[middle]);
        }
    }
    None
}

/// The type of a field, of a record whose labels ascend.
fn field_by_halves(types: &Types, row: usize, label: Label) -> Option<usize>
    requires { is_ordered (type_at types.now row) ≡ true }
    ensures { option_map (type_at types.now) result ≡ option_and_then (lookup (same_label label)) (row_in (type_at types.now row)) }
{
    match record_parts(types, row) {
        Some((labels, parts)) => {
            if labels.len() != parts.len() {
                return None;
            }
            beside(labels, parts, &label)
        }
        None => None,
    }
}

/// The type of a field, if the type is that of records that have it, whose labels ascend where that is said.
pub fn field_of(types: &Types, row: usize, ordered: bool, label: Label) -> Option<usize>
    requires { ordered ≡ true → is_ordered (type_at types.now row) ≡ true }
    ensures { option_map (type_at types.now) result ≡ option_and_then (lookup (same_label label)) (row_in (type_at types.now row)) }
{
    if ordered {
        field_by_halves(types, row, label)
    } else {
        field(types, row, label)
    }
}
