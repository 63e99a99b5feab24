// Types of records.

use ir_tables::tables::Tables;
use ir_uses::record::{do_ascend, field, is_record, is_selected, is_sized_record, record_size};
use mlc_names::label::Label;
use tests_given::given::*;

const ONE: Label = Label::Number(1);

const TWO: Label = Label::Number(2);

const THREE: Label = Label::Number(3);

/// Of a type.
#[derive(Clone, Copy)]
enum Ask {
    /// Whether its records have exactly these two fields.
    Record((Label, usize), (Label, usize)),
    /// Whether the type of a field is this one.
    Field(Label, Option<usize>),
    Selected(Label, usize),
    /// Whether the number of fields is this one.
    Size(Option<usize>),
    /// Whether there are so many, where a number is asked for.
    Sized(Option<usize>),
    /// Whether the labels of two fields ascend.
    Ascend(Label, Label),
}

const ASKED: [(usize, Ask, bool); 20] = [
    (CELL, Ask::Record((ONE, INT), (TWO, INT_LIST)), true),
    (CELL, Ask::Record((ONE, INT), (TWO, INT)), false),
    (CELL, Ask::Record((TWO, INT), (ONE, INT_LIST)), false),
    (INT_LIST, Ask::Record((ONE, INT), (TWO, INT_LIST)), false),
    (CELL, Ask::Field(ONE, Some(INT)), true),
    (CELL, Ask::Field(TWO, Some(INT_LIST)), true),
    (CELL, Ask::Field(THREE, None), true),
    (INT, Ask::Field(ONE, None), true),
    (CELL, Ask::Selected(ONE, INT), true),
    (CELL, Ask::Selected(ONE, STRING), false),
    (CELL, Ask::Size(Some(2)), true),
    (INT, Ask::Size(None), true),
    (CELL, Ask::Sized(Some(2)), true),
    (CELL, Ask::Sized(Some(3)), false),
    (CELL, Ask::Sized(None), true),
    (UNIT, Ask::Sized(Some(0)), true),
    (INT, Ask::Sized(None), false),
    (CELL, Ask::Ascend(ONE, TWO), true),
    (CELL, Ask::Ascend(TWO, ONE), false),
    (CELL, Ask::Ascend(ONE, ONE), false),
];

fn answer(tables: &Tables, ty: usize, ask: Ask) -> bool {
    let types = &tables.types;
    match ask {
        Ask::Record(first, second) => is_record(types, ty, &[first, second]),
        Ask::Field(label, wanted) => field(types, ty, label) == wanted,
        Ask::Selected(label, of) => is_selected(types, ty, label, of),
        Ask::Size(wanted) => record_size(types, ty) == wanted,
        Ask::Sized(size) => is_sized_record(types, ty, size),
        Ask::Ascend(first, second) => do_ascend(&[(first, ty), (second, ty)]),
    }
}

/// The first question with another answer.
pub fn wrong(tables: &Tables) -> Option<usize> {
    for i in 0..ASKED.len() {
        let (ty, ask, wanted) = ASKED[i];
        if answer(tables, ty, ask) != wanted {
            return Some(i);
        }
    }
    None
}
