// Types beyond those of tests_given.

use ir_tables::tables::Tables;
use ir_uses::constructor::LIST;
use mlc_base::make::two;
use mlc_base::memory::NoMemory;
use mlc_names::label::Label;
use std::alloc::Global;
use tests_given::given::{INT, INT_LIST, STRING, THING, UNIT, make_tables, put_of};
use ty_core::ty::Head;

pub const STRING_TO_UNIT: usize = 29;

pub const INT_TO_STRING: usize = 30;

pub const STRING_TO_STRING: usize = 31;

pub const STRINGS: usize = 32;

pub const STRINGS_TO_STRING: usize = 33;

pub const THING_LIST: usize = 34;

/// The parts of a cell of such a list.
pub const THING_CELL: usize = 35;

pub const THING_CELL_TO_LIST: usize = 36;

pub const THING_LIST_TO_INT: usize = 37;

pub const INT_LIST_TO_INT: usize = 38;

/// A type of earlier ones.
#[derive(Clone, Copy)]
enum Shape {
    Arrow(usize, usize),
    Pair(usize, usize),
    List(usize),
}

/// The types in the order of their numbers.
const SHAPES: [Shape; 10] = [
    Shape::Arrow(STRING, UNIT),
    Shape::Arrow(INT, STRING),
    Shape::Arrow(STRING, STRING),
    Shape::Pair(STRING, STRING),
    Shape::Arrow(STRINGS, STRING),
    Shape::List(THING),
    Shape::Pair(THING, THING_LIST),
    Shape::Arrow(THING_CELL, THING_LIST),
    Shape::Arrow(THING_LIST, INT),
    Shape::Arrow(INT_LIST, INT),
];

fn put_shape(alloc: Global, tables: &mut Tables, shape: Shape) -> Result<usize, NoMemory> {
    match shape {
        Shape::Arrow(from, to) => put_of(alloc, &mut tables.types, Head::Function, &[from, to]),
        Shape::Pair(first, second) => {
            let labels = two(alloc, Label::Number(1), Label::Number(2))?;
            put_of(
                alloc,
                &mut tables.types,
                Head::Record(labels),
                &[first, second],
            )
        }
        Shape::List(part) => put_of(alloc, &mut tables.types, Head::Named(LIST), &[part]),
    }
}

/// Tables with these strings.
pub fn tables(alloc: Global, strings: &[&str]) -> Result<Tables, NoMemory> {
    let mut tables = make_tables(alloc, 7)?;
    for i in 0..SHAPES.len() {
        let _ = put_shape(alloc, &mut tables, SHAPES[i])?;
    }
    for i in 0..strings.len() {
        let text = Vec::from_slice(alloc, strings[i].as_bytes())?;
        tables.strings.push(text)?;
    }
    Ok(tables)
}
