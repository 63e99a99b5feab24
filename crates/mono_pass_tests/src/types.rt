// The tables of the tests' programs, with further types and a datatype that is not regular.

use ir_tables::tables::Tables;
use ir_uses::constructor::LIST;
use mlc_base::make::two;
use mlc_base::memory::NoMemory;
use mlc_names::label::Label;
use std::alloc::Global;
use tests_given::given::*;
use ty_core::name::{Equality, TyName};
use ty_core::ty::Head;

/// `datatype 'a nest = END | LAYER of 'a * ('a * 'a) nest`.
const NEST: TyName = TyName {
    stamp: 30,
    arity: 1,
    equality: Equality::ByArguments,
};

pub const END: usize = 300;

pub const LAYER: usize = 301;

pub const STRING_TO_STRING: usize = 29;

pub const LIST_OF_A: usize = 30;

pub const CELL_OF_A: usize = 31;

pub const A_TO_EXN: usize = 32;

pub const STRING_TO_EXN: usize = 33;

const NEST_OF_PAIRS: usize = 34;

const LAYER_OF_A: usize = 35;

pub const NEST_OF_INT: usize = 36;

pub const NEST_OF_INTS: usize = 37;

const FOUR: usize = 38;

pub const NEST_OF_FOUR: usize = 39;

pub const LAYER_OF_INT: usize = 40;

pub const LAYER_OF_INTS: usize = 41;

const NESTS: usize = 42;

pub const NESTS_TO_TRUTH: usize = 43;

pub const PAIRS: usize = 44;

pub const FUNCTIONS: usize = 45;

pub const TRUTH_TO_TRUTH: usize = 46;

#[derive(Clone, Copy)]
enum Shape {
    List(usize),
    Nest(usize),
    Pair(usize, usize),
    Arrow(usize, usize),
}

/// The types behind those of `make_tables`, in the order of their numbers.
const SHAPES: [Shape; 18] = [
    Shape::Arrow(STRING, STRING),
    Shape::List(A),
    Shape::Pair(A, LIST_OF_A),
    Shape::Arrow(A, EXN),
    Shape::Arrow(STRING, EXN),
    Shape::Nest(PAIR_OF_A),
    Shape::Pair(A, NEST_OF_PAIRS),
    Shape::Nest(INT),
    Shape::Nest(INTS),
    Shape::Pair(INTS, INTS),
    Shape::Nest(FOUR),
    Shape::Pair(INT, NEST_OF_INTS),
    Shape::Pair(INTS, NEST_OF_FOUR),
    Shape::Pair(NEST_OF_INT, NEST_OF_INT),
    Shape::Arrow(NESTS, TRUTH),
    Shape::Arrow(PAIR_OF_A, PAIR_OF_A),
    Shape::Arrow(A_TO_A, A_TO_A),
    Shape::Arrow(TRUTH, TRUTH),
];

pub fn put_pair(
    alloc: Global,
    tables: &mut Tables,
    first: usize,
    second: usize,
) -> Result<usize, NoMemory> {
    let labels = two(alloc, Label::Number(1), Label::Number(2))?;
    put_of(
        alloc,
        &mut tables.types,
        Head::Record(labels),
        &[first, second],
    )
}

fn put_shape(alloc: Global, tables: &mut Tables, shape: Shape) -> Result<usize, NoMemory> {
    match shape {
        Shape::List(part) => put_of(alloc, &mut tables.types, Head::Named(LIST), &[part]),
        Shape::Nest(part) => put_of(alloc, &mut tables.types, Head::Named(NEST), &[part]),
        Shape::Pair(first, second) => put_pair(alloc, tables, first, second),
        Shape::Arrow(from, to) => put_of(alloc, &mut tables.types, Head::Function, &[from, to]),
    }
}

fn put_shapes(alloc: Global, tables: &mut Tables) -> Result<(), NoMemory> {
    for i in 0..SHAPES.len() {
        let _ = put_shape(alloc, tables, SHAPES[i])?;
    }
    Ok(())
}

/// The tables of the tests' programs, with these types and that datatype.
pub fn tables(alloc: Global) -> Result<Tables, NoMemory> {
    let mut tables = make_tables(alloc, 7)?;
    put_shapes(alloc, &mut tables)?;
    put_constructor(&mut tables, NEST, END, None)?;
    put_constructor(&mut tables, NEST, LAYER, Some(LAYER_OF_A))?;
    Ok(tables)
}
