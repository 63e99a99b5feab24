// Tables for tests, whose types have fixed numbers.
ghost use Rattle.std.specs.Prelude.{◌↔◌, ◌<◌, IsTrue};
ghost use Rattle.ty_table.specs.TypeAt.{AllBelow};

use initial_names::initial;
use ir_known::ask::BOOL;
use ir_tables::constructors::Constructor;
use ir_tables::tables::Tables;
use ir_uses::constructor::LIST;
use mlc_base::make::{one, two};
use mlc_base::memory::NoMemory;
use mlc_names::label::Label;
use mlc_names::names::Name;
use std::alloc::Global;
use ty_core::mark::{Class, Mark};
use ty_core::name::{Equality, TyName};
use ty_core::scheme::Quantified;
use ty_core::ty::Head;
use ty_table::types::Types;

pub const INT: usize = 0;

pub const STRING: usize = 1;

pub const TRUTH: usize = 2;

pub const EXN: usize = 3;

pub const UNIT: usize = 4;

pub const THING: usize = 5;

/// The variable 0, which each list of parameters but the first declares.
pub const A: usize = 6;

pub const INT_TO_INT: usize = 7;

pub const A_TO_A: usize = 8;

pub const INT_TO_THING: usize = 9;

pub const INT_TO_EXN: usize = 10;

pub const INTS: usize = 11;

pub const INT_LIST: usize = 12;

pub const CELL: usize = 13;

pub const INT_REF: usize = 14;

pub const INT_TO_REF: usize = 15;

pub const INTS_TO_INT: usize = 16;

pub const CURRIED: usize = 17;

pub const PAIR_OF_A: usize = 18;

pub const PAIR_OF_A_TO_TRUTH: usize = 19;

pub const PAIR_OF_FUNCTIONS: usize = 20;

pub const PAIR_OF_FUNCTIONS_TO_TRUTH: usize = 21;

/// The variable 1, which no list of parameters declares.
pub const B: usize = 22;

pub const SWAPPED: usize = 23;

pub const STRING_INT: usize = 24;

/// The datatype with two parameters, at integers and strings.
pub const INT_STRING: usize = 25;

pub const STRING_INT_TO_INT_STRING: usize = 26;

pub const CELL_TO_INT_LIST: usize = 27;

pub const TRANSFORMER: usize = 28;

/// A type, with the numbers of earlier ones for its parts.
#[derive(Clone, Copy)]
enum Shape {
    Variable(usize),
    Named(TyName),
    Of(TyName, usize),
    OfTwo(TyName, usize, usize),
    Unit,
    Pair(usize, usize),
    Arrow(usize, usize),
}

/// The program's datatype.
pub const THINGS: TyName = TyName {
    stamp: 20,
    arity: 0,
    equality: Equality::ByArguments,
};

/// Constructors of it: with an integer, and alone.
pub const BOX: usize = 200;

pub const DOT: usize = 201;

/// Another one, with two parameters.
pub const SWAPS: TyName = TyName {
    stamp: 21,
    arity: 2,
    equality: Equality::ByArguments,
};

/// A constructor of it: with a pair of the second parameter and the first.
pub const SWAP: usize = 202;

/// The types in the order of their numbers.
const SHAPES: [Shape; 29] = [
    Shape::Named(TyName::INT),
    Shape::Named(TyName::STRING),
    Shape::Named(BOOL),
    Shape::Named(TyName::EXN),
    Shape::Unit,
    Shape::Named(THINGS),
    Shape::Variable(0),
    Shape::Arrow(INT, INT),
    Shape::Arrow(A, A),
    Shape::Arrow(INT, THING),
    Shape::Arrow(INT, EXN),
    Shape::Pair(INT, INT),
    Shape::Of(LIST, INT),
    Shape::Pair(INT, INT_LIST),
    Shape::Of(TyName::REF, INT),
    Shape::Arrow(INT, INT_REF),
    Shape::Arrow(INTS, INT),
    Shape::Arrow(INT, INT_TO_INT),
    Shape::Pair(A, A),
    Shape::Arrow(PAIR_OF_A, TRUTH),
    Shape::Pair(INT_TO_INT, INT_TO_INT),
    Shape::Arrow(PAIR_OF_FUNCTIONS, TRUTH),
    Shape::Variable(1),
    Shape::Pair(B, A),
    Shape::Pair(STRING, INT),
    Shape::OfTwo(SWAPS, INT, STRING),
    Shape::Arrow(STRING_INT, INT_STRING),
    Shape::Arrow(CELL, INT_LIST),
    Shape::Arrow(INT_TO_INT, INT_TO_INT),
];

/// Lists of parameters: none, one, one that admits equality, one of a class.
pub const NONE: usize = 0;

pub const ANY: usize = 1;

pub const EQUAL: usize = 2;

pub const CLASS: usize = 3;

const NUMBERS: Class = Class {
    int: true,
    word: true,
    char: false,
    string: false,
};

/// The marks of the parameter of the lists 1 to 3.
const MARKS: [Mark; 3] = [Mark::Any, Mark::Equality, Mark::Class(NUMBERS)];

fn is_below(number: usize, len: usize) -> bool
    ensures { IsTrue result ↔ (number < len) }
{
    number < len
}

/// Whether numbers are below another.
fn are_below(numbers: &[usize], len: usize) -> bool
    ensures { IsTrue result → AllBelow len numbers.now }
{
    for i in 0..numbers.len() {
        if !is_below(numbers[i], len) {
            return false;
        }
    }
    true
}

/// A type of these parts, where they are there.
pub fn put_of(
    alloc: Global,
    types: &mut Types,
    head: Head,
    parts: &[usize],
) -> Result<usize, NoMemory> {
    let below = are_below(parts, types.len());
    if !below {
        return Ok(usize::MAX);
    }
    types.apply(alloc, head, parts)
}

fn put_pair(
    alloc: Global,
    types: &mut Types,
    first: usize,
    second: usize,
) -> Result<usize, NoMemory> {
    let labels = two(alloc, Label::Number(1), Label::Number(2))?;
    put_of(alloc, types, Head::Record(labels), &[first, second])
}

fn put_variable(alloc: Global, types: &mut Types, number: usize) -> Result<usize, NoMemory> {
    if number == usize::MAX {
        return Ok(usize::MAX);
    }
    types.variable(alloc, number)
}

fn put_shape(alloc: Global, types: &mut Types, shape: Shape) -> Result<usize, NoMemory> {
    match shape {
        Shape::Variable(number) => put_variable(alloc, types, number),
        Shape::Named(name) => put_of(alloc, types, Head::Named(name), &[]),
        Shape::Of(name, part) => put_of(alloc, types, Head::Named(name), &[part]),
        Shape::OfTwo(name, first, second) => {
            put_of(alloc, types, Head::Named(name), &[first, second])
        }
        Shape::Unit => put_of(alloc, types, Head::Record(Vec::new(alloc)), &[]),
        Shape::Pair(first, second) => put_pair(alloc, types, first, second),
        Shape::Arrow(from, to) => put_of(alloc, types, Head::Function, &[from, to]),
    }
}

fn put_shapes(alloc: Global, types: &mut Types) -> Result<(), NoMemory> {
    for i in 0..SHAPES.len() {
        let _ = put_shape(alloc, types, SHAPES[i])?;
    }
    Ok(())
}

fn put_parameters(alloc: Global, tables: &mut Tables) -> Result<(), NoMemory> {
    tables.parameters.push(Vec::new(alloc))?;
    for i in 0..MARKS.len() {
        let parameters = one(
            alloc,
            Quantified {
                variable: 0,
                mark: MARKS[i],
            },
        )?;
        tables.parameters.push(parameters)?;
    }
    Ok(())
}

/// One more constructor.
pub fn put_constructor(
    tables: &mut Tables,
    datatype: TyName,
    number: usize,
    argument: Option<usize>,
) -> Result<(), NoMemory> {
    tables.constructors.push(Constructor {
        datatype,
        number,
        argument,
    })
}

/// The first so many names of exceptions of the basis.
fn put_initial(alloc: Global, tables: &mut Tables, count: usize) -> Result<(), NoMemory> {
    tables.initial = initial(alloc)?;
    tables.initial.truncate(count);
    Ok(())
}

/// Tables with so many names of exceptions of the basis.
pub fn make_tables(alloc: Global, count: usize) -> Result<Tables, NoMemory> {
    let mut tables = Tables::new(alloc)?;
    put_shapes(alloc, &mut tables.types)?;
    put_parameters(alloc, &mut tables)?;
    put_constructors(&mut tables)?;
    put_initial(alloc, &mut tables, count)?;
    Ok(tables)
}

fn put_constructors(tables: &mut Tables) -> Result<(), NoMemory> {
    put_constructor(tables, THINGS, BOX, Some(INT))?;
    put_constructor(tables, THINGS, DOT, None)?;
    put_constructor(tables, SWAPS, SWAP, Some(SWAPPED))
}
