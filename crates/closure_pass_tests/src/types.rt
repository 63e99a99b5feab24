// Types for the tests' programs, by number.

use ir_known::ask::BOOL;
use ir_tables::tables::Constant;
use ir_uses::constructor::{CONS, FALSE, LIST, NIL, TRUE};
use mlc_base::make::two;
use mlc_base::memory::NoMemory;
use mlc_names::label::Label;
use mono_types::types::Types;
use std::alloc::Global;
use tests_words::words::{Act, Word};
use ty_core::name::{Equality, TyName};
use ty_core::ty::Head;

/// A datatype of a program, whose constructor takes a function.
const HOLDERS: TyName = TyName {
    stamp: 20,
    arity: 0,
    equality: Equality::Never,
};

pub const HOLD: usize = 200;

const TRUTH: usize = 1;

pub const INT: usize = 2;

pub const EXN: usize = 3;

pub const FUNCTION: usize = 4;

pub const REFERENCE: usize = 5;

pub const HOLDER: usize = 6;

pub const FUNCTIONS: usize = 7;

pub const CELL: usize = 8;

/// Functions that take one from integers to integers.
pub const TAKER: usize = 9;

/// The variable 1 is an integer.
pub const ONE: Word = Word::Let(1, INT, Act::Constant(Constant::Int(1)));

pub fn put(
    alloc: Global,
    types: &mut Types,
    head: Head,
    parts: &[usize],
    equality: bool,
) -> Result<usize, NoMemory> {
    let kept = Vec::from_slice(alloc, parts)?;
    types.place(alloc, head, kept, equality)
}

fn enter(
    types: &mut Types,
    ty: usize,
    constructor: usize,
    argument: Option<usize>,
) -> Result<(), NoMemory> {
    if ty < types.len() {
        types.enter(ty, constructor, argument)?;
    }
    Ok(())
}

/// Unit, truth values, integers, exceptions, and functions from integers to integers.
fn put_first(alloc: Global, types: &mut Types) -> Result<(), NoMemory> {
    let _ = put(alloc, types, Head::Record(Vec::new(alloc)), &[], true)?;
    let _ = put(alloc, types, Head::Named(BOOL), &[], true)?;
    let _ = put(alloc, types, Head::Named(TyName::INT), &[], true)?;
    let _ = put(alloc, types, Head::Named(TyName::EXN), &[], false)?;
    let _ = put(alloc, types, Head::Function, &[INT, INT], false)?;
    Ok(())
}

/// What holds a function.
fn put_holders(alloc: Global, types: &mut Types) -> Result<(), NoMemory> {
    let labels = two(alloc, Label::Number(1), Label::Number(2))?;
    let _ = put(alloc, types, Head::Named(TyName::REF), &[FUNCTION], true)?;
    let _ = put(alloc, types, Head::Named(HOLDERS), &[], false)?;
    let _ = put(alloc, types, Head::Named(LIST), &[FUNCTION], false)?;
    let _ = put(
        alloc,
        types,
        Head::Record(labels),
        &[FUNCTION, FUNCTIONS],
        false,
    )?;
    let _ = put(alloc, types, Head::Function, &[FUNCTION, INT], false)?;
    Ok(())
}

/// The types, in the order of their numbers.
pub fn all_types(alloc: Global) -> Result<Types, NoMemory> {
    let mut types = Types::new(alloc);
    put_first(alloc, &mut types)?;
    put_holders(alloc, &mut types)?;
    enter(&mut types, TRUTH, TRUE, None)?;
    enter(&mut types, TRUTH, FALSE, None)?;
    enter(&mut types, HOLDER, HOLD, Some(FUNCTION))?;
    enter(&mut types, FUNCTIONS, NIL, None)?;
    enter(&mut types, FUNCTIONS, CONS, Some(CELL))?;
    Ok(types)
}
