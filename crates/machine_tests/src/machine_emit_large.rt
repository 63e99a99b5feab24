// Large values: equality needs no stack, and what is pending is in the heap.

use crate::machine_emit_programs::TEXT_OF;
use crate::machine_emit_run::{Size, ends_in, run};
use first_tables::operation::{Callee, Constant, Operands, Piece, Test};
use heap_vm::stop::Stop;
use mlc_prims::basis::BasisPrimitive;
use ssa_words::words::{Action, Given, Kind, Op};
use std::test::Fail;

/// Integers, lists of integers, and chains whose inner part comes first.
static LISTS: Given = Given {
    strings: &[],
    types: &[
        Kind::Numbers,
        Kind::Cells(&[&[], &[0, 1]]),
        Kind::Cells(&[&[], &[2, 0]]),
    ],
    sets: &[],
};

/// Two lists of a million ones are made and compared, and the first is printed.
static MILLION: [Op; 41] = [
    Op::Begin,
    Op::Do(Action::Is(Constant::Int(1_000_000)), &[], 0),
    Op::Make(0, &[], 1),
    Op::Call(Callee::Known(1), &[0, 1], 2),
    Op::Call(Callee::Known(1), &[0, 1], 3),
    Op::Do(Action::Equal(1), &[2, 3], 4),
    Op::Call(Callee::Known(2), &[4], 5),
    Op::Do(TEXT_OF, &[5], 6),
    Op::Do(Action::Print, &[6], 7),
    Op::Call(Callee::Known(3), &[2], 8),
    Op::Ret(8),
    Op::Fun(&[]),
    Op::Begin,
    Op::Begin,
    Op::Ret(1),
    Op::Unless(Test::Is(Constant::Int(0)), &[0]),
    Op::Do(Action::Is(Constant::Int(1)), &[], 2),
    Op::Make(1, &[Piece::One(2), Piece::One(1)], 3),
    Op::Begin,
    Op::Raise(4),
    Op::Attempt(Operands::Ints, BasisPrimitive::Subtract, &[0, 2], 4),
    Op::Tail(Callee::Known(1), &[4, 3]),
    Op::Fun(&[0, 1]),
    Op::Begin,
    Op::Begin,
    Op::Do(Action::Is(Constant::Int(0)), &[], 1),
    Op::Ret(1),
    Op::Case(0, 1, &[]),
    Op::Do(Action::Is(Constant::Int(1)), &[], 1),
    Op::Ret(1),
    Op::Fun(&[0]),
    Op::Begin,
    Op::Begin,
    Op::Ret(0),
    Op::Case(0, 1, &[]),
    Op::Do(Action::Field(0), &[0], 1),
    Op::Do(TEXT_OF, &[1], 2),
    Op::Do(Action::Print, &[2], 3),
    Op::Do(Action::Field(1), &[0], 4),
    Op::Tail(Callee::Known(3), &[4]),
    Op::Fun(&[0]),
];

/// Two chains, a hundred thousand deep, that differ in the innermost.
static CHAINS: [Op; 31] = [
    Op::Begin,
    Op::Do(Action::Is(Constant::Int(100_000)), &[], 0),
    Op::Make(0, &[], 1),
    Op::Make(1, &[Piece::One(1), Piece::One(0)], 2),
    Op::Call(Callee::Known(1), &[0, 1], 3),
    Op::Call(Callee::Known(1), &[0, 2], 4),
    Op::Do(Action::Equal(2), &[3, 4], 5),
    Op::Call(Callee::Known(2), &[5], 6),
    Op::Do(TEXT_OF, &[6], 7),
    Op::Do(Action::Print, &[7], 8),
    Op::Ret(8),
    Op::Fun(&[]),
    Op::Begin,
    Op::Begin,
    Op::Ret(1),
    Op::Unless(Test::Is(Constant::Int(0)), &[0]),
    Op::Do(Action::Is(Constant::Int(1)), &[], 2),
    Op::Make(1, &[Piece::One(1), Piece::One(2)], 3),
    Op::Begin,
    Op::Raise(4),
    Op::Attempt(Operands::Ints, BasisPrimitive::Subtract, &[0, 2], 4),
    Op::Tail(Callee::Known(1), &[4, 3]),
    Op::Fun(&[0, 1]),
    Op::Begin,
    Op::Begin,
    Op::Do(Action::Is(Constant::Int(0)), &[], 1),
    Op::Ret(1),
    Op::Case(0, 1, &[]),
    Op::Do(Action::Is(Constant::Int(1)), &[], 1),
    Op::Ret(1),
    Op::Fun(&[0]),
];

#[test]
fn a_million_elements_are_compared_and_printed(rt: HostRuntime) -> Result<(), Fail> {
    let alloc = rt.alloc();
    let ones = Vec::from_elem(alloc, b'1', 1_000_001)?;
    let size = Size {
        heap: 8_000_010,
        stack: 32,
    };
    let (stop, written, _) = run(alloc, &LISTS, &MILLION, size, &ones, "")?;
    assert_eq!(rt; stop, Stop::Ended);
    assert!(rt; written);
    Ok(())
}

#[test]
fn inner_parts_wait_in_the_heap(rt: HostRuntime) -> Result<(), Fail> {
    let size = Size {
        heap: 1_000_010,
        stack: 32,
    };
    ends_in(&rt, rt.alloc(), &LISTS, &CHAINS, size, "0")?;
    Ok(())
}
