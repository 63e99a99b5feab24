// Each operation at its edges: as what a body goes on with, as a value, and, where it compares, as a test.

use crate::machine_emit_programs::TEXT_OF;
use crate::machine_emit_run::{ends, uncaught};
use first_tables::operation::{Callee, Constant, Operands, Test};
use machine_emit::refused::EmitRefused;
use mlc_base::memory::NoMemory;
use mlc_prims::basis::BasisPrimitive;
use ssa_words::words::{Action, Given, Op};
use std::alloc::Global;
use std::process::Abort;
use std::test::Fail;

/// What is written of a result: an integer, a word as the integer of its bits, a character's code, a text, or 1 for true and 0 for false.
#[derive(Clone, Copy)]
enum Shown {
    Int,
    Word,
    Char,
    Text,
    Truth,
}

#[derive(Clone, Copy)]
enum Gives {
    Value(Shown, &'static str),
    Raises(&'static str),
}

/// A primitive on constants, and what it gives.
#[derive(Clone, Copy)]
struct Edge(Operands, BasisPrimitive, &'static [Constant], Gives);

/// How it is performed.
#[derive(Clone, Copy)]
enum Way {
    Attempt,
    Compute,
    Test,
}

static FIRST: [usize; 3] = [0, 1, 2];

static TEXTS: Given = Given {
    strings: &["", "a", "ab", "b", "abcdefgh"],
    types: &[],
    sets: &[],
};

/// The first so many variables.
fn first(count: usize) -> &'static [usize] {
    if count <= 3 { &FIRST[..count] } else { &FIRST }
}

/// What makes an integer or a text of the result, which is in variable 9.
fn shown_as(shown: Shown) -> Op {
    match shown {
        Shown::Int => Op::Do(TEXT_OF, &[9], 10),
        Shown::Word => Op::Do(
            Action::Compute(Operands::Words, BasisPrimitive::ToIntSigned),
            &[9],
            10,
        ),
        Shown::Char => Op::Do(
            Action::Compute(Operands::Chars, BasisPrimitive::CharCode),
            &[9],
            10,
        ),
        Shown::Text => Op::Do(Action::Same, &[9], 10),
        Shown::Truth => Op::Call(Callee::Known(1), &[9], 10),
    }
}

/// What makes a text of that.
fn text_of(shown: Shown) -> Op {
    match shown {
        Shown::Int | Shown::Text => Op::Do(Action::Same, &[10], 11),
        Shown::Word | Shown::Char | Shown::Truth => Op::Do(TEXT_OF, &[10], 11),
    }
}

static PRINTED: [Op; 3] = [Op::Do(Action::Print, &[11], 12), Op::Ret(12), Op::Fun(&[])];

/// What writes the result.
fn show(ops: &mut Vec<Op>, shown: Shown) -> Result<(), NoMemory> {
    ops.push(shown_as(shown))?;
    ops.push(text_of(shown))?;
    ops.extend_from_slice(&PRINTED)?;
    Ok(())
}

static RAISED: [Op; 2] = [Op::Begin, Op::Raise(9)];

static WHERE_FALSE: [Op; 4] = [Op::Begin, Op::Begin, Op::Make(0, &[], 8), Op::Goto(0, &[8])];

static WHERE_TRUE: [Op; 3] = [Op::Make(1, &[], 8), Op::Goto(0, &[8]), Op::Label(&[9])];

/// A test whose outcome is in variable 9.
fn perform_test(ops: &mut Vec<Op>, when: Op) -> Result<(), NoMemory> {
    ops.extend_from_slice(&WHERE_FALSE)?;
    ops.push(when)?;
    ops.extend_from_slice(&WHERE_TRUE)?;
    Ok(())
}

/// The primitive, whose result is in variable 9.
fn perform(ops: &mut Vec<Op>, edge: Edge, way: Way) -> Result<(), NoMemory> {
    let Edge(kind, primitive, constants, _) = edge;
    let operands = first(constants.len());
    match way {
        Way::Attempt => {
            ops.extend_from_slice(&RAISED)?;
            ops.push(Op::Attempt(kind, primitive, operands, 9))?;
            Ok(())
        }
        Way::Compute => {
            ops.push(Op::Do(Action::Compute(kind, primitive), operands, 9))?;
            Ok(())
        }
        Way::Test => perform_test(ops, Op::When(Test::Holds(kind, primitive), operands)),
    }
}

/// 1 for true and 0 for false.
static TRUTH: [Op; 8] = [
    Op::Begin,
    Op::Begin,
    Op::Do(Action::Is(Constant::Int(0)), &[], 1),
    Op::Ret(1),
    Op::Case(0, 1, &[]),
    Op::Do(Action::Is(Constant::Int(1)), &[], 1),
    Op::Ret(1),
    Op::Fun(&[0]),
];

fn program(alloc: Global, edge: Edge, way: Way, shown: Shown) -> Result<Vec<Op>, NoMemory> {
    let mut ops = Vec::new(alloc);
    ops.push(Op::Begin)?;
    let Edge(_, _, constants, _) = edge;
    for i in 0..constants.len() {
        ops.push(Op::Do(Action::Is(constants[i]), &[], i))?;
    }
    perform(&mut ops, edge, way)?;
    show(&mut ops, shown)?;
    ops.extend_from_slice(&TRUTH)?;
    Ok(ops)
}

fn shows(
    rt: &impl Abort,
    alloc: Global,
    edge: Edge,
    way: Way,
    shown: Shown,
    output: &str,
) -> Result<(), EmitRefused> {
    let ops = program(alloc, edge, way, shown)?;
    ends(rt, alloc, &TEXTS, &ops, output)
}

fn check(rt: &impl Abort, alloc: Global, edge: Edge) -> Result<(), EmitRefused> {
    let Edge(_, _, _, gives) = edge;
    match gives {
        Gives::Raises(name) => {
            let ops = program(alloc, edge, Way::Attempt, Shown::Int)?;
            uncaught(rt, alloc, &TEXTS, &ops, "", name)
        }
        Gives::Value(Shown::Truth, output) => {
            shows(rt, alloc, edge, Way::Test, Shown::Truth, output)?;
            shows(rt, alloc, edge, Way::Compute, Shown::Truth, output)
        }
        Gives::Value(shown, output) => {
            shows(rt, alloc, edge, Way::Attempt, shown, output)?;
            shows(rt, alloc, edge, Way::Compute, shown, output)
        }
    }
}

fn check_all(rt: &impl Abort, alloc: Global, edges: &[Edge]) -> Result<(), EmitRefused> {
    for edge in edges {
        check(rt, alloc, *edge)?;
    }
    Ok(())
}

/// Sums, differences and products of integers.
static SUMS: [Edge; 15] = [
    Edge(
        Operands::Ints,
        BasisPrimitive::Add,
        &[Constant::Int(2147483647), Constant::Int(0)],
        Gives::Value(Shown::Int, "2147483647"),
    ),
    Edge(
        Operands::Ints,
        BasisPrimitive::Add,
        &[Constant::Int(2147483647), Constant::Int(1)],
        Gives::Raises("Overflow"),
    ),
    Edge(
        Operands::Ints,
        BasisPrimitive::Add,
        &[Constant::Int(-2147483648), Constant::Int(-1)],
        Gives::Raises("Overflow"),
    ),
    Edge(
        Operands::Ints,
        BasisPrimitive::Add,
        &[Constant::Int(-2147483648), Constant::Int(2147483647)],
        Gives::Value(Shown::Int, "~1"),
    ),
    Edge(
        Operands::Ints,
        BasisPrimitive::Subtract,
        &[Constant::Int(-2147483648), Constant::Int(1)],
        Gives::Raises("Overflow"),
    ),
    Edge(
        Operands::Ints,
        BasisPrimitive::Subtract,
        &[Constant::Int(0), Constant::Int(-2147483648)],
        Gives::Raises("Overflow"),
    ),
    Edge(
        Operands::Ints,
        BasisPrimitive::Subtract,
        &[Constant::Int(-1), Constant::Int(2147483647)],
        Gives::Value(Shown::Int, "~2147483648"),
    ),
    Edge(
        Operands::Ints,
        BasisPrimitive::Subtract,
        &[Constant::Int(-2147483648), Constant::Int(-2147483648)],
        Gives::Value(Shown::Int, "0"),
    ),
    Edge(
        Operands::Ints,
        BasisPrimitive::Multiply,
        &[Constant::Int(65536), Constant::Int(32768)],
        Gives::Raises("Overflow"),
    ),
    Edge(
        Operands::Ints,
        BasisPrimitive::Multiply,
        &[Constant::Int(-65536), Constant::Int(32768)],
        Gives::Value(Shown::Int, "~2147483648"),
    ),
    Edge(
        Operands::Ints,
        BasisPrimitive::Multiply,
        &[Constant::Int(46340), Constant::Int(46340)],
        Gives::Value(Shown::Int, "2147395600"),
    ),
    Edge(
        Operands::Ints,
        BasisPrimitive::Multiply,
        &[Constant::Int(46341), Constant::Int(46341)],
        Gives::Raises("Overflow"),
    ),
    Edge(
        Operands::Ints,
        BasisPrimitive::Multiply,
        &[Constant::Int(-2147483648), Constant::Int(-1)],
        Gives::Raises("Overflow"),
    ),
    Edge(
        Operands::Ints,
        BasisPrimitive::Multiply,
        &[Constant::Int(-2147483648), Constant::Int(1)],
        Gives::Value(Shown::Int, "~2147483648"),
    ),
    Edge(
        Operands::Ints,
        BasisPrimitive::Multiply,
        &[Constant::Int(0), Constant::Int(-2147483648)],
        Gives::Value(Shown::Int, "0"),
    ),
];

/// Quotients and remainders of integers, rounded down.
static QUOTIENTS: [Edge; 13] = [
    Edge(
        Operands::Ints,
        BasisPrimitive::Divide,
        &[Constant::Int(-7), Constant::Int(2)],
        Gives::Value(Shown::Int, "~4"),
    ),
    Edge(
        Operands::Ints,
        BasisPrimitive::Divide,
        &[Constant::Int(7), Constant::Int(-2)],
        Gives::Value(Shown::Int, "~4"),
    ),
    Edge(
        Operands::Ints,
        BasisPrimitive::Divide,
        &[Constant::Int(-7), Constant::Int(-2)],
        Gives::Value(Shown::Int, "3"),
    ),
    Edge(
        Operands::Ints,
        BasisPrimitive::Divide,
        &[Constant::Int(7), Constant::Int(0)],
        Gives::Raises("Div"),
    ),
    Edge(
        Operands::Ints,
        BasisPrimitive::Divide,
        &[Constant::Int(-2147483648), Constant::Int(-1)],
        Gives::Raises("Overflow"),
    ),
    Edge(
        Operands::Ints,
        BasisPrimitive::Divide,
        &[Constant::Int(-2147483648), Constant::Int(1)],
        Gives::Value(Shown::Int, "~2147483648"),
    ),
    Edge(
        Operands::Ints,
        BasisPrimitive::Divide,
        &[Constant::Int(-2147483648), Constant::Int(2147483647)],
        Gives::Value(Shown::Int, "~2"),
    ),
    Edge(
        Operands::Ints,
        BasisPrimitive::Modulo,
        &[Constant::Int(-7), Constant::Int(2)],
        Gives::Value(Shown::Int, "1"),
    ),
    Edge(
        Operands::Ints,
        BasisPrimitive::Modulo,
        &[Constant::Int(7), Constant::Int(-2)],
        Gives::Value(Shown::Int, "~1"),
    ),
    Edge(
        Operands::Ints,
        BasisPrimitive::Modulo,
        &[Constant::Int(-7), Constant::Int(-2)],
        Gives::Value(Shown::Int, "~1"),
    ),
    Edge(
        Operands::Ints,
        BasisPrimitive::Modulo,
        &[Constant::Int(7), Constant::Int(0)],
        Gives::Raises("Div"),
    ),
    Edge(
        Operands::Ints,
        BasisPrimitive::Modulo,
        &[Constant::Int(-2147483648), Constant::Int(-1)],
        Gives::Value(Shown::Int, "0"),
    ),
    Edge(
        Operands::Ints,
        BasisPrimitive::Modulo,
        &[Constant::Int(-2147483648), Constant::Int(2147483647)],
        Gives::Value(Shown::Int, "2147483646"),
    ),
];

/// The same, towards 0.
static TRUNCATED: [Edge; 11] = [
    Edge(
        Operands::Ints,
        BasisPrimitive::Quotient,
        &[Constant::Int(-7), Constant::Int(2)],
        Gives::Value(Shown::Int, "~3"),
    ),
    Edge(
        Operands::Ints,
        BasisPrimitive::Quotient,
        &[Constant::Int(7), Constant::Int(-2)],
        Gives::Value(Shown::Int, "~3"),
    ),
    Edge(
        Operands::Ints,
        BasisPrimitive::Quotient,
        &[Constant::Int(-7), Constant::Int(-2)],
        Gives::Value(Shown::Int, "3"),
    ),
    Edge(
        Operands::Ints,
        BasisPrimitive::Quotient,
        &[Constant::Int(7), Constant::Int(0)],
        Gives::Raises("Div"),
    ),
    Edge(
        Operands::Ints,
        BasisPrimitive::Quotient,
        &[Constant::Int(-2147483648), Constant::Int(-1)],
        Gives::Raises("Overflow"),
    ),
    Edge(
        Operands::Ints,
        BasisPrimitive::Quotient,
        &[Constant::Int(-2147483648), Constant::Int(2147483647)],
        Gives::Value(Shown::Int, "~1"),
    ),
    Edge(
        Operands::Ints,
        BasisPrimitive::Remainder,
        &[Constant::Int(-7), Constant::Int(2)],
        Gives::Value(Shown::Int, "~1"),
    ),
    Edge(
        Operands::Ints,
        BasisPrimitive::Remainder,
        &[Constant::Int(7), Constant::Int(-2)],
        Gives::Value(Shown::Int, "1"),
    ),
    Edge(
        Operands::Ints,
        BasisPrimitive::Remainder,
        &[Constant::Int(-7), Constant::Int(-2)],
        Gives::Value(Shown::Int, "~1"),
    ),
    Edge(
        Operands::Ints,
        BasisPrimitive::Remainder,
        &[Constant::Int(7), Constant::Int(0)],
        Gives::Raises("Div"),
    ),
    Edge(
        Operands::Ints,
        BasisPrimitive::Remainder,
        &[Constant::Int(-2147483648), Constant::Int(-1)],
        Gives::Value(Shown::Int, "0"),
    ),
];

/// Signs and conversions of integers.
static SIGNS: [Edge; 17] = [
    Edge(
        Operands::Ints,
        BasisPrimitive::Negate,
        &[Constant::Int(-2147483648)],
        Gives::Raises("Overflow"),
    ),
    Edge(
        Operands::Ints,
        BasisPrimitive::Negate,
        &[Constant::Int(2147483647)],
        Gives::Value(Shown::Int, "~2147483647"),
    ),
    Edge(
        Operands::Ints,
        BasisPrimitive::Negate,
        &[Constant::Int(-2147483647)],
        Gives::Value(Shown::Int, "2147483647"),
    ),
    Edge(
        Operands::Ints,
        BasisPrimitive::Negate,
        &[Constant::Int(0)],
        Gives::Value(Shown::Int, "0"),
    ),
    Edge(
        Operands::Ints,
        BasisPrimitive::Absolute,
        &[Constant::Int(-2147483648)],
        Gives::Raises("Overflow"),
    ),
    Edge(
        Operands::Ints,
        BasisPrimitive::Absolute,
        &[Constant::Int(2147483647)],
        Gives::Value(Shown::Int, "2147483647"),
    ),
    Edge(
        Operands::Ints,
        BasisPrimitive::Absolute,
        &[Constant::Int(-2147483647)],
        Gives::Value(Shown::Int, "2147483647"),
    ),
    Edge(
        Operands::Ints,
        BasisPrimitive::Absolute,
        &[Constant::Int(0)],
        Gives::Value(Shown::Int, "0"),
    ),
    Edge(
        Operands::Ints,
        BasisPrimitive::CharOf,
        &[Constant::Int(0)],
        Gives::Value(Shown::Char, "0"),
    ),
    Edge(
        Operands::Ints,
        BasisPrimitive::CharOf,
        &[Constant::Int(255)],
        Gives::Value(Shown::Char, "255"),
    ),
    Edge(
        Operands::Ints,
        BasisPrimitive::CharOf,
        &[Constant::Int(256)],
        Gives::Raises("Chr"),
    ),
    Edge(
        Operands::Ints,
        BasisPrimitive::CharOf,
        &[Constant::Int(-1)],
        Gives::Raises("Chr"),
    ),
    Edge(
        Operands::Ints,
        BasisPrimitive::TextOf,
        &[Constant::Int(0)],
        Gives::Value(Shown::Text, "0"),
    ),
    Edge(
        Operands::Ints,
        BasisPrimitive::TextOf,
        &[Constant::Int(-2147483648)],
        Gives::Value(Shown::Text, "~2147483648"),
    ),
    Edge(
        Operands::Ints,
        BasisPrimitive::TextOf,
        &[Constant::Int(2147483647)],
        Gives::Value(Shown::Text, "2147483647"),
    ),
    Edge(
        Operands::Ints,
        BasisPrimitive::FromInt,
        &[Constant::Int(-1)],
        Gives::Value(Shown::Word, "~1"),
    ),
    Edge(
        Operands::Ints,
        BasisPrimitive::FromInt,
        &[Constant::Int(-2147483648)],
        Gives::Value(Shown::Word, "~2147483648"),
    ),
];

/// Arithmetic of words.
static WORDS: [Edge; 20] = [
    Edge(
        Operands::Words,
        BasisPrimitive::Add,
        &[Constant::Word(4294967295), Constant::Word(1)],
        Gives::Value(Shown::Word, "0"),
    ),
    Edge(
        Operands::Words,
        BasisPrimitive::Add,
        &[Constant::Word(4294967295), Constant::Word(4294967295)],
        Gives::Value(Shown::Word, "~2"),
    ),
    Edge(
        Operands::Words,
        BasisPrimitive::Subtract,
        &[Constant::Word(0), Constant::Word(1)],
        Gives::Value(Shown::Word, "~1"),
    ),
    Edge(
        Operands::Words,
        BasisPrimitive::Subtract,
        &[Constant::Word(4294967295), Constant::Word(4294967295)],
        Gives::Value(Shown::Word, "0"),
    ),
    Edge(
        Operands::Words,
        BasisPrimitive::Multiply,
        &[Constant::Word(65536), Constant::Word(65536)],
        Gives::Value(Shown::Word, "0"),
    ),
    Edge(
        Operands::Words,
        BasisPrimitive::Multiply,
        &[Constant::Word(65537), Constant::Word(65537)],
        Gives::Value(Shown::Word, "131073"),
    ),
    Edge(
        Operands::Words,
        BasisPrimitive::Divide,
        &[Constant::Word(4294967295), Constant::Word(2)],
        Gives::Value(Shown::Word, "2147483647"),
    ),
    Edge(
        Operands::Words,
        BasisPrimitive::Divide,
        &[Constant::Word(3), Constant::Word(0)],
        Gives::Raises("Div"),
    ),
    Edge(
        Operands::Words,
        BasisPrimitive::Divide,
        &[Constant::Word(2), Constant::Word(4294967295)],
        Gives::Value(Shown::Word, "0"),
    ),
    Edge(
        Operands::Words,
        BasisPrimitive::Modulo,
        &[Constant::Word(4294967295), Constant::Word(10)],
        Gives::Value(Shown::Word, "5"),
    ),
    Edge(
        Operands::Words,
        BasisPrimitive::Modulo,
        &[Constant::Word(3), Constant::Word(0)],
        Gives::Raises("Div"),
    ),
    Edge(
        Operands::Words,
        BasisPrimitive::Modulo,
        &[Constant::Word(2), Constant::Word(4294967295)],
        Gives::Value(Shown::Word, "2"),
    ),
    Edge(
        Operands::Words,
        BasisPrimitive::Negate,
        &[Constant::Word(0)],
        Gives::Value(Shown::Word, "0"),
    ),
    Edge(
        Operands::Words,
        BasisPrimitive::Negate,
        &[Constant::Word(1)],
        Gives::Value(Shown::Word, "~1"),
    ),
    Edge(
        Operands::Words,
        BasisPrimitive::Negate,
        &[Constant::Word(2147483648)],
        Gives::Value(Shown::Word, "~2147483648"),
    ),
    Edge(
        Operands::Words,
        BasisPrimitive::ToInt,
        &[Constant::Word(2147483647)],
        Gives::Value(Shown::Int, "2147483647"),
    ),
    Edge(
        Operands::Words,
        BasisPrimitive::ToInt,
        &[Constant::Word(2147483648)],
        Gives::Raises("Overflow"),
    ),
    Edge(
        Operands::Words,
        BasisPrimitive::ToInt,
        &[Constant::Word(4294967295)],
        Gives::Raises("Overflow"),
    ),
    Edge(
        Operands::Words,
        BasisPrimitive::ToIntSigned,
        &[Constant::Word(2147483648)],
        Gives::Value(Shown::Int, "~2147483648"),
    ),
    Edge(
        Operands::Words,
        BasisPrimitive::ToIntSigned,
        &[Constant::Word(4294967295)],
        Gives::Value(Shown::Int, "~1"),
    ),
];

/// Bits and shifts.
static BITS: [Edge; 17] = [
    Edge(
        Operands::Words,
        BasisPrimitive::BitsAnd,
        &[Constant::Word(4294967295), Constant::Word(2147483649)],
        Gives::Value(Shown::Word, "~2147483647"),
    ),
    Edge(
        Operands::Words,
        BasisPrimitive::BitsOr,
        &[Constant::Word(2147483648), Constant::Word(1)],
        Gives::Value(Shown::Word, "~2147483647"),
    ),
    Edge(
        Operands::Words,
        BasisPrimitive::BitsXor,
        &[Constant::Word(4294967295), Constant::Word(2147483649)],
        Gives::Value(Shown::Word, "2147483646"),
    ),
    Edge(
        Operands::Words,
        BasisPrimitive::ShiftLeft,
        &[Constant::Word(1), Constant::Word(31)],
        Gives::Value(Shown::Word, "~2147483648"),
    ),
    Edge(
        Operands::Words,
        BasisPrimitive::ShiftLeft,
        &[Constant::Word(1), Constant::Word(32)],
        Gives::Value(Shown::Word, "0"),
    ),
    Edge(
        Operands::Words,
        BasisPrimitive::ShiftLeft,
        &[Constant::Word(1), Constant::Word(4294967295)],
        Gives::Value(Shown::Word, "0"),
    ),
    Edge(
        Operands::Words,
        BasisPrimitive::ShiftLeft,
        &[Constant::Word(4294967295), Constant::Word(0)],
        Gives::Value(Shown::Word, "~1"),
    ),
    Edge(
        Operands::Words,
        BasisPrimitive::ShiftRight,
        &[Constant::Word(2147483648), Constant::Word(31)],
        Gives::Value(Shown::Word, "1"),
    ),
    Edge(
        Operands::Words,
        BasisPrimitive::ShiftRight,
        &[Constant::Word(2147483648), Constant::Word(32)],
        Gives::Value(Shown::Word, "0"),
    ),
    Edge(
        Operands::Words,
        BasisPrimitive::ShiftRight,
        &[Constant::Word(4294967295), Constant::Word(4294967295)],
        Gives::Value(Shown::Word, "0"),
    ),
    Edge(
        Operands::Words,
        BasisPrimitive::ShiftRight,
        &[Constant::Word(4294967295), Constant::Word(0)],
        Gives::Value(Shown::Word, "~1"),
    ),
    Edge(
        Operands::Words,
        BasisPrimitive::ShiftSigned,
        &[Constant::Word(2147483648), Constant::Word(31)],
        Gives::Value(Shown::Word, "~1"),
    ),
    Edge(
        Operands::Words,
        BasisPrimitive::ShiftSigned,
        &[Constant::Word(2147483648), Constant::Word(32)],
        Gives::Value(Shown::Word, "~1"),
    ),
    Edge(
        Operands::Words,
        BasisPrimitive::ShiftSigned,
        &[Constant::Word(2147483647), Constant::Word(4294967295)],
        Gives::Value(Shown::Word, "0"),
    ),
    Edge(
        Operands::Words,
        BasisPrimitive::ShiftSigned,
        &[Constant::Word(4294967295), Constant::Word(0)],
        Gives::Value(Shown::Word, "~1"),
    ),
    Edge(
        Operands::Words,
        BasisPrimitive::BitsNot,
        &[Constant::Word(0)],
        Gives::Value(Shown::Word, "~1"),
    ),
    Edge(
        Operands::Words,
        BasisPrimitive::BitsNot,
        &[Constant::Word(4294967295)],
        Gives::Value(Shown::Word, "0"),
    ),
];

/// Comparisons of integers.
static INTS_COMPARED: [Edge; 15] = [
    Edge(
        Operands::Ints,
        BasisPrimitive::Less,
        &[Constant::Int(-2147483648), Constant::Int(2147483647)],
        Gives::Value(Shown::Truth, "1"),
    ),
    Edge(
        Operands::Ints,
        BasisPrimitive::Less,
        &[Constant::Int(2147483647), Constant::Int(-2147483648)],
        Gives::Value(Shown::Truth, "0"),
    ),
    Edge(
        Operands::Ints,
        BasisPrimitive::Less,
        &[Constant::Int(-2147483648), Constant::Int(-2147483648)],
        Gives::Value(Shown::Truth, "0"),
    ),
    Edge(
        Operands::Ints,
        BasisPrimitive::LessEqual,
        &[Constant::Int(-2147483648), Constant::Int(2147483647)],
        Gives::Value(Shown::Truth, "1"),
    ),
    Edge(
        Operands::Ints,
        BasisPrimitive::LessEqual,
        &[Constant::Int(2147483647), Constant::Int(-2147483648)],
        Gives::Value(Shown::Truth, "0"),
    ),
    Edge(
        Operands::Ints,
        BasisPrimitive::LessEqual,
        &[Constant::Int(-2147483648), Constant::Int(-2147483648)],
        Gives::Value(Shown::Truth, "1"),
    ),
    Edge(
        Operands::Ints,
        BasisPrimitive::Greater,
        &[Constant::Int(-2147483648), Constant::Int(2147483647)],
        Gives::Value(Shown::Truth, "0"),
    ),
    Edge(
        Operands::Ints,
        BasisPrimitive::Greater,
        &[Constant::Int(2147483647), Constant::Int(-2147483648)],
        Gives::Value(Shown::Truth, "1"),
    ),
    Edge(
        Operands::Ints,
        BasisPrimitive::Greater,
        &[Constant::Int(-2147483648), Constant::Int(-2147483648)],
        Gives::Value(Shown::Truth, "0"),
    ),
    Edge(
        Operands::Ints,
        BasisPrimitive::GreaterEqual,
        &[Constant::Int(-2147483648), Constant::Int(2147483647)],
        Gives::Value(Shown::Truth, "0"),
    ),
    Edge(
        Operands::Ints,
        BasisPrimitive::GreaterEqual,
        &[Constant::Int(2147483647), Constant::Int(-2147483648)],
        Gives::Value(Shown::Truth, "1"),
    ),
    Edge(
        Operands::Ints,
        BasisPrimitive::GreaterEqual,
        &[Constant::Int(-2147483648), Constant::Int(-2147483648)],
        Gives::Value(Shown::Truth, "1"),
    ),
    Edge(
        Operands::Ints,
        BasisPrimitive::Equals,
        &[Constant::Int(-2147483648), Constant::Int(2147483647)],
        Gives::Value(Shown::Truth, "0"),
    ),
    Edge(
        Operands::Ints,
        BasisPrimitive::Equals,
        &[Constant::Int(2147483647), Constant::Int(-2147483648)],
        Gives::Value(Shown::Truth, "0"),
    ),
    Edge(
        Operands::Ints,
        BasisPrimitive::Equals,
        &[Constant::Int(-2147483648), Constant::Int(-2147483648)],
        Gives::Value(Shown::Truth, "1"),
    ),
];

/// Comparisons of words, by their bits.
static WORDS_COMPARED: [Edge; 15] = [
    Edge(
        Operands::Words,
        BasisPrimitive::Less,
        &[Constant::Word(0), Constant::Word(4294967295)],
        Gives::Value(Shown::Truth, "1"),
    ),
    Edge(
        Operands::Words,
        BasisPrimitive::Less,
        &[Constant::Word(4294967295), Constant::Word(0)],
        Gives::Value(Shown::Truth, "0"),
    ),
    Edge(
        Operands::Words,
        BasisPrimitive::Less,
        &[Constant::Word(4294967295), Constant::Word(4294967295)],
        Gives::Value(Shown::Truth, "0"),
    ),
    Edge(
        Operands::Words,
        BasisPrimitive::LessEqual,
        &[Constant::Word(0), Constant::Word(4294967295)],
        Gives::Value(Shown::Truth, "1"),
    ),
    Edge(
        Operands::Words,
        BasisPrimitive::LessEqual,
        &[Constant::Word(4294967295), Constant::Word(0)],
        Gives::Value(Shown::Truth, "0"),
    ),
    Edge(
        Operands::Words,
        BasisPrimitive::LessEqual,
        &[Constant::Word(4294967295), Constant::Word(4294967295)],
        Gives::Value(Shown::Truth, "1"),
    ),
    Edge(
        Operands::Words,
        BasisPrimitive::Greater,
        &[Constant::Word(0), Constant::Word(4294967295)],
        Gives::Value(Shown::Truth, "0"),
    ),
    Edge(
        Operands::Words,
        BasisPrimitive::Greater,
        &[Constant::Word(4294967295), Constant::Word(0)],
        Gives::Value(Shown::Truth, "1"),
    ),
    Edge(
        Operands::Words,
        BasisPrimitive::Greater,
        &[Constant::Word(4294967295), Constant::Word(4294967295)],
        Gives::Value(Shown::Truth, "0"),
    ),
    Edge(
        Operands::Words,
        BasisPrimitive::GreaterEqual,
        &[Constant::Word(0), Constant::Word(4294967295)],
        Gives::Value(Shown::Truth, "0"),
    ),
    Edge(
        Operands::Words,
        BasisPrimitive::GreaterEqual,
        &[Constant::Word(4294967295), Constant::Word(0)],
        Gives::Value(Shown::Truth, "1"),
    ),
    Edge(
        Operands::Words,
        BasisPrimitive::GreaterEqual,
        &[Constant::Word(4294967295), Constant::Word(4294967295)],
        Gives::Value(Shown::Truth, "1"),
    ),
    Edge(
        Operands::Words,
        BasisPrimitive::Equals,
        &[Constant::Word(0), Constant::Word(4294967295)],
        Gives::Value(Shown::Truth, "0"),
    ),
    Edge(
        Operands::Words,
        BasisPrimitive::Equals,
        &[Constant::Word(4294967295), Constant::Word(0)],
        Gives::Value(Shown::Truth, "0"),
    ),
    Edge(
        Operands::Words,
        BasisPrimitive::Equals,
        &[Constant::Word(4294967295), Constant::Word(4294967295)],
        Gives::Value(Shown::Truth, "1"),
    ),
];

/// Comparisons of characters.
static CHARS_COMPARED: [Edge; 15] = [
    Edge(
        Operands::Chars,
        BasisPrimitive::Less,
        &[Constant::Char(0), Constant::Char(255)],
        Gives::Value(Shown::Truth, "1"),
    ),
    Edge(
        Operands::Chars,
        BasisPrimitive::Less,
        &[Constant::Char(255), Constant::Char(0)],
        Gives::Value(Shown::Truth, "0"),
    ),
    Edge(
        Operands::Chars,
        BasisPrimitive::Less,
        &[Constant::Char(255), Constant::Char(255)],
        Gives::Value(Shown::Truth, "0"),
    ),
    Edge(
        Operands::Chars,
        BasisPrimitive::LessEqual,
        &[Constant::Char(0), Constant::Char(255)],
        Gives::Value(Shown::Truth, "1"),
    ),
    Edge(
        Operands::Chars,
        BasisPrimitive::LessEqual,
        &[Constant::Char(255), Constant::Char(0)],
        Gives::Value(Shown::Truth, "0"),
    ),
    Edge(
        Operands::Chars,
        BasisPrimitive::LessEqual,
        &[Constant::Char(255), Constant::Char(255)],
        Gives::Value(Shown::Truth, "1"),
    ),
    Edge(
        Operands::Chars,
        BasisPrimitive::Greater,
        &[Constant::Char(0), Constant::Char(255)],
        Gives::Value(Shown::Truth, "0"),
    ),
    Edge(
        Operands::Chars,
        BasisPrimitive::Greater,
        &[Constant::Char(255), Constant::Char(0)],
        Gives::Value(Shown::Truth, "1"),
    ),
    Edge(
        Operands::Chars,
        BasisPrimitive::Greater,
        &[Constant::Char(255), Constant::Char(255)],
        Gives::Value(Shown::Truth, "0"),
    ),
    Edge(
        Operands::Chars,
        BasisPrimitive::GreaterEqual,
        &[Constant::Char(0), Constant::Char(255)],
        Gives::Value(Shown::Truth, "0"),
    ),
    Edge(
        Operands::Chars,
        BasisPrimitive::GreaterEqual,
        &[Constant::Char(255), Constant::Char(0)],
        Gives::Value(Shown::Truth, "1"),
    ),
    Edge(
        Operands::Chars,
        BasisPrimitive::GreaterEqual,
        &[Constant::Char(255), Constant::Char(255)],
        Gives::Value(Shown::Truth, "1"),
    ),
    Edge(
        Operands::Chars,
        BasisPrimitive::Equals,
        &[Constant::Char(0), Constant::Char(255)],
        Gives::Value(Shown::Truth, "0"),
    ),
    Edge(
        Operands::Chars,
        BasisPrimitive::Equals,
        &[Constant::Char(255), Constant::Char(0)],
        Gives::Value(Shown::Truth, "0"),
    ),
    Edge(
        Operands::Chars,
        BasisPrimitive::Equals,
        &[Constant::Char(255), Constant::Char(255)],
        Gives::Value(Shown::Truth, "1"),
    ),
];

/// Comparisons of texts, by bytes; a text is less than what it begins.
static TEXTS_COMPARED: [Edge; 18] = [
    Edge(
        Operands::Texts,
        BasisPrimitive::Less,
        &[Constant::Text(0), Constant::Text(1)],
        Gives::Value(Shown::Truth, "1"),
    ),
    Edge(
        Operands::Texts,
        BasisPrimitive::Less,
        &[Constant::Text(2), Constant::Text(3)],
        Gives::Value(Shown::Truth, "1"),
    ),
    Edge(
        Operands::Texts,
        BasisPrimitive::Less,
        &[Constant::Text(3), Constant::Text(2)],
        Gives::Value(Shown::Truth, "0"),
    ),
    Edge(
        Operands::Texts,
        BasisPrimitive::Less,
        &[Constant::Text(2), Constant::Text(1)],
        Gives::Value(Shown::Truth, "0"),
    ),
    Edge(
        Operands::Texts,
        BasisPrimitive::Less,
        &[Constant::Text(2), Constant::Text(2)],
        Gives::Value(Shown::Truth, "0"),
    ),
    Edge(
        Operands::Texts,
        BasisPrimitive::Less,
        &[Constant::Text(0), Constant::Text(0)],
        Gives::Value(Shown::Truth, "0"),
    ),
    Edge(
        Operands::Texts,
        BasisPrimitive::LessEqual,
        &[Constant::Text(0), Constant::Text(1)],
        Gives::Value(Shown::Truth, "1"),
    ),
    Edge(
        Operands::Texts,
        BasisPrimitive::LessEqual,
        &[Constant::Text(2), Constant::Text(3)],
        Gives::Value(Shown::Truth, "1"),
    ),
    Edge(
        Operands::Texts,
        BasisPrimitive::LessEqual,
        &[Constant::Text(3), Constant::Text(2)],
        Gives::Value(Shown::Truth, "0"),
    ),
    Edge(
        Operands::Texts,
        BasisPrimitive::LessEqual,
        &[Constant::Text(2), Constant::Text(1)],
        Gives::Value(Shown::Truth, "0"),
    ),
    Edge(
        Operands::Texts,
        BasisPrimitive::LessEqual,
        &[Constant::Text(2), Constant::Text(2)],
        Gives::Value(Shown::Truth, "1"),
    ),
    Edge(
        Operands::Texts,
        BasisPrimitive::LessEqual,
        &[Constant::Text(0), Constant::Text(0)],
        Gives::Value(Shown::Truth, "1"),
    ),
    Edge(
        Operands::Texts,
        BasisPrimitive::Equals,
        &[Constant::Text(0), Constant::Text(1)],
        Gives::Value(Shown::Truth, "0"),
    ),
    Edge(
        Operands::Texts,
        BasisPrimitive::Equals,
        &[Constant::Text(2), Constant::Text(3)],
        Gives::Value(Shown::Truth, "0"),
    ),
    Edge(
        Operands::Texts,
        BasisPrimitive::Equals,
        &[Constant::Text(3), Constant::Text(2)],
        Gives::Value(Shown::Truth, "0"),
    ),
    Edge(
        Operands::Texts,
        BasisPrimitive::Equals,
        &[Constant::Text(2), Constant::Text(1)],
        Gives::Value(Shown::Truth, "0"),
    ),
    Edge(
        Operands::Texts,
        BasisPrimitive::Equals,
        &[Constant::Text(2), Constant::Text(2)],
        Gives::Value(Shown::Truth, "1"),
    ),
    Edge(
        Operands::Texts,
        BasisPrimitive::Equals,
        &[Constant::Text(0), Constant::Text(0)],
        Gives::Value(Shown::Truth, "1"),
    ),
];

/// The same, from the other side.
static TEXTS_REVERSED: [Edge; 12] = [
    Edge(
        Operands::Texts,
        BasisPrimitive::Greater,
        &[Constant::Text(0), Constant::Text(1)],
        Gives::Value(Shown::Truth, "0"),
    ),
    Edge(
        Operands::Texts,
        BasisPrimitive::Greater,
        &[Constant::Text(2), Constant::Text(3)],
        Gives::Value(Shown::Truth, "0"),
    ),
    Edge(
        Operands::Texts,
        BasisPrimitive::Greater,
        &[Constant::Text(3), Constant::Text(2)],
        Gives::Value(Shown::Truth, "1"),
    ),
    Edge(
        Operands::Texts,
        BasisPrimitive::Greater,
        &[Constant::Text(2), Constant::Text(1)],
        Gives::Value(Shown::Truth, "1"),
    ),
    Edge(
        Operands::Texts,
        BasisPrimitive::Greater,
        &[Constant::Text(2), Constant::Text(2)],
        Gives::Value(Shown::Truth, "0"),
    ),
    Edge(
        Operands::Texts,
        BasisPrimitive::Greater,
        &[Constant::Text(0), Constant::Text(0)],
        Gives::Value(Shown::Truth, "0"),
    ),
    Edge(
        Operands::Texts,
        BasisPrimitive::GreaterEqual,
        &[Constant::Text(0), Constant::Text(1)],
        Gives::Value(Shown::Truth, "0"),
    ),
    Edge(
        Operands::Texts,
        BasisPrimitive::GreaterEqual,
        &[Constant::Text(2), Constant::Text(3)],
        Gives::Value(Shown::Truth, "0"),
    ),
    Edge(
        Operands::Texts,
        BasisPrimitive::GreaterEqual,
        &[Constant::Text(3), Constant::Text(2)],
        Gives::Value(Shown::Truth, "1"),
    ),
    Edge(
        Operands::Texts,
        BasisPrimitive::GreaterEqual,
        &[Constant::Text(2), Constant::Text(1)],
        Gives::Value(Shown::Truth, "1"),
    ),
    Edge(
        Operands::Texts,
        BasisPrimitive::GreaterEqual,
        &[Constant::Text(2), Constant::Text(2)],
        Gives::Value(Shown::Truth, "1"),
    ),
    Edge(
        Operands::Texts,
        BasisPrimitive::GreaterEqual,
        &[Constant::Text(0), Constant::Text(0)],
        Gives::Value(Shown::Truth, "1"),
    ),
];

/// Characters, sizes, and the characters of texts.
static CHARACTERS: [Edge; 14] = [
    Edge(
        Operands::Chars,
        BasisPrimitive::CharCode,
        &[Constant::Char(0)],
        Gives::Value(Shown::Int, "0"),
    ),
    Edge(
        Operands::Chars,
        BasisPrimitive::CharCode,
        &[Constant::Char(65)],
        Gives::Value(Shown::Int, "65"),
    ),
    Edge(
        Operands::Chars,
        BasisPrimitive::CharCode,
        &[Constant::Char(255)],
        Gives::Value(Shown::Int, "255"),
    ),
    Edge(
        Operands::Chars,
        BasisPrimitive::StringOf,
        &[Constant::Char(65)],
        Gives::Value(Shown::Text, "A"),
    ),
    Edge(
        Operands::Chars,
        BasisPrimitive::StringOf,
        &[Constant::Char(122)],
        Gives::Value(Shown::Text, "z"),
    ),
    Edge(
        Operands::Texts,
        BasisPrimitive::SizeOf,
        &[Constant::Text(0)],
        Gives::Value(Shown::Int, "0"),
    ),
    Edge(
        Operands::Texts,
        BasisPrimitive::SizeOf,
        &[Constant::Text(1)],
        Gives::Value(Shown::Int, "1"),
    ),
    Edge(
        Operands::Texts,
        BasisPrimitive::SizeOf,
        &[Constant::Text(4)],
        Gives::Value(Shown::Int, "8"),
    ),
    Edge(
        Operands::Texts,
        BasisPrimitive::CharAt,
        &[Constant::Text(2), Constant::Int(0)],
        Gives::Value(Shown::Char, "97"),
    ),
    Edge(
        Operands::Texts,
        BasisPrimitive::CharAt,
        &[Constant::Text(2), Constant::Int(1)],
        Gives::Value(Shown::Char, "98"),
    ),
    Edge(
        Operands::Texts,
        BasisPrimitive::CharAt,
        &[Constant::Text(2), Constant::Int(2)],
        Gives::Raises("Subscript"),
    ),
    Edge(
        Operands::Texts,
        BasisPrimitive::CharAt,
        &[Constant::Text(2), Constant::Int(-1)],
        Gives::Raises("Subscript"),
    ),
    Edge(
        Operands::Texts,
        BasisPrimitive::CharAt,
        &[Constant::Text(0), Constant::Int(0)],
        Gives::Raises("Subscript"),
    ),
    Edge(
        Operands::Texts,
        BasisPrimitive::CharAt,
        &[Constant::Text(2), Constant::Int(-2147483648)],
        Gives::Raises("Subscript"),
    ),
];

/// Parts of texts, and texts joined.
static PARTS: [Edge; 14] = [
    Edge(
        Operands::Texts,
        BasisPrimitive::PartOf,
        &[Constant::Text(4), Constant::Int(0), Constant::Int(8)],
        Gives::Value(Shown::Text, "abcdefgh"),
    ),
    Edge(
        Operands::Texts,
        BasisPrimitive::PartOf,
        &[Constant::Text(4), Constant::Int(2), Constant::Int(3)],
        Gives::Value(Shown::Text, "cde"),
    ),
    Edge(
        Operands::Texts,
        BasisPrimitive::PartOf,
        &[Constant::Text(4), Constant::Int(8), Constant::Int(0)],
        Gives::Value(Shown::Text, ""),
    ),
    Edge(
        Operands::Texts,
        BasisPrimitive::PartOf,
        &[Constant::Text(0), Constant::Int(0), Constant::Int(0)],
        Gives::Value(Shown::Text, ""),
    ),
    Edge(
        Operands::Texts,
        BasisPrimitive::PartOf,
        &[Constant::Text(4), Constant::Int(8), Constant::Int(1)],
        Gives::Raises("Subscript"),
    ),
    Edge(
        Operands::Texts,
        BasisPrimitive::PartOf,
        &[Constant::Text(4), Constant::Int(9), Constant::Int(0)],
        Gives::Raises("Subscript"),
    ),
    Edge(
        Operands::Texts,
        BasisPrimitive::PartOf,
        &[Constant::Text(4), Constant::Int(-1), Constant::Int(1)],
        Gives::Raises("Subscript"),
    ),
    Edge(
        Operands::Texts,
        BasisPrimitive::PartOf,
        &[Constant::Text(4), Constant::Int(1), Constant::Int(-1)],
        Gives::Raises("Subscript"),
    ),
    Edge(
        Operands::Texts,
        BasisPrimitive::PartOf,
        &[
            Constant::Text(4),
            Constant::Int(1),
            Constant::Int(2147483647),
        ],
        Gives::Raises("Subscript"),
    ),
    Edge(
        Operands::Texts,
        BasisPrimitive::PartOf,
        &[
            Constant::Text(4),
            Constant::Int(2147483647),
            Constant::Int(2147483647),
        ],
        Gives::Raises("Subscript"),
    ),
    Edge(
        Operands::Texts,
        BasisPrimitive::Concat,
        &[Constant::Text(0), Constant::Text(0)],
        Gives::Value(Shown::Text, ""),
    ),
    Edge(
        Operands::Texts,
        BasisPrimitive::Concat,
        &[Constant::Text(0), Constant::Text(2)],
        Gives::Value(Shown::Text, "ab"),
    ),
    Edge(
        Operands::Texts,
        BasisPrimitive::Concat,
        &[Constant::Text(2), Constant::Text(0)],
        Gives::Value(Shown::Text, "ab"),
    ),
    Edge(
        Operands::Texts,
        BasisPrimitive::Concat,
        &[Constant::Text(2), Constant::Text(4)],
        Gives::Value(Shown::Text, "ababcdefgh"),
    ),
];

#[test]
fn sums_and_products(rt: HostRuntime) -> Result<(), Fail> {
    check_all(&rt, rt.alloc(), &SUMS)?;
    Ok(())
}

#[test]
fn quotients(rt: HostRuntime) -> Result<(), Fail> {
    check_all(&rt, rt.alloc(), &QUOTIENTS)?;
    Ok(())
}

#[test]
fn truncated_quotients(rt: HostRuntime) -> Result<(), Fail> {
    check_all(&rt, rt.alloc(), &TRUNCATED)?;
    Ok(())
}

#[test]
fn signs_and_conversions(rt: HostRuntime) -> Result<(), Fail> {
    check_all(&rt, rt.alloc(), &SIGNS)?;
    Ok(())
}

#[test]
fn arithmetic_of_words(rt: HostRuntime) -> Result<(), Fail> {
    check_all(&rt, rt.alloc(), &WORDS)?;
    Ok(())
}

#[test]
fn bits_and_shifts(rt: HostRuntime) -> Result<(), Fail> {
    check_all(&rt, rt.alloc(), &BITS)?;
    Ok(())
}

#[test]
fn comparisons_of_integers(rt: HostRuntime) -> Result<(), Fail> {
    check_all(&rt, rt.alloc(), &INTS_COMPARED)?;
    Ok(())
}

#[test]
fn comparisons_of_words(rt: HostRuntime) -> Result<(), Fail> {
    check_all(&rt, rt.alloc(), &WORDS_COMPARED)?;
    Ok(())
}

#[test]
fn comparisons_of_characters(rt: HostRuntime) -> Result<(), Fail> {
    check_all(&rt, rt.alloc(), &CHARS_COMPARED)?;
    Ok(())
}

#[test]
fn comparisons_of_texts(rt: HostRuntime) -> Result<(), Fail> {
    check_all(&rt, rt.alloc(), &TEXTS_COMPARED)?;
    Ok(())
}

#[test]
fn reversed_comparisons_of_texts(rt: HostRuntime) -> Result<(), Fail> {
    check_all(&rt, rt.alloc(), &TEXTS_REVERSED)?;
    Ok(())
}

#[test]
fn characters(rt: HostRuntime) -> Result<(), Fail> {
    check_all(&rt, rt.alloc(), &CHARACTERS)?;
    Ok(())
}

#[test]
fn parts_of_texts(rt: HostRuntime) -> Result<(), Fail> {
    check_all(&rt, rt.alloc(), &PARTS)?;
    Ok(())
}
