// Packets: taken where a primitive raises, and uncaught.

use crate::machine_emit_programs::TEXT_OF;
use crate::machine_emit_table::{NOTHING, Row, check_all};
use first_tables::operation::{Callee, Constant, Operands, Test};
use heap_vm::stop::Stop;
use mlc_prims::basis::BasisPrimitive;
use ssa_words::words::{Action, Given, Op};
use std::test::Fail;

const LETTERS: Given = Given {
    strings: &["O", "D", "C", "S"],
    types: &[],
    sets: &[],
};

/// Quotients at the edges, with Overflow and Div taken where they are raised.
const QUOTIENTS: [Op; 37] = [
    Op::Begin,
    Op::Do(Action::Is(Constant::Int(-2147483648)), &[], 0),
    Op::Do(Action::Is(Constant::Int(-1)), &[], 1),
    Op::Call(Callee::Known(1), &[0, 1], 2),
    Op::Do(Action::Is(Constant::Int(-2147483648)), &[], 3),
    Op::Do(Action::Is(Constant::Int(0)), &[], 4),
    Op::Call(Callee::Known(1), &[3, 4], 5),
    Op::Do(Action::Is(Constant::Int(-2147483648)), &[], 6),
    Op::Do(Action::Is(Constant::Int(1)), &[], 7),
    Op::Call(Callee::Known(1), &[6, 7], 8),
    Op::Do(Action::Is(Constant::Int(0)), &[], 9),
    Op::Do(Action::Is(Constant::Int(-1)), &[], 10),
    Op::Call(Callee::Known(1), &[9, 10], 11),
    Op::Do(Action::Is(Constant::Int(-1)), &[], 12),
    Op::Do(Action::Is(Constant::Int(2)), &[], 13),
    Op::Call(Callee::Known(1), &[12, 13], 14),
    Op::Do(Action::Is(Constant::Int(2147483647)), &[], 15),
    Op::Do(Action::Is(Constant::Int(-1)), &[], 16),
    Op::Call(Callee::Known(1), &[15, 16], 17),
    Op::Ret(0),
    Op::Fun(&[]),
    Op::Begin,
    Op::Begin,
    Op::Do(Action::Initial(2), &[], 3),
    Op::Begin,
    Op::Do(Action::Is(Constant::Text(0)), &[], 98),
    Op::Do(Action::Print, &[98], 99),
    Op::Ret(2),
    Op::Unless(Test::IsOf, &[2, 3]),
    Op::Do(Action::Is(Constant::Text(1)), &[], 98),
    Op::Do(Action::Print, &[98], 99),
    Op::Ret(2),
    Op::Attempt(Operands::Ints, BasisPrimitive::Divide, &[0, 1], 2),
    Op::Do(TEXT_OF, &[2], 98),
    Op::Do(Action::Print, &[98], 99),
    Op::Ret(2),
    Op::Fun(&[0, 1]),
];

/// Remainders at the edges, rounded down and towards 0: only a divisor of 0 raises.
const REMAINDERS: [Op; 41] = [
    Op::Begin,
    Op::Do(Action::Is(Constant::Int(-2147483648)), &[], 0),
    Op::Do(Action::Is(Constant::Int(-1)), &[], 1),
    Op::Call(Callee::Known(1), &[0, 1], 2),
    Op::Do(Action::Is(Constant::Int(0)), &[], 3),
    Op::Do(Action::Is(Constant::Int(0)), &[], 4),
    Op::Call(Callee::Known(1), &[3, 4], 5),
    Op::Do(Action::Is(Constant::Int(-7)), &[], 6),
    Op::Do(Action::Is(Constant::Int(2)), &[], 7),
    Op::Call(Callee::Known(1), &[6, 7], 8),
    Op::Do(Action::Is(Constant::Int(1)), &[], 9),
    Op::Do(Action::Is(Constant::Int(-1)), &[], 10),
    Op::Call(Callee::Known(1), &[9, 10], 11),
    Op::Ret(0),
    Op::Fun(&[]),
    Op::Begin,
    Op::Begin,
    Op::Do(Action::Is(Constant::Text(1)), &[], 98),
    Op::Do(Action::Print, &[98], 99),
    Op::Tail(Callee::Known(2), &[0, 1]),
    Op::Attempt(Operands::Ints, BasisPrimitive::Modulo, &[0, 1], 2),
    Op::Do(TEXT_OF, &[2], 98),
    Op::Do(Action::Print, &[98], 99),
    Op::Tail(Callee::Known(2), &[0, 1]),
    Op::Fun(&[0, 1]),
    Op::Begin,
    Op::Begin,
    Op::Do(Action::Initial(2), &[], 3),
    Op::Begin,
    Op::Do(Action::Is(Constant::Text(0)), &[], 98),
    Op::Do(Action::Print, &[98], 99),
    Op::Ret(2),
    Op::Unless(Test::IsOf, &[2, 3]),
    Op::Do(Action::Is(Constant::Text(1)), &[], 98),
    Op::Do(Action::Print, &[98], 99),
    Op::Ret(2),
    Op::Attempt(Operands::Ints, BasisPrimitive::Remainder, &[0, 1], 2),
    Op::Do(TEXT_OF, &[2], 98),
    Op::Do(Action::Print, &[98], 99),
    Op::Ret(2),
    Op::Fun(&[0, 1]),
];

/// Words as integers, where there are such, and a word divided by 0.
const OF_WORDS: [Op; 42] = [
    Op::Begin,
    Op::Do(Action::Is(Constant::Word(2147483647)), &[], 0),
    Op::Call(Callee::Known(1), &[0], 1),
    Op::Do(Action::Is(Constant::Word(2147483648)), &[], 2),
    Op::Call(Callee::Known(1), &[2], 3),
    Op::Do(Action::Is(Constant::Word(4294967295)), &[], 4),
    Op::Call(Callee::Known(1), &[4], 5),
    Op::Do(Action::Is(Constant::Word(0)), &[], 6),
    Op::Call(Callee::Known(1), &[6], 7),
    Op::Call(Callee::Known(2), &[4, 6], 8),
    Op::Ret(8),
    Op::Fun(&[]),
    Op::Begin,
    Op::Begin,
    Op::Do(Action::Initial(2), &[], 3),
    Op::Begin,
    Op::Do(Action::Is(Constant::Text(0)), &[], 98),
    Op::Do(Action::Print, &[98], 99),
    Op::Ret(2),
    Op::Unless(Test::IsOf, &[2, 3]),
    Op::Do(Action::Is(Constant::Text(1)), &[], 98),
    Op::Do(Action::Print, &[98], 99),
    Op::Ret(2),
    Op::Attempt(Operands::Words, BasisPrimitive::ToInt, &[0], 2),
    Op::Do(TEXT_OF, &[2], 98),
    Op::Do(Action::Print, &[98], 99),
    Op::Ret(2),
    Op::Fun(&[0]),
    Op::Begin,
    Op::Begin,
    Op::Do(Action::Initial(2), &[], 3),
    Op::Begin,
    Op::Do(Action::Is(Constant::Text(0)), &[], 98),
    Op::Do(Action::Print, &[98], 99),
    Op::Ret(2),
    Op::Unless(Test::IsOf, &[2, 3]),
    Op::Do(Action::Is(Constant::Text(1)), &[], 98),
    Op::Do(Action::Print, &[98], 99),
    Op::Ret(2),
    Op::Attempt(Operands::Words, BasisPrimitive::Divide, &[0, 1], 2),
    Op::Ret(2),
    Op::Fun(&[0, 1]),
];

/// Characters of codes, where there are such.
const OF_CODES: [Op; 30] = [
    Op::Begin,
    Op::Do(Action::Is(Constant::Int(0)), &[], 0),
    Op::Call(Callee::Known(1), &[0], 1),
    Op::Do(Action::Is(Constant::Int(255)), &[], 2),
    Op::Call(Callee::Known(1), &[2], 3),
    Op::Do(Action::Is(Constant::Int(256)), &[], 4),
    Op::Call(Callee::Known(1), &[4], 5),
    Op::Do(Action::Is(Constant::Int(-1)), &[], 6),
    Op::Call(Callee::Known(1), &[6], 7),
    Op::Do(Action::Is(Constant::Int(-2147483648)), &[], 8),
    Op::Call(Callee::Known(1), &[8], 9),
    Op::Do(Action::Is(Constant::Int(2147483647)), &[], 10),
    Op::Call(Callee::Known(1), &[10], 11),
    Op::Ret(0),
    Op::Fun(&[]),
    Op::Begin,
    Op::Begin,
    Op::Do(Action::Initial(6), &[], 3),
    Op::Begin,
    Op::Do(Action::Is(Constant::Text(2)), &[], 98),
    Op::Do(Action::Print, &[98], 99),
    Op::Ret(2),
    Op::Unless(Test::IsOf, &[2, 3]),
    Op::Raise(2),
    Op::Attempt(Operands::Ints, BasisPrimitive::CharOf, &[0], 2),
    Op::Do(
        Action::Compute(Operands::Chars, BasisPrimitive::CharCode),
        &[2],
        3,
    ),
    Op::Do(TEXT_OF, &[3], 98),
    Op::Do(Action::Print, &[98], 99),
    Op::Ret(3),
    Op::Fun(&[0]),
];

/// Match, which a program raises itself.
const MATCH: [Op; 6] = [
    Op::Begin,
    Op::Do(Action::Initial(0), &[], 0),
    Op::Make(0, &[], 1),
    Op::Do(Action::Pack, &[0, 1], 2),
    Op::Raise(2),
    Op::Fun(&[]),
];

/// Bind, which a program raises itself.
const BIND: [Op; 6] = [
    Op::Begin,
    Op::Do(Action::Initial(1), &[], 0),
    Op::Make(0, &[], 1),
    Op::Do(Action::Pack, &[0, 1], 2),
    Op::Raise(2),
    Op::Fun(&[]),
];

/// Size, which a program raises itself.
const SIZE: [Op; 6] = [
    Op::Begin,
    Op::Do(Action::Initial(5), &[], 0),
    Op::Make(0, &[], 1),
    Op::Do(Action::Pack, &[0, 1], 2),
    Op::Raise(2),
    Op::Fun(&[]),
];

/// Chr, of a code that no character has, behind output.
const CHR: [Op; 9] = [
    Op::Begin,
    Op::Do(Action::Is(Constant::Text(3)), &[], 98),
    Op::Do(Action::Print, &[98], 99),
    Op::Do(Action::Is(Constant::Int(256)), &[], 0),
    Op::Begin,
    Op::Raise(1),
    Op::Attempt(Operands::Ints, BasisPrimitive::CharOf, &[0], 1),
    Op::Ret(1),
    Op::Fun(&[]),
];

/// An exception without an argument.
const WITHOUT_ARGUMENT: [Op; 6] = [
    Op::Begin,
    Op::Do(Action::Exception(28), &[], 0),
    Op::Make(0, &[], 1),
    Op::Do(Action::Pack, &[0, 1], 2),
    Op::Raise(2),
    Op::Fun(&[]),
];

/// An exception of a text, raised three calls down behind output in two pieces.
const WITH_ARGUMENT: [Op; 22] = [
    Op::Begin,
    Op::Do(Action::Is(Constant::Text(1)), &[], 98),
    Op::Do(Action::Print, &[98], 99),
    Op::Do(Action::Exception(27), &[], 0),
    Op::Call(Callee::Known(1), &[0], 1),
    Op::Do(Action::Is(Constant::Text(3)), &[], 98),
    Op::Do(Action::Print, &[98], 99),
    Op::Ret(1),
    Op::Fun(&[]),
    Op::Begin,
    Op::Call(Callee::Known(2), &[0], 1),
    Op::Do(Action::Is(Constant::Text(3)), &[], 98),
    Op::Do(Action::Print, &[98], 99),
    Op::Ret(1),
    Op::Fun(&[0]),
    Op::Begin,
    Op::Do(Action::Is(Constant::Text(2)), &[], 98),
    Op::Do(Action::Print, &[98], 99),
    Op::Do(Action::Is(Constant::Text(0)), &[], 1),
    Op::Do(Action::Pack, &[0, 1], 2),
    Op::Raise(2),
    Op::Fun(&[0]),
];

/// A handler that raises another exception, with none around it.
const FROM_A_HANDLER: [Op; 21] = [
    Op::Begin,
    Op::Do(Action::Is(Constant::Int(6)), &[], 0),
    Op::Do(Action::Is(Constant::Int(0)), &[], 1),
    Op::Begin,
    Op::Begin,
    Op::Begin,
    Op::Raise(2),
    Op::Attempt(Operands::Ints, BasisPrimitive::Divide, &[0, 1], 2),
    Op::Goto(0, &[2]),
    Op::Begin,
    Op::Do(Action::Is(Constant::Text(1)), &[], 98),
    Op::Do(Action::Print, &[98], 99),
    Op::Do(Action::Is(Constant::Int(2147483647)), &[], 4),
    Op::Begin,
    Op::Raise(5),
    Op::Attempt(Operands::Ints, BasisPrimitive::Add, &[4, 0], 5),
    Op::Goto(0, &[5]),
    Op::Guard(0, 3),
    Op::Label(&[9]),
    Op::Ret(9),
    Op::Fun(&[]),
];

/// Two handlers that pass a packet on, with none around them.
const PASSED_ON: [Op; 26] = [
    Op::Begin,
    Op::Do(Action::Is(Constant::Int(6)), &[], 0),
    Op::Do(Action::Is(Constant::Int(0)), &[], 1),
    Op::Begin,
    Op::Begin,
    Op::Begin,
    Op::Begin,
    Op::Begin,
    Op::Raise(2),
    Op::Attempt(Operands::Ints, BasisPrimitive::Divide, &[0, 1], 2),
    Op::Goto(0, &[2]),
    Op::Begin,
    Op::Do(Action::Is(Constant::Text(3)), &[], 98),
    Op::Do(Action::Print, &[98], 99),
    Op::Raise(3),
    Op::Guard(0, 3),
    Op::Label(&[8]),
    Op::Goto(0, &[8]),
    Op::Begin,
    Op::Do(Action::Is(Constant::Text(0)), &[], 98),
    Op::Do(Action::Print, &[98], 99),
    Op::Raise(4),
    Op::Guard(0, 4),
    Op::Label(&[9]),
    Op::Ret(9),
    Op::Fun(&[]),
];

/// A call under a handler succeeds; the same function raises once the handler is left.
const SUCCEEDS_FIRST: [Op; 26] = [
    Op::Begin,
    Op::Do(Action::Is(Constant::Int(8)), &[], 0),
    Op::Do(Action::Is(Constant::Int(2)), &[], 1),
    Op::Do(Action::Is(Constant::Int(0)), &[], 5),
    Op::Begin,
    Op::Begin,
    Op::Call(Callee::Known(1), &[0, 1], 2),
    Op::Goto(0, &[2]),
    Op::Begin,
    Op::Do(Action::Is(Constant::Int(9)), &[], 4),
    Op::Goto(0, &[4]),
    Op::Guard(0, 3),
    Op::Label(&[9]),
    Op::Do(TEXT_OF, &[9], 98),
    Op::Do(Action::Print, &[98], 99),
    Op::Call(Callee::Known(1), &[0, 5], 6),
    Op::Do(TEXT_OF, &[6], 98),
    Op::Do(Action::Print, &[98], 99),
    Op::Ret(6),
    Op::Fun(&[]),
    Op::Begin,
    Op::Begin,
    Op::Raise(2),
    Op::Attempt(Operands::Ints, BasisPrimitive::Divide, &[0, 1], 2),
    Op::Ret(2),
    Op::Fun(&[0, 1]),
];

const TAKEN: [Row; 4] = [
    Row {
        given: &LETTERS,
        ops: &QUOTIENTS,
        heap: 29,
        stack: 26,
        end: Stop::Ended,
        output: "OD~21474836480~1~2147483647",
        name: "",
    },
    Row {
        given: &LETTERS,
        ops: &REMAINDERS,
        heap: 13,
        stack: 20,
        end: Stop::Ended,
        output: "00DD1~100",
        name: "",
    },
    Row {
        given: &LETTERS,
        ops: &OF_WORDS,
        heap: 13,
        stack: 18,
        end: Stop::Ended,
        output: "2147483647OO0D",
        name: "",
    },
    Row {
        given: &LETTERS,
        ops: &OF_CODES,
        heap: 6,
        stack: 20,
        end: Stop::Ended,
        output: "0255CCCC",
        name: "",
    },
];

const UNCAUGHT: [Row; 9] = [
    Row {
        given: &NOTHING,
        ops: &MATCH,
        heap: 2,
        stack: 5,
        end: Stop::Uncaught,
        output: "",
        name: "Match",
    },
    Row {
        given: &NOTHING,
        ops: &BIND,
        heap: 2,
        stack: 5,
        end: Stop::Uncaught,
        output: "",
        name: "Bind",
    },
    Row {
        given: &NOTHING,
        ops: &SIZE,
        heap: 2,
        stack: 5,
        end: Stop::Uncaught,
        output: "",
        name: "Size",
    },
    Row {
        given: &LETTERS,
        ops: &CHR,
        heap: 0,
        stack: 7,
        end: Stop::Uncaught,
        output: "S",
        name: "Chr",
    },
    Row {
        given: &NOTHING,
        ops: &WITHOUT_ARGUMENT,
        heap: 3,
        stack: 5,
        end: Stop::Uncaught,
        output: "",
        name: "Empty",
    },
    Row {
        given: &LETTERS,
        ops: &WITH_ARGUMENT,
        heap: 3,
        stack: 15,
        end: Stop::Uncaught,
        output: "DC",
        name: "Fail",
    },
    Row {
        given: &LETTERS,
        ops: &FROM_A_HANDLER,
        heap: 0,
        stack: 9,
        end: Stop::Uncaught,
        output: "D",
        name: "Overflow",
    },
    Row {
        given: &LETTERS,
        ops: &PASSED_ON,
        heap: 0,
        stack: 11,
        end: Stop::Uncaught,
        output: "SO",
        name: "Div",
    },
    Row {
        given: &NOTHING,
        ops: &SUCCEEDS_FIRST,
        heap: 2,
        stack: 13,
        end: Stop::Uncaught,
        output: "4",
        name: "Div",
    },
];

#[test]
fn packets_are_taken(rt: HostRuntime) -> Result<(), Fail> {
    check_all(&rt, rt.alloc(), &TAKEN)?;
    Ok(())
}

#[test]
fn packets_are_uncaught(rt: HostRuntime) -> Result<(), Fail> {
    check_all(&rt, rt.alloc(), &UNCAUGHT)?;
    Ok(())
}
