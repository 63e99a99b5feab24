// `exception E  fun go (0, a) = a | go (n, a) = go (n - 1, raise E handle E => a + 1)`, of (turns, 0).

use crate::by_hand::{FAIL, RESULT, SHOW, START, TEXT_OF_E, TURNS};
use crate::loops::Loop;
use first_tables::operation::{Callee, Constant, Operands, Test};
use ir_code::instr::Instr;
use mlc_prims::basis::BasisPrimitive;
use ssa_words::words::{Action, Op};

// Slots of the code by hand.
const E: u32 = 2;

const NAME: u32 = 3;

const PACKET: u32 = 4;

const CAUGHT: u32 = 5;

const ONE: u32 = 6;

const RECORD: u32 = 7;

// Places in it.
const HANDLE: u32 = START + 11;

const OTHER: u32 = HANDLE + 11;

pub static LOOP: Loop = Loop {
    name: "exception raised and handled",
    // In `go` n is 0, a is 1 and E, which has the name of a standard word here, is 2.
    ssa: &[
        Op::Begin,
        Op::Do(Action::Is(Constant::Int(0)), &[], 1),
        Op::Do(Action::Exception(9), &[], 2),
        Op::Tail(Callee::Known(2), &[0, 1, 2]),
        Op::Fun(&[0]),
        Op::Begin,
        Op::Begin,
        Op::Ret(1),
        Op::Unless(Test::Is(Constant::Int(0)), &[0]),
        Op::Do(Action::Is(Constant::Int(1)), &[], 3),
        Op::Begin,
        Op::Raise(4),
        Op::Attempt(Operands::Ints, BasisPrimitive::Subtract, &[0, 3], 4),
        Op::Begin,
        Op::Begin,
        Op::Do(Action::Is(Constant::Int(0)), &[], 5),
        Op::Do(Action::Pack, &[2, 5], 6),
        Op::Raise(6),
        Op::Begin,
        Op::Begin,
        Op::Raise(7),
        Op::When(Test::IsOf, &[7, 2]),
        Op::Begin,
        Op::Raise(8),
        Op::Attempt(Operands::Ints, BasisPrimitive::Add, &[1, 3], 8),
        Op::Goto(0, &[8]),
        Op::Guard(0, 7),
        Op::Label(&[9]),
        Op::Tail(Callee::Known(2), &[4, 9, 2]),
        Op::Fun(&[0, 1, 2]),
    ],
    by_hand: &[
        Instr::Li {
            dst: RESULT,
            value: 0,
        },
        Instr::Li { dst: ONE, value: 1 },
        Instr::Alloc { dst: E, words: 1 },
        Instr::Li {
            dst: NAME,
            value: TEXT_OF_E,
        },
        Instr::St {
            base: E,
            offset: 0,
            src: NAME,
        },
        Instr::Alloc {
            dst: PACKET,
            words: 2,
        },
        Instr::St {
            base: PACKET,
            offset: 0,
            src: E,
        },
        Instr::St {
            base: PACKET,
            offset: 1,
            src: RESULT,
        },
        Instr::Brz {
            test: TURNS,
            target: SHOW,
        },
        Instr::PushHandler {
            record: RECORD,
            target: HANDLE,
        },
        Instr::Raise { packet: PACKET },
        // HANDLE
        Instr::Acc { dst: CAUGHT },
        Instr::Ld {
            dst: NAME,
            base: CAUGHT,
            offset: 0,
        },
        Instr::Eq {
            dst: NAME,
            left: NAME,
            right: E,
        },
        Instr::Brz {
            test: NAME,
            target: OTHER,
        },
        Instr::Add {
            dst: RESULT,
            left: RESULT,
            right: ONE,
        },
        Instr::Jmp { target: FAIL },
        Instr::Sub {
            dst: TURNS,
            left: TURNS,
            right: ONE,
        },
        Instr::Jmp { target: FAIL },
        Instr::Brz {
            test: TURNS,
            target: SHOW,
        },
        Instr::PushHandler {
            record: RECORD,
            target: HANDLE,
        },
        Instr::Raise { packet: PACKET },
        // OTHER
        Instr::Raise { packet: CAUGHT },
    ],
};
