// `val i = ref 0  val _ = while !i < turns do i := !i + 1`, and then `!i`.

use crate::by_hand::{FAIL, RESULT, SHOW, START, TURNS};
use crate::loops::Loop;
use first_tables::operation::{Constant, Operands, Test};
use ir_code::instr::Instr;
use mlc_prims::basis::BasisPrimitive;
use ssa_words::words::{Action, Op};

// Slots of the code by hand.
const REFERENCE: u32 = 2;

const CONTENT: u32 = 3;

const ONE: u32 = 4;

const IS_LAST: u32 = 5;

// Places in it.
const AGAIN: u32 = START + 6;

pub static LOOP: Loop = Loop {
    name: "while over a reference",
    // The reference is 2.
    ssa: &[
        Op::Begin,
        Op::Do(Action::Is(Constant::Int(0)), &[], 1),
        Op::Do(Action::Refer, &[1], 2),
        Op::Begin,
        Op::Goto(0, &[]),
        Op::Again(&[]),
        Op::Do(Action::Content, &[2], 3),
        Op::Begin,
        Op::Do(Action::Content, &[2], 4),
        Op::Ret(4),
        Op::When(Test::Holds(Operands::Ints, BasisPrimitive::Less), &[3, 0]),
        Op::Do(Action::Content, &[2], 4),
        Op::Do(Action::Is(Constant::Int(1)), &[], 5),
        Op::Begin,
        Op::Raise(6),
        Op::Attempt(Operands::Ints, BasisPrimitive::Add, &[4, 5], 6),
        Op::Do(Action::Assign, &[2, 6], 7),
        Op::Jump(0, &[]),
        Op::Fun(&[0]),
    ],
    by_hand: &[
        Instr::Alloc {
            dst: REFERENCE,
            words: 1,
        },
        Instr::Li {
            dst: CONTENT,
            value: 0,
        },
        Instr::St {
            base: REFERENCE,
            offset: 0,
            src: CONTENT,
        },
        Instr::Li { dst: ONE, value: 1 },
        Instr::Mov {
            dst: RESULT,
            src: CONTENT,
        },
        Instr::Brz {
            test: TURNS,
            target: SHOW,
        },
        // AGAIN
        Instr::Add {
            dst: CONTENT,
            left: CONTENT,
            right: ONE,
        },
        Instr::Jmp { target: FAIL },
        Instr::St {
            base: REFERENCE,
            offset: 0,
            src: CONTENT,
        },
        Instr::Eq {
            dst: IS_LAST,
            left: CONTENT,
            right: TURNS,
        },
        Instr::Brz {
            test: IS_LAST,
            target: AGAIN,
        },
        Instr::Ld {
            dst: RESULT,
            base: REFERENCE,
            offset: 0,
        },
        Instr::Jmp { target: SHOW },
    ],
};
