// `fun go (0, a) = a | go (n, a) = go (n - 1, a + n)`, of (turns, 0).

use crate::by_hand::{FAIL, RESULT, SHOW, START, TURNS};
use crate::loops::Loop;
use first_tables::operation::{Callee, Constant, Operands, Test};
use ir_code::instr::Instr;
use mlc_prims::basis::BasisPrimitive;
use ssa_words::words::{Action, Op};

// Slots of the code by hand.
const ONE: u32 = 2;

// Places in it.
const AGAIN: u32 = START + 3;

pub static LOOP: Loop = Loop {
    name: "tail call",
    // In `go` n is 0 and a is 1.
    ssa: &[
        Op::Begin,
        Op::Do(Action::Is(Constant::Int(0)), &[], 1),
        Op::Tail(Callee::Known(2), &[0, 1]),
        Op::Fun(&[0]),
        Op::Begin,
        Op::Begin,
        Op::Ret(1),
        Op::Unless(Test::Is(Constant::Int(0)), &[0]),
        Op::Do(Action::Is(Constant::Int(1)), &[], 2),
        Op::Begin,
        Op::Raise(3),
        Op::Attempt(Operands::Ints, BasisPrimitive::Subtract, &[0, 2], 3),
        Op::Begin,
        Op::Raise(4),
        Op::Attempt(Operands::Ints, BasisPrimitive::Add, &[1, 0], 4),
        Op::Tail(Callee::Known(2), &[3, 4]),
        Op::Fun(&[0, 1]),
    ],
    by_hand: &[
        Instr::Li {
            dst: RESULT,
            value: 0,
        },
        Instr::Li { dst: ONE, value: 1 },
        Instr::Brz {
            test: TURNS,
            target: SHOW,
        },
        // AGAIN
        Instr::Add {
            dst: RESULT,
            left: RESULT,
            right: TURNS,
        },
        Instr::Jmp { target: FAIL },
        Instr::Sub {
            dst: TURNS,
            left: TURNS,
            right: ONE,
        },
        Instr::Jmp { target: FAIL },
        Instr::Brz {
            test: TURNS,
            target: SHOW,
        },
        Instr::Jmp { target: AGAIN },
    ],
};
