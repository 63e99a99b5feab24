// `fun go 0 = 0 | go n = n + go (n - 1)`, of turns.

use crate::by_hand::{FAIL, RESULT, SHOW, START, TURNS};
use crate::loops::Loop;
use first_tables::operation::{Callee, Constant, Operands, Test};
use ir_code::instr::Instr;
use mlc_prims::basis::BasisPrimitive;
use ssa_words::words::{Action, Op};

// Slots of the code by hand.
const LEFT: u32 = 2;

const ONE: u32 = 3;

const FRAME: u32 = 4;

// Places in it.
const GO: u32 = START + 4;

const LAST: u32 = GO + 9;

pub static LOOP: Loop = Loop {
    name: "recursion",
    // In `go` n is 0.
    ssa: &[
        Op::Begin,
        Op::Begin,
        Op::Ret(0),
        Op::Unless(Test::Is(Constant::Int(0)), &[0]),
        Op::Do(Action::Is(Constant::Int(1)), &[], 1),
        Op::Begin,
        Op::Raise(2),
        Op::Attempt(Operands::Ints, BasisPrimitive::Subtract, &[0, 1], 2),
        Op::Call(Callee::Known(1), &[2], 3),
        Op::Begin,
        Op::Raise(4),
        Op::Attempt(Operands::Ints, BasisPrimitive::Add, &[0, 3], 4),
        Op::Ret(4),
        Op::Fun(&[0]),
    ],
    by_hand: &[
        Instr::Mov {
            dst: FRAME + LEFT,
            src: TURNS,
        },
        Instr::Call {
            target: GO,
            frame: FRAME,
        },
        Instr::Acc { dst: RESULT },
        Instr::Jmp { target: SHOW },
        // GO
        Instr::Brz {
            test: LEFT,
            target: LAST,
        },
        Instr::Li { dst: ONE, value: 1 },
        Instr::Sub {
            dst: FRAME + LEFT,
            left: LEFT,
            right: ONE,
        },
        Instr::Jmp { target: FAIL },
        Instr::Call {
            target: GO,
            frame: FRAME,
        },
        Instr::Acc { dst: ONE },
        Instr::Add {
            dst: LEFT,
            left: LEFT,
            right: ONE,
        },
        Instr::Jmp { target: FAIL },
        Instr::Ret { value: LEFT },
        // LAST
        Instr::Ret { value: LEFT },
    ],
};
