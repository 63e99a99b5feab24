// `fun make (0, l) = l | make (n, l) = make (n - 1, n :: l)` and `fun back ([], l) = l | back (x :: xs, l) = back (xs, x :: l)`: the first element of
// `back (make (turns, []), [])`, or 0.

use crate::by_hand::{FAIL, RESULT, SHOW, START, TURNS};
use crate::loops::Loop;
use first_tables::operation::{Callee, Constant, Operands, Piece, Test};
use ir_code::instr::Instr;
use mlc_prims::basis::BasisPrimitive;
use ssa_words::words::{Action, Op};

// Slots of the code by hand.
const MADE: u32 = 2;

const REVERSED: u32 = 3;

const CELL: u32 = 4;

const ONE: u32 = 5;

const TWO: u32 = 6;

// Places in it.
const MAKE: u32 = START + 6;

const BACK: u32 = MAKE + 9;

const FIRST: u32 = BACK + 7;

pub static LOOP: Loop = Loop {
    name: "list made and reversed",
    // In `make` n is 0 and l is 1, in `back` the list is 0 and l is 1.
    ssa: &[
        Op::Begin,
        Op::Make(0, &[], 1),
        Op::Call(Callee::Known(2), &[0, 1], 2),
        Op::Call(Callee::Known(3), &[2, 1], 3),
        Op::Begin,
        Op::Do(Action::Is(Constant::Int(0)), &[], 4),
        Op::Ret(4),
        Op::Case(3, 1, &[]),
        Op::Do(Action::Field(0), &[3], 4),
        Op::Ret(4),
        Op::Fun(&[0]),
        Op::Begin,
        Op::Begin,
        Op::Ret(1),
        Op::Unless(Test::Is(Constant::Int(0)), &[0]),
        Op::Do(Action::Is(Constant::Int(1)), &[], 2),
        Op::Begin,
        Op::Raise(3),
        Op::Attempt(Operands::Ints, BasisPrimitive::Subtract, &[0, 2], 3),
        Op::Make(1, &[Piece::One(0), Piece::One(1)], 4),
        Op::Tail(Callee::Known(2), &[3, 4]),
        Op::Fun(&[0, 1]),
        Op::Begin,
        Op::Begin,
        Op::Ret(1),
        Op::Case(0, 1, &[]),
        Op::Do(Action::Field(0), &[0], 2),
        Op::Do(Action::Field(1), &[0], 3),
        Op::Make(1, &[Piece::One(2), Piece::One(1)], 4),
        Op::Tail(Callee::Known(3), &[3, 4]),
        Op::Fun(&[0, 1]),
    ],
    by_hand: &[
        Instr::Li {
            dst: MADE,
            value: 0,
        },
        Instr::Li {
            dst: REVERSED,
            value: 0,
        },
        Instr::Li { dst: ONE, value: 1 },
        Instr::Li { dst: TWO, value: 2 },
        Instr::Mov {
            dst: RESULT,
            src: TURNS,
        },
        Instr::Brz {
            test: TURNS,
            target: SHOW,
        },
        // MAKE
        Instr::Alloc {
            dst: CELL,
            words: 3,
        },
        Instr::St {
            base: CELL,
            offset: 0,
            src: ONE,
        },
        Instr::St {
            base: CELL,
            offset: 1,
            src: TURNS,
        },
        Instr::St {
            base: CELL,
            offset: 2,
            src: MADE,
        },
        Instr::Mov {
            dst: MADE,
            src: CELL,
        },
        Instr::Sub {
            dst: TURNS,
            left: TURNS,
            right: ONE,
        },
        Instr::Jmp { target: FAIL },
        Instr::Brz {
            test: TURNS,
            target: BACK,
        },
        Instr::Jmp { target: MAKE },
        // BACK: the tag and the element are copied at once.
        Instr::Alloc {
            dst: CELL,
            words: 3,
        },
        Instr::Copy {
            dst: CELL,
            src: MADE,
            count: TWO,
        },
        Instr::St {
            base: CELL,
            offset: 2,
            src: REVERSED,
        },
        Instr::Mov {
            dst: REVERSED,
            src: CELL,
        },
        Instr::Ld {
            dst: MADE,
            base: MADE,
            offset: 2,
        },
        Instr::Brz {
            test: MADE,
            target: FIRST,
        },
        Instr::Jmp { target: BACK },
        // FIRST
        Instr::Ld {
            dst: RESULT,
            base: REVERSED,
            offset: 1,
        },
        Instr::Jmp { target: SHOW },
    ],
};
