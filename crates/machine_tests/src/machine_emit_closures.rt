// Calls of one of a set of closures.

use crate::machine_emit_programs::TEXT_OF;
use crate::machine_emit_table::{Row, check_all};
use first_tables::operation::{Callee, Constant, Operands, Piece, Test};
use first_tables::tables::Member;
use heap_vm::stop::Stop;
use mlc_prims::basis::BasisPrimitive;
use ssa_words::words::{Action, Given, Op};
use std::test::Fail;

const ONE_SETS: Given = Given {
    strings: &[],
    types: &[],
    sets: &[
        &[Member {
            tag: 0,
            function: 1,
        }],
        &[Member {
            tag: 7,
            function: 2,
        }],
    ],
};

const TWO_APART_SET: Given = Given {
    strings: &[],
    types: &[],
    sets: &[&[
        Member {
            tag: 5,
            function: 2,
        },
        Member {
            tag: 900,
            function: 3,
        },
    ]],
};

const THREE_SET: Given = Given {
    strings: &[],
    types: &[],
    sets: &[&[
        Member {
            tag: 0,
            function: 2,
        },
        Member {
            tag: 1,
            function: 3,
        },
        Member {
            tag: 2,
            function: 4,
        },
    ]],
};

const FIVE_WITH_GAPS_SET: Given = Given {
    strings: &[],
    types: &[],
    sets: &[&[
        Member {
            tag: 0,
            function: 2,
        },
        Member {
            tag: 2,
            function: 3,
        },
        Member {
            tag: 3,
            function: 4,
        },
        Member {
            tag: 5,
            function: 5,
        },
        Member {
            tag: 9,
            function: 6,
        },
    ]],
};

const FIVE_APART_SET: Given = Given {
    strings: &[],
    types: &[],
    sets: &[&[
        Member {
            tag: 1,
            function: 2,
        },
        Member {
            tag: 10,
            function: 3,
        },
        Member {
            tag: 100,
            function: 4,
        },
        Member {
            tag: 1000,
            function: 5,
        },
        Member {
            tag: 10000,
            function: 6,
        },
    ]],
};

const SEVENTEEN_SET: Given = Given {
    strings: &[],
    types: &[],
    sets: &[&[
        Member {
            tag: 0,
            function: 2,
        },
        Member {
            tag: 1,
            function: 3,
        },
        Member {
            tag: 2,
            function: 4,
        },
        Member {
            tag: 3,
            function: 5,
        },
        Member {
            tag: 4,
            function: 6,
        },
        Member {
            tag: 5,
            function: 7,
        },
        Member {
            tag: 6,
            function: 8,
        },
        Member {
            tag: 7,
            function: 9,
        },
        Member {
            tag: 8,
            function: 10,
        },
        Member {
            tag: 9,
            function: 11,
        },
        Member {
            tag: 10,
            function: 12,
        },
        Member {
            tag: 11,
            function: 13,
        },
        Member {
            tag: 12,
            function: 14,
        },
        Member {
            tag: 13,
            function: 15,
        },
        Member {
            tag: 14,
            function: 16,
        },
        Member {
            tag: 15,
            function: 17,
        },
        Member {
            tag: 16,
            function: 18,
        },
    ]],
};

const SEVENTEEN_APART_SET: Given = Given {
    strings: &[],
    types: &[],
    sets: &[&[
        Member {
            tag: 3,
            function: 2,
        },
        Member {
            tag: 10,
            function: 3,
        },
        Member {
            tag: 17,
            function: 4,
        },
        Member {
            tag: 24,
            function: 5,
        },
        Member {
            tag: 31,
            function: 6,
        },
        Member {
            tag: 38,
            function: 7,
        },
        Member {
            tag: 45,
            function: 8,
        },
        Member {
            tag: 52,
            function: 9,
        },
        Member {
            tag: 59,
            function: 10,
        },
        Member {
            tag: 66,
            function: 11,
        },
        Member {
            tag: 73,
            function: 12,
        },
        Member {
            tag: 80,
            function: 13,
        },
        Member {
            tag: 87,
            function: 14,
        },
        Member {
            tag: 94,
            function: 15,
        },
        Member {
            tag: 101,
            function: 16,
        },
        Member {
            tag: 108,
            function: 17,
        },
        Member {
            tag: 115,
            function: 18,
        },
    ]],
};

const EMPTY_SET: Given = Given {
    strings: &[],
    types: &[],
    sets: &[&[]],
};

const PARITY_SET: Given = Given {
    strings: &[],
    types: &[],
    sets: &[&[
        Member {
            tag: 0,
            function: 1,
        },
        Member {
            tag: 1,
            function: 2,
        },
    ]],
};

const COMPOSED_SET: Given = Given {
    strings: &[],
    types: &[],
    sets: &[&[
        Member {
            tag: 0,
            function: 1,
        },
        Member {
            tag: 1,
            function: 2,
        },
        Member {
            tag: 2,
            function: 3,
        },
    ]],
};

const OVERLAPPING_SETS: Given = Given {
    strings: &[],
    types: &[],
    sets: &[
        &[
            Member {
                tag: 0,
                function: 1,
            },
            Member {
                tag: 1,
                function: 2,
            },
        ],
        &[
            Member {
                tag: 0,
                function: 2,
            },
            Member {
                tag: 4,
                function: 1,
            },
        ],
    ],
};

/// Sets of one closure: 30 + 8 and 30 - 8.
const ONE_MEMBER: [Op; 27] = [
    Op::Begin,
    Op::Do(Action::Is(Constant::Int(30)), &[], 0),
    Op::Do(Action::Is(Constant::Int(8)), &[], 1),
    Op::Make(0, &[Piece::One(1)], 2),
    Op::Call(Callee::OneOf { set: 0, closure: 2 }, &[0], 3),
    Op::Do(TEXT_OF, &[3], 98),
    Op::Do(Action::Print, &[98], 99),
    Op::Make(7, &[Piece::One(1)], 4),
    Op::Call(Callee::OneOf { set: 1, closure: 4 }, &[0], 5),
    Op::Do(TEXT_OF, &[5], 98),
    Op::Do(Action::Print, &[98], 99),
    Op::Ret(5),
    Op::Fun(&[]),
    Op::Begin,
    Op::Do(Action::Field(0), &[0], 2),
    Op::Begin,
    Op::Raise(3),
    Op::Attempt(Operands::Ints, BasisPrimitive::Add, &[1, 2], 3),
    Op::Ret(3),
    Op::Fun(&[0, 1]),
    Op::Begin,
    Op::Do(Action::Field(0), &[0], 2),
    Op::Begin,
    Op::Raise(3),
    Op::Attempt(Operands::Ints, BasisPrimitive::Subtract, &[1, 2], 3),
    Op::Ret(3),
    Op::Fun(&[0, 1]),
];

/// Two closures far apart.
const TWO_APART: [Op; 21] = [
    Op::Begin,
    Op::Make(5, &[], 0),
    Op::Call(Callee::Known(1), &[0], 99),
    Op::Make(900, &[], 1),
    Op::Call(Callee::Known(1), &[1], 99),
    Op::Ret(0),
    Op::Fun(&[]),
    Op::Begin,
    Op::Call(Callee::OneOf { set: 0, closure: 0 }, &[], 1),
    Op::Do(TEXT_OF, &[1], 98),
    Op::Do(Action::Print, &[98], 99),
    Op::Ret(1),
    Op::Fun(&[0]),
    Op::Begin,
    Op::Do(Action::Is(Constant::Int(1)), &[], 1),
    Op::Ret(1),
    Op::Fun(&[0]),
    Op::Begin,
    Op::Do(Action::Is(Constant::Int(2)), &[], 1),
    Op::Ret(1),
    Op::Fun(&[0]),
];

/// Three closures side by side.
const THREE: [Op; 27] = [
    Op::Begin,
    Op::Make(0, &[], 0),
    Op::Call(Callee::Known(1), &[0], 99),
    Op::Make(1, &[], 1),
    Op::Call(Callee::Known(1), &[1], 99),
    Op::Make(2, &[], 2),
    Op::Call(Callee::Known(1), &[2], 99),
    Op::Ret(0),
    Op::Fun(&[]),
    Op::Begin,
    Op::Call(Callee::OneOf { set: 0, closure: 0 }, &[], 1),
    Op::Do(TEXT_OF, &[1], 98),
    Op::Do(Action::Print, &[98], 99),
    Op::Ret(1),
    Op::Fun(&[0]),
    Op::Begin,
    Op::Do(Action::Is(Constant::Int(1)), &[], 1),
    Op::Ret(1),
    Op::Fun(&[0]),
    Op::Begin,
    Op::Do(Action::Is(Constant::Int(2)), &[], 1),
    Op::Ret(1),
    Op::Fun(&[0]),
    Op::Begin,
    Op::Do(Action::Is(Constant::Int(3)), &[], 1),
    Op::Ret(1),
    Op::Fun(&[0]),
];

/// Five closures, which are half of the tags.
const FIVE_WITH_GAPS: [Op; 39] = [
    Op::Begin,
    Op::Make(0, &[], 0),
    Op::Call(Callee::Known(1), &[0], 99),
    Op::Make(2, &[], 1),
    Op::Call(Callee::Known(1), &[1], 99),
    Op::Make(3, &[], 2),
    Op::Call(Callee::Known(1), &[2], 99),
    Op::Make(5, &[], 3),
    Op::Call(Callee::Known(1), &[3], 99),
    Op::Make(9, &[], 4),
    Op::Call(Callee::Known(1), &[4], 99),
    Op::Ret(0),
    Op::Fun(&[]),
    Op::Begin,
    Op::Call(Callee::OneOf { set: 0, closure: 0 }, &[], 1),
    Op::Do(TEXT_OF, &[1], 98),
    Op::Do(Action::Print, &[98], 99),
    Op::Ret(1),
    Op::Fun(&[0]),
    Op::Begin,
    Op::Do(Action::Is(Constant::Int(1)), &[], 1),
    Op::Ret(1),
    Op::Fun(&[0]),
    Op::Begin,
    Op::Do(Action::Is(Constant::Int(2)), &[], 1),
    Op::Ret(1),
    Op::Fun(&[0]),
    Op::Begin,
    Op::Do(Action::Is(Constant::Int(3)), &[], 1),
    Op::Ret(1),
    Op::Fun(&[0]),
    Op::Begin,
    Op::Do(Action::Is(Constant::Int(4)), &[], 1),
    Op::Ret(1),
    Op::Fun(&[0]),
    Op::Begin,
    Op::Do(Action::Is(Constant::Int(5)), &[], 1),
    Op::Ret(1),
    Op::Fun(&[0]),
];

/// Five closures far apart.
const FIVE_APART: [Op; 39] = [
    Op::Begin,
    Op::Make(1, &[], 0),
    Op::Call(Callee::Known(1), &[0], 99),
    Op::Make(10, &[], 1),
    Op::Call(Callee::Known(1), &[1], 99),
    Op::Make(100, &[], 2),
    Op::Call(Callee::Known(1), &[2], 99),
    Op::Make(1000, &[], 3),
    Op::Call(Callee::Known(1), &[3], 99),
    Op::Make(10000, &[], 4),
    Op::Call(Callee::Known(1), &[4], 99),
    Op::Ret(0),
    Op::Fun(&[]),
    Op::Begin,
    Op::Call(Callee::OneOf { set: 0, closure: 0 }, &[], 1),
    Op::Do(TEXT_OF, &[1], 98),
    Op::Do(Action::Print, &[98], 99),
    Op::Ret(1),
    Op::Fun(&[0]),
    Op::Begin,
    Op::Do(Action::Is(Constant::Int(1)), &[], 1),
    Op::Ret(1),
    Op::Fun(&[0]),
    Op::Begin,
    Op::Do(Action::Is(Constant::Int(2)), &[], 1),
    Op::Ret(1),
    Op::Fun(&[0]),
    Op::Begin,
    Op::Do(Action::Is(Constant::Int(3)), &[], 1),
    Op::Ret(1),
    Op::Fun(&[0]),
    Op::Begin,
    Op::Do(Action::Is(Constant::Int(4)), &[], 1),
    Op::Ret(1),
    Op::Fun(&[0]),
    Op::Begin,
    Op::Do(Action::Is(Constant::Int(5)), &[], 1),
    Op::Ret(1),
    Op::Fun(&[0]),
];

/// Seventeen closures side by side.
const SEVENTEEN: [Op; 111] = [
    Op::Begin,
    Op::Make(0, &[], 0),
    Op::Call(Callee::Known(1), &[0], 99),
    Op::Make(1, &[], 1),
    Op::Call(Callee::Known(1), &[1], 99),
    Op::Make(2, &[], 2),
    Op::Call(Callee::Known(1), &[2], 99),
    Op::Make(3, &[], 3),
    Op::Call(Callee::Known(1), &[3], 99),
    Op::Make(4, &[], 4),
    Op::Call(Callee::Known(1), &[4], 99),
    Op::Make(5, &[], 5),
    Op::Call(Callee::Known(1), &[5], 99),
    Op::Make(6, &[], 6),
    Op::Call(Callee::Known(1), &[6], 99),
    Op::Make(7, &[], 7),
    Op::Call(Callee::Known(1), &[7], 99),
    Op::Make(8, &[], 8),
    Op::Call(Callee::Known(1), &[8], 99),
    Op::Make(9, &[], 9),
    Op::Call(Callee::Known(1), &[9], 99),
    Op::Make(10, &[], 10),
    Op::Call(Callee::Known(1), &[10], 99),
    Op::Make(11, &[], 11),
    Op::Call(Callee::Known(1), &[11], 99),
    Op::Make(12, &[], 12),
    Op::Call(Callee::Known(1), &[12], 99),
    Op::Make(13, &[], 13),
    Op::Call(Callee::Known(1), &[13], 99),
    Op::Make(14, &[], 14),
    Op::Call(Callee::Known(1), &[14], 99),
    Op::Make(15, &[], 15),
    Op::Call(Callee::Known(1), &[15], 99),
    Op::Make(16, &[], 16),
    Op::Call(Callee::Known(1), &[16], 99),
    Op::Ret(0),
    Op::Fun(&[]),
    Op::Begin,
    Op::Call(Callee::OneOf { set: 0, closure: 0 }, &[], 1),
    Op::Do(TEXT_OF, &[1], 98),
    Op::Do(Action::Print, &[98], 99),
    Op::Ret(1),
    Op::Fun(&[0]),
    Op::Begin,
    Op::Do(Action::Is(Constant::Int(1)), &[], 1),
    Op::Ret(1),
    Op::Fun(&[0]),
    Op::Begin,
    Op::Do(Action::Is(Constant::Int(2)), &[], 1),
    Op::Ret(1),
    Op::Fun(&[0]),
    Op::Begin,
    Op::Do(Action::Is(Constant::Int(3)), &[], 1),
    Op::Ret(1),
    Op::Fun(&[0]),
    Op::Begin,
    Op::Do(Action::Is(Constant::Int(4)), &[], 1),
    Op::Ret(1),
    Op::Fun(&[0]),
    Op::Begin,
    Op::Do(Action::Is(Constant::Int(5)), &[], 1),
    Op::Ret(1),
    Op::Fun(&[0]),
    Op::Begin,
    Op::Do(Action::Is(Constant::Int(6)), &[], 1),
    Op::Ret(1),
    Op::Fun(&[0]),
    Op::Begin,
    Op::Do(Action::Is(Constant::Int(7)), &[], 1),
    Op::Ret(1),
    Op::Fun(&[0]),
    Op::Begin,
    Op::Do(Action::Is(Constant::Int(8)), &[], 1),
    Op::Ret(1),
    Op::Fun(&[0]),
    Op::Begin,
    Op::Do(Action::Is(Constant::Int(9)), &[], 1),
    Op::Ret(1),
    Op::Fun(&[0]),
    Op::Begin,
    Op::Do(Action::Is(Constant::Int(10)), &[], 1),
    Op::Ret(1),
    Op::Fun(&[0]),
    Op::Begin,
    Op::Do(Action::Is(Constant::Int(11)), &[], 1),
    Op::Ret(1),
    Op::Fun(&[0]),
    Op::Begin,
    Op::Do(Action::Is(Constant::Int(12)), &[], 1),
    Op::Ret(1),
    Op::Fun(&[0]),
    Op::Begin,
    Op::Do(Action::Is(Constant::Int(13)), &[], 1),
    Op::Ret(1),
    Op::Fun(&[0]),
    Op::Begin,
    Op::Do(Action::Is(Constant::Int(14)), &[], 1),
    Op::Ret(1),
    Op::Fun(&[0]),
    Op::Begin,
    Op::Do(Action::Is(Constant::Int(15)), &[], 1),
    Op::Ret(1),
    Op::Fun(&[0]),
    Op::Begin,
    Op::Do(Action::Is(Constant::Int(16)), &[], 1),
    Op::Ret(1),
    Op::Fun(&[0]),
    Op::Begin,
    Op::Do(Action::Is(Constant::Int(17)), &[], 1),
    Op::Ret(1),
    Op::Fun(&[0]),
];

/// Seventeen closures, each seven tags behind the one before.
const SEVENTEEN_APART: [Op; 111] = [
    Op::Begin,
    Op::Make(3, &[], 0),
    Op::Call(Callee::Known(1), &[0], 99),
    Op::Make(10, &[], 1),
    Op::Call(Callee::Known(1), &[1], 99),
    Op::Make(17, &[], 2),
    Op::Call(Callee::Known(1), &[2], 99),
    Op::Make(24, &[], 3),
    Op::Call(Callee::Known(1), &[3], 99),
    Op::Make(31, &[], 4),
    Op::Call(Callee::Known(1), &[4], 99),
    Op::Make(38, &[], 5),
    Op::Call(Callee::Known(1), &[5], 99),
    Op::Make(45, &[], 6),
    Op::Call(Callee::Known(1), &[6], 99),
    Op::Make(52, &[], 7),
    Op::Call(Callee::Known(1), &[7], 99),
    Op::Make(59, &[], 8),
    Op::Call(Callee::Known(1), &[8], 99),
    Op::Make(66, &[], 9),
    Op::Call(Callee::Known(1), &[9], 99),
    Op::Make(73, &[], 10),
    Op::Call(Callee::Known(1), &[10], 99),
    Op::Make(80, &[], 11),
    Op::Call(Callee::Known(1), &[11], 99),
    Op::Make(87, &[], 12),
    Op::Call(Callee::Known(1), &[12], 99),
    Op::Make(94, &[], 13),
    Op::Call(Callee::Known(1), &[13], 99),
    Op::Make(101, &[], 14),
    Op::Call(Callee::Known(1), &[14], 99),
    Op::Make(108, &[], 15),
    Op::Call(Callee::Known(1), &[15], 99),
    Op::Make(115, &[], 16),
    Op::Call(Callee::Known(1), &[16], 99),
    Op::Ret(0),
    Op::Fun(&[]),
    Op::Begin,
    Op::Call(Callee::OneOf { set: 0, closure: 0 }, &[], 1),
    Op::Do(TEXT_OF, &[1], 98),
    Op::Do(Action::Print, &[98], 99),
    Op::Ret(1),
    Op::Fun(&[0]),
    Op::Begin,
    Op::Do(Action::Is(Constant::Int(1)), &[], 1),
    Op::Ret(1),
    Op::Fun(&[0]),
    Op::Begin,
    Op::Do(Action::Is(Constant::Int(2)), &[], 1),
    Op::Ret(1),
    Op::Fun(&[0]),
    Op::Begin,
    Op::Do(Action::Is(Constant::Int(3)), &[], 1),
    Op::Ret(1),
    Op::Fun(&[0]),
    Op::Begin,
    Op::Do(Action::Is(Constant::Int(4)), &[], 1),
    Op::Ret(1),
    Op::Fun(&[0]),
    Op::Begin,
    Op::Do(Action::Is(Constant::Int(5)), &[], 1),
    Op::Ret(1),
    Op::Fun(&[0]),
    Op::Begin,
    Op::Do(Action::Is(Constant::Int(6)), &[], 1),
    Op::Ret(1),
    Op::Fun(&[0]),
    Op::Begin,
    Op::Do(Action::Is(Constant::Int(7)), &[], 1),
    Op::Ret(1),
    Op::Fun(&[0]),
    Op::Begin,
    Op::Do(Action::Is(Constant::Int(8)), &[], 1),
    Op::Ret(1),
    Op::Fun(&[0]),
    Op::Begin,
    Op::Do(Action::Is(Constant::Int(9)), &[], 1),
    Op::Ret(1),
    Op::Fun(&[0]),
    Op::Begin,
    Op::Do(Action::Is(Constant::Int(10)), &[], 1),
    Op::Ret(1),
    Op::Fun(&[0]),
    Op::Begin,
    Op::Do(Action::Is(Constant::Int(11)), &[], 1),
    Op::Ret(1),
    Op::Fun(&[0]),
    Op::Begin,
    Op::Do(Action::Is(Constant::Int(12)), &[], 1),
    Op::Ret(1),
    Op::Fun(&[0]),
    Op::Begin,
    Op::Do(Action::Is(Constant::Int(13)), &[], 1),
    Op::Ret(1),
    Op::Fun(&[0]),
    Op::Begin,
    Op::Do(Action::Is(Constant::Int(14)), &[], 1),
    Op::Ret(1),
    Op::Fun(&[0]),
    Op::Begin,
    Op::Do(Action::Is(Constant::Int(15)), &[], 1),
    Op::Ret(1),
    Op::Fun(&[0]),
    Op::Begin,
    Op::Do(Action::Is(Constant::Int(16)), &[], 1),
    Op::Ret(1),
    Op::Fun(&[0]),
    Op::Begin,
    Op::Do(Action::Is(Constant::Int(17)), &[], 1),
    Op::Ret(1),
    Op::Fun(&[0]),
];

/// A set of no closure, which isn't called.
const NO_MEMBER: [Op; 14] = [
    Op::Begin,
    Op::Make(1, &[], 0),
    Op::Call(Callee::Known(1), &[0], 1),
    Op::Do(TEXT_OF, &[1], 98),
    Op::Do(Action::Print, &[98], 99),
    Op::Ret(1),
    Op::Fun(&[]),
    Op::Begin,
    Op::Begin,
    Op::Tail(Callee::OneOf { set: 0, closure: 0 }, &[0]),
    Op::Case(0, 1, &[]),
    Op::Do(Action::Is(Constant::Int(5)), &[], 1),
    Op::Ret(1),
    Op::Fun(&[0]),
];

/// Two closures call each other 10001 times by tail calls, and swap themselves.
const TAIL_CALLS_OF_CLOSURES: [Op; 31] = [
    Op::Begin,
    Op::Make(0, &[], 0),
    Op::Make(1, &[], 1),
    Op::Do(Action::Is(Constant::Int(10001)), &[], 2),
    Op::Call(Callee::OneOf { set: 0, closure: 0 }, &[1, 2], 3),
    Op::Do(TEXT_OF, &[3], 98),
    Op::Do(Action::Print, &[98], 99),
    Op::Ret(3),
    Op::Fun(&[]),
    Op::Begin,
    Op::Begin,
    Op::Do(Action::Is(Constant::Int(1)), &[], 3),
    Op::Ret(3),
    Op::Unless(Test::Is(Constant::Int(0)), &[2]),
    Op::Do(Action::Is(Constant::Int(1)), &[], 3),
    Op::Begin,
    Op::Raise(4),
    Op::Attempt(Operands::Ints, BasisPrimitive::Subtract, &[2, 3], 4),
    Op::Tail(Callee::OneOf { set: 0, closure: 1 }, &[0, 4]),
    Op::Fun(&[0, 1, 2]),
    Op::Begin,
    Op::Begin,
    Op::Do(Action::Is(Constant::Int(0)), &[], 3),
    Op::Ret(3),
    Op::Unless(Test::Is(Constant::Int(0)), &[2]),
    Op::Do(Action::Is(Constant::Int(1)), &[], 3),
    Op::Begin,
    Op::Raise(4),
    Op::Attempt(Operands::Ints, BasisPrimitive::Subtract, &[2, 3], 4),
    Op::Tail(Callee::OneOf { set: 0, closure: 1 }, &[0, 4]),
    Op::Fun(&[0, 1, 2]),
];

/// Closures in a closure: one more than the double of 5, and the double of one more.
const COMPOSED: [Op; 34] = [
    Op::Begin,
    Op::Do(Action::Is(Constant::Int(5)), &[], 0),
    Op::Do(Action::Is(Constant::Int(1)), &[], 1),
    Op::Make(0, &[Piece::One(1)], 2),
    Op::Make(1, &[], 3),
    Op::Make(2, &[Piece::One(2), Piece::One(3)], 4),
    Op::Make(2, &[Piece::One(3), Piece::One(2)], 5),
    Op::Call(Callee::OneOf { set: 0, closure: 4 }, &[0], 6),
    Op::Do(TEXT_OF, &[6], 98),
    Op::Do(Action::Print, &[98], 99),
    Op::Call(Callee::OneOf { set: 0, closure: 5 }, &[0], 7),
    Op::Do(TEXT_OF, &[7], 98),
    Op::Do(Action::Print, &[98], 99),
    Op::Ret(7),
    Op::Fun(&[]),
    Op::Begin,
    Op::Do(Action::Field(0), &[0], 2),
    Op::Begin,
    Op::Raise(3),
    Op::Attempt(Operands::Ints, BasisPrimitive::Add, &[1, 2], 3),
    Op::Ret(3),
    Op::Fun(&[0, 1]),
    Op::Begin,
    Op::Begin,
    Op::Raise(2),
    Op::Attempt(Operands::Ints, BasisPrimitive::Add, &[1, 1], 2),
    Op::Ret(2),
    Op::Fun(&[0, 1]),
    Op::Begin,
    Op::Do(Action::Field(0), &[0], 2),
    Op::Do(Action::Field(1), &[0], 3),
    Op::Call(Callee::OneOf { set: 0, closure: 3 }, &[1], 4),
    Op::Tail(Callee::OneOf { set: 0, closure: 2 }, &[4]),
    Op::Fun(&[0, 1]),
];

/// Two sets with two functions: a tag is of one function in each.
const OVERLAPPING: [Op; 26] = [
    Op::Begin,
    Op::Make(0, &[], 0),
    Op::Make(1, &[], 1),
    Op::Make(4, &[], 2),
    Op::Call(Callee::OneOf { set: 0, closure: 0 }, &[], 3),
    Op::Do(TEXT_OF, &[3], 98),
    Op::Do(Action::Print, &[98], 99),
    Op::Call(Callee::OneOf { set: 0, closure: 1 }, &[], 4),
    Op::Do(TEXT_OF, &[4], 98),
    Op::Do(Action::Print, &[98], 99),
    Op::Call(Callee::OneOf { set: 1, closure: 0 }, &[], 5),
    Op::Do(TEXT_OF, &[5], 98),
    Op::Do(Action::Print, &[98], 99),
    Op::Call(Callee::OneOf { set: 1, closure: 2 }, &[], 6),
    Op::Do(TEXT_OF, &[6], 98),
    Op::Do(Action::Print, &[98], 99),
    Op::Ret(6),
    Op::Fun(&[]),
    Op::Begin,
    Op::Do(Action::Is(Constant::Int(1)), &[], 1),
    Op::Ret(1),
    Op::Fun(&[0]),
    Op::Begin,
    Op::Do(Action::Is(Constant::Int(2)), &[], 1),
    Op::Ret(1),
    Op::Fun(&[0]),
];

const FEW: [Row; 5] = [
    Row {
        given: &ONE_SETS,
        ops: &ONE_MEMBER,
        heap: 10,
        stack: 15,
        end: Stop::Ended,
        output: "3822",
        name: "",
    },
    Row {
        given: &TWO_APART_SET,
        ops: &TWO_APART,
        heap: 6,
        stack: 13,
        end: Stop::Ended,
        output: "12",
        name: "",
    },
    Row {
        given: &THREE_SET,
        ops: &THREE,
        heap: 7,
        stack: 15,
        end: Stop::Ended,
        output: "123",
        name: "",
    },
    Row {
        given: &FIVE_WITH_GAPS_SET,
        ops: &FIVE_WITH_GAPS,
        heap: 14,
        stack: 19,
        end: Stop::Ended,
        output: "12345",
        name: "",
    },
    Row {
        given: &FIVE_APART_SET,
        ops: &FIVE_APART,
        heap: 14,
        stack: 19,
        end: Stop::Ended,
        output: "12345",
        name: "",
    },
];

const MANY: [Row; 2] = [
    Row {
        given: &SEVENTEEN_SET,
        ops: &SEVENTEEN,
        heap: 57,
        stack: 43,
        end: Stop::Ended,
        output: "1234567891011121314151617",
        name: "",
    },
    Row {
        given: &SEVENTEEN_APART_SET,
        ops: &SEVENTEEN_APART,
        heap: 59,
        stack: 43,
        end: Stop::Ended,
        output: "1234567891011121314151617",
        name: "",
    },
];

const OTHERS: [Row; 4] = [
    Row {
        given: &EMPTY_SET,
        ops: &NO_MEMBER,
        heap: 2,
        stack: 7,
        end: Stop::Ended,
        output: "5",
        name: "",
    },
    Row {
        given: &PARITY_SET,
        ops: &TAIL_CALLS_OF_CLOSURES,
        heap: 2,
        stack: 15,
        end: Stop::Ended,
        output: "0",
        name: "",
    },
    Row {
        given: &COMPOSED_SET,
        ops: &COMPOSED,
        heap: 14,
        stack: 23,
        end: Stop::Ended,
        output: "1112",
        name: "",
    },
    Row {
        given: &OVERLAPPING_SETS,
        ops: &OVERLAPPING,
        heap: 9,
        stack: 19,
        end: Stop::Ended,
        output: "1221",
        name: "",
    },
];

#[test]
fn few_closures_are_called(rt: HostRuntime) -> Result<(), Fail> {
    check_all(&rt, rt.alloc(), &FEW)?;
    Ok(())
}

#[test]
fn many_closures_are_called(rt: HostRuntime) -> Result<(), Fail> {
    check_all(&rt, rt.alloc(), &MANY)?;
    Ok(())
}

#[test]
fn closures_call_closures(rt: HostRuntime) -> Result<(), Fail> {
    check_all(&rt, rt.alloc(), &OTHERS)?;
    Ok(())
}
