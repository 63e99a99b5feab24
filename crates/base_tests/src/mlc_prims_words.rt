// Rows of words.

use crate::mlc_prims_expected::{Expected, gives};
use mlc_prims::applied::Applied;
use mlc_prims::apply::try_prim;
use mlc_prims::basis::BasisPrimitive;
use mlc_prims::lit::Lit;
use mlc_prims::prim::PrimExn;
use std::alloc::Global;

#[derive(Clone, Copy, Debug)]
struct WordRow {
    prim: BasisPrimitive,
    left: u32,
    right: u32,
    gives: Expected,
}

#[derive(Clone, Copy, Debug)]
struct OneWord {
    prim: BasisPrimitive,
    value: u32,
    gives: Expected,
}

const ROWS: [WordRow; 85] = [
    WordRow {
        prim: BasisPrimitive::Add,
        left: 0,
        right: 0,
        gives: Expected::Word(0),
    },
    WordRow {
        prim: BasisPrimitive::Add,
        left: 0xffffffff,
        right: 1,
        gives: Expected::Word(0),
    },
    WordRow {
        prim: BasisPrimitive::Add,
        left: 0xffffffff,
        right: 0xffffffff,
        gives: Expected::Word(0xfffffffe),
    },
    WordRow {
        prim: BasisPrimitive::Add,
        left: 0x80000000,
        right: 0x80000000,
        gives: Expected::Word(0),
    },
    WordRow {
        prim: BasisPrimitive::Subtract,
        left: 0,
        right: 0,
        gives: Expected::Word(0),
    },
    WordRow {
        prim: BasisPrimitive::Subtract,
        left: 0,
        right: 1,
        gives: Expected::Word(0xffffffff),
    },
    WordRow {
        prim: BasisPrimitive::Subtract,
        left: 0,
        right: 0xffffffff,
        gives: Expected::Word(1),
    },
    WordRow {
        prim: BasisPrimitive::Subtract,
        left: 0xffffffff,
        right: 0xffffffff,
        gives: Expected::Word(0),
    },
    WordRow {
        prim: BasisPrimitive::Subtract,
        left: 1,
        right: 0,
        gives: Expected::Word(1),
    },
    WordRow {
        prim: BasisPrimitive::Multiply,
        left: 0,
        right: 0xffffffff,
        gives: Expected::Word(0),
    },
    WordRow {
        prim: BasisPrimitive::Multiply,
        left: 0xffffffff,
        right: 0xffffffff,
        gives: Expected::Word(1),
    },
    WordRow {
        prim: BasisPrimitive::Multiply,
        left: 0x10000,
        right: 0x10000,
        gives: Expected::Word(0),
    },
    WordRow {
        prim: BasisPrimitive::Multiply,
        left: 0xffff,
        right: 0x10001,
        gives: Expected::Word(0xffffffff),
    },
    WordRow {
        prim: BasisPrimitive::Divide,
        left: 7,
        right: 2,
        gives: Expected::Word(3),
    },
    WordRow {
        prim: BasisPrimitive::Divide,
        left: 0xffffffff,
        right: 1,
        gives: Expected::Word(0xffffffff),
    },
    WordRow {
        prim: BasisPrimitive::Divide,
        left: 0xffffffff,
        right: 2,
        gives: Expected::Word(0x7fffffff),
    },
    WordRow {
        prim: BasisPrimitive::Divide,
        left: 0xffffffff,
        right: 0,
        gives: Expected::Raises(PrimExn::Div),
    },
    WordRow {
        prim: BasisPrimitive::Divide,
        left: 0,
        right: 0,
        gives: Expected::Raises(PrimExn::Div),
    },
    WordRow {
        prim: BasisPrimitive::Divide,
        left: 1,
        right: 0xffffffff,
        gives: Expected::Word(0),
    },
    WordRow {
        prim: BasisPrimitive::Modulo,
        left: 7,
        right: 2,
        gives: Expected::Word(1),
    },
    WordRow {
        prim: BasisPrimitive::Modulo,
        left: 0xffffffff,
        right: 1,
        gives: Expected::Word(0),
    },
    WordRow {
        prim: BasisPrimitive::Modulo,
        left: 0xffffffff,
        right: 2,
        gives: Expected::Word(1),
    },
    WordRow {
        prim: BasisPrimitive::Modulo,
        left: 0xffffffff,
        right: 0,
        gives: Expected::Raises(PrimExn::Div),
    },
    WordRow {
        prim: BasisPrimitive::Modulo,
        left: 0,
        right: 0,
        gives: Expected::Raises(PrimExn::Div),
    },
    WordRow {
        prim: BasisPrimitive::Modulo,
        left: 1,
        right: 0xffffffff,
        gives: Expected::Word(1),
    },
    WordRow {
        prim: BasisPrimitive::BitsAnd,
        left: 0,
        right: 0xffffffff,
        gives: Expected::Word(0),
    },
    WordRow {
        prim: BasisPrimitive::BitsAnd,
        left: 0xf0f0f0f0,
        right: 0xff00ff00,
        gives: Expected::Word(0xf000f000),
    },
    WordRow {
        prim: BasisPrimitive::BitsAnd,
        left: 0xffffffff,
        right: 0xffffffff,
        gives: Expected::Word(0xffffffff),
    },
    WordRow {
        prim: BasisPrimitive::BitsOr,
        left: 0,
        right: 0xffffffff,
        gives: Expected::Word(0xffffffff),
    },
    WordRow {
        prim: BasisPrimitive::BitsOr,
        left: 0xf0f0f0f0,
        right: 0xf000f00,
        gives: Expected::Word(0xfff0fff0),
    },
    WordRow {
        prim: BasisPrimitive::BitsOr,
        left: 0,
        right: 0,
        gives: Expected::Word(0),
    },
    WordRow {
        prim: BasisPrimitive::BitsXor,
        left: 0xffffffff,
        right: 0xffffffff,
        gives: Expected::Word(0),
    },
    WordRow {
        prim: BasisPrimitive::BitsXor,
        left: 0xf0f0f0f0,
        right: 0xff00ff00,
        gives: Expected::Word(0xff00ff0),
    },
    WordRow {
        prim: BasisPrimitive::BitsXor,
        left: 0,
        right: 0xffffffff,
        gives: Expected::Word(0xffffffff),
    },
    WordRow {
        prim: BasisPrimitive::ShiftLeft,
        left: 1,
        right: 0,
        gives: Expected::Word(1),
    },
    WordRow {
        prim: BasisPrimitive::ShiftLeft,
        left: 1,
        right: 1,
        gives: Expected::Word(2),
    },
    WordRow {
        prim: BasisPrimitive::ShiftLeft,
        left: 1,
        right: 31,
        gives: Expected::Word(0x80000000),
    },
    WordRow {
        prim: BasisPrimitive::ShiftLeft,
        left: 3,
        right: 31,
        gives: Expected::Word(0x80000000),
    },
    WordRow {
        prim: BasisPrimitive::ShiftLeft,
        left: 0xffffffff,
        right: 31,
        gives: Expected::Word(0x80000000),
    },
    WordRow {
        prim: BasisPrimitive::ShiftLeft,
        left: 0xffffffff,
        right: 32,
        gives: Expected::Word(0),
    },
    WordRow {
        prim: BasisPrimitive::ShiftLeft,
        left: 1,
        right: 33,
        gives: Expected::Word(0),
    },
    WordRow {
        prim: BasisPrimitive::ShiftLeft,
        left: 0xffffffff,
        right: 0xffffffff,
        gives: Expected::Word(0),
    },
    WordRow {
        prim: BasisPrimitive::ShiftLeft,
        left: 0,
        right: 0,
        gives: Expected::Word(0),
    },
    WordRow {
        prim: BasisPrimitive::ShiftRight,
        left: 0xffffffff,
        right: 0,
        gives: Expected::Word(0xffffffff),
    },
    WordRow {
        prim: BasisPrimitive::ShiftRight,
        left: 0xffffffff,
        right: 1,
        gives: Expected::Word(0x7fffffff),
    },
    WordRow {
        prim: BasisPrimitive::ShiftRight,
        left: 0xffffffff,
        right: 31,
        gives: Expected::Word(1),
    },
    WordRow {
        prim: BasisPrimitive::ShiftRight,
        left: 0x80000000,
        right: 31,
        gives: Expected::Word(1),
    },
    WordRow {
        prim: BasisPrimitive::ShiftRight,
        left: 0xffffffff,
        right: 32,
        gives: Expected::Word(0),
    },
    WordRow {
        prim: BasisPrimitive::ShiftRight,
        left: 0xffffffff,
        right: 33,
        gives: Expected::Word(0),
    },
    WordRow {
        prim: BasisPrimitive::ShiftRight,
        left: 0xffffffff,
        right: 0xffffffff,
        gives: Expected::Word(0),
    },
    WordRow {
        prim: BasisPrimitive::ShiftSigned,
        left: 0xffffffff,
        right: 0,
        gives: Expected::Word(0xffffffff),
    },
    WordRow {
        prim: BasisPrimitive::ShiftSigned,
        left: 0x80000000,
        right: 0,
        gives: Expected::Word(0x80000000),
    },
    WordRow {
        prim: BasisPrimitive::ShiftSigned,
        left: 0x80000000,
        right: 1,
        gives: Expected::Word(0xc0000000),
    },
    WordRow {
        prim: BasisPrimitive::ShiftSigned,
        left: 0x80000000,
        right: 31,
        gives: Expected::Word(0xffffffff),
    },
    WordRow {
        prim: BasisPrimitive::ShiftSigned,
        left: 0x80000000,
        right: 32,
        gives: Expected::Word(0xffffffff),
    },
    WordRow {
        prim: BasisPrimitive::ShiftSigned,
        left: 0xffffffff,
        right: 0xffffffff,
        gives: Expected::Word(0xffffffff),
    },
    WordRow {
        prim: BasisPrimitive::ShiftSigned,
        left: 0x7fffffff,
        right: 1,
        gives: Expected::Word(0x3fffffff),
    },
    WordRow {
        prim: BasisPrimitive::ShiftSigned,
        left: 0x7fffffff,
        right: 31,
        gives: Expected::Word(0),
    },
    WordRow {
        prim: BasisPrimitive::ShiftSigned,
        left: 0x7fffffff,
        right: 32,
        gives: Expected::Word(0),
    },
    WordRow {
        prim: BasisPrimitive::ShiftSigned,
        left: 0x7fffffff,
        right: 0xffffffff,
        gives: Expected::Word(0),
    },
    WordRow {
        prim: BasisPrimitive::Less,
        left: 0,
        right: 0,
        gives: Expected::Truth(false),
    },
    WordRow {
        prim: BasisPrimitive::Less,
        left: 0,
        right: 0xffffffff,
        gives: Expected::Truth(true),
    },
    WordRow {
        prim: BasisPrimitive::Less,
        left: 0xffffffff,
        right: 0,
        gives: Expected::Truth(false),
    },
    WordRow {
        prim: BasisPrimitive::Less,
        left: 0x7fffffff,
        right: 0x80000000,
        gives: Expected::Truth(true),
    },
    WordRow {
        prim: BasisPrimitive::Less,
        left: 0xffffffff,
        right: 0xffffffff,
        gives: Expected::Truth(false),
    },
    WordRow {
        prim: BasisPrimitive::LessEqual,
        left: 0,
        right: 0,
        gives: Expected::Truth(true),
    },
    WordRow {
        prim: BasisPrimitive::LessEqual,
        left: 0,
        right: 0xffffffff,
        gives: Expected::Truth(true),
    },
    WordRow {
        prim: BasisPrimitive::LessEqual,
        left: 0xffffffff,
        right: 0,
        gives: Expected::Truth(false),
    },
    WordRow {
        prim: BasisPrimitive::LessEqual,
        left: 0x7fffffff,
        right: 0x80000000,
        gives: Expected::Truth(true),
    },
    WordRow {
        prim: BasisPrimitive::LessEqual,
        left: 0xffffffff,
        right: 0xffffffff,
        gives: Expected::Truth(true),
    },
    WordRow {
        prim: BasisPrimitive::Greater,
        left: 0,
        right: 0,
        gives: Expected::Truth(false),
    },
    WordRow {
        prim: BasisPrimitive::Greater,
        left: 0,
        right: 0xffffffff,
        gives: Expected::Truth(false),
    },
    WordRow {
        prim: BasisPrimitive::Greater,
        left: 0xffffffff,
        right: 0,
        gives: Expected::Truth(true),
    },
    WordRow {
        prim: BasisPrimitive::Greater,
        left: 0x7fffffff,
        right: 0x80000000,
        gives: Expected::Truth(false),
    },
    WordRow {
        prim: BasisPrimitive::Greater,
        left: 0xffffffff,
        right: 0xffffffff,
        gives: Expected::Truth(false),
    },
    WordRow {
        prim: BasisPrimitive::GreaterEqual,
        left: 0,
        right: 0,
        gives: Expected::Truth(true),
    },
    WordRow {
        prim: BasisPrimitive::GreaterEqual,
        left: 0,
        right: 0xffffffff,
        gives: Expected::Truth(false),
    },
    WordRow {
        prim: BasisPrimitive::GreaterEqual,
        left: 0xffffffff,
        right: 0,
        gives: Expected::Truth(true),
    },
    WordRow {
        prim: BasisPrimitive::GreaterEqual,
        left: 0x7fffffff,
        right: 0x80000000,
        gives: Expected::Truth(false),
    },
    WordRow {
        prim: BasisPrimitive::GreaterEqual,
        left: 0xffffffff,
        right: 0xffffffff,
        gives: Expected::Truth(true),
    },
    WordRow {
        prim: BasisPrimitive::Equals,
        left: 0,
        right: 0,
        gives: Expected::Truth(true),
    },
    WordRow {
        prim: BasisPrimitive::Equals,
        left: 0,
        right: 0xffffffff,
        gives: Expected::Truth(false),
    },
    WordRow {
        prim: BasisPrimitive::Equals,
        left: 0xffffffff,
        right: 0,
        gives: Expected::Truth(false),
    },
    WordRow {
        prim: BasisPrimitive::Equals,
        left: 0x7fffffff,
        right: 0x80000000,
        gives: Expected::Truth(false),
    },
    WordRow {
        prim: BasisPrimitive::Equals,
        left: 0xffffffff,
        right: 0xffffffff,
        gives: Expected::Truth(true),
    },
];

const ONE: [OneWord; 15] = [
    OneWord {
        prim: BasisPrimitive::Negate,
        value: 0,
        gives: Expected::Word(0),
    },
    OneWord {
        prim: BasisPrimitive::Negate,
        value: 1,
        gives: Expected::Word(0xffffffff),
    },
    OneWord {
        prim: BasisPrimitive::Negate,
        value: 0xffffffff,
        gives: Expected::Word(1),
    },
    OneWord {
        prim: BasisPrimitive::Negate,
        value: 0x80000000,
        gives: Expected::Word(0x80000000),
    },
    OneWord {
        prim: BasisPrimitive::BitsNot,
        value: 0,
        gives: Expected::Word(0xffffffff),
    },
    OneWord {
        prim: BasisPrimitive::BitsNot,
        value: 0xffffffff,
        gives: Expected::Word(0),
    },
    OneWord {
        prim: BasisPrimitive::BitsNot,
        value: 0xf0f0f0f0,
        gives: Expected::Word(0xf0f0f0f),
    },
    OneWord {
        prim: BasisPrimitive::ToInt,
        value: 0,
        gives: Expected::Int(0),
    },
    OneWord {
        prim: BasisPrimitive::ToInt,
        value: 0x7fffffff,
        gives: Expected::Int(2147483647),
    },
    OneWord {
        prim: BasisPrimitive::ToInt,
        value: 0x80000000,
        gives: Expected::Raises(PrimExn::Overflow),
    },
    OneWord {
        prim: BasisPrimitive::ToInt,
        value: 0xffffffff,
        gives: Expected::Raises(PrimExn::Overflow),
    },
    OneWord {
        prim: BasisPrimitive::ToIntSigned,
        value: 0,
        gives: Expected::Int(0),
    },
    OneWord {
        prim: BasisPrimitive::ToIntSigned,
        value: 0x7fffffff,
        gives: Expected::Int(2147483647),
    },
    OneWord {
        prim: BasisPrimitive::ToIntSigned,
        value: 0x80000000,
        gives: Expected::Int(i32::MIN),
    },
    OneWord {
        prim: BasisPrimitive::ToIntSigned,
        value: 0xffffffff,
        gives: Expected::Int(-1),
    },
];

fn of_two(alloc: Global, prim: BasisPrimitive, left: u32, right: u32) -> Option<Applied> {
    try_prim(alloc, prim, &[Lit::Word(left), Lit::Word(right)])
}

fn of_one(alloc: Global, prim: BasisPrimitive, value: u32) -> Option<Applied> {
    try_prim(alloc, prim, &[Lit::Word(value)])
}

#[test]
fn two_words(rt: HostRuntime) {
    for row in ROWS {
        let applied = of_two(rt.alloc(), row.prim, row.left, row.right);
        assert!(rt; gives(&applied, row.gives), "{row:?}");
    }
}

#[test]
fn one_word(rt: HostRuntime) {
    for row in ONE {
        let applied = of_one(rt.alloc(), row.prim, row.value);
        assert!(rt; gives(&applied, row.gives), "{row:?}");
    }
}
