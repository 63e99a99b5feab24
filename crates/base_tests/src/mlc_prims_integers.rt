// Rows of integers.

use crate::mlc_prims_expected::{Expected, gives};
use mlc_prims::applied::Applied;
use mlc_prims::apply::try_prim;
use mlc_prims::basis::BasisPrimitive;
use mlc_prims::lit::Lit;
use mlc_prims::prim::PrimExn;
use std::alloc::Global;

#[derive(Clone, Copy, Debug)]
struct IntRow {
    prim: BasisPrimitive,
    left: i32,
    right: i32,
    gives: Expected,
}

#[derive(Clone, Copy, Debug)]
struct OneInt {
    prim: BasisPrimitive,
    value: i32,
    gives: Expected,
}

const ROWS: [IntRow; 90] = [
    IntRow {
        prim: BasisPrimitive::Add,
        left: 0,
        right: 0,
        gives: Expected::Int(0),
    },
    IntRow {
        prim: BasisPrimitive::Add,
        left: 2147483646,
        right: 1,
        gives: Expected::Int(2147483647),
    },
    IntRow {
        prim: BasisPrimitive::Add,
        left: 2147483647,
        right: 1,
        gives: Expected::Raises(PrimExn::Overflow),
    },
    IntRow {
        prim: BasisPrimitive::Add,
        left: 2147483647,
        right: 0,
        gives: Expected::Int(2147483647),
    },
    IntRow {
        prim: BasisPrimitive::Add,
        left: i32::MIN,
        right: -1,
        gives: Expected::Raises(PrimExn::Overflow),
    },
    IntRow {
        prim: BasisPrimitive::Add,
        left: i32::MIN,
        right: 2147483647,
        gives: Expected::Int(-1),
    },
    IntRow {
        prim: BasisPrimitive::Add,
        left: -1,
        right: 1,
        gives: Expected::Int(0),
    },
    IntRow {
        prim: BasisPrimitive::Subtract,
        left: 0,
        right: 0,
        gives: Expected::Int(0),
    },
    IntRow {
        prim: BasisPrimitive::Subtract,
        left: -2147483647,
        right: 1,
        gives: Expected::Int(i32::MIN),
    },
    IntRow {
        prim: BasisPrimitive::Subtract,
        left: i32::MIN,
        right: 1,
        gives: Expected::Raises(PrimExn::Overflow),
    },
    IntRow {
        prim: BasisPrimitive::Subtract,
        left: 2147483647,
        right: -1,
        gives: Expected::Raises(PrimExn::Overflow),
    },
    IntRow {
        prim: BasisPrimitive::Subtract,
        left: -1,
        right: 2147483647,
        gives: Expected::Int(i32::MIN),
    },
    IntRow {
        prim: BasisPrimitive::Subtract,
        left: 0,
        right: i32::MIN,
        gives: Expected::Raises(PrimExn::Overflow),
    },
    IntRow {
        prim: BasisPrimitive::Multiply,
        left: 0,
        right: i32::MIN,
        gives: Expected::Int(0),
    },
    IntRow {
        prim: BasisPrimitive::Multiply,
        left: 1,
        right: i32::MIN,
        gives: Expected::Int(i32::MIN),
    },
    IntRow {
        prim: BasisPrimitive::Multiply,
        left: -1,
        right: i32::MIN,
        gives: Expected::Raises(PrimExn::Overflow),
    },
    IntRow {
        prim: BasisPrimitive::Multiply,
        left: -1,
        right: 2147483647,
        gives: Expected::Int(-2147483647),
    },
    IntRow {
        prim: BasisPrimitive::Multiply,
        left: 65536,
        right: 32768,
        gives: Expected::Raises(PrimExn::Overflow),
    },
    IntRow {
        prim: BasisPrimitive::Multiply,
        left: -65536,
        right: 32768,
        gives: Expected::Int(i32::MIN),
    },
    IntRow {
        prim: BasisPrimitive::Multiply,
        left: 46341,
        right: 46341,
        gives: Expected::Raises(PrimExn::Overflow),
    },
    IntRow {
        prim: BasisPrimitive::Multiply,
        left: 46340,
        right: 46340,
        gives: Expected::Int(2147395600),
    },
    IntRow {
        prim: BasisPrimitive::Divide,
        left: 7,
        right: 2,
        gives: Expected::Int(3),
    },
    IntRow {
        prim: BasisPrimitive::Divide,
        left: -7,
        right: 2,
        gives: Expected::Int(-4),
    },
    IntRow {
        prim: BasisPrimitive::Divide,
        left: 7,
        right: -2,
        gives: Expected::Int(-4),
    },
    IntRow {
        prim: BasisPrimitive::Divide,
        left: -7,
        right: -2,
        gives: Expected::Int(3),
    },
    IntRow {
        prim: BasisPrimitive::Divide,
        left: 6,
        right: -2,
        gives: Expected::Int(-3),
    },
    IntRow {
        prim: BasisPrimitive::Divide,
        left: 0,
        right: 5,
        gives: Expected::Int(0),
    },
    IntRow {
        prim: BasisPrimitive::Divide,
        left: i32::MIN,
        right: -1,
        gives: Expected::Raises(PrimExn::Overflow),
    },
    IntRow {
        prim: BasisPrimitive::Divide,
        left: i32::MIN,
        right: 1,
        gives: Expected::Int(i32::MIN),
    },
    IntRow {
        prim: BasisPrimitive::Divide,
        left: i32::MIN,
        right: 0,
        gives: Expected::Raises(PrimExn::Div),
    },
    IntRow {
        prim: BasisPrimitive::Divide,
        left: 0,
        right: 0,
        gives: Expected::Raises(PrimExn::Div),
    },
    IntRow {
        prim: BasisPrimitive::Divide,
        left: 2147483647,
        right: i32::MIN,
        gives: Expected::Int(-1),
    },
    IntRow {
        prim: BasisPrimitive::Divide,
        left: i32::MIN,
        right: 2147483647,
        gives: Expected::Int(-2),
    },
    IntRow {
        prim: BasisPrimitive::Divide,
        left: 1,
        right: 2147483647,
        gives: Expected::Int(0),
    },
    IntRow {
        prim: BasisPrimitive::Divide,
        left: -1,
        right: 2147483647,
        gives: Expected::Int(-1),
    },
    IntRow {
        prim: BasisPrimitive::Modulo,
        left: 7,
        right: 2,
        gives: Expected::Int(1),
    },
    IntRow {
        prim: BasisPrimitive::Modulo,
        left: -7,
        right: 2,
        gives: Expected::Int(1),
    },
    IntRow {
        prim: BasisPrimitive::Modulo,
        left: 7,
        right: -2,
        gives: Expected::Int(-1),
    },
    IntRow {
        prim: BasisPrimitive::Modulo,
        left: -7,
        right: -2,
        gives: Expected::Int(-1),
    },
    IntRow {
        prim: BasisPrimitive::Modulo,
        left: 6,
        right: -2,
        gives: Expected::Int(0),
    },
    IntRow {
        prim: BasisPrimitive::Modulo,
        left: 0,
        right: -5,
        gives: Expected::Int(0),
    },
    IntRow {
        prim: BasisPrimitive::Modulo,
        left: i32::MIN,
        right: -1,
        gives: Expected::Int(0),
    },
    IntRow {
        prim: BasisPrimitive::Modulo,
        left: i32::MIN,
        right: 0,
        gives: Expected::Raises(PrimExn::Div),
    },
    IntRow {
        prim: BasisPrimitive::Modulo,
        left: 0,
        right: 0,
        gives: Expected::Raises(PrimExn::Div),
    },
    IntRow {
        prim: BasisPrimitive::Modulo,
        left: 2147483647,
        right: i32::MIN,
        gives: Expected::Int(-1),
    },
    IntRow {
        prim: BasisPrimitive::Modulo,
        left: i32::MIN,
        right: 2147483647,
        gives: Expected::Int(2147483646),
    },
    IntRow {
        prim: BasisPrimitive::Modulo,
        left: -1,
        right: 2147483647,
        gives: Expected::Int(2147483646),
    },
    IntRow {
        prim: BasisPrimitive::Quotient,
        left: 7,
        right: 2,
        gives: Expected::Int(3),
    },
    IntRow {
        prim: BasisPrimitive::Quotient,
        left: -7,
        right: 2,
        gives: Expected::Int(-3),
    },
    IntRow {
        prim: BasisPrimitive::Quotient,
        left: 7,
        right: -2,
        gives: Expected::Int(-3),
    },
    IntRow {
        prim: BasisPrimitive::Quotient,
        left: -7,
        right: -2,
        gives: Expected::Int(3),
    },
    IntRow {
        prim: BasisPrimitive::Quotient,
        left: i32::MIN,
        right: -1,
        gives: Expected::Raises(PrimExn::Overflow),
    },
    IntRow {
        prim: BasisPrimitive::Quotient,
        left: i32::MIN,
        right: 1,
        gives: Expected::Int(i32::MIN),
    },
    IntRow {
        prim: BasisPrimitive::Quotient,
        left: i32::MIN,
        right: 0,
        gives: Expected::Raises(PrimExn::Div),
    },
    IntRow {
        prim: BasisPrimitive::Quotient,
        left: 0,
        right: 0,
        gives: Expected::Raises(PrimExn::Div),
    },
    IntRow {
        prim: BasisPrimitive::Quotient,
        left: -1,
        right: 2147483647,
        gives: Expected::Int(0),
    },
    IntRow {
        prim: BasisPrimitive::Remainder,
        left: 7,
        right: 2,
        gives: Expected::Int(1),
    },
    IntRow {
        prim: BasisPrimitive::Remainder,
        left: -7,
        right: 2,
        gives: Expected::Int(-1),
    },
    IntRow {
        prim: BasisPrimitive::Remainder,
        left: 7,
        right: -2,
        gives: Expected::Int(1),
    },
    IntRow {
        prim: BasisPrimitive::Remainder,
        left: -7,
        right: -2,
        gives: Expected::Int(-1),
    },
    IntRow {
        prim: BasisPrimitive::Remainder,
        left: i32::MIN,
        right: -1,
        gives: Expected::Int(0),
    },
    IntRow {
        prim: BasisPrimitive::Remainder,
        left: i32::MIN,
        right: 0,
        gives: Expected::Raises(PrimExn::Div),
    },
    IntRow {
        prim: BasisPrimitive::Remainder,
        left: 0,
        right: 0,
        gives: Expected::Raises(PrimExn::Div),
    },
    IntRow {
        prim: BasisPrimitive::Remainder,
        left: 2147483647,
        right: i32::MIN,
        gives: Expected::Int(2147483647),
    },
    IntRow {
        prim: BasisPrimitive::Remainder,
        left: -1,
        right: 2147483647,
        gives: Expected::Int(-1),
    },
    IntRow {
        prim: BasisPrimitive::Less,
        left: 0,
        right: 0,
        gives: Expected::Truth(false),
    },
    IntRow {
        prim: BasisPrimitive::Less,
        left: i32::MIN,
        right: 2147483647,
        gives: Expected::Truth(true),
    },
    IntRow {
        prim: BasisPrimitive::Less,
        left: 2147483647,
        right: i32::MIN,
        gives: Expected::Truth(false),
    },
    IntRow {
        prim: BasisPrimitive::Less,
        left: -1,
        right: 1,
        gives: Expected::Truth(true),
    },
    IntRow {
        prim: BasisPrimitive::Less,
        left: -1,
        right: -1,
        gives: Expected::Truth(false),
    },
    IntRow {
        prim: BasisPrimitive::LessEqual,
        left: 0,
        right: 0,
        gives: Expected::Truth(true),
    },
    IntRow {
        prim: BasisPrimitive::LessEqual,
        left: i32::MIN,
        right: 2147483647,
        gives: Expected::Truth(true),
    },
    IntRow {
        prim: BasisPrimitive::LessEqual,
        left: 2147483647,
        right: i32::MIN,
        gives: Expected::Truth(false),
    },
    IntRow {
        prim: BasisPrimitive::LessEqual,
        left: -1,
        right: 1,
        gives: Expected::Truth(true),
    },
    IntRow {
        prim: BasisPrimitive::LessEqual,
        left: -1,
        right: -1,
        gives: Expected::Truth(true),
    },
    IntRow {
        prim: BasisPrimitive::Greater,
        left: 0,
        right: 0,
        gives: Expected::Truth(false),
    },
    IntRow {
        prim: BasisPrimitive::Greater,
        left: i32::MIN,
        right: 2147483647,
        gives: Expected::Truth(false),
    },
    IntRow {
        prim: BasisPrimitive::Greater,
        left: 2147483647,
        right: i32::MIN,
        gives: Expected::Truth(true),
    },
    IntRow {
        prim: BasisPrimitive::Greater,
        left: -1,
        right: 1,
        gives: Expected::Truth(false),
    },
    IntRow {
        prim: BasisPrimitive::Greater,
        left: -1,
        right: -1,
        gives: Expected::Truth(false),
    },
    IntRow {
        prim: BasisPrimitive::GreaterEqual,
        left: 0,
        right: 0,
        gives: Expected::Truth(true),
    },
    IntRow {
        prim: BasisPrimitive::GreaterEqual,
        left: i32::MIN,
        right: 2147483647,
        gives: Expected::Truth(false),
    },
    IntRow {
        prim: BasisPrimitive::GreaterEqual,
        left: 2147483647,
        right: i32::MIN,
        gives: Expected::Truth(true),
    },
    IntRow {
        prim: BasisPrimitive::GreaterEqual,
        left: -1,
        right: 1,
        gives: Expected::Truth(false),
    },
    IntRow {
        prim: BasisPrimitive::GreaterEqual,
        left: -1,
        right: -1,
        gives: Expected::Truth(true),
    },
    IntRow {
        prim: BasisPrimitive::Equals,
        left: 0,
        right: 0,
        gives: Expected::Truth(true),
    },
    IntRow {
        prim: BasisPrimitive::Equals,
        left: i32::MIN,
        right: 2147483647,
        gives: Expected::Truth(false),
    },
    IntRow {
        prim: BasisPrimitive::Equals,
        left: 2147483647,
        right: i32::MIN,
        gives: Expected::Truth(false),
    },
    IntRow {
        prim: BasisPrimitive::Equals,
        left: -1,
        right: 1,
        gives: Expected::Truth(false),
    },
    IntRow {
        prim: BasisPrimitive::Equals,
        left: -1,
        right: -1,
        gives: Expected::Truth(true),
    },
];

const ONE: [OneInt; 21] = [
    OneInt {
        prim: BasisPrimitive::Negate,
        value: 0,
        gives: Expected::Int(0),
    },
    OneInt {
        prim: BasisPrimitive::Negate,
        value: 1,
        gives: Expected::Int(-1),
    },
    OneInt {
        prim: BasisPrimitive::Negate,
        value: -1,
        gives: Expected::Int(1),
    },
    OneInt {
        prim: BasisPrimitive::Negate,
        value: 2147483647,
        gives: Expected::Int(-2147483647),
    },
    OneInt {
        prim: BasisPrimitive::Negate,
        value: i32::MIN,
        gives: Expected::Raises(PrimExn::Overflow),
    },
    OneInt {
        prim: BasisPrimitive::Absolute,
        value: 0,
        gives: Expected::Int(0),
    },
    OneInt {
        prim: BasisPrimitive::Absolute,
        value: -1,
        gives: Expected::Int(1),
    },
    OneInt {
        prim: BasisPrimitive::Absolute,
        value: 1,
        gives: Expected::Int(1),
    },
    OneInt {
        prim: BasisPrimitive::Absolute,
        value: 2147483647,
        gives: Expected::Int(2147483647),
    },
    OneInt {
        prim: BasisPrimitive::Absolute,
        value: -2147483647,
        gives: Expected::Int(2147483647),
    },
    OneInt {
        prim: BasisPrimitive::Absolute,
        value: i32::MIN,
        gives: Expected::Raises(PrimExn::Overflow),
    },
    OneInt {
        prim: BasisPrimitive::FromInt,
        value: 0,
        gives: Expected::Word(0),
    },
    OneInt {
        prim: BasisPrimitive::FromInt,
        value: -1,
        gives: Expected::Word(0xffffffff),
    },
    OneInt {
        prim: BasisPrimitive::FromInt,
        value: 2147483647,
        gives: Expected::Word(0x7fffffff),
    },
    OneInt {
        prim: BasisPrimitive::FromInt,
        value: i32::MIN,
        gives: Expected::Word(0x80000000),
    },
    OneInt {
        prim: BasisPrimitive::CharOf,
        value: 0,
        gives: Expected::Char(0),
    },
    OneInt {
        prim: BasisPrimitive::CharOf,
        value: 255,
        gives: Expected::Char(255),
    },
    OneInt {
        prim: BasisPrimitive::CharOf,
        value: 256,
        gives: Expected::Raises(PrimExn::Chr),
    },
    OneInt {
        prim: BasisPrimitive::CharOf,
        value: -1,
        gives: Expected::Raises(PrimExn::Chr),
    },
    OneInt {
        prim: BasisPrimitive::CharOf,
        value: 2147483647,
        gives: Expected::Raises(PrimExn::Chr),
    },
    OneInt {
        prim: BasisPrimitive::CharOf,
        value: i32::MIN,
        gives: Expected::Raises(PrimExn::Chr),
    },
];

fn of_two(alloc: Global, prim: BasisPrimitive, left: i32, right: i32) -> Option<Applied> {
    try_prim(alloc, prim, &[Lit::Int(left), Lit::Int(right)])
}

fn of_one(alloc: Global, prim: BasisPrimitive, value: i32) -> Option<Applied> {
    try_prim(alloc, prim, &[Lit::Int(value)])
}

#[test]
fn two_integers(rt: HostRuntime) {
    for row in ROWS {
        let applied = of_two(rt.alloc(), row.prim, row.left, row.right);
        assert!(rt; gives(&applied, row.gives), "{row:?}");
    }
}

#[test]
fn one_integer(rt: HostRuntime) {
    for row in ONE {
        let applied = of_one(rt.alloc(), row.prim, row.value);
        assert!(rt; gives(&applied, row.gives), "{row:?}");
    }
}
