// Small programs whose functions go through data.

use crate::answer::{Answer, answer_of};
use crate::types::*;
use ir_uses::constructor::{CONS, NIL};
use plain_tree::tree::{Case, Parameter};
use std::test::Fail;
use tests_words::words::{Act, Word};

/// A function that a reference holds is called.
const REFERENCES: [Word; 8] = [
    Word::Ret(3),
    ONE,
    Word::Fn(2, FUNCTION, 3, INT),
    Word::Let(4, REFERENCE, Act::Refer(FUNCTION, 2)),
    Word::Let(5, FUNCTION, Act::Content(FUNCTION, 4)),
    Word::Let(6, INT, Act::Apply(5, 1)),
    Word::Ret(6),
    Word::End,
];

/// A function that a packet carries is called by the handler.
const PACKETS: [Word; 19] = [
    Word::Let(6, EXN, Act::Pack(FUNCTION, 3, 2)),
    Word::Let(7, INT, Act::Raise(6)),
    Word::Ret(7),
    Word::End,
    Word::Test(
        8,
        EXN,
        Case::ExceptionOf {
            exception: 3,
            argument: Parameter {
                variable: 9,
                ty: FUNCTION,
            },
        },
    ),
    Word::Let(10, INT, Act::Apply(9, 1)),
    Word::Ret(10),
    Word::End,
    Word::Let(11, INT, Act::Raise(8)),
    Word::Ret(11),
    Word::End,
    Word::First,
    Word::Ret(12),
    ONE,
    Word::Exception(3, Some(FUNCTION)),
    Word::Fn(2, FUNCTION, 12, INT),
    Word::Handle(4, INT, 8),
    Word::Ret(4),
    Word::End,
];

#[test]
fn functions_in_references_and_packets(rt: HostRuntime) -> Result<(), Fail> {
    assert_eq!(rt; answer_of(rt.alloc(), &REFERENCES)?, Answer::Functions(2));
    assert_eq!(rt; answer_of(rt.alloc(), &PACKETS)?, Answer::Functions(2));
    Ok(())
}

/// A function that a constructor holds is called.
const CONSTRUCTED: [Word; 11] = [
    Word::Test(
        4,
        HOLDER,
        Case::ConstructorOf {
            constructor: HOLD,
            argument: Parameter {
                variable: 5,
                ty: FUNCTION,
            },
        },
    ),
    Word::Let(6, INT, Act::Apply(5, 1)),
    Word::Ret(6),
    Word::End,
    Word::Ret(1),
    Word::First,
    Word::Ret(3),
    ONE,
    Word::Fn(2, FUNCTION, 3, INT),
    Word::Let(4, HOLDER, Act::Construct(HOLD, HOLDER, 2)),
    Word::End,
];

/// The first function of a list is called.
const LISTS: [Word; 14] = [
    Word::Test(
        6,
        FUNCTIONS,
        Case::ConstructorOf {
            constructor: CONS,
            argument: Parameter {
                variable: 7,
                ty: CELL,
            },
        },
    ),
    Word::Let(8, FUNCTION, Act::Select(CELL, 1, 7)),
    Word::Let(9, INT, Act::Apply(8, 1)),
    Word::Ret(9),
    Word::End,
    Word::Ret(1),
    Word::First,
    Word::Ret(3),
    ONE,
    Word::Fn(2, FUNCTION, 3, INT),
    Word::Let(4, FUNCTIONS, Act::Constructor(NIL, FUNCTIONS)),
    Word::Let(5, CELL, Act::Record(CELL, (1, 2), (2, 4))),
    Word::Let(6, FUNCTIONS, Act::Construct(CONS, FUNCTIONS, 5)),
    Word::End,
];

#[test]
fn functions_in_datatypes_and_lists(rt: HostRuntime) -> Result<(), Fail> {
    assert_eq!(rt; answer_of(rt.alloc(), &CONSTRUCTED)?, Answer::Functions(2));
    assert_eq!(rt; answer_of(rt.alloc(), &LISTS)?, Answer::Functions(2));
    Ok(())
}

/// What a handler gives is a function, which is called.
const HANDLED: [Word; 13] = [
    Word::Let(6, FUNCTION, Act::RaiseInitial(0)),
    Word::Ret(6),
    Word::End,
    Word::Let(7, FUNCTION, Act::Use(2)),
    Word::Ret(7),
    Word::End,
    Word::Ret(3),
    ONE,
    Word::Fn(2, FUNCTION, 3, INT),
    Word::Handle(4, FUNCTION, 5),
    Word::Let(8, INT, Act::Apply(4, 1)),
    Word::Ret(8),
    Word::End,
];

#[test]
fn a_handler_gives_a_function(rt: HostRuntime) -> Result<(), Fail> {
    assert_eq!(rt; answer_of(rt.alloc(), &HANDLED)?, Answer::Functions(2));
    Ok(())
}
