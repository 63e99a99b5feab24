// Small programs: how many nodes there are when bindings are copied, one copy at unit and one at each further list of types.

use crate::answer::{Answer, answer_of};
use crate::types::*;
use ir_uses::constructor::{CONS, NIL};
use mlc_prims::basis::BasisPrimitive;
use plain_tree::tree::{Case, Parameter};
use std::test::Fail;
use tests_given::given::*;
use tests_words::words::{Act, Word};

/// `val (x :: _) = []`, generalised: nothing uses it, and it raises Bind, with five nodes.
const UNUSED: [Word; 16] = [
    Word::Test(
        2,
        LIST_OF_A,
        Case::ConstructorOf {
            constructor: CONS,
            argument: Parameter {
                variable: 3,
                ty: CELL_OF_A,
            },
        },
    ),
    Word::Let(4, A, Act::Select(CELL_OF_A, 1, 3)),
    Word::Ret(4),
    Word::End,
    Word::Counted(5),
    Word::Let(5, A, Act::RaiseInitial(1)),
    Word::Ret(5),
    Word::End,
    Word::First,
    Word::Let(2, LIST_OF_A, Act::Constructor(NIL, LIST_OF_A)),
    Word::End,
    Word::Over(ANY),
    Word::Block(1, A),
    Word::Int(6),
    Word::Ret(6),
    Word::End,
];

/// `val f = fn x => x  val a = f 1  val b = f "x"  val c = f 2`, where the function has seven nodes.
const IDENTITY: [Word; 10] = [
    Word::Counted(7),
    Word::Ret(2),
    Word::End,
    Word::Over(ANY),
    Word::Fn(1, A_TO_A, 2, A),
    Word::Let(3, INT_TO_INT, Act::UseAt(1, INT)),
    Word::Let(4, STRING_TO_STRING, Act::UseAt(1, STRING)),
    Word::Let(5, INT_TO_INT, Act::UseAt(1, INT)),
    Word::Ret(3),
    Word::End,
];

#[test]
fn a_copy_at_each_type(rt: HostRuntime) -> Result<(), Fail> {
    assert_eq!(rt; answer_of(rt.alloc(), &UNUSED)?, Answer::Nodes(5));
    assert_eq!(rt; answer_of(rt.alloc(), &IDENTITY)?, Answer::Nodes(21));
    Ok(())
}

/// `fun f (x : 'a) = let exception E of 'a in E x end`, used at two types.
const EXCEPTION: [Word; 12] = [
    Word::Exception(3, Some(A)),
    Word::Let(4, EXN, Act::Pack(A, 3, 2)),
    Word::Counted(3),
    Word::Ret(4),
    Word::End,
    Word::Over(ANY),
    Word::Fn(1, A_TO_EXN, 2, A),
    Word::Let(5, INT_TO_EXN, Act::UseAt(1, INT)),
    Word::Let(6, STRING_TO_EXN, Act::UseAt(1, STRING)),
    Word::Int(7),
    Word::Ret(7),
    Word::End,
];

/// Two functions that call one another, of two and of three nodes: one is used at integers, the other at strings.
const GROUP: [Word; 17] = [
    Word::Let(4, A_TO_A, Act::Use(6)),
    Word::Let(5, A, Act::Apply(4, 3)),
    Word::Counted(2),
    Word::Ret(5),
    Word::End,
    Word::Member(2, A_TO_A, 3, A),
    Word::Let(8, A_TO_A, Act::Use(2)),
    Word::Let(9, A, Act::Apply(8, 7)),
    Word::Counted(3),
    Word::Ret(9),
    Word::End,
    Word::Member(6, A_TO_A, 7, A),
    Word::Group(ANY),
    Word::Let(10, INT_TO_INT, Act::UseAt(2, INT)),
    Word::Let(11, STRING_TO_STRING, Act::UseAt(6, STRING)),
    Word::Ret(10),
    Word::End,
];

#[test]
fn what_is_in_a_copy_is_copied(rt: HostRuntime) -> Result<(), Fail> {
    assert_eq!(rt; answer_of(rt.alloc(), &EXCEPTION)?, Answer::Nodes(9));
    assert_eq!(rt; answer_of(rt.alloc(), &GROUP)?, Answer::Nodes(15));
    Ok(())
}

/// `LAYER (1, LAYER ((1, 1), END))`: the datatype at three types.
const DEPTHS: [Word; 10] = [
    Word::Int(1),
    Word::Let(2, INTS, Act::Record(INTS, (1, 1), (2, 1))),
    Word::Let(3, NEST_OF_FOUR, Act::Constructor(END, NEST_OF_FOUR)),
    Word::Let(4, LAYER_OF_INTS, Act::Record(LAYER_OF_INTS, (1, 2), (2, 3))),
    Word::Let(5, NEST_OF_INTS, Act::Construct(LAYER, NEST_OF_INTS, 4)),
    Word::Let(6, LAYER_OF_INT, Act::Record(LAYER_OF_INT, (1, 1), (2, 5))),
    Word::Let(7, NEST_OF_INT, Act::Construct(LAYER, NEST_OF_INT, 6)),
    Word::Counted(2),
    Word::Ret(7),
    Word::End,
];

/// Equality at that datatype, which needs it at pairs, at pairs of these, and so on.
const ENDLESS: [Word; 4] = [
    Word::Let(
        1,
        NESTS_TO_TRUTH,
        Act::Primitive(BasisPrimitive::Equals, NEST_OF_INT),
    ),
    Word::Counted(2),
    Word::Ret(1),
    Word::End,
];

#[test]
fn a_datatype_that_is_not_regular(rt: HostRuntime) -> Result<(), Fail> {
    assert_eq!(rt; answer_of(rt.alloc(), &DEPTHS)?, Answer::Nodes(2));
    assert_eq!(rt; answer_of(rt.alloc(), &ENDLESS)?, Answer::TooLarge);
    Ok(())
}
