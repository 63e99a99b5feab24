// Programs that are well formed, one for each construct.

use crate::asked::wrong;
use ir_tables::tables::Constant;
use ir_uses::constructor::{CONS, NIL};
use mlc_base::memory::NoMemory;
use mlc_prims::basis::BasisPrimitive;
use plain_tree::tree::{Case, Exception, Parameter};
use std::alloc::Global;
use std::test::Fail;
use tests_given::given::*;
use tests_words::words::{Act, Word, YES};

/// The variable 3, an integer.
const THIRD: Parameter = Parameter {
    variable: 3,
    ty: INT,
};

const OPERATIONS: [Word; 46] = [
    // constants and uses
    Word::Int(1),
    Word::Let(2, STRING, Act::Constant(Constant::Text(0))),
    Word::Let(3, INT, Act::Use(1)),
    Word::Ret(3),
    Word::End,
    YES,
    // a constructor alone, as a function, and with its argument
    Word::Int(1),
    Word::Let(2, THING, Act::Constructor(DOT, THING)),
    Word::Let(3, INT_TO_THING, Act::Constructor(BOX, THING)),
    Word::Let(4, THING, Act::Construct(BOX, THING, 1)),
    Word::Ret(4),
    Word::End,
    YES,
    // references
    Word::Int(1),
    Word::Let(2, INT_TO_REF, Act::Reference(INT)),
    Word::Let(3, INT_REF, Act::Refer(INT, 1)),
    Word::Let(4, INT, Act::Content(INT, 3)),
    Word::Ret(4),
    Word::End,
    YES,
    // records
    Word::Int(1),
    Word::Let(2, INTS, Act::Record(INTS, (1, 1), (2, 1))),
    Word::Let(3, INT, Act::Select(INTS, 2, 2)),
    Word::Ret(3),
    Word::End,
    YES,
    // lists
    Word::Int(1),
    Word::Let(2, INT_LIST, Act::Constructor(NIL, INT_LIST)),
    Word::Let(3, CELL, Act::Record(CELL, (1, 1), (2, 2))),
    Word::Let(4, INT_LIST, Act::Construct(CONS, INT_LIST, 3)),
    Word::Ret(4),
    Word::End,
    YES,
    // primitives
    Word::Int(1),
    Word::Let(2, INTS_TO_INT, Act::Primitive(BasisPrimitive::Add, INT)),
    Word::Let(3, INT, Act::Perform(BasisPrimitive::Add, INT, 1)),
    Word::Let(4, TRUTH, Act::Perform(BasisPrimitive::Equals, INT, 1)),
    Word::Ret(4),
    Word::End,
    YES,
    // exceptions of the basis
    Word::Name(2, Exception::Initial(6)),
    Word::Let(3, EXN, Act::Use(2)),
    Word::Let(4, INT, Act::RaiseInitial(6)),
    Word::Ret(4),
    Word::End,
    YES,
];

const FUNCTIONS: [Word; 48] = [
    // a function that is applied
    Word::Ret(3),
    Word::Int(1),
    Word::Fn(2, INT_TO_INT, 3, INT),
    Word::Let(4, INT, Act::Apply(2, 1)),
    Word::Ret(4),
    Word::End,
    YES,
    // a function of two parameters that gives the first
    Word::Let(5, INT, Act::Use(3)),
    Word::Ret(5),
    Word::End,
    Word::More(3, INT),
    Word::Fn(2, CURRIED, 4, INT),
    Word::Ret(2),
    Word::End,
    YES,
    // an identity at an instance
    Word::Ret(3),
    Word::Over(ANY),
    Word::Fn(2, A_TO_A, 3, A),
    Word::Int(1),
    Word::Let(4, INT_TO_INT, Act::UseAt(2, INT)),
    Word::Let(5, INT, Act::Apply(4, 1)),
    Word::Ret(5),
    Word::End,
    YES,
    // an instance that admits equality
    Word::Ret(3),
    Word::Over(EQUAL),
    Word::Fn(2, A_TO_A, 3, A),
    Word::Let(4, INT_TO_INT, Act::UseAt(2, INT)),
    Word::Ret(4),
    Word::End,
    YES,
    // equality at a parameter
    Word::Over(EQUAL),
    Word::Let(
        1,
        PAIR_OF_A_TO_TRUTH,
        Act::Primitive(BasisPrimitive::Equals, A),
    ),
    Word::Int(2),
    Word::Ret(2),
    Word::End,
    YES,
    // a group whose function calls itself
    Word::Let(4, INT_TO_INT, Act::Use(2)),
    Word::Let(5, INT, Act::Apply(4, 3)),
    Word::Ret(5),
    Word::End,
    Word::Member(2, INT_TO_INT, 3, INT),
    Word::Int(1),
    Word::Group(NONE),
    Word::Let(6, INT, Act::Apply(2, 1)),
    Word::Ret(6),
    Word::End,
    YES,
];

const BLOCKS: [Word; 50] = [
    // a block
    Word::Int(3),
    Word::Ret(3),
    Word::End,
    Word::Block(2, INT),
    Word::Ret(2),
    Word::End,
    YES,
    // a generalised group
    Word::Let(4, A_TO_A, Act::Use(2)),
    Word::Let(5, A, Act::Apply(4, 3)),
    Word::Ret(5),
    Word::End,
    Word::Member(2, A_TO_A, 3, A),
    Word::Group(ANY),
    Word::Let(6, INT_TO_INT, Act::UseAt(2, INT)),
    Word::Ret(6),
    Word::End,
    YES,
    // a handler that raises the packet again
    Word::Ret(1),
    Word::Let(4, INT, Act::Raise(3)),
    Word::Ret(4),
    Word::End,
    Word::Int(1),
    Word::Handle(2, INT, 3),
    Word::Ret(2),
    Word::End,
    YES,
    // a packet
    Word::Int(1),
    Word::Exception(2, Some(INT)),
    Word::Let(3, EXN, Act::Pack(INT, 2, 1)),
    Word::Let(4, INT, Act::Raise(3)),
    Word::Ret(4),
    Word::End,
    YES,
    // an exception as a value
    Word::Exception(2, Some(INT)),
    Word::Let(3, INT_TO_EXN, Act::Use(2)),
    Word::Ret(3),
    Word::End,
    YES,
    // a handler that tests the packet
    Word::Ret(1),
    Word::Test(
        5,
        EXN,
        Case::ExceptionOf {
            exception: 2,
            argument: Parameter {
                variable: 6,
                ty: INT,
            },
        },
    ),
    Word::Ret(6),
    Word::End,
    Word::Ret(1),
    Word::First,
    Word::Int(1),
    Word::Exception(2, Some(INT)),
    Word::Handle(4, INT, 5),
    Word::Ret(4),
    Word::End,
    YES,
];

const TESTS: [Word; 54] = [
    // of a constant
    Word::Test(1, INT, Case::Constant(Constant::Int(7))),
    Word::Ret(1),
    Word::End,
    Word::Ret(1),
    Word::First,
    Word::Int(1),
    Word::Counted(2),
    Word::End,
    YES,
    // of a constructor with an argument
    Word::Test(
        2,
        THING,
        Case::ConstructorOf {
            constructor: BOX,
            argument: THIRD,
        },
    ),
    Word::Ret(3),
    Word::End,
    Word::Ret(1),
    Word::First,
    Word::Int(1),
    Word::Let(2, THING, Act::Construct(BOX, THING, 1)),
    Word::End,
    YES,
    // of a constructor alone
    Word::Test(2, THING, Case::Constructor(DOT)),
    Word::Ret(1),
    Word::End,
    Word::Ret(1),
    Word::First,
    Word::Int(1),
    Word::Let(2, THING, Act::Constructor(DOT, THING)),
    Word::End,
    YES,
    // of a record
    Word::Test(2, INTS, Case::Record(Some(2))),
    Word::Ret(1),
    Word::End,
    Word::Ret(1),
    Word::First,
    Word::Int(1),
    Word::Let(2, INTS, Act::Record(INTS, (1, 1), (2, 1))),
    Word::End,
    YES,
    // with a further arm
    Word::Ret(1),
    Word::Arm(Case::Constant(Constant::Int(8))),
    Word::Test(1, INT, Case::Constant(Constant::Int(7))),
    Word::Ret(1),
    Word::End,
    Word::Ret(1),
    Word::First,
    Word::Int(1),
    Word::End,
    YES,
    // a switch
    Word::Ret(1),
    Word::Arm(Case::Constant(Constant::Int(8))),
    Word::Switch(1, INT),
    Word::Ret(1),
    Word::First,
    Word::Int(1),
    Word::End,
    YES,
];

fn wrong_operations(alloc: Global) -> Result<Option<usize>, NoMemory> {
    wrong(alloc, &OPERATIONS)
}

#[test]
fn operations(rt: HostRuntime) -> Result<(), Fail> {
    assert_eq!(rt; wrong_operations(rt.alloc())?, None);
    Ok(())
}

fn wrong_functions(alloc: Global) -> Result<Option<usize>, NoMemory> {
    wrong(alloc, &FUNCTIONS)
}

#[test]
fn functions(rt: HostRuntime) -> Result<(), Fail> {
    assert_eq!(rt; wrong_functions(rt.alloc())?, None);
    Ok(())
}

fn wrong_blocks(alloc: Global) -> Result<Option<usize>, NoMemory> {
    wrong(alloc, &BLOCKS)
}

#[test]
fn blocks(rt: HostRuntime) -> Result<(), Fail> {
    assert_eq!(rt; wrong_blocks(rt.alloc())?, None);
    Ok(())
}

fn wrong_tests(alloc: Global) -> Result<Option<usize>, NoMemory> {
    wrong(alloc, &TESTS)
}

#[test]
fn tests(rt: HostRuntime) -> Result<(), Fail> {
    assert_eq!(rt; wrong_tests(rt.alloc())?, None);
    Ok(())
}
