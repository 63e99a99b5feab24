// Programs that are not well formed, one or more for each rule. Each is refused for the one thing that its line says.

use crate::asked::{Answer, Given, USUAL, answered, wrong};
use ir_tables::tables::Constant;
use ir_uses::constructor::{NIL, TRUE};
use mlc_base::memory::NoMemory;
use mlc_prims::basis::BasisPrimitive;
use mlc_runs::pass::Check;
use plain_tree::tree::{Case, Exception};
use std::alloc::Global;
use std::test::Fail;
use tests_given::given::*;
use tests_words::words::{Act, NO, Text, Word};
use ty_core::name::{Equality, TyName};

const VARIABLES: [Word; 44] = [
    // unbound, as an atom and in use
    Word::Ret(9),
    NO,
    Word::Let(2, INT, Act::Use(9)),
    Word::Ret(2),
    Word::End,
    NO,
    // bound twice in a row
    Word::Int(1),
    Word::Int(1),
    Word::Ret(1),
    Word::End,
    NO,
    // bound in two blocks
    Word::Int(4),
    Word::Ret(4),
    Word::End,
    Word::Int(4),
    Word::Ret(4),
    Word::End,
    Word::Block(2, INT),
    Word::Block(3, INT),
    Word::Ret(3),
    Word::End,
    NO,
    // bound by a block and used behind it
    Word::Int(3),
    Word::Ret(3),
    Word::End,
    Word::Block(2, INT),
    Word::Ret(3),
    Word::End,
    NO,
    // an atom of the function around
    Word::Ret(1),
    Word::Int(1),
    Word::Fn(2, INT_TO_INT, 3, INT),
    Word::Ret(2),
    Word::End,
    NO,
    // an integer as a text
    Word::Let(2, STRING, Act::Constant(Constant::Int(7))),
    Word::Ret(2),
    Word::End,
    NO,
    Word::Int(1),
    Word::Let(2, STRING, Act::Use(1)),
    Word::Ret(2),
    Word::End,
    NO,
];

const ARGUMENTS: [Word; 61] = [
    // of a function
    Word::Ret(3),
    Word::Let(1, STRING, Act::Constant(Constant::Text(0))),
    Word::Fn(2, INT_TO_INT, 3, INT),
    Word::Let(4, INT, Act::Apply(2, 1)),
    Word::Ret(4),
    Word::End,
    NO,
    // of a parameter's type
    Word::Ret(1),
    Word::Fn(2, INT_TO_INT, 3, STRING),
    Word::Ret(2),
    Word::End,
    NO,
    // of a primitive: two texts, and one integer too many
    Word::Let(1, STRING, Act::Constant(Constant::Text(0))),
    Word::Let(2, INT, Act::Perform(BasisPrimitive::Add, INT, 1)),
    Word::Ret(2),
    Word::End,
    NO,
    Word::Int(1),
    Word::Let(2, INT, Act::Perform(BasisPrimitive::Absolute, INT, 1)),
    Word::Ret(2),
    Word::End,
    NO,
    // a constructor of another datatype, and a value of another
    Word::Let(2, THING, Act::Constructor(NIL, THING)),
    Word::Ret(2),
    Word::End,
    NO,
    Word::Let(2, INT, Act::Constructor(TRUE, TRUTH)),
    Word::Ret(2),
    Word::End,
    NO,
    // an argument of a constructor without one
    Word::Int(1),
    Word::Let(2, THING, Act::Construct(DOT, THING, 1)),
    Word::Ret(2),
    Word::End,
    NO,
    // fields in another order, and of other labels
    Word::Int(1),
    Word::Let(2, INTS, Act::Record(INTS, (2, 1), (1, 1))),
    Word::Ret(2),
    Word::End,
    NO,
    Word::Int(1),
    Word::Let(2, INTS, Act::Record(INTS, (1, 1), (3, 1))),
    Word::Ret(2),
    Word::End,
    NO,
    // a field that isn't there
    Word::Int(1),
    Word::Let(2, INTS, Act::Record(INTS, (1, 1), (2, 1))),
    Word::Let(3, INT, Act::Select(INTS, 3, 2)),
    Word::Ret(3),
    Word::End,
    NO,
    // what is held by no reference, and what a reference can't hold
    Word::Int(1),
    Word::Let(2, INT, Act::Content(INT, 1)),
    Word::Ret(2),
    Word::End,
    NO,
    Word::Int(1),
    Word::Let(2, INT_REF, Act::Refer(STRING, 1)),
    Word::Ret(2),
    Word::End,
    NO,
];

const INSTANCES: [Word; 76] = [
    // missing, another, and one too many
    Word::Ret(3),
    Word::Over(ANY),
    Word::Fn(2, A_TO_A, 3, A),
    Word::Let(4, INT_TO_INT, Act::Use(2)),
    Word::Ret(4),
    Word::End,
    NO,
    Word::Ret(3),
    Word::Over(ANY),
    Word::Fn(2, A_TO_A, 3, A),
    Word::Let(4, INT_TO_INT, Act::UseAt(2, STRING)),
    Word::Ret(4),
    Word::End,
    NO,
    Word::Ret(3),
    Word::Over(ANY),
    Word::Fn(2, A_TO_A, 3, A),
    Word::Let(4, INT_TO_INT, Act::UseAtTwo(2, INT, INT)),
    Word::Ret(4),
    Word::End,
    NO,
    // a parameter that isn't declared, one that escapes, and one of a class
    Word::Ret(3),
    Word::Fn(2, A_TO_A, 3, A),
    Word::Int(1),
    Word::Ret(1),
    Word::End,
    NO,
    Word::Ret(3),
    Word::Over(ANY),
    Word::Fn(2, A_TO_A, 3, A),
    Word::Let(4, A_TO_A, Act::UseAt(2, A)),
    Word::Ret(4),
    Word::End,
    NO,
    Word::Ret(3),
    Word::Over(CLASS),
    Word::Fn(2, A_TO_A, 3, A),
    Word::Int(1),
    Word::Ret(1),
    Word::End,
    NO,
    // a function where equality is asked for
    Word::Ret(3),
    Word::Over(EQUAL),
    Word::Fn(2, A_TO_A, 3, A),
    Word::Let(4, CURRIED, Act::UseAt(2, INT_TO_INT)),
    Word::Ret(4),
    Word::End,
    NO,
    // equality of functions, and of a parameter that doesn't ask for it
    Word::Let(
        2,
        PAIR_OF_FUNCTIONS_TO_TRUTH,
        Act::Primitive(BasisPrimitive::Equals, INT_TO_INT),
    ),
    Word::Ret(2),
    Word::End,
    NO,
    Word::Over(ANY),
    Word::Let(
        1,
        PAIR_OF_A_TO_TRUTH,
        Act::Primitive(BasisPrimitive::Equals, A),
    ),
    Word::Int(2),
    Word::Ret(2),
    Word::End,
    NO,
    // a sum of texts
    Word::Let(2, INTS_TO_INT, Act::Primitive(BasisPrimitive::Add, STRING)),
    Word::Ret(2),
    Word::End,
    NO,
    // generalised: a new reference, and a handler
    Word::Int(1),
    Word::Over(ANY),
    Word::Let(2, INT_REF, Act::Refer(INT, 1)),
    Word::Ret(1),
    Word::End,
    NO,
    Word::Ret(1),
    Word::Ret(1),
    Word::Int(1),
    Word::Over(ANY),
    Word::Handle(2, INT, 3),
    Word::Ret(1),
    Word::End,
    NO,
];

const MISSES: [Word; 45] = [
    // out of the program, and out of a function
    Word::Miss,
    NO,
    Word::Miss,
    Word::Int(1),
    Word::Fn(2, INT_TO_INT, 3, INT),
    Word::Ret(2),
    Word::End,
    NO,
    // a test and a switch that may miss
    Word::Int(1),
    Word::Test(1, INT, Case::Constant(Constant::Int(7))),
    Word::Ret(1),
    Word::End,
    NO,
    Word::Ret(1),
    Word::Arm(Case::Constant(Constant::Int(8))),
    Word::Switch(1, INT),
    Word::Int(1),
    Word::End,
    NO,
    // an arm of another type, and a case of another
    Word::Test(1, INT, Case::Constant(Constant::Int(7))),
    Word::Let(2, STRING, Act::Constant(Constant::Text(0))),
    Word::Ret(2),
    Word::End,
    Word::Ret(1),
    Word::First,
    Word::Int(1),
    Word::End,
    NO,
    Word::Test(1, INT, Case::Constant(Constant::Text(0))),
    Word::Ret(1),
    Word::End,
    Word::Ret(1),
    Word::First,
    Word::Int(1),
    Word::End,
    NO,
    // a tuple of three tested for one of two
    Word::Test(2, INTS, Case::Record(Some(3))),
    Word::Ret(1),
    Word::End,
    Word::Ret(1),
    Word::First,
    Word::Int(1),
    Word::Let(2, INTS, Act::Record(INTS, (1, 1), (2, 1))),
    Word::End,
    NO,
];

const PACKETS: [Word; 60] = [
    // what is no packet, no exception of the basis, no exception
    Word::Int(1),
    Word::Let(2, INT, Act::Raise(1)),
    Word::Ret(2),
    Word::End,
    NO,
    Word::Let(2, INT, Act::RaiseInitial(7)),
    Word::Ret(2),
    Word::End,
    NO,
    Word::Name(2, Exception::Initial(7)),
    Word::Int(1),
    Word::Ret(1),
    Word::End,
    NO,
    Word::Int(1),
    Word::Let(2, EXN, Act::Pack(INT, 1, 1)),
    Word::Ret(2),
    Word::End,
    NO,
    // an argument of a type that isn't in scope, and of another type
    Word::Int(1),
    Word::Exception(2, Some(A)),
    Word::Ret(1),
    Word::End,
    NO,
    Word::Int(1),
    Word::Exception(2, Some(STRING)),
    Word::Let(3, EXN, Act::Pack(INT, 2, 1)),
    Word::Ret(3),
    Word::End,
    NO,
    // an exception with an argument tested as one without
    Word::Ret(1),
    Word::Test(5, EXN, Case::Exception(2)),
    Word::Ret(5),
    Word::End,
    Word::Ret(1),
    Word::First,
    Word::Int(1),
    Word::Exception(2, Some(INT)),
    Word::Handle(4, INT, 5),
    Word::Ret(4),
    Word::End,
    NO,
    // functions of one name
    Word::Ret(3),
    Word::Member(2, INT_TO_INT, 3, INT),
    Word::Ret(4),
    Word::Member(2, INT_TO_INT, 4, INT),
    Word::Group(NONE),
    Word::Int(1),
    Word::Ret(1),
    Word::End,
    NO,
    // a function that is generalised inside its own group
    Word::Let(4, INT_TO_INT, Act::UseAt(2, INT)),
    Word::Ret(3),
    Word::End,
    Word::Member(2, A_TO_A, 3, A),
    Word::Group(ANY),
    Word::Int(1),
    Word::Ret(1),
    Word::End,
    NO,
];

fn wrong_variables(alloc: Global) -> Result<Option<usize>, NoMemory> {
    wrong(alloc, &VARIABLES)
}

#[test]
fn variables(rt: HostRuntime) -> Result<(), Fail> {
    assert_eq!(rt; wrong_variables(rt.alloc())?, None);
    Ok(())
}

fn wrong_arguments(alloc: Global) -> Result<Option<usize>, NoMemory> {
    wrong(alloc, &ARGUMENTS)
}

#[test]
fn arguments(rt: HostRuntime) -> Result<(), Fail> {
    assert_eq!(rt; wrong_arguments(rt.alloc())?, None);
    Ok(())
}

fn wrong_instances(alloc: Global) -> Result<Option<usize>, NoMemory> {
    wrong(alloc, &INSTANCES)
}

#[test]
fn instances(rt: HostRuntime) -> Result<(), Fail> {
    assert_eq!(rt; wrong_instances(rt.alloc())?, None);
    Ok(())
}

fn wrong_misses(alloc: Global) -> Result<Option<usize>, NoMemory> {
    wrong(alloc, &MISSES)
}

#[test]
fn misses(rt: HostRuntime) -> Result<(), Fail> {
    assert_eq!(rt; wrong_misses(rt.alloc())?, None);
    Ok(())
}

fn wrong_packets(alloc: Global) -> Result<Option<usize>, NoMemory> {
    wrong(alloc, &PACKETS)
}

#[test]
fn packets(rt: HostRuntime) -> Result<(), Fail> {
    assert_eq!(rt; wrong_packets(rt.alloc())?, None);
    Ok(())
}

const SIX_NAMES: Given = Given {
    datatype: None,
    initial: 6,
    fields: 0,
};

/// With a datatype of the basis, and with one that admits equality always.
const OF_THE_BASIS: Given = Given {
    datatype: Some(TyName {
        stamp: 7,
        arity: 0,
        equality: Equality::ByArguments,
    }),
    initial: 7,
    fields: 0,
};

const ALWAYS_EQUAL: Given = Given {
    datatype: Some(TyName {
        stamp: 21,
        arity: 0,
        equality: Equality::Always,
    }),
    initial: 7,
    fields: 0,
};

/// Tables, the number of the type of exceptions, and what the checker says of an integer over them.
const TABLES: [(Given, usize, Check); 5] = [
    (USUAL, EXN, Check::Yes),
    (SIX_NAMES, EXN, Check::No),
    (USUAL, INT, Check::No),
    (OF_THE_BASIS, EXN, Check::No),
    (ALWAYS_EQUAL, EXN, Check::No),
];

/// What is said of the program of these words.
fn answer_of(alloc: Global, words: &[Word], given: Given, exn: usize) -> Result<Answer, NoMemory> {
    let mut text = Text::new(alloc);
    text.put_all(alloc, words)?;
    Ok(answered(alloc, &mut text, given, exn))
}

/// The first tables over which the checker says something else.
fn wrong_tables(alloc: Global) -> Result<Option<usize>, NoMemory> {
    for i in 0..TABLES.len() {
        let (given, exn, wanted) = TABLES[i];
        let words = [Word::Int(1), Word::Ret(1), Word::End];
        let answer = answer_of(alloc, &words, given, exn)?;
        if answer.says != wanted {
            return Ok(Some(i));
        }
    }
    Ok(None)
}

#[test]
fn tables(rt: HostRuntime) -> Result<(), Fail> {
    assert_eq!(rt; wrong_tables(rt.alloc())?, None);
    Ok(())
}

/// How many nodes one integer and another one stand for, and whether each variable is bound once.
fn counted(alloc: Global, first: usize, second: usize) -> Result<(usize, bool), NoMemory> {
    let words = [
        Word::Int(first),
        Word::Counted(5),
        Word::Int(second),
        Word::Ret(first),
        Word::End,
    ];
    let answer = answer_of(alloc, &words, USUAL, EXN)?;
    Ok((answer.nodes, answer.once))
}

#[test]
fn nodes_and_binders(rt: HostRuntime) -> Result<(), Fail> {
    assert_eq!(rt; counted(rt.alloc(), 1, 2)?, (5, true));
    assert_eq!(rt; counted(rt.alloc(), 1, 1)?, (5, false));
    Ok(())
}
