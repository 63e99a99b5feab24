// Programs that are well formed, one or more for each construct.

use crate::asked::{INTS_TO_TRUTH, YES, wrong};
use ir_known::ask::BOOL;
use ir_tables::tables::Constant;
use ir_uses::constructor::{CONS, LIST, NIL, TRUE};
use mlc_names::label::Label;
use mlc_prims::basis::BasisPrimitive;
use prog_tree::tree::{Atom, Exception, Head, Pair, Side, Used};
use prog_words::expressions::Word;
use prog_words::make::Made;
use prog_words::patterns::Form;
use std::alloc::Global;
use std::test::Fail;
use tests_given::given::*;

const TEXT: Word = Word::Atom(Atom::Constant(Constant::Text(0)), STRING);

/// `true`
const YEA: Word = Word::Use(Used::Constructor(TRUE, BOOL), TRUTH);

const NO_THING: Word = Word::Use(Used::Constructor(DOT, THINGS), THING);

const IN_BOX: Word = Word::Use(Used::Constructor(BOX, THINGS), INT_TO_THING);

const LINKED: Word = Word::UseAt(Used::Constructor(CONS, LIST), INT, CELL_TO_INT_LIST);

const EMPTY: Word = Word::UseAt(Used::Constructor(NIL, LIST), INT, INT_LIST);

const NEW: Word = Word::Atom(Atom::Reference(INT), INT_TO_REF);

const ADD: Word = Word::UseAt(Used::Primitive(BasisPrimitive::Add), INT, INTS_TO_INT);

const EQUALS: Word = Word::UseAt(Used::Primitive(BasisPrimitive::Equals), INT, INTS_TO_TRUTH);

/// The second variable, as an integer and as of a parameter's type.
const SECOND: Word = Word::Use(Used::Variable(2), INT);

const SECOND_A: Word = Word::Use(Used::Variable(2), A);

/// The first and the second field of the next record, and the same of the next pattern.
const FIRST: Word = Word::Field(Label::Number(1));

const LAST: Word = Word::Field(Label::Number(2));

const FIRST_PAT: Word = Word::Pat(Form::Field(Label::Number(1), INT));

const LAST_PAT: Word = Word::Pat(Form::Field(Label::Number(2), INT));

const IS_ANY: Word = Word::Pat(Form::Any);

const IS_SECOND: Word = Word::Pat(Form::Variable(2));

const IS_THREE: Word = Word::Pat(Form::Constant(Constant::Int(3)));

/// The parts of a list's cell.
const CELLS: Pair = Pair {
    ty: CELL,
    left: INT,
    right: INT_LIST,
};

const LEAVES: [Word; 41] = [
    // constants
    Word::Three,
    Word::Plain(1, INT),
    YES,
    TEXT,
    Word::Plain(1, STRING),
    YES,
    // constructors: alone, as functions, and with arguments
    YEA,
    Word::Plain(1, TRUTH),
    YES,
    NO_THING,
    Word::Plain(1, THING),
    YES,
    IN_BOX,
    Word::Plain(1, INT_TO_THING),
    YES,
    Word::Three,
    Word::Argument(THING),
    IN_BOX,
    Word::Apply,
    Word::Plain(1, THING),
    YES,
    // of a datatype with two parameters
    TEXT,
    FIRST,
    Word::Three,
    LAST,
    Word::Record(STRING_INT),
    Word::Argument(INT_STRING),
    Word::UseAtTwo(
        Used::Constructor(SWAP, SWAPS),
        INT,
        STRING,
        STRING_INT_TO_INT_STRING,
    ),
    Word::Apply,
    Word::Plain(1, INT_STRING),
    YES,
    // a reference
    Word::Three,
    Word::Argument(INT_REF),
    NEW,
    Word::Apply,
    Word::Plain(1, INT_REF),
    YES,
    // an exception of the basis
    Word::Atom(Atom::Exception(Exception::Initial(6)), EXN),
    Word::Plain(1, EXN),
    YES,
    // no declaration
    YES,
];

const OPERATORS: [Word; 38] = [
    // a sum
    Word::Three,
    ADD,
    Word::Three,
    Word::Join(INTS, INT),
    Word::Infix(Side::Left),
    Word::Plain(1, INT),
    YES,
    // a list of two
    Word::Three,
    LINKED,
    Word::Three,
    Word::Join(CELL, INT_LIST),
    LINKED,
    EMPTY,
    Word::Join(CELL, INT_LIST),
    Word::Infix(Side::Right),
    Word::Plain(1, INT_LIST),
    YES,
    // integers compared
    Word::Three,
    FIRST,
    Word::Three,
    LAST,
    Word::Record(INTS),
    Word::Argument(TRUTH),
    EQUALS,
    Word::Apply,
    Word::Plain(1, TRUTH),
    YES,
    // a function of two parameters, with two arguments
    Word::Parameter(2, INT),
    SECOND,
    Word::Named(3, INT),
    Word::Three,
    Word::Argument(INT_TO_INT),
    Word::Three,
    Word::Argument(INT),
    Word::Fn(CURRIED),
    Word::Apply,
    Word::Plain(1, INT),
    YES,
];

const PHRASES: [Word; 54] = [
    // let
    Word::Three,
    Word::Plain(2, INT),
    SECOND,
    Word::Let(INT),
    Word::Plain(1, INT),
    YES,
    // case
    Word::Three,
    IS_THREE,
    Word::Three,
    Word::Rule,
    IS_SECOND,
    SECOND,
    Word::Rule,
    Word::Case(INT),
    Word::Plain(1, INT),
    YES,
    // a sequence
    YEA,
    Word::Before,
    Word::Three,
    Word::Sequence(INT),
    Word::Plain(1, INT),
    YES,
    // andalso and orelse
    YEA,
    Word::Before,
    YEA,
    Word::Test(true, TRUTH),
    Word::Plain(1, TRUTH),
    YES,
    YEA,
    Word::Before,
    YEA,
    Word::Before,
    YEA,
    Word::Test(false, TRUTH),
    Word::Plain(1, TRUTH),
    YES,
    // a raise has any type
    Word::Atom(Atom::Exception(Exception::Initial(0)), EXN),
    Word::Raise(INT_TO_INT),
    Word::Plain(1, INT_TO_INT),
    YES,
    // a handler
    Word::Three,
    Word::Pat(Form::Exception(Exception::Initial(2))),
    Word::Three,
    Word::Rule,
    IS_ANY,
    Word::Three,
    Word::Rule,
    Word::Handle(INT),
    Word::Plain(1, INT),
    YES,
    // what stands for further nodes
    Word::Three,
    Word::Counted(4, INT),
    Word::Plain(1, INT),
    YES,
];

const FUNCTIONS: [Word; 47] = [
    // fn x => x
    SECOND,
    Word::Named(2, INT),
    Word::Fn(INT_TO_INT),
    Word::Plain(1, INT_TO_INT),
    YES,
    // fn 3 => 3 | x => x
    IS_THREE,
    Word::Three,
    Word::Rule,
    IS_SECOND,
    SECOND,
    Word::Rule,
    Word::ByRules(INT, INT),
    Word::Fn(INT_TO_INT),
    Word::Plain(1, INT_TO_INT),
    YES,
    // fun f _ x = x
    Word::Parameter(3, INT),
    IS_SECOND,
    SECOND,
    Word::Rule,
    Word::ByRules(INT, INT),
    Word::Member(1, CURRIED),
    Word::Val(NONE),
    YES,
    // fun f x = f x
    SECOND,
    Word::Argument(INT),
    Word::Atom(Atom::Own(1), INT_TO_INT),
    Word::Apply,
    Word::Named(2, INT),
    Word::Member(1, INT_TO_INT),
    Word::Val(NONE),
    YES,
    // fun f x = g x and g y = f y
    SECOND,
    Word::Argument(INT),
    Word::Atom(Atom::Own(3), INT_TO_INT),
    Word::Apply,
    Word::Named(2, INT),
    Word::Member(1, INT_TO_INT),
    Word::Use(Used::Variable(4), INT),
    Word::Argument(INT),
    Word::Atom(Atom::Own(1), INT_TO_INT),
    Word::Apply,
    Word::Named(4, INT),
    Word::Member(3, INT_TO_INT),
    Word::Val(NONE),
    Word::Three,
    Word::Plain(5, INT),
    YES,
];

const GENERAL: [Word; 36] = [
    // val f = fn x => x, and f 3
    SECOND_A,
    Word::Named(2, A),
    Word::Fn(A_TO_A),
    Word::Pat(Form::Variable(1)),
    Word::Bind(true, A_TO_A),
    Word::Val(ANY),
    Word::Three,
    Word::Argument(INT),
    Word::UseAt(Used::Variable(1), INT, INT_TO_INT),
    Word::Apply,
    Word::Plain(3, INT),
    YES,
    // fun f x = x, and f at functions
    SECOND_A,
    Word::Named(2, A),
    Word::Member(1, A_TO_A),
    Word::Val(ANY),
    Word::UseAt(Used::Variable(1), INT_TO_INT, TRANSFORMER),
    Word::Plain(3, TRANSFORMER),
    YES,
    // equality over a parameter that has it
    Word::UseAt(
        Used::Primitive(BasisPrimitive::Equals),
        A,
        PAIR_OF_A_TO_TRUTH,
    ),
    Word::Pat(Form::Variable(1)),
    Word::Bind(true, PAIR_OF_A_TO_TRUTH),
    Word::Val(EQUAL),
    Word::UseAt(Used::Variable(1), INT, INTS_TO_TRUTH),
    Word::Plain(3, INTS_TO_TRUTH),
    YES,
    // bindings that are declared together, and not generalised
    Word::Three,
    IS_SECOND,
    Word::Bind(false, INT),
    Word::Three,
    IS_THREE,
    Word::Bind(false, INT),
    Word::Val(NONE),
    SECOND,
    Word::Plain(1, INT),
    YES,
];

const EXCEPTIONS: [Word; 25] = [
    // exception e of int, raised and handled
    Word::Exception(1, Some(INT)),
    Word::Three,
    Word::Argument(EXN),
    Word::Atom(Atom::Exception(Exception::Held(1)), INT_TO_EXN),
    Word::Apply,
    Word::Raise(INT),
    IS_SECOND,
    Word::Pat(Form::Before(Head::Exception(Exception::Held(1)), INT)),
    SECOND,
    Word::Rule,
    Word::Handle(INT),
    Word::Plain(3, INT),
    YES,
    // without argument
    Word::Exception(1, None),
    Word::Atom(Atom::Exception(Exception::Held(1)), EXN),
    Word::Plain(3, EXN),
    Word::Three,
    Word::Pat(Form::Exception(Exception::Held(1))),
    Word::Three,
    Word::Rule,
    Word::Handle(INT),
    Word::Plain(4, INT),
    YES,
    // a weight
    Word::Weight(5),
    YES,
];

const PATTERNS: [Word; 62] = [
    // constructors, alone and before an argument
    NO_THING,
    Word::Pat(Form::Constructor(DOT)),
    Word::Three,
    Word::Rule,
    IS_SECOND,
    Word::Pat(Form::Before(Head::Constructor(BOX), INT)),
    SECOND,
    Word::Rule,
    Word::Case(INT),
    Word::Plain(1, INT),
    YES,
    // ref x
    Word::Three,
    Word::Argument(INT_REF),
    NEW,
    Word::Apply,
    IS_SECOND,
    Word::Pat(Form::Before(Head::Reference, INT)),
    SECOND,
    Word::Rule,
    Word::Case(INT),
    Word::Plain(1, INT),
    YES,
    // (x, _) and {2 = 3, ..}
    Word::Three,
    FIRST,
    Word::Three,
    LAST,
    Word::Record(INTS),
    IS_SECOND,
    FIRST_PAT,
    IS_ANY,
    LAST_PAT,
    Word::Pat(Form::Record(false)),
    SECOND,
    Word::Rule,
    IS_THREE,
    LAST_PAT,
    Word::Pat(Form::Record(true)),
    Word::Three,
    Word::Rule,
    Word::Case(INT),
    Word::Plain(1, INT),
    YES,
    // x as 3
    Word::Three,
    IS_THREE,
    Word::Pat(Form::As(2)),
    SECOND,
    Word::Rule,
    Word::Case(INT),
    Word::Plain(1, INT),
    YES,
    // 3 :: x :: nil
    EMPTY,
    IS_THREE,
    IS_SECOND,
    Word::Pat(Form::Part(Head::Constructor(CONS), CELLS)),
    Word::Pat(Form::Constructor(NIL)),
    Word::Pat(Form::Part(Head::Constructor(CONS), CELLS)),
    Word::Pat(Form::Chain(Side::Right)),
    SECOND,
    Word::Rule,
    Word::Case(INT),
    Word::Plain(1, INT),
    YES,
];

fn wrong_leaves(alloc: Global) -> Made<Option<usize>> {
    wrong(alloc, &LEAVES)
}

#[test]
fn leaves(rt: HostRuntime) -> Result<(), Fail> {
    assert_eq!(rt; wrong_leaves(rt.alloc())?, None);
    Ok(())
}

fn wrong_operators(alloc: Global) -> Made<Option<usize>> {
    wrong(alloc, &OPERATORS)
}

#[test]
fn operators(rt: HostRuntime) -> Result<(), Fail> {
    assert_eq!(rt; wrong_operators(rt.alloc())?, None);
    Ok(())
}

fn wrong_phrases(alloc: Global) -> Made<Option<usize>> {
    wrong(alloc, &PHRASES)
}

#[test]
fn phrases(rt: HostRuntime) -> Result<(), Fail> {
    assert_eq!(rt; wrong_phrases(rt.alloc())?, None);
    Ok(())
}

fn wrong_functions(alloc: Global) -> Made<Option<usize>> {
    wrong(alloc, &FUNCTIONS)
}

#[test]
fn functions(rt: HostRuntime) -> Result<(), Fail> {
    assert_eq!(rt; wrong_functions(rt.alloc())?, None);
    Ok(())
}

fn wrong_general(alloc: Global) -> Made<Option<usize>> {
    wrong(alloc, &GENERAL)
}

#[test]
fn general(rt: HostRuntime) -> Result<(), Fail> {
    assert_eq!(rt; wrong_general(rt.alloc())?, None);
    Ok(())
}

fn wrong_exceptions(alloc: Global) -> Made<Option<usize>> {
    wrong(alloc, &EXCEPTIONS)
}

#[test]
fn exceptions(rt: HostRuntime) -> Result<(), Fail> {
    assert_eq!(rt; wrong_exceptions(rt.alloc())?, None);
    Ok(())
}

fn wrong_patterns(alloc: Global) -> Made<Option<usize>> {
    wrong(alloc, &PATTERNS)
}

#[test]
fn patterns(rt: HostRuntime) -> Result<(), Fail> {
    assert_eq!(rt; wrong_patterns(rt.alloc())?, None);
    Ok(())
}
