// Programs that are not well formed, one or more for each rule. Each is refused for the one thing that its line says.

use crate::asked::{Given, INTS_TO_TRUTH, NO, USUAL, answered, wrong};
use ir_known::ask::BOOL;
use ir_tables::tables::Constant;
use ir_uses::constructor::{CONS, LIST, NIL, TRUE};
use mlc_names::label::Label;
use mlc_prims::basis::BasisPrimitive;
use mlc_runs::pass::Check;
use prog_tree::tree::{Atom, Exception, Head, Pair, Side, Used};
use prog_words::expressions::Word;
use prog_words::make::Made;
use prog_words::patterns::Form;
use std::alloc::Global;
use std::test::Fail;
use tests_given::given::*;
use ty_core::name::{Equality, TyName};

const TEXT: Word = Word::Atom(Atom::Constant(Constant::Text(0)), STRING);

/// `true`
const YEA: Word = Word::Use(Used::Constructor(TRUE, BOOL), TRUTH);

/// An exception of the basis.
const MATCH: Word = Word::Atom(Atom::Exception(Exception::Initial(0)), EXN);

const ADD: Word = Word::UseAt(Used::Primitive(BasisPrimitive::Add), INT, INTS_TO_INT);

/// The second variable, as an integer and as of a parameter's type.
const SECOND: Word = Word::Use(Used::Variable(2), INT);

const SECOND_A: Word = Word::Use(Used::Variable(2), A);

/// The first and the second field of the next record, and the same of the next pattern.
const FIRST: Word = Word::Field(Label::Number(1));

const LAST: Word = Word::Field(Label::Number(2));

const LAST_PAT: Word = Word::Pat(Form::Field(Label::Number(2), INT));

const IS_ANY: Word = Word::Pat(Form::Any);

const IS_FIRST: Word = Word::Pat(Form::Variable(1));

const IS_SECOND: Word = Word::Pat(Form::Variable(2));

const IS_THREE: Word = Word::Pat(Form::Constant(Constant::Int(3)));

/// The parts of a list's cell, and others.
const CELLS: Pair = Pair {
    ty: CELL,
    left: INT,
    right: INT_LIST,
};

const OTHER_CELLS: Pair = Pair {
    ty: CELL,
    left: INT_LIST,
    right: INT,
};

const VARIABLES: [Word; 58] = [
    // unbound
    Word::Use(Used::Variable(9), INT),
    Word::Plain(1, INT),
    NO,
    // after its scope
    Word::Three,
    Word::Plain(2, INT),
    Word::Three,
    Word::Let(INT),
    Word::Plain(1, INT),
    SECOND,
    Word::Plain(3, INT),
    NO,
    // in its own binding
    Word::Use(Used::Variable(1), INT),
    Word::Plain(1, INT),
    NO,
    // bound twice, in a row, in one pattern, and in two branches
    Word::Three,
    Word::Plain(1, INT),
    Word::Three,
    Word::Plain(1, INT),
    NO,
    Word::Three,
    IS_FIRST,
    Word::Pat(Form::As(1)),
    Word::Bind(false, INT),
    Word::Val(NONE),
    NO,
    Word::Three,
    IS_SECOND,
    Word::Three,
    Word::Rule,
    IS_SECOND,
    Word::Three,
    Word::Rule,
    Word::Case(INT),
    Word::Plain(1, INT),
    NO,
    // of another type
    Word::Three,
    Word::Plain(1, INT),
    Word::Use(Used::Variable(1), TRUTH),
    Word::Plain(2, TRUTH),
    NO,
    // a rule's in the next rule
    Word::Three,
    IS_SECOND,
    Word::Three,
    Word::Rule,
    IS_ANY,
    SECOND,
    Word::Rule,
    Word::Case(INT),
    Word::Plain(1, INT),
    NO,
    // of a binding, in the one beside it
    Word::Three,
    IS_SECOND,
    Word::Bind(false, INT),
    SECOND,
    IS_FIRST,
    Word::Bind(false, INT),
    Word::Val(NONE),
    NO,
];

const ARGUMENTS: [Word; 54] = [
    // a constant of another type
    Word::Atom(Atom::Constant(Constant::Int(3)), STRING),
    Word::Plain(1, STRING),
    NO,
    // a sum of one integer, and of an integer and a text
    Word::Three,
    Word::Argument(INT),
    ADD,
    Word::Apply,
    Word::Plain(1, INT),
    NO,
    Word::Three,
    ADD,
    TEXT,
    Word::Join(INTS, INT),
    Word::Infix(Side::Left),
    Word::Plain(1, INT),
    NO,
    // what is no function
    Word::Three,
    Word::Argument(INT),
    Word::Three,
    Word::Apply,
    Word::Plain(1, INT),
    NO,
    // another result than the function's
    Word::Three,
    Word::Argument(STRING),
    SECOND,
    Word::Named(2, INT),
    Word::Fn(INT_TO_INT),
    Word::Apply,
    Word::Plain(1, STRING),
    NO,
    // a field of another type, and a label twice
    Word::Three,
    FIRST,
    TEXT,
    LAST,
    Word::Record(INTS),
    Word::Plain(1, INTS),
    NO,
    Word::Three,
    FIRST,
    Word::Three,
    FIRST,
    Word::Record(INTS),
    Word::Plain(1, INTS),
    NO,
    // functions: another parameter, another result
    Word::Three,
    Word::Named(2, TRUTH),
    Word::Fn(INT_TO_INT),
    Word::Plain(1, INT_TO_INT),
    NO,
    TEXT,
    Word::Named(2, INT),
    Word::Fn(INT_TO_INT),
    Word::Plain(1, INT_TO_INT),
    NO,
];

const INSTANCES: [Word; 72] = [
    // missing, another, and one too many
    SECOND_A,
    Word::Named(2, A),
    Word::Member(1, A_TO_A),
    Word::Val(ANY),
    Word::Use(Used::Variable(1), INT_TO_INT),
    Word::Plain(3, INT_TO_INT),
    NO,
    SECOND_A,
    Word::Named(2, A),
    Word::Member(1, A_TO_A),
    Word::Val(ANY),
    Word::UseAt(Used::Variable(1), TRUTH, INT_TO_INT),
    Word::Plain(3, INT_TO_INT),
    NO,
    SECOND_A,
    Word::Named(2, A),
    Word::Member(1, A_TO_A),
    Word::Val(ANY),
    Word::UseAtTwo(Used::Variable(1), INT, INT, INT_TO_INT),
    Word::Plain(3, INT_TO_INT),
    NO,
    // generalised though no value
    MATCH,
    Word::Raise(A_TO_A),
    IS_FIRST,
    Word::Bind(true, A_TO_A),
    Word::Val(ANY),
    NO,
    // a parameter that escapes: not generalised, and in an exception
    SECOND_A,
    Word::Named(2, A),
    Word::Fn(A_TO_A),
    IS_FIRST,
    Word::Bind(false, A_TO_A),
    Word::Val(ANY),
    NO,
    Word::Exception(1, Some(A)),
    NO,
    // declared inside itself, and one of a class
    SECOND_A,
    Word::Named(2, A),
    Word::Member(1, A_TO_A),
    Word::Val(ANY),
    Word::Use(Used::Variable(3), A),
    Word::Let(A),
    Word::Named(3, A),
    Word::Member(4, A_TO_A),
    Word::Val(ANY),
    NO,
    SECOND_A,
    Word::Named(2, A),
    Word::Member(1, A_TO_A),
    Word::Val(CLASS),
    NO,
    // equality of functions, of a parameter that does not ask for it, and an instance that does not admit it
    Word::UseAt(
        Used::Primitive(BasisPrimitive::Equals),
        INT_TO_INT,
        PAIR_OF_FUNCTIONS_TO_TRUTH,
    ),
    Word::Plain(1, PAIR_OF_FUNCTIONS_TO_TRUTH),
    NO,
    Word::UseAt(
        Used::Primitive(BasisPrimitive::Equals),
        A,
        PAIR_OF_A_TO_TRUTH,
    ),
    IS_FIRST,
    Word::Bind(true, PAIR_OF_A_TO_TRUTH),
    Word::Val(ANY),
    NO,
    SECOND_A,
    Word::Named(2, A),
    Word::Member(1, A_TO_A),
    Word::Val(EQUAL),
    Word::UseAt(Used::Variable(1), INT_TO_INT, TRANSFORMER),
    Word::Plain(3, TRANSFORMER),
    NO,
    // a sum of texts
    Word::UseAt(Used::Primitive(BasisPrimitive::Add), STRING, INTS_TO_INT),
    Word::Plain(1, INTS_TO_INT),
    NO,
    // equality of integers as of texts
    Word::UseAt(
        Used::Primitive(BasisPrimitive::Equals),
        STRING,
        INTS_TO_TRUTH,
    ),
    Word::Plain(1, INTS_TO_TRUTH),
    NO,
];

const GROUPS: [Word; 33] = [
    // a function inside its group at another type, and as a generalised one
    Word::Atom(Atom::Own(1), A_TO_A),
    Word::Named(2, INT),
    Word::Member(1, CURRIED),
    Word::Val(NONE),
    NO,
    Word::UseAt(Used::Variable(1), A, A_TO_A),
    Word::Before,
    SECOND_A,
    Word::Sequence(A),
    Word::Named(2, A),
    Word::Member(1, A_TO_A),
    Word::Val(ANY),
    NO,
    // as one of its group outside
    SECOND,
    Word::Named(2, INT),
    Word::Member(1, INT_TO_INT),
    Word::Val(NONE),
    Word::Atom(Atom::Own(1), INT_TO_INT),
    Word::Plain(3, INT_TO_INT),
    NO,
    // two functions of one name
    SECOND,
    Word::Named(2, INT),
    Word::Member(1, INT_TO_INT),
    Word::Use(Used::Variable(3), INT),
    Word::Named(3, INT),
    Word::Member(1, INT_TO_INT),
    Word::Val(NONE),
    NO,
    // a function that is not of its type
    SECOND,
    Word::Named(2, INT),
    Word::Member(1, CURRIED),
    Word::Val(NONE),
    NO,
];

const CONSTRUCTORS: [Word; 33] = [
    // unknown, of another datatype, with its argument missing, and at another type
    Word::Use(Used::Constructor(299, THINGS), THING),
    Word::Plain(1, THING),
    NO,
    Word::Use(Used::Constructor(DOT, BOOL), TRUTH),
    Word::Plain(1, TRUTH),
    NO,
    Word::Use(Used::Constructor(BOX, THINGS), THING),
    Word::Plain(1, THING),
    NO,
    Word::UseAt(Used::Constructor(NIL, LIST), TRUTH, INT_LIST),
    Word::Plain(1, INT_LIST),
    NO,
    // without the arguments of its datatype, and in another order
    Word::Use(Used::Constructor(NIL, LIST), INT_LIST),
    Word::Plain(1, INT_LIST),
    NO,
    Word::UseAtTwo(
        Used::Constructor(SWAP, SWAPS),
        STRING,
        INT,
        STRING_INT_TO_INT_STRING,
    ),
    Word::Plain(1, STRING_INT_TO_INT_STRING),
    NO,
    // an exception of no number, one without its argument, and one that is no exception
    Word::Atom(Atom::Exception(Exception::Initial(7)), EXN),
    Word::Plain(1, EXN),
    NO,
    Word::Exception(1, Some(INT)),
    Word::Atom(Atom::Exception(Exception::Held(1)), EXN),
    Word::Plain(2, EXN),
    NO,
    Word::Three,
    Word::Plain(1, INT),
    Word::Atom(Atom::Exception(Exception::Held(1)), EXN),
    Word::Plain(2, EXN),
    NO,
    // a reference of another type
    Word::Atom(Atom::Reference(TRUTH), INT_TO_REF),
    Word::Plain(1, INT_TO_REF),
    NO,
];

const PHRASES: [Word; 56] = [
    // rules of different types
    Word::Three,
    IS_THREE,
    Word::Three,
    Word::Rule,
    IS_ANY,
    TEXT,
    Word::Rule,
    Word::Case(INT),
    Word::Plain(1, INT),
    NO,
    // tests of integers, of which one is of another type
    YEA,
    Word::Before,
    Word::Three,
    Word::Test(true, TRUTH),
    Word::Plain(1, TRUTH),
    NO,
    Word::Three,
    Word::Before,
    YEA,
    Word::Test(false, TRUTH),
    Word::Plain(1, TRUTH),
    NO,
    // a sequence, a let and further nodes of another type
    Word::Three,
    Word::Before,
    Word::Three,
    Word::Sequence(TRUTH),
    Word::Plain(1, TRUTH),
    NO,
    Word::Three,
    Word::Plain(2, INT),
    Word::Three,
    Word::Let(TRUTH),
    Word::Plain(1, TRUTH),
    NO,
    Word::Three,
    Word::Counted(4, TRUTH),
    Word::Plain(1, TRUTH),
    NO,
    // a packet that is none, and handlers of another type and of other values
    Word::Three,
    Word::Raise(INT),
    Word::Plain(1, INT),
    NO,
    Word::Three,
    IS_SECOND,
    Word::Use(Used::Variable(2), EXN),
    Word::Rule,
    Word::Handle(INT),
    Word::Plain(1, INT),
    NO,
    Word::Three,
    IS_THREE,
    Word::Three,
    Word::Rule,
    Word::Handle(INT),
    Word::Plain(1, INT),
    NO,
];

const PATTERNS: [Word; 67] = [
    // a constant of another type
    Word::Three,
    Word::Pat(Form::Constant(Constant::Char(4))),
    Word::Three,
    Word::Rule,
    Word::Case(INT),
    Word::Plain(1, INT),
    NO,
    // a constructor without its argument, with one that it has not, and with one of another type
    Word::Use(Used::Constructor(DOT, THINGS), THING),
    Word::Pat(Form::Constructor(BOX)),
    Word::Three,
    Word::Rule,
    Word::Case(INT),
    Word::Plain(1, INT),
    NO,
    Word::Use(Used::Constructor(DOT, THINGS), THING),
    IS_ANY,
    Word::Pat(Form::Before(Head::Constructor(DOT), INT)),
    Word::Three,
    Word::Rule,
    Word::Case(INT),
    Word::Plain(1, INT),
    NO,
    Word::Use(Used::Constructor(DOT, THINGS), THING),
    IS_ANY,
    Word::Pat(Form::Before(Head::Constructor(BOX), STRING)),
    Word::Three,
    Word::Rule,
    Word::Case(INT),
    Word::Plain(1, INT),
    NO,
    // no reference, and an exception of no number
    Word::Three,
    IS_ANY,
    Word::Pat(Form::Before(Head::Reference, INT)),
    Word::Three,
    Word::Rule,
    Word::Case(INT),
    Word::Plain(1, INT),
    NO,
    MATCH,
    Word::Pat(Form::Exception(Exception::Initial(7))),
    Word::Three,
    Word::Rule,
    Word::Case(INT),
    Word::Plain(1, INT),
    NO,
    // fields that are not there, or not all of them
    Word::Three,
    FIRST,
    Word::Three,
    LAST,
    Word::Record(INTS),
    IS_ANY,
    Word::Pat(Form::Field(Label::Number(3), INT)),
    Word::Pat(Form::Record(true)),
    Word::Bind(false, INTS),
    Word::Val(NONE),
    NO,
    Word::Three,
    FIRST,
    Word::Three,
    LAST,
    Word::Record(INTS),
    IS_ANY,
    LAST_PAT,
    Word::Pat(Form::Record(false)),
    Word::Bind(false, INTS),
    Word::Val(NONE),
    NO,
];

const CHAINS: [Word; 36] = [
    // a list of which the tail is an integer, and whose parts are exchanged
    Word::UseAt(Used::Constructor(NIL, LIST), INT, INT_LIST),
    IS_ANY,
    IS_THREE,
    Word::Pat(Form::Part(Head::Constructor(CONS), CELLS)),
    Word::Pat(Form::Chain(Side::Right)),
    Word::Bind(false, INT_LIST),
    Word::Val(NONE),
    NO,
    Word::UseAt(Used::Constructor(NIL, LIST), INT, INT_LIST),
    IS_ANY,
    IS_ANY,
    Word::Pat(Form::Part(Head::Constructor(CONS), OTHER_CELLS)),
    Word::Pat(Form::Chain(Side::Right)),
    Word::Bind(false, INT_LIST),
    Word::Val(NONE),
    NO,
    // lists that begin with lists, as a pattern and as an expression
    Word::UseAt(Used::Constructor(NIL, LIST), INT, INT_LIST),
    IS_ANY,
    IS_ANY,
    Word::Pat(Form::Part(Head::Constructor(CONS), CELLS)),
    IS_ANY,
    Word::Pat(Form::Part(Head::Constructor(CONS), CELLS)),
    Word::Pat(Form::Chain(Side::Left)),
    Word::Bind(false, INT_LIST),
    Word::Val(NONE),
    NO,
    Word::Three,
    Word::UseAt(Used::Constructor(CONS, LIST), INT, CELL_TO_INT_LIST),
    Word::Three,
    Word::Join(CELL, INT_LIST),
    Word::UseAt(Used::Constructor(CONS, LIST), INT, CELL_TO_INT_LIST),
    Word::UseAt(Used::Constructor(NIL, LIST), INT, INT_LIST),
    Word::Join(CELL, INT_LIST),
    Word::Infix(Side::Left),
    Word::Plain(1, INT_LIST),
    NO,
];

fn wrong_variables(alloc: Global) -> Made<Option<usize>> {
    wrong(alloc, &VARIABLES)
}

#[test]
fn variables(rt: HostRuntime) -> Result<(), Fail> {
    assert_eq!(rt; wrong_variables(rt.alloc())?, None);
    Ok(())
}

fn wrong_arguments(alloc: Global) -> Made<Option<usize>> {
    wrong(alloc, &ARGUMENTS)
}

#[test]
fn arguments(rt: HostRuntime) -> Result<(), Fail> {
    assert_eq!(rt; wrong_arguments(rt.alloc())?, None);
    Ok(())
}

fn wrong_instances(alloc: Global) -> Made<Option<usize>> {
    wrong(alloc, &INSTANCES)
}

#[test]
fn instances(rt: HostRuntime) -> Result<(), Fail> {
    assert_eq!(rt; wrong_instances(rt.alloc())?, None);
    Ok(())
}

fn wrong_groups(alloc: Global) -> Made<Option<usize>> {
    wrong(alloc, &GROUPS)
}

#[test]
fn groups(rt: HostRuntime) -> Result<(), Fail> {
    assert_eq!(rt; wrong_groups(rt.alloc())?, None);
    Ok(())
}

fn wrong_constructors(alloc: Global) -> Made<Option<usize>> {
    wrong(alloc, &CONSTRUCTORS)
}

#[test]
fn constructors(rt: HostRuntime) -> Result<(), Fail> {
    assert_eq!(rt; wrong_constructors(rt.alloc())?, None);
    Ok(())
}

fn wrong_phrases(alloc: Global) -> Made<Option<usize>> {
    wrong(alloc, &PHRASES)
}

#[test]
fn phrases(rt: HostRuntime) -> Result<(), Fail> {
    assert_eq!(rt; wrong_phrases(rt.alloc())?, None);
    Ok(())
}

fn wrong_patterns(alloc: Global) -> Made<Option<usize>> {
    wrong(alloc, &PATTERNS)
}

#[test]
fn patterns(rt: HostRuntime) -> Result<(), Fail> {
    assert_eq!(rt; wrong_patterns(rt.alloc())?, None);
    Ok(())
}

fn wrong_chains(alloc: Global) -> Made<Option<usize>> {
    wrong(alloc, &CHAINS)
}

#[test]
fn chains(rt: HostRuntime) -> Result<(), Fail> {
    assert_eq!(rt; wrong_chains(rt.alloc())?, None);
    Ok(())
}

const SIX_NAMES: Given = Given {
    datatype: None,
    initial: 6,
    fields: 0,
};

/// With a datatype of the basis, and with one that admits equality always.
const OF_THE_BASIS: Given = Given {
    datatype: Some(TyName {
        stamp: 7,
        arity: 0,
        equality: Equality::ByArguments,
    }),
    initial: 7,
    fields: 0,
};

const ALWAYS_EQUAL: Given = Given {
    datatype: Some(TyName {
        stamp: 21,
        arity: 0,
        equality: Equality::Always,
    }),
    initial: 7,
    fields: 0,
};

/// Tables, the number of the type of exceptions, and what the checker says of no declarations over them.
const TABLES: [(Given, usize, Check); 5] = [
    (USUAL, EXN, Check::Yes),
    (SIX_NAMES, EXN, Check::No),
    (USUAL, INT, Check::No),
    (OF_THE_BASIS, EXN, Check::No),
    (ALWAYS_EQUAL, EXN, Check::No),
];

/// The first tables over which the checker says something else.
fn wrong_tables(alloc: Global) -> Option<usize> {
    for i in 0..TABLES.len() {
        let (given, exn, wanted) = TABLES[i];
        let answer = answered(alloc, given, exn, Vec::new(alloc));
        if answer.says != wanted {
            return Some(i);
        }
    }
    None
}

#[test]
fn tables_of_programs(rt: HostRuntime) {
    assert_eq!(rt; wrong_tables(rt.alloc()), None);
}
