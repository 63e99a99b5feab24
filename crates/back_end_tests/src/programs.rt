// Programs in words.

use crate::types::{
    INT_TO_STRING, STRING_TO_STRING, STRING_TO_UNIT, STRINGS, STRINGS_TO_STRING, THING_CELL,
    THING_CELL_TO_LIST, THING_LIST, THING_LIST_TO_INT,
};
use ir_tables::tables::Constant;
use ir_uses::constructor::{CONS, LIST, NIL};
use mlc_names::label::Label;
use mlc_prims::basis::BasisPrimitive;
use prog_tree::tree::{Atom, Exception, Head, Pair, Side, Used};
use prog_words::expressions::Word;
use prog_words::patterns::Form;
use tests_given::given::*;

const TEXT: Word = Word::Atom(Atom::Constant(Constant::Text(0)), STRING);

const OTHER_TEXT: Word = Word::Atom(Atom::Constant(Constant::Text(1)), STRING);

const PRINT: Word = Word::UseAt(Used::Primitive(BasisPrimitive::Print), INT, STRING_TO_UNIT);

/// The decimal digits of an integer.
const TEXT_OF: Word = Word::UseAt(Used::Primitive(BasisPrimitive::TextOf), INT, INT_TO_STRING);

const CONCAT: Word = Word::UseAt(
    Used::Primitive(BasisPrimitive::Concat),
    INT,
    STRINGS_TO_STRING,
);

const ADD: Word = Word::UseAt(Used::Primitive(BasisPrimitive::Add), INT, INTS_TO_INT);

const SECOND: Word = Word::Use(Used::Variable(2), INT);

const THIRD: Word = Word::Use(Used::Variable(3), INT);

const IS_SECOND: Word = Word::Pat(Form::Variable(2));

const IS_THIRD: Word = Word::Pat(Form::Variable(3));

/// The last integer is printed, and the result is variable 9.
const TO_TEXT: Word = Word::Argument(STRING);

const TO_UNIT: Word = Word::Argument(UNIT);

const SHOWN: Word = Word::Plain(9, UNIT);

/// The strings of all programs.
pub const STRINGS_OF_ALL: [&str; 2] = ["ab", "cd"];

/// No declaration.
pub const NOTHING: [Word; 0] = [];

/// What stands for 2^20 nodes and one.
pub const HEAVY: [Word; 1] = [Word::Weight(1_048_577)];

/// print ("ab" ^ "cd")
pub const HELLO: [Word; 9] = [
    TEXT,
    CONCAT,
    OTHER_TEXT,
    Word::Join(STRINGS, STRING),
    Word::Infix(Side::Left),
    TO_UNIT,
    PRINT,
    Word::Apply,
    SHOWN,
];

/// fun f x = x; print (f (Prim.text (f 3)))
pub const TWO_TYPES: [Word; 18] = [
    Word::Use(Used::Variable(2), A),
    Word::Named(2, A),
    Word::Member(1, A_TO_A),
    Word::Val(ANY),
    Word::Three,
    Word::Argument(INT),
    Word::UseAt(Used::Variable(1), INT, INT_TO_INT),
    Word::Apply,
    TO_TEXT,
    TEXT_OF,
    Word::Apply,
    TO_TEXT,
    Word::UseAt(Used::Variable(1), STRING, STRING_TO_STRING),
    Word::Apply,
    TO_UNIT,
    PRINT,
    Word::Apply,
    SHOWN,
];

/// exception e of int; print (Prim.text (raise e 3 handle e x => x + x))
pub const HANDLED: [Word; 22] = [
    Word::Exception(1, Some(INT)),
    Word::Three,
    Word::Argument(EXN),
    Word::Atom(Atom::Exception(Exception::Held(1)), INT_TO_EXN),
    Word::Apply,
    Word::Raise(INT),
    IS_SECOND,
    Word::Pat(Form::Before(Head::Exception(Exception::Held(1)), INT)),
    SECOND,
    ADD,
    SECOND,
    Word::Join(INTS, INT),
    Word::Infix(Side::Left),
    Word::Rule,
    Word::Handle(INT),
    TO_TEXT,
    TEXT_OF,
    Word::Apply,
    TO_UNIT,
    PRINT,
    Word::Apply,
    SHOWN,
];

/// val f = (fn x => fn y => x + y) 3; print (Prim.text (f 3))
pub const CAPTURED: [Word; 24] = [
    Word::Three,
    Word::Argument(INT_TO_INT),
    SECOND,
    ADD,
    THIRD,
    Word::Join(INTS, INT),
    Word::Infix(Side::Left),
    Word::Named(3, INT),
    Word::Fn(INT_TO_INT),
    Word::Named(2, INT),
    Word::Fn(CURRIED),
    Word::Apply,
    Word::Plain(1, INT_TO_INT),
    Word::Three,
    Word::Argument(INT),
    Word::Use(Used::Variable(1), INT_TO_INT),
    Word::Apply,
    TO_TEXT,
    TEXT_OF,
    Word::Apply,
    TO_UNIT,
    PRINT,
    Word::Apply,
    SHOWN,
];

/// The parts of a cell.
const CELLS: Pair = Pair {
    ty: THING_CELL,
    left: THING,
    right: THING_LIST,
};

const LINKED: Word = Word::UseAt(Used::Constructor(CONS, LIST), THING, THING_CELL_TO_LIST);

const EMPTY: Word = Word::UseAt(Used::Constructor(NIL, LIST), THING, THING_LIST);

const ITSELF: Word = Word::Atom(Atom::Own(1), THING_LIST_TO_INT);

/// fun f nil = 10 | f (Box x :: y) = x + f y | f (Dot :: z) = 3 + f z; print (Prim.text (f [Box 3, Dot]))
pub const MATCHED: [Word; 54] = [
    Word::Pat(Form::Constructor(NIL)),
    Word::Atom(Atom::Constant(Constant::Int(10)), INT),
    Word::Rule,
    IS_SECOND,
    Word::Pat(Form::Before(Head::Constructor(BOX), INT)),
    IS_THIRD,
    Word::Pat(Form::Part(Head::Constructor(CONS), CELLS)),
    Word::Pat(Form::Chain(Side::Right)),
    SECOND,
    ADD,
    Word::Use(Used::Variable(3), THING_LIST),
    Word::Argument(INT),
    ITSELF,
    Word::Apply,
    Word::Join(INTS, INT),
    Word::Infix(Side::Left),
    Word::Rule,
    Word::Pat(Form::Constructor(DOT)),
    Word::Pat(Form::Variable(4)),
    Word::Pat(Form::Part(Head::Constructor(CONS), CELLS)),
    Word::Pat(Form::Chain(Side::Right)),
    Word::Three,
    ADD,
    Word::Use(Used::Variable(4), THING_LIST),
    Word::Argument(INT),
    ITSELF,
    Word::Apply,
    Word::Join(INTS, INT),
    Word::Infix(Side::Left),
    Word::Rule,
    Word::ByRules(THING_LIST, INT),
    Word::Member(1, THING_LIST_TO_INT),
    Word::Val(NONE),
    Word::Three,
    Word::Argument(THING),
    Word::Use(Used::Constructor(BOX, THINGS), INT_TO_THING),
    Word::Apply,
    LINKED,
    Word::Use(Used::Constructor(DOT, THINGS), THING),
    Word::Join(THING_CELL, THING_LIST),
    LINKED,
    EMPTY,
    Word::Join(THING_CELL, THING_LIST),
    Word::Infix(Side::Right),
    Word::Argument(INT),
    Word::Use(Used::Variable(1), THING_LIST_TO_INT),
    Word::Apply,
    TO_TEXT,
    TEXT_OF,
    Word::Apply,
    TO_UNIT,
    PRINT,
    Word::Apply,
    SHOWN,
];

/// print "ab"; 2147483647 + 3
pub const OVERFLOWS: [Word; 11] = [
    TEXT,
    TO_UNIT,
    PRINT,
    Word::Apply,
    SHOWN,
    Word::Atom(Atom::Constant(Constant::Int(2147483647)), INT),
    ADD,
    Word::Three,
    Word::Join(INTS, INT),
    Word::Infix(Side::Left),
    Word::Plain(1, INT),
];

/// exception unit; raise unit handle Match => 3
pub const RAISES: [Word; 8] = [
    Word::Exception(1, None),
    Word::Atom(Atom::Exception(Exception::Held(1)), EXN),
    Word::Raise(INT),
    Word::Pat(Form::Exception(Exception::Initial(0))),
    Word::Three,
    Word::Rule,
    Word::Handle(INT),
    Word::Plain(2, INT),
];

/// case 3 of 4 => 3
pub const MISSES: [Word; 6] = [
    Word::Three,
    Word::Pat(Form::Constant(Constant::Int(4))),
    Word::Three,
    Word::Rule,
    Word::Case(INT),
    Word::Plain(1, INT),
];

/// print (Prim.text (op + (case ref 3 of ref x => (x, x))))
pub const STORES: [Word; 23] = [
    Word::Three,
    Word::Argument(INT_REF),
    Word::Atom(Atom::Reference(INT), INT_TO_REF),
    Word::Apply,
    IS_SECOND,
    Word::Pat(Form::Before(Head::Reference, INT)),
    SECOND,
    Word::Field(Label::Number(1)),
    SECOND,
    Word::Field(Label::Number(2)),
    Word::Record(INTS),
    Word::Rule,
    Word::Case(INTS),
    Word::Argument(INT),
    ADD,
    Word::Apply,
    TO_TEXT,
    TEXT_OF,
    Word::Apply,
    TO_UNIT,
    PRINT,
    Word::Apply,
    SHOWN,
];
