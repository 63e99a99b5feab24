// The identifiers of the initial basis: what each is, in the order of its table.
ghost use Rattle.std.specs.Prelude.{◌≡◌};
ghost use Rattle.core_elab.specs.Scopes.{built_number};
ghost use Rattle.basis_context.specs.Basis.{built_at, entry_at, IsStandard, vid_at};

use elab_context::entry::{Built, Entry};
use elab_types::scope::{NO_CONSTRUCTORS, SchemeRange};
use mlc_names::names::Name;
use mlc_names::words;
use mlc_prims::basis::BasisPrimitive;
use sml_tree::ident::{BuiltIn, Vid};
use ty_core::name::{Equality, TyName};

/// What an identifier of the basis is.
#[derive(Clone, Copy)]
pub enum Kind {
    Reference,
    /// A constructor, and its datatype.
    Constructor(BuiltIn, TyName),
    /// An exception, by its number.
    Exception(usize),
    Primitive(BasisPrimitive),
}

pub const BOOL: TyName = TyName {
    stamp: 6,
    arity: 0,
    equality: Equality::ByArguments,
};

pub const LIST: TyName = TyName {
    stamp: 7,
    arity: 1,
    equality: Equality::ByArguments,
};

/// The word `Int`, a structure.
pub const INT_STRUCTURE: u32 = 72;

/// The word `toString`.
pub const TO_STRING: u32 = 96;

/// Identifiers, by the numbers of their words; no word is `=`.
pub const ROWS: [(Option<u32>, Kind); 25] = [
    (Some(words::REF), Kind::Reference),
    (Some(words::TRUE), Kind::Constructor(BuiltIn::True, BOOL)),
    (Some(words::FALSE), Kind::Constructor(BuiltIn::False, BOOL)),
    (Some(words::NIL), Kind::Constructor(BuiltIn::Nil, LIST)),
    (Some(words::CONS), Kind::Constructor(BuiltIn::Cons, LIST)),
    (Some(words::MATCH), Kind::Exception(0)),
    (Some(words::BIND), Kind::Exception(1)),
    (Some(words::OVERFLOW), Kind::Exception(2)),
    (Some(words::DIV_EXCEPTION), Kind::Exception(3)),
    (Some(words::SUBSCRIPT), Kind::Exception(4)),
    (Some(words::SIZE_EXCEPTION), Kind::Exception(5)),
    (Some(words::CHR_EXCEPTION), Kind::Exception(6)),
    (Some(words::PLUS), Kind::Primitive(BasisPrimitive::Add)),
    (
        Some(words::MINUS),
        Kind::Primitive(BasisPrimitive::Subtract),
    ),
    (
        Some(words::TIMES),
        Kind::Primitive(BasisPrimitive::Multiply),
    ),
    (Some(words::DIV), Kind::Primitive(BasisPrimitive::Divide)),
    (Some(words::MOD), Kind::Primitive(BasisPrimitive::Modulo)),
    (Some(words::NEGATE), Kind::Primitive(BasisPrimitive::Negate)),
    (Some(words::ABS), Kind::Primitive(BasisPrimitive::Absolute)),
    (
        Some(words::LESS_THAN),
        Kind::Primitive(BasisPrimitive::Less),
    ),
    (
        Some(words::AT_MOST),
        Kind::Primitive(BasisPrimitive::LessEqual),
    ),
    (
        Some(words::GREATER_THAN),
        Kind::Primitive(BasisPrimitive::Greater),
    ),
    (
        Some(words::AT_LEAST),
        Kind::Primitive(BasisPrimitive::GreaterEqual),
    ),
    (None, Kind::Primitive(BasisPrimitive::Equals)),
    (Some(words::ASSIGN), Kind::Primitive(BasisPrimitive::Assign)),
];

/// The members of the structure `Int`.
pub const INTEGERS: [(Option<u32>, Kind); 3] = [
    (Some(TO_STRING), Kind::Primitive(BasisPrimitive::TextOf)),
    (Some(words::QUOT), Kind::Primitive(BasisPrimitive::Quotient)),
    (Some(words::REM), Kind::Primitive(BasisPrimitive::Remainder)),
];

/// The members of the structure `Prim`, which only the prelude sees.
pub const HIDDEN: [(Option<u32>, Kind); 21] = [
    (Some(words::QUOT), Kind::Primitive(BasisPrimitive::Quotient)),
    (Some(words::REM), Kind::Primitive(BasisPrimitive::Remainder)),
    (Some(words::ANDB), Kind::Primitive(BasisPrimitive::BitsAnd)),
    (Some(words::ORB), Kind::Primitive(BasisPrimitive::BitsOr)),
    (Some(words::XORB), Kind::Primitive(BasisPrimitive::BitsXor)),
    (Some(words::NOTB), Kind::Primitive(BasisPrimitive::BitsNot)),
    (Some(words::SHL), Kind::Primitive(BasisPrimitive::ShiftLeft)),
    (
        Some(words::SHR),
        Kind::Primitive(BasisPrimitive::ShiftRight),
    ),
    (
        Some(words::SAR),
        Kind::Primitive(BasisPrimitive::ShiftSigned),
    ),
    (Some(words::TO_INT), Kind::Primitive(BasisPrimitive::ToInt)),
    (
        Some(words::TO_INT_X),
        Kind::Primitive(BasisPrimitive::ToIntSigned),
    ),
    (
        Some(words::FROM_INT),
        Kind::Primitive(BasisPrimitive::FromInt),
    ),
    (Some(words::ORD), Kind::Primitive(BasisPrimitive::CharCode)),
    (Some(words::CHR), Kind::Primitive(BasisPrimitive::CharOf)),
    (Some(words::TEXT), Kind::Primitive(BasisPrimitive::TextOf)),
    (Some(words::SIZE), Kind::Primitive(BasisPrimitive::SizeOf)),
    (Some(words::SUB), Kind::Primitive(BasisPrimitive::CharAt)),
    (Some(words::PART), Kind::Primitive(BasisPrimitive::PartOf)),
    (Some(words::CAT), Kind::Primitive(BasisPrimitive::Concat)),
    (Some(words::STR), Kind::Primitive(BasisPrimitive::StringOf)),
    (Some(words::PRINT), Kind::Primitive(BasisPrimitive::Print)),
];

/// Type constructors, by the numbers of their words; no name is `unit`. With the schemes of their constructors, which are numbered in the order of `ROWS`.
pub const TYPES: [(u32, Option<TyName>, SchemeRange); 9] = [
    (words::UNIT, None, NO_CONSTRUCTORS),
    (words::INT, Some(TyName::INT), NO_CONSTRUCTORS),
    (words::WORD, Some(TyName::WORD), NO_CONSTRUCTORS),
    (words::CHAR, Some(TyName::CHAR), NO_CONSTRUCTORS),
    (words::STRING, Some(TyName::STRING), NO_CONSTRUCTORS),
    (words::EXN, Some(TyName::EXN), NO_CONSTRUCTORS),
    (
        words::REF,
        Some(TyName::REF),
        SchemeRange { first: 0, count: 1 },
    ),
    (words::BOOL, Some(BOOL), SchemeRange { first: 1, count: 2 }),
    (words::LIST, Some(LIST), SchemeRange { first: 3, count: 2 }),
];

/// The name of a constructor.
fn name_of(constructor: BuiltIn) -> Name
    ensures { result ≡ built_number constructor }
{
    match constructor {
        BuiltIn::True => Name::standard(words::TRUE),
        BuiltIn::False => Name::standard(words::FALSE),
        BuiltIn::Nil => Name::standard(words::NIL),
        BuiltIn::Cons => Name::standard(words::CONS),
    }
}

/// The identifier of a row.
pub fn vid_of(word: Option<u32>) -> Vid
    requires { IsStandard word }
    ensures { result ≡ vid_at word }
{
    match word {
        Some(word) => Vid::Named(Name::standard(word)),
        None => Vid::Equals,
    }
}

/// What is kept of an identifier with the scheme of a number.
pub fn entry_of(kind: Kind, scheme: usize) -> Entry
    ensures { result ≡ entry_at kind scheme }
{
    match kind {
        Kind::Reference => Entry::Reference(scheme),
        Kind::Constructor(constructor, name) => {
            Entry::Constructor(scheme, name_of(constructor).number() as usize, name)
        }
        Kind::Exception(number) => Entry::Initial(scheme, number),
        Kind::Primitive(primitive) => Entry::Primitive(scheme, primitive),
    }
}

/// The constructor that an identifier is, if it is one.
pub fn constructor_of(kind: Kind) -> Option<Built>
    ensures { result ≡ built_at kind }
{
    match kind {
        Kind::Reference => Some(Built::Ref),
        Kind::Constructor(constructor, name) => Some(Built::Declared(name_of(constructor), name)),
        Kind::Exception(_) => None,
        Kind::Primitive(_) => None,
    }
}
