// What the initial basis binds, in tables.
ghost use Rattle.std.specs.Prelude.{◌≡◌};
ghost use Rattle.name_scopes.specs.Basis.{bound_of as bound_at, is_value_of, IsStandard};

use crate::bound::{Bound, Members};
use mlc_names::names::Name;
use mlc_names::words;
use sml_tree::ident::Vid;

/// Something that is bound, by the number of its word.
#[derive(Clone, Copy)]
pub enum Row {
    /// A value identifier, and whether it is a variable; no word is `=`.
    Value(Option<u32>, bool),
    /// A type constructor. So many rows after it are its constructors.
    Tycon(u32, usize),
    Structure(u32, Members),
}

/// The word `Int`, a structure.
const INT_STRUCTURE: u32 = 72;

/// The word `toString`.
const TO_STRING: u32 = 96;

/// The initial basis, what is bound latest first.
pub const ROWS: [Row; 35] = [
    Row::Tycon(words::UNIT, 0),
    Row::Tycon(words::INT, 0),
    Row::Tycon(words::WORD, 0),
    Row::Tycon(words::CHAR, 0),
    Row::Tycon(words::STRING, 0),
    Row::Tycon(words::EXN, 0),
    Row::Tycon(words::REF, 1),
    Row::Value(Some(words::REF), false),
    Row::Tycon(words::BOOL, 2),
    Row::Value(Some(words::TRUE), false),
    Row::Value(Some(words::FALSE), false),
    Row::Tycon(words::LIST, 2),
    Row::Value(Some(words::NIL), false),
    Row::Value(Some(words::CONS), false),
    Row::Value(Some(words::MATCH), false),
    Row::Value(Some(words::BIND), false),
    Row::Value(Some(words::OVERFLOW), false),
    Row::Value(Some(words::DIV_EXCEPTION), false),
    Row::Value(Some(words::SUBSCRIPT), false),
    Row::Value(Some(words::SIZE_EXCEPTION), false),
    Row::Value(Some(words::CHR_EXCEPTION), false),
    Row::Value(Some(words::PLUS), true),
    Row::Value(Some(words::MINUS), true),
    Row::Value(Some(words::TIMES), true),
    Row::Value(Some(words::DIV), true),
    Row::Value(Some(words::MOD), true),
    Row::Value(Some(words::NEGATE), true),
    Row::Value(Some(words::ABS), true),
    Row::Value(Some(words::LESS_THAN), true),
    Row::Value(Some(words::AT_MOST), true),
    Row::Value(Some(words::GREATER_THAN), true),
    Row::Value(Some(words::AT_LEAST), true),
    Row::Value(None, true),
    Row::Value(Some(words::ASSIGN), true),
    Row::Structure(INT_STRUCTURE, Members::Integers),
];

/// The members of the structure `Int`.
pub const INTEGERS: [Row; 3] = [
    Row::Value(Some(TO_STRING), true),
    Row::Value(Some(words::QUOT), true),
    Row::Value(Some(words::REM), true),
];

/// The members of the structure `Prim`, which only the prelude sees.
pub const HIDDEN: [Row; 21] = [
    Row::Value(Some(words::QUOT), true),
    Row::Value(Some(words::REM), true),
    Row::Value(Some(words::ANDB), true),
    Row::Value(Some(words::ORB), true),
    Row::Value(Some(words::XORB), true),
    Row::Value(Some(words::NOTB), true),
    Row::Value(Some(words::SHL), true),
    Row::Value(Some(words::SHR), true),
    Row::Value(Some(words::SAR), true),
    Row::Value(Some(words::TO_INT), true),
    Row::Value(Some(words::TO_INT_X), true),
    Row::Value(Some(words::FROM_INT), true),
    Row::Value(Some(words::ORD), true),
    Row::Value(Some(words::CHR), true),
    Row::Value(Some(words::TEXT), true),
    Row::Value(Some(words::SIZE), true),
    Row::Value(Some(words::SUB), true),
    Row::Value(Some(words::PART), true),
    Row::Value(Some(words::CAT), true),
    Row::Value(Some(words::STR), true),
    Row::Value(Some(words::PRINT), true),
];

/// What a row binds.
pub fn bound_of(row: Row) -> Bound
    requires { IsStandard row }
    ensures { result ≡ bound_at row }
{
    match row {
        Row::Value(Some(word), variable) => Bound::Value(
            Vid::Named(Name::standard(word)),
            variable,
        ),
        Row::Value(None, variable) => Bound::Value(Vid::Equals, variable),
        Row::Tycon(word, count) => Bound::Tycon(Name::standard(word), count),
        Row::Structure(word, members) => Bound::Structure(Name::standard(word), members),
    }
}

/// Whether a row is that of a value identifier.
pub fn is_of(row: Row, vid: &Vid) -> bool
    ensures { result ≡ is_value_of (bound_at row) vid.now }
{
    match row {
        Row::Value(Some(word), _) => match vid {
            Vid::Named(name) => name.number() == word,
            _ => false,
        },
        Row::Value(None, _) => match vid {
            Vid::Equals => true,
            _ => false,
        },
        _ => false,
    }
}
