// What a row of a test expects.

use mlc_prims::applied::Applied;
use mlc_prims::lit::Lit;
use mlc_prims::prim::PrimExn;

/// What a row gives that isn't a string.
#[derive(Clone, Copy, Debug)]
pub enum Expected {
    Int(i32),
    Word(u32),
    Char(u8),
    Truth(bool),
    Raises(PrimExn),
}

/// Whether this was made.
fn is_made(made: &Lit, expected: Expected) -> bool {
    match (made, expected) {
        (Lit::Int(made), Expected::Int(value)) => *made == value,
        (Lit::Word(made), Expected::Word(value)) => *made == value,
        (Lit::Char(made), Expected::Char(value)) => *made == value,
        (Lit::Truth(made), Expected::Truth(value)) => *made == value,
        _ => false,
    }
}

/// Whether a row gave this.
pub fn gives(applied: &Option<Applied>, expected: Expected) -> bool {
    match applied {
        Some(Applied::Made(made)) => is_made(made, expected),
        Some(Applied::Raises(raised)) => match expected {
            Expected::Raises(exn) => *raised == exn,
            _ => false,
        },
        _ => false,
    }
}

/// Whether a row gave this string, or raised Subscript.
pub fn gives_string(applied: &Option<Applied>, expected: Option<&[u8]>) -> bool {
    match (applied, expected) {
        (Some(Applied::Made(Lit::Str(made))), Some(text)) => made.as_slice() == text,
        (Some(Applied::Raises(PrimExn::Subscript)), None) => true,
        _ => false,
    }
}
