// What a text begins with.

use mlc_faults::code::Code;
use mlc_names::token::TokenKind;

/// What a text begins with.
#[derive(Drop)]
pub enum Item {
    /// White space or a whole comment of so many bytes.
    Blank(usize),
    /// A token of so many bytes.
    Token(TokenKind, usize),
    /// Why no item begins here.
    Refused(Code),
}
