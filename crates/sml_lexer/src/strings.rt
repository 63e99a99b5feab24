// Character and string constants.

ghost use Rattle.std.specs.Prelude.{ℕ, List, ◌≡◌, ◌≤◌, ◌<◌, ◌+◌, ◌^◌, ◌&&◌, ◌++◌, [], Some, None, drop, length, true, IfSome, IfOk, option_map, option_to_list};
ghost use Rattle.std.specs.Str.Parse.{digits_value};
ghost use Rattle.sml_lexer.specs.Chars.{byte, is_hex_digit, is_space};
ghost use Rattle.sml_lexer.specs.ItemOf.{IsItem};
ghost use Rattle.sml_lexer.specs.Strings.{char_item, control_escape, decimal_escape, escape, gap, hex_escape, is_printable, letter_escape, next_piece, of_one_byte, quoted, quoted_of, string_item, written_in};

use crate::chars::{Class, byte_at, front, is_digit, is_hex_digit, is_space, rest, run_len};
use crate::item::Item;
use crate::numbers::digits_value;
use mlc_base::memory::NoMemory;
use mlc_faults::code::Code;
use mlc_names::token::TokenKind;
use std::alloc::Global;

/// A character of a string constant, or a gap, which has no value; and how many bytes it's written in.
#[derive(Clone, Copy)]
pub struct Piece {
    pub value: Option<u8>,
    pub len: usize,
}

fn letter_escape(c: u8) -> Option<u8>
    ensures { result ≡ letter_escape c }
{
    match c {
        b'a' => Some(7),
        b'b' => Some(8),
        b't' => Some(9),
        b'n' => Some(10),
        b'v' => Some(11),
        b'f' => Some(12),
        b'r' => Some(13),
        b'"' => Some(b'"'),
        b'\\' => Some(b'\\'),
        _ => None,
    }
}

fn control_escape(c: u8) -> Option<u8>
    ensures { result ≡ control_escape c }
{
    if 64 <= c && c <= 95 {
        Some(c - 64)
    } else {
        None
    }
}

/// The character that these digits number.
fn numbered(base: u64, digits: &[u8]) -> Option<u8>
    requires low { 0 < base }
    requires high { base ≤ 16 }
    ensures { result ≡ of_one_byte (digits_value base digits.now) }
{
    match digits_value(base, digits) {
        Some(value) if value < 256 => Some(value as u8),
        _ => None,
    }
}

fn decimal_escape(text: &[u8]) -> Option<u8>
    ensures { result ≡ decimal_escape text.now }
{
    if is_digit(byte_at(text, 0)) && is_digit(byte_at(text, 1)) && is_digit(byte_at(text, 2)) {
        numbered(10, front(text, 3))
    } else {
        None
    }
}

fn are_hex_digits(text: &[u8]) -> bool
    ensures { result ≡ (is_hex_digit (byte text.now 0) && is_hex_digit (byte text.now 1) && is_hex_digit (byte text.now 2) && is_hex_digit (byte text.now 3)) }
{
    is_hex_digit(byte_at(text, 0))
        && is_hex_digit(byte_at(text, 1))
        && is_hex_digit(byte_at(text, 2))
        && is_hex_digit(byte_at(text, 3))
}

fn hex_escape(text: &[u8]) -> Option<u8>
    ensures { result ≡ hex_escape text.now }
{
    if are_hex_digits(text) {
        numbered(16, front(text, 4))
    } else {
        None
    }
}

fn written_in(len: usize, c: Option<u8>) -> Option<Piece>
    ensures { result ≡ written_in len c }
{
    match c {
        Some(value) => Some(Piece {
            value: Some(value),
            len,
        }),
        None => None,
    }
}

fn gap(text: &[u8]) -> Option<Piece>
    ensures same { result ≡ gap text.now }
    ensures within { IfSome result (λ p. p.len ≤ length text.now + 1) }
{
    let len = run_len(Class::Space, text);
    if byte_at(text, len) == b'\\' {
        Some(Piece {
            value: None,
            len: len + 2,
        })
    } else {
        None
    }
}

/// What stands after a backslash.
fn escape(text: &[u8]) -> Option<Piece>
    ensures same { result ≡ escape text.now }
    ensures within { IfSome result (λ p. p.len ≤ length text.now + 6) }
    ensures some { IfSome result (λ p. 0 < p.len) }
{
    let first = byte_at(text, 0);
    if is_space(first) {
        gap(text)
    } else if is_digit(first) {
        written_in(4, decimal_escape(text))
    } else if first == b'u' {
        written_in(6, hex_escape(rest(text, 1)))
    } else if first == b'^' {
        written_in(3, control_escape(byte_at(text, 1)))
    } else {
        written_in(2, letter_escape(first))
    }
}

fn is_printable(c: u8) -> bool
    ensures { result ≡ is_printable c }
{
    32 <= c && c != 127
}

/// One character of a string constant, or a gap.
fn next_piece(text: &[u8]) -> Option<Piece>
    ensures same { result ≡ next_piece text.now }
    ensures within { IfSome result (λ p. p.len ≤ length text.now + 5) }
    ensures some { IfSome result (λ p. 0 < p.len) }
{
    let first = byte_at(text, 0);
    if first == b'\\' {
        escape(rest(text, 1))
    } else if is_printable(first) {
        Some(Piece {
            value: Some(first),
            len: 1,
        })
    } else {
        None
    }
}

fn push_piece(value: &mut Vec<u8>, c: Option<u8>) -> Result<(), NoMemory>
    ensures { IfOk result (λ _. value.new.items ≡ value.old.items ++ option_to_list c) }
{
    match c {
        Some(c) => {
            value.push(c)?;
            Ok(())
        }
        None => Ok(()),
    }
}

/// The characters of a string constant that begin here, and where its closing quote ends.
fn quoted(alloc: Global, text: &[u8], from: usize) -> Result<Option<(Vec<u8>, usize)>, NoMemory>
    requires small { length text.now < 2 ^ 32 }
    ensures same { IfOk result (λ found. option_map (quoted_of text.now) found ≡ quoted 0 [] (drop from text.now)) }
    ensures within { IfOk result (λ found. IfSome found (λ q. (from < q.1) × (q.1 ≤ length text.now))) }
{
    let mut value = Vec::new(alloc);
    let mut at = from;
    while at < text.len() {
        if text[at] == b'"' {
            return Ok(Some((value, at + 1)));
        }
        match next_piece(rest(text, at)) {
            Some(piece) => {
                push_piece(&mut value, piece.value)?;
                at += piece.len;
            }
            None => return Ok(None),
        }
    }
    Ok(None)
}

/// The string constant whose opening quote a text begins with.
pub fn string_item(alloc: Global, text: &[u8]) -> Result<Item, NoMemory>
    requires small { length text.now < 2 ^ 32 }
    ensures { (names : List (List ℕ)) → IfOk result (λ item. IsItem names text.now item (string_item text.now)) }
{
    match quoted(alloc, text, 1)? {
        Some((value, end)) => Ok(Item::Token(TokenKind::Str(value), end)),
        None => Ok(Item::Refused(Code::NoToken)),
    }
}

/// The character constant whose `#` a text begins with.
pub fn char_item(alloc: Global, text: &[u8]) -> Result<Item, NoMemory>
    requires small { length text.now < 2 ^ 32 }
    ensures { (names : List (List ℕ)) → IfOk result (λ item. IsItem names text.now item (char_item text.now)) }
{
    let Some((value, end)) = quoted(alloc, text, 2)? else {
        return Ok(Item::Refused(Code::NoToken));
    };
    match value.as_slice() {
        [c] => Ok(Item::Token(TokenKind::Char(*c), end)),
        _ => Ok(Item::Refused(Code::NoToken)),
    }
}
