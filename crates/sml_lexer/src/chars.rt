// Classes of characters, and the runs that they make.

ghost use Rattle.std.specs.Prelude.{◌≡◌, ◌≤◌, drop, length, take};
ghost use Rattle.sml_lexer.specs.Chars.{byte, is_digit, is_hex_digit, is_letter, is_in, is_name_char, is_space, is_symbol_char, run_len};

/// A class of characters that makes runs.
#[derive(Clone, Copy)]
pub enum Class {
    Space,
    Digit,
    HexDigit,
    NameChar,
    SymbolChar,
}

/// The byte at this index, or 0 past the end.
pub fn byte_at(text: &[u8], index: usize) -> u8
    ensures { result ≡ byte text.now index }
{
    if index < text.len() { text[index] } else { 0 }
}

/// What is left of a text from this index on.
pub fn rest(text: &[u8], from: usize) -> &[u8]
    requires { from ≤ length text.now }
    ensures { result.now ≡ drop from text.now }
{
    &text[from..]
}

/// The first bytes of a text.
pub fn front(text: &[u8], len: usize) -> &[u8]
    requires { len ≤ length text.now }
    ensures { result.now ≡ take len text.now }
{
    &text[..len]
}

pub fn is_space(c: u8) -> bool
    ensures { result ≡ is_space c }
{
    c == b' ' || c == b'\t' || c == b'\n' || c == 12 || c == b'\r'
}

pub fn is_digit(c: u8) -> bool
    ensures { result ≡ is_digit c }
{
    b'0' <= c && c <= b'9'
}

pub fn is_hex_digit(c: u8) -> bool
    ensures { result ≡ is_hex_digit c }
{
    is_digit(c) || b'A' <= c && c <= b'F' || b'a' <= c && c <= b'f'
}

pub fn is_letter(c: u8) -> bool
    ensures { result ≡ is_letter c }
{
    b'A' <= c && c <= b'Z' || b'a' <= c && c <= b'z'
}

fn is_name_char(c: u8) -> bool
    ensures { result ≡ is_name_char c }
{
    is_letter(c) || is_digit(c) || c == b'\'' || c == b'_'
}

pub fn is_symbol_char(c: u8) -> bool
    ensures { result ≡ is_symbol_char c }
{
    b"!%&$#+-/:<=>?@\\~`^|*".contains(&c)
}

fn is_in(class: Class, c: u8) -> bool
    ensures { result ≡ is_in class c }
{
    match class {
        Class::Space => is_space(c),
        Class::Digit => is_digit(c),
        Class::HexDigit => is_hex_digit(c),
        Class::NameChar => is_name_char(c),
        Class::SymbolChar => is_symbol_char(c),
    }
}

/// How many bytes of a class a text begins with.
pub fn run_len(class: Class, text: &[u8]) -> usize
    ensures longest { result ≡ run_len class text.now }
    ensures within { result ≤ length text.now }
{
    let mut n = 0;
    while n < text.len() && is_in(class, text[n]) {
        n += 1;
    }
    n
}
