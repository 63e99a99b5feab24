// Integer and word constants.

ghost use Rattle.std.specs.Prelude.{◌≡◌, ◌≤◌, ◌<◌, ◌^◌, ℕ, true, List, drop, length, MatchOption};
ghost use Rattle.std.specs.Str.Parse.{digits_value};
ghost use Rattle.std.specs.Char.{digit_value};
ghost use Rattle.sml_lexer.specs.Chars.{after_run, byte, is_digit, run, run_len};
ghost use Rattle.sml_lexer.specs.declared.chars.Class.TheVariants.{Digit};
ghost use Rattle.sml_lexer.specs.ItemOf.{IsConstant};
ghost use Rattle.sml_lexer.specs.Numbers.{begins_exponent, begins_fraction, begins_hex, begins_hex_word, begins_negative, begins_number, begins_word, decimal_item, goes_on_as_real, hex_item, int_item, int_value, int_limit, is_plain, number_item, unsigned_item, word_item};

use crate::chars::{Class, byte_at, front, is_digit, is_hex_digit, rest, run_len};
use crate::item::Item;
use mlc_faults::code::Code;
use mlc_names::token::TokenKind;

fn begins_hex(text: &[u8]) -> bool
    ensures { result ≡ begins_hex text.now }
{
    byte_at(text, 0) == b'0' && byte_at(text, 1) == b'x' && is_hex_digit(byte_at(text, 2))
}

fn begins_word(text: &[u8]) -> bool
    ensures { result ≡ begins_word text.now }
{
    byte_at(text, 0) == b'0' && byte_at(text, 1) == b'w' && is_digit(byte_at(text, 2))
}

fn begins_hex_word(text: &[u8]) -> bool
    ensures { result ≡ begins_hex_word text.now }
{
    byte_at(text, 0) == b'0'
        && byte_at(text, 1) == b'w'
        && byte_at(text, 2) == b'x'
        && is_hex_digit(byte_at(text, 3))
}

fn begins_negative(text: &[u8]) -> bool
    ensures { result ≡ begins_negative text.now }
{
    byte_at(text, 0) == b'~' && is_digit(byte_at(text, 1))
}

/// An integer or a word constant begins here, or a real one.
pub fn begins_number(text: &[u8]) -> bool
    ensures { result ≡ begins_number text.now }
{
    is_digit(byte_at(text, 0)) || begins_negative(text)
}

fn begins_fraction(text: &[u8]) -> bool
    ensures { result ≡ begins_fraction text.now }
{
    byte_at(text, 0) == b'.' && is_digit(byte_at(text, 1))
}

fn begins_exponent(text: &[u8]) -> bool
    ensures { result ≡ begins_exponent text.now }
{
    let letter = byte_at(text, 0);
    (letter == b'e' || letter == b'E') && begins_number(rest(text, 1))
}

fn goes_on_as_real(text: &[u8]) -> bool
    ensures { result ≡ goes_on_as_real text.now }
{
    begins_fraction(text) || begins_exponent(text)
}

/// The value of a digit, decimal or hexadecimal.
fn digit_value(c: u8) -> u64
    ensures value { result ≡ digit_value c }
    ensures small { result ≤ 36 }
{
    match c {
        b'0'..=b'9' => u64::from(c - b'0'),
        b'A'..=b'Z' => u64::from(c - b'A') + 10,
        b'a'..=b'z' => u64::from(c - b'a') + 10,
        _ => 36,
    }
}

/// The number that the digits write, where it's below 2^32.
pub fn digits_value(base: u64, digits: &[u8]) -> Option<u32>
    requires low { 0 < base }
    requires high { base ≤ 16 }
    ensures { MatchOption result (2 ^ 32 ≤ digits_value base digits.now) (λ value. value ≡ digits_value base digits.now) }
{
    let mut value = 0;
    for c in digits {
        value = value * base + digit_value(*c);
        if value > u64::from(u32::MAX) {
            return None;
        }
    }
    Some(value as u32)
}

/// The integer of this sign and magnitude, where there is one of 32 bits.
fn int_value(is_negative: bool, magnitude: u32) -> Option<i32>
    ensures { MatchOption result (int_limit is_negative < magnitude)
        (λ value. (magnitude ≤ int_limit is_negative) × (value ≡ int_value is_negative magnitude)) }
{
    let magnitude = i64::from(magnitude);
    let value = if is_negative { -magnitude } else { magnitude };
    i32::try_from(value).ok()
}

/// The integer constant of these digits, which ends here.
fn int_item(is_negative: bool, plain: bool, base: u64, digits: &[u8], end: usize) -> Item
    requires low { 0 < base }
    requires high { base ≤ 16 }
    requires some { 0 < end }
    ensures { (text : List ℕ) → end ≤ length text
        → IsConstant text result (int_item is_negative plain (digits_value base digits.now) (drop end text)) }
{
    let Some(magnitude) = digits_value(base, digits) else {
        return Item::Refused(Code::ConstantRange);
    };
    match int_value(is_negative, magnitude) {
        Some(value) => Item::Token(TokenKind::Int { value, plain }, end),
        None => Item::Refused(Code::ConstantRange),
    }
}

/// The word constant of these digits, which ends here.
fn word_item(base: u64, digits: &[u8], end: usize) -> Item
    requires low { 0 < base }
    requires high { base ≤ 16 }
    requires some { 0 < end }
    ensures { (text : List ℕ) → end ≤ length text
        → IsConstant text result (word_item (digits_value base digits.now) (drop end text)) }
{
    match digits_value(base, digits) {
        Some(value) => Item::Token(TokenKind::Word(value), end),
        None => Item::Refused(Code::ConstantRange),
    }
}

fn is_plain(is_negative: bool, digits: &[u8], len: usize) -> bool
    requires { len ≡ run_len Digit digits.now }
    ensures { result ≡ is_plain is_negative digits.now }
{
    !is_negative && (byte_at(digits, 0) != b'0' || len == 1)
}

/// The integer constant in decimal notation that begins here after its sign, where it isn't a part of a real one.
fn decimal_item(text: &[u8], from: usize, is_negative: bool) -> Item
    requires digit { is_digit (byte text.now from) ≡ true }
    requires within { from ≤ length text.now }
    ensures { IsConstant text.now result (decimal_item is_negative (drop from text.now)) }
{
    let digits = rest(text, from);
    let len = run_len(Class::Digit, digits);
    if goes_on_as_real(rest(digits, len)) {
        return Item::Refused(Code::RealConstant);
    }
    let plain = is_plain(is_negative, digits, len);
    int_item(is_negative, plain, 10, front(digits, len), from + len)
}

/// The integer constant whose hexadecimal digits begin here.
fn hex_item(text: &[u8], from: usize, is_negative: bool) -> Item
    requires some { 0 < from }
    requires within { from ≤ length text.now }
    ensures { IsConstant text.now result (hex_item is_negative (drop from text.now)) }
{
    let digits = rest(text, from);
    let len = run_len(Class::HexDigit, digits);
    int_item(is_negative, false, 16, front(digits, len), from + len)
}

/// The integer constant that begins here after its sign.
fn unsigned_item(text: &[u8], from: usize, is_negative: bool) -> Item
    requires digit { is_digit (byte text.now from) ≡ true }
    requires within { from ≤ length text.now }
    ensures { IsConstant text.now result (unsigned_item is_negative (drop from text.now)) }
{
    if begins_hex(rest(text, from)) {
        hex_item(text, from + 2, is_negative)
    } else {
        decimal_item(text, from, is_negative)
    }
}

/// The word constant whose digits begin here.
fn word_at(text: &[u8], from: usize, class: Class, base: u64) -> Item
    requires low { 0 < base }
    requires high { base ≤ 16 }
    requires some { 0 < from }
    requires within { from ≤ length text.now }
    ensures { IsConstant text.now result
        (word_item (digits_value base (run class (drop from text.now))) (after_run class (drop from text.now))) }
{
    let digits = rest(text, from);
    let len = run_len(class, digits);
    word_item(base, front(digits, len), from + len)
}

/// The constant that a text begins with.
pub fn number_item(text: &[u8]) -> Item
    requires { begins_number text.now ≡ true }
    ensures { IsConstant text.now result (number_item text.now) }
{
    if begins_hex_word(text) {
        word_at(text, 3, Class::HexDigit, 16)
    } else if begins_word(text) {
        word_at(text, 2, Class::Digit, 10)
    } else if begins_negative(text) {
        unsigned_item(text, 1, true)
    } else {
        unsigned_item(text, 0, false)
    }
}
