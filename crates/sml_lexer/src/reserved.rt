// Reserved words.

ghost use Rattle.std.specs.Prelude.{◌≡◌, ◌≤◌, length};
ghost use Rattle.sml_lexer.specs.ReservedWords.{beginning, free_len, marks, spelling, spelt, symbolic, words};

use crate::chars::{byte_at, front};
use mlc_names::token::Reserved;

/// The alphanumeric reserved words that begin with this byte.
fn words_from(first: u8) -> &'static [Reserved]
    ensures { result.now ≡ beginning first words }
{
    match first {
        b'a' => &[
            Reserved::Abstype,
            Reserved::And,
            Reserved::Andalso,
            Reserved::As,
        ],
        b'c' => &[Reserved::Case],
        b'd' => &[Reserved::Datatype, Reserved::Do],
        b'e' => &[
            Reserved::Else,
            Reserved::End,
            Reserved::Eqtype,
            Reserved::Exception,
        ],
        b'f' => &[Reserved::Fn, Reserved::Fun, Reserved::Functor],
        b'h' => &[Reserved::Handle],
        b'i' => &[
            Reserved::If,
            Reserved::In,
            Reserved::Include,
            Reserved::Infix,
            Reserved::Infixr,
        ],
        b'l' => &[Reserved::Let, Reserved::Local],
        b'n' => &[Reserved::Nonfix],
        b'o' => &[Reserved::Of, Reserved::Op, Reserved::Open, Reserved::Orelse],
        b'r' => &[Reserved::Raise, Reserved::Rec],
        b's' => &[
            Reserved::Sharing,
            Reserved::Sig,
            Reserved::Signature,
            Reserved::Struct,
            Reserved::Structure,
        ],
        b't' => &[Reserved::Then, Reserved::TypeWord],
        b'v' => &[Reserved::Val],
        b'w' => &[
            Reserved::Where,
            Reserved::While,
            Reserved::With,
            Reserved::Withtype,
        ],
        _ => &[],
    }
}

/// The symbolic reserved words that begin with this byte.
fn symbolic_from(first: u8) -> &'static [Reserved]
    ensures { result.now ≡ beginning first symbolic }
{
    match first {
        b':' => &[Reserved::Colon, Reserved::ColonGreater],
        b'|' => &[Reserved::Bar],
        b'=' => &[Reserved::Equals, Reserved::DoubleArrow],
        b'-' => &[Reserved::Arrow],
        b'#' => &[Reserved::Hash],
        _ => &[],
    }
}

/// The marks that begin with this byte.
fn marks_from(first: u8) -> &'static [Reserved]
    ensures { result.now ≡ beginning first marks }
{
    match first {
        b'(' => &[Reserved::LeftParen],
        b')' => &[Reserved::RightParen],
        b'[' => &[Reserved::LeftBracket],
        b']' => &[Reserved::RightBracket],
        b'{' => &[Reserved::LeftBrace],
        b'}' => &[Reserved::RightBrace],
        b',' => &[Reserved::Comma],
        b';' => &[Reserved::Semicolon],
        b'_' => &[Reserved::Underscore],
        _ => &[],
    }
}

fn spelling(word: Reserved) -> &'static [u8]
    ensures { result.now ≡ spelling word }
{
    match word {
        Reserved::Abstype => b"abstype",
        Reserved::And => b"and",
        Reserved::Andalso => b"andalso",
        Reserved::As => b"as",
        Reserved::Case => b"case",
        Reserved::Datatype => b"datatype",
        Reserved::Do => b"do",
        Reserved::Else => b"else",
        Reserved::End => b"end",
        Reserved::Eqtype => b"eqtype",
        Reserved::Exception => b"exception",
        Reserved::Fn => b"fn",
        Reserved::Fun => b"fun",
        Reserved::Functor => b"functor",
        Reserved::Handle => b"handle",
        Reserved::If => b"if",
        Reserved::In => b"in",
        Reserved::Include => b"include",
        Reserved::Infix => b"infix",
        Reserved::Infixr => b"infixr",
        Reserved::Let => b"let",
        Reserved::Local => b"local",
        Reserved::Nonfix => b"nonfix",
        Reserved::Of => b"of",
        Reserved::Op => b"op",
        Reserved::Open => b"open",
        Reserved::Orelse => b"orelse",
        Reserved::Raise => b"raise",
        Reserved::Rec => b"rec",
        Reserved::Sharing => b"sharing",
        Reserved::Sig => b"sig",
        Reserved::Signature => b"signature",
        Reserved::Struct => b"struct",
        Reserved::Structure => b"structure",
        Reserved::Then => b"then",
        Reserved::TypeWord => b"type",
        Reserved::Val => b"val",
        Reserved::Where => b"where",
        Reserved::While => b"while",
        Reserved::With => b"with",
        Reserved::Withtype => b"withtype",
        Reserved::LeftParen => b"(",
        Reserved::RightParen => b")",
        Reserved::LeftBracket => b"[",
        Reserved::RightBracket => b"]",
        Reserved::LeftBrace => b"{",
        Reserved::RightBrace => b"}",
        Reserved::Comma => b",",
        Reserved::Semicolon => b";",
        Reserved::Dots => b"...",
        Reserved::Underscore => b"_",
        Reserved::Colon => b":",
        Reserved::ColonGreater => b":>",
        Reserved::Bar => b"|",
        Reserved::Equals => b"=",
        Reserved::DoubleArrow => b"=>",
        Reserved::Arrow => b"->",
        Reserved::Hash => b"#",
    }
}

/// The one of these words that a text spells.
fn spelt(words: &[Reserved], text: &[u8]) -> Option<Reserved>
    ensures { result ≡ spelt words.now text.now }
{
    for word in words {
        if spelling(*word) == text {
            return Some(*word);
        }
    }
    None
}

/// The length of the longest front that spells none of these words, of the fronts of at most so many bytes.
#[tactic(auto, using(crate::proofs::ReservedLemmas::free_step))]
fn free_len(words: &[Reserved], len: usize, text: &[u8]) -> usize
    requires { len ≤ length text.now }
    ensures longest { result ≡ free_len words.now len text.now }
    ensures within { result ≤ len }
{
    let mut free = len;
    while free > 0 && spelt(words, front(text, free)).is_some() {
        free -= 1;
    }
    free
}

/// The length of the longest front that spells no alphanumeric reserved word.
pub fn free_word_len(len: usize, text: &[u8]) -> usize
    requires { len ≤ length text.now }
    ensures longest { result ≡ free_len words len text.now }
    ensures within { result ≤ len }
{
    free_len(words_from(byte_at(text, 0)), len, text)
}

/// The length of the longest front that spells no symbolic reserved word.
pub fn free_symbol_len(len: usize, text: &[u8]) -> usize
    requires { len ≤ length text.now }
    ensures longest { result ≡ free_len symbolic len text.now }
    ensures within { result ≤ len }
{
    free_len(symbolic_from(byte_at(text, 0)), len, text)
}

/// The alphanumeric reserved word of this text.
pub fn word_of(text: &[u8]) -> Option<Reserved>
    ensures { result ≡ spelt words text.now }
{
    spelt(words_from(byte_at(text, 0)), text)
}

/// The symbolic reserved word of this text.
pub fn symbolic_of(text: &[u8]) -> Option<Reserved>
    ensures { result ≡ spelt symbolic text.now }
{
    spelt(symbolic_from(byte_at(text, 0)), text)
}

/// The mark of this text.
pub fn mark_of(text: &[u8]) -> Option<Reserved>
    ensures { result ≡ spelt marks text.now }
{
    spelt(marks_from(byte_at(text, 0)), text)
}
