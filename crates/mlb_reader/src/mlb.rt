// ML Basis files: lists of bare paths.

ghost use Rattle.std.specs.Prelude.{◌≡◌, ◌↔◌, ℕ, ◌+◌, ◌^◌, ◌<◌, ◌≤◌, List, length, IfOk, IfSome, IfNone, IsTrue};
ghost use Rattle.std.specs.List.{list_all, prefix_len};
ghost use Rattle.sml_lexer.specs.Lexes.{IfFault};
ghost use Rattle.mlb_reader.specs.Broken.{fault_at};
ghost use Rattle.mlb_reader.specs.Mlb.{IsMlb, IsPath, is_blank, is_path_byte, is_reserved};
ghost use Rattle.mlb_reader.specs.MlbOf.{items_of, BeginsPath, IsNoMlb};
ghost use Rattle.mlb_reader.specs.Reading.{is_no_blank};

use crate::fault::fault_at;
use mlc_faults::code::Code;
use mlc_faults::refused::Refused;
use std::alloc::Global;

const RESERVED: [&str; 12] = [
    "ann",
    "and",
    "bas",
    "basis",
    "end",
    "functor",
    "in",
    "let",
    "local",
    "open",
    "signature",
    "structure",
];

/// A path, and the byte of the file at which it begins.
#[derive(Drop)]
pub struct Item {
    pub byte: u32,
    pub word: Vec<u8>,
}

/// What an ML Basis file names, in order.
#[derive(Drop)]
pub struct Mlb {
    pub items: Vec<Item>,
}

/// Space, tab, newline, carriage return, form feed.
fn is_blank(byte: u8) -> bool
    ensures { result ≡ is_blank byte }
{
    byte == b' ' || byte == b'\t' || byte == b'\n' || byte == b'\r' || byte == 12
}

/// A byte of a bare word: letters, digits and `. _ - / $ ( )`.
fn is_path_byte(byte: u8) -> bool
    ensures { result ≡ is_path_byte byte }
{
    matches!(byte, b'0'..=b'9' | b'A'..=b'Z' | b'a'..=b'z' | b'.' | b'_' | b'-' | b'/' | b'$' | b'(' | b')')
}

/// Whether all bytes are those of bare words.
fn is_bare(word: &[u8]) -> bool
    ensures { result ≡ list_all is_path_byte word.now }
{
    word.iter().all(|byte| is_path_byte(*byte))
}

/// Whether a word is reserved.
fn is_reserved(word: &[u8]) -> bool
    ensures { result ≡ is_reserved word.now }
{
    RESERVED.iter().any(|reserved| word == reserved.as_bytes())
}

/// Whether a word is a path.
fn is_path(word: &[u8]) -> bool
    ensures { IsTrue result ↔ IsPath word.now }
{
    !word.is_empty() && is_bare(word) && !is_reserved(word)
}

/// How many bytes stand before the first white space.
fn word_len(text: &[u8]) -> usize
    ensures within { result ≤ length text.now }
    ensures longest { result ≡ prefix_len is_no_blank text.now }
{
    let mut len = 0;
    while len < text.len() && !is_blank(text[len]) {
        len += 1;
    }
    len
}

/// The path that a text begins with, up to white space or the end.
fn path_word(text: &[u8]) -> Option<&[u8]>
    ensures found { IfSome result (λ word. BeginsPath text.now word.now) }
    ensures none { IfNone result ((word : List ℕ) → ¬ (BeginsPath text.now word)) }
{
    let word = &text[..word_len(text)];
    if is_path(word) { Some(word) } else { None }
}

/// The paths of the ML Basis file of this number.
pub fn read_mlb(alloc: Global, file: u32, bytes: &[u8]) -> Result<Mlb, Refused>
    requires { length bytes.now + 1 < 2 ^ 32 }
    ensures items { IfOk result (λ mlb. IsMlb bytes.now (items_of mlb)) }
    ensures no_mlb { IfFault result (λ _. IsNoMlb bytes.now) }
    ensures fault { IfFault result (λ fault. fault ≡ fault_at Code.MlbSyntax file 0) }
{
    let mut items = Vec::new(alloc);
    let mut at = 0;
    'words: while at < bytes.len() {
        if is_blank(bytes[at]) {
            at += 1;
        } else {
            let Some(word) = path_word(&bytes[at..]) else {
                return Err(Refused::Fault(fault_at(Code::MlbSyntax, file, 0)));
            };
            let item = Item {
                byte: at as u32,
                word: Vec::from_slice(alloc, word)?,
            };
            items.push(item)?;
            at += word.len();
        }
    }
    Ok(Mlb { items })
}
