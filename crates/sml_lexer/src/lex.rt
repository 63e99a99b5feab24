// The tokens of a file.

ghost use Rattle.std.specs.Prelude.{◌≡◌, ◌+◌, ◌^◌, ◌<◌, List, length, map, All, IfOk};
ghost use Rattle.sml_lexer.specs.Lexes.{HoldsAllNames, IfFault, IsRefused, IsSlice, Lexed, Lexes, OneReading, Rises, lexed_of, names_after};
ghost use Rattle.sml_lexer.specs.Longest.{ItemsAreLongest};
ghost use Rattle.sml_lexer.specs.NameTable.{Keeps};

use crate::chars::rest;
use crate::item::Item;
use crate::items::next_item;
use mlc_base::place::Place;
use mlc_faults::fault::Fault;
use mlc_faults::refused::Refused;
use mlc_names::names::Names;
use mlc_names::token::{Span, Token, Tokens};
use std::alloc::Global;

/// The tokens of a file.
pub fn lex(alloc: Global, names: &mut Names, file: u32, bytes: &[u8]) -> Result<Tokens, Refused>
    requires { length bytes.now + 1 < 2 ^ 32 }
    ensures kept { Keeps names.old names.new }
    ensures table { IfOk result (λ tokens. names.new ≡ names_after names.old (map (lexed_of names.new) tokens)) }
    ensures tokens { IfOk result (λ tokens. Lexes bytes.now (map (lexed_of names.new) tokens)) }
    ensures held { IfOk result (λ tokens. HoldsAllNames names.new tokens) }
    ensures slices { IfOk result (λ tokens. All (IsSlice bytes.now names.new) tokens) }
    ensures spans { IfOk result (λ tokens. Rises 0 tokens (length bytes.now)) }
    ensures fault { IfFault result (λ fault. IsRefused bytes.now file fault) }
    ensures no_tokens { IfFault result (λ _. (tokens : List Lexed) → Lexes bytes.now tokens → ⊥) }
{
    let mut tokens = Vec::new(alloc);
    let mut at = 0;
    'items: while at < bytes.len() {
        match next_item(alloc, names, rest(bytes, at))? {
            Item::Blank(len) => at += len,
            Item::Token(kind, len) => {
                let span = Span {
                    first: at as u32,
                    end: (at + len) as u32,
                };
                tokens.push(Token { kind, span })?;
                at += len;
            }
            Item::Refused(code) => {
                let place = Place {
                    file,
                    byte: at as u32,
                };
                return Err(Refused::Fault(Fault {
                    code,
                    place,
                    name: None,
                }));
            }
        }
    }
    Ok(Tokens::from_vec(tokens))
}

/// No file has two lists of tokens.
pub fn one_reading()
    ensures { OneReading }
{}

/// Each item is the longest that begins at its place, and where a file is refused for want of a token, none begins.
pub fn items_are_longest()
    ensures { ItemsAreLongest }
{}
