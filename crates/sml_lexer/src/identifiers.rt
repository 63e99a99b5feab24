// Identifiers.

ghost use Rattle.std.specs.Prelude.{◌≡◌, ◌<◌, ◌≤◌, ◌^◌, ◌+◌, [], true, drop, take, length, IfOk, OnOk, map, All, ℕ, List};
ghost use Rattle.mlc_names.specs.Names.{with_text, with_texts};
ghost use Rattle.sml_lexer.specs.Chars.{byte, is_letter, is_symbol_char};
ghost use Rattle.sml_lexer.specs.Identifiers.{name_item, named, next_part, qualified, symbol_item, type_var_item};
ghost use Rattle.sml_lexer.specs.Item.{words_of};
ghost use Rattle.sml_lexer.specs.ItemOf.{IsItem, FitsPart};
ghost use Rattle.sml_lexer.specs.Lexeme.{HoldsNames, lexeme_of, text_of};
ghost use Rattle.sml_lexer.specs.NameTable.{Keeps};

use crate::chars::{Class, byte_at, front, is_letter, is_symbol_char, rest, run_len};
use crate::item::Item;
use crate::reserved::{free_symbol_len, free_word_len, symbolic_of, word_of};
use mlc_base::memory::NoMemory;
use mlc_names::names::{Name, Names};
use mlc_names::token::TokenKind;
use std::alloc::Global;

/// An identifier by its sort and how many bytes it has.
#[derive(Clone, Copy)]
pub enum Part {
    Letters(usize),
    Symbols(usize),
    Nothing,
}

/// The longest identifier that a text begins with.
fn next_part(text: &[u8]) -> Part
    ensures same { result ≡ next_part text.now }
    ensures within { FitsPart text.now result }
{
    if is_letter(byte_at(text, 0)) {
        match free_word_len(run_len(Class::NameChar, text), text) {
            0 => Part::Nothing,
            len => Part::Letters(len),
        }
    } else if is_symbol_char(byte_at(text, 0)) {
        match free_symbol_len(run_len(Class::SymbolChar, text), text) {
            0 => Part::Nothing,
            len => Part::Symbols(len),
        }
    } else {
        Part::Nothing
    }
}

/// The name of these bytes.
fn name_of(alloc: Global, names: &mut Names, bytes: &[u8]) -> Result<Name, NoMemory>
    ensures kept { Keeps names.old names.new }
    ensures held { IfOk result (λ name. name < length names.new) }
    ensures text { IfOk result (λ name. text_of names.new name ≡ bytes.now) }
    ensures table { OnOk result (names.new ≡ with_text names.old bytes.now) }
{
    names.intern(alloc, bytes)
}

/// An alphanumeric identifier with these structure identifiers before it.
fn named(qualifiers: Vec<Name>, name: Name) -> TokenKind
    ensures same { (names : List (List ℕ)) → lexeme_of names result ≡ named (map (text_of names) qualifiers.items) (text_of names name) }
    ensures held { (names : List (List ℕ)) → All (λ q. q < length names) qualifiers.items → name < length names → HoldsNames names result }
{
    if qualifiers.is_empty() {
        TokenKind::Ident(name)
    } else {
        TokenKind::LongIdent(qualifiers, name)
    }
}

/// The identifier that the name of so many bytes begins, with all that it qualifies.
fn qualified(alloc: Global, names: &mut Names, text: &[u8], len: usize) -> Result<Item, NoMemory>
    requires small { length text.now < 2 ^ 32 }
    requires some { 0 < len }
    requires within { len ≤ length text.now }
    ensures kept { Keeps names.old names.new }
    ensures item { IfOk result (λ item. IsItem names.new text.now item (qualified 0 [] (take len text.now) (drop len text.now))) }
    ensures table { OnOk result (names.new ≡ with_texts names.old (words_of (qualified 0 [] (take len text.now) (drop len text.now)))) }
{
    let mut qualifiers = Vec::new(alloc);
    let mut name = name_of(alloc, names, front(text, len))?;
    let mut at = len;
    'parts: while byte_at(text, at) == b'.' {
        let part = rest(text, at + 1);
        match next_part(part) {
            Part::Letters(len) => {
                qualifiers.push(name)?;
                name = name_of(alloc, names, front(part, len))?;
                at += 1 + len;
            }
            Part::Symbols(len) => {
                qualifiers.push(name)?;
                let last = name_of(alloc, names, front(part, len))?;
                return Ok(Item::Token(TokenKind::LongSymbol(qualifiers, last), at + 1 + len));
            }
            Part::Nothing => return Ok(Item::Token(named(qualifiers, name), at)),
        }
    }
    Ok(Item::Token(named(qualifiers, name), at))
}

/// The reserved word or the identifier whose first letter a text begins with.
pub fn name_item(alloc: Global, names: &mut Names, text: &[u8]) -> Result<Item, NoMemory>
    requires small { length text.now < 2 ^ 32 }
    requires letter { is_letter (byte text.now 0) ≡ true }
    ensures kept { Keeps names.old names.new }
    ensures item { IfOk result (λ item. IsItem names.new text.now item (name_item text.now)) }
    ensures table { OnOk result (names.new ≡ with_texts names.old (words_of (name_item text.now))) }
{
    let len = run_len(Class::NameChar, text);
    let word = front(text, len);
    match word_of(word) {
        Some(reserved) => Ok(Item::Token(TokenKind::Reserved(reserved), len)),
        None => qualified(alloc, names, text, len),
    }
}

/// The reserved word or the identifier whose first symbolic character a text begins with.
pub fn symbol_item(alloc: Global, names: &mut Names, text: &[u8]) -> Result<Item, NoMemory>
    requires { is_symbol_char (byte text.now 0) ≡ true }
    ensures kept { Keeps names.old names.new }
    ensures item { IfOk result (λ item. IsItem names.new text.now item (symbol_item text.now)) }
    ensures table { OnOk result (names.new ≡ with_texts names.old (words_of (symbol_item text.now))) }
{
    let len = run_len(Class::SymbolChar, text);
    let symbols = front(text, len);
    match symbolic_of(symbols) {
        Some(reserved) => Ok(Item::Token(TokenKind::Reserved(reserved), len)),
        None => {
            let name = name_of(alloc, names, symbols)?;
            Ok(Item::Token(TokenKind::Symbol(name), len))
        }
    }
}

/// The type variable whose prime a text begins with.
pub fn type_var_item(alloc: Global, names: &mut Names, text: &[u8]) -> Result<Item, NoMemory>
    requires { byte text.now 0 ≡ 39 }
    ensures kept { Keeps names.old names.new }
    ensures item { IfOk result (λ item. IsItem names.new text.now item (type_var_item text.now)) }
    ensures table { OnOk result (names.new ≡ with_texts names.old (words_of (type_var_item text.now))) }
{
    let len = run_len(Class::NameChar, text);
    let variable = front(text, len);
    let name = name_of(alloc, names, variable)?;
    if byte_at(variable, 1) == b'\'' {
        Ok(Item::Token(TokenKind::EqTypeVar(name), len))
    } else {
        Ok(Item::Token(TokenKind::TypeVar(name), len))
    }
}
