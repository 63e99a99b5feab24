// The item that a text begins with.

ghost use Rattle.std.specs.Prelude.{◌≡◌, ◌<◌, ◌^◌, true, length, IfOk, OnOk};
ghost use Rattle.mlc_names.specs.Names.{with_texts};
ghost use Rattle.sml_lexer.specs.Chars.{byte, is_space};
ghost use Rattle.sml_lexer.specs.Item.{words_of};
ghost use Rattle.sml_lexer.specs.ItemOf.{IsConstant, IsItem};
ghost use Rattle.sml_lexer.specs.Items.{begins_char, begins_dots, item_at, mark_item};
ghost use Rattle.sml_lexer.specs.NameTable.{Keeps};

use crate::chars::{Class, byte_at, front, is_letter, is_space, is_symbol_char, run_len};
use crate::comments::{begins_comment, comment_item};
use crate::identifiers::{name_item, symbol_item, type_var_item};
use crate::item::Item;
use crate::numbers::{begins_number, number_item};
use crate::reserved::mark_of;
use crate::strings::{char_item, string_item};
use mlc_base::memory::NoMemory;
use mlc_faults::code::Code;
use mlc_names::names::Names;
use mlc_names::token::{Reserved, TokenKind};
use std::alloc::Global;

fn begins_char(text: &[u8]) -> bool
    ensures { result ≡ begins_char text.now }
{
    byte_at(text, 0) == b'#' && byte_at(text, 1) == b'"'
}

fn begins_dots(text: &[u8]) -> bool
    ensures { result ≡ begins_dots text.now }
{
    byte_at(text, 0) == b'.' && byte_at(text, 1) == b'.' && byte_at(text, 2) == b'.'
}

/// The mark that a text begins with.
fn mark_item(text: &[u8]) -> Item
    requires { 0 < length text.now }
    ensures { IsConstant text.now result (mark_item text.now) }
{
    if begins_dots(text) {
        return Item::Token(TokenKind::Reserved(Reserved::Dots), 3);
    }
    match mark_of(front(text, 1)) {
        Some(mark) => Item::Token(TokenKind::Reserved(mark), 1),
        None => Item::Refused(Code::NoToken),
    }
}

/// The item that a text begins with.
#[tactic(auto, unfolding(crate::specs::Items::item_at))]
pub fn next_item(alloc: Global, names: &mut Names, text: &[u8]) -> Result<Item, NoMemory>
    requires some { 0 < length text.now }
    requires small { length text.now < 2 ^ 32 }
    ensures kept { Keeps names.old names.new }
    ensures item { IfOk result (λ item. IsItem names.new text.now item (item_at text.now)) }
    ensures table { OnOk result (names.new ≡ with_texts names.old (words_of (item_at text.now))) }
{
    let first = byte_at(text, 0);
    if is_space(first) {
        Ok(Item::Blank(run_len(Class::Space, text)))
    } else if is_letter(first) {
        name_item(alloc, names, text)
    } else if begins_number(text) {
        Ok(number_item(text))
    } else if first == b'\'' {
        type_var_item(alloc, names, text)
    } else if first == b'"' {
        string_item(alloc, text)
    } else if begins_char(text) {
        char_item(alloc, text)
    } else if begins_comment(text) {
        Ok(comment_item(text))
    } else if is_symbol_char(first) {
        symbol_item(alloc, names, text)
    } else {
        Ok(mark_item(text))
    }
}
