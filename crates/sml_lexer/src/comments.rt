// Comments.

ghost use Rattle.std.specs.Prelude.{◌≡◌, ◌≤◌, ◌<◌, ◌^◌, true, drop, length, IfSome, option_map};
ghost use Rattle.sml_lexer.specs.Comments.{after_comments, begins_comment, closes, comment_item, opens};
ghost use Rattle.sml_lexer.specs.ItemOf.{IsConstant};

use crate::chars::byte_at;
use crate::item::Item;
use mlc_faults::code::Code;

fn opens(c: u8, d: u8) -> bool
    ensures { result ≡ opens c d }
{
    c == b'(' && d == b'*'
}

fn closes(c: u8, d: u8) -> bool
    ensures { result ≡ closes c d }
{
    c == b'*' && d == b')'
}

pub fn begins_comment(text: &[u8]) -> bool
    ensures { result ≡ begins_comment text.now }
{
    opens(byte_at(text, 0), byte_at(text, 1))
}

/// Where the comment ends inside which this index lies.
fn comment_end(text: &[u8], from: usize) -> Option<usize>
    requires { length text.now < 2 ^ 32 }
    ensures same { option_map (λ end. drop end text.now) result ≡ after_comments 1 (drop from text.now) }
    ensures within { IfSome result (λ end. (from < end) × (end ≤ length text.now)) }
{
    let mut open_ones: usize = 1;
    let mut at = from;
    while at < text.len() && at + 1 < text.len() {
        let (c, d) = (text[at], text[at + 1]);
        if opens(c, d) {
            open_ones += 1;
            at += 2;
        } else if closes(c, d) {
            at += 2;
            if open_ones == 1 {
                return Some(at);
            }
            open_ones -= 1;
        } else {
            at += 1;
        }
    }
    None
}

/// The comment that a text begins with.
pub fn comment_item(text: &[u8]) -> Item
    requires { length text.now < 2 ^ 32 }
    ensures { IsConstant text.now result (comment_item text.now) }
{
    match comment_end(text, 2) {
        Some(end) => Item::Blank(end),
        None => Item::Refused(Code::NoToken),
    }
}
