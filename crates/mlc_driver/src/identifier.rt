// The identifier at a place, which the elaborator doesn't tell.

ghost use Rattle.std.specs.Prelude.{◌<◌, length, IfOk};
ghost use Rattle.std.specs.Option.{ForSome};
ghost use Rattle.sml_lexer.specs.NameTable.{Keeps};

use mlc_base::memory::NoMemory;
use mlc_base::place::Place;
use mlc_faults::refused::Refused;
use mlc_names::names::{Name, Names};
use mlc_names::token::{Reserved, Span, Token, TokenKind};
use sml_lexer::lex::lex;
use std::alloc::Global;

/// Whether a token is an identifier, a long one, or a type variable.
fn is_identifier(kind: &TokenKind) -> bool {
    match kind {
        TokenKind::Ident(_) | TokenKind::Symbol(_) => true,
        TokenKind::LongIdent(_, _) | TokenKind::LongSymbol(_, _) => true,
        TokenKind::TypeVar(_) | TokenKind::EqTypeVar(_) => true,
        _ => false,
    }
}

/// Where the identifier stands that begins at a byte, perhaps after `op`.
fn identifier_from(tokens: &[Token], byte: u32) -> Option<Span> {
    for token in tokens {
        if token.span.first >= byte {
            match token.kind {
                TokenKind::Reserved(Reserved::Op) => {}
                _ if is_identifier(&token.kind) => return Some(token.span),
                _ => return None,
            }
        }
    }
    None
}

/// The text that stands there, as a name.
fn name_at(
    alloc: Global,
    names: &mut Names,
    bytes: &[u8],
    span: Span,
) -> Result<Option<Name>, NoMemory>
    ensures kept { Keeps names.old names.new }
    ensures held { IfOk result (λ name. ForSome name (λ n. n < length names.new)) }
{
    let (first, end) = (span.first as usize, span.end as usize);
    if first > end || end > bytes.len() {
        return Ok(None);
    }
    let name = names.intern(alloc, &bytes[first..end])?;
    Ok(Some(name))
}

/// The identifier at a place in a file of these bytes, as it is written there.
pub fn identifier_at(
    alloc: Global,
    names: &mut Names,
    bytes: &[u8],
    place: Place,
) -> Result<Option<Name>, NoMemory>
    ensures kept { Keeps names.old names.new }
    ensures held { IfOk result (λ name. ForSome name (λ n. n < length names.new)) }
{
    if bytes.len() >= u32::MAX as usize {
        return Ok(None);
    }
    match lex(alloc, names, place.file, bytes) {
        Ok(tokens) => match identifier_from(tokens.as_slice(), place.byte) {
            Some(span) => name_at(alloc, names, bytes, span),
            None => Ok(None),
        },
        Err(Refused::Memory) => Err(NoMemory),
        Err(Refused::Fault(_)) => Ok(None),
    }
}
