// Tokens as text.

ghost use Rattle.std.specs.Prelude.{◌<◌, ◌^◌, ◌+◌, length, All};
ghost use Rattle.sml_lexer.specs.Lexeme.{HoldsNames};
ghost use Rattle.sml_lexer.specs.Lexes.{HoldsAllNames};

use mlc_base::memory::NoMemory;
use mlc_faults::fault::Fault;
use mlc_faults::refused::Refused;
use mlc_names::names::{Name, Names};
use mlc_names::token::{Token, TokenKind};
use sml_lexer::lex::lex;
use std::alloc::Global;
use std::fmt::Debug;

fn push_bytes(text: &mut String, bytes: &[u8]) -> Result<(), NoMemory> {
    for byte in bytes {
        if *byte < 128 {
            text.push(char::from(*byte))?;
        }
    }
    Ok(())
}

fn push_value<T: Debug>(
    alloc: Global,
    text: &mut String,
    sort: &str,
    value: &T,
) -> Result<(), NoMemory> {
    let shown = format!(in alloc; "{sort}{value:?}")?;
    text.push_str(shown.as_str())?;
    Ok(())
}

fn push_named(text: &mut String, sort: &str, names: &Names, name: Name) -> Result<(), NoMemory>
    requires { name < length names.now }
{
    text.push_str(sort)?;
    push_bytes(text, names.text(name))
}

fn push_long(
    text: &mut String,
    names: &Names,
    qualifiers: &[Name],
    name: Name,
) -> Result<(), NoMemory>
    requires qualifiers { All (λ q. q < length names.now) qualifiers.now }
    requires name { name < length names.now }
{
    text.push_str("long")?;
    for qualifier in qualifiers {
        push_named(text, " ", names, *qualifier)?;
    }
    push_named(text, " ", names, name)
}

fn push_long_symbol(
    text: &mut String,
    names: &Names,
    qualifiers: &[Name],
    name: Name,
) -> Result<(), NoMemory>
    requires qualifiers { All (λ q. q < length names.now) qualifiers.now }
    requires name { name < length names.now }
{
    push_long(text, names, qualifiers, name)?;
    text.push_str(" sym")?;
    Ok(())
}

fn push_kind(
    alloc: Global,
    text: &mut String,
    names: &Names,
    kind: &TokenKind,
) -> Result<(), NoMemory>
    requires { HoldsNames names.now kind.now }
{
    match kind {
        TokenKind::Reserved(word) => push_value(alloc, text, "", word),
        TokenKind::Int { value, plain: true } => push_value(alloc, text, "plain ", value),
        TokenKind::Int {
            value,
            plain: false,
        } => push_value(alloc, text, "int ", value),
        TokenKind::Word(value) => push_value(alloc, text, "word ", value),
        TokenKind::Char(value) => push_value(alloc, text, "char ", value),
        TokenKind::Str(value) => push_value(alloc, text, "str ", value),
        TokenKind::Ident(name) => push_named(text, "id ", names, *name),
        TokenKind::Symbol(name) => push_named(text, "sym ", names, *name),
        TokenKind::LongIdent(qualifiers, name) => push_long(text, names, qualifiers, *name),
        TokenKind::LongSymbol(qualifiers, name) => {
            push_long_symbol(text, names, qualifiers, *name)
        }
        TokenKind::TypeVar(name) => push_named(text, "ty ", names, *name),
        TokenKind::EqTypeVar(name) => push_named(text, "eqty ", names, *name),
    }
}

fn push_token(
    alloc: Global,
    text: &mut String,
    names: &Names,
    token: &Token,
) -> Result<(), NoMemory>
    requires { HoldsNames names.now token.now.kind }
{
    push_kind(alloc, text, names, &token.kind)?;
    push_value(alloc, text, " ", &token.span.first)?;
    push_value(alloc, text, "-", &token.span.end)?;
    text.push_str("; ")?;
    Ok(())
}

fn shown_tokens(alloc: Global, names: &Names, tokens: &[Token]) -> Result<String, NoMemory>
    requires { HoldsAllNames names.now tokens.now }
{
    let mut text = String::new(alloc);
    for token in tokens {
        push_token(alloc, &mut text, names, token)?;
    }
    Ok(text)
}

fn shown_fault(alloc: Global, fault: &Fault) -> Result<String, NoMemory> {
    let (code, file, byte) = (fault.code.number(), fault.place.file, fault.place.byte);
    Ok(format!(in alloc; "E{code} in {file} at {byte}")?)
}

/// Each token with its span, or the refusal with its place.
pub fn shown(alloc: Global, bytes: &[u8]) -> Result<String, NoMemory>
    requires { length bytes.now + 1 < 2 ^ 32 }
{
    let mut names = Names::new(alloc)?;
    match lex(alloc, &mut names, 7, bytes) {
        Ok(tokens) => shown_tokens(alloc, &names, tokens.as_slice()),
        Err(Refused::Fault(fault)) => shown_fault(alloc, &fault),
        Err(Refused::Memory) => Err(NoMemory),
    }
}
