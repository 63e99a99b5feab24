// Atomic expressions that no bracket begins, and what expressions begin with.

ghost use Rattle.std.specs.Prelude.{◌≡◌, ℕ, Some, None, MatchOption, MatchResult};
ghost use Rattle.sml_tree.specs.ReadTree as read;
ghost use Rattle.sml_tree.specs.TreeOf.{long_vid_of};
ghost use Rattle.sml_grammar.specs.Answer.{Answer, deep_if};
ghost use Rattle.sml_grammar.specs.Terminals.{taken, place_at, first_as, as_any_long};
ghost use Rattle.sml_grammar.specs.Expressions.{is_keyword, start_of, begins, begins_atom, atom_start, is_atom_start, vid_if};
ghost use Rattle.phrase_base.specs.Gives.{Fails, Gives};
ghost use Rattle.phrase_base.specs.Left.{left};
ghost use Rattle.sml_phrases.specs.VidPlace.{vid_place};
ghost use Rattle.sml_phrases.specs.ExpressionsRead.{IsAtom, leaf_by, atom_vid};
ghost use Rattle.phrase_base.specs.declared.stop.Stop.TheVariants.{Memory};

use crate::nodes::{constant, name};
use crate::ties::is_infix;
use crate::vids::{constant_at, names_vid, vid_place};
use mlc_names::token::{Reserved, Token, TokenKind};
use phrase_base::got::Got;
use phrase_base::source::Source;
use phrase_base::stop::Stop;
use phrase_base::tokens::{after_word, label_at, place_at};
use sml_tree::derive::selector;
use sml_tree::fixity::Fixities;
use sml_tree::ident::{LongVid, Vid};
use sml_tree::tree::Exp;
use std::alloc::Global;

/// Whether a form that begins with a keyword stands first.
pub fn is_keyword(source: &Source, tokens: &[Token]) -> bool
    ensures { result ≡ is_keyword (start_of (left source.now tokens.now)) }
{
    let [first, ..] = tokens else { return false };
    match &first.kind {
        TokenKind::Reserved(Reserved::Raise) => true,
        TokenKind::Reserved(Reserved::If) => true,
        TokenKind::Reserved(Reserved::While) => true,
        TokenKind::Reserved(Reserved::Case) => true,
        TokenKind::Reserved(Reserved::Fn) => true,
        _ => false,
    }
}

/// Whether what `op` may stand before comes first.
fn is_op_name(source: &Source, tokens: &[Token]) -> bool
    ensures { (p : ℕ) → result ≡ is_atom_start (vid_if p (first_as as_any_long (left source.now tokens.now))) }
{
    let [first, ..] = tokens else { return false };
    match &first.kind {
        TokenKind::Reserved(Reserved::Equals) => true,
        TokenKind::Ident(_) => true,
        TokenKind::Symbol(_) => true,
        TokenKind::LongIdent(_, _) => true,
        TokenKind::LongSymbol(_, _) => true,
        _ => false,
    }
}

/// Whether an atomic expression begins with these tokens.
pub fn begins_atom(source: &Source, fix: &Fixities, tokens: &[Token]) -> bool
    ensures { result ≡ begins_atom fix.now (left source.now tokens.now) }
{
    let [first, rest @ ..] = tokens else {
        return false
    };
    match &first.kind {
        TokenKind::Reserved(Reserved::LeftBrace) => true,
        TokenKind::Reserved(Reserved::Hash) => true,
        TokenKind::Reserved(Reserved::LeftParen) => true,
        TokenKind::Reserved(Reserved::LeftBracket) => true,
        TokenKind::Reserved(Reserved::Let) => true,
        TokenKind::Reserved(Reserved::Equals) => !is_infix(fix, &Vid::Equals),
        TokenKind::Reserved(Reserved::Op) => is_op_name(source, rest),
        TokenKind::Int { value: _, plain: _ } => true,
        TokenKind::Word(_) => true,
        TokenKind::Char(_) => true,
        TokenKind::Str(_) => true,
        TokenKind::Ident(name) => !is_infix(fix, &Vid::Named(*name)),
        TokenKind::Symbol(name) => !is_infix(fix, &Vid::Named(*name)),
        TokenKind::LongIdent(_, _) => true,
        TokenKind::LongSymbol(_, _) => true,
        _ => false,
    }
}

/// Why no expression is read where none may be as deep as that: one begins here, or none does.
pub fn no_room(source: &Source, fix: &Fixities, level: u32, tokens: &[Token]) -> Stop
    ensures { Fails {A = read.Exp} result (deep_if (begins fix.now level (left source.now tokens.now))) }
{
    if begins_atom(source, fix, tokens) {
        return Stop::Deep(tokens.len());
    }
    if level <= 4 && is_keyword(source, tokens) {
        return Stop::Deep(tokens.len());
    }
    Stop::Bad(tokens.len())
}

/// The same for atomic expressions.
pub fn no_atom_room(source: &Source, fix: &Fixities, tokens: &[Token]) -> Stop
    ensures { Fails {A = read.Exp} result (deep_if (begins_atom fix.now (left source.now tokens.now))) }
{
    if begins_atom(source, fix, tokens) {
        Stop::Deep(tokens.len())
    } else {
        Stop::Bad(tokens.len())
    }
}

/// The identifier that an atomic expression is.
fn atom_vid<'a>(
    alloc: Global,
    source: &Source,
    fix: &Fixities,
    tokens: &'a [Token],
) -> Result<Option<(LongVid, &'a [Token])>, Stop>
    ensures { MatchResult result (λ found. MatchOption found (atom_vid fix.now (left source.now tokens.now) ≡ None)
        (λ x. atom_vid fix.now (left source.now tokens.now)
        ≡ taken (record { place = vid_place (left source.now tokens.now); it = long_vid_of x.0 }) (left source.now x.1.now)))
        (λ e. e ≡ Memory) }
{
    match after_word(source, Reserved::Equals, tokens) {
        Some(rest) => {
            if is_infix(fix, &Vid::Equals) {
                return Ok(None);
            }
            Ok(Some((
                LongVid {
                    qualifiers: Vec::new(alloc),
                    vid: Vid::Equals,
                },
                rest,
            )))
        }
        None => names_vid(alloc, source, fix, tokens),
    }
}

/// An atomic expression that no bracket begins.
pub fn leaf_atom<'a>(
    alloc: Global,
    source: &Source,
    fix: &Fixities,
    tokens: &'a [Token],
) -> Result<Got<'a, Exp>, Stop>
    ensures gives { Gives (λ x r. IsAtom fix.now source.now 1 (left source.now tokens.now) x.it x.depth x.rest.now r)
        result (leaf_by (atom_start fix.now (left source.now tokens.now))) }
{
    let place = place_at(source, tokens);
    if let Some((it, rest)) = constant_at(alloc, source, tokens)? {
        return Ok(Got {
            it: constant(place, it),
            depth: 1,
            rest,
        });
    }
    if let Some(after) = after_word(source, Reserved::Hash, tokens) {
        let Some((label, rest)) = label_at(source, after) else {
            return Err(Stop::Bad(after.len()))
        };
        let it = selector(alloc, place, label)?;
        return Ok(Got { it, depth: 1, rest });
    }
    match atom_vid(alloc, source, fix, tokens)? {
        Some((long, rest)) => Ok(Got {
            it: name(vid_place(source, tokens), long),
            depth: 1,
            rest,
        }),
        None => Err(Stop::Bad(tokens.len())),
    }
}
