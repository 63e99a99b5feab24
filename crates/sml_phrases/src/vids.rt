// Identifiers of values under fixities, and special constants.

ghost use Rattle.std.specs.Prelude.{◌≡◌, ◌≤◌, ℕ, Some, None, IfSome, MatchOption, MatchResult};
ghost use Rattle.sml_tree.specs.declared.ident.Vid.TheVariants.{Named};
ghost use Rattle.sml_tree.specs.Bare as bare;
ghost use Rattle.sml_tree.specs.Fixity.{fix_of};
ghost use Rattle.sml_tree.specs.Levels.{infix_level, vid_level, vid_right};
ghost use Rattle.sml_tree.specs.TreeOf.{constant_of, long_vid_of};
ghost use Rattle.sml_grammar.specs.Terminals.{place_at, first_as, as_constant, as_any_vid, as_any_long, as_qualified, plain_vid, infix_vid, binds_vid, names_vid, taken};
ghost use Rattle.sml_grammar.specs.Bindings.{as_digit};
ghost use Rattle.phrase_base.specs.Left.{left};
ghost use Rattle.sml_phrases.specs.VidPlace.{vid_place};
ghost use Rattle.phrase_base.specs.declared.stop.Stop.TheVariants.{Memory};

use mlc_base::place::Place;
use mlc_names::names::Name;
use mlc_names::token::{Reserved, Token, TokenKind};
use phrase_base::source::Source;
use phrase_base::stop::Stop;
use phrase_base::tokens::{after_word, place_at, vid_at};
use sml_tree::fixity::{Fixities, Infix};
use sml_tree::ident::{Constant, LongVid, Vid};
use std::alloc::Global;

/// The level of what an infix identifier joins.
pub fn infix_level(how: Infix) -> u32
    ensures { result ≡ infix_level (Some how) }
{
    8 + u32::from(how.precedence.min(9))
}

/// The digit that stands first.
pub fn digit_at<'a>(source: &Source, tokens: &'a [Token]) -> Option<(u8, &'a [Token])>
    ensures { MatchOption result (first_as as_digit (left source.now tokens.now) ≡ None)
        (λ x. first_as as_digit (left source.now tokens.now)
        ≡ taken (record { place = place_at (left source.now tokens.now); it = x.0 }) (left source.now x.1.now)) }
{
    match tokens {
        [first, rest @ ..] => match &first.kind {
            TokenKind::Int { value, plain } => {
                if *plain && *value >= 0 && *value <= 9 {
                    Some((*value as u8, rest))
                } else {
                    None
                }
            }
            _ => None,
        },
        [] => None,
    }
}

/// The special constant that stands first.
pub fn constant_at<'a>(
    alloc: Global,
    source: &Source,
    tokens: &'a [Token],
) -> Result<Option<(Constant, &'a [Token])>, Stop>
    ensures { MatchResult result (λ found. MatchOption found (first_as as_constant (left source.now tokens.now) ≡ None)
        (λ x. first_as as_constant (left source.now tokens.now)
        ≡ taken (record { place = place_at (left source.now tokens.now); it = constant_of x.0 }) (left source.now x.1.now)))
        (λ e. e ≡ Memory) }
{
    match tokens {
        [first, rest @ ..] => match &first.kind {
            TokenKind::Int { value, plain: _ } => Ok(Some((Constant::Int(*value), rest))),
            TokenKind::Word(value) => Ok(Some((Constant::Word(*value), rest))),
            TokenKind::Char(value) => Ok(Some((Constant::Char(*value), rest))),
            TokenKind::Str(bytes) => {
                let bytes = Vec::from_slice(alloc, bytes.as_slice())?;
                Ok(Some((Constant::Str(bytes), rest)))
            }
            _ => Ok(None),
        },
        [] => Ok(None),
    }
}

/// The identifier that stands first, where it isn't infix and isn't `=`.
pub fn plain_vid<'a>(
    source: &Source,
    fix: &Fixities,
    tokens: &'a [Token],
) -> Option<(Name, &'a [Token])>
    ensures { MatchOption result (plain_vid fix.now (left source.now tokens.now) ≡ None)
        (λ x. plain_vid fix.now (left source.now tokens.now)
        ≡ taken (record { place = place_at (left source.now tokens.now); it = x.0 }) (left source.now x.1.now)) }
{
    match vid_at(source, tokens) {
        Some((name, rest)) => match fix.of(&Vid::Named(name)) {
            None => Some((name, rest)),
            Some(_) => None,
        },
        None => None,
    }
}

/// The identifier that stands first, where it is infix and isn't `=`, and how it binds.
pub fn infix_vid<'a>(
    source: &Source,
    fix: &Fixities,
    tokens: &'a [Token],
) -> Option<(Name, Infix, &'a [Token])>
    ensures vid { MatchOption result (infix_vid fix.now (left source.now tokens.now) ≡ None)
        (λ x. infix_vid fix.now (left source.now tokens.now)
        ≡ taken (record { place = place_at (left source.now tokens.now); it = x.0 }) (left source.now x.2.now)) }
    ensures binds { IfSome result (λ x. fix_of (Named x.0) fix.now ≡ Some x.1) }
{
    match vid_at(source, tokens) {
        Some((name, rest)) => match fix.of(&Vid::Named(name)) {
            None => None,
            Some(how) => Some((name, how, rest)),
        },
        None => None,
    }
}

/// The infix identifier that stands first.
pub fn joint_at<'a>(
    source: &Source,
    fix: &Fixities,
    tokens: &'a [Token],
) -> Option<(Name, &'a [Token])>
    ensures { MatchOption result (infix_vid fix.now (left source.now tokens.now) ≡ None)
        (λ x. infix_vid fix.now (left source.now tokens.now)
        ≡ taken (record { place = place_at (left source.now tokens.now); it = x.0 }) (left source.now x.1.now)) }
{
    match infix_vid(source, fix, tokens) {
        Some((name, _, rest)) => Some((name, rest)),
        None => None,
    }
}

/// The level of what an identifier joins.
pub fn vid_level(fix: &Fixities, name: Name) -> u32
    ensures { result ≡ vid_level fix.now (Named name) }
{
    match fix.of(&Vid::Named(name)) {
        Some(how) => infix_level(how),
        None => 8,
    }
}

/// Whether an identifier associates to the right.
pub fn vid_right(fix: &Fixities, name: Name) -> bool
    ensures { result ≡ vid_right fix.now (Named name) }
{
    match fix.of(&Vid::Named(name)) {
        Some(how) => how.right,
        None => false,
    }
}

/// What `op` may stand before, without a qualifier.
fn any_vid<'a>(source: &Source, tokens: &'a [Token]) -> Option<(Vid, &'a [Token])>
    ensures { MatchOption result (first_as as_any_vid (left source.now tokens.now) ≡ None)
        (λ x. first_as as_any_vid (left source.now tokens.now)
        ≡ taken (record { place = place_at (left source.now tokens.now); it = x.0 }) (left source.now x.1.now)) }
{
    match tokens {
        [first, rest @ ..] => match &first.kind {
            TokenKind::Ident(name) => Some((Vid::Named(*name), rest)),
            TokenKind::Symbol(name) => Some((Vid::Named(*name), rest)),
            TokenKind::Reserved(Reserved::Equals) => Some((Vid::Equals, rest)),
            _ => None,
        },
        [] => None,
    }
}

/// The place of the identifier in `[op] vid` or `[op] longvid`.
pub fn vid_place(source: &Source, tokens: &[Token]) -> Place
    ensures { result ≡ bare.at source.now.file (vid_place (left source.now tokens.now)) }
{
    match after_word(source, Reserved::Op, tokens) {
        Some(rest) => place_at(source, rest),
        None => place_at(source, tokens),
    }
}

/// `[op] vid`, where the identifier isn't infix or `op` stands before it.
pub fn binds_vid<'a>(
    source: &Source,
    fix: &Fixities,
    tokens: &'a [Token],
) -> Option<(Vid, &'a [Token])>
    ensures { MatchOption result (binds_vid fix.now (left source.now tokens.now) ≡ None)
        (λ x. binds_vid fix.now (left source.now tokens.now)
        ≡ taken (record { place = vid_place (left source.now tokens.now); it = x.0 }) (left source.now x.1.now)) }
{
    if let Some(rest) = after_word(source, Reserved::Op, tokens) {
        return any_vid(source, rest);
    }
    match plain_vid(source, fix, tokens) {
        Some((name, rest)) => Some((Vid::Named(name), rest)),
        None => None,
    }
}

/// An identifier with a qualifier.
fn qualified<'a>(
    alloc: Global,
    source: &Source,
    tokens: &'a [Token],
) -> Result<Option<(LongVid, &'a [Token])>, Stop>
    ensures { MatchResult result (λ found. MatchOption found (first_as as_qualified (left source.now tokens.now) ≡ None)
        (λ x. first_as as_qualified (left source.now tokens.now)
        ≡ taken (record { place = place_at (left source.now tokens.now); it = long_vid_of x.0 }) (left source.now x.1.now)))
        (λ e. e ≡ Memory) }
{
    match tokens {
        [first, rest @ ..] => match &first.kind {
            TokenKind::LongIdent(qualifiers, name) => {
                let qualifiers = Vec::from_slice(alloc, qualifiers.as_slice())?;
                Ok(Some((
                    LongVid {
                        qualifiers,
                        vid: Vid::Named(*name),
                    },
                    rest,
                )))
            }
            TokenKind::LongSymbol(qualifiers, name) => {
                let qualifiers = Vec::from_slice(alloc, qualifiers.as_slice())?;
                Ok(Some((
                    LongVid {
                        qualifiers,
                        vid: Vid::Named(*name),
                    },
                    rest,
                )))
            }
            _ => Ok(None),
        },
        [] => Ok(None),
    }
}

/// What `op` may stand before.
fn any_long<'a>(
    alloc: Global,
    source: &Source,
    tokens: &'a [Token],
) -> Result<Option<(LongVid, &'a [Token])>, Stop>
    ensures { MatchResult result (λ found. MatchOption found (first_as as_any_long (left source.now tokens.now) ≡ None)
        (λ x. first_as as_any_long (left source.now tokens.now)
        ≡ taken (record { place = place_at (left source.now tokens.now); it = long_vid_of x.0 }) (left source.now x.1.now)))
        (λ e. e ≡ Memory) }
{
    if let Some((vid, rest)) = any_vid(source, tokens) {
        return Ok(Some((
            LongVid {
                qualifiers: Vec::new(alloc),
                vid,
            },
            rest,
        )));
    }
    match qualified(alloc, source, tokens)? {
        Some((long, rest)) => Ok(Some((long, rest))),
        None => Ok(None),
    }
}

/// `[op] longvid`, where the identifier isn't infix or `op` stands before it.
pub fn names_vid<'a>(
    alloc: Global,
    source: &Source,
    fix: &Fixities,
    tokens: &'a [Token],
) -> Result<Option<(LongVid, &'a [Token])>, Stop>
    ensures { MatchResult result (λ found. MatchOption found (names_vid fix.now (left source.now tokens.now) ≡ None)
        (λ x. names_vid fix.now (left source.now tokens.now)
        ≡ taken (record { place = vid_place (left source.now tokens.now); it = long_vid_of x.0 }) (left source.now x.1.now)))
        (λ e. e ≡ Memory) }
{
    if let Some(rest) = after_word(source, Reserved::Op, tokens) {
        return any_long(alloc, source, rest);
    }
    if let Some((name, rest)) = plain_vid(source, fix, tokens) {
        return Ok(Some((
            LongVid {
                qualifiers: Vec::new(alloc),
                vid: Vid::Named(name),
            },
            rest,
        )));
    }
    qualified(alloc, source, tokens)
}
