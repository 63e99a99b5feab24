// What the tokens that are left begin with.

ghost use Rattle.std.specs.Prelude.{◌≡◌, ◌<◌, ◌≤◌, length, map, Some, None, IfErr, MatchOption, MatchResult};
ghost use Rattle.sml_tree.specs.Bare as bare;
ghost use Rattle.sml_grammar.specs.Terminals.{after_word, after_star, place_at, word_at, tail, first_as, as_label, as_vid, as_tycon, as_tyvar, as_long_tycon, as_long_strid, taken};
ghost use Rattle.sml_tree.specs.TreeOf.{long_id_of};
ghost use Rattle.phrase_base.specs.Left.{left};
ghost use Rattle.phrase_base.specs.declared.stop.Stop.TheVariants.{Memory, Bad, Deep};

use crate::source::Source;
use crate::stop::Stop;
use mlc_base::place::Place;
use mlc_names::label::Label;
use mlc_names::names::Name;
use mlc_names::token::{Reserved, Token, TokenKind};
use sml_tree::ident::{LongId, Tyvar};
use std::alloc::Global;

/// The reserved word that stands first.
pub fn word_at(source: &Source, tokens: &[Token]) -> Option<Reserved>
    ensures { result ≡ word_at (left source.now tokens.now) }
{
    match tokens {
        [first, ..] => match &first.kind {
            TokenKind::Reserved(word) => Some(*word),
            _ => None,
        },
        [] => None,
    }
}

/// What follows the first token.
pub fn tail<'a>(source: &Source, tokens: &'a [Token]) -> &'a [Token]
    ensures { left source.now result.now ≡ tail (left source.now tokens.now) }
{
    match tokens {
        [_, rest @ ..] => rest,
        [] => tokens,
    }
}

/// What follows a reserved word, where it stands first.
pub fn after_word<'a>(source: &Source, word: Reserved, tokens: &'a [Token]) -> Option<&'a [Token]>
    ensures { MatchOption result (after_word word (left source.now tokens.now) ≡ None)
        (λ rest. after_word word (left source.now tokens.now) ≡ Some (left source.now rest.now)) }
{
    match word_at(source, tokens) {
        Some(first) => {
            if first == word {
                Some(tail(source, tokens))
            } else {
                None
            }
        }
        None => None,
    }
}

/// What follows a reserved word, which has to stand first.
pub fn past<'a>(source: &Source, word: Reserved, tokens: &'a [Token]) -> Result<&'a [Token], Stop>
    ensures word { MatchResult result (λ rest. after_word word (left source.now tokens.now) ≡ Some (left source.now rest.now))
        (λ e. after_word word (left source.now tokens.now) ≡ None) }
    ensures stop { IfErr result (λ e. e ≡ Bad (length tokens.now)) }
{
    match after_word(source, word, tokens) {
        Some(rest) => Ok(rest),
        None => Err(Stop::Bad(tokens.len())),
    }
}

/// Refuses a phrase that is `depth` deep as a part of one whose parts are at most `n` deep.
pub fn room(depth: u32, n: u32, tokens: &[Token]) -> Result<(), Stop>
    ensures fits { MatchResult result (λ _. depth ≤ n) (λ e. n < depth) }
    ensures stop { IfErr result (λ e. e ≡ Deep (length tokens.now)) }
{
    if depth > n {
        return Err(Stop::Deep(tokens.len()));
    }
    Ok(())
}

/// Where the first token begins; nobody asks where there is none.
pub fn place_at(source: &Source, tokens: &[Token]) -> Place
    ensures { result ≡ bare.at source.now.file (place_at (left source.now tokens.now)) }
{
    match tokens {
        [first, ..] => Place {
            file: source.file,
            byte: first.span.first,
        },
        [] => Place {
            file: source.file,
            byte: 0,
        },
    }
}

/// The label that stands first.
pub fn label_at<'a>(source: &Source, tokens: &'a [Token]) -> Option<(Label, &'a [Token])>
    ensures { MatchOption result (first_as as_label (left source.now tokens.now) ≡ None)
        (λ x. first_as as_label (left source.now tokens.now)
        ≡ taken (record { place = place_at (left source.now tokens.now); it = x.0 }) (left source.now x.1.now)) }
{
    match tokens {
        [first, rest @ ..] => match &first.kind {
            TokenKind::Int { value, plain } => {
                if *plain && *value > 0 {
                    Some((Label::Number(value.unsigned_abs()), rest))
                } else {
                    None
                }
            }
            TokenKind::Ident(name) => Some((Label::Word(*name), rest)),
            TokenKind::Symbol(name) => Some((Label::Word(*name), rest)),
            _ => None,
        },
        [] => None,
    }
}

/// The type variable that stands first.
pub fn tyvar_at<'a>(source: &Source, tokens: &'a [Token]) -> Option<(Tyvar, &'a [Token])>
    ensures { MatchOption result (first_as as_tyvar (left source.now tokens.now) ≡ None)
        (λ x. first_as as_tyvar (left source.now tokens.now)
        ≡ taken (record { place = place_at (left source.now tokens.now); it = x.0 }) (left source.now x.1.now)) }
{
    match tokens {
        [first, rest @ ..] => match &first.kind {
            TokenKind::TypeVar(name) => Some((
                Tyvar {
                    name: *name,
                    equality: false,
                },
                rest,
            )),
            TokenKind::EqTypeVar(name) => Some((
                Tyvar {
                    name: *name,
                    equality: true,
                },
                rest,
            )),
            _ => None,
        },
        [] => None,
    }
}

/// What follows `*`, where it stands first.
pub fn after_star<'a>(source: &Source, tokens: &'a [Token]) -> Option<&'a [Token]>
    ensures { MatchOption result (after_star (left source.now tokens.now) ≡ None)
        (λ rest. after_star (left source.now tokens.now) ≡ Some (left source.now rest.now)) }
{
    match tokens {
        [first, rest @ ..] => match &first.kind {
            TokenKind::Symbol(name) => {
                if *name == source.star {
                    Some(rest)
                } else {
                    None
                }
            }
            _ => None,
        },
        [] => None,
    }
}

/// The value identifier that stands first, other than `=`.
pub fn vid_at<'a>(source: &Source, tokens: &'a [Token]) -> Option<(Name, &'a [Token])>
    ensures { MatchOption result (first_as as_vid (left source.now tokens.now) ≡ None)
        (λ x. first_as as_vid (left source.now tokens.now)
        ≡ taken (record { place = place_at (left source.now tokens.now); it = x.0 }) (left source.now x.1.now)) }
{
    match tokens {
        [first, rest @ ..] => match &first.kind {
            TokenKind::Ident(name) => Some((*name, rest)),
            TokenKind::Symbol(name) => Some((*name, rest)),
            _ => None,
        },
        [] => None,
    }
}

/// The type constructor without a qualifier that stands first.
pub fn tycon_at<'a>(source: &Source, tokens: &'a [Token]) -> Option<(Name, &'a [Token])>
    ensures { MatchOption result (first_as as_tycon (left source.now tokens.now) ≡ None)
        (λ x. first_as as_tycon (left source.now tokens.now)
        ≡ taken (record { place = place_at (left source.now tokens.now); it = x.0 }) (left source.now x.1.now)) }
{
    match tokens {
        [first, rest @ ..] => match &first.kind {
            TokenKind::Ident(name) => Some((*name, rest)),
            TokenKind::Symbol(name) => {
                if *name == source.star {
                    None
                } else {
                    Some((*name, rest))
                }
            }
            _ => None,
        },
        [] => None,
    }
}

/// The type constructor that stands first.
pub fn long_tycon_at<'a>(
    alloc: Global,
    source: &Source,
    tokens: &'a [Token],
) -> Result<Option<(LongId, &'a [Token])>, Stop>
    ensures { MatchResult result (λ found. MatchOption found (first_as as_long_tycon (left source.now tokens.now) ≡ None)
        (λ x. first_as as_long_tycon (left source.now tokens.now)
        ≡ taken (record { place = place_at (left source.now tokens.now); it = long_id_of x.0 }) (left source.now x.1.now)))
        (λ e. e ≡ Memory) }
{
    match tokens {
        [first, rest @ ..] => match &first.kind {
            TokenKind::Ident(name) => Ok(Some((
                LongId {
                    qualifiers: Vec::new(alloc),
                    id: *name,
                },
                rest,
            ))),
            TokenKind::Symbol(name) => {
                if *name == source.star {
                    return Ok(None);
                }
                Ok(Some((
                    LongId {
                        qualifiers: Vec::new(alloc),
                        id: *name,
                    },
                    rest,
                )))
            }
            TokenKind::LongIdent(qualifiers, name) => {
                let qualifiers = Vec::from_slice(alloc, qualifiers.as_slice())?;
                Ok(Some((
                    LongId {
                        qualifiers,
                        id: *name,
                    },
                    rest,
                )))
            }
            TokenKind::LongSymbol(qualifiers, name) => {
                if *name == source.star {
                    return Ok(None);
                }
                let qualifiers = Vec::from_slice(alloc, qualifiers.as_slice())?;
                Ok(Some((
                    LongId {
                        qualifiers,
                        id: *name,
                    },
                    rest,
                )))
            }
            _ => Ok(None),
        },
        [] => Ok(None),
    }
}

/// The structure's identifier that stands first.
pub fn long_strid_at<'a>(
    alloc: Global,
    source: &Source,
    tokens: &'a [Token],
) -> Result<Option<(LongId, &'a [Token])>, Stop>
    ensures { MatchResult result (λ found. MatchOption found (first_as as_long_strid (left source.now tokens.now) ≡ None)
        (λ x. first_as as_long_strid (left source.now tokens.now)
        ≡ taken (record { place = place_at (left source.now tokens.now); it = long_id_of x.0 }) (left source.now x.1.now)))
        (λ e. e ≡ Memory) }
{
    match tokens {
        [first, rest @ ..] => match &first.kind {
            TokenKind::Ident(name) => Ok(Some((
                LongId {
                    qualifiers: Vec::new(alloc),
                    id: *name,
                },
                rest,
            ))),
            TokenKind::LongIdent(qualifiers, name) => {
                let qualifiers = Vec::from_slice(alloc, qualifiers.as_slice())?;
                Ok(Some((
                    LongId {
                        qualifiers,
                        id: *name,
                    },
                    rest,
                )))
            }
            _ => Ok(None),
        },
        [] => Ok(None),
    }
}
