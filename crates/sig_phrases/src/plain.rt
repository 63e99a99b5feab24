// Specifications of datatypes and of sharing, after their first word.

ghost use Rattle.std.specs.Prelude.{◌≡◌, ◌<◌, ℕ, Some, None, MatchOption};
ghost use Rattle.sml_tree.specs.Bare.{at};
ghost use Rattle.sml_grammar.specs.Expressions.{replicated};
ghost use Rattle.sml_grammar.specs.Terminals.{place_at, taken};
ghost use Rattle.module_grammar.specs.Signatures.{datatype_form, sharing_form};
ghost use Rattle.phrase_base.specs.Gives.{Gives};
ghost use Rattle.phrase_base.specs.Left.{left};
ghost use Rattle.spec_phrases.specs.FormsRead.{IsSpec, read_eqtype_spec};

use mlc_base::make::with;
use mlc_base::place::Place;
use mlc_names::names::Name;
use mlc_names::token::{Reserved, Token};
use module_code::nodes;
use module_code::signatures::{IdAt, Spec};
use phrase_base::got::{Got, prefixed};
use phrase_base::source::Source;
use phrase_base::stop::Stop;
use phrase_base::tokens::{after_word, long_tycon_at, past, place_at, tycon_at};
use phrase_base::types::TypeReader;
use sml_tree::tree::LongIdAt;
use spec_phrases::forms::{datatype_spec, eqtype_spec};
use spec_phrases::lists::read_tycons;
use std::alloc::Global;

/// `eqtype typdesc and ..`
pub fn eqtype_form<'a, R: TypeReader>(
    alloc: Global,
    source: &Source,
    n: u32,
    place: Place,
    tokens: &'a [Token],
) -> Result<Got<'a, Spec>, Stop>
    ensures gives { (p : ℕ) → place ≡ at source.now.file p → Gives (λ x r. IsSpec source.now n (left source.now tokens.now) x.it x.depth x.rest.now r)
        result (read_eqtype_spec p (left source.now tokens.now)) }
{
    eqtype_spec::<R>(alloc, source, place, tokens)
}

/// `tycon = datatype`
fn replicated_at<'a>(source: &Source, tokens: &'a [Token]) -> Option<(Name, &'a [Token])>
    ensures { MatchOption result (replicated (left source.now tokens.now) ≡ None)
        (λ x. replicated (left source.now tokens.now) ≡ taken (record { place = place_at (left source.now tokens.now); it = x.0 }) (left source.now x.1.now)) }
{
    let Some((tycon, after_tycon)) = tycon_at(source, tokens) else {
        return None
    };
    let Some(after_equals) = after_word(source, Reserved::Equals, after_tycon) else {
        return None
    };
    match after_word(source, Reserved::Datatype, after_equals) {
        Some(rest) => Some((tycon, rest)),
        None => None,
    }
}

/// Datatypes, or the replication of one, after `datatype`.
pub fn datatype_form<'a, R: TypeReader>(
    alloc: Global,
    source: &Source,
    n: u32,
    place: Place,
    tokens: &'a [Token],
) -> Result<Got<'a, Spec>, Stop>
    requires { n < 1000 }
    ensures gives { (p : ℕ) → place ≡ at source.now.file p → Gives (λ x r. IsSpec source.now n (left source.now tokens.now) x.it x.depth x.rest.now r)
        result (datatype_form n p (left source.now tokens.now)) }
{
    let Some((tycon, named)) = replicated_at(source, tokens) else {
        return datatype_spec::<R>(alloc, source, n, place, tokens)
    };
    match long_tycon_at(alloc, source, named)? {
        Some((long, rest)) => Ok(Got {
            it: nodes::replicated(
                place,
                IdAt {
                    place: place_at(source, tokens),
                    id: tycon,
                },
                LongIdAt {
                    place: place_at(source, named),
                    long,
                },
            ),
            depth: 0,
            rest,
        }),
        None => Err(Stop::Bad(named.len())),
    }
}

/// `type longtycon = .. = longtycon`, two or more, after `sharing`.
pub fn sharing_form<'a>(
    alloc: Global,
    source: &Source,
    n: u32,
    place: Place,
    tokens: &'a [Token],
) -> Result<Got<'a, Spec>, Stop>
    ensures gives { (p : ℕ) → place ≡ at source.now.file p → Gives (λ x r. IsSpec source.now n (left source.now tokens.now) x.it x.depth x.rest.now r)
        result (sharing_form p (left source.now tokens.now)) }
{
    let first = past(source, Reserved::TypeWord, tokens)?;
    let found = long_tycon_at(alloc, source, first)?;
    match found {
        Some((long, after)) => {
            let tycon = LongIdAt {
                place: place_at(source, first),
                long,
            };
            let (head, others) = with(tycon, past(source, Reserved::Equals, after))?;
            let (front, got) = with(head, read_tycons(alloc, source, others))?;
            let rest = got.rest;
            let all = prefixed(front, got.it)?;
            Ok(Got {
                it: nodes::shared(place, all),
                depth: 0,
                rest,
            })
        }
        None => Err(Stop::Bad(first.len())),
    }
}
