// Declarations in which there are no expressions.

ghost use Rattle.std.specs.Prelude.{◌≡◌, ◌<◌, ℕ, Some, None, MatchOption};
ghost use Rattle.sml_tree.specs.Bare.{at};
ghost use Rattle.sml_grammar.specs.Terminals.{place_at, taken};
ghost use Rattle.sml_grammar.specs.Bindings.{precedence_then};
ghost use Rattle.sml_grammar.specs.Expressions.{dec_start, is_dec_start, replicated, datatype_form, directive, infix_directive};
ghost use Rattle.phrase_base.specs.Gives.{Gives};
ghost use Rattle.phrase_base.specs.Left.{left};
ghost use Rattle.sml_phrases.specs.DeclarationsRead.{IsDec, simple_by};

use crate::bindings::{
    read_data_binds, read_ex_binds, read_precedence, read_strids, read_type_binds, read_vids,
};
use crate::nodes::{abbreviations, datatypes, exceptions, opened, replicated, withtype};
use mlc_base::make::with;
use mlc_base::place::Place;
use mlc_names::names::Name;
use mlc_names::token::{Reserved, Token};
use phrase_base::got::Got;
use phrase_base::source::Source;
use phrase_base::stop::Stop;
use phrase_base::tokens::{after_word, long_tycon_at, place_at, tail, tycon_at, word_at};
use sml_tree::fixity::{Fixities, Infix};
use sml_tree::tree::{Dec, LongIdAt};
use std::alloc::Global;

/// Whether a declaration begins with these tokens.
pub fn begins_dec(source: &Source, tokens: &[Token]) -> bool
    ensures { result ≡ is_dec_start (dec_start (left source.now tokens.now)) }
{
    match word_at(source, tokens) {
        Some(Reserved::Val) => true,
        Some(Reserved::Fun) => true,
        Some(Reserved::TypeWord) => true,
        Some(Reserved::Datatype) => true,
        Some(Reserved::Exception) => true,
        Some(Reserved::Local) => true,
        Some(Reserved::Open) => true,
        Some(Reserved::Infix) => true,
        Some(Reserved::Infixr) => true,
        Some(Reserved::Nonfix) => true,
        _ => false,
    }
}

/// A declaration in which there are no expressions, and what it does to the fixities in force.
pub fn simple_dec<'a>(
    alloc: Global,
    source: &Source,
    fix: &mut Fixities,
    n: u32,
    tokens: &'a [Token],
) -> Result<Got<'a, Option<Dec>>, Stop>
    requires { n < 1000 }
    ensures gives { Gives (λ x r. IsDec fix.old fix.new source.now n (left source.now tokens.now) x.it x.depth x.rest.now r)
        result (simple_by n fix.old (dec_start (left source.now tokens.now))) }
{
    let place = place_at(source, tokens);
    let inner = tail(source, tokens);
    match word_at(source, tokens) {
        Some(Reserved::TypeWord) => {
            let Got { it, depth, rest } = read_type_binds(alloc, source, n, inner)?;
            Ok(Got {
                it: Some(abbreviations(place, it)),
                depth,
                rest,
            })
        }
        Some(Reserved::Datatype) => datatype_dec(alloc, source, fix, n, place, inner),
        Some(Reserved::Exception) => {
            let Got { it, depth, rest } = read_ex_binds(alloc, source, fix, n, inner)?;
            Ok(Got {
                it: Some(exceptions(place, it)),
                depth,
                rest,
            })
        }
        Some(Reserved::Open) => {
            let Got { it, depth, rest } = read_strids(alloc, source, inner)?;
            Ok(Got {
                it: Some(opened(place, it)),
                depth,
                rest,
            })
        }
        Some(Reserved::Infix) => infix_dec(alloc, source, fix, false, inner),
        Some(Reserved::Infixr) => infix_dec(alloc, source, fix, true, inner),
        Some(Reserved::Nonfix) => directive(alloc, source, fix, None, inner),
        _ => Err(Stop::Bad(tokens.len())),
    }
}

/// `tycon = datatype`
fn replicated_at<'a>(source: &Source, tokens: &'a [Token]) -> Option<(Name, &'a [Token])>
    ensures { MatchOption result (replicated (left source.now tokens.now) ≡ None)
        (λ x. replicated (left source.now tokens.now) ≡ taken (record { place = place_at (left source.now tokens.now); it = x.0 }) (left source.now x.1.now)) }
{
    let Some((tycon, after_tycon)) = tycon_at(source, tokens) else {
        return None
    };
    let Some(after_equals) = after_word(source, Reserved::Equals, after_tycon) else {
        return None
    };
    match after_word(source, Reserved::Datatype, after_equals) {
        Some(rest) => Some((tycon, rest)),
        None => None,
    }
}

/// Datatypes, or the replication of one, after the first word.
fn datatype_dec<'a>(
    alloc: Global,
    source: &Source,
    fix: &Fixities,
    n: u32,
    place: Place,
    tokens: &'a [Token],
) -> Result<Got<'a, Option<Dec>>, Stop>
    requires { n < 1000 }
    ensures gives { (p : ℕ) → place ≡ at source.now.file p
        → Gives (λ x r. IsDec fix.now fix.now source.now n (left source.now tokens.now) x.it x.depth x.rest.now r)
        result (datatype_form n fix.now p (left source.now tokens.now)) }
{
    if let Some((tycon, named)) = replicated_at(source, tokens) {
        let Some((long, rest)) = long_tycon_at(alloc, source, named)? else {
            return Err(Stop::Bad(named.len()))
        };
        let of = LongIdAt {
            place: place_at(source, named),
            long,
        };
        return Ok(Got {
            it: Some(replicated(place, tycon, of)),
            depth: 0,
            rest,
        });
    }
    let Got {
        it: binds,
        depth: binds_depth,
        rest: after_binds,
    } = read_data_binds(alloc, source, fix, n, tokens)?;
    let Some(after) = after_word(source, Reserved::Withtype, after_binds) else {
        return Ok(Got {
            it: Some(datatypes(place, binds)),
            depth: binds_depth,
            rest: after_binds,
        });
    };
    let (datas, types) = with(binds, read_type_binds(alloc, source, n, after))?;
    let depth = binds_depth.max(types.depth);
    let rest = types.rest;
    Ok(Got {
        it: Some(withtype(place, datas, types.it)),
        depth,
        rest,
    })
}

/// A directive that makes identifiers infix, after its word.
fn infix_dec<'a>(
    alloc: Global,
    source: &Source,
    fix: &mut Fixities,
    right: bool,
    tokens: &'a [Token],
) -> Result<Got<'a, Option<Dec>>, Stop>
    ensures gives { (n p : ℕ)
        → Gives (λ x r. IsDec fix.old fix.new source.now n (left source.now tokens.now) x.it x.depth x.rest.now r)
        result (precedence_then (infix_directive p right) (left source.now tokens.now)) }
{
    let (precedence, rest) = read_precedence(source, tokens);
    directive(alloc, source, fix, Some(Infix { precedence, right }), rest)
}

/// A directive, after its word and precedence.
fn directive<'a>(
    alloc: Global,
    source: &Source,
    fix: &mut Fixities,
    status: Option<Infix>,
    tokens: &'a [Token],
) -> Result<Got<'a, Option<Dec>>, Stop>
    ensures gives { (n p : ℕ)
        → Gives (λ x r. IsDec fix.old fix.new source.now n (left source.now tokens.now) x.it x.depth x.rest.now r)
        result (directive p status (left source.now tokens.now)) }
{
    let Got { it, depth: _, rest } = read_vids(alloc, source, tokens)?;
    fix.add(status, &it)?;
    Ok(Got {
        it: None,
        depth: 0,
        rest,
    })
}
