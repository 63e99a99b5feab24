// Tops, and all that a source holds.

ghost use Rattle.std.specs.Prelude.{◌≡◌, ◌<◌, ◌++◌, [], ◌∷◌, Some, map, true, false, IfOk};
ghost use Rattle.sml_tree.specs.BareTree.{Dec};
ghost use Rattle.module_code.specs.TreeOf.{top_of};
ghost use Rattle.module_grammar.specs.Sources.{begins_top, top_by, exp_by, read_source};
ghost use Rattle.phrase_base.specs.Gives.{Gives};
ghost use Rattle.phrase_base.specs.Left.{left};
ghost use Rattle.str_phrases.specs.StrsRead.{items_of};
ghost use Rattle.top_phrases.specs.TopsRead.{IsTop, IsTops, some_top_of, strs_of};

use crate::functors::read_fun_binds;
use crate::signatures::read_sig_binds;
use mlc_base::make::with;
use mlc_base::memory::NoMemory;
use mlc_names::names::Name;
use mlc_names::token::{Reserved, Token};
use module_code::nodes;
use module_code::sources::Top;
use phrase_base::got::{Got, pushed};
use phrase_base::source::Source;
use phrase_base::stop::Stop;
use phrase_base::tokens::{after_word, past, place_at};
use sml_tree::fixity::Fixities;
use std::alloc::Global;
use str_phrases::decs::Item;
use str_phrases::reader::CoreReader;
use str_phrases::starts::begins_str_dec;
use str_phrases::structures::read_str_dec;

/// Whether a declaration of a source's top begins with these tokens.
fn begins_top(source: &Source, tokens: &[Token]) -> bool
    ensures { result ≡ begins_top (left source.now tokens.now) }
{
    after_word(source, Reserved::Signature, tokens).is_some()
        || after_word(source, Reserved::Functor, tokens).is_some()
        || begins_str_dec(source, tokens)
}

/// A declaration as a top.
fn one_top<D>(item: Item<D>) -> Top<D>
    ensures { (of : D → Dec) → top_of of result ∷ [] ≡ strs_of (items_of of (Some item)) }
{
    match item {
        Item::Core(dec) => nodes::declared(nodes::core(dec)),
        Item::Other(dec) => nodes::declared(dec),
    }
}

/// A declaration as a top, where there is one.
fn as_top<D>(item: Option<Item<D>>) -> Option<Top<D>>
    ensures { (of : D → Dec) → some_top_of of result ≡ strs_of (items_of of item) }
{
    match item {
        Some(item) => Some(one_top(item)),
        None => None,
    }
}

/// A declaration of a source's top, and what it does to the fixities in force.
fn read_top<'a, R: CoreReader>(
    alloc: Global,
    source: &Source,
    it: Name,
    fix: &mut Fixities,
    n: u32,
    tokens: &'a [Token],
) -> Result<Got<'a, Option<Top<R::Dec>>>, Stop>
    requires { n < 1000 }
    ensures gives { Gives (λ x r. IsTop R.dec_of it fix.old fix.new source.now n false (left source.now tokens.now) x.it x.rest.now r)
        result (top_by n fix.old (left source.now tokens.now)) }
{
    let place = place_at(source, tokens);
    if let Some(inner) = after_word(source, Reserved::Signature, tokens) {
        let Got { it, depth, rest } = read_sig_binds::<R>(alloc, source, n, inner)?;
        return Ok(Got {
            it: Some(nodes::signatures(place, it)),
            depth,
            rest,
        });
    }
    if let Some(inner) = after_word(source, Reserved::Functor, tokens) {
        let Got { it, depth, rest } = read_fun_binds::<R>(alloc, source, fix, n, inner)?;
        return Ok(Got {
            it: Some(nodes::functors(place, it)),
            depth,
            rest,
        });
    }
    let Got { it, depth, rest } = read_str_dec::<R>(alloc, source, fix, n, tokens)?;
    Ok(Got {
        it: as_top(it),
        depth,
        rest,
    })
}

/// An expression, and its `;`.
fn read_exp_top<'a, R: CoreReader>(
    alloc: Global,
    source: &Source,
    it: Name,
    fix: &Fixities,
    n: u32,
    tokens: &'a [Token],
) -> Result<Got<'a, Option<Top<R::Dec>>>, Stop>
    requires { n < 1000 }
    ensures gives { Gives (λ x r. IsTop R.dec_of it fix.now fix.now source.now n true (left source.now tokens.now) x.it x.rest.now r)
        result (exp_by n fix.now (left source.now tokens.now)) }
{
    let exp = R::read_it(alloc, source, fix, it, n, tokens)?;
    let after = exp.rest;
    let (held, rest) = with(exp, past(source, Reserved::Semicolon, after))?;
    Ok(Got {
        it: Some(nodes::declared(nodes::core(held.it))),
        depth: held.depth,
        rest,
    })
}

/// Tops, with one more at their end, if there is one.
fn put_top<D: Drop>(tops: Vec<Top<D>>, top: Option<Top<D>>) -> Result<Vec<Top<D>>, NoMemory>
    ensures { IfOk result (λ made. (of : D → Dec) → map (top_of of) made.items ≡ map (top_of of) tops.items ++ some_top_of of top) }
{
    match top {
        Some(top) => pushed(tops, top),
        None => Ok(tops),
    }
}

/// All that a source holds, and what it does to the fixities in force.
pub fn read_tops<R: CoreReader>(
    alloc: Global,
    source: &Source,
    it: Name,
    fix: &mut Fixities,
    n: u32,
    tokens: &[Token],
) -> Result<Vec<Top<R::Dec>>, Stop>
    requires { n < 1000 }
    ensures gives { Gives (λ xs r. IsTops R.dec_of it fix.old fix.new source.now xs.items r) result (read_source n fix.old (left source.now tokens.now)) }
{
    let mut tops = Vec::new(alloc);
    let mut fresh = true;
    let mut rest = tokens;
    'tops: loop {
        if rest.is_empty() {
            return Ok(tops);
        }
        if let Some(next) = after_word(source, Reserved::Semicolon, rest) {
            fresh = true;
            rest = next;
            continue 'tops;
        }
        if begins_top(source, rest) {
            let (front, got) = with(tops, read_top::<R>(alloc, source, it, fix, n, rest))?;
            fresh = false;
            rest = got.rest;
            tops = put_top(front, got.it)?;
            continue 'tops;
        }
        if !fresh {
            return Err(Stop::Bad(rest.len()));
        }
        let (start, exp) = with(tops, read_exp_top::<R>(alloc, source, it, fix, n, rest))?;
        rest = exp.rest;
        tops = put_top(start, exp.it)?;
    }
}
