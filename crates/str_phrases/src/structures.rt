// Structures, and their declarations.

ghost use Rattle.std.specs.Prelude.{◌≡◌, ◌<◌, ◌+◌, ℕ, List, length, Some, None, MatchOption};
ghost use Rattle.sml_tree.specs.Bare.{at};
ghost use Rattle.sml_tree.specs.ReadTree.{Placed};
ghost use Rattle.sml_tree.specs.Terminal.{Terminal};
ghost use Rattle.sml_grammar.specs.Answer.{then_read, read};
ghost use Rattle.sml_grammar.specs.Terminals.{place_at};
ghost use Rattle.module_tree.specs.ModuleBare.{id_at};
ghost use Rattle.module_code.specs.TreeOf.{id_at_of};
ghost use Rattle.module_grammar.specs.Structures.{str_readers, str_start, str_atom, struct_start, let_start, argument, read_str_binds, str_dec_by};
ghost use Rattle.module_grammar.specs.Sources.{inner_decs};
ghost use Rattle.phrase_base.specs.Gives.{Gives};
ghost use Rattle.phrase_base.specs.Left.{left};
ghost use Rattle.str_phrases.specs.StrsRead.{IsStr, IsStrDec, IsStrDecs, IsBind, IsBinds, read_str_bind, local_by};

use crate::decs::{Decs, Item, mixed, put};
use crate::plain::{core_dec, functor_at, local_item, named_str};
use crate::reader::CoreReader;
use crate::seals::{read_sign, signed, with_seals};
use crate::starts::{begins_str, begins_str_dec, no_str_room};
use mlc_base::make::with;
use mlc_base::place::Place;
use mlc_names::token::{Reserved, Token};
use module_code::nodes;
use module_code::signatures::IdAt;
use module_code::structures::{StrBind, StrExp};
use phrase_base::got::{Got, pushed};
use phrase_base::source::Source;
use phrase_base::stop::Stop;
use phrase_base::tokens::{after_word, past, place_at};
use sml_tree::fixity::Fixities;
use spec_phrases::ids::module_id_at;
use std::alloc::Global;

/// A structure, at most `n` deep.
#[cycle(structures)]
pub fn read_str<'a, R: CoreReader>(
    alloc: Global,
    source: &Source,
    fix: &Fixities,
    n: u32,
    tokens: &'a [Token],
) -> Result<Got<'a, StrExp<R::Dec>>, Stop>
    requires { n < 1000 }
    ensures gives { Gives (λ x r. IsStr R.dec_of source.now n (left source.now tokens.now) x.it x.depth x.rest.now r)
        result ((str_readers n).str fix.now (left source.now tokens.now)) }
{
    if n == 0 {
        return Err(no_str_room(source, tokens));
    }
    let place = place_at(source, tokens);
    let Got { it, depth, rest } = str_atom::<R>(alloc, source, fix, n - 1, tokens)?;
    with_seals::<R, R::Dec>(alloc, source, n - 1, place, it, depth, rest)
}

/// A structure without a signature on it.
#[cycle(structures)]
fn str_atom<'a, R: CoreReader>(
    alloc: Global,
    source: &Source,
    fix: &Fixities,
    n: u32,
    tokens: &'a [Token],
) -> Result<Got<'a, StrExp<R::Dec>>, Stop>
    requires { n < 999 }
    ensures gives { Gives (λ x r. IsStr R.dec_of source.now (n + 1) (left source.now tokens.now) x.it x.depth x.rest.now r)
        result (str_atom (str_readers n) fix.now (str_start (left source.now tokens.now))) }
{
    let place = place_at(source, tokens);
    if let Some(inner) = after_word(source, Reserved::Struct, tokens) {
        return in_struct::<R>(alloc, source, fix, n, place, inner);
    }
    if let Some(inner) = after_word(source, Reserved::Let, tokens) {
        return in_let::<R>(alloc, source, fix, n, place, inner);
    }
    match functor_at(source, tokens) {
        Some(found) => {
            let funid = IdAt { place, id: found.0 };
            in_brackets::<R>(alloc, source, fix, n, funid, found.1)
        }
        None => named_str(alloc, source, tokens),
    }
}

/// `struct .. end`, after its first word.
#[cycle(structures)]
fn in_struct<'a, R: CoreReader>(
    alloc: Global,
    source: &Source,
    fix: &Fixities,
    n: u32,
    place: Place,
    tokens: &'a [Token],
) -> Result<Got<'a, StrExp<R::Dec>>, Stop>
    requires { n < 999 }
    ensures gives { (i : List Terminal) → place ≡ at source.now.file (place_at i) → length (left source.now tokens.now) < length i
        → Gives (λ x r. IsStr R.dec_of source.now (n + 1) i x.it x.depth x.rest.now r)
        result (str_atom (str_readers n) fix.now (struct_start (place_at i) (left source.now tokens.now))) }
{
    let mut inner = fix.copy(alloc)?;
    let got = read_str_decs::<R>(alloc, source, &mut inner, n, tokens)?;
    let after = got.rest;
    let (held, rest) = with(got, past(source, Reserved::End, after))?;
    let depth = held.depth + 1;
    let decs = mixed(alloc, held.it)?;
    Ok(Got {
        it: nodes::structure(place, decs),
        depth,
        rest,
    })
}

/// `let .. in strexp end`, after its first word.
#[cycle(structures)]
fn in_let<'a, R: CoreReader>(
    alloc: Global,
    source: &Source,
    fix: &Fixities,
    n: u32,
    place: Place,
    tokens: &'a [Token],
) -> Result<Got<'a, StrExp<R::Dec>>, Stop>
    requires { n < 999 }
    ensures gives { (i : List Terminal) → place ≡ at source.now.file (place_at i) → length (left source.now tokens.now) < length i
        → Gives (λ x r. IsStr R.dec_of source.now (n + 1) i x.it x.depth x.rest.now r)
        result (str_atom (str_readers n) fix.now (let_start (place_at i) (left source.now tokens.now))) }
{
    let mut inner = fix.copy(alloc)?;
    let got = read_str_decs::<R>(alloc, source, &mut inner, n, tokens)?;
    let after = got.rest;
    let (front, inside) = with(got, past(source, Reserved::In, after))?;
    let (start, body) = with(front, read_str::<R>(alloc, source, &inner, n, inside))?;
    let after_body = body.rest;
    let (both, rest) = with((start, body), past(source, Reserved::End, after_body))?;
    let (head, end) = both;
    let below = head.depth.max(end.depth);
    let (last, decs) = with(end.it, mixed(alloc, head.it))?;
    let made = nodes::let_in(alloc, place, decs, last)?;
    Ok(Got {
        it: made,
        depth: below + 1,
        rest,
    })
}

/// What a functor is applied to, after the bracket.
#[cycle(structures)]
fn in_brackets<'a, R: CoreReader>(
    alloc: Global,
    source: &Source,
    fix: &Fixities,
    n: u32,
    funid: IdAt,
    tokens: &'a [Token],
) -> Result<Got<'a, StrExp<R::Dec>>, Stop>
    requires { n < 999 }
    ensures gives { (i : List Terminal) (x : Placed ℕ) → id_at_of funid ≡ id_at source.now.file x → x.place ≡ place_at i
        → length (left source.now tokens.now) < length i
        → Gives (λ y r. IsStr R.dec_of source.now (n + 1) i y.it y.depth y.rest.now r)
        result (argument (str_readers n) fix.now x (left source.now tokens.now)) }
{
    if begins_str(source, tokens) {
        let got = read_str::<R>(alloc, source, fix, n, tokens)?;
        let after = got.rest;
        let (held, rest) = with(got, past(source, Reserved::RightParen, after))?;
        let depth = held.depth + 1;
        let made = nodes::applied(alloc, funid, held.it)?;
        return Ok(Got {
            it: made,
            depth,
            rest,
        });
    }
    let mut inner = fix.copy(alloc)?;
    let decs = read_str_decs::<R>(alloc, source, &mut inner, n, tokens)?;
    let after = decs.rest;
    let (kept, rest) = with(decs, past(source, Reserved::RightParen, after))?;
    let depth = kept.depth + 1;
    let all = mixed(alloc, kept.it)?;
    let applied = nodes::applied_to_decs(alloc, funid, all)?;
    Ok(Got {
        it: applied,
        depth,
        rest,
    })
}

/// Declarations: none, or some, and what they do to the fixities in force.
#[cycle(structures)]
pub fn read_str_decs<'a, R: CoreReader>(
    alloc: Global,
    source: &Source,
    fix: &mut Fixities,
    n: u32,
    tokens: &'a [Token],
) -> Result<Got<'a, Decs<R::Dec>>, Stop>
    requires { n < 1000 }
    ensures gives { Gives (λ x r. IsStrDecs R.dec_of fix.old fix.new source.now n (left source.now tokens.now) x.it x.depth x.rest.now r)
        result ((str_readers n).decs fix.old (left source.now tokens.now)) }
{
    let mut all = Decs::Core(Vec::new(alloc));
    let mut deepest = 0;
    let mut rest = tokens;
    'decs: loop {
        if let Some(next) = after_word(source, Reserved::Semicolon, rest) {
            rest = next;
            continue 'decs;
        }
        if !begins_str_dec(source, rest) {
            return Ok(Got {
                it: all,
                depth: deepest,
                rest,
            });
        }
        let (front, dec) = with(all, read_str_dec::<R>(alloc, source, fix, n, rest))?;
        deepest = dec.depth.max(deepest);
        rest = dec.rest;
        all = put(alloc, front, dec.it)?;
    }
}

/// A declaration, and what it does to the fixities in force.
#[cycle(structures)]
pub fn read_str_dec<'a, R: CoreReader>(
    alloc: Global,
    source: &Source,
    fix: &mut Fixities,
    n: u32,
    tokens: &'a [Token],
) -> Result<Got<'a, Option<Item<R::Dec>>>, Stop>
    requires { n < 1000 }
    ensures gives { Gives (λ x r. IsStrDec R.dec_of fix.old fix.new source.now n (left source.now tokens.now) x.it x.depth x.rest.now r)
        result (str_dec_by n (str_readers n).str (inner_decs n) fix.old (left source.now tokens.now)) }
{
    let place = place_at(source, tokens);
    if let Some(inner) = after_word(source, Reserved::Structure, tokens) {
        let Got { it, depth, rest } = read_str_binds::<R>(alloc, source, fix, n, inner)?;
        return Ok(Got {
            it: Some(Item::Other(nodes::structure_dec(place, it))),
            depth,
            rest,
        });
    }
    let Some(inner) = after_word(source, Reserved::Local, tokens) else {
        return core_dec::<R>(alloc, source, fix, n, tokens)
    };
    if n == 0 {
        return Err(Stop::Deep(tokens.len()));
    }
    read_local::<R>(alloc, source, fix, n - 1, place, inner)
}

/// `local .. in .. end`, after its first word.
#[cycle(structures)]
fn read_local<'a, R: CoreReader>(
    alloc: Global,
    source: &Source,
    fix: &mut Fixities,
    n: u32,
    place: Place,
    tokens: &'a [Token],
) -> Result<Got<'a, Option<Item<R::Dec>>>, Stop>
    requires { n < 999 }
    ensures gives { (p : ℕ) → place ≡ at source.now.file p
        → Gives (λ x r. IsStrDec R.dec_of fix.old fix.new source.now (n + 1) (left source.now tokens.now) x.it x.depth x.rest.now r)
        result (local_by n fix.old p (left source.now tokens.now)) }
{
    let mut inner = fix.copy(alloc)?;
    let first = read_str_decs::<R>(alloc, source, &mut inner, n, tokens)?;
    let hidden = inner.len();
    let after_first = first.rest;
    let (outer, inside) = with(first, past(source, Reserved::In, after_first))?;
    let (start, second) = with(
        outer,
        read_str_decs::<R>(alloc, source, &mut inner, n, inside),
    )?;
    let after_second = second.rest;
    let (both, rest) = with((start, second), past(source, Reserved::End, after_second))?;
    let (decs, _added) = with(both, fix.add_newest(&inner, hidden))?;
    let (left, right) = decs;
    let below = left.depth.max(right.depth);
    let item = local_item::<R>(alloc, place, left.it, right.it)?;
    Ok(Got {
        it: Some(item),
        depth: below + 1,
        rest,
    })
}

/// Bindings of structures, one or more.
#[cycle(structures)]
fn read_str_binds<'a, R: CoreReader>(
    alloc: Global,
    source: &Source,
    fix: &Fixities,
    n: u32,
    tokens: &'a [Token],
) -> Result<Got<'a, Vec<StrBind<R::Dec>>>, Stop>
    requires { n < 1000 }
    ensures gives { Gives (λ x r. IsBinds R.dec_of source.now n (left source.now tokens.now) x.it.items x.depth x.rest.now r)
        result (read_str_binds n (str_readers n).str fix.now (left source.now tokens.now)) }
{
    let mut binds = Vec::new(alloc);
    let mut deepest = 0;
    let mut rest = tokens;
    'binds: loop {
        let (front, got) = with(binds, str_bind::<R>(alloc, source, fix, n, rest))?;
        let after = got.rest;
        deepest = got.depth.max(deepest);
        binds = pushed(front, got.it)?;
        let Some(next) = after_word(source, Reserved::And, after) else {
            return Ok(Got {
                it: binds,
                depth: deepest,
                rest: after,
            })
        };
        rest = next;
    }
}

/// `strid [: sigexp] = strexp`
#[cycle(structures)]
fn str_bind<'a, R: CoreReader>(
    alloc: Global,
    source: &Source,
    fix: &Fixities,
    n: u32,
    tokens: &'a [Token],
) -> Result<Got<'a, StrBind<R::Dec>>, Stop>
    requires { n < 1000 }
    ensures gives { Gives (λ x r. IsBind R.dec_of source.now n (left source.now tokens.now) x.it x.depth x.rest.now r)
        result (read_str_bind n (str_readers n).str fix.now (left source.now tokens.now)) }
{
    let place = place_at(source, tokens);
    let Some(found) = module_id_at(source, tokens) else {
        return Err(Stop::Bad(tokens.len()))
    };
    let sign = read_sign::<R>(alloc, source, n, found.1)?;
    let after_sign = sign.rest;
    let (front, body) = with(sign, past(source, Reserved::Equals, after_sign))?;
    let (head, str) = with(front, read_str::<R>(alloc, source, fix, n, body))?;
    let depth = head.depth.max(str.depth);
    let rest = str.rest;
    let body_place = place_at(source, body);
    let made = signed(alloc, body_place, str.it, head.it)?;
    Ok(Got {
        it: nodes::structure_bind(IdAt { place, id: found.0 }, made),
        depth,
        rest,
    })
}
