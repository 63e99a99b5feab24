// Lists of identifiers, and what `where type` binds.

ghost use Rattle.std.specs.Prelude.{◌≡◌, ◌<◌, ℕ, Some, None, MatchOption};
ghost use Rattle.sml_tree.specs.Bare.{at};
ghost use Rattle.sml_grammar.specs.Bindings.{tyvars_place};
ghost use Rattle.phrase_base.specs.Gives.{Gives};
ghost use Rattle.phrase_base.specs.Left.{left};
ghost use Rattle.spec_phrases.specs.ListsRead.{read_tycon, IsTycon, read_tycons, IsTycons, read_ids, IsIds, read_where, IsWhere, read_wheres, IsWheres, id_follows, after_and_type};

use crate::ids::module_id_at;
use mlc_base::make::with;
use mlc_base::place::Place;
use mlc_names::token::{Reserved, Token};
use module_code::signatures::{IdAt, WhereType};
use phrase_base::got::{Got, pushed};
use phrase_base::source::Source;
use phrase_base::stop::Stop;
use phrase_base::tokens::{after_word, long_tycon_at, past, place_at};
use phrase_base::types::TypeReader;
use sml_tree::ident::Tyvar;
use sml_tree::tree::LongIdAt;
use std::alloc::Global;

/// A type constructor that may be qualified.
fn tycon<'a>(alloc: Global, source: &Source, tokens: &'a [Token]) -> Result<Got<'a, LongIdAt>, Stop>
    ensures gives { Gives (λ x r. IsTycon source.now (left source.now tokens.now) x.it x.depth x.rest.now r)
        result (read_tycon (left source.now tokens.now)) }
{
    let place = place_at(source, tokens);
    match long_tycon_at(alloc, source, tokens)? {
        Some((long, rest)) => Ok(Got {
            it: LongIdAt { place, long },
            depth: 0,
            rest,
        }),
        None => Err(Stop::Bad(tokens.len())),
    }
}

/// `longtycon = .. = longtycon`, one or more.
pub fn read_tycons<'a>(
    alloc: Global,
    source: &Source,
    tokens: &'a [Token],
) -> Result<Got<'a, Vec<LongIdAt>>, Stop>
    ensures gives { Gives (λ x r. IsTycons source.now (left source.now tokens.now) x.it.items x.depth x.rest.now r)
        result (read_tycons (left source.now tokens.now)) }
{
    let mut tycons = Vec::new(alloc);
    let mut rest = tokens;
    'tycons: loop {
        let (front, got) = with(tycons, tycon(alloc, source, rest))?;
        let after = got.rest;
        tycons = pushed(front, got.it)?;
        let Some(next) = after_word(source, Reserved::Equals, after) else {
            return Ok(Got {
                it: tycons,
                depth: 0,
                rest: after,
            })
        };
        rest = next;
    }
}

/// These tokens, where an identifier stands first.
fn before_id<'a>(source: &Source, tokens: &'a [Token]) -> Option<&'a [Token]>
    ensures { MatchOption result (id_follows (left source.now tokens.now) ≡ None) (λ rest. id_follows (left source.now tokens.now) ≡ Some (left source.now rest.now)) }
{
    match module_id_at(source, tokens) {
        Some(_) => Some(tokens),
        None => None,
    }
}

/// Identifiers of signatures, one or more.
pub fn read_ids<'a>(
    alloc: Global,
    source: &Source,
    tokens: &'a [Token],
) -> Result<Got<'a, Vec<IdAt>>, Stop>
    ensures gives { Gives (λ x r. IsIds source.now (left source.now tokens.now) x.it.items x.depth x.rest.now r)
        result (read_ids (left source.now tokens.now)) }
{
    let mut ids = Vec::new(alloc);
    let mut rest = tokens;
    'ids: loop {
        let Some(found) = module_id_at(source, rest) else {
            return Err(Stop::Bad(rest.len()))
        };
        ids.push(IdAt {
            place: place_at(source, rest),
            id: found.0,
        })?;
        let after = found.1;
        let Some(next) = before_id(source, after) else {
            return Ok(Got {
                it: ids,
                depth: 0,
                rest: after,
            })
        };
        rest = next;
    }
}

/// What follows `and`, where `type` stands after it.
fn after_and_type<'a>(source: &Source, tokens: &'a [Token]) -> Option<&'a [Token]>
    ensures { MatchOption result (after_and_type (left source.now tokens.now) ≡ None)
        (λ rest. after_and_type (left source.now tokens.now) ≡ Some (left source.now rest.now)) }
{
    match after_word(source, Reserved::And, tokens) {
        Some(next) => match after_word(source, Reserved::TypeWord, next) {
            Some(_) => Some(next),
            None => None,
        },
        None => None,
    }
}

/// The place of type variables that begin with these tokens, which is `place` where there are none.
fn own_place(source: &Source, place: Place, tokens: &[Token], tyvars: &[Tyvar]) -> Place
    ensures { (p : ℕ) → place ≡ at source.now.file p
        → result ≡ at source.now.file (tyvars_place p (left source.now tokens.now) tyvars.now) }
{
    match tyvars {
        [] => place,
        [..] => place_at(source, tokens),
    }
}

/// `type tyvarseq longtycon = ty`
fn where_type<'a, R: TypeReader>(
    alloc: Global,
    source: &Source,
    n: u32,
    tokens: &'a [Token],
) -> Result<Got<'a, WhereType>, Stop>
    requires { n < 1000 }
    ensures gives { Gives (λ x r. IsWhere source.now n (left source.now tokens.now) x.it x.depth x.rest.now r)
        result (read_where n (left source.now tokens.now)) }
{
    let place = place_at(source, tokens);
    let inner = past(source, Reserved::TypeWord, tokens)?;
    let head = R::read_tyvars(alloc, source, inner)?;
    let after_head = head.rest;
    let tyvars_place = own_place(source, place, inner, head.it.as_slice());
    let (vars, con) = with(head.it, tycon(alloc, source, after_head))?;
    let after_tycon = con.rest;
    let (parts, bound) = with((vars, con.it), past(source, Reserved::Equals, after_tycon))?;
    let (parts, ty) = with(parts, R::read_ty(alloc, source, n, bound))?;
    let (vars, con) = parts;
    Ok(Got {
        it: WhereType {
            place,
            tyvars_place,
            tyvars: vars,
            tycon_place: con.place,
            tycon: con.long,
            ty: ty.it,
        },
        depth: ty.depth,
        rest: ty.rest,
    })
}

/// What `where type .. and type ..` binds, after `where`.
pub fn read_wheres<'a, R: TypeReader>(
    alloc: Global,
    source: &Source,
    n: u32,
    tokens: &'a [Token],
) -> Result<Got<'a, Vec<WhereType>>, Stop>
    requires { n < 1000 }
    ensures gives { Gives (λ x r. IsWheres source.now n (left source.now tokens.now) x.it.items x.depth x.rest.now r)
        result (read_wheres n (left source.now tokens.now)) }
{
    let mut wheres = Vec::new(alloc);
    let mut deepest = 0;
    let mut rest = tokens;
    'wheres: loop {
        let (front, got) = with(wheres, where_type::<R>(alloc, source, n, rest))?;
        let after = got.rest;
        deepest = got.depth.max(deepest);
        wheres = pushed(front, got.it)?;
        let Some(next) = after_and_type(source, after) else {
            return Ok(Got {
                it: wheres,
                depth: deepest,
                rest: after,
            })
        };
        rest = next;
    }
}
