// Functors.

ghost use Rattle.std.specs.Prelude.{◌≡◌, ◌<◌, ℕ};
ghost use Rattle.sml_tree.specs.Bare.{at};
ghost use Rattle.phrase_base.specs.Gives.{Gives};
ghost use Rattle.phrase_base.specs.Left.{left};
ghost use Rattle.top_phrases.specs.TopsRead.{IsParameter, parameter_by, read_fun_bind, IsFunBind, read_fun_binds, IsFunBinds};

use mlc_base::make::with;
use mlc_base::place::Place;
use mlc_names::token::{Reserved, Token};
use module_code::nodes;
use module_code::signatures::IdAt;
use module_code::sources::{FunBind, Parameter};
use phrase_base::got::{Got, pushed};
use phrase_base::source::Source;
use phrase_base::stop::Stop;
use phrase_base::tokens::{after_word, past, place_at};
use phrase_base::types::TypeReader;
use sig_phrases::signatures::{read_sig, read_specs};
use sml_tree::fixity::Fixities;
use spec_phrases::ids::module_id_at;
use std::alloc::Global;
use str_phrases::reader::CoreReader;
use str_phrases::seals::{read_sign, signed};
use str_phrases::structures::read_str;

/// What a functor takes, after its bracket, which is at `place`.
fn parameter<'a, R: TypeReader>(
    alloc: Global,
    source: &Source,
    n: u32,
    place: Place,
    tokens: &'a [Token],
) -> Result<Got<'a, Parameter>, Stop>
    requires { n < 1000 }
    ensures gives { (p : ℕ) → place ≡ at source.now.file p
        → Gives (λ x r. IsParameter source.now n (left source.now tokens.now) x.it x.depth x.rest.now r)
        result (parameter_by n p (left source.now tokens.now)) }
{
    match module_id_at(source, tokens) {
        Some((id, after)) => {
            let typed = past(source, Reserved::Colon, after)?;
            let got = read_sig::<R>(alloc, source, n, typed)?;
            let id = IdAt {
                place: place_at(source, tokens),
                id,
            };
            Ok(Got {
                it: Parameter::Named(id, got.it),
                depth: got.depth,
                rest: got.rest,
            })
        }
        None => {
            let got = read_specs::<R>(alloc, source, n, tokens)?;
            Ok(Got {
                it: Parameter::Opened(nodes::signature(place, got.it)),
                depth: got.depth,
                rest: got.rest,
            })
        }
    }
}

/// `funid (..) [: sigexp] = strexp`
fn fun_bind<'a, R: CoreReader>(
    alloc: Global,
    source: &Source,
    fix: &Fixities,
    n: u32,
    tokens: &'a [Token],
) -> Result<Got<'a, FunBind<R::Dec>>, Stop>
    requires { n < 1000 }
    ensures gives { Gives (λ x r. IsFunBind R.dec_of source.now n (left source.now tokens.now) x.it x.depth x.rest.now r)
        result (read_fun_bind n fix.now (left source.now tokens.now)) }
{
    let place = place_at(source, tokens);
    let Some(found) = module_id_at(source, tokens) else {
        return Err(Stop::Bad(tokens.len()))
    };
    let bracket = place_at(source, found.1);
    let inner = past(source, Reserved::LeftParen, found.1)?;
    let taken = parameter::<R>(alloc, source, n, bracket, inner)?;
    let after_taken = taken.rest;
    let (first, closed) = with(taken, past(source, Reserved::RightParen, after_taken))?;
    let (second, sign) = with(first, read_sign::<R>(alloc, source, n, closed))?;
    let after_sign = sign.rest;
    let (third, body) = with((second, sign), past(source, Reserved::Equals, after_sign))?;
    let body_place = place_at(source, body);
    let (parts, str) = with(third, read_str::<R>(alloc, source, fix, n, body))?;
    let (argument, result) = parts;
    let inner_depth = result.depth.max(str.depth);
    let depth = argument.depth.max(inner_depth);
    let rest = str.rest;
    let (kept, made) = with(argument.it, signed(alloc, body_place, str.it, result.it))?;
    Ok(Got {
        it: nodes::functor(IdAt { place, id: found.0 }, kept, made),
        depth,
        rest,
    })
}

/// Bindings of functors, one or more.
pub fn read_fun_binds<'a, R: CoreReader>(
    alloc: Global,
    source: &Source,
    fix: &Fixities,
    n: u32,
    tokens: &'a [Token],
) -> Result<Got<'a, Vec<FunBind<R::Dec>>>, Stop>
    requires { n < 1000 }
    ensures gives { Gives (λ x r. IsFunBinds R.dec_of source.now n (left source.now tokens.now) x.it.items x.depth x.rest.now r)
        result (read_fun_binds n fix.now (left source.now tokens.now)) }
{
    let mut binds = Vec::new(alloc);
    let mut deepest = 0;
    let mut rest = tokens;
    'binds: loop {
        let (front, got) = with(binds, fun_bind::<R>(alloc, source, fix, n, rest))?;
        let after = got.rest;
        deepest = got.depth.max(deepest);
        binds = pushed(front, got.it)?;
        let Some(next) = after_word(source, Reserved::And, after) else {
            return Ok(Got {
                it: binds,
                depth: deepest,
                rest: after,
            })
        };
        rest = next;
    }
}
