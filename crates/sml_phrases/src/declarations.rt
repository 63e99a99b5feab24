// Declarations.

ghost use Rattle.std.specs.Prelude.{◌≡◌, ◌<◌, ◌+◌, ◌++◌, ◌∷◌, [], ℕ, map, true, false, if◌then◌else◌, IfOk, Some, None};
ghost use Rattle.sml_tree.specs.Bare.{functions, at};
ghost use Rattle.sml_tree.specs.Depth.{depth_funs};
ghost use Rattle.sml_tree.specs.Derived.{with_result};
ghost use Rattle.sml_tree.specs.ReadTree as read;
ghost use Rattle.sml_tree.specs.ReadTree.{head_vid, head_count};
ghost use Rattle.sml_tree.specs.TreeOf.{dec_of, pat_of, exp_of, clause_of, function_of, some_ty_of};
ghost use Rattle.sml_grammar.specs.Terminals.{place_at, tail};
ghost use Rattle.sml_grammar.specs.Expressions.{readers, agrees, read_binds, read_clauses, read_funs, dec_by, dec_start, local_start};
ghost use Rattle.phrase_base.specs.Gives.{Gives};
ghost use Rattle.phrase_base.specs.Left.{left};
ghost use Rattle.sml_phrases.specs.ExpressionsRead.{IsDecs, IsList};
ghost use Rattle.sml_phrases.specs.DeclarationsRead.{IsBinds, IsFunction, IsDec, inner_decs, local_by, item_of};

use crate::bindings::{read_tyvars, tyvar_seq};
use crate::expressions::read_after;
use crate::headings::{Shape, clause_from, read_heading};
use crate::nodes::{bind, function, functions, local, val};
use crate::patterns::read_pat;
use crate::simple_decs::{begins_dec, simple_dec};
use mlc_base::make::with;
use mlc_base::memory::NoMemory;
use mlc_base::place::Place;
use mlc_names::token::{Reserved, Token};
use phrase_base::got::{Got, pushed};
use phrase_base::source::Source;
use phrase_base::stop::Stop;
use phrase_base::tokens::{after_word, past, place_at, tail, word_at};
use sml_tree::fixity::Fixities;
use sml_tree::ident::Vid;
use sml_tree::tree::{Bind, Clause, Dec, Function};
use std::alloc::Global;

/// Declarations, and what they do to the fixities in force.
#[cycle(expressions)]
pub fn read_decs<'a>(
    alloc: Global,
    source: &Source,
    fix: &mut Fixities,
    n: u32,
    tokens: &'a [Token],
) -> Result<Got<'a, Vec<Dec>>, Stop>
    requires { n < 1000 }
    ensures gives { Gives (λ x r. IsDecs fix.old fix.new source.now n (left source.now tokens.now) x.it.items x.depth x.rest.now r)
        result ((readers n).decs fix.old (left source.now tokens.now)) }
{
    let mut all = Vec::new(alloc);
    let mut deepest = 0;
    let mut rest = tokens;
    'decs: loop {
        if let Some(next) = after_word(source, Reserved::Semicolon, rest) {
            rest = next;
            continue 'decs;
        }
        if !begins_dec(source, rest) {
            return Ok(Got {
                it: all,
                depth: deepest,
                rest,
            });
        }
        let (front, dec) = with(all, read_dec(alloc, source, fix, n, rest))?;
        deepest = dec.depth.max(deepest);
        rest = dec.rest;
        all = put_dec(front, dec.it)?;
    }
}

/// A declaration, and what it does to the fixities in force.
#[cycle(expressions)]
pub fn read_dec<'a>(
    alloc: Global,
    source: &Source,
    fix: &mut Fixities,
    n: u32,
    tokens: &'a [Token],
) -> Result<Got<'a, Option<Dec>>, Stop>
    requires { n < 1000 }
    ensures gives { Gives (λ x r. IsDec fix.old fix.new source.now n (left source.now tokens.now) x.it x.depth x.rest.now r) result
        (dec_by n (readers n).exp (inner_decs n) fix.old (dec_start (left source.now tokens.now))) }
{
    let place = place_at(source, tokens);
    let inner = tail(source, tokens);
    match word_at(source, tokens) {
        Some(Reserved::Val) => {
            let Got {
                it: tyvars,
                depth: _,
                rest: after,
            } = read_tyvars(alloc, source, inner)?;
            let seq = tyvar_seq(source, place, inner, tyvars);
            let (vars, binds) = with(seq, read_binds(alloc, source, fix, n, after))?;
            let (plain, recursive) = binds.it;
            Ok(Got {
                it: Some(val(place, vars, plain, recursive)),
                depth: binds.depth,
                rest: binds.rest,
            })
        }
        Some(Reserved::Fun) => {
            let Got {
                it: tyvars,
                depth: _,
                rest: after,
            } = read_tyvars(alloc, source, inner)?;
            let seq = tyvar_seq(source, place, inner, tyvars);
            let (vars, all) = with(seq, read_functions(alloc, source, fix, n, after))?;
            Ok(Got {
                it: Some(functions(place, vars, all.it)),
                depth: all.depth,
                rest: all.rest,
            })
        }
        Some(Reserved::Local) => {
            if n == 0 {
                return Err(Stop::Deep(tokens.len()));
            }
            read_local(alloc, source, fix, n - 1, place, inner)
        }
        _ => simple_dec(alloc, source, fix, n, tokens),
    }
}

/// `local d in d' end`, after its first word.
#[cycle(expressions)]
fn read_local<'a>(
    alloc: Global,
    source: &Source,
    fix: &mut Fixities,
    n: u32,
    place: Place,
    tokens: &'a [Token],
) -> Result<Got<'a, Option<Dec>>, Stop>
    requires { n < 999 }
    ensures gives { (p : ℕ) → place ≡ at source.now.file p
        → Gives (λ x r. IsDec fix.old fix.new source.now (n + 1) (left source.now tokens.now) x.it x.depth x.rest.now r)
        result (local_by n fix.old p (left source.now tokens.now)) }
{
    let mut inner = fix.copy(alloc)?;
    let Got {
        it: first,
        depth: first_depth,
        rest: after_first,
    } = read_decs(alloc, source, &mut inner, n, tokens)?;
    let hidden = inner.len();
    let (outer, inside) = with(first, past(source, Reserved::In, after_first))?;
    let (start, second) = with(outer, read_decs(alloc, source, &mut inner, n, inside))?;
    let (depth, after_second) = (first_depth.max(second.depth), second.rest);
    let (both, rest) = with(
        (start, second.it),
        past(source, Reserved::End, after_second),
    )?;
    let (decs, _added) = with(both, fix.add_newest(&inner, hidden))?;
    let (first, second) = decs;
    Ok(Got {
        it: Some(local(place, first, second)),
        depth: depth + 1,
        rest,
    })
}

/// Value bindings: those before `rec`, and those after it.
#[cycle(expressions)]
fn read_binds<'a>(
    alloc: Global,
    source: &Source,
    fix: &Fixities,
    n: u32,
    tokens: &'a [Token],
) -> Result<Got<'a, (Vec<Bind>, Vec<Bind>)>, Stop>
    requires { n < 1000 }
    ensures gives { Gives (λ x r. IsBinds source.now n (left source.now tokens.now) x.it.0.items x.it.1.items x.depth x.rest.now r) result
        (read_binds n (readers n).exp fix.now (left source.now tokens.now)) }
{
    let mut lists = (Vec::new(alloc), Vec::new(alloc));
    let mut after_rec = false;
    let mut deepest = 0;
    let mut rest = tokens;
    'binds: loop {
        if let Some(next) = after_word(source, Reserved::Rec, rest) {
            after_rec = true;
            rest = next;
            continue 'binds;
        }
        let place = place_at(source, rest);
        let (front, pat) = with(lists, read_pat(alloc, source, fix, n, 0, rest))?;
        let after_pat = pat.rest;
        let (parts, exp) = with(
            (front, pat),
            read_after(alloc, source, fix, n, Reserved::Equals, after_pat),
        )?;
        let (front, pat) = parts;
        let after = exp.rest;
        deepest = pat.depth.max(exp.depth).max(deepest);
        lists = put_bind(front, after_rec, bind(place, pat.it, exp.it))?;
        let Some(next) = after_word(source, Reserved::And, after) else {
            return Ok(Got {
                it: lists,
                depth: deepest,
                rest: after,
            })
        };
        rest = next;
    }
}

/// The bindings before and after `rec`, with one more at the end of these or those.
fn put_bind(
    lists: (Vec<Bind>, Vec<Bind>),
    after_rec: bool,
    bind: Bind,
) -> Result<(Vec<Bind>, Vec<Bind>), NoMemory>
    ensures plain { IfOk result (λ made. made.0.items ≡ (if after_rec then lists.0.items else (lists.0.items ++ bind ∷ []))) }
    ensures rec { IfOk result (λ made. made.1.items ≡ (if after_rec then (lists.1.items ++ bind ∷ []) else lists.1.items)) }
{
    let (plain, recursive) = lists;
    if after_rec {
        with(plain, pushed(recursive, bind))
    } else {
        let (recursive, plain) = with(recursive, pushed(plain, bind))?;
        Ok((plain, recursive))
    }
}

/// Declarations, with one more at their end, if there is one.
fn put_dec(decs: Vec<Dec>, item: Option<Dec>) -> Result<Vec<Dec>, NoMemory>
    ensures { IfOk result (λ made. map dec_of made.items ≡ map dec_of decs.items ++ item_of item) }
{
    match item {
        Some(dec) => pushed(decs, dec),
        None => Ok(decs),
    }
}

/// Functions of `fun`.
#[cycle(expressions)]
fn read_functions<'a>(
    alloc: Global,
    source: &Source,
    fix: &Fixities,
    n: u32,
    tokens: &'a [Token],
) -> Result<Got<'a, Vec<Function>>, Stop>
    requires { n < 1000 }
    ensures gives { Gives (λ x r. IsList (functions source.now.file) depth_funs source.now n (left source.now tokens.now)
        (map function_of x.it.items) x.depth x.rest.now r)
        result (read_funs n (readers n).exp fix.now (left source.now tokens.now)) }
{
    let mut all = Vec::new(alloc);
    let mut deepest = 0;
    let mut rest = tokens;
    'functions: loop {
        let (front, got) = with(all, read_clauses(alloc, source, fix, n, rest))?;
        let after = got.rest;
        deepest = got.depth.max(deepest);
        all = pushed(front, got.it)?;
        let Some(next) = after_word(source, Reserved::And, after) else {
            return Ok(Got {
                it: all,
                depth: deepest,
                rest: after,
            })
        };
        rest = next;
    }
}

/// The clauses of a function.
#[cycle(expressions)]
fn read_clauses<'a>(
    alloc: Global,
    source: &Source,
    fix: &Fixities,
    n: u32,
    tokens: &'a [Token],
) -> Result<Got<'a, Function>, Stop>
    requires { n < 1000 }
    ensures gives { Gives (λ x r. IsFunction source.now n (left source.now tokens.now) x.it x.depth x.rest.now r) result
        (read_clauses n (readers n).exp fix.now (left source.now tokens.now)) }
{
    let mut clauses = Vec::new(alloc);
    let mut shape = None;
    let mut deepest = 0;
    let mut rest = tokens;
    'clauses: loop {
        let Got {
            it: heading,
            depth: heading_depth,
            rest: after_heading,
        } = read_heading(alloc, source, fix, n, shape, rest)?;
        let first = shape.unwrap_or(heading.shape);
        let place = place_at(source, tail(source, after_heading));
        let Got {
            it: exp,
            depth,
            rest: after,
        } = read_after(alloc, source, fix, n, Reserved::Equals, after_heading)?;
        clauses.push(clause_from(alloc, heading, place, exp)?)?;
        deepest = heading_depth.max(depth).max(deepest);
        let Some(next) = after_word(source, Reserved::Bar, after) else {
            return Ok(Got {
                it: function(first.place, first.vid_place, first.vid, clauses),
                depth: deepest,
                rest: after,
            });
        };
        shape = Some(first);
        rest = next;
    }
}
