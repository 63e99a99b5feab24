// Types.

ghost use Rattle.std.specs.Prelude.{◌≡◌, ◌<◌, ◌≤◌, ◌+◌, ◌∷◌, [], length, map, List, Option, Some, None, IfOk, MatchOption, MatchResult, IfSome};
ghost use Rattle.sml_tree.specs.Terminal.{Terminal};
ghost use Rattle.sml_tree.specs.ReadTree as read;
ghost use Rattle.sml_tree.specs.Bare as bare;
ghost use Rattle.sml_tree.specs.BareTree as tree;
ghost use Rattle.sml_tree.specs.Bare.{bare_ty};
ghost use Rattle.sml_tree.specs.Depth.{depth_ty};
ghost use Rattle.sml_tree.specs.TreeOf.{ty_of, long_id_of};
ghost use Rattle.sml_tree.specs.Derived.{tys_of};
ghost use Rattle.sml_grammar.specs.Answer.{Read, then_read, whole};
ghost use Rattle.sml_grammar.specs.Terminals.{NoState, no_state, place_at, after_word};
ghost use Rattle.sml_grammar.specs.Types.{TyReader, read_ty, maybe_ty, begins_ty, ty_atom, ty_start, brace_ty, paren_rest, arguments, postfix_turn, product_rest, arrow_rest, ty_field_turn, arrow_turn};
ghost use Rattle.phrase_base.specs.Gives.{Gives};
ghost use Rattle.phrase_base.specs.Left.{left};
ghost use Rattle.sml_phrases.specs.TypesRead.{IsTy, IsTys, IsTyParts, IsTyFields, IsMaybeTy, plain_start, separator_level, after_separator, separator_turn};

use mlc_base::make::{boxed, one, with};
use mlc_base::memory::NoMemory;
use mlc_base::place::Place;
use mlc_names::token::{Reserved, Token, TokenKind};
use phrase_base::got::{Got, pushed};
use phrase_base::source::Source;
use phrase_base::stop::Stop;
use phrase_base::tokens::{
    after_star, after_word, label_at, long_tycon_at, past, place_at, room, tyvar_at,
};
use sml_tree::ident::LongId;
use sml_tree::tree::{Ty, TyField, TyPart};
use std::alloc::Global;

/// What parts the types of a list.
#[derive(Clone, Copy, PartialEq, Eq, Debug)]
pub enum Separator {
    Comma,
    Star,
}

/// The least level of a type between these.
fn separator_level(separator: Separator) -> u32
    ensures { result ≡ separator_level separator }
{
    match separator {
        Separator::Comma => 0,
        Separator::Star => 2,
    }
}

fn after_separator<'a>(
    source: &Source,
    separator: Separator,
    tokens: &'a [Token],
) -> Option<&'a [Token]>
    ensures { MatchOption result (after_separator separator (left source.now tokens.now) ≡ None)
        (λ rest. after_separator separator (left source.now tokens.now) ≡ Some (left source.now rest.now)) }
{
    match separator {
        Separator::Comma => after_word(source, Reserved::Comma, tokens),
        Separator::Star => after_star(source, tokens),
    }
}

/// Whether a type begins with these tokens.
fn begins_ty(source: &Source, tokens: &[Token]) -> bool
    ensures { result ≡ begins_ty (left source.now tokens.now) }
{
    match tokens {
        [first, ..] => match &first.kind {
            TokenKind::Reserved(Reserved::LeftBrace) => true,
            TokenKind::Reserved(Reserved::LeftParen) => true,
            TokenKind::Ident(_) => true,
            TokenKind::Symbol(name) => *name != source.star,
            TokenKind::LongIdent(_, _) => true,
            TokenKind::LongSymbol(_, name) => *name != source.star,
            TokenKind::TypeVar(_) => true,
            TokenKind::EqTypeVar(_) => true,
            _ => false,
        },
        [] => false,
    }
}

/// A type of a level of at least `level`, at most `n` deep.
#[cycle(types)]
pub fn read_ty<'a>(
    alloc: Global,
    source: &Source,
    n: u32,
    level: u32,
    tokens: &'a [Token],
) -> Result<Got<'a, Ty>, Stop>
    requires { n < 1000 }
    ensures gives { Gives (λ x r. IsTy source.now n (left source.now tokens.now) x.it x.depth x.rest.now r)
        result (read_ty n level (left source.now tokens.now)) }
{
    if n == 0 {
        if begins_ty(source, tokens) {
            return Err(Stop::Deep(tokens.len()));
        }
        return Err(Stop::Bad(tokens.len()));
    }
    let place = place_at(source, tokens);
    let Got {
        it: atom,
        depth: atom_depth,
        rest: after_atom,
    } = atomic_ty(alloc, source, n - 1, tokens)?;
    let Got {
        it: applied,
        depth: applied_depth,
        rest: after_applied,
    } = applied_ty(alloc, source, n - 1, place, atom, atom_depth, after_atom)?;
    let Got {
        it: product,
        depth,
        rest,
    } = product_ty(
        alloc,
        source,
        n - 1,
        level,
        place,
        applied,
        applied_depth,
        after_applied,
    )?;
    function_ty(alloc, source, n - 1, level, place, product, depth, rest)
}

/// An atomic type.
#[cycle(types)]
fn atomic_ty<'a>(
    alloc: Global,
    source: &Source,
    n: u32,
    tokens: &'a [Token],
) -> Result<Got<'a, Ty>, Stop>
    requires { n < 1000 }
    ensures gives { Gives (λ x r. IsTy source.now (n + 1) (left source.now tokens.now) x.it x.depth x.rest.now r)
        result (ty_atom (read_ty n) (ty_start (left source.now tokens.now))) }
{
    let place = place_at(source, tokens);
    if let Some(rest) = after_word(source, Reserved::LeftBrace, tokens) {
        return record_ty(alloc, source, n, place, rest);
    }
    if let Some(rest) = after_word(source, Reserved::LeftParen, tokens) {
        return bracketed_ty(alloc, source, n, place, rest);
    }
    plain_ty(alloc, source, tokens)
}

/// A type variable, or a type constructor without arguments.
fn plain_ty<'a>(alloc: Global, source: &Source, tokens: &'a [Token]) -> Result<Got<'a, Ty>, Stop>
    ensures gives { (self : TyReader) → Gives (λ x r. IsTy source.now 1 (left source.now tokens.now) x.it x.depth x.rest.now r)
        result (ty_atom self (plain_start (left source.now tokens.now))) }
{
    let place = place_at(source, tokens);
    if let Some((tyvar, rest)) = tyvar_at(source, tokens) {
        return Ok(Got {
            it: Ty::Var(place, tyvar),
            depth: 1,
            rest,
        });
    }
    match long_tycon_at(alloc, source, tokens)? {
        Some((long, rest)) => Ok(Got {
            it: Ty::Con(place, Vec::new(alloc), place, long),
            depth: 1,
            rest,
        }),
        None => Err(Stop::Bad(tokens.len())),
    }
}

/// A record type, after its `{`.
#[cycle(types)]
fn record_ty<'a>(
    alloc: Global,
    source: &Source,
    n: u32,
    place: Place,
    tokens: &'a [Token],
) -> Result<Got<'a, Ty>, Stop>
    requires { n < 1000 }
    ensures gives { (i : List Terminal) → place ≡ bare.at source.now.file (place_at i) → length (left source.now tokens.now) < length i
        → Gives (λ x r. IsTy source.now (n + 1) i x.it x.depth x.rest.now r) result (brace_ty (read_ty n) (place_at i) (left source.now tokens.now)) }
{
    if let Some(rest) = after_word(source, Reserved::RightBrace, tokens) {
        return Ok(Got {
            it: Ty::Record(place, Vec::new(alloc)),
            depth: 1,
            rest,
        });
    }
    let Got {
        it,
        depth,
        rest: after,
    } = ty_fields(alloc, source, n, tokens)?;
    let (fields, rest) = with(it, past(source, Reserved::RightBrace, after))?;
    Ok(Got {
        it: Ty::Record(place, fields),
        depth: depth + 1,
        rest,
    })
}

/// The fields of a record type.
#[cycle(types)]
fn ty_fields<'a>(
    alloc: Global,
    source: &Source,
    n: u32,
    tokens: &'a [Token],
) -> Result<Got<'a, Vec<TyField>>, Stop>
    requires { n < 1000 }
    ensures gives { Gives (λ x r. IsTyFields source.now n (left source.now tokens.now) x.it.items x.depth x.rest.now r)
        result (whole (ty_field_turn (read_ty n)) no_state (left source.now tokens.now)) }
{
    let mut all = Vec::new(alloc);
    let mut deepest = 0;
    let mut rest = tokens;
    'fields: loop {
        let Some((label, after_label)) = label_at(source, rest) else {
            return Err(Stop::Bad(rest.len()))
        };
        let (others, after_colon) = with(all, past(source, Reserved::Colon, after_label))?;
        let (start, ty) = with(others, read_ty(alloc, source, n, 0, after_colon))?;
        let after = ty.rest;
        deepest = ty.depth.max(deepest);
        all = pushed(start, TyField { label, ty: ty.it })?;
        let Some(next) = after_word(source, Reserved::Comma, after) else {
            return Ok(Got {
                it: all,
                depth: deepest,
                rest: after,
            })
        };
        rest = next;
    }
}

/// A type in brackets, or types in brackets before a type constructor, after the bracket.
#[cycle(types)]
fn bracketed_ty<'a>(
    alloc: Global,
    source: &Source,
    n: u32,
    place: Place,
    tokens: &'a [Token],
) -> Result<Got<'a, Ty>, Stop>
    requires { n < 1000 }
    ensures gives { (i : List Terminal) → place ≡ bare.at source.now.file (place_at i) → length (left source.now tokens.now) < length i
        → Gives (λ x r. IsTy source.now (n + 1) i x.it x.depth x.rest.now r)
        result (then_read (read_ty n 0 (left source.now tokens.now)) (paren_rest (read_ty n) (place_at i))) }
{
    let Got {
        it,
        depth,
        rest: after,
    } = read_ty(alloc, source, n, 0, tokens)?;
    if let Some(more) = after_word(source, Reserved::Comma, after) {
        return applied_to(alloc, source, n, place, it, depth, more);
    }
    let (inside, rest) = with(it, past(source, Reserved::RightParen, after))?;
    Ok(Got {
        it: inside,
        depth: depth + 1,
        rest,
    })
}

/// A type constructor after its arguments, after the first of them and its comma.
#[cycle(types)]
fn applied_to<'a>(
    alloc: Global,
    source: &Source,
    n: u32,
    place: Place,
    first: Ty,
    depth: u32,
    tokens: &'a [Token],
) -> Result<Got<'a, Ty>, Stop>
    requires room { n < 1000 }
    requires fits { depth ≤ n }
    ensures gives { (i : List Terminal) (a : read.Ty) → place ≡ bare.at source.now.file (place_at i) → ty_of first ≡ bare_ty source.now.file a
        → depth ≡ depth_ty a → length (left source.now tokens.now) < length i
        → Gives (λ x r. IsTy source.now (n + 1) i x.it x.depth x.rest.now r) result (arguments (read_ty n) (place_at i) a (left source.now tokens.now)) }
{
    let Got {
        it,
        depth: deepest,
        rest: after,
    } = types_after(alloc, source, n, Separator::Comma, first, depth, tokens)?;
    let (arguments, closed) = with(it, past(source, Reserved::RightParen, after))?;
    let (all, found) = with(arguments, long_tycon_at(alloc, source, closed))?;
    match found {
        Some((long, rest)) => Ok(Got {
            it: Ty::Con(place, all, place_at(source, closed), long),
            depth: deepest + 1,
            rest,
        }),
        None => Err(Stop::Bad(closed.len())),
    }
}

/// Types after the first of them, and what parts them.
#[cycle(types)]
fn types_after<'a>(
    alloc: Global,
    source: &Source,
    n: u32,
    separator: Separator,
    first: Ty,
    depth: u32,
    tokens: &'a [Token],
) -> Result<Got<'a, Vec<Ty>>, Stop>
    requires room { n < 1000 }
    requires fits { depth ≤ n }
    ensures gives { Gives (λ x r. IsTys source.now n (left source.now tokens.now) (first ∷ []) depth x.it.items x.depth x.rest.now r)
        result (whole (separator_turn separator (read_ty n)) no_state (left source.now tokens.now)) }
{
    let mut all = one(alloc, first)?;
    let mut deepest = depth;
    let mut rest = tokens;
    'types: loop {
        let (front, ty) = with(
            all,
            read_ty(alloc, source, n, separator_level(separator), rest),
        )?;
        let after = ty.rest;
        deepest = ty.depth.max(deepest);
        all = pushed(front, ty.it)?;
        let Some(next) = after_separator(source, separator, after) else {
            return Ok(Got {
                it: all,
                depth: deepest,
                rest: after,
            })
        };
        rest = next;
    }
}

/// A type constructor with one argument.
fn applied_con(
    alloc: Global,
    place: Place,
    argument: Ty,
    con_place: Place,
    long: LongId,
) -> Result<Ty, NoMemory>
    ensures { IfOk result (λ made. ty_of made ≡ tree.con place (tys_of (ty_of argument ∷ [])) con_place (long_id_of long)) }
{
    let (long, arguments) = with(long, one(alloc, argument))?;
    Ok(Ty::Con(place, arguments, con_place, long))
}

/// Type constructors after their one argument.
fn applied_ty<'a>(
    alloc: Global,
    source: &Source,
    n: u32,
    place: Place,
    first: Ty,
    depth: u32,
    tokens: &'a [Token],
) -> Result<Got<'a, Ty>, Stop>
    requires { n < 1000 }
    ensures gives { (i : List Terminal) (a : Read read.Ty) → place ≡ bare.at source.now.file (place_at i) → IsTy source.now (n + 1) i first depth tokens.now a
        → Gives (λ x r. IsTy source.now (n + 1) i x.it x.depth x.rest.now r) result (whole (postfix_turn n) a.tree a.rest) }
{
    let mut ty = first;
    let mut deep = depth;
    let mut rest = tokens;
    'constructors: loop {
        let (argument, found) = with(ty, long_tycon_at(alloc, source, rest))?;
        let Some((long, next)) = found else {
            return Ok(Got {
                it: argument,
                depth: deep,
                rest,
            })
        };
        let (parts, _room) = with((argument, long), room(deep, n, rest))?;
        let (argument, long) = parts;
        ty = applied_con(alloc, place, argument, place_at(source, rest), long)?;
        deep += 1;
        rest = next;
    }
}

/// The operands of a product after the first, if the level allows them.
#[cycle(types)]
fn product_ty<'a>(
    alloc: Global,
    source: &Source,
    n: u32,
    level: u32,
    place: Place,
    first: Ty,
    depth: u32,
    tokens: &'a [Token],
) -> Result<Got<'a, Ty>, Stop>
    requires { n < 1000 }
    ensures gives { (i : List Terminal) (a : Read read.Ty) → place ≡ bare.at source.now.file (place_at i) → IsTy source.now (n + 1) i first depth tokens.now a
        → Gives (λ x r. IsTy source.now (n + 1) i x.it x.depth x.rest.now r) result (product_rest (read_ty n) n level a.tree a.rest) }
{
    if level > 1 {
        return Ok(Got {
            it: first,
            depth,
            rest: tokens,
        });
    }
    let Some(more) = after_star(source, tokens) else {
        return Ok(Got {
            it: first,
            depth,
            rest: tokens,
        })
    };
    let (first, _room) = with(first, room(depth, n, tokens))?;
    let Got {
        it,
        depth: deepest,
        rest,
    } = types_after(alloc, source, n, Separator::Star, first, depth, more)?;
    Ok(Got {
        it: Ty::Product(place, it),
        depth: deepest + 1,
        rest,
    })
}

/// The operands of a function type after the first, if the level allows them.
#[cycle(types)]
fn function_ty<'a>(
    alloc: Global,
    source: &Source,
    n: u32,
    level: u32,
    place: Place,
    first: Ty,
    depth: u32,
    tokens: &'a [Token],
) -> Result<Got<'a, Ty>, Stop>
    requires { n < 1000 }
    ensures gives { (i : List Terminal) (a : Read read.Ty) → place ≡ bare.at source.now.file (place_at i) → IsTy source.now (n + 1) i first depth tokens.now a
        → Gives (λ x r. IsTy source.now (n + 1) i x.it x.depth x.rest.now r) result (arrow_rest (read_ty n) n level a.tree a.rest) }
{
    if level > 0 {
        return Ok(Got {
            it: first,
            depth,
            rest: tokens,
        });
    }
    let Some(more) = after_word(source, Reserved::Arrow, tokens) else {
        return Ok(Got {
            it: first,
            depth,
            rest: tokens,
        })
    };
    let (first, _room) = with(first, room(depth, n, tokens))?;
    let (left, others) = with(first, ty_parts(alloc, source, n, more))?;
    let deepest = others.depth.max(depth);
    let rest = others.rest;
    let (right, operand) = with(others.it, boxed(alloc, left))?;
    Ok(Got {
        it: Ty::Arrow(place, operand, right),
        depth: deepest + 1,
        rest,
    })
}

/// The operands of a function type after the first.
#[cycle(types)]
fn ty_parts<'a>(
    alloc: Global,
    source: &Source,
    n: u32,
    tokens: &'a [Token],
) -> Result<Got<'a, Vec<TyPart>>, Stop>
    requires { n < 1000 }
    ensures gives { Gives (λ x r. IsTyParts source.now n (left source.now tokens.now) x.it.items x.depth x.rest.now r)
        result (whole (arrow_turn (read_ty n)) no_state (left source.now tokens.now)) }
{
    let mut all = Vec::new(alloc);
    let mut deepest = 0;
    let mut rest = tokens;
    'parts: loop {
        let place = place_at(source, rest);
        let (front, ty) = with(all, read_ty(alloc, source, n, 1, rest))?;
        let after = ty.rest;
        deepest = ty.depth.max(deepest);
        all = pushed(front, TyPart { place, ty: ty.it })?;
        let Some(next) = after_word(source, Reserved::Arrow, after) else {
            return Ok(Got {
                it: all,
                depth: deepest,
                rest: after,
            })
        };
        rest = next;
    }
}

/// The type after a word, where the word stands first.
pub fn maybe_ty<'a>(
    alloc: Global,
    source: &Source,
    n: u32,
    word: Reserved,
    tokens: &'a [Token],
) -> Result<Got<'a, Option<Ty>>, Stop>
    requires { n < 1000 }
    ensures gives { Gives (λ x r. IsMaybeTy source.now n (left source.now tokens.now) x.it x.depth x.rest.now r)
        result (maybe_ty n (after_word word (left source.now tokens.now)) (left source.now tokens.now)) }
{
    match after_word(source, word, tokens) {
        Some(more) => {
            let Got { it, depth, rest } = read_ty(alloc, source, n, 0, more)?;
            Ok(Got {
                it: Some(it),
                depth,
                rest,
            })
        }
        None => Ok(Got {
            it: None,
            depth: 0,
            rest: tokens,
        }),
    }
}
