// Type variables, and bindings of types and exceptions.

ghost use Rattle.std.specs.Prelude.{◌≡◌, ◌<◌, ◌≤◌, ℕ, length};
ghost use Rattle.sml_tree.specs.Bare.{at};
ghost use Rattle.sml_grammar.specs.Answer.{read, whole};
ghost use Rattle.sml_grammar.specs.Terminals.{no_state};
ghost use Rattle.sml_grammar.specs.Bindings.{read_tyvars, tyvars_place, tyvar_turn, read_type_binds, read_cons, read_data_binds, read_ex_binds, read_strids, read_vids, precedence_then};
ghost use Rattle.phrase_base.specs.Gives.{Gives};
ghost use Rattle.phrase_base.specs.Left.{left};
ghost use Rattle.sml_phrases.specs.BindingsRead.{IsTyvars, IsStrids, IsVids, IsTyconHead, read_tycon_head, IsTypeBind, read_type_bind, IsTypeBinds, IsCon, read_con, IsCons, IsDataBind, read_data_bind, IsDataBinds, IsExBind, read_ex_bind, IsExBinds};

use crate::types::{maybe_ty, read_ty};
use crate::vids::{binds_vid, digit_at, names_vid, vid_place};
use mlc_base::make::with;
use mlc_base::place::Place;
use mlc_names::names::Name;
use mlc_names::token::{Reserved, Token};
use phrase_base::got::{Got, pushed};
use phrase_base::source::Source;
use phrase_base::stop::Stop;
use phrase_base::tokens::{after_word, long_strid_at, place_at, tycon_at, tyvar_at, vid_at};
use sml_tree::fixity::Fixities;
use sml_tree::ident::Tyvar;
use sml_tree::tree::{ConBind, DataBind, ExBind, LongIdAt, TypeBind, TyvarSeq};
use std::alloc::Global;

/// Type variables: none, one, or some in brackets.
pub fn read_tyvars<'a>(
    alloc: Global,
    source: &Source,
    tokens: &'a [Token],
) -> Result<Got<'a, Vec<Tyvar>>, Stop>
    ensures gives { Gives (λ x r. IsTyvars source.now (left source.now tokens.now) x.it.items x.depth x.rest.now r)
        result (read_tyvars (left source.now tokens.now)) }
{
    let mut tyvars = Vec::new(alloc);
    if let Some((tyvar, rest)) = tyvar_at(source, tokens) {
        tyvars.push(tyvar)?;
        return Ok(Got {
            it: tyvars,
            depth: 0,
            rest,
        });
    }
    let Some(inner) = after_word(source, Reserved::LeftParen, tokens) else {
        return Ok(Got {
            it: tyvars,
            depth: 0,
            rest: tokens,
        })
    };
    if tyvar_at(source, inner).is_none() {
        return Ok(Got {
            it: tyvars,
            depth: 0,
            rest: tokens,
        });
    }
    bracketed_tyvars(alloc, source, inner)
}

/// Type variables that begin with these tokens, in the declaration at `place`, with their own place.
pub fn tyvar_seq(source: &Source, place: Place, tokens: &[Token], tyvars: Vec<Tyvar>) -> TyvarSeq
    ensures tyvars { result.tyvars ≡ tyvars }
    ensures place { (p : ℕ) → place ≡ at source.now.file p → result.place ≡ at source.now.file (tyvars_place p (left source.now tokens.now) tyvars.items) }
{
    let own_place = if tyvars.is_empty() {
        place
    } else {
        place_at(source, tokens)
    };
    TyvarSeq {
        place: own_place,
        tyvars,
    }
}

/// Type variables in brackets, after the bracket.
fn bracketed_tyvars<'a>(
    alloc: Global,
    source: &Source,
    tokens: &'a [Token],
) -> Result<Got<'a, Vec<Tyvar>>, Stop>
    ensures gives { Gives (λ x r. IsTyvars source.now (left source.now tokens.now) x.it.items x.depth x.rest.now r)
        result (whole tyvar_turn no_state (left source.now tokens.now)) }
{
    let mut tyvars = Vec::new(alloc);
    let mut rest = tokens;
    'tyvars: loop {
        let Some((tyvar, after)) = tyvar_at(source, rest) else {
            return Err(Stop::Bad(rest.len()))
        };
        tyvars.push(tyvar)?;
        let Some(next) = after_word(source, Reserved::Comma, after) else {
            let Some(closed) = after_word(source, Reserved::RightParen, after) else {
                return Err(Stop::Bad(after.len()))
            };
            return Ok(Got {
                it: tyvars,
                depth: 0,
                rest: closed,
            });
        };
        rest = next;
    }
}

/// Identifiers of structures, one or more.
pub fn read_strids<'a>(
    alloc: Global,
    source: &Source,
    tokens: &'a [Token],
) -> Result<Got<'a, Vec<LongIdAt>>, Stop>
    ensures gives { Gives (λ x r. IsStrids source.now (left source.now tokens.now) x.it.items x.depth x.rest.now r)
        result (read_strids (left source.now tokens.now)) }
{
    let mut strids = Vec::new(alloc);
    let mut rest = tokens;
    'strids: while let Some((long, next)) = long_strid_at(alloc, source, rest)? {
        strids.push(LongIdAt {
            place: place_at(source, rest),
            long,
        })?;
        rest = next;
    }
    if strids.is_empty() {
        return Err(Stop::Bad(tokens.len()));
    }
    Ok(Got {
        it: strids,
        depth: 0,
        rest,
    })
}

/// A directive's identifiers, one or more.
pub fn read_vids<'a>(
    alloc: Global,
    source: &Source,
    tokens: &'a [Token],
) -> Result<Got<'a, Vec<Name>>, Stop>
    ensures gives { Gives (λ x r. IsVids source.now (left source.now tokens.now) x.it.items x.depth x.rest.now r)
        result (read_vids (left source.now tokens.now)) }
{
    let mut vids = Vec::new(alloc);
    let mut rest = tokens;
    'vids: while let Some(found) = vid_at(source, rest) {
        vids.push(found.0)?;
        rest = found.1;
    }
    if vids.is_empty() {
        return Err(Stop::Bad(tokens.len()));
    }
    Ok(Got {
        it: vids,
        depth: 0,
        rest,
    })
}

/// A directive's precedence, 0 where none is written.
pub fn read_precedence<'a>(source: &Source, tokens: &'a [Token]) -> (u8, &'a [Token])
    ensures same { precedence_then read (left source.now tokens.now) ≡ read result.0 (left source.now result.1.now) }
    ensures shorter { length (left source.now result.1.now) ≤ length (left source.now tokens.now) }
{
    match digit_at(source, tokens) {
        Some(found) => found,
        None => (0, tokens),
    }
}

/// What a binding of a type begins with, up to its `=`.
fn tycon_head<'a>(
    alloc: Global,
    source: &Source,
    tokens: &'a [Token],
) -> Result<Got<'a, (Vec<Tyvar>, Name)>, Stop>
    ensures gives { Gives (λ x r. IsTyconHead source.now (left source.now tokens.now) x.it.0.items x.it.1 x.depth x.rest.now r)
        result (read_tycon_head (left source.now tokens.now)) }
{
    let Got {
        it: tyvars,
        depth: _,
        rest: after_tyvars,
    } = read_tyvars(alloc, source, tokens)?;
    let Some((tycon, after_tycon)) = tycon_at(source, after_tyvars) else {
        return Err(Stop::Bad(after_tyvars.len()))
    };
    match after_word(source, Reserved::Equals, after_tycon) {
        Some(rest) => Ok(Got {
            it: (tyvars, tycon),
            depth: 0,
            rest,
        }),
        None => Err(Stop::Bad(after_tycon.len())),
    }
}

/// A binding of a type.
fn type_bind<'a>(
    alloc: Global,
    source: &Source,
    n: u32,
    tokens: &'a [Token],
) -> Result<Got<'a, TypeBind>, Stop>
    requires { n < 1000 }
    ensures gives { Gives (λ x r. IsTypeBind source.now n (left source.now tokens.now) x.it x.depth x.rest.now r)
        result (read_type_bind n (left source.now tokens.now)) }
{
    let place = place_at(source, tokens);
    let Got {
        it: (tyvars, tycon),
        depth: _,
        rest: after,
    } = tycon_head(alloc, source, tokens)?;
    let (vars, ty) = with(tyvars, read_ty(alloc, source, n, 0, after))?;
    Ok(Got {
        it: TypeBind {
            place,
            tyvars: vars,
            tycon,
            ty: ty.it,
        },
        depth: ty.depth,
        rest: ty.rest,
    })
}

/// Bindings of types, one or more.
pub fn read_type_binds<'a>(
    alloc: Global,
    source: &Source,
    n: u32,
    tokens: &'a [Token],
) -> Result<Got<'a, Vec<TypeBind>>, Stop>
    requires { n < 1000 }
    ensures gives { Gives (λ x r. IsTypeBinds source.now n (left source.now tokens.now) x.it.items x.depth x.rest.now r)
        result (read_type_binds n (left source.now tokens.now)) }
{
    let mut binds = Vec::new(alloc);
    let mut deepest = 0;
    let mut rest = tokens;
    'binds: loop {
        let (front, got) = with(binds, type_bind(alloc, source, n, rest))?;
        let after = got.rest;
        deepest = got.depth.max(deepest);
        binds = pushed(front, got.it)?;
        let Some(next) = after_word(source, Reserved::And, after) else {
            return Ok(Got {
                it: binds,
                depth: deepest,
                rest: after,
            })
        };
        rest = next;
    }
}

/// A constructor of a datatype.
fn con_bind<'a>(
    alloc: Global,
    source: &Source,
    fix: &Fixities,
    n: u32,
    tokens: &'a [Token],
) -> Result<Got<'a, ConBind>, Stop>
    requires { n < 1000 }
    ensures gives { Gives (λ x r. IsCon source.now n (left source.now tokens.now) x.it x.depth x.rest.now r)
        result (read_con n fix.now (left source.now tokens.now)) }
{
    let Some((vid, after)) = binds_vid(source, fix, tokens) else {
        return Err(Stop::Bad(tokens.len()))
    };
    let Got {
        it: of_ty,
        depth,
        rest,
    } = maybe_ty(alloc, source, n, Reserved::Of, after)?;
    Ok(Got {
        it: ConBind {
            place: vid_place(source, tokens),
            vid,
            of_ty,
        },
        depth,
        rest,
    })
}

/// Constructors of a datatype, one or more.
fn read_cons<'a>(
    alloc: Global,
    source: &Source,
    fix: &Fixities,
    n: u32,
    tokens: &'a [Token],
) -> Result<Got<'a, Vec<ConBind>>, Stop>
    requires { n < 1000 }
    ensures gives { Gives (λ x r. IsCons source.now n (left source.now tokens.now) x.it.items x.depth x.rest.now r)
        result (read_cons n fix.now (left source.now tokens.now)) }
{
    let mut cons = Vec::new(alloc);
    let mut deepest = 0;
    let mut rest = tokens;
    'cons: loop {
        let (front, got) = with(cons, con_bind(alloc, source, fix, n, rest))?;
        let after = got.rest;
        deepest = got.depth.max(deepest);
        cons = pushed(front, got.it)?;
        let Some(next) = after_word(source, Reserved::Bar, after) else {
            return Ok(Got {
                it: cons,
                depth: deepest,
                rest: after,
            })
        };
        rest = next;
    }
}

/// A datatype.
fn data_bind<'a>(
    alloc: Global,
    source: &Source,
    fix: &Fixities,
    n: u32,
    tokens: &'a [Token],
) -> Result<Got<'a, DataBind>, Stop>
    requires { n < 1000 }
    ensures gives { Gives (λ x r. IsDataBind source.now n (left source.now tokens.now) x.it x.depth x.rest.now r)
        result (read_data_bind n fix.now (left source.now tokens.now)) }
{
    let place = place_at(source, tokens);
    let Got {
        it: (tyvars, tycon),
        depth: _,
        rest: after,
    } = tycon_head(alloc, source, tokens)?;
    let (vars, cons) = with(tyvars, read_cons(alloc, source, fix, n, after))?;
    Ok(Got {
        it: DataBind {
            place,
            tyvars: vars,
            tycon,
            cons: cons.it,
        },
        depth: cons.depth,
        rest: cons.rest,
    })
}

/// Datatypes, one or more.
pub fn read_data_binds<'a>(
    alloc: Global,
    source: &Source,
    fix: &Fixities,
    n: u32,
    tokens: &'a [Token],
) -> Result<Got<'a, Vec<DataBind>>, Stop>
    requires { n < 1000 }
    ensures gives { Gives (λ x r. IsDataBinds source.now n (left source.now tokens.now) x.it.items x.depth x.rest.now r)
        result (read_data_binds n fix.now (left source.now tokens.now)) }
{
    let mut binds = Vec::new(alloc);
    let mut deepest = 0;
    let mut rest = tokens;
    'binds: loop {
        let (front, got) = with(binds, data_bind(alloc, source, fix, n, rest))?;
        let after = got.rest;
        deepest = got.depth.max(deepest);
        binds = pushed(front, got.it)?;
        let Some(next) = after_word(source, Reserved::And, after) else {
            return Ok(Got {
                it: binds,
                depth: deepest,
                rest: after,
            })
        };
        rest = next;
    }
}

/// A binding of an exception.
fn ex_bind<'a>(
    alloc: Global,
    source: &Source,
    fix: &Fixities,
    n: u32,
    tokens: &'a [Token],
) -> Result<Got<'a, ExBind>, Stop>
    requires { n < 1000 }
    ensures gives { Gives (λ x r. IsExBind source.now n (left source.now tokens.now) x.it x.depth x.rest.now r)
        result (read_ex_bind n fix.now (left source.now tokens.now)) }
{
    let place = vid_place(source, tokens);
    let Some((vid, after)) = binds_vid(source, fix, tokens) else {
        return Err(Stop::Bad(tokens.len()))
    };
    if let Some(named) = after_word(source, Reserved::Equals, after) {
        return match names_vid(alloc, source, fix, named)? {
            Some((long, rest)) => Ok(Got {
                it: ExBind::Same(place, vid, vid_place(source, named), long),
                depth: 0,
                rest,
            }),
            None => Err(Stop::Bad(named.len())),
        };
    }
    let Got {
        it: of_ty,
        depth,
        rest,
    } = maybe_ty(alloc, source, n, Reserved::Of, after)?;
    Ok(Got {
        it: ExBind::New(place, vid, of_ty),
        depth,
        rest,
    })
}

/// Bindings of exceptions, one or more.
pub fn read_ex_binds<'a>(
    alloc: Global,
    source: &Source,
    fix: &Fixities,
    n: u32,
    tokens: &'a [Token],
) -> Result<Got<'a, Vec<ExBind>>, Stop>
    requires { n < 1000 }
    ensures gives { Gives (λ x r. IsExBinds source.now n (left source.now tokens.now) x.it.items x.depth x.rest.now r)
        result (read_ex_binds n fix.now (left source.now tokens.now)) }
{
    let mut binds = Vec::new(alloc);
    let mut deepest = 0;
    let mut rest = tokens;
    'binds: loop {
        let (front, got) = with(binds, ex_bind(alloc, source, fix, n, rest))?;
        let after = got.rest;
        deepest = got.depth.max(deepest);
        binds = pushed(front, got.it)?;
        let Some(next) = after_word(source, Reserved::And, after) else {
            return Ok(Got {
                it: binds,
                depth: deepest,
                rest: after,
            })
        };
        rest = next;
    }
}
