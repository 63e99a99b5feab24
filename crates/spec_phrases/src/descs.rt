// Descriptions of values, types, constructors, exceptions and datatypes.

ghost use Rattle.std.specs.Prelude.{◌≡◌, ◌<◌};
ghost use Rattle.phrase_base.specs.Gives.{Gives};
ghost use Rattle.phrase_base.specs.Left.{left};
ghost use Rattle.spec_phrases.specs.DescsRead.{read_val_desc, IsValDesc, read_val_descs, IsValDescs, read_type_desc, IsTypeDesc, read_type_descs, IsTypeDescs, read_of, IsOf, read_con_desc, IsConDesc, IsConDescs, read_tycon_head, IsTyconHead, read_data_desc, IsDataDesc, read_data_descs, IsDataDescs};
ghost use Rattle.module_grammar.specs.Signatures.{read_con_descs};

use mlc_base::make::with;
use mlc_names::names::Name;
use mlc_names::token::{Reserved, Token};
use module_code::signatures::{ConDesc, DataDesc, TypeDesc, ValDesc};
use phrase_base::got::{Got, pushed};
use phrase_base::source::Source;
use phrase_base::stop::Stop;
use phrase_base::tokens::{after_word, past, place_at, tycon_at, vid_at};
use phrase_base::types::TypeReader;
use sml_tree::ident::Tyvar;
use sml_tree::tree::Ty;
use std::alloc::Global;

/// `vid : ty`
fn val_desc<'a, R: TypeReader>(
    alloc: Global,
    source: &Source,
    n: u32,
    tokens: &'a [Token],
) -> Result<Got<'a, ValDesc>, Stop>
    requires { n < 1000 }
    ensures gives { Gives (λ x r. IsValDesc source.now n (left source.now tokens.now) x.it x.depth x.rest.now r)
        result (read_val_desc n (left source.now tokens.now)) }
{
    let place = place_at(source, tokens);
    let Some((vid, after_vid)) = vid_at(source, tokens) else {
        return Err(Stop::Bad(tokens.len()))
    };
    let typed = past(source, Reserved::Colon, after_vid)?;
    let Got {
        it: ty,
        depth,
        rest,
    } = R::read_ty(alloc, source, n, typed)?;
    Ok(Got {
        it: ValDesc { place, vid, ty },
        depth,
        rest,
    })
}

/// Values, one or more.
pub fn read_val_descs<'a, R: TypeReader>(
    alloc: Global,
    source: &Source,
    n: u32,
    tokens: &'a [Token],
) -> Result<Got<'a, Vec<ValDesc>>, Stop>
    requires { n < 1000 }
    ensures gives { Gives (λ x r. IsValDescs source.now n (left source.now tokens.now) x.it.items x.depth x.rest.now r)
        result (read_val_descs n (left source.now tokens.now)) }
{
    let mut descs = Vec::new(alloc);
    let mut deepest = 0;
    let mut rest = tokens;
    'descs: loop {
        let (front, got) = with(descs, val_desc::<R>(alloc, source, n, rest))?;
        let after = got.rest;
        deepest = got.depth.max(deepest);
        descs = pushed(front, got.it)?;
        let Some(next) = after_word(source, Reserved::And, after) else {
            return Ok(Got {
                it: descs,
                depth: deepest,
                rest: after,
            })
        };
        rest = next;
    }
}

/// `tyvarseq tycon`
fn type_desc<'a, R: TypeReader>(
    alloc: Global,
    source: &Source,
    tokens: &'a [Token],
) -> Result<Got<'a, TypeDesc>, Stop>
    ensures gives { Gives (λ x r. IsTypeDesc source.now (left source.now tokens.now) x.it x.depth x.rest.now r)
        result (read_type_desc (left source.now tokens.now)) }
{
    let place = place_at(source, tokens);
    let Got {
        it: tyvars,
        depth: _,
        rest: after,
    } = R::read_tyvars(alloc, source, tokens)?;
    match tycon_at(source, after) {
        Some((tycon, rest)) => Ok(Got {
            it: TypeDesc {
                place,
                tyvars,
                tycon,
            },
            depth: 0,
            rest,
        }),
        None => Err(Stop::Bad(after.len())),
    }
}

/// Types, one or more.
pub fn read_type_descs<'a, R: TypeReader>(
    alloc: Global,
    source: &Source,
    tokens: &'a [Token],
) -> Result<Got<'a, Vec<TypeDesc>>, Stop>
    ensures gives { Gives (λ x r. IsTypeDescs source.now (left source.now tokens.now) x.it.items x.depth x.rest.now r)
        result (read_type_descs (left source.now tokens.now)) }
{
    let mut descs = Vec::new(alloc);
    let mut rest = tokens;
    'descs: loop {
        let (front, got) = with(descs, type_desc::<R>(alloc, source, rest))?;
        let after = got.rest;
        descs = pushed(front, got.it)?;
        let Some(next) = after_word(source, Reserved::And, after) else {
            return Ok(Got {
                it: descs,
                depth: 0,
                rest: after,
            })
        };
        rest = next;
    }
}

/// `of ty`, where it stands first.
fn of_ty<'a, R: TypeReader>(
    alloc: Global,
    source: &Source,
    n: u32,
    tokens: &'a [Token],
) -> Result<Got<'a, Option<Ty>>, Stop>
    requires { n < 1000 }
    ensures gives { Gives (λ x r. IsOf source.now n (left source.now tokens.now) x.it x.depth x.rest.now r)
        result (read_of n (left source.now tokens.now)) }
{
    match after_word(source, Reserved::Of, tokens) {
        Some(more) => {
            let Got { it, depth, rest } = R::read_ty(alloc, source, n, more)?;
            Ok(Got {
                it: Some(it),
                depth,
                rest,
            })
        }
        None => Ok(Got {
            it: None,
            depth: 0,
            rest: tokens,
        }),
    }
}

/// `vid [of ty]`
fn con_desc<'a, R: TypeReader>(
    alloc: Global,
    source: &Source,
    n: u32,
    tokens: &'a [Token],
) -> Result<Got<'a, ConDesc>, Stop>
    requires { n < 1000 }
    ensures gives { Gives (λ x r. IsConDesc source.now n (left source.now tokens.now) x.it x.depth x.rest.now r)
        result (read_con_desc n (left source.now tokens.now)) }
{
    let place = place_at(source, tokens);
    let Some((vid, after)) = vid_at(source, tokens) else {
        return Err(Stop::Bad(tokens.len()))
    };
    let Got {
        it: of_ty,
        depth,
        rest,
    } = of_ty::<R>(alloc, source, n, after)?;
    Ok(Got {
        it: ConDesc { place, vid, of_ty },
        depth,
        rest,
    })
}

/// Constructors or exceptions, one or more, parted by a word.
pub fn read_con_descs<'a, R: TypeReader>(
    alloc: Global,
    source: &Source,
    n: u32,
    word: Reserved,
    tokens: &'a [Token],
) -> Result<Got<'a, Vec<ConDesc>>, Stop>
    requires { n < 1000 }
    ensures gives { Gives (λ x r. IsConDescs source.now n (left source.now tokens.now) x.it.items x.depth x.rest.now r)
        result (read_con_descs n word (left source.now tokens.now)) }
{
    let mut descs = Vec::new(alloc);
    let mut deepest = 0;
    let mut rest = tokens;
    'descs: loop {
        let (front, got) = with(descs, con_desc::<R>(alloc, source, n, rest))?;
        let after = got.rest;
        deepest = got.depth.max(deepest);
        descs = pushed(front, got.it)?;
        let Some(next) = after_word(source, word, after) else {
            return Ok(Got {
                it: descs,
                depth: deepest,
                rest: after,
            })
        };
        rest = next;
    }
}

/// What the description of a datatype begins with, up to its `=`.
fn tycon_head<'a, R: TypeReader>(
    alloc: Global,
    source: &Source,
    tokens: &'a [Token],
) -> Result<Got<'a, (Vec<Tyvar>, Name)>, Stop>
    ensures gives { Gives (λ x r. IsTyconHead source.now (left source.now tokens.now) x.it.0.items x.it.1 x.rest.now r)
        result (read_tycon_head (left source.now tokens.now)) }
{
    let Got {
        it: tyvars,
        depth: _,
        rest: after_tyvars,
    } = R::read_tyvars(alloc, source, tokens)?;
    let Some((tycon, after_tycon)) = tycon_at(source, after_tyvars) else {
        return Err(Stop::Bad(after_tyvars.len()))
    };
    match after_word(source, Reserved::Equals, after_tycon) {
        Some(rest) => Ok(Got {
            it: (tyvars, tycon),
            depth: 0,
            rest,
        }),
        None => Err(Stop::Bad(after_tycon.len())),
    }
}

/// `tyvarseq tycon = condesc | ..`
fn data_desc<'a, R: TypeReader>(
    alloc: Global,
    source: &Source,
    n: u32,
    tokens: &'a [Token],
) -> Result<Got<'a, DataDesc>, Stop>
    requires { n < 1000 }
    ensures gives { Gives (λ x r. IsDataDesc source.now n (left source.now tokens.now) x.it x.depth x.rest.now r)
        result (read_data_desc n (left source.now tokens.now)) }
{
    let place = place_at(source, tokens);
    let Got {
        it: (tyvars, tycon),
        depth: _,
        rest: after,
    } = tycon_head::<R>(alloc, source, tokens)?;
    let (vars, cons) = with(
        tyvars,
        read_con_descs::<R>(alloc, source, n, Reserved::Bar, after),
    )?;
    Ok(Got {
        it: DataDesc {
            place,
            tyvars: vars,
            tycon,
            cons: cons.it,
        },
        depth: cons.depth,
        rest: cons.rest,
    })
}

/// Datatypes, one or more.
pub fn read_data_descs<'a, R: TypeReader>(
    alloc: Global,
    source: &Source,
    n: u32,
    tokens: &'a [Token],
) -> Result<Got<'a, Vec<DataDesc>>, Stop>
    requires { n < 1000 }
    ensures gives { Gives (λ x r. IsDataDescs source.now n (left source.now tokens.now) x.it.items x.depth x.rest.now r)
        result (read_data_descs n (left source.now tokens.now)) }
{
    let mut descs = Vec::new(alloc);
    let mut deepest = 0;
    let mut rest = tokens;
    'descs: loop {
        let (front, got) = with(descs, data_desc::<R>(alloc, source, n, rest))?;
        let after = got.rest;
        deepest = got.depth.max(deepest);
        descs = pushed(front, got.it)?;
        let Some(next) = after_word(source, Reserved::And, after) else {
            return Ok(Got {
                it: descs,
                depth: deepest,
                rest: after,
            })
        };
        rest = next;
    }
}
