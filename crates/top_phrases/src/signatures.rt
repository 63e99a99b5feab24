// Bindings of signatures.

ghost use Rattle.std.specs.Prelude.{◌≡◌, ◌<◌};
ghost use Rattle.phrase_base.specs.Gives.{Gives};
ghost use Rattle.phrase_base.specs.Left.{left};
ghost use Rattle.top_phrases.specs.TopsRead.{read_sig_bind, IsSigBind, read_sig_binds, IsSigBinds};

use mlc_base::make::with;
use mlc_names::token::{Reserved, Token};
use module_code::signatures::IdAt;
use module_code::sources::SigBind;
use phrase_base::got::{Got, pushed};
use phrase_base::source::Source;
use phrase_base::stop::Stop;
use phrase_base::tokens::{after_word, past, place_at};
use phrase_base::types::TypeReader;
use sig_phrases::signatures::read_sig;
use spec_phrases::ids::module_id_at;
use std::alloc::Global;

/// `sigid = sigexp`
fn sig_bind<'a, R: TypeReader>(
    alloc: Global,
    source: &Source,
    n: u32,
    tokens: &'a [Token],
) -> Result<Got<'a, SigBind>, Stop>
    requires { n < 1000 }
    ensures gives { Gives (λ x r. IsSigBind source.now n (left source.now tokens.now) x.it x.depth x.rest.now r)
        result (read_sig_bind n (left source.now tokens.now)) }
{
    let place = place_at(source, tokens);
    let Some((id, after)) = module_id_at(source, tokens) else {
        return Err(Stop::Bad(tokens.len()))
    };
    let body = past(source, Reserved::Equals, after)?;
    let Got {
        it: sig,
        depth,
        rest,
    } = read_sig::<R>(alloc, source, n, body)?;
    Ok(Got {
        it: SigBind {
            sigid: IdAt { place, id },
            sig,
        },
        depth,
        rest,
    })
}

/// Bindings of signatures, one or more.
pub fn read_sig_binds<'a, R: TypeReader>(
    alloc: Global,
    source: &Source,
    n: u32,
    tokens: &'a [Token],
) -> Result<Got<'a, Vec<SigBind>>, Stop>
    requires { n < 1000 }
    ensures gives { Gives (λ x r. IsSigBinds source.now n (left source.now tokens.now) x.it.items x.depth x.rest.now r)
        result (read_sig_binds n (left source.now tokens.now)) }
{
    let mut binds = Vec::new(alloc);
    let mut deepest = 0;
    let mut rest = tokens;
    'binds: loop {
        let (front, got) = with(binds, sig_bind::<R>(alloc, source, n, rest))?;
        let after = got.rest;
        deepest = got.depth.max(deepest);
        binds = pushed(front, got.it)?;
        let Some(next) = after_word(source, Reserved::And, after) else {
            return Ok(Got {
                it: binds,
                depth: deepest,
                rest: after,
            })
        };
        rest = next;
    }
}
