// Signatures on structures.

ghost use Rattle.std.specs.Prelude.{◌≡◌, ◌<◌, ◌+◌, ℕ, List, Some, None, IfOk, MatchOption};
ghost use Rattle.sml_tree.specs.Bare.{at};
ghost use Rattle.sml_tree.specs.BareTree.{Dec};
ghost use Rattle.sml_tree.specs.Terminal.{Terminal};
ghost use Rattle.sml_grammar.specs.Answer.{Read, whole};
ghost use Rattle.sml_grammar.specs.Terminals.{place_at};
ghost use Rattle.module_tree.specs.ReadModules as read;
ghost use Rattle.module_code.specs.TreeOf.{seal_of, str_of};
ghost use Rattle.module_grammar.specs.Structures.{sealing, maybe_sig, seal_suffix};
ghost use Rattle.phrase_base.specs.Gives.{Gives};
ghost use Rattle.phrase_base.specs.Left.{left};
ghost use Rattle.str_phrases.specs.StrsRead.{IsStr, IsSign, sign_of, put_sign};

use mlc_base::make::with;
use mlc_base::memory::NoMemory;
use mlc_base::place::Place;
use mlc_names::token::{Reserved, Token};
use module_code::nodes;
use module_code::signatures::SigExp;
use module_code::structures::{Seal, StrExp};
use phrase_base::got::Got;
use phrase_base::source::Source;
use phrase_base::stop::Stop;
use phrase_base::tokens::{after_word, room};
use phrase_base::types::TypeReader;
use sig_phrases::signatures::read_sig;
use std::alloc::Global;

/// A signature that is put on a structure, and how.
#[derive(Drop)]
pub struct Sign {
    pub seal: Seal,
    pub sig: SigExp,
}

/// The sign before a signature, and what follows it.
fn sealing<'a>(source: &Source, tokens: &'a [Token]) -> Option<(Seal, &'a [Token])>
    ensures { MatchOption result (sealing (left source.now tokens.now) ≡ None)
        (λ x. sealing (left source.now tokens.now) ≡ Some (record { seal = seal_of x.0; rest = left source.now x.1.now })) }
{
    if let Some(rest) = after_word(source, Reserved::Colon, tokens) {
        return Some((Seal::Transparent, rest));
    }
    match after_word(source, Reserved::ColonGreater, tokens) {
        Some(rest) => Some((Seal::Opaque, rest)),
        None => None,
    }
}

/// `: sigexp` or `:> sigexp`, where one of them stands first.
pub fn read_sign<'a, R: TypeReader>(
    alloc: Global,
    source: &Source,
    n: u32,
    tokens: &'a [Token],
) -> Result<Got<'a, Option<Sign>>, Stop>
    requires { n < 1000 }
    ensures gives { Gives (λ x r. IsSign source.now n (left source.now tokens.now) x.it x.depth x.rest.now r)
        result (maybe_sig n (left source.now tokens.now)) }
{
    let Some((seal, after)) = sealing(source, tokens) else {
        return Ok(Got {
            it: None,
            depth: 0,
            rest: tokens,
        })
    };
    let Got {
        it: sig,
        depth,
        rest,
    } = read_sig::<R>(alloc, source, n, after)?;
    Ok(Got {
        it: Some(Sign { seal, sig }),
        depth,
        rest,
    })
}

/// A structure with a signature put on it, where there is one.
pub fn signed<D: Drop>(
    alloc: Global,
    place: Place,
    str: StrExp<D>,
    sign: Option<Sign>,
) -> Result<StrExp<D>, NoMemory>
    ensures { IfOk result (λ made. (of : D → Dec) → str_of of made ≡ put_sign place (sign_of sign) (str_of of str)) }
{
    match sign {
        Some(sign) => nodes::constrained(alloc, place, str, sign.seal, sign.sig),
        None => Ok(str),
    }
}

/// A structure with each signature that follows it put on it.
pub fn with_seals<'a, R: TypeReader, D: Drop>(
    alloc: Global,
    source: &Source,
    n: u32,
    place: Place,
    first: StrExp<D>,
    depth: u32,
    tokens: &'a [Token],
) -> Result<Got<'a, StrExp<D>>, Stop>
    requires { n < 1000 }
    ensures gives { (of : D → Dec) (i : List Terminal) (a : Read read.StrExp) → place ≡ at source.now.file (place_at i)
        → IsStr of source.now (n + 1) i first depth tokens.now a
        → Gives (λ x r. IsStr of source.now (n + 1) i x.it x.depth x.rest.now r) result (whole (seal_suffix n) a.tree a.rest) }
{
    let mut str = first;
    let mut deep = depth;
    let mut rest = tokens;
    'suffixes: loop {
        let Some((seal, after)) = sealing(source, rest) else {
            return Ok(Got {
                it: str,
                depth: deep,
                rest,
            })
        };
        let (before, _room) = with(str, room(deep, n, rest))?;
        let (under, got) = with(before, read_sig::<R>(alloc, source, n, after))?;
        let below = deep.max(got.depth);
        rest = got.rest;
        str = nodes::constrained(alloc, place, under, seal, got.it)?;
        deep = below + 1;
    }
}
