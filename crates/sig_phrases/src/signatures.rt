// Signatures and specifications.

ghost use Rattle.std.specs.Prelude.{◌≡◌, ◌<◌, ◌≤◌, ◌+◌, ◌-◌, ℕ, List, length};
ghost use Rattle.sml_tree.specs.Bare.{at};
ghost use Rattle.sml_tree.specs.Terminal.{Terminal};
ghost use Rattle.sml_grammar.specs.Answer.{whole};
ghost use Rattle.sml_grammar.specs.Terminals.{place_at, first_as, no_state};
ghost use Rattle.module_grammar.specs.Signatures.{SigReader, as_module_id, read_sig, sig_atom, sig_id_if, sig_start_of, specs_from, spec_by, str_desc_turn, include_form};
ghost use Rattle.phrase_base.specs.Gives.{Gives};
ghost use Rattle.phrase_base.specs.Left.{left};
ghost use Rattle.spec_phrases.specs.FormsRead.{IsSpec};
ghost use Rattle.sig_phrases.specs.SigsRead.{IsSig, IsSpecs, IsDesc, IsDescs, read_str_desc, starts};

use crate::includes::{include_ids, two_ids};
use crate::plain::{datatype_form, eqtype_form, sharing_form};
use crate::wheres::with_wheres;
use crate::words::{SpecWord, no_sig_room, spec_word};
use mlc_base::make::with;
use mlc_base::place::Place;
use mlc_names::token::{Reserved, Token};
use module_code::nodes;
use module_code::signatures::{IdAt, SigExp, Spec, StrDesc};
use phrase_base::got::{Got, pushed};
use phrase_base::source::Source;
use phrase_base::stop::Stop;
use phrase_base::tokens::{after_word, past, place_at, tail};
use phrase_base::types::TypeReader;
use spec_phrases::forms::{exception_spec, type_form, val_spec};
use spec_phrases::ids::module_id_at;
use std::alloc::Global;

/// A signature, at most `n` deep.
#[cycle(signatures)]
pub fn read_sig<'a, R: TypeReader>(
    alloc: Global,
    source: &Source,
    n: u32,
    tokens: &'a [Token],
) -> Result<Got<'a, SigExp>, Stop>
    requires { n < 1000 }
    ensures gives { Gives (λ x r. IsSig source.now n (left source.now tokens.now) x.it x.depth x.rest.now r)
        result (read_sig n (left source.now tokens.now)) }
{
    if n == 0 {
        return Err(no_sig_room(source, tokens));
    }
    let Got { it, depth, rest } = sig_atom::<R>(alloc, source, n - 1, tokens)?;
    with_wheres::<R>(alloc, source, n - 1, it, depth, rest)
}

/// `sig .. end`, or an identifier.
#[cycle(signatures)]
#[tactic(auto, using(crate::proofs::Specs::specs_all, crate::proofs::Starts::opens_sig))]
fn sig_atom<'a, R: TypeReader>(
    alloc: Global,
    source: &Source,
    n: u32,
    tokens: &'a [Token],
) -> Result<Got<'a, SigExp>, Stop>
    requires { n < 999 }
    ensures gives { Gives (λ x r. IsSig source.now (n + 1) (left source.now tokens.now) x.it x.depth x.rest.now r)
        result (sig_atom n (read_sig n) (sig_start_of (left source.now tokens.now))) }
{
    let Some(inner) = after_word(source, Reserved::Sig, tokens) else {
        return named_sig(source, tokens)
    };
    let place = place_at(source, tokens);
    let specs = read_specs::<R>(alloc, source, n, inner)?;
    let after = specs.rest;
    let (specs, rest) = with(specs, past(source, Reserved::End, after))?;
    Ok(Got {
        it: nodes::signature(place, specs.it),
        depth: specs.depth + 1,
        rest,
    })
}

/// The identifier of a signature.
fn named_sig<'a>(source: &Source, tokens: &'a [Token]) -> Result<Got<'a, SigExp>, Stop>
    ensures gives { (n : ℕ) (self : SigReader) → Gives (λ x r. IsSig source.now 1 (left source.now tokens.now) x.it x.depth x.rest.now r)
        result (sig_atom n self (sig_id_if (first_as as_module_id (left source.now tokens.now)))) }
{
    match module_id_at(source, tokens) {
        Some((id, rest)) => Ok(Got {
            it: nodes::named_signature(IdAt {
                place: place_at(source, tokens),
                id,
            }),
            depth: 1,
            rest,
        }),
        None => Err(Stop::Bad(tokens.len())),
    }
}

/// Specifications: none, or some.
#[cycle(signatures)]
pub fn read_specs<'a, R: TypeReader>(
    alloc: Global,
    source: &Source,
    n: u32,
    tokens: &'a [Token],
) -> Result<Got<'a, Vec<Spec>>, Stop>
    requires { n < 1000 }
    ensures gives { Gives (λ x r. IsSpecs source.now n (left source.now tokens.now) x.it.items x.depth x.rest.now r)
        result (specs_from n (read_sig n) (left source.now tokens.now)) }
{
    let mut specs = Vec::new(alloc);
    let mut deepest = 0;
    let mut rest = tokens;
    'specs: loop {
        if let Some(next) = after_word(source, Reserved::Semicolon, rest) {
            rest = next;
            continue 'specs;
        }
        let Some(word) = spec_word(source, rest) else {
            return Ok(Got {
                it: specs,
                depth: deepest,
                rest,
            })
        };
        let place = place_at(source, rest);
        let inner = tail(source, rest);
        let (front, got) = with(specs, read_spec::<R>(alloc, source, n, word, place, inner))?;
        deepest = got.depth.max(deepest);
        rest = got.rest;
        specs = pushed(front, got.it)?;
    }
}

/// A specification, after its first word.
#[cycle(signatures)]
#[tactic(auto, using(crate::proofs::Specs::descs_all))]
fn read_spec<'a, R: TypeReader>(
    alloc: Global,
    source: &Source,
    n: u32,
    word: SpecWord,
    place: Place,
    tokens: &'a [Token],
) -> Result<Got<'a, Spec>, Stop>
    requires { n < 1000 }
    ensures gives { (p : ℕ) → place ≡ at source.now.file p → Gives (λ x r. IsSpec source.now n (left source.now tokens.now) x.it x.depth x.rest.now r)
        result (spec_by n (read_sig n) (starts word p (left source.now tokens.now))) }
{
    match word {
        SpecWord::Val => val_spec::<R>(alloc, source, n, place, tokens),
        SpecWord::Type => type_form::<R>(alloc, source, n, place, tokens),
        SpecWord::Eqtype => eqtype_form::<R>(alloc, source, n, place, tokens),
        SpecWord::Datatype => datatype_form::<R>(alloc, source, n, place, tokens),
        SpecWord::Exception => exception_spec::<R>(alloc, source, n, place, tokens),
        SpecWord::Structure => {
            let Got { it, depth, rest } = read_str_descs::<R>(alloc, source, n, tokens)?;
            Ok(Got {
                it: nodes::structures(place, it),
                depth,
                rest,
            })
        }
        SpecWord::Include => read_include::<R>(alloc, source, n, place, tokens),
        SpecWord::Sharing => sharing_form(alloc, source, n, place, tokens),
    }
}

/// Structures, one or more.
#[cycle(signatures)]
fn read_str_descs<'a, R: TypeReader>(
    alloc: Global,
    source: &Source,
    n: u32,
    tokens: &'a [Token],
) -> Result<Got<'a, Vec<StrDesc>>, Stop>
    requires { n < 1000 }
    ensures gives { Gives (λ x r. IsDescs source.now n (left source.now tokens.now) x.it.items x.depth x.rest.now r)
        result (whole (str_desc_turn (read_sig n)) no_state (left source.now tokens.now)) }
{
    let mut descs = Vec::new(alloc);
    let mut deepest = 0;
    let mut rest = tokens;
    'descs: loop {
        let (front, got) = with(descs, str_desc::<R>(alloc, source, n, rest))?;
        let after = got.rest;
        deepest = got.depth.max(deepest);
        descs = pushed(front, got.it)?;
        let Some(next) = after_word(source, Reserved::And, after) else {
            return Ok(Got {
                it: descs,
                depth: deepest,
                rest: after,
            })
        };
        rest = next;
    }
}

/// `strid : sigexp`
#[cycle(signatures)]
fn str_desc<'a, R: TypeReader>(
    alloc: Global,
    source: &Source,
    n: u32,
    tokens: &'a [Token],
) -> Result<Got<'a, StrDesc>, Stop>
    requires { n < 1000 }
    ensures gives { Gives (λ x r. IsDesc source.now n (left source.now tokens.now) x.it x.depth x.rest.now r)
        result (read_str_desc (read_sig n) (left source.now tokens.now)) }
{
    let place = place_at(source, tokens);
    let Some((id, after)) = module_id_at(source, tokens) else {
        return Err(Stop::Bad(tokens.len()))
    };
    let typed = past(source, Reserved::Colon, after)?;
    let Got { it, depth, rest } = read_sig::<R>(alloc, source, n, typed)?;
    Ok(Got {
        it: nodes::structure_desc(IdAt { place, id }, it),
        depth,
        rest,
    })
}

/// A signature, or two identifiers or more, after `include`.
#[cycle(signatures)]
fn read_include<'a, R: TypeReader>(
    alloc: Global,
    source: &Source,
    n: u32,
    place: Place,
    tokens: &'a [Token],
) -> Result<Got<'a, Spec>, Stop>
    requires { n < 1000 }
    ensures gives { (p : ℕ) → place ≡ at source.now.file p → Gives (λ x r. IsSpec source.now n (left source.now tokens.now) x.it x.depth x.rest.now r)
        result (include_form n (read_sig n) p (left source.now tokens.now)) }
{
    if two_ids(source, tokens) {
        return include_ids(alloc, source, n, place, tokens);
    }
    let Got { it, depth, rest } = read_sig::<R>(alloc, source, n, tokens)?;
    Ok(Got {
        it: nodes::included(alloc, place, it)?,
        depth,
        rest,
    })
}
