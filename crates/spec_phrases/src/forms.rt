// Specifications of values, types, exceptions and datatypes, after their first word.

ghost use Rattle.std.specs.Prelude.{◌≡◌, ◌<◌, ◌≤◌, ℕ};
ghost use Rattle.sml_tree.specs.Bare.{at};
ghost use Rattle.phrase_base.specs.Gives.{Gives};
ghost use Rattle.phrase_base.specs.Left.{left};
ghost use Rattle.spec_phrases.specs.FormsRead.{IsSpec, read_val_spec, read_eqtype_spec, read_type_spec, read_exception_spec, read_datatype_spec, read_abbreviation_spec};
ghost use Rattle.module_grammar.specs.Signatures.{binds_type, type_form};

use crate::descs::{read_con_descs, read_data_descs, read_type_descs, read_val_descs};
use mlc_base::place::Place;
use mlc_names::token::{Reserved, Token};
use module_code::nodes;
use module_code::signatures::Spec;
use phrase_base::got::Got;
use phrase_base::source::Source;
use phrase_base::stop::Stop;
use phrase_base::tokens::{after_word, tycon_at};
use phrase_base::types::TypeReader;
use std::alloc::Global;

/// `val valdesc and ..`
pub fn val_spec<'a, R: TypeReader>(
    alloc: Global,
    source: &Source,
    n: u32,
    place: Place,
    tokens: &'a [Token],
) -> Result<Got<'a, Spec>, Stop>
    requires { n < 1000 }
    ensures gives { (p : ℕ) → place ≡ at source.now.file p → Gives (λ x r. IsSpec source.now n (left source.now tokens.now) x.it x.depth x.rest.now r)
        result (read_val_spec n p (left source.now tokens.now)) }
{
    let Got { it, depth, rest } = read_val_descs::<R>(alloc, source, n, tokens)?;
    Ok(Got {
        it: nodes::values(place, it),
        depth,
        rest,
    })
}

/// `type typdesc and ..`
pub fn type_spec<'a, R: TypeReader>(
    alloc: Global,
    source: &Source,
    n: u32,
    place: Place,
    tokens: &'a [Token],
) -> Result<Got<'a, Spec>, Stop>
    ensures gives { (p : ℕ) → place ≡ at source.now.file p → Gives (λ x r. IsSpec source.now n (left source.now tokens.now) x.it x.depth x.rest.now r)
        result (read_type_spec p (left source.now tokens.now)) }
{
    let Got { it, depth, rest } = read_type_descs::<R>(alloc, source, tokens)?;
    Ok(Got {
        it: nodes::types(place, it),
        depth,
        rest,
    })
}

/// `eqtype typdesc and ..`
pub fn eqtype_spec<'a, R: TypeReader>(
    alloc: Global,
    source: &Source,
    place: Place,
    tokens: &'a [Token],
) -> Result<Got<'a, Spec>, Stop>
    ensures gives { (p : ℕ) → place ≡ at source.now.file p → Gives (λ x r. IsSpec source.now 0 (left source.now tokens.now) x.it x.depth x.rest.now r)
        result (read_eqtype_spec p (left source.now tokens.now)) }
{
    let Got { it, depth, rest } = read_type_descs::<R>(alloc, source, tokens)?;
    Ok(Got {
        it: nodes::equality_types(place, it),
        depth,
        rest,
    })
}

/// `exception exdesc and ..`
pub fn exception_spec<'a, R: TypeReader>(
    alloc: Global,
    source: &Source,
    n: u32,
    place: Place,
    tokens: &'a [Token],
) -> Result<Got<'a, Spec>, Stop>
    requires { n < 1000 }
    ensures gives { (p : ℕ) → place ≡ at source.now.file p → Gives (λ x r. IsSpec source.now n (left source.now tokens.now) x.it x.depth x.rest.now r)
        result (read_exception_spec n p (left source.now tokens.now)) }
{
    let Got { it, depth, rest } = read_con_descs::<R>(alloc, source, n, Reserved::And, tokens)?;
    Ok(Got {
        it: nodes::exceptions(place, it),
        depth,
        rest,
    })
}

/// `datatype datdesc and ..`
pub fn datatype_spec<'a, R: TypeReader>(
    alloc: Global,
    source: &Source,
    n: u32,
    place: Place,
    tokens: &'a [Token],
) -> Result<Got<'a, Spec>, Stop>
    requires { n < 1000 }
    ensures gives { (p : ℕ) → place ≡ at source.now.file p → Gives (λ x r. IsSpec source.now n (left source.now tokens.now) x.it x.depth x.rest.now r)
        result (read_datatype_spec n p (left source.now tokens.now)) }
{
    let Got { it, depth, rest } = read_data_descs::<R>(alloc, source, n, tokens)?;
    Ok(Got {
        it: nodes::datatypes(place, it),
        depth,
        rest,
    })
}

/// `type tyvarseq tycon = ty and ..`
fn abbreviation_spec<'a, R: TypeReader>(
    alloc: Global,
    source: &Source,
    n: u32,
    tokens: &'a [Token],
) -> Result<Got<'a, Spec>, Stop>
    requires { n < 1000 }
    ensures gives { (p : ℕ) → Gives (λ x r. IsSpec source.now n (left source.now tokens.now) x.it x.depth x.rest.now r)
        result (read_abbreviation_spec n p (left source.now tokens.now)) }
{
    let Got { it, depth, rest } = R::read_type_binds(alloc, source, n, tokens)?;
    Ok(Got {
        it: nodes::abbreviations(it),
        depth,
        rest,
    })
}

/// Whether a list after `type` binds: its first type constructor has `=` after it.
fn binds_type<R: TypeReader>(alloc: Global, source: &Source, tokens: &[Token]) -> Result<bool, Stop>
    ensures gives { Gives (λ b r. b ≡ r.tree) result (binds_type (left source.now tokens.now)) }
{
    let head = R::read_tyvars(alloc, source, tokens)?;
    let after_head = head.rest;
    match tycon_at(source, after_head) {
        Some(found) => Ok(after_word(source, Reserved::Equals, found.1).is_some()),
        None => Err(Stop::Bad(after_head.len())),
    }
}

/// Types or abbreviations, after `type`.
pub fn type_form<'a, R: TypeReader>(
    alloc: Global,
    source: &Source,
    n: u32,
    place: Place,
    tokens: &'a [Token],
) -> Result<Got<'a, Spec>, Stop>
    requires { n < 1000 }
    ensures gives { (p : ℕ) → place ≡ at source.now.file p → Gives (λ x r. IsSpec source.now n (left source.now tokens.now) x.it x.depth x.rest.now r)
        result (type_form n p (left source.now tokens.now)) }
{
    let binds = binds_type::<R>(alloc, source, tokens)?;
    if binds {
        abbreviation_spec::<R>(alloc, source, n, tokens)
    } else {
        type_spec::<R>(alloc, source, n, place, tokens)
    }
}
