// Structures and declarations that are made without reading further structures.

ghost use Rattle.std.specs.Prelude.{◌≡◌, ◌<◌, ◌&&◌, [], Some, None, true, false, IfOk, MatchOption};
ghost use Rattle.sml_grammar.specs.Terminals.{place_at, first_as, as_long_strid};
ghost use Rattle.sml_grammar.specs.Expressions.{dec_start};
ghost use Rattle.sml_tree.specs.BareTree.{Dec};
ghost use Rattle.module_grammar.specs.Structures.{StrReaders, str_atom, str_id_if, str_start};
ghost use Rattle.phrase_base.specs.Gives.{Gives};
ghost use Rattle.phrase_base.specs.Left.{left};
ghost use Rattle.str_phrases.specs.StrsRead.{IsStr, IsStrDec, functor_found, read_core, local_list, mixed_list, items_of, as_items, is_core_item, are_core};

use crate::decs::{Decs, Item, mixed};
use crate::reader::CoreReader;
use mlc_base::make::with;
use mlc_base::memory::NoMemory;
use mlc_base::place::Place;
use mlc_names::names::Name;
use mlc_names::token::{Reserved, Token};
use module_code::nodes;
use module_code::structures::StrExp;
use phrase_base::got::Got;
use phrase_base::source::Source;
use phrase_base::stop::Stop;
use phrase_base::tokens::{after_word, long_strid_at, place_at};
use sml_tree::fixity::Fixities;
use sml_tree::tree::LongIdAt;
use spec_phrases::ids::module_id_at;
use std::alloc::Global;

/// A functor's identifier and a bracket, which stand first.
pub fn functor_at<'a>(source: &Source, tokens: &'a [Token]) -> Option<(Name, &'a [Token])>
    ensures { MatchOption result (functor_found (left source.now tokens.now) ≡ None)
        (λ x. functor_found (left source.now tokens.now)
        ≡ Some (record { it = record { place = place_at (left source.now tokens.now); it = x.0 }; rest = left source.now x.1.now })) }
{
    let Some((id, after)) = module_id_at(source, tokens) else {
        return None
    };
    match after_word(source, Reserved::LeftParen, after) {
        Some(inner) => Some((id, inner)),
        None => None,
    }
}

/// The identifier of a structure.
pub fn named_str<'a, D: Drop>(
    alloc: Global,
    source: &Source,
    tokens: &'a [Token],
) -> Result<Got<'a, StrExp<D>>, Stop>
    ensures gives { (of : D → Dec) (self : StrReaders) → Gives (λ x r. IsStr of source.now 1 (left source.now tokens.now) x.it x.depth x.rest.now r)
        result (str_atom self [] (str_id_if (first_as as_long_strid (left source.now tokens.now)))) }
{
    let found = long_strid_at(alloc, source, tokens)?;
    match found {
        Some((long, rest)) => Ok(Got {
            it: nodes::named_structure(LongIdAt {
                place: place_at(source, tokens),
                long,
            }),
            depth: 1,
            rest,
        }),
        None => Err(Stop::Bad(tokens.len())),
    }
}

/// A declaration of the core that isn't `local`, and what it does to the fixities in force.
pub fn core_dec<'a, R: CoreReader>(
    alloc: Global,
    source: &Source,
    fix: &mut Fixities,
    n: u32,
    tokens: &'a [Token],
) -> Result<Got<'a, Option<Item<R::Dec>>>, Stop>
    requires { n < 1000 }
    ensures gives { Gives (λ x r. IsStrDec R.dec_of fix.old fix.new source.now n (left source.now tokens.now) x.it x.depth x.rest.now r)
        result (read_core n fix.old (dec_start (left source.now tokens.now))) }
{
    let Got { it, depth, rest } = R::read_dec(alloc, source, fix, n, tokens)?;
    Ok(Got {
        it: as_item(it),
        depth,
        rest,
    })
}

/// A declaration of the core among others.
fn as_item<D: Drop>(dec: Option<D>) -> Option<Item<D>>
    ensures list { (of : D → Dec) → items_of of result ≡ as_items of dec }
    ensures core { is_core_item result ≡ true }
{
    match dec {
        Some(dec) => Some(Item::Core(dec)),
        None => None,
    }
}

/// A `local`: it is a declaration of the core where its parts hold nothing else.
pub fn local_item<R: CoreReader>(
    alloc: Global,
    place: Place,
    first: Decs<R::Dec>,
    second: Decs<R::Dec>,
) -> Result<Item<R::Dec>, NoMemory>
    ensures list { IfOk result (λ made. items_of R.dec_of (Some made) ≡ local_list R.dec_of place first second) }
    ensures core { IfOk result (λ made. is_core_item (Some made) ≡ (are_core first && are_core second)) }
{
    match first {
        Decs::Core(outer) => match second {
            Decs::Core(inner) => Ok(Item::Core(R::local(place, outer, inner))),
            Decs::Mixed(inner) => mixed_local(alloc, place, Decs::Core(outer), Decs::Mixed(inner)),
        },
        Decs::Mixed(outer) => mixed_local(alloc, place, Decs::Mixed(outer), second),
    }
}

/// A `local` that isn't a declaration of the core.
fn mixed_local<D: Drop>(
    alloc: Global,
    place: Place,
    first: Decs<D>,
    second: Decs<D>,
) -> Result<Item<D>, NoMemory>
    ensures list { IfOk result (λ made. (of : D → Dec) → items_of of (Some made) ≡ mixed_list of place first second) }
    ensures core { IfOk result (λ made. is_core_item (Some made) ≡ false) }
{
    let (second, outer) = with(second, mixed(alloc, first))?;
    let (outer, inner) = with(outer, mixed(alloc, second))?;
    Ok(Item::Other(nodes::local(place, outer, inner)))
}
