// What stands at a source's top, for a project: its declarations of the core, up to the first other one.

ghost use Rattle.std.specs.Prelude.{◌≡◌, map, IfOk};
ghost use Rattle.sml_tree.specs.BareTree as bare;
ghost use Rattle.sml_tree.specs.TreeOf.{dec_of, decs_of};
ghost use Rattle.module_code.specs.TreeOf.{top_of};
ghost use Rattle.mlb_reader.specs.Standing.{IsStanding};
ghost use Rattle.mlb_reader.specs.PartOf.{part_of};
ghost use Rattle.mlb_reader.specs.Tops.{core_before, first_other, part_from, part_of_tops};

use crate::project::Part;
use mlc_base::memory::NoMemory;
use mlc_base::place::Place;
use module_code::sources::Top;
use module_code::structures::StrDec;
use sml_tree::tree::Dec;
use std::alloc::Global;

/// A declaration of the core, or the place of another one.
#[derive(Drop)]
enum Standing<D> {
    Core(D),
    Other(Place),
}

/// Declarations of the core, and the place of the one after them, if there is any.
#[derive(Drop)]
struct Front<D> {
    decs: Vec<D>,
    other: Option<Place>,
}

/// What stands at a top.
fn standing_at<D: Drop>(top: Top<D>) -> Standing<D>
    ensures { (of : D → bare.Dec) → IsStanding of result (top_of of top) }
{
    match top {
        Top::Dec(StrDec::Core(dec)) => Standing::Core(dec),
        Top::Dec(StrDec::Structure(place, _)) => Standing::Other(place),
        Top::Dec(StrDec::Local(place, _, _)) => Standing::Other(place),
        Top::Signature(place, _) => Standing::Other(place),
        Top::Functor(place, _) => Standing::Other(place),
    }
}

/// The declarations of the core before the first other one.
fn front_of<D: Drop>(alloc: Global, tops: Vec<Top<D>>) -> Result<Front<D>, NoMemory>
    ensures decs { IfOk result (λ front. (of : D → bare.Dec) → core_before (map (top_of of) tops.items) ≡ decs_of (map of front.decs.items)) }
    ensures other { IfOk result (λ front. (of : D → bare.Dec) → first_other (map (top_of of) tops.items) ≡ front.other) }
{
    let mut decs = Vec::new(alloc);
    for top in tops {
        match standing_at(top) {
            Standing::Core(dec) => decs.push(dec)?,
            Standing::Other(place) => {
                let other = Some(place);
                return Ok(Front { decs, other });
            }
        }
    }
    Ok(Front { decs, other: None })
}

/// The part of a project that these declarations are.
fn part_from(front: Front<Dec>) -> Part
    ensures { part_of result ≡ part_from (decs_of (map dec_of front.decs.items)) front.other }
{
    match front.other {
        None => Part::Source(front.decs),
        Some(place) => Part::Cut(front.decs, place),
    }
}

/// The part of a project that a source is.
pub fn part_of_tops(alloc: Global, tops: Vec<Top<Dec>>) -> Result<Part, NoMemory>
    ensures { IfOk result (λ part. part_of part ≡ part_of_tops (map (top_of dec_of) tops.items)) }
{
    let front = front_of(alloc, tops)?;
    Ok(part_from(front))
}
