// What is broken in patterns.
ghost use Rattle.std.specs.Prelude.{flat_map, map, IfOk};
ghost use Rattle.restrictions.specs.Found.{Adds};
ghost use Rattle.restrictions.specs.Nodes.{field_pat_places, pat_part_places, pat_places, unless_once};

use crate::keys::pat_keys;
use crate::once::are_once;
use crate::tys::{of_some, of_ty};
use crate::walk::find_unless;
use mlc_base::memory::NoMemory;
use mlc_base::place::Place;
use sml_tree::tree::{Pat, PatField, PatPart};
use std::alloc::Global;

/// A label that is there twice.
fn check_fields(
    alloc: Global,
    place: Place,
    fields: &[PatField],
    found: &mut Vec<Place>,
) -> Result<(), NoMemory>
    ensures { IfOk result (λ _. Adds found.old.items found.new.items (unless_once (map (λ f. f.label) fields.now) place)) }
{
    let keys = pat_keys(alloc, fields)?;
    let once = are_once(alloc, &keys)?;
    find_unless(once, place, found)
}

/// What is broken in a pattern.
#[cycle(pats)]
pub fn of_pat(alloc: Global, pat: &Pat, found: &mut Vec<Place>) -> Result<(), NoMemory>
    ensures { IfOk result (λ _. Adds found.old.items found.new.items (pat_places pat.now)) }
{
    match pat {
        Pat::Wild(_) => Ok(()),
        Pat::Constant(_, _) => Ok(()),
        Pat::Vid(_, _) => Ok(()),
        Pat::BuiltIn(_, _) => Ok(()),
        Pat::Record(place, fields, _) => {
            of_fields(alloc, fields, found)?;
            check_fields(alloc, *place, fields, found)
        }
        Pat::Tuple(_, parts) => of_pats(alloc, parts, found),
        Pat::List(_, elements) => of_pats(alloc, elements, found),
        Pat::Con(_, _, _, argument) => of_pat(alloc, argument, found),
        Pat::BuiltCon(_, _, argument) => of_pat(alloc, argument, found),
        Pat::Chain(_, _, first, parts) => {
            of_pat(alloc, first, found)?;
            of_parts(alloc, parts, found)
        }
        Pat::Typed(_, inner, ty) => {
            of_pat(alloc, inner, found)?;
            of_ty(alloc, ty, found)
        }
        Pat::As(_, _, ty, inner) => {
            of_some(alloc, ty, found)?;
            of_pat(alloc, inner, found)
        }
    }
}

#[cycle(pats)]
fn of_fields(alloc: Global, fields: &[PatField], found: &mut Vec<Place>) -> Result<(), NoMemory>
    ensures { IfOk result (λ _. Adds found.old.items found.new.items (flat_map field_pat_places fields.now)) }
{
    for i in 0..fields.len() {
        let field = &fields[i];
        of_pat(alloc, &field.pat, found)?;
    }
    Ok(())
}

#[cycle(pats)]
fn of_pats(alloc: Global, pats: &[Pat], found: &mut Vec<Place>) -> Result<(), NoMemory>
    ensures { IfOk result (λ _. Adds found.old.items found.new.items (flat_map pat_places pats.now)) }
{
    for i in 0..pats.len() {
        of_pat(alloc, &pats[i], found)?;
    }
    Ok(())
}

#[cycle(pats)]
fn of_parts(alloc: Global, parts: &[PatPart], found: &mut Vec<Place>) -> Result<(), NoMemory>
    ensures { IfOk result (λ _. Adds found.old.items found.new.items (flat_map pat_part_places parts.now)) }
{
    for i in 0..parts.len() {
        let part = &parts[i];
        of_pat(alloc, &part.pat, found)?;
    }
    Ok(())
}

/// What is broken in patterns beside one another.
pub fn of_all(alloc: Global, pats: &[Pat], found: &mut Vec<Place>) -> Result<(), NoMemory>
    ensures { IfOk result (λ _. Adds found.old.items found.new.items (flat_map pat_places pats.now)) }
{
    of_pats(alloc, pats, found)
}
