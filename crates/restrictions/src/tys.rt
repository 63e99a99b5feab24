// What is broken in types.
ghost use Rattle.std.specs.Prelude.{flat_map, map, IfOk};
ghost use Rattle.restrictions.specs.Found.{Adds};
ghost use Rattle.restrictions.specs.Nodes.{field_ty_places, some_places, ty_part_places, ty_places, unless_once};

use crate::keys::ty_keys;
use crate::once::are_once;
use crate::walk::find_unless;
use mlc_base::memory::NoMemory;
use mlc_base::place::Place;
use sml_tree::tree::{Ty, TyField, TyPart};
use std::alloc::Global;

/// A label that is there twice.
pub fn check_fields(
    alloc: Global,
    place: Place,
    fields: &[TyField],
    found: &mut Vec<Place>,
) -> Result<(), NoMemory>
    ensures { IfOk result (λ _. Adds found.old.items found.new.items (unless_once (map (λ f. f.label) fields.now) place)) }
{
    let keys = ty_keys(alloc, fields)?;
    let once = are_once(alloc, &keys)?;
    find_unless(once, place, found)
}

/// What is broken in a type.
#[cycle(types)]
pub fn of_ty(alloc: Global, ty: &Ty, found: &mut Vec<Place>) -> Result<(), NoMemory>
    ensures { IfOk result (λ _. Adds found.old.items found.new.items (ty_places ty.now)) }
{
    match ty {
        Ty::Var(_, _) => Ok(()),
        Ty::Record(place, fields) => {
            of_fields(alloc, fields, found)?;
            check_fields(alloc, *place, fields, found)
        }
        Ty::Con(_, arguments, _, _) => of_tys(alloc, arguments, found),
        Ty::Product(_, parts) => of_tys(alloc, parts, found),
        Ty::Arrow(_, first, parts) => {
            of_ty(alloc, first, found)?;
            of_parts(alloc, parts, found)
        }
    }
}

#[cycle(types)]
fn of_fields(alloc: Global, fields: &[TyField], found: &mut Vec<Place>) -> Result<(), NoMemory>
    ensures { IfOk result (λ _. Adds found.old.items found.new.items (flat_map field_ty_places fields.now)) }
{
    for i in 0..fields.len() {
        let field = &fields[i];
        of_ty(alloc, &field.ty, found)?;
    }
    Ok(())
}

#[cycle(types)]
fn of_tys(alloc: Global, tys: &[Ty], found: &mut Vec<Place>) -> Result<(), NoMemory>
    ensures { IfOk result (λ _. Adds found.old.items found.new.items (flat_map ty_places tys.now)) }
{
    for i in 0..tys.len() {
        of_ty(alloc, &tys[i], found)?;
    }
    Ok(())
}

#[cycle(types)]
fn of_parts(alloc: Global, parts: &[TyPart], found: &mut Vec<Place>) -> Result<(), NoMemory>
    ensures { IfOk result (λ _. Adds found.old.items found.new.items (flat_map ty_part_places parts.now)) }
{
    for i in 0..parts.len() {
        let part = &parts[i];
        of_ty(alloc, &part.ty, found)?;
    }
    Ok(())
}

/// What is broken in a type that may be written.
pub fn of_some(alloc: Global, ty: &Option<Ty>, found: &mut Vec<Place>) -> Result<(), NoMemory>
    ensures { IfOk result (λ _. Adds found.old.items found.new.items (some_places ty.now)) }
{
    match ty {
        Some(ty) => of_ty(alloc, ty, found),
        None => Ok(()),
    }
}
