// What is broken in bindings of abbreviations and exceptions.
ghost use Rattle.std.specs.Prelude.{◌≡◌, flat_map, map, nat_eq, IfOk};
ghost use Rattle.core_rules.specs.Restrictions.{are_among, distinct, may_construct, no_repetition, ty_place};
ghost use Rattle.core_rules.specs.Scoping.{tyvars_in};
ghost use Rattle.sml_tree.specs.Phrases.{phrases, ty as ty_phrase};
ghost use Rattle.sml_tree.specs.TreeOf.{ty_of};
ghost use Rattle.restrictions.specs.Found.{Adds};
ghost use Rattle.restrictions.specs.Keys.{exn_key};
ghost use Rattle.restrictions.specs.Nodes.{ex_bind_places, exception_places, type_bind_places, type_places};

use crate::keys::{exn_keys, push_type_names, tyvar_keys};
use crate::occurring::tyvars_of_ty;
use crate::once::{are_noted, are_once, note_all};
use crate::tys::{of_some, of_ty};
use crate::walk::find_unless;
use mlc_base::memory::NoMemory;
use mlc_base::place::Place;
use mlc_names::words;
use scoped_map::scoped::Scoped;
use sml_tree::ident::{Tyvar, Vid};
use sml_tree::tree::{ExBind, Ty, TypeBind};
use std::alloc::Global;

/// Where a type begins.
fn begin_of(ty: &Ty) -> Place
    ensures { result ≡ ty_place (ty_of ty.now) }
{
    match ty {
        Ty::Var(place, _) => *place,
        Ty::Record(place, _) => *place,
        Ty::Con(place, _, _, _) => *place,
        Ty::Product(place, _) => *place,
        Ty::Arrow(place, first, parts) => {
            if parts.len() == 0 {
                begin_of(first)
            } else {
                *place
            }
        }
    }
}

/// Whether type variables are all among parameters.
pub fn are_all_among(
    alloc: Global,
    parameters: &[Tyvar],
    tyvars: &[Tyvar],
) -> Result<bool, NoMemory>
    ensures { IfOk result (λ among. among ≡ are_among parameters.now tyvars.now) }
{
    let known = tyvar_keys(alloc, parameters)?;
    let keys = tyvar_keys(alloc, tyvars)?;
    let mut noted = Scoped::new(alloc);
    note_all(&known, &mut noted)?;
    Ok(are_noted(&noted, &keys))
}

/// Whether the type variables of a type are all among parameters.
fn has_only(alloc: Global, parameters: &[Tyvar], ty: &Ty) -> Result<bool, NoMemory>
    ensures { IfOk result (λ among. among ≡ are_among parameters.now (tyvars_in (phrases (ty_phrase (ty_of ty.now))))) }
{
    let mut occurring = Vec::new(alloc);
    tyvars_of_ty(ty, &mut occurring)?;
    are_all_among(alloc, parameters, &occurring)
}

/// Whether no type variable of a sequence is there twice.
pub fn are_tyvars_once(alloc: Global, tyvars: &[Tyvar]) -> Result<bool, NoMemory>
    ensures { IfOk result (λ once. once ≡ no_repetition tyvars.now) }
{
    let keys = tyvar_keys(alloc, tyvars)?;
    are_once(alloc, &keys)
}

fn of_type_bind(alloc: Global, bind: &TypeBind, found: &mut Vec<Place>) -> Result<(), NoMemory>
    ensures { IfOk result (λ _. Adds found.old.items found.new.items (type_bind_places bind.now)) }
{
    of_ty(alloc, &bind.ty, found)?;
    let once = are_tyvars_once(alloc, &bind.tyvars)?;
    find_unless(once, bind.place, found)?;
    let among = has_only(alloc, &bind.tyvars, &bind.ty)?;
    find_unless(among, begin_of(&bind.ty), found)
}

fn of_type_binds(alloc: Global, binds: &[TypeBind], found: &mut Vec<Place>) -> Result<(), NoMemory>
    ensures { IfOk result (λ _. Adds found.old.items found.new.items (flat_map type_bind_places binds.now)) }
{
    for i in 0..binds.len() {
        of_type_bind(alloc, &binds[i], found)?;
    }
    Ok(())
}

/// Whether no type constructor is there twice.
fn are_types_once(alloc: Global, binds: &[TypeBind]) -> Result<bool, NoMemory>
    ensures { IfOk result (λ once. once ≡ distinct nat_eq (map (λ b. b.tycon) binds.now)) }
{
    let mut keys = Vec::new(alloc);
    push_type_names(binds, &mut keys)?;
    are_once(alloc, &keys)
}

/// What is broken in a declaration of abbreviations.
pub fn of_types(
    alloc: Global,
    place: Place,
    binds: &[TypeBind],
    found: &mut Vec<Place>,
) -> Result<(), NoMemory>
    ensures { IfOk result (λ _. Adds found.old.items found.new.items (type_places place binds.now)) }
{
    of_type_binds(alloc, binds, found)?;
    let once = are_types_once(alloc, binds)?;
    find_unless(once, place, found)
}

/// Whether an identifier may be a constructor's or an exception's.
pub fn may_construct(vid: Vid) -> bool
    ensures { result ≡ may_construct vid }
{
    match vid {
        Vid::Named(name) => {
            let number = name.number();
            number != words::TRUE
                && number != words::FALSE
                && number != words::NIL
                && number != words::CONS
                && number != words::REF
                && number != words::IT
        }
        Vid::Equals => false,
        Vid::Fresh(_) => true,
    }
}

fn of_exception(alloc: Global, bind: &ExBind, found: &mut Vec<Place>) -> Result<(), NoMemory>
    ensures { IfOk result (λ _. Adds found.old.items found.new.items (ex_bind_places bind.now)) }
{
    match bind {
        ExBind::New(place, vid, ty) => {
            of_some(alloc, ty, found)?;
            find_unless(may_construct(*vid), *place, found)
        }
        ExBind::Same(place, vid, _, _) => find_unless(may_construct(*vid), *place, found),
    }
}

fn of_exception_binds(
    alloc: Global,
    binds: &[ExBind],
    found: &mut Vec<Place>,
) -> Result<(), NoMemory>
    ensures { IfOk result (λ _. Adds found.old.items found.new.items (flat_map ex_bind_places binds.now)) }
{
    for i in 0..binds.len() {
        of_exception(alloc, &binds[i], found)?;
    }
    Ok(())
}

/// Whether no exception is there twice.
fn are_exceptions_once(alloc: Global, binds: &[ExBind]) -> Result<bool, NoMemory>
    ensures { IfOk result (λ once. once ≡ distinct nat_eq (map exn_key binds.now)) }
{
    let keys = exn_keys(alloc, binds)?;
    are_once(alloc, &keys)
}

/// What is broken in a declaration of exceptions.
pub fn of_exceptions(
    alloc: Global,
    place: Place,
    binds: &[ExBind],
    found: &mut Vec<Place>,
) -> Result<(), NoMemory>
    ensures { IfOk result (λ _. Adds found.old.items found.new.items (exception_places place binds.now)) }
{
    of_exception_binds(alloc, binds, found)?;
    let once = are_exceptions_once(alloc, binds)?;
    find_unless(once, place, found)
}
