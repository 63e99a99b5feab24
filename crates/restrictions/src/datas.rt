// What is broken in declarations of datatypes.
ghost use Rattle.std.specs.Prelude.{◌≡◌, ◌++◌, List, [], flat_map, map, nat_eq, IfOk};
ghost use Rattle.sml_tree.specs.BareTree.{TypeBind as BareTypeBind};
ghost use Rattle.sml_tree.specs.TreeOf.{type_bind_of};
ghost use Rattle.core_rules.specs.Restrictions.{distinct, unless};
ghost use Rattle.restrictions.specs.Found.{Adds};
ghost use Rattle.restrictions.specs.Keys.{con_key};
ghost use Rattle.restrictions.specs.Nodes.{datatype_places, type_bind_places, withtype_places};
ghost use Rattle.restrictions.specs.Written.{AreRead, HasCons, data_places, datas_places, right_places};

use crate::binds::{are_all_among, are_tyvars_once, of_types};
use crate::keys::{push_cons, push_data_names, push_type_names};
use crate::once::are_once;
use crate::walk::find_unless;
use crate::written::{Abbreviations, no_abbreviations, of_cons, part_marks, read_abbreviations};
use mlc_base::memory::NoMemory;
use mlc_base::place::Place;
use sml_tree::ident::Tyvar;
use sml_tree::tree::{ConBind, DataBind, TypeBind};
use std::alloc::Global;

/// What is broken in constructors, and the type variables that occur in them.
fn of_constructors(
    alloc: Global,
    cons: &[ConBind],
    within: &Abbreviations,
    found: &mut Vec<Place>,
    occurring: &mut Vec<Tyvar>,
) -> Result<(), NoMemory>
    ensures { IfOk result (λ _. (bs : List BareTypeBind) → AreRead bs within.now
        → HasCons bs cons.now found.old.items found.new.items occurring.old.items occurring.new.items) }
{
    let mut marks = Vec::new(alloc);
    of_cons(alloc, cons, within, &mut marks)?;
    part_marks(&marks, found, occurring)
}

/// A right side with a type variable that is no parameter.
fn check_right_side(among: bool, cons: &[ConBind], found: &mut Vec<Place>) -> Result<(), NoMemory>
    ensures { IfOk result (λ _. Adds found.old.items found.new.items (right_places among cons.now)) }
{
    if cons.len() == 0 {
        return Ok(());
    }
    let first = &cons[0];
    find_unless(among, first.place, found)
}

fn of_data(
    alloc: Global,
    bind: &DataBind,
    within: &Abbreviations,
    found: &mut Vec<Place>,
) -> Result<(), NoMemory>
    ensures { IfOk result (λ _. (bs : List BareTypeBind) → AreRead bs within.now → Adds found.old.items found.new.items (data_places bs bind.now)) }
{
    let mut occurring = Vec::new(alloc);
    of_constructors(alloc, &bind.cons, within, found, &mut occurring)?;
    let once = are_tyvars_once(alloc, &bind.tyvars)?;
    find_unless(once, bind.place, found)?;
    let among = are_all_among(alloc, &bind.tyvars, &occurring)?;
    check_right_side(among, &bind.cons, found)
}

fn of_datas(
    alloc: Global,
    datas: &[DataBind],
    within: &Abbreviations,
    found: &mut Vec<Place>,
) -> Result<(), NoMemory>
    ensures { IfOk result (λ _. (bs : List BareTypeBind) → AreRead bs within.now
        → Adds found.old.items found.new.items (flat_map (data_places bs) datas.now)) }
{
    for i in 0..datas.len() {
        of_data(alloc, &datas[i], within, found)?;
    }
    Ok(())
}

fn push_all_cons(datas: &[DataBind], keys: &mut Vec<usize>) -> Result<(), NoMemory>
    ensures { IfOk result (λ _. keys.new.items ≡ keys.old.items ++ flat_map (λ d. map con_key d.cons.items) datas.now) }
{
    for i in 0..datas.len() {
        let data = &datas[i];
        push_cons(&data.cons, keys)?;
    }
    Ok(())
}

/// Whether no constructor is there twice.
fn are_cons_once(alloc: Global, datas: &[DataBind]) -> Result<bool, NoMemory>
    ensures { IfOk result (λ once. once ≡ distinct nat_eq (flat_map (λ d. map con_key d.cons.items) datas.now)) }
{
    let mut keys = Vec::new(alloc);
    push_all_cons(datas, &mut keys)?;
    are_once(alloc, &keys)
}

/// Whether no type constructor is there twice, nor among abbreviations.
fn are_names_once(alloc: Global, datas: &[DataBind], types: &[TypeBind]) -> Result<bool, NoMemory>
    ensures { IfOk result (λ once. once ≡ distinct nat_eq (map (λ b. b.tycon) datas.now ++ map (λ b. b.tycon) types.now)) }
{
    let mut keys = Vec::new(alloc);
    push_data_names(datas, &mut keys)?;
    push_type_names(types, &mut keys)?;
    are_once(alloc, &keys)
}

/// What is broken in datatypes, and in their declaration.
fn of_declared(
    alloc: Global,
    place: Place,
    datas: &[DataBind],
    within: &Abbreviations,
    found: &mut Vec<Place>,
) -> Result<(), NoMemory>
    ensures { IfOk result (λ _. (bs : List BareTypeBind) → AreRead bs within.now → Adds found.old.items found.new.items (datas_places bs place datas.now)) }
{
    of_datas(alloc, datas, within, found)?;
    let names = are_names_once(alloc, datas, &[])?;
    let cons = are_cons_once(alloc, datas)?;
    find_unless(names && cons, place, found)
}

/// What is broken in a declaration of datatypes.
pub fn of_datatype(
    alloc: Global,
    place: Place,
    binds: &[DataBind],
    found: &mut Vec<Place>,
) -> Result<(), NoMemory>
    ensures { IfOk result (λ _. Adds found.old.items found.new.items (datatype_places place binds.now)) }
{
    let within = no_abbreviations(alloc);
    of_declared(alloc, place, binds, &within, found)
}

/// What is broken in datatypes with abbreviations in which nothing is.
fn of_both(
    alloc: Global,
    place: Place,
    binds: &[DataBind],
    types: &[TypeBind],
    found: &mut Vec<Place>,
) -> Result<(), NoMemory>
    ensures { IfOk result (λ _. flat_map type_bind_places types.now ≡ [] → Adds found.old.items found.new.items
        (datas_places (map type_bind_of types.now) place binds.now
        ++ unless (distinct nat_eq (map (λ b. b.tycon) binds.now ++ map (λ b. b.tycon) types.now)) place)) }
{
    let within = read_abbreviations(alloc, types)?;
    of_declared(alloc, place, binds, &within, found)?;
    let once = are_names_once(alloc, binds, types)?;
    find_unless(once, place, found)
}

/// What is broken in a declaration of datatypes with abbreviations. Where something is in the abbreviations, the datatypes aren't asked.
pub fn of_withtype(
    alloc: Global,
    place: Place,
    binds: &[DataBind],
    types: &[TypeBind],
    found: &mut Vec<Place>,
) -> Result<(), NoMemory>
    ensures { IfOk result (λ _. Adds found.old.items found.new.items (withtype_places place binds.now types.now)) }
{
    let before = found.len();
    of_types(alloc, place, types, found)?;
    if found.len() > before {
        return Ok(());
    }
    of_both(alloc, place, binds, types, found)
}
