// Types of constructors, with the abbreviations of a `withtype` written out. They aren't built: a parameter's argument counts where the parameter occurs in
// what the abbreviation stands for.
ghost use Rattle.std.specs.Prelude.{◌≡◌, ◌++◌, List, [], flat_map, if◌then◌else◌, is_some, length, map, nat_eq, IfOk};
ghost use Rattle.std.specs.Map.{lookup};
ghost use Rattle.sml_tree.specs.BareTree.{TypeBind as BareTypeBind};
ghost use Rattle.sml_tree.specs.Derived.{expand_some};
ghost use Rattle.sml_tree.specs.TreeOf.{long_id_of, some_ty_of, type_bind_of};
ghost use Rattle.core_rules.specs.Restrictions.{distinct};
ghost use Rattle.core_rules.specs.Words.{same_label};
ghost use Rattle.restrictions.specs.Nodes.{type_bind_places};
ghost use Rattle.restrictions.specs.Written.{
  AreRead,
  Notes,
  chosen,
  chosen_all,
  index_from,
  mark_places,
  mark_tyvars,
  number_in,
  some_marks,
  unless_mark,
  used_at,
  used_of,
  written,
  written_con,
  written_field,
  written_part,
};

use crate::binds::may_construct;
use crate::keys::{ty_keys, tyvar_keys};
use crate::occurring::tyvars_of_ty;
use crate::once::{are_once, note_all};
use mlc_base::memory::NoMemory;
use mlc_base::place::Place;
use scoped_map::scoped::Scoped;
use sml_tree::ident::{LongId, Tyvar};
use sml_tree::tree::{ConBind, Ty, TyField, TyPart, TypeBind};
use std::alloc::Global;

/// What is found in a type: a place that is broken, or a type variable.
#[derive(Clone, Copy)]
pub enum Mark {
    Broken(Place),
    Occurs(Tyvar),
}

/// Abbreviations by their names, with the parameters of each that occur in what it stands for.
#[derive(Drop)]
pub struct Abbreviations {
    pub index: Scoped<usize>,
    pub used: Vec<Vec<bool>>,
}

fn mark_unless(holds: bool, place: Place, marks: &mut Vec<Mark>) -> Result<(), NoMemory>
    ensures { IfOk result (λ _. Notes marks.old.items marks.new.items (unless_mark holds place)) }
{
    if holds {
        return Ok(());
    }
    marks.push(Mark::Broken(place))?;
    Ok(())
}

/// Which parameters of an abbreviation occur in what it stands for.
fn used_in(alloc: Global, bind: &TypeBind) -> Result<Vec<bool>, NoMemory>
    ensures { IfOk result (λ used. used.items ≡ used_of (type_bind_of bind.now)) }
{
    let mut occurring = Vec::new(alloc);
    tyvars_of_ty(&bind.ty, &mut occurring)?;
    let keys = tyvar_keys(alloc, &occurring)?;
    let mut noted = Scoped::new(alloc);
    note_all(&keys, &mut noted)?;
    are_used(alloc, &bind.tyvars, &noted)
}

fn are_used(alloc: Global, tyvars: &[Tyvar], noted: &Scoped<usize>) -> Result<Vec<bool>, NoMemory>
    ensures { IfOk result (λ used. used.items ≡ map (λ a. is_some (lookup (nat_eq a.name) noted.now)) tyvars.now) }
{
    let mut used = Vec::new(alloc);
    for i in 0..tyvars.len() {
        let tyvar = tyvars[i];
        used.push(noted.find(tyvar.name.number() as usize).is_some())?;
    }
    Ok(used)
}

fn push_used(alloc: Global, binds: &[TypeBind], used: &mut Vec<Vec<bool>>) -> Result<(), NoMemory>
    ensures { IfOk result (λ _. map (λ u. u.items) used.new.items ≡ map (λ u. u.items) used.old.items ++ map (λ b. used_of (type_bind_of b)) binds.now) }
{
    for i in 0..binds.len() {
        let one = used_in(alloc, &binds[i])?;
        used.push(one)?;
    }
    Ok(())
}

/// Names of abbreviations, the last first: the first one of a name is found.
fn index_all(binds: &[TypeBind], index: &mut Scoped<usize>) -> Result<(), NoMemory>
    ensures { IfOk result (λ _. index.new ≡ index_from 0 (map type_bind_of binds.now) ++ index.old) }
{
    let mut i = binds.len();
    while i > 0 {
        i -= 1;
        let bind = &binds[i];
        index.bind(bind.tycon.number() as usize, i)?;
    }
    Ok(())
}

/// No abbreviations.
pub fn no_abbreviations(alloc: Global) -> Abbreviations
    ensures { AreRead [] result }
{
    Abbreviations {
        index: Scoped::new(alloc),
        used: Vec::new(alloc),
    }
}

/// Those of bindings.
pub fn read_abbreviations(alloc: Global, binds: &[TypeBind]) -> Result<Abbreviations, NoMemory>
    ensures { IfOk result (λ r. flat_map type_bind_places binds.now ≡ [] → AreRead (map type_bind_of binds.now) r) }
{
    let mut index = Scoped::new(alloc);
    index_all(binds, &mut index)?;
    let mut used = Vec::new(alloc);
    push_used(alloc, binds, &mut used)?;
    Ok(Abbreviations { index, used })
}

/// The number of a type constructor, if it is an abbreviation.
fn number_of(within: &Abbreviations, tycon: &LongId) -> Option<usize>
    ensures { result ≡ number_in within.now (long_id_of tycon.now) }
{
    if tycon.qualifiers.len() == 0 {
        within.index.find(tycon.id.number() as usize)
    } else {
        None
    }
}

/// A label that is there twice.
fn check_fields(
    alloc: Global,
    place: Place,
    fields: &[TyField],
    marks: &mut Vec<Mark>,
) -> Result<(), NoMemory>
    ensures { IfOk result (λ _. Notes marks.old.items marks.new.items (unless_mark (distinct same_label (map (λ f. f.label) fields.now)) place)) }
{
    let keys = ty_keys(alloc, fields)?;
    let once = are_once(alloc, &keys)?;
    mark_unless(once, place, marks)
}

/// The marks of a type, with abbreviations written out.
#[cycle(written)]
pub fn of_written(
    alloc: Global,
    ty: &Ty,
    within: &Abbreviations,
    marks: &mut Vec<Mark>,
) -> Result<(), NoMemory>
    ensures { IfOk result (λ _. (bs : List BareTypeBind) → AreRead bs within.now → Notes marks.old.items marks.new.items (written bs ty.now)) }
{
    match ty {
        Ty::Var(_, tyvar) => {
            marks.push(Mark::Occurs(*tyvar))?;
            Ok(())
        }
        Ty::Record(place, fields) => {
            of_fields(alloc, fields, within, marks)?;
            check_fields(alloc, *place, fields, marks)
        }
        Ty::Con(_, arguments, _, tycon) => match number_of(within, tycon) {
            None => of_tys(alloc, arguments, within, marks),
            Some(number) => of_abbreviated(alloc, arguments, number, within, marks),
        },
        Ty::Product(_, parts) => of_tys(alloc, parts, within, marks),
        Ty::Arrow(_, first, parts) => {
            of_written(alloc, first, within, marks)?;
            of_parts(alloc, parts, within, marks)
        }
    }
}

#[cycle(written)]
fn of_fields(
    alloc: Global,
    fields: &[TyField],
    within: &Abbreviations,
    marks: &mut Vec<Mark>,
) -> Result<(), NoMemory>
    ensures { IfOk result (λ _. (bs : List BareTypeBind) → AreRead bs within.now
        → Notes marks.old.items marks.new.items (flat_map (written_field bs) fields.now)) }
{
    for i in 0..fields.len() {
        let field = &fields[i];
        of_written(alloc, &field.ty, within, marks)?;
    }
    Ok(())
}

#[cycle(written)]
fn of_tys(
    alloc: Global,
    tys: &[Ty],
    within: &Abbreviations,
    marks: &mut Vec<Mark>,
) -> Result<(), NoMemory>
    ensures { IfOk result (λ _. (bs : List BareTypeBind) → AreRead bs within.now → Notes marks.old.items marks.new.items (flat_map (written bs) tys.now)) }
{
    for i in 0..tys.len() {
        of_written(alloc, &tys[i], within, marks)?;
    }
    Ok(())
}

#[cycle(written)]
fn of_parts(
    alloc: Global,
    parts: &[TyPart],
    within: &Abbreviations,
    marks: &mut Vec<Mark>,
) -> Result<(), NoMemory>
    ensures { IfOk result (λ _. (bs : List BareTypeBind) → AreRead bs within.now
        → Notes marks.old.items marks.new.items (flat_map (written_part bs) parts.now)) }
{
    for i in 0..parts.len() {
        let part = &parts[i];
        of_written(alloc, &part.ty, within, marks)?;
    }
    Ok(())
}

/// The marks of a type that may be wanted.
#[cycle(written)]
fn of_written_if(
    alloc: Global,
    ty: &Ty,
    wanted: bool,
    within: &Abbreviations,
    marks: &mut Vec<Mark>,
) -> Result<(), NoMemory>
    ensures { IfOk result (λ _. (bs : List BareTypeBind) → AreRead bs within.now
        → Notes marks.old.items marks.new.items (if wanted then written bs ty.now else [])) }
{
    if wanted {
        of_written(alloc, ty, within, marks)
    } else {
        Ok(())
    }
}

/// The marks of arguments whose parameters occur in what an abbreviation stands for.
#[cycle(written)]
fn of_chosen(
    alloc: Global,
    arguments: &[Ty],
    used: &[bool],
    within: &Abbreviations,
    marks: &mut Vec<Mark>,
) -> Result<(), NoMemory>
    requires { length used.now ≡ length arguments.now }
    ensures { IfOk result (λ _. (bs : List BareTypeBind) → AreRead bs within.now
        → Notes marks.old.items marks.new.items (chosen used.now (map (written bs) arguments.now))) }
{
    for i in 0..arguments.len() {
        of_written_if(alloc, &arguments[i], used[i], within, marks)?;
    }
    Ok(())
}

/// The marks of an abbreviation's arguments. With a wrong number of arguments it stands for no type.
#[cycle(written)]
fn of_abbreviated(
    alloc: Global,
    arguments: &[Ty],
    number: usize,
    within: &Abbreviations,
    marks: &mut Vec<Mark>,
) -> Result<(), NoMemory>
    ensures { IfOk result (λ _. (bs : List BareTypeBind) → AreRead bs within.now
        → Notes marks.old.items marks.new.items (chosen_all (used_at within.now number) (map (written bs) arguments.now))) }
{
    if number >= within.used.len() {
        return Ok(());
    }
    let used = &within.used[number];
    if used.len() != arguments.len() {
        return Ok(());
    }
    of_chosen(alloc, arguments, used, within, marks)
}

fn of_some_written(
    alloc: Global,
    ty: &Option<Ty>,
    within: &Abbreviations,
    marks: &mut Vec<Mark>,
) -> Result<(), NoMemory>
    ensures { IfOk result (λ _. (bs : List BareTypeBind) → AreRead bs within.now
        → Notes marks.old.items marks.new.items (some_marks (expand_some bs (some_ty_of ty.now)))) }
{
    match ty {
        Some(ty) => of_written(alloc, ty, within, marks),
        None => Ok(()),
    }
}

/// The marks of a constructor.
fn of_con(
    alloc: Global,
    con: &ConBind,
    within: &Abbreviations,
    marks: &mut Vec<Mark>,
) -> Result<(), NoMemory>
    ensures { IfOk result (λ _. (bs : List BareTypeBind) → AreRead bs within.now → Notes marks.old.items marks.new.items (written_con bs con.now)) }
{
    of_some_written(alloc, &con.of_ty, within, marks)?;
    mark_unless(may_construct(con.vid), con.place, marks)
}

/// The marks of constructors.
pub fn of_cons(
    alloc: Global,
    cons: &[ConBind],
    within: &Abbreviations,
    marks: &mut Vec<Mark>,
) -> Result<(), NoMemory>
    ensures { IfOk result (λ _. (bs : List BareTypeBind) → AreRead bs within.now
        → Notes marks.old.items marks.new.items (flat_map (written_con bs) cons.now)) }
{
    for i in 0..cons.len() {
        of_con(alloc, &cons[i], within, marks)?;
    }
    Ok(())
}

fn part_mark(mark: Mark, found: &mut Vec<Place>, occurring: &mut Vec<Tyvar>) -> Result<(), NoMemory>
    ensures found { IfOk result (λ _. found.new.items ≡ found.old.items ++ mark_places mark) }
    ensures occurring { IfOk result (λ _. occurring.new.items ≡ occurring.old.items ++ mark_tyvars mark) }
{
    match mark {
        Mark::Broken(place) => {
            found.push(place)?;
            Ok(())
        }
        Mark::Occurs(tyvar) => {
            occurring.push(tyvar)?;
            Ok(())
        }
    }
}

/// Parts marks: the places, and the type variables.
pub fn part_marks(
    marks: &[Mark],
    found: &mut Vec<Place>,
    occurring: &mut Vec<Tyvar>,
) -> Result<(), NoMemory>
    ensures found { IfOk result (λ _. found.new.items ≡ found.old.items ++ flat_map mark_places marks.now) }
    ensures occurring { IfOk result (λ _. occurring.new.items ≡ occurring.old.items ++ flat_map mark_tyvars marks.now) }
{
    for i in 0..marks.len() {
        let mark = marks[i];
        part_mark(mark, found, occurring)?;
    }
    Ok(())
}
