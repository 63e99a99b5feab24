// The type variables of types, as often as they occur.
ghost use Rattle.std.specs.Prelude.{◌≡◌, ◌++◌, flat_map, IfOk};
ghost use Rattle.scoped_tyvars.specs.Unguarded.{field_ty_tyvars, some_tyvars, ty_tyvars, ty_part_tyvars};

use mlc_base::memory::NoMemory;
use sml_tree::ident::Tyvar;
use sml_tree::tree::{Ty, TyField, TyPart};

/// Those of a type.
#[cycle(types)]
pub fn of_ty(ty: &Ty, found: &mut Vec<Tyvar>) -> Result<(), NoMemory>
    ensures { IfOk result (λ _. found.new.items ≡ found.old.items ++ ty_tyvars ty.now) }
{
    match ty {
        Ty::Var(_, tyvar) => {
            found.push(*tyvar)?;
            Ok(())
        }
        Ty::Record(_, fields) => of_fields(fields, found),
        Ty::Con(_, arguments, _, _) => of_tys(arguments, found),
        Ty::Product(_, parts) => of_tys(parts, found),
        Ty::Arrow(_, first, parts) => {
            of_ty(first, found)?;
            of_parts(parts, found)
        }
    }
}

#[cycle(types)]
fn of_fields(fields: &[TyField], found: &mut Vec<Tyvar>) -> Result<(), NoMemory>
    ensures { IfOk result (λ _. found.new.items ≡ found.old.items ++ flat_map field_ty_tyvars fields.now) }
{
    for i in 0..fields.len() {
        let field = &fields[i];
        of_ty(&field.ty, found)?;
    }
    Ok(())
}

#[cycle(types)]
fn of_tys(tys: &[Ty], found: &mut Vec<Tyvar>) -> Result<(), NoMemory>
    ensures { IfOk result (λ _. found.new.items ≡ found.old.items ++ flat_map ty_tyvars tys.now) }
{
    for i in 0..tys.len() {
        of_ty(&tys[i], found)?;
    }
    Ok(())
}

#[cycle(types)]
fn of_parts(parts: &[TyPart], found: &mut Vec<Tyvar>) -> Result<(), NoMemory>
    ensures { IfOk result (λ _. found.new.items ≡ found.old.items ++ flat_map ty_part_tyvars parts.now) }
{
    for i in 0..parts.len() {
        let part = &parts[i];
        of_ty(&part.ty, found)?;
    }
    Ok(())
}

/// Those of a type that may be written.
pub fn of_some(ty: &Option<Ty>, found: &mut Vec<Tyvar>) -> Result<(), NoMemory>
    ensures { IfOk result (λ _. found.new.items ≡ found.old.items ++ some_tyvars ty.now) }
{
    match ty {
        Some(ty) => of_ty(ty, found),
        None => Ok(()),
    }
}
