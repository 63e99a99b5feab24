// Type constructors that aren't bound, in types.
ghost use Rattle.core_rules.specs.Unbound.{all_in};
ghost use Rattle.core_rules.specs.Values.{Env};
ghost use Rattle.std.specs.Prelude.{IsTrue, List, map};
ghost use Rattle.name_scopes.specs.Covering.{Covers};
ghost use Rattle.name_scopes.specs.Nodes.{ty_phrase};
ghost use Rattle.name_scopes.specs.Placed.{AnyAt, FoundAt};
ghost use Rattle.name_scopes.specs.Types.{AreNamed};
ghost use Rattle.name_scopes.specs.Written.{written_phrase};
ghost use Rattle.sml_tree.specs.BareTree.{TypeBind as BareTypeBind};

use crate::look_ups::{is_abbreviation, is_at, is_unbound_tycon};
use crate::scope::Scope;
use crate::sought::Sought;
use scoped_map::scoped::Scoped;
use sml_tree::tree::{Ty, TyField, TyPart};
use std::alloc::Global;

/// Whether a type constructor that isn't bound is looked for and found, in a type with the abbreviations of a `withtype` written out.
/// The arguments of these aren't looked at.
#[cycle(tys)]
pub fn in_written(sought: &Sought, ty: &Ty, within: &Scoped<usize>, scope: &Scope) -> bool
    ensures { IsTrue result → (bs : List BareTypeBind) (e : Env) → AreNamed bs within.now → Covers scope.now e
        → FoundAt sought.now e (written_phrase bs ty.now) }
{
    match ty {
        Ty::Var(_, _) => false,
        Ty::Record(_, fields) => in_fields(sought, fields, within, scope),
        Ty::Con(_, arguments, at, tycon) => {
            if is_abbreviation(tycon, within) {
                return false;
            }
            if is_at(*at, sought) && is_unbound_tycon(tycon, scope) {
                return true;
            }
            in_tys(sought, arguments, within, scope)
        }
        Ty::Product(_, parts) => in_tys(sought, parts, within, scope),
        Ty::Arrow(_, first, parts) => {
            in_written(sought, first, within, scope) || in_parts(sought, parts, within, scope)
        }
    }
}

#[cycle(tys)]
fn in_fields(sought: &Sought, fields: &[TyField], within: &Scoped<usize>, scope: &Scope) -> bool
    ensures { IsTrue result → (bs : List BareTypeBind) (e : Env) → AreNamed bs within.now → Covers scope.now e
        → AnyAt sought.now (all_in e (map (λ f. written_phrase bs f.ty) fields.now)) }
{
    for i in 0..fields.len() {
        let field = &fields[i];
        if in_written(sought, &field.ty, within, scope) {
            return true;
        }
    }
    false
}

#[cycle(tys)]
fn in_tys(sought: &Sought, tys: &[Ty], within: &Scoped<usize>, scope: &Scope) -> bool
    ensures { IsTrue result → (bs : List BareTypeBind) (e : Env) → AreNamed bs within.now → Covers scope.now e
        → AnyAt sought.now (all_in e (map (written_phrase bs) tys.now)) }
{
    for i in 0..tys.len() {
        if in_written(sought, &tys[i], within, scope) {
            return true;
        }
    }
    false
}

#[cycle(tys)]
fn in_parts(sought: &Sought, parts: &[TyPart], within: &Scoped<usize>, scope: &Scope) -> bool
    ensures { IsTrue result → (bs : List BareTypeBind) (e : Env) → AreNamed bs within.now → Covers scope.now e
        → AnyAt sought.now (all_in e (map (λ o. written_phrase bs o.ty) parts.now)) }
{
    for i in 0..parts.len() {
        let part = &parts[i];
        if in_written(sought, &part.ty, within, scope) {
            return true;
        }
    }
    false
}

/// The same of a type as it is written.
pub fn in_ty(alloc: Global, sought: &Sought, ty: &Ty, scope: &Scope) -> bool
    ensures { IsTrue result → (e : Env) → Covers scope.now e → FoundAt sought.now e (ty_phrase ty.now) }
{
    let none = Scoped::new(alloc);
    in_written(sought, ty, &none, scope)
}
