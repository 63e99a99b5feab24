// What is looked for, in patterns.
ghost use Rattle.core_rules.specs.Unbound.{all_in};
ghost use Rattle.core_rules.specs.Values.{Env};
ghost use Rattle.std.specs.Prelude.{IsTrue, map};
ghost use Rattle.name_scopes.specs.Covering.{Covers};
ghost use Rattle.name_scopes.specs.Nodes.{pat_phrase};
ghost use Rattle.name_scopes.specs.Parts.{InPatParts, some_ty_phrases};
ghost use Rattle.name_scopes.specs.Placed.{AnyAt, FoundAt};

use crate::look_ups::{is_at, is_unbound_value, is_unbound_vid};
use crate::scope::Scope;
use crate::sought::Sought;
use crate::twice::{is_kept_alone, is_never_before_as, is_twice_at};
use crate::tys::in_ty;
use sml_tree::tree::{Pat, PatField, PatPart, Ty};
use std::alloc::Global;

/// The same of a type that may be there.
pub fn in_some_ty(alloc: Global, sought: &Sought, ty: &Option<Ty>, scope: &Scope) -> bool
    ensures { IsTrue result → (e : Env) → Covers scope.now e → AnyAt sought.now (all_in e (some_ty_phrases ty.now)) }
{
    match ty {
        Some(ty) => in_ty(alloc, sought, ty, scope),
        None => false,
    }
}

/// Whether what is looked for is in a pattern.
#[cycle(pats)]
pub fn in_pat(alloc: Global, sought: &Sought, pat: &Pat, scope: &Scope) -> bool
    ensures { IsTrue result → (e : Env) → Covers scope.now e → FoundAt sought.now e (pat_phrase pat.now) }
{
    match pat {
        Pat::Wild(_) => false,
        Pat::Constant(_, _) => false,
        Pat::BuiltIn(_, _) => false,
        Pat::Vid(at, long) => {
            if is_twice_at(*at, sought) {
                return is_kept_alone(long, scope);
            }
            long.qualifiers.len() > 0 && is_at(*at, sought) && is_unbound_value(long, scope)
        }
        Pat::Record(_, fields, _) => in_fields(alloc, sought, fields, scope),
        Pat::Tuple(_, parts) => in_pats(alloc, sought, parts, scope),
        Pat::List(_, elements) => in_pats(alloc, sought, elements, scope),
        Pat::Con(_, at, long, argument) => {
            if is_at(*at, sought) && is_unbound_value(long, scope) {
                return true;
            }
            in_pat(alloc, sought, argument, scope)
        }
        Pat::BuiltCon(_, _, argument) => in_pat(alloc, sought, argument, scope),
        Pat::Chain(_, _, first, parts) => {
            in_pat(alloc, sought, first, scope) || in_parts(alloc, sought, parts, scope)
        }
        Pat::Typed(_, body, ty) => {
            in_pat(alloc, sought, body, scope) || in_ty(alloc, sought, ty, scope)
        }
        Pat::As(at, vid, ty, body) => {
            if is_twice_at(*at, sought) && is_never_before_as(*vid, scope) {
                return true;
            }
            in_some_ty(alloc, sought, ty, scope) || in_pat(alloc, sought, body, scope)
        }
    }
}

#[cycle(pats)]
pub fn in_pats(alloc: Global, sought: &Sought, pats: &[Pat], scope: &Scope) -> bool
    ensures { IsTrue result → (e : Env) → Covers scope.now e → AnyAt sought.now (all_in e (map pat_phrase pats.now)) }
{
    for i in 0..pats.len() {
        if in_pat(alloc, sought, &pats[i], scope) {
            return true;
        }
    }
    false
}

#[cycle(pats)]
fn in_fields(alloc: Global, sought: &Sought, fields: &[PatField], scope: &Scope) -> bool
    ensures { IsTrue result → (e : Env) → Covers scope.now e → AnyAt sought.now (all_in e (map (λ f. pat_phrase f.pat) fields.now)) }
{
    for i in 0..fields.len() {
        let field = &fields[i];
        if in_pat(alloc, sought, &field.pat, scope) {
            return true;
        }
    }
    false
}

/// Operands of a chain, and the constructors that join them.
#[cycle(pats)]
fn in_parts(alloc: Global, sought: &Sought, parts: &[PatPart], scope: &Scope) -> bool
    ensures { IsTrue result → (e : Env) → Covers scope.now e → InPatParts sought.now e parts.now }
{
    for i in 0..parts.len() {
        let part = &parts[i];
        if is_at(part.vid_place, sought) && is_unbound_vid(part.vid, scope) {
            return true;
        }
        if in_pat(alloc, sought, &part.pat, scope) {
            return true;
        }
    }
    false
}
