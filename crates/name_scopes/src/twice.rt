// Identifiers that are bound twice, or that nothing may bind.
ghost use Rattle.core_rules.specs.Restrictions.{distinct, is_kept};
ghost use Rattle.core_rules.specs.Values.{Env, long_value_in, value_in};
ghost use Rattle.core_rules.specs.Words.{same_vid};
ghost use Rattle.sml_tree.specs.Derived.{function_binds, one_or_tuple_pat};
ghost use Rattle.sml_tree.specs.TreeOf.{bind_of, binds_of, function_of, long_vid_of, pat_of};
ghost use Rattle.std.specs.List.{Contains, list_all};
ghost use Rattle.std.specs.Prelude.{IfOk, IsTrue, List, [], false, map, not, ◌&&◌, ◌++◌, ◌∷◌, ◌≡◌};
ghost use Rattle.name_scopes.specs.Bindings.{AsksOne, are_proper, fun_phrase, is_no_variable, val_phrase};
ghost use Rattle.name_scopes.specs.Covering.{Covers};
ghost use Rattle.name_scopes.specs.Nodes.{clause_phrase, rule_phrase};
ghost use Rattle.name_scopes.specs.Patterns.{binds_vids, pat_vids, rec_vids};
ghost use Rattle.name_scopes.specs.Placed.{Asks, FoundAt};
ghost use Rattle.name_scopes.specs.Twice.{alone_kept, binding_places, is_matched, pat_place};
ghost use Rattle.name_scopes.specs.declared.sought.What.TheVariants.{Twice};
ghost use Rattle.mlc_base.specs.declared.place.Place.{Place as Byte};
ghost use Rattle.sml_tree.specs.declared.ident.Tyvar.{Tyvar as TypeVariable};

use crate::look_ups::{find_value, is_written};
use crate::scope::Scope;
use crate::sought::{Sought, What};
use crate::vids::{push_binds, push_functions, push_pats, push_recs, push_vids};
use mlc_base::memory::NoMemory;
use mlc_base::place::Place;
use mlc_names::words;
use sml_tree::ident::{LongVid, Vid};
use sml_tree::tree::{Bind, Clause, Function, Pat, Rule};
use std::alloc::Global;
use vid_scope::vids::VidScope;

/// Whether one that is bound twice is looked for, at this place.
pub fn is_twice_at(place: Place, sought: &Sought) -> bool
    ensures { IsTrue result → Asks sought.now Twice place }
{
    match sought.what {
        What::Twice => place == sought.place,
        What::Unbound => false,
    }
}

/// Whether nothing may bind an identifier.
fn is_kept(vid: Vid) -> bool
    ensures { result ≡ is_kept vid }
{
    match vid {
        Vid::Named(name) => {
            let number = name.number();
            number == words::TRUE
                || number == words::FALSE
                || number == words::NIL
                || number == words::CONS
                || number == words::REF
        }
        Vid::Equals => true,
        Vid::Fresh(_) => false,
    }
}

/// Whether what was found is a constructor or an exception.
fn is_no_variable(found: Option<bool>) -> bool
    ensures { result ≡ is_no_variable found }
{
    match found {
        Some(variable) => !variable,
        None => false,
    }
}

/// Whether an identifier that nothing may bind would be bound where it stands alone in a pattern.
pub fn is_kept_alone(long: &LongVid, scope: &Scope) -> bool
    ensures { IsTrue result → (e : Env) → Covers scope.now e → (place : Byte)
        → Contains (alone_kept long.now.qualifiers.items (is_matched (long_value_in e (long_vid_of long.now))) (is_kept long.now.vid) place) place }
{
    long.qualifiers.len() == 0 && is_kept(long.vid) && !is_no_variable(find_value(long, scope))
}

/// Whether an identifier can't stand before `as`.
pub fn is_never_before_as(vid: Vid, scope: &Scope) -> bool
    ensures { IsTrue result → (e : Env) → Covers scope.now e → (not (is_matched (value_in e vid)) && not (is_kept vid)) ≡ false }
{
    is_kept(vid) || is_written(&vid) && is_no_variable(scope.value(vid))
}

/// Whether one of these identifiers is there twice.
pub fn is_twice(alloc: Global, vids: &[Vid]) -> Result<bool, NoMemory>
    ensures { IfOk result (λ twice. IsTrue twice → distinct same_vid vids.now ≡ false) }
{
    let mut seen = VidScope::new(alloc);
    let mut i = vids.len();
    while i > 0 {
        i -= 1;
        let vid = &vids[i];
        if seen.find(*vid).is_some() {
            return Ok(true);
        }
        seen.bind(*vid, true)?;
    }
    Ok(false)
}

/// Whether nothing may bind one of these.
fn has_kept(vids: &[Vid]) -> bool
    ensures { IsTrue result → list_all (λ x. not (is_kept x)) vids.now ≡ false }
{
    for i in 0..vids.len() {
        if is_kept(vids[i]) {
            return true;
        }
    }
    false
}

/// Whether a pattern binds an identifier twice.
fn is_pat_twice(alloc: Global, pat: &Pat, scope: &Scope) -> Result<bool, NoMemory>
    ensures { IfOk result (λ twice. IsTrue twice → (e : Env) → Covers scope.now e → distinct same_vid (pat_vids e (pat_of pat.now)) ≡ false) }
{
    let mut vids = Vec::new(alloc);
    push_vids(pat, scope, &mut vids)?;
    is_twice(alloc, &vids)
}

/// The same of the patterns of a clause.
fn are_pats_twice(alloc: Global, pats: &[Pat], scope: &Scope) -> Result<bool, NoMemory>
    ensures { IfOk result (λ twice. IsTrue twice → (e : Env) → Covers scope.now e → (place : Byte)
        → distinct same_vid (pat_vids e (one_or_tuple_pat place (map pat_of pats.now))) ≡ false) }
{
    let mut vids = Vec::new(alloc);
    push_pats(pats, scope, &mut vids)?;
    is_twice(alloc, &vids)
}

/// Whether bindings, and those behind `rec`, bind an identifier twice, or the latter one that nothing may bind.
fn are_binds_broken(
    alloc: Global,
    binds: &[Bind],
    recs: &[Bind],
    scope: &Scope,
) -> Result<bool, NoMemory>
    ensures { IfOk result (λ broken. IsTrue broken → (e : Env) → Covers scope.now e
        → are_proper (binds_vids e (binds_of (map bind_of binds.now))) (rec_vids (binds_of (map bind_of recs.now))) ≡ false) }
{
    let mut bound = Vec::new(alloc);
    push_recs(recs, &mut bound)?;
    if has_kept(&bound) {
        return Ok(true);
    }
    let mut all = Vec::new(alloc);
    push_binds(binds, scope, &mut all)?;
    push_recs(recs, &mut all)?;
    is_twice(alloc, &all)
}

/// The same of functions.
fn are_functions_broken(alloc: Global, functions: &[Function]) -> Result<bool, NoMemory>
    ensures { IfOk result (λ broken. IsTrue broken → are_proper [] (rec_vids (function_binds (map function_of functions.now))) ≡ false) }
{
    let mut bound = Vec::new(alloc);
    push_functions(functions, &mut bound)?;
    if has_kept(&bound) {
        return Ok(true);
    }
    is_twice(alloc, &bound)
}

/// The place of a pattern.
#[cycle(places)]
fn pat_place(pat: &Pat) -> Place
    ensures { result ≡ pat_place (pat_of pat.now) }
{
    match pat {
        Pat::Wild(at) => *at,
        Pat::Constant(at, _) => *at,
        Pat::Vid(at, _) => *at,
        Pat::BuiltIn(at, _) => *at,
        Pat::Record(at, _, _) => *at,
        Pat::Tuple(at, _) => *at,
        Pat::List(at, _) => *at,
        Pat::Con(at, _, _, _) => *at,
        Pat::BuiltCon(at, _, _) => *at,
        // a chain of one operand is that operand
        Pat::Chain(at, _, first, parts) => {
            if parts.len() == 0 {
                pat_place(first)
            } else {
                *at
            }
        }
        Pat::Typed(at, _, _) => *at,
        Pat::As(at, _, _, _) => *at,
    }
}

/// The place of the patterns of a clause, as one.
fn pats_place(place: Place, pats: &[Pat]) -> Place
    ensures { result ≡ pat_place (one_or_tuple_pat place (map pat_of pats.now)) }
{
    if pats.len() == 1 {
        pat_place(&pats[0])
    } else {
        place
    }
}

/// Whether one that is bound twice is looked for, at one of these places.
fn is_either_at(place: Place, other: Place, sought: &Sought) -> bool
    ensures { IsTrue result → AsksOne sought.now Twice (place ∷ other ∷ []) }
{
    is_twice_at(place, sought) || is_twice_at(other, sought)
}

/// The same of bindings and their patterns.
fn is_binding_at(binds: &[Bind], sought: &Sought) -> bool
    ensures { IsTrue result → AsksOne sought.now Twice (binding_places (binds_of (map bind_of binds.now))) }
{
    for i in 0..binds.len() {
        let bind = &binds[i];
        if is_either_at(bind.place, pat_place(&bind.pat), sought) {
            return true;
        }
    }
    false
}

fn is_function_at(functions: &[Function], sought: &Sought) -> bool
    ensures { IsTrue result → AsksOne sought.now Twice (binding_places (function_binds (map function_of functions.now))) }
{
    for i in 0..functions.len() {
        let function = &functions[i];
        if is_either_at(function.place, function.vid_place, sought) {
            return true;
        }
    }
    false
}

/// A rule of a match whose pattern binds an identifier twice, where that is looked for there.
pub fn is_rule_twice(
    alloc: Global,
    sought: &Sought,
    rule: &Rule,
    scope: &Scope,
) -> Result<bool, NoMemory>
    ensures { IfOk result (λ twice. IsTrue twice → (e : Env) → Covers scope.now e → FoundAt sought.now e (rule_phrase rule.now)) }
{
    if is_either_at(rule.place, pat_place(&rule.pat), sought) {
        is_pat_twice(alloc, &rule.pat, scope)
    } else {
        Ok(false)
    }
}

/// A clause of a function.
pub fn is_clause_twice(
    alloc: Global,
    sought: &Sought,
    clause: &Clause,
    scope: &Scope,
) -> Result<bool, NoMemory>
    ensures { IfOk result (λ twice. IsTrue twice → (e : Env) → Covers scope.now e → FoundAt sought.now e (clause_phrase clause.now)) }
{
    if is_either_at(clause.place, pats_place(clause.place, &clause.pats), sought) {
        are_pats_twice(alloc, &clause.pats, scope)
    } else {
        Ok(false)
    }
}

/// A place where it is told of a `val`.
fn is_val_at(place: Place, binds: &[Bind], recs: &[Bind], sought: &Sought) -> bool
    ensures { IsTrue result → AsksOne sought.now Twice
        (place ∷ binding_places (binds_of (map bind_of binds.now)) ++ binding_places (binds_of (map bind_of recs.now))) }
{
    if is_twice_at(place, sought) {
        return true;
    }
    if is_binding_at(binds, sought) {
        return true;
    }
    is_binding_at(recs, sought)
}

/// A `val` that binds an identifier twice, or behind `rec` one that nothing may bind, where that is looked for there.
pub fn is_val_twice(
    alloc: Global,
    sought: &Sought,
    place: Place,
    binds: &[Bind],
    recs: &[Bind],
    scope: &Scope,
) -> Result<bool, NoMemory>
    ensures { IfOk result (λ twice. IsTrue twice → (e : Env) → Covers scope.now e → (at : Byte) (names : List TypeVariable)
        → FoundAt sought.now e (val_phrase place at names binds.now recs.now)) }
{
    if is_val_at(place, binds, recs, sought) {
        are_binds_broken(alloc, binds, recs, scope)
    } else {
        Ok(false)
    }
}

fn is_fun_at(place: Place, functions: &[Function], sought: &Sought) -> bool
    ensures { IsTrue result → AsksOne sought.now Twice (place ∷ binding_places (function_binds (map function_of functions.now))) }
{
    if is_twice_at(place, sought) {
        return true;
    }
    is_function_at(functions, sought)
}

/// The same of `fun`.
pub fn is_fun_twice(
    alloc: Global,
    sought: &Sought,
    place: Place,
    functions: &[Function],
) -> Result<bool, NoMemory>
    ensures { IfOk result (λ twice. IsTrue twice → (e : Env) (at : Byte) (names : List TypeVariable)
        → FoundAt sought.now e (fun_phrase place at names functions.now)) }
{
    if is_fun_at(place, functions, sought) {
        are_functions_broken(alloc, functions)
    } else {
        Ok(false)
    }
}
