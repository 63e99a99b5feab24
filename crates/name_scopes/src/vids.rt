// What patterns bind.
ghost use Rattle.core_rules.specs.Unbound.{pat_names, rec_names};
ghost use Rattle.core_rules.specs.Values.{Env, long_value_in};
ghost use Rattle.sml_tree.specs.Derived.{function_binds, one_or_tuple_pat};
ghost use Rattle.sml_tree.specs.TreeOf.{bind_of, binds_of, function_of, long_vid_of, pat_of};
ghost use Rattle.std.specs.Prelude.{IfOk, [], filter, flat_map, map, reverse, true, ◌++◌, ◌∷◌, ◌≡◌};
ghost use Rattle.name_scopes.specs.Covering.{Covers};
ghost use Rattle.name_scopes.specs.Entries.{variable_entries};
ghost use Rattle.name_scopes.specs.Patterns.{alone_vids, binds_vids, each_vids, pat_vids, rec_vids};
ghost use Rattle.name_scopes.specs.Placed.{Brought};
ghost use Rattle.name_scopes.specs.Covering.{is_written};
ghost use Rattle.mlc_base.specs.declared.place.Place.{Place as Byte};

use crate::bound::Bound;
use crate::look_ups::{find_value, is_written};
use crate::scope::Scope;
use mlc_base::memory::NoMemory;
use sml_tree::ident::{LongVid, Vid};
use sml_tree::tree::{Bind, Function, Pat, PatField, PatPart};
use std::alloc::Global;

/// Adds an identifier, if a program can name it.
fn push_written(vid: Vid, vids: &mut Vec<Vid>) -> Result<(), NoMemory>
    ensures { IfOk result (λ _. vids.new.items ≡ vids.old.items ++ filter is_written (vid ∷ [])) }
{
    if is_written(&vid) {
        vids.push(vid)?;
    }
    Ok(())
}

/// An identifier that stands alone in a pattern is bound by it, unless it is a constructor or an exception.
fn push_alone(long: &LongVid, scope: &Scope, vids: &mut Vec<Vid>) -> Result<(), NoMemory>
    ensures { IfOk result (λ _. (e : Env) → Covers scope.now e
        → vids.new.items ≡ vids.old.items ++ filter is_written (alone_vids (long_value_in e (long_vid_of long.now)) long.now.vid)) }
{
    match find_value(long, scope) {
        Some(false) => Ok(()),
        _ => push_written(long.vid, vids),
    }
}

/// Adds the identifiers that a pattern binds.
#[cycle(vids)]
pub fn push_vids(pat: &Pat, scope: &Scope, vids: &mut Vec<Vid>) -> Result<(), NoMemory>
    ensures { IfOk result (λ _. (e : Env) → Covers scope.now e → vids.new.items ≡ vids.old.items ++ filter is_written (pat_vids e (pat_of pat.now))) }
{
    match pat {
        Pat::Wild(_) => Ok(()),
        Pat::Constant(_, _) => Ok(()),
        Pat::BuiltIn(_, _) => Ok(()),
        Pat::Vid(_, long) => push_alone(long, scope, vids),
        Pat::Record(_, fields, _) => push_fields(fields, scope, vids),
        Pat::Tuple(_, parts) => push_pats(parts, scope, vids),
        Pat::List(_, elements) => push_pats(elements, scope, vids),
        Pat::Con(_, _, _, argument) => push_vids(argument, scope, vids),
        Pat::BuiltCon(_, _, argument) => push_vids(argument, scope, vids),
        Pat::Chain(_, _, first, parts) => {
            push_vids(first, scope, vids)?;
            push_parts(parts, scope, vids)
        }
        Pat::Typed(_, body, _) => push_vids(body, scope, vids),
        Pat::As(_, vid, _, body) => {
            push_written(*vid, vids)?;
            push_vids(body, scope, vids)
        }
    }
}

#[cycle(vids)]
pub fn push_pats(pats: &[Pat], scope: &Scope, vids: &mut Vec<Vid>) -> Result<(), NoMemory>
    ensures { IfOk result (λ _. (e : Env) → Covers scope.now e
        → vids.new.items ≡ vids.old.items ++ filter is_written (flat_map (λ a. pat_vids e (pat_of a)) pats.now)) }
{
    for i in 0..pats.len() {
        push_vids(&pats[i], scope, vids)?;
    }
    Ok(())
}

#[cycle(vids)]
fn push_fields(fields: &[PatField], scope: &Scope, vids: &mut Vec<Vid>) -> Result<(), NoMemory>
    ensures { IfOk result (λ _. (e : Env) → Covers scope.now e
        → vids.new.items ≡ vids.old.items ++ filter is_written (flat_map (λ f. pat_vids e (pat_of f.pat)) fields.now)) }
{
    for i in 0..fields.len() {
        let field = &fields[i];
        push_vids(&field.pat, scope, vids)?;
    }
    Ok(())
}

#[cycle(vids)]
fn push_parts(parts: &[PatPart], scope: &Scope, vids: &mut Vec<Vid>) -> Result<(), NoMemory>
    ensures { IfOk result (λ _. (e : Env) → Covers scope.now e
        → vids.new.items ≡ vids.old.items ++ filter is_written (flat_map (λ o. pat_vids e (pat_of o.pat)) parts.now)) }
{
    for i in 0..parts.len() {
        let part = &parts[i];
        push_vids(&part.pat, scope, vids)?;
    }
    Ok(())
}

/// Adds what bindings bind.
pub fn push_binds(binds: &[Bind], scope: &Scope, vids: &mut Vec<Vid>) -> Result<(), NoMemory>
    ensures { IfOk result (λ _. (e : Env) → Covers scope.now e
        → vids.new.items ≡ vids.old.items ++ filter is_written (binds_vids e (binds_of (map bind_of binds.now)))) }
{
    for i in 0..binds.len() {
        let bind = &binds[i];
        push_vids(&bind.pat, scope, vids)?;
    }
    Ok(())
}

/// Adds the identifiers of a pattern behind `rec`, whatever they are in scope.
#[cycle(recs)]
fn push_rec(pat: &Pat, vids: &mut Vec<Vid>) -> Result<(), NoMemory>
    ensures { IfOk result (λ _. vids.new.items ≡ vids.old.items ++ filter is_written (each_vids (pat_of pat.now))) }
{
    match pat {
        Pat::Vid(_, long) => push_written(long.vid, vids),
        Pat::Typed(_, body, _) => push_rec(body, vids),
        Pat::As(_, vid, _, body) => {
            push_written(*vid, vids)?;
            push_rec(body, vids)
        }
        // a chain of one operand is that operand
        Pat::Chain(_, _, first, parts) => {
            if parts.len() == 0 {
                push_rec(first, vids)
            } else {
                Ok(())
            }
        }
        Pat::Wild(_) => Ok(()),
        Pat::Constant(_, _) => Ok(()),
        Pat::BuiltIn(_, _) => Ok(()),
        Pat::Record(_, _, _) => Ok(()),
        Pat::Tuple(_, _) => Ok(()),
        Pat::List(_, _) => Ok(()),
        Pat::Con(_, _, _, _) => Ok(()),
        Pat::BuiltCon(_, _, _) => Ok(()),
    }
}

pub fn push_recs(binds: &[Bind], vids: &mut Vec<Vid>) -> Result<(), NoMemory>
    ensures { IfOk result (λ _. vids.new.items ≡ vids.old.items ++ filter is_written (rec_vids (binds_of (map bind_of binds.now)))) }
{
    for i in 0..binds.len() {
        let bind = &binds[i];
        push_rec(&bind.pat, vids)?;
    }
    Ok(())
}

pub fn push_functions(functions: &[Function], vids: &mut Vec<Vid>) -> Result<(), NoMemory>
    ensures { IfOk result (λ _. vids.new.items ≡ vids.old.items ++ filter is_written (rec_vids (function_binds (map function_of functions.now)))) }
{
    for i in 0..functions.len() {
        let function = &functions[i];
        push_written(function.vid, vids)?;
    }
    Ok(())
}

/// Binds variables.
pub fn bind_vids(vids: &[Vid], scope: &mut Scope) -> Result<(), NoMemory>
    ensures { IfOk result (λ _. scope.new ≡ variable_entries (reverse vids.now) ++ scope.old) }
{
    for i in 0..vids.len() {
        scope.bind(Bound::Value(vids[i], true))?;
    }
    Ok(())
}

/// Binds what a pattern binds.
pub fn bind_pat(alloc: Global, pat: &Pat, scope: &mut Scope) -> Result<(), NoMemory>
    ensures { IfOk result (λ _. Brought scope.old scope.new (λ e. pat_names e (pat_of pat.now))) }
{
    let mut vids = Vec::new(alloc);
    push_vids(pat, scope, &mut vids)?;
    bind_vids(&vids, scope)
}

/// Binds what the patterns of a clause bind.
pub fn bind_pats(alloc: Global, pats: &[Pat], scope: &mut Scope) -> Result<(), NoMemory>
    ensures { IfOk result (λ _. (place : Byte) → Brought scope.old scope.new (λ e. pat_names e (one_or_tuple_pat place (map pat_of pats.now)))) }
{
    let mut vids = Vec::new(alloc);
    push_pats(pats, scope, &mut vids)?;
    bind_vids(&vids, scope)
}

/// Binds what bindings behind `rec` bind.
pub fn bind_recs(alloc: Global, binds: &[Bind], scope: &mut Scope) -> Result<(), NoMemory>
    ensures { IfOk result (λ _. Brought scope.old scope.new (λ e. rec_names (binds_of (map bind_of binds.now)))) }
{
    let mut vids = Vec::new(alloc);
    push_recs(binds, &mut vids)?;
    bind_vids(&vids, scope)
}

/// Binds functions.
pub fn bind_functions(
    alloc: Global,
    functions: &[Function],
    scope: &mut Scope,
) -> Result<(), NoMemory>
    ensures { IfOk result (λ _. Brought scope.old scope.new (λ e. rec_names (function_binds (map function_of functions.now)))) }
{
    let mut vids = Vec::new(alloc);
    push_functions(functions, &mut vids)?;
    bind_vids(&vids, scope)
}
