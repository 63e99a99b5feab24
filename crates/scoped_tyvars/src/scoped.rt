// The type variables that a declaration scopes: those of its sequence, and those that occur unguarded in it and aren't in scope around it.
ghost use Rattle.std.specs.Prelude.{◌≡◌, ◌++◌, ◌∷◌, List, ℕ, true, map, IfOk};
ghost use Rattle.core_rules.specs.Scoping.{new_vars, scoped_at, tyvar_names};
ghost use Rattle.sml_tree.specs.BareTree.{no_binds};
ghost use Rattle.sml_tree.specs.Derived.{function_binds};
ghost use Rattle.sml_tree.specs.TreeOf.{bind_of, binds_of, function_of};
ghost use Rattle.sml_tree.specs.declared.ident.Tyvar.{Tyvar as TyvarOf};
ghost use Rattle.scoped_tyvars.specs.Noted.{HasNoted, IsAdded, is_noted, names_around, names_onto};

use crate::exps::{of_binds, of_functions};
use mlc_base::memory::NoMemory;
use scoped_map::scoped::Scoped;
use sml_tree::ident::Tyvar;
use sml_tree::tree::{Bind, Function};
use std::alloc::Global;

/// Notes a type variable by its name.
fn note(tyvar: Tyvar, noted: &mut Scoped<bool>) -> Result<(), NoMemory>
    ensures { IfOk result (λ _. noted.new ≡ (tyvar.name, true) ∷ noted.old) }
{
    noted.bind(tyvar.name.number() as usize, true)
}

/// Notes those of a sequence.
fn note_all(tyvars: &[Tyvar], noted: &mut Scoped<bool>) -> Result<(), NoMemory>
    ensures { IfOk result (λ _. noted.new ≡ names_onto noted.old tyvars.now) }
{
    for i in 0..tyvars.len() {
        let tyvar = tyvars[i];
        note(tyvar, noted)?;
    }
    Ok(())
}

/// Whether a type variable is in scope around the declaration, or was noted.
fn is_known(around: &Scoped<usize>, noted: &Scoped<bool>, tyvar: &Tyvar) -> bool
    ensures { result ≡ is_noted around.now noted.now tyvar.now.name }
{
    let key = tyvar.name.number() as usize;
    around.find(key).is_some() || noted.find(key).is_some()
}

/// Adds one that isn't known.
fn add_if_new(
    around: &Scoped<usize>,
    tyvar: &Tyvar,
    noted: &mut Scoped<bool>,
    scoped: &mut Vec<Tyvar>,
) -> Result<(), NoMemory>
    ensures { IfOk result (λ _. (names : List ℕ) (rest : List TyvarOf) → HasNoted around.now noted.old names
        → IsAdded around.now names tyvar.now rest scoped.old.items scoped.new.items noted.new) }
{
    if is_known(around, noted, tyvar) {
        return Ok(());
    }
    note(*tyvar, noted)?;
    scoped.push(*tyvar)?;
    Ok(())
}

/// Adds those that aren't known, each once.
fn add_new(
    around: &Scoped<usize>,
    occurring: &[Tyvar],
    noted: &mut Scoped<bool>,
    scoped: &mut Vec<Tyvar>,
) -> Result<(), NoMemory>
    ensures { IfOk result (λ _. (names : List ℕ) → HasNoted around.now noted.old names
        → scoped.new.items ≡ scoped.old.items ++ new_vars names occurring.now) }
{
    for i in 0..occurring.len() {
        add_if_new(around, &occurring[i], noted, scoped)?;
    }
    Ok(())
}

/// Those of a sequence, and the ones among others that are new.
fn with_new(
    alloc: Global,
    around: &Scoped<usize>,
    tyvars: &[Tyvar],
    occurring: &[Tyvar],
) -> Result<Vec<Tyvar>, NoMemory>
    ensures { IfOk result (λ scoped. scoped.items ≡ tyvars.now ++ new_vars (names_around around.now ++ tyvar_names tyvars.now) occurring.now) }
{
    let mut noted = Scoped::new(alloc);
    note_all(tyvars, &mut noted)?;
    let mut scoped = Vec::new(alloc);
    scoped.extend_from_slice(tyvars)?;
    add_new(around, occurring, &mut noted, &mut scoped)?;
    Ok(scoped)
}

/// Those that `val` scopes, with its bindings before `rec` and behind it.
pub fn scoped_in_val(
    alloc: Global,
    around: &Scoped<usize>,
    tyvars: &[Tyvar],
    binds: &[Bind],
    recs: &[Bind],
) -> Result<Vec<Tyvar>, NoMemory>
    ensures { IfOk result (λ scoped. scoped.items ≡ scoped_at (names_around around.now) tyvars.now (binds_of (map bind_of binds.now))
        (binds_of (map bind_of recs.now))) }
{
    let mut occurring = Vec::new(alloc);
    of_binds(binds, &mut occurring)?;
    of_binds(recs, &mut occurring)?;
    with_new(alloc, around, tyvars, &occurring)
}

/// Those that `fun` scopes.
pub fn scoped_in_fun(
    alloc: Global,
    around: &Scoped<usize>,
    tyvars: &[Tyvar],
    functions: &[Function],
) -> Result<Vec<Tyvar>, NoMemory>
    ensures { IfOk result (λ scoped. scoped.items ≡ scoped_at (names_around around.now) tyvars.now no_binds (function_binds (map function_of functions.now))) }
{
    let mut occurring = Vec::new(alloc);
    of_functions(functions, &mut occurring)?;
    with_new(alloc, around, tyvars, &occurring)
}
