// The scope of the initial basis, and what its structures have.
ghost use Rattle.std.specs.Prelude.{◌≡◌, ◌∷◌, ◌++◌, is_some, map, IfOk, OnErr};
ghost use Rattle.std.specs.List.{AllByRecursion};
ghost use Rattle.mlc_names.specs.StandardWords.{word_Prim};
ghost use Rattle.core_rules.specs.Initial.{initial_env};
ghost use Rattle.name_scopes.specs.Basis.{bound_of as bound_at, initial_bounds, IsStandard};
ghost use Rattle.name_scopes.specs.Covering.{Covers};
ghost use Rattle.name_scopes.specs.Entries.{member_entries};
ghost use Rattle.name_scopes.specs.Scopes.{value_found};
ghost use Rattle.name_scopes.specs.declared.bound.Bound.TheVariants.{Structure};
ghost use Rattle.name_scopes.specs.declared.bound.Members.TheVariants.{Hidden};

use crate::bound::{Bound, Members};
use crate::rows::{HIDDEN, INTEGERS, ROWS, Row, bound_of, is_of};
use crate::scope::Scope;
use mlc_base::memory::NoMemory;
use mlc_names::names::Name;
use mlc_names::words;
use sml_tree::ident::Vid;
use std::alloc::Global;

/// Binds what rows have, the first of them the latest.
fn bind_rows(scope: &mut Scope, rows: &[Row]) -> Result<(), NoMemory>
    requires { AllByRecursion IsStandard rows.now }
    ensures { IfOk result (λ _. scope.new ≡ map bound_at rows.now ++ scope.old) }
{
    let mut i = rows.len();
    while i > 0 {
        i -= 1;
        scope.bind(bound_of(rows[i]))?;
    }
    Ok(())
}

/// Whether a value identifier is one of these rows'.
fn has_value(rows: &[Row], vid: &Vid) -> bool
    ensures { result ≡ is_some (value_found (map bound_at rows.now) vid.now) }
{
    let mut found = false;
    for i in 0..rows.len() {
        found |= is_of(rows[i], vid);
    }
    found
}

/// The scope of the initial basis.
pub fn basis(alloc: Global) -> Result<Scope, NoMemory>
    ensures is { IfOk result (λ scope. scope ≡ initial_bounds) }
    ensures covers { IfOk result (λ scope. Covers scope initial_env) }
{
    let mut scope = Scope::new(alloc);
    bind_rows(&mut scope, &ROWS)?;
    Ok(scope)
}

/// Binds the structure `Prim`, which only the prelude sees.
pub fn with_prim(scope: &mut Scope) -> Result<(), NoMemory>
    ensures bound { IfOk result (λ _. scope.new ≡ Structure word_Prim Hidden ∷ scope.old) }
    ensures err { OnErr result (scope.new ≡ scope.old) }
{
    scope.bind(Bound::Structure(Name::standard(words::PRIM), Members::Hidden))
}

/// Binds what a structure has.
pub fn bind_members(scope: &mut Scope, members: Members) -> Result<(), NoMemory>
    ensures { IfOk result (λ _. scope.new ≡ member_entries members ++ scope.old) }
{
    match members {
        Members::Integers => bind_rows(scope, &INTEGERS),
        Members::Hidden => bind_rows(scope, &HIDDEN),
    }
}

/// Whether a structure has a value identifier.
pub fn has_member(members: Members, vid: Vid) -> bool
    ensures { result ≡ is_some (value_found (member_entries members) vid) }
{
    match members {
        Members::Integers => has_value(&INTEGERS, &vid),
        Members::Hidden => has_value(&HIDDEN, &vid),
    }
}
