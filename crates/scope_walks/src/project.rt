// Projects, part by part.
ghost use Rattle.std.specs.Prelude.{◌≡◌, IfOk, IfSome, None, map};
ghost use Rattle.sml_tree.specs.TreeOf.{dec_of, decs_of};
ghost use Rattle.core_rules.specs.Initial.{prelude_env};
ghost use Rattle.core_rules.specs.Unbound.{unbound_in};
ghost use Rattle.name_scopes.specs.Covering.{Covers};
ghost use Rattle.name_scopes.specs.Placed.{At};
ghost use Rattle.name_scopes.specs.declared.sought.What.TheVariants.{Unbound};
ghost use Rattle.scope_walks.specs.Projects.{standard_env};

use crate::exps::in_decs;
use mlc_base::memory::NoMemory;
use mlc_base::place::Place;
use name_scopes::basis::{basis, with_prim};
use name_scopes::scope::Scope;
use name_scopes::sought::{Sought, What};
use sml_tree::tree::Dec;
use std::alloc::Global;

/// What is in scope behind the standard basis, with its prelude. None where something isn't bound in the prelude itself, at the place.
pub fn standard_scope(
    alloc: Global,
    place: Place,
    prelude: &[Dec],
) -> Result<Option<Scope>, NoMemory>
    ensures covers { IfOk result (λ found. IfSome found (λ scope. Covers scope (standard_env (decs_of (map dec_of prelude.now))))) }
    ensures none { IfOk result (λ found. found ≡ None
        → At (record { what = Unbound; place = place }) (unbound_in prelude_env (decs_of (map dec_of prelude.now)))) }
{
    let mut scope = basis(alloc)?;
    let from = scope.len();
    with_prim(&mut scope)?;
    let to = scope.len();
    let sought = Sought {
        what: What::Unbound,
        place,
    };
    if in_decs(alloc, &sought, prelude, &mut scope)? {
        return Ok(None);
    }
    scope.leave_between(alloc, from, to)?;
    Ok(Some(scope))
}
