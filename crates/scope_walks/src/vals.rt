// What a `val` binds: behind its own expressions, and in those behind `rec`.
ghost use Rattle.std.specs.Prelude.{◌≡◌, filter, length, map, IfOk};
ghost use Rattle.sml_tree.specs.TreeOf.{bind_of, binds_of};
ghost use Rattle.core_rules.specs.Unbound.{rec_names};
ghost use Rattle.core_rules.specs.Values.{Env};
ghost use Rattle.name_scopes.specs.Covering.{is_written, Covers};
ghost use Rattle.name_scopes.specs.Patterns.{binds_vids};
ghost use Rattle.name_scopes.specs.Placed.{Brought};
ghost use Rattle.scope_walks.specs.Closing.{Closes};

use mlc_base::memory::NoMemory;
use name_scopes::scope::Scope;
use name_scopes::vids::{bind_recs, bind_vids, push_binds};
use sml_tree::ident::Vid;
use sml_tree::tree::Bind;
use std::alloc::Global;

/// A `val` of which what is behind `rec` is in scope: what its other bindings bind, and how much was in scope before.
#[derive(Drop)]
pub struct OpenVal {
    pub vids: Vec<Vid>,
    pub before: usize,
}

/// Brings what is behind `rec` into scope, for its own expressions.
pub fn open_val(
    alloc: Global,
    binds: &[Bind],
    recs: &[Bind],
    scope: &mut Scope,
) -> Result<OpenVal, NoMemory>
    ensures before { IfOk result (λ opened. opened.before ≡ length scope.old) }
    ensures vids { IfOk result (λ opened. (e : Env) → Covers scope.old e
        → opened.vids.items ≡ filter is_written (binds_vids e (binds_of (map bind_of binds.now)))) }
    ensures brought { IfOk result (λ _. Brought scope.old scope.new (λ _. rec_names (binds_of (map bind_of recs.now)))) }
{
    let mut vids = Vec::new(alloc);
    push_binds(binds, scope, &mut vids)?;
    let before = scope.len();
    bind_recs(alloc, recs, scope)?;
    Ok(OpenVal { vids, before })
}

/// Brings all that the `val` binds into scope.
pub fn close_val(
    alloc: Global,
    opened: &OpenVal,
    recs: &[Bind],
    scope: &mut Scope,
) -> Result<(), NoMemory>
    ensures { IfOk result (λ _. Closes scope.old scope.new opened.now.vids.items opened.now.before (binds_of (map bind_of recs.now))) }
{
    scope.leave(opened.before);
    bind_vids(&opened.vids, scope)?;
    bind_recs(alloc, recs, scope)
}
