// The type variables that occur in a type.
ghost use Rattle.std.specs.Prelude.{◌≡◌, ◌++◌, IfOk};
ghost use Rattle.core_rules.specs.Scoping.{tyvars_in};
ghost use Rattle.sml_tree.specs.Phrases.{has_scope, in_ty};
ghost use Rattle.sml_tree.specs.TreeOf.{ty_of};

use mlc_base::memory::NoMemory;
use scoped_tyvars::tys::of_ty;
use sml_tree::ident::Tyvar;
use sml_tree::tree::Ty;

/// Those of a type, as often as they occur.
pub fn tyvars_of_ty(ty: &Ty, found: &mut Vec<Tyvar>) -> Result<(), NoMemory>
    ensures { IfOk result (λ _. found.new.items ≡ found.old.items ++ tyvars_in (in_ty has_scope (ty_of ty.now))) }
{
    of_ty(ty, found)
}
