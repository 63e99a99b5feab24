// Annotations whole: with a limit on the size of their types.
ghost use Rattle.std.specs.Prelude.{◌≡◌, ◌≤◌, ℕ, true, length, take, IfOk, IfErr};
ghost use Rattle.ty_core.specs.Types.{nodes};
ghost use Rattle.ty_table.specs.TypeAt.{type_at};
ghost use Rattle.sml_tree.specs.TreeOf.{ty_of};
ghost use Rattle.ty_instance.specs.of_ty_solve.Substitution.{is_below};
ghost use Rattle.elab_types.specs.Reading.{AreKnown, Holds};
ghost use Rattle.elab_types.specs.Annotations.{IsTypeOf};
ghost use Rattle.elab_types.specs.Whole.{annotation_limit, IsAnnotationRefused};

use crate::annotation::number_of;
use crate::refused::Refused;
use crate::scope::TypeScope;
use mlc_base::place::Place;
use sml_tree::tree::Ty;
use std::alloc::Global;
use ty_table::types::Types;

/// The nodes that a type may have.
const NODE_LIMIT: u64 = 65_536;

/// The number of the type that an annotation at a place stands for.
pub fn annotation(
    alloc: Global,
    types: &mut Types,
    scope: &TypeScope,
    place: Place,
    ty: &Ty,
) -> Result<usize, Refused>
    requires { Holds types.old scope.now }
    ensures is { IfOk result (λ r. IsTypeOf types.old types.new scope.now (ty_of ty.now) r) }
    ensures known { IfOk result (λ r. (n : ℕ) → AreKnown n types.old scope.now → is_below n (type_at types.new r) ≡ true) }
    ensures small { IfOk result (λ r. nodes (type_at types.new r) ≤ annotation_limit) }
    ensures refused { IfErr result (IsAnnotationRefused types.old scope.now (ty_of ty.now)) }
    ensures earlier_stay { take (length types.old) types.new ≡ types.old }
{
    let number = number_of(alloc, types, scope, ty)?;
    if types.size(number) > NODE_LIMIT {
        return Err(Refused::Large(place));
    }
    Ok(number)
}
