// The types that type expressions stand for.
ghost use Rattle.std.specs.Prelude.{◌≡◌, ◌<◌, ◌≤◌, length, map, nat_eq, slice_get, take, IfOk, IfErr, Some, None};
ghost use Rattle.std.specs.Map.{lookup};
ghost use Rattle.ty_core.specs.Types.{nodes};
ghost use Rattle.ty_table.specs.TypeAt.{type_at, AllBelow};
ghost use Rattle.sml_tree.specs.TreeOf.{ty_of, ty_field_of, ty_part_of};
ghost use Rattle.core_rules.specs.Elaborated.{type_of};
ghost use Rattle.elab_types.specs.Reading.{Holds};
ghost use Rattle.elab_types.specs.Building.{labels_of, parts_of};
ghost use Rattle.elab_types.specs.Annotations.{applied_at, each_type, labels_at, tys_at, types_behind, AreTypesOf, IsTypeOf, IsRefusal};

use crate::build::{function_types, number_parts, record_type};
use crate::refused::Refused;
use crate::scope::TypeScope;
use label_rows::sort::Field;
use mlc_base::place::Place;
use sml_tree::ident::{LongId, Tyvar};
use sml_tree::tree::{Ty, TyField, TyPart};
use std::alloc::Global;
use ty_instance::instantiate::instantiate;
use ty_table::types::Types;

/// What a type variable stands for.
fn variable_at(scope: &TypeScope, place: Place, tyvar: Tyvar) -> Result<usize, Refused>
    ensures is { IfOk result (λ k. lookup (nat_eq tyvar.name) scope.now.tyvars ≡ Some k) }
    ensures refused { IfErr result (λ e. (e ≡ Refused.Broken place) × (lookup (nat_eq tyvar.name) scope.now.tyvars ≡ None)) }
{
    match scope.tyvars.find(tyvar.name.number() as usize) {
        Some(number) => Ok(number),
        None => Err(Refused::Broken(place)),
    }
}

/// What a type constructor makes of its arguments.
fn instance_at(
    alloc: Global,
    types: &mut Types,
    scope: &TypeScope,
    place: Place,
    name: &LongId,
    arguments: &[usize],
) -> Result<usize, Refused>
    requires held { Holds types.old scope.now }
    requires arguments { AllBelow (length types.old) arguments.now }
    ensures is { IfOk result (λ r. applied_at types.old scope.now name.now.qualifiers.items name.now.id arguments.now ≡ Some (type_at types.new r)) }
    ensures held { IfOk result (λ r. r < length types.new) }
    ensures refused { IfErr result (IsRefusal types.old scope.now (λ _. applied_at types.old scope.now name.now.qualifiers.items name.now.id arguments.now)) }
    ensures earlier_stay { take (length types.old) types.new ≡ types.old }
{
    let Some(entry) = scope.find(name) else {
        return Err(Refused::Unbound(place));
    };
    if arguments.len() != entry.arity {
        return Err(Refused::Mistyped(place));
    }
    Ok(instantiate(alloc, types, entry.body, arguments)?)
}

/// The numbers of several types.
#[cycle(types)]
fn numbers_of(
    alloc: Global,
    types: &mut Types,
    scope: &TypeScope,
    tys: &[Ty],
) -> Result<Vec<usize>, Refused>
    requires { Holds types.old scope.now }
    ensures are { IfOk result (λ ks. AreTypesOf types.old types.new scope.now (map ty_of tys.now) ks.items) }
    ensures refused { IfErr result (IsRefusal types.old scope.now (λ c. each_type c (map ty_of tys.now))) }
    ensures earlier_stay { take (length types.old) types.new ≡ types.old }
{
    let mut numbers = Vec::new(alloc);
    for i in 0..tys.len() {
        let number = number_of(alloc, types, scope, &tys[i])?;
        numbers.push(number)?;
    }
    Ok(numbers)
}

/// The fields of a record type, each with the number of its type.
#[cycle(types)]
fn fields_of(
    alloc: Global,
    types: &mut Types,
    scope: &TypeScope,
    fields: &[TyField],
) -> Result<Vec<Field>, Refused>
    requires { Holds types.old scope.now }
    ensures labels { IfOk result (λ fs. labels_of fs.items ≡ labels_at fields.now) }
    ensures are { IfOk result (λ fs. AreTypesOf types.old types.new scope.now (tys_at fields.now) (parts_of fs.items)) }
    ensures refused { IfErr result (IsRefusal types.old scope.now (λ c. each_type c (tys_at fields.now))) }
    ensures earlier_stay { take (length types.old) types.new ≡ types.old }
{
    let mut made = Vec::new(alloc);
    for i in 0..fields.len() {
        let part = number_of(alloc, types, scope, &fields[i].ty)?;
        let label = fields[i].label;
        made.push(Field { label, part })?;
    }
    Ok(made)
}

/// The numbers of the types behind arrows.
#[cycle(types)]
fn results_of(
    alloc: Global,
    types: &mut Types,
    scope: &TypeScope,
    parts: &[TyPart],
) -> Result<Vec<usize>, Refused>
    requires { Holds types.old scope.now }
    ensures are { IfOk result (λ ks. AreTypesOf types.old types.new scope.now (types_behind parts.now) ks.items) }
    ensures refused { IfErr result (IsRefusal types.old scope.now (λ c. each_type c (types_behind parts.now))) }
    ensures earlier_stay { take (length types.old) types.new ≡ types.old }
{
    let mut numbers = Vec::new(alloc);
    for i in 0..parts.len() {
        let number = number_of(alloc, types, scope, &parts[i].ty)?;
        numbers.push(number)?;
    }
    Ok(numbers)
}

/// The number of the type that a type expression stands for.
#[cycle(types)]
#[tactic(auto, using(crate::proofs::Keeping::holds_later))]
pub fn number_of(
    alloc: Global,
    types: &mut Types,
    scope: &TypeScope,
    ty: &Ty,
) -> Result<usize, Refused>
    requires { Holds types.old scope.now }
    ensures is { IfOk result (λ r. IsTypeOf types.old types.new scope.now (ty_of ty.now) r) }
    ensures refused { IfErr result (IsRefusal types.old scope.now (λ c. type_of c (ty_of ty.now))) }
    ensures earlier_stay { take (length types.old) types.new ≡ types.old }
{
    match ty {
        Ty::Var(place, tyvar) => Ok(variable_at(scope, *place, *tyvar)?),
        Ty::Record(_, fields) => {
            let fields = fields_of(alloc, types, scope, fields)?;
            Ok(record_type(alloc, types, &fields)?)
        }
        Ty::Con(_, arguments, place, name) => {
            let arguments = numbers_of(alloc, types, scope, arguments)?;
            Ok(instance_at(alloc, types, scope, *place, name, &arguments)?)
        }
        Ty::Product(_, parts) => {
            let parts = numbers_of(alloc, types, scope, parts)?;
            let fields = number_parts(alloc, &parts)?;
            Ok(record_type(alloc, types, &fields)?)
        }
        Ty::Arrow(_, first, parts) => {
            let first = number_of(alloc, types, scope, first)?;
            let rest = results_of(alloc, types, scope, parts)?;
            Ok(function_types(alloc, types, first, &rest)?)
        }
    }
}
