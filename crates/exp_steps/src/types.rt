// Types over the parameters in scope.
ghost use Rattle.std.specs.Prelude.{◌≡◌, IfOk, length, map};
ghost use Rattle.ty_core.specs.Types.{con, name as symbol, typs_of};
ghost use Rattle.ty_table.specs.TypeAt.{type_at, AllBelow};
ghost use Rattle.match_compile.specs.Compile.{all_scoped, scoped, used_at};
ghost use Rattle.match_steps.specs.of_match_types.Views.{View, Sees, Keeps, Stands};

use match_steps::match_types::types::scoped_type;
use match_steps::match_types::work::{ValueType, Work};
use mlc_base::memory::NoMemory;
use std::alloc::Global;
use ty_core::name::TyName;
use ty_core::ty::Head;

/// Types of the source over the parameters in scope.
pub fn scoped_types(alloc: Global, work: &mut Work, types: &[usize]) -> Result<Vec<usize>, NoMemory>
    ensures is { IfOk result (λ made. (v : View) → Sees work.new v → map (type_at v.types) made.items ≡ all_scoped v.scope (map v.source.type types.now)) }
    ensures held { IfOk result (λ made. AllBelow (length work.new.tables.types) made.items) }
    ensures next { IfOk result (λ _. work.new.next ≡ work.old.next) }
    ensures keeps { IfOk result (λ _. Keeps work.old work.new) }
{
    let mut made = Vec::new(alloc);
    for i in 0..types.len() {
        let k = scoped_type(alloc, work, ValueType::Source(types[i]))?;
        made.push(k)?;
    }
    Ok(made)
}

/// A type name applied to types of the source, over the parameters in scope.
pub fn named_type(
    alloc: Global,
    work: &mut Work,
    name: TyName,
    types: &[usize],
) -> Result<usize, NoMemory>
    ensures is { IfOk result (λ k. Stands work.new k (λ v. scoped v.scope (con (symbol name) (typs_of (map v.source.type types.now))))) }
    ensures next { IfOk result (λ _. work.new.next ≡ work.old.next) }
    ensures keeps { IfOk result (λ _. Keeps work.old work.new) }
{
    let parts = scoped_types(alloc, work, types)?;
    let k = work.tables.types.apply(alloc, Head::Named(name), &parts)?;
    Ok(k)
}

/// The type that a primitive is used at: the first of these, or unit.
pub fn primitive_type(alloc: Global, work: &mut Work, types: &[usize]) -> Result<usize, NoMemory>
    ensures is { IfOk result (λ k. Stands work.new k (λ v. scoped v.scope (used_at (map v.source.type types.now)))) }
    ensures next { IfOk result (λ _. work.new.next ≡ work.old.next) }
    ensures keeps { IfOk result (λ _. Keeps work.old work.new) }
{
    if types.is_empty() {
        let k = scoped_type(alloc, work, ValueType::Unit)?;
        Ok(k)
    } else {
        let k = scoped_type(alloc, work, ValueType::Source(types[0]))?;
        Ok(k)
    }
}
