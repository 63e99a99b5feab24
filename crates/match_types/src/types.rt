// New numbers, and types over the parameters in scope.
ghost use Rattle.std.specs.Prelude.{◌≡◌, ◌<◌, ◌≤◌, ◌^◌, ◌-◌, suc, IfOk, length, slice_index_or, ℕ};
ghost use Rattle.ty_core.specs.Types.{var};
ghost use Rattle.ty_table.specs.TypeAt.{type_at, AllBelow};
ghost use Rattle.ir_known.specs.Knows.{marks_of};
ghost use Rattle.match_names.specs.of_match_compile.Compile.{standing};
ghost use Rattle.ir_poly.specs.Types.{unit_type, of_name};
ghost use Rattle.match_types.specs.Views.{Keeps, Stands, source_at, in_view, Binds};
ghost use Rattle.match_types.specs.declared.work.ValueType.TheVariants.{Source};

use crate::work::{ValueType, Work};
use ir_known::ask::BOOL;
use ir_known::walk::is_over;
use mlc_base::memory::NoMemory;
use plain_tree::tree::Binding;
use std::alloc::Global;
use ty_core::name::TyName;
use ty_core::ty::Head;
use ty_instance::instantiate::instantiate;

/// A new number.
pub fn fresh(work: &mut Work) -> Result<usize, NoMemory>
    ensures is { IfOk result (λ n. n ≡ work.old.next) }
    ensures next { IfOk result (λ _. work.new.next ≡ suc work.old.next) }
    ensures keeps { IfOk result (λ _. Keeps work.old work.new) }
{
    let number = work.next;
    if number == usize::MAX {
        return Err(NoMemory);
    }
    work.next = number + 1;
    Ok(number)
}

/// A variable of types.
fn variable(alloc: Global, work: &mut Work, v: usize) -> Result<usize, NoMemory>
    requires { v < 2 ^ 64 - 1 }
    ensures is { IfOk result (λ k. type_at work.new.tables.types k ≡ var v) }
    ensures held { IfOk result (λ k. k < length work.new.tables.types) }
    ensures next { IfOk result (λ _. work.new.next ≡ work.old.next) }
    ensures keeps { IfOk result (λ _. Keeps work.old work.new) }
{
    let k = work.tables.types.variable(alloc, v)?;
    Ok(k)
}

/// Unit.
fn unit(alloc: Global, work: &mut Work) -> Result<usize, NoMemory>
    ensures is { IfOk result (λ k. type_at work.new.tables.types k ≡ unit_type) }
    ensures held { IfOk result (λ k. k < length work.new.tables.types) }
    ensures next { IfOk result (λ _. work.new.next ≡ work.old.next) }
    ensures keeps { IfOk result (λ _. Keeps work.old work.new) }
{
    let k = work
        .tables
        .types
        .apply(alloc, Head::Record(Vec::new(alloc)), &[])?;
    Ok(k)
}

/// A type name without arguments.
fn named(alloc: Global, work: &mut Work, name: TyName) -> Result<usize, NoMemory>
    ensures is { IfOk result (λ k. type_at work.new.tables.types k ≡ of_name name) }
    ensures held { IfOk result (λ k. k < length work.new.tables.types) }
    ensures next { IfOk result (λ _. work.new.next ≡ work.old.next) }
    ensures keeps { IfOk result (λ _. Keeps work.old work.new) }
{
    let k = work.tables.types.apply(alloc, Head::Named(name), &[])?;
    Ok(k)
}

/// A type of the source: one of the first, and the variable 0 for all other numbers.
fn source_type(alloc: Global, work: &mut Work, t: usize) -> Result<usize, NoMemory>
    ensures is { IfOk result (λ k. Stands work.new k (source_at t)) }
    ensures held { IfOk result (λ k. k < length work.new.tables.types) }
    ensures next { IfOk result (λ _. work.new.next ≡ work.old.next) }
    ensures keeps { IfOk result (λ _. Keeps work.old work.new) }
{
    if t < work.first {
        return Ok(t);
    }
    let k = variable(alloc, work, 0)?;
    Ok(k)
}

/// What stands for a variable: itself where it is in scope, else unit.
fn standing_for(alloc: Global, work: &mut Work, v: usize) -> Result<usize, NoMemory>
    requires { v < 2 ^ 64 - 1 }
    ensures is { IfOk result (λ k. type_at work.new.tables.types k ≡ standing (marks_of work.old.scope) v) }
    ensures held { IfOk result (λ k. k < length work.new.tables.types) }
    ensures next { IfOk result (λ _. work.new.next ≡ work.old.next) }
    ensures keeps { IfOk result (λ _. Keeps work.old work.new) }
{
    match work.scope.get(v) {
        Some(_) => {
            let k = variable(alloc, work, v)?;
            Ok(k)
        }
        None => {
            let k = unit(alloc, work)?;
            Ok(k)
        }
    }
}

/// What stands for the first so many variables.
fn images(alloc: Global, work: &mut Work, count: usize) -> Result<Vec<usize>, NoMemory>
    ensures len { IfOk result (λ made. length made.items ≡ count) }
    ensures is { IfOk result (λ made. (v : ℕ) → v < count → type_at work.new.tables.types (slice_index_or made.items v 0) ≡ standing (marks_of work.old.scope) v) }
    ensures held { IfOk result (λ made. AllBelow (length work.new.tables.types) made.items) }
    ensures next { IfOk result (λ _. work.new.next ≡ work.old.next) }
    ensures keeps { IfOk result (λ _. Keeps work.old work.new) }
{
    let mut made = Vec::new(alloc);
    for v in 0..count {
        let k = standing_for(alloc, work, v)?;
        made.push(k)?;
    }
    Ok(made)
}

/// A type of the source over the parameters in scope: unit stands for other variables.
fn scoped_source(alloc: Global, work: &mut Work, t: usize) -> Result<usize, NoMemory>
    ensures is { IfOk result (λ k. Stands work.new k (in_view (Source t))) }
    ensures held { IfOk result (λ k. k < length work.new.tables.types) }
    ensures next { IfOk result (λ _. work.new.next ≡ work.old.next) }
    ensures keeps { IfOk result (λ _. Keeps work.old work.new) }
{
    let k = source_type(alloc, work, t)?;
    let over = is_over(alloc, &work.tables.types, &work.scope, k)?;
    if over {
        return Ok(k);
    }
    let count = work.tables.types.top(k);
    let images = images(alloc, work, count)?;
    let r = instantiate(alloc, &mut work.tables.types, k, &images)?;
    Ok(r)
}

/// A value's type over the parameters in scope.
pub fn scoped_type(alloc: Global, work: &mut Work, t: ValueType) -> Result<usize, NoMemory>
    ensures is { IfOk result (λ k. Stands work.new k (in_view t)) }
    ensures held { IfOk result (λ k. k < length work.new.tables.types) }
    ensures next { IfOk result (λ _. work.new.next ≡ work.old.next) }
    ensures keeps { IfOk result (λ _. Keeps work.old work.new) }
{
    match t {
        ValueType::Source(t) => {
            let k = scoped_source(alloc, work, t)?;
            Ok(k)
        }
        ValueType::Exception => {
            let k = named(alloc, work, TyName::EXN)?;
            Ok(k)
        }
        ValueType::Bool => {
            let k = named(alloc, work, BOOL)?;
            Ok(k)
        }
        ValueType::Unit => {
            let k = unit(alloc, work)?;
            Ok(k)
        }
    }
}

/// A binding of a new variable.
pub fn new_binding(alloc: Global, work: &mut Work, t: ValueType) -> Result<Binding, NoMemory>
    ensures binds { IfOk result (λ b. Binds work.new work.old.next t b) }
    ensures next { IfOk result (λ _. work.new.next ≡ suc work.old.next) }
    ensures keeps { IfOk result (λ _. Keeps work.old work.new) }
{
    let ty = scoped_type(alloc, work, t)?;
    let variable = fresh(work)?;
    Ok(Binding {
        variable,
        parameters: work.tables.parameters.len(),
        ty,
    })
}
