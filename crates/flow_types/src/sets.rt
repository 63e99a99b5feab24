// The sets, and the number of each variable's set.
ghost use Rattle.std.specs.Prelude.{◌≡◌, ℕ, map, length, [], IfOk};
ghost use Rattle.ty_core.specs.TypesOf.{head_of};
ghost use Rattle.ir_mono.specs.Types.{node, node_at};
ghost use Rattle.flow_sets.specs.ByType.{takes};
ghost use Rattle.flow_types.specs.Kinds.{items_of, pushed, empty_sets, with_kind, sets_in, takes_of, number_in};

use mlc_base::memory::NoMemory;
use mono_bound::bound::What;
use mono_types::types::{Types, View};
use std::alloc::Global;
use ty_core::ty::Head;

/// So many empty sets.
fn none_yet(alloc: Global, count: usize) -> Result<Vec<Vec<usize>>, NoMemory>
    ensures { IfOk result (λ sets. items_of sets.items ≡ empty_sets count) }
{
    let mut sets = Vec::new(alloc);
    while sets.len() < count {
        sets.push(Vec::new(alloc))?;
    }
    Ok(sets)
}

/// One more in a set, if there is a set of that number.
fn push_to(sets: &mut Vec<Vec<usize>>, number: usize, function: usize) -> Result<(), NoMemory>
    ensures { IfOk result (λ _. items_of sets.new.items ≡ pushed number function (items_of sets.old.items)) }
{
    if number < sets.len() {
        let set = &mut sets[number];
        set.push(function)?;
    }
    Ok(())
}

/// A function, if the variable is its parameter, in the set of its type.
fn push_function(
    sets: &mut Vec<Vec<usize>>,
    kind: Option<What>,
    variable: usize,
) -> Result<(), NoMemory>
    ensures { IfOk result (λ _. items_of sets.new.items ≡ with_kind kind variable (items_of sets.old.items)) }
{
    match kind {
        Some(What::Parameter(function)) => push_to(sets, function, variable),
        Some(What::Value(_)) => Ok(()),
        Some(What::Name) => Ok(()),
        None => Ok(()),
    }
}

/// All functions of each type, in rising order.
pub fn sets_of(
    alloc: Global,
    count: usize,
    kinds: &[Option<What>],
) -> Result<Vec<Vec<usize>>, NoMemory>
    ensures { IfOk result (λ sets. items_of sets.items ≡ sets_in 0 kinds.now (empty_sets count)) }
{
    let mut sets = none_yet(alloc, count)?;
    for i in 0..kinds.len() {
        push_function(&mut sets, kinds[i], i)?;
    }
    Ok(sets)
}

/// What a function takes, whose parts these are; nothing where it is none.
fn taken_by(head: &Head, parts: &[usize], nothing: usize) -> usize
    ensures { result ≡ takes_of nothing (node (head_of head.now) parts.now) }
{
    match head {
        Head::Function => if parts.len() == 2 { parts[0] } else { nothing },
        Head::Named(_) => nothing,
        Head::Record(_) => nothing,
    }
}

/// What functions of a type take; the number of no type where it has none.
fn taken_at(types: &Types, ty: usize) -> usize
    ensures { result ≡ takes types.now (node_at types.now ty) }
{
    match types.view(ty) {
        View::Nothing => types.len(),
        View::Apply(head, parts) => taken_by(head, parts, types.len()),
    }
}

/// The number of a variable's set: its type's.
fn number_of(types: &Types, kind: Option<What>) -> usize
    ensures { result ≡ number_in types.now kind }
{
    match kind {
        Some(What::Value(ty)) => ty,
        Some(What::Parameter(function)) => taken_at(types, function),
        Some(What::Name) => types.len(),
        None => types.len(),
    }
}

/// The number of each variable's set.
pub fn numbers_of(
    alloc: Global,
    types: &Types,
    kinds: &[Option<What>],
) -> Result<Vec<usize>, NoMemory>
    ensures { IfOk result (λ numbers. numbers.items ≡ map (number_in types.now) kinds.now) }
{
    let mut numbers = Vec::new(alloc);
    for i in 0..kinds.len() {
        numbers.push(number_of(types, kinds[i]))?;
    }
    Ok(numbers)
}
