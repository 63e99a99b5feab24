// Types, which are placed after their parts.
ghost use Rattle.std.specs.Prelude.{◌≡◌, ◌++◌, ◌∷◌, ℕ, [], List, Some, map, nat_eq, length, true, IfOk};
ghost use Rattle.indexmap.specs.IndexMap.{get};
ghost use Rattle.ty_core.specs.Types.{Symbol, con};
ghost use Rattle.ty_table.specs.TypeAt.{type_at, types_at, AllBelow};
ghost use Rattle.ir_mono.specs.Types.{Row, node};
ghost use Rattle.monomorphise.specs.Simple.{nth_part};
ghost use Rattle.monomorphise.specs.Table.{place, place_type};
ghost use Rattle.mono_place.specs.Placing.{AreRight, number_in, visits, Going, Moves};
ghost use Rattle.mono_place.specs.declared.step.Step.TheVariants.{Visit};

use crate::node::place_node;
use crate::step::Step;
use indexmap::IndexMap;
use mlc_base::memory::NoMemory;
use mono_types::types::Types;
use std::alloc::Global;
use ty_table::types::{Types as Sources, View};

/// The number of the type that a variable stands for.
fn slot(slots: &[usize], v: usize) -> usize
    ensures { result ≡ nth_part slots.now v }
{
    if v < slots.len() { slots[v] } else { 0 }
}

/// The number of a type that was placed.
fn number_of(known: &IndexMap<usize, usize>, k: usize) -> usize
    ensures { result ≡ number_in (get nat_eq known.now) k }
{
    match known.get(&k) {
        Some(n) => *n,
        None => 0,
    }
}

/// The numbers of types that were placed.
fn numbers_of(
    alloc: Global,
    known: &IndexMap<usize, usize>,
    parts: &[usize],
) -> Result<Vec<usize>, NoMemory>
    ensures { IfOk result (λ numbers. numbers.items ≡ map (number_in (get nat_eq known.now)) parts.now) }
{
    let mut numbers = Vec::new(alloc);
    for part in parts {
        numbers.push(number_of(known, *part))?;
    }
    Ok(numbers)
}

/// Asks for the numbers of types, of the first one first.
fn visit_all(parts: &[usize], steps: &mut Vec<Step>) -> Result<(), NoMemory>
    ensures { IfOk result (λ _. steps.new.items ≡ steps.old.items ++ visits parts.now) }
{
    let mut left = parts.len();
    while left > 0 {
        left -= 1;
        steps.push(Step::Visit(parts[left]))?;
    }
    Ok(())
}

/// Whether a type has its number.
fn is_known(known: &IndexMap<usize, usize>, k: usize) -> bool
    ensures { result ≡ true → (n : ℕ) × (get nat_eq known.now k ≡ Some n) }
{
    match known.get(&k) {
        Some(_) => true,
        None => false,
    }
}

/// Gives a variable its number, or asks for those of a type's parts.
fn visit(
    sources: &Sources,
    slots: &[usize],
    known: &mut IndexMap<usize, usize>,
    steps: &mut Vec<Step>,
    k: usize,
) -> Result<(), NoMemory>
    ensures { IfOk result (λ _. (first types : List Row) (goal : ℕ)
        → Going sources.now (nth_part slots.now) (get nat_eq known.old) first types (steps.old.items ++ Visit k ∷ []) goal
        → Moves sources.now (nth_part slots.now) (get nat_eq known.old) (get nat_eq known.new) first types types
        (steps.old.items ++ Visit k ∷ []) steps.new.items goal) }
{
    if is_known(known, k) {
        return Ok(());
    }
    match sources.view(k) {
        View::Var(v) => {
            known.insert(k, slot(slots, v))?;
            Ok(())
        }
        View::Apply(_, parts) => {
            steps.push(Step::Build(k))?;
            visit_all(parts, steps)?;
            Ok(())
        }
    }
}

/// Places a type whose parts have their numbers.
fn build(
    alloc: Global,
    sources: &Sources,
    known: &IndexMap<usize, usize>,
    types: &mut Types,
    k: usize,
) -> Result<usize, NoMemory>
    ensures { IfOk result (λ n. (h : Symbol) (parts : List ℕ) → type_at sources.now k ≡ con h (types_at sources.now parts) → AllBelow (length sources.now) parts
        → place types.old (node h (map (number_in (get nat_eq known.now)) parts)) ≡ (types.new, n)) }
{
    let _len = sources.len();
    match sources.view(k) {
        View::Var(_) => Ok(0),
        View::Apply(head, parts) => {
            let numbers = numbers_of(alloc, known, parts)?;
            let n = place_node(alloc, types, head, numbers)?;
            Ok(n)
        }
    }
}

/// The number of a type whose variables stand for `slots`; it is placed after its parts, each once. Numbers that were found are kept.
pub fn place_type(
    alloc: Global,
    sources: &Sources,
    slots: &[usize],
    known: &mut IndexMap<usize, usize>,
    types: &mut Types,
    k: usize,
) -> Result<usize, NoMemory>
    requires { AreRight sources.now (nth_part slots.now) (get nat_eq known.old) types.old }
    ensures is { IfOk result (λ n. place_type (nth_part slots.now) types.old (type_at sources.now k) ≡ (types.new, n)) }
    ensures right { IfOk result (λ _. AreRight sources.now (nth_part slots.now) (get nat_eq known.new) types.new) }
{
    let mut steps = Vec::new(alloc);
    steps.push(Step::Visit(k))?;
    while let Some(step) = steps.pop() {
        match step {
            Step::Visit(of) => {
                visit(sources, slots, known, &mut steps, of)?;
            }
            Step::Build(of) => {
                let n = build(alloc, sources, known, types, of)?;
                known.insert(of, n)?;
            }
        }
    }
    Ok(number_of(known, k))
}
