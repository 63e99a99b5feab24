// Types with closed types put for their variables, made after their parts.
ghost use Rattle.std.specs.Prelude.{◌≡◌, ◌++◌, ◌∷◌, ℕ, [], List, Some, map, nat_eq, length, take, slice_get, true, IfOk};
ghost use Rattle.indexmap.specs.IndexMap.{get};
ghost use Rattle.ty_core.specs.Types.{Symbol, Typ, con};
ghost use Rattle.ty_core.specs.TypesOf.{head_of};
ghost use Rattle.ty_core.specs.Statics.{replace};
ghost use Rattle.ty_table.specs.TypeAt.{type_at, types_at, AllBelow};
ghost use Rattle.mono_close.specs.Closing.{AreHeld, standing, AreRight, number_in, visits, CanBuild, Going, Moves, Opened};
ghost use Rattle.mono_close.specs.declared.step.Step.TheVariants.{Visit};

use crate::step::Step;
use indexmap::IndexMap;
use mlc_base::memory::NoMemory;
use scoped_map::scoped::Scoped;
use std::alloc::Global;
use ty_core::ty::{Head, copy_labels};
use ty_table::types::{Types, View};

/// The number of the type that a variable stands for: unit, where it has none.
fn slot(
    alloc: Global,
    slots: &Scoped<usize>,
    closed: &mut Types,
    v: usize,
) -> Result<usize, NoMemory>
    requires { AreHeld (length closed.old) slots.now }
    ensures is { IfOk result (λ n. slice_get closed.new n ≡ Some (standing closed.old slots.now v)) }
    ensures earlier_stay { take (length closed.old) closed.new ≡ closed.old }
{
    match slots.find(v) {
        Some(n) => Ok(n),
        None => {
            let unit = Head::Record(Vec::new(alloc));
            let n = closed.apply(alloc, unit, &[])?;
            Ok(n)
        }
    }
}

/// The number of a type that was made.
fn number_of(known: &IndexMap<usize, usize>, k: usize) -> usize
    ensures { result ≡ number_in (get nat_eq known.now) k }
{
    match known.get(&k) {
        Some(n) => *n,
        None => 0,
    }
}

/// The numbers of types that were made.
fn numbers_of(
    alloc: Global,
    known: &IndexMap<usize, usize>,
    parts: &[usize],
) -> Result<Vec<usize>, NoMemory>
    ensures { IfOk result (λ numbers. numbers.items ≡ map (number_in (get nat_eq known.now)) parts.now) }
{
    let mut numbers = Vec::new(alloc);
    for part in parts {
        numbers.push(number_of(known, *part))?;
    }
    Ok(numbers)
}

/// Asks for the numbers of types.
fn visit_all(parts: &[usize], steps: &mut Vec<Step>) -> Result<(), NoMemory>
    ensures { IfOk result (λ _. steps.new.items ≡ steps.old.items ++ visits parts.now) }
{
    for part in parts {
        steps.push(Step::Visit(*part))?;
    }
    Ok(())
}

/// Whether a type has its number.
fn is_known(known: &IndexMap<usize, usize>, k: usize) -> bool
    ensures { result ≡ true → (n : ℕ) × (get nat_eq known.now k ≡ Some n) }
{
    match known.get(&k) {
        Some(_) => true,
        None => false,
    }
}

/// A head in memory of its own.
fn copy_head(alloc: Global, head: &Head) -> Result<Head, NoMemory>
    ensures { IfOk result (λ copy. head_of copy ≡ head_of head.now) }
{
    match head {
        Head::Function => Ok(Head::Function),
        Head::Record(labels) => {
            let copy = copy_labels(alloc, labels)?;
            Ok(Head::Record(copy))
        }
        Head::Named(name) => Ok(Head::Named(*name)),
    }
}

/// Asks for the numbers of a type's parts, and then for its own. A variable is handed out in their place.
fn open(sources: &Types, k: usize, steps: &mut Vec<Step>) -> Result<Option<usize>, NoMemory>
    ensures { IfOk result (λ found. Opened sources.now k steps.old.items steps.new.items found) }
{
    match sources.view(k) {
        View::Var(v) => Ok(Some(v)),
        View::Apply(_, parts) => {
            steps.push(Step::Build(k))?;
            visit_all(parts, steps)?;
            Ok(None)
        }
    }
}

/// Gives a variable its number, or asks for those of a type's parts.
fn visit(
    alloc: Global,
    sources: &Types,
    slots: &Scoped<usize>,
    known: &mut IndexMap<usize, usize>,
    closed: &mut Types,
    steps: &mut Vec<Step>,
    k: usize,
) -> Result<(), NoMemory>
    requires { AreHeld (length closed.old) slots.now }
    ensures moves { IfOk result (λ _. (s : ℕ → Typ) (goal : ℕ) → ((v : ℕ) → s v ≡ standing closed.old slots.now v)
        → Going sources.now s (get nat_eq known.old) closed.old (steps.old.items ++ Visit k ∷ []) goal
        → Moves sources.now s (get nat_eq known.new) closed.new (steps.old.items ++ Visit k ∷ []) steps.new.items goal) }
    ensures earlier_stay { take (length closed.old) closed.new ≡ closed.old }
{
    if is_known(known, k) {
        return Ok(());
    }
    match open(sources, k, steps)? {
        None => Ok(()),
        Some(v) => {
            let n = slot(alloc, slots, closed, v)?;
            known.insert(k, n)?;
            Ok(())
        }
    }
}

/// Makes a type of its parts, which have their numbers.
fn build(
    alloc: Global,
    sources: &Types,
    known: &IndexMap<usize, usize>,
    closed: &mut Types,
    k: usize,
) -> Result<usize, NoMemory>
    requires { CanBuild sources.now (get nat_eq known.now) (length closed.old) k }
    ensures is { IfOk result (λ n. (h : Symbol) (parts : List ℕ) → type_at sources.now k ≡ con h (types_at sources.now parts)
        → AllBelow (length sources.now) parts
        → slice_get closed.new n ≡ Some (con h (types_at closed.old (map (number_in (get nat_eq known.now)) parts)))) }
    ensures earlier_stay { take (length closed.old) closed.new ≡ closed.old }
{
    let _len = sources.len();
    match sources.view(k) {
        View::Var(_) => Ok(0),
        View::Apply(head, parts) => {
            let numbers = numbers_of(alloc, known, parts)?;
            let copy = copy_head(alloc, head)?;
            let n = closed.apply(alloc, copy, &numbers)?;
            Ok(n)
        }
    }
}

/// A type of `sources` with closed types put for its variables, in the table of those, each node of it once. Numbers that were found are kept.
pub fn close_type(
    alloc: Global,
    sources: &Types,
    slots: &Scoped<usize>,
    known: &mut IndexMap<usize, usize>,
    closed: &mut Types,
    k: usize,
) -> Result<usize, NoMemory>
    requires held { AreHeld (length closed.old) slots.now }
    requires right { AreRight sources.now (standing closed.old slots.now) (get nat_eq known.old) closed.old }
    ensures is { IfOk result (λ n. slice_get closed.new n ≡ Some (replace (standing closed.old slots.now) (type_at sources.now k))) }
    ensures right { IfOk result (λ _. AreRight sources.now (standing closed.old slots.now) (get nat_eq known.new) closed.new) }
    ensures earlier_stay { take (length closed.old) closed.new ≡ closed.old }
{
    let _once = sources.len();
    let mut steps = Vec::new(alloc);
    steps.push(Step::Visit(k))?;
    while let Some(step) = steps.pop() {
        match step {
            Step::Visit(of) => {
                visit(alloc, sources, slots, known, closed, &mut steps, of)?;
            }
            Step::Build(of) => {
                let n = build(alloc, sources, known, closed, of)?;
                known.insert(of, n)?;
            }
        }
    }
    Ok(number_of(known, k))
}
