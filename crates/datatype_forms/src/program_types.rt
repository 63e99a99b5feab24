// Types of the solver's table in the program's table: each type name has its number in the program.
ghost use Rattle.std.specs.Prelude.{◌≡◌, ◌<◌, ◌++◌, ◌∷◌, ℕ, [], List, Some, map, nat_eq, nat_lt, length, take, slice_get, true, IfOk};
ghost use Rattle.indexmap.specs.IndexMap.{get};
ghost use Rattle.ty_core.specs.Types.{Symbol, Typ, con};
ghost use Rattle.ty_core.specs.TypesOf.{head_of};
ghost use Rattle.ty_table.specs.TypeAt.{type_at, types_at, AllBelow};
ghost use Rattle.core_rules.specs.Objects.{Over, SymbolOver};
ghost use Rattle.elab_typed.specs.Numbers.{name_as, symbol_as, type_as};
ghost use Rattle.datatype_forms.specs.ProgramTypes.{AreRight, IsBuilt, number_by, number_in, visits, CanBuild, Going, Moves, Opened};
ghost use Rattle.datatype_forms.specs.declared.step.Step.TheVariants.{Visit};

use crate::step::Step;
use elab_types::refused::Refused;
use indexmap::IndexMap;
use mlc_base::memory::NoMemory;
use mlc_base::place::Place;
use scoped_map::scoped::Scoped;
use std::alloc::Global;
use ty_core::name::TyName;
use ty_core::ty::{Head, copy_labels};
use ty_table::types::{Types, View};

/// The program's numbers of type names, how many names are in use, and where a type stands that may have others.
#[derive(Drop)]
pub struct Names<'a> {
    pub numbers: &'a Scoped<u32>,
    pub limit: usize,
    pub place: Place,
}

/// The number of a type that was made.
fn number_of(known: &IndexMap<usize, usize>, k: usize) -> usize
    ensures { result ≡ number_in (get nat_eq known.now) k }
{
    match known.get(&k) {
        Some(n) => *n,
        None => 0,
    }
}

/// The numbers of types that were made.
fn numbers_of(
    alloc: Global,
    known: &IndexMap<usize, usize>,
    parts: &[usize],
) -> Result<Vec<usize>, NoMemory>
    ensures { IfOk result (λ numbers. numbers.items ≡ map (number_in (get nat_eq known.now)) parts.now) }
{
    let mut numbers = Vec::new(alloc);
    for part in parts {
        numbers.push(number_of(known, *part))?;
    }
    Ok(numbers)
}

/// Asks for the numbers of types.
fn visit_all(parts: &[usize], steps: &mut Vec<Step>) -> Result<(), NoMemory>
    ensures { IfOk result (λ _. steps.new.items ≡ steps.old.items ++ visits parts.now) }
{
    for part in parts {
        steps.push(Step::Visit(*part))?;
    }
    Ok(())
}

/// Whether a type has its number.
fn is_known(known: &IndexMap<usize, usize>, k: usize) -> bool
    ensures { result ≡ true → (n : ℕ) × (get nat_eq known.now k ≡ Some n) }
{
    match known.get(&k) {
        Some(_) => true,
        None => false,
    }
}

/// A type name with its number in the program, where it is in use.
fn name_of(names: &Names<'_>, name: TyName) -> Result<TyName, Refused>
    ensures is { IfOk result (λ y. y ≡ name_as (number_by names.now.numbers.now) name) }
    ensures over { IfOk result (λ _. nat_lt name.stamp names.now.limit ≡ true) }
{
    if name.stamp as usize >= names.limit {
        return Err(Refused::Mistyped(names.place));
    }
    match names.numbers.find(name.stamp as usize) {
        Some(number) => Ok(TyName {
            stamp: number,
            arity: name.arity,
            equality: name.equality,
        }),
        None => Ok(name),
    }
}

/// A head with the program's number of its name, where that is in use.
fn head_as(alloc: Global, names: &Names<'_>, head: &Head) -> Result<Head, Refused>
    ensures is { IfOk result (λ copy. head_of copy ≡ symbol_as (number_by names.now.numbers.now) (head_of head.now)) }
    ensures over { IfOk result (λ _. SymbolOver names.now.limit (head_of head.now)) }
{
    match head {
        Head::Function => Ok(Head::Function),
        Head::Record(labels) => {
            let copy = copy_labels(alloc, labels)?;
            Ok(Head::Record(copy))
        }
        Head::Named(name) => {
            let name = name_of(names, *name)?;
            Ok(Head::Named(name))
        }
    }
}

/// Asks for the numbers of a type's parts, and then for its own. A variable is handed out in their place.
fn open(types: &Types, k: usize, steps: &mut Vec<Step>) -> Result<Option<usize>, NoMemory>
    ensures { IfOk result (λ found. Opened types.now k steps.old.items steps.new.items found) }
{
    match types.view(k) {
        View::Var(v) => Ok(Some(v)),
        View::Apply(_, parts) => {
            steps.push(Step::Build(k))?;
            visit_all(parts, steps)?;
            Ok(None)
        }
    }
}

/// Gives a variable its number, or asks for those of a type's parts.
fn visit(
    alloc: Global,
    types: &Types,
    known: &mut IndexMap<usize, usize>,
    program: &mut Types,
    steps: &mut Vec<Step>,
    k: usize,
) -> Result<(), NoMemory>
    ensures moves { IfOk result (λ _. (f : ℕ → ℕ) (limit goal : ℕ)
        → Going types.now f limit (get nat_eq known.old) program.old (steps.old.items ++ Visit k ∷ []) goal
        → Moves types.now f limit (get nat_eq known.new) program.new (steps.old.items ++ Visit k ∷ []) steps.new.items goal) }
    ensures earlier_stay { take (length program.old) program.new ≡ program.old }
{
    if is_known(known, k) {
        return Ok(());
    }
    match open(types, k, steps)? {
        None => Ok(()),
        Some(v) => {
            let _top = types.top(k);
            let n = program.variable(alloc, v)?;
            known.insert(k, n)?;
            Ok(())
        }
    }
}

/// Makes a type of its parts, which have their numbers.
fn build(
    alloc: Global,
    types: &Types,
    names: &Names<'_>,
    known: &IndexMap<usize, usize>,
    program: &mut Types,
    k: usize,
) -> Result<usize, Refused>
    requires { CanBuild types.now (get nat_eq known.now) (length program.old) k }
    ensures is { IfOk result (λ n. (h : Symbol) (parts : List ℕ) → type_at types.now k ≡ con h (types_at types.now parts)
        → AllBelow (length types.now) parts
        → IsBuilt (number_by names.now.numbers.now) names.now.limit program.new n h (types_at program.old (map (number_in (get nat_eq known.now)) parts))) }
    ensures earlier_stay { take (length program.old) program.new ≡ program.old }
{
    let _len = types.len();
    match types.view(k) {
        View::Var(_) => Ok(0),
        View::Apply(head, parts) => {
            let numbers = numbers_of(alloc, known, parts)?;
            let copy = head_as(alloc, names, head)?;
            let n = program.apply(alloc, copy, &numbers)?;
            Ok(n)
        }
    }
}

/// The number in the program's table of a type of the solver's, each node of it once. Numbers that were found are kept. No type name may be in it but those
/// in use.
pub fn program_type(
    alloc: Global,
    types: &Types,
    names: &Names<'_>,
    known: &mut IndexMap<usize, usize>,
    program: &mut Types,
    k: usize,
) -> Result<usize, Refused>
    requires { AreRight types.now (number_by names.now.numbers.now) names.now.limit (get nat_eq known.old) program.old }
    ensures is { IfOk result (λ n. slice_get program.new n ≡ Some (type_as (number_by names.now.numbers.now) (type_at types.now k))) }
    ensures over { IfOk result (λ _. Over names.now.limit (type_at types.now k)) }
    ensures right { IfOk result (λ _. AreRight types.now (number_by names.now.numbers.now) names.now.limit (get nat_eq known.new) program.new) }
    ensures earlier_stay { take (length program.old) program.new ≡ program.old }
{
    let _once = types.len();
    let mut steps = Vec::new(alloc);
    steps.push(Step::Visit(k))?;
    while let Some(step) = steps.pop() {
        match step {
            Step::Visit(of) => {
                visit(alloc, types, known, program, &mut steps, of)?;
            }
            Step::Build(of) => {
                let n = build(alloc, types, names, known, program, of)?;
                known.insert(of, n)?;
            }
        }
    }
    Ok(number_of(known, k))
}
