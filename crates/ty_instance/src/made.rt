// Images that were made, and what they are made of.
ghost use Rattle.std.specs.Prelude.{◌≡◌, ◌<◌, ◌++◌, ◌∷◌, ℕ, List, [], Option, Some, nat_eq, length, map, slice_get, take, cond, IfOk, OnOk, OnErr, IsTrue, MatchOption, true, false};
ghost use Rattle.indexmap.specs.IndexMap.{get};
ghost use Rattle.ty_solve.specs.of_ty_core.Types.{Symbol, Typ, var, con};
ghost use Rattle.ty_solve.specs.of_ty_table.TypeAt.{type_at, types_at, top, with_parts, AllBelow};
ghost use Rattle.ty_instance.specs.Steps.{image_in, IsDone, Opens, visits, CanBuild};
ghost use Rattle.ty_instance.specs.declared.step.Step.TheVariants.{Build};

use crate::step::Step;
use indexmap::IndexMap;
use mlc_base::memory::NoMemory;
use std::alloc::Global;
use ty_solve::ty_table::types::{Types, View};

/// The image of a type, or the type itself where none was made.
pub fn image_of(made: &IndexMap<usize, usize>, k: usize) -> usize
    ensures { result ≡ image_in (get nat_eq made.now) k }
{
    match made.get(&k) {
        Some(r) => *r,
        None => k,
    }
}

/// Whether a type has no variable, or its image was made.
pub fn is_done(types: &Types, made: &IndexMap<usize, usize>, k: usize) -> bool
    ensures { result ≡ true → IsDone types.now (get nat_eq made.now) k }
{
    match made.get(&k) {
        Some(_) => true,
        None => types.top(k) == 0,
    }
}

/// Asks for the images of types.
fn visit_all(parts: &[usize], steps: &mut Vec<Step>) -> Result<(), NoMemory>
    ensures { IfOk result (λ _. steps.new.items ≡ steps.old.items ++ visits parts.now) }
{
    for part in parts {
        steps.push(Step::Visit(*part))?;
    }
    Ok(())
}

/// Asks for the images of a type's parts, and then for its own. A variable is handed out in their place.
pub fn open(types: &Types, k: usize, steps: &mut Vec<Step>) -> Result<Option<usize>, NoMemory>
    ensures { IfOk result (λ found. MatchOption found (Opens types.now k steps.old.items steps.new.items)
        (λ v. (type_at types.now k ≡ var v) × (steps.new.items ≡ steps.old.items))) }
{
    match types.view(k) {
        View::Var(v) => Ok(Some(v)),
        View::Apply(_, parts) => {
            steps.push(Step::Build(k))?;
            visit_all(parts, steps)?;
            Ok(None)
        }
    }
}

/// The images of types.
fn images_of(
    alloc: Global,
    made: &IndexMap<usize, usize>,
    parts: &[usize],
) -> Result<Vec<usize>, NoMemory>
    ensures { IfOk result (λ images. images.items ≡ map (image_in (get nat_eq made.now)) parts.now) }
{
    let mut images = Vec::new(alloc);
    for part in parts {
        images.push(image_of(made, *part))?;
    }
    Ok(images)
}

/// The images of a type's parts.
fn part_images(
    alloc: Global,
    types: &Types,
    made: &IndexMap<usize, usize>,
    k: usize,
) -> Result<Vec<usize>, NoMemory>
    ensures { IfOk result (λ images. (h : Symbol) (parts : List ℕ) → type_at types.now k ≡ con h (types_at types.now parts) → AllBelow (length types.now) parts
        → images.items ≡ map (image_in (get nat_eq made.now)) parts) }
{
    let _len = types.len();
    match types.view(k) {
        View::Var(_) => Ok(Vec::new(alloc)),
        View::Apply(_, parts) => images_of(alloc, made, parts),
    }
}

/// Makes a type of the images of another one's parts.
pub fn build(
    alloc: Global,
    types: &mut Types,
    made: &IndexMap<usize, usize>,
    k: usize,
) -> Result<usize, NoMemory>
    requires { CanBuild types.old (get nat_eq made.now) k }
    ensures is { IfOk result (λ r. (h : Symbol) (parts : List ℕ) → type_at types.old k ≡ con h (types_at types.old parts) → AllBelow (length types.old) parts
        → slice_get types.new r ≡ Some (con h (types_at types.old (map (image_in (get nat_eq made.now)) parts)))) }
    ensures earlier_stay { take (length types.old) types.new ≡ types.old }
{
    let images = part_images(alloc, types, made, k)?;
    types.with_parts(alloc, k, &images)
}
