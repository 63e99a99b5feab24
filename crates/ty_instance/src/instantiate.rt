// Bodies of schemes and type functions with types put for their parameters.
ghost use Rattle.std.specs.Prelude.{◌≡◌, ◌<◌, ◌++◌, ◌∷◌, ◌^◌, ◌-◌, ℕ, [], Some, nat_eq, length, slice_get, take, IfOk};
ghost use Rattle.indexmap.specs.IndexMap.{get};
ghost use Rattle.ty_solve.specs.of_ty_core.Types.{Typ};
ghost use Rattle.ty_solve.specs.of_ty_core.Statics.{replace};
ghost use Rattle.ty_solve.specs.of_ty_table.TypeAt.{type_at, AllBelow};
ghost use Rattle.ty_instance.specs.Images.{image_at, nothing};
ghost use Rattle.ty_instance.specs.Steps.{Going, Moves};
ghost use Rattle.ty_instance.specs.declared.step.Step.TheVariants.{Visit};

use crate::made::{build, image_of, is_done, open};
use crate::step::Step;
use indexmap::IndexMap;
use mlc_base::memory::NoMemory;
use std::alloc::Global;
use ty_solve::ty_table::types::Types;

/// What a variable of the body becomes.
fn variable_image(
    alloc: Global,
    types: &mut Types,
    v: usize,
    images: &[usize],
) -> Result<usize, NoMemory>
    requires some { 0 < length images.now }
    requires held { AllBelow (length types.old) images.now }
    ensures is { IfOk result (λ r. slice_get types.new r ≡ Some (image_at types.old images.now v)) }
    ensures earlier_stay { take (length types.old) types.new ≡ types.old }
{
    if v < images.len() {
        Ok(images[v])
    } else {
        types.variable(alloc, v - images.len())
    }
}

/// Makes the image of a variable, or asks for those of the parts of another type.
fn visit(
    alloc: Global,
    types: &mut Types,
    images: &[usize],
    k: usize,
    made: &mut IndexMap<usize, usize>,
    steps: &mut Vec<Step>,
) -> Result<(), NoMemory>
    requires some { 0 < length images.now }
    requires held { AllBelow (length types.old) images.now }
    ensures moves { IfOk result (λ _. (f : ℕ → Typ) (goal : ℕ) → ((v : ℕ) → f v ≡ image_at types.old images.now v)
        → Going types.old nothing f (get nat_eq made.old) (steps.old.items ++ Visit k ∷ []) goal
        → Moves types.old types.new nothing f (λ v. 0) (get nat_eq made.old) (get nat_eq made.new) (steps.old.items ++ Visit k ∷ []) steps.new.items goal) }
    ensures earlier_stay { take (length types.old) types.new ≡ types.old }
{
    if is_done(types, made, k) {
        return Ok(());
    }
    match open(types, k, steps)? {
        None => Ok(()),
        Some(v) => {
            let r = variable_image(alloc, types, v, images)?;
            made.insert(k, r)?;
            Ok(())
        }
    }
}

/// The body of a scheme with the types `images` put for its parameters, each node of it once.
pub fn instantiate(
    alloc: Global,
    types: &mut Types,
    body: usize,
    images: &[usize],
) -> Result<usize, NoMemory>
    requires body { body < length types.old }
    requires images { AllBelow (length types.old) images.now }
    ensures is { IfOk result (λ r. slice_get types.new r ≡ Some (replace (image_at types.old images.now) (type_at types.old body))) }
    ensures earlier_stay { take (length types.old) types.new ≡ types.old }
{
    if images.is_empty() {
        return Ok(body);
    }
    let mut made: IndexMap<usize, usize> = IndexMap::new(alloc);
    let mut steps = Vec::new(alloc);
    steps.push(Step::Visit(body))?;
    while let Some(step) = steps.pop() {
        match step {
            Step::Visit(k) => visit(alloc, types, images, k, &mut made, &mut steps)?,
            Step::Build(k) => {
                let r = build(alloc, types, &made, k)?;
                made.insert(k, r)?;
            }
            Step::Same(k, u) => {
                let r = image_of(&made, u);
                made.insert(k, r)?;
            }
        }
    }
    Ok(image_of(&made, body))
}
