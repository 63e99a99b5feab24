// Types with other types put for some of their variables.
ghost use Rattle.std.specs.Prelude.{◌≡◌, ◌<◌, ◌++◌, ◌∷◌, ℕ, [], Some, None, nat_eq, length, map, slice_get, take, unwrap_or, if◌then◌else◌, IfOk};
ghost use Rattle.std.specs.Option.{option_or};
ghost use Rattle.indexmap.specs.IndexMap.{get};
ghost use Rattle.ty_solve.specs.of_ty_core.Types.{Typ};
ghost use Rattle.ty_solve.specs.of_ty_core.Statics.{replace};
ghost use Rattle.ty_solve.specs.of_ty_table.TypeAt.{type_at, AllBelow};
ghost use Rattle.ty_solve.specs.SlotsOf.{seen};
ghost use Rattle.ty_instance.specs.Images.{nothing};
ghost use Rattle.ty_instance.specs.Put.{first_at, put_at, put_for, AreHeld};
ghost use Rattle.ty_instance.specs.Steps.{Going, Moves};
ghost use Rattle.ty_instance.specs.declared.step.Step.TheVariants.{Visit};

use crate::made::{build, image_of, is_done, open};
use crate::step::Step;
use indexmap::IndexMap;
use mlc_base::memory::NoMemory;
use std::alloc::Global;
use ty_solve::subst::Subst;
use ty_solve::ty_table::types::Types;

/// Notes the image of a variable, unless it has one.
fn note(found: &mut IndexMap<usize, usize>, v: usize, image: usize) -> Result<(), NoMemory>
    ensures { IfOk result (λ _. (x : ℕ) → get nat_eq found.new x ≡ option_or (get nat_eq found.old x) (if nat_eq v x then Some image else None)) }
{
    match found.get(&v) {
        Some(_) => Ok(()),
        None => {
            found.insert(v, image)?;
            Ok(())
        }
    }
}

/// The images of variables, each the first that is given for it.
fn images_for(
    alloc: Global,
    parameters: &[usize],
    images: &[usize],
) -> Result<IndexMap<usize, usize>, NoMemory>
    requires { length images.now ≡ length parameters.now }
    ensures { IfOk result (λ found. (v : ℕ) → get nat_eq found v ≡ first_at parameters.now images.now v) }
{
    let mut found: IndexMap<usize, usize> = IndexMap::new(alloc);
    for i in 0..parameters.len() {
        note(&mut found, parameters[i], images[i])?;
    }
    Ok(found)
}

/// The image of a variable, or else the type that it is.
fn image_or(images: &IndexMap<usize, usize>, v: usize, k: usize) -> usize
    ensures { result ≡ unwrap_or (get nat_eq images.now v) k }
{
    match images.get(&v) {
        Some(image) => *image,
        None => k,
    }
}

/// Notes the image of a variable, or asks for those of the parts of another type.
fn visit(
    types: &Types,
    images: &IndexMap<usize, usize>,
    k: usize,
    made: &mut IndexMap<usize, usize>,
    steps: &mut Vec<Step>,
) -> Result<(), NoMemory>
    requires { AreHeld (length types.now) (get nat_eq images.now) }
    ensures { IfOk result (λ _. (f : ℕ → Typ) (goal : ℕ) → ((v : ℕ) → f v ≡ put_at types.now (get nat_eq images.now) v)
        → Going types.now nothing f (get nat_eq made.old) (steps.old.items ++ Visit k ∷ []) goal
        → Moves types.now types.now nothing f (λ v. 0) (get nat_eq made.old) (get nat_eq made.new) (steps.old.items ++ Visit k ∷ []) steps.new.items goal) }
{
    if is_done(types, made, k) {
        return Ok(());
    }
    match open(types, k, steps)? {
        None => Ok(()),
        Some(v) => {
            let r = image_or(images, v, k);
            made.insert(k, r)?;
            Ok(())
        }
    }
}

/// The body with images put for variables, each node of it once.
fn put_in(
    alloc: Global,
    types: &mut Types,
    body: usize,
    images: &IndexMap<usize, usize>,
) -> Result<usize, NoMemory>
    requires body { body < length types.old }
    requires held { AreHeld (length types.old) (get nat_eq images.now) }
    ensures is { IfOk result (λ r. slice_get types.new r ≡ Some (replace (put_at types.old (get nat_eq images.now)) (type_at types.old body))) }
    ensures earlier_stay { take (length types.old) types.new ≡ types.old }
{
    let mut made: IndexMap<usize, usize> = IndexMap::new(alloc);
    let mut steps = Vec::new(alloc);
    steps.push(Step::Visit(body))?;
    while let Some(step) = steps.pop() {
        match step {
            Step::Visit(k) => visit(types, images, k, &mut made, &mut steps)?,
            Step::Build(k) => {
                let r = build(alloc, types, &made, k)?;
                made.insert(k, r)?;
            }
            Step::Same(k, u) => {
                let r = image_of(&made, u);
                made.insert(k, r)?;
            }
        }
    }
    Ok(image_of(&made, body))
}

/// The body with the types `images` put for the variables `parameters`, each variable's first. What is said of variables stays.
pub fn put(
    alloc: Global,
    s: &mut Subst,
    body: usize,
    parameters: &[usize],
    images: &[usize],
) -> Result<usize, NoMemory>
    requires body { body < length s.old.types }
    requires held { AllBelow (length s.old.types) images.now }
    requires each_has_one { length images.now ≡ length parameters.now }
    ensures is { IfOk result (λ r. slice_get s.new.types r ≡ Some (replace (put_for parameters.now (map (type_at s.old.types) images.now)) (type_at s.old.types body))) }
    ensures earlier_stay { take (length s.old.types) s.new.types ≡ s.old.types }
    ensures slots { s.new.slots.items ≡ s.old.slots.items }
    ensures says { seen s.new.types s.new.slots.items ≡ seen s.old.types s.old.slots.items }
{
    let found = images_for(alloc, parameters, images)?;
    put_in(alloc, &mut s.types, body, &found)
}
