// Types under a substitution.
ghost use Rattle.std.specs.Prelude.{◌≡◌, ◌<◌, ◌++◌, ◌∷◌, ℕ, List, [], Some, nat_eq, length, map, slice_get, take, IfOk, true};
ghost use Rattle.indexmap.specs.IndexMap.{get};
ghost use Rattle.ty_solve.specs.of_ty_core.Types.{Symbol, Typ, con};
ghost use Rattle.ty_solve.specs.of_ty_table.TypeAt.{type_at, types_at, AllBelow};
ghost use Rattle.ty_solve.specs.Substitution.{Fits, sub, is_in, is_open, is_below};
ghost use Rattle.ty_solve.specs.SlotsOf.{seen};
ghost use Rattle.ty_solve.specs.Weight.{Weighs};
ghost use Rattle.ty_instance.specs.Images.{Ends, IsResolved};
ghost use Rattle.ty_instance.specs.Steps.{image_in, CanBuild, Going, Moves};
ghost use Rattle.ty_instance.specs.declared.step.Step.TheVariants.{Visit};

use crate::made::{build, image_of, is_done, open};
use crate::step::Step;
use indexmap::IndexMap;
use mlc_base::memory::NoMemory;
use std::alloc::Global;
use ty_solve::subst::Subst;

/// Asks for the image of what a bound variable stands for, or of the parts of another type. An open variable is its own image.
fn visit(
    s: &Subst,
    k: usize,
    made: &mut IndexMap<usize, usize>,
    steps: &mut Vec<Step>,
) -> Result<(), NoMemory>
    ensures { IfOk result (λ _. (f : ℕ → Typ) (w : ℕ → ℕ) (goal : ℕ) → Ends f (seen s.now.types s.now.slots.items)
        → Weighs w (seen s.now.types s.now.slots.items)
        → Going s.now.types (seen s.now.types s.now.slots.items) f (get nat_eq made.old) (steps.old.items ++ Visit k ∷ []) goal
        → Moves s.now.types s.now.types (seen s.now.types s.now.slots.items) f w (get nat_eq made.old) (get nat_eq made.new)
        (steps.old.items ++ Visit k ∷ []) steps.new.items goal) }
{
    if is_done(&s.types, made, k) {
        return Ok(());
    }
    match open(&s.types, k, steps)? {
        None => Ok(()),
        Some(v) => match s.get(v) {
            Some(u) => {
                steps.push(Step::Same(k, u))?;
                steps.push(Step::Visit(u))?;
                Ok(())
            }
            None => {
                made.insert(k, k)?;
                Ok(())
            }
        },
    }
}

/// Makes a type of the images of another one's parts.
fn build_in(
    alloc: Global,
    s: &mut Subst,
    made: &IndexMap<usize, usize>,
    k: usize,
) -> Result<usize, NoMemory>
    requires { CanBuild s.old.types (get nat_eq made.now) k }
    ensures is { IfOk result (λ r. (h : Symbol) (parts : List ℕ) → type_at s.old.types k ≡ con h (types_at s.old.types parts)
        → AllBelow (length s.old.types) parts → slice_get s.new.types r ≡ Some (con h (types_at s.old.types (map (image_in (get nat_eq made.now)) parts)))) }
    ensures earlier_stay { take (length s.old.types) s.new.types ≡ s.old.types }
    ensures slots { s.new.slots.items ≡ s.old.slots.items }
    ensures says { seen s.new.types s.new.slots.items ≡ seen s.old.types s.old.slots.items }
{
    build(alloc, &mut s.types, made, k)
}

/// A type under the substitution, each node of it once. No bound variable is left in it.
pub fn resolve(alloc: Global, s: &mut Subst, t: usize) -> Result<usize, NoMemory>
    requires { t < length s.old.types }
    ensures held { IfOk result (λ r. r < length s.new.types) }
    ensures is { IfOk result (λ r. IsResolved (seen s.old.types s.old.slots.items) (type_at s.old.types t) (type_at s.new.types r)) }
    ensures same { IfOk result (λ r. (f : ℕ → Typ) → Fits f (seen s.old.types s.old.slots.items)
        → sub f (type_at s.new.types r) ≡ sub f (type_at s.old.types t)) }
    ensures open_in { IfOk result (λ r. (v : ℕ) → is_in v (type_at s.new.types r) ≡ true → is_open (seen s.old.types s.old.slots.items v) ≡ true) }
    ensures below { IfOk result (λ r. is_below (length s.old.slots.items) (type_at s.old.types t) ≡ true
        → is_below (length s.old.slots.items) (type_at s.new.types r) ≡ true) }
    ensures earlier_stay { take (length s.old.types) s.new.types ≡ s.old.types }
    ensures slots { s.new.slots.items ≡ s.old.slots.items }
    ensures says { seen s.new.types s.new.slots.items ≡ seen s.old.types s.old.slots.items }
{
    let mut made: IndexMap<usize, usize> = IndexMap::new(alloc);
    let mut steps = Vec::new(alloc);
    steps.push(Step::Visit(t))?;
    while let Some(step) = steps.pop() {
        match step {
            Step::Visit(k) => visit(s, k, &mut made, &mut steps)?,
            Step::Build(k) => {
                let r = build_in(alloc, s, &made, k)?;
                made.insert(k, r)?;
            }
            Step::Same(k, u) => {
                let r = image_of(&made, u);
                made.insert(k, r)?;
            }
        }
    }
    Ok(image_of(&made, t))
}
