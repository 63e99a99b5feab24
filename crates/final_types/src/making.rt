// Types are made one after the other, each once for all namings that make no difference to it. Nothing recurses along a type.
ghost use Rattle.std.specs.Prelude.{◌≡◌, ◌++◌, ◌∷◌, ℕ, List, [], None, length, reverse, take, IfOk};
ghost use Rattle.indexmap.specs.IndexMap.{get};
ghost use Rattle.ty_core.specs.Types.{Typ};
ghost use Rattle.ty_table.specs.TypeAt.{AllBelow};
ghost use Rattle.final_types.specs.Images.{IsMade};
ghost use Rattle.final_types.specs.Nodes.{IsEnd, types_of};
ghost use Rattle.final_types.specs.Making.{AreMade, Going, IsNoted, IsSource, Moves, namings_of, same_key, visits};
ghost use Rattle.final_types.specs.declared.source.Source.{Source};
ghost use Rattle.final_types.specs.declared.step.Step.TheVariants.{Visit, Keep, Build};

use crate::node::{Node, node_of};
use crate::source::Source;
use crate::step::Step;
use indexmap::IndexMap;
use mlc_base::memory::NoMemory;
use std::alloc::Global;
use ty_core::ty::Head;
use ty_table::types::Types;

/// The numbers of types that were made, by their own and the naming's; what is still to be done, the last first; and the numbers that wait for it.
#[derive(Drop)]
pub struct Making {
    pub made: IndexMap<(usize, usize), usize>,
    pub steps: Vec<Step>,
    pub values: Vec<usize>,
}

/// Asks for types, the first of them first.
fn visit_all(parts: Vec<usize>, place: usize, steps: &mut Vec<Step>) -> Result<(), NoMemory>
    ensures { IfOk result (λ _. reverse steps.new.items ≡ visits place parts.items ++ reverse steps.old.items) }
{
    let mut left = parts;
    while let Some(part) = left.pop() {
        steps.push(Step::Visit(part, place))?;
    }
    Ok(())
}

impl Making {
    /// Nothing is made yet.
    pub fn new(alloc: Global) -> Making
        ensures { (k p : ℕ) → get same_key result.made (k, p) ≡ None }
    {
        Making {
            made: IndexMap::new(alloc),
            steps: Vec::new(alloc),
            values: Vec::new(alloc),
        }
    }

    /// The number of a type that was made.
    fn known(&self, ty: usize, place: usize) -> Option<usize>
        ensures { result ≡ get same_key self.now.made (ty, place) }
    {
        match self.made.get(&(ty, place)) {
            Some(r) => Some(*r),
            None => None,
        }
    }

    /// Notes the number of a type, and puts it behind the others.
    fn note(&mut self, ty: usize, place: usize, r: usize) -> Result<(), NoMemory>
        ensures values { IfOk result (λ _. self.new.values.items ≡ self.old.values.items ++ r ∷ []) }
        ensures steps { self.new.steps.items ≡ self.old.steps.items }
        ensures made { IfOk result (λ _. IsNoted (get same_key self.old.made) (get same_key self.new.made) ty place r) }
    {
        self.made.insert((ty, place), r)?;
        self.values.push(r)?;
        Ok(())
    }

    /// Finds the number of a type, or asks for what it is made of.
    fn visit(
        &mut self,
        alloc: Global,
        source: &Source<'_>,
        types: &mut Types,
        ty: usize,
        place: usize,
    ) -> Result<(), NoMemory>
        requires { IsSource source.now }
        ensures moves { IfOk result (λ _. (k₀ p₀ : ℕ)
            → Going source.now types.old (get same_key self.old.made) (self.old.steps.items ++ Visit ty place ∷ []) self.old.values.items k₀ p₀
            → Moves source.now types.new (get same_key self.new.made) (self.old.steps.items ++ Visit ty place ∷ []) self.new.steps.items
            self.new.values.items k₀ p₀) }
        ensures earlier_stay { take (length types.old) types.new ≡ types.old }
    {
        let at = source.settled(ty, place);
        if let Some(r) = self.known(ty, at) {
            self.values.push(r)?;
            return Ok(());
        }
        match node_of(alloc, source.solver, ty)? {
            Node::Parameter(v) => {
                let r = types.variable(alloc, v)?;
                self.note(ty, at, r)
            }
            Node::Same(u) => {
                self.steps.push(Step::Keep(ty, at))?;
                self.steps.push(Step::Visit(u, at))?;
                Ok(())
            }
            Node::Of(head, parts) => {
                let named = source.head(head, at);
                self.steps.push(Step::Build(ty, at, named, parts.len()))?;
                visit_all(parts, at, &mut self.steps)
            }
        }
    }

    /// The last number is also that of a type.
    fn keep(&mut self, ty: usize, place: usize) -> Result<(), NoMemory>
        ensures moves { IfOk result (λ _. (S : Source) (us : List Typ) (k₀ p₀ : ℕ)
            → Going S us (get same_key self.old.made) (self.old.steps.items ++ Keep ty place ∷ []) self.old.values.items k₀ p₀
            → Moves S us (get same_key self.new.made) (self.old.steps.items ++ Keep ty place ∷ []) self.new.steps.items self.new.values.items k₀ p₀) }
    {
        if let Some(r) = self.values.pop() {
            self.note(ty, place, r)?;
        }
        Ok(())
    }

    /// A type is made of the last numbers.
    fn build(
        &mut self,
        alloc: Global,
        types: &mut Types,
        ty: usize,
        place: usize,
        head: Head,
        count: usize,
    ) -> Result<(), NoMemory>
        requires { AllBelow (length types.old) self.old.values.items }
        ensures moves { IfOk result (λ _. (S : Source) (k₀ p₀ : ℕ)
            → Going S types.old (get same_key self.old.made) (self.old.steps.items ++ Build ty place head count ∷ []) self.old.values.items k₀ p₀
            → Moves S types.new (get same_key self.new.made) (self.old.steps.items ++ Build ty place head count ∷ []) self.new.steps.items
            self.new.values.items k₀ p₀) }
        ensures earlier_stay { take (length types.old) types.new ≡ types.old }
    {
        let start = self.values.len().saturating_sub(count);
        let r = types.apply(alloc, head, &self.values[start..])?;
        self.values.truncate(start);
        self.note(ty, place, r)
    }

    /// The number of a type where a naming is in force.
    pub fn enter(
        &mut self,
        alloc: Global,
        source: &Source<'_>,
        types: &mut Types,
        ty: usize,
        naming: Option<usize>,
    ) -> Result<usize, NoMemory>
        requires source { IsSource source.now }
        requires made { AreMade source.now types.old (get same_key self.old.made) }
        ensures is { IfOk result (λ r. (g : ℕ → Typ) → IsEnd source.now.solver.now g
            → IsMade (types_of source.now.solver.now) types.new (namings_of source.now) g naming ty r) }
        ensures made { IfOk result (λ _. AreMade source.now types.new (get same_key self.new.made)) }
        ensures earlier_stay { take (length types.old) types.new ≡ types.old }
    {
        let place = source.place_of(naming);
        self.steps.clear();
        self.values.clear();
        self.steps.push(Step::Visit(ty, place))?;
        while let Some(step) = self.steps.pop() {
            match step {
                Step::Visit(k, at) => self.visit(alloc, source, types, k, at)?,
                Step::Keep(k, at) => self.keep(k, at)?,
                Step::Build(k, at, head, count) => {
                    self.build(alloc, types, k, at, head, count)?
                },
            }
        }
        match self.values.pop() {
            Some(r) => Ok(r),
            None => Ok(0),
        }
    }
}
