// What it rests on whether a type admits equality.
ghost use Rattle.std.specs.Prelude.{◌≡◌, ◌<◌, ◌+◌, ◌++◌, ◌∷◌, ℕ, Some, [], map, length, slice_get, slice_set, IfOk};
ghost use Rattle.ty_core.specs.TypesOf.{head_of};
ghost use Rattle.ty_core.specs.Types.{name as name_symbol};
ghost use Rattle.datatype_equality.specs.Falling.{resting, IsFall};
ghost use Rattle.datatype_equality.specs.Graph.{rule_of, rule_by, only_names, HasVertex, HasEdge, with_fail};

use crate::fall::fall;
use indexmap::IndexSet;
use mlc_base::memory::NoMemory;
use std::alloc::Global;
use std::marker::Model;
use ty_core::name::{Equality, TyName};
use ty_core::ty::Head;

/// The new names, by their places, and the types that are asked, in the order in which they first were; with each what rests on it.
#[derive(Drop)]
pub struct Graph {
    asked: IndexSet<usize>,
    rests: Vec<Vec<usize>>,
    fails: Vec<usize>,
}

impl Model for Graph {
    ghost use Rattle.std.specs.Prelude.{map};
    ghost use Rattle.datatype_equality.specs.Graph.{Graph as Clean};

    ghost Value = { Clean };

    ghost view = { λ g. record { asked = g.asked.keys; edges = map (λ l. l.items) g.rests.items; fails = g.fails.items } };
}

/// What a symbol makes of the question whether a type admits equality: it does, it doesn't, all parts have to, or a new name and all parts have to.
#[derive(Clone, Copy)]
pub enum Rule {
    Admits,
    Refuses,
    Parts,
    New(usize),
}

impl Graph {
    /// So many new names, and no types.
    pub fn new(alloc: Global, count: usize) -> Result<Graph, NoMemory>
        ensures { IfOk result (λ graph. graph ≡ only_names count) }
    {
        let mut rests = Vec::new(alloc);
        for _ in 0..count {
            rests.push(Vec::new(alloc))?;
        }
        Ok(Graph {
            asked: IndexSet::new(alloc),
            rests,
            fails: Vec::new(alloc),
        })
    }

    /// The vertex of a type. A type that is new here goes to those that are pending.
    pub fn vertex(
        &mut self,
        alloc: Global,
        count: usize,
        k: usize,
        pending: &mut Vec<usize>,
    ) -> Result<usize, NoMemory>
        requires { length self.old.edges ≡ count + length self.old.asked }
        ensures { IfOk result (λ v. HasVertex count k self.old self.new pending.old.items pending.new.items v) }
    {
        if let Some(position) = self.asked.get_index_of(&k) {
            return Ok(count + position);
        }
        let position = self.asked.len();
        let _ = self.asked.insert(k)?;
        self.rests.push(Vec::new(alloc))?;
        pending.push(k)?;
        Ok(count + position)
    }

    /// Has a vertex rest on another.
    pub fn rest(&mut self, v: usize, w: usize) -> Result<(), NoMemory>
        requires { v < length self.old.edges }
        ensures { IfOk result (λ _. HasEdge v w self.old self.new) }
    {
        self.rests[v].push(w)?;
        Ok(())
    }

    /// Has a vertex fall by itself.
    pub fn fail(&mut self, v: usize) -> Result<(), NoMemory>
        ensures { IfOk result (λ _. self.new ≡ with_fail v self.old) }
    {
        self.fails.push(v)?;
        Ok(())
    }

    /// What falls, where all that fails by itself does.
    pub fn fall(self, alloc: Global) -> Result<Vec<bool>, NoMemory>
        ensures { IfOk result (λ marks. IsFall self.edges self.fails marks.items) }
    {
        fall(alloc, self.rests, self.fails)
    }
}

/// What an equality attribute makes of the question.
fn attribute_rule(equality: Equality) -> Rule
    ensures { result ≡ rule_by equality }
{
    match equality {
        Equality::Always => Rule::Admits,
        Equality::ByArguments => Rule::Parts,
        Equality::Never => Rule::Refuses,
    }
}

/// What a type name makes of the question.
fn name_rule(first: usize, count: usize, name: TyName) -> Rule
    ensures { result ≡ rule_of first count (name_symbol name) }
{
    let stamp = name.stamp as usize;
    if stamp < first {
        return attribute_rule(name.equality);
    }
    if stamp - first < count {
        return Rule::New(stamp - first);
    }
    attribute_rule(name.equality)
}

/// What a head makes of the question.
pub fn head_rule(first: usize, count: usize, head: &Head) -> Rule
    ensures { result ≡ rule_of first count (head_of head.now) }
{
    match head {
        Head::Function => Rule::Refuses,
        Head::Record(_) => Rule::Parts,
        Head::Named(name) => name_rule(first, count, *name),
    }
}
