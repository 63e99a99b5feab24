// The nodes of types, as they are kept.
ghost use Rattle.std.specs.Prelude.{◌≡◌, ◌≢◌, ◌<◌, ◌++◌, ◌∷◌, ◌^◌, ◌-◌, ℕ, List, [], length, suc, slice_get, ◌&&◌, Some, take, IfOk, OnOk, OnErr, AllPairs};
ghost use Rattle.ty_core.specs.Types.{Symbol, var, con, attribute, allowed};
ghost use Rattle.ty_core.specs.TypesOf.{head_of};
ghost use Rattle.ty_table.specs.TypeAt.{type_at, types_at, AllBelow, IsWith};
ghost use Rattle.ty_table.specs.Nodes.{types_of, symbol_at, type_in, facts_of, IsNode};

use crate::code::head_code;
use crate::facts::Facts;
use crate::variables::{Few, with_few};
use indexmap::IndexSet;
use mlc_base::memory::NoMemory;
use std::alloc::Global;
use std::marker::Model;
use ty_core::name::Equality;
use ty_core::ty::{Head, equality_of};

/// Symbols and nodes, each once.
#[derive(Drop)]
pub struct Table {
    heads: Vec<Head>,
    codes: IndexSet<Vec<usize>>,
    nodes: IndexSet<Vec<usize>>,
    facts: Vec<Facts>,
}

impl Model for Table {
    ghost use Rattle.std.specs.Prelude.{map};
    ghost use Rattle.ty_core.specs.TypesOf.{head_of};
    ghost use Rattle.ty_table.specs.Nodes.{Table as Nodes, IsTable};

    ghost Value = { Nodes };

    ghost view = { λ t. (map head_of t.heads.items, map (λ k. k.items) t.nodes.keys) };

    ghost invariant = { λ t. IsTable (map head_of t.heads.items, map (λ k. k.items) t.nodes.keys) (map (λ k. k.items) t.codes.keys) t.facts.items };
}

/// Whether both are so.
fn both(left: bool, right: bool) -> bool
    ensures { result ≡ (left && right) }
{
    left && right
}

/// Whether the types of a head admit equality, where all parts do or not.
fn allows(head: &Head, all: bool) -> bool
    ensures { result ≡ allowed (attribute (head_of head.now)) all }
{
    match equality_of(head) {
        Equality::Always => true,
        Equality::ByArguments => all,
        Equality::Never => false,
    }
}

impl Table {
    /// Nothing.
    pub fn new(alloc: Global) -> Result<Table, NoMemory>
        ensures { IfOk result (λ t. t ≡ ([], [])) }
    {
        Ok(Table {
            heads: Vec::new(alloc),
            codes: IndexSet::new(alloc),
            nodes: IndexSet::new(alloc),
            facts: Vec::new(alloc),
        })
    }

    /// How many types there are.
    pub fn len(&self) -> usize
        ensures is { result ≡ length (types_of self.now) }
        ensures once { AllPairs (λ t u. t ≢ u) (types_of self.now) }
    {
        self.facts.len()
    }

    /// The number of a head's symbol, which is kept if it is new.
    pub fn symbol(&mut self, alloc: Global, head: Head) -> Result<usize, NoMemory>
        ensures within { IfOk result (λ s. s < length self.new.0) }
        ensures is { IfOk result (λ s. symbol_at self.new.0 s ≡ head_of head) }
        ensures types { types_of self.new ≡ types_of self.old }
    {
        let code = head_code(alloc, &head)?;
        if let Some(found) = self.codes.get_index_of(code.as_slice()) {
            return Ok(found);
        }
        let s = self.codes.len();
        self.heads.push(head)?;
        match self.codes.insert_full(code) {
            Ok(_) => {}
            Err(_) => {
                self.heads.pop();
                return Err(NoMemory);
            }
        }
        Ok(s)
    }

    /// The head of a symbol's number.
    pub fn head(&self, s: usize) -> &Head
        requires { s < length self.now.0 }
        ensures { head_of result.now ≡ symbol_at self.now.0 s }
    {
        &self.heads[s]
    }

    /// What is known of a type.
    pub fn facts(&self, k: usize) -> Facts
        requires { k < length (types_of self.now) }
        ensures { result ≡ facts_of (type_at (types_of self.now) k) }
    {
        self.facts[k]
    }

    /// The node of a type.
    pub fn node(&self, k: usize) -> &[usize]
        requires { k < length (types_of self.now) }
        ensures is_node { IsNode (length self.now.0) (length (types_of self.now)) result.now }
        ensures is { type_at (types_of self.now) k ≡ type_in self.now.0 (types_of self.now) result.now }
    {
        let kept = self.nodes.as_slice();
        let node = &kept[k];
        node.as_slice()
    }

    /// The number of a node, which is kept if it is new.
    fn intern(&mut self, node: Vec<usize>, facts: Facts) -> Result<usize, NoMemory>
        requires is_node { IsNode (length self.old.0) (length (types_of self.old)) node.items }
        requires known { facts ≡ facts_of (type_in self.old.0 (types_of self.old) node.items) }
        ensures held { IfOk result (λ k. slice_get (types_of self.new) k ≡ Some (type_in self.old.0 (types_of self.old) node.items)) }
        ensures kept { OnOk result (IsWith (types_of self.old) (type_in self.old.0 (types_of self.old) node.items) (types_of self.new)) }
        ensures earlier_stay { take (length (types_of self.old)) (types_of self.new) ≡ types_of self.old }
        ensures err { OnErr result (self.new ≡ self.old) }
    {
        if let Some(found) = self.nodes.get_index_of(node.as_slice()) {
            return Ok(found);
        }
        let k = self.nodes.len();
        self.facts.push(facts)?;
        match self.nodes.insert_full(node) {
            Ok(_) => {}
            Err(_) => {
                self.facts.pop();
                return Err(NoMemory);
            }
        }
        Ok(k)
    }

    /// A variable.
    pub fn variable(&mut self, alloc: Global, v: usize) -> Result<usize, NoMemory>
        requires { v < 2 ^ 64 - 1 }
        ensures held { IfOk result (λ k. slice_get (types_of self.new) k ≡ Some (var v)) }
        ensures kept { OnOk result (IsWith (types_of self.old) (var v) (types_of self.new)) }
        ensures earlier_stay { take (length (types_of self.old)) (types_of self.new) ≡ types_of self.old }
        ensures err { OnErr result (self.new ≡ self.old) }
    {
        let node = vec![in alloc; 0, v]?;
        let facts = Facts {
            size: 1,
            equality: false,
            everywhere: true,
            top: v + 1,
            few: Few::One(v),
        };
        self.intern(node, facts)
    }

    /// What a node with a symbol begins with.
    fn tag(&self, s: usize) -> usize
        requires { s < length self.now.0 }
        ensures { result ≡ suc s }
    {
        let _head = &self.heads[s];
        s + 1
    }

    /// What is known of a symbol's type with these parts.
    fn facts_applied(&self, s: usize, parts: &[usize]) -> Facts
        requires symbol { s < length self.now.0 }
        requires below { AllBelow (length (types_of self.now)) parts.now }
        ensures { result ≡ facts_of (con (symbol_at self.now.0 s) (types_at (types_of self.now) parts.now)) }
    {
        let mut size: u64 = 0;
        let mut equality = true;
        let mut everywhere = true;
        let mut top: usize = 0;
        let mut few = Few::Empty;
        for part in parts {
            let facts = self.facts(*part);
            size = size.saturating_add(facts.size);
            equality = both(equality, facts.equality);
            everywhere = both(everywhere, facts.everywhere);
            top = top.max(facts.top);
            few = with_few(few, facts.few);
        }
        let head = self.head(s);
        Facts {
            size: size.saturating_add(1),
            equality: allows(head, equality),
            everywhere: allows(head, everywhere),
            top,
            few,
        }
    }

    /// A symbol with parts.
    pub fn apply(&mut self, alloc: Global, s: usize, parts: &[usize]) -> Result<usize, NoMemory>
        requires symbol { s < length self.old.0 }
        requires below { AllBelow (length (types_of self.old)) parts.now }
        ensures held { IfOk result (λ k. slice_get (types_of self.new) k ≡ Some (con (symbol_at self.old.0 s) (types_at (types_of self.old) parts.now))) }
        ensures kept { OnOk result (IsWith (types_of self.old) (con (symbol_at self.old.0 s) (types_at (types_of self.old) parts.now)) (types_of self.new)) }
        ensures earlier_stay { take (length (types_of self.old)) (types_of self.new) ≡ types_of self.old }
        ensures err { OnErr result (self.new ≡ self.old) }
    {
        let facts = self.facts_applied(s, parts);
        let mut node = Vec::new(alloc);
        node.push(self.tag(s))?;
        node.extend_from_slice(parts)?;
        self.intern(node, facts)
    }
}
