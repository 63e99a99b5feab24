// Types as numbers.
ghost use Rattle.std.specs.Prelude.{◌≡◌, ◌≢◌, ◌<◌, ◌^◌, ◌-◌, [], min, length, slice_get, Some, take, IfOk, OnOk, OnErr, AllPairs};
ghost use Rattle.ty_core.specs.Types.{var, con, nodes, admits, no_variable};
ghost use Rattle.ty_core.specs.TypesOf.{head_of};
ghost use Rattle.ty_table.specs.Variables.{few_of};
ghost use Rattle.ty_table.specs.TypeAt.{type_at, types_at, every_variable, top as top_of, with_parts, AllBelow, IsView, IsWith};

use crate::facts::Facts;
use crate::table::Table;
use crate::variables::Few;
use mlc_base::memory::NoMemory;
use std::alloc::Global;
use std::marker::Model;
use ty_core::ty::Head;

/// A table of types, each once: a variable, or a symbol with earlier types for its parts.
#[derive(Drop)]
pub struct Types {
    table: Table,
}

impl Model for Types {
    ghost use Rattle.std.specs.Prelude.{List};
    ghost use Rattle.ty_core.specs.Types.{Typ};
    ghost use Rattle.ty_table.specs.Codes.{types_code};
    ghost use Rattle.ty_table.specs.Nodes.{types_of};

    ghost Value = { List Typ };

    ghost coded = { types_code };

    ghost view = { λ t. types_of t.table };
}

/// A type, as far as its first node.
pub enum View<'a> {
    Var(usize),
    Apply(&'a Head, &'a [usize]),
}

impl Types {
    /// No types.
    pub fn new(alloc: Global) -> Result<Types, NoMemory>
        ensures { IfOk result (λ types. types ≡ []) }
    {
        Ok(Types {
            table: Table::new(alloc)?,
        })
    }

    /// How many types there are.
    pub fn len(&self) -> usize
        ensures is { result ≡ length self.now }
        ensures one_to_one { AllPairs (λ t u. t ≢ u) self.now }
    {
        self.table.len()
    }

    /// A type, as far as its first node.
    pub fn view(&self, k: usize) -> View<'_>
        ensures { IsView self.now (type_at self.now k) result }
    {
        if k >= self.len() {
            return View::Var(0);
        }
        let node = self.table.node(k);
        if node[0] == 0 {
            View::Var(node[1])
        } else {
            View::Apply(self.table.head(node[0] - 1), &node[1..])
        }
    }

    /// What is known of a type.
    fn facts(&self, k: usize) -> Facts
        ensures size { result.size ≡ min (nodes (type_at self.now k)) (2 ^ 64 - 1) }
        ensures equality { result.equality ≡ admits no_variable (type_at self.now k) }
        ensures everywhere { result.everywhere ≡ admits every_variable (type_at self.now k) }
        ensures top { result.top ≡ top_of (type_at self.now k) }
        ensures few { result.few ≡ few_of (type_at self.now k) }
    {
        if k < self.len() {
            self.table.facts(k)
        } else {
            Facts {
                size: 1,
                equality: false,
                everywhere: true,
                top: 1,
                few: Few::One(0),
            }
        }
    }

    /// The number of a type's nodes, or 2^64 - 1 where there are more.
    pub fn size(&self, k: usize) -> u64
        ensures { result ≡ min (nodes (type_at self.now k)) (2 ^ 64 - 1) }
    {
        self.facts(k).size
    }

    /// Whether a type admits equality whatever its variables stand for.
    pub fn admits_eq(&self, k: usize) -> bool
        ensures { result ≡ admits no_variable (type_at self.now k) }
    {
        self.facts(k).equality
    }

    /// Whether a type admits equality where all its variables do.
    pub fn admits_eq_everywhere(&self, k: usize) -> bool
        ensures { result ≡ admits every_variable (type_at self.now k) }
    {
        self.facts(k).everywhere
    }

    /// One more than a type's highest variable, or 0 where it has none.
    pub fn top(&self, k: usize) -> usize
        ensures { result ≡ top_of (type_at self.now k) }
    {
        self.facts(k).top
    }

    /// A type's variables, if they are few.
    pub fn few(&self, k: usize) -> Few
        ensures { result ≡ few_of (type_at self.now k) }
    {
        self.facts(k).few
    }

    /// A variable.
    pub fn variable(&mut self, alloc: Global, v: usize) -> Result<usize, NoMemory>
        requires { v < 2 ^ 64 - 1 }
        ensures kept { OnOk result (IsWith self.old (var v) self.new) }
        ensures held { IfOk result (λ k. slice_get self.new k ≡ Some (var v)) }
        ensures earlier_stay { take (length self.old) self.new ≡ self.old }
        ensures err { OnErr result (self.new ≡ self.old) }
    {
        self.table.variable(alloc, v)
    }

    /// A symbol with parts.
    pub fn apply(&mut self, alloc: Global, head: Head, parts: &[usize]) -> Result<usize, NoMemory>
        requires { AllBelow (length self.old) parts.now }
        ensures kept { OnOk result (IsWith self.old (con (head_of head) (types_at self.old parts.now)) self.new) }
        ensures held { IfOk result (λ k. slice_get self.new k ≡ Some (con (head_of head) (types_at self.old parts.now))) }
        ensures earlier_stay { take (length self.old) self.new ≡ self.old }
        ensures err { OnErr result (self.new ≡ self.old) }
    {
        let s = self.table.symbol(alloc, head)?;
        self.table.apply(alloc, s, parts)
    }

    /// A type with other parts in place of its own. A variable is left as it is.
    pub fn with_parts(
        &mut self,
        alloc: Global,
        k: usize,
        parts: &[usize],
    ) -> Result<usize, NoMemory>
        requires number { k < length self.old }
        requires parts { AllBelow (length self.old) parts.now }
        ensures kept { OnOk result (IsWith self.old (with_parts (type_at self.old k) (types_at self.old parts.now)) self.new) }
        ensures held { IfOk result (λ r. slice_get self.new r ≡ Some (with_parts (type_at self.old k) (types_at self.old parts.now))) }
        ensures earlier_stay { take (length self.old) self.new ≡ self.old }
        ensures err { OnErr result (self.new ≡ self.old) }
    {
        let tag = self.table.node(k)[0];
        if tag == 0 {
            Ok(k)
        } else {
            self.table.apply(alloc, tag - 1, parts)
        }
    }
}
