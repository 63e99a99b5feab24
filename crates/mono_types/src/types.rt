// The table of closed types.
ghost use Rattle.std.specs.Prelude.{◌≡◌, ◌<◌, [], length, slice_get, option_copied, OnOk, OnErr, IfOk};
ghost use Rattle.std.specs.Option.{option_map};
ghost use Rattle.ty_core.specs.TypesOf.{head_of};
ghost use Rattle.ir_mono.specs.Types.{node, node_at, constructor_at, admits};
ghost use Rattle.mono_types.specs.Rows.{seen, AreOnce, IsPlaced, IsEntered};

use crate::code::node_code;
use crate::constructors::Constructors;
use indexmap::IndexSet;
use mlc_base::memory::NoMemory;
use std::alloc::Global;
use std::marker::Model;
use ty_core::ty::Head;

/// A type: its head and parts, the constructors that are used, and whether two values of it can be compared.
#[derive(Drop)]
pub struct Kept {
    pub head: Head,
    pub parts: Vec<usize>,
    pub constructors: Constructors,
    pub equality: bool,
}

/// Types, each once, found by their codes.
#[derive(Drop)]
pub struct Types {
    rows: Vec<Kept>,
    codes: IndexSet<Vec<usize>>,
}

impl Model for Types {
    ghost use Rattle.std.specs.Prelude.{List, map};
    ghost use Rattle.ir_mono.specs.Types.{Row};
    ghost use Rattle.mono_types.specs.Rows.{rows_of, IsStored};

    ghost Value = { List Row };

    ghost view = { λ t. rows_of t.rows.items };

    ghost invariant = { λ t. IsStored (rows_of t.rows.items) (map (λ k. k.items) t.codes.keys) };
}

/// A type as far as its first node, if there is one of its number.
pub enum View<'a> {
    Nothing,
    Apply(&'a Head, &'a [usize]),
}

impl Types {
    /// No types.
    pub fn new(alloc: Global) -> Types
        ensures { result ≡ [] }
    {
        Types {
            rows: Vec::new(alloc),
            codes: IndexSet::new(alloc),
        }
    }

    /// How many types there are.
    pub fn len(&self) -> usize
        ensures is { result ≡ length self.now }
        ensures once { AreOnce self.now }
    {
        self.rows.len()
    }

    /// A type as far as its first node.
    pub fn view(&self, n: usize) -> View<'_>
        ensures { seen result ≡ node_at self.now n }
    {
        if n >= self.rows.len() {
            return View::Nothing;
        }
        let row = &self.rows[n];
        View::Apply(&row.head, row.parts.as_slice())
    }

    /// A constructor of a type, with the type of its argument, if it has one.
    pub fn constructor(&self, n: usize, number: usize) -> Option<Option<usize>>
        ensures { result ≡ constructor_at self.now n number }
    {
        if n >= self.rows.len() {
            return None;
        }
        let row = &self.rows[n];
        row.constructors.get(number)
    }

    /// The constructors of a type, if there is one of its number.
    pub fn constructors(&self, n: usize) -> Option<&Constructors>
        ensures { option_copied result ≡ option_map (λ r. r.constructors) (slice_get self.now n) }
    {
        if n >= self.rows.len() {
            return None;
        }
        let row = &self.rows[n];
        Some(&row.constructors)
    }

    /// Whether two values of a type can be compared.
    pub fn admits_eq(&self, n: usize) -> bool
        ensures { result ≡ admits self.now n }
    {
        if n >= self.rows.len() {
            return false;
        }
        let row = &self.rows[n];
        row.equality
    }

    /// The number of a head with parts, which goes last if it is new.
    pub fn place(
        &mut self,
        alloc: Global,
        head: Head,
        parts: Vec<usize>,
        equality: bool,
    ) -> Result<usize, NoMemory>
        ensures ok { IfOk result (λ n. IsPlaced self.old (node (head_of head) parts.items) equality n self.new) }
        ensures err { OnErr result (self.new ≡ self.old) }
    {
        let code = node_code(alloc, &head, &parts)?;
        if let Some(found) = self.codes.get_index_of(code.as_slice()) {
            return Ok(found);
        }
        let n = self.codes.len();
        let constructors = Constructors::new(alloc);
        self.rows.push(Kept {
            head,
            parts,
            constructors,
            equality,
        })?;
        match self.codes.insert_full(code) {
            Ok(_) => {}
            Err(_) => {
                self.rows.pop();
                return Err(NoMemory);
            }
        }
        Ok(n)
    }

    /// Enters a constructor of a type, unless it is there.
    pub fn enter(
        &mut self,
        n: usize,
        number: usize,
        argument: Option<usize>,
    ) -> Result<(), NoMemory>
        requires { n < length self.old }
        ensures ok { OnOk result (IsEntered self.old n number argument self.new) }
        ensures err { OnErr result (self.new ≡ self.old) }
    {
        let row = &mut self.rows[n];
        let _ = row.constructors.push(number, argument)?;
        Ok(())
    }
}
