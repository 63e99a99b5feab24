// Variables in scope, the latest first. A variable may be bound again: then the latest is found, and the one before comes back with its scope.
ghost use Rattle.std.specs.Prelude.{◌≡◌, ◌∷◌, ◌-◌, [], drop, length, nat_eq, IfOk};
ghost use Rattle.std.specs.Map.{lookup};

use indexmap::IndexMap;
use ir_known::known::Known;
use mlc_base::memory::NoMemory;
use std::alloc::Global;
use std::marker::Model;

/// A variable, what it is, and what was known of it before.
#[derive(Clone, Copy)]
pub struct Bound {
    pub variable: usize,
    pub known: Known,
    pub before: Option<Known>,
}

/// What is known of the variables in scope, found by hash.
#[derive(Drop)]
pub struct Variables {
    bound: Vec<Bound>,
    latest: IndexMap<usize, Option<Known>>,
}

impl Model for Variables {
    ghost use Rattle.std.specs.Prelude.{ℕ, List, reverse};
    ghost use Rattle.ir_known.specs.declared.known.Known.{Known};
    ghost use Rattle.prog_known.specs.Logs.{known_in, IsLog};

    ghost Value = { List (ℕ × Known) };

    ghost view = { λ s. known_in (reverse s.bound.items) };

    ghost invariant = { λ s. IsLog (reverse s.bound.items) s.latest.entries };
}

impl Variables {
    /// Nothing.
    pub fn new(alloc: Global) -> Variables
        ensures { result ≡ [] }
    {
        Variables {
            bound: Vec::new(alloc),
            latest: IndexMap::new(alloc),
        }
    }

    /// How many bindings are in scope.
    pub fn len(&self) -> usize
        ensures { result ≡ length self.now }
    {
        self.bound.len()
    }

    /// What is known of a variable.
    pub fn find(&self, variable: usize) -> Option<Known>
        ensures { result ≡ lookup (nat_eq variable) self.now }
    {
        match self.latest.get(&variable) {
            Some(known) => *known,
            None => None,
        }
    }

    /// Binds a variable.
    pub fn bind(&mut self, variable: usize, known: Known) -> Result<(), NoMemory>
        ensures { IfOk result (λ _. self.new ≡ (variable, known) ∷ self.old) }
    {
        let before = self.find(variable);
        self.bound.push(Bound {
            variable,
            known,
            before,
        })?;
        match self.latest.insert(variable, Some(known)) {
            Ok(_) => Ok(()),
            Err(_) => {
                self.bound.pop();
                Err(NoMemory)
            }
        }
    }

    /// Leaves the scope of the latest binding.
    fn leave(&mut self)
        ensures { self.new ≡ drop 1 self.old }
    {
        if let Some(last) = self.bound.pop() {
            let _ = self.latest.insert(last.variable, last.before);
        }
    }

    /// Leaves the first so many bindings.
    pub fn truncate(&mut self, len: usize)
        ensures { self.new ≡ drop (length self.old - len) self.old }
    {
        while self.len() > len {
            self.leave();
        }
    }
}
