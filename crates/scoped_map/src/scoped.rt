// Numbers with values, the latest first. A number may be bound again: then the latest value is found, and the one before comes back with its scope.
ghost use Rattle.std.specs.Prelude.{◌≡◌, ◌∷◌, ◌-◌, [], drop, length, nat_eq, IfOk, OnErr};
ghost use Rattle.std.specs.Map.{lookup};

use indexmap::IndexMap;
use mlc_base::memory::NoMemory;
use std::alloc::Global;
use std::marker::Model;

/// A number, its value, and the value that it had before.
#[derive(Clone, Copy)]
pub struct Bound<V: Copy> {
    pub key: usize,
    pub value: V,
    pub before: Option<V>,
}

/// The values of numbers, found by hash.
#[derive(Drop)]
pub struct Scoped<V: Copy> {
    bound: Vec<Bound<V>>,
    latest: IndexMap<usize, Option<V>>,
}

impl<V: Copy> Model for Scoped<V> {
    ghost use Rattle.std.specs.Prelude.{ℕ, List, reverse};
    ghost use Rattle.scoped_map.specs.Logs.{values_in, IsLog};

    ghost Value = { List (ℕ × V) };

    ghost view = { λ s. values_in (reverse s.bound.items) };

    ghost invariant = { λ s. IsLog (reverse s.bound.items) s.latest.entries };
}

impl<V: Copy> Scoped<V> {
    /// Nothing.
    pub fn new(alloc: Global) -> Scoped<V>
        ensures { result ≡ [] }
    {
        Scoped {
            bound: Vec::new(alloc),
            latest: IndexMap::new(alloc),
        }
    }

    /// How many bindings are in scope.
    pub fn len(&self) -> usize
        ensures { result ≡ length self.now }
    {
        self.bound.len()
    }

    /// The value of a number.
    pub fn find(&self, key: usize) -> Option<V>
        ensures { result ≡ lookup (nat_eq key) self.now }
    {
        match self.latest.get(&key) {
            Some(value) => *value,
            None => None,
        }
    }

    /// Binds a number.
    pub fn bind(&mut self, key: usize, value: V) -> Result<(), NoMemory>
        ensures bound { IfOk result (λ _. self.new ≡ (key, value) ∷ self.old) }
        ensures err { OnErr result (self.new ≡ self.old) }
    {
        let before = self.find(key);
        self.bound.push(Bound { key, value, before })?;
        match self.latest.insert(key, Some(value)) {
            Ok(_) => Ok(()),
            Err(_) => {
                self.bound.pop();
                Err(NoMemory)
            }
        }
    }

    /// Leaves the scope of the latest binding.
    fn leave(&mut self)
        ensures { self.new ≡ drop 1 self.old }
    {
        if let Some(last) = self.bound.pop() {
            let _ = self.latest.insert(last.key, last.before);
        }
    }

    /// Leaves the first so many bindings.
    pub fn truncate(&mut self, len: usize)
        ensures { self.new ≡ drop (length self.old - len) self.old }
    {
        while self.len() > len {
            self.leave();
        }
    }
}
