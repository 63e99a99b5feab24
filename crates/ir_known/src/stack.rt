// Numbers with what is known of them, the latest first, each once.
ghost use Rattle.std.specs.Prelude.{◌≡◌, ◌↔◌, ◌-◌, ◌≤◌, ◌∷◌, [], None, true, false, IsTrue, IfOk, OnErr, length, take, drop, nat_eq};
ghost use Rattle.std.specs.Map.{lookup};

use indexmap::IndexMap;
use mlc_base::memory::NoMemory;
use std::alloc::Global;
use std::marker::Model;

/// Numbers with values, found by hash.
#[derive(Drop)]
pub struct Stack<V: Copy> {
    entries: IndexMap<usize, V>,
}

impl<V: Copy> Model for Stack<V> {
    ghost use Rattle.std.specs.Prelude.{ℕ, List, reverse};
    ghost use Rattle.ir_known.specs.Once.{IsOnce};

    ghost Value = { List (ℕ × V) };

    ghost view = { λ s. reverse s.entries.entries };

    ghost invariant = { λ s. IsOnce s.entries.entries };
}

impl<V: Copy> Stack<V> {
    /// Nothing.
    pub fn new(alloc: Global) -> Stack<V>
        ensures { result ≡ [] }
    {
        Stack {
            entries: IndexMap::new(alloc),
        }
    }

    /// How many numbers there are.
    pub fn len(&self) -> usize
        ensures { result ≡ length self.now }
    {
        self.entries.len()
    }

    /// Puts a number in front if it isn't there. Whether it was new.
    pub fn push(&mut self, number: usize, value: V) -> Result<bool, NoMemory>
        ensures new { IfOk result (λ new. IsTrue new ↔ (lookup (nat_eq number) self.old ≡ None)) }
        ensures grows { length self.old ≤ length self.new }
        ensures pushed { IfOk result (λ new. new ≡ true → self.new ≡ (number, value) ∷ self.old) }
        ensures kept { IfOk result (λ new. new ≡ false → self.new ≡ self.old) }
        ensures err { OnErr result (self.new ≡ self.old) }
    {
        if self.entries.contains_key(&number) {
            return Ok(false);
        }
        let _ = self.entries.insert(number, value)?;
        Ok(true)
    }

    /// What is known of a number.
    pub fn get(&self, number: usize) -> Option<V>
        ensures { result ≡ lookup (nat_eq number) self.now }
    {
        match self.entries.get(&number) {
            Some(value) => Some(*value),
            None => None,
        }
    }

    /// What is known of a number that was put there after the first so many.
    pub fn get_after(&self, first: usize, number: usize) -> Option<V>
        ensures { result ≡ lookup (nat_eq number) (take (length self.now - first) self.now) }
    {
        match self.entries.get_full(&number) {
            Some((place, _, value)) => { if place < first { None } else { Some(*value) } }
            None => None,
        }
    }

    /// Leaves the first so many.
    pub fn truncate(&mut self, len: usize)
        ensures { self.new ≡ drop (length self.old - len) self.old }
    {
        self.entries.truncate(len);
    }
}
