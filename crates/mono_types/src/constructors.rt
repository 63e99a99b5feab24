// The constructors of a datatype.
ghost use Rattle.std.specs.Prelude.{◌≡◌, ◌↔◌, ◌∷◌, [], reverse, slice_get, length, nat_eq, OnOk, OnErr, true, false, IsTrue, IfOk, None};
ghost use Rattle.std.specs.Map.{lookup};
ghost use Rattle.std.specs.Option.{option_map};

use indexmap::IndexMap;
use mlc_base::memory::NoMemory;
use std::alloc::Global;
use std::marker::Model;

/// Constructors, each with the type of its argument, if it has one; found by their numbers, the latest first.
#[derive(Drop)]
pub struct Constructors {
    entries: IndexMap<usize, Option<usize>>,
}

impl Model for Constructors {
    ghost use Rattle.std.specs.Prelude.{ℕ, List, Option, reverse};
    ghost use Rattle.ir_known.specs.Once.{IsOnce};

    ghost Value = { List (ℕ × Option ℕ) };

    ghost view = { λ t. reverse t.entries.entries };

    ghost invariant = { λ t. IsOnce t.entries.entries };
}

impl Constructors {
    /// None.
    pub fn new(alloc: Global) -> Constructors
        ensures { result ≡ [] }
    {
        Constructors {
            entries: IndexMap::new(alloc),
        }
    }

    /// How many there are.
    pub fn len(&self) -> usize
        ensures { result ≡ length self.now }
    {
        self.entries.len()
    }

    /// The argument's type of a constructor, if that is there.
    pub fn get(&self, number: usize) -> Option<Option<usize>>
        ensures { result ≡ lookup (nat_eq number) self.now }
    {
        match self.entries.get(&number) {
            Some(argument) => Some(*argument),
            None => None,
        }
    }

    /// A constructor in front, where none of its number is there.
    pub fn push(&mut self, number: usize, argument: Option<usize>) -> Result<bool, NoMemory>
        ensures new { IfOk result (λ new. IsTrue new ↔ (lookup (nat_eq number) self.old ≡ None)) }
        ensures pushed { IfOk result (λ new. new ≡ true → self.new ≡ (number, argument) ∷ self.old) }
        ensures kept { IfOk result (λ new. new ≡ false → self.new ≡ self.old) }
        ensures err { OnErr result (self.new ≡ self.old) }
    {
        if self.entries.contains_key(&number) {
            return Ok(false);
        }
        let _ = self.entries.insert(number, argument)?;
        Ok(true)
    }

    /// The number of the constructor that was the i-th to come, if there is one.
    pub fn number_at(&self, i: usize) -> Option<usize>
        ensures { option_map (λ e. e.0) (slice_get (reverse self.now) i) ≡ result }
    {
        match self.entries.get_index(i) {
            Some((number, _)) => Some(*number),
            None => None,
        }
    }

    /// The argument's type of the constructor that was the i-th to come, if there is one.
    pub fn argument_at(&self, i: usize) -> Option<Option<usize>>
        ensures { option_map (λ e. e.1) (slice_get (reverse self.now) i) ≡ result }
    {
        match self.entries.get_index(i) {
            Some((_, argument)) => Some(*argument),
            None => None,
        }
    }
}
