// Copies of bindings, by number.
ghost use Rattle.std.specs.Prelude.{◌≡◌, [], length, slice_get, option_copied, IfOk, OnErr};
ghost use Rattle.mono_names.specs.Numbers.{AreOnce, IsNumbered};

use indexmap::IndexSet;
use mlc_base::memory::NoMemory;
use std::alloc::Global;
use std::marker::Model;

/// Variables, each with the number of a list of types: a variable's copy at these, each once.
#[derive(Drop)]
pub struct Copies {
    copies: IndexSet<(usize, usize)>,
}

impl Model for Copies {
    ghost use Rattle.std.specs.Prelude.{ℕ, List};

    ghost Value = { List (ℕ × ℕ) };

    ghost view = { λ c. c.copies.keys };
}

impl Copies {
    /// None.
    pub fn new(alloc: Global) -> Copies
        ensures { result ≡ [] }
    {
        Copies {
            copies: IndexSet::new(alloc),
        }
    }

    /// How many there are.
    pub fn len(&self) -> usize
        ensures is { result ≡ length self.now }
        ensures once { AreOnce self.now }
    {
        self.copies.len()
    }

    /// The variable and the list of types of a number, if there is a copy of it.
    pub fn get(&self, n: usize) -> Option<(usize, usize)>
        ensures { result ≡ slice_get self.now n }
    {
        match self.copies.get_index(n) {
            Some(copy) => Some(*copy),
            None => None,
        }
    }

    /// The number of a variable's copy at a list of types, which goes last if it is new.
    pub fn number(&mut self, variable: usize, list: usize) -> Result<usize, NoMemory>
        ensures ok { IfOk result (λ n. IsNumbered self.old (variable, list) n self.new) }
        ensures err { OnErr result (self.new ≡ self.old) }
    {
        let (n, _) = self.copies.insert_full((variable, list))?;
        Ok(n)
    }
}
