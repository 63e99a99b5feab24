// Lists of types, by number.
ghost use Rattle.std.specs.Prelude.{◌≡◌, [], length, slice_get, IfOk, OnErr};
ghost use Rattle.std.specs.Option.{option_map};
ghost use Rattle.mono_names.specs.Numbers.{AreOnce, IsNumbered};

use indexmap::IndexSet;
use mlc_base::memory::NoMemory;
use std::alloc::Global;
use std::marker::Model;

/// Lists of numbers of types, each once: two numbers of lists are one where the lists are.
#[derive(Drop)]
pub struct Lists {
    lists: IndexSet<Vec<usize>>,
}

impl Model for Lists {
    ghost use Rattle.std.specs.Prelude.{ℕ, List, map};

    ghost Value = { List (List ℕ) };

    ghost view = { λ l. map (λ k. k.items) l.lists.keys };
}

impl Lists {
    /// None.
    pub fn new(alloc: Global) -> Lists
        ensures { result ≡ [] }
    {
        Lists {
            lists: IndexSet::new(alloc),
        }
    }

    /// How many there are.
    pub fn len(&self) -> usize
        ensures is { result ≡ length self.now }
        ensures once { AreOnce self.now }
    {
        self.lists.len()
    }

    /// The list of a number, if there is one of it.
    pub fn get(&self, n: usize) -> Option<&[usize]>
        ensures { option_map (λ l. l.now) result ≡ slice_get self.now n }
    {
        match self.lists.get_index(n) {
            Some(list) => Some(list.as_slice()),
            None => None,
        }
    }

    /// The number of a list, which goes last if it is new.
    pub fn number(&mut self, list: Vec<usize>) -> Result<usize, NoMemory>
        ensures ok { IfOk result (λ n. IsNumbered self.old list.items n self.new) }
        ensures err { OnErr result (self.new ≡ self.old) }
    {
        let (n, _) = self.lists.insert_full(list)?;
        Ok(n)
    }
}
