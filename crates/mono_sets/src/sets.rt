// Lists of numbers, each number once.
ghost use Rattle.std.specs.Prelude.{◌≡◌, ◌↔◌, ◌<◌, ◌++◌, ◌∷◌, [], length, get_or, slice_set, IfOk, IsSome, option_to_list};
ghost use Rattle.std.specs.Option.{option_map};
ghost use Rattle.mono_sets.specs.Kept.{lists_of, with_number, IsKept};

use indexmap::IndexSet;
use mlc_base::memory::NoMemory;
use std::alloc::Global;

/// The lists, each with a serial number of its own, and the numbers that they have by those. Serial numbers are never given again.
#[derive(Drop)]
pub struct Sets {
    pub lists: Vec<Vec<usize>>,
    pub serials: Vec<usize>,
    pub next: usize,
    pub held: IndexSet<(usize, usize)>,
}

impl Sets {
    /// None.
    pub fn new(alloc: Global) -> Sets
        ensures kept { IsKept result }
        ensures none { lists_of result ≡ [] }
    {
        Sets {
            lists: Vec::new(alloc),
            serials: Vec::new(alloc),
            next: 0,
            held: IndexSet::new(alloc),
        }
    }

    /// One more list, with nothing in it.
    pub fn push(&mut self, alloc: Global) -> Result<(), NoMemory>
        requires { IsKept self.old }
        ensures kept { IfOk result (λ _. IsKept self.new) }
        ensures pushed { IfOk result (λ _. lists_of self.new ≡ lists_of self.old ++ [] ∷ []) }
    {
        let serial = self.next;
        if serial == usize::MAX {
            return Err(NoMemory);
        }
        self.lists.push(Vec::new(alloc))?;
        self.serials.push(serial)?;
        self.next = serial + 1;
        Ok(())
    }

    /// Takes the last list away, if there is one.
    pub fn pop(&mut self) -> Option<Vec<usize>>
        requires { IsKept self.old }
        ensures kept { IsKept self.new }
        ensures popped { lists_of self.old ≡ lists_of self.new ++ option_to_list (option_map (λ l. l.items) result) }
        ensures variant { IsSome result ↔ (0 < length (lists_of self.old)) }
    {
        let last = self.lists.pop();
        let _serial = self.serials.pop();
        last
    }

    /// Puts a number last in a list, if it isn't there.
    pub fn add(&mut self, at: usize, number: usize) -> Result<(), NoMemory>
        requires kept { IsKept self.old }
        requires within { at < length (lists_of self.old) }
        ensures kept { IfOk result (λ _. IsKept self.new) }
        ensures added { IfOk result (λ _. lists_of self.new ≡ slice_set (lists_of self.old) at (with_number number (get_or (lists_of self.old) at []))) }
    {
        let serial = self.serials[at];
        let new = self.held.insert((serial, number))?;
        if new {
            self.lists[at].push(number)?;
        }
        Ok(())
    }
}
