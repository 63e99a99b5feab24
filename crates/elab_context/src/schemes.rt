// Closed schemes by number. Where a block ends, those that came inside it go.
ghost use Rattle.std.specs.Prelude.{◌≡◌, ◌<◌, ◌++◌, ◌∷◌, [], length, slice_get, take, Some, IfOk, OnErr};

use crate::entry::Scheme;
use mlc_base::memory::NoMemory;
use std::alloc::Global;
use std::marker::Model;

/// Schemes, each under its number.
#[derive(Drop)]
pub struct Schemes {
    rows: Vec<Scheme>,
}

impl Model for Schemes {
    ghost use Rattle.elab_context.specs.Schemes.{SchemeList};

    ghost Value = { SchemeList };

    ghost view = { λ s. record { items = s.rows.items } };
}

impl Schemes {
    /// None.
    pub fn new(alloc: Global) -> Schemes
        ensures items { result.items ≡ [] }
    {
        Schemes {
            rows: Vec::new(alloc),
        }
    }

    /// How many there are.
    pub fn len(&self) -> usize
        ensures { result ≡ length self.now.items }
    {
        self.rows.len()
    }

    /// The scheme of a number.
    pub fn at(&self, number: usize) -> &Scheme
        requires { number < length self.now.items }
        ensures { slice_get self.now.items number ≡ Some result.now }
    {
        &self.rows[number]
    }

    /// One more, under the next number.
    pub fn push(&mut self, scheme: Scheme) -> Result<(), NoMemory>
        ensures items { IfOk result (λ _. self.new.items ≡ self.old.items ++ scheme ∷ []) }
        ensures err { OnErr result (self.new ≡ self.old) }
    {
        self.rows.push(scheme)?;
        Ok(())
    }

    /// Leaves the first so many.
    pub fn truncate(&mut self, len: usize)
        ensures { self.new.items ≡ take len self.old.items }
    {
        self.rows.truncate(len);
    }
}
