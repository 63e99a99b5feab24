// Variables in scope: those of the same function, and those around it.
ghost use Rattle.std.specs.Prelude.{◌≡◌, ◌↔◌, ◌++◌, ◌∷◌, [], List, ℕ, None, true, false, IsTrue, IfOk, OnErr, length, nat_eq};
ghost use Rattle.std.specs.Map.{lookup};
ghost use Rattle.ir_known.specs.declared.known.Known.{Known};

use crate::known::Known;
use crate::stack::Stack;
use mlc_base::memory::NoMemory;
use std::alloc::Global;
use std::marker::Model;

/// What is known of the variables in scope, the innermost first: those of the same function, then those around it.
#[derive(Drop)]
pub struct Scope {
    known: Stack<Known>,
    start: usize,
}

impl Model for Scope {
    ghost use Rattle.std.specs.Prelude.{ℕ, ◌-◌, ◌≤◌, List, take, drop, length};
    ghost use Rattle.ir_known.specs.declared.known.Known.{Known};

    ghost Value = { List (ℕ × Known) × List (ℕ × Known) };

    ghost view = { λ s. (take (length s.known - s.start) s.known, drop (length s.known - s.start) s.known) };

    ghost invariant = { λ s. s.start ≤ length s.known };
}

/// A place to come back to: how many variables are around the function, and how many there are.
#[derive(Clone, Copy)]
pub struct Mark {
    pub start: usize,
    pub len: usize,
}

impl Scope {
    /// Nothing.
    pub fn new(alloc: Global) -> Scope
        ensures { result ≡ ([], []) }
    {
        Scope {
            known: Stack::new(alloc),
            start: 0,
        }
    }

    /// What is known of a variable.
    pub fn find(&self, variable: usize) -> Option<Known>
        ensures { result ≡ lookup (nat_eq variable) (self.now.0 ++ self.now.1) }
    {
        self.known.get(variable)
    }

    /// What is known of a variable of the same function.
    pub fn find_local(&self, variable: usize) -> Option<Known>
        ensures { result ≡ lookup (nat_eq variable) self.now.0 }
    {
        self.known.get_after(self.start, variable)
    }

    /// Binds a variable that isn't there. Whether it was new.
    pub fn bind(&mut self, variable: usize, known: Known) -> Result<bool, NoMemory>
        ensures new { IfOk result (λ new. IsTrue new ↔ (lookup (nat_eq variable) (self.old.0 ++ self.old.1) ≡ None)) }
        ensures bound { IfOk result (λ new. new ≡ true → self.new ≡ ((variable, known) ∷ self.old.0, self.old.1)) }
        ensures kept { IfOk result (λ new. new ≡ false → self.new ≡ self.old) }
        ensures err { OnErr result (self.new ≡ self.old) }
    {
        self.known.push(variable, known)
    }

    /// Goes into a function.
    pub fn enter(&mut self)
        ensures { self.new ≡ ([], self.old.0 ++ self.old.1) }
    {
        self.start = self.known.len();
    }

    /// Where to come back to.
    pub fn mark(&self) -> Mark
        ensures start { result.start ≡ length self.now.1 }
        ensures len { result.len ≡ length (self.now.0 ++ self.now.1) }
    {
        Mark {
            start: self.start,
            len: self.known.len(),
        }
    }

    /// Comes back to where the mark was made.
    pub fn restore(&mut self, mark: Mark)
        ensures { (added local around : List (ℕ × Known)) → self.old.0 ++ self.old.1 ≡ added ++ (local ++ around) → mark.len ≡ length (local ++ around)
            → mark.start ≡ length around → self.new ≡ (local, around) }
    {
        self.known.truncate(mark.len);
        self.start = mark.start.min(self.known.len());
    }
}
