// The numbers of the source's variables.
ghost use Rattle.std.specs.Prelude.{◌≡◌, ◌∷◌, ◌-◌, [], IfOk, length, drop};
ghost use Rattle.match_names.specs.Bindings.{names_of};

use indexmap::IndexMap;
use mlc_base::memory::NoMemory;
use std::alloc::Global;
use std::marker::Model;

/// A variable that has got a number, and the number that it had before.
#[derive(Clone, Copy)]
pub struct Bound {
    pub variable: usize,
    pub number: usize,
    pub before: usize,
}

/// Variables with numbers, the latest first, found by hash. A variable that has none has the number 0.
#[derive(Drop)]
pub struct Names {
    current: IndexMap<usize, usize>,
    bound: Vec<Bound>,
}

impl Model for Names {
    ghost use Rattle.std.specs.Prelude.{ℕ, List, reverse};
    ghost use Rattle.match_names.specs.Bindings.{bindings, IsCurrent};

    ghost Value = { List (ℕ × ℕ) };

    ghost view = { λ n. bindings (reverse n.bound.items) };

    ghost invariant = { λ n. IsCurrent n.current.entries (reverse n.bound.items) };
}

impl Names {
    /// None.
    pub fn new(alloc: Global) -> Names
        ensures { result ≡ [] }
    {
        Names {
            current: IndexMap::new(alloc),
            bound: Vec::new(alloc),
        }
    }

    /// How many times a number was given.
    pub fn len(&self) -> usize
        ensures { result ≡ length self.now }
    {
        self.bound.len()
    }

    /// The number of a variable.
    pub fn number(&self, variable: usize) -> usize
        ensures { result ≡ names_of self.now variable }
    {
        match self.current.get(&variable) {
            Some(number) => *number,
            None => 0,
        }
    }

    /// Gives a variable a number.
    pub fn bind(&mut self, variable: usize, number: usize) -> Result<(), NoMemory>
        ensures { IfOk result (λ _. self.new ≡ (variable, number) ∷ self.old) }
    {
        let before = match self.current.get(&variable) {
            Some(found) => *found,
            None => 0,
        };
        self.bound.push(Bound {
            variable,
            number,
            before,
        })?;
        match self.current.insert(variable, number) {
            Ok(_) => Ok(()),
            Err(_) => {
                self.bound.pop();
                Err(NoMemory)
            }
        }
    }

    /// Takes back the latest number.
    fn unbind(&mut self) -> Result<(), NoMemory>
        ensures { IfOk result (λ _. self.new ≡ drop 1 self.old) }
    {
        let len = self.bound.len();
        if len == 0 {
            return Ok(());
        }
        let last = self.bound[len - 1];
        let _ = self.current.insert(last.variable, last.before)?;
        self.bound.pop();
        Ok(())
    }

    /// Takes back numbers until so many are left.
    pub fn restore(&mut self, len: usize) -> Result<(), NoMemory>
        ensures { IfOk result (λ _. self.new ≡ drop (length self.old - len) self.old) }
    {
        while self.len() > len {
            self.unbind()?;
        }
        Ok(())
    }
}
