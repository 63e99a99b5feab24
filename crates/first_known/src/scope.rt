// Variables in scope, the latest first. A variable may be bound again: it is in scope until all its bindings are left.
ghost use Rattle.std.specs.Prelude.{◌≡◌, ◌∷◌, ◌-◌, ◌++◌, ◌↔◌, List, ℕ, [], drop, length, reverse, IfOk, IsTrue};
ghost use Rattle.first_values.specs.WellFormed.{is_among, AreIn, PiecesIn};
ghost use Rattle.first_tables.specs.TablesOf.{piece_of};
ghost use Rattle.std.specs.Prelude.{map};

use first_tables::operation::Piece;
use indexmap::IndexMap;
use mlc_base::memory::NoMemory;
use std::alloc::Global;
use std::marker::Model;

/// A variable, and whether it was in scope before.
#[derive(Clone, Copy)]
pub struct Bound {
    pub variable: usize,
    pub before: bool,
}

/// The variables in scope, found by hash.
#[derive(Drop)]
pub struct Scope {
    bound: Vec<Bound>,
    known: IndexMap<usize, bool>,
}

impl Model for Scope {
    ghost use Rattle.std.specs.Prelude.{ℕ, List, reverse};
    ghost use Rattle.first_known.specs.Logs.{variables_in, IsLog};

    ghost Value = { List ℕ };

    ghost view = { λ s. variables_in (reverse s.bound.items) };

    ghost invariant = { λ s. IsLog (reverse s.bound.items) s.known.entries };
}

impl Scope {
    /// No variable.
    pub fn new(alloc: Global) -> Scope
        ensures { result ≡ [] }
    {
        Scope {
            bound: Vec::new(alloc),
            known: IndexMap::new(alloc),
        }
    }

    /// How many bindings are in scope.
    pub fn len(&self) -> usize
        ensures { result ≡ length self.now }
    {
        self.bound.len()
    }

    /// Whether a variable is in scope.
    pub fn has(&self, variable: usize) -> bool
        ensures { result ≡ is_among variable self.now }
    {
        match self.known.get(&variable) {
            Some(known) => *known,
            None => false,
        }
    }

    /// Whether each of some variables is.
    pub fn has_all(&self, variables: &[usize]) -> bool
        ensures { IsTrue result ↔ AreIn self.now variables.now }
    {
        let mut all = true;
        for i in 0..variables.len() {
            let here = self.has(variables[i]);
            all = all && here;
        }
        all
    }

    /// Whether the variables of some pieces are.
    pub fn has_pieces(&self, pieces: &[Piece]) -> bool
        ensures { IsTrue result ↔ PiecesIn self.now (map piece_of pieces.now) }
    {
        let mut all = true;
        for i in 0..pieces.len() {
            let variable = match pieces[i] {
                Piece::One(variable) => variable,
                Piece::Run {
                    cell,
                    from: _,
                    count: _,
                } => cell,
            };
            let here = self.has(variable);
            all = all && here;
        }
        all
    }

    /// Binds a variable.
    pub fn bind(&mut self, variable: usize) -> Result<(), NoMemory>
        ensures { IfOk result (λ _. self.new ≡ variable ∷ self.old) }
    {
        let before = self.has(variable);
        self.bound.push(Bound { variable, before })?;
        match self.known.insert(variable, true) {
            Ok(_) => Ok(()),
            Err(_) => {
                self.bound.pop();
                Err(NoMemory)
            }
        }
    }

    /// Binds variables, the last one last.
    pub fn bind_all(&mut self, variables: &[usize]) -> Result<(), NoMemory>
        ensures { IfOk result (λ _. self.new ≡ variables.now ++ self.old) }
    {
        let mut left = variables.len();
        while left > 0 {
            left -= 1;
            self.bind(variables[left])?;
        }
        Ok(())
    }

    /// Leaves the scope of the latest binding.
    fn leave(&mut self)
        ensures { self.new ≡ drop 1 self.old }
    {
        if let Some(last) = self.bound.pop() {
            let _ = self.known.insert(last.variable, last.before);
        }
    }

    /// Leaves all but the first so many bindings.
    pub fn truncate(&mut self, len: usize)
        ensures { self.new ≡ drop (length self.old - len) self.old }
    {
        while self.len() > len {
            self.leave();
        }
    }
}
