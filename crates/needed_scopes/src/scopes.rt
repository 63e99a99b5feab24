// Scopes of variables, and the lists of types at which what is bound there is needed.
ghost use Rattle.std.specs.Prelude.{◌≡◌, ◌∷◌, [], drop, IfOk};
ghost use Rattle.needed_scopes.specs.Scopes.{of_variable, of_binding, with_variable, IsBinding, noted_at, needed_first};
ghost use Rattle.needed_scopes.specs.Reads.{scopes_of, AreKept};

use mlc_base::memory::NoMemory;
use mono_sets::sets::Sets;
use scoped_map::scoped::Scoped;
use std::alloc::Global;

/// A scope: how many variables were bound before it, and the list of the first copy, if the binding is copied.
#[derive(Clone, Copy)]
pub struct Scope {
    pub bound: usize,
    pub unit: Option<usize>,
}

/// Scopes, the innermost last, each with the lists at which it is needed so far. A variable has the number of its scope.
#[derive(Drop)]
pub struct Scopes {
    pub variables: Scoped<usize>,
    pub scopes: Vec<Scope>,
    pub needed: Sets,
}

impl Scopes {
    /// None.
    pub fn new(alloc: Global) -> Scopes
        ensures kept { AreKept result }
        ensures none { scopes_of result ≡ [] }
    {
        Scopes {
            variables: Scoped::new(alloc),
            scopes: Vec::new(alloc),
            needed: Sets::new(alloc),
        }
    }

    /// The scope of a variable of which nothing is copied.
    pub fn open_variable(&mut self, alloc: Global, variable: usize) -> Result<(), NoMemory>
        requires { AreKept self.old }
        ensures kept { IfOk result (λ _. AreKept self.new) }
        ensures opened { IfOk result (λ _. scopes_of self.new ≡ of_variable variable ∷ scopes_of self.old) }
    {
        let bound = self.variables.len();
        let number = self.scopes.len();
        self.scopes.push(Scope { bound, unit: None })?;
        self.needed.push(alloc)?;
        self.variables.bind(variable, number)
    }

    /// The scope of a binding that is copied, whose first copy is at the list `unit`. Its variables follow by `add`.
    pub fn open_binding(&mut self, alloc: Global, unit: usize) -> Result<(), NoMemory>
        requires { AreKept self.old }
        ensures kept { IfOk result (λ _. AreKept self.new) }
        ensures opened { IfOk result (λ _. scopes_of self.new ≡ of_binding [] unit [] ∷ scopes_of self.old) }
    {
        let bound = self.variables.len();
        self.scopes.push(Scope {
            bound,
            unit: Some(unit),
        })?;
        self.needed.push(alloc)
    }

    /// One more variable of the innermost scope, in front of those that it has.
    pub fn add(&mut self, variable: usize) -> Result<(), NoMemory>
        requires kept { AreKept self.old }
        requires binding { IsBinding (scopes_of self.old) }
        ensures kept { IfOk result (λ _. AreKept self.new) }
        ensures added { IfOk result (λ _. scopes_of self.new ≡ with_variable variable (scopes_of self.old)) }
    {
        let number = self.scopes.len() - 1;
        self.variables.bind(variable, number)
    }

    /// A copy of the variable at this list is needed: the innermost scope of it is told so.
    pub fn note(&mut self, variable: usize, list: usize) -> Result<(), NoMemory>
        requires { AreKept self.old }
        ensures kept { IfOk result (λ _. AreKept self.new) }
        ensures noted { IfOk result (λ _. scopes_of self.new ≡ noted_at variable list (scopes_of self.old)) }
    {
        let Some(at) = self.variables.find(variable) else {
            return Ok(());
        };
        let Some(unit) = self.scopes[at].unit else {
            return Ok(());
        };
        if unit == list {
            return Ok(());
        }
        self.needed.add(at, list)
    }

    /// Leaves the innermost scope. The lists at which it was needed, the first one that was found first.
    pub fn close(&mut self, alloc: Global) -> Vec<usize>
        requires { AreKept self.old }
        ensures kept { AreKept self.new }
        ensures left { scopes_of self.new ≡ drop 1 (scopes_of self.old) }
        ensures lists { result.items ≡ needed_first (scopes_of self.old) }
    {
        let Some(scope) = self.scopes.pop() else {
            return Vec::new(alloc);
        };
        self.variables.truncate(scope.bound);
        match self.needed.pop() {
            Some(lists) => lists,
            None => Vec::new(alloc),
        }
    }
}
