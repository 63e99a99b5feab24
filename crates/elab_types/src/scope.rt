// What type variables and type constructors stand for.
ghost use Rattle.std.specs.Prelude.{◌≡◌, ◌<◌, ◌≤◌, ◌∷◌, List, [], length, nat_eq, IfOk, OnErr};
ghost use Rattle.ty_core.specs.Types.{Typ};
ghost use Rattle.ty_table.specs.TypeAt.{type_at, top};
ghost use Rattle.elab_types.specs.Reading.{entry_of, left_at, Holds};

use mlc_base::memory::NoMemory;
use mlc_names::names::Name;
use scoped_map::scoped::Scoped;
use sml_tree::ident::LongId;
use std::alloc::Global;

/// Schemes one after the other: so many, from a number on.
#[derive(Clone, Copy)]
pub struct SchemeRange {
    pub first: usize,
    pub count: usize,
}

/// A type function: so many parameters, which are the first variables of its body. And its constructors, which have these schemes.
#[derive(Clone, Copy)]
pub struct TypeEntry {
    pub arity: usize,
    pub body: usize,
    pub constructors: SchemeRange,
}

/// No constructors.
pub const NO_CONSTRUCTORS: SchemeRange = SchemeRange { first: 0, count: 0 };

/// How much is in scope.
#[derive(Clone, Copy)]
pub struct ScopeMark {
    pub tyvars: usize,
    pub types: usize,
}

/// Type variables with types, and type constructors. No structure has type constructors.
#[derive(Drop)]
pub struct TypeScope {
    pub tyvars: Scoped<usize>,
    pub types: Scoped<TypeEntry>,
}

impl TypeScope {
    /// Nothing.
    #[tactic(auto, using(crate::proofs::Holding::holds_nothing))]
    pub fn new(alloc: Global) -> TypeScope
        ensures tyvars { result.tyvars ≡ [] }
        ensures types { result.types ≡ [] }
        ensures holds { (types : List Typ) → Holds types result }
    {
        TypeScope {
            tyvars: Scoped::new(alloc),
            types: Scoped::new(alloc),
        }
    }

    /// What a long type constructor stands for.
    pub fn find(&self, long: &LongId) -> Option<TypeEntry>
        ensures { result ≡ entry_of self.now long.now.qualifiers.items long.now.id }
    {
        if long.qualifiers.is_empty() {
            self.types.find(long.id.number() as usize)
        } else {
            None
        }
    }
    /// Brings a type variable into scope, with the number of its type.
    #[tactic(auto, using(crate::proofs::Holding::holds_with_tyvar))]
    pub fn bind_tyvar(&mut self, name: Name, number: usize) -> Result<(), NoMemory>
        ensures bound { IfOk result (λ _. self.new.tyvars ≡ (name, number) ∷ self.old.tyvars) }
        ensures types { self.new.types ≡ self.old.types }
        ensures holds { IfOk result (λ _. (types : List Typ) → Holds types self.old → number < length types → Holds types self.new) }
        ensures err { OnErr result (self.new.tyvars ≡ self.old.tyvars) }
    {
        self.tyvars.bind(name.number() as usize, number)
    }

    /// Brings a type constructor into scope.
    #[tactic(auto, using(crate::proofs::Holding::holds_with_type))]
    pub fn bind_type(&mut self, name: Name, entry: TypeEntry) -> Result<(), NoMemory>
        ensures bound { IfOk result (λ _. self.new.types ≡ (name, entry) ∷ self.old.types) }
        ensures tyvars { self.new.tyvars ≡ self.old.tyvars }
        ensures holds { IfOk result (λ _. (types : List Typ) → Holds types self.old → entry.body < length types → top (type_at types entry.body) ≤ entry.arity
            → Holds types self.new) }
        ensures err { OnErr result (self.new.types ≡ self.old.types) }
    {
        self.types.bind(name.number() as usize, entry)
    }

    /// How much is in scope now.
    pub fn mark(&self) -> ScopeMark
        ensures tyvars { result.tyvars ≡ length self.now.tyvars }
        ensures types { result.types ≡ length self.now.types }
    {
        ScopeMark {
            tyvars: self.tyvars.len(),
            types: self.types.len(),
        }
    }

    /// Leaves what came into scope since a mark.
    #[tactic(auto, using(crate::proofs::Holding::holds_left))]
    pub fn leave(&mut self, mark: ScopeMark)
        ensures tyvars { self.new.tyvars ≡ left_at mark.tyvars self.old.tyvars }
        ensures types { self.new.types ≡ left_at mark.types self.old.types }
        ensures holds { (types : List Typ) → Holds types self.old → Holds types self.new }
    {
        self.tyvars.truncate(mark.tyvars);
        self.types.truncate(mark.types);
    }
}
