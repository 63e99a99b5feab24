// What each type variable stands for.
ghost use Rattle.std.specs.Prelude.{◌≡◌, ℕ, ◌+◌, ◌<◌, ◌≤◌, length, MatchOption, IfSome, IfOk, OnOk, OnErr, Some, true, false, ◌++◌, ◌∷◌, [], slice_get, slice_set, slice_index_or, take};
ghost use Rattle.ty_table.specs.of_ty_core.Types.{Typ, var, con};
ghost use Rattle.ty_table.specs.of_ty_core.TypesOf.{head_of};
ghost use Rattle.ty_table.specs.of_ty_core.Marks.{is_inhabited};
ghost use Rattle.ty_table.specs.TypeAt.{type_at, types_at, AllBelow, IsWith};
ghost use Rattle.ty_solve.specs.Substitution.{mark, free, bound, is_open, Fits};
ghost use Rattle.ty_solve.specs.SlotsOf.{seen, entry_of, row_in, row_of};
ghost use Rattle.ty_solve.specs.Held.{IsHeld, AreHeld};
ghost use Rattle.ty_solve.specs.HeldProps.{AreHeld-prop};
ghost use Rattle.ty_solve.specs.Weight.{IsAcyclic, AreBelow, AreInhabited, weight};
ghost use Rattle.ty_solve.specs.Props.{IsAcyclic-prop, AreBelow-prop, AreInhabited-prop};
ghost use Rattle.ty_solve.specs.Tasks.{MayPut};
ghost use Rattle.ty_solve.specs.Changes.{IsFitRow};
ghost use Rattle.ty_solve.specs.Finding.{StandsFor, IsWalked, Reads};

use crate::row::Row;
use mlc_base::memory::NoMemory;
use std::alloc::Global;
use std::mem;
use ty_table::ty_core::mark::Mark;
use ty_table::ty_core::ty::Head;
use ty_table::types::{Types, View};

/// What one variable stands for: any type that its mark allows, a record with the fields of a row, or one type.
#[derive(Drop)]
pub enum Slot {
    Open(Mark),
    Partial(Row),
    Full(usize),
}

/// What each variable stands for, and the types that numbers stand for.
#[derive(Drop)]
pub struct Subst {
    pub types: Types,
    pub slots: Vec<Slot>,
    pub ghost held: { AreHeld (length types) slots.items } by { AreHeld-prop (length types) slots.items },
    pub ghost below: { AreBelow (length slots.items) (seen types slots.items) } by { AreBelow-prop (length slots.items) (seen types slots.items) },
    pub ghost acyclic: { IsAcyclic (seen types slots.items) } by { IsAcyclic-prop (seen types slots.items) },
    pub ghost inhabited: { AreInhabited (seen types slots.items) } by { AreInhabited-prop (seen types slots.items) },
}

impl Subst {
    /// No variables.
    pub fn new(alloc: Global) -> Result<Subst, NoMemory>
        ensures { IfOk result (λ s. s.slots.items ≡ []) }
    {
        let types = Types::new(alloc)?;
        let slots = Vec::new(alloc);
        Ok(Subst { types, slots })
    }

    /// A new variable, with its mark.
    pub fn fresh(&mut self, mark: Mark) -> Result<usize, NoMemory>
        requires { is_inhabited mark ≡ true }
        ensures next { IfOk result (λ v. v ≡ length self.old.slots.items) }
        ensures marked { IfOk result (λ _. self.new.slots.items ≡ self.old.slots.items ++ Slot.Open mark ∷ []) }
        ensures types { self.new.types ≡ self.old.types }
        ensures err { OnErr result (self.new.slots.items ≡ self.old.slots.items) }
    {
        let v = self.slots.len();
        self.slots.push(Slot::Open(mark))?;
        Ok(v)
    }

    /// A new variable that stands for a record with the fields of a row. They may come in any order.
    pub fn fresh_row(&mut self, row: Row) -> Result<usize, NoMemory>
        requires held { AllBelow (length self.old.types) row.types.items }
        requires fit { IsFitRow (length self.old.slots.items) (row_in self.old.types row) }
        ensures next { IfOk result (λ v. v ≡ length self.old.slots.items) }
        ensures known { IfOk result (λ _. self.new.slots.items ≡ self.old.slots.items ++ Slot.Partial row ∷ []) }
        ensures types { self.new.types ≡ self.old.types }
        ensures err { OnErr result (self.new.slots.items ≡ self.old.slots.items) }
    {
        let v = self.slots.len();
        self.slots.push(Slot::Partial(row))?;
        Ok(v)
    }

    /// The type that is a variable.
    pub fn variable(&mut self, alloc: Global, v: usize) -> Result<usize, NoMemory>
        requires { v < length self.old.slots.items }
        ensures kept { OnOk result (IsWith self.old.types (var v) self.new.types) }
        ensures held { IfOk result (λ k. slice_get self.new.types k ≡ Some (var v)) }
        ensures earlier_stay { take (length self.old.types) self.new.types ≡ self.old.types }
        ensures slots { self.new.slots.items ≡ self.old.slots.items }
        ensures says { seen self.new.types self.new.slots.items ≡ seen self.old.types self.old.slots.items }
        ensures err { OnErr result (self.new.types ≡ self.old.types) }
    {
        let _slots = self.slots.len();
        self.types.variable(alloc, v)
    }

    /// The type of a symbol with parts.
    pub fn apply(&mut self, alloc: Global, head: Head, parts: &[usize]) -> Result<usize, NoMemory>
        requires { AllBelow (length self.old.types) parts.now }
        ensures kept { OnOk result (IsWith self.old.types (con (head_of head) (types_at self.old.types parts.now)) self.new.types) }
        ensures held { IfOk result (λ k. slice_get self.new.types k ≡ Some (con (head_of head) (types_at self.old.types parts.now))) }
        ensures earlier_stay { take (length self.old.types) self.new.types ≡ self.old.types }
        ensures slots { self.new.slots.items ≡ self.old.slots.items }
        ensures says { seen self.new.types self.new.slots.items ≡ seen self.old.types self.old.slots.items }
        ensures err { OnErr result (self.new.types ≡ self.old.types) }
    {
        self.types.apply(alloc, head, parts)
    }

    /// The type that a bound variable stands for.
    pub fn get(&self, v: usize) -> Option<usize>
        ensures held { IfSome result (λ t. t < length self.now.types) }
        ensures is { MatchOption result (is_open ((seen self.now.types self.now.slots.items) v) ≡ true)
            (λ t. (seen self.now.types self.now.slots.items) v ≡ bound (type_at self.now.types t)) }
    {
        if v < self.slots.len() {
            match &self.slots[v] {
                Slot::Full(t) => Some(*t),
                Slot::Open(_) => None,
                Slot::Partial(_) => None,
            }
        } else {
            None
        }
    }

    /// The row of a variable that stands for a record with its fields.
    pub fn row(&self, v: usize) -> Option<&Row>
        ensures held { IfSome result (λ r. AllBelow (length self.now.types) r.now.types.items) }
        ensures is { MatchOption result (is_open (seen self.now.types self.now.slots.items v) ≡ true
            → seen self.now.types self.now.slots.items v ≡ free (mark (seen self.now.types self.now.slots.items v)))
            (λ r. seen self.now.types self.now.slots.items v ≡ row_of (row_in self.now.types r.now)) }
    {
        if v < self.slots.len() {
            match &self.slots[v] {
                Slot::Partial(row) => Some(row),
                Slot::Open(_) => None,
                Slot::Full(_) => None,
            }
        } else {
            None
        }
    }

    /// The mark of a free variable.
    pub fn mark_of(&self, v: usize) -> Mark
        ensures { result ≡ mark ((seen self.now.types self.now.slots.items) v) }
    {
        if v < self.slots.len() {
            match &self.slots[v] {
                Slot::Full(_) => Mark::Any,
                Slot::Partial(_) => Mark::Any,
                Slot::Open(k) => *k,
            }
        } else {
            Mark::Any
        }
    }

    /// Lets a variable stand for something else. What it stood for before.
    pub fn put(&mut self, v: usize, slot: Slot) -> Slot
        requires held { IsHeld (length self.old.types) slot }
        requires may { MayPut (length self.old.slots.items) (seen self.old.types self.old.slots.items) v (entry_of self.old.types slot) }
        ensures before { result ≡ slice_index_or self.old.slots.items v result }
        ensures after { self.new.slots.items ≡ slice_set self.old.slots.items v slot }
        ensures types { self.new.types ≡ self.old.types }
    {
        mem::replace(&mut self.slots[v], slot)
    }

    /// What a type stands for, if it is a bound variable.
    pub fn step(&self, t: usize) -> Option<usize>
        ensures held { IfSome result (λ u. u < length self.now.types) }
        ensures is { MatchOption result (IsWalked (seen self.now.types self.now.slots.items) (type_at self.now.types t))
            (λ u. StandsFor (seen self.now.types self.now.slots.items) (type_at self.now.types t) (type_at self.now.types u)) }
    {
        match self.types.view(t) {
            View::Var(v) => self.get(v),
            View::Apply(_, _) => None,
        }
    }

    /// The type itself, or what it stands for in the end: a free variable, or a type that is no variable.
    pub fn find(&self, t: usize) -> usize
        ensures held { t < length self.now.types → result < length self.now.types }
        ensures reads { Reads (length self.now.slots.items) (seen self.now.types self.now.slots.items) self.now.acyclic.0 (type_at self.now.types t)
            (type_at self.now.types result) }
    {
        let mut found = t;
        while let Some(next) = self.step(found) {
            found = next;
        }
        found
    }
}
