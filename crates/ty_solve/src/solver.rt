// Substitutions whose variables have limits.
ghost use Rattle.std.specs.Prelude.{◌≡◌, ◌<◌, ◌≤◌, ◌++◌, ◌∷◌, [], length, slice_get, take, IfOk, IfErr, OnOk, OnErr, Some, true};
ghost use Rattle.ty_table.specs.of_ty_core.Types.{var, con};
ghost use Rattle.ty_table.specs.of_ty_core.TypesOf.{head_of};
ghost use Rattle.ty_table.specs.of_ty_core.Marks.{is_inhabited};
ghost use Rattle.ty_table.specs.TypeAt.{type_at, types_at, AllBelow, IsWith};
ghost use Rattle.ty_solve.specs.Substitution.{is_below};
ghost use Rattle.ty_solve.specs.SlotsOf.{seen, row_in};
ghost use Rattle.ty_solve.specs.Said.{said};
ghost use Rattle.ty_solve.specs.Changes.{IsFitRow};
ghost use Rattle.ty_solve.specs.Solve.{IsMostGeneral, IsSmall, LeavesRest, undo};
ghost use Rattle.ty_solve.specs.Lowering.{IsSettled, undo_limits};
ghost use Rattle.ty_solve.specs.Limits.{limit_at, AllLimited, AreLimited, AreWide, Fall, AskTheSame, LeavesLimits, IsSolvableOver, IsCauseWithin};
ghost use Rattle.ty_solve.specs.LimitProps.{AreLimited-prop, AreWide-prop};
ghost use Rattle.ty_solve.specs.declared.subst.Slot.{Slot};

use crate::limit::{KeptLimit, Limit};
use crate::lower::{lower, put_back_limits};
use crate::refused::UnifyRefused;
use crate::row::Row;
use crate::solve::attempt;
use crate::subst::Subst;
use crate::trail::{Kept, put_back};
use mlc_base::memory::NoMemory;
use std::alloc::Global;
use ty_table::ty_core::mark::Mark;
use ty_table::ty_core::ty::Head;

/// Makes two types equal, and lowers limits. What is changed is kept.
fn within(
    alloc: Global,
    s: &mut Subst,
    limits: &mut Vec<Limit>,
    a: usize,
    b: usize,
    trail: &mut Vec<Kept>,
    kept: &mut Vec<KeptLimit>,
) -> Result<(), UnifyRefused>
    requires a_held { a < length s.old.types }
    requires b_held { b < length s.old.types }
    requires a_below { is_below (length s.old.slots.items) (type_at s.old.types a) ≡ true }
    requires b_below { is_below (length s.old.slots.items) (type_at s.old.types b) ≡ true }
    requires each_has_one { length limits.old.items ≡ length s.old.slots.items }
    requires limited { AreLimited (limit_at limits.old.items) (said s.old) }
    requires no_trail { trail.old.items ≡ [] }
    ensures undone { undo trail.new.items s.new.slots.items ≡ s.old.slots.items }
    ensures undone_limits { undo_limits kept.new.items limits.new.items ≡ undo_limits kept.old.items limits.old.items }
    ensures same_length { length s.new.slots.items ≡ length s.old.slots.items }
    ensures same_limits { length limits.new.items ≡ length limits.old.items }
    ensures types { s.new.types ≡ s.old.types }
    ensures general { IfOk result (λ _. IsMostGeneral (said s.old) (said s.new) (type_at s.old.types a) (type_at s.old.types b)) }
    ensures small { IfOk result (λ _. IsSmall (said s.new) (type_at s.old.types a)) }
    ensures rest { IfOk result (λ _. LeavesRest (said s.old) (said s.new) (type_at s.old.types a) (type_at s.old.types b)) }
    ensures settled { IfOk result (λ _. IsSettled (said s.old) (said s.new) (limit_at limits.old.items) (limit_at limits.new.items) (type_at s.old.types a)
        (type_at s.old.types b)) }
    ensures cause { IfErr result (IsCauseWithin (said s.old) (limit_at limits.old.items) (type_at s.old.types a) (type_at s.old.types b)) }
{
    match attempt(alloc, s, a, b, trail) {
        Err(refused) => Err(refused),
        Ok(()) => lower(alloc, s, trail.as_slice(), limits, kept),
    }
}

/// A substitution, and how far each of its variables may reach.
#[derive(Drop)]
pub struct Solver {
    pub subst: Subst,
    pub limits: Vec<Limit>,
    pub ghost each_has_one: { length limits.items ≡ length subst.slots.items },
    pub ghost limited: { AreLimited (limit_at limits.items)
        (seen subst.types subst.slots.items) } by { AreLimited-prop (limit_at limits.items) (seen subst.types subst.slots.items) },
    pub ghost wide: { AreWide (limit_at limits.items) } by { AreWide-prop (limit_at limits.items) },
}

impl Solver {
    /// No variables.
    pub fn new(alloc: Global) -> Result<Solver, NoMemory>
        ensures slots { IfOk result (λ s. s.subst.slots.items ≡ []) }
        ensures limits { IfOk result (λ s. s.limits.items ≡ []) }
    {
        let subst = Subst::new(alloc)?;
        let limits = Vec::new(alloc);
        Ok(Solver { subst, limits })
    }

    /// A new variable, with its mark and its limit.
    pub fn fresh(&mut self, mark: Mark, limit: Limit) -> Result<usize, NoMemory>
        requires inhabited { is_inhabited mark ≡ true }
        requires wide { 4 ≤ limit.names }
        ensures next { IfOk result (λ v. v ≡ length self.old.subst.slots.items) }
        ensures marked { IfOk result (λ _. self.new.subst.slots.items ≡ self.old.subst.slots.items ++ Slot.Open mark ∷ []) }
        ensures limited { IfOk result (λ _. self.new.limits.items ≡ self.old.limits.items ++ limit ∷ []) }
        ensures types { self.new.subst.types ≡ self.old.subst.types }
        ensures err { OnErr result (self.new.subst.slots.items ≡ self.old.subst.slots.items) }
        ensures err_limits { OnErr result (self.new.limits.items ≡ self.old.limits.items) }
    {
        self.limits.push(limit)?;
        match self.subst.fresh(mark) {
            Ok(v) => Ok(v),
            Err(e) => {
                self.limits.pop();
                Err(e)
            }
        }
    }

    /// A new variable that stands for a record with the fields of a row, and its limit, which no field reaches over.
    pub fn fresh_row(&mut self, row: Row, limit: Limit) -> Result<usize, NoMemory>
        requires held { AllBelow (length self.old.subst.types) row.types.items }
        requires fit { IsFitRow (length self.old.subst.slots.items) (row_in self.old.subst.types row) }
        requires wide { 4 ≤ limit.names }
        requires within { AllLimited (limit_at self.old.limits.items) limit (types_at self.old.subst.types row.types.items) }
        ensures next { IfOk result (λ v. v ≡ length self.old.subst.slots.items) }
        ensures known { IfOk result (λ _. self.new.subst.slots.items ≡ self.old.subst.slots.items ++ Slot.Partial row ∷ []) }
        ensures limited { IfOk result (λ _. self.new.limits.items ≡ self.old.limits.items ++ limit ∷ []) }
        ensures types { self.new.subst.types ≡ self.old.subst.types }
        ensures err { OnErr result (self.new.subst.slots.items ≡ self.old.subst.slots.items) }
        ensures err_limits { OnErr result (self.new.limits.items ≡ self.old.limits.items) }
    {
        self.limits.push(limit)?;
        match self.subst.fresh_row(row) {
            Ok(v) => Ok(v),
            Err(e) => {
                self.limits.pop();
                Err(e)
            }
        }
    }

    /// The type that is a variable.
    pub fn variable(&mut self, alloc: Global, v: usize) -> Result<usize, NoMemory>
        requires { v < length self.old.subst.slots.items }
        ensures kept { OnOk result (IsWith self.old.subst.types (var v) self.new.subst.types) }
        ensures held { IfOk result (λ k. slice_get self.new.subst.types k ≡ Some (var v)) }
        ensures earlier_stay { take (length self.old.subst.types) self.new.subst.types ≡ self.old.subst.types }
        ensures slots { self.new.subst.slots.items ≡ self.old.subst.slots.items }
        ensures limits { self.new.limits.items ≡ self.old.limits.items }
        ensures says { said self.new.subst ≡ said self.old.subst }
        ensures err { OnErr result (self.new.subst.types ≡ self.old.subst.types) }
    {
        self.subst.variable(alloc, v)
    }

    /// The type of a symbol with parts.
    pub fn apply(&mut self, alloc: Global, head: Head, parts: &[usize]) -> Result<usize, NoMemory>
        requires { AllBelow (length self.old.subst.types) parts.now }
        ensures kept { OnOk result (IsWith self.old.subst.types (con (head_of head) (types_at self.old.subst.types parts.now)) self.new.subst.types) }
        ensures held { IfOk result (λ k. slice_get self.new.subst.types k ≡ Some (con (head_of head) (types_at self.old.subst.types parts.now))) }
        ensures earlier_stay { take (length self.old.subst.types) self.new.subst.types ≡ self.old.subst.types }
        ensures slots { self.new.subst.slots.items ≡ self.old.subst.slots.items }
        ensures limits { self.new.limits.items ≡ self.old.limits.items }
        ensures says { said self.new.subst ≡ said self.old.subst }
        ensures err { OnErr result (self.new.subst.types ≡ self.old.subst.types) }
    {
        self.subst.apply(alloc, head, parts)
    }

    /// Makes two types equal, by the least change. A refusal changes nothing.
    pub fn unify(&mut self, alloc: Global, a: usize, b: usize) -> Result<(), UnifyRefused>
        requires a_held { a < length self.old.subst.types }
        requires b_held { b < length self.old.subst.types }
        requires a_below { is_below (length self.old.subst.slots.items) (type_at self.old.subst.types a) ≡ true }
        requires b_below { is_below (length self.old.subst.slots.items) (type_at self.old.subst.types b) ≡ true }

        ensures general { IfOk result (λ _. IsMostGeneral (said self.old.subst) (said self.new.subst) (type_at self.old.subst.types a)
            (type_at self.old.subst.types b)) }
        ensures limits { IfOk result (λ _. AskTheSame (said self.new.subst) (limit_at self.old.limits.items) (limit_at self.new.limits.items)) }
        ensures solvable { IfOk result (λ _. IsSolvableOver (said self.new.subst) (limit_at self.new.limits.items)) }
        ensures small { IfOk result (λ _. IsSmall (said self.new.subst) (type_at self.old.subst.types a)) }
        ensures fall { IfOk result (λ _. Fall (limit_at self.old.limits.items) (limit_at self.new.limits.items)) }
        ensures rest { IfOk result (λ _. LeavesRest (said self.old.subst) (said self.new.subst) (type_at self.old.subst.types a)
            (type_at self.old.subst.types b)) }
        ensures rest_limits { IfOk result (λ _. LeavesLimits (said self.old.subst) (limit_at self.old.limits.items) (limit_at self.new.limits.items)
            (type_at self.old.subst.types a) (type_at self.old.subst.types b)) }
        ensures same_length { IfOk result (λ _. length self.new.subst.slots.items ≡ length self.old.subst.slots.items) }
        ensures types { self.new.subst.types ≡ self.old.subst.types }

        ensures cause { IfErr result (IsCauseWithin (said self.old.subst) (limit_at self.old.limits.items) (type_at self.old.subst.types a)
            (type_at self.old.subst.types b)) }
        ensures unchanged { OnErr result (self.new.subst.slots.items ≡ self.old.subst.slots.items) }
        ensures unchanged_limits { OnErr result (self.new.limits.items ≡ self.old.limits.items) }
    {
        let mut trail = Vec::new(alloc);
        let mut kept = Vec::new(alloc);
        match within(
            alloc,
            &mut self.subst,
            &mut self.limits,
            a,
            b,
            &mut trail,
            &mut kept,
        ) {
            Ok(()) => Ok(()),
            Err(refused) => {
                put_back(&mut self.subst.slots, &mut trail);
                put_back_limits(&mut self.limits, &mut kept);
                Err(refused)
            }
        }
    }
}
