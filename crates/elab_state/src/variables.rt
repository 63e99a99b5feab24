// Variables and types of the solver, in a state.
ghost use Rattle.std.specs.Prelude.{◌≡◌, ◌<◌, ◌≤◌, ◌+◌, ◌++◌, ◌∷◌, ℕ, [], List, length, map, slice_get, Some, take, true, IfOk, IfErr, OnErr};
ghost use Rattle.std.specs.List.{AllByRecursion};
ghost use Rattle.ty_core.specs.Types.{Typ, var, con};
ghost use Rattle.ty_core.specs.TypesOf.{head_of};
ghost use Rattle.ty_core.specs.Marks.{is_inhabited};
ghost use Rattle.ty_core.specs.Statics.{replace};
ghost use Rattle.ty_core.specs.declared.scheme.Quantified.{Quantified};
ghost use Rattle.ty_table.specs.TypeAt.{type_at, types_at, AllBelow};
ghost use Rattle.ty_instance.specs.of_ty_solve.Substitution.{free, is_below};
ghost use Rattle.ty_instance.specs.of_ty_solve.Limits.{IsSolvableOver, IsCauseWithin, LeavesLimits, Fall};
ghost use Rattle.ty_instance.specs.of_ty_solve.Solve.{IsMostGeneral, IsSmall, LeavesRest};
ghost use Rattle.elab_state.specs.States.{types_in, made, said_in, limit_in, value_in, IsType};
ghost use Rattle.elab_state.specs.Generic.{IsGeneric};
ghost use Rattle.elab_state.specs.Steps.{Extends};

use crate::state::State;
use mlc_base::memory::NoMemory;
use std::alloc::Global;
use ty_core::mark::Mark;
use ty_core::ty::Head;
use ty_instance::ty_solve::limit::Limit;
use ty_instance::ty_solve::refused::UnifyRefused;

impl State {
    /// A new variable.
    pub fn fresh(&mut self, mark: Mark, limit: Limit) -> Result<usize, NoMemory>
        requires inhabited { is_inhabited mark ≡ true }
        requires wide { 4 ≤ limit.names }
        ensures extends { IfOk result (λ _. (l : ℕ) → Extends l self.old self.new) }
        ensures next { IfOk result (λ v. v ≡ made self.old) }
        ensures made { IfOk result (λ v. made self.new ≡ v + 1) }
        ensures says { IfOk result (λ v. said_in self.new v ≡ free mark) }
        ensures limited { IfOk result (λ v. limit_in self.new v ≡ limit) }
        ensures types { types_in self.new ≡ types_in self.old }
    {
        let variable = self.solver.fresh(mark, limit)?;
        Ok(variable)
    }

    /// Makes two types equal, by the least change. A refusal changes nothing.
    pub fn unify(&mut self, alloc: Global, a: usize, b: usize) -> Result<(), UnifyRefused>
        requires a_held { a < length (types_in self.old) }
        requires b_held { b < length (types_in self.old) }
        requires a_below { is_below (made self.old) (type_at (types_in self.old) a) ≡ true }
        requires b_below { is_below (made self.old) (type_at (types_in self.old) b) ≡ true }
        ensures extends { IfOk result (λ _. (l : ℕ) → Extends l self.old self.new) }
        ensures equal { IfOk result (λ _. (D : ℕ → List Quantified) (g : ℕ → Typ) → IsGeneric self.new D g → value_in self.new g a ≡ value_in self.new g b) }
        ensures solvable { IfOk result (λ _. IsSolvableOver (said_in self.new) (limit_in self.new)) }
        ensures small { IfOk result (λ _. IsSmall (said_in self.new) (type_at (types_in self.old) a)) }
        ensures rest { IfOk result (λ _. LeavesRest (said_in self.old) (said_in self.new) (type_at (types_in self.old) a) (type_at (types_in self.old) b)) }
        ensures rest_limits { IfOk result (λ _. LeavesLimits (said_in self.old) (limit_in self.old) (limit_in self.new) (type_at (types_in self.old) a)
            (type_at (types_in self.old) b)) }
        ensures made { made self.new ≡ made self.old }
        ensures types { types_in self.new ≡ types_in self.old }
        ensures cause { IfErr result (IsCauseWithin (said_in self.old) (limit_in self.old) (type_at (types_in self.old) a) (type_at (types_in self.old) b)) }
        ensures unchanged { OnErr result (self.new.solver.subst.slots.items ≡ self.old.solver.subst.slots.items) }
        ensures unchanged_limits { OnErr result (self.new.solver.limits.items ≡ self.old.solver.limits.items) }
    {
        self.solver.unify(alloc, a, b)?;
        Ok(())
    }
}
