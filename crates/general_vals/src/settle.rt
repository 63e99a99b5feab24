// Types with no bound variables, for what comes into scope.
ghost use Rattle.std.specs.Prelude.{◌≡◌, ◌<◌, ℕ, List, length, take, true, IfOk};
ghost use Rattle.ty_core.specs.Types.{Typ};
ghost use Rattle.ty_table.specs.TypeAt.{type_at};
ghost use Rattle.ty_solve.specs.Said.{said};
ghost use Rattle.ty_solve.specs.Substitution.{Fits, is_below, is_in, is_open, sub};
ghost use Rattle.ty_instance.specs.Images.{IsResolved};
ghost use Rattle.elab_steps.specs.Growing.{Always, Grows, HasType};
ghost use Rattle.elab_steps.specs.World.{type_of};
ghost use Rattle.elab_steps.specs.Tidy.{IsTidy};
ghost use Rattle.general_worlds.specs.Tidy.{AreOpen};
ghost use Rattle.general_vals.specs.Settling.{IsMade, Settles};

use elab_state::state::State;
use mlc_base::memory::NoMemory;
use std::alloc::Global;
use ty_instance::resolve::resolve;
use ty_solve::solver::Solver;

/// A type under the substitution of a solver.
fn resolve_within(alloc: Global, solver: &mut Solver, ty: usize) -> Result<usize, NoMemory>
    requires { ty < length solver.old.subst.types }
    ensures held { IfOk result (λ r. r < length solver.new.subst.types) }
    ensures is { IfOk result (λ r. IsResolved (said solver.old.subst) (type_at solver.old.subst.types ty) (type_at solver.new.subst.types r)) }
    ensures same { IfOk result (λ r. (f : ℕ → Typ) → Fits f (said solver.old.subst)
        → sub f (type_at solver.new.subst.types r) ≡ sub f (type_at solver.old.subst.types ty)) }
    ensures open_in { IfOk result (λ r. (v : ℕ) → is_in v (type_at solver.new.subst.types r) ≡ true → is_open (said solver.old.subst v) ≡ true) }
    ensures below { IfOk result (λ r. is_below (length solver.old.subst.slots.items) (type_at solver.old.subst.types ty) ≡ true
        → is_below (length solver.old.subst.slots.items) (type_at solver.new.subst.types r) ≡ true) }
    ensures earlier_stay { take (length solver.old.subst.types) solver.new.subst.types ≡ solver.old.subst.types }
    ensures slots { solver.new.subst.slots.items ≡ solver.old.subst.slots.items }
    ensures limits { solver.new.limits.items ≡ solver.old.limits.items }
    ensures says { said solver.new.subst ≡ said solver.old.subst }
{
    resolve(alloc, &mut solver.subst, ty)
}

/// The same type with no bound variables in it.
pub fn settled_type(alloc: Global, state: &mut State, ty: usize) -> Result<usize, NoMemory>
    requires { IsMade state.old ty }
    ensures grows { IfOk result (λ _. Grows state.old state.new) }
    ensures is { IfOk result (λ r. HasType state.old ty → HasType state.new r) }
    ensures settles { IfOk result (λ r. Settles state.old state.new ty r) }
    ensures open { IfOk result (λ r. AreOpen state.new r) }
    ensures same { IfOk result (λ r. Always state.new (λ W. type_of W r ≡ type_of W ty)) }
    ensures tidy { IfOk result (λ _. (l : ℕ) → IsTidy state.old l → IsTidy state.new l) }
    ensures next { IfOk result (λ _. state.new.next ≡ state.old.next) }
{
    resolve_within(alloc, &mut state.solver, ty)
}
