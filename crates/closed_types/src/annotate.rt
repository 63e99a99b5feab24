// Types that are written over parameters.
ghost use Rattle.std.specs.Prelude.{◌≡◌, length, take, IfOk};
ghost use Rattle.ty_solve.specs.SlotsOf.{seen};
ghost use Rattle.ty_solve.specs.Said.{said};
ghost use Rattle.sml_tree.specs.TreeOf.{ty_of};
ghost use Rattle.elab_types.specs.Annotations.{IsTypeOf};
ghost use Rattle.elab_types.specs.Reading.{Holds};
ghost use Rattle.elab_steps.specs.of_elab_state.States.{types_in};
ghost use Rattle.elab_steps.specs.Growing.{Grows};
ghost use Rattle.closed_types.specs.Parameters.{IsOverKnown};

use elab_steps::elab_state::state::State;
use elab_types::refused::Refused;
use elab_types::scope::TypeScope;
use elab_types::whole::annotation;
use mlc_base::place::Place;
use sml_tree::tree::Ty;
use std::alloc::Global;
use ty_solve::solver::Solver;
use ty_solve::subst::Subst;

/// In the table of a substitution. What is said of variables stays.
fn closed_in(
    alloc: Global,
    s: &mut Subst,
    scope: &TypeScope,
    place: Place,
    ty: &Ty,
) -> Result<usize, Refused>
    requires { Holds s.old.types scope.now }
    ensures is { IfOk result (λ r. IsTypeOf s.old.types s.new.types scope.now (ty_of ty.now) r) }
    ensures known { IfOk result (IsOverKnown s.old.types s.new.types scope.now) }
    ensures earlier_stay { take (length s.old.types) s.new.types ≡ s.old.types }
    ensures slots { s.new.slots.items ≡ s.old.slots.items }
    ensures says { seen s.new.types s.new.slots.items ≡ seen s.old.types s.old.slots.items }
{
    annotation(alloc, &mut s.types, scope, place, ty)
}

/// In the table of a solver.
fn closed_within(
    alloc: Global,
    solver: &mut Solver,
    scope: &TypeScope,
    place: Place,
    ty: &Ty,
) -> Result<usize, Refused>
    requires { Holds solver.old.subst.types scope.now }
    ensures is { IfOk result (λ r. IsTypeOf solver.old.subst.types solver.new.subst.types scope.now (ty_of ty.now) r) }
    ensures known { IfOk result (IsOverKnown solver.old.subst.types solver.new.subst.types scope.now) }
    ensures earlier_stay { take (length solver.old.subst.types) solver.new.subst.types ≡ solver.old.subst.types }
    ensures slots { solver.new.subst.slots.items ≡ solver.old.subst.slots.items }
    ensures limits { solver.new.limits.items ≡ solver.old.limits.items }
    ensures says { said solver.new.subst ≡ said solver.old.subst }
{
    closed_in(alloc, &mut solver.subst, scope, place, ty)
}

/// The type that a type expression stands for, whose variables are those of the scope's types, whatever these are.
pub fn closed_type(
    alloc: Global,
    state: &mut State,
    scope: &TypeScope,
    place: Place,
    ty: &Ty,
) -> Result<usize, Refused>
    requires { Holds (types_in state.old) scope.now }
    ensures grows { IfOk result (λ _. Grows state.old state.new) }
    ensures is { IfOk result (λ r. IsTypeOf (types_in state.old) (types_in state.new) scope.now (ty_of ty.now) r) }
    ensures known { IfOk result (IsOverKnown (types_in state.old) (types_in state.new) scope.now) }
    ensures next { IfOk result (λ _. state.new.next ≡ state.old.next) }
{
    closed_within(alloc, &mut state.solver, scope, place, ty)
}
