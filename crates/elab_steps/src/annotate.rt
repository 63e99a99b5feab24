// Types that are written in a program, in the state.
ghost use Rattle.std.specs.Prelude.{◌≡◌, length, take, IfOk};
ghost use Rattle.elab_types.specs.of_ty_solve.SlotsOf.{seen};
ghost use Rattle.elab_types.specs.of_ty_solve.Said.{said};
ghost use Rattle.sml_tree.specs.TreeOf.{ty_of};
ghost use Rattle.elab_types.specs.Annotations.{IsTypeOf};
ghost use Rattle.elab_types.specs.Reading.{AreKnown, Holds};
ghost use Rattle.elab_state.specs.States.{types_in, made};
ghost use Rattle.elab_steps.specs.Growing.{AreLive, HasType, Grows};

use elab_state::state::State;
use elab_types::refused::Refused;
use elab_types::scope::TypeScope;
use elab_types::ty_solve::solver::Solver;
use elab_types::ty_solve::subst::Subst;
use elab_types::whole::annotation;
use mlc_base::place::Place;
use sml_tree::tree::Ty;
use std::alloc::Global;

/// In the table of a substitution. What is said of variables stays.
fn annotation_in(
    alloc: Global,
    s: &mut Subst,
    scope: &TypeScope,
    place: Place,
    ty: &Ty,
) -> Result<usize, Refused>
    requires { Holds s.old.types scope.now }
    ensures is { IfOk result (λ r. IsTypeOf s.old.types s.new.types scope.now (ty_of ty.now) r) }
    ensures earlier_stay { take (length s.old.types) s.new.types ≡ s.old.types }
    ensures slots { s.new.slots.items ≡ s.old.slots.items }
    ensures says { seen s.new.types s.new.slots.items ≡ seen s.old.types s.old.slots.items }
{
    annotation(alloc, &mut s.types, scope, place, ty)
}

/// In the table of a solver.
fn annotation_within(
    alloc: Global,
    solver: &mut Solver,
    scope: &TypeScope,
    place: Place,
    ty: &Ty,
) -> Result<usize, Refused>
    requires { Holds solver.old.subst.types scope.now }
    ensures is { IfOk result (λ r. IsTypeOf solver.old.subst.types solver.new.subst.types scope.now (ty_of ty.now) r) }
    ensures earlier_stay { take (length solver.old.subst.types) solver.new.subst.types ≡ solver.old.subst.types }
    ensures slots { solver.new.subst.slots.items ≡ solver.old.subst.slots.items }
    ensures limits { solver.new.limits.items ≡ solver.old.limits.items }
    ensures says { said solver.new.subst ≡ said solver.old.subst }
{
    annotation_in(alloc, &mut solver.subst, scope, place, ty)
}

/// The type that a type expression at a place stands for.
pub fn annotated(
    alloc: Global,
    state: &mut State,
    scope: &TypeScope,
    place: Place,
    ty: &Ty,
) -> Result<usize, Refused>
    requires holds { Holds (types_in state.old) scope.now }
    requires known { AreKnown (made state.old) (types_in state.old) scope.now }
    requires live { AreLive state.old scope.now }
    ensures grows { IfOk result (λ _. Grows state.old state.new) }
    ensures is { IfOk result (λ r. HasType state.new r) }
    ensures written { IfOk result (λ r. IsTypeOf (types_in state.old) (types_in state.new) scope.now (ty_of ty.now) r) }
    ensures next { IfOk result (λ _. state.new.next ≡ state.old.next) }
{
    annotation_within(alloc, &mut state.solver, scope, place, ty)
}
