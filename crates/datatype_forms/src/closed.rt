// Types of the state that are over parameters, which stand for the first variables.
ghost use Rattle.std.specs.Prelude.{◌≡◌, ◌<◌, [], ◌∷◌, Some, length, map, slice_get, take, IfOk};
ghost use Rattle.ty_core.specs.Types.{con, name as named, none};
ghost use Rattle.ty_core.specs.Statics.{variables as first_variables};
ghost use Rattle.ty_core.specs.TypesOf.{head_of};
ghost use Rattle.ty_table.specs.TypeAt.{AllBelow, types_at};
ghost use Rattle.ty_solve.specs.SlotsOf.{seen};
ghost use Rattle.ty_solve.specs.Said.{said};
ghost use Rattle.elab_state.specs.States.{types_in};
ghost use Rattle.datatype_forms.specs.Steps.{IsStep};

use elab_state::state::State;
use mlc_base::memory::NoMemory;
use std::alloc::Global;
use ty_core::name::TyName;
use ty_core::ty::Head;
use ty_solve::solver::Solver;
use ty_solve::subst::Subst;
use ty_table::types::Types;

/// The first so many variables.
fn variables_at(alloc: Global, types: &mut Types, count: u32) -> Result<Vec<usize>, NoMemory>
    ensures are { IfOk result (λ ks. types_at types.new ks.items ≡ first_variables 0 count) }
    ensures held { IfOk result (λ ks. AllBelow (length types.new) ks.items) }
    ensures earlier_stay { take (length types.old) types.new ≡ types.old }
{
    let mut numbers = Vec::new(alloc);
    for i in 0..count {
        let number = types.variable(alloc, i as usize)?;
        numbers.push(number)?;
    }
    Ok(numbers)
}

/// In the table of a substitution. What is said of variables stays.
fn variables_in(alloc: Global, s: &mut Subst, count: u32) -> Result<Vec<usize>, NoMemory>
    ensures are { IfOk result (λ ks. types_at s.new.types ks.items ≡ first_variables 0 count) }
    ensures held { IfOk result (λ ks. AllBelow (length s.new.types) ks.items) }
    ensures earlier_stay { take (length s.old.types) s.new.types ≡ s.old.types }
    ensures slots { s.new.slots.items ≡ s.old.slots.items }
    ensures says { seen s.new.types s.new.slots.items ≡ seen s.old.types s.old.slots.items }
{
    variables_at(alloc, &mut s.types, count)
}

/// In the table of a solver.
fn variables_within(alloc: Global, solver: &mut Solver, count: u32) -> Result<Vec<usize>, NoMemory>
    ensures are { IfOk result (λ ks. types_at solver.new.subst.types ks.items ≡ first_variables 0 count) }
    ensures held { IfOk result (λ ks. AllBelow (length solver.new.subst.types) ks.items) }
    ensures earlier_stay { take (length solver.old.subst.types) solver.new.subst.types ≡ solver.old.subst.types }
    ensures slots { solver.new.subst.slots.items ≡ solver.old.subst.slots.items }
    ensures limits { solver.new.limits.items ≡ solver.old.limits.items }
    ensures says { said solver.new.subst ≡ said solver.old.subst }
{
    variables_in(alloc, &mut solver.subst, count)
}

/// The first so many variables.
fn variables(alloc: Global, state: &mut State, count: u32) -> Result<Vec<usize>, NoMemory>
    ensures step { IfOk result (λ _. IsStep state.old state.new) }
    ensures are { IfOk result (λ ks. types_at (types_in state.new) ks.items ≡ first_variables 0 count) }
    ensures held { IfOk result (λ ks. AllBelow (length (types_in state.new)) ks.items) }
{
    variables_within(alloc, &mut state.solver, count)
}

/// The type of a symbol with parts, whatever their variables are.
pub fn closed_apply(
    alloc: Global,
    state: &mut State,
    head: Head,
    parts: &[usize],
) -> Result<usize, NoMemory>
    requires { AllBelow (length (types_in state.old)) parts.now }
    ensures step { IfOk result (λ _. IsStep state.old state.new) }
    ensures is { IfOk result (λ r. slice_get (types_in state.new) r ≡ Some (con (head_of head) (types_at (types_in state.old) parts.now))) }
{
    state.solver.apply(alloc, head, parts)
}

/// The type of a type name at its parameters.
pub fn named_type(alloc: Global, state: &mut State, name: TyName) -> Result<usize, NoMemory>
    ensures step { IfOk result (λ _. IsStep state.old state.new) }
    ensures is { IfOk result (λ r. slice_get (types_in state.new) r ≡ Some (con (named name) (first_variables 0 name.arity))) }
{
    let parts = variables(alloc, state, name.arity)?;
    let number = closed_apply(alloc, state, Head::Named(name), &parts)?;
    Ok(number)
}
