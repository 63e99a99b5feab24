// Parameters of a binding of types: the first variables.
ghost use Rattle.std.specs.Prelude.{◌≡◌, [], length, take, IfOk};
ghost use Rattle.ty_solve.specs.Said.{said};
ghost use Rattle.ty_solve.specs.SlotsOf.{seen};
ghost use Rattle.elab_steps.specs.of_elab_state.States.{types_in};
ghost use Rattle.elab_steps.specs.Growing.{Grows};
ghost use Rattle.closed_types.specs.Parameters.{AreParameters};

use elab_steps::elab_state::state::State;
use elab_types::scope::TypeScope;
use mlc_base::memory::NoMemory;
use sml_tree::ident::Tyvar;
use std::alloc::Global;
use ty_solve::solver::Solver;
use ty_solve::subst::Subst;
use ty_table::types::Types;

/// Brings parameters into scope, where no type variable is: each stands for the variable of its place.
fn parameters_at(
    alloc: Global,
    types: &mut Types,
    scope: &mut TypeScope,
    tyvars: &[Tyvar],
) -> Result<(), NoMemory>
    requires { scope.old.tyvars ≡ [] }
    ensures are { IfOk result (λ _. AreParameters types.new 0 tyvars.now scope.new.tyvars) }
    ensures types { IfOk result (λ _. scope.new.types ≡ scope.old.types) }
    ensures earlier_stay { take (length types.old) types.new ≡ types.old }
{
    let mut i = tyvars.len();
    while i > 0 {
        i -= 1;
        let tyvar = tyvars[i];
        let number = types.variable(alloc, i)?;
        scope.bind_tyvar(tyvar.name, number)?;
    }
    Ok(())
}

/// In the table of a substitution. What is said of variables stays.
fn parameters_in(
    alloc: Global,
    s: &mut Subst,
    scope: &mut TypeScope,
    tyvars: &[Tyvar],
) -> Result<(), NoMemory>
    requires { scope.old.tyvars ≡ [] }
    ensures are { IfOk result (λ _. AreParameters s.new.types 0 tyvars.now scope.new.tyvars) }
    ensures types { IfOk result (λ _. scope.new.types ≡ scope.old.types) }
    ensures earlier_stay { take (length s.old.types) s.new.types ≡ s.old.types }
    ensures slots { s.new.slots.items ≡ s.old.slots.items }
    ensures says { seen s.new.types s.new.slots.items ≡ seen s.old.types s.old.slots.items }
{
    parameters_at(alloc, &mut s.types, scope, tyvars)
}

/// In the table of a solver.
fn parameters_within(
    alloc: Global,
    solver: &mut Solver,
    scope: &mut TypeScope,
    tyvars: &[Tyvar],
) -> Result<(), NoMemory>
    requires { scope.old.tyvars ≡ [] }
    ensures are { IfOk result (λ _. AreParameters solver.new.subst.types 0 tyvars.now scope.new.tyvars) }
    ensures types { IfOk result (λ _. scope.new.types ≡ scope.old.types) }
    ensures earlier_stay { take (length solver.old.subst.types) solver.new.subst.types ≡ solver.old.subst.types }
    ensures slots { solver.new.subst.slots.items ≡ solver.old.subst.slots.items }
    ensures limits { solver.new.limits.items ≡ solver.old.limits.items }
    ensures says { said solver.new.subst ≡ said solver.old.subst }
{
    parameters_in(alloc, &mut solver.subst, scope, tyvars)
}

/// Brings the parameters of a binding into scope, where no type variable is.
pub fn enter_parameters(
    alloc: Global,
    state: &mut State,
    scope: &mut TypeScope,
    tyvars: &[Tyvar],
) -> Result<(), NoMemory>
    requires { scope.old.tyvars ≡ [] }
    ensures grows { IfOk result (λ _. Grows state.old state.new) }
    ensures are { IfOk result (λ _. AreParameters (types_in state.new) 0 tyvars.now scope.new.tyvars) }
    ensures types { IfOk result (λ _. scope.new.types ≡ scope.old.types) }
    ensures next { IfOk result (λ _. state.new.next ≡ state.old.next) }
{
    parameters_within(alloc, &mut state.solver, scope, tyvars)
}
