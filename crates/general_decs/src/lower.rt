// Variables that may be no parameters become those of the declarations around.
ghost use Rattle.std.specs.Prelude.{◌≡◌, ◌<◌, ◌≤◌, IfOk};
ghost use Rattle.elab_state.specs.States.{dead_level, limit_in, made};
ghost use Rattle.elab_steps.specs.Growing.{Grows, HasType};

use elab_state::state::State;
use elab_steps::step::{fresh_type, unify};
use elab_types::refused::Refused;
use mlc_base::memory::NoMemory;
use mlc_base::place::Place;
use std::alloc::Global;
use ty_core::mark::Mark;
use ty_solve::limit::Limit;
use ty_solve::subst::Slot;

/// Whether a variable is bound, or may be a parameter: neither of a class nor a row.
fn may_be_parameter(slot: &Slot) -> bool {
    match slot {
        Slot::Full(_) => true,
        Slot::Partial(_) => false,
        Slot::Open(mark) => match mark {
            Mark::Any => true,
            Mark::Equality => true,
            Mark::Class(_) => false,
        },
    }
}

/// The type that is a variable of the state.
fn variable_type(alloc: Global, state: &mut State, variable: usize) -> Result<usize, NoMemory>
    requires held { variable < made state.old }
    requires live { (limit_in state.old variable).level < dead_level }
    ensures grows { IfOk result (λ _. Grows state.old state.new) }
    ensures is { IfOk result (λ r. HasType state.new r) }
    ensures next { IfOk result (λ _. state.new.next ≡ state.old.next) }
{
    state.solver.variable(alloc, variable)
}

/// Makes a variable one of so many declarations, with what it stands for.
fn lower_one(
    alloc: Global,
    state: &mut State,
    place: Place,
    level: usize,
    variable: usize,
) -> Result<(), Refused>
    requires held { variable < made state.old }
    requires live { (limit_in state.old variable).level < dead_level }
    requires deep { level < dead_level }
    requires inside { level ≤ state.old.level }
    ensures grows { IfOk result (λ _. Grows state.old state.new) }
    ensures next { IfOk result (λ _. state.new.next ≡ state.old.next) }
{
    let names = state.solver.limits[variable].names;
    let own = variable_type(alloc, state, variable)?;
    let outer = fresh_type(alloc, state, Mark::Any, Limit { names, level })?;
    unify(alloc, state, place, own, outer)
}

/// The same of one that belongs to the declaration and may be no parameter.
fn lower_if(
    alloc: Global,
    state: &mut State,
    place: Place,
    level: usize,
    variable: usize,
) -> Result<(), Refused>
    requires held { variable < made state.old }
    requires deep { level < dead_level }
    requires inside { level ≤ state.old.level }
    ensures grows { IfOk result (λ _. Grows state.old state.new) }
    ensures next { IfOk result (λ _. state.new.next ≡ state.old.next) }
{
    let reach = state.solver.limits[variable].level;
    if reach <= level || reach >= usize::MAX {
        return Ok(());
    }
    if may_be_parameter(&state.solver.subst.slots[variable]) {
        return Ok(());
    }
    lower_one(alloc, state, place, level, variable)
}

/// Of the variables from the first one on, those of a declaration that may be no parameters become those of the declarations around.
pub fn lower_rest(
    alloc: Global,
    state: &mut State,
    place: Place,
    level: usize,
    first: usize,
) -> Result<(), Refused>
    requires deep { level < dead_level }
    requires inside { level ≤ state.old.level }
    ensures grows { IfOk result (λ _. Grows state.old state.new) }
    ensures next { IfOk result (λ _. state.new.next ≡ state.old.next) }
{
    for v in first..state.solver.limits.len() {
        lower_if(alloc, state, place, level, v)?;
    }
    Ok(())
}
