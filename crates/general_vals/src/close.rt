// Where a declaration ends, its variables become parameters.
ghost use Rattle.std.specs.Prelude.{◌≡◌, ◌<◌, ◌≤◌, ◌+◌, ℕ, List, length, None, Option, Some, IfOk, if◌then◌else◌, option_map};
ghost use Rattle.std.specs.List.{AllByRecursion};
ghost use Rattle.ty_core.specs.Types.{Typ};
ghost use Rattle.ty_solve.specs.Limits.{limit_at};
ghost use Rattle.ty_solve.specs.SlotsOf.{entry_of};
ghost use Rattle.ir_poly.specs.Types.{is_declarable};
ghost use Rattle.ir_tables.specs.Tables.{parameters_at, parameters_of};
ghost use Rattle.elab_state.specs.States.{limit_in, made, said_in};
ghost use Rattle.elab_context.specs.Telling.{HasList};
ghost use Rattle.elab_steps.specs.Tidy.{IsTidy};
ghost use Rattle.general_worlds.specs.Tidy.{AreOuter, Ends};
ghost use Rattle.general_vals.specs.Closing.{added, collected, ended, ended_at, is_inner};

use elab_state::state::State;
use mlc_base::memory::NoMemory;
use std::alloc::Global;
use ty_core::mark::Mark;
use ty_core::scheme::Quantified;
use ty_solve::limit::Limit;
use ty_solve::subst::Slot;

/// Whether a parameter may ask for this.
fn may_be_declared(mark: Mark) -> bool
    ensures { result ≡ is_declarable mark }
{
    match mark {
        Mark::Any => true,
        Mark::Equality => true,
        Mark::Class(_) => false,
    }
}

/// One parameter more where the variable is open; whether it may be one.
fn add_open(
    parameters: &mut Vec<Quantified>,
    slot: &Slot,
    variable: usize,
) -> Result<bool, NoMemory>
    ensures { IfOk result (λ may. (types : List Typ) → added variable (entry_of types slot.now) parameters.old.items
        ≡ (if may then Some parameters.new.items else None)) }
{
    match slot {
        Slot::Full(_) => Ok(true),
        Slot::Partial(_) => Ok(false),
        Slot::Open(mark) => {
            if !may_be_declared(*mark) {
                return Ok(false);
            }
            parameters.push(Quantified {
                variable,
                mark: *mark,
            })?;
            Ok(true)
        }
    }
}

/// One parameter more where a variable is open that was made inside more declarations than these; whether it may be one.
fn add_inner(
    parameters: &mut Vec<Quantified>,
    state: &State,
    level: usize,
    variable: usize,
) -> Result<bool, NoMemory>
    requires { variable < made state.now }
    ensures { IfOk result (λ may. (if is_inner level (limit_in state.now variable) then added variable (said_in state.now variable) parameters.old.items
        else Some parameters.old.items) ≡ (if may then Some parameters.new.items else None)) }
{
    let reach = state.solver.limits[variable].level;
    if level < reach && reach < usize::MAX {
        add_open(parameters, &state.solver.subst.slots[variable], variable)
    } else {
        Ok(true)
    }
}

/// The open variables from the first one on that were made inside more declarations than these; none where one of them may be no parameter.
fn parameters_from(
    alloc: Global,
    state: &State,
    level: usize,
    first: usize,
) -> Result<Option<Vec<Quantified>>, NoMemory>
    requires { first ≤ made state.now }
    ensures { IfOk result (λ o. option_map (λ qs. qs.items) o ≡ collected (said_in state.now) (limit_in state.now) level first (made state.now)) }
{
    let mut parameters = Vec::new(alloc);
    for v in first..state.solver.limits.len() {
        let may = add_inner(&mut parameters, state, level, v)?;
        if !may {
            return Ok(None);
        }
    }
    Ok(Some(parameters))
}

/// A variable that was made inside more declarations than these is done with.
fn end_limit(level: usize, limit: Limit) -> Limit
    ensures { result ≡ ended level limit }
{
    if level < limit.level {
        Limit {
            names: limit.names,
            level: usize::MAX,
        }
    } else {
        limit
    }
}

/// From the first one on, such variables are done with.
fn end_limits(limits: &mut Vec<Limit>, level: usize, first: usize)
    requires { first ≤ length limits.old.items }
    ensures length { length limits.new.items ≡ length limits.old.items }
    ensures each { (v : ℕ) → limit_at limits.new.items v ≡ ended_at level first v (limit_at limits.old.items v) }
{
    for v in first..limits.len() {
        limits[v] = end_limit(level, limits[v]);
    }
}

/// The end of a declaration inside others, whose variables are those from the first one on: its open variables become a list of parameters, and all of them are
/// done with. None, and nothing changes, where an open one is of a class or a row.
pub fn close(
    alloc: Global,
    state: &mut State,
    level: usize,
    first: usize,
) -> Result<Option<usize>, NoMemory>
    requires level { state.old.level ≡ level + 1 }
    requires first { first ≤ made state.old }
    requires outer { AreOuter state.old level first }
    requires tidy { IsTidy state.old (level + 1) }
    ensures ends { IfOk result (λ o. (list : ℕ) → o ≡ Some list → Ends level (parameters_at (parameters_of state.new.tables) list) state.old state.new) }
    ensures list { IfOk result (λ o. (list : ℕ) → o ≡ Some list → HasList state.new list) }
    ensures tidy { IfOk result (λ o. (list : ℕ) → o ≡ Some list → IsTidy state.new level) }
    ensures none { IfOk result (λ o. o ≡ None → (state.new ≡ state.old)
        × (collected (said_in state.old) (limit_in state.old) level first (made state.old) ≡ None)) }
{
    let Some(parameters) = parameters_from(alloc, state, level, first)? else {
        return Ok(None);
    };
    let list = state.tables.parameters.len();
    state.tables.parameters.push(parameters)?;
    state.level = level;
    end_limits(&mut state.solver.limits, level, first);
    Ok(Some(list))
}
