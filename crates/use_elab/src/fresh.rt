// New variables as types.
ghost use Rattle.std.specs.Prelude.{◌≡◌, ◌<◌, ◌≤◌, true, length, IfOk};
ghost use Rattle.std.specs.List.{AllByRecursion};
ghost use Rattle.ty_core.specs.Marks.{is_inhabited};
ghost use Rattle.elab_context.specs.of_elab_state.States.{dead_level};
ghost use Rattle.elab_context.specs.of_elab_steps.Growing.{HasType, Always, AreTypes, Grows};
ghost use Rattle.use_elab.specs.Fresh.{AreFresh, IsFresh};

use elab_context::elab_state::state::State;
use mlc_base::memory::NoMemory;
use std::alloc::Global;
use ty_core::mark::Mark;
use ty_solve::limit::Limit;

/// A new variable with its mark, as a type.
pub fn marked_type(
    alloc: Global,
    state: &mut State,
    mark: Mark,
    limit: Limit,
) -> Result<usize, NoMemory>
    requires inhabited { is_inhabited mark ≡ true }
    requires wide { 4 ≤ limit.names }
    requires deep { limit.level < dead_level }
    requires inside { limit.level ≤ state.old.level }
    ensures grows { IfOk result (λ _. Grows state.old state.new) }
    ensures is { IfOk result (λ r. HasType state.new r) }
    ensures fresh { IfOk result (λ r. Always state.new (λ W. IsFresh W limit mark r)) }
    ensures next { IfOk result (λ _. state.new.next ≡ state.old.next) }
{
    let v = state.solver.fresh(mark, limit)?;
    state.solver.variable(alloc, v)
}

/// New variables with these marks, as types in their order.
pub fn fresh_types(
    alloc: Global,
    state: &mut State,
    marks: &[Mark],
    limit: Limit,
) -> Result<Vec<usize>, NoMemory>
    requires inhabited { AllByRecursion (λ m. is_inhabited m ≡ true) marks.now }
    requires wide { 4 ≤ limit.names }
    requires deep { limit.level < dead_level }
    requires inside { limit.level ≤ state.old.level }
    ensures grows { IfOk result (λ _. Grows state.old state.new) }
    ensures are { IfOk result (λ ks. AreTypes state.new ks.items) }
    ensures count { IfOk result (λ ks. length ks.items ≡ length marks.now) }
    ensures fresh { IfOk result (λ ks. Always state.new (λ W. AreFresh W limit marks.now ks.items)) }
    ensures next { IfOk result (λ _. state.new.next ≡ state.old.next) }
{
    let mut types = Vec::new(alloc);
    for mark in marks {
        let ty = marked_type(alloc, state, *mark, limit)?;
        types.push(ty)?;
    }
    Ok(types)
}
