// Where a declaration begins.
ghost use Rattle.std.specs.Prelude.{◌≡◌, ◌<◌, IfOk};
ghost use Rattle.elab_state.specs.States.{dead_level, made};
ghost use Rattle.general_worlds.specs.Tidy.{Enters};

use elab_state::state::State;
use mlc_base::memory::NoMemory;

/// Inside a declaration more; the number of the first variable that may belong to it.
pub fn enter(state: &mut State) -> Result<usize, NoMemory>
    ensures enters { IfOk result (λ _. Enters state.old state.new) }
    ensures low { IfOk result (λ _. state.new.level < dead_level) }
    ensures first { IfOk result (λ first. first ≡ made state.old) }
{
    if state.level >= usize::MAX - 1 {
        return Err(NoMemory);
    }
    state.level += 1;
    Ok(state.solver.limits.len())
}
