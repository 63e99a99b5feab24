// Record patterns with `...`: something else has to tell their further fields.
ghost use Rattle.std.specs.Prelude.{◌≡◌, ◌++◌, ◌∷◌, [], true, false, IfOk};
ghost use Rattle.ty_core.specs.Types.{Typ};
ghost use Rattle.elab_state.specs.States.{said_in};
ghost use Rattle.elab_steps.specs.Flexible.{AreSettled, OneIsFlexible, StandsAs, is_asked as is_asked_at, is_settled};
ghost use Rattle.elab_steps.specs.Growing.{Grows};

use elab_state::state::State;
use mlc_base::memory::NoMemory;
use ty_table::types::View;

/// Notes the type of a record pattern with `...`.
pub fn note_flexible(state: &mut State, ty: usize) -> Result<(), NoMemory>
    ensures grows { IfOk result (λ _. Grows state.old state.new) }
    ensures noted { IfOk result (λ _. state.new.flexible.items ≡ state.old.flexible.items ++ ty ∷ []) }
    ensures next { IfOk result (λ _. state.new.next ≡ state.old.next) }
{
    state.flexible.push(ty)?;
    Ok(())
}

/// Whether no further fields of a record type may come to be known.
pub fn has_settled_fields(state: &State, ty: usize) -> bool
    ensures { (u : Typ) × (StandsAs state.now ty u × (result ≡ is_settled (said_in state.now) u)) }
{
    let found = state.solver.subst.find(ty);
    match state.solver.subst.types.view(found) {
        View::Var(variable) => state.solver.subst.row(variable).is_none(),
        View::Apply(_, _) => true,
    }
}

/// Whether the i-th record pattern is asked: those behind a list's end are.
fn is_asked(asked: &[bool], i: usize) -> bool
    ensures { result ≡ is_asked_at asked.now i }
{
    if i < asked.len() { asked[i] } else { true }
}

/// Whether the fields of each record pattern with `...` from the first one on are settled, of those that are asked.
pub fn are_settled(state: &State, first: usize, asked: &[bool]) -> bool
    ensures settled { result ≡ true → AreSettled state.now first asked.now }
    ensures open { result ≡ false → OneIsFlexible state.now first asked.now }
{
    for i in first..state.flexible.len() {
        if is_asked(asked, i - first) {
            if !has_settled_fields(state, state.flexible[i]) {
                return false;
            }
        }
    }
    true
}
