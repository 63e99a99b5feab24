// What the variables of a declaration are when they come into scope.
ghost use Rattle.std.specs.Prelude.{◌≡◌, ◌&&◌, ℕ, length, IfOk};
ghost use Rattle.elab_steps.specs.Growing.{Grows};
ghost use Rattle.elab_steps.specs.Tidy.{IsTidy};
ghost use Rattle.general_vals.specs.Settling.{IsMade, KeepsVariables};
ghost use Rattle.general_decs.specs.Entries.{AreMade, AreShown, IsShown};

use elab_context::entry::Entry;
use elab_state::state::State;
use general_vals::settle::settled_type;
use mlc_base::memory::NoMemory;
use prog_known::answers::both;
use rec_groups::pat_elab::bound::BoundVariable;
use sml_tree::ident::Vid;
use std::alloc::Global;

/// One variable, over a list of parameters where it is generalised and there are some.
fn show(
    alloc: Global,
    state: &mut State,
    list: usize,
    some: bool,
    variable: BoundVariable,
    general: bool,
) -> Result<(Vid, Entry), NoMemory>
    requires { IsMade state.old variable.ty }
    ensures grows { IfOk result (λ _. Grows state.old state.new) }
    ensures next { IfOk result (λ _. state.new.next ≡ state.old.next) }
    ensures tidy { IfOk result (λ _. (l : ℕ) → IsTidy state.old l → IsTidy state.new l) }
    ensures keeps { IfOk result (λ _. KeepsVariables state.old state.new) }
    ensures shown { IfOk result (λ e. (l : ℕ) → IsTidy state.old l → IsShown state.old state.new l list some variable general e) }
{
    let ty = settled_type(alloc, state, variable.ty)?;
    let entry = Entry::General(list, ty, variable.number, both(general, some));
    Ok((variable.vid, entry))
}

/// Variables, each with its flag.
pub fn show_all(
    alloc: Global,
    state: &mut State,
    list: usize,
    some: bool,
    bound: &[BoundVariable],
    flags: &[bool],
) -> Result<Vec<(Vid, Entry)>, NoMemory>
    requires made { AreMade state.old bound.now }
    requires count { length flags.now ≡ length bound.now }
    ensures grows { IfOk result (λ _. Grows state.old state.new) }
    ensures next { IfOk result (λ _. state.new.next ≡ state.old.next) }
    ensures tidy { IfOk result (λ _. (l : ℕ) → IsTidy state.old l → IsTidy state.new l) }
    ensures shown { IfOk result (λ es. (l : ℕ) → IsTidy state.old l → AreShown state.old state.new l list some bound.now flags.now es.items) }
{
    let mut values = Vec::new(alloc);
    for i in 0..bound.len() {
        let value = show(alloc, state, list, some, bound[i], flags[i])?;
        values.push(value)?;
    }
    Ok(values)
}
