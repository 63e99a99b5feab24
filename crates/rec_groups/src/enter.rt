// The functions of a group in scope, and out of it.
ghost use Rattle.std.specs.Prelude.{◌≡◌, List, reverse, IfOk};
ghost use Rattle.std.specs.List.{AllByRecursion};
ghost use Rattle.vid_scope.specs.Entries.{mark_of};
ghost use Rattle.elab_context.specs.Telling.{IsContext};
ghost use Rattle.elab_state.specs.declared.state.State.{State as StateOf};
ghost use Rattle.dec_forms.specs.Telling.{with_all};
ghost use Rattle.dec_forms.specs.of_pat_elab.Elaborated.{AreVariables};
ghost use Rattle.rec_groups.specs.Heads.{own_entries, with_own};

use crate::head::Head;
use dec_forms::pat_elab::bound::BoundVariable;
use elab_context::context::Context;
use elab_context::entry::Entry;
use mlc_base::memory::NoMemory;
use vid_scope::vids::VidMark;

/// The variables of a head.
fn enter_variables(context: &mut Context, variables: &[BoundVariable]) -> Result<(), NoMemory>
    ensures { IfOk result (λ _. context.new ≡ with_all context.old (own_entries variables.now)) }
{
    for i in 0..variables.len() {
        let variable = variables[i];
        let entry = Entry::Own(variable.ty, variable.number);
        context.values.bind(variable.vid, entry)?;
    }
    Ok(())
}

/// Brings the functions into scope, each as one inside its group: the heads as they were reserved, the last function's first.
pub fn enter_heads(context: &mut Context, heads: &[Head]) -> Result<(), NoMemory>
    ensures entered { IfOk result (λ _. context.new ≡ with_own context.old (reverse heads.now)) }
    ensures context { IfOk result (λ _. (S : StateOf) → IsContext S context.old → AllByRecursion (λ h. AreVariables S h.variables.items) heads.now
        → IsContext S context.new) }
{
    for i in 0..heads.len() {
        enter_variables(context, &heads[i].variables)?;
    }
    Ok(())
}

/// Leaves them.
pub fn leave_heads(context: &mut Context, mark: VidMark)
    ensures { (C : Context) (hs : List Head) → mark ≡ mark_of C.values → context.old ≡ with_own C hs → context.new ≡ C }
{
    context.values.leave(mark);
}
