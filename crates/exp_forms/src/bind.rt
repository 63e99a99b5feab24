// Variables of a pattern, in scope and out of it.
ghost use Rattle.std.specs.Prelude.{◌≡◌, List, IfOk};
ghost use Rattle.vid_scope.specs.Entries.{mark_of};
ghost use Rattle.exp_forms.specs.Within.{within};

use mlc_base::memory::NoMemory;
use pat_elab::bound::BoundVariable;
use pat_elab::elab_context::context::Context;
use pat_elab::elab_context::entry::Entry;
use vid_scope::vids::VidMark;

/// Brings the variables of a pattern into scope, each with its one type.
pub fn bind_all(context: &mut Context, bound: &[BoundVariable]) -> Result<(), NoMemory>
    ensures { IfOk result (λ _. context.new ≡ within context.old bound.now) }
{
    for i in 0..bound.len() {
        let variable = bound[i];
        let entry = Entry::Single(variable.ty, variable.number);
        context.values.bind(variable.vid, entry)?;
    }
    Ok(())
}

/// Leaves them.
pub fn leave(context: &mut Context, mark: VidMark)
    ensures { (C : Context) (bs : List BoundVariable) → mark ≡ mark_of C.values → context.old ≡ within C bs → context.new ≡ C }
{
    context.values.leave(mark);
}
