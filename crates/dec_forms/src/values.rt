// Values that came into scope, left again.
ghost use Rattle.std.specs.Prelude.{◌≡◌};
ghost use Rattle.vid_scope.specs.Entries.{mark_of};
ghost use Rattle.exp_forms.specs.of_elab_context.declared.context.Context.{Context};
ghost use Rattle.dec_forms.specs.Telling.{HasFurther};

use exp_forms::elab_context::context::Context;
use vid_scope::vids::VidMark;

/// Leaves the values that came into scope since a mark, where nothing else did.
pub fn leave_values(context: &mut Context, mark: VidMark)
    ensures { (C : Context) → mark ≡ mark_of C.values → HasFurther C context.old → context.new ≡ C }
{
    context.values.leave(mark);
}
