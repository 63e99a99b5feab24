// `local`.
ghost use Rattle.std.specs.Prelude.{◌≡◌, ◌++◌, [], List, IfOk};
ghost use Rattle.mlc_base.specs.declared.place.Place.{Place};
ghost use Rattle.sml_tree.specs.BareTree.{Dec as SourceDec, local_dec};
ghost use Rattle.sml_tree.specs.TreeOf.{decs_of};
ghost use Rattle.prog_tree.specs.declared.tree.Dec.{Dec};
ghost use Rattle.closed_types.specs.of_elab_state.declared.state.State.{State};
ghost use Rattle.exp_forms.specs.of_elab_context.Telling.{IsContext};
ghost use Rattle.exp_forms.specs.of_elab_context.declared.context.Context.{Context};
ghost use Rattle.dec_forms.specs.Bringing.{AreBringing, IsBringing};
ghost use Rattle.dec_forms.specs.declared.brought.Brought.{Brought};
ghost use Rattle.dec_forms.specs.Local.{mark_in, IsEmpty};

use crate::bring::{bring_types, bring_values};
use crate::brought::Brought;
use elab_types::scope::ScopeMark;
use exp_forms::elab_context::context::Context;
use mlc_base::memory::NoMemory;
use vid_scope::vids::VidMark;

/// How much is in scope where a `local` begins.
#[derive(Clone, Copy)]
pub struct LocalMark {
    pub values: VidMark,
    pub types: ScopeMark,
}

/// Where a `local` begins.
pub fn begin_local(context: &Context) -> LocalMark
    ensures { result ≡ mark_in context.now }
{
    LocalMark {
        values: context.values.mark(),
        types: context.types.mark(),
    }
}

/// Where a `local` ends: what came into scope since its begin goes, and what its second part brought comes again.
pub fn end_local(
    context: &mut Context,
    mark: LocalMark,
    shown: &Brought,
    brought: &mut Brought,
) -> Result<(), NoMemory>
    ensures context { IfOk result (λ _. (S M T : State) (C D : Context) (ds es : List SourceDec) (xs ys : List Dec) (a b none : Brought)
        → mark ≡ mark_in C → IsEmpty none → IsContext S C → AreBringing S C ds M D xs a b → AreBringing M D es T context.old ys none shown.now
        → IsContext T context.old → IsContext T context.new) }
    ensures declared { IfOk result (λ _. (S M T : State) (C D : Context) (p : Place) (ds es : List SourceDec) (xs ys : List Dec) (a b none : Brought)
        → mark ≡ mark_in C → IsEmpty none → AreBringing S C ds M D xs a b → AreBringing M D es T context.old ys none shown.now
        → IsBringing S C (local_dec p (decs_of ds) (decs_of es)) T context.new (xs ++ ys) brought.old brought.new) }
    ensures schemes { IfOk result (λ _. context.new.schemes ≡ context.old.schemes) }
{
    context.values.leave(mark.values);
    context.types.leave(mark.types);
    bring_values(context, &shown.values)?;
    bring_types(context, &shown.types)?;
    brought.add_values(&shown.values)?;
    brought.add_types(&shown.types)?;
    Ok(())
}
