// The standard basis.

ghost use Rattle.std.specs.Prelude.{◌≡◌, ◌++◌, List, map, IfOk};
ghost use Rattle.sml_tree.specs.TreeOf.{dec_of, decs_of};
ghost use Rattle.prog_tree.specs.declared.tree.Dec.{Dec as Declared};
ghost use Rattle.elab_steps.specs.Tidy.{IsTidy};
ghost use Rattle.project_elab.specs.Standard.{IsStandard};

use elab_context::context::Context;
use elab_exps::exps::decs_from;
use elab_finish::basis_context::basis::{hide_prim, prelude_context};
use elab_state::state::State;
use pat_elab::stopped::Stopped;
use prog_tree::tree::Dec as ProgramDec;
use run_end::dec_forms::brought::Brought;
use sml_tree::tree::Dec;
use std::alloc::Global;

/// The context of the standard basis: the prelude's declarations are elaborated where the structure `Prim` is in scope, which is hidden behind them. Their part of
/// the program is put behind what was made.
pub fn standard_context(
    alloc: Global,
    state: &mut State,
    prelude: &[Dec],
    made: &mut Vec<ProgramDec>,
) -> Result<Context, Stopped>
    requires level { state.old.level ≡ 0 }
    requires next { state.old.next ≡ 0 }
    requires tidy { IsTidy state.old 0 }
    ensures { IfOk result (λ context. (decs : List Declared) × (made.new.items ≡ made.old.items ++ decs)
        × IsStandard state.old (decs_of (map dec_of prelude.now)) state.new context decs) }
{
    let mut context = prelude_context(alloc, state)?;
    let mut brought = Brought::new(alloc);
    decs_from(alloc, state, &mut context, prelude, made, &mut brought)?;
    hide_prim(&mut context);
    Ok(context)
}
