// The declaration of exceptions.
ghost use Rattle.std.specs.Prelude.{◌≡◌, true, map, IfOk};
ghost use Rattle.std.specs.List.{list_all};
ghost use Rattle.sml_tree.specs.BareTree.{exception_dec};
ghost use Rattle.sml_tree.specs.TreeOf.{ex_bind_of};
ghost use Rattle.core_rules.specs.Restrictions.{distinct, exn_vids, may_construct};
ghost use Rattle.core_rules.specs.Words.{same_vid};
ghost use Rattle.exp_forms.specs.of_elab_context.Telling.{IsContext};
ghost use Rattle.dec_forms.specs.Bringing.{IsBringing};

use crate::bring::bring_values;
use crate::brought::Brought;
use crate::exns::all_exns;
use crate::once::check_values;
use closed_types::elab_state::state::State;
use elab_types::refused::Refused;
use exp_forms::elab_context::context::Context;
use mlc_base::place::Place;
use prog_tree::tree::Dec;
use sml_tree::tree::ExBind;
use std::alloc::Global;

/// `exception`: no identifier comes into scope twice, nor one that is never bound, nor `it`.
pub fn exceptions(
    alloc: Global,
    state: &mut State,
    context: &mut Context,
    place: Place,
    binds: &[ExBind],
    brought: &mut Brought,
) -> Result<Vec<Dec>, Refused>
    requires { IsContext state.old context.old }
    ensures context { IfOk result (λ _. IsContext state.new context.new) }
    ensures schemes { IfOk result (λ _. context.new.schemes ≡ context.old.schemes) }
    ensures once { IfOk result (λ _. distinct same_vid (exn_vids (map ex_bind_of binds.now)) ≡ true) }
    ensures unkept { IfOk result (λ _. list_all may_construct (exn_vids (map ex_bind_of binds.now)) ≡ true) }
    ensures declared { IfOk result (λ decs. IsBringing state.old context.old (exception_dec place (map ex_bind_of binds.now)) state.new context.new decs.items
        brought.old brought.new) }
{
    let made = all_exns(alloc, state, context, binds)?;
    check_values(alloc, place, &made.values)?;
    bring_values(context, &made.values)?;
    brought.add_values(&made.values)?;
    Ok(made.decs)
}
