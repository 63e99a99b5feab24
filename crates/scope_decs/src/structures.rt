// `open`.
ghost use Rattle.std.specs.Prelude.{◌≡◌, [], map, IfOk, IfErr};
ghost use Rattle.sml_tree.specs.BareTree.{open_dec};
ghost use Rattle.sml_tree.specs.TreeOf.{long_id_at_of};
ghost use Rattle.elab_state.specs.declared.state.State.{State};
ghost use Rattle.elab_context.specs.Telling.{IsContext};
ghost use Rattle.dec_forms.specs.Bringing.{IsBringing};
ghost use Rattle.scope_decs.specs.Opening.{AreOpened};
ghost use Rattle.scope_decs.specs.Refusals.{IsOpenRefused};

use crate::members::{add_members, structure_at};
use dec_forms::bring::bring_values;
use dec_forms::brought::Brought;
use elab_context::context::Context;
use elab_context::entry::Entry;
use elab_types::refused::Refused;
use mlc_base::place::Place;
use sml_tree::ident::Vid;
use sml_tree::tree::LongIdAt;
use std::alloc::Global;

/// What structures have, one after the other, each as it is before the declaration.
fn all_members(
    alloc: Global,
    context: &Context,
    structures: &[LongIdAt],
) -> Result<Vec<(Vid, Entry)>, Refused>
    ensures opened { IfOk result (λ es. AreOpened context.now (map long_id_at_of structures.now) es.items) }
    ensures refused { IfErr result (λ e. IsOpenRefused context.now (map long_id_at_of structures.now) e) }
{
    let mut values = Vec::new(alloc);
    for i in 0..structures.len() {
        let number = structure_at(context, &structures[i])?;
        add_members(context, number, &mut values)?;
    }
    Ok(values)
}

/// `open`: what the structures have comes into scope, the last one's in front.
pub fn open(
    alloc: Global,
    context: &mut Context,
    place: Place,
    structures: &[LongIdAt],
    brought: &mut Brought,
) -> Result<(), Refused>
    ensures context { IfOk result (λ _. (S : State) → IsContext S context.old → IsContext S context.new) }
    ensures schemes { IfOk result (λ _. context.new.schemes ≡ context.old.schemes) }
    ensures declared { IfOk result (λ _. (S : State) → IsBringing S context.old (open_dec place (map long_id_at_of structures.now)) S context.new []
        brought.old brought.new) }
    ensures refused { IfErr result (λ e. IsOpenRefused context.old (map long_id_at_of structures.now) e) }
{
    let values = all_members(alloc, context, structures)?;
    bring_values(context, &values)?;
    brought.add_values(&values)?;
    Ok(())
}
