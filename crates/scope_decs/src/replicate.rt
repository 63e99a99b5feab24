// Datatype replication.
ghost use Rattle.std.specs.Prelude.{◌≡◌, [], Some, IfOk, IfErr};
ghost use Rattle.sml_tree.specs.BareTree.{replicate_dec};
ghost use Rattle.sml_tree.specs.TreeOf.{long_id_at_of};
ghost use Rattle.elab_types.specs.declared.refused.Refused.TheVariants.{Unbound};
ghost use Rattle.elab_types.specs.Reading.{entry_of};
ghost use Rattle.elab_state.specs.declared.state.State.{State};
ghost use Rattle.elab_context.specs.Telling.{IsContext};
ghost use Rattle.dec_forms.specs.Bringing.{IsBringing};
ghost use Rattle.scope_decs.specs.Refusals.{IsReplicateRefused, IsUnboundTypeIn};

use dec_forms::bring::{bring_types, bring_values};
use dec_forms::brought::Brought;
use elab_context::context::Context;
use elab_types::refused::Refused;
use elab_types::scope::TypeEntry;
use mlc_base::place::Place;
use mlc_names::names::Name;
use sml_tree::tree::LongIdAt;
use std::alloc::Global;

/// What a type constructor is that has to be bound.
fn tycon_at(context: &Context, at: &LongIdAt) -> Result<TypeEntry, Refused>
    ensures is { IfOk result (λ e. entry_of context.now.types at.now.long.qualifiers.items at.now.long.id ≡ Some e) }
    ensures place { IfErr result (λ e. e ≡ Unbound at.now.place) }
    ensures unbound { IfErr result (λ _. IsUnboundTypeIn context.now (long_id_at_of at.now)) }
{
    match context.types.find(&at.long) {
        Some(entry) => Ok(entry),
        None => Err(Refused::Unbound(at.place)),
    }
}

/// `datatype t = datatype u`: t is what u is, and u's constructors come into scope again.
pub fn replicate(
    alloc: Global,
    context: &mut Context,
    place: Place,
    tycon: Name,
    from: &LongIdAt,
    brought: &mut Brought,
) -> Result<(), Refused>
    ensures context { IfOk result (λ _. (S : State) → IsContext S context.old → IsContext S context.new) }
    ensures schemes { IfOk result (λ _. context.new.schemes ≡ context.old.schemes) }
    ensures declared { IfOk result (λ _. (S : State) → IsBringing S context.old (replicate_dec place tycon (long_id_at_of from.now)) S context.new []
        brought.old brought.new) }
    ensures refused { IfErr result (λ e. IsReplicateRefused context.old (long_id_at_of from.now) e) }
{
    let entry = tycon_at(context, from)?;
    let values = context.constructors(alloc, entry)?;
    let types = [(tycon, entry)];
    bring_values(context, &values)?;
    bring_types(context, &types)?;
    brought.add_values(&values)?;
    brought.add_types(&types)?;
    Ok(())
}
