// Identifiers, whatever they are.
ghost use Rattle.std.specs.Prelude.{◌≡◌, ◌⊎◌, Some, IfOk, IfErr};
ghost use Rattle.sml_tree.specs.Terminal.{LongVid as LongIdentifier};
ghost use Rattle.sml_tree.specs.TreeOf.{long_vid_of};
ghost use Rattle.sml_tree.specs.BareTree.{vid_exp};
ghost use Rattle.elab_types.specs.declared.refused.Refused.TheVariants.{Memory, Unbound};
ghost use Rattle.elab_context.specs.Entries.{entry_in};
ghost use Rattle.elab_context.specs.Telling.{IsContext, IsHeld, IsUnboundIn};
ghost use Rattle.use_elab.specs.Elaborated.{IsExp};

use crate::general::{general, own, single};
use crate::given::{constructor, initial, primitive, raised, reference};
use crate::typed::TypedExp;
use elab_context::context::Context;
use elab_context::elab_state::state::State;
use elab_context::entry::Entry;
use elab_types::refused::Refused;
use mlc_base::memory::NoMemory;
use mlc_base::place::Place;
use sml_tree::ident::LongVid;
use std::alloc::Global;

/// What is in scope, used.
fn entry_used(
    alloc: Global,
    state: &mut State,
    context: &Context,
    entry: Entry,
) -> Result<TypedExp, NoMemory>
    requires context { IsContext state.old context.now }
    requires held { IsHeld state.old context.now entry }
    ensures { IfOk result (λ r. (place : Place) (x : LongIdentifier) → entry_in context.now x.qualifiers x.vid ≡ Some entry
        → IsExp state.old context.now (vid_exp place x) state.new r) }
{
    match entry {
        Entry::Constructor(scheme, number, name) => {
            constructor(alloc, state, context, scheme, number, name)
        }
        Entry::Reference(scheme) => reference(alloc, state, context, scheme),
        Entry::Initial(_, number) => initial(alloc, state, context, number),
        Entry::Primitive(scheme, which) => primitive(alloc, state, context, scheme, which),
        Entry::Raised(number, argument) => raised(alloc, state, context, number, argument),
        Entry::Single(ty, number) => single(alloc, state, context, ty, number),
        Entry::Own(ty, number) => own(state, context, ty, number),
        Entry::General(list, ty, number, has) => {
            general(alloc, state, context, list, ty, number, has)
        }
    }
}

/// An identifier in an expression, refused exactly where it isn't bound.
pub fn identifier(
    alloc: Global,
    state: &mut State,
    context: &Context,
    place: Place,
    long: &LongVid,
) -> Result<TypedExp, Refused>
    requires context { IsContext state.old context.now }
    ensures is { IfOk result (λ r. IsExp state.old context.now (vid_exp place (long_vid_of long.now)) state.new r) }
    ensures refused { IfErr result (λ e. (e ≡ Memory) ⊎ ((e ≡ Unbound place) × IsUnboundIn context.now (long_vid_of long.now))) }
{
    let entry = context.value_at(place, long)?;
    Ok(entry_used(alloc, state, context, entry)?)
}
