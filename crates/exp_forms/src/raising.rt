// `raise`.
ghost use Rattle.std.specs.Prelude.{IfOk};
ghost use Rattle.sml_tree.specs.BareTree.{Exp as SourceExp, raise};
ghost use Rattle.pat_elab.specs.of_elab_context.Telling.{IsContext};
ghost use Rattle.pat_elab.specs.of_elab_steps.Growing.{HasType};
ghost use Rattle.use_elab.specs.Elaborated.{IsExp};

use elab_types::refused::Refused;
use mlc_base::make::boxed;
use mlc_base::place::Place;
use pat_elab::elab_context::context::Context;
use pat_elab::elab_state::state::State;
use pat_elab::elab_steps::step::{fresh_type, unify, write};
use prog_tree::tree::Exp;
use std::alloc::Global;
use ty_core::mark::Mark;
use use_elab::given::packets;
use use_elab::typed::TypedExp;

/// An exception raised: the whole has any type.
pub fn raising(
    alloc: Global,
    state: &mut State,
    context: &Context,
    place: Place,
    packet: TypedExp,
) -> Result<TypedExp, Refused>
    requires context { IsContext state.old context.now }
    requires packet { HasType state.old packet.ty }
    ensures { IfOk result (λ r. (S : State) (p : Place) (e : SourceExp) → IsExp S context.now e state.old packet
        → IsExp S context.now (raise p e) state.new r) }
{
    let exn = packets(alloc, state)?;
    unify(alloc, state, place, packet.ty, exn)?;
    let ty = fresh_type(alloc, state, Mark::Any, context.limit())?;
    let written = write(state, ty, context.naming)?;
    let exp = boxed(alloc, packet.exp)?;
    Ok(TypedExp {
        exp: Exp::Raise(written, exp),
        ty,
    })
}
