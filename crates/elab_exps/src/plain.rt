// Declarations that have no expressions in them.
ghost use Rattle.std.specs.Prelude.{IfOk};
ghost use Rattle.sml_tree.specs.TreeOf.{dec_of};
ghost use Rattle.elab_exps.specs.Decs.{IsDeclared, StandsIn};

use crate::absent::absent_dec;
use crate::made::add_decs;
use datatype_decs::declare::{datatypes, withtypes};
use elab_context::context::Context;
use elab_state::state::State;
use pat_elab::stopped::Stopped;
use prog_tree::tree::Dec as ProgramDec;
use scope_decs::dec_forms::brought::Brought;
use scope_decs::dec_forms::declare_exceptions::exceptions;
use scope_decs::dec_forms::declare_types::abbreviations;
use scope_decs::replicate::replicate;
use scope_decs::structures::open;
use sml_tree::tree::Dec;
use std::alloc::Global;

/// A declaration of types, exceptions, or of what is in scope already.
pub fn plain_dec(
    alloc: Global,
    state: &mut State,
    context: &mut Context,
    dec: &Dec,
    made: &mut Vec<ProgramDec>,
    brought: &mut Brought,
) -> Result<(), Stopped>
    requires { StandsIn state.old context.old }
    ensures { IfOk result (λ _. IsDeclared state.old context.old (dec_of dec.now) state.new context.new made.old.items made.new.items brought.old brought.new) }
{
    match dec {
        Dec::Abbreviation(place, binds) => {
            Ok(abbreviations(alloc, state, context, *place, binds, brought)?)
        }
        Dec::Datatype(place, binds) => {
            Ok(datatypes(alloc, state, context, *place, binds, brought)?)
        }
        Dec::Withtype(place, binds, types) => {
            Ok(withtypes(alloc, state, context, *place, binds, types, brought)?)
        }
        Dec::Exception(place, binds) => {
            let new = exceptions(alloc, state, context, *place, binds, brought)?;
            Ok(add_decs(made, new)?)
        }
        Dec::Replicate(place, tycon, from) => {
            Ok(replicate(alloc, context, *place, *tycon, from, brought)?)
        }
        Dec::Open(place, structures) => Ok(open(alloc, context, *place, structures, brought)?),
        _ => Err(absent_dec(dec)),
    }
}
