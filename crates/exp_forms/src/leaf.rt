// Constants.
ghost use Rattle.std.specs.Prelude.{IfOk};
ghost use Rattle.sml_tree.specs.TreeOf.{constant_of};
ghost use Rattle.sml_tree.specs.BareTree.{constant_exp};
ghost use Rattle.pat_elab.specs.of_elab_context.Telling.{IsContext};
ghost use Rattle.use_elab.specs.Elaborated.{IsExp};

use mlc_base::memory::NoMemory;
use mlc_base::place::Place;
use pat_elab::elab_context::context::Context;
use pat_elab::elab_state::state::State;
use pat_elab::leaf::{program_constant, type_of_constant};
use prog_tree::tree::Atom;
use sml_tree::ident::Constant;
use std::alloc::Global;
use use_elab::finish::atom;
use use_elab::typed::TypedExp;

/// A constant.
pub fn constant(
    alloc: Global,
    state: &mut State,
    context: &Context,
    constant: &Constant,
) -> Result<TypedExp, NoMemory>
    requires context { IsContext state.old context.now }
    ensures { IfOk result (λ r. (place : Place) → IsExp state.old context.now (constant_exp place (constant_of constant.now)) state.new r) }
{
    let ty = type_of_constant(alloc, state, constant)?;
    let literal = program_constant(alloc, state, constant)?;
    let made = atom(state, context, Atom::Constant(literal), ty)?;
    Ok(made)
}
