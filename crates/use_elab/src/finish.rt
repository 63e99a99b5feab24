// Nodes of the program's tree, with the types that they write.
ghost use Rattle.std.specs.Prelude.{◌≡◌, length, IfOk};
ghost use Rattle.prog_tree.specs.TreeOf.{atom_of, tree_of, use_of};
ghost use Rattle.elab_context.specs.of_elab_typed.Numbers.{type_as};
ghost use Rattle.elab_context.specs.of_elab_state.States.{types_in};
ghost use Rattle.elab_context.specs.of_elab_steps.Growing.{HasType, Always, Grows};
ghost use Rattle.elab_context.specs.of_elab_steps.World.{type_of};
ghost use Rattle.elab_context.specs.Telling.{IsContext};

use crate::typed::TypedExp;
use elab_context::context::Context;
use elab_context::elab_state::state::State;
use elab_context::elab_steps::step::write;
use mlc_base::memory::NoMemory;
use prog_tree::tree::{Atom, Exp, Used};

/// An expression with no parts, of this type.
pub fn atom(
    state: &mut State,
    context: &Context,
    atom: Atom,
    ty: usize,
) -> Result<TypedExp, NoMemory>
    requires context { IsContext state.old context.now }
    requires ty { HasType state.old ty }
    ensures grows { IfOk result (λ _. Grows state.old state.new) }
    ensures ty { IfOk result (λ r. r.ty ≡ ty) }
    ensures tree { IfOk result (λ r. Always state.new
        (λ W. tree_of W.reading r.exp ≡ atom_of W.reading atom (type_as (W.naming context.now.naming) (type_of W ty)))) }
    ensures next { IfOk result (λ _. state.new.next ≡ state.old.next) }
{
    let written = write(state, ty, context.naming)?;
    Ok(TypedExp {
        exp: Exp::Atom(atom, written),
        ty,
    })
}

/// What is used at types that are written, and has this type.
pub fn used_at(
    state: &mut State,
    context: &Context,
    used: Used,
    types: Vec<usize>,
    ty: usize,
) -> Result<TypedExp, NoMemory>
    requires context { IsContext state.old context.now }
    requires ty { HasType state.old ty }
    ensures grows { IfOk result (λ _. Grows state.old state.new) }
    ensures ty { IfOk result (λ r. r.ty ≡ ty) }
    ensures tree { IfOk result (λ r. Always state.new
        (λ W. tree_of W.reading r.exp ≡ use_of W.reading used types.items (type_as (W.naming context.now.naming) (type_of W ty)))) }
    ensures next { IfOk result (λ _. state.new.next ≡ state.old.next) }
{
    let written = write(state, ty, context.naming)?;
    Ok(TypedExp {
        exp: Exp::Use(used, types, written),
        ty,
    })
}
