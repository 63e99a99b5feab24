// Bindings, one after the other.
ghost use Rattle.std.specs.Prelude.{◌++◌, ◌∷◌, [], List, IfOk};
ghost use Rattle.sml_tree.specs.BareTree.{Exp as SourceExp, Pat as SourcePat};
ghost use Rattle.sml_tree.specs.TreeOf.{RuleOf};
ghost use Rattle.exp_forms.specs.of_elab_context.Telling.{IsContext};
ghost use Rattle.closed_types.specs.of_elab_steps.Growing.{Grows, HasType};
ghost use Rattle.exp_forms.specs.of_pat_elab.Elaborated.{IsPat};
ghost use Rattle.exp_forms.specs.of_use_elab.Elaborated.{IsExp};
ghost use Rattle.dec_forms.specs.Binds.{AreBinds};

use closed_types::elab_state::state::State;
use closed_types::elab_steps::step::{unify, write};
use elab_types::refused::Refused;
use exp_forms::elab_context::context::Context;
use exp_forms::pat_elab::bound::{BoundVariable, TypedPat};
use exp_forms::use_elab::typed::TypedExp;
use mlc_base::place::Place;
use prog_tree::tree::{Binding, Rule};
use std::alloc::Global;

/// One binding more: its pattern and its expression have one type.
pub fn add_bind(
    alloc: Global,
    state: &mut State,
    context: &Context,
    place: Place,
    pat: TypedPat,
    exp: TypedExp,
    binds: &mut Vec<(Binding, Rule)>,
) -> Result<(), Refused>
    requires context { IsContext state.old context.now }
    requires pat { HasType state.old pat.ty }
    requires exp { HasType state.old exp.ty }
    ensures grows { IfOk result (λ _. Grows state.old state.new) }
    ensures added { IfOk result (λ _. (S M P : State) (rs : List RuleOf) (p : Place) (a : SourcePat) (e : SourceExp) (before after : List BoundVariable)
        → AreBinds S context.now rs M before binds.old.items → IsPat M context.now a P before after pat → IsExp P context.now e state.old exp
        → AreBinds S context.now (rs ++ record { place = p; pat = a; exp = e } ∷ []) state.new after binds.new.items) }
{
    unify(alloc, state, place, exp.ty, pat.ty)?;
    let ty = write(state, pat.ty, context.naming)?;
    let binding = Binding {
        place,
        general: false,
        ty,
    };
    let rule = Rule {
        pat: pat.pat,
        exp: exp.exp,
    };
    binds.push((binding, rule))?;
    Ok(())
}
