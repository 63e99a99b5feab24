// Bindings inside a declaration that generalises.
ghost use Rattle.std.specs.Prelude.{◌≡◌, ◌++◌, ◌∷◌, [], List, drop, length, true, false, IfOk};
ghost use Rattle.sml_tree.specs.TreeOf.{RuleOf};
ghost use Rattle.elab_types.specs.declared.scope.TypeScope.{TypeScope};
ghost use Rattle.elab_context.specs.Telling.{IsContext};
ghost use Rattle.elab_steps.specs.Growing.{Grows, HasType};
ghost use Rattle.general_vals.specs.of_general_worlds.Inner.{deeper};
ghost use Rattle.general_decs.specs.Inside.{AreInside, StandBehind, marked_as};
ghost use Rattle.general_decs.specs.Values.{IsGeneralised};

use elab_context::context::Context;
use elab_state::state::State;
use elab_steps::step::{unify, write};
use elab_types::refused::Refused;
use mlc_base::memory::NoMemory;
use mlc_base::place::Place;
use prog_tree::tree::{Binding, Rule};
use rec_groups::pat_elab::bound::{BoundVariable, TypedPat};
use rec_groups::use_elab::typed::TypedExp;
use std::alloc::Global;

/// Notes of the variables that came last whether their binding is generalised.
fn flag(flags: &mut Vec<bool>, general: bool, bound: &[BoundVariable]) -> Result<(), NoMemory>
    ensures { IfOk result (λ _. flags.new.items ≡ flags.old.items ++ marked_as general (drop (length flags.old.items) bound.now)) }
{
    for i in flags.len()..bound.len() {
        flags.push(general)?;
    }
    Ok(())
}

/// One binding more inside a declaration: its pattern and its expression have one type. The pattern of one that isn't generalised was elaborated outside.
pub fn add(
    alloc: Global,
    state: &mut State,
    context: &Context,
    place: Place,
    general: bool,
    pat: TypedPat,
    exp: TypedExp,
    bound: &[BoundVariable],
    flags: &mut Vec<bool>,
    binds: &mut Vec<(Binding, Rule)>,
) -> Result<(), Refused>
    requires context { IsContext state.old context.now }
    requires pat { HasType state.old pat.ty }
    requires exp { HasType state.old exp.ty }
    ensures grows { IfOk result (λ _. Grows state.old state.new) }
    ensures generalised { IfOk result (λ _. general ≡ true → (S N Z : State) (C : Context) (s : TypeScope) (rs : List RuleOf) (r : RuleOf)
        (before : List BoundVariable)
        → context.now ≡ deeper C s → AreInside S C s rs N before flags.old.items binds.old.items
        → StandBehind N (deeper C s) (deeper C s) r before bound.now pat exp state.old → Grows Z state.old → IsGeneralised Z (deeper C s) r.exp exp.exp
        → AreInside S C s (rs ++ r ∷ []) state.new bound.now flags.new.items binds.new.items) }
    ensures plain { IfOk result (λ _. general ≡ false → (S N : State) (C : Context) (s : TypeScope) (rs : List RuleOf) (r : RuleOf)
        (before : List BoundVariable)
        → context.now ≡ deeper C s → AreInside S C s rs N before flags.old.items binds.old.items
        → StandBehind N C (deeper C s) r before bound.now pat exp state.old
        → AreInside S C s (rs ++ r ∷ []) state.new bound.now flags.new.items binds.new.items) }
{
    unify(alloc, state, place, exp.ty, pat.ty)?;
    let ty = write(state, pat.ty, context.naming)?;
    let binding = Binding { place, general, ty };
    let rule = Rule {
        pat: pat.pat,
        exp: exp.exp,
    };
    flag(flags, general, bound)?;
    binds.push((binding, rule))?;
    Ok(())
}
