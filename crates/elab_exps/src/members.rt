// Functions inside their group, and the end of a declaration that has them.
ghost use Rattle.std.specs.Prelude.{◌≡◌, ◌++◌, ◌∷◌, [], List, IfErr, IfOk};
ghost use Rattle.mlc_base.specs.declared.place.Place.{Place as PlaceAt};
ghost use Rattle.sml_tree.specs.BareTree.{val_dec};
ghost use Rattle.sml_tree.specs.TreeOf.{RuleOf, binds_of};
ghost use Rattle.sml_tree.specs.declared.ident.Tyvar.{Tyvar as TyvarOf};
ghost use Rattle.elab_context.specs.Telling.{IsContext};
ghost use Rattle.elab_context.specs.declared.context.Context.{Context as ContextOf};
ghost use Rattle.elab_state.specs.declared.state.State.{State as StateOf};
ghost use Rattle.elab_steps.specs.Flexible.{AreSettled, OneIsFlexible};
ghost use Rattle.elab_steps.specs.Growing.{Grows, HasType};
ghost use Rattle.scope_decs.specs.of_dec_forms.Bringing.{IsBringing};
ghost use Rattle.pat_elab.specs.declared.stopped.Stopped.TheVariants.{NotPrincipal, Refuses};
ghost use Rattle.elab_types.specs.declared.refused.Refused.TheVariants.{Broken};
ghost use Rattle.elab_exps.specs.Decs.{StandsIn};
ghost use Rattle.elab_exps.specs.Groups.{AreMembers, IsFilled, IsMember, IsReady};

use crate::inside::Inside;
use elab_context::context::Context;
use elab_state::state::State;
use elab_steps::flexible::are_settled;
use elab_types::refused::Refused;
use general_decs::begin::Begun;
use general_decs::finish::finish;
use general_decs::rec_groups::functions::add_function;
use general_decs::rec_groups::head::Head;
use mlc_base::place::Place;
use pat_elab::bound::BoundVariable;
use pat_elab::stopped::Stopped;
use prog_tree::tree::{Dec, Function};
use scope_decs::dec_forms::brought::Brought;
use scope_decs::exp_forms::functions_made::FunctionMade;
use sml_tree::ident::Tyvar;
use std::alloc::Global;

/// What `rec` binds is no `fn`.
pub fn no_function(place: Place) -> Stopped
    ensures { result ≡ Refuses (Broken place) }
{
    Stopped::Refuses(Refused::Broken(place))
}

/// One function more.
pub fn add_member(
    alloc: Global,
    state: &mut State,
    context: &Context,
    place: Place,
    head: &Head,
    member: FunctionMade,
    inside: &mut Inside,
    funs: &mut Vec<(Vec<usize>, usize, Function)>,
) -> Result<(), Refused>
    requires context { IsContext state.old context.now }
    requires head { HasType state.old head.now.ty }
    requires member { HasType state.old member.ty }
    ensures grows { IfOk result (λ _. Grows state.old state.new) }
    ensures added { IfOk result (λ _. (S N : StateOf) (rs : List RuleOf) (r : RuleOf) (hs : List Head) (first : Inside)
        → AreMembers S context.now rs hs first N inside.old funs.old.items → IsMember N context.now r head.now.ty state.old member
        → AreMembers S context.now (rs ++ r ∷ []) (hs ++ head.now ∷ []) first state.new inside.new funs.new.items) }
{
    let bound = &mut inside.bound;
    let flags = &mut inside.flags;
    add_function(
        alloc, state, context, place, head, member, bound, flags, funs,
    )?;
    Ok(())
}

/// That the fields of record patterns with `...` are settled, of those in bindings that are generalised and in functions.
fn check_settled(
    state: &State,
    place: Place,
    begun: Begun,
    flexible: &[bool],
) -> Result<(), Stopped>
    ensures settled { IfOk result (λ _. AreSettled state.now begun.flexible flexible.now) }
    ensures open { IfErr result (λ e. (e ≡ NotPrincipal place) × OneIsFlexible state.now begun.flexible flexible.now) }
{
    if are_settled(state, begun.flexible, flexible) {
        Ok(())
    } else {
        Err(Stopped::NotPrincipal(place))
    }
}

/// The end of a declaration, of all that was made inside it.
pub fn finish_inside(
    alloc: Global,
    state: &mut State,
    context: &mut Context,
    place: Place,
    begun: Begun,
    scoped: &[Tyvar],
    inside: Inside,
    funs: Vec<(Vec<usize>, usize, Function)>,
    brought: &mut Brought,
) -> Result<Dec, Stopped>
    requires stands { StandsIn state.old context.old }
    requires ready { IsReady state.old context.old begun inside }
    ensures settled { IfOk result (λ _. AreSettled state.new begun.flexible inside.flexible.items) }
    ensures schemes { IfOk result (λ _. context.new.schemes ≡ context.old.schemes) }
    ensures stands { IfOk result (λ _. (S : StateOf) (C : ContextOf) (as_ : List TyvarOf) (rs gs : List RuleOf) → StandsIn S C
        → IsFilled S C begun scoped.now as_ rs gs state.old context.old inside funs.items → StandsIn state.new context.new) }
    ensures brings { IfOk result (λ d. (S : StateOf) (C : ContextOf) (p q : PlaceAt) (as_ : List TyvarOf) (rs gs : List RuleOf) → StandsIn S C
        → IsFilled S C begun scoped.now as_ rs gs state.old context.old inside funs.items
        → IsBringing S C (val_dec p q as_ (binds_of rs) (binds_of gs)) state.new context.new (d ∷ []) brought.old brought.new) }
{
    let Inside {
        bound,
        flags,
        binds,
        flexible,
    } = inside;
    let bound: &[BoundVariable] = &bound;
    let flags: &[bool] = &flags;
    let flexible: &[bool] = &flexible;
    let made = finish(
        alloc, state, context, place, begun, scoped, bound, flags, binds, funs, brought,
    )?;
    check_settled(state, place, begun, flexible)?;
    Ok(made)
}
