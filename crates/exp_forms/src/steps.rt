// The two ends of a rule.
ghost use Rattle.std.specs.Prelude.{◌≡◌, ◌++◌, ◌∷◌, ℕ, [], List, IfOk};
ghost use Rattle.sml_tree.specs.BareTree.{Exp as SourceExp, Pat as SourcePat};
ghost use Rattle.sml_tree.specs.TreeOf.{RuleOf, pat_of};
ghost use Rattle.pat_elab.specs.of_elab_context.Telling.{IsContext};
ghost use Rattle.pat_elab.specs.of_elab_steps.Growing.{Grows, HasType};
ghost use Rattle.use_elab.specs.Elaborated.{IsExp};
ghost use Rattle.exp_forms.specs.Rules.{AreRules};
ghost use Rattle.exp_forms.specs.Begun.{IsBegun};

use crate::begun::RuleBegun;
use crate::bind::leave;
use crate::enter::enter;
use crate::rules::add_rule;
use crate::rules_made::RulesMade;
use elab_types::refused::Refused;
use mlc_base::place::Place;
use pat_elab::elab::elab_pat;
use pat_elab::elab_context::context::Context;
use pat_elab::elab_state::state::State;
use pat_elab::stopped::Stopped;
use sml_tree::tree::Pat;
use std::alloc::Global;
use use_elab::typed::TypedExp;

/// The pattern of a rule, whose variables come into scope.
pub fn begin_rule(
    alloc: Global,
    state: &mut State,
    context: &mut Context,
    place: Place,
    domain: usize,
    pat: &Pat,
) -> Result<RuleBegun, Stopped>
    requires context { IsContext state.old context.old }
    requires domain { HasType state.old domain }
    ensures begun { IfOk result (λ r. IsBegun state.old context.old (pat_of pat.now) domain state.new context.new r) }
{
    let mark = context.values.mark();
    let mut bound = Vec::new(alloc);
    let pat = elab_pat(alloc, state, context, &mut bound, pat)?;
    enter(alloc, state, context, place, domain, pat.ty, &bound)?;
    Ok(RuleBegun { pat, mark })
}

/// One rule more, with its expression, and its variables left.
pub fn end_rule(
    alloc: Global,
    state: &mut State,
    context: &mut Context,
    place: Place,
    begun: RuleBegun,
    exp: TypedExp,
    made: &mut RulesMade,
) -> Result<(), Refused>
    requires exp { HasType state.old exp.ty }
    requires range { HasType state.old made.old.range }
    ensures grows { IfOk result (λ _. Grows state.old state.new) }
    ensures domain { IfOk result (λ _. made.new.domain ≡ made.old.domain) }
    ensures range { IfOk result (λ _. made.new.range ≡ made.old.range) }
    ensures left { IfOk result (λ _. (S T : State) (C : Context) (a : SourcePat) (k : ℕ) → IsBegun S C a k T context.old begun → context.new ≡ C) }
    ensures added { IfOk result (λ _. (S M Q : State) (C : Context) (rs : List RuleOf) (p : Place) (a : SourcePat) (e : SourceExp)
        → AreRules S C rs M made.old → IsContext M C → IsBegun M C a made.old.domain Q context.old begun → IsExp Q context.old e state.old exp
        → AreRules S C (rs ++ record { place = p; pat = a; exp = e } ∷ []) state.new made.new) }
{
    leave(context, begun.mark);
    add_rule(alloc, state, place, begun.pat, exp, made)?;
    Ok(())
}
