// Rules, one after the other.
ghost use Rattle.std.specs.Prelude.{◌≡◌, ◌++◌, ◌∷◌, [], List, IfOk};
ghost use Rattle.sml_tree.specs.BareTree.{Exp as SourceExp, Pat as SourcePat};
ghost use Rattle.sml_tree.specs.TreeOf.{RuleOf};
ghost use Rattle.ty_basis.specs.Types.{exn_type};
ghost use Rattle.pat_elab.specs.of_elab_context.Telling.{IsContext};
ghost use Rattle.pat_elab.specs.of_elab_steps.Growing.{Always, Grows, HasType};
ghost use Rattle.pat_elab.specs.of_elab_steps.World.{type_of};
ghost use Rattle.pat_elab.specs.Elaborated.{IsPat};
ghost use Rattle.use_elab.specs.Elaborated.{IsExp};
ghost use Rattle.exp_forms.specs.Within.{within};
ghost use Rattle.exp_forms.specs.Rules.{AreRules, IsEntered};

use crate::rules_made::RulesMade;
use elab_types::refused::Refused;
use mlc_base::memory::NoMemory;
use mlc_base::place::Place;
use pat_elab::bound::{BoundVariable, TypedPat};
use pat_elab::elab_context::context::Context;
use pat_elab::elab_state::state::State;
use pat_elab::elab_steps::step::{fresh_type, unify};
use prog_tree::tree::Rule;
use std::alloc::Global;
use ty_core::mark::Mark;
use use_elab::given::packets;
use use_elab::typed::TypedExp;

/// No rules, of any two types.
pub fn start_function(
    alloc: Global,
    state: &mut State,
    context: &Context,
) -> Result<RulesMade, NoMemory>
    requires context { IsContext state.old context.now }
    ensures { IfOk result (λ r. AreRules state.old context.now [] state.new r) }
{
    let domain = fresh_type(alloc, state, Mark::Any, context.limit())?;
    let range = fresh_type(alloc, state, Mark::Any, context.limit())?;
    Ok(RulesMade {
        domain,
        range,
        rules: Vec::new(alloc),
    })
}

/// No rules, for the value of an expression.
pub fn start_case(
    alloc: Global,
    state: &mut State,
    context: &Context,
    taken: &TypedExp,
) -> Result<RulesMade, NoMemory>
    requires context { IsContext state.old context.now }
    ensures grows { IfOk result (λ _. Grows state.old state.new) }
    ensures domain { IfOk result (λ r. r.domain ≡ taken.now.ty) }
    ensures range { IfOk result (λ r. HasType state.new r.range) }
    ensures started { IfOk result (λ r. (S : State) (e : SourceExp) → IsExp S context.now e state.old taken.now → AreRules state.old context.now [] state.new r) }
{
    let range = fresh_type(alloc, state, Mark::Any, context.limit())?;
    Ok(RulesMade {
        domain: taken.ty,
        range,
        rules: Vec::new(alloc),
    })
}

/// No rules, for the exceptions of an expression.
pub fn start_handle(
    alloc: Global,
    state: &mut State,
    context: &Context,
    body: &TypedExp,
) -> Result<RulesMade, NoMemory>
    requires context { IsContext state.old context.now }
    ensures grows { IfOk result (λ _. Grows state.old state.new) }
    ensures range { IfOk result (λ r. r.range ≡ body.now.ty) }
    ensures domain { IfOk result (λ r. Always state.new (λ W. type_of W r.domain ≡ exn_type)) }
    ensures is { IfOk result (λ r. HasType state.new r.domain) }
    ensures started { IfOk result (λ r. (S : State) (e : SourceExp) → IsExp S context.now e state.old body.now → AreRules state.old context.now [] state.new r) }
{
    let _ = context;
    let domain = packets(alloc, state)?;
    Ok(RulesMade {
        domain,
        range: body.ty,
        rules: Vec::new(alloc),
    })
}

/// One rule more: its pattern, and the expression behind it, elaborated where the pattern's variables are in scope.
pub fn add_rule(
    alloc: Global,
    state: &mut State,
    place: Place,
    pat: TypedPat,
    exp: TypedExp,
    made: &mut RulesMade,
) -> Result<(), Refused>
    requires exp { HasType state.old exp.ty }
    requires range { HasType state.old made.old.range }
    ensures grows { IfOk result (λ _. Grows state.old state.new) }
    ensures domain { IfOk result (λ _. made.new.domain ≡ made.old.domain) }
    ensures range { IfOk result (λ _. made.new.range ≡ made.old.range) }
    ensures added { IfOk result (λ _. (S M P Q : State) (C : Context) (rs : List RuleOf) (p : Place) (a : SourcePat) (e : SourceExp) (bs : List BoundVariable)
        → AreRules S C rs M made.old → IsContext M C → IsPat M C a P [] bs pat → IsEntered P bs pat.ty made.old.domain Q
        → IsExp Q (within C bs) e state.old exp → AreRules S C (rs ++ record { place = p; pat = a; exp = e } ∷ []) state.new made.new) }
{
    unify(alloc, state, place, exp.ty, made.range)?;
    made.rules.push(Rule {
        pat: pat.pat,
        exp: exp.exp,
    })?;
    Ok(())
}
