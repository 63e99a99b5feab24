// `fn`, `case` and `handle`.
ghost use Rattle.std.specs.Prelude.{◌≡◌, List, IfOk};
ghost use Rattle.sml_tree.specs.BareTree.{Exp as SourceExp, app, fn as function, handle};
ghost use Rattle.sml_tree.specs.TreeOf.{RuleOf, rules_of};
ghost use Rattle.ty_basis.specs.Types.{exn_type};
ghost use Rattle.pat_elab.specs.of_elab_context.Telling.{IsContext};
ghost use Rattle.pat_elab.specs.of_elab_steps.Growing.{HasType, Always};
ghost use Rattle.pat_elab.specs.of_elab_steps.World.{type_of};
ghost use Rattle.use_elab.specs.Elaborated.{IsExp};
ghost use Rattle.exp_forms.specs.Rules.{AreRules};

use crate::rules_made::RulesMade;
use mlc_base::make::boxed;
use mlc_base::memory::NoMemory;
use mlc_base::place::Place;
use pat_elab::elab_context::context::Context;
use pat_elab::elab_state::state::State;
use pat_elab::elab_steps::step::write;
use prog_tree::tree::{Exp, Function};
use std::alloc::Global;
use use_elab::given::functions;
use use_elab::typed::TypedExp;

/// The function that goes by rules.
pub fn by_rules(
    alloc: Global,
    state: &mut State,
    context: &Context,
    place: Place,
    made: RulesMade,
) -> Result<TypedExp, NoMemory>
    requires context { IsContext state.old context.now }
    requires domain { HasType state.old made.domain }
    requires range { HasType state.old made.range }
    ensures { IfOk result (λ r. (S : State) (p : Place) (rs : List RuleOf) → AreRules S context.now rs state.old made
        → IsExp S context.now (function p (rules_of rs)) state.new r) }
{
    let ty = functions(alloc, state, made.domain, made.range)?;
    let whole = write(state, ty, context.naming)?;
    let domain = write(state, made.domain, context.naming)?;
    let range = write(state, made.range, context.naming)?;
    let function = Function::ByRules(Vec::new(alloc), place, domain, range, made.rules);
    Ok(TypedExp {
        exp: Exp::Fn(whole, function),
        ty,
    })
}

/// Rules on the value of an expression.
pub fn case_of(
    alloc: Global,
    state: &mut State,
    context: &Context,
    place: Place,
    taken: TypedExp,
    made: RulesMade,
) -> Result<TypedExp, NoMemory>
    requires context { IsContext state.old context.now }
    requires range { HasType state.old made.range }
    ensures { IfOk result (λ r. (S M : State) (p q : Place) (e : SourceExp) (rs : List RuleOf) → IsExp S context.now e M taken
        → AreRules M context.now rs state.old made → made.domain ≡ taken.ty → IsExp S context.now (app p (function q (rules_of rs)) e) state.new r) }
{
    let ty = made.range;
    let written = write(state, ty, context.naming)?;
    let exp = boxed(alloc, taken.exp)?;
    Ok(TypedExp {
        exp: Exp::Case(place, written, exp, made.rules),
        ty,
    })
}

/// Rules on the exceptions of an expression.
pub fn handling(
    alloc: Global,
    state: &mut State,
    context: &Context,
    body: TypedExp,
    made: RulesMade,
) -> Result<TypedExp, NoMemory>
    requires context { IsContext state.old context.now }
    requires body { HasType state.old body.ty }
    ensures { IfOk result (λ r. (S M : State) (p : Place) (e : SourceExp) (rs : List RuleOf) → IsExp S context.now e M body
        → AreRules M context.now rs state.old made → Always state.old (λ W. type_of W made.domain ≡ exn_type) → made.range ≡ body.ty
        → IsExp S context.now (handle p e (rules_of rs)) state.new r) }
{
    let ty = body.ty;
    let written = write(state, ty, context.naming)?;
    let exp = boxed(alloc, body.exp)?;
    Ok(TypedExp {
        exp: Exp::Handle(written, exp, made.rules),
        ty,
    })
}
