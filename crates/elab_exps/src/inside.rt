// Bindings inside their declaration, from their parts.
ghost use Rattle.std.specs.Prelude.{◌≡◌, ◌++◌, ◌∷◌, [], List, true, false, IfOk};
ghost use Rattle.sml_tree.specs.TreeOf.{RuleOf, bind_of, exp_of, pat_of};
ghost use Rattle.elab_context.specs.Telling.{IsContext};
ghost use Rattle.elab_state.specs.declared.state.State.{State as StateOf};
ghost use Rattle.elab_steps.specs.Growing.{Grows, HasType};
ghost use Rattle.pat_elab.specs.Elaborated.{IsPat};
ghost use Rattle.use_elab.specs.Elaborated.{IsExp};
ghost use Rattle.general_decs.specs.Outside.{outside};
ghost use Rattle.general_decs.specs.Values.{IsGeneralised};
ghost use Rattle.elab_exps.specs.Inside.{AreBound, IsWithin};

use elab_context::context::Context;
use elab_state::state::State;
use general_decs::add::add;
use general_decs::begin::Begun;
use general_decs::outside::{step_in, step_out};
use general_decs::values::is_non_expansive;
use mlc_base::memory::NoMemory;
use pat_elab::bound::{BoundVariable, TypedPat};
use pat_elab::elab::elab_pat;
use pat_elab::stopped::Stopped;
use prog_known::answers::both;
use prog_tree::tree::{Binding, Exp as ProgramExp, Rule};
use prog_values::values::is_value;
use sml_tree::ident::Tyvar;
use sml_tree::tree::{Bind, Exp, Pat};
use std::alloc::Global;
use use_elab::typed::TypedExp;

/// What was made of bindings so far: what they bind, whether each of these is generalised, and the program's bindings; and of each record pattern with `...` in
/// them whether its binding is generalised.
#[derive(Drop)]
pub struct Inside {
    pub bound: Vec<BoundVariable>,
    pub flags: Vec<bool>,
    pub binds: Vec<(Binding, Rule)>,
    pub flexible: Vec<bool>,
}

/// No bindings.
pub fn none_inside(alloc: Global) -> Inside
    ensures bound { result.bound.items ≡ [] }
    ensures flags { result.flags.items ≡ [] }
    ensures binds { result.binds.items ≡ [] }
{
    Inside {
        bound: Vec::new(alloc),
        flags: Vec::new(alloc),
        binds: Vec::new(alloc),
        flexible: Vec::new(alloc),
    }
}

/// Whether a binding of an expression is generalised: it is non-expansive, and its program is a value.
fn is_general(state: &State, context: &Context, exp: &Exp, made: &ProgramExp) -> bool
    requires { IsContext state.now context.now }
    ensures { result ≡ true → IsGeneralised state.now context.now (exp_of exp.now) made.now }
{
    both(is_non_expansive(state, context, exp), is_value(made))
}

/// The pattern of a binding that isn't generalised: it stands outside the declaration.
fn outer_pat(
    alloc: Global,
    state: &mut State,
    context: &mut Context,
    begun: Begun,
    scoped: &[Tyvar],
    bound: &mut Vec<BoundVariable>,
    pat: &Pat,
) -> Result<TypedPat, Stopped>
    requires context { IsContext state.old context.old }
    requires within { IsWithin context.old begun scoped.now }
    ensures context { IfOk result (λ _. context.new ≡ context.old) }
    ensures is { IfOk result (λ r. IsPat state.old (outside context.old begun.tyvars) (pat_of pat.now) state.new bound.old.items bound.new.items r) }
{
    let stepped = step_out(alloc, context, begun, scoped)?;
    let made = elab_pat(alloc, state, context, bound, pat)?;
    step_in(context, stepped, scoped)?;
    Ok(made)
}

/// The pattern of a binding: inside the declaration where it is generalised.
fn binding_pat(
    alloc: Global,
    state: &mut State,
    context: &mut Context,
    begun: Begun,
    scoped: &[Tyvar],
    general: bool,
    bound: &mut Vec<BoundVariable>,
    pat: &Pat,
) -> Result<TypedPat, Stopped>
    requires context { IsContext state.old context.old }
    requires within { IsWithin context.old begun scoped.now }
    ensures context { IfOk result (λ _. context.new ≡ context.old) }
    ensures grows { IfOk result (λ _. Grows state.old state.new) }
    ensures is { IfOk result (λ r. HasType state.new r.ty) }
    ensures inside { IfOk result (λ r. general ≡ true → IsPat state.old context.old (pat_of pat.now) state.new bound.old.items bound.new.items r) }
    ensures outside { IfOk result (λ r. general ≡ false
        → IsPat state.old (outside context.old begun.tyvars) (pat_of pat.now) state.new bound.old.items bound.new.items r) }
{
    if general {
        elab_pat(alloc, state, context, bound, pat)
    } else {
        outer_pat(alloc, state, context, begun, scoped, bound, pat)
    }
}

/// Notes of the record patterns with `...` that came last whether their binding is generalised.
fn ask(
    state: &State,
    begun: Begun,
    general: bool,
    flexible: &mut Vec<bool>,
) -> Result<(), NoMemory> {
    let count = state.flexible.len().saturating_sub(begun.flexible);
    for _ in flexible.len()..count {
        flexible.push(general)?;
    }
    Ok(())
}

/// One binding more, with its expression.
pub fn add_binding(
    alloc: Global,
    state: &mut State,
    context: &mut Context,
    begun: Begun,
    scoped: &[Tyvar],
    bind: &Bind,
    exp: TypedExp,
    inside: &mut Inside,
) -> Result<(), Stopped>
    requires context { IsContext state.old context.old }
    requires within { IsWithin context.old begun scoped.now }
    requires exp { HasType state.old exp.ty }
    ensures context { IfOk result (λ _. context.new ≡ context.old) }
    ensures added { IfOk result (λ _. (S N : StateOf) (rs : List RuleOf) → AreBound S context.old begun rs N inside.old
        → IsExp N context.old (exp_of bind.now.exp) state.old exp → AreBound S context.old begun (rs ++ bind_of bind.now ∷ []) state.new inside.new) }
{
    let general = is_general(state, context, &bind.exp, &exp.exp);
    let bound = &mut inside.bound;
    let pat = binding_pat(
        alloc, state, context, begun, scoped, general, bound, &bind.pat,
    )?;
    let bound: &[BoundVariable] = &inside.bound;
    let flags = &mut inside.flags;
    let binds = &mut inside.binds;
    let place = bind.place;
    add(
        alloc, state, context, place, general, pat, exp, bound, flags, binds,
    )?;
    ask(state, begun, general, &mut inside.flexible)?;
    Ok(())
}
