// Functions of parameters and a body.
ghost use Rattle.std.specs.Prelude.{◌≡◌, ◌++◌, ◌∷◌, [], IfOk, List};
ghost use Rattle.sml_tree.specs.BareTree.{Exp as SourceExp, Rules, fn as function_exp};
ghost use Rattle.pat_elab.specs.of_elab_context.Telling.{IsContext};
ghost use Rattle.use_elab.specs.Fresh.{images_of};
ghost use Rattle.pat_elab.specs.of_elab_steps.Growing.{HasType, AreTypes, Always, Grows};
ghost use Rattle.pat_elab.specs.of_elab_steps.World.{type_of};
ghost use Rattle.use_elab.specs.Elaborated.{IsExp};
ghost use Rattle.exp_forms.specs.Functions.{IsFunction, curried, rules_of};
ghost use Rattle.exp_forms.specs.Parameters.{AreEntered, Takes};

use crate::functions_made::{Entered, FunctionMade};
use mlc_base::make::boxed;
use mlc_base::memory::NoMemory;
use mlc_base::place::Place;
use pat_elab::elab_context::context::Context;
use pat_elab::elab_state::state::State;
use pat_elab::elab_steps::step::write;
use prog_tree::tree::{Exp, Function};
use std::alloc::Global;
use use_elab::given::functions;
use use_elab::typed::TypedExp;

/// The type of functions of these types, one after the other.
fn curried_type(
    alloc: Global,
    state: &mut State,
    types: &[usize],
    range: usize,
) -> Result<usize, NoMemory>
    requires types { AreTypes state.old types.now }
    requires range { HasType state.old range }
    ensures grows { IfOk result (λ _. Grows state.old state.new) }
    ensures is { IfOk result (λ r. HasType state.new r) }
    ensures has { IfOk result (λ r. Always state.new (λ W. type_of W r ≡ curried (images_of W types.now) (type_of W range))) }
{
    let mut ty = range;
    let mut i = types.len();
    while i > 0 {
        i -= 1;
        ty = functions(alloc, state, types[i], ty)?;
    }
    Ok(ty)
}

/// The function of these parameters and a body, which was elaborated where they are in scope.
pub fn finish(
    alloc: Global,
    state: &mut State,
    entered: Entered,
    body: TypedExp,
) -> Result<FunctionMade, NoMemory>
    requires types { AreTypes state.old entered.types.items }
    requires body { HasType state.old body.ty }
    ensures { IfOk result (λ r. (S M : State) (C D : Context) (as_ : List Takes) (e : SourceExp)
        → AreEntered S C as_ M D (entered.before.items ++ entered.last ∷ []) entered.types.items → IsExp M D e state.old body
        → IsFunction S C (rules_of as_ e) state.new r) }
{
    let ty = curried_type(alloc, state, &entered.types, body.ty)?;
    let exp = boxed(alloc, body.exp)?;
    Ok(FunctionMade {
        function: Function::Named(entered.before, entered.last, exp),
        ty,
    })
}

/// A function as an expression.
pub fn function(
    state: &mut State,
    context: &Context,
    made: FunctionMade,
) -> Result<TypedExp, NoMemory>
    requires context { IsContext state.old context.now }
    requires made { HasType state.old made.ty }
    ensures { IfOk result (λ r. (S : State) (p : Place) (rs : Rules) → IsFunction S context.now rs state.old made
        → IsExp S context.now (function_exp p rs) state.new r) }
{
    let written = write(state, made.ty, context.naming)?;
    Ok(TypedExp {
        exp: Exp::Fn(written, made.function),
        ty: made.ty,
    })
}
