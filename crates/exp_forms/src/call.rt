// Applications: a function before its arguments.
ghost use Rattle.std.specs.Prelude.{IfOk};
ghost use Rattle.sml_tree.specs.BareTree.{Exp as SourceExp, app};
ghost use Rattle.core_elab.specs.Resolves.{IsCalled};
ghost use Rattle.pat_elab.specs.of_elab_context.Telling.{IsContext};
ghost use Rattle.pat_elab.specs.of_elab_steps.Growing.{Grows, HasType};
ghost use Rattle.use_elab.specs.Elaborated.{IsExp};
ghost use Rattle.exp_forms.specs.Calls.{IsCall};

use crate::made::Called;
use elab_types::refused::Refused;
use mlc_base::make::boxed;
use mlc_base::memory::NoMemory;
use mlc_base::place::Place;
use pat_elab::elab_context::context::Context;
use pat_elab::elab_state::state::State;
use pat_elab::elab_steps::step::{fresh_type, unify, write};
use prog_tree::tree::Exp;
use std::alloc::Global;
use ty_core::mark::Mark;
use use_elab::given::functions;
use use_elab::typed::TypedExp;

/// A function with no argument yet.
pub fn start_call(alloc: Global, function: TypedExp) -> Result<Called, NoMemory>
    ensures { IfOk result (λ made. (S T : State) (C : Context) (place : Place) (e : SourceExp) → IsExp S C e T function → IsCall S C place e T made) }
{
    let ty = function.ty;
    let function = boxed(alloc, function.exp)?;
    Ok(Called {
        function,
        arguments: Vec::new(alloc),
        ty,
    })
}

/// Applies what there is to one argument more.
pub fn add_argument(
    alloc: Global,
    state: &mut State,
    context: &Context,
    place: Place,
    argument: TypedExp,
    made: &mut Called,
) -> Result<(), Refused>
    requires context { IsContext state.old context.now }
    requires function { HasType state.old made.old.ty }
    requires argument { HasType state.old argument.ty }
    ensures grows { IfOk result (λ _. Grows state.old state.new) }
    ensures is { IfOk result (λ _. HasType state.new made.new.ty) }
    ensures added { IfOk result (λ _. (S M : State) (p : Place) (f a : SourceExp) → IsCalled f → IsCall S context.now p f M made.old
        → IsExp M context.now a state.old argument → IsCall S context.now p (app p f a) state.new made.new) }
{
    let ty = fresh_type(alloc, state, Mark::Any, context.limit())?;
    let function = functions(alloc, state, argument.ty, ty)?;
    unify(alloc, state, place, made.ty, function)?;
    let written = write(state, ty, context.naming)?;
    made.arguments.push((written, argument.exp))?;
    made.ty = ty;
    Ok(())
}

/// The application to all of them, in one node.
pub fn finish_call(place: Place, made: Called) -> TypedExp
    ensures { (S T : State) (C : Context) (e : SourceExp) → IsCall S C place e T made → IsExp S C e T result }
{
    TypedExp {
        exp: Exp::Apply(place, made.function, made.arguments),
        ty: made.ty,
    }
}
