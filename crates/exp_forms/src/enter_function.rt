// Parameters that come into scope.
ghost use Rattle.std.specs.Prelude.{◌++◌, ◌∷◌, [], IfOk, List};
ghost use Rattle.sml_tree.specs.Derived.{fresh_pat};
ghost use Rattle.pat_elab.specs.of_elab_context.Telling.{IsContext};
ghost use Rattle.exp_forms.specs.Parameters.{AreEntered, IsEntered, Takes};

use crate::bind::bind_all;
use crate::functions_made::Entered;
use elab_types::refused::Refused;
use mlc_base::make::one;
use mlc_base::memory::NoMemory;
use mlc_base::place::Place;
use pat_elab::elab_context::context::Context;
use pat_elab::elab_state::state::State;
use pat_elab::elab_steps::step::write;
use pat_elab::leaf::bind_variable;
use prog_tree::tree::Parameter;
use sml_tree::ident::Vid;
use std::alloc::Global;

/// A fresh identifier as a parameter: it comes into scope. Its type is answered too.
pub fn enter_fresh(
    alloc: Global,
    state: &mut State,
    context: &mut Context,
    place: Place,
    number: u32,
) -> Result<(Parameter, usize), Refused>
    requires { IsContext state.old context.old }
    ensures context { IfOk result (λ _. IsContext state.new context.new) }
    ensures entered { IfOk result (λ r. IsEntered state.old context.old (fresh_pat place number) state.new context.new r.0 r.1) }
{
    let mut bound = Vec::new(alloc);
    let made = bind_variable(
        alloc,
        state,
        context,
        place,
        &Vid::Fresh(number),
        &mut bound,
    )?;
    let ty = write(state, made.ty, context.naming)?;
    bind_all(context, &bound)?;
    let parameter = Parameter {
        variable: made.number,
        ty,
    };
    Ok((parameter, made.ty))
}

/// One parameter.
pub fn start(alloc: Global, parameter: Parameter, ty: usize) -> Result<Entered, NoMemory>
    ensures { IfOk result (λ made. (S T : State) (C D : Context) (a : Takes) → IsEntered S C a.pat T D parameter ty
        → AreEntered S C (a ∷ []) T D (made.before.items ++ made.last ∷ []) made.types.items) }
{
    let types = one(alloc, ty)?;
    Ok(Entered {
        before: Vec::new(alloc),
        last: parameter,
        types,
    })
}

/// One parameter more.
pub fn add(parameter: Parameter, ty: usize, made: &mut Entered) -> Result<(), NoMemory>
    ensures { IfOk result (λ _. (S M T : State) (C D E : Context) (as_ : List Takes) (a : Takes)
        → AreEntered S C as_ M D (made.old.before.items ++ made.old.last ∷ []) made.old.types.items → IsEntered M D a.pat T E parameter ty
        → AreEntered S C (as_ ++ a ∷ []) T E (made.new.before.items ++ made.new.last ∷ []) made.new.types.items) }
{
    made.before.push(made.last)?;
    made.last = parameter;
    made.types.push(ty)?;
    Ok(())
}
