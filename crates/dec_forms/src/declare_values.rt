// The declaration of bindings.
ghost use Rattle.std.specs.Prelude.{◌≡◌, ◌<◌, ◌∷◌, [], List, length, slice_get, Some, IfOk};
ghost use Rattle.sml_tree.specs.BareTree.{no_binds, val_dec};
ghost use Rattle.sml_tree.specs.TreeOf.{RuleOf, binds_of};
ghost use Rattle.ir_tables.specs.Tables.{parameters_of};
ghost use Rattle.exp_forms.specs.of_elab_context.Telling.{IsContext};
ghost use Rattle.closed_types.specs.of_elab_steps.Growing.{Grows};
ghost use Rattle.exp_forms.specs.of_pat_elab.Elaborated.{AreVariables};
ghost use Rattle.dec_forms.specs.Decs.{IsDec};
ghost use Rattle.dec_forms.specs.Telling.{HasFurther, with_all};
ghost use Rattle.dec_forms.specs.Binds.{AreBinds, plain_entries};

use closed_types::elab_state::state::State;
use elab_types::refused::Refused;
use exp_forms::distinct::check_once;
use exp_forms::elab_context::context::Context;
use exp_forms::elab_context::entry::Entry;
use exp_forms::pat_elab::bound::BoundVariable;
use mlc_base::memory::NoMemory;
use mlc_base::place::Place;
use prog_tree::tree::{Binding, Dec, Rule};
use std::alloc::Global;

/// A list of no parameters, and its number.
fn no_parameters(alloc: Global, state: &mut State) -> Result<usize, NoMemory>
    ensures grows { IfOk result (λ _. Grows state.old state.new) }
    ensures is { IfOk result (λ l. slice_get (parameters_of state.new.tables) l ≡ Some []) }
    ensures next { IfOk result (λ _. state.new.next ≡ state.old.next) }
{
    let number = state.tables.parameters.len();
    state.tables.parameters.push(Vec::new(alloc))?;
    Ok(number)
}

/// Brings the variables of bindings into scope, over the parameters of a list.
fn bind_plain(context: &mut Context, list: usize, bound: &[BoundVariable]) -> Result<(), NoMemory>
    ensures { IfOk result (λ _. context.new ≡ with_all context.old (plain_entries list bound.now)) }
{
    for i in 0..bound.len() {
        let variable = bound[i];
        let entry = Entry::General(list, variable.ty, variable.number, false);
        context.values.bind(variable.vid, entry)?;
    }
    Ok(())
}

/// The declaration of bindings whose types are over no parameters. Its variables come into scope.
pub fn declare(
    alloc: Global,
    state: &mut State,
    context: &mut Context,
    place: Place,
    bound: &[BoundVariable],
    binds: Vec<(Binding, Rule)>,
) -> Result<Dec, Refused>
    requires context { IsContext state.old context.old }
    requires have { AreVariables state.old bound.now }
    ensures grows { IfOk result (λ _. Grows state.old state.new) }
    ensures context { IfOk result (λ _. IsContext state.new context.new) }
    ensures values { IfOk result (λ _. HasFurther context.old context.new) }
    ensures declared { IfOk result (λ d. (S : State) (p q : Place) (rs : List RuleOf) → IsContext S context.old
        → AreBinds S context.old rs state.old bound.now binds.items
        → IsDec S context.old (val_dec p q [] (binds_of rs) no_binds) state.new context.new (d ∷ [])) }
{
    check_once(alloc, place, bound)?;
    let list = no_parameters(alloc, state)?;
    bind_plain(context, list, bound)?;
    Ok(Dec::Val(list, binds, Vec::new(alloc)))
}
