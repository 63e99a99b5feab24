// Functions inside their group, one after the other.
ghost use Rattle.std.specs.Prelude.{◌≡◌, ◌++◌, ◌∷◌, [], List, map, reverse, true, IfOk};
ghost use Rattle.mlc_base.specs.declared.place.Place.{Place as PlaceAt};
ghost use Rattle.sml_tree.specs.BareTree.{Rules, fn as function_exp};
ghost use Rattle.sml_tree.specs.TreeOf.{RuleOf, rules_of};
ghost use Rattle.elab_context.specs.Telling.{IsContext};
ghost use Rattle.elab_state.specs.declared.state.State.{State as StateOf};
ghost use Rattle.elab_steps.specs.Growing.{Grows, HasType};
ghost use Rattle.dec_forms.specs.of_exp_forms.Functions.{IsFunction};
ghost use Rattle.dec_forms.specs.of_exp_forms.Rules.{AreRules};
ghost use Rattle.rec_groups.specs.Functions.{AreFunctions};
ghost use Rattle.rec_groups.specs.Heads.{IsAnnotatedHead, numbers_of};

use crate::head::Head;
use dec_forms::exp_forms::functions_made::FunctionMade;
use dec_forms::exp_forms::rules_made::RulesMade;
use dec_forms::pat_elab::bound::BoundVariable;
use dec_forms::use_elab::given::functions;
use elab_context::context::Context;
use elab_state::state::State;
use elab_steps::step::{unify, write};
use elab_types::refused::Refused;
use mlc_base::memory::NoMemory;
use mlc_base::place::Place;
use prog_tree::tree::Function;
use sml_tree::ident::Vid;
use std::alloc::Global;

/// The function that goes by rules.
pub fn by_rules(
    alloc: Global,
    state: &mut State,
    context: &Context,
    place: Place,
    made: RulesMade,
) -> Result<FunctionMade, NoMemory>
    requires context { IsContext state.old context.now }
    requires domain { HasType state.old made.domain }
    requires range { HasType state.old made.range }
    ensures { IfOk result (λ r. (S : StateOf) (rs : List RuleOf) → AreRules S context.now rs state.old made
        → IsFunction S context.now (rules_of rs) state.new r) }
{
    let ty = functions(alloc, state, made.domain, made.range)?;
    let domain = write(state, made.domain, context.naming)?;
    let range = write(state, made.range, context.naming)?;
    let function = Function::ByRules(Vec::new(alloc), place, domain, range, made.rules);
    Ok(FunctionMade { function, ty })
}

/// Binds the variables of a head, the last of them first, as generalised ones, and answers their numbers.
fn bind_head(
    alloc: Global,
    variables: &[BoundVariable],
    bound: &mut Vec<BoundVariable>,
    flags: &mut Vec<bool>,
) -> Result<Vec<usize>, NoMemory>
    ensures numbers { IfOk result (λ ns. ns.items ≡ numbers_of (reverse variables.now)) }
    ensures bound { IfOk result (λ _. bound.new.items ≡ bound.old.items ++ reverse variables.now) }
    ensures flags { IfOk result (λ _. flags.new.items ≡ flags.old.items ++ map (λ b. true) (reverse variables.now)) }
{
    let mut numbers = Vec::new(alloc);
    let mut i = variables.len();
    while i > 0 {
        i -= 1;
        let variable = variables[i];
        let vid: Vid = variable.vid;
        numbers.push(variable.number)?;
        bound.push(BoundVariable {
            vid,
            number: variable.number,
            ty: variable.ty,
        })?;
        flags.push(true)?;
    }
    Ok(numbers)
}

/// One function more: what it is made of has the type of its head.
pub fn add_function(
    alloc: Global,
    state: &mut State,
    context: &Context,
    place: Place,
    head: &Head,
    made: FunctionMade,
    bound: &mut Vec<BoundVariable>,
    flags: &mut Vec<bool>,
    funs: &mut Vec<(Vec<usize>, usize, Function)>,
) -> Result<(), Refused>
    requires context { IsContext state.old context.now }
    requires head { HasType state.old head.now.ty }
    requires made { HasType state.old made.ty }
    ensures grows { IfOk result (λ _. Grows state.old state.new) }
    ensures bound { IfOk result (λ _. bound.new.items ≡ bound.old.items ++ reverse head.now.variables.items) }
    ensures flags { IfOk result (λ _. flags.new.items ≡ flags.old.items ++ map (λ b. true) (reverse head.now.variables.items)) }
    ensures added { IfOk result (λ _. (S N M : StateOf) (rs : List RuleOf) (r : RuleOf) (q : PlaceAt) (rules : Rules) (hs : List Head)
        → AreFunctions S context.now rs N funs.old.items hs → IsAnnotatedHead N context.now r.pat head.now.ty M → r.exp ≡ function_exp q rules
        → IsFunction M context.now rules state.old made
        → AreFunctions S context.now (rs ++ r ∷ []) state.new funs.new.items (hs ++ head.now ∷ [])) }
{
    unify(alloc, state, place, made.ty, head.ty)?;
    let ty = write(state, head.ty, context.naming)?;
    let numbers = bind_head(alloc, &head.variables, bound, flags)?;
    funs.push((numbers, ty, made.function))?;
    Ok(())
}
