// Lists of expressions: chains of `::` that `nil` ends.
ghost use Rattle.std.specs.Prelude.{◌≡◌, ◌++◌, ◌∷◌, [], List, IfOk};
ghost use Rattle.sml_tree.specs.BareTree.{Exp as SourceExp};
ghost use Rattle.sml_tree.specs.Derived.{list_of};
ghost use Rattle.prog_tree.specs.TreeOf.{Reading, tree_of};
ghost use Rattle.pat_elab.specs.of_elab_context.Telling.{IsContext};
ghost use Rattle.pat_elab.specs.of_elab_steps.Growing.{HasType};
ghost use Rattle.use_elab.specs.Elaborated.{IsExp};
ghost use Rattle.exp_forms.specs.Lists.{AreElements, IsListed, cons_of, nil_of};

use crate::built::{LIST, list_types, number_of};
use crate::parts::Listed;
use elab_types::refused::Refused;
use mlc_base::make::{boxed, one};
use mlc_base::memory::NoMemory;
use mlc_base::place::Place;
use pat_elab::elab_context::context::Context;
use pat_elab::elab_state::state::State;
use pat_elab::elab_steps::step::{unify, write};
use prog_tree::tree::{Exp, Join, Side, Used};
use sml_tree::ident::BuiltIn;
use std::alloc::Global;
use use_elab::typed::TypedExp;

/// The types of a list at a place.
pub fn start_list(
    alloc: Global,
    state: &mut State,
    context: &Context,
    place: Place,
) -> Result<Listed, NoMemory>
    requires { IsContext state.old context.now }
    ensures { IfOk result (λ l. IsListed state.old context.now place state.new l) }
{
    let types = list_types(alloc, state, context)?;
    let at = write(state, types.element, context.naming)?;
    let operator = write(state, types.function, context.naming)?;
    let ty = write(state, types.list, context.naming)?;
    let pair = write(state, types.pair, context.naming)?;
    Ok(Listed {
        element: types.element,
        ty: types.list,
        at,
        operator,
        join: Join { place, ty, pair },
    })
}

/// `::` in a list.
fn cons(alloc: Global, listed: Listed) -> Result<Exp, NoMemory>
    ensures { IfOk result (λ e. (R : Reading) → tree_of R e ≡ cons_of R listed) }
{
    let at = one(alloc, listed.at)?;
    let used = Used::Constructor(number_of(BuiltIn::Cons), LIST);
    Ok(Exp::Use(used, at, listed.operator))
}

/// `nil` at the end of a list.
fn nil(alloc: Global, listed: Listed) -> Result<Exp, NoMemory>
    ensures { IfOk result (λ e. (R : Reading) → tree_of R e ≡ nil_of R listed) }
{
    let at = one(alloc, listed.at)?;
    let used = Used::Constructor(number_of(BuiltIn::Nil), LIST);
    Ok(Exp::Use(used, at, listed.join.ty))
}

/// One element more, of the elements' type.
pub fn add_element(
    alloc: Global,
    state: &mut State,
    place: Place,
    listed: Listed,
    element: TypedExp,
    parts: &mut Vec<(Join, Exp, Exp)>,
) -> Result<(), Refused>
    requires one { HasType state.old element.ty }
    requires element { HasType state.old listed.element }
    ensures { IfOk result (λ _. (S M : State) (C : Context) (es : List SourceExp) (e : SourceExp) → AreElements S C listed es M parts.old.items
        → IsExp M C e state.old element → AreElements S C listed (es ++ e ∷ []) state.new parts.new.items) }
{
    unify(alloc, state, place, element.ty, listed.element)?;
    let operator = cons(alloc, listed)?;
    parts.push((listed.join, operator, element.exp))?;
    Ok(())
}

/// The end of a list: `nil`, after what joins it.
fn end_of(alloc: Global, listed: Listed) -> Result<(Join, Exp, Exp), NoMemory>
    ensures join { IfOk result (λ g. g.0 ≡ listed.join) }
    ensures operator { IfOk result (λ g. (R : Reading) → tree_of R g.1 ≡ cons_of R listed) }
    ensures end { IfOk result (λ g. (R : Reading) → tree_of R g.2 ≡ nil_of R listed) }
{
    let operator = cons(alloc, listed)?;
    let end = nil(alloc, listed)?;
    Ok((listed.join, operator, end))
}

/// The operand of a part.
fn operand(part: (Join, Exp, Exp)) -> Exp
    ensures { result ≡ part.2 }
{
    let (_join, _operator, exp) = part;
    exp
}

/// The list of these elements.
pub fn finish_list(
    alloc: Global,
    listed: Listed,
    parts: Vec<(Join, Exp, Exp)>,
) -> Result<TypedExp, NoMemory>
    ensures { IfOk result (λ r. (S L T : State) (C : Context) (place : Place) (es : List SourceExp) → IsListed S C place L listed
        → AreElements L C listed es T parts.items → IsExp S C (list_of place es) T r) }
{
    let ty = listed.ty;
    let count = parts.len();
    if count == 0 {
        let exp = nil(alloc, listed)?;
        return Ok(TypedExp { exp, ty });
    }
    let end = end_of(alloc, listed)?;
    let mut parts = parts;
    parts.push(end)?;
    let first = operand(parts.remove(0));
    let first = boxed(alloc, first)?;
    Ok(TypedExp {
        exp: Exp::Infix(Side::Right, first, parts),
        ty,
    })
}
