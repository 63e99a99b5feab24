// Variables of declarations.
ghost use Rattle.std.specs.Prelude.{◌≡◌, Some, [], map, IfOk, if◌then◌else◌};
ghost use Rattle.std.specs.List.{AllByRecursion};
ghost use Rattle.sml_tree.specs.Terminal.{LongVid};
ghost use Rattle.sml_tree.specs.BareTree.{vid_exp};
ghost use Rattle.ty_core.specs.Marks.{is_inhabited};
ghost use Rattle.ir_tables.specs.Tables.{parameters_of, parameters_at};
ghost use Rattle.elab_context.specs.of_elab_typed.Numbers.{type_as};
ghost use Rattle.elab_context.specs.of_elab_steps.Growing.{HasGeneral, HasType, Always, AreTypes, Grows};
ghost use Rattle.use_elab.specs.Fresh.{images_of};
ghost use Rattle.elab_context.specs.Entries.{entry_in};
ghost use Rattle.elab_context.specs.Telling.{IsContext, HasList};
ghost use Rattle.elab_context.specs.declared.entry.Entry.TheVariants.{Single, Own, General};
ghost use Rattle.use_elab.specs.Elaborated.{IsAtNew, IsExp};

use crate::finish::{atom, used_at};
use crate::fresh::fresh_types;
use crate::put::put_with;
use crate::typed::{Instance, TypedExp};
use crate::writing::write_all;
use elab_context::context::Context;
use elab_context::elab_state::state::State;
use mlc_base::memory::NoMemory;
use mlc_base::place::Place;
use prog_tree::tree::{Atom, Used};
use std::alloc::Global;
use ty_core::mark::Mark;
use ty_core::scheme::Quantified;

/// A variable of one type.
pub fn single(
    alloc: Global,
    state: &mut State,
    context: &Context,
    ty: usize,
    number: usize,
) -> Result<TypedExp, NoMemory>
    requires context { IsContext state.old context.now }
    requires ty { HasType state.old ty }
    ensures { IfOk result (λ r. (place : Place) (x : LongVid) → entry_in context.now x.qualifiers x.vid ≡ Some (Single ty number)
        → IsExp state.old context.now (vid_exp place x) state.new r) }
{
    let made = used_at(state, context, Used::Variable(number), Vec::new(alloc), ty)?;
    Ok(made)
}

/// A function inside its group.
pub fn own(
    state: &mut State,
    context: &Context,
    ty: usize,
    number: usize,
) -> Result<TypedExp, NoMemory>
    requires context { IsContext state.old context.now }
    requires ty { HasType state.old ty }
    ensures { IfOk result (λ r. (place : Place) (x : LongVid) → entry_in context.now x.qualifiers x.vid ≡ Some (Own ty number)
        → IsExp state.old context.now (vid_exp place x) state.new r) }
{
    let made = atom(state, context, Atom::Own(number), ty)?;
    Ok(made)
}

/// The parameters of this number, apart from the state.
fn parameters_of_list(
    alloc: Global,
    state: &State,
    list: usize,
) -> Result<Vec<Quantified>, NoMemory>
    ensures { IfOk result (λ qs. qs.items ≡ parameters_at (parameters_of state.now.tables) list) }
{
    let mut parameters = Vec::new(alloc);
    parameters.extend_from_slice(state.tables.parameters(list))?;
    Ok(parameters)
}

/// What is asked of parameters.
fn marks_of(alloc: Global, parameters: &[Quantified]) -> Result<Vec<Mark>, NoMemory>
    ensures { IfOk result (λ ms. ms.items ≡ map (λ q. q.mark) parameters.now) }
{
    let mut marks = Vec::new(alloc);
    for i in 0..parameters.len() {
        marks.push(parameters[i].mark)?;
    }
    Ok(marks)
}

/// A type with new variables for parameters.
fn at_new(
    alloc: Global,
    state: &mut State,
    context: &Context,
    list: usize,
    ty: usize,
) -> Result<Instance, NoMemory>
    requires context { IsContext state.old context.now }
    requires list { HasList state.old list }
    requires ty { HasGeneral state.old (parameters_at (parameters_of state.old.tables) list) ty }
    ensures { IfOk result (λ r. IsAtNew state.old context.now list ty state.new r) }
{
    let parameters = parameters_of_list(alloc, state, list)?;
    let marks = marks_of(alloc, &parameters)?;
    let images = fresh_types(alloc, state, &marks, context.limit())?;
    let ty = put_with(alloc, state, ty, &parameters, &images)?;
    Ok(Instance { images, ty })
}

/// The types at which the program's variable is used: the images, or none where it is over no parameter.
fn types_used(
    alloc: Global,
    state: &mut State,
    context: &Context,
    images: &[usize],
    has: bool,
) -> Result<Vec<usize>, NoMemory>
    requires context { IsContext state.old context.now }
    requires images { AreTypes state.old images.now }
    ensures grows { IfOk result (λ _. Grows state.old state.new) }
    ensures are { IfOk result (λ ks. Always state.new (λ W. map W.reading.type ks.items
        ≡ (if has then map (type_as (W.naming context.now.naming)) (images_of W images.now) else []))) }
{
    if has {
        write_all(alloc, state, images, context.naming)
    } else {
        Ok(Vec::new(alloc))
    }
}

/// A variable over parameters, of which the program's variable has all or none.
pub fn general(
    alloc: Global,
    state: &mut State,
    context: &Context,
    list: usize,
    ty: usize,
    number: usize,
    has: bool,
) -> Result<TypedExp, NoMemory>
    requires context { IsContext state.old context.now }
    requires list { HasList state.old list }
    requires ty { HasGeneral state.old (parameters_at (parameters_of state.old.tables) list) ty }
    ensures { IfOk result (λ r. (place : Place) (x : LongVid) → entry_in context.now x.qualifiers x.vid ≡ Some (General list ty number has)
        → IsExp state.old context.now (vid_exp place x) state.new r) }
{
    let at = at_new(alloc, state, context, list, ty)?;
    let types = types_used(alloc, state, context, &at.images, has)?;
    let made = used_at(state, context, Used::Variable(number), types, at.ty)?;
    Ok(made)
}
