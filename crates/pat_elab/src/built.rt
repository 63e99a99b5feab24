// The constructors that derived forms name, whatever is in scope.
ghost use Rattle.std.specs.Prelude.{◌≡◌, ◌⊎◌, List, IfOk};
ghost use Rattle.ty_basis.specs.Types.{bool_type, list_type, pair_type};
ghost use Rattle.sml_tree.specs.BareTree.{built_pat, built_con_pat};
ghost use Rattle.sml_tree.specs.declared.ident.BuiltIn.TheVariants.{True, False, Nil, Cons};
ghost use Rattle.prog_tree.specs.declared.tree.Pat.TheVariants.{Constructor};
ghost use Rattle.core_elab.specs.Scopes.{built_number};
ghost use Rattle.elab_context.specs.Telling.{IsContext};
ghost use Rattle.elab_context.specs.of_elab_steps.Growing.{HasType, Always, Grows};
ghost use Rattle.elab_context.specs.of_elab_steps.World.{type_of};
ghost use Rattle.pat_elab.specs.Elaborated.{IsPat};
ghost use Rattle.pat_elab.specs.Matched.{IsHeaded};

use crate::bound::{BoundVariable, TypedPat};
use crate::headed::Headed;
use elab_context::context::Context;
use elab_context::elab_state::state::State;
use elab_context::elab_steps::step::{apply, fresh_type, unify, write};
use elab_types::refused::Refused;
use mlc_base::make::two;
use mlc_base::memory::NoMemory;
use mlc_base::place::Place;
use mlc_names::label::Label;
use mlc_names::words;
use prog_tree::tree::{Head, Pat};
use sml_tree::ident::BuiltIn;
use std::alloc::Global;
use ty_core::mark::Mark;
use ty_core::name::{Equality, TyName};
use ty_core::ty::Head as TypeHead;

const BOOL: TyName = TyName {
    stamp: 6,
    arity: 0,
    equality: Equality::ByArguments,
};

const LIST: TyName = TyName {
    stamp: 7,
    arity: 1,
    equality: Equality::ByArguments,
};

/// The number of a constructor.
fn number_of(built: BuiltIn) -> usize
    ensures { result ≡ built_number built }
{
    let word = match built {
        BuiltIn::True => words::TRUE,
        BuiltIn::False => words::FALSE,
        BuiltIn::Nil => words::NIL,
        BuiltIn::Cons => words::CONS,
    };
    word as usize
}

/// The type of lists of elements of a type.
pub fn lists(alloc: Global, state: &mut State, element: usize) -> Result<usize, NoMemory>
    requires { HasType state.old element }
    ensures grows { IfOk result (λ _. Grows state.old state.new) }
    ensures is { IfOk result (λ r. HasType state.new r) }
    ensures has { IfOk result (λ r. Always state.new (λ W. type_of W r ≡ list_type (type_of W element))) }
    ensures next { IfOk result (λ _. state.new.next ≡ state.old.next) }
{
    apply(alloc, state, TypeHead::Named(LIST), &[element])
}

/// The type of pairs of these types.
pub fn pairs(alloc: Global, state: &mut State, left: usize, right: usize) -> Result<usize, NoMemory>
    requires left { HasType state.old left }
    requires right { HasType state.old right }
    ensures grows { IfOk result (λ _. Grows state.old state.new) }
    ensures is { IfOk result (λ r. HasType state.new r) }
    ensures has { IfOk result (λ r. Always state.new (λ W. type_of W r ≡ pair_type (type_of W left) (type_of W right))) }
    ensures next { IfOk result (λ _. state.new.next ≡ state.old.next) }
{
    let labels = two(alloc, Label::Number(1), Label::Number(2))?;
    apply(alloc, state, TypeHead::Record(labels), &[left, right])
}

/// A truth value.
fn truth(
    alloc: Global,
    state: &mut State,
    context: &Context,
    built: BuiltIn,
) -> Result<TypedPat, NoMemory>
    requires context { IsContext state.old context.now }
    requires truth { (built ≡ True) ⊎ (built ≡ False) }
    ensures is { IfOk result (λ r. (p : Place) (bs : List BoundVariable) → IsPat state.old context.now (built_pat p built) state.new bs bs r) }
{
    let _ = context;
    let ty = apply(alloc, state, TypeHead::Named(BOOL), &[])?;
    Ok(TypedPat {
        pat: Pat::Constructor(number_of(built)),
        ty,
    })
}

/// The empty list, of a type of lists.
pub fn nil(ty: usize) -> TypedPat
    ensures pat { result.pat ≡ Constructor (built_number Nil) }
    ensures ty { result.ty ≡ ty }
{
    TypedPat {
        pat: Pat::Constructor(number_of(BuiltIn::Nil)),
        ty,
    }
}

/// The empty list.
fn empty(alloc: Global, state: &mut State, context: &Context) -> Result<TypedPat, NoMemory>
    requires context { IsContext state.old context.now }
    ensures is { IfOk result (λ r. (p : Place) (bs : List BoundVariable) → IsPat state.old context.now (built_pat p Nil) state.new bs bs r) }
{
    let element = fresh_type(alloc, state, Mark::Any, context.limit())?;
    let ty = lists(alloc, state, element)?;
    Ok(nil(ty))
}

/// A constructor alone.
pub fn built_alone(
    alloc: Global,
    state: &mut State,
    context: &Context,
    place: Place,
    built: BuiltIn,
) -> Result<TypedPat, Refused>
    requires context { IsContext state.old context.now }
    ensures is { IfOk result (λ r. (bs : List BoundVariable) → IsPat state.old context.now (built_pat place built) state.new bs bs r) }
{
    match built {
        BuiltIn::True => Ok(truth(alloc, state, context, BuiltIn::True)?),
        BuiltIn::False => Ok(truth(alloc, state, context, BuiltIn::False)?),
        BuiltIn::Nil => Ok(empty(alloc, state, context)?),
        BuiltIn::Cons => Err(Refused::Mistyped(place)),
    }
}

/// `::` before a pair of this type, which is made the type of an element and lists of such.
pub fn cons_before(
    alloc: Global,
    state: &mut State,
    context: &Context,
    place: Place,
    argument: usize,
) -> Result<Headed, Refused>
    requires context { IsContext state.old context.now }
    requires argument { HasType state.old argument }
    ensures is { IfOk result (λ h. (p : Place) → IsHeaded state.old context.now (built_con_pat p Cons) argument state.new h) }
{
    let element = fresh_type(alloc, state, Mark::Any, context.limit())?;
    let ty = lists(alloc, state, element)?;
    let pair = pairs(alloc, state, element, ty)?;
    unify(alloc, state, place, argument, pair)?;
    let written = write(state, argument, context.naming)?;
    Ok(Headed {
        head: Head::Constructor(number_of(BuiltIn::Cons)),
        written,
        ty,
    })
}

/// A constructor before an argument of this type.
pub fn built_before(
    alloc: Global,
    state: &mut State,
    context: &Context,
    place: Place,
    built: BuiltIn,
    argument: usize,
) -> Result<Headed, Refused>
    requires context { IsContext state.old context.now }
    requires argument { HasType state.old argument }
    ensures is { IfOk result (λ h. (p : Place) → IsHeaded state.old context.now (built_con_pat p built) argument state.new h) }
{
    match built {
        BuiltIn::Cons => cons_before(alloc, state, context, place, argument),
        _ => Err(Refused::Mistyped(place)),
    }
}
