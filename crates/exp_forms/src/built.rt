// The constructors that derived forms name, whatever is in scope.
ghost use Rattle.std.specs.Prelude.{◌≡◌, ◌⊎◌, ◌∷◌, [], IfOk};
ghost use Rattle.ty_basis.specs.Types.{list_name};
ghost use Rattle.ir_poly.specs.Prog.{con_exp};
ghost use Rattle.prog_tree.specs.TreeOf.{tree_of};
ghost use Rattle.elab_typed.specs.Numbers.{type_as};
ghost use Rattle.pat_elab.specs.of_elab_steps.Growing.{HasType, Always, Grows};
ghost use Rattle.pat_elab.specs.of_elab_steps.World.{type_of};
ghost use Rattle.sml_tree.specs.BareTree.{built_exp};
ghost use Rattle.sml_tree.specs.declared.ident.BuiltIn.TheVariants.{True, False, Nil, Cons};
ghost use Rattle.core_elab.specs.Scopes.{built_number};
ghost use Rattle.pat_elab.specs.of_elab_context.Telling.{IsContext};
ghost use Rattle.use_elab.specs.Elaborated.{IsExp};
ghost use Rattle.exp_forms.specs.Constructed.{AreListTypes};

use crate::parts::ListTypes;
use mlc_base::make::one;
use mlc_base::memory::NoMemory;
use mlc_base::place::Place;
use mlc_names::words;
use pat_elab::built::{lists, pairs};
use pat_elab::elab_context::context::Context;
use pat_elab::elab_state::state::State;
use pat_elab::elab_steps::step::{apply, fresh_type, write};
use prog_tree::tree::Used;
use sml_tree::ident::BuiltIn;
use std::alloc::Global;
use ty_core::mark::Mark;
use ty_core::name::{Equality, TyName};
use ty_core::ty::Head;
use use_elab::finish::used_at;
use use_elab::given::functions;
use use_elab::typed::TypedExp;

const BOOL: TyName = TyName {
    stamp: 6,
    arity: 0,
    equality: Equality::ByArguments,
};

pub const LIST: TyName = TyName {
    stamp: 7,
    arity: 1,
    equality: Equality::ByArguments,
};

/// The number of a constructor.
pub fn number_of(built: BuiltIn) -> usize
    ensures { result ≡ built_number built }
{
    let word = match built {
        BuiltIn::True => words::TRUE,
        BuiltIn::False => words::FALSE,
        BuiltIn::Nil => words::NIL,
        BuiltIn::Cons => words::CONS,
    };
    word as usize
}

/// A truth value.
fn truth(
    alloc: Global,
    state: &mut State,
    context: &Context,
    built: BuiltIn,
) -> Result<TypedExp, NoMemory>
    requires context { IsContext state.old context.now }
    requires truth { (built ≡ True) ⊎ (built ≡ False) }
    ensures { IfOk result (λ r. (p : Place) → IsExp state.old context.now (built_exp p built) state.new r) }
{
    let ty = apply(alloc, state, Head::Named(BOOL), &[])?;
    let used = Used::Constructor(number_of(built), BOOL);
    let made = used_at(state, context, used, Vec::new(alloc), ty)?;
    Ok(made)
}

/// The types of lists of elements of a new type.
pub fn list_types(
    alloc: Global,
    state: &mut State,
    context: &Context,
) -> Result<ListTypes, NoMemory>
    requires { IsContext state.old context.now }
    ensures { IfOk result (λ m. AreListTypes state.old context.now state.new m) }
{
    let element = fresh_type(alloc, state, Mark::Any, context.limit())?;
    let list = lists(alloc, state, element)?;
    let pair = pairs(alloc, state, element, list)?;
    let function = functions(alloc, state, pair, list)?;
    Ok(ListTypes {
        element,
        list,
        pair,
        function,
    })
}

/// A constructor of lists at a type of elements.
fn at_element(
    alloc: Global,
    state: &mut State,
    context: &Context,
    built: BuiltIn,
    element: usize,
    ty: usize,
) -> Result<TypedExp, NoMemory>
    requires context { IsContext state.old context.now }
    requires element { HasType state.old element }
    requires ty { HasType state.old ty }
    ensures grows { IfOk result (λ _. Grows state.old state.new) }
    ensures ty { IfOk result (λ r. r.ty ≡ ty) }
    ensures tree { IfOk result (λ r. Always state.new (λ W. tree_of W.reading r.exp ≡ con_exp (built_number built) list_name
        (type_as (W.naming context.now.naming) (type_of W element) ∷ []) (type_as (W.naming context.now.naming) (type_of W ty)))) }
{
    let written = write(state, element, context.naming)?;
    let at = one(alloc, written)?;
    let used = Used::Constructor(number_of(built), LIST);
    let made = used_at(state, context, used, at, ty)?;
    Ok(made)
}

/// `nil`.
fn nil(alloc: Global, state: &mut State, context: &Context) -> Result<TypedExp, NoMemory>
    requires { IsContext state.old context.now }
    ensures { IfOk result (λ r. (p : Place) → IsExp state.old context.now (built_exp p Nil) state.new r) }
{
    let types = list_types(alloc, state, context)?;
    let ty = types.list;
    let made = at_element(alloc, state, context, BuiltIn::Nil, types.element, ty)?;
    Ok(made)
}

/// `::`.
fn cons(alloc: Global, state: &mut State, context: &Context) -> Result<TypedExp, NoMemory>
    requires { IsContext state.old context.now }
    ensures { IfOk result (λ r. (p : Place) → IsExp state.old context.now (built_exp p Cons) state.new r) }
{
    let types = list_types(alloc, state, context)?;
    let ty = types.function;
    let made = at_element(alloc, state, context, BuiltIn::Cons, types.element, ty)?;
    Ok(made)
}

/// A constructor.
pub fn built(
    alloc: Global,
    state: &mut State,
    context: &Context,
    built: BuiltIn,
) -> Result<TypedExp, NoMemory>
    requires { IsContext state.old context.now }
    ensures { IfOk result (λ r. (p : Place) → IsExp state.old context.now (built_exp p built) state.new r) }
{
    match built {
        BuiltIn::True => truth(alloc, state, context, BuiltIn::True),
        BuiltIn::False => truth(alloc, state, context, BuiltIn::False),
        BuiltIn::Nil => nil(alloc, state, context),
        BuiltIn::Cons => cons(alloc, state, context),
    }
}
