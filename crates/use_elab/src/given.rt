// Constructors, exceptions and primitives: what has a closed scheme.
ghost use Rattle.std.specs.Prelude.{◌≡◌, ◌<◌, ℕ, Some, length, IfOk, option_map};
ghost use Rattle.sml_tree.specs.Terminal.{LongVid};
ghost use Rattle.sml_tree.specs.BareTree.{vid_exp};
ghost use Rattle.ty_basis.specs.Types.{exn_type, function_type, ref_type};
ghost use Rattle.core_rules.specs.Elaborated.{exception_type};
ghost use Rattle.ir_poly.specs.Types.{nth_type};
ghost use Rattle.elab_context.specs.of_elab_steps.Growing.{HasType, Always, AreTypes, Grows};
ghost use Rattle.elab_context.specs.of_elab_steps.World.{type_of};
ghost use Rattle.use_elab.specs.Fresh.{images_of};
ghost use Rattle.elab_context.specs.Entries.{entry_in};
ghost use Rattle.elab_context.specs.Telling.{IsContext, IsHeldIf};
ghost use Rattle.elab_context.specs.declared.entry.Entry.TheVariants.{Constructor, Reference, Initial, Primitive, Raised};
ghost use Rattle.use_elab.specs.Elaborated.{IsAtFresh, IsExp};

use crate::finish::{atom, used_at};
use crate::fresh::{fresh_types, marked_type};
use crate::put::instance_with;
use crate::typed::{Instance, TypedExp};
use crate::writing::write_all;
use elab_context::context::Context;
use elab_context::elab_state::state::State;
use elab_context::elab_steps::step::{apply, write};
use mlc_base::memory::NoMemory;
use mlc_base::place::Place;
use mlc_prims::basis::BasisPrimitive;
use prog_tree::tree::{Atom, Exception, Used};
use std::alloc::Global;
use ty_core::mark::Mark;
use ty_core::name::TyName;
use ty_core::ty::Head;

/// The scheme of a number at new variables.
fn at_fresh(
    alloc: Global,
    state: &mut State,
    context: &Context,
    scheme: usize,
) -> Result<Instance, NoMemory>
    requires context { IsContext state.old context.now }
    requires held { scheme < length context.now.schemes.items }
    ensures { IfOk result (λ r. IsAtFresh state.old context.now scheme state.new r) }
{
    let found = context.schemes.at(scheme);
    let images = fresh_types(alloc, state, &found.marks, context.limit())?;
    let ty = instance_with(alloc, state, found.body, &images)?;
    Ok(Instance { images, ty })
}

/// A constructor of this datatype.
pub fn constructor(
    alloc: Global,
    state: &mut State,
    context: &Context,
    scheme: usize,
    number: usize,
    name: TyName,
) -> Result<TypedExp, NoMemory>
    requires context { IsContext state.old context.now }
    requires held { scheme < length context.now.schemes.items }
    ensures { IfOk result (λ r. (place : Place) (x : LongVid) → entry_in context.now x.qualifiers x.vid ≡ Some (Constructor scheme number name)
        → IsExp state.old context.now (vid_exp place x) state.new r) }
{
    let at = at_fresh(alloc, state, context, scheme)?;
    let types = write_all(alloc, state, &at.images, context.naming)?;
    let used = Used::Constructor(number, context.program_name(name));
    let made = used_at(state, context, used, types, at.ty)?;
    Ok(made)
}

/// The type of functions.
pub fn functions(
    alloc: Global,
    state: &mut State,
    from: usize,
    to: usize,
) -> Result<usize, NoMemory>
    requires from { HasType state.old from }
    requires to { HasType state.old to }
    ensures grows { IfOk result (λ _. Grows state.old state.new) }
    ensures is { IfOk result (λ r. HasType state.new r) }
    ensures has { IfOk result (λ r. Always state.new (λ W. type_of W r ≡ function_type (type_of W from) (type_of W to))) }
    ensures next { IfOk result (λ _. state.new.next ≡ state.old.next) }
{
    apply(alloc, state, Head::Function, &[from, to])
}

/// The type of references to values of a type.
fn cells(alloc: Global, state: &mut State, content: usize) -> Result<usize, NoMemory>
    requires { HasType state.old content }
    ensures grows { IfOk result (λ _. Grows state.old state.new) }
    ensures is { IfOk result (λ r. HasType state.new r) }
    ensures has { IfOk result (λ r. Always state.new (λ W. type_of W r ≡ ref_type (type_of W content))) }
    ensures next { IfOk result (λ _. state.new.next ≡ state.old.next) }
{
    apply(alloc, state, Head::Named(TyName::REF), &[content])
}

/// The constructor `ref`.
pub fn reference(
    alloc: Global,
    state: &mut State,
    context: &Context,
    scheme: usize,
) -> Result<TypedExp, NoMemory>
    requires context { IsContext state.old context.now }
    ensures { IfOk result (λ r. (place : Place) (x : LongVid) → entry_in context.now x.qualifiers x.vid ≡ Some (Reference scheme)
        → IsExp state.old context.now (vid_exp place x) state.new r) }
{
    let content = marked_type(alloc, state, Mark::Any, context.limit())?;
    let cell = cells(alloc, state, content)?;
    let ty = functions(alloc, state, content, cell)?;
    let written = write(state, content, context.naming)?;
    let made = atom(state, context, Atom::Reference(written), ty)?;
    Ok(made)
}

/// The type of exceptions.
pub fn packets(alloc: Global, state: &mut State) -> Result<usize, NoMemory>
    ensures grows { IfOk result (λ _. Grows state.old state.new) }
    ensures is { IfOk result (λ r. HasType state.new r) }
    ensures has { IfOk result (λ r. Always state.new (λ W. type_of W r ≡ exn_type)) }
    ensures next { IfOk result (λ _. state.new.next ≡ state.old.next) }
{
    apply(alloc, state, Head::Named(TyName::EXN), &[])
}

/// The type of an exception with this argument, alone.
fn exception_alone(
    alloc: Global,
    state: &mut State,
    argument: Option<usize>,
) -> Result<usize, NoMemory>
    requires { IsHeldIf state.old argument }
    ensures grows { IfOk result (λ _. Grows state.old state.new) }
    ensures is { IfOk result (λ r. HasType state.new r) }
    ensures has { IfOk result (λ r. Always state.new (λ W. type_of W r ≡ exception_type (option_map (type_of W) argument))) }
    ensures next { IfOk result (λ _. state.new.next ≡ state.old.next) }
{
    let packet = packets(alloc, state)?;
    let Some(ty) = argument else {
        return Ok(packet);
    };
    let function = functions(alloc, state, ty, packet)?;
    Ok(function)
}

/// An exception of the initial basis.
pub fn initial(
    alloc: Global,
    state: &mut State,
    context: &Context,
    number: usize,
) -> Result<TypedExp, NoMemory>
    requires context { IsContext state.old context.now }
    ensures { IfOk result (λ r. (place : Place) (x : LongVid) (scheme : ℕ) → entry_in context.now x.qualifiers x.vid ≡ Some (Initial scheme number)
        → IsExp state.old context.now (vid_exp place x) state.new r) }
{
    let ty = packets(alloc, state)?;
    let made = atom(
        state,
        context,
        Atom::Exception(Exception::Initial(number)),
        ty,
    )?;
    Ok(made)
}

/// An exception of a declaration.
pub fn raised(
    alloc: Global,
    state: &mut State,
    context: &Context,
    number: usize,
    argument: Option<usize>,
) -> Result<TypedExp, NoMemory>
    requires context { IsContext state.old context.now }
    requires argument { IsHeldIf state.old argument }
    ensures { IfOk result (λ r. (place : Place) (x : LongVid) → entry_in context.now x.qualifiers x.vid ≡ Some (Raised number argument)
        → IsExp state.old context.now (vid_exp place x) state.new r) }
{
    let ty = exception_alone(alloc, state, argument)?;
    let made = atom(state, context, Atom::Exception(Exception::Held(number)), ty)?;
    Ok(made)
}

/// The first of some types, or that of the empty record.
fn first_or_unit(alloc: Global, state: &mut State, types: &[usize]) -> Result<usize, NoMemory>
    requires { AreTypes state.old types.now }
    ensures grows { IfOk result (λ _. Grows state.old state.new) }
    ensures is { IfOk result (λ r. HasType state.new r) }
    ensures has { IfOk result (λ r. Always state.new (λ W. type_of W r ≡ nth_type (images_of W types.now) 0)) }
    ensures next { IfOk result (λ _. state.new.next ≡ state.old.next) }
{
    if types.is_empty() {
        apply(alloc, state, Head::Record(Vec::new(alloc)), &[])
    } else {
        Ok(types[0])
    }
}

/// A primitive, at the type that its parameter stands for, or at any where it has none.
pub fn primitive(
    alloc: Global,
    state: &mut State,
    context: &Context,
    scheme: usize,
    primitive: BasisPrimitive,
) -> Result<TypedExp, NoMemory>
    requires context { IsContext state.old context.now }
    requires held { scheme < length context.now.schemes.items }
    ensures { IfOk result (λ r. (place : Place) (x : LongVid) → entry_in context.now x.qualifiers x.vid ≡ Some (Primitive scheme primitive)
        → IsExp state.old context.now (vid_exp place x) state.new r) }
{
    let at = at_fresh(alloc, state, context, scheme)?;
    let parameter = first_or_unit(alloc, state, &at.images)?;
    let types = write_all(alloc, state, &[parameter], context.naming)?;
    let made = used_at(state, context, Used::Primitive(primitive), types, at.ty)?;
    Ok(made)
}
