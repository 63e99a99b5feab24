// Constructors and exceptions in patterns.
ghost use Rattle.std.specs.Prelude.{◌≡◌, ◌<◌, List, length, Some, None, IfOk, option_map};
ghost use Rattle.sml_tree.specs.TreeOf.{long_vid_of};
ghost use Rattle.sml_tree.specs.BareTree.{vid_pat, con_pat};
ghost use Rattle.ty_basis.specs.Types.{function_type, exn_type};
ghost use Rattle.elab_context.specs.of_elab_steps.Growing.{HasType, Always, Grows};
ghost use Rattle.elab_context.specs.of_elab_steps.Instances.{IsInstance};
ghost use Rattle.elab_context.specs.of_elab_steps.World.{type_of};
ghost use Rattle.elab_context.specs.Entries.{limit_of};
ghost use Rattle.elab_context.specs.Telling.{scheme_at, IsContext, IsHeldIf};
ghost use Rattle.pat_elab.specs.Elaborated.{IsPat};
ghost use Rattle.pat_elab.specs.Matched.{IsConstructorAlone, IsHeaded};

use crate::bound::{BoundVariable, TypedPat};
use crate::headed::Headed;
use elab_context::context::Context;
use elab_context::elab_state::state::State;
use elab_context::elab_steps::step::{apply, fresh_type, is_function, unify, write};
use elab_context::entry::Entry;
use elab_context::instance::instance_at;
use elab_types::refused::Refused;
use mlc_base::memory::NoMemory;
use mlc_base::place::Place;
use prog_tree::tree::{Exception, Head, Pat};
use sml_tree::ident::LongVid;
use std::alloc::Global;
use ty_core::mark::Mark;
use ty_core::name::TyName;
use ty_core::ty::Head as TypeHead;

/// The type of exceptions.
fn packets(alloc: Global, state: &mut State) -> Result<usize, NoMemory>
    ensures grows { IfOk result (λ _. Grows state.old state.new) }
    ensures is { IfOk result (λ r. HasType state.new r) }
    ensures has { IfOk result (λ r. Always state.new (λ W. type_of W r ≡ exn_type)) }
    ensures next { IfOk result (λ _. state.new.next ≡ state.old.next) }
{
    apply(alloc, state, TypeHead::Named(TyName::EXN), &[])
}

/// The type of a constructor that has no argument.
fn constructor_alone(
    alloc: Global,
    state: &mut State,
    context: &Context,
    place: Place,
    scheme: usize,
) -> Result<usize, Refused>
    requires context { IsContext state.old context.now }
    requires held { scheme < length context.now.schemes.items }
    ensures is { IfOk result (λ r. IsConstructorAlone state.old context.now scheme state.new r) }
{
    if is_function(state, context.schemes.at(scheme).body) {
        return Err(Refused::Mistyped(place));
    }
    Ok(instance_at(alloc, state, context, scheme)?)
}

/// The type of what a constructor makes of an argument of this type.
fn result_of(
    alloc: Global,
    state: &mut State,
    context: &Context,
    place: Place,
    scheme: usize,
    argument: usize,
) -> Result<usize, Refused>
    requires context { IsContext state.old context.now }
    requires held { scheme < length context.now.schemes.items }
    requires argument { HasType state.old argument }
    ensures grows { IfOk result (λ _. Grows state.old state.new) }
    ensures is { IfOk result (λ r. HasType state.new r) }
    ensures instance { IfOk result (λ r. Always state.new (λ W. IsInstance W (limit_of context.now) (scheme_at context.now W scheme).marks
        (scheme_at context.now W scheme).body (function_type (type_of W argument) (type_of W r)))) }
    ensures next { IfOk result (λ _. state.new.next ≡ state.old.next) }
{
    let constructor = instance_at(alloc, state, context, scheme)?;
    let ty = fresh_type(alloc, state, Mark::Any, context.limit())?;
    let function = apply(alloc, state, TypeHead::Function, &[argument, ty])?;
    unify(alloc, state, place, constructor, function)?;
    Ok(ty)
}

/// An identifier that is matched.
pub fn alone(
    alloc: Global,
    state: &mut State,
    context: &Context,
    place: Place,
    long: &LongVid,
) -> Result<TypedPat, Refused>
    requires context { IsContext state.old context.now }
    ensures is { IfOk result (λ r. (bs : List BoundVariable) → IsPat state.old context.now (vid_pat place (long_vid_of long.now)) state.new bs bs r) }
{
    let entry = context.value_at(place, long)?;
    match entry {
        Entry::Constructor(scheme, number, _) => {
            let ty = constructor_alone(alloc, state, context, place, scheme)?;
            Ok(TypedPat {
                pat: Pat::Constructor(number),
                ty,
            })
        }
        Entry::Initial(_, number) => {
            let ty = packets(alloc, state)?;
            Ok(TypedPat {
                pat: Pat::Exception(Exception::Initial(number)),
                ty,
            })
        }
        Entry::Raised(number, argument) => match argument {
            None => {
                let ty = packets(alloc, state)?;
                Ok(TypedPat {
                    pat: Pat::Exception(Exception::Held(number)),
                    ty,
                })
            }
            Some(_) => Err(Refused::Mistyped(place)),
        },
        _ => Err(Refused::Mistyped(place)),
    }
}

/// An exception before an argument of this type.
fn exception_before(
    alloc: Global,
    state: &mut State,
    place: Place,
    held: Option<usize>,
    argument: usize,
) -> Result<usize, Refused>
    requires held { IsHeldIf state.old held }
    requires argument { HasType state.old argument }
    ensures grows { IfOk result (λ _. Grows state.old state.new) }
    ensures is { IfOk result (λ r. HasType state.new r) }
    ensures has { IfOk result (λ r. Always state.new (λ W. type_of W r ≡ exn_type)) }
    ensures argument { IfOk result (λ _. Always state.new (λ W. option_map (type_of W) held ≡ Some (type_of W argument))) }
    ensures next { IfOk result (λ _. state.new.next ≡ state.old.next) }
{
    let Some(ty) = held else {
        return Err(Refused::Mistyped(place));
    };
    unify(alloc, state, place, argument, ty)?;
    Ok(packets(alloc, state)?)
}

/// An identifier before an argument of this type.
pub fn before(
    alloc: Global,
    state: &mut State,
    context: &Context,
    place: Place,
    long: &LongVid,
    argument: usize,
) -> Result<Headed, Refused>
    requires context { IsContext state.old context.now }
    requires argument { HasType state.old argument }
    ensures is { IfOk result (λ h. (p : Place) → IsHeaded state.old context.now (con_pat p place (long_vid_of long.now)) argument state.new h) }
{
    let entry = context.value_at(place, long)?;
    let written = write(state, argument, context.naming)?;
    match entry {
        Entry::Constructor(scheme, number, _) => Ok(Headed {
            head: Head::Constructor(number),
            written,
            ty: result_of(alloc, state, context, place, scheme, argument)?,
        }),
        Entry::Reference(scheme) => Ok(Headed {
            head: Head::Reference,
            written,
            ty: result_of(alloc, state, context, place, scheme, argument)?,
        }),
        Entry::Raised(number, held) => Ok(Headed {
            head: Head::Exception(Exception::Held(number)),
            written,
            ty: exception_before(alloc, state, place, held, argument)?,
        }),
        _ => Err(Refused::Mistyped(place)),
    }
}
