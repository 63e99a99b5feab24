// Patterns around a pattern.
ghost use Rattle.std.specs.Prelude.{◌≡◌, ◌++◌, ◌∷◌, [], List, IfOk};
ghost use Rattle.sml_tree.specs.BareTree.{Pat as SourcePat, vid_pat, con_pat, built_con_pat, typed_pat, as_pat};
ghost use Rattle.sml_tree.specs.TreeOf.{long_vid_of, ty_of, some_ty_of};
ghost use Rattle.elab_context.specs.Telling.{IsContext};
ghost use Rattle.elab_context.specs.of_elab_steps.Growing.{HasType};
ghost use Rattle.pat_elab.specs.Elaborated.{IsBound, IsPat};
ghost use Rattle.pat_elab.specs.Matched.{binds, IsHeaded};

use crate::annotate::{annotate, name};
use crate::bound::{BoundVariable, TypedPat};
use crate::built::built_before;
use crate::headed::Headed;
use crate::leaf::bind_variable;
use crate::matched::{alone, before};
use elab_context::context::Context;
use elab_context::elab_state::state::State;
use elab_context::entry::is_free;
use elab_types::refused::Refused;
use mlc_base::make::boxed;
use mlc_base::memory::NoMemory;
use mlc_base::place::Place;
use prog_tree::tree::Pat;
use sml_tree::ident::{BuiltIn, LongVid, Vid};
use sml_tree::tree::Ty;
use std::alloc::Global;

/// A pattern behind what stands before it.
fn applied(alloc: Global, headed: Headed, inner: TypedPat) -> Result<TypedPat, NoMemory>
    ensures { IfOk result (λ r. (S M T : State) (C : Context) (source : SourcePat → SourcePat) (a : SourcePat) (before after : List BoundVariable)
        → IsPat S C a M before after inner → IsHeaded M C source inner.ty T headed → IsPat S C (source a) T before after r) }
{
    let argument = boxed(alloc, inner.pat)?;
    Ok(TypedPat {
        pat: Pat::Before(headed.head, headed.written, argument),
        ty: headed.ty,
    })
}

/// A long identifier before a pattern.
pub fn constructed(
    alloc: Global,
    state: &mut State,
    context: &Context,
    place: Place,
    long: &LongVid,
    inner: TypedPat,
) -> Result<TypedPat, Refused>
    requires context { IsContext state.old context.now }
    requires inner { HasType state.old inner.ty }
    ensures { IfOk result (λ r. (S : State) (p : Place) (a : SourcePat) (before after : List BoundVariable) → IsPat S context.now a state.old before after inner
        → IsPat S context.now (con_pat p place (long_vid_of long.now) a) state.new before after r) }
{
    let headed = before(alloc, state, context, place, long, inner.ty)?;
    Ok(applied(alloc, headed, inner)?)
}

/// A constructor of derived forms before a pattern.
pub fn built_of(
    alloc: Global,
    state: &mut State,
    context: &Context,
    place: Place,
    built: BuiltIn,
    inner: TypedPat,
) -> Result<TypedPat, Refused>
    requires context { IsContext state.old context.now }
    requires inner { HasType state.old inner.ty }
    ensures { IfOk result (λ r. (S : State) (p : Place) (a : SourcePat) (before after : List BoundVariable) → IsPat S context.now a state.old before after inner
        → IsPat S context.now (built_con_pat p built a) state.new before after r) }
{
    let headed = built_before(alloc, state, context, place, built, inner.ty)?;
    Ok(applied(alloc, headed, inner)?)
}

/// A pattern with a type.
pub fn with_type(
    alloc: Global,
    state: &mut State,
    context: &Context,
    place: Place,
    ty: &Ty,
    inner: TypedPat,
) -> Result<TypedPat, Refused>
    requires context { IsContext state.old context.now }
    requires inner { HasType state.old inner.ty }
    ensures { IfOk result (λ r. (S : State) (a : SourcePat) (before after : List BoundVariable) → IsPat S context.now a state.old before after inner
        → IsPat S context.now (typed_pat place a (ty_of ty.now)) state.new before after r) }
{
    annotate(alloc, state, context, place, ty, inner.ty)?;
    Ok(inner)
}

/// A pattern with a name.
pub fn with_name(
    alloc: Global,
    state: &mut State,
    context: &Context,
    place: Place,
    variable: BoundVariable,
    ty: &Option<Ty>,
    inner: TypedPat,
) -> Result<TypedPat, Refused>
    requires context { IsContext state.old context.now }
    requires variable { HasType state.old variable.ty }
    requires inner { HasType state.old inner.ty }
    ensures { IfOk result (λ r. (S M : State) (vid : Vid) (a : SourcePat) (before mid after : List BoundVariable)
        → IsBound S context.now vid before mid variable M → IsPat M context.now a state.old mid after inner
        → IsPat S context.now (as_pat place vid (some_ty_of ty.now) a) state.new before after r) }
{
    name(alloc, state, context, place, ty, variable.ty, inner.ty)?;
    let pat = boxed(alloc, inner.pat)?;
    Ok(TypedPat {
        pat: Pat::As(variable.number, pat),
        ty: variable.ty,
    })
}

/// Whether a pattern that is this identifier binds it.
fn is_bound_by(context: &Context, long: &LongVid) -> bool
    ensures { result ≡ binds context.now long.now.qualifiers.items long.now.vid }
{
    if long.qualifiers.is_empty() {
        is_free(context.values.find(long.vid))
    } else {
        false
    }
}

/// An identifier: bound, or matched.
pub fn identifier(
    alloc: Global,
    state: &mut State,
    context: &Context,
    bound: &mut Vec<BoundVariable>,
    place: Place,
    long: &LongVid,
) -> Result<TypedPat, Refused>
    requires context { IsContext state.old context.now }
    ensures { IfOk result (λ r. IsPat state.old context.now (vid_pat place (long_vid_of long.now)) state.new bound.old.items bound.new.items r) }
{
    if is_bound_by(context, long) {
        let variable = bind_variable(alloc, state, context, place, &long.vid, bound)?;
        return Ok(TypedPat {
            pat: Pat::Variable(variable.number),
            ty: variable.ty,
        });
    }
    alone(alloc, state, context, place, long)
}
