// Bindings of exceptions, one after the other.
ghost use Rattle.std.specs.Prelude.{◌≡◌, ◌⊎◌, ◌++◌, ◌∷◌, [], List, Some, None, true, map, IfOk, IfErr};
ghost use Rattle.sml_tree.specs.BareTree.{ExBind as SourceBind, new_exn, same_exn};
ghost use Rattle.sml_tree.specs.TreeOf.{ex_bind_of, long_vid_of, some_ty_of};
ghost use Rattle.elab_types.specs.declared.refused.Refused.TheVariants.{Broken, Mistyped, Unbound};
ghost use Rattle.exp_forms.specs.of_elab_context.Entries.{entry_in};
ghost use Rattle.exp_forms.specs.of_elab_context.Telling.{IsContext, IsUnboundIn};
ghost use Rattle.dec_forms.specs.Entries.{constructing_name};
ghost use Rattle.dec_forms.specs.Exceptions.{is_raised, AreExns, IsNoExceptionIn, IsSameRefused};

use crate::argument::argument_of;
use crate::made::ExnsMade;
use crate::once::constructing;
use closed_types::elab_state::state::State;
use closed_types::elab_steps::step::next_variable;
use elab_types::refused::Refused;
use exp_forms::elab_context::context::Context;
use exp_forms::elab_context::entry::Entry;
use mlc_base::place::Place;
use prog_tree::tree::Dec;
use sml_tree::ident::{LongVid, Vid};
use sml_tree::tree::{ExBind, Ty};
use std::alloc::Global;

/// `exception e of t`: a new exception.
pub fn add_new(
    alloc: Global,
    state: &mut State,
    context: &Context,
    place: Place,
    vid: Vid,
    ty: &Option<Ty>,
    made: &mut ExnsMade,
) -> Result<(), Refused>
    requires { IsContext state.old context.now }
    ensures { IfOk result (λ _. (S : State) (bs : List SourceBind) → AreExns S context.now bs state.old made.old
        → AreExns S context.now (bs ++ new_exn place vid (some_ty_of ty.now) ∷ []) state.new made.new) }
{
    let name = constructing(place, vid)?;
    let argument = argument_of(alloc, state, context, place, ty)?;
    let number = next_variable(state)?;
    made.decs
        .push(Dec::Exception(number, name, argument.written))?;
    let value = (Vid::Named(name), Entry::Raised(number, argument.ty));
    made.values.push(value)?;
    Ok(())
}

/// Whether something is an exception.
fn raised(entry: Entry) -> bool
    ensures { result ≡ is_raised entry }
{
    match entry {
        Entry::Raised(_, _) => true,
        Entry::Initial(_, _) => true,
        _ => false,
    }
}

/// What an identifier is that has to be an exception: refused exactly where it isn't bound, or is something else.
fn exception_at(context: &Context, place: Place, long: &LongVid) -> Result<Entry, Refused>
    ensures is { IfOk result (λ e. entry_in context.now long.now.qualifiers.items long.now.vid ≡ Some e) }
    ensures raised { IfOk result (λ e. is_raised e ≡ true) }
    ensures refused { IfErr result (λ e. ((e ≡ Unbound place) × IsUnboundIn context.now (long_vid_of long.now))
        ⊎ ((e ≡ Mistyped place) × IsNoExceptionIn context.now (long_vid_of long.now))) }
{
    let entry = context.value_at(place, long)?;
    if !raised(entry) {
        return Err(Refused::Mistyped(place));
    }
    Ok(entry)
}

/// `exception e = e'`: what e' is, under another name.
pub fn add_same(
    context: &Context,
    place: Place,
    vid: Vid,
    long_place: Place,
    long: &LongVid,
    made: &mut ExnsMade,
) -> Result<(), Refused>
    ensures added { IfOk result (λ _. (S M : State) (bs : List SourceBind) → IsContext M context.now → AreExns S context.now bs M made.old
        → AreExns S context.now (bs ++ same_exn place vid long_place (long_vid_of long.now) ∷ []) M made.new) }
    ensures refused { IfErr result (IsSameRefused context.now place vid long_place (long_vid_of long.now)) }
{
    let name = constructing(place, vid)?;
    let entry = exception_at(context, long_place, long)?;
    let value = (Vid::Named(name), entry);
    made.values.push(value)?;
    Ok(())
}

/// One binding.
fn add_exn(
    alloc: Global,
    state: &mut State,
    context: &Context,
    bind: &ExBind,
    made: &mut ExnsMade,
) -> Result<(), Refused>
    requires { IsContext state.old context.now }
    ensures { IfOk result (λ _. (S : State) (bs : List SourceBind) → AreExns S context.now bs state.old made.old
        → AreExns S context.now (bs ++ ex_bind_of bind.now ∷ []) state.new made.new) }
{
    match bind {
        ExBind::New(place, vid, ty) => add_new(alloc, state, context, *place, *vid, ty, made),
        ExBind::Same(place, vid, long_place, long) => {
            add_same(context, *place, *vid, *long_place, long, made)
        }
    }
}

/// All bindings of a declaration, in the context before it.
pub fn all_exns(
    alloc: Global,
    state: &mut State,
    context: &Context,
    binds: &[ExBind],
) -> Result<ExnsMade, Refused>
    requires { IsContext state.old context.now }
    ensures { IfOk result (AreExns state.old context.now (map ex_bind_of binds.now) state.new) }
{
    let mut made = ExnsMade {
        decs: Vec::new(alloc),
        values: Vec::new(alloc),
    };
    for i in 0..binds.len() {
        add_exn(alloc, state, context, &binds[i], &mut made)?;
    }
    Ok(made)
}
