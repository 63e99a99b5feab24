// Constructors of a declaration, each with its scheme.
ghost use Rattle.std.specs.Prelude.{◌≡◌, ◌<◌, length, map, option_map, slice_get, Some, IfOk};
ghost use Rattle.ty_core.specs.Types.{con, name as named};
ghost use Rattle.ty_core.specs.Statics.{variables};
ghost use Rattle.ty_table.specs.TypeAt.{type_at};
ghost use Rattle.sml_tree.specs.TreeOf.{con_bind_of, data_bind_of};
ghost use Rattle.core_rules.specs.Elaborated.{from_argument};
ghost use Rattle.elab_state.specs.Readings.{IsHeldArgument};
ghost use Rattle.elab_state.specs.States.{types_in};
ghost use Rattle.datatype_forms.specs.Arguments.{AreRowsOf, AreStanding, BelowIf, RowBelow, RowHeld};
ghost use Rattle.datatype_forms.specs.Best.{rows_of};
ghost use Rattle.datatype_forms.specs.Constructed.{any_of};
ghost use Rattle.datatype_forms.specs.Reading.{AreNameEntries};
ghost use Rattle.datatype_forms.specs.Steps.{IsStep};
ghost use Rattle.datatype_decs.specs.Adding.{AreAllMore, AreMore, HasOneMore, IsMore};

use crate::of::Datatype;
use datatype_forms::attributes::Datatypes;
use datatype_forms::closed::closed_apply;
use datatype_forms::dec_forms::once::constructing;
use elab_context::context::Context;
use elab_context::entry::{Built, Entry, Scheme};
use elab_state::state::State;
use elab_types::refused::Refused;
use mlc_base::memory::NoMemory;
use sml_tree::ident::Vid;
use sml_tree::tree::{ConBind, DataBind};
use std::alloc::Global;
use ty_core::mark::Mark;
use ty_core::ty::Head;

/// So many marks that allow all types.
fn any_marks(alloc: Global, count: u32) -> Result<Vec<Mark>, NoMemory>
    ensures { IfOk result (λ ms. ms.items ≡ any_of count) }
{
    let marks = vec![in alloc; Mark::Any; count as usize]?;
    Ok(marks)
}

/// One scheme more in the context, over so many parameters, of a constructor; and its number.
fn add_scheme(
    alloc: Global,
    context: &mut Context,
    arity: u32,
    body: usize,
    built: Built,
) -> Result<usize, NoMemory>
    ensures { IfOk result (HasOneMore context.old arity body built context.new) }
{
    let marks = any_marks(alloc, arity)?;
    let number = context.schemes.len();
    context.schemes.push(Scheme {
        marks,
        body,
        constructor: Some(built),
    })?;
    Ok(number)
}

/// The type of a constructor: the datatype's, or that of a function to it.
fn constructor_type(
    alloc: Global,
    state: &mut State,
    ty: usize,
    argument: Option<usize>,
) -> Result<usize, NoMemory>
    requires held { ty < length (types_in state.old) }
    requires argument { IsHeldArgument (length (types_in state.old)) argument }
    ensures step { IfOk result (λ _. IsStep state.old state.new) }
    ensures is { IfOk result (λ r. slice_get (types_in state.new) r
        ≡ Some (from_argument (option_map (type_at (types_in state.old)) argument) (type_at (types_in state.old) ty))) }
{
    match argument {
        None => Ok(ty),
        Some(from) => {
            let made = closed_apply(alloc, state, Head::Function, &[from, ty])?;
            Ok(made)
        }
    }
}

/// One constructor more.
fn add_constructor(
    alloc: Global,
    state: &mut State,
    context: &mut Context,
    bind: &ConBind,
    of: Datatype,
    argument: Option<usize>,
) -> Result<(Vid, Entry), Refused>
    requires is { slice_get (types_in state.old) of.ty ≡ Some (con (named of.name) (variables 0 of.name.arity)) }
    requires held { IsHeldArgument (length (types_in state.old)) argument }
    requires below { BelowIf of.name.arity (types_in state.old) argument }
    ensures { IfOk result (IsMore state.old context.old of.name (con_bind_of bind.now) argument state.new context.new) }
{
    let name = constructing(bind.place, bind.vid)?;
    let body = constructor_type(alloc, state, of.ty, argument)?;
    let built = Built::Declared(name, of.name);
    let scheme = add_scheme(alloc, context, of.name.arity, body, built)?;
    let number = name.number() as usize;
    Ok((bind.vid, Entry::Constructor(scheme, number, of.name)))
}

/// The constructors of a datatype, each behind the others that came into scope.
fn add_constructors(
    alloc: Global,
    state: &mut State,
    context: &mut Context,
    cons: &[ConBind],
    of: Datatype,
    row: &[Option<usize>],
    values: &mut Vec<(Vid, Entry)>,
) -> Result<(), Refused>
    requires is { slice_get (types_in state.old) of.ty ≡ Some (con (named of.name) (variables 0 of.name.arity)) }
    requires count { length row.now ≡ length cons.now }
    requires held { RowHeld (length (types_in state.old)) row.now }
    requires below { RowBelow of.name.arity (types_in state.old) row.now }
    ensures { IfOk result (λ _. AreMore state.old context.old of.name (map con_bind_of cons.now) row.now
        state.new context.new values.old.items values.new.items) }
{
    for i in 0..cons.len() {
        let value = add_constructor(alloc, state, context, &cons[i], of, row[i])?;
        values.push(value)?;
    }
    Ok(())
}

/// The constructors of all datatypes.
pub fn all_constructors(
    alloc: Global,
    state: &mut State,
    context: &mut Context,
    binds: &[DataBind],
    made: &Datatypes,
) -> Result<Vec<(Vid, Entry)>, Refused>
    requires standing { AreStanding made.now.names.items (map data_bind_of binds.now) }
    requires entries { AreNameEntries (types_in state.old) (map data_bind_of binds.now) made.now.names.items made.now.arguments.entries.items }
    requires fit { AreRowsOf (types_in state.old) (map data_bind_of binds.now) (rows_of made.now.arguments) }
    ensures { IfOk result (λ es. AreAllMore state.old context.old made.now.names.items (map data_bind_of binds.now) (rows_of made.now.arguments)
        state.new context.new es.items) }
{
    let mut values = Vec::new(alloc);
    for i in 0..binds.len() {
        let of = Datatype {
            name: made.names[i],
            ty: made.arguments.entries[i].1.body,
        };
        add_constructors(
            alloc,
            state,
            context,
            &binds[i].cons,
            of,
            &made.arguments.rows[i],
            &mut values,
        )?;
    }
    Ok(values)
}
