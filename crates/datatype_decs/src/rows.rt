// Constructors of a declaration, each with its row in the program.
ghost use Rattle.std.specs.Prelude.{◌≡◌, length, map, nat_eq, IfOk};
ghost use Rattle.indexmap.specs.IndexMap.{get};
ghost use Rattle.sml_tree.specs.TreeOf.{con_bind_of, data_bind_of};
ghost use Rattle.elab_context.specs.Entries.{number_in};
ghost use Rattle.elab_state.specs.States.{types_in};
ghost use Rattle.datatype_forms.specs.Arguments.{AreRowsOf, rows_at};
ghost use Rattle.datatype_forms.specs.Constructed.{AllRows};
ghost use Rattle.datatype_forms.specs.Steps.{IsStep, KnowsTypes};
ghost use Rattle.datatype_decs.specs.Adding.{HaveRows};

use datatype_forms::dec_forms::once::constructing;
use datatype_forms::program_types::Names;
use datatype_forms::rows::add_row;
use elab_context::context::Context;
use elab_state::state::State;
use elab_types::refused::Refused;
use indexmap::IndexMap;
use mlc_base::place::Place;
use sml_tree::tree::{ConBind, DataBind};
use std::alloc::Global;
use ty_core::name::TyName;

/// The rows of a datatype's constructors, where it has this name in the program.
fn add_rows_of(
    alloc: Global,
    state: &mut State,
    names: &Names<'_>,
    known: &mut IndexMap<usize, usize>,
    datatype: TyName,
    cons: &[ConBind],
    row: &[Option<usize>],
) -> Result<(), Refused>
    requires knows { KnowsTypes state.old names.now (get nat_eq known.old) }
    requires count { length row.now ≡ length cons.now }
    ensures { IfOk result (λ _. HaveRows state.old names.now datatype (map con_bind_of cons.now) row.now state.new (get nat_eq known.new)) }
{
    for i in 0..cons.len() {
        let con = &cons[i];
        let name = constructing(con.place, con.vid)?;
        let number = name.number() as usize;
        add_row(alloc, state, names, known, datatype, number, row[i])?;
    }
    Ok(())
}

/// The rows of all constructors. An argument with a type name that isn't in use is refused.
pub fn add_rows(
    alloc: Global,
    state: &mut State,
    context: &Context,
    place: Place,
    binds: &[DataBind],
    names: &[TyName],
    rows: &[Vec<Option<usize>>],
) -> Result<(), Refused>
    requires count { length names.now ≡ length binds.now }
    requires fit { AreRowsOf (types_in state.old) (map data_bind_of binds.now) (map (λ ks. ks.items) rows.now) }
    ensures step { IfOk result (λ _. IsStep state.old state.new) }
    ensures types { IfOk result (λ _. types_in state.new ≡ types_in state.old) }
    ensures rows { IfOk result (λ _. AllRows state.new (number_in context.now) context.now.names names.now (map data_bind_of binds.now)
        (rows_at (types_in state.old) (map (λ ks. ks.items) rows.now))) }
{
    let in_use = Names {
        numbers: &context.numbers,
        limit: context.names,
        place,
    };
    let mut known = IndexMap::new(alloc);
    for i in 0..binds.len() {
        let datatype = context.program_name(names[i]);
        add_rows_of(
            alloc,
            state,
            &in_use,
            &mut known,
            datatype,
            &binds[i].cons,
            &rows[i],
        )?;
    }
    Ok(())
}
