// Where constants and the comparisons of types stand.

ghost use Rattle.std.specs.Prelude.{◌≡◌, ℕ, ◌+◌, ◌*◌, map, IfOk};
ghost use Rattle.mlc_prims.specs.declared.prim.PrimExn.{PrimExn};
ghost use Rattle.ir_values.specs.Primitives.{raised_name};
ghost use Rattle.ir_ssa.specs.Tree.{Program};
ghost use Rattle.first_tables.specs.TablesOf.{items_of, tables_of};
ghost use Rattle.machine_code.specs.Image.{constants_of};
ghost use Rattle.machine_rows.specs.Table.{rows};
ghost use Rattle.emit_rows.specs.Shapes.{packet_in};
ghost use Rattle.emit_known.specs.Known.{KnowsConstants};

use emit_constants::constants::place_constants;
use emit_equality::emit_code::fault::EmitFault;
use emit_equality::emit_code::places::Places;
use emit_equality::emit_code::put::sum;
use emit_equality::equality::type_places;
use emit_rows::push::Packets;
use first_tables::tables::Tables;
use std::alloc::Global;

/// The packets of the exceptions of primitives, two words each, from an address on.
fn packets_of(first: u32) -> Result<Packets, EmitFault>
    ensures { IfOk result (λ packets. (e : PrimExn) → packet_in packets e ≡ first + 2 * raised_name e) }
{
    Ok(Packets {
        overflow: sum(first, 4)?,
        divide: sum(first, 6)?,
        subscript: sum(first, 8)?,
        size: sum(first, 10)?,
        chr: sum(first, 12)?,
    })
}

/// The constants of a program with these tables, whose identifiers are written so, and where they and the comparisons of its types stand. Functions, routines
/// of sets and labels have no places yet.
pub fn known_places(
    alloc: Global,
    tables: &Tables,
    identifiers: &[Vec<u8>],
) -> Result<(Vec<u32>, Places), EmitFault>
    ensures words { IfOk result (λ known. (p : Program) → p.tables ≡ tables_of tables.now →
        known.0.items ≡ constants_of rows (map items_of identifiers.now) p) }
    ensures places { IfOk result (λ known. (p : Program) → p.tables ≡ tables_of tables.now → KnowsConstants (map items_of identifiers.now) p known.1) }
{
    let constants = place_constants(alloc, tables, identifiers)?;
    let (types, types_end) = type_places(alloc, &tables.types)?;
    let at = Places {
        texts: constants.texts,
        names: constants.names,
        initial: constants.initial,
        packets: packets_of(constants.packets)?,
        funs: Vec::new(alloc),
        funs_end: 0,
        sets: Vec::new(alloc),
        sets_end: 0,
        types,
        types_end,
        labels: Vec::new(alloc),
    };
    Ok((constants.words, at))
}
