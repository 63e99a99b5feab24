// Types of records.
ghost use Rattle.std.specs.Prelude.{◌≡◌, List, map, IfOk};
ghost use Rattle.label_rows.specs.Order.{sorted_by};
ghost use Rattle.ty_core.specs.Types.{Typ};
ghost use Rattle.ty_table.specs.TypeAt.{type_at};
ghost use Rattle.prog_pats.specs.of_ir_uses.Fields.{field_types};
ghost use Rattle.prog_pats.specs.of_prog_parts.Expressions.{type_in};
ghost use Rattle.prog_leaves.specs.Right.{is_row};
ghost use Rattle.prog_leaves.specs.Rows.{field_of, pair_of};

use ir_tables::tables::Tables;
use label_rows::sort::{Field, sort_fields};
use mlc_base::memory::NoMemory;
use mlc_names::label::Label;
use prog_known::answers::both;
use prog_pats::ir_uses::record::{do_ascend, is_record};
use prog_shapes::types::type_of;
use prog_tree::tree::Exp;
use std::alloc::Global;

/// The labels of fields, as they are written, with the types that they have written.
fn row_of(
    alloc: Global,
    tables: &Tables,
    fields: &[(Label, Exp)],
) -> Result<Vec<(Label, usize)>, NoMemory>
    ensures { IfOk result (λ row. field_types tables.now.types row.items ≡ map (λ f. (f.0, type_in tables.now f.1)) fields.now) }
{
    let mut row: Vec<(Label, usize)> = Vec::new(alloc);
    for i in 0..fields.len() {
        let field = &fields[i];
        let ty = type_of(&field.1);
        row.push((field.0, ty))?;
    }
    Ok(row)
}

/// Pairs as fields that can be sorted.
fn as_fields(alloc: Global, row: &[(Label, usize)]) -> Result<Vec<Field>, NoMemory>
    ensures { IfOk result (λ made. made.items ≡ map field_of row.now) }
{
    let mut made = Vec::new(alloc);
    for i in 0..row.len() {
        let pair = row[i];
        made.push(Field {
            label: pair.0,
            part: pair.1,
        })?;
    }
    Ok(made)
}

/// Fields as pairs.
fn as_pairs(alloc: Global, fields: &[Field]) -> Result<Vec<(Label, usize)>, NoMemory>
    ensures { IfOk result (λ made. made.items ≡ map pair_of fields.now) }
{
    let mut made: Vec<(Label, usize)> = Vec::new(alloc);
    for i in 0..fields.len() {
        let field = fields[i];
        made.push((field.label, field.part))?;
    }
    Ok(made)
}

/// Labels with types in the order of the labels.
fn in_order(alloc: Global, row: &[(Label, usize)]) -> Result<Vec<(Label, usize)>, NoMemory>
    ensures { IfOk result (λ made. made.items ≡ sorted_by (λ f. f.0) row.now) }
{
    let fields = as_fields(alloc, row)?;
    let sorted = sort_fields(alloc, &fields)?;
    as_pairs(alloc, &sorted)
}

/// Whether a type is that of a record of these fields, of whose labels none is there twice.
pub fn is_row(
    alloc: Global,
    tables: &Tables,
    fields: &[(Label, Exp)],
    ty: usize,
) -> Result<bool, NoMemory>
    ensures { IfOk result (λ so. so ≡ is_row tables.now fields.now ty) }
{
    let written = row_of(alloc, tables, fields)?;
    let row = in_order(alloc, &written)?;
    let ascending = do_ascend(&row);
    let typed = is_record(&tables.types, ty, &row);
    Ok(both(ascending, typed))
}
