// Parts of records.
ghost use Rattle.std.specs.Prelude.{◌≡◌, true, Some, IfOk};
ghost use Rattle.std.specs.Map.{lookup};
ghost use Rattle.ty_table.specs.TypeAt.{type_at};
ghost use Rattle.ir_values.specs.Values.{same_label};
ghost use Rattle.ir_poly.specs.TestsChecked.{is_size};
ghost use Rattle.prog_check.specs.Same.{same_option};
ghost use Rattle.prog_check.specs.Deciding.{row_in, on_row};
ghost use Rattle.prog_parts.specs.Patterns.{has_size};
ghost use Rattle.record_order.specs.Order.{is_ordered};
ghost use Rattle.prog_pats.specs.Fits.{is_over as over_scope, part_fits, pair_fits};

use ir_known::ask::same_type;
use ir_known::walk::is_over;
use ir_tables::tables::Tables;
use mlc_base::memory::NoMemory;
use mlc_names::label::Label;
use prog_known::answers::both;
use prog_known::environment::Environment;
use prog_tree::tree::Pair;
use record_order::fields::field_of;
use record_order::ir_uses::record::record_size;
use std::alloc::Global;
use ty_table::types::Types;

/// Whether a record, whose labels ascend where that is said, has a part of this type.
fn has_part(types: &Types, row: usize, ordered: bool, label: Label, ty: usize) -> bool
    requires { ordered ≡ true → is_ordered (type_at types.now row) ≡ true }
    ensures { result ≡ on_row (row_in (type_at types.now row)) (λ r. same_option (lookup (same_label label) r) (Some (type_at types.now ty))) }
{
    match field_of(types, row, ordered, label) {
        Some(found) => same_type(types, found, ty),
        None => false,
    }
}

/// Whether a type is over the parameters in scope.
pub fn is_known(
    alloc: Global,
    tables: &Tables,
    environment: &Environment,
    ty: usize,
) -> Result<bool, NoMemory>
    ensures { IfOk result (λ so. so ≡ over_scope tables.now environment.now ty) }
{
    let known = is_over(alloc, &tables.types, &environment.parameters, ty)?;
    Ok(known)
}

/// Whether a record, whose labels ascend where that is said, has a part of this type, which is over the parameters in scope.
pub fn is_part(
    alloc: Global,
    tables: &Tables,
    environment: &Environment,
    row: usize,
    ordered: bool,
    label: Label,
    ty: usize,
) -> Result<bool, NoMemory>
    requires { ordered ≡ true → is_ordered (type_at tables.now.types row) ≡ true }
    ensures { IfOk result (λ so. so ≡ part_fits tables.now environment.now row label ty) }
{
    let known = is_known(alloc, tables, environment, ty)?;
    let there = has_part(&tables.types, row, ordered, label, ty);
    Ok(both(there, known))
}

fn is_size(wanted: Option<usize>, size: usize) -> bool
    ensures { result ≡ is_size wanted size }
{
    match wanted {
        Some(count) => count == size,
        None => true,
    }
}

/// Whether a type is a record of so many parts, where a number is given.
pub fn has_size(types: &Types, wanted: Option<usize>, row: usize) -> bool
    ensures { result ≡ has_size wanted (type_at types.now row) }
{
    match record_size(types, row) {
        Some(size) => is_size(wanted, size),
        None => false,
    }
}

/// Whether a type is a pair of these.
pub fn is_pair(
    alloc: Global,
    tables: &Tables,
    environment: &Environment,
    pair: Pair,
) -> Result<bool, NoMemory>
    ensures { IfOk result (λ so. so ≡ pair_fits tables.now environment.now pair) }
{
    let first = is_part(
        alloc,
        tables,
        environment,
        pair.ty,
        false,
        Label::Number(1),
        pair.left,
    )?;
    let second = is_part(
        alloc,
        tables,
        environment,
        pair.ty,
        false,
        Label::Number(2),
        pair.right,
    )?;
    let two = has_size(&tables.types, Some(2), pair.ty);
    Ok(both(first, both(second, two)))
}
