// Patterns.
ghost use Rattle.std.specs.Prelude.{◌≡◌, true, drop, IfOk};
ghost use Rattle.ty_table.specs.TypeAt.{type_at};
ghost use Rattle.prog_known.specs.Lists.{hold, all_hold};
ghost use Rattle.prog_parts.specs.Patterns.{outer_type, next_type, next_part, size_if};
ghost use Rattle.record_order.specs.Order.{is_ordered, AreOrders};
ghost use Rattle.prog_pats.specs.Fits.{pat_fits, before_fits, record_fits, field_fits, operand_fits, chain_fits};

use crate::heads::{check_exception, check_head, check_joint};
use crate::records::{has_size, is_known, is_part};
use ir_tables::tables::Tables;
use mlc_base::memory::NoMemory;
use prog_known::answers::both;
use prog_known::environment::Environment;
use prog_parts::prog_binds::pats::{type_before, type_of_part};
use prog_tree::tree::{Head, Pat, PatField, PatPart, Side};
use record_order::ir_uses::constructor::has_constructor;
use record_order::ir_uses::literal::has_literal;
use record_order::orders::Orders;
use std::alloc::Global;

/// The type with which a part of a chain is matched.
fn type_around(side: Side, parts: &[PatPart], next: usize, ty: usize) -> usize
    ensures { result ≡ outer_type side ty (drop next parts.now) }
{
    match side {
        Side::Left => type_before(parts, next, ty),
        Side::Right => ty,
    }
}

/// The type that the parts after it have for theirs.
fn type_on(side: Side, ty: usize, right: usize) -> usize
    ensures { result ≡ next_type side ty right }
{
    match side {
        Side::Left => ty,
        Side::Right => right,
    }
}

/// How many fields a record has, where there are no further ones.
fn wanted_size(further: bool, fields: &[PatField]) -> Option<usize>
    ensures { result ≡ size_if further fields.now }
{
    if further { None } else { Some(fields.len()) }
}

/// Whether a pattern may be matched with a value of the type.
#[cycle(pats)]
pub fn check_pat(
    alloc: Global,
    tables: &Tables,
    orders: &Orders,
    environment: &Environment,
    pat: &Pat,
    ty: usize,
) -> Result<bool, NoMemory>
    requires { AreOrders tables.now.types orders.now }
    ensures { IfOk result (λ so. so ≡ pat_fits tables.now environment.now pat.now ty) }
{
    match pat {
        Pat::Any => Ok(true),
        Pat::Variable(_) => Ok(true),
        Pat::Constant(constant) => Ok(has_literal(&tables.types, *constant, ty)),
        Pat::Constructor(constructor) => {
            let so = has_constructor(alloc, tables, *constructor, ty, None)?;
            Ok(so)
        }
        Pat::Exception(exception) => Ok(check_exception(tables, environment, *exception, ty)),
        Pat::Before(head, argument, part) => {
            check_before(
                alloc,
                tables,
                orders,
                environment,
                *head,
                *argument,
                part,
                ty,
            )
        }
        Pat::Record(further, fields) => {
            check_record(alloc, tables, orders, environment, *further, fields, ty)
        }
        Pat::As(_, part) => check_pat(alloc, tables, orders, environment, part, ty),
        Pat::Chain(side, first, parts) => {
            let start = type_before(parts, 0, ty);
            let begins = check_pat(alloc, tables, orders, environment, first, start)?;
            let goes_on = check_parts(alloc, tables, orders, environment, *side, parts, ty)?;
            Ok(both(begins, goes_on))
        }
    }
}

/// What stands before an argument, and its pattern.
#[cycle(pats)]
fn check_before(
    alloc: Global,
    tables: &Tables,
    orders: &Orders,
    environment: &Environment,
    head: Head,
    argument: usize,
    part: &Pat,
    ty: usize,
) -> Result<bool, NoMemory>
    requires { AreOrders tables.now.types orders.now }
    ensures { IfOk result (λ so. so ≡ before_fits tables.now environment.now head argument part.now ty) }
{
    let fits = check_head(alloc, tables, environment, head, argument, ty)?;
    let known = is_known(alloc, tables, environment, argument)?;
    let inner = check_pat(alloc, tables, orders, environment, part, argument)?;
    Ok(both(fits, both(known, inner)))
}

/// Fields, and how many there are.
#[cycle(pats)]
fn check_record(
    alloc: Global,
    tables: &Tables,
    orders: &Orders,
    environment: &Environment,
    further: bool,
    fields: &[PatField],
    ty: usize,
) -> Result<bool, NoMemory>
    requires { AreOrders tables.now.types orders.now }
    ensures { IfOk result (λ so. so ≡ record_fits tables.now environment.now further fields.now ty) }
{
    let ordered = orders.has(ty);
    let right = check_fields(alloc, tables, orders, environment, fields, ty, ordered)?;
    let wanted = wanted_size(further, fields);
    let sized = has_size(&tables.types, wanted, ty);
    Ok(both(right, sized))
}

#[cycle(pats)]
fn check_field(
    alloc: Global,
    tables: &Tables,
    orders: &Orders,
    environment: &Environment,
    field: &PatField,
    ty: usize,
    ordered: bool,
) -> Result<bool, NoMemory>
    requires orders { AreOrders tables.now.types orders.now }
    requires ordered { ordered ≡ true → is_ordered (type_at tables.now.types ty) ≡ true }
    ensures { IfOk result (λ so. so ≡ field_fits tables.now environment.now ty field.now) }
{
    let there = is_part(
        alloc,
        tables,
        environment,
        ty,
        ordered,
        field.label,
        field.ty,
    )?;
    let inner = check_pat(alloc, tables, orders, environment, &field.pat, field.ty)?;
    Ok(both(there, inner))
}

/// Fields of a record, whose labels ascend where that is said.
#[cycle(pats)]
fn check_fields(
    alloc: Global,
    tables: &Tables,
    orders: &Orders,
    environment: &Environment,
    fields: &[PatField],
    ty: usize,
    ordered: bool,
) -> Result<bool, NoMemory>
    requires orders { AreOrders tables.now.types orders.now }
    requires ordered { ordered ≡ true → is_ordered (type_at tables.now.types ty) ≡ true }
    ensures { IfOk result (λ so. so ≡ all_hold (field_fits tables.now environment.now ty) fields.now) }
{
    let mut so_far = true;
    for i in 0..fields.len() {
        let field = &fields[i];
        let one = check_field(alloc, tables, orders, environment, field, ty, ordered)?;
        so_far = both(so_far, one);
    }
    Ok(so_far)
}

/// A part, with the types with which it and its operand are matched.
#[cycle(pats)]
fn check_part(
    alloc: Global,
    tables: &Tables,
    orders: &Orders,
    environment: &Environment,
    part: &PatPart,
    outer: usize,
    own: usize,
) -> Result<bool, NoMemory>
    requires { AreOrders tables.now.types orders.now }
    ensures { IfOk result (λ so. so ≡ operand_fits tables.now environment.now part.now outer own) }
{
    let fits = check_joint(alloc, tables, environment, part.head, part.pair, outer)?;
    let inner = check_pat(alloc, tables, orders, environment, &part.pat, own)?;
    Ok(both(fits, inner))
}

#[cycle(pats)]
fn check_parts(
    alloc: Global,
    tables: &Tables,
    orders: &Orders,
    environment: &Environment,
    side: Side,
    parts: &[PatPart],
    ty: usize,
) -> Result<bool, NoMemory>
    requires { AreOrders tables.now.types orders.now }
    ensures { IfOk result (λ so. so ≡ hold (chain_fits tables.now environment.now side) (next_part side) ty parts.now) }
{
    let mut so_far = true;
    let mut now = ty;
    for i in 0..parts.len() {
        let part = &parts[i];
        let outer = type_around(side, parts, i + 1, now);
        let own = type_of_part(side, parts, i + 1, part.pair.right);
        let one = check_part(alloc, tables, orders, environment, part, outer, own)?;
        so_far = both(so_far, one);
        now = type_on(side, now, part.pair.right);
    }
    Ok(so_far)
}
