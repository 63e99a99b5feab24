// The variables of patterns.
ghost use Rattle.std.specs.Prelude.{◌≡◌, drop, IfOk};
ghost use Rattle.ty_table.specs.TypeAt.{type_at};
ghost use Rattle.ir_poly.specs.ProgChecked.{pat_onto};
ghost use Rattle.prog_tree.specs.Readings.{reading};
ghost use Rattle.prog_tree.specs.TreeOf.{pat_of};
ghost use Rattle.prog_known.specs.Lists.{run};
ghost use Rattle.prog_known.specs.Onto.{Onto, known_by};
ghost use Rattle.prog_binds.specs.Chains.{first_type, part_type, field_step, part_step};

use crate::one::bind_one;
use ir_tables::tables::Tables;
use mlc_base::memory::NoMemory;
use prog_known::manner::Manner;
use prog_known::variables::Variables;
use prog_tree::tree::{Pat, PatField, PatPart, Side};

/// The type with which the first operand of the chain from here on is matched, where the chain is matched with this one.
pub fn type_before(parts: &[PatPart], from: usize, ty: usize) -> usize
    ensures { result ≡ first_type ty (drop from parts.now) }
{
    if from < parts.len() {
        parts[from].pair.left
    } else {
        ty
    }
}

/// The type with which the operand of a part is matched, where these parts follow.
pub fn type_of_part(side: Side, parts: &[PatPart], next: usize, right: usize) -> usize
    ensures { result ≡ part_type side right (drop next parts.now) }
{
    match side {
        Side::Left => right,
        Side::Right => type_before(parts, next, right),
    }
}

/// Puts the variables of a pattern in scope that is matched with a value of the type.
#[cycle(pats)]
pub fn bind_pat(
    tables: &Tables,
    variables: &mut Variables,
    manner: Manner,
    pat: &Pat,
    ty: usize,
) -> Result<(), NoMemory>
    ensures { IfOk result (λ _. Onto tables.now variables.old variables.new
        (pat_onto (known_by tables.now manner) (pat_of (reading tables.now) pat.now) (type_at tables.now.types ty))) }
{
    match pat {
        Pat::Any => Ok(()),
        Pat::Variable(variable) => {
            bind_one(tables, variables, manner, *variable, ty)?;
            Ok(())
        }
        Pat::Constant(_) => Ok(()),
        Pat::Constructor(_) => Ok(()),
        Pat::Exception(_) => Ok(()),
        Pat::Before(_, argument, part) => {
            bind_pat(tables, variables, manner, part, *argument)?;
            Ok(())
        }
        Pat::Record(_, fields) => {
            bind_fields(tables, variables, manner, fields)?;
            Ok(())
        }
        Pat::As(variable, part) => {
            bind_one(tables, variables, manner, *variable, ty)?;
            bind_pat(tables, variables, manner, part, ty)?;
            Ok(())
        }
        Pat::Chain(side, first, parts) => {
            let start = type_before(parts, 0, ty);
            bind_pat(tables, variables, manner, first, start)?;
            bind_parts(tables, variables, manner, *side, parts)?;
            Ok(())
        }
    }
}

#[cycle(pats)]
fn bind_fields(
    tables: &Tables,
    variables: &mut Variables,
    manner: Manner,
    fields: &[PatField],
) -> Result<(), NoMemory>
    ensures { IfOk result (λ _. Onto tables.now variables.old variables.new (run (field_step tables.now manner) fields.now)) }
{
    for i in 0..fields.len() {
        let field = &fields[i];
        bind_pat(tables, variables, manner, &field.pat, field.ty)?;
    }
    Ok(())
}

#[cycle(pats)]
fn bind_parts(
    tables: &Tables,
    variables: &mut Variables,
    manner: Manner,
    side: Side,
    parts: &[PatPart],
) -> Result<(), NoMemory>
    ensures { IfOk result (λ _. Onto tables.now variables.old variables.new (run (part_step tables.now manner side) parts.now)) }
{
    for i in 0..parts.len() {
        let part = &parts[i];
        let ty = type_of_part(side, parts, i + 1, part.pair.right);
        bind_pat(tables, variables, manner, &part.pat, ty)?;
    }
    Ok(())
}
