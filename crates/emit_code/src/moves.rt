// Words that go from slots to slots.

ghost use Rattle.std.specs.Prelude.{◌≡◌, ◌++◌, IfOk, OnOk};
ghost use Rattle.first_tables.specs.TablesOf.{callee_of};
ghost use Rattle.emit_rows.specs.of_machine_code.Code.{args_of, down_code, in_order as in_order_, leave_code, move_code, push_code, straight_code};

use crate::fault::EmitFault;
use crate::put::{depth_of, put, slot_at, sum};
use emit_rows::row::mov;
use first_tables::operation::Callee;
use ir_code::instr::Instr;
use scoped_map::scoped::Scoped;
use std::alloc::Global;

/// The depths of a call's arguments.
pub fn arguments(
    alloc: Global,
    slots: &Scoped<u32>,
    callee: Callee,
    operands: &[usize],
) -> Result<Vec<u32>, EmitFault>
    ensures { IfOk result (λ depths. depths.items ≡ args_of (callee_of callee) slots.now operands.now) }
{
    let mut depths = Vec::new(alloc);
    if let Callee::OneOf { set: _, closure } = callee {
        depths.push(depth_of(slots, closure))?;
    }
    for operand in operands {
        depths.push(depth_of(slots, *operand))?;
    }
    Ok(depths)
}

/// Words at these depths to the slots from a depth on.
pub fn push_all(code: &mut Vec<Instr>, depth: u32, words: &[u32]) -> Result<(), EmitFault>
    ensures { OnOk result (code.new.items ≡ code.old.items ++ push_code depth words.now) }
{
    let mut to: u32 = depth;
    for from in words {
        put(code, mov(slot_at(to)?, slot_at(*from)?))?;
        to = sum(to, 1)?;
    }
    Ok(())
}

/// The words from one depth on to the slots from another on.
fn down_all(code: &mut Vec<Instr>, target: u32, depth: u32, count: u32) -> Result<(), EmitFault>
    ensures { OnOk result (code.new.items ≡ code.old.items ++ down_code target depth count) }
{
    let mut to = target;
    let mut from = depth;
    let mut left = count;
    while left > 0 {
        put(code, mov(slot_at(to)?, slot_at(from)?))?;
        to = sum(to, 1)?;
        from = sum(from, 1)?;
        left -= 1;
    }
    Ok(())
}

/// One after the other; a word that is in its slot stays there.
fn straight(code: &mut Vec<Instr>, target: u32, words: &[u32]) -> Result<(), EmitFault>
    ensures { OnOk result (code.new.items ≡ code.old.items ++ straight_code target words.now) }
{
    let mut to = target;
    for from in words {
        if *from != to {
            put(code, mov(slot_at(to)?, slot_at(*from)?))?;
        }
        to = sum(to, 1)?;
    }
    Ok(())
}

/// Whether no word is moved after its slot was written.
fn in_order(target: u32, words: &[u32]) -> Result<bool, EmitFault>
    ensures { IfOk result (λ yes. yes ≡ in_order_ target target words.now) }
{
    let mut all = true;
    let mut to = target;
    for from in words {
        all = all && (*from < target || to <= *from);
        to = sum(to, 1)?;
    }
    Ok(all)
}

/// Words at these depths to the slots from a target on, all at once, with so many words of the frame in use.
pub fn move_all(
    code: &mut Vec<Instr>,
    depth: u32,
    target: u32,
    words: &[u32],
) -> Result<(), EmitFault>
    ensures { OnOk result (code.new.items ≡ code.old.items ++ move_code depth target words.now) }
{
    if in_order(target, words)? {
        straight(code, target, words)
    } else {
        push_all(code, depth, words)?;
        match u32::try_from(words.len()) {
            Ok(count) => down_all(code, target, depth, count),
            Err(_) => Err(EmitFault::NoWord),
        }
    }
}

/// Takes back the handler of a record that is left.
pub fn leave(code: &mut Vec<Instr>, handler: Option<u32>) -> Result<(), EmitFault>
    ensures { OnOk result (code.new.items ≡ code.old.items ++ leave_code handler) }
{
    match handler {
        None => Ok(()),
        Some(depth) => put(
            code,
            Instr::PopHandler {
                record: slot_at(depth)?,
            },
        ),
    }
}
