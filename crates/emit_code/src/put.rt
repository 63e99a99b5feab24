// Instructions behind the code so far, and the slots of variables.

ghost use Rattle.std.specs.Prelude.{◌≡◌, ◌+◌, ◌∷◌, [], ◌++◌, length, map, IfOk, OnOk, get_or};
ghost use Rattle.emit_rows.specs.of_machine_code.Code.{depth_in, depths_in, slot};

use crate::fault::EmitFault;
use ir_code::instr::Instr;
use scoped_map::scoped::Scoped;
use std::alloc::Global;

/// An instruction behind the code so far.
pub fn put(code: &mut Vec<Instr>, instr: Instr) -> Result<(), EmitFault>
    ensures { OnOk result (code.new.items ≡ code.old.items ++ instr ∷ []) }
{
    code.push(instr)?;
    Ok(())
}

/// The place of what comes next.
pub fn here(code: &Vec<Instr>) -> Result<u32, EmitFault>
    ensures { IfOk result (λ place. place ≡ length code.now.items) }
{
    match u32::try_from(code.len()) {
        Ok(place) => Ok(place),
        Err(_) => Err(EmitFault::NoWord),
    }
}

/// A number as a word.
pub fn word(number: usize) -> Result<u32, EmitFault>
    ensures { IfOk result (λ word. word ≡ number) }
{
    match u32::try_from(number) {
        Ok(word) => Ok(word),
        Err(_) => Err(EmitFault::NoWord),
    }
}

/// A sum that is a word.
pub fn sum(left: u32, right: u32) -> Result<u32, EmitFault>
    ensures { IfOk result (λ sum. sum ≡ left + right) }
{
    match left.checked_add(right) {
        Some(sum) => Ok(sum),
        None => Err(EmitFault::NoWord),
    }
}

/// The slot at a depth.
pub fn slot_at(depth: u32) -> Result<u32, EmitFault>
    ensures { IfOk result (λ slot_. slot_ ≡ slot depth) }
{
    sum(depth, 2)
}

/// The depth of a variable.
pub fn depth_of(slots: &Scoped<u32>, variable: usize) -> u32
    ensures { result ≡ depth_in variable slots.now }
{
    match slots.find(variable) {
        Some(depth) => depth,
        None => 0,
    }
}

/// The slot of a variable.
pub fn slot_of(slots: &Scoped<u32>, variable: usize) -> Result<u32, EmitFault>
    ensures { IfOk result (λ slot_. slot_ ≡ slot (depth_in variable slots.now)) }
{
    slot_at(depth_of(slots, variable))
}

/// The slot of an operand.
pub fn operand(slots: &Scoped<u32>, operands: &[usize], number: usize) -> Result<u32, EmitFault>
    ensures { IfOk result (λ slot_. slot_ ≡ slot (get_or (depths_in operands.now slots.now) number 0)) }
{
    if number < operands.len() {
        slot_of(slots, operands[number])
    } else {
        Ok(2)
    }
}

/// The depths of variables.
pub fn depths_of(
    alloc: Global,
    slots: &Scoped<u32>,
    variables: &[usize],
) -> Result<Vec<u32>, EmitFault>
    ensures { IfOk result (λ depths. depths.items ≡ depths_in variables.now slots.now) }
{
    let mut depths = Vec::new(alloc);
    for variable in variables {
        depths.push(depth_of(slots, *variable))?;
    }
    Ok(depths)
}

/// The slots of variables.
pub fn slots_of(
    alloc: Global,
    slots: &Scoped<u32>,
    variables: &[usize],
) -> Result<Vec<u32>, EmitFault>
    ensures { IfOk result (λ all. all.items ≡ map slot (depths_in variables.now slots.now)) }
{
    let mut all = Vec::new(alloc);
    for variable in variables {
        all.push(slot_of(slots, *variable)?)?;
    }
    Ok(all)
}
