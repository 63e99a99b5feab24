// The instructions on slots, control and handlers.

ghost use Rattle.std.specs.Prelude.{◌≡◌, ◌+◌, ◌^◌, ◌<◌};
ghost use Rattle.ir_code.specs.Machine.{li_step, mov_step, jmp_step, brz_step, switch_step, call_step, ret_step, acc_step, push_handler_step, pop_handler_step, uncaught_step, caught_step, raise_step};
ghost use Rattle.heap_vm.specs.View.{state_of, step_result, Fits, Sendable};

use crate::registers::{Flow, NO_HANDLER, Registers};
use crate::slots::{has_bytes_at, place, slot};
use ir_code::halt::Halt;

/// s[dst] := value.
#[inline(always)]
pub fn li(
    registers: &mut Registers,
    stack: &mut [u32],
    memory: &mut [u32],
    dst: u32,
    value: u32,
) -> Result<Flow, Halt>
    requires next_fits { registers.old.pc + 1 < 2 ^ 32 }
    requires fits { Fits registers.old stack.old memory.old }
    ensures step { step_result result (state_of registers.new stack.new memory.new)
        ≡ li_step (state_of registers.old stack.old memory.old) dst value }
    ensures fits { Fits registers.new stack.new memory.new }
    ensures sendable { Sendable result registers.new memory.new }
{
    let at = place(stack, registers.fp, dst)?;
    stack[at] = value;
    registers.pc += 1;
    Ok(Flow::Go)
}

/// s[dst] := s[src].
#[inline(always)]
pub fn mov(
    registers: &mut Registers,
    stack: &mut [u32],
    memory: &mut [u32],
    dst: u32,
    src: u32,
) -> Result<Flow, Halt>
    requires next_fits { registers.old.pc + 1 < 2 ^ 32 }
    requires fits { Fits registers.old stack.old memory.old }
    ensures step { step_result result (state_of registers.new stack.new memory.new)
        ≡ mov_step (state_of registers.old stack.old memory.old) dst src }
    ensures fits { Fits registers.new stack.new memory.new }
    ensures sendable { Sendable result registers.new memory.new }
{
    let at = place(stack, registers.fp, dst)?;
    stack[at] = slot(stack, registers.fp, src)?;
    registers.pc += 1;
    Ok(Flow::Go)
}

/// Goes on at target.
#[inline(always)]
pub fn jmp(
    registers: &mut Registers,
    stack: &mut [u32],
    memory: &mut [u32],
    target: u32,
) -> Result<Flow, Halt>
    requires next_fits { registers.old.pc + 1 < 2 ^ 32 }
    requires fits { Fits registers.old stack.old memory.old }
    ensures step { step_result result (state_of registers.new stack.new memory.new)
        ≡ jmp_step (state_of registers.old stack.old memory.old) target }
    ensures fits { Fits registers.new stack.new memory.new }
    ensures sendable { Sendable result registers.new memory.new }
{
    registers.pc = target as usize;
    Ok(Flow::Go)
}

/// Goes on at target if s[test] is 0.
#[inline(always)]
pub fn brz(
    registers: &mut Registers,
    stack: &mut [u32],
    memory: &mut [u32],
    test: u32,
    target: u32,
) -> Result<Flow, Halt>
    requires next_fits { registers.old.pc + 1 < 2 ^ 32 }
    requires fits { Fits registers.old stack.old memory.old }
    ensures step { step_result result (state_of registers.new stack.new memory.new)
        ≡ brz_step (state_of registers.old stack.old memory.old) test target }
    ensures fits { Fits registers.new stack.new memory.new }
    ensures sendable { Sendable result registers.new memory.new }
{
    let v = slot(stack, registers.fp, test)?;
    registers.pc = if v == 0 {
        target as usize
    } else {
        registers.pc + 1
    };
    Ok(Flow::Go)
}

/// Goes on past the next instruction by the lesser of s[index] and last.
#[inline(always)]
pub fn switch(
    registers: &mut Registers,
    stack: &mut [u32],
    memory: &mut [u32],
    index: u32,
    last: u32,
) -> Result<Flow, Halt>
    requires next_fits { registers.old.pc + 1 < 2 ^ 32 }
    requires fits { Fits registers.old stack.old memory.old }
    ensures step { step_result result (state_of registers.new stack.new memory.new)
        ≡ switch_step (state_of registers.old stack.old memory.old) index last }
    ensures fits { Fits registers.new stack.new memory.new }
    ensures sendable { Sendable result registers.new memory.new }
{
    let v = slot(stack, registers.fp, index)?;
    registers.pc = registers.pc + 1 + v.min(last) as usize;
    Ok(Flow::Go)
}

/// Enters target, with a frame that begins at slot frame.
#[inline(always)]
pub fn call(
    registers: &mut Registers,
    stack: &mut [u32],
    memory: &mut [u32],
    target: u32,
    frame: u32,
) -> Result<Flow, Halt>
    requires next_fits { registers.old.pc + 1 < 2 ^ 32 }
    requires fits { Fits registers.old stack.old memory.old }
    ensures step { step_result result (state_of registers.new stack.new memory.new)
        ≡ call_step (state_of registers.old stack.old memory.old) target frame }
    ensures fits { Fits registers.new stack.new memory.new }
    ensures sendable { Sendable result registers.new memory.new }
{
    let at = place(stack, registers.fp, frame)?;
    if at + 1 >= stack.len() {
        return Err(Halt::NoStack);
    }
    stack[at] = (registers.pc + 1) as u32;
    stack[at + 1] = registers.fp;
    registers.fp += frame;
    registers.pc = target as usize;
    Ok(Flow::Go)
}

/// Leaves the frame with s[value].
#[inline(always)]
pub fn ret(
    registers: &mut Registers,
    stack: &mut [u32],
    memory: &mut [u32],
    value: u32,
) -> Result<Flow, Halt>
    requires next_fits { registers.old.pc + 1 < 2 ^ 32 }
    requires fits { Fits registers.old stack.old memory.old }
    ensures step { step_result result (state_of registers.new stack.new memory.new)
        ≡ ret_step (state_of registers.old stack.old memory.old) value }
    ensures fits { Fits registers.new stack.new memory.new }
    ensures sendable { Sendable result registers.new memory.new }
{
    let v = slot(stack, registers.fp, value)?;
    let back = slot(stack, registers.fp, 0)?;
    let frame = slot(stack, registers.fp, 1)?;
    registers.acc = v;
    registers.pc = back as usize;
    registers.fp = frame;
    Ok(Flow::Go)
}

/// s[dst] := the value of the last return or raise.
#[inline(always)]
pub fn acc(
    registers: &mut Registers,
    stack: &mut [u32],
    memory: &mut [u32],
    dst: u32,
) -> Result<Flow, Halt>
    requires next_fits { registers.old.pc + 1 < 2 ^ 32 }
    requires fits { Fits registers.old stack.old memory.old }
    ensures step { step_result result (state_of registers.new stack.new memory.new)
        ≡ acc_step (state_of registers.old stack.old memory.old) dst }
    ensures fits { Fits registers.new stack.new memory.new }
    ensures sendable { Sendable result registers.new memory.new }
{
    let at = place(stack, registers.fp, dst)?;
    stack[at] = registers.acc;
    registers.pc += 1;
    Ok(Flow::Go)
}

/// Sets up the handler at target, whose record begins at slot a.
#[inline(always)]
pub fn push_handler(
    registers: &mut Registers,
    stack: &mut [u32],
    memory: &mut [u32],
    a: u32,
    target: u32,
) -> Result<Flow, Halt>
    requires next_fits { registers.old.pc + 1 < 2 ^ 32 }
    requires fits { Fits registers.old stack.old memory.old }
    ensures step { step_result result (state_of registers.new stack.new memory.new)
        ≡ push_handler_step (state_of registers.old stack.old memory.old) a target }
    ensures fits { Fits registers.new stack.new memory.new }
    ensures sendable { Sendable result registers.new memory.new }
{
    let at = registers.fp as usize + a as usize;
    if at + 2 >= stack.len() {
        return Err(Halt::NoStack);
    }
    stack[at] = registers.handler;
    stack[at + 1] = target;
    stack[at + 2] = registers.fp;
    registers.handler = at as u32;
    registers.pc += 1;
    Ok(Flow::Go)
}

/// Takes the handler back that the record at slot a kept.
#[inline(always)]
pub fn pop_handler(
    registers: &mut Registers,
    stack: &mut [u32],
    memory: &mut [u32],
    a: u32,
) -> Result<Flow, Halt>
    requires next_fits { registers.old.pc + 1 < 2 ^ 32 }
    requires fits { Fits registers.old stack.old memory.old }
    ensures step { step_result result (state_of registers.new stack.new memory.new)
        ≡ pop_handler_step (state_of registers.old stack.old memory.old) a }
    ensures fits { Fits registers.new stack.new memory.new }
    ensures sendable { Sendable result registers.new memory.new }
{
    registers.handler = slot(stack, registers.fp, a)?;
    registers.pc += 1;
    Ok(Flow::Go)
}

/// Stops with the packet v.
#[inline(always)]
pub fn uncaught(
    registers: &mut Registers,
    stack: &mut [u32],
    memory: &mut [u32],
    v: u32,
) -> Result<Flow, Halt>
    requires next_fits { registers.old.pc + 1 < 2 ^ 32 }
    requires fits { Fits registers.old stack.old memory.old }
    ensures step { step_result result (state_of registers.new stack.new memory.new)
        ≡ uncaught_step (state_of registers.old stack.old memory.old) v }
    ensures fits { Fits registers.new stack.new memory.new }
    ensures sendable { Sendable result registers.new memory.new }
{
    let limit = registers.limit;
    if v >= limit || memory[v as usize] >= limit {
        return Err(Halt::Stuck);
    }
    let x = memory[memory[v as usize] as usize];
    if !has_bytes_at(memory, limit, x) {
        return Err(Halt::Stuck);
    }
    registers.acc = v;
    Err(Halt::Uncaught)
}

/// Takes the packet v to its handler.
#[inline(always)]
pub fn caught(
    registers: &mut Registers,
    stack: &mut [u32],
    memory: &mut [u32],
    v: u32,
) -> Result<Flow, Halt>
    requires next_fits { registers.old.pc + 1 < 2 ^ 32 }
    requires fits { Fits registers.old stack.old memory.old }
    ensures step { step_result result (state_of registers.new stack.new memory.new)
        ≡ caught_step (state_of registers.old stack.old memory.old) v }
    ensures fits { Fits registers.new stack.new memory.new }
    ensures sendable { Sendable result registers.new memory.new }
{
    let at = registers.handler as usize;
    if at + 2 >= stack.len() {
        return Err(Halt::Stuck);
    }
    registers.acc = v;
    registers.handler = stack[at];
    registers.pc = stack[at + 1] as usize;
    registers.fp = stack[at + 2];
    Ok(Flow::Go)
}

/// Raises the packet at the address s[packet].
#[inline(always)]
pub fn raise(
    registers: &mut Registers,
    stack: &mut [u32],
    memory: &mut [u32],
    packet: u32,
) -> Result<Flow, Halt>
    requires next_fits { registers.old.pc + 1 < 2 ^ 32 }
    requires fits { Fits registers.old stack.old memory.old }
    ensures step { step_result result (state_of registers.new stack.new memory.new)
        ≡ raise_step (state_of registers.old stack.old memory.old) packet }
    ensures fits { Fits registers.new stack.new memory.new }
    ensures sendable { Sendable result registers.new memory.new }
{
    let v = slot(stack, registers.fp, packet)?;
    if registers.handler == NO_HANDLER {
        uncaught(registers, stack, memory, v)
    } else {
        caught(registers, stack, memory, v)
    }
}
