// The instructions that compute: s[dst] := a function of s[left] and s[right].

ghost use Rattle.std.specs.Prelude.{◌≡◌, ◌+◌, ◌^◌, ◌<◌};
ghost use Rattle.ir_code.specs.Machine.{partial_step, total_step};
ghost use Rattle.heap_vm.specs.View.{state_of, step_result, Fits, Sendable};

use crate::registers::{Flow, Registers};
use crate::slots::{place, slot};
use crate::words::{Partial, Total};
use ir_code::halt::Halt;

/// s[dst] := the function of s[left] and s[right].
#[inline(always)]
pub fn give<F: Total>(
    registers: &mut Registers,
    stack: &mut [u32],
    memory: &mut [u32],
    dst: u32,
    left: u32,
    right: u32,
) -> Result<Flow, Halt>
    requires next_fits { registers.old.pc + 1 < 2 ^ 32 }
    requires fits { Fits registers.old stack.old memory.old }
    ensures step { step_result result (state_of registers.new stack.new memory.new)
        ≡ total_step F.value (state_of registers.old stack.old memory.old) dst left right }
    ensures fits { Fits registers.new stack.new memory.new }
    ensures sendable { Sendable result registers.new memory.new }
{
    let at = place(stack, registers.fp, dst)?;
    let x = slot(stack, registers.fp, left)?;
    let y = slot(stack, registers.fp, right)?;
    stack[at] = F::of(x, y);
    registers.pc += 1;
    Ok(Flow::Go)
}

/// s[dst] := the function of s[left] and s[right], where it has a result.
#[inline(always)]
pub fn give_some<F: Partial>(
    registers: &mut Registers,
    stack: &mut [u32],
    memory: &mut [u32],
    dst: u32,
    left: u32,
    right: u32,
) -> Result<Flow, Halt>
    requires next_fits { registers.old.pc + 1 < 2 ^ 32 }
    requires fits { Fits registers.old stack.old memory.old }
    ensures step { step_result result (state_of registers.new stack.new memory.new)
        ≡ partial_step F.value (state_of registers.old stack.old memory.old) dst left right }
    ensures fits { Fits registers.new stack.new memory.new }
    ensures sendable { Sendable result registers.new memory.new }
{
    let at = place(stack, registers.fp, dst)?;
    let x = slot(stack, registers.fp, left)?;
    let y = slot(stack, registers.fp, right)?;
    match F::of(x, y) {
        None => registers.pc += 1,
        Some(v) => {
            stack[at] = v;
            registers.pc += 2;
        }
    }
    Ok(Flow::Go)
}
