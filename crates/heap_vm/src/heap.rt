// The instructions on the memory.

ghost use Rattle.std.specs.Prelude.{◌≡◌, ◌+◌, ◌^◌, ◌<◌};
ghost use Rattle.ir_code.specs.Machine.{alloc_step, alloc_var_step, ld_step, st_step, copy_step, scmp_step, itext_step, print_step};
ghost use Rattle.heap_vm.specs.View.{state_of, step_result, Fits, Sendable};

use crate::registers::{Flow, Registers};
use crate::slots::{has_bytes_at, has_string_at, place, slot};
use crate::text::{copy_words, order_at, write_text};
use ir_code::halt::Halt;

/// s[dst] := the address of so many new words.
#[inline(always)]
pub fn alloc(
    registers: &mut Registers,
    stack: &mut [u32],
    memory: &mut [u32],
    dst: u32,
    words: u32,
) -> Result<Flow, Halt>
    requires next_fits { registers.old.pc + 1 < 2 ^ 32 }
    requires fits { Fits registers.old stack.old memory.old }
    ensures step { step_result result (state_of registers.new stack.new memory.new)
        ≡ alloc_step (state_of registers.old stack.old memory.old) dst words }
    ensures fits { Fits registers.new stack.new memory.new }
    ensures sendable { Sendable result registers.new memory.new }
{
    let at = place(stack, registers.fp, dst)?;
    if words as usize > memory.len() - registers.limit as usize {
        return Err(Halt::NoHeap);
    }
    stack[at] = registers.limit;
    registers.limit += words;
    registers.pc += 1;
    Ok(Flow::Go)
}

/// s[dst] := the address of s[words] new words.
#[inline(always)]
pub fn alloc_var(
    registers: &mut Registers,
    stack: &mut [u32],
    memory: &mut [u32],
    dst: u32,
    words: u32,
) -> Result<Flow, Halt>
    requires next_fits { registers.old.pc + 1 < 2 ^ 32 }
    requires fits { Fits registers.old stack.old memory.old }
    ensures step { step_result result (state_of registers.new stack.new memory.new)
        ≡ alloc_var_step (state_of registers.old stack.old memory.old) dst words }
    ensures fits { Fits registers.new stack.new memory.new }
    ensures sendable { Sendable result registers.new memory.new }
{
    let at = place(stack, registers.fp, dst)?;
    let n = slot(stack, registers.fp, words)?;
    if n as usize > memory.len() - registers.limit as usize {
        return Err(Halt::NoHeap);
    }
    stack[at] = registers.limit;
    registers.limit += n;
    registers.pc += 1;
    Ok(Flow::Go)
}

/// s[dst] := the word at s[base] + offset.
#[inline(always)]
pub fn ld(
    registers: &mut Registers,
    stack: &mut [u32],
    memory: &mut [u32],
    dst: u32,
    base: u32,
    offset: u32,
) -> Result<Flow, Halt>
    requires next_fits { registers.old.pc + 1 < 2 ^ 32 }
    requires fits { Fits registers.old stack.old memory.old }
    ensures step { step_result result (state_of registers.new stack.new memory.new)
        ≡ ld_step (state_of registers.old stack.old memory.old) dst base offset }
    ensures fits { Fits registers.new stack.new memory.new }
    ensures sendable { Sendable result registers.new memory.new }
{
    let at = place(stack, registers.fp, dst)?;
    let x = slot(stack, registers.fp, base)? as usize + offset as usize;
    if x >= registers.limit as usize {
        return Err(Halt::Stuck);
    }
    stack[at] = memory[x];
    registers.pc += 1;
    Ok(Flow::Go)
}

/// The word at s[base] + offset := s[src].
#[inline(always)]
pub fn st(
    registers: &mut Registers,
    stack: &mut [u32],
    memory: &mut [u32],
    base: u32,
    offset: u32,
    src: u32,
) -> Result<Flow, Halt>
    requires next_fits { registers.old.pc + 1 < 2 ^ 32 }
    requires fits { Fits registers.old stack.old memory.old }
    ensures step { step_result result (state_of registers.new stack.new memory.new)
        ≡ st_step (state_of registers.old stack.old memory.old) base offset src }
    ensures fits { Fits registers.new stack.new memory.new }
    ensures sendable { Sendable result registers.new memory.new }
{
    let x = slot(stack, registers.fp, base)? as usize + offset as usize;
    let v = slot(stack, registers.fp, src)?;
    if x < registers.base as usize || x >= registers.limit as usize {
        return Err(Halt::Stuck);
    }
    memory[x] = v;
    registers.pc += 1;
    Ok(Flow::Go)
}

/// The s[count] words from the address s[src] on go to the address s[dst].
#[inline(always)]
pub fn copy(
    registers: &mut Registers,
    stack: &mut [u32],
    memory: &mut [u32],
    dst: u32,
    src: u32,
    count: u32,
) -> Result<Flow, Halt>
    requires next_fits { registers.old.pc + 1 < 2 ^ 32 }
    requires fits { Fits registers.old stack.old memory.old }
    ensures step { step_result result (state_of registers.new stack.new memory.new)
        ≡ copy_step (state_of registers.old stack.old memory.old) dst src count }
    ensures fits { Fits registers.new stack.new memory.new }
    ensures sendable { Sendable result registers.new memory.new }
{
    let y = slot(stack, registers.fp, dst)?;
    let x = slot(stack, registers.fp, src)?;
    let n = slot(stack, registers.fp, count)?;
    let limit = registers.limit as usize;
    let x_end = x as usize + n as usize;
    let y_end = y as usize + n as usize;
    if n != 0 && (x_end > limit || y < registers.base || y_end > limit) {
        return Err(Halt::Stuck);
    }
    copy_words(memory, x, y, n);
    registers.pc += 1;
    Ok(Flow::Go)
}

/// s[dst] := how the strings at s[left] and s[right] stand.
#[inline(always)]
pub fn scmp(
    registers: &mut Registers,
    stack: &mut [u32],
    memory: &mut [u32],
    dst: u32,
    left: u32,
    right: u32,
) -> Result<Flow, Halt>
    requires next_fits { registers.old.pc + 1 < 2 ^ 32 }
    requires fits { Fits registers.old stack.old memory.old }
    ensures step { step_result result (state_of registers.new stack.new memory.new)
        ≡ scmp_step (state_of registers.old stack.old memory.old) dst left right }
    ensures fits { Fits registers.new stack.new memory.new }
    ensures sendable { Sendable result registers.new memory.new }
{
    let at = place(stack, registers.fp, dst)?;
    let x = slot(stack, registers.fp, left)?;
    let y = slot(stack, registers.fp, right)?;
    if !has_string_at(memory, registers.limit, x) {
        return Err(Halt::Stuck);
    }
    if !has_string_at(memory, registers.limit, y) {
        return Err(Halt::Stuck);
    }
    stack[at] = order_at(memory, x, y);
    registers.pc += 1;
    Ok(Flow::Go)
}

/// s[dst] := the address of a new string, the text of s[src].
#[inline(always)]
pub fn itext(
    registers: &mut Registers,
    stack: &mut [u32],
    memory: &mut [u32],
    dst: u32,
    src: u32,
) -> Result<Flow, Halt>
    requires next_fits { registers.old.pc + 1 < 2 ^ 32 }
    requires fits { Fits registers.old stack.old memory.old }
    ensures step { step_result result (state_of registers.new stack.new memory.new)
        ≡ itext_step (state_of registers.old stack.old memory.old) dst src }
    ensures fits { Fits registers.new stack.new memory.new }
    ensures sendable { Sendable result registers.new memory.new }
{
    let at = place(stack, registers.fp, dst)?;
    let v = slot(stack, registers.fp, src)?;
    let start = registers.limit;
    let Some(end) = write_text(memory, start, v) else {
        return Err(Halt::NoHeap);
    };
    stack[at] = start;
    registers.limit = end;
    registers.pc += 1;
    Ok(Flow::Go)
}

/// The string at s[text] is to be sent.
#[inline(always)]
pub fn print(
    registers: &mut Registers,
    stack: &mut [u32],
    memory: &mut [u32],
    text: u32,
) -> Result<Flow, Halt>
    requires next_fits { registers.old.pc + 1 < 2 ^ 32 }
    requires fits { Fits registers.old stack.old memory.old }
    ensures step { step_result result (state_of registers.new stack.new memory.new)
        ≡ print_step (state_of registers.old stack.old memory.old) text }
    ensures fits { Fits registers.new stack.new memory.new }
    ensures sendable { Sendable result registers.new memory.new }
{
    let x = slot(stack, registers.fp, text)?;
    if !has_bytes_at(memory, registers.limit, x) {
        return Err(Halt::Stuck);
    }
    Ok(Flow::Print(x))
}
