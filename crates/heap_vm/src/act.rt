// One instruction.

ghost use Rattle.std.specs.Prelude.{◌≡◌, ◌+◌, ◌^◌, ◌<◌, length};
ghost use Rattle.ir_code.specs.Machine.{act, step};
ghost use Rattle.heap_vm.specs.View.{state_of, step_result, Fits, Sendable};

use crate::registers::{Flow, Registers};
use crate::{compute, control, heap, words};
use ir_code::halt::Halt;
use ir_code::instr::Instr;

/// One instruction.
#[inline(always)]
fn act_on(
    instr: Instr,
    registers: &mut Registers,
    stack: &mut [u32],
    memory: &mut [u32],
) -> Result<Flow, Halt>
    requires next_fits { registers.old.pc + 1 < 2 ^ 32 }
    requires fits { Fits registers.old stack.old memory.old }
    ensures step { step_result result (state_of registers.new stack.new memory.new)
        ≡ act (state_of registers.old stack.old memory.old) instr }
    ensures fits { Fits registers.new stack.new memory.new }
    ensures sendable { Sendable result registers.new memory.new }
{
    match instr {
        Instr::Li { dst, value } => control::li(registers, stack, memory, dst, value),
        Instr::Mov { dst, src } => control::mov(registers, stack, memory, dst, src),
        Instr::Jmp { target } => control::jmp(registers, stack, memory, target),
        Instr::Brz { test, target } => control::brz(registers, stack, memory, test, target),
        Instr::Switch { index, last } => control::switch(registers, stack, memory, index, last),
        Instr::Call { target, frame } => control::call(registers, stack, memory, target, frame),
        Instr::Ret { value } => control::ret(registers, stack, memory, value),
        Instr::Acc { dst } => control::acc(registers, stack, memory, dst),
        Instr::PushHandler { record: a, target } => control::push_handler(
            registers, stack, memory, a, target,
        ),
        Instr::PopHandler { record: a } => control::pop_handler(registers, stack, memory, a),
        Instr::Raise { packet } => control::raise(registers, stack, memory, packet),
        Instr::End => Err(Halt::Ended),
        Instr::Alloc { dst, words } => heap::alloc(registers, stack, memory, dst, words),
        Instr::AllocVar { dst, words } => heap::alloc_var(registers, stack, memory, dst, words),
        Instr::Ld { dst, base, offset } => heap::ld(registers, stack, memory, dst, base, offset),
        Instr::St { base, offset, src } => heap::st(registers, stack, memory, base, offset, src),
        Instr::Copy { dst, src, count } => heap::copy(registers, stack, memory, dst, src, count),
        Instr::Add { dst, left, right } => compute::give_some::<words::IntSum>(
            registers, stack, memory, dst, left, right,
        ),
        Instr::Sub { dst, left, right } => compute::give_some::<words::IntDifference>(
            registers, stack, memory, dst, left, right,
        ),
        Instr::Mul { dst, left, right } => compute::give_some::<words::IntProduct>(
            registers, stack, memory, dst, left, right,
        ),
        Instr::IDiv { dst, left, right } => compute::give_some::<words::IntFloorQuotient>(
            registers, stack, memory, dst, left, right,
        ),
        Instr::IMod { dst, left, right } => compute::give_some::<words::IntFloorRemainder>(
            registers, stack, memory, dst, left, right,
        ),
        Instr::IQuot { dst, left, right } => compute::give_some::<words::IntQuotient>(
            registers, stack, memory, dst, left, right,
        ),
        Instr::IRem { dst, left, right } => compute::give_some::<words::IntRemainder>(
            registers, stack, memory, dst, left, right,
        ),
        Instr::WAdd { dst, left, right } => compute::give::<words::WordSum>(
            registers, stack, memory, dst, left, right,
        ),
        Instr::WSub { dst, left, right } => compute::give::<words::WordDifference>(
            registers, stack, memory, dst, left, right,
        ),
        Instr::WMul { dst, left, right } => compute::give::<words::WordProduct>(
            registers, stack, memory, dst, left, right,
        ),
        Instr::WDiv { dst, left, right } => compute::give_some::<words::WordQuotient>(
            registers, stack, memory, dst, left, right,
        ),
        Instr::WMod { dst, left, right } => compute::give_some::<words::WordRemainder>(
            registers, stack, memory, dst, left, right,
        ),
        Instr::And { dst, left, right } => compute::give::<words::BitAnd>(
            registers, stack, memory, dst, left, right,
        ),
        Instr::Or { dst, left, right } => compute::give::<words::BitOr>(
            registers, stack, memory, dst, left, right,
        ),
        Instr::Xor { dst, left, right } => compute::give::<words::BitXor>(
            registers, stack, memory, dst, left, right,
        ),
        Instr::Shl { dst, left, right } => compute::give::<words::ShiftLeft>(
            registers, stack, memory, dst, left, right,
        ),
        Instr::Shr { dst, left, right } => compute::give::<words::ShiftRight>(
            registers, stack, memory, dst, left, right,
        ),
        Instr::Sar { dst, left, right } => compute::give::<words::ShiftSigned>(
            registers, stack, memory, dst, left, right,
        ),
        Instr::ILt { dst, left, right } => compute::give::<words::IntLess>(
            registers, stack, memory, dst, left, right,
        ),
        Instr::ULt { dst, left, right } => compute::give::<words::WordLess>(
            registers, stack, memory, dst, left, right,
        ),
        Instr::Eq { dst, left, right } => compute::give::<words::SameWord>(
            registers, stack, memory, dst, left, right,
        ),
        Instr::SCmp { dst, left, right } => heap::scmp(registers, stack, memory, dst, left, right),
        Instr::IText { dst, src } => heap::itext(registers, stack, memory, dst, src),
        Instr::Print { text } => heap::print(registers, stack, memory, text),
    }
}

/// The instruction at the program counter.
#[inline(always)]
pub fn step_on(
    code: &[Instr],
    registers: &mut Registers,
    stack: &mut [u32],
    memory: &mut [u32],
) -> Result<Flow, Halt>
    requires code_fits { length code.now < 2 ^ 32 }
    requires fits { Fits registers.old stack.old memory.old }
    ensures step { step_result result (state_of registers.new stack.new memory.new)
        ≡ step code.now (state_of registers.old stack.old memory.old) }
    ensures fits { Fits registers.new stack.new memory.new }
    ensures sendable { Sendable result registers.new memory.new }
{
    match code.get(registers.pc).copied() {
        None => Err(Halt::Stuck),
        Some(instr) => act_on(instr, registers, stack, memory),
    }
}
