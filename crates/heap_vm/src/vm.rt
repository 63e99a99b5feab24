// The machine.

ghost use Rattle.std.specs.Prelude.{ℕ, ◌≡◌, ◌≢◌, ◌^◌, ◌<◌, ◌≤◌, length, IfOk};
ghost use Rattle.ir_code.specs.Program.{Program};
ghost use Rattle.ir_code.specs.Run.{run_of};
ghost use Rattle.mlc_outside.specs.Sink.{WasPut};
ghost use Rattle.heap_vm.specs.View.{state_of, Fits, Named};
ghost use Rattle.heap_vm.specs.Loaded.{halt_stop, loaded, told_name};
ghost use Rattle.heap_vm.specs.Told.{Tells};
ghost use Rattle.heap_vm.specs.Went.{Went, Stayed};

use crate::act::step_on;
use crate::registers::{Flow, NO_HANDLER, Registers};
use crate::send::send_string;
use crate::stop::Stop;
use ir_code::halt::Halt;
use ir_code::image::Image;
use ir_code::instr::Instr;
use mlc_base::memory::NoMemory;
use mlc_outside::sink::{Put, Sink};
use std::alloc::Global;
use std::marker::Model;

/// The answer of a run that a halt ended.
fn stop_at(halt: Halt) -> Stop
    ensures { result ≡ halt_stop halt }
{
    match halt {
        Halt::Ended => Stop::Ended,
        Halt::Uncaught => Stop::Uncaught,
        Halt::NoHeap => Stop::NoHeap,
        Halt::NoStack => Stop::NoStack,
        Halt::Stuck => Stop::Stuck,
    }
}

/// Makes at most so many steps over the parts of a machine.
fn go<O: Sink>(
    code: &[Instr],
    from: Registers,
    stack: &mut [u32],
    memory: &mut [u32],
    steps: u64,
    out: &mut O,
) -> (Registers, Stop)
    requires code_fits { length code.now < 2 ^ 32 }
    requires fits { Fits from stack.old memory.old }
    ensures went { Went result.1 code.now (state_of from stack.old memory.old) steps
        (state_of result.0 stack.new memory.new)
        (O.written out.old) (O.written out.new) (O.faults out.old) (O.faults out.new) }
    ensures fits { Fits result.0 stack.new memory.new }
    ensures named { Named result.1 result.0 memory.new }
{
    let mut registers = from;
    let mut left = steps;
    while left > 0 {
        left -= 1;
        match step_on(code, &mut registers, stack, memory) {
            Ok(Flow::Go) => {}
            Ok(Flow::Print(text)) => match send_string(memory, text, out) {
                Put::Done => registers.pc += 1,
                Put::Failed => return (registers, Stop::WriteFault),
            },
            Err(halt) => return (registers, stop_at(halt)),
        }
    }
    (registers, Stop::Steps)
}

/// A loaded machine.
#[derive(Drop)]
pub struct Vm {
    code: Vec<Instr>,
    registers: Registers,
    stack: Vec<u32>,
    memory: Vec<u32>,
    stop: Stop,
}

impl Model for Vm {
    ghost use Rattle.std.specs.Prelude.{◌^◌, ◌<◌, length};
    ghost use Rattle.heap_vm.specs.Loaded.{Loaded};
    ghost use Rattle.heap_vm.specs.View.{state_of, Fits, Named};

    ghost Value = { Loaded };

    ghost view = { λ v. record {
      code = v.code.items;
      state = state_of v.registers v.stack.items v.memory.items;
      stop = v.stop;
    } };

    ghost invariant = { λ v. (length v.code.items < 2 ^ 32)
        × Fits v.registers v.stack.items v.memory.items
        × Named v.stop v.registers v.memory.items };
}

impl Vm {
    /// A machine at the start of an image, with a heap and a stack of so many words.
    pub fn new(alloc: Global, image: Image, heap: u32, stack: u32) -> Result<Vm, NoMemory>
        requires heap { heap ≤ 2 ^ 28 }
        requires stack { stack ≤ 2 ^ 24 }
        ensures { IfOk result (λ v. v ≡ loaded image heap stack) }
    {
        let (constants, code) = image.into_parts();
        let base = constants.len() as u32;
        let mut memory = constants;
        memory.resize(base as usize + heap as usize, 0)?;
        let stack = vec![in alloc; 0u32; stack as usize]?;
        Ok(Vm {
            code,
            registers: Registers {
                pc: 0,
                fp: 0,
                acc: 0,
                handler: NO_HANDLER,
                base,
                limit: base,
            },
            stack,
            memory,
            stop: Stop::Steps,
        })
    }

    /// Makes at most so many steps. After `Steps` the next call goes on where this one came to;
    /// after another answer it gives that answer again, and does nothing.
    pub fn run<O: Sink>(&mut self, steps: u64, out: &mut O) -> Stop
        ensures answer { self.new.stop ≡ result }
        ensures code { self.new.code ≡ self.old.code }

        ensures goes_on { self.old.stop ≡ Stop.Steps →
            Went result self.old.code self.old.state steps self.new.state
            (O.written out.old) (O.written out.new) (O.faults out.old) (O.faults out.new) }
        // The first run of a program gives its output and its end.
        ensures first { (program : Program) (heap stack : ℕ) → self.old ≡ loaded program heap stack →
            Tells result (run_of program heap stack steps) self.new.state
            (O.written out.old) (O.written out.new) (O.faults out.old) (O.faults out.new) }

        ensures stays { self.old.stop ≢ Stop.Steps →
            Stayed self.old self.new
            (O.written out.old) (O.written out.new) (O.faults out.old) (O.faults out.new) }
    {
        if let Stop::Steps = self.stop {
            let (registers, stop) = go(
                &self.code,
                self.registers,
                &mut self.stack,
                &mut self.memory,
                steps,
                out,
            );
            self.registers = registers;
            self.stop = stop;
        }
        self.stop
    }

    /// Sends the name of the packet that no handler took; after another answer than `Uncaught`, nothing.
    pub fn put_name<O: Sink>(&self, out: &mut O) -> Put
        ensures { WasPut result (told_name self.now.stop self.now.state)
            (O.written out.old) (O.written out.new) (O.faults out.old) (O.faults out.new) }
    {
        match self.stop {
            Stop::Uncaught => {
                let packet = self.registers.acc as usize;
                let name = self.memory[packet] as usize;
                send_string(&self.memory, self.memory[name], out)
            }
            _ => Put::Done,
        }
    }
}
