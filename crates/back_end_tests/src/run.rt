// Runs of programs.

use crate::programs::STRINGS_OF_ALL;
use crate::types::tables;
use back_end::compile::compile;
use back_end::named::is_named;
use back_end::refused::CompileRefused;
use heap_vm::stop::Stop;
use heap_vm::vm::Vm;
use ir_code::image::Image;
use ir_prog::program::Program;
use machine_emit::refused::EmitRefused;
use mlc_base::memory::NoMemory;
use mlc_names::names::Names;
use mlc_outside::mem_sink::MemSink;
use mlc_runs::pass::{Check, Form, PassFault};
use prog_words::expressions::Word;
use prog_words::text::Text;
use std::alloc::Global;
use std::process::Abort;
use tests_given::given::EXN;

/// The steps that a run may take.
const STEPS: u64 = 1_000_000;

/// Room for what should not be written.
const ROOM: usize = 100;

const HEAP: u32 = 10_000;

const STACK: u32 = 1000;

/// How many standard words there are.
const WORDS: u32 = 119;

/// Why a program isn't run.
#[derive(Clone, Copy, PartialEq, Eq, Debug)]
pub enum NotRun {
    /// Words are left, or there are too few.
    Words,
    /// The checker of programs doesn't take it.
    IllFormed,
    Unnamed,
    Refused(CompileRefused),
    Memory,
}

impl From<CompileRefused> for NotRun {
    fn from(refused: CompileRefused) -> NotRun {
        NotRun::Refused(refused)
    }
}

impl From<PassFault> for NotRun {
    fn from(fault: PassFault) -> NotRun {
        NotRun::Refused(CompileRefused::from(fault))
    }
}

impl From<EmitRefused> for NotRun {
    fn from(refused: EmitRefused) -> NotRun {
        NotRun::Refused(CompileRefused::from(refused))
    }
}

impl From<NoMemory> for NotRun {
    fn from(_error: NoMemory) -> NotRun {
        NotRun::Memory
    }
}

/// The program that these words are.
pub fn program(alloc: Global, words: &[Word]) -> Result<Program, NotRun> {
    let mut text = Text::new(alloc);
    for i in 0..words.len() {
        text.put(alloc, words[i])?;
    }
    let body = text.body(alloc);
    if !text.is_done() {
        return Err(NotRun::Words);
    }
    let tables = tables(alloc, &STRINGS_OF_ALL)?;
    Ok(Program {
        tables,
        exn: EXN,
        body,
    })
}

/// The image of a program that is well formed.
pub fn image(alloc: Global, program: Program) -> Result<Image, NotRun> {
    if program.check(alloc) != Check::Yes {
        return Err(NotRun::IllFormed);
    }
    if !is_named(WORDS, &program) {
        return Err(NotRun::Unnamed);
    }
    let names = Names::new(alloc)?;
    let image = compile(alloc, &names, program)?;
    Ok(image)
}

fn machine(alloc: Global, words: &[Word]) -> Result<Vm, NotRun> {
    let program = program(alloc, words)?;
    let image = image(alloc, program)?;
    let vm = Vm::new(alloc, image, HEAP, STACK)?;
    Ok(vm)
}

/// Why a program isn't run, if it isn't.
pub fn refusal(alloc: Global, words: &[Word]) -> Option<NotRun> {
    match machine(alloc, words) {
        Ok(_) => None,
        Err(refused) => Some(refused),
    }
}

/// How a run ends, and whether it writes this and leaves a packet of this name.
fn run(
    alloc: Global,
    words: &[Word],
    output: &[u8],
    name: &str,
) -> Result<(Stop, bool, bool), NotRun> {
    let mut out = MemSink::new(alloc, ROOM, Vec::new(alloc))?;
    let mut err = MemSink::new(alloc, ROOM, Vec::new(alloc))?;
    let mut vm = machine(alloc, words)?;
    let stop = vm.run(STEPS, &mut out);
    vm.put_name(&mut err);
    Ok((stop, out.bytes() == output, err.bytes() == name.as_bytes()))
}

/// It ends, and has written this.
pub fn ends(rt: &impl Abort, alloc: Global, words: &[Word], output: &str) -> Result<(), NotRun> {
    let (stop, written, named) = run(alloc, words, output.as_bytes(), "")?;
    assert_eq!(rt; stop, Stop::Ended);
    assert!(rt; written);
    assert!(rt; named);
    Ok(())
}

/// An exception of this name is not handled, after this output.
pub fn uncaught(
    rt: &impl Abort,
    alloc: Global,
    words: &[Word],
    output: &str,
    name: &str,
) -> Result<(), NotRun> {
    let (stop, written, named) = run(alloc, words, output.as_bytes(), name)?;
    assert_eq!(rt; stop, Stop::Uncaught);
    assert!(rt; written);
    assert!(rt; named);
    Ok(())
}
