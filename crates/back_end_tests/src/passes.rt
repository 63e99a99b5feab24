// The passes one by one, and all of them as one call.

use crate::programs as of;
use crate::run::{NotRun, image, program};
use closure_pass::pass::convert_program;
use emit_known::exceptions::exceptions_of;
use first_form::form::First;
use ir_code::write::write_image;
use ir_prog::program::Program;
use ir_tests::program::Program as Tests;
use machine_emit::emit::emit;
use match_pass::pass::compile_program;
use mlc_names::names::Names;
use mono_form::program::Program as Copies;
use mono_pass::pass::monomorphise_program;
use prog_words::expressions::Word;
use ssa_form::form::Ssa;
use ssa_pass::pass::build_program;
use ssa_words::standard::are_standard;
use std::alloc::Global;
use std::process::Abort;
use std::test::Fail;

/// The bytes of the image of a program in SSA form.
fn of_ssa(alloc: Global, ssa: &Ssa) -> Result<Vec<u8>, NotRun> {
    let found = exceptions_of(alloc, &ssa.tables, &ssa.funs)?;
    if !are_standard(&found) {
        return Err(NotRun::Unnamed);
    }
    let names = Names::new(alloc)?;
    let image = emit(alloc, &names, ssa)?;
    Ok(write_image(alloc, &image)?)
}

fn of_first(alloc: Global, first: First) -> Result<Vec<u8>, NotRun> {
    let ssa = build_program(alloc, first)?;
    of_ssa(alloc, &ssa)
}

fn of_copies(alloc: Global, copies: Copies) -> Result<Vec<u8>, NotRun> {
    let first = convert_program(alloc, copies)?;
    of_first(alloc, first)
}

fn of_tests(alloc: Global, tests: Tests) -> Result<Vec<u8>, NotRun> {
    let copies = monomorphise_program(alloc, tests)?;
    of_copies(alloc, copies)
}

/// The bytes of the image that the passes give, one after the other.
fn by_passes(alloc: Global, program: Program) -> Result<Vec<u8>, NotRun> {
    let tests = compile_program(alloc, program)?;
    of_tests(alloc, tests)
}

/// The bytes of the image that one call gives.
fn by_one_call(alloc: Global, program: Program) -> Result<Vec<u8>, NotRun> {
    let image = image(alloc, program)?;
    Ok(write_image(alloc, &image)?)
}

/// Both ways give the same bytes.
fn same(rt: &impl Abort, alloc: Global, words: &[Word]) -> Result<(), NotRun> {
    let passes = by_passes(alloc, program(alloc, words)?)?;
    let call = by_one_call(alloc, program(alloc, words)?)?;
    assert!(rt; passes.as_slice() == call.as_slice());
    Ok(())
}

#[test]
fn the_passes_give_the_image_of_one_call(rt: HostRuntime) -> Result<(), Fail> {
    let programs: [&[Word]; 10] = [
        &of::NOTHING,
        &of::HELLO,
        &of::TWO_TYPES,
        &of::HANDLED,
        &of::CAPTURED,
        &of::MATCHED,
        &of::OVERFLOWS,
        &of::RAISES,
        &of::MISSES,
        &of::STORES,
    ];
    for words in programs {
        same(&rt, rt.alloc(), words)?;
    }
    Ok(())
}
