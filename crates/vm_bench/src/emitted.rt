// The image that `emit` makes of a loop.

use emit_known::exceptions::exceptions_of;
use first_tables::operation::{Callee, Constant, Operands};
use ir_code::image::Image;
use machine_emit::emit::emit;
use mlc_names::names::Names;
use mlc_prims::basis::BasisPrimitive;
use ssa_form::form::Ssa;
use ssa_words::build::{functions, tables};
use ssa_words::standard::are_standard;
use ssa_words::words::{Action, Given, Op};
use std::alloc::Global;

static NOTHING: Given = Given {
    strings: &[],
    types: &[],
    sets: &[],
};

/// Prints what the function 1 gives for the turns, which are the variable 0.
static CALL_AND_PRINT: [Op; 5] = [
    Op::Call(Callee::Known(1), &[0], 1),
    Op::Do(
        Action::Compute(Operands::Ints, BasisPrimitive::TextOf),
        &[1],
        2,
    ),
    Op::Do(Action::Print, &[2], 3),
    Op::Ret(3),
    Op::Fun(&[]),
];

/// A program whose functions from 1 on are these.
fn program(alloc: Global, turns: u16, funs: &[Op]) -> anyhow::Result<Ssa> {
    let turns = Constant::Int(i32::from(turns));
    let mut ops = Vec::new(alloc);
    ops.push(Op::Begin)?;
    ops.push(Op::Do(Action::Is(turns), &[], 0))?;
    ops.extend_from_slice(&CALL_AND_PRINT)?;
    ops.extend_from_slice(funs)?;
    Ok(Ssa {
        tables: tables(alloc, NOTHING)?,
        funs: functions(alloc, &ops)?,
        expansion: 1,
    })
}

/// The image of a program whose exceptions have the names of standard words.
fn image_of(alloc: Global, program: &Ssa) -> anyhow::Result<Image> {
    let names = Names::new(alloc)?;
    let found = exceptions_of(alloc, &program.tables, &program.funs)?;
    if !are_standard(&found) {
        anyhow::bail!("an exception has no standard word for a name");
    }
    match emit(alloc, &names, program) {
        Ok(image) => Ok(image),
        Err(refused) => anyhow::bail!("no image: {refused:?}"),
    }
}

/// The image of a loop whose function 1 takes the turns and gives an integer.
pub fn make(alloc: Global, turns: u16, funs: &[Op]) -> anyhow::Result<Image> {
    let program = program(alloc, turns, funs)?;
    image_of(alloc, &program)
}
