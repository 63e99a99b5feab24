// Tables of programs: how each of them ends, and the least machine in which it does.

use crate::machine_emit_run::{AMPLE, Least, Size, is_least, run};
use heap_vm::stop::Stop;
use machine_emit::refused::EmitRefused;
use ssa_words::words::{Given, Op};
use std::alloc::Global;
use std::process::Abort;

/// The most words of heap or stack that a row may name.
const MOST: u32 = 1000;

pub const NOTHING: Given = Given {
    strings: &[],
    types: &[],
    sets: &[],
};

pub const WORDS: Given = Given {
    strings: &["ab", "cd"],
    types: &[],
    sets: &[],
};

/// A program, the least heap and stack in which it ends so, what it writes, and the name of the packet that it leaves.
#[derive(Clone, Copy)]
pub struct Row {
    pub given: &'static Given,
    pub ops: &'static [Op],
    pub heap: u32,
    pub stack: u32,
    pub end: Stop,
    pub output: &'static str,
    pub name: &'static str,
}

/// A program ends so in an ample machine.
fn ends_so(
    rt: &impl Abort,
    alloc: Global,
    given: &Given,
    ops: &[Op],
    least: Least,
) -> Result<(), EmitRefused> {
    let Least {
        size: _,
        end,
        output,
        name,
    } = least;
    let (stop, written, named) = run(alloc, given, ops, AMPLE, output.as_bytes(), name)?;
    assert_eq!(rt; stop, end);
    assert!(rt; written);
    assert!(rt; named);
    Ok(())
}

/// It does in an ample machine and in the least one, and in none with a word of heap or of stack less.
fn check(rt: &impl Abort, alloc: Global, row: Row) -> Result<(), EmitRefused> {
    let Row {
        given,
        ops,
        heap,
        stack,
        end,
        output,
        name,
    } = row;
    if heap > MOST || stack > MOST {
        return Err(EmitRefused::TooLong);
    }
    let size = Size { heap, stack };
    let least = Least {
        size,
        end,
        output,
        name,
    };
    ends_so(rt, alloc, given, ops, least)?;
    is_least(rt, alloc, given, ops, least)
}

pub fn check_all(rt: &impl Abort, alloc: Global, rows: &[Row]) -> Result<(), EmitRefused> {
    for row in rows {
        check(rt, alloc, *row)?;
    }
    Ok(())
}
