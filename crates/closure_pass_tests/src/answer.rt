// What the pass answers for programs of simple types in words.

use crate::types::{EXN, all_types};
use closure_pass::pass::convert_program;
use first_form::form::First;
use initial_names::initial;
use mlc_base::memory::NoMemory;
use mlc_runs::pass::{Check, Form};
use mono_form::program::Program;
use mono_operations::tables::Tables;
use mono_types::types::Types;
use plain_tree::tree::Exp;
use std::alloc::Global;
use tests_words::words::{Text, Word};

/// What the pass answers for a program.
#[derive(Clone, Copy, PartialEq, Eq, Debug)]
pub enum Answer {
    /// A well formed program of so many functions.
    Functions(usize),
    Memory,
    /// What is taken, or what is given, is not well formed.
    Wrong,
}

fn given(alloc: Global, to: &First) -> Answer {
    if to.check(alloc) == Check::Yes {
        Answer::Functions(to.funs.len())
    } else {
        Answer::Wrong
    }
}

fn converted(alloc: Global, taken: Program) -> Answer {
    if taken.check(alloc) != Check::Yes {
        return Answer::Wrong;
    }
    match convert_program(alloc, taken) {
        Ok(to) => given(alloc, &to),
        Err(_) => Answer::Memory,
    }
}

fn tables(alloc: Global, types: Types) -> Result<Tables, NoMemory> {
    let initial = initial(alloc)?;
    Ok(Tables {
        types,
        initial,
        strings: Vec::new(alloc),
        exn: EXN,
    })
}

/// What the pass answers for the last expression.
pub fn answered(alloc: Global, text: &mut Text, types: Types) -> Result<Answer, NoMemory> {
    let tables = tables(alloc, types)?;
    let body = text.last();
    Ok(converted(
        alloc,
        Program {
            tables,
            expansion: 1,
            body,
        },
    ))
}

/// What it answers for the program of these words.
pub fn answer_of(alloc: Global, words: &[Word]) -> Result<Answer, NoMemory> {
    let mut text = Text::new(alloc);
    text.put_all(alloc, words)?;
    let types = all_types(alloc)?;
    answered(alloc, &mut text, types)
}
