// What the pass answers for programs of tests in words.

use crate::types::tables;
use ir_tables::tables::Tables;
use ir_tests::program::Program as Tests;
use mlc_base::memory::NoMemory;
use mlc_runs::pass::{Check, Form, PassFault};
use mono_form::program::Program;
use mono_pass::pass::monomorphise_program;
use std::alloc::Global;
use tests_given::given::EXN;
use tests_words::words::{Text, Word};

/// What the pass answers for a program.
#[derive(Clone, Copy, PartialEq, Eq, Debug)]
pub enum Answer {
    /// A well formed program of so many nodes.
    Nodes(usize),
    TooLarge,
    Memory,
    /// What is taken, or what is given, is not well formed.
    Wrong,
}

fn given(alloc: Global, to: &Program) -> Answer {
    if to.check(alloc) == Check::Yes {
        Answer::Nodes(to.expansion)
    } else {
        Answer::Wrong
    }
}

/// What the pass answers for the last expression.
pub fn answered(alloc: Global, text: &mut Text, tables: Tables) -> Answer {
    let taken = Tests {
        tables,
        exn: EXN,
        body: text.last(),
    };
    if taken.check(alloc) != Check::Yes {
        return Answer::Wrong;
    }
    match monomorphise_program(alloc, taken) {
        Ok(to) => given(alloc, &to),
        Err(PassFault::Expansion) => Answer::TooLarge,
        Err(PassFault::Memory) => Answer::Memory,
    }
}

/// What it answers for the program of these words.
pub fn answer_of(alloc: Global, words: &[Word]) -> Result<Answer, NoMemory> {
    let mut text = Text::new(alloc);
    text.put_all(alloc, words)?;
    let tables = tables(alloc)?;
    Ok(answered(alloc, &mut text, tables))
}
