// What the checker says of programs of tests in words.

use ir_tables::tables::Tables;
use ir_tests::program::Program;
use mlc_base::memory::NoMemory;
use mlc_names::label::Label;
use mlc_runs::pass::{Check, Form};
use plain_tree::tree::Exp;
use std::alloc::Global;
use tests_given::given::{EXN, INT, make_tables, put_constructor, put_of};
use tests_words::words::{Text, Word};
use ty_core::name::TyName;
use ty_core::ty::Head;
use ty_table::types::Types;

/// The tables of the tests' programs, with a row more of a datatype, so many names of exceptions of the basis, and the type of a wide record.
#[derive(Clone, Copy)]
pub struct Given {
    pub datatype: Option<TyName>,
    pub initial: usize,
    pub fields: u32,
}

pub const USUAL: Given = Given {
    datatype: None,
    initial: 7,
    fields: 0,
};

fn labels(alloc: Global, count: u32) -> Result<Vec<Label>, NoMemory> {
    let mut labels = Vec::new(alloc);
    for i in 0..count {
        labels.push(Label::Number(i + 1))?;
    }
    Ok(labels)
}

/// One more type: that of records of so many integers.
fn put_row(alloc: Global, types: &mut Types, count: u32) -> Result<(), NoMemory> {
    let labels = labels(alloc, count)?;
    let parts = vec![in alloc; INT; labels.len()]?;
    let _ = put_of(alloc, types, Head::Record(labels), &parts)?;
    Ok(())
}

fn put_given(alloc: Global, tables: &mut Tables, given: Given) -> Result<(), NoMemory> {
    put_row(alloc, &mut tables.types, given.fields)?;
    match given.datatype {
        Some(datatype) => put_constructor(tables, datatype, 300, None),
        None => Ok(()),
    }
}

fn make(alloc: Global, given: Given) -> Result<Tables, NoMemory> {
    let mut tables = make_tables(alloc, given.initial)?;
    put_given(alloc, &mut tables, given)?;
    Ok(tables)
}

/// What the checker says, how many nodes a program stands for, and whether it binds each variable once.
#[derive(Clone, Copy)]
pub struct Answer {
    pub says: Check,
    pub nodes: usize,
    pub once: bool,
}

fn ask(alloc: Global, program: &Program) -> Answer {
    Answer {
        says: program.check(alloc),
        nodes: program.nodes(),
        once: program.binds_once(alloc).unwrap_or(false),
    }
}

fn ask_over(alloc: Global, tables: Result<Tables, NoMemory>, exn: usize, body: Exp) -> Answer {
    match tables {
        Ok(tables) => {
            let program = Program { tables, exn, body };
            ask(alloc, &program)
        }
        Err(_) => Answer {
            says: Check::Memory,
            nodes: 0,
            once: false,
        },
    }
}

/// What is said of the last expression.
pub fn answered(alloc: Global, text: &mut Text, given: Given, exn: usize) -> Answer {
    ask_over(alloc, make(alloc, given), exn, text.last())
}

/// Whether all parts are taken by the last expression, and the checker says this of it.
fn is_said(alloc: Global, text: &mut Text, wanted: Check) -> bool {
    let said = answered(alloc, text, USUAL, EXN).says;
    text.is_done() && said == wanted
}

/// The next word. Whether the checker says what it has to say.
fn read(alloc: Global, text: &mut Text, word: Word) -> Result<bool, NoMemory> {
    match word {
        Word::Says(wanted) => Ok(is_said(alloc, text, wanted)),
        _ => {
            text.put(alloc, word)?;
            Ok(true)
        }
    }
}

/// Where the first program ends of which the checker says something else.
pub fn wrong(alloc: Global, words: &[Word]) -> Result<Option<usize>, NoMemory> {
    let mut text = Text::new(alloc);
    for i in 0..words.len() {
        let right = read(alloc, &mut text, words[i])?;
        if !right {
            return Ok(Some(i));
        }
    }
    Ok(None)
}
