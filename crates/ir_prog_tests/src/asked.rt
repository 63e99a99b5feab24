// What the checker says of programs in words.

use ir_prog::program::Program;
use ir_tables::tables::Tables;
use mlc_names::label::Label;
use mlc_runs::pass::{Check, Form};
use prog_tree::tree::Dec;
use prog_words::expressions::Word;
use prog_words::make::Made;
use prog_words::text::Text;
use std::alloc::Global;
use tests_given::given::{EXN, INT, INTS, TRUTH, make_tables, put_constructor, put_of};
use ty_core::name::TyName;
use ty_core::ty::Head;
use ty_table::types::Types;

/// A type beyond those of `tests_given`: of functions from pairs of integers to truth values.
pub const INTS_TO_TRUTH: usize = 29;

pub const YES: Word = Word::Says(Check::Yes);

pub const NO: Word = Word::Says(Check::No);

/// The tables of the tests' programs, with a row more of a datatype, so many names of exceptions of the basis, and the type of a wide record.
#[derive(Clone, Copy)]
pub struct Given {
    pub datatype: Option<TyName>,
    pub initial: usize,
    pub fields: u32,
}

pub const USUAL: Given = Given {
    datatype: None,
    initial: 7,
    fields: 0,
};

fn labels(alloc: Global, count: u32) -> Made<Vec<Label>> {
    let mut labels = Vec::new(alloc);
    for i in 0..count {
        labels.push(Label::Number(i))?;
    }
    Ok(labels)
}

/// One more type: that of records of so many integers.
fn put_row(alloc: Global, types: &mut Types, count: u32) -> Made<()> {
    let labels = labels(alloc, count)?;
    let parts = vec![in alloc; INT; labels.len()]?;
    let _ = put_of(alloc, types, Head::Record(labels), &parts)?;
    Ok(())
}

fn put_given(alloc: Global, tables: &mut Tables, given: Given) -> Made<()> {
    let _ = put_of(alloc, &mut tables.types, Head::Function, &[INTS, TRUTH])?;
    put_row(alloc, &mut tables.types, given.fields)?;
    match given.datatype {
        Some(datatype) => put_constructor(tables, datatype, 300, None),
        None => Ok(()),
    }
}

fn make(alloc: Global, given: Given) -> Made<Tables> {
    let mut tables = make_tables(alloc, given.initial)?;
    put_given(alloc, &mut tables, given)?;
    Ok(tables)
}

/// What the checker says, how many nodes a program stands for, and whether it binds each variable once.
#[derive(Clone, Copy)]
pub struct Answer {
    pub says: Check,
    pub nodes: u64,
    pub once: bool,
}

fn ask(alloc: Global, program: &Program) -> Answer {
    Answer {
        says: program.check(alloc),
        nodes: program.nodes(),
        once: program.binds_once(alloc).unwrap_or(false),
    }
}

fn ask_over(alloc: Global, tables: Made<Tables>, exn: usize, body: Vec<Dec>) -> Answer {
    match tables {
        Ok(tables) => {
            let program = Program { tables, exn, body };
            ask(alloc, &program)
        }
        Err(_) => Answer {
            says: Check::Memory,
            nodes: 0,
            once: false,
        },
    }
}

/// What is said of declarations.
pub fn answered(alloc: Global, given: Given, exn: usize, body: Vec<Dec>) -> Answer {
    ask_over(alloc, make(alloc, given), exn, body)
}

/// Whether all parts were taken, and the checker says this of the declarations.
fn is_said(alloc: Global, text: &mut Text, wanted: Check) -> bool {
    let body = text.body(alloc);
    let done = text.is_done();
    let said = answered(alloc, USUAL, EXN, body).says;
    done && said == wanted
}

/// The next word. Whether the checker says what it has to say.
fn read(alloc: Global, text: &mut Text, word: Word) -> Made<bool> {
    match word {
        Word::Says(wanted) => Ok(is_said(alloc, text, wanted)),
        _ => {
            text.put(alloc, word)?;
            Ok(true)
        }
    }
}

/// Where the first program ends of which the checker says something else.
pub fn wrong(alloc: Global, words: &[Word]) -> Made<Option<usize>> {
    let mut text = Text::new(alloc);
    for i in 0..words.len() {
        let right = read(alloc, &mut text, words[i])?;
        if !right {
            return Ok(Some(i));
        }
    }
    Ok(None)
}
