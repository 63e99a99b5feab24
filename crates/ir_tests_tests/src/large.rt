// Large programs: what takes more than near linear time takes minutes here.

use crate::asked::{Given, answered};
use mlc_base::memory::NoMemory;
use mlc_names::label::Label;
use mlc_runs::pass::Check;
use plain_tree::tree::{Field, Operation};
use std::alloc::Global;
use std::test::Fail;
use tests_given::given::{EXN, INT};
use tests_words::words::{Act, Text, Word};

/// How many fields the wide record has, with the labels 1, 2, ..
const FIELDS: u32 = 100_000;

/// The type of such records of integers, behind the other types of the tables.
const WIDE: usize = 29;

const GIVEN: Given = Given {
    datatype: None,
    initial: 7,
    fields: FIELDS,
};

/// An integer and a record of it, before all other variables.
const INTEGER: usize = 1;

const RECORD: usize = 2;

#[derive(Clone, Copy)]
enum Large {
    /// 100,000 integers.
    Declarations,
    /// These, and a variable of theirs again.
    OneAgain,
    /// Blocks in blocks, 399 deep with 250 integers each.
    Blocks,
    /// A record of which each field is taken.
    EachField,
    /// 100,000 uses of a record.
    Uses,
}

/// So many integers, numbered from a first one on.
fn put_integers(
    alloc: Global,
    text: &mut Text,
    first: usize,
    count: usize,
) -> Result<(), NoMemory> {
    for i in 0..count {
        text.put(alloc, Word::Int(first.wrapping_add(i)))?;
    }
    Ok(())
}

fn put_last(alloc: Global, text: &mut Text, variable: usize) -> Result<(), NoMemory> {
    text.put(alloc, Word::Ret(variable))?;
    text.put(alloc, Word::End)
}

/// A block round the last expression, behind 250 integers.
fn put_around(alloc: Global, text: &mut Text, first: usize) -> Result<(), NoMemory> {
    put_integers(alloc, text, first, 250)?;
    let variable = first.wrapping_add(900);
    text.put(alloc, Word::Block(variable, INT))?;
    put_last(alloc, text, variable)
}

fn put_blocks(alloc: Global, text: &mut Text) -> Result<(), NoMemory> {
    text.put(alloc, Word::Int(1_000_000))?;
    put_last(alloc, text, 1_000_000)?;
    for level in 0..399usize {
        put_around(alloc, text, level.wrapping_mul(1000))?;
    }
    Ok(())
}

/// A record of the integer in each field.
fn record(alloc: Global) -> Result<Operation, NoMemory> {
    let mut fields = Vec::new(alloc);
    for i in 0..FIELDS {
        fields.push(Field {
            label: Label::Number(i + 1),
            atom: INTEGER,
        })?;
    }
    Ok(Operation::Record { ty: WIDE, fields })
}

fn put_record(alloc: Global, text: &mut Text) -> Result<(), NoMemory> {
    text.put(alloc, Word::Int(INTEGER))?;
    let record = record(alloc)?;
    text.put_operation(RECORD, WIDE, record)
}

fn put_selections(alloc: Global, text: &mut Text) -> Result<(), NoMemory> {
    put_record(alloc, text)?;
    for i in 0..FIELDS {
        let act = Act::Select(WIDE, i + 1, RECORD);
        text.put(alloc, Word::Let(3 + i as usize, INT, act))?;
    }
    put_last(alloc, text, INTEGER)
}

fn put_uses(alloc: Global, text: &mut Text) -> Result<(), NoMemory> {
    put_record(alloc, text)?;
    for i in 0..100_000usize {
        text.put(alloc, Word::Let(3 + i, WIDE, Act::Use(RECORD)))?;
    }
    put_last(alloc, text, INTEGER)
}

fn put(alloc: Global, text: &mut Text, large: Large) -> Result<(), NoMemory> {
    match large {
        Large::Declarations => {
            put_integers(alloc, text, 0, 100_000)?;
            put_last(alloc, text, 0)
        }
        Large::OneAgain => {
            put_integers(alloc, text, 0, 100_000)?;
            put_integers(alloc, text, 50_000, 1)?;
            put_last(alloc, text, 0)
        }
        Large::Blocks => put_blocks(alloc, text),
        Large::EachField => put_selections(alloc, text),
        Large::Uses => put_uses(alloc, text),
    }
}

/// This, where all parts were taken.
fn if_done(text: &Text, says: Check) -> Check {
    if text.is_done() { says } else { Check::Memory }
}

/// What the checker says of a large program.
fn judged(alloc: Global, large: Large) -> Result<Check, NoMemory> {
    let mut text = Text::new(alloc);
    put(alloc, &mut text, large)?;
    let says = answered(alloc, &mut text, GIVEN, EXN).says;
    Ok(if_done(&text, says))
}

#[test]
fn declarations(rt: HostRuntime) -> Result<(), Fail> {
    assert_eq!(rt; judged(rt.alloc(), Large::Declarations)?, Check::Yes);
    Ok(())
}

#[test]
fn declarations_and_one_again(rt: HostRuntime) -> Result<(), Fail> {
    assert_eq!(rt; judged(rt.alloc(), Large::OneAgain)?, Check::No);
    Ok(())
}

#[test]
fn blocks_in_blocks(rt: HostRuntime) -> Result<(), Fail> {
    assert_eq!(rt; judged(rt.alloc(), Large::Blocks)?, Check::Yes);
    Ok(())
}

#[test]
fn each_field_of_a_wide_record(rt: HostRuntime) -> Result<(), Fail> {
    assert_eq!(rt; judged(rt.alloc(), Large::EachField)?, Check::Yes);
    Ok(())
}

#[test]
fn uses_of_a_wide_record(rt: HostRuntime) -> Result<(), Fail> {
    assert_eq!(rt; judged(rt.alloc(), Large::Uses)?, Check::Yes);
    Ok(())
}
