// Large programs: what takes more than near linear time takes minutes here.
ghost use Rattle.std.specs.Prelude.{◌<◌, ◌^◌};

use crate::answer::{Answer, answered};
use crate::types::*;
use ir_tables::tables::Tables;
use mlc_base::memory::NoMemory;
use mlc_names::label::Label;
use plain_tree::tree::{Field, Operation};
use std::alloc::Global;
use std::test::Fail;
use tests_given::given::*;
use tests_words::words::{Act, Text, Word};
use ty_core::ty::Head;

/// The body of a function of sixteen nodes, which uses the function of a variable at two types.
fn put_body(alloc: Global, text: &mut Text, variable: usize, of: usize) -> Result<(), NoMemory>
    requires { variable < 2 ^ 32 }
{
    text.put_all(
        alloc,
        &[
            Word::Let(variable + 2, PAIRS, Act::UseAt(of, PAIR_OF_A)),
            Word::Let(variable + 3, FUNCTIONS, Act::UseAt(of, A_TO_A)),
            Word::Counted(16),
            Word::Ret(variable + 1),
            Word::End,
        ],
    )
}

/// The function of a variable, whose body is the last expression.
fn put_function(alloc: Global, text: &mut Text, variable: usize) -> Result<(), NoMemory>
    requires { variable < 2 ^ 32 }
{
    text.put_all(
        alloc,
        &[Word::Over(ANY), Word::Fn(variable, A_TO_A, variable + 1, A)],
    )
}

/// So many functions, each of which uses the one before at two types, and an integer.
fn put_chain(alloc: Global, text: &mut Text, levels: usize) -> Result<(), NoMemory>
    requires { levels < 100 }
{
    for i in 0..levels {
        put_body(alloc, text, 10 * (levels - i), 10 * (levels - i - 1))?;
    }
    text.put_all(alloc, &[Word::Counted(1), Word::Ret(1), Word::End])?;
    for i in 0..levels + 1 {
        put_function(alloc, text, 10 * i)?;
    }
    text.put_all(alloc, &[Word::Int(9), Word::Ret(9), Word::End])
}

/// What the pass answers for such a chain.
fn chained(alloc: Global, levels: usize) -> Result<Answer, NoMemory>
    requires { levels < 100 }
{
    let mut text = Text::new(alloc);
    put_chain(alloc, &mut text, levels)?;
    let tables = tables(alloc)?;
    Ok(answered(alloc, &mut text, tables))
}

#[test]
fn a_chain(rt: HostRuntime) -> Result<(), Fail> {
    assert_eq!(rt; chained(rt.alloc(), 2)?, Answer::Nodes(16 + 3 * 16 + 7));
    assert_eq!(rt; chained(rt.alloc(), 20)?, Answer::TooLarge);
    Ok(())
}

/// So many functions of one node, and each at three types.
fn put_many(alloc: Global, text: &mut Text, count: usize) -> Result<(), NoMemory>
    requires { count < 2 ^ 20 }
{
    for i in 0..count {
        let variable = 10 * (count - i - 1);
        text.put_all(
            alloc,
            &[Word::Counted(1), Word::Ret(variable + 1), Word::End],
        )?;
    }
    for i in 0..count {
        put_function(alloc, text, 10 * i)?;
    }
    for i in 0..count {
        put_uses(alloc, text, 10 * i)?;
    }
    text.put_all(alloc, &[Word::Int(9), Word::Ret(9), Word::End])
}

fn put_uses(alloc: Global, text: &mut Text, variable: usize) -> Result<(), NoMemory>
    requires { variable < 2 ^ 32 }
{
    text.put_all(
        alloc,
        &[
            Word::Let(variable + 2, INT_TO_INT, Act::UseAt(variable, INT)),
            Word::Let(variable + 3, STRING_TO_STRING, Act::UseAt(variable, STRING)),
            Word::Let(variable + 4, TRUTH_TO_TRUTH, Act::UseAt(variable, TRUTH)),
        ],
    )
}

fn many(alloc: Global, count: usize) -> Result<Answer, NoMemory>
    requires { count < 2 ^ 20 }
{
    let mut text = Text::new(alloc);
    put_many(alloc, &mut text, count)?;
    let tables = tables(alloc)?;
    Ok(answered(alloc, &mut text, tables))
}

#[test]
fn many_bindings(rt: HostRuntime) -> Result<(), Fail> {
    assert_eq!(rt; many(rt.alloc(), 10_000)?, Answer::Nodes(40_000));
    Ok(())
}

/// Pairs in pairs, each of an integer and the one before.
fn put_deep(
    alloc: Global,
    text: &mut Text,
    tables: &mut Tables,
    count: usize,
) -> Result<(), NoMemory>
    requires { count < 2 ^ 32 }
{
    text.put(alloc, Word::Int(0))?;
    let mut ty = INT;
    for i in 0..count {
        ty = put_pair(alloc, tables, INT, ty)?;
        text.put(alloc, Word::Let(i + 1, ty, Act::Record(ty, (1, 0), (2, i))))?;
    }
    text.put_all(alloc, &[Word::Ret(count), Word::End])
}

fn deep(alloc: Global, count: usize) -> Result<Answer, NoMemory>
    requires { count < 2 ^ 32 }
{
    let mut text = Text::new(alloc);
    let mut tables = tables(alloc)?;
    put_deep(alloc, &mut text, &mut tables, count)?;
    Ok(answered(alloc, &mut text, tables))
}

#[test]
fn deep_types(rt: HostRuntime) -> Result<(), Fail> {
    assert_eq!(rt; deep(rt.alloc(), 10_000)?, Answer::Nodes(0));
    Ok(())
}

const WIDTH: usize = 10_000;

/// A type of records of integers, with the labels 1, 2, ..
fn put_wide(alloc: Global, tables: &mut Tables) -> Result<usize, NoMemory> {
    let mut labels = Vec::new(alloc);
    let mut parts = Vec::new(alloc);
    for i in 0..WIDTH {
        labels.push(Label::Number(i as u32 + 1))?;
        parts.push(INT)?;
    }
    put_of(alloc, &mut tables.types, Head::Record(labels), &parts)
}

/// A record of the integer 0 in each field.
fn record(alloc: Global, ty: usize) -> Result<Operation, NoMemory> {
    let mut fields = Vec::new(alloc);
    for i in 0..WIDTH {
        fields.push(Field {
            label: Label::Number(i as u32 + 1),
            atom: 0,
        })?;
    }
    Ok(Operation::Record { ty, fields })
}

/// The fields of the record 1, numbered from 2 on.
fn put_fields(alloc: Global, text: &mut Text, ty: usize) -> Result<(), NoMemory> {
    for i in 0..WIDTH {
        text.put(
            alloc,
            Word::Let(2 + i, INT, Act::Select(ty, i as u32 + 1, 1)),
        )?;
    }
    text.put_all(alloc, &[Word::Ret(2), Word::End])
}

fn wide(alloc: Global) -> Result<Answer, NoMemory> {
    let mut tables = tables(alloc)?;
    let ty = put_wide(alloc, &mut tables)?;
    let made = record(alloc, ty)?;
    let mut text = Text::new(alloc);
    text.put(alloc, Word::Int(0))?;
    text.put_operation(1, ty, made)?;
    put_fields(alloc, &mut text, ty)?;
    Ok(answered(alloc, &mut text, tables))
}

#[test]
fn a_wide_record(rt: HostRuntime) -> Result<(), Fail> {
    assert_eq!(rt; wide(rt.alloc())?, Answer::Nodes(0));
    Ok(())
}
