// Large programs: what takes more than near linear time takes minutes here.

use crate::asked::{Given, USUAL, answered};
use mlc_names::label::Label;
use mlc_runs::pass::Check;
use prog_tree::tree::Used;
use prog_words::expressions::Word;
use prog_words::make::Made;
use prog_words::patterns::Form;
use prog_words::text::Text;
use std::alloc::Global;
use std::test::Fail;
use tests_given::given::{EXN, INT, NONE};

/// How many fields the wide record has, with the labels 0, 1, ..
const FIELDS: u32 = 10_000;

/// The type of such records of integers, behind the other types of the tables.
const WIDE: usize = 30;

const GIVEN: Given = Given {
    datatype: None,
    initial: 7,
    fields: FIELDS,
};

/// The variable of such a record, above those of its fields.
const RECORD: usize = 1_000_000;

#[derive(Clone, Copy)]
enum Large {
    /// 100,000 declarations.
    Declarations,
    /// These, and a variable of theirs again.
    OneAgain,
    /// A `let` 399 deep with 250 bindings each.
    DeepLet,
    /// A record whose pattern has the fields in the opposite order.
    WideRecord,
    /// A record of which each field is taken by a pattern of its own.
    EachField,
    /// 100,000 uses of a record.
    Uses,
}

/// So many integers, numbered from a first one on.
fn put_integers(alloc: Global, text: &mut Text, first: usize, count: usize) -> Made<()> {
    for i in 0..count {
        text.put(alloc, Word::Three)?;
        text.put(alloc, Word::Plain(first.wrapping_add(i), INT))?;
    }
    Ok(())
}

/// A `let` of 250 integers round the last expression.
fn put_level(alloc: Global, text: &mut Text, first: usize) -> Made<()> {
    for i in 0..250 {
        text.put(alloc, Word::Three)?;
        text.put(alloc, Word::Pat(Form::Variable(first.wrapping_add(i))))?;
        text.put(alloc, Word::Bind(false, INT))?;
    }
    text.put(alloc, Word::Val(NONE))?;
    text.put(alloc, Word::Let(INT))
}

fn put_levels(alloc: Global, text: &mut Text) -> Made<()> {
    text.put(alloc, Word::Three)?;
    for level in 0..399usize {
        put_level(alloc, text, level.wrapping_mul(250).wrapping_add(1))?;
    }
    text.put(alloc, Word::Plain(0, INT))
}

/// `{0 = 3, 1 = 3, ..}`
fn put_record(alloc: Global, text: &mut Text) -> Made<()> {
    for i in 0..FIELDS {
        text.put(alloc, Word::Three)?;
        text.put(alloc, Word::Field(Label::Number(i)))?;
    }
    text.put(alloc, Word::Record(WIDE))
}

/// A field of the next pattern as a variable.
fn put_field_pat(alloc: Global, text: &mut Text, label: u32, variable: u32) -> Made<()> {
    let form = Form::Variable(variable as usize);
    text.put(alloc, Word::Pat(form))?;
    let form = Form::Field(Label::Number(label), INT);
    text.put(alloc, Word::Pat(form))
}

/// The fields as a pattern, which has all of them or not, and a binding of it.
fn put_pat(alloc: Global, text: &mut Text, further: bool) -> Made<()> {
    text.put(alloc, Word::Pat(Form::Record(further)))?;
    text.put(alloc, Word::Bind(false, WIDE))?;
    text.put(alloc, Word::Val(NONE))
}

/// `val {9999 = a, 9998 = b, ..} = {0 = 3, 1 = 3, ..}`
fn put_wide(alloc: Global, text: &mut Text) -> Made<()> {
    put_record(alloc, text)?;
    for i in 0..FIELDS {
        put_field_pat(alloc, text, FIELDS - 1 - i, i)?;
    }
    put_pat(alloc, text, false)
}

fn put_use(alloc: Global, text: &mut Text) -> Made<()> {
    text.put(alloc, Word::Use(Used::Variable(RECORD), WIDE))
}

/// `val record = {0 = 3, 1 = 3, ..}`
fn put_one(alloc: Global, text: &mut Text) -> Made<()> {
    put_record(alloc, text)?;
    text.put(alloc, Word::Plain(RECORD, WIDE))
}

/// `val {0 = a, ...} = record val {1 = b, ...} = record ..`
fn put_selections(alloc: Global, text: &mut Text) -> Made<()> {
    put_one(alloc, text)?;
    for i in 0..FIELDS {
        put_use(alloc, text)?;
        put_field_pat(alloc, text, i, i)?;
        put_pat(alloc, text, true)?;
    }
    Ok(())
}

/// `val a = record val b = record ..`
fn put_uses(alloc: Global, text: &mut Text) -> Made<()> {
    put_one(alloc, text)?;
    for variable in 0..100_000usize {
        put_use(alloc, text)?;
        text.put(alloc, Word::Plain(variable, WIDE))?;
    }
    Ok(())
}

fn put(alloc: Global, text: &mut Text, large: Large) -> Made<()> {
    match large {
        Large::Declarations => put_integers(alloc, text, 0, 100_000),
        Large::OneAgain => {
            put_integers(alloc, text, 0, 100_000)?;
            put_integers(alloc, text, 50_000, 1)
        }
        Large::DeepLet => put_levels(alloc, text),
        Large::WideRecord => put_wide(alloc, text),
        Large::EachField => put_selections(alloc, text),
        Large::Uses => put_uses(alloc, text),
    }
}

/// This, where all parts were taken.
fn if_done(text: &Text, says: Check) -> Check {
    if text.is_done() { says } else { Check::Memory }
}

/// What the checker says of a large program.
fn judged(alloc: Global, large: Large) -> Made<Check> {
    let mut text = Text::new(alloc);
    put(alloc, &mut text, large)?;
    let body = text.body(alloc);
    let says = answered(alloc, GIVEN, EXN, body).says;
    Ok(if_done(&text, says))
}

#[test]
fn many_declarations(rt: HostRuntime) -> Result<(), Fail> {
    assert_eq!(rt; judged(rt.alloc(), Large::Declarations)?, Check::Yes);
    Ok(())
}

#[test]
fn many_declarations_and_one_again(rt: HostRuntime) -> Result<(), Fail> {
    assert_eq!(rt; judged(rt.alloc(), Large::OneAgain)?, Check::No);
    Ok(())
}

#[test]
fn a_deep_let(rt: HostRuntime) -> Result<(), Fail> {
    assert_eq!(rt; judged(rt.alloc(), Large::DeepLet)?, Check::Yes);
    Ok(())
}

#[test]
fn a_wide_record(rt: HostRuntime) -> Result<(), Fail> {
    assert_eq!(rt; judged(rt.alloc(), Large::WideRecord)?, Check::Yes);
    Ok(())
}

#[test]
fn each_field_alone(rt: HostRuntime) -> Result<(), Fail> {
    assert_eq!(rt; judged(rt.alloc(), Large::EachField)?, Check::Yes);
    Ok(())
}

#[test]
fn uses_of_a_wide_record(rt: HostRuntime) -> Result<(), Fail> {
    assert_eq!(rt; judged(rt.alloc(), Large::Uses)?, Check::Yes);
    Ok(())
}

/// Two integers and a weight.
fn put_two(alloc: Global, text: &mut Text, first: usize, second: usize) -> Made<()> {
    put_integers(alloc, text, first, 1)?;
    text.put(alloc, Word::Weight(5))?;
    put_integers(alloc, text, second, 1)
}

fn counted(alloc: Global, first: usize, second: usize) -> Made<(u64, bool)> {
    let mut text = Text::new(alloc);
    put_two(alloc, &mut text, first, second)?;
    let answer = answered(alloc, USUAL, EXN, text.body(alloc));
    Ok((answer.nodes, answer.once))
}

#[test]
fn nodes_and_binders(rt: HostRuntime) -> Result<(), Fail> {
    assert_eq!(rt; counted(rt.alloc(), 1, 2)?, (5, true));
    assert_eq!(rt; counted(rt.alloc(), 1, 1)?, (5, false));
    Ok(())
}
