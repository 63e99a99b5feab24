// Large programs: what takes more than near linear time takes minutes here.
ghost use Rattle.std.specs.Prelude.{◌<◌, ◌≤◌, ◌^◌};

use crate::answer::{Answer, answered};
use crate::types::*;
use ir_tables::tables::Constant;
use mlc_base::memory::NoMemory;
use mono_types::types::Types;
use plain_tree::tree::{Case, Parameter};
use std::alloc::Global;
use std::test::Fail;
use tests_words::words::{Act, Text, Word};
use ty_core::ty::Head;

/// A function of a group that calls another one through what holds it.
fn put_caller(alloc: Global, text: &mut Text, function: usize, other: usize) -> Result<(), NoMemory>
    requires { function < 2 ^ 32 }
{
    let argument = Parameter {
        variable: function + 4,
        ty: FUNCTION,
    };
    let case = Case::ConstructorOf {
        constructor: HOLD,
        argument,
    };
    text.put_all(
        alloc,
        &[
            Word::Test(function + 3, HOLDER, case),
            Word::Let(function + 5, INT, Act::Apply(function + 4, function + 1)),
            Word::Ret(function + 5),
            Word::End,
            Word::Ret(function + 1),
            Word::First,
            Word::Let(function + 2, FUNCTION, Act::Use(other)),
            Word::Let(
                function + 3,
                HOLDER,
                Act::Construct(HOLD, HOLDER, function + 2),
            ),
            Word::End,
            Word::Member(function, FUNCTION, function + 1, INT),
        ],
    )
}

/// So many functions of one group, each of which calls the one before, and the first the last.
fn group(alloc: Global, count: usize) -> Result<Answer, NoMemory>
    requires { count < 2 ^ 20 }
{
    let mut text = Text::new(alloc);
    let mut other = 10 * count;
    for i in 0..count {
        let function = 10 * (i + 1);
        put_caller(alloc, &mut text, function, other)?;
        other = function;
    }
    text.put_all(alloc, &[ONE, Word::Group(0), Word::Ret(1), Word::End])?;
    let types = all_types(alloc)?;
    answered(alloc, &mut text, types)
}

#[test]
fn groups(rt: HostRuntime) -> Result<(), Fail> {
    assert_eq!(rt; group(rt.alloc(), 3)?, Answer::Functions(4));
    assert_eq!(rt; group(rt.alloc(), 1_000)?, Answer::Functions(1_001));
    Ok(())
}

/// A function that is called, and what calls the function that it takes with it.
fn put_call(alloc: Global, text: &mut Text, variable: usize) -> Result<(), NoMemory>
    requires { variable < 2 ^ 32 }
{
    text.put_all(
        alloc,
        &[
            Word::Fn(variable, FUNCTION, variable + 1, INT),
            Word::Let(variable + 2, INT, Act::Apply(2, variable)),
        ],
    )
}

/// So many functions, each of which comes to one call.
fn dispatched(alloc: Global, count: usize) -> Result<Answer, NoMemory>
    requires { count < 2 ^ 20 }
{
    let mut text = Text::new(alloc);
    for i in 0..count {
        text.put(alloc, Word::Ret(10 * (count - i) + 1))?;
    }
    text.put_all(
        alloc,
        &[
            Word::Let(4, INT, Act::Constant(Constant::Int(1))),
            Word::Let(5, INT, Act::Apply(3, 4)),
            Word::Ret(5),
            Word::End,
            ONE,
            Word::Fn(2, TAKER, 3, FUNCTION),
        ],
    )?;
    for i in 0..count {
        put_call(alloc, &mut text, 10 * (i + 1))?;
    }
    text.put_all(alloc, &[Word::Ret(1), Word::End])?;
    let types = all_types(alloc)?;
    answered(alloc, &mut text, types)
}

#[test]
fn a_call_of_many_functions(rt: HostRuntime) -> Result<(), Fail> {
    assert_eq!(rt; dispatched(rt.alloc(), 10_000)?, Answer::Functions(10_002));
    Ok(())
}

/// The type of functions of so many further parameters.
fn put_curried(alloc: Global, types: &mut Types, further: usize) -> Result<usize, NoMemory> {
    let mut ty = FUNCTION;
    for _ in 0..further {
        ty = put(alloc, types, Head::Function, &[INT, ty], false)?;
    }
    Ok(ty)
}

/// A function of so many parameters and one more, of which the first so many are used.
fn put_parameters(
    alloc: Global,
    text: &mut Text,
    ty: usize,
    further: usize,
    used: usize,
) -> Result<(), NoMemory>
    requires further { further < 2 ^ 20 }
    requires used { used < 2 ^ 20 }
{
    for i in 0..used {
        text.put(alloc, Word::Let(further + 20 + i, INT, Act::Use(10 + i)))?;
    }
    text.put_all(alloc, &[Word::Ret(further + 20), Word::End, ONE])?;
    for i in 0..further {
        text.put(alloc, Word::More(10 + i, INT))?;
    }
    text.put_all(
        alloc,
        &[Word::Fn(2, ty, 10 + further, INT), Word::Ret(1), Word::End],
    )
}

fn curried(alloc: Global, further: usize, used: usize) -> Result<Answer, NoMemory>
    requires further { further < 2 ^ 20 }
    requires used { used < 2 ^ 20 }
{
    let mut types = all_types(alloc)?;
    let ty = put_curried(alloc, &mut types, further)?;
    let mut text = Text::new(alloc);
    put_parameters(alloc, &mut text, ty, further, used)?;
    answered(alloc, &mut text, types)
}

#[test]
fn many_parameters(rt: HostRuntime) -> Result<(), Fail> {
    assert_eq!(rt; curried(rt.alloc(), 9_999, 1)?, Answer::Functions(10_001));
    assert_eq!(rt; curried(rt.alloc(), 999, 999)?, Answer::Functions(1_001));
    Ok(())
}

/// Functions in functions, so deep, with variables from a number on. The last expression is in the innermost.
fn put_nest(alloc: Global, text: &mut Text, first: usize, deep: usize) -> Result<(), NoMemory>
    requires first { first < 2 ^ 32 }
    requires deep { deep < 2 ^ 20 }
{
    text.put(alloc, Word::Ret(first))?;
    for i in 0..deep {
        let variable = first + 3 * i;
        text.put_all(
            alloc,
            &[
                Word::Let(variable + 5, INT, Act::Use(1)),
                Word::Fn(variable + 4, FUNCTION, variable, INT),
                Word::Ret(variable + 5),
                Word::End,
            ],
        )?;
    }
    Ok(())
}

/// So many towers of functions in functions.
fn nested(alloc: Global, towers: usize, deep: usize) -> Result<Answer, NoMemory>
    requires towers { towers < 100 }
    requires deep { deep < 10000 }
{
    let mut text = Text::new(alloc);
    for i in 0..towers {
        put_nest(alloc, &mut text, 100_000 * (i + 1), deep)?;
    }
    text.put(alloc, ONE)?;
    for i in 0..towers {
        text.put(alloc, Word::Block(10 + i, INT))?;
    }
    text.put_all(alloc, &[Word::Ret(1), Word::End])?;
    let types = all_types(alloc)?;
    answered(alloc, &mut text, types)
}

#[test]
fn functions_in_functions(rt: HostRuntime) -> Result<(), Fail> {
    assert_eq!(rt; nested(rt.alloc(), 4, 250)?, Answer::Functions(1_001));
    assert_eq!(rt; nested(rt.alloc(), 1, 300)?, Answer::Functions(301));
    Ok(())
}
