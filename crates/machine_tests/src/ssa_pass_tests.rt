// What goes through in near linear time, and what is refused.
ghost use Rattle.std.specs.Prelude.{◌<◌};

use first_form::form::First;
use first_tables::operation::{Callee, Constant, Plain, Test};
use first_tables::tables::Tables;
use first_tree::tree::{Arm, Exp, Fun, Operation, Step};
use mlc_base::make::{both, boxed, one, two};
use mlc_base::memory::NoMemory;
use mlc_base::place::Place;
use mlc_names::names::Name;
use mlc_runs::pass::{Check, Form, Pass, PassFault};
use ssa_form::form::Ssa;
use ssa_pass::pass::{BuildSsa, build_program};
use std::alloc::Global;
use std::test::Fail;

const MANY: usize = 100_000;

/// Tables with the exceptions of the initial basis alone.
fn tables(alloc: Global) -> Result<Tables, NoMemory> {
    let mut initial = Vec::new(alloc);
    for i in 0..7u32 {
        initial.push(Name::standard(i))?;
    }
    Ok(Tables {
        initial,
        strings: Vec::new(alloc),
        types: Vec::new(alloc),
        sets: Vec::new(alloc),
    })
}

/// A program of one function without parameters.
fn program(alloc: Global, body: Exp) -> Result<First, NoMemory> {
    let funs = one(
        alloc,
        Fun {
            params: Vec::new(alloc),
            body,
        },
    )?;
    with_tables(tables(alloc), funs)
}

fn with_tables(tables: Result<Tables, NoMemory>, funs: Vec<Fun>) -> Result<First, NoMemory> {
    match tables {
        Ok(tables) => Ok(First {
            tables,
            funs,
            expansion: 1,
        }),
        Err(e) => Err(e),
    }
}

/// Variable 0 is a number.
fn number(alloc: Global) -> Step {
    Step::Let(
        0,
        Operation::Plain(Plain::Constant(Constant::Int(1)), Vec::new(alloc)),
    )
}

/// Variable i + 1 is what variable i is.
fn same(alloc: Global, i: usize) -> Result<Step, NoMemory>
    requires { i < 1000000 }
{
    let operands = one(alloc, i)?;
    Ok(Step::Let(i + 1, Operation::Plain(Plain::Same, operands)))
}

fn after(alloc: Global, steps: Vec<Step>, variable: usize) -> Result<Exp, NoMemory> {
    let end = boxed(alloc, Exp::Ret(variable))?;
    Ok(Exp::Steps(steps, end))
}

fn many_steps(alloc: Global) -> Result<Exp, NoMemory> {
    let mut steps = Vec::new(alloc);
    steps.push(number(alloc))?;
    for i in 0..MANY {
        let step = same(alloc, i)?;
        steps.push(step)?;
    }
    after(alloc, steps, MANY)
}

fn many_tries(alloc: Global) -> Result<Exp, NoMemory> {
    let mut steps = Vec::new(alloc);
    steps.push(number(alloc))?;
    for _ in 0..MANY {
        let attempt = boxed(alloc, Exp::Miss)?;
        steps.push(Step::Try(attempt))?;
    }
    after(alloc, steps, 0)
}

/// A cell, and a switch on it whose arms give it back.
fn many_arms(alloc: Global) -> Result<Exp, NoMemory> {
    let mut arms = Vec::new(alloc);
    for tag in 0..MANY {
        arms.push(Arm {
            tag,
            body: Exp::Ret(0),
        })?;
    }
    let last = boxed(alloc, Exp::Switch(0, arms))?;
    before_a_miss(alloc, last)
}

/// A cell, an expression that may miss, and what is tried then.
fn before_a_miss(alloc: Global, attempt: Box<Exp>) -> Result<Exp, NoMemory> {
    let cell = Step::Let(0, Operation::Make(1, Vec::new(alloc)));
    let steps = two(alloc, cell, Step::Try(attempt))?;
    after(alloc, steps, 0)
}

/// What the checker says of the SSA form of a program that it says yes of.
fn goes_through(alloc: Global, program: Result<First, NoMemory>) -> Result<Check, PassFault> {
    let before = program?;
    match before.check(alloc) {
        Check::Yes => {
            let made: Ssa = BuildSsa::pass(alloc, before)?;
            Ok(made.check(alloc))
        }
        Check::No => Ok(Check::No),
        Check::Memory => Ok(Check::Memory),
    }
}

/// The same, of any program.
fn is_built(alloc: Global, program: Result<First, NoMemory>) -> Result<Check, PassFault> {
    let before = program?;
    let made = build_program(alloc, before)?;
    Ok(made.check(alloc))
}

fn of_body(alloc: Global, body: Result<Exp, NoMemory>) -> Result<First, NoMemory> {
    match body {
        Ok(body) => program(alloc, body),
        Err(e) => Err(e),
    }
}

const HERE: Place = Place { file: 0, byte: 5 };

/// Calls the program itself, and gives what it gives.
fn call(alloc: Global) -> Result<Exp, NoMemory> {
    let call = Step::Let(3, Operation::Call(HERE, Callee::Known(0), Vec::new(alloc)));
    let steps = one(alloc, call)?;
    after(alloc, steps, 3)
}

fn boxed_call(alloc: Global) -> Result<Box<Exp>, NoMemory> {
    let call = call(alloc)?;
    boxed(alloc, call)
}

/// A call under a handler, which calls too.
fn handled(alloc: Global) -> Result<Step, NoMemory> {
    match both(boxed_call(alloc), boxed_call(alloc)) {
        Ok((body, handler)) => Ok(Step::Handle {
            variable: 4,
            body,
            packet: 5,
            handler,
        }),
        Err(e) => Err(e),
    }
}

/// Goes on where variable 0 is 1, and else calls.
fn tested(alloc: Global) -> Result<Step, NoMemory> {
    let operands = one(alloc, 0)?;
    let other = boxed_call(alloc)?;
    Ok(Step::When(Test::Is(Constant::Int(1)), operands, other))
}

fn calls(alloc: Global) -> Result<Exp, NoMemory> {
    let mut steps = Vec::new(alloc);
    steps.push(number(alloc))?;
    match both(tested(alloc), handled(alloc)) {
        Ok((tested, handled)) => {
            steps.push(tested)?;
            steps.push(handled)?;
            after(alloc, steps, 4)
        }
        Err(e) => Err(e),
    }
}

#[test]
fn calls_go_through(rt: HostRuntime) -> Result<(), Fail> {
    let alloc = rt.alloc();
    assert_eq!(rt;
        goes_through(alloc, of_body(alloc, calls(alloc)))?,
        Check::Yes
    );
    Ok(())
}

#[test]
fn what_is_not_well_formed_is_built_too(rt: HostRuntime) -> Result<(), Fail> {
    let alloc = rt.alloc();
    assert_eq!(rt; is_built(alloc, of_body(alloc, Ok(Exp::Miss)))?, Check::No);
    Ok(())
}

#[test]
fn many_steps_go_through(rt: HostRuntime) -> Result<(), Fail> {
    let alloc = rt.alloc();
    assert_eq!(rt;
        goes_through(alloc, of_body(alloc, many_steps(alloc)))?,
        Check::Yes
    );
    Ok(())
}

#[test]
fn many_tries_go_through(rt: HostRuntime) -> Result<(), Fail> {
    let alloc = rt.alloc();
    assert_eq!(rt;
        goes_through(alloc, of_body(alloc, many_tries(alloc)))?,
        Check::Yes
    );
    Ok(())
}

#[test]
fn many_arms_go_through(rt: HostRuntime) -> Result<(), Fail> {
    let alloc = rt.alloc();
    assert_eq!(rt;
        goes_through(alloc, of_body(alloc, many_arms(alloc)))?,
        Check::Yes
    );
    Ok(())
}

#[test]
fn what_is_not_in_scope_is_refused(rt: HostRuntime) -> Result<(), Fail> {
    let alloc = rt.alloc();
    let body = after(alloc, Vec::new(alloc), 7);
    assert_eq!(rt; goes_through(alloc, of_body(alloc, body))?, Check::No);
    Ok(())
}

#[test]
fn a_body_that_misses_is_refused(rt: HostRuntime) -> Result<(), Fail> {
    let alloc = rt.alloc();
    assert_eq!(rt;
        goes_through(alloc, of_body(alloc, Ok(Exp::Miss)))?,
        Check::No
    );
    Ok(())
}
