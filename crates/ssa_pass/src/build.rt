// Builds the SSA form of expressions and functions.
ghost use Rattle.std.specs.Prelude.{◌≡◌, ◌++◌, ℕ, suc, map, [], ◌∷◌, IfOk};
ghost use Rattle.ir_first.specs.Tree as f;
ghost use Rattle.ir_ssa.specs.Tree as s;
ghost use Rattle.first_tree.specs.TreeOf as source;
ghost use Rattle.ssa_tree.specs.TreeOf as target;
ghost use Rattle.ssa_build.specs.Build as b;
ghost use Rattle.ssa_pass.specs.Built.{exit_of, before_rest, ended, ends_with, build_arm};

use crate::parts::{
    Built, Exit, above, both_hold, build_operation, cased, finish, guarded, handler_exit, is_last,
    labelled, leave, switched, under,
};
use first_tree::tree as first;
use mlc_base::make::{both, boxed, one};
use mlc_base::memory::NoMemory;
use ssa_tree::tree::{Arm, Body, Fun, Step};
use std::alloc::Global;

/// An expression: its steps are put behind those that are there, and what comes of them is the result.
#[cycle(build)]
fn build_onto(
    alloc: Global,
    exit: Exit,
    miss: usize,
    e: &first::Exp,
    steps: &mut Vec<Step>,
) -> Result<Body, NoMemory>
    ensures { IfOk result (λ end. target.onto (map target.step_of steps.new.items) (target.tree_of end)
        ≡ target.onto (map target.step_of steps.old.items) (b.build (exit_of exit) miss (source.tree_of e.now))) }
{
    match e {
        first::Exp::Steps(before, rest) => match build_steps(
            alloc, exit, miss, before, rest, steps,
        )? {
            Some(end) => Ok(end),
            None => build_onto(alloc, exit, miss, rest, steps),
        },
        first::Exp::Ret(variable) => leave(alloc, exit, *variable),
        first::Exp::Switch(cell, arms) => {
            let mut made = Vec::new(alloc);
            match build_arms(alloc, exit, miss, arms, &mut made) {
                Ok(()) => switched(alloc, *cell, made, miss),
                Err(e) => Err(e),
            }
        }
        first::Exp::Miss => Ok(Body::Goto(miss, Vec::new(alloc))),
    }
}

/// Steps, before an expression: they are put behind those that are there. Some body where nothing is left to do after it.
#[cycle(build)]
fn build_steps(
    alloc: Global,
    exit: Exit,
    miss: usize,
    before: &[first::Step],
    rest: &first::Exp,
    steps: &mut Vec<Step>,
) -> Result<Option<Body>, NoMemory>
    ensures { IfOk result (λ found. target.onto (map target.step_of steps.new.items) (ended found (b.build (exit_of exit) miss (source.tree_of rest.now)))
        ≡ target.onto (map target.step_of steps.old.items)
        (b.build (exit_of exit) miss (source.onto (map source.step_of before.now) (source.tree_of rest.now)))) }
{
    for i in 0..before.len() {
        let step = &before[i];
        let last = both_hold(i + 1 == before.len(), is_last(step, rest));
        match build_step(alloc, exit, miss, step, last)? {
            Built::Step(made) => steps.push(made)?,
            Built::Whole(end) => return Ok(Some(end)),
        }
    }
    Ok(None)
}

#[cycle(build)]
fn build(alloc: Global, exit: Exit, miss: usize, e: &first::Exp) -> Result<Body, NoMemory>
    ensures { IfOk result (λ body. target.tree_of body ≡ b.build (exit_of exit) miss (source.tree_of e.now)) }
{
    let mut steps = Vec::new(alloc);
    let end = build_onto(alloc, exit, miss, e, &mut steps);
    finish(alloc, steps, end)
}

/// A step before an expression of which it is known whether it only gives the value that the step binds.
#[cycle(build)]
fn build_step(
    alloc: Global,
    exit: Exit,
    miss: usize,
    step: &first::Step,
    last: bool,
) -> Result<Built, NoMemory>
    ensures { IfOk result (λ made. (e : f.Exp) → last ≡ ends_with (source.step_of step.now) e
        → before_rest made (b.build (exit_of exit) miss e) ≡ b.build (exit_of exit) miss (source.put (source.step_of step.now) e)) }
{
    match step {
        first::Step::Let(variable, operation) => build_operation(
            alloc, exit, miss, last, *variable, operation,
        ),
        first::Step::Block(variable, body) => build_block(alloc, exit, miss, last, *variable, body),
        first::Step::Handle {
            variable,
            body,
            packet,
            handler,
        } => {
            let params = one(alloc, *variable)?;
            let inner = handler_exit(last, exit)?;
            let outside = above(miss)?;
            match both(
                build(alloc, Exit::Joins(0), 1, body),
                build(alloc, inner, outside, handler),
            ) {
                Ok((body, handler)) => guarded(alloc, params, body, *packet, handler),
                Err(e) => Err(e),
            }
        }
        first::Step::Turn(place) => Ok(Built::Step(Step::Turn(*place))),
        first::Step::Try(attempt) => {
            let inner = under(exit)?;
            let body = build(alloc, inner, 0, attempt)?;
            labelled(alloc, Vec::new(alloc), body)
        }
        first::Step::When(test, operands, other) => {
            let operands = Vec::from_slice(alloc, operands)?;
            let other = build_boxed(alloc, exit, miss, other)?;
            Ok(Built::Step(Step::When(*test, operands, other)))
        }
        first::Step::Unless(test, operands, other) => {
            let operands = Vec::from_slice(alloc, operands)?;
            let other = build_boxed(alloc, exit, miss, other)?;
            Ok(Built::Step(Step::Unless(*test, operands, other)))
        }
        first::Step::Case { cell, tag, others } => {
            let mut made = Vec::new(alloc);
            match build_arms(alloc, exit, miss, others, &mut made) {
                Ok(()) => cased(alloc, *cell, *tag, made, miss),
                Err(e) => Err(e),
            }
        }
    }
}

#[cycle(build)]
fn build_boxed(
    alloc: Global,
    exit: Exit,
    miss: usize,
    e: &first::Exp,
) -> Result<Box<Body>, NoMemory>
    ensures { IfOk result (λ body. target.tree_of body.value ≡ b.build (exit_of exit) miss (source.tree_of e.now)) }
{
    let body = build(alloc, exit, miss, e)?;
    boxed(alloc, body)
}

/// A block whose value is bound.
#[cycle(build)]
fn build_block(
    alloc: Global,
    exit: Exit,
    miss: usize,
    last: bool,
    variable: usize,
    e: &first::Exp,
) -> Result<Built, NoMemory>
    ensures { IfOk result (λ made. (rest : s.Body)
        → before_rest made rest ≡ b.build_op (exit_of exit) miss variable (f.block (source.tree_of e.now)) last rest) }
{
    if last {
        let body = build(alloc, exit, miss, e)?;
        return Ok(Built::Whole(body));
    }
    let params = one(alloc, variable)?;
    let outside = above(miss)?;
    let body = build(alloc, Exit::Joins(0), outside, e)?;
    labelled(alloc, params, body)
}

#[cycle(build)]
fn build_arms(
    alloc: Global,
    exit: Exit,
    miss: usize,
    arms: &[first::Arm],
    made: &mut Vec<Arm>,
) -> Result<(), NoMemory>
    ensures { IfOk result (λ _. map target.arm_of made.new.items
        ≡ map target.arm_of made.old.items ++ map (build_arm (exit_of exit) miss) (map source.arm_of arms.now)) }
{
    for i in 0..arms.len() {
        let body = build(alloc, exit, miss, &arms[i].body)?;
        made.push(Arm {
            tag: arms[i].tag,
            body,
        })?;
    }
    Ok(())
}

fn build_fun(alloc: Global, fun: &first::Fun) -> Result<Fun, NoMemory>
    ensures { IfOk result (λ made. target.fun_of made ≡ b.build_fun (source.fun_of fun.now)) }
{
    let params = Vec::from_slice(alloc, &fun.params)?;
    let body = build(alloc, Exit::Returns, 0, &fun.body)?;
    Ok(Fun { params, body })
}

/// The SSA form of some functions.
pub fn build_funs(alloc: Global, funs: &[first::Fun]) -> Result<Vec<Fun>, NoMemory>
    ensures { IfOk result (λ made. map target.fun_of made.items ≡ map b.build_fun (map source.fun_of funs.now)) }
{
    let mut made = Vec::new(alloc);
    for i in 0..funs.len() {
        let fun = build_fun(alloc, &funs[i])?;
        made.push(fun)?;
    }
    Ok(made)
}
