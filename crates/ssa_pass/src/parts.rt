// Parts of the SSA form, made of parts that are there.
ghost use Rattle.std.specs.Prelude.{◌≡◌, ◌&&◌, ℕ, suc, map, [], ◌∷◌, IfOk, IsOk};
ghost use Rattle.ir_ssa.specs.Tree as s;
ghost use Rattle.ssa_tree.specs.TreeOf as target;
ghost use Rattle.first_tree.specs.TreeOf as source;
ghost use Rattle.first_tables.specs.TablesOf.{callee_of};
ghost use Rattle.ssa_build.specs.Build as b;
ghost use Rattle.ssa_pass.specs.Built.{exit_of, before_rest, ends_with};

use first_tables::operation::Callee;
use first_tree::tree as first;
use mlc_base::make::{both, boxed, one};
use mlc_base::memory::NoMemory;
use mlc_base::place::Place;
use ssa_tree::tree::{Arm, Body, Step};
use std::alloc::Global;

/// Where the value of an expression goes: out of the function, or to a label.
#[derive(Clone, Copy)]
pub enum Exit {
    Returns,
    Joins(usize),
}

/// What a step becomes: a step before the rest, or all that is left to do, with nothing after it.
#[derive(Drop)]
pub enum Built {
    Step(Step),
    Whole(Body),
}

/// The number of a label under one more. No memory holds a program that is nested so deep that there is none.
pub fn above(label: usize) -> Result<usize, NoMemory>
    ensures { IfOk result (λ next. next ≡ suc label) }
{
    match label.checked_add(1) {
        Some(next) => Ok(next),
        None => Err(NoMemory),
    }
}

/// The same exit under one more label.
pub fn under(exit: Exit) -> Result<Exit, NoMemory>
    ensures { IfOk result (λ inner. exit_of inner ≡ b.under (exit_of exit)) }
{
    match exit {
        Exit::Returns => Ok(Exit::Returns),
        Exit::Joins(label) => {
            let next = above(label)?;
            Ok(Exit::Joins(next))
        }
    }
}

/// Where the value of a handler goes: a handler's own tail calls are the function's.
pub fn handler_exit(last: bool, exit: Exit) -> Result<Exit, NoMemory>
    ensures { IfOk result (λ inner. exit_of inner ≡ b.handler_exit last (exit_of exit)) }
{
    if last {
        under(exit)
    } else {
        Ok(Exit::Joins(0))
    }
}

/// Gives the value of a variable to where it goes.
pub fn leave(alloc: Global, exit: Exit, variable: usize) -> Result<Body, NoMemory>
    ensures { IfOk result (λ body. target.tree_of body ≡ b.leave (exit_of exit) variable) }
{
    match exit {
        Exit::Returns => Ok(Body::Ret(variable)),
        Exit::Joins(label) => {
            let values = one(alloc, variable)?;
            Ok(Body::Goto(label, values))
        }
    }
}

/// Whether an expression only gives the value of a variable.
pub fn gives_back(variable: usize, rest: &first::Exp) -> bool
    ensures { result ≡ b.is_last variable (source.tree_of rest.now) }
{
    match rest {
        first::Exp::Steps(steps, rest) => if steps.is_empty() {
            gives_back(variable, rest)
        } else {
            false
        },
        first::Exp::Ret(given) => *given == variable,
        first::Exp::Switch(_, _) => false,
        first::Exp::Miss => false,
    }
}

/// Whether the rest only gives the value that a step binds.
pub fn is_last(step: &first::Step, rest: &first::Exp) -> bool
    ensures { result ≡ ends_with (source.step_of step.now) (source.tree_of rest.now) }
{
    match step {
        first::Step::Let(variable, _) => gives_back(*variable, rest),
        first::Step::Block(variable, _) => gives_back(*variable, rest),
        first::Step::Handle {
            variable,
            body: _,
            packet: _,
            handler: _,
        } => gives_back(*variable, rest),
        first::Step::Turn(_) => false,
        first::Step::Try(_) => false,
        first::Step::When(_, _, _) => false,
        first::Step::Unless(_, _, _) => false,
        first::Step::Case {
            cell: _,
            tag: _,
            others: _,
        } => false,
    }
}

/// Whether both are so.
pub fn both_hold(first: bool, second: bool) -> bool
    ensures { result ≡ (first && second) }
{
    first && second
}

/// A call, or a tail call where the function only gives its value.
fn call_or_tail(
    exit: Exit,
    last: bool,
    place: Place,
    callee: Callee,
    operands: Vec<usize>,
    variable: usize,
) -> Built
    ensures { (rest : s.Body) → before_rest result rest ≡ b.call_or_tail (exit_of exit) last place (callee_of callee) operands.items variable rest }
{
    match exit {
        Exit::Returns => {
            if last {
                Built::Whole(Body::Tail(place, callee, operands))
            } else {
                Built::Step(Step::Call(place, callee, operands, variable))
            }
        }
        Exit::Joins(_) => Built::Step(Step::Call(place, callee, operands, variable)),
    }
}

/// An operation whose value is bound.
pub fn build_operation(
    alloc: Global,
    exit: Exit,
    miss: usize,
    last: bool,
    variable: usize,
    operation: &first::Operation,
) -> Result<Built, NoMemory>
    ensures { IfOk result (λ made. (rest : s.Body)
        → before_rest made rest ≡ b.build_op (exit_of exit) miss variable (source.operation_of operation.now) last rest) }
{
    match operation {
        first::Operation::Plain(plain, operands) => {
            let operands = Vec::from_slice(alloc, operands)?;
            Ok(Built::Step(Step::Plain(*plain, operands, variable)))
        }
        first::Operation::Make(tag, pieces) => {
            let pieces = Vec::from_slice(alloc, pieces)?;
            Ok(Built::Step(Step::Make(*tag, pieces, variable)))
        }
        first::Operation::Attempt(kind, primitive, operands) => {
            let operands = Vec::from_slice(alloc, operands)?;
            let raised = boxed(alloc, Body::Raise(variable))?;
            Ok(Built::Step(Step::Attempt(*kind, *primitive, operands, variable, raised)))
        }
        first::Operation::Call(place, callee, operands) => {
            let operands = Vec::from_slice(alloc, operands)?;
            Ok(call_or_tail(exit, last, *place, *callee, operands, variable))
        }
        first::Operation::Raise(packet) => Ok(Built::Whole(Body::Raise(*packet))),
    }
}

/// A label with these parameters, which is the rest, and this before it.
pub fn labelled(alloc: Global, params: Vec<usize>, body: Body) -> Result<Built, NoMemory>
    ensures { IfOk result (λ made. (rest : s.Body) → before_rest made rest ≡ s.label params.items rest (target.tree_of body)) }
{
    let body = boxed(alloc, body)?;
    Ok(Built::Step(Step::Label(params, body)))
}

/// A body under a handler, before a label with one parameter.
pub fn guarded(
    alloc: Global,
    params: Vec<usize>,
    body: Body,
    packet: usize,
    handler: Body,
) -> Result<Built, NoMemory>
    ensures { IfOk result (λ made. (rest : s.Body)
        → before_rest made rest ≡ s.label params.items rest (s.guard 0 (target.tree_of body) packet (target.tree_of handler))) }
{
    match both(boxed(alloc, body), boxed(alloc, handler)) {
        Ok((body, handler)) => labelled(
            alloc,
            params,
            Body::Guard {
                label: 0,
                body,
                packet,
                handler,
            },
        ),
        Err(e) => Err(e),
    }
}

/// A switch whose other arms are these; the last goes to a label.
pub fn switched(alloc: Global, cell: usize, arms: Vec<Arm>, miss: usize) -> Result<Body, NoMemory>
    ensures { IfOk result (λ body. target.tree_of body ≡ s.switch cell (target.bodies_of (map target.arm_of arms.items) (s.goto miss []))) }
{
    let last = boxed(alloc, Body::Goto(miss, Vec::new(alloc)))?;
    Ok(Body::Switch(cell, arms, last))
}

/// A switch whose first arm is the rest.
pub fn cased(
    alloc: Global,
    cell: usize,
    tag: usize,
    others: Vec<Arm>,
    miss: usize,
) -> Result<Built, NoMemory>
    ensures { IfOk result (λ made. (rest : s.Body)
        → before_rest made rest ≡ s.switch cell (s.arm tag rest (target.bodies_of (map target.arm_of others.items) (s.goto miss [])))) }
{
    let last = boxed(alloc, Body::Goto(miss, Vec::new(alloc)))?;
    Ok(Built::Step(Step::Case {
        cell,
        tag,
        others,
        last,
    }))
}

/// Steps before a body, if it could be made.
pub fn finish(
    alloc: Global,
    steps: Vec<Step>,
    body: Result<Body, NoMemory>,
) -> Result<Body, NoMemory>
    ensures tree { IfOk result (λ whole. IfOk body (λ end. target.tree_of whole ≡ target.onto (map target.step_of steps.items) (target.tree_of end))) }
    ensures made { IfOk result (λ _. IsOk body) }
{
    match body {
        Ok(body) => {
            if steps.is_empty() {
                Ok(body)
            } else {
                let body = boxed(alloc, body)?;
                Ok(Body::Steps(steps, body))
            }
        }
        Err(e) => Err(e),
    }
}
