// How many nodes of the source a tree stands for.
ghost use Rattle.std.specs.Prelude.{◌≡◌, ◌^◌, ◌-◌, ◌+◌, map, min, sum};
ghost use Rattle.plain_tree.specs.Sums.{weight_of, step_weight, arm_weight, function_weight};

use crate::tree::{Arm, Exp, Function, Step};

/// The sum of a tree's weights, or 2^64 - 1 where it is more.
#[cycle(nodes)]
pub fn nodes(e: &Exp) -> usize
    ensures { result ≡ min (weight_of e.now) (2 ^ 64 - 1) }
{
    match e {
        Exp::Steps(steps, rest) => nodes_of_steps(steps).saturating_add(nodes(rest)),
        Exp::Ret(_) => 0,
        Exp::Switch {
            atom: _,
            ty: _,
            arms,
        } => nodes_of_arms(arms),
        Exp::First(attempts, last) => nodes_of_all(attempts).saturating_add(nodes(last)),
        Exp::Miss => 0,
    }
}

#[cycle(nodes)]
fn nodes_of_step(step: &Step) -> usize
    ensures { result ≡ min (step_weight step.now) (2 ^ 64 - 1) }
{
    match step {
        Step::Let(_, _) => 0,
        Step::Fn {
            binding: _,
            parameters: _,
            last: _,
            body,
        } => nodes(body),
        Step::Block(_, body) => nodes(body),
        Step::Handle {
            binding: _,
            body,
            packet: _,
            handler,
        } => { nodes(body).saturating_add(nodes(handler)) }
        Step::Exception {
            variable: _,
            identifier: _,
            argument: _,
        } => 0,
        Step::Name(_, _) => 0,
        Step::Group(_, functions) => nodes_of_functions(functions),
        Step::Test {
            atom: _,
            ty: _,
            case: _,
            others,
        } => nodes_of_arms(others),
        Step::Counted(more) => *more,
    }
}

#[cycle(nodes)]
fn nodes_of_steps(steps: &[Step]) -> usize
    ensures { result ≡ min (sum (map step_weight steps.now)) (2 ^ 64 - 1) }
{
    let mut total: usize = 0;
    for i in 0..steps.len() {
        let step = &steps[i];
        total = total.saturating_add(nodes_of_step(step));
    }
    total
}

#[cycle(nodes)]
fn nodes_of_all(attempts: &[Exp]) -> usize
    ensures { result ≡ min (sum (map weight_of attempts.now)) (2 ^ 64 - 1) }
{
    let mut total: usize = 0;
    for i in 0..attempts.len() {
        let attempt = &attempts[i];
        total = total.saturating_add(nodes(attempt));
    }
    total
}

#[cycle(nodes)]
fn nodes_of_arms(arms: &[Arm]) -> usize
    ensures { result ≡ min (sum (map arm_weight arms.now)) (2 ^ 64 - 1) }
{
    let mut total: usize = 0;
    for i in 0..arms.len() {
        let arm = &arms[i];
        total = total.saturating_add(nodes(&arm.body));
    }
    total
}

#[cycle(nodes)]
fn nodes_of_functions(functions: &[Function]) -> usize
    ensures { result ≡ min (sum (map function_weight functions.now)) (2 ^ 64 - 1) }
{
    let mut total: usize = 0;
    for i in 0..functions.len() {
        let function = &functions[i];
        total = total.saturating_add(nodes(&function.body));
    }
    total
}
