// Whether nothing misses that is not to.
ghost use Rattle.std.specs.Prelude.{◌≡◌, ◌↔◌, ◌||◌, map, IsTrue};
ghost use Rattle.std.specs.List.{AllByRecursion};
ghost use Rattle.first_tree.specs.TreeOf.{tree_of, step_of, arm_of, arms_of, fun_of};
ghost use Rattle.first_form.specs.Scoped.{StepHasWhole, StepsHaveWhole, steps_may_miss, step_may_miss};
ghost use Rattle.ir_first.specs.Whole.{IsWhole, HasWhole, ArmsHaveWhole, FunIsWhole, may_miss as may_miss_of};

use first_known::answers::both;
use first_tree::tree::{Arm, Exp, Fun, Step};

/// Whether either is so.
fn either(first: bool, second: bool) -> bool
    ensures { result ≡ (first || second) }
{
    first || second
}

/// Whether an expression may miss.
#[cycle(misses)]
fn may_miss(e: &Exp) -> bool
    ensures { result ≡ may_miss_of (tree_of e.now) }
{
    match e {
        Exp::Steps(steps, rest) => either(any_may_miss(steps), may_miss(rest)),
        Exp::Ret(_) => false,
        Exp::Switch(_, _) => true,
        Exp::Miss => true,
    }
}

/// Whether another way of some tests may miss; a switch is taken to.
#[cycle(misses)]
fn any_may_miss(steps: &[Step]) -> bool
    ensures { result ≡ steps_may_miss (map step_of steps.now) }
{
    let mut any = false;
    for i in 0..steps.len() {
        let step = &steps[i];
        let here = other_may_miss(step);
        any = either(any, here);
    }
    any
}

#[cycle(misses)]
fn other_may_miss(step: &Step) -> bool
    ensures { result ≡ step_may_miss (step_of step.now) }
{
    match step {
        Step::Let(_, _) => false,
        Step::Block(_, _) => false,
        Step::Handle {
            variable: _,
            body: _,
            packet: _,
            handler: _,
        } => false,
        Step::Turn(_) => false,
        Step::Try(_) => false,
        Step::When(_, _, other) => may_miss(other),
        Step::Unless(_, _, other) => may_miss(other),
        Step::Case {
            cell: _,
            tag: _,
            others: _,
        } => true,
    }
}

/// Whether an expression doesn't miss.
fn is_whole(e: &Exp) -> bool
    ensures { IsTrue result ↔ IsWhole (tree_of e.now) }
{
    !may_miss(e)
}

/// Whether nothing inside an expression misses that is not to.
#[cycle(wholes)]
fn has_whole(e: &Exp) -> bool
    ensures { IsTrue result ↔ HasWhole (tree_of e.now) }
{
    match e {
        Exp::Steps(steps, rest) => both(steps_have_whole(steps), has_whole(rest)),
        Exp::Ret(_) => true,
        Exp::Switch(_, arms) => arms_have_whole(arms),
        Exp::Miss => true,
    }
}

#[cycle(wholes)]
fn steps_have_whole(steps: &[Step]) -> bool
    ensures { IsTrue result ↔ StepsHaveWhole (map step_of steps.now) }
{
    let mut all = true;
    for i in 0..steps.len() {
        let step = &steps[i];
        all = both(all, step_has_whole(step));
    }
    all
}

#[cycle(wholes)]
fn step_has_whole(step: &Step) -> bool
    ensures { IsTrue result ↔ StepHasWhole (step_of step.now) }
{
    match step {
        Step::Let(_, _) => true,
        Step::Block(_, body) => both(is_whole(body), has_whole(body)),
        Step::Handle {
            variable: _,
            body,
            packet: _,
            handler,
        } => both(
            both(is_whole(body), has_whole(body)),
            both(is_whole(handler), has_whole(handler)),
        ),
        Step::Turn(_) => true,
        Step::Try(attempt) => has_whole(attempt),
        Step::When(_, _, other) => has_whole(other),
        Step::Unless(_, _, other) => has_whole(other),
        Step::Case {
            cell: _,
            tag: _,
            others,
        } => arms_have_whole(others),
    }
}

#[cycle(wholes)]
fn arms_have_whole(arms: &[Arm]) -> bool
    ensures { IsTrue result ↔ ArmsHaveWhole (arms_of (map arm_of arms.now)) }
{
    let mut all = true;
    for i in 0..arms.len() {
        let arm = &arms[i];
        all = both(all, has_whole(&arm.body));
    }
    all
}

/// Whether no function's body misses, and nothing inside one that is not to.
pub fn are_whole(funs: &[Fun]) -> bool
    ensures { IsTrue result ↔ AllByRecursion FunIsWhole (map fun_of funs.now) }
{
    let mut all = true;
    for i in 0..funs.len() {
        let fun = &funs[i];
        let whole = both(is_whole(&fun.body), has_whole(&fun.body));
        all = both(all, whole);
    }
    all
}
