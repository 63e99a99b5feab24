// Which variables an expression uses that may be of functions around: by a use, and by an exception's name that is brought in.
ghost use Rattle.std.specs.Prelude.{◌≡◌, ◌++◌, map, IfOk};
ghost use Rattle.capture_table.specs.Told.{operation_uses, name_uses, uses_of, steps_use, functions_use, exp_told, step_told, arm_told, function_told};

use mlc_base::memory::NoMemory;
use plain_tree::tree::{Arm, Exception, Exp, Function, Operation, Step};

fn push_of_operation(operation: &Operation, uses: &mut Vec<usize>) -> Result<(), NoMemory>
    ensures { IfOk result (λ _. uses.new.items ≡ uses.old.items ++ operation_uses operation.now) }
{
    match operation {
        Operation::Use(variable, _) => uses.push(*variable)?,
        _ => {}
    }
    Ok(())
}

fn push_of_name(exception: Exception, uses: &mut Vec<usize>) -> Result<(), NoMemory>
    ensures { IfOk result (λ _. uses.new.items ≡ uses.old.items ++ name_uses exception) }
{
    match exception {
        Exception::Held(variable) => uses.push(variable)?,
        Exception::Initial(_) => {}
    }
    Ok(())
}

/// Puts the uses of an expression behind those found before.
#[cycle(uses)]
pub fn push_uses(e: &Exp, uses: &mut Vec<usize>) -> Result<(), NoMemory>
    ensures { IfOk result (λ _. uses.new.items ≡ uses.old.items ++ (exp_told e.now).uses) }
{
    match e {
        Exp::Steps(steps, rest) => {
            push_of_steps(steps, uses)?;
            push_uses(rest, uses)?;
        }
        Exp::Ret(_) => {}
        Exp::Switch {
            atom: _,
            ty: _,
            arms,
        } => push_of_arms(arms, uses)?,
        Exp::First(attempts, last) => {
            push_of_all(attempts, uses)?;
            push_uses(last, uses)?;
        }
        Exp::Miss => {}
    }
    Ok(())
}

#[cycle(uses)]
fn push_of_step(step: &Step, uses: &mut Vec<usize>) -> Result<(), NoMemory>
    ensures { IfOk result (λ _. uses.new.items ≡ uses.old.items ++ (step_told step.now).uses) }
{
    match step {
        Step::Let(_, operation) => push_of_operation(operation, uses)?,
        Step::Fn {
            binding: _,
            parameters: _,
            last: _,
            body,
        } => push_uses(body, uses)?,
        Step::Block(_, body) => push_uses(body, uses)?,
        Step::Handle {
            binding: _,
            body,
            packet: _,
            handler,
        } => {
            push_uses(body, uses)?;
            push_uses(handler, uses)?;
        }
        Step::Exception {
            variable: _,
            identifier: _,
            argument: _,
        } => {}
        Step::Name(_, exception) => push_of_name(*exception, uses)?,
        Step::Group(_, functions) => push_of_functions(functions, uses)?,
        Step::Test {
            atom: _,
            ty: _,
            case: _,
            others,
        } => push_of_arms(others, uses)?,
        Step::Counted(_) => {}
    }
    Ok(())
}

#[cycle(uses)]
fn push_of_steps(steps: &[Step], uses: &mut Vec<usize>) -> Result<(), NoMemory>
    ensures { IfOk result (λ _. uses.new.items ≡ uses.old.items ++ steps_use (map step_told steps.now)) }
{
    for i in 0..steps.len() {
        let step = &steps[i];
        push_of_step(step, uses)?;
    }
    Ok(())
}

#[cycle(uses)]
fn push_of_all(attempts: &[Exp], uses: &mut Vec<usize>) -> Result<(), NoMemory>
    ensures { IfOk result (λ _. uses.new.items ≡ uses.old.items ++ uses_of (map exp_told attempts.now)) }
{
    for i in 0..attempts.len() {
        let attempt = &attempts[i];
        push_uses(attempt, uses)?;
    }
    Ok(())
}

#[cycle(uses)]
fn push_of_arms(arms: &[Arm], uses: &mut Vec<usize>) -> Result<(), NoMemory>
    ensures { IfOk result (λ _. uses.new.items ≡ uses.old.items ++ uses_of (map arm_told arms.now)) }
{
    for i in 0..arms.len() {
        let arm = &arms[i];
        push_of_arm(arm, uses)?;
    }
    Ok(())
}

#[cycle(uses)]
fn push_of_arm(arm: &Arm, uses: &mut Vec<usize>) -> Result<(), NoMemory>
    ensures { IfOk result (λ _. uses.new.items ≡ uses.old.items ++ (arm_told arm.now).uses) }
{
    push_uses(&arm.body, uses)?;
    Ok(())
}

/// Those of the functions of a group.
#[cycle(uses)]
pub fn push_of_functions(functions: &[Function], uses: &mut Vec<usize>) -> Result<(), NoMemory>
    ensures { IfOk result (λ _. uses.new.items ≡ uses.old.items ++ functions_use (map function_told functions.now)) }
{
    for i in 0..functions.len() {
        let function = &functions[i];
        push_of_function(function, uses)?;
    }
    Ok(())
}

#[cycle(uses)]
fn push_of_function(function: &Function, uses: &mut Vec<usize>) -> Result<(), NoMemory>
    ensures { IfOk result (λ _. uses.new.items ≡ uses.old.items ++ (function_told function.now).uses) }
{
    push_uses(&function.body, uses)?;
    Ok(())
}
