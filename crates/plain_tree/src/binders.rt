// The variables that a tree binds.
ghost use Rattle.std.specs.Prelude.{◌≡◌, ◌++◌, ◌∷◌, map, IfOk};
ghost use Rattle.plain_tree.specs.Sums.{binders_of, step_binders, arm_binders, function_binders, case_binders, variables_of, joined};

use crate::tree::{Arm, Case, Exp, Function, Parameter, Step};
use mlc_base::memory::NoMemory;

/// Puts the variables that a tree binds behind those found before.
#[cycle(binders)]
pub fn push_binders(e: &Exp, found: &mut Vec<usize>) -> Result<(), NoMemory>
    ensures { IfOk result (λ _. found.new.items ≡ found.old.items ++ binders_of e.now) }
{
    match e {
        Exp::Steps(steps, rest) => {
            push_of_steps(steps, found)?;
            push_binders(rest, found)?;
        }
        Exp::Ret(_) => {}
        Exp::Switch {
            atom: _,
            ty: _,
            arms,
        } => push_of_arms(arms, found)?,
        Exp::First(attempts, last) => {
            push_of_all(attempts, found)?;
            push_binders(last, found)?;
        }
        Exp::Miss => {}
    }
    Ok(())
}

fn push_parameters(parameters: &[Parameter], found: &mut Vec<usize>) -> Result<(), NoMemory>
    ensures { IfOk result (λ _. found.new.items ≡ found.old.items ++ variables_of parameters.now) }
{
    for i in 0..parameters.len() {
        let parameter = &parameters[i];
        found.push(parameter.variable)?;
    }
    Ok(())
}

fn push_of_case(case: Case, found: &mut Vec<usize>) -> Result<(), NoMemory>
    ensures { IfOk result (λ _. found.new.items ≡ found.old.items ++ case_binders case) }
{
    match case {
        Case::ConstructorOf {
            constructor: _,
            argument,
        } => found.push(argument.variable)?,
        Case::ExceptionOf {
            exception: _,
            argument,
        } => found.push(argument.variable)?,
        Case::Constant(_) => {}
        Case::Constructor(_) => {}
        Case::Exception(_) => {}
        Case::Record(_) => {}
    }
    Ok(())
}

#[cycle(binders)]
fn push_of_step(step: &Step, found: &mut Vec<usize>) -> Result<(), NoMemory>
    ensures { IfOk result (λ _. found.new.items ≡ found.old.items ++ step_binders step.now) }
{
    match step {
        Step::Let(binding, _) => found.push(binding.variable)?,
        Step::Fn {
            binding,
            parameters,
            last,
            body,
        } => {
            found.push(binding.variable)?;
            push_parameters(parameters, found)?;
            found.push(last.variable)?;
            push_binders(body, found)?;
        }
        Step::Block(binding, body) => {
            found.push(binding.variable)?;
            push_binders(body, found)?;
        }
        Step::Handle {
            binding,
            body,
            packet,
            handler,
        } => {
            found.push(binding.variable)?;
            push_binders(body, found)?;
            found.push(*packet)?;
            push_binders(handler, found)?;
        }
        Step::Exception {
            variable,
            identifier: _,
            argument: _,
        } => found.push(*variable)?,
        Step::Name(variable, _) => found.push(*variable)?,
        Step::Group(_, functions) => push_of_functions(functions, found)?,
        Step::Test {
            atom: _,
            ty: _,
            case,
            others,
        } => {
            push_of_case(*case, found)?;
            push_of_arms(others, found)?;
        }
        Step::Counted(_) => {}
    }
    Ok(())
}

#[cycle(binders)]
fn push_of_steps(steps: &[Step], found: &mut Vec<usize>) -> Result<(), NoMemory>
    ensures { IfOk result (λ _. found.new.items ≡ found.old.items ++ joined (map step_binders steps.now)) }
{
    for i in 0..steps.len() {
        let step = &steps[i];
        push_of_step(step, found)?;
    }
    Ok(())
}

#[cycle(binders)]
fn push_of_all(attempts: &[Exp], found: &mut Vec<usize>) -> Result<(), NoMemory>
    ensures { IfOk result (λ _. found.new.items ≡ found.old.items ++ joined (map binders_of attempts.now)) }
{
    for i in 0..attempts.len() {
        let attempt = &attempts[i];
        push_binders(attempt, found)?;
    }
    Ok(())
}

#[cycle(binders)]
fn push_of_arms(arms: &[Arm], found: &mut Vec<usize>) -> Result<(), NoMemory>
    ensures { IfOk result (λ _. found.new.items ≡ found.old.items ++ joined (map arm_binders arms.now)) }
{
    for i in 0..arms.len() {
        let arm = &arms[i];
        push_of_arm(arm, found)?;
    }
    Ok(())
}

#[cycle(binders)]
fn push_of_functions(functions: &[Function], found: &mut Vec<usize>) -> Result<(), NoMemory>
    ensures { IfOk result (λ _. found.new.items ≡ found.old.items ++ joined (map function_binders functions.now)) }
{
    for i in 0..functions.len() {
        let function = &functions[i];
        push_of_function(function, found)?;
    }
    Ok(())
}

#[cycle(binders)]
fn push_of_arm(arm: &Arm, found: &mut Vec<usize>) -> Result<(), NoMemory>
    ensures { IfOk result (λ _. found.new.items ≡ found.old.items ++ arm_binders arm.now) }
{
    push_of_case(arm.case, found)?;
    push_binders(&arm.body, found)?;
    Ok(())
}

#[cycle(binders)]
fn push_of_function(function: &Function, found: &mut Vec<usize>) -> Result<(), NoMemory>
    ensures { IfOk result (λ _. found.new.items ≡ found.old.items ++ function_binders function.now) }
{
    found.push(function.variable)?;
    push_parameters(&function.parameters, found)?;
    found.push(function.last.variable)?;
    push_binders(&function.body, found)?;
    Ok(())
}
