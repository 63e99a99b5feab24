// What a program binds, in order.
ghost use Rattle.std.specs.Prelude.{◌≡◌, ◌++◌, ◌∷◌, [], map, IfOk};
ghost use Rattle.ty_core.specs.TypesOf.{head_of};
ghost use Rattle.flow_sets.specs.of_ir_mono.Types.{node, node_at};
ghost use Rattle.flow_sets.specs.ByType.{gives};
ghost use Rattle.mono_bound.specs.Bound.{gives_of, a_value, a_name, case_bound, parameters_bound, exp_bound, step_bound, arm_bound, function_bound, joined, fronts, backs};

use mlc_base::memory::NoMemory;
use mono_types::types::{Types, View};
use plain_tree::tree::{Arm, Case, Exp, Function, Parameter, Step};
use ty_core::ty::Head;

/// What a variable is: a value of a type, the name of an exception, or the parameter of a function of a type.
#[derive(Clone, Copy)]
pub enum What {
    Value(usize),
    Name,
    Parameter(usize),
}

/// A variable that a program binds.
#[derive(Clone, Copy)]
pub struct Bound {
    pub variable: usize,
    pub what: What,
}

/// What a function gives, whose parts these are; nothing where it is none.
fn given_by(head: &Head, parts: &[usize], nothing: usize) -> usize
    ensures { result ≡ gives_of nothing (node (head_of head.now) parts.now) }
{
    match head {
        Head::Function => if parts.len() == 2 { parts[1] } else { nothing },
        Head::Named(_) => nothing,
        Head::Record(_) => nothing,
    }
}

/// What functions of a type give; the number of no type where it has none.
pub fn given_at(types: &Types, ty: usize) -> usize
    ensures { result ≡ gives types.now (node_at types.now ty) }
{
    match types.view(ty) {
        View::Nothing => types.len(),
        View::Apply(head, parts) => given_by(head, parts, types.len()),
    }
}

fn push_value(variable: usize, ty: usize, found: &mut Vec<Bound>) -> Result<(), NoMemory>
    ensures { IfOk result (λ _. found.new.items ≡ found.old.items ++ a_value variable ty ∷ []) }
{
    found.push(Bound {
        variable,
        what: What::Value(ty),
    })?;
    Ok(())
}

fn push_name(variable: usize, found: &mut Vec<Bound>) -> Result<(), NoMemory>
    ensures { IfOk result (λ _. found.new.items ≡ found.old.items ++ a_name variable ∷ []) }
{
    found.push(Bound {
        variable,
        what: What::Name,
    })?;
    Ok(())
}

fn push_case(case: Case, found: &mut Vec<Bound>) -> Result<(), NoMemory>
    ensures { IfOk result (λ _. found.new.items ≡ found.old.items ++ case_bound case) }
{
    match case {
        Case::ConstructorOf {
            constructor: _,
            argument,
        } => push_value(argument.variable, argument.ty, found)?,
        Case::ExceptionOf {
            exception: _,
            argument,
        } => push_value(argument.variable, argument.ty, found)?,
        Case::Constant(_) => {}
        Case::Constructor(_) => {}
        Case::Exception(_) => {}
        Case::Record(_) => {}
    }
    Ok(())
}

/// The parameters of a function of a type.
fn push_parameters(
    types: &Types,
    ty: usize,
    parameters: &[Parameter],
    last: Parameter,
    found: &mut Vec<Bound>,
) -> Result<(), NoMemory>
    ensures { IfOk result (λ _. found.new.items ≡ found.old.items ++ parameters_bound types.now ty parameters.now last) }
{
    let mut function = ty;
    for i in 0..parameters.len() {
        found.push(Bound {
            variable: parameters[i].variable,
            what: What::Parameter(function),
        })?;
        function = given_at(types, function);
    }
    found.push(Bound {
        variable: last.variable,
        what: What::Parameter(function),
    })?;
    Ok(())
}

/// Puts what an expression binds behind what was found before.
#[cycle(bound)]
pub fn push_bound(types: &Types, e: &Exp, found: &mut Vec<Bound>) -> Result<(), NoMemory>
    ensures { IfOk result (λ _. found.new.items ≡ found.old.items ++ exp_bound types.now e.now) }
{
    match e {
        Exp::Steps(steps, rest) => {
            push_before(types, steps, found)?;
            push_bound(types, rest, found)?;
            push_after(types, steps, found)?;
        }
        Exp::Ret(_) => {}
        Exp::Switch {
            atom: _,
            ty: _,
            arms,
        } => push_arms(types, arms, found)?,
        Exp::First(attempts, last) => {
            push_all(types, attempts, found)?;
            push_bound(types, last, found)?;
        }
        Exp::Miss => {}
    }
    Ok(())
}

/// What steps bind, but for the other arms of their tests.
#[cycle(bound)]
fn push_before(types: &Types, steps: &[Step], found: &mut Vec<Bound>) -> Result<(), NoMemory>
    ensures { IfOk result (λ _. found.new.items ≡ found.old.items ++ fronts (map (step_bound types.now) steps.now)) }
{
    for i in 0..steps.len() {
        let step = &steps[i];
        push_step(types, step, found)?;
    }
    Ok(())
}

/// What the other arms of tests bind, those of the last test first.
#[cycle(bound)]
fn push_after(types: &Types, steps: &[Step], found: &mut Vec<Bound>) -> Result<(), NoMemory>
    ensures { IfOk result (λ _. found.new.items ≡ found.old.items ++ backs (map (step_bound types.now) steps.now)) }
{
    let mut left = steps.len();
    while left > 0 {
        left -= 1;
        let step = &steps[left];
        push_others(types, step, found)?;
    }
    Ok(())
}

#[cycle(bound)]
fn push_step(types: &Types, step: &Step, found: &mut Vec<Bound>) -> Result<(), NoMemory>
    ensures { IfOk result (λ _. found.new.items ≡ found.old.items ++ (step_bound types.now step.now).front) }
{
    match step {
        Step::Let(binding, _) => push_value(binding.variable, binding.ty, found)?,
        Step::Fn {
            binding,
            parameters,
            last,
            body,
        } => {
            push_value(binding.variable, binding.ty, found)?;
            push_parameters(types, binding.ty, parameters, *last, found)?;
            push_bound(types, body, found)?;
        }
        Step::Block(binding, body) => {
            push_value(binding.variable, binding.ty, found)?;
            push_bound(types, body, found)?;
        }
        Step::Handle {
            binding,
            body,
            packet,
            handler,
        } => {
            push_value(binding.variable, binding.ty, found)?;
            push_value(*packet, types.len(), found)?;
            push_bound(types, body, found)?;
            push_bound(types, handler, found)?;
        }
        Step::Exception {
            variable,
            identifier: _,
            argument: _,
        } => push_name(*variable, found)?,
        Step::Name(variable, _) => push_name(*variable, found)?,
        Step::Group(_, functions) => push_functions(types, functions, found)?,
        Step::Test {
            atom: _,
            ty: _,
            case,
            others: _,
        } => push_case(*case, found)?,
        Step::Counted(_) => {}
    }
    Ok(())
}

#[cycle(bound)]
fn push_others(types: &Types, step: &Step, found: &mut Vec<Bound>) -> Result<(), NoMemory>
    ensures { IfOk result (λ _. found.new.items ≡ found.old.items ++ (step_bound types.now step.now).back) }
{
    match step {
        Step::Test {
            atom: _,
            ty: _,
            case: _,
            others,
        } => push_arms(types, others, found)?,
        Step::Let(_, _) => {}
        Step::Fn {
            binding: _,
            parameters: _,
            last: _,
            body: _,
        } => {}
        Step::Block(_, _) => {}
        Step::Handle {
            binding: _,
            body: _,
            packet: _,
            handler: _,
        } => {}
        Step::Exception {
            variable: _,
            identifier: _,
            argument: _,
        } => {}
        Step::Name(_, _) => {}
        Step::Group(_, _) => {}
        Step::Counted(_) => {}
    }
    Ok(())
}

#[cycle(bound)]
fn push_all(types: &Types, attempts: &[Exp], found: &mut Vec<Bound>) -> Result<(), NoMemory>
    ensures { IfOk result (λ _. found.new.items ≡ found.old.items ++ joined (map (exp_bound types.now) attempts.now)) }
{
    for i in 0..attempts.len() {
        let attempt = &attempts[i];
        push_bound(types, attempt, found)?;
    }
    Ok(())
}

#[cycle(bound)]
fn push_arms(types: &Types, arms: &[Arm], found: &mut Vec<Bound>) -> Result<(), NoMemory>
    ensures { IfOk result (λ _. found.new.items ≡ found.old.items ++ joined (map (arm_bound types.now) arms.now)) }
{
    for i in 0..arms.len() {
        let arm = &arms[i];
        push_arm(types, arm, found)?;
    }
    Ok(())
}

#[cycle(bound)]
fn push_functions(
    types: &Types,
    functions: &[Function],
    found: &mut Vec<Bound>,
) -> Result<(), NoMemory>
    ensures { IfOk result (λ _. found.new.items ≡ found.old.items ++ joined (map (function_bound types.now) functions.now)) }
{
    for i in 0..functions.len() {
        let function = &functions[i];
        push_function(types, function, found)?;
    }
    Ok(())
}

#[cycle(bound)]
fn push_arm(types: &Types, arm: &Arm, found: &mut Vec<Bound>) -> Result<(), NoMemory>
    ensures { IfOk result (λ _. found.new.items ≡ found.old.items ++ arm_bound types.now arm.now) }
{
    push_case(arm.case, found)?;
    push_bound(types, &arm.body, found)?;
    Ok(())
}

#[cycle(bound)]
fn push_function(types: &Types, function: &Function, found: &mut Vec<Bound>) -> Result<(), NoMemory>
    ensures { IfOk result (λ _. found.new.items ≡ found.old.items ++ function_bound types.now function.now) }
{
    push_value(function.variable, function.ty, found)?;
    push_parameters(
        types,
        function.ty,
        &function.parameters,
        function.last,
        found,
    )?;
    push_bound(types, &function.body, found)?;
    Ok(())
}
