// The walk from the end of a program to its beginning. A binding's scope is entered before what follows it is put; when it is left, the binding is copied at
// each list of types that was needed: its operation is walked along again for each.
ghost use Rattle.std.specs.Prelude.{◌≡◌, ℕ, true, reverse, IfOk, IfErr};
ghost use Rattle.mlc_runs.specs.declared.pass.PassFault.TheVariants.{Expansion};
ghost use Rattle.mono_parts.specs.of_mono_state.Seen.{held_of};
ghost use Rattle.mono_parts.specs.of_mono_state.Going.{IsHeld, AllHeld};
ghost use Rattle.mono_copy.specs.Puts.{IsReady, Puts, Passes};
ghost use Rattle.mono_copy.specs.Changes.{each_put, exp_put, attempt_put, arms_put, arm_put, step_entered, step_left, steps_entered, steps_left};
ghost use Rattle.mono_copy.specs.Changes.{operation_put, handler_put, function_put, bodies_put, binding_put, binding_left, group_put, group_left};

use crate::parts::{
    binding_of, leave_plain, open_step, put_packet, put_ret, stand_back, stand_for, strips_behind,
};
use ir_tables::tables::Tables;
use mlc_runs::pass::PassFault;
use mono_parts::arms::{enter_arm, leave_arm, put_switch};
use mono_parts::mono_state::copier::Copier;
use mono_parts::mono_state::names::{copy_at, type_of, unit_list};
use mono_parts::mono_state::word::Word;
use mono_parts::operations::put_operation;
use mono_parts::steps::{
    enter_group, enter_parameters, enter_variable, leave_binding, leave_last, leave_parameters,
    leave_variable, own_functions, put_heads, stripped,
};
use plain_tree::tree::{Arm, Binding, Exp, Function, Parameter, Step};
use std::alloc::Global;

/// An expression's copy.
#[cycle(walk)]
pub fn walk(
    alloc: Global,
    tables: &Tables,
    copier: &mut Copier,
    strip: bool,
    e: &Exp,
) -> Result<(), PassFault>
    requires { IsReady tables.now copier.old }
    ensures put { IfOk result (λ _. Puts tables.now (exp_put tables.now strip e.now) copier.old copier.new) }
    ensures too_large { IfErr result (λ fault. fault ≡ Expansion → Passes tables.now (exp_put tables.now strip e.now) copier.old) }
{
    match e {
        Exp::Steps(steps, rest) => {
            enter_steps(alloc, tables, copier, strip, steps)?;
            walk(alloc, tables, copier, strips_behind(steps, strip), rest)?;
            leave_steps(alloc, tables, copier, strip, steps)
        }
        Exp::Ret(variable) => {
            put_ret(tables, copier, *variable)?;
            Ok(())
        }
        Exp::Switch { atom, ty, arms } => {
            put_arms(alloc, tables, copier, strip, arms)?;
            put_switch(alloc, tables, copier, *atom, *ty)?;
            Ok(())
        }
        Exp::First(attempts, last) => {
            walk(alloc, tables, copier, strip, last)?;
            put_attempts(alloc, tables, copier, strip, attempts)
        }
        Exp::Miss => {
            copier.put(&Word::Miss)?;
            Ok(())
        }
    }
}

/// Attempts, from the last to the first.
#[cycle(walk)]
fn put_attempts(
    alloc: Global,
    tables: &Tables,
    copier: &mut Copier,
    strip: bool,
    attempts: &[Exp],
) -> Result<(), PassFault>
    requires { IsReady tables.now copier.old }
    ensures put { IfOk result (λ _. Puts tables.now (each_put (attempt_put tables.now strip) attempts.now) copier.old copier.new) }
    ensures too_large { IfErr result (λ fault. fault ≡ Expansion → Passes tables.now (each_put (attempt_put tables.now strip) attempts.now) copier.old) }
{
    let mut left = attempts.len();
    while left > 0 {
        left -= 1;
        let attempt = &attempts[left];
        walk(alloc, tables, copier, strip, attempt)?;
        copier.put(&Word::First)?;
    }
    Ok(())
}

/// Arms, from the last to the first, in front of an end.
#[cycle(walk)]
fn put_arms(
    alloc: Global,
    tables: &Tables,
    copier: &mut Copier,
    strip: bool,
    arms: &[Arm],
) -> Result<(), PassFault>
    requires { IsReady tables.now copier.old }
    ensures put { IfOk result (λ _. Puts tables.now (arms_put tables.now strip arms.now) copier.old copier.new) }
    ensures too_large { IfErr result (λ fault. fault ≡ Expansion → Passes tables.now (arms_put tables.now strip arms.now) copier.old) }
{
    copier.put(&Word::End)?;
    let mut left = arms.len();
    while left > 0 {
        left -= 1;
        let arm = &arms[left];
        put_arm(alloc, tables, copier, strip, arm)?;
    }
    Ok(())
}

#[cycle(walk)]
fn put_arm(
    alloc: Global,
    tables: &Tables,
    copier: &mut Copier,
    strip: bool,
    arm: &Arm,
) -> Result<(), PassFault>
    requires { IsReady tables.now copier.old }
    ensures put { IfOk result (λ _. Puts tables.now (arm_put tables.now strip arm.now) copier.old copier.new) }
    ensures too_large { IfErr result (λ fault. fault ≡ Expansion → Passes tables.now (arm_put tables.now strip arm.now) copier.old) }
{
    enter_arm(alloc, copier, arm.case)?;
    walk(alloc, tables, copier, strip, &arm.body)?;
    leave_arm(alloc, tables, copier, arm.case)?;
    Ok(())
}

/// Enters steps, from the first to the last. The other arms of tests are put.
#[cycle(walk)]
fn enter_steps(
    alloc: Global,
    tables: &Tables,
    copier: &mut Copier,
    strip: bool,
    steps: &[Step],
) -> Result<(), PassFault>
    requires { IsReady tables.now copier.old }
    ensures put { IfOk result (λ _. Puts tables.now (steps_entered tables.now strip steps.now) copier.old copier.new) }
    ensures too_large { IfErr result (λ fault. fault ≡ Expansion → Passes tables.now (steps_entered tables.now strip steps.now) copier.old) }
{
    let bare = stripped(steps, strip);
    for i in 0..steps.len() {
        let step = &steps[i];
        enter_step(alloc, tables, copier, i < bare, step)?;
    }
    Ok(())
}

#[cycle(walk)]
fn enter_step(
    alloc: Global,
    tables: &Tables,
    copier: &mut Copier,
    strip: bool,
    step: &Step,
) -> Result<(), PassFault>
    requires { IsReady tables.now copier.old }
    ensures put { IfOk result (λ _. Puts tables.now (step_entered tables.now strip step.now) copier.old copier.new) }
    ensures too_large { IfErr result (λ fault. fault ≡ Expansion → Passes tables.now (step_entered tables.now strip step.now) copier.old) }
{
    match step {
        Step::Test {
            atom: _,
            ty: _,
            case,
            others,
        } => {
            put_arms(alloc, tables, copier, strip, others)?;
            enter_arm(alloc, copier, *case)?;
            Ok(())
        }
        _ => {
            open_step(alloc, tables, copier, step)?;
            Ok(())
        }
    }
}

/// Leaves steps, from the last to the first.
#[cycle(walk)]
fn leave_steps(
    alloc: Global,
    tables: &Tables,
    copier: &mut Copier,
    strip: bool,
    steps: &[Step],
) -> Result<(), PassFault>
    requires { IsReady tables.now copier.old }
    ensures put { IfOk result (λ _. Puts tables.now (steps_left tables.now strip steps.now) copier.old copier.new) }
    ensures too_large { IfErr result (λ fault. fault ≡ Expansion → Passes tables.now (steps_left tables.now strip steps.now) copier.old) }
{
    let bare = stripped(steps, strip);
    let mut left = steps.len();
    while left > 0 {
        left -= 1;
        let step = &steps[left];
        leave_step(alloc, tables, copier, left < bare, step)?;
    }
    Ok(())
}

#[cycle(walk)]
fn leave_step(
    alloc: Global,
    tables: &Tables,
    copier: &mut Copier,
    strip: bool,
    step: &Step,
) -> Result<(), PassFault>
    requires { IsReady tables.now copier.old }
    ensures put { IfOk result (λ _. Puts tables.now (step_left tables.now strip step.now) copier.old copier.new) }
    ensures too_large { IfErr result (λ fault. fault ≡ Expansion → Passes tables.now (step_left tables.now strip step.now) copier.old) }
{
    match step {
        Step::Group(parameters, functions) => {
            put_groups(alloc, tables, copier, *parameters, functions)
        }
        _ => match binding_of(step) {
            Some(binding) => put_copies(alloc, tables, copier, strip, binding, step),
            None => leave_plain(alloc, tables, copier, step),
        },
    }
}

/// Leaves the scope of a step's binding, and copies it at the first types and at those at which it was needed.
#[cycle(walk)]
fn put_copies(
    alloc: Global,
    tables: &Tables,
    copier: &mut Copier,
    strip: bool,
    binding: Binding,
    step: &Step,
) -> Result<(), PassFault>
    requires { IsReady tables.now copier.old }
    ensures put { IfOk result (λ _. Puts tables.now (binding_left tables.now strip binding step.now) copier.old copier.new) }
    ensures too_large { IfErr result (λ fault. fault ≡ Expansion → Passes tables.now (binding_left tables.now strip binding step.now) copier.old) }
{
    let lists = leave_binding(alloc, copier);
    put_further(alloc, tables, copier, binding, step, &lists)?;
    let unit = unit_list(alloc, copier, tables.parameters(binding.parameters))?;
    put_copy(alloc, tables, copier, strip, binding, step, unit)
}

/// Copies of a step's binding that take no turns, one at each list.
#[cycle(walk)]
fn put_further(
    alloc: Global,
    tables: &Tables,
    copier: &mut Copier,
    binding: Binding,
    step: &Step,
    lists: &[usize],
) -> Result<(), PassFault>
    requires ready { IsReady tables.now copier.old }
    requires held { AllHeld (held_of copier.old) lists.now }
    ensures put { IfOk result (λ _. Puts tables.now (each_put (binding_put tables.now true binding step.now) (reverse lists.now)) copier.old copier.new) }
    ensures too_large { IfErr result (λ fault. fault ≡ Expansion
        → Passes tables.now (each_put (binding_put tables.now true binding step.now) (reverse lists.now)) copier.old) }
{
    for i in 0..lists.len() {
        put_copy(alloc, tables, copier, true, binding, step, lists[i])?;
    }
    Ok(())
}

/// A copy of a step's binding, at the types of a list.
#[cycle(walk)]
fn put_copy(
    alloc: Global,
    tables: &Tables,
    copier: &mut Copier,
    strip: bool,
    binding: Binding,
    step: &Step,
    list: usize,
) -> Result<(), PassFault>
    requires ready { IsReady tables.now copier.old }
    requires held { IsHeld (held_of copier.old) list }
    ensures put { IfOk result (λ _. Puts tables.now (binding_put tables.now strip binding step.now list) copier.old copier.new) }
    ensures too_large { IfErr result (λ fault. fault ≡ Expansion → Passes tables.now (binding_put tables.now strip binding step.now list) copier.old) }
{
    let slots = copier.slots.len();
    let before = stand_for(alloc, copier, tables.parameters(binding.parameters), list)?;
    put_act(alloc, tables, copier, strip, step)?;
    let ty = type_of(alloc, tables, copier, binding.ty)?;
    stand_back(copier, slots, before);
    let variable = copy_at(copier, binding.variable, list)?;
    copier.put(&Word::Let { variable, ty })?;
    Ok(())
}

/// The operation of a step, if it binds one.
#[cycle(walk)]
fn put_act(
    alloc: Global,
    tables: &Tables,
    copier: &mut Copier,
    strip: bool,
    step: &Step,
) -> Result<(), PassFault>
    requires { IsReady tables.now copier.old }
    ensures put { IfOk result (λ _. Puts tables.now (operation_put tables.now strip step.now) copier.old copier.new) }
    ensures too_large { IfErr result (λ fault. fault ≡ Expansion → Passes tables.now (operation_put tables.now strip step.now) copier.old) }
{
    match step {
        Step::Let(_, operation) => {
            put_operation(alloc, tables, copier, operation, strip)?;
            Ok(())
        }
        Step::Fn {
            binding: _,
            parameters,
            last,
            body,
        } => {
            put_function(alloc, tables, copier, parameters, *last, body)?;
            copier.put(&Word::Fn)?;
            Ok(())
        }
        Step::Block(_, body) => {
            walk(alloc, tables, copier, strip, body)?;
            copier.put(&Word::Block)?;
            Ok(())
        }
        Step::Handle {
            binding: _,
            body,
            packet,
            handler,
        } => {
            put_handler(alloc, tables, copier, *packet, handler)?;
            walk(alloc, tables, copier, false, body)?;
            copier.put(&Word::Handle)?;
            Ok(())
        }
        _ => Ok(()),
    }
}

/// A handler, and in front of it the variable of its packet.
#[cycle(walk)]
fn put_handler(
    alloc: Global,
    tables: &Tables,
    copier: &mut Copier,
    packet: usize,
    handler: &Exp,
) -> Result<(), PassFault>
    requires { IsReady tables.now copier.old }
    ensures put { IfOk result (λ _. Puts tables.now (handler_put tables.now packet handler.now) copier.old copier.new) }
    ensures too_large { IfErr result (λ fault. fault ≡ Expansion → Passes tables.now (handler_put tables.now packet handler.now) copier.old) }
{
    enter_variable(alloc, copier, packet)?;
    walk(alloc, tables, copier, false, handler)?;
    put_packet(alloc, tables, copier, packet)?;
    Ok(())
}

/// The parameters and the body of a function.
#[cycle(walk)]
fn put_function(
    alloc: Global,
    tables: &Tables,
    copier: &mut Copier,
    parameters: &[Parameter],
    last: Parameter,
    body: &Exp,
) -> Result<(), PassFault>
    requires { IsReady tables.now copier.old }
    ensures put { IfOk result (λ _. Puts tables.now (function_put tables.now parameters.now last body.now) copier.old copier.new) }
    ensures too_large { IfErr result (λ fault. fault ≡ Expansion → Passes tables.now (function_put tables.now parameters.now last body.now) copier.old) }
{
    enter_parameters(alloc, copier, parameters)?;
    enter_variable(alloc, copier, last.variable)?;
    walk(alloc, tables, copier, false, body)?;
    leave_last(alloc, tables, copier, last)?;
    leave_parameters(alloc, tables, copier, parameters)?;
    Ok(())
}

/// Leaves the scope of a group, and copies it at the first types and at those at which it was needed. What the copies need of one another is held by a scope
/// that is dropped.
#[cycle(walk)]
fn put_groups(
    alloc: Global,
    tables: &Tables,
    copier: &mut Copier,
    parameters: usize,
    functions: &[Function],
) -> Result<(), PassFault>
    requires { IsReady tables.now copier.old }
    ensures put { IfOk result (λ _. Puts tables.now (group_left tables.now parameters functions.now) copier.old copier.new) }
    ensures too_large { IfErr result (λ fault. fault ≡ Expansion → Passes tables.now (group_left tables.now parameters functions.now) copier.old) }
{
    let lists = leave_binding(alloc, copier);
    enter_group(alloc, tables, copier, parameters, functions)?;
    put_further_groups(alloc, tables, copier, parameters, functions, &lists)?;
    let unit = unit_list(alloc, copier, tables.parameters(parameters))?;
    put_group(alloc, tables, copier, parameters, functions, unit)?;
    leave_variable(alloc, copier);
    Ok(())
}

#[cycle(walk)]
fn put_further_groups(
    alloc: Global,
    tables: &Tables,
    copier: &mut Copier,
    parameters: usize,
    functions: &[Function],
    lists: &[usize],
) -> Result<(), PassFault>
    requires ready { IsReady tables.now copier.old }
    requires held { AllHeld (held_of copier.old) lists.now }
    ensures put { IfOk result (λ _. Puts tables.now (each_put (group_put tables.now parameters functions.now) (reverse lists.now)) copier.old copier.new) }
    ensures too_large { IfErr result (λ fault. fault ≡ Expansion
        → Passes tables.now (each_put (group_put tables.now parameters functions.now) (reverse lists.now)) copier.old) }
{
    for i in 0..lists.len() {
        put_group(alloc, tables, copier, parameters, functions, lists[i])?;
    }
    Ok(())
}

/// A copy of a group, at the types of a list.
#[cycle(walk)]
fn put_group(
    alloc: Global,
    tables: &Tables,
    copier: &mut Copier,
    parameters: usize,
    functions: &[Function],
    list: usize,
) -> Result<(), PassFault>
    requires ready { IsReady tables.now copier.old }
    requires held { IsHeld (held_of copier.old) list }
    ensures put { IfOk result (λ _. Puts tables.now (group_put tables.now parameters functions.now list) copier.old copier.new) }
    ensures too_large { IfErr result (λ fault. fault ≡ Expansion → Passes tables.now (group_put tables.now parameters functions.now list) copier.old) }
{
    let slots = copier.slots.len();
    let own = copier.own.len();
    let before = stand_for(alloc, copier, tables.parameters(parameters), list)?;
    own_functions(copier, functions, list)?;
    put_bodies(alloc, tables, copier, functions)?;
    put_heads(alloc, tables, copier, functions, list)?;
    stand_back(copier, slots, before);
    copier.own.truncate(own);
    copier.put(&Word::Group)?;
    Ok(())
}

/// The bodies of a group's functions, from the last to the first.
#[cycle(walk)]
fn put_bodies(
    alloc: Global,
    tables: &Tables,
    copier: &mut Copier,
    functions: &[Function],
) -> Result<(), PassFault>
    requires { IsReady tables.now copier.old }
    ensures put { IfOk result (λ _. (list : ℕ) → Puts tables.now (bodies_put tables.now list functions.now) copier.old copier.new) }
    ensures too_large { IfErr result (λ fault. fault ≡ Expansion → (list : ℕ)
        → Passes tables.now (bodies_put tables.now list functions.now) copier.old) }
{
    let mut left = functions.len();
    while left > 0 {
        left -= 1;
        let function = &functions[left];
        put_function(
            alloc,
            tables,
            copier,
            &function.parameters,
            function.last,
            &function.body,
        )?;
    }
    Ok(())
}
