// The walk along the tree.
ghost use Rattle.std.specs.Prelude.{◌≡◌, map, true, IfOk};
ghost use Rattle.plain_tree.specs.TreeOf.{put, onto, test_step, tree_of, step_of, arm_of, arms_of, case_of, fun_of, function_of};
ghost use Rattle.mono_operations.specs.Reads.{reading};
ghost use Rattle.mono_check.specs.Walk.{fits, all_fit, arm_right, arms_right, handler_right, fun_right, functions_right, Brings};

use crate::case::bind_case;
use crate::group::bind_functions;
use crate::opening::{bring, bring_name, declare, enter_function};
use ir_known::known::Known;
use ir_known::scope::Scope;
use mlc_base::memory::NoMemory;
use mono_operations::atom::is_atom;
use mono_operations::operation::operation_fits;
use mono_operations::tables::Tables;
use plain_tree::tree::{Arm, Case, Exp, Function, Parameter, Step};
use std::alloc::Global;

/// Whether an expression fits where it stands, at a type.
#[cycle(walk)]
pub fn exp_fits(
    e: &Exp,
    alloc: Global,
    tables: &Tables,
    scope: &mut Scope,
    misses: bool,
    ty: usize,
) -> Result<bool, NoMemory>
    ensures is { IfOk result (λ yes. yes ≡ fits tables.now misses scope.old (tree_of (reading tables.now) e.now) ty) }
    ensures kept { IfOk result (λ yes. yes ≡ true → scope.new ≡ scope.old) }
{
    match e {
        Exp::Steps(steps, rest) => {
            let place = scope.mark();
            let brings = steps_bring(steps, alloc, tables, scope, misses, ty)?;
            if !brings {
                return Ok(false);
            }
            let ends = exp_fits(rest, alloc, tables, scope, misses, ty)?;
            scope.restore(place);
            Ok(ends)
        }
        Exp::Ret(atom) => Ok(is_atom(scope, *atom, ty)),
        Exp::Switch { atom, ty: of, arms } => {
            if !misses {
                return Ok(false);
            }
            if !is_atom(scope, *atom, *of) {
                return Ok(false);
            }
            let fit = arms_fit(arms, alloc, tables, scope, *of, ty)?;
            Ok(fit)
        }
        Exp::First(attempts, last) => {
            let tried = attempts_fit(attempts, alloc, tables, scope, ty)?;
            if !tried {
                return Ok(false);
            }
            let ends = exp_fits(last, alloc, tables, scope, misses, ty)?;
            Ok(ends)
        }
        Exp::Miss => Ok(misses),
    }
}

/// Whether attempts fit, at a type, where a miss goes on behind each.
#[cycle(walk)]
pub fn attempts_fit(
    attempts: &[Exp],
    alloc: Global,
    tables: &Tables,
    scope: &mut Scope,
    ty: usize,
) -> Result<bool, NoMemory>
    ensures is { IfOk result (λ yes. yes ≡ all_fit tables.now scope.old (map (tree_of (reading tables.now)) attempts.now) ty) }
    ensures kept { IfOk result (λ yes. yes ≡ true → scope.new ≡ scope.old) }
{
    for i in 0..attempts.len() {
        let attempt = &attempts[i];
        let yes = exp_fits(attempt, alloc, tables, scope, true, ty)?;
        if !yes {
            return Ok(false);
        }
    }
    Ok(true)
}

/// Whether arms fit, for values of one type, at another.
#[cycle(walk)]
fn arms_fit(
    arms: &[Arm],
    alloc: Global,
    tables: &Tables,
    scope: &mut Scope,
    of: usize,
    ty: usize,
) -> Result<bool, NoMemory>
    ensures is { IfOk result (λ yes. yes ≡ arms_right tables.now scope.old (arms_of (map (arm_of (reading tables.now)) arms.now)) of ty) }
    ensures kept { IfOk result (λ yes. yes ≡ true → scope.new ≡ scope.old) }
{
    for i in 0..arms.len() {
        let arm = &arms[i];
        let yes = arm_fits(arm, alloc, tables, scope, of, ty)?;
        if !yes {
            return Ok(false);
        }
    }
    Ok(true)
}

/// Whether an arm fits.
#[cycle(walk)]
fn arm_fits(
    arm: &Arm,
    alloc: Global,
    tables: &Tables,
    scope: &mut Scope,
    of: usize,
    ty: usize,
) -> Result<bool, NoMemory>
    ensures is { IfOk result (λ yes. yes ≡ arm_right tables.now scope.old (arm_of (reading tables.now) arm.now) of ty) }
    ensures kept { IfOk result (λ yes. yes ≡ true → scope.new ≡ scope.old) }
{
    let place = scope.mark();
    let opens = bind_case(tables, scope, arm.case, of)?;
    if !opens {
        return Ok(false);
    }
    let ends = exp_fits(&arm.body, alloc, tables, scope, true, ty)?;
    scope.restore(place);
    Ok(ends)
}

/// Whether steps fit, and what they bring into scope.
#[cycle(walk)]
pub fn steps_bring(
    steps: &[Step],
    alloc: Global,
    tables: &Tables,
    scope: &mut Scope,
    misses: bool,
    ty: usize,
) -> Result<bool, NoMemory>
    ensures { IfOk result (λ yes. Brings tables.now misses ty scope.old scope.new yes (onto (map (step_of (reading tables.now)) steps.now))) }
{
    for i in 0..steps.len() {
        let step = &steps[i];
        let brings = step_brings(step, alloc, tables, scope, misses, ty)?;
        if !brings {
            return Ok(false);
        }
    }
    Ok(true)
}

/// Whether a step fits, and what it brings into scope.
#[cycle(walk)]
fn step_brings(
    step: &Step,
    alloc: Global,
    tables: &Tables,
    scope: &mut Scope,
    misses: bool,
    ty: usize,
) -> Result<bool, NoMemory>
    ensures { IfOk result (λ yes. Brings tables.now misses ty scope.old scope.new yes (put (step_of (reading tables.now) step.now))) }
{
    match step {
        Step::Let(binding, operation) => {
            let fits = operation_fits(alloc, tables, scope, operation, binding.ty)?;
            let yes = declare(scope, fits, *binding)?;
            Ok(yes)
        }
        Step::Fn {
            binding,
            parameters,
            last,
            body,
        } => {
            let fits = fun_fits(body, alloc, tables, scope, parameters, *last, binding.ty)?;
            let yes = declare(scope, fits, *binding)?;
            Ok(yes)
        }
        Step::Block(binding, body) => {
            let fits = exp_fits(body, alloc, tables, scope, false, binding.ty)?;
            let yes = declare(scope, fits, *binding)?;
            Ok(yes)
        }
        Step::Handle {
            binding,
            body,
            packet,
            handler,
        } => {
            let tried = exp_fits(body, alloc, tables, scope, false, binding.ty)?;
            if !tried {
                return Ok(false);
            }
            let caught = handler_fits(handler, alloc, tables, scope, *packet, binding.ty)?;
            let yes = declare(scope, caught, *binding)?;
            Ok(yes)
        }
        Step::Exception {
            variable,
            identifier: _,
            argument,
        } => {
            let yes = bring(scope, *variable, Known::Exception(*argument))?;
            Ok(yes)
        }
        Step::Name(variable, named) => {
            let yes = bring_name(scope, *variable, *named)?;
            Ok(yes)
        }
        Step::Group(_, functions) => {
            let new = bind_functions(scope, functions)?;
            if !new {
                return Ok(false);
            }
            let fit = functions_fit(functions, alloc, tables, scope)?;
            Ok(fit)
        }
        Step::Test {
            atom,
            ty: of,
            case,
            others,
        } => {
            let yes = test_brings(others, alloc, tables, scope, misses, *atom, *of, *case, ty)?;
            Ok(yes)
        }
        Step::Counted(_) => Ok(true),
    }
}

/// Whether a test fits, and what it brings into scope.
#[cycle(walk)]
fn test_brings(
    others: &[Arm],
    alloc: Global,
    tables: &Tables,
    scope: &mut Scope,
    misses: bool,
    atom: usize,
    of: usize,
    case: Case,
    ty: usize,
) -> Result<bool, NoMemory>
    ensures { IfOk result (λ yes. Brings tables.now misses ty scope.old scope.new yes
        (put (test_step atom of (case_of (reading tables.now) case) (arms_of (map (arm_of (reading tables.now)) others.now))))) }
{
    if !misses {
        return Ok(false);
    }
    if !is_atom(scope, atom, of) {
        return Ok(false);
    }
    let fit = arms_fit(others, alloc, tables, scope, of, ty)?;
    if !fit {
        return Ok(false);
    }
    let opens = bind_case(tables, scope, case, of)?;
    Ok(opens)
}

/// Whether a handler fits, at a type.
#[cycle(walk)]
fn handler_fits(
    handler: &Exp,
    alloc: Global,
    tables: &Tables,
    scope: &mut Scope,
    packet: usize,
    ty: usize,
) -> Result<bool, NoMemory>
    ensures is { IfOk result (λ yes. yes ≡ handler_right tables.now scope.old packet (tree_of (reading tables.now) handler.now) ty) }
    ensures kept { IfOk result (λ yes. yes ≡ true → scope.new ≡ scope.old) }
{
    let place = scope.mark();
    let new = bring(scope, packet, Known::OfType(tables.exn))?;
    if !new {
        return Ok(false);
    }
    let caught = exp_fits(handler, alloc, tables, scope, false, ty)?;
    scope.restore(place);
    Ok(caught)
}

/// Whether a function fits, at a type.
#[cycle(walk)]
fn fun_fits(
    body: &Exp,
    alloc: Global,
    tables: &Tables,
    scope: &mut Scope,
    parameters: &[Parameter],
    last: Parameter,
    ty: usize,
) -> Result<bool, NoMemory>
    ensures is { IfOk result (λ yes. yes
        ≡ fun_right tables.now scope.old (fun_of (reading tables.now) parameters.now last (tree_of (reading tables.now) body.now)) ty) }
    ensures kept { IfOk result (λ yes. yes ≡ true → scope.new ≡ scope.old) }
{
    let place = scope.mark();
    let found = enter_function(tables, scope, parameters, last, ty)?;
    let given = match found {
        Some(of) => of,
        None => return Ok(false),
    };
    let ends = exp_fits(body, alloc, tables, scope, false, given)?;
    scope.restore(place);
    Ok(ends)
}

/// Whether the functions of a group fit.
#[cycle(walk)]
fn functions_fit(
    functions: &[Function],
    alloc: Global,
    tables: &Tables,
    scope: &mut Scope,
) -> Result<bool, NoMemory>
    ensures is { IfOk result (λ yes. yes ≡ functions_right tables.now scope.old functions.now) }
    ensures kept { IfOk result (λ yes. yes ≡ true → scope.new ≡ scope.old) }
{
    for i in 0..functions.len() {
        let function = &functions[i];
        let yes = function_fits(function, alloc, tables, scope)?;
        if !yes {
            return Ok(false);
        }
    }
    Ok(true)
}

/// Whether a function of a group fits.
#[cycle(walk)]
fn function_fits(
    function: &Function,
    alloc: Global,
    tables: &Tables,
    scope: &mut Scope,
) -> Result<bool, NoMemory>
    ensures is { IfOk result (λ yes. yes
        ≡ fun_right tables.now scope.old (function_of (reading tables.now) function.now).function (function_of (reading tables.now) function.now).type) }
    ensures kept { IfOk result (λ yes. yes ≡ true → scope.new ≡ scope.old) }
{
    let fits = fun_fits(
        &function.body,
        alloc,
        tables,
        scope,
        &function.parameters,
        function.last,
        function.ty,
    )?;
    Ok(fits)
}
