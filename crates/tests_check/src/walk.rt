// The walk along the tree.
ghost use Rattle.std.specs.Prelude.{◌≡◌, map, true, false, IfOk};
ghost use Rattle.ty_table.specs.TypeAt.{type_at};
ghost use Rattle.ir_poly.specs.TestsChecked.{exn_type};
ghost use Rattle.ir_known.specs.Knows.{marks_of};
ghost use Rattle.plain_tree.specs.TreeOf.{put, step_of, funs_of, function_of};
ghost use Rattle.record_order.specs.Order.{AreOrders};
ghost use Rattle.tests_check.specs.Reads.{reading};
ghost use Rattle.tests_check.specs.Walk.{IsExp, IsArm, IsFunction, IsLet, IsGroup, Declares, Gathers, known_as, steps_before, function_made, block_made, Each, Brings, Refuses};

use crate::atom::is_atom;
use crate::case::bind_case;
use crate::group::{Standing, close_group, open_group};
use crate::opening::{close_binding, enter_function, open_binding};
use crate::step::{exception_brings, name_brings, operation_brings};
use crate::value::{block_may, handler_may};
use ir_known::known::Known;
use ir_known::scope::Scope;
use ir_known::stack::Stack;
use ir_known::walk::is_over;
use ir_tables::tables::Tables;
use mlc_base::memory::NoMemory;
use plain_tree::tree::{Arm, Binding, Exp, Function, Parameter, Step};
use record_order::facts::Facts;
use std::alloc::Global;
use ty_core::mark::Mark;

/// Whether an expression fits where it stands, at a type.
#[cycle(walk)]
pub fn exp_fits(
    e: &Exp,
    alloc: Global,
    tables: &Tables,
    facts: &Facts,
    marks: &mut Stack<Mark>,
    scope: &mut Scope,
    misses: bool,
    ty: usize,
) -> Result<bool, NoMemory>
    requires exn { type_at tables.now.types facts.now.exn ≡ exn_type }
    requires orders { AreOrders tables.now.types facts.now.orders }
    ensures yes { IfOk result (λ yes. yes ≡ true → IsExp tables.now misses (marks_of marks.old) scope.old e.now ty) }
    ensures no { IfOk result (λ yes. yes ≡ false → IsExp tables.now misses (marks_of marks.old) scope.old e.now ty → ⊥) }
    ensures marks { IfOk result (λ yes. yes ≡ true → marks_of marks.new ≡ marks_of marks.old) }
    ensures scope { IfOk result (λ yes. yes ≡ true → scope.new ≡ scope.old) }
{
    match e {
        Exp::Steps(steps, rest) => {
            let place = scope.mark();
            let brings = steps_bring(steps, alloc, tables, facts, marks, scope, misses, ty)?;
            if !brings {
                return Ok(false);
            }
            let ends = exp_fits(rest, alloc, tables, facts, marks, scope, misses, ty)?;
            scope.restore(place);
            Ok(ends)
        }
        Exp::Ret(atom) => Ok(is_atom(tables, scope, *atom, ty)),
        Exp::Switch { atom, ty: of, arms } => {
            if !misses {
                return Ok(false);
            }
            if !is_atom(tables, scope, *atom, *of) {
                return Ok(false);
            }
            let fit = arms_fit(arms, alloc, tables, facts, marks, scope, *of, ty)?;
            Ok(fit)
        }
        Exp::First(attempts, last) => {
            let tried = attempts_fit(attempts, alloc, tables, facts, marks, scope, ty)?;
            if !tried {
                return Ok(false);
            }
            let ends = exp_fits(last, alloc, tables, facts, marks, scope, misses, ty)?;
            Ok(ends)
        }
        Exp::Miss => Ok(misses),
    }
}

/// Whether attempts fit, at a type, where a miss goes on behind each.
#[cycle(walk)]
pub fn attempts_fit(
    attempts: &[Exp],
    alloc: Global,
    tables: &Tables,
    facts: &Facts,
    marks: &mut Stack<Mark>,
    scope: &mut Scope,
    ty: usize,
) -> Result<bool, NoMemory>
    requires exn { type_at tables.now.types facts.now.exn ≡ exn_type }
    requires orders { AreOrders tables.now.types facts.now.orders }
    ensures yes { IfOk result (λ yes. yes ≡ true → Each (λ e. IsExp tables.now true (marks_of marks.old) scope.old e ty) attempts.now) }
    ensures no { IfOk result (λ yes. yes ≡ false → Each (λ e. IsExp tables.now true (marks_of marks.old) scope.old e ty) attempts.now → ⊥) }
    ensures marks { IfOk result (λ yes. yes ≡ true → marks_of marks.new ≡ marks_of marks.old) }
    ensures scope { IfOk result (λ yes. yes ≡ true → scope.new ≡ scope.old) }
{
    for i in 0..attempts.len() {
        let attempt = &attempts[i];
        let yes = exp_fits(attempt, alloc, tables, facts, marks, scope, true, ty)?;
        if !yes {
            return Ok(false);
        }
    }
    Ok(true)
}

/// Whether arms fit, for values of one type, at another.
#[cycle(walk)]
fn arms_fit(
    arms: &[Arm],
    alloc: Global,
    tables: &Tables,
    facts: &Facts,
    marks: &mut Stack<Mark>,
    scope: &mut Scope,
    of: usize,
    ty: usize,
) -> Result<bool, NoMemory>
    requires exn { type_at tables.now.types facts.now.exn ≡ exn_type }
    requires orders { AreOrders tables.now.types facts.now.orders }
    ensures yes { IfOk result (λ yes. yes ≡ true → Each (IsArm tables.now (marks_of marks.old) scope.old of ty) arms.now) }
    ensures no { IfOk result (λ yes. yes ≡ false → Each (IsArm tables.now (marks_of marks.old) scope.old of ty) arms.now → ⊥) }
    ensures marks { IfOk result (λ yes. yes ≡ true → marks_of marks.new ≡ marks_of marks.old) }
    ensures scope { IfOk result (λ yes. yes ≡ true → scope.new ≡ scope.old) }
{
    for i in 0..arms.len() {
        let arm = &arms[i];
        let yes = arm_fits(arm, alloc, tables, facts, marks, scope, of, ty)?;
        if !yes {
            return Ok(false);
        }
    }
    Ok(true)
}

/// Whether an arm fits.
#[cycle(walk)]
fn arm_fits(
    arm: &Arm,
    alloc: Global,
    tables: &Tables,
    facts: &Facts,
    marks: &mut Stack<Mark>,
    scope: &mut Scope,
    of: usize,
    ty: usize,
) -> Result<bool, NoMemory>
    requires exn { type_at tables.now.types facts.now.exn ≡ exn_type }
    requires orders { AreOrders tables.now.types facts.now.orders }
    ensures yes { IfOk result (λ yes. yes ≡ true → IsArm tables.now (marks_of marks.old) scope.old of ty arm.now) }
    ensures no { IfOk result (λ yes. yes ≡ false → IsArm tables.now (marks_of marks.old) scope.old of ty arm.now → ⊥) }
    ensures marks { IfOk result (λ yes. yes ≡ true → marks_of marks.new ≡ marks_of marks.old) }
    ensures scope { IfOk result (λ yes. yes ≡ true → scope.new ≡ scope.old) }
{
    let place = scope.mark();
    let opens = bind_case(alloc, tables, facts.exn, marks, scope, arm.case, of)?;
    if !opens {
        return Ok(false);
    }
    let ends = exp_fits(&arm.body, alloc, tables, facts, marks, scope, true, ty)?;
    scope.restore(place);
    Ok(ends)
}

/// Whether steps fit, and what they bring into scope.
#[cycle(walk)]
pub fn steps_bring(
    steps: &[Step],
    alloc: Global,
    tables: &Tables,
    facts: &Facts,
    marks: &mut Stack<Mark>,
    scope: &mut Scope,
    misses: bool,
    ty: usize,
) -> Result<bool, NoMemory>
    requires exn { type_at tables.now.types facts.now.exn ≡ exn_type }
    requires orders { AreOrders tables.now.types facts.now.orders }
    ensures yes { IfOk result (λ yes. yes ≡ true → Brings tables.now misses (marks_of marks.old) ty scope.old scope.new (steps_before tables.now steps.now)) }
    ensures no { IfOk result (λ yes. yes ≡ false → Refuses tables.now misses (marks_of marks.old) ty scope.old (steps_before tables.now steps.now)) }
    ensures marks { IfOk result (λ yes. yes ≡ true → marks_of marks.new ≡ marks_of marks.old) }
{
    for i in 0..steps.len() {
        let step = &steps[i];
        let brings = step_brings(step, alloc, tables, facts, marks, scope, misses, ty)?;
        if !brings {
            return Ok(false);
        }
    }
    Ok(true)
}

/// Whether a step fits, and what it brings into scope.
#[cycle(walk)]
fn step_brings(
    step: &Step,
    alloc: Global,
    tables: &Tables,
    facts: &Facts,
    marks: &mut Stack<Mark>,
    scope: &mut Scope,
    misses: bool,
    ty: usize,
) -> Result<bool, NoMemory>
    requires exn { type_at tables.now.types facts.now.exn ≡ exn_type }
    requires orders { AreOrders tables.now.types facts.now.orders }
    ensures yes { IfOk result (λ yes. yes ≡ true
        → Brings tables.now misses (marks_of marks.old) ty scope.old scope.new (put (step_of (reading tables.now) step.now))) }
    ensures no { IfOk result (λ yes. yes ≡ false → Refuses tables.now misses (marks_of marks.old) ty scope.old (put (step_of (reading tables.now) step.now))) }
    ensures marks { IfOk result (λ yes. yes ≡ true → marks_of marks.new ≡ marks_of marks.old) }
{
    match step {
        Step::Let(binding, operation) => {
            let yes = operation_brings(alloc, tables, facts, marks, scope, *binding, operation)?;
            Ok(yes)
        }
        Step::Fn {
            binding,
            parameters,
            last,
            body,
        } => {
            let yes = fn_brings(
                body, alloc, tables, facts, marks, scope, *binding, parameters, *last,
            )?;
            Ok(yes)
        }
        Step::Block(binding, body) => {
            let yes = block_brings(body, alloc, tables, facts, marks, scope, *binding)?;
            Ok(yes)
        }
        Step::Handle {
            binding,
            body,
            packet,
            handler,
        } => {
            let len = marks.len();
            let place = scope.mark();
            if !handler_may(tables, binding.parameters) {
                return Ok(false);
            }
            let ready = open_binding(alloc, tables, marks, *binding)?;
            if !ready {
                return Ok(false);
            }
            let tried = exp_fits(body, alloc, tables, facts, marks, scope, false, binding.ty)?;
            if !tried {
                return Ok(false);
            }
            let free = scope.bind(*packet, Known::OfType(facts.exn))?;
            if !free {
                return Ok(false);
            }
            let caught = exp_fits(
                handler, alloc, tables, facts, marks, scope, false, binding.ty,
            )?;
            if !caught {
                return Ok(false);
            }
            let new = close_binding(tables, marks, scope, len, place, *binding)?;
            Ok(new)
        }
        Step::Exception {
            variable,
            identifier: _,
            argument,
        } => {
            let yes = exception_brings(alloc, tables, marks, scope, *variable, *argument)?;
            Ok(yes)
        }
        Step::Name(variable, named) => {
            let yes = name_brings(tables, scope, *variable, *named)?;
            Ok(yes)
        }
        Step::Group(parameters, functions) => {
            let yes = group_brings(functions, alloc, tables, facts, marks, scope, *parameters)?;
            Ok(yes)
        }
        Step::Test {
            atom,
            ty: of,
            case,
            others,
        } => {
            if !misses {
                return Ok(false);
            }
            if !is_atom(tables, scope, *atom, *of) {
                return Ok(false);
            }
            let fit = arms_fit(others, alloc, tables, facts, marks, scope, *of, ty)?;
            if !fit {
                return Ok(false);
            }
            let opens = bind_case(alloc, tables, facts.exn, marks, scope, *case, *of)?;
            Ok(opens)
        }
        Step::Counted(_) => Ok(true),
    }
}

/// Whether the binding of a function fits.
#[cycle(walk)]
fn fn_brings(
    body: &Exp,
    alloc: Global,
    tables: &Tables,
    facts: &Facts,
    marks: &mut Stack<Mark>,
    scope: &mut Scope,
    binding: Binding,
    parameters: &[Parameter],
    last: Parameter,
) -> Result<bool, NoMemory>
    requires exn { type_at tables.now.types facts.now.exn ≡ exn_type }
    requires orders { AreOrders tables.now.types facts.now.orders }
    ensures yes { IfOk result (λ yes. yes ≡ true
        → IsLet tables.now (marks_of marks.old) scope.old binding (function_made tables.now parameters.now last body.now)) }
    ensures no { IfOk result (λ yes. yes ≡ false
        → IsLet tables.now (marks_of marks.old) scope.old binding (function_made tables.now parameters.now last body.now) → ⊥) }
    ensures bound { IfOk result (λ yes. yes ≡ true → Declares tables.now scope.old scope.new binding) }
    ensures marks { IfOk result (λ yes. yes ≡ true → marks_of marks.new ≡ marks_of marks.old) }
{
    let len = marks.len();
    let place = scope.mark();
    let opens = open_binding(alloc, tables, marks, binding)?;
    if !opens {
        return Ok(false);
    }
    let found = enter_function(alloc, tables, marks, scope, parameters, last, binding.ty)?;
    let ty = match found {
        Some(given) => given,
        None => return Ok(false),
    };
    let fits = exp_fits(body, alloc, tables, facts, marks, scope, false, ty)?;
    if !fits {
        return Ok(false);
    }
    let new = close_binding(tables, marks, scope, len, place, binding)?;
    Ok(new)
}

/// Whether the binding of a block fits.
#[cycle(walk)]
fn block_brings(
    body: &Exp,
    alloc: Global,
    tables: &Tables,
    facts: &Facts,
    marks: &mut Stack<Mark>,
    scope: &mut Scope,
    binding: Binding,
) -> Result<bool, NoMemory>
    requires exn { type_at tables.now.types facts.now.exn ≡ exn_type }
    requires orders { AreOrders tables.now.types facts.now.orders }
    ensures yes { IfOk result (λ yes. yes ≡ true → IsLet tables.now (marks_of marks.old) scope.old binding (block_made tables.now body.now)) }
    ensures no { IfOk result (λ yes. yes ≡ false → IsLet tables.now (marks_of marks.old) scope.old binding (block_made tables.now body.now) → ⊥) }
    ensures bound { IfOk result (λ yes. yes ≡ true → Declares tables.now scope.old scope.new binding) }
    ensures marks { IfOk result (λ yes. yes ≡ true → marks_of marks.new ≡ marks_of marks.old) }
{
    let len = marks.len();
    let place = scope.mark();
    if !block_may(tables, binding.parameters, body) {
        return Ok(false);
    }
    let opens = open_binding(alloc, tables, marks, binding)?;
    if !opens {
        return Ok(false);
    }
    let fits = exp_fits(body, alloc, tables, facts, marks, scope, false, binding.ty)?;
    if !fits {
        return Ok(false);
    }
    let new = close_binding(tables, marks, scope, len, place, binding)?;
    Ok(new)
}

/// Whether a group of functions fits.
#[cycle(walk)]
fn group_brings(
    functions: &[Function],
    alloc: Global,
    tables: &Tables,
    facts: &Facts,
    marks: &mut Stack<Mark>,
    scope: &mut Scope,
    parameters: usize,
) -> Result<bool, NoMemory>
    requires exn { type_at tables.now.types facts.now.exn ≡ exn_type }
    requires orders { AreOrders tables.now.types facts.now.orders }
    ensures yes { IfOk result (λ yes. yes ≡ true → IsGroup tables.now (marks_of marks.old) scope.old parameters functions.now) }
    ensures no { IfOk result (λ yes. yes ≡ false → IsGroup tables.now (marks_of marks.old) scope.old parameters functions.now → ⊥) }
    ensures bound { IfOk result (λ yes. yes ≡ true
        → Gathers tables.now (known_as tables.now (Standing.Over parameters)) scope.old scope.new
        (funs_of (map (function_of (reading tables.now)) functions.now))) }
    ensures marks { IfOk result (λ yes. yes ≡ true → marks_of marks.new ≡ marks_of marks.old) }
{
    let len = marks.len();
    let place = scope.mark();
    let opens = open_group(tables, marks, scope, parameters, functions)?;
    if !opens {
        return Ok(false);
    }
    let fit = functions_fit(functions, alloc, tables, facts, marks, scope)?;
    if !fit {
        return Ok(false);
    }
    let closes = close_group(tables, marks, scope, len, place, parameters, functions)?;
    Ok(closes)
}

/// Whether the functions of a group fit.
#[cycle(walk)]
fn functions_fit(
    functions: &[Function],
    alloc: Global,
    tables: &Tables,
    facts: &Facts,
    marks: &mut Stack<Mark>,
    scope: &mut Scope,
) -> Result<bool, NoMemory>
    requires exn { type_at tables.now.types facts.now.exn ≡ exn_type }
    requires orders { AreOrders tables.now.types facts.now.orders }
    ensures yes { IfOk result (λ yes. yes ≡ true → Each (IsFunction tables.now (marks_of marks.old) scope.old) functions.now) }
    ensures no { IfOk result (λ yes. yes ≡ false → Each (IsFunction tables.now (marks_of marks.old) scope.old) functions.now → ⊥) }
    ensures marks { IfOk result (λ yes. yes ≡ true → marks_of marks.new ≡ marks_of marks.old) }
    ensures scope { IfOk result (λ yes. yes ≡ true → scope.new ≡ scope.old) }
{
    for i in 0..functions.len() {
        let function = &functions[i];
        let yes = function_fits(function, alloc, tables, facts, marks, scope)?;
        if !yes {
            return Ok(false);
        }
    }
    Ok(true)
}

/// Whether a function of a group fits.
#[cycle(walk)]
fn function_fits(
    function: &Function,
    alloc: Global,
    tables: &Tables,
    facts: &Facts,
    marks: &mut Stack<Mark>,
    scope: &mut Scope,
) -> Result<bool, NoMemory>
    requires exn { type_at tables.now.types facts.now.exn ≡ exn_type }
    requires orders { AreOrders tables.now.types facts.now.orders }
    ensures yes { IfOk result (λ yes. yes ≡ true → IsFunction tables.now (marks_of marks.old) scope.old function.now) }
    ensures no { IfOk result (λ yes. yes ≡ false → IsFunction tables.now (marks_of marks.old) scope.old function.now → ⊥) }
    ensures marks { IfOk result (λ yes. yes ≡ true → marks_of marks.new ≡ marks_of marks.old) }
    ensures scope { IfOk result (λ yes. yes ≡ true → scope.new ≡ scope.old) }
{
    let place = scope.mark();
    let over = is_over(alloc, &tables.types, marks, function.ty)?;
    if !over {
        return Ok(false);
    }
    let found = enter_function(
        alloc,
        tables,
        marks,
        scope,
        &function.parameters,
        function.last,
        function.ty,
    )?;
    let ty = match found {
        Some(given) => given,
        None => return Ok(false),
    };
    let ends = exp_fits(
        &function.body,
        alloc,
        tables,
        facts,
        marks,
        scope,
        false,
        ty,
    )?;
    scope.restore(place);
    Ok(ends)
}
