// The conversion of expressions. The functions in them become closures; what their codes are is not asked here.
ghost use Rattle.std.specs.Prelude.{◌≡◌, ℕ, List, map, drop, IfOk};
ghost use Rattle.ir_mono.specs.Mono.{Mono};
ghost use Rattle.flow_sets.specs.Flow.{Flow};
ghost use Rattle.plain_tree.specs.TreeOf.{case_of, firsts};
ghost use Rattle.mono_bound.specs.Reads.{reading, mono_of};
ghost use Rattle.closure_convert.specs.Scope.{Table, add};
ghost use Rattle.first_tree.specs.TreeOf.{tree_of, arm_of, arms_of};
ghost use Rattle.ir_first.specs.Tree as out;
ghost use Rattle.closure_meaning.specs.Convert.{Numbering, var, convert, cases, con_arms};
ghost use Rattle.closure_steps.specs.Reads.{mono_step, steps_in, arms_in};
ghost use Rattle.closure_steps.specs.of_closure_parts.Puts.{before, Puts};
ghost use Rattle.closure_steps.specs.of_closure_parts.Settings.{Row, Texts, Holds};
ghost use Rattle.closure_steps.specs.Cases.{tests_before};
ghost use Rattle.closure_steps.specs.Steps.{all_behind, switched, stepped, all_stepped};
ghost use Rattle.closure_bodies.specs.Made.{body_made};

use capture_scope::scope::{Scope, ScopeFault};
use closure_steps::cases::{
    is_constructor, is_test, onto, push_case, push_opened, push_unless, push_when, tag_of,
};
use closure_steps::closure_parts::access::named;
use closure_steps::closure_parts::operation::push_operation;
use closure_steps::closure_parts::setting::Setting;
use closure_steps::scope::{bind_case, bind_step, number_of};
use closure_steps::steps::{
    push_block, push_exception, push_group, push_handle, push_making, push_name, push_try,
};
use first_tree::tree as made;
use mlc_base::make::{both, boxed};
use mono_types::types::Types;
use plain_tree::tree::{Arm, Case, Exp, Step};
use std::alloc::Global;

/// An expression, in this scope, which stays as it was.
#[cycle(convert)]
pub fn convert(
    alloc: Global,
    types: &Types,
    setting: &Setting,
    scope: &mut Scope,
    e: &Exp,
) -> Result<made::Exp, ScopeFault>
    ensures made { IfOk result (λ made. (strings : Texts) (n : Numbering) (F : Flow) (T : Table) → Holds setting.now types.now strings n F T
        → tree_of made ≡ convert n types.now F T scope.old (mono_of types.now strings e.now)) }
    ensures scope { IfOk result (λ _. scope.new ≡ scope.old) }
{
    match e {
        Exp::Steps(steps, rest) => {
            let len = scope.len();
            let mut made = Vec::new(alloc);
            convert_steps(alloc, types, setting, scope, steps, &mut made)?;
            let end = convert_boxed(alloc, types, setting, scope, rest)?;
            scope.leave_to(len);
            Ok(made::Exp::Steps(made, end))
        }
        Exp::Ret(atom) => {
            let name = named(*atom)?;
            Ok(made::Exp::Ret(name))
        }
        Exp::Switch { atom, ty, arms } => convert_cases(
            alloc, types, setting, scope, *atom, *ty, arms,
        ),
        Exp::First(attempts, last) => {
            let mut made = Vec::new(alloc);
            convert_attempts(alloc, types, setting, scope, attempts, &mut made)?;
            let end = convert_boxed(alloc, types, setting, scope, last)?;
            Ok(made::Exp::Steps(made, end))
        }
        Exp::Miss => Ok(made::Exp::Miss),
    }
}

#[cycle(convert)]
fn convert_boxed(
    alloc: Global,
    types: &Types,
    setting: &Setting,
    scope: &mut Scope,
    e: &Exp,
) -> Result<Box<made::Exp>, ScopeFault>
    ensures made { IfOk result (λ made. (strings : Texts) (n : Numbering) (F : Flow) (T : Table) → Holds setting.now types.now strings n F T
        → tree_of made.value ≡ convert n types.now F T scope.old (mono_of types.now strings e.now)) }
    ensures scope { IfOk result (λ _. scope.new ≡ scope.old) }
{
    let made = convert(alloc, types, setting, scope, e)?;
    Ok(boxed(alloc, made)?)
}

/// A handler, with its packet in scope.
#[cycle(convert)]
fn convert_handler(
    alloc: Global,
    types: &Types,
    setting: &Setting,
    scope: &mut Scope,
    packet: usize,
    handler: &Exp,
) -> Result<Box<made::Exp>, ScopeFault>
    ensures made { IfOk result (λ made. (strings : Texts) (n : Numbering) (F : Flow) (T : Table) → Holds setting.now types.now strings n F T
        → tree_of made.value ≡ convert n types.now F T (add packet scope.old) (mono_of types.now strings handler.now)) }
    ensures scope { IfOk result (λ _. scope.new ≡ scope.old) }
{
    let len = scope.len();
    scope.add(packet)?;
    let made = convert_boxed(alloc, types, setting, scope, handler)?;
    scope.leave_to(len);
    Ok(made)
}

/// Attempts, one after the other, behind the steps that are there.
#[cycle(convert)]
fn convert_attempts(
    alloc: Global,
    types: &Types,
    setting: &Setting,
    scope: &mut Scope,
    attempts: &[Exp],
    steps: &mut Vec<made::Step>,
) -> Result<(), ScopeFault>
    ensures made { IfOk result (λ _. (strings : Texts) (n : Numbering) (F : Flow) (T : Table) → Holds setting.now types.now strings n F T
        → (d : Mono types.now) → before steps.new.items (convert n types.now F T scope.old d)
        ≡ before steps.old.items (convert n types.now F T scope.old (firsts (map (mono_of types.now strings) attempts.now) d))) }
    ensures scope { IfOk result (λ _. scope.new ≡ scope.old) }
{
    for i in 0..attempts.len() {
        let attempt = &attempts[i];
        let made = convert(alloc, types, setting, scope, attempt)?;
        push_try(alloc, steps, made)?;
    }
    Ok(())
}

/// Steps, one after the other, behind the steps that are there. The scope is what it is behind them.
#[cycle(convert)]
fn convert_steps(
    alloc: Global,
    types: &Types,
    setting: &Setting,
    scope: &mut Scope,
    taken: &[Step],
    steps: &mut Vec<made::Step>,
) -> Result<(), ScopeFault>
    ensures made { IfOk result (λ _. (strings : Texts) (n : Numbering) (F : Flow) (T : Table) → Holds setting.now types.now strings n F T
        → Puts steps.old.items steps.new.items (all_stepped n types.now F T scope.old (steps_in types.now strings taken.now))) }
    ensures scope { IfOk result (λ _. (strings : Texts) → scope.new ≡ all_behind types.now (steps_in types.now strings taken.now) scope.old) }
{
    for i in 0..taken.len() {
        let step = &taken[i];
        convert_step(alloc, types, setting, scope, step, steps)?;
        bind_step(alloc, scope, step)?;
    }
    Ok(())
}

/// A step; what it binds doesn't come into scope yet.
#[cycle(convert)]
fn convert_step(
    alloc: Global,
    types: &Types,
    setting: &Setting,
    scope: &mut Scope,
    step: &Step,
    steps: &mut Vec<made::Step>,
) -> Result<(), ScopeFault>
    ensures made { IfOk result (λ _. (strings : Texts) (n : Numbering) (F : Flow) (T : Table) → Holds setting.now types.now strings n F T
        → Puts steps.old.items steps.new.items (stepped n types.now F T scope.old (mono_step types.now strings step.now))) }
    ensures scope { IfOk result (λ _. scope.new ≡ scope.old) }
{
    match step {
        Step::Let(binding, operation) => Ok(push_operation(
            alloc,
            types,
            setting,
            scope,
            binding.variable,
            operation,
            steps,
        )?),
        Step::Fn {
            binding,
            parameters,
            last,
            body: _,
        } => {
            let name = named(binding.variable)?;
            let number = number_of(parameters, *last);
            Ok(push_making(alloc, setting, scope, steps, name, number)?)
        }
        Step::Block(binding, body) => {
            let name = named(binding.variable)?;
            let body = convert_boxed(alloc, types, setting, scope, body)?;
            Ok(push_block(steps, name, body)?)
        }
        Step::Handle {
            binding,
            body,
            packet,
            handler,
        } => {
            let name = named(binding.variable)?;
            let raised = named(*packet)?;
            match both(
                convert_boxed(alloc, types, setting, scope, body),
                convert_handler(alloc, types, setting, scope, *packet, handler),
            ) {
                Ok((body, handler)) => Ok(push_handle(steps, name, body, raised, handler)?),
                Err(e) => Err(e),
            }
        }
        Step::Exception {
            variable,
            identifier,
            argument: _,
        } => Ok(push_exception(alloc, steps, *variable, *identifier)?),
        Step::Name(variable, exception) => Ok(push_name(
            alloc, setting, scope, steps, *variable, *exception,
        )?),
        Step::Group(_, functions) => Ok(push_group(alloc, setting, scope, steps, functions)?),
        Step::Test {
            atom,
            ty,
            case,
            others,
        } => convert_test(
            alloc, types, setting, scope, *atom, *ty, *case, others, steps,
        ),
        Step::Counted(_) => Ok(()),
    }
}

/// A test whose first arm goes on.
#[cycle(convert)]
fn convert_test(
    alloc: Global,
    types: &Types,
    setting: &Setting,
    scope: &mut Scope,
    atom: usize,
    ty: usize,
    case: Case,
    others: &[Arm],
    steps: &mut Vec<made::Step>,
) -> Result<(), ScopeFault>
    ensures made { IfOk result (λ _. (strings : Texts) (n : Numbering) (F : Flow) (T : Table) → Holds setting.now types.now strings n F T
        → Puts steps.old.items steps.new.items
        (switched n types.now F T scope.old atom ty (case_of (reading types.now strings) case) (arms_in types.now strings others.now))) }
    ensures scope { IfOk result (λ _. scope.new ≡ scope.old) }
{
    if is_test(case) {
        let other = convert_cases(alloc, types, setting, scope, atom, ty, others)?;
        push_when(alloc, setting, steps, atom, case, other)?;
        return Ok(push_opened(alloc, steps, atom, case)?);
    }
    if is_constructor(case) {
        let arms = convert_constructors(alloc, types, setting, scope, atom, ty, others, 0)?;
        push_case(setting, steps, atom, ty, case, arms)?;
        return Ok(push_opened(alloc, steps, atom, case)?);
    }
    Ok(push_opened(alloc, steps, atom, case)?)
}

/// A switch: tests one by one, and then arms of tags, or an arm that takes all.
#[cycle(convert)]
fn convert_cases(
    alloc: Global,
    types: &Types,
    setting: &Setting,
    scope: &mut Scope,
    atom: usize,
    ty: usize,
    arms: &[Arm],
) -> Result<made::Exp, ScopeFault>
    ensures made { IfOk result (λ made. (strings : Texts) (n : Numbering) (F : Flow) (T : Table) → Holds setting.now types.now strings n F T
        → tree_of made ≡ cases n types.now F T scope.old atom ty (arms_in types.now strings arms.now)) }
    ensures scope { IfOk result (λ _. scope.new ≡ scope.old) }
{
    let mut steps = Vec::new(alloc);
    for i in 0..arms.len() {
        let arm = &arms[i];
        if !is_test(arm.case) {
            let end = convert_end(alloc, types, setting, scope, atom, ty, arms, i)?;
            return Ok(onto(alloc, steps, end)?);
        }
        let body = convert_opened(alloc, types, setting, scope, atom, arm)?;
        push_unless(alloc, setting, &mut steps, atom, arm.case, body)?;
    }
    Ok(onto(alloc, steps, made::Exp::Miss)?)
}

/// What a switch is from this arm on, which is no test.
#[cycle(convert)]
fn convert_end(
    alloc: Global,
    types: &Types,
    setting: &Setting,
    scope: &mut Scope,
    atom: usize,
    ty: usize,
    arms: &[Arm],
    at: usize,
) -> Result<made::Exp, ScopeFault>
    ensures made { IfOk result (λ made. (strings : Texts) (n : Numbering) (F : Flow) (T : Table) → Holds setting.now types.now strings n F T
        → tests_before (drop at arms.now) ≡ 0 → tree_of made ≡ cases n types.now F T scope.old atom ty (arms_in types.now strings (drop at arms.now))) }
    ensures scope { IfOk result (λ _. scope.new ≡ scope.old) }
{
    if at >= arms.len() {
        return Ok(made::Exp::Miss);
    }
    let arm = &arms[at];
    if is_constructor(arm.case) {
        let cell = named(atom)?;
        let others = convert_constructors(alloc, types, setting, scope, atom, ty, arms, at)?;
        return Ok(made::Exp::Switch(cell, others));
    }
    convert_opened(alloc, types, setting, scope, atom, arm)
}

/// Arms of tags from this one on, up to another one.
#[cycle(convert)]
fn convert_constructors(
    alloc: Global,
    types: &Types,
    setting: &Setting,
    scope: &mut Scope,
    atom: usize,
    ty: usize,
    arms: &[Arm],
    from: usize,
) -> Result<Vec<made::Arm>, ScopeFault>
    ensures made { IfOk result (λ made. (strings : Texts) (n : Numbering) (F : Flow) (T : Table) → Holds setting.now types.now strings n F T
        → arms_of (map arm_of made.items) ≡ con_arms n types.now F T scope.old atom ty (arms_in types.now strings (drop from arms.now))) }
    ensures scope { IfOk result (λ _. scope.new ≡ scope.old) }
{
    let mut made = Vec::new(alloc);
    for i in from..arms.len() {
        let arm = &arms[i];
        if !is_constructor(arm.case) {
            return Ok(made);
        }
        let tag = tag_of(setting, ty, arm.case)?;
        let body = convert_opened(alloc, types, setting, scope, atom, arm)?;
        made.push(made::Arm { tag, body })?;
    }
    Ok(made)
}

/// The body of an arm, behind what it has of the value that came to it.
#[cycle(convert)]
fn convert_opened(
    alloc: Global,
    types: &Types,
    setting: &Setting,
    scope: &mut Scope,
    atom: usize,
    arm: &Arm,
) -> Result<made::Exp, ScopeFault>
    ensures made { IfOk result (λ made. (strings : Texts) (n : Numbering) (F : Flow) (T : Table) → Holds setting.now types.now strings n F T
        → tree_of made ≡ body_made n types.now strings F T scope.old atom arm.now) }
    ensures scope { IfOk result (λ _. scope.new ≡ scope.old) }
{
    let len = scope.len();
    bind_case(scope, arm.case)?;
    let mut steps = Vec::new(alloc);
    push_opened(alloc, &mut steps, atom, arm.case)?;
    let body = convert(alloc, types, setting, scope, &arm.body)?;
    scope.leave_to(len);
    Ok(onto(alloc, steps, body)?)
}
