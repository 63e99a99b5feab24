// The codes of the functions in an expression.
ghost use Rattle.std.specs.Prelude.{◌≡◌, ◌∷◌, ◌++◌, ℕ, List, [], map, true, nat_eq, drop, IfOk};
ghost use Rattle.ir_mono.specs.Mono.{Mono};
ghost use Rattle.ir_first.specs.Tree as out;
ghost use Rattle.flow_sets.specs.Flow.{Flow};
ghost use Rattle.plain_tree.specs.TreeOf.{fun_of as mono_fun_of};
ghost use Rattle.mono_bound.specs.Reads.{reading, mono_of};
ghost use Rattle.closure_convert.specs.Scope.{Member as CleanMember, Table};
ghost use Rattle.capture_scope.specs.Seen.{members_of};
ghost use Rattle.closure_bodies.specs.of_capture_table.Told.{first_parameter};
ghost use Rattle.first_tree.specs.TreeOf.{fun_of};
ghost use Rattle.closure_meaning.specs.Convert.{Numbering, codes, codes_arms, codes_fun, codes_funs};
ghost use Rattle.closure_bodies.specs.of_closure_parts.Settings.{Row, Texts, Holds};
ghost use Rattle.closure_bodies.specs.of_closure_steps.Reads.{mono_step, arms_in, mono_function, functions_in};
ghost use Rattle.closure_first.specs.Codes.{Adds, IsOf, IsSameGroup, in_order, last_first, lead, giving as giving_of, taking as taking_of, heads, alone, group_codes, front, back};

use crate::functions::{giving, group_scope, taking};
use capture_scope::scope::{Member, Scope, ScopeFault};
use closure_bodies::closure_parts::setting::Setting;
use closure_bodies::closure_steps::scope::{members_of_group, number_of};
use first_tree::tree::Fun;
use mono_types::types::Types;
use plain_tree::tree::{Arm, Exp, Function, Parameter, Step};
use std::alloc::Global;

/// The number of a group's first function.
fn leader_of(group: &[Member]) -> usize
    ensures { result ≡ lead (members_of group.now) }
{
    if group.is_empty() { 0 } else { group[0].number }
}

/// Whether this is the place of a group's first function.
fn is_first(place: usize) -> bool
    ensures { result ≡ nat_eq place 0 }
{
    place == 0
}

/// The number of what a function gives when it has got so many arguments.
fn number_at(parameters: &[Parameter], given: usize, last: Parameter) -> usize
    ensures { result ≡ first_parameter (drop given parameters.now) last }
{
    if given < parameters.len() {
        parameters[given].variable
    } else {
        last.variable
    }
}

/// All parameters but the first.
fn rest_of(parameters: &[Parameter]) -> &[Parameter]
    ensures { result.now ≡ drop 1 parameters.now }
{
    if parameters.is_empty() {
        parameters
    } else {
        &parameters[1..]
    }
}

/// The code of a function of one parameter behind those found before.
fn push_taking(
    alloc: Global,
    types: &Types,
    setting: &Setting,
    scope: &mut Scope,
    first: bool,
    parameter: usize,
    body: &Exp,
    found: &mut Vec<Fun>,
) -> Result<(), ScopeFault>
    ensures scope { IfOk result (λ _. IsSameGroup scope.old scope.new) }
    ensures codes { IfOk result (λ _. (strings : Texts) (n : Numbering) (F : Flow) (T : Table) → Holds setting.now types.now strings n F T
        → (g : ℕ) (ms : List CleanMember) → IsOf T scope.old g ms → Adds found.old.items found.new.items
        (λ cs. taking_of n types.now F T first g ms parameter (mono_of types.now strings body.now) ∷ cs)) }
{
    let code = taking(alloc, types, setting, scope, first, parameter, body)?;
    found.push(code)?;
    Ok(())
}

/// The code of a function of several parameters, behind those found before; this is the first of them.
fn push_giving(
    alloc: Global,
    setting: &Setting,
    scope: &mut Scope,
    first: bool,
    parameter: usize,
    next: usize,
    found: &mut Vec<Fun>,
) -> Result<(), ScopeFault>
    ensures scope { IfOk result (λ _. IsSameGroup scope.old scope.new) }
    ensures codes { IfOk result (λ _. (types : List Row) (strings : Texts) (n : Numbering) (F : Flow) (T : Table) → Holds setting.now types strings n F T
        → (g : ℕ) (ms : List CleanMember) → IsOf T scope.old g ms
        → Adds found.old.items found.new.items (λ cs. giving_of n types F T first g ms parameter next ∷ cs)) }
{
    let code = giving(alloc, setting, scope, first, parameter, next)?;
    found.push(code)?;
    Ok(())
}

/// The codes of a function alone, but for the innermost, which is that of its last parameter.
fn push_curried(
    alloc: Global,
    setting: &Setting,
    parameters: &[Parameter],
    last: Parameter,
    found: &mut Vec<Fun>,
) -> Result<(), ScopeFault>
    ensures { IfOk result (λ _. (types : List Row) (strings : Texts) (n : Numbering) (F : Flow) (T : Table) → Holds setting.now types strings n F T
        → (e : Mono types) (cs : List out.Fun) → map fun_of found.old.items ++ alone n types F T strings parameters.now last e cs
        ≡ map fun_of found.new.items ++ taking_of n types F T true last.variable [] last.variable e ∷ cs) }
{
    for i in 0..parameters.len() {
        let parameter = parameters[i].variable;
        let next = number_at(parameters, i + 1, last);
        let mut scope = group_scope(alloc, setting, parameter, &[])?;
        push_giving(alloc, setting, &mut scope, true, parameter, next, found)?;
    }
    Ok(())
}

/// The codes of a function in the scope of its group, but for those of the functions in its body.
fn push_heads(
    alloc: Global,
    types: &Types,
    setting: &Setting,
    scope: &mut Scope,
    first: bool,
    parameters: &[Parameter],
    last: Parameter,
    body: &Exp,
    found: &mut Vec<Fun>,
) -> Result<(), ScopeFault>
    ensures scope { IfOk result (λ _. IsSameGroup scope.old scope.new) }
    ensures codes { IfOk result (λ _. (strings : Texts) (n : Numbering) (F : Flow) (T : Table) → Holds setting.now types.now strings n F T
        → (g : ℕ) (ms : List CleanMember) → IsOf T scope.old g ms → Adds found.old.items found.new.items (heads n types.now F T first g ms
        (mono_fun_of (reading types.now strings) parameters.now last (mono_of types.now strings body.now)))) }
{
    if parameters.is_empty() {
        return push_taking(
            alloc,
            types,
            setting,
            scope,
            first,
            last.variable,
            body,
            found,
        );
    }
    let parameter = number_of(parameters, last);
    let rest = rest_of(parameters);
    let next = number_of(rest, last);
    push_giving(alloc, setting, scope, first, parameter, next, found)?;
    push_curried(alloc, setting, rest, last, found)?;
    let mut own = group_scope(alloc, setting, last.variable, &[])?;
    push_taking(
        alloc,
        types,
        setting,
        &mut own,
        true,
        last.variable,
        body,
        found,
    )
}

/// Puts the codes of the functions in an expression behind those found before.
#[cycle(codes)]
pub fn push_codes(
    alloc: Global,
    types: &Types,
    setting: &Setting,
    e: &Exp,
    found: &mut Vec<Fun>,
) -> Result<(), ScopeFault>
    ensures { IfOk result (λ _. (strings : Texts) (n : Numbering) (F : Flow) (T : Table) → Holds setting.now types.now strings n F T
        → Adds found.old.items found.new.items (codes n types.now F T (mono_of types.now strings e.now))) }
{
    match e {
        Exp::Steps(steps, rest) => {
            push_fronts(alloc, types, setting, steps, found)?;
            push_codes(alloc, types, setting, rest, found)?;
            push_backs(alloc, types, setting, steps, found)
        }
        Exp::Ret(_) => Ok(()),
        Exp::Switch {
            atom: _,
            ty: _,
            arms,
        } => push_arms(alloc, types, setting, arms, found),
        Exp::First(attempts, last) => {
            push_all(alloc, types, setting, attempts, found)?;
            push_codes(alloc, types, setting, last, found)?;
            Ok(())
        }
        Exp::Miss => Ok(()),
    }
}

/// The codes of steps, but for those of the other arms of their tests.
#[cycle(codes)]
fn push_fronts(
    alloc: Global,
    types: &Types,
    setting: &Setting,
    steps: &[Step],
    found: &mut Vec<Fun>,
) -> Result<(), ScopeFault>
    ensures { IfOk result (λ _. (strings : Texts) (n : Numbering) (F : Flow) (T : Table) → Holds setting.now types.now strings n F T
        → Adds found.old.items found.new.items (in_order (λ s. front n types.now F T (mono_step types.now strings s)) steps.now)) }
{
    for i in 0..steps.len() {
        let step = &steps[i];
        push_front(alloc, types, setting, step, found)?;
    }
    Ok(())
}

/// The codes of the other arms of tests, those of the last test first.
#[cycle(codes)]
fn push_backs(
    alloc: Global,
    types: &Types,
    setting: &Setting,
    steps: &[Step],
    found: &mut Vec<Fun>,
) -> Result<(), ScopeFault>
    ensures { IfOk result (λ _. (strings : Texts) (n : Numbering) (F : Flow) (T : Table) → Holds setting.now types.now strings n F T
        → Adds found.old.items found.new.items (last_first (λ s. back n types.now F T (mono_step types.now strings s)) steps.now)) }
{
    let mut left = steps.len();
    while left > 0 {
        left -= 1;
        let step = &steps[left];
        push_back(alloc, types, setting, step, found)?;
    }
    Ok(())
}

/// The codes of a step, but for those of the other arms of a test.
#[cycle(codes)]
fn push_front(
    alloc: Global,
    types: &Types,
    setting: &Setting,
    step: &Step,
    found: &mut Vec<Fun>,
) -> Result<(), ScopeFault>
    ensures { IfOk result (λ _. (strings : Texts) (n : Numbering) (F : Flow) (T : Table) → Holds setting.now types.now strings n F T
        → Adds found.old.items found.new.items (front n types.now F T (mono_step types.now strings step.now))) }
{
    match step {
        Step::Let(_, _) => Ok(()),
        Step::Fn {
            binding: _,
            parameters,
            last,
            body,
        } => push_alone(alloc, types, setting, parameters, *last, body, found),
        Step::Block(_, body) => push_codes(alloc, types, setting, body, found),
        Step::Handle {
            binding: _,
            body,
            packet: _,
            handler,
        } => {
            push_codes(alloc, types, setting, body, found)?;
            push_codes(alloc, types, setting, handler, found)
        }
        Step::Exception {
            variable: _,
            identifier: _,
            argument: _,
        } => Ok(()),
        Step::Name(_, _) => Ok(()),
        Step::Group(_, functions) => push_group(alloc, types, setting, functions, found),
        Step::Test {
            atom: _,
            ty: _,
            case: _,
            others: _,
        } => Ok(()),
        Step::Counted(_) => Ok(()),
    }
}

/// The codes of the other arms, if the step is a test.
#[cycle(codes)]
fn push_back(
    alloc: Global,
    types: &Types,
    setting: &Setting,
    step: &Step,
    found: &mut Vec<Fun>,
) -> Result<(), ScopeFault>
    ensures { IfOk result (λ _. (strings : Texts) (n : Numbering) (F : Flow) (T : Table) → Holds setting.now types.now strings n F T
        → Adds found.old.items found.new.items (back n types.now F T (mono_step types.now strings step.now))) }
{
    match step {
        Step::Test {
            atom: _,
            ty: _,
            case: _,
            others,
        } => push_arms(alloc, types, setting, others, found),
        Step::Let(_, _) => Ok(()),
        Step::Fn {
            binding: _,
            parameters: _,
            last: _,
            body: _,
        } => Ok(()),
        Step::Block(_, _) => Ok(()),
        Step::Handle {
            binding: _,
            body: _,
            packet: _,
            handler: _,
        } => Ok(()),
        Step::Exception {
            variable: _,
            identifier: _,
            argument: _,
        } => Ok(()),
        Step::Name(_, _) => Ok(()),
        Step::Group(_, _) => Ok(()),
        Step::Counted(_) => Ok(()),
    }
}

#[cycle(codes)]
fn push_all(
    alloc: Global,
    types: &Types,
    setting: &Setting,
    attempts: &[Exp],
    found: &mut Vec<Fun>,
) -> Result<(), ScopeFault>
    ensures { IfOk result (λ _. (strings : Texts) (n : Numbering) (F : Flow) (T : Table) → Holds setting.now types.now strings n F T
        → Adds found.old.items found.new.items (in_order (λ e. codes n types.now F T (mono_of types.now strings e)) attempts.now)) }
{
    for i in 0..attempts.len() {
        let attempt = &attempts[i];
        push_codes(alloc, types, setting, attempt, found)?;
    }
    Ok(())
}

#[cycle(codes)]
fn push_arms(
    alloc: Global,
    types: &Types,
    setting: &Setting,
    arms: &[Arm],
    found: &mut Vec<Fun>,
) -> Result<(), ScopeFault>
    ensures { IfOk result (λ _. (strings : Texts) (n : Numbering) (F : Flow) (T : Table) → Holds setting.now types.now strings n F T
        → Adds found.old.items found.new.items (codes_arms n types.now F T (arms_in types.now strings arms.now))) }
{
    for i in 0..arms.len() {
        let arm = &arms[i];
        push_codes(alloc, types, setting, &arm.body, found)?;
    }
    Ok(())
}

/// The codes of a function alone, and of those in its body.
#[cycle(codes)]
fn push_alone(
    alloc: Global,
    types: &Types,
    setting: &Setting,
    parameters: &[Parameter],
    last: Parameter,
    body: &Exp,
    found: &mut Vec<Fun>,
) -> Result<(), ScopeFault>
    ensures { IfOk result (λ _. (strings : Texts) (n : Numbering) (F : Flow) (T : Table) → Holds setting.now types.now strings n F T
        → Adds found.old.items found.new.items (codes_fun n types.now F T true (first_parameter parameters.now last) []
        (mono_fun_of (reading types.now strings) parameters.now last (mono_of types.now strings body.now)))) }
{
    let leader = number_of(parameters, last);
    let mut scope = group_scope(alloc, setting, leader, &[])?;
    push_heads(
        alloc, types, setting, &mut scope, true, parameters, last, body, found,
    )?;
    push_codes(alloc, types, setting, body, found)
}

/// The codes of the functions of a group, which is entered once, and of those in their bodies.
#[cycle(codes)]
fn push_group(
    alloc: Global,
    types: &Types,
    setting: &Setting,
    functions: &[Function],
    found: &mut Vec<Fun>,
) -> Result<(), ScopeFault>
    ensures { IfOk result (λ _. (strings : Texts) (n : Numbering) (F : Flow) (T : Table) → Holds setting.now types.now strings n F T
        → Adds found.old.items found.new.items (group_codes n types.now F T (functions_in types.now strings functions.now))) }
{
    let group = members_of_group(alloc, functions)?;
    let leader = leader_of(&group);
    let mut scope = group_scope(alloc, setting, leader, &group)?;
    for i in 0..functions.len() {
        let function = &functions[i];
        push_member(
            alloc,
            types,
            setting,
            &mut scope,
            is_first(i),
            function,
            found,
        )?;
    }
    Ok(())
}

/// The codes of a function in the scope of its group, and of those in its body.
#[cycle(codes)]
fn push_member(
    alloc: Global,
    types: &Types,
    setting: &Setting,
    scope: &mut Scope,
    first: bool,
    function: &Function,
    found: &mut Vec<Fun>,
) -> Result<(), ScopeFault>
    ensures scope { IfOk result (λ _. IsSameGroup scope.old scope.new) }
    ensures codes { IfOk result (λ _. (strings : Texts) (n : Numbering) (F : Flow) (T : Table) → Holds setting.now types.now strings n F T
        → (g : ℕ) (ms : List CleanMember) → IsOf T scope.old g ms
        → Adds found.old.items found.new.items (codes_fun n types.now F T first g ms (mono_function types.now strings function.now).function)) }
{
    push_heads(
        alloc,
        types,
        setting,
        scope,
        first,
        &function.parameters,
        function.last,
        &function.body,
        found,
    )?;
    push_codes(alloc, types, setting, &function.body, found)
}
