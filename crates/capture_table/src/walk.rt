// The walk along a program that finds what its functions capture.
ghost use Rattle.std.specs.Prelude.{◌≡◌, ◌≤◌, ◌+◌, ◌++◌, ◌∷◌, [], ℕ, List, map, drop, slice_index_or, IfOk, IfErr};
ghost use Rattle.closure_convert.specs.Counts.{AreDistinct};
ghost use Rattle.closure_convert.specs.Scope.{names, Scope as Clean, Member as Clean_member, Piece as Clean_piece};
ghost use Rattle.closure_convert.specs.Closed.{scope_of};
ghost use Rattle.closure_convert.specs.Capture.{visible, cut};
ghost use Rattle.capture_scope.specs.Seen.{members_of};
ghost use Rattle.capture_scope.specs.Found.{pieces_of};
ghost use Rattle.capture_scope.specs.Repeats.{times_in, Repeats};
ghost use Rattle.capture_scope.specs.declared.scope.ScopeFault.TheVariants.{Memory, BoundTwice};
ghost use Rattle.plain_tree.specs.Sums.{joined, variables_of, binders_of, step_binders, arm_binders};
ghost use Rattle.capture_table.specs.Levels.{used};
ghost use Rattle.capture_table.specs.Told.{Entries, used_in, more, case_binds, first_parameter, function_table, all_tables, steps_table, functions_table, functions_use, members_told, after, backs, marks, exp_told, step_told, arm_told, function_told};
ghost use Rattle.capture_table.specs.Inner.{inner_binders};

use crate::found::Found;
use crate::uses::{push_of_functions, push_uses};
use capture_scope::piece::Piece;
use capture_scope::scope::{Member, Scope, ScopeFault};
use mlc_base::memory::NoMemory;
use plain_tree::tree::{Arm, Case, Exp, Function, Parameter, Step};
use std::alloc::Global;

/// What a function captures, and the pieces of its closure.
#[derive(Drop)]
struct Capture {
    captured: Vec<usize>,
    pieces: Vec<Piece>,
}

/// What a function captures in a scope, that uses these variables.
fn find_capture(alloc: Global, scope: &Scope, uses: &[usize]) -> Result<Capture, ScopeFault>
    ensures captured { IfOk result (λ made. made.captured.items ≡ used_in scope.now uses.now) }
    ensures pieces { IfOk result (λ made. pieces_of made.pieces.items ≡ cut scope.now (used_in scope.now uses.now)) }
    ensures memory { IfErr result (λ fault. fault ≡ Memory) }
{
    let captured = scope.wanted(alloc, uses)?;
    let pieces = scope.cut(alloc, &captured)?;
    Ok(Capture { captured, pieces })
}

/// What the function captures that one of a group gives, whose scope this is, when it is given one of several arguments, this parameter.
fn find_inner(
    alloc: Global,
    scope: &mut Scope,
    parameter: usize,
    uses: &[usize],
) -> Result<Capture, ScopeFault>
    ensures captured { IfOk result (λ made. made.captured.items ≡ used_in (scope_of scope.old.captured scope.old.group parameter) uses.now) }
    ensures pieces { IfOk result (λ made. pieces_of made.pieces.items ≡ cut (scope_of scope.old.captured scope.old.group parameter)
        (used_in (scope_of scope.old.captured scope.old.group parameter) uses.now)) }
    ensures scope { IfOk result (λ _. scope.new ≡ scope_of scope.old.captured scope.old.group parameter) }
    ensures twice { IfErr result (λ fault. fault ≡ BoundTwice
        → Repeats ((scope.old.captured ++ names scope.old.group) ++ parameter ∷ [])) }
{
    scope.begin(parameter)?;
    let made = find_capture(alloc, scope, uses)?;
    Ok(made)
}

/// What the innermost captures of the functions that one alone gives, which captures these, when it isn't given all its arguments.
fn find_innermost(
    alloc: Global,
    captured: &[usize],
    parameters: &[Parameter],
    uses: &[usize],
) -> Result<Vec<usize>, ScopeFault>
    ensures used { IfOk result (λ all. all.items ≡ used uses.now (captured.now ++ variables_of parameters.now)) }
    ensures once { IfOk result (λ all. AreDistinct all.items) }
    ensures twice { IfErr result (λ fault. fault ≡ BoundTwice → Repeats (captured.now ++ variables_of parameters.now)) }
{
    let mut scope = Scope::of_group(alloc, captured, &[])?;
    for i in 0..parameters.len() {
        scope.add(parameters[i].variable)?;
    }
    let all = scope.wanted(alloc, uses)?;
    Ok(all)
}

fn number_of(parameters: &[Parameter], last: Parameter) -> usize
    ensures { result ≡ first_parameter parameters.now last }
{
    if parameters.is_empty() {
        last.variable
    } else {
        parameters[0].variable
    }
}

/// All parameters but the first.
fn rest_of(parameters: &[Parameter]) -> &[Parameter]
    ensures { result.now ≡ drop 1 parameters.now }
{
    if parameters.is_empty() {
        parameters
    } else {
        &parameters[1..]
    }
}

/// The entries of a function alone, which captures this, and of those that it gives, when it isn't given all its arguments. What the innermost captures.
fn push_inner(
    alloc: Global,
    capture: &Capture,
    parameters: &[Parameter],
    last: Parameter,
    uses: &[usize],
    found: &mut Found,
) -> Result<Vec<usize>, ScopeFault>
    requires { capture.now.captured.items ≡ used uses.now capture.now.captured.items }
    ensures table { IfOk result (λ innermost. (T : Clean → Entries → Entries) (es : Entries)
        → found.old ++ function_table uses.now parameters.now last T (pieces_of capture.now.pieces.items) capture.now.captured.items [] es
        ≡ found.new ++ T (scope_of innermost.items [] last.variable) es) }
    ensures within { IfOk result (λ innermost. (k : ℕ)
        → times_in k innermost.items ≤ times_in k capture.now.captured.items + times_in k (variables_of parameters.now)) }
    ensures twice { IfErr result (λ fault. fault ≡ BoundTwice → Repeats (capture.now.captured.items ++ variables_of parameters.now)) }
{
    let captured = capture.captured.as_slice();
    let innermost = find_innermost(alloc, captured, parameters, uses)?;
    found.push(number_of(parameters, last), captured, &capture.pieces)?;
    found.push_levels(&innermost, captured.len(), parameters, last)?;
    Ok(innermost)
}

/// The uses of a function of a group, where it gives functions: one of one parameter doesn't ask for them.
fn uses_of_member(alloc: Global, function: &Function) -> Result<Vec<usize>, NoMemory>
    ensures { IfOk result (λ uses. (ps : List Clean_piece) (cs : List ℕ) (ms : List Clean_member) (es : Entries) → (function_told function.now).table ps cs ms es
        ≡ function_table uses.items function.now.parameters.items function.now.last (exp_told function.now.body).table ps cs ms es) }
{
    let mut uses = Vec::new(alloc);
    if function.parameters.is_empty() {
        return Ok(uses);
    }
    push_uses(&function.body, &mut uses)?;
    Ok(uses)
}

/// What a case binds.
fn bind_case(scope: &mut Scope, case: Case) -> Result<(), ScopeFault>
    ensures scope { IfOk result (λ _. scope.new ≡ more (case_binds case) scope.old) }
    ensures twice { IfErr result (λ fault. fault ≡ BoundTwice → Repeats (visible scope.old ++ case_binds case)) }
{
    match case {
        Case::ConstructorOf {
            constructor: _,
            argument,
        } => scope.add(argument.variable),
        Case::ExceptionOf {
            exception: _,
            argument,
        } => scope.add(argument.variable),
        Case::Constant(_) => Ok(()),
        Case::Constructor(_) => Ok(()),
        Case::Exception(_) => Ok(()),
        Case::Record(_) => Ok(()),
    }
}

/// The functions of a group, each by the variable that it is bound to and its number.
fn members_of_group(alloc: Global, functions: &[Function]) -> Result<Vec<Member>, NoMemory>
    ensures { IfOk result (λ members. members_of members.items ≡ members_told (map function_told functions.now)) }
{
    let mut members = Vec::new(alloc);
    for i in 0..functions.len() {
        let function = &functions[i];
        let number = number_of(&function.parameters, function.last);
        members.push(Member {
            name: function.variable,
            number,
        })?;
    }
    Ok(members)
}

/// The functions of a group come into scope after it, the first last.
fn bind_group(scope: &mut Scope, members: &[Member]) -> Result<(), ScopeFault>
    ensures scope { IfOk result (λ _. scope.new ≡ more (names (members_of members.now)) scope.old) }
    ensures twice { IfErr result (λ fault. fault ≡ BoundTwice → Repeats (visible scope.old ++ names (members_of members.now))) }
{
    let mut left = members.len();
    while left > 0 {
        left -= 1;
        scope.add(members[left].name)?;
    }
    Ok(())
}

/// Puts the entries of the functions in an expression behind those found before. The scope stays as it was.
#[cycle(walk)]
pub fn walk(alloc: Global, scope: &mut Scope, e: &Exp, found: &mut Found) -> Result<(), ScopeFault>
    ensures table { IfOk result (λ _. (es : Entries) → found.old ++ (exp_told e.now).table scope.old es ≡ found.new ++ es) }
    ensures scope { IfOk result (λ _. scope.new ≡ scope.old) }
    ensures twice { IfErr result (λ fault. fault ≡ BoundTwice → Repeats (visible scope.old ++ binders_of e.now)) }
{
    match e {
        Exp::Steps(steps, rest) => {
            let mut seen = Vec::new(alloc);
            walk_steps(alloc, scope, steps, &mut seen, found)?;
            walk(alloc, scope, rest, found)?;
            walk_others(alloc, scope, steps, &seen, found)
        }
        Exp::Ret(_) => Ok(()),
        Exp::Switch {
            atom: _,
            ty: _,
            arms,
        } => walk_arms(alloc, scope, arms, found),
        Exp::First(attempts, last) => {
            walk_all(alloc, scope, attempts, found)?;
            walk(alloc, scope, last, found)?;
            Ok(())
        }
        Exp::Miss => Ok(()),
    }
}

/// The entries of steps, but for those of the other arms of their tests; the scope is what it is behind them. Behind those seen before goes how many variables
/// were seen before each step.
#[cycle(walk)]
fn walk_steps(
    alloc: Global,
    scope: &mut Scope,
    steps: &[Step],
    seen: &mut Vec<usize>,
    found: &mut Found,
) -> Result<(), ScopeFault>
    ensures table { IfOk result (λ _. (T : Clean → Entries → Entries) (es : Entries)
        → found.old ++ steps_table (map step_told steps.now) T scope.old es ≡ found.new ++ T scope.new (backs (map step_told steps.now) scope.old es)) }
    ensures scope { IfOk result (λ _. scope.new ≡ after (map step_told steps.now) scope.old) }
    ensures seen { IfOk result (λ _. seen.new.items ≡ seen.old.items ++ marks (map step_told steps.now) scope.old) }
    ensures twice { IfErr result (λ fault. fault ≡ BoundTwice → Repeats (visible scope.old ++ joined (map step_binders steps.now))) }
{
    for i in 0..steps.len() {
        let step = &steps[i];
        seen.push(scope.len())?;
        walk_step(alloc, scope, step, found)?;
        bind_step(alloc, scope, step)?;
    }
    Ok(())
}

/// What a step binds comes into scope.
fn bind_step(alloc: Global, scope: &mut Scope, step: &Step) -> Result<(), ScopeFault>
    ensures scope { IfOk result (λ _. scope.new ≡ more (step_told step.now).binds scope.old) }
    ensures twice { IfErr result (λ fault. fault ≡ BoundTwice → Repeats (visible scope.old ++ (step_told step.now).binds)) }
{
    match step {
        Step::Let(binding, _) => scope.add(binding.variable),
        Step::Fn {
            binding,
            parameters: _,
            last: _,
            body: _,
        } => scope.add(binding.variable),
        Step::Block(binding, _) => scope.add(binding.variable),
        Step::Handle {
            binding,
            body: _,
            packet: _,
            handler: _,
        } => scope.add(binding.variable),
        Step::Exception {
            variable,
            identifier: _,
            argument: _,
        } => scope.add(*variable),
        Step::Name(variable, _) => scope.add(*variable),
        Step::Group(_, functions) => {
            let members = members_of_group(alloc, functions)?;
            bind_group(scope, &members)
        }
        Step::Test {
            atom: _,
            ty: _,
            case,
            others: _,
        } => bind_case(scope, *case),
        Step::Counted(_) => Ok(()),
    }
}

/// The entries of a step, but for those of the other arms of a test.
#[cycle(walk)]
fn walk_step(
    alloc: Global,
    scope: &mut Scope,
    step: &Step,
    found: &mut Found,
) -> Result<(), ScopeFault>
    ensures table { IfOk result (λ _. (es : Entries) → found.old ++ (step_told step.now).front scope.old es ≡ found.new ++ es) }
    ensures scope { IfOk result (λ _. scope.new ≡ scope.old) }
    ensures twice { IfErr result (λ fault. fault ≡ BoundTwice → Repeats (visible scope.old ++ step_binders step.now)) }
{
    match step {
        Step::Let(_, _) => Ok(()),
        Step::Fn {
            binding: _,
            parameters,
            last,
            body,
        } => {
            let mut uses = Vec::new(alloc);
            push_uses(body, &mut uses)?;
            let capture = find_capture(alloc, scope, &uses)?;
            walk_alone(alloc, &capture, parameters, *last, body, &uses, found)
        }
        Step::Block(_, body) => walk(alloc, scope, body, found),
        Step::Handle {
            binding: _,
            body,
            packet,
            handler,
        } => {
            walk(alloc, scope, body, found)?;
            walk_handler(alloc, scope, *packet, handler, found)
        }
        Step::Exception {
            variable: _,
            identifier: _,
            argument: _,
        } => Ok(()),
        Step::Name(_, _) => Ok(()),
        Step::Group(_, functions) => {
            let mut uses = Vec::new(alloc);
            push_of_functions(functions, &mut uses)?;
            let group = members_of_group(alloc, functions)?;
            let capture = find_capture(alloc, scope, &uses)?;
            walk_functions(alloc, &capture, &group, functions, found)
        }
        Step::Test {
            atom: _,
            ty: _,
            case: _,
            others: _,
        } => Ok(()),
        Step::Counted(_) => Ok(()),
    }
}

/// How many variables were seen before a step.
fn mark_at(seen: &[usize], step: usize) -> usize
    ensures { result ≡ slice_index_or seen.now step 0 }
{
    if step < seen.len() { seen[step] } else { 0 }
}

/// The entries of the other arms of tests, those of the last test first. The scope is left step by step.
#[cycle(walk)]
fn walk_others(
    alloc: Global,
    scope: &mut Scope,
    steps: &[Step],
    seen: &[usize],
    found: &mut Found,
) -> Result<(), ScopeFault>
    ensures table { IfOk result (λ _. (s : Clean) (es : Entries) → scope.old ≡ after (map step_told steps.now) s → seen.now ≡ marks (map step_told steps.now) s
        → found.old ++ backs (map step_told steps.now) s es ≡ found.new ++ es) }
    ensures scope { IfOk result (λ _. (s : Clean) → scope.old ≡ after (map step_told steps.now) s → seen.now ≡ marks (map step_told steps.now) s → scope.new ≡ s) }
    ensures twice { IfErr result (λ fault. fault ≡ BoundTwice → (s : Clean) → scope.old ≡ after (map step_told steps.now) s → seen.now ≡ marks (map step_told steps.now) s
        → Repeats (visible s ++ joined (map step_binders steps.now))) }
{
    let mut left = steps.len();
    while left > 0 {
        left -= 1;
        let step = &steps[left];
        let mark = mark_at(seen, left);
        scope.leave_to(mark);
        walk_back(alloc, scope, step, found)?;
    }
    Ok(())
}

/// The entries of the other arms, if the step is a test.
#[cycle(walk)]
fn walk_back(
    alloc: Global,
    scope: &mut Scope,
    step: &Step,
    found: &mut Found,
) -> Result<(), ScopeFault>
    ensures table { IfOk result (λ _. (es : Entries) → found.old ++ (step_told step.now).back scope.old es ≡ found.new ++ es) }
    ensures scope { IfOk result (λ _. scope.new ≡ scope.old) }
    ensures twice { IfErr result (λ fault. fault ≡ BoundTwice → Repeats (visible scope.old ++ step_binders step.now)) }
{
    match step {
        Step::Test {
            atom: _,
            ty: _,
            case: _,
            others,
        } => walk_arms(alloc, scope, others, found),
        Step::Let(_, _) => Ok(()),
        Step::Fn {
            binding: _,
            parameters: _,
            last: _,
            body: _,
        } => Ok(()),
        Step::Block(_, _) => Ok(()),
        Step::Handle {
            binding: _,
            body: _,
            packet: _,
            handler: _,
        } => Ok(()),
        Step::Exception {
            variable: _,
            identifier: _,
            argument: _,
        } => Ok(()),
        Step::Name(_, _) => Ok(()),
        Step::Group(_, _) => Ok(()),
        Step::Counted(_) => Ok(()),
    }
}

#[cycle(walk)]
fn walk_handler(
    alloc: Global,
    scope: &mut Scope,
    packet: usize,
    handler: &Exp,
    found: &mut Found,
) -> Result<(), ScopeFault>
    ensures table { IfOk result (λ _. (es : Entries) → found.old ++ (exp_told handler.now).table (more (packet ∷ []) scope.old) es ≡ found.new ++ es) }
    ensures scope { IfOk result (λ _. scope.new ≡ scope.old) }
    ensures twice { IfErr result (λ fault. fault ≡ BoundTwice → Repeats (visible scope.old ++ packet ∷ binders_of handler.now)) }
{
    let len = scope.len();
    scope.add(packet)?;
    walk(alloc, scope, handler, found)?;
    scope.leave_to(len);
    Ok(())
}

#[cycle(walk)]
fn walk_all(
    alloc: Global,
    scope: &mut Scope,
    attempts: &[Exp],
    found: &mut Found,
) -> Result<(), ScopeFault>
    ensures table { IfOk result (λ _. (es : Entries) → found.old ++ all_tables (map exp_told attempts.now) scope.old es ≡ found.new ++ es) }
    ensures scope { IfOk result (λ _. scope.new ≡ scope.old) }
    ensures twice { IfErr result (λ fault. fault ≡ BoundTwice → Repeats (visible scope.old ++ joined (map binders_of attempts.now))) }
{
    for i in 0..attempts.len() {
        let attempt = &attempts[i];
        walk(alloc, scope, attempt, found)?;
    }
    Ok(())
}

#[cycle(walk)]
fn walk_arms(
    alloc: Global,
    scope: &mut Scope,
    arms: &[Arm],
    found: &mut Found,
) -> Result<(), ScopeFault>
    ensures table { IfOk result (λ _. (es : Entries) → found.old ++ all_tables (map arm_told arms.now) scope.old es ≡ found.new ++ es) }
    ensures scope { IfOk result (λ _. scope.new ≡ scope.old) }
    ensures twice { IfErr result (λ fault. fault ≡ BoundTwice → Repeats (visible scope.old ++ joined (map arm_binders arms.now))) }
{
    for i in 0..arms.len() {
        let arm = &arms[i];
        walk_arm(alloc, scope, arm, found)?;
    }
    Ok(())
}

#[cycle(walk)]
fn walk_arm(
    alloc: Global,
    scope: &mut Scope,
    arm: &Arm,
    found: &mut Found,
) -> Result<(), ScopeFault>
    ensures table { IfOk result (λ _. (es : Entries) → found.old ++ (arm_told arm.now).table scope.old es ≡ found.new ++ es) }
    ensures scope { IfOk result (λ _. scope.new ≡ scope.old) }
    ensures twice { IfErr result (λ fault. fault ≡ BoundTwice → Repeats (visible scope.old ++ arm_binders arm.now)) }
{
    let len = scope.len();
    bind_case(scope, arm.case)?;
    walk(alloc, scope, &arm.body, found)?;
    scope.leave_to(len);
    Ok(())
}

/// The entries of the functions of a group, which captures this. The scope of its functions is entered once.
#[cycle(walk)]
fn walk_functions(
    alloc: Global,
    capture: &Capture,
    group: &[Member],
    functions: &[Function],
    found: &mut Found,
) -> Result<(), ScopeFault>
    ensures table { IfOk result (λ _. (es : Entries) → found.old
        ++ functions_table (map function_told functions.now) (pieces_of capture.now.pieces.items) capture.now.captured.items (members_of group.now) es
        ≡ found.new ++ es) }
    ensures twice { IfErr result (λ fault. fault ≡ BoundTwice
        → Repeats ((capture.now.captured.items ++ names (members_of group.now)) ++ joined (map inner_binders functions.now))) }
{
    let mut scope = Scope::of_group(alloc, &capture.captured, group)?;
    for i in 0..functions.len() {
        let function = &functions[i];
        walk_member(alloc, &mut scope, capture, function, found)?;
    }
    Ok(())
}

/// The entries of a function of the group whose scope this is, and which captures this.
#[cycle(walk)]
fn walk_member(
    alloc: Global,
    scope: &mut Scope,
    capture: &Capture,
    function: &Function,
    found: &mut Found,
) -> Result<(), ScopeFault>
    requires { capture.now.captured.items ≡ scope.old.captured }
    ensures table { IfOk result (λ _. (es : Entries) → found.old
        ++ (function_told function.now).table (pieces_of capture.now.pieces.items) capture.now.captured.items scope.old.group es
        ≡ found.new ++ es) }
    ensures captured { IfOk result (λ _. scope.new.captured ≡ scope.old.captured) }
    ensures group { IfOk result (λ _. scope.new.group ≡ scope.old.group) }
    ensures twice { IfErr result (λ fault. fault ≡ BoundTwice
        → Repeats ((capture.now.captured.items ++ names scope.old.group) ++ inner_binders function.now)) }
{
    let uses = uses_of_member(alloc, function)?;
    walk_function(
        alloc,
        scope,
        capture,
        &function.parameters,
        function.last,
        &function.body,
        &uses,
        found,
    )
}

/// The entries of a function alone, which uses these variables and captures this.
#[cycle(walk)]
fn walk_alone(
    alloc: Global,
    capture: &Capture,
    parameters: &[Parameter],
    last: Parameter,
    body: &Exp,
    uses: &[usize],
    found: &mut Found,
) -> Result<(), ScopeFault>
    ensures table { IfOk result (λ _. (es : Entries) → found.old
        ++ function_table uses.now parameters.now last (exp_told body.now).table (pieces_of capture.now.pieces.items) capture.now.captured.items [] es
        ≡ found.new ++ es) }
    ensures twice { IfErr result (λ fault. fault ≡ BoundTwice
        → Repeats ((capture.now.captured.items ++ names []) ++ (variables_of parameters.now ++ last.variable ∷ binders_of body.now))) }
{
    let mut scope = Scope::of_group(alloc, &capture.captured, &[])?;
    walk_function(
        alloc, &mut scope, capture, parameters, last, body, uses, found,
    )
}

/// The entries of a function of the group whose scope this is, or of one alone, which uses these variables and captures this.
#[cycle(walk)]
fn walk_function(
    alloc: Global,
    scope: &mut Scope,
    capture: &Capture,
    parameters: &[Parameter],
    last: Parameter,
    body: &Exp,
    uses: &[usize],
    found: &mut Found,
) -> Result<(), ScopeFault>
    requires { capture.now.captured.items ≡ scope.old.captured }
    ensures table { IfOk result (λ _. (es : Entries) → found.old
        ++ function_table uses.now parameters.now last (exp_told body.now).table (pieces_of capture.now.pieces.items) capture.now.captured.items scope.old.group es
        ≡ found.new ++ es) }
    ensures captured { IfOk result (λ _. scope.new.captured ≡ scope.old.captured) }
    ensures group { IfOk result (λ _. scope.new.group ≡ scope.old.group) }
    ensures twice { IfErr result (λ fault. fault ≡ BoundTwice
        → Repeats ((capture.now.captured.items ++ names scope.old.group) ++ (variables_of parameters.now ++ last.variable ∷ binders_of body.now))) }
{
    let number = number_of(parameters, last);
    found.push(number, &capture.captured, &capture.pieces)?;
    if parameters.is_empty() {
        return walk_body(alloc, scope, last, body, found);
    }
    let inner = find_inner(alloc, scope, number, uses)?;
    let innermost = push_inner(alloc, &inner, rest_of(parameters), last, uses, found)?;
    let mut own = Scope::of_group(alloc, &innermost, &[])?;
    walk_body(alloc, &mut own, last, body, found)?;
    Ok(())
}

/// The entries in the body of a function of one parameter, of the group whose scope this is, or alone.
#[cycle(walk)]
fn walk_body(
    alloc: Global,
    scope: &mut Scope,
    last: Parameter,
    body: &Exp,
    found: &mut Found,
) -> Result<(), ScopeFault>
    ensures table { IfOk result (λ _. (es : Entries) → found.old
        ++ (exp_told body.now).table (scope_of scope.old.captured scope.old.group last.variable) es
        ≡ found.new ++ es) }
    ensures captured { IfOk result (λ _. scope.new.captured ≡ scope.old.captured) }
    ensures group { IfOk result (λ _. scope.new.group ≡ scope.old.group) }
    ensures twice { IfErr result (λ fault. fault ≡ BoundTwice
        → Repeats ((scope.old.captured ++ names scope.old.group) ++ last.variable ∷ binders_of body.now)) }
{
    scope.begin(last.variable)?;
    walk(alloc, scope, body, found)?;
    Ok(())
}
