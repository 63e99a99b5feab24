// The walk along a program: a tree is made with functions in place of what is one by itself. New variables are numbered in the order of the clean tree, where
// the other arms of a switch come after its first: so the other arms of tests are made behind what follows the steps, those of the last test first.

ghost use Rattle.std.specs.Prelude.{◌≡◌, ◌+◌, ◌++◌, ◌∷◌, false, ℕ, map, slice_index_or, IfOk};
ghost use Rattle.ir_mono.specs.Mono.{Mono};
ghost use Rattle.plain_tree.specs.TreeOf.{firsts, fun_of};
ghost use Rattle.mono_bound.specs.Reads.{reading, mono_of};
ghost use Rattle.eta_expand.specs.Expand.{Names, news, arms_news, fun_news, funs_news, expand, expand_arms, expand_fun, expand_funs};
ghost use Rattle.eta_parts.specs.Reads.{Texts, mono_step, steps_in};
ghost use Rattle.eta_code.specs.Steps.{S, front, front_news, filled, back_news, afters, marks, fronts, fronts_news, backs_news, wholes, IsFronted, expand_group, group_news, expand_arm, arm_news, expand_member, mono_arm, mono_function, arms_in, functions_in, with_found, found_or};

use crate::scope::{bind_case, bind_functions, bind_parameters, bind_step};
use eta_parts::value::expand_operation;
use mlc_base::make::{both, boxed};
use mlc_base::memory::NoMemory;
use mono_types::types::Types;
use plain_tree::tree::{Arm, Exp, Function, Parameter, Step};
use scoped_map::scoped::Scoped;
use std::alloc::Global;

/// An expression, in which these names are in scope; new variables are from the next on. The scope stays as it was.
#[cycle(walk)]
pub fn walk(
    alloc: Global,
    types: &Types,
    names: &mut Scoped<bool>,
    next: &mut usize,
    e: &Exp,
) -> Result<Exp, NoMemory>
    ensures made { IfOk result (λ made. (strings : Texts)
        → mono_of types.now strings made ≡ expand types.now names.old next.old (mono_of types.now strings e.now)) }
    ensures news { IfOk result (λ _. (strings : Texts)
        → next.new ≡ next.old + news types.now names.old (mono_of types.now strings e.now)) }
    ensures names { IfOk result (λ _. names.new ≡ names.old) }
{
    match e {
        Exp::Steps(steps, rest) => {
            let mut seen = Vec::new(alloc);
            let mut made = Vec::new(alloc);
            walk_steps(alloc, types, names, next, steps, &mut seen, &mut made)?;
            let end = walk_boxed(alloc, types, names, next, rest)?;
            walk_others(alloc, types, names, next, steps, &seen, &mut made)?;
            Ok(Exp::Steps(made, end))
        }
        Exp::Ret(atom) => Ok(Exp::Ret(*atom)),
        Exp::Switch { atom, ty, arms } => {
            let arms = walk_arms(alloc, types, names, next, arms)?;
            Ok(Exp::Switch {
                atom: *atom,
                ty: *ty,
                arms,
            })
        }
        Exp::First(attempts, last) => match both(
            walk_all(alloc, types, names, next, attempts),
            walk_boxed(alloc, types, names, next, last),
        ) {
            Ok((attempts, last)) => Ok(Exp::First(attempts, last)),
            Err(e) => Err(e),
        },
        Exp::Miss => Ok(Exp::Miss),
    }
}

#[cycle(walk)]
fn walk_boxed(
    alloc: Global,
    types: &Types,
    names: &mut Scoped<bool>,
    next: &mut usize,
    e: &Exp,
) -> Result<Box<Exp>, NoMemory>
    ensures made { IfOk result (λ made. (strings : Texts)
        → mono_of types.now strings made.value ≡ expand types.now names.old next.old (mono_of types.now strings e.now)) }
    ensures news { IfOk result (λ _. (strings : Texts)
        → next.new ≡ next.old + news types.now names.old (mono_of types.now strings e.now)) }
    ensures names { IfOk result (λ _. names.new ≡ names.old) }
{
    let made = walk(alloc, types, names, next, e)?;
    boxed(alloc, made)
}

/// Attempts, one after the other.
#[cycle(walk)]
fn walk_all(
    alloc: Global,
    types: &Types,
    names: &mut Scoped<bool>,
    next: &mut usize,
    attempts: &[Exp],
) -> Result<Vec<Exp>, NoMemory>
    ensures made { IfOk result (λ made. (strings : Texts) (d : Mono types.now)
        → firsts (map (mono_of types.now strings) made.items) (expand types.now names.old next.new d)
        ≡ expand types.now names.old next.old (firsts (map (mono_of types.now strings) attempts.now) d)) }
    ensures news { IfOk result (λ _. (strings : Texts) (d : Mono types.now) → next.new + news types.now names.old d
        ≡ next.old + news types.now names.old (firsts (map (mono_of types.now strings) attempts.now) d)) }
    ensures names { IfOk result (λ _. names.new ≡ names.old) }
{
    let mut made = Vec::new(alloc);
    for i in 0..attempts.len() {
        let attempt = &attempts[i];
        let new = walk(alloc, types, names, next, attempt)?;
        made.push(new)?;
    }
    Ok(made)
}

/// Arms, one after the other.
#[cycle(walk)]
fn walk_arms(
    alloc: Global,
    types: &Types,
    names: &mut Scoped<bool>,
    next: &mut usize,
    arms: &[Arm],
) -> Result<Vec<Arm>, NoMemory>
    ensures made { IfOk result (λ made. (strings : Texts) → arms_in types.now strings made.items
        ≡ expand_arms types.now names.old next.old (arms_in types.now strings arms.now)) }
    ensures news { IfOk result (λ _. (strings : Texts)
        → next.new ≡ next.old + arms_news types.now names.old (arms_in types.now strings arms.now)) }
    ensures names { IfOk result (λ _. names.new ≡ names.old) }
{
    let mut made = Vec::new(alloc);
    for i in 0..arms.len() {
        let arm = &arms[i];
        let new = walk_arm(alloc, types, names, next, arm)?;
        made.push(new)?;
    }
    Ok(made)
}

#[cycle(walk)]
fn walk_arm(
    alloc: Global,
    types: &Types,
    names: &mut Scoped<bool>,
    next: &mut usize,
    arm: &Arm,
) -> Result<Arm, NoMemory>
    ensures made { IfOk result (λ made. (strings : Texts)
        → mono_arm types.now strings made ≡ expand_arm types.now names.old next.old (mono_arm types.now strings arm.now)) }
    ensures news { IfOk result (λ _. (strings : Texts)
        → next.new ≡ next.old + arm_news types.now names.old (mono_arm types.now strings arm.now)) }
    ensures names { IfOk result (λ _. names.new ≡ names.old) }
{
    let len = names.len();
    bind_case(names, arm.case)?;
    let body = walk(alloc, types, names, next, &arm.body)?;
    names.truncate(len);
    Ok(Arm {
        case: arm.case,
        body,
    })
}

/// Steps, but for the other arms of their tests. The scope is what it is behind them; behind those seen before goes how many names were in scope before each
/// step.
#[cycle(walk)]
fn walk_steps(
    alloc: Global,
    types: &Types,
    names: &mut Scoped<bool>,
    next: &mut usize,
    steps: &[Step],
    seen: &mut Vec<usize>,
    made: &mut Vec<Step>,
) -> Result<(), NoMemory>
    ensures made { IfOk result (λ _. (strings : Texts) → steps_in types.now strings made.new.items
        ≡ steps_in types.now strings made.old.items ++ fronts types.now names.old next.old (steps_in types.now strings steps.now)) }
    ensures news { IfOk result (λ _. (strings : Texts)
        → next.new ≡ next.old + fronts_news types.now names.old (steps_in types.now strings steps.now)) }
    ensures names { IfOk result (λ _. (strings : Texts)
        → names.new ≡ afters types.now names.old (steps_in types.now strings steps.now)) }
    ensures seen { IfOk result (λ _. (strings : Texts)
        → seen.new.items ≡ seen.old.items ++ marks types.now names.old (steps_in types.now strings steps.now)) }
{
    for i in 0..steps.len() {
        let step = &steps[i];
        seen.push(names.len())?;
        let new = walk_step(alloc, types, names, next, step)?;
        made.push(new)?;
        bind_step(names, step)?;
    }
    Ok(())
}

/// A step, but for the other arms of a test.
#[cycle(walk)]
fn walk_step(
    alloc: Global,
    types: &Types,
    names: &mut Scoped<bool>,
    next: &mut usize,
    step: &Step,
) -> Result<Step, NoMemory>
    ensures made { IfOk result (λ made. (strings : Texts)
        → mono_step types.now strings made ≡ front types.now names.old next.old (mono_step types.now strings step.now)) }
    ensures news { IfOk result (λ _. (strings : Texts)
        → next.new ≡ next.old + front_news types.now names.old (mono_step types.now strings step.now)) }
    ensures names { IfOk result (λ _. names.new ≡ names.old) }
{
    match step {
        Step::Let(binding, operation) => expand_operation(
            alloc, types, names, next, *binding, operation,
        ),
        Step::Fn {
            binding,
            parameters,
            last,
            body,
        } => {
            let body = walk_function(alloc, types, names, next, parameters, *last, body)?;
            let body = boxed(alloc, body)?;
            let parameters = Vec::from_slice(alloc, parameters)?;
            Ok(Step::Fn {
                binding: *binding,
                parameters,
                last: *last,
                body,
            })
        }
        Step::Block(binding, body) => {
            let body = walk_boxed(alloc, types, names, next, body)?;
            Ok(Step::Block(*binding, body))
        }
        Step::Handle {
            binding,
            body,
            packet,
            handler,
        } => match both(
            walk_boxed(alloc, types, names, next, body),
            walk_handler(alloc, types, names, next, *packet, handler),
        ) {
            Ok((body, handler)) => Ok(Step::Handle {
                binding: *binding,
                body,
                packet: *packet,
                handler,
            }),
            Err(e) => Err(e),
        },
        Step::Exception {
            variable,
            identifier,
            argument,
        } => Ok(Step::Exception {
            variable: *variable,
            identifier: *identifier,
            argument: *argument,
        }),
        Step::Name(variable, exception) => Ok(Step::Name(*variable, *exception)),
        Step::Group(parameters, functions) => {
            let functions = walk_group(alloc, types, names, next, functions)?;
            Ok(Step::Group(*parameters, functions))
        }
        Step::Test {
            atom,
            ty,
            case,
            others: _,
        } => Ok(Step::Test {
            atom: *atom,
            ty: *ty,
            case: *case,
            others: Vec::new(alloc),
        }),
        Step::Counted(count) => Ok(Step::Counted(*count)),
    }
}

#[cycle(walk)]
fn walk_handler(
    alloc: Global,
    types: &Types,
    names: &mut Scoped<bool>,
    next: &mut usize,
    packet: usize,
    handler: &Exp,
) -> Result<Box<Exp>, NoMemory>
    ensures made { IfOk result (λ made. (strings : Texts) → mono_of types.now strings made.value
        ≡ expand types.now ((packet, false) ∷ names.old) next.old (mono_of types.now strings handler.now)) }
    ensures news { IfOk result (λ _. (strings : Texts)
        → next.new ≡ next.old + news types.now ((packet, false) ∷ names.old) (mono_of types.now strings handler.now)) }
    ensures names { IfOk result (λ _. names.new ≡ names.old) }
{
    let len = names.len();
    names.bind(packet, false)?;
    let made = walk_boxed(alloc, types, names, next, handler)?;
    names.truncate(len);
    Ok(made)
}

/// The body of a function with these parameters.
#[cycle(walk)]
fn walk_function(
    alloc: Global,
    types: &Types,
    names: &mut Scoped<bool>,
    next: &mut usize,
    parameters: &[Parameter],
    last: Parameter,
    body: &Exp,
) -> Result<Exp, NoMemory>
    ensures made { IfOk result (λ made. (strings : Texts)
        → fun_of (reading types.now strings) parameters.now last (mono_of types.now strings made)
        ≡ expand_fun types.now names.old next.old (fun_of (reading types.now strings) parameters.now last (mono_of types.now strings body.now))) }
    ensures news { IfOk result (λ _. (strings : Texts)
        → next.new ≡ next.old + fun_news types.now names.old (fun_of (reading types.now strings) parameters.now last (mono_of types.now strings body.now))) }
    ensures names { IfOk result (λ _. names.new ≡ names.old) }
{
    let len = names.len();
    bind_parameters(names, parameters, last)?;
    let made = walk(alloc, types, names, next, body)?;
    names.truncate(len);
    Ok(made)
}

/// The functions of a group, all of which are in scope.
#[cycle(walk)]
fn walk_group(
    alloc: Global,
    types: &Types,
    names: &mut Scoped<bool>,
    next: &mut usize,
    functions: &[Function],
) -> Result<Vec<Function>, NoMemory>
    ensures made { IfOk result (λ made. (strings : Texts) → functions_in types.now strings made.items
        ≡ expand_group types.now names.old next.old (functions_in types.now strings functions.now)) }
    ensures news { IfOk result (λ _. (strings : Texts) → next.new ≡ next.old + group_news types.now names.old (functions_in types.now strings functions.now)) }
    ensures names { IfOk result (λ _. names.new ≡ names.old) }
{
    let len = names.len();
    bind_functions(names, functions)?;
    let made = walk_functions(alloc, types, names, next, functions)?;
    names.truncate(len);
    Ok(made)
}

#[cycle(walk)]
fn walk_functions(
    alloc: Global,
    types: &Types,
    names: &mut Scoped<bool>,
    next: &mut usize,
    functions: &[Function],
) -> Result<Vec<Function>, NoMemory>
    ensures made { IfOk result (λ made. (strings : Texts) → functions_in types.now strings made.items
        ≡ expand_funs types.now names.old next.old (functions_in types.now strings functions.now)) }
    ensures news { IfOk result (λ _. (strings : Texts)
        → next.new ≡ next.old + funs_news types.now names.old (functions_in types.now strings functions.now)) }
    ensures names { IfOk result (λ _. names.new ≡ names.old) }
{
    let mut made = Vec::new(alloc);
    for i in 0..functions.len() {
        let function = &functions[i];
        let new = walk_member(alloc, types, names, next, function)?;
        made.push(new)?;
    }
    Ok(made)
}

#[cycle(walk)]
fn walk_member(
    alloc: Global,
    types: &Types,
    names: &mut Scoped<bool>,
    next: &mut usize,
    function: &Function,
) -> Result<Function, NoMemory>
    ensures made { IfOk result (λ made. (strings : Texts)
        → mono_function types.now strings made ≡ expand_member types.now names.old next.old (mono_function types.now strings function.now)) }
    ensures news { IfOk result (λ _. (strings : Texts)
        → next.new ≡ next.old + fun_news types.now names.old (mono_function types.now strings function.now).function) }
    ensures names { IfOk result (λ _. names.new ≡ names.old) }
{
    let parameters = Vec::from_slice(alloc, &function.parameters)?;
    let body = walk_function(
        alloc,
        types,
        names,
        next,
        &function.parameters,
        function.last,
        &function.body,
    )?;
    Ok(Function {
        variable: function.variable,
        ty: function.ty,
        parameters,
        last: function.last,
        body,
    })
}

/// How many names were in scope before a step.
fn mark_at(seen: &[usize], step: usize) -> usize
    ensures { result ≡ slice_index_or seen.now step 0 }
{
    if step < seen.len() { seen[step] } else { 0 }
}

/// A step that is found, at its place, if there is one.
fn put_found(made: &mut Vec<Step>, place: usize, found: Option<Step>)
    ensures { made.new.items ≡ with_found made.old.items place found }
{
    if let Some(step) = found {
        if place < made.len() {
            made[place] = step;
        }
    }
}

/// The other arms of tests come to their steps, those of the last test first. The scope is left step by step.
#[cycle(walk)]
fn walk_others(
    alloc: Global,
    types: &Types,
    names: &mut Scoped<bool>,
    next: &mut usize,
    steps: &[Step],
    seen: &[usize],
    made: &mut Vec<Step>,
) -> Result<(), NoMemory>
    ensures made { IfOk result (λ _. (strings : Texts) (N : Names) (n : ℕ)
        → IsFronted types.now N n names.old seen.now (steps_in types.now strings made.old.items) (steps_in types.now strings steps.now)
        → steps_in types.now strings made.new.items ≡ wholes types.now N n next.old (steps_in types.now strings steps.now)) }
    ensures news { IfOk result (λ _. (strings : Texts) (N : Names) (n : ℕ)
        → IsFronted types.now N n names.old seen.now (steps_in types.now strings made.old.items) (steps_in types.now strings steps.now)
        → next.new ≡ next.old + backs_news types.now N (steps_in types.now strings steps.now)) }
    ensures names { IfOk result (λ _. (strings : Texts) (N : Names) (n : ℕ)
        → IsFronted types.now N n names.old seen.now (steps_in types.now strings made.old.items) (steps_in types.now strings steps.now)
        → names.new ≡ N) }
{
    let mut left = steps.len();
    while left > 0 {
        left -= 1;
        let mark = mark_at(seen, left);
        names.truncate(mark);
        let step = &steps[left];
        let found = walk_back(alloc, types, names, next, step)?;
        put_found(made, left, found);
    }
    Ok(())
}

/// A test with its other arms; nothing for another step.
#[cycle(walk)]
fn walk_back(
    alloc: Global,
    types: &Types,
    names: &mut Scoped<bool>,
    next: &mut usize,
    step: &Step,
) -> Result<Option<Step>, NoMemory>
    ensures made { IfOk result (λ found. (strings : Texts) (g : S types.now)
        → found_or types.now strings found g ≡ filled types.now names.old next.old (mono_step types.now strings step.now) g) }
    ensures news { IfOk result (λ _. (strings : Texts)
        → next.new ≡ next.old + back_news types.now names.old (mono_step types.now strings step.now)) }
    ensures names { IfOk result (λ _. names.new ≡ names.old) }
{
    match step {
        Step::Test {
            atom,
            ty,
            case,
            others,
        } => {
            let others = walk_arms(alloc, types, names, next, others)?;
            Ok(Some(Step::Test {
                atom: *atom,
                ty: *ty,
                case: *case,
                others,
            }))
        }
        _ => Ok(None),
    }
}
