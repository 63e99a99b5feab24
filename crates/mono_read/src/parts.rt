// What holds expressions.
ghost use Rattle.std.specs.Prelude.{◌≡◌, ◌∷◌, ℕ, List, map, reverse, IfOk, IfSome};
ghost use Rattle.ir_plain.specs.Tree as tree;
ghost use Rattle.ir_mono.specs.Types as table;
ghost use Rattle.ir_mono.specs.Mono.{mono};
ghost use Rattle.plain_tree.specs.TreeOf.{arms_of, funs_of, fun_of, case_of, operation_of};
ghost use Rattle.mono_bound.specs.Reads.{reading, mono_of};
ghost use Rattle.mono_read.specs.Words.{op_sign};
ghost use Rattle.mono_read.specs.Building.{an_exp, a_fun, some_arms, Stack, stepped, acted, with_arms, with_handler};
ghost use Rattle.mono_read.specs.Reads.{Texts, heads_in, sign_of_act, arm_in, function_in, open_in, first_in, stack_in, Puts, Takes};
ghost use Rattle.mono_state.specs.declared.word.Word.TheVariants as word;

use crate::lists::{put_perform, put_record, take_heads};
use crate::stack::{
    Item, Open, closed, push, push_onto, push_operation, push_step, take, take_binding, take_exp,
    take_open,
};
use mlc_base::make::{both, boxed, one};
use mlc_base::memory::NoMemory;
use mono_state::word::Act;
use plain_tree::tree::{Arm, Case, Exp, Function, Operation, Parameter, Step};
use std::alloc::Global;

/// An operation that has no list and no expression.
fn leaf(alloc: Global, act: &Act) -> Option<Operation>
    ensures { IfSome result (λ made. (types : List table.Row) (strings : Texts)
        → sign_of_act types strings act.now ≡ op_sign (operation_of (reading types strings) made)) }
{
    match act {
        Act::Use(variable) => Some(Operation::Use(*variable, Vec::new(alloc))),
        Act::Constant(constant) => Some(Operation::Constant(*constant)),
        Act::Constructor { constructor, ty } => Some(Operation::Constructor {
            constructor: *constructor,
            ty: *ty,
        }),
        Act::Construct {
            place,
            constructor,
            ty,
            argument,
        } => Some(Operation::Construct {
            place: *place,
            constructor: *constructor,
            ty: *ty,
            argument: *argument,
        }),
        Act::Reference(ty) => Some(Operation::Reference(*ty)),
        Act::Refer {
            place,
            ty,
            argument,
        } => Some(Operation::Refer {
            place: *place,
            ty: *ty,
            argument: *argument,
        }),
        Act::Content { ty, reference } => Some(Operation::Content {
            ty: *ty,
            reference: *reference,
        }),
        Act::Pack {
            place,
            ty,
            exception,
            argument,
        } => Some(Operation::Pack {
            place: *place,
            ty: *ty,
            exception: *exception,
            argument: *argument,
        }),
        Act::Record(_) => None,
        Act::Select { ty, label, record } => Some(Operation::Select {
            ty: *ty,
            label: *label,
            record: *record,
        }),
        Act::Primitive(primitive, ty) => Some(Operation::Primitive(*primitive, *ty)),
        Act::Perform {
            place: _,
            primitive: _,
            ty: _,
        } => None,
        Act::Apply {
            place,
            function,
            argument,
        } => Some(Operation::Apply {
            place: *place,
            function: *function,
            argument: *argument,
        }),
        Act::Raise(packet) => Some(Operation::Raise(*packet)),
        Act::RaiseInitial(number) => Some(Operation::RaiseInitial(*number)),
    }
}

/// An operation that has a list.
fn put_listed(alloc: Global, stack: &mut Vec<Item>, act: &Act) -> Result<(), NoMemory>
    ensures { IfOk result (λ _. Puts (word.Act act.now) stack.old.items stack.new.items) }
{
    match act {
        Act::Record(ty) => put_record(alloc, stack, *ty),
        Act::Perform {
            place,
            primitive,
            ty,
        } => put_perform(alloc, stack, *place, *primitive, *ty),
        _ => Err(NoMemory),
    }
}

/// An operation that has no expression.
pub fn put_act(alloc: Global, stack: &mut Vec<Item>, act: &Act) -> Result<(), NoMemory>
    ensures { IfOk result (λ _. Puts (word.Act act.now) stack.old.items stack.new.items) }
{
    match leaf(alloc, act) {
        Some(operation) => push_operation(alloc, stack, operation),
        None => put_listed(alloc, stack, act),
    }
}

/// Attempts with one more in front.
fn push_attempt(
    stack: &mut Vec<Item>,
    attempts: Vec<Exp>,
    last: Exp,
    attempt: Exp,
) -> Result<(), NoMemory>
    ensures { IfOk result (λ _. (types : List table.Row) (strings : Texts)
        → stack_in types strings stack.new.items
        ≡ an_exp (tree.first (mono_of types strings attempt) (first_in types strings attempts.items last)) ∷ stack_in types strings stack.old.items) }
{
    let mut attempts = attempts;
    attempts.push(attempt)?;
    push(stack, Item::First(attempts, last))
}

/// An attempt in front of the last one.
fn push_both(
    alloc: Global,
    stack: &mut Vec<Item>,
    taken: Open,
    attempt: Exp,
) -> Result<(), NoMemory>
    ensures { IfOk result (λ _. (types : List table.Row) (strings : Texts)
        → stack_in types strings stack.new.items
        ≡ an_exp (tree.first (mono_of types strings attempt) (open_in types strings taken.steps.items taken.end)) ∷ stack_in types strings stack.old.items) }
{
    let last = closed(alloc, taken)?;
    let attempts = one(alloc, attempt)?;
    push(stack, Item::First(attempts, last))
}

/// An attempt, in front of what comes where it misses.
fn add_attempt(alloc: Global, stack: &mut Vec<Item>, attempt: Exp) -> Result<(), NoMemory>
    ensures { IfOk result (λ _. (types : List table.Row) (strings : Texts)
        → stack_in types strings stack.new.items ≡ stepped (tree.first (mono_of types strings attempt)) (stack_in types strings stack.old.items)) }
{
    match take(stack)? {
        Item::First(attempts, last) => push_attempt(stack, attempts, last, attempt),
        Item::Exp(steps, end) => push_both(alloc, stack, Open { steps, end }, attempt),
        _ => Err(NoMemory),
    }
}

pub fn put_first(alloc: Global, stack: &mut Vec<Item>) -> Result<(), NoMemory>
    ensures { IfOk result (λ _. Puts word.First stack.old.items stack.new.items) }
{
    match take_exp(alloc, stack) {
        Ok(attempt) => add_attempt(alloc, stack, attempt),
        Err(e) => Err(e),
    }
}

/// Arms, the first of which has all its steps.
fn close_arm(alloc: Global, arms: Vec<Arm>, case: Case, taken: Open) -> Result<Vec<Arm>, NoMemory>
    ensures { IfOk result (λ made. (types : List table.Row) (strings : Texts)
        → arms_of (map (arm_in types strings) (reverse made.items))
        ≡ tree.arm (case_of (reading types strings) case) (open_in types strings taken.steps.items taken.end) (arms_of (map (arm_in types strings) (reverse arms.items)))) }
{
    let body = closed(alloc, taken)?;
    let mut arms = arms;
    arms.push(Arm { case, body })?;
    Ok(arms)
}

/// The arms on top, from the last to the first.
fn take_arms(alloc: Global, stack: &mut Vec<Item>) -> Result<Vec<Arm>, NoMemory>
    ensures { IfOk result (λ arms. (types : List table.Row) (strings : Texts) (f : tree.Arms (mono types) → Stack types → Stack types)
        → with_arms (stack_in types strings stack.old.items) f
        ≡ f (arms_of (map (arm_in types strings) (reverse arms.items))) (stack_in types strings stack.new.items)) }
{
    match take(stack)? {
        Item::Arms(arms, case, steps, end) => close_arm(alloc, arms, case, Open { steps, end }),
        Item::End => Ok(Vec::new(alloc)),
        _ => Err(NoMemory),
    }
}

/// An arm in front of those on top.
fn add_arm(alloc: Global, stack: &mut Vec<Item>, case: Case, taken: Open) -> Result<(), NoMemory>
    ensures { IfOk result (λ _. (types : List table.Row) (strings : Texts)
        → stack_in types strings stack.new.items
        ≡ with_arms (stack_in types strings stack.old.items)
        (λ arms rest. some_arms (tree.arm (case_of (reading types strings) case) (open_in types strings taken.steps.items taken.end) arms) ∷ rest)) }
{
    match take_arms(alloc, stack) {
        Ok(arms) => {
            let Open { steps, end } = taken;
            push(stack, Item::Arms(arms, case, steps, end))
        }
        Err(e) => Err(e),
    }
}

pub fn put_arm(alloc: Global, stack: &mut Vec<Item>, case: Case) -> Result<(), NoMemory>
    ensures { IfOk result (λ _. Puts (word.Arm case) stack.old.items stack.new.items) }
{
    match take_open(alloc, stack) {
        Ok(taken) => add_arm(alloc, stack, case, taken),
        Err(e) => Err(e),
    }
}

/// A test: what comes behind it is the first arm.
fn push_test(
    stack: &mut Vec<Item>,
    atom: usize,
    ty: usize,
    case: Case,
    arms: Vec<Arm>,
    taken: Open,
) -> Result<(), NoMemory>
    ensures { IfOk result (λ _. (types : List table.Row) (strings : Texts)
        → stack_in types strings stack.new.items
        ≡ an_exp (tree.switch atom ty (tree.arm (case_of (reading types strings) case) (open_in types strings taken.steps.items taken.end)
        (arms_of (map (arm_in types strings) (reverse arms.items))))) ∷ stack_in types strings stack.old.items) }
{
    let mut others = arms;
    others.reverse();
    push_onto(
        stack,
        taken,
        Step::Test {
            atom,
            ty,
            case,
            others,
        },
    )
}

/// A switch without arms.
fn push_empty(alloc: Global, stack: &mut Vec<Item>, atom: usize, ty: usize) -> Result<(), NoMemory>
    ensures { IfOk result (λ _. (types : List table.Row) (strings : Texts)
        → stack_in types strings stack.new.items ≡ an_exp (tree.switch atom ty tree.no_arms) ∷ stack_in types strings stack.old.items) }
{
    let arms = Vec::new(alloc);
    push(
        stack,
        Item::Exp(Vec::new(alloc), Exp::Switch { atom, ty, arms }),
    )
}

pub fn put_switch(
    alloc: Global,
    stack: &mut Vec<Item>,
    atom: usize,
    ty: usize,
) -> Result<(), NoMemory>
    ensures { IfOk result (λ _. Puts (word.Switch atom ty) stack.old.items stack.new.items) }
{
    match take(stack)? {
        Item::Arms(arms, case, steps, end) => {
            push_test(stack, atom, ty, case, arms, Open { steps, end })
        }
        Item::End => push_empty(alloc, stack, atom, ty),
        _ => Err(NoMemory),
    }
}

/// The last parameter of a function, whose body is on top.
pub fn put_last(alloc: Global, stack: &mut Vec<Item>, last: Parameter) -> Result<(), NoMemory>
    ensures { IfOk result (λ _. Puts (word.Last last) stack.old.items stack.new.items) }
{
    match take_exp(alloc, stack) {
        Ok(body) => push(stack, Item::Function(Vec::new(alloc), last, body)),
        Err(e) => Err(e),
    }
}

/// The function on top.
fn take_function(stack: &mut Vec<Item>, head: Parameter) -> Result<Function, NoMemory>
    ensures taken { IfOk result (λ made. (types : List table.Row) (strings : Texts)
        → stack_in types strings stack.old.items ≡ a_fun (function_in types strings made).function ∷ stack_in types strings stack.new.items) }
    ensures variable { IfOk result (λ made. made.variable ≡ head.variable) }
    ensures ty { IfOk result (λ made. made.ty ≡ head.ty) }
{
    match take(stack)? {
        Item::Function(mut parameters, last, body) => {
            parameters.reverse();
            Ok(Function {
                variable: head.variable,
                ty: head.ty,
                parameters,
                last,
                body,
            })
        }
        _ => Err(NoMemory),
    }
}

/// One more parameter in front of those of a function.
fn push_parameter(
    stack: &mut Vec<Item>,
    parameters: Vec<Parameter>,
    last: Parameter,
    body: Exp,
    new: Parameter,
) -> Result<(), NoMemory>
    ensures { IfOk result (λ _. (types : List table.Row) (strings : Texts)
        → stack_in types strings stack.new.items
        ≡ a_fun (tree.more new.variable new.ty (fun_of (reading types strings) (reverse parameters.items) last (mono_of types strings body)))
        ∷ stack_in types strings stack.old.items) }
{
    let mut parameters = parameters;
    parameters.push(new)?;
    push(stack, Item::Function(parameters, last, body))
}

pub fn put_parameter(stack: &mut Vec<Item>, new: Parameter) -> Result<(), NoMemory>
    ensures { IfOk result (λ _. Puts (word.Parameter new) stack.old.items stack.new.items) }
{
    match take(stack)? {
        Item::Function(parameters, last, body) => {
            push_parameter(stack, parameters, last, body, new)
        }
        _ => Err(NoMemory),
    }
}

/// The binding of a function.
fn bind_function(
    alloc: Global,
    stack: &mut Vec<Item>,
    parameters: Vec<Parameter>,
    last: Parameter,
    body: Exp,
) -> Result<(), NoMemory>
    ensures { IfOk result (λ _. (types : List table.Row) (strings : Texts)
        → stack_in types strings stack.new.items
        ≡ acted (tree.fn (fun_of (reading types strings) (reverse parameters.items) last (mono_of types strings body))) (stack_in types strings stack.old.items)) }
{
    let mut parameters = parameters;
    parameters.reverse();
    let body = boxed(alloc, body)?;
    let binding = take_binding(stack)?;
    push_step(
        alloc,
        stack,
        Step::Fn {
            binding,
            parameters,
            last,
            body,
        },
    )
}

pub fn put_fn(alloc: Global, stack: &mut Vec<Item>) -> Result<(), NoMemory>
    ensures { IfOk result (λ _. Puts word.Fn stack.old.items stack.new.items) }
{
    match take(stack)? {
        Item::Function(parameters, last, body) => {
            bind_function(alloc, stack, parameters, last, body)
        }
        _ => Err(NoMemory),
    }
}

/// The binding of an expression's value.
fn bind_block(alloc: Global, stack: &mut Vec<Item>, body: Exp) -> Result<(), NoMemory>
    ensures { IfOk result (λ _. (types : List table.Row) (strings : Texts)
        → stack_in types strings stack.new.items ≡ acted (tree.block (mono_of types strings body)) (stack_in types strings stack.old.items)) }
{
    let body = boxed(alloc, body)?;
    let binding = take_binding(stack)?;
    push_step(alloc, stack, Step::Block(binding, body))
}

pub fn put_block(alloc: Global, stack: &mut Vec<Item>) -> Result<(), NoMemory>
    ensures { IfOk result (λ _. Puts word.Block stack.old.items stack.new.items) }
{
    match take_exp(alloc, stack) {
        Ok(body) => bind_block(alloc, stack, body),
        Err(e) => Err(e),
    }
}

/// A handler, and the variable of its packet.
pub fn put_packet(alloc: Global, stack: &mut Vec<Item>, packet: usize) -> Result<(), NoMemory>
    ensures { IfOk result (λ _. Puts (word.Packet packet) stack.old.items stack.new.items) }
{
    match take_exp(alloc, stack) {
        Ok(handler) => push(stack, Item::Handler(packet, handler)),
        Err(e) => Err(e),
    }
}

/// The binding of what is handled.
fn bind_handle(
    alloc: Global,
    stack: &mut Vec<Item>,
    body: Exp,
    packet: usize,
    handler: Exp,
) -> Result<(), NoMemory>
    ensures { IfOk result (λ _. (types : List table.Row) (strings : Texts)
        → stack_in types strings stack.new.items
        ≡ acted (tree.handle (mono_of types strings body) packet (mono_of types strings handler)) (stack_in types strings stack.old.items)) }
{
    let binding = take_binding(stack)?;
    match both(boxed(alloc, body), boxed(alloc, handler)) {
        Ok((body, handler)) => push_step(
            alloc,
            stack,
            Step::Handle {
                binding,
                body,
                packet,
                handler,
            },
        ),
        Err(e) => Err(e),
    }
}

/// What is handled, in front of its handler.
fn add_handle(alloc: Global, stack: &mut Vec<Item>, body: Exp) -> Result<(), NoMemory>
    ensures { IfOk result (λ _. (types : List table.Row) (strings : Texts)
        → stack_in types strings stack.new.items
        ≡ with_handler (stack_in types strings stack.old.items) (λ x d rest. acted (tree.handle (mono_of types strings body) x d) rest)) }
{
    match take(stack)? {
        Item::Handler(packet, handler) => bind_handle(alloc, stack, body, packet, handler),
        _ => Err(NoMemory),
    }
}

pub fn put_handle(alloc: Global, stack: &mut Vec<Item>) -> Result<(), NoMemory>
    ensures { IfOk result (λ _. Puts word.Handle stack.old.items stack.new.items) }
{
    match take_exp(alloc, stack) {
        Ok(body) => add_handle(alloc, stack, body),
        Err(e) => Err(e),
    }
}

/// The functions on top, one for each head.
fn take_functions(
    alloc: Global,
    stack: &mut Vec<Item>,
    heads: &[Parameter],
) -> Result<Vec<Function>, NoMemory>
    ensures { IfOk result (λ made. (types : List table.Row) (strings : Texts)
        → Takes types (heads_in heads.now) (stack_in types strings stack.old.items)
        (funs_of (map (function_in types strings) made.items)) (stack_in types strings stack.new.items)) }
{
    let mut made = Vec::new(alloc);
    for i in 0..heads.len() {
        let head = &heads[i];
        let function = take_function(stack, *head)?;
        made.push(function)?;
    }
    Ok(made)
}

/// A group, whose heads and functions are on top.
pub fn put_group(alloc: Global, stack: &mut Vec<Item>) -> Result<(), NoMemory>
    ensures { IfOk result (λ _. Puts word.Group stack.old.items stack.new.items) }
{
    let mut heads = take_heads(alloc, stack)?;
    heads.reverse();
    let functions = take_functions(alloc, stack, &heads)?;
    push_step(alloc, stack, Step::Group(0, functions))
}
