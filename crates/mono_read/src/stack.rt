// The parts that are built so far and wait for those in front of them.
ghost use Rattle.std.specs.Prelude.{◌≡◌, ◌∷◌, ℕ, List, [], map, reverse, IfOk};
ghost use Rattle.ir_mono.specs.Types as table;
ghost use Rattle.plain_tree.specs.TreeOf as plain;
ghost use Rattle.plain_tree.specs.TreeOf.{operation_of};
ghost use Rattle.mono_bound.specs.Reads.{reading, mono_of};
ghost use Rattle.mono_read.specs.Building.{an_exp, a_binding, stepped, acted};
ghost use Rattle.mono_read.specs.Reads.{Texts, step_in, open_in, first_in, item_in, stack_in};

use mlc_base::make::boxed;
use mlc_base::memory::NoMemory;
use plain_tree::tree::{Arm, Binding, Case, Exp, Field, Operation, Parameter, Step};
use std::alloc::Global;

/// What is built. Each list stands from the last to the first.
#[derive(Drop)]
pub enum Item {
    /// Steps, and what comes of them.
    Exp(Vec<Step>, Exp),
    /// Attempts, and the last of them all.
    First(Vec<Exp>, Exp),
    Binding(Binding),
    /// The parameters of a function but for the last one, that, and the body.
    Function(Vec<Parameter>, Parameter, Exp),
    /// The variable of a packet, and the handler.
    Handler(usize, Exp),
    /// Arms but for the first one, its case, its steps, and what comes of them.
    Arms(Vec<Arm>, Case, Vec<Step>, Exp),
    Fields(Vec<Field>),
    Atoms(Vec<usize>),
    /// The variables and types of a group's functions.
    Heads(Vec<Parameter>),
    /// No arms, fields, atoms or heads.
    End,
}

/// Steps from the last to the first, and what comes of them.
#[derive(Drop)]
pub struct Open {
    pub steps: Vec<Step>,
    pub end: Exp,
}

/// What stands on top.
pub fn take(stack: &mut Vec<Item>) -> Result<Item, NoMemory>
    ensures { IfOk result (λ item. (types : List table.Row) (strings : Texts)
        → stack_in types strings stack.old.items ≡ item_in types strings item ∷ stack_in types strings stack.new.items) }
{
    match stack.pop() {
        Some(item) => Ok(item),
        None => Err(NoMemory),
    }
}

/// Puts an item on top.
pub fn push(stack: &mut Vec<Item>, item: Item) -> Result<(), NoMemory>
    ensures { IfOk result (λ _. (types : List table.Row) (strings : Texts)
        → stack_in types strings stack.new.items ≡ item_in types strings item ∷ stack_in types strings stack.old.items) }
{
    stack.push(item)?;
    Ok(())
}

/// Steps as an expression.
pub fn closed(alloc: Global, taken: Open) -> Result<Exp, NoMemory>
    ensures { IfOk result (λ made. (types : List table.Row) (strings : Texts)
        → mono_of types strings made ≡ open_in types strings taken.steps.items taken.end) }
{
    let Open { mut steps, end } = taken;
    if steps.is_empty() {
        return Ok(end);
    }
    steps.reverse();
    let end = boxed(alloc, end)?;
    Ok(Exp::Steps(steps, end))
}

/// Attempts as an expression.
fn attempted(alloc: Global, attempts: Vec<Exp>, last: Exp) -> Result<Exp, NoMemory>
    ensures { IfOk result (λ made. (types : List table.Row) (strings : Texts) → mono_of types strings made ≡ first_in types strings attempts.items last) }
{
    let mut attempts = attempts;
    attempts.reverse();
    let last = boxed(alloc, last)?;
    Ok(Exp::First(attempts, last))
}

/// The expression on top, to which steps may be added.
pub fn take_open(alloc: Global, stack: &mut Vec<Item>) -> Result<Open, NoMemory>
    ensures { IfOk result (λ made. (types : List table.Row) (strings : Texts)
        → stack_in types strings stack.old.items ≡ an_exp (open_in types strings made.steps.items made.end) ∷ stack_in types strings stack.new.items) }
{
    match take(stack)? {
        Item::Exp(steps, end) => Ok(Open { steps, end }),
        Item::First(attempts, last) => {
            let end = attempted(alloc, attempts, last)?;
            Ok(Open {
                steps: Vec::new(alloc),
                end,
            })
        }
        _ => Err(NoMemory),
    }
}

/// The expression on top.
pub fn take_exp(alloc: Global, stack: &mut Vec<Item>) -> Result<Exp, NoMemory>
    ensures { IfOk result (λ e. (types : List table.Row) (strings : Texts)
        → stack_in types strings stack.old.items ≡ an_exp (mono_of types strings e) ∷ stack_in types strings stack.new.items) }
{
    let taken = take_open(alloc, stack)?;
    closed(alloc, taken)
}

/// A step in front of the expression on top.
pub fn push_step(alloc: Global, stack: &mut Vec<Item>, step: Step) -> Result<(), NoMemory>
    ensures { IfOk result (λ _. (types : List table.Row) (strings : Texts)
        → stack_in types strings stack.new.items ≡ stepped (plain.put (step_in types strings step)) (stack_in types strings stack.old.items)) }
{
    match take_open(alloc, stack) {
        Ok(taken) => push_onto(stack, taken, step),
        Err(e) => Err(e),
    }
}

/// Steps with one more in front, on top.
pub fn push_onto(stack: &mut Vec<Item>, taken: Open, step: Step) -> Result<(), NoMemory>
    ensures { IfOk result (λ _. (types : List table.Row) (strings : Texts)
        → stack_in types strings stack.new.items
        ≡ an_exp (plain.put (step_in types strings step) (open_in types strings taken.steps.items taken.end)) ∷ stack_in types strings stack.old.items) }
{
    let Open { mut steps, end } = taken;
    steps.push(step)?;
    push(stack, Item::Exp(steps, end))
}

/// The binding on top.
pub fn take_binding(stack: &mut Vec<Item>) -> Result<Binding, NoMemory>
    ensures { IfOk result (λ x. (types : List table.Row) (strings : Texts)
        → stack_in types strings stack.old.items ≡ a_binding x.variable x.ty ∷ stack_in types strings stack.new.items) }
{
    match take(stack)? {
        Item::Binding(binding) => Ok(binding),
        _ => Err(NoMemory),
    }
}

/// The binding of an operation.
pub fn push_operation(
    alloc: Global,
    stack: &mut Vec<Item>,
    operation: Operation,
) -> Result<(), NoMemory>
    ensures { IfOk result (λ _. (types : List table.Row) (strings : Texts)
        → stack_in types strings stack.new.items ≡ acted (operation_of (reading types strings) operation) (stack_in types strings stack.old.items)) }
{
    match take_binding(stack) {
        Ok(binding) => push_step(alloc, stack, Step::Let(binding, operation)),
        Err(e) => Err(e),
    }
}
