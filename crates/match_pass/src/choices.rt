// Steps that may miss, and what comes where they do.
ghost use Rattle.std.specs.Prelude.{◌≡◌, ◌∷◌, ◌++◌, [], suc, map, IfOk};
ghost use Rattle.ir_plain.specs.Tree.{ret, handle};
ghost use Rattle.ir_poly.specs.Tests.{Tests};
ghost use Rattle.match_compile.specs.Compile.{atom, otherwise};
ghost use Rattle.plain_tree.specs.TreeOf.{firsts, tree_of};
ghost use Rattle.general_bindings.specs.of_match_types.Views.{View, Keeps, reading};
ghost use Rattle.general_bindings.specs.of_match_types.declared.work.ValueType.TheVariants.{Source as OfSource};
ghost use Rattle.general_bindings.specs.of_match_steps.Steps.{stand};
ghost use Rattle.general_bindings.specs.of_exp_steps.Making.{Pushed};
ghost use Rattle.general_bindings.specs.of_exp_blocks.Giving.{Gives, otherwise_of};
ghost use Rattle.match_pass.specs.Going.{Ending, Chosen};

use general_bindings::exp_blocks::blocks::{
    Otherwise, attempted, ended, one_of, push_block, push_handle, raising,
};
use general_bindings::match_types::work::{ValueType, Work};
use mlc_base::memory::NoMemory;
use plain_tree::tree::{Exp, Step};
use std::alloc::Global;

/// Steps that end with a value, and what is raised, in place of a value of the type t, where they miss: a block of both comes into a new variable.
pub fn push_choice(
    alloc: Global,
    work: &mut Work,
    u: usize,
    inner: Vec<Step>,
    value: usize,
    t: ValueType,
    matched: usize,
    other: Otherwise,
    steps: &mut Vec<Step>,
) -> Result<usize, NoMemory>
    ensures { IfOk result (λ a. (g : View → Tests) → Ending work.old inner.items value g
        → Chosen work.old work.new steps.old.items steps.new.items u t matched (otherwise_of other) g a) }
{
    let made = ended(alloc, inner, value)?;
    let last = raising(alloc, work, t, matched, other)?;
    let all = one_of(alloc, made, last)?;
    let a = push_block(alloc, work, ValueType::Source(u), all, steps)?;
    Ok(a)
}

/// Steps that end with a value, and the handler of the packet that they raise.
pub fn push_handled(
    alloc: Global,
    work: &mut Work,
    u: usize,
    inner: Vec<Step>,
    value: usize,
    packet: usize,
    handler: Exp,
    steps: &mut Vec<Step>,
) -> Result<usize, NoMemory>
    ensures { IfOk result (λ a. (g h : View → Tests) → Ending work.old inner.items value g → Gives work.old handler h
        → Pushed work.old work.new steps.old.items steps.new.items (OfSource u) (λ v. handle (g v) packet (h v)) a) }
{
    let body = ended(alloc, inner, value)?;
    let a = push_handle(alloc, work, u, body, packet, handler, steps)?;
    Ok(a)
}

/// Steps that end with a value, behind other attempts.
pub fn add_attempt(
    alloc: Global,
    steps: Vec<Step>,
    value: usize,
    attempts: &mut Vec<Exp>,
) -> Result<(), NoMemory>
    ensures { IfOk result (λ _. (v : View) → map (tree_of (reading v)) attempts.new.items
        ≡ map (tree_of (reading v)) attempts.old.items ++ stand v steps.items (ret (atom value)) ∷ []) }
{
    let attempt = ended(alloc, steps, value)?;
    attempts.push(attempt)?;
    Ok(())
}

/// Attempts, and what is raised in place of a value of the source's type u where all miss.
pub fn finish_attempts(
    alloc: Global,
    work: &mut Work,
    attempts: Vec<Exp>,
    u: usize,
    matched: usize,
    other: Otherwise,
) -> Result<Exp, NoMemory>
    ensures next { IfOk result (λ _. work.new.next ≡ suc work.old.next) }
    ensures keeps { IfOk result (λ _. Keeps work.old work.new) }
    ensures gives { IfOk result (λ made. Gives work.new made (λ v. firsts (map (tree_of (reading v)) attempts.items)
        (otherwise v.scope work.old.next (v.source.type u) matched (otherwise_of other)))) }
{
    let last = raising(alloc, work, ValueType::Source(u), matched, other)?;
    let made = attempted(alloc, attempts, last)?;
    Ok(made)
}
