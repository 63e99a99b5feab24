// A new variable with the value of an operation.
ghost use Rattle.std.specs.Prelude.{◌≡◌, suc, IfOk};
ghost use Rattle.ir_plain.specs.Tree.{Op};
ghost use Rattle.ir_poly.specs.Tests.{poly};
ghost use Rattle.plain_tree.specs.TreeOf.{operation_of};
ghost use Rattle.match_steps.specs.of_match_types.Views.{View, reading, Keeps};
ghost use Rattle.match_steps.specs.of_match_types.declared.work.Work.{Work as State};
ghost use Rattle.match_steps.specs.Steps.{Puts};
ghost use Rattle.exp_steps.specs.Making.{putting, counting, Reads};

use match_steps::match_types::types::new_binding;
use match_steps::match_types::work::{ValueType, Work};
use mlc_base::memory::NoMemory;
use plain_tree::tree::{Operation, Step};
use std::alloc::Global;

/// A new variable of a type with the value of an operation.
pub fn push_operation(
    alloc: Global,
    work: &mut Work,
    t: ValueType,
    operation: Operation,
    steps: &mut Vec<Step>,
) -> Result<usize, NoMemory>
    ensures is { IfOk result (λ n. n ≡ work.old.next) }
    ensures next { IfOk result (λ _. work.new.next ≡ suc work.old.next) }
    ensures keeps { IfOk result (λ _. Keeps work.old work.new) }
    ensures puts { IfOk result (λ _. (g : View → Op poly) → Reads work.new (λ v. operation_of (reading v) operation) g
        → Puts work.new steps.old.items steps.new.items (putting t work.old.next g)) }
{
    let binding = new_binding(alloc, work, t)?;
    steps.push(Step::Let(binding, operation))?;
    Ok(binding.variable)
}

/// Stands for so many further nodes of the source.
pub fn push_counted(count: usize, steps: &mut Vec<Step>) -> Result<(), NoMemory>
    ensures { IfOk result (λ _. (w : State) → Puts w steps.old.items steps.new.items (counting count)) }
{
    steps.push(Step::Counted(count))?;
    Ok(())
}
