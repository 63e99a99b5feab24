// Steps and expressions, made of parts.
ghost use Rattle.std.specs.Prelude.{◌≡◌, List, IfOk};
ghost use Rattle.ir_plain.specs.Tree.{fn, last, block, ret};
ghost use Rattle.plain_tree.specs.TreeOf.{onto};
ghost use Rattle.mono_bound.specs.Reads.{mono_of};
ghost use Rattle.eta_expand.specs.Expand.{gives_it};
ghost use Rattle.eta_parts.specs.Reads.{Row, Texts, mono_operation, mono_step, steps_in, a_let};

use mlc_base::make::boxed;
use mlc_base::memory::NoMemory;
use plain_tree::tree::{Binding, Exp, Operation, Parameter, Step};
use std::alloc::Global;

/// A variable of a type, that is generalised over nothing.
pub fn value(variable: usize, ty: usize) -> Binding
    ensures variable { result.variable ≡ variable }
    ensures ty { result.ty ≡ ty }
{
    Binding {
        variable,
        parameters: 0,
        ty,
    }
}

/// A variable, after steps.
pub fn ended(alloc: Global, steps: Vec<Step>, variable: usize) -> Result<Exp, NoMemory>
    ensures { IfOk result (λ made. (types : List Row) (strings : Texts)
        → mono_of types strings made ≡ onto (steps_in types strings steps.items) (ret variable)) }
{
    let end = boxed(alloc, Exp::Ret(variable))?;
    Ok(Exp::Steps(steps, end))
}

/// The value of an operation, after steps.
pub fn giving(
    alloc: Global,
    steps: Vec<Step>,
    given: Binding,
    operation: Operation,
) -> Result<Exp, NoMemory>
    ensures { IfOk result (λ made. (types : List Row) (strings : Texts) → mono_of types strings made
        ≡ onto (steps_in types strings steps.items) (gives_it types given.variable given.ty (mono_operation types strings operation))) }
{
    let mut steps = steps;
    steps.push(Step::Let(given, operation))?;
    ended(alloc, steps, given.variable)
}

/// A function of one parameter as the value that is bound.
pub fn function(
    alloc: Global,
    binding: Binding,
    parameter: Parameter,
    body: Exp,
) -> Result<Step, NoMemory>
    ensures { IfOk result (λ made. (types : List Row) (strings : Texts) → mono_step types strings made
        ≡ a_let types strings binding (fn (last parameter.variable parameter.ty (mono_of types strings body)))) }
{
    let body = boxed(alloc, body)?;
    Ok(Step::Fn {
        binding,
        parameters: Vec::new(alloc),
        last: parameter,
        body,
    })
}

/// A block whose value is bound.
pub fn block_of(alloc: Global, binding: Binding, body: Exp) -> Result<Step, NoMemory>
    ensures { IfOk result (λ made. (types : List Row) (strings : Texts)
        → mono_step types strings made ≡ a_let types strings binding (block (mono_of types strings body))) }
{
    let body = boxed(alloc, body)?;
    Ok(Step::Block(binding, body))
}
