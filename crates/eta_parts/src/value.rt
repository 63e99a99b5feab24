// An operation whose value is bound, with functions in place of what is one by itself.
ghost use Rattle.std.specs.Prelude.{◌≡◌, ◌+◌, List, IfOk};
ghost use Rattle.eta_expand.specs.Expand.{expand_op, op_news};
ghost use Rattle.eta_parts.specs.Reads.{Row, Texts, mono_operation, mono_step, a_let};

use crate::ask::{given_at, takes};
use crate::copies::copy_operation;
use crate::functions::{
    constructing_function, exception_function, primitive_function, referring_function,
};
use mlc_base::memory::NoMemory;
use mono_types::types::Types;
use plain_tree::tree::{Binding, Operation, Step};
use scoped_map::scoped::Scoped;
use std::alloc::Global;

/// The same operation, whose value is bound.
fn unchanged(alloc: Global, binding: Binding, operation: &Operation) -> Result<Step, NoMemory>
    ensures { IfOk result (λ made. (types : List Row) (strings : Texts)
        → mono_step types strings made ≡ a_let types strings binding (mono_operation types strings operation.now)) }
{
    let operation = copy_operation(alloc, operation)?;
    Ok(Step::Let(binding, operation))
}

/// A step that binds the value of an operation.
pub fn expand_operation(
    alloc: Global,
    types: &Types,
    names: &Scoped<bool>,
    next: &mut usize,
    binding: Binding,
    operation: &Operation,
) -> Result<Step, NoMemory>
    ensures made { IfOk result (λ made. (strings : Texts) → mono_step types.now strings made
        ≡ a_let types.now strings binding (expand_op types.now names.now next.old binding.ty (mono_operation types.now strings operation.now))) }
    ensures news { IfOk result (λ _. (strings : Texts)
        → next.new ≡ next.old + op_news types.now names.now binding.ty (mono_operation types.now strings operation.now)) }
{
    match operation {
        Operation::Use(variable, _) => if takes(names, *variable) {
            exception_function(alloc, types, next, binding, *variable)
        } else {
            unchanged(alloc, binding, operation)
        },
        Operation::Constructor { constructor, ty } => match types.constructor(*ty, *constructor) {
            Some(Some(argument)) => constructing_function(
                alloc,
                next,
                binding,
                *constructor,
                *ty,
                argument,
            ),
            Some(None) => unchanged(alloc, binding, operation),
            None => unchanged(alloc, binding, operation),
        },
        Operation::Reference(held) => {
            let reference = given_at(types, binding.ty);
            referring_function(alloc, next, binding, *held, reference)
        }
        Operation::Primitive(primitive, ty) => primitive_function(
            alloc, types, next, binding, *primitive, *ty,
        ),
        _ => unchanged(alloc, binding, operation),
    }
}
