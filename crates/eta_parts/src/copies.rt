// Copies of operations.
ghost use Rattle.std.specs.Prelude.{◌≡◌, List, IfOk};
ghost use Rattle.eta_parts.specs.Reads.{Row, Texts, mono_operation};

use mlc_base::memory::NoMemory;
use plain_tree::tree::Operation;
use std::alloc::Global;

/// The same operation.
pub fn copy_operation(alloc: Global, operation: &Operation) -> Result<Operation, NoMemory>
    ensures { IfOk result (λ made. (types : List Row) (strings : Texts)
        → mono_operation types strings made ≡ mono_operation types strings operation.now) }
{
    match operation {
        Operation::Use(variable, types) => {
            let types = Vec::from_slice(alloc, types)?;
            Ok(Operation::Use(*variable, types))
        }
        Operation::Constant(constant) => Ok(Operation::Constant(*constant)),
        Operation::Constructor { constructor, ty } => Ok(Operation::Constructor {
            constructor: *constructor,
            ty: *ty,
        }),
        Operation::Construct {
            place,
            constructor,
            ty,
            argument,
        } => Ok(Operation::Construct {
            place: *place,
            constructor: *constructor,
            ty: *ty,
            argument: *argument,
        }),
        Operation::Reference(ty) => Ok(Operation::Reference(*ty)),
        Operation::Refer {
            place,
            ty,
            argument,
        } => Ok(Operation::Refer {
            place: *place,
            ty: *ty,
            argument: *argument,
        }),
        Operation::Content { ty, reference } => Ok(Operation::Content {
            ty: *ty,
            reference: *reference,
        }),
        Operation::Pack {
            place,
            ty,
            exception,
            argument,
        } => Ok(Operation::Pack {
            place: *place,
            ty: *ty,
            exception: *exception,
            argument: *argument,
        }),
        Operation::Record { ty, fields } => {
            let fields = Vec::from_slice(alloc, fields)?;
            Ok(Operation::Record { ty: *ty, fields })
        }
        Operation::Select { ty, label, record } => Ok(Operation::Select {
            ty: *ty,
            label: *label,
            record: *record,
        }),
        Operation::Primitive(primitive, ty) => Ok(Operation::Primitive(*primitive, *ty)),
        Operation::Perform {
            place,
            primitive,
            ty,
            arguments,
        } => {
            let arguments = Vec::from_slice(alloc, arguments)?;
            Ok(Operation::Perform {
                place: *place,
                primitive: *primitive,
                ty: *ty,
                arguments,
            })
        }
        Operation::Apply {
            place,
            function,
            argument,
        } => Ok(Operation::Apply {
            place: *place,
            function: *function,
            argument: *argument,
        }),
        Operation::Raise(packet) => Ok(Operation::Raise(*packet)),
        Operation::RaiseInitial(exception) => Ok(Operation::RaiseInitial(*exception)),
    }
}
