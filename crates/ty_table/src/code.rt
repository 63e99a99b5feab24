// Symbols as lists of numbers, by which they are looked up.
ghost use Rattle.std.specs.Prelude.{◌≡◌, ◌++◌, IfOk};
ghost use Rattle.ty_core.specs.Types.{labels as labels_symbol};
ghost use Rattle.ty_core.specs.TypesOf.{head_of};
ghost use Rattle.ty_table.specs.Codes.{label_code, attribute_code, code_of};

use mlc_base::memory::NoMemory;
use std::alloc::Global;
use ty_core::mlc_names::label::Label;
use ty_core::name::Equality;
use ty_core::ty::Head;

/// Adds a label's code.
fn push_label(code: &mut Vec<usize>, label: Label) -> Result<(), NoMemory>
    ensures { IfOk result (λ _. code.new.items ≡ code.old.items ++ label_code label) }
{
    match label {
        Label::Number(number) => {
            code.push(0)?;
            code.push(number as usize)?;
        }
        Label::Word(name) => {
            code.push(1)?;
            code.push(name.number() as usize)?;
        }
    }
    Ok(())
}

/// The code of an equality attribute.
fn equality_code(equality: Equality) -> usize
    ensures { result ≡ attribute_code equality }
{
    match equality {
        Equality::Always => 0,
        Equality::ByArguments => 1,
        Equality::Never => 2,
    }
}

/// The code of a record's labels.
fn record_code(alloc: Global, labels: &[Label]) -> Result<Vec<usize>, NoMemory>
    ensures { IfOk result (λ code. code.items ≡ code_of (labels_symbol labels.now)) }
{
    let mut code = vec![in alloc; 2]?;
    for label in labels {
        push_label(&mut code, *label)?;
    }
    Ok(code)
}

/// The code of a head's symbol.
pub fn head_code(alloc: Global, head: &Head) -> Result<Vec<usize>, NoMemory>
    ensures { IfOk result (λ code. code.items ≡ code_of (head_of head.now)) }
{
    match head {
        Head::Function => Ok(vec![in alloc; 0]?),
        Head::Record(labels) => record_code(alloc, labels),
        Head::Named(name) => Ok(vec![in alloc;
            1,
            name.stamp as usize,
            name.arity as usize,
            equality_code(name.equality),
        ]?),
    }
}
