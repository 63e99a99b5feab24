// Types as lists of numbers, by which they are looked up.
ghost use Rattle.std.specs.Prelude.{◌≡◌, ◌++◌, IfOk};
ghost use Rattle.ty_core.specs.TypesOf.{head_of};
ghost use Rattle.ty_table.specs.Codes.{label_code, labels_code, attribute_code, code_of};
ghost use Rattle.ir_mono.specs.Types.{node};
ghost use Rattle.mono_types.specs.Codes.{node_code};

use mlc_base::memory::NoMemory;
use mlc_names::label::Label;
use std::alloc::Global;
use ty_core::name::Equality;
use ty_core::ty::Head;

/// Adds a label's code.
fn push_label(code: &mut Vec<usize>, label: Label) -> Result<(), NoMemory>
    ensures { IfOk result (λ _. code.new.items ≡ code.old.items ++ label_code label) }
{
    match label {
        Label::Number(number) => {
            code.push(0)?;
            code.push(number as usize)?;
        }
        Label::Word(name) => {
            code.push(1)?;
            code.push(name.number() as usize)?;
        }
    }
    Ok(())
}

/// Adds the codes of labels.
fn push_labels(code: &mut Vec<usize>, labels: &[Label]) -> Result<(), NoMemory>
    ensures { IfOk result (λ _. code.new.items ≡ code.old.items ++ labels_code labels.now) }
{
    for i in 0..labels.len() {
        let label = labels[i];
        push_label(code, label)?;
    }
    Ok(())
}

/// The code of an equality attribute.
fn equality_code(equality: Equality) -> usize
    ensures { result ≡ attribute_code equality }
{
    match equality {
        Equality::Always => 0,
        Equality::ByArguments => 1,
        Equality::Never => 2,
    }
}

/// Adds the code of a head.
fn push_head(code: &mut Vec<usize>, head: &Head) -> Result<(), NoMemory>
    ensures { IfOk result (λ _. code.new.items ≡ code.old.items ++ code_of (head_of head.now)) }
{
    match head {
        Head::Function => code.push(0)?,
        Head::Record(labels) => {
            code.push(2)?;
            push_labels(code, labels)?;
        }
        Head::Named(name) => {
            code.push(1)?;
            code.push(name.stamp as usize)?;
            code.push(name.arity as usize)?;
            code.push(equality_code(name.equality))?;
        }
    }
    Ok(())
}

/// The code of a head with parts.
pub fn node_code(alloc: Global, head: &Head, parts: &[usize]) -> Result<Vec<usize>, NoMemory>
    ensures { IfOk result (λ code. code.items ≡ node_code (node (head_of head.now) parts.now)) }
{
    let mut code = Vec::new(alloc);
    code.push(parts.len())?;
    code.extend_from_slice(parts)?;
    push_head(&mut code, head)?;
    Ok(code)
}
