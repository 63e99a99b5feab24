// Parts of nodes: labels of tuples, operators and shapes of chains.
ghost use Rattle.std.specs.Prelude.{◌≡◌, ◌+◌, true, false, Some, slice_get, IfOk};
ghost use Rattle.sml_tree.specs.declared.tree.Part.{Part as PartOf};
ghost use Rattle.elab_exps.specs.Shapes.{shape_by};
ghost use Rattle.elab_exps.specs.declared.shapes.Shape.TheVariants.{Left};
ghost use Rattle.mlc_names.specs.declared.label.Label.TheVariants.{Number};
ghost use Rattle.sml_tree.specs.declared.tree.Joint.TheVariants.{Infix};

use mlc_base::memory::NoMemory;
use mlc_names::label::Label;
use pat_elab::stopped::Stopped;
use scope_decs::exp_forms::parts::Operator;
use sml_tree::tree::{Joint, Part};

/// The label of the part of a tuple behind so many others.
pub fn label_at(index: usize) -> Result<Label, NoMemory>
    ensures { IfOk result (λ l. l ≡ Number (index + 1)) }
{
    if index >= u32::MAX as usize {
        return Err(NoMemory);
    }
    Ok(Label::Number((index + 1) as u32))
}

/// The infix identifier that joins an operand. No chain that the grammar makes has others beside such.
pub fn operator_of(part: &Part) -> Result<Operator, Stopped>
    ensures { IfOk result (λ o. part.now.joint ≡ Infix o.place o.vid) }
{
    match part.joint {
        Joint::Infix(place, vid) => Ok(Operator { place, vid }),
        _ => Err(Stopped::Foreign(part.place)),
    }
}

/// What a chain is made of: infix identifiers to the left or to the right, or operands of `andalso` (true) or `orelse` (false).
#[derive(Clone, Copy)]
pub enum Shape {
    Left,
    Right,
    Tests(bool),
}

/// What its first joint says that a chain is.
pub fn shape_of(right: bool, parts: &[Part]) -> Shape
    ensures left { right ≡ false → result ≡ Left }
    ensures right { (part : PartOf) → right ≡ true → slice_get parts.now 0 ≡ Some part → result ≡ shape_by part.joint }
{
    if parts.is_empty() || !right {
        return Shape::Left;
    }
    match parts[0].joint {
        Joint::AndAlso => Shape::Tests(true),
        Joint::OrElse => Shape::Tests(false),
        Joint::Infix(_, _) => Shape::Right,
    }
}
