// What joins the operands of a chain.
ghost use Rattle.std.specs.Prelude.{◌≡◌, true, map};
ghost use Rattle.std.specs.List.{AllByRecursion};
ghost use Rattle.sml_tree.specs.TreeOf.{part_of};
ghost use Rattle.exp_forms.specs.Joints.{joint_of};

use sml_tree::tree::{Joint, Part};

/// Whether `andalso` (true) or `orelse` (false) joins all operands.
pub fn are_joined(parts: &[Part], all: bool) -> bool
    ensures { result ≡ true → AllByRecursion (λ o. o.joint ≡ joint_of all) (map part_of parts.now) }
{
    for i in 0..parts.len() {
        let joined = match parts[i].joint {
            Joint::AndAlso => all,
            Joint::OrElse => !all,
            Joint::Infix(_, _) => false,
        };
        if !joined {
            return false;
        }
    }
    true
}
