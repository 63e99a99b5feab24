// Operators that associate to the right, once all operands are there.
ghost use Rattle.std.specs.Prelude.{List, reverse, IfOk};
ghost use Rattle.ir_poly.specs.Prog.{Exp as Clean};
ghost use Rattle.plain_tree.specs.declared.tree.Step.{Step as Row};
ghost use Rattle.prog_tree.specs.TreeOf.{Reading};
ghost use Rattle.general_bindings.specs.of_match_types.declared.work.Work.{Work as State};
ghost use Rattle.general_bindings.specs.of_exp_steps.Making.{Makes};
ghost use Rattle.match_pass.specs.Chains.{RightMade, last_first};

use general_bindings::exp_steps::joins::{Opening, close};
use general_bindings::match_types::work::Work;
use mlc_base::memory::NoMemory;
use plain_tree::tree::Step;
use prog_tree::tree::{Exp, Join};
use std::alloc::Global;

/// The applications of operators that wait, each with the value of its left operand, to what was made of the last one, the innermost first.
pub fn close_right(
    alloc: Global,
    work: &mut Work,
    joins: &[(Join, Exp, Exp)],
    openings: &mut Vec<(Opening, usize)>,
    last: usize,
    steps: &mut Vec<Step>,
) -> Result<usize, NoMemory>
    ensures { IfOk result (λ a. (start : State) (before : List Row) (whole : Reading → Clean)
        → RightMade start work.old before steps.old.items whole (reverse openings.old.items) (last_first joins.now) last
        → Makes start work.new before steps.new.items whole a) }
{
    let mut value = last;
    let mut left = joins.len();
    while left > 0 {
        left -= 1;
        let Some((opening, operand)) = openings.pop() else {
            return Ok(value);
        };
        let join = &joins[left];
        value = close(alloc, work, join.0, opening, operand, value, steps)?;
    }
    Ok(value)
}
