// Infix operators.
ghost use Rattle.std.specs.Prelude.{◌≡◌, IfOk, List, [], ◌∷◌};
ghost use Rattle.mlc_names.specs.declared.label.Label.TheVariants.{Number};
ghost use Rattle.ir_poly.specs.Prog.{Exp as Source};
ghost use Rattle.plain_tree.specs.declared.tree.Step.{Step as Row};
ghost use Rattle.prog_tree.specs.TreeOf.{Reading};
ghost use Rattle.match_steps.specs.of_match_types.declared.work.Work.{Work as State};
ghost use Rattle.exp_steps.specs.Making.{Makes, MakesAll};
ghost use Rattle.exp_steps.specs.Made.{recorded};
ghost use Rattle.exp_steps.specs.Joining.{Opens, joined};
ghost use Rattle.exp_steps.specs.Joining.{pair_fields as both_fields, pair_row};

use crate::calls::{push_built, push_call, push_performed, push_record};
use crate::ways::Built;
use match_steps::match_types::work::Work;
use mlc_base::make::two;
use mlc_base::memory::NoMemory;
use mlc_names::label::Label;
use mlc_prims::basis::BasisPrimitive;
use plain_tree::tree::{Field, Step};
use prog_tree::tree::Join;
use std::alloc::Global;

/// An operator whose operands are still to come.
#[derive(Clone, Copy)]
pub enum Opening {
    Call(usize),
    /// What is built, and the variable of its exception's name.
    Building(Built, usize),
    Performing(BasisPrimitive, Option<usize>),
}

/// Two operands as fields.
fn pair_fields(alloc: Global, left: usize, right: usize) -> Result<Vec<Field>, NoMemory>
    ensures { IfOk result (λ made. made.items ≡ pair_row left right) }
{
    let first = Field {
        label: Label::Number(1),
        atom: left,
    };
    let second = Field {
        label: Label::Number(2),
        atom: right,
    };
    two(alloc, first, second)
}

/// Two operands as a record.
fn push_pair(
    alloc: Global,
    work: &mut Work,
    u: usize,
    left: usize,
    right: usize,
    steps: &mut Vec<Step>,
) -> Result<usize, NoMemory>
    ensures { IfOk result (λ a. (w v : State) (ss us : List Row) (d e : Reading → Source) → Makes w v ss us d left → Makes v work.old us steps.old.items e right
        → Makes w work.new ss steps.new.items (recorded u (both_fields d e)) a) }
{
    let fields = pair_fields(alloc, left, right)?;
    let a = push_record(alloc, work, u, fields, steps)?;
    Ok(a)
}

/// An operator that was opened gets its operands.
pub fn close(
    alloc: Global,
    work: &mut Work,
    join: Join,
    opening: Opening,
    left: usize,
    right: usize,
    steps: &mut Vec<Step>,
) -> Result<usize, NoMemory>
    ensures { IfOk result (λ a. (w v u : State) (ss us ms : List Row) (f d e : Reading → Source) → Opens w v ss us f opening → Makes v u us ms d left
        → Makes u work.old ms steps.old.items e right → Makes w work.new ss steps.new.items (joined join f d e) a) }
{
    match opening {
        Opening::Call(function) => {
            let pair = push_pair(alloc, work, join.pair, left, right, steps)?;
            let a = push_call(alloc, work, join.place, join.ty, function, pair, steps)?;
            Ok(a)
        }
        Opening::Building(built, name) => {
            let pair = push_pair(alloc, work, join.pair, left, right, steps)?;
            let a = push_built(
                alloc, work, built, name, join.place, join.ty, join.pair, pair, steps,
            )?;
            Ok(a)
        }
        Opening::Performing(primitive, at) => {
            let fields = pair_fields(alloc, left, right)?;
            let a = push_performed(
                alloc, work, join.place, join.ty, primitive, at, &fields, steps,
            )?;
            Ok(a)
        }
    }
}
