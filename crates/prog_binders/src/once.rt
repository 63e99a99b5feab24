// Whether each variable is bound once.
ghost use Rattle.std.specs.Prelude.{◌↔◌, ◌≤◌, ℕ, IsTrue, IfOk};
ghost use Rattle.ir_plain.specs.Once.{hit};
ghost use Rattle.ir_poly.specs.ProgOnce.{IsOnce, list_times};
ghost use Rattle.prog_tree.specs.TreeOf.{Reading, body_of};

use crate::exps::push_binders;
use indexmap::IndexSet;
use mlc_base::memory::NoMemory;
use prog_tree::tree::Dec;
use std::alloc::Global;

/// Whether each number is there once at most.
fn are_once(alloc: Global, numbers: &[usize]) -> Result<bool, NoMemory>
    ensures { IfOk result (λ once. IsTrue once ↔ ((k : ℕ) → list_times (hit k) numbers.now ≤ 1)) }
{
    let mut seen: IndexSet<usize> = IndexSet::new(alloc);
    for i in 0..numbers.len() {
        let number = numbers[i];
        let new = seen.insert(number)?;
        if !new {
            return Ok(false);
        }
    }
    Ok(true)
}

/// Whether declarations bind each variable once.
pub fn binds_once(alloc: Global, declarations: &[Dec]) -> Result<bool, NoMemory>
    ensures { IfOk result (λ once. (R : Reading) → IsTrue once ↔ IsOnce (body_of R declarations.now)) }
{
    let mut found = Vec::new(alloc);
    push_binders(declarations, &mut found)?;
    let once = are_once(alloc, &found)?;
    Ok(once)
}
