// Whether each number of a list is there once.
ghost use Rattle.std.specs.Prelude.{◌≡◌, ◌↔◌, ◌≤◌, ℕ, IsTrue, IfOk};
ghost use Rattle.plain_tree.specs.Sums.{count_of, binders_of};

use crate::binders::push_binders;
use crate::tree::Exp;
use indexmap::IndexSet;
use mlc_base::memory::NoMemory;
use std::alloc::Global;

/// Whether each number is there once at most.
fn are_once(alloc: Global, numbers: &[usize]) -> Result<bool, NoMemory>
    ensures { IfOk result (λ once. IsTrue once ↔ ((k : ℕ) → count_of k numbers.now ≤ 1)) }
{
    let mut seen: IndexSet<usize> = IndexSet::new(alloc);
    for i in 0..numbers.len() {
        let number = numbers[i];
        let new = seen.insert(number)?;
        if !new {
            return Ok(false);
        }
    }
    Ok(true)
}

/// Whether a tree binds each variable once.
pub fn binds_once(alloc: Global, e: &Exp) -> Result<bool, NoMemory>
    ensures { IfOk result (λ once. IsTrue once ↔ ((k : ℕ) → count_of k (binders_of e.now) ≤ 1)) }
{
    let mut found = Vec::new(alloc);
    push_binders(e, &mut found)?;
    let once = are_once(alloc, &found)?;
    Ok(once)
}
