// The sets of a program.
ghost use Rattle.std.specs.Prelude.{◌≡◌, ℕ, List, IfOk, slice_index_or, length};
ghost use Rattle.ir_mono.specs.WellFormed.{IsWellFormed};
ghost use Rattle.mono_bound.specs.Reads.{mono_of};
ghost use Rattle.flow_types.specs.Flows.{IsRising, IsSolution, program_with};

use crate::kinds::find_kinds;
use crate::sets::{numbers_of, sets_of};
use closure_whole::law::rising_sets_solve;
use mlc_base::memory::NoMemory;
use mono_bound::bound::push_bound;
use mono_bound::law::bound_is_bound;
use mono_types::types::Types;
use plain_tree::tree::Exp;
use std::alloc::Global;

/// The distinct sets of functions, and by number of variable the number of its set.
#[derive(Drop)]
pub struct Flow {
    pub sets: Vec<Vec<usize>>,
    pub numbers: Vec<usize>,
}

impl Flow {
    /// The number of a variable's set; that of no set, where no such variable is bound.
    pub fn number(&self, variable: usize) -> usize
        ensures { result ≡ slice_index_or self.now.numbers.items variable (length self.now.sets.items) }
    {
        if variable < self.numbers.len() {
            self.numbers[variable]
        } else {
            self.sets.len()
        }
    }
}

/// The sets of a program of these types: those by type, in rising order, which are a solution where the program is well formed. Err only for want of memory.
pub fn flows(alloc: Global, types: &Types, body: &Exp) -> Result<Flow, NoMemory>
    ensures rising { IfOk result (λ flow. (strings : List (List ℕ)) → IsRising flow types.now (mono_of types.now strings body.now)) }
    ensures solves { IfOk result (λ flow. (strings : List (List ℕ)) (initial : List ℕ) (expansion : ℕ)
        → IsWellFormed (program_with initial types.now expansion (mono_of types.now strings body.now))
        → IsSolution flow types.now (mono_of types.now strings body.now)) }
{
    bound_is_bound();
    rising_sets_solve();
    let mut found = Vec::new(alloc);
    push_bound(types, body, &mut found)?;
    let kinds = find_kinds(alloc, &found)?;
    let sets = sets_of(alloc, types.len(), &kinds)?;
    let numbers = numbers_of(alloc, types, &kinds)?;
    Ok(Flow { sets, numbers })
}
