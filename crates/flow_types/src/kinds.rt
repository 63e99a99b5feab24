// What each variable is, by number.
ghost use Rattle.std.specs.Prelude.{◌≡◌, ℕ, map, length, Some, None, nat_eq, if◌then◌else◌, slice_index_or, IfOk};
ghost use Rattle.std.specs.Option.{option_map};
ghost use Rattle.flow_sets.specs.ByType.{bound_in};
ghost use Rattle.closure_whole.specs.Rising.{larger, above};
ghost use Rattle.mono_bound.specs.Bound.{bound_of, what_of};
ghost use Rattle.flow_types.specs.Kinds.{kind_at};

use mlc_base::memory::NoMemory;
use mono_bound::bound::{Bound, What};
use std::alloc::Global;

/// A place for a variable's number, and one for each below.
fn make_place(kinds: &mut Vec<Option<What>>, variable: usize) -> Result<(), NoMemory>
    ensures long { IfOk result (λ _. length kinds.new.items ≡ larger variable (length kinds.old.items)) }
    ensures same { IfOk result (λ _. (x : ℕ) → kind_at kinds.new.items x ≡ kind_at kinds.old.items x) }
{
    while kinds.len() <= variable {
        kinds.push(None)?;
    }
    Ok(())
}

/// A variable is this; what was known of it before is left.
fn set_kind(kinds: &mut Vec<Option<What>>, bound: Bound) -> Result<(), NoMemory>
    ensures long { IfOk result (λ _. length kinds.new.items ≡ larger bound.variable (length kinds.old.items)) }
    ensures kinds { IfOk result (λ _. (x : ℕ)
        → kind_at kinds.new.items x ≡ (if nat_eq x bound.variable then Some bound.what else kind_at kinds.old.items x)) }
{
    make_place(kinds, bound.variable)?;
    kinds[bound.variable] = Some(bound.what);
    Ok(())
}

/// What each variable is that is bound, by the first of its bindings; up to the greatest number.
pub fn find_kinds(alloc: Global, found: &[Bound]) -> Result<Vec<Option<What>>, NoMemory>
    ensures long { IfOk result (λ kinds. length kinds.items ≡ above (map bound_of found.now)) }
    ensures kinds { IfOk result (λ kinds. (x : ℕ)
        → option_map what_of (kind_at kinds.items x) ≡ option_map (λ b. b.what) (bound_in x (map bound_of found.now))) }
{
    let mut kinds = Vec::new(alloc);
    let mut left = found.len();
    while left > 0 {
        left -= 1;
        set_kind(&mut kinds, found[left])?;
    }
    Ok(kinds)
}
