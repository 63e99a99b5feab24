// What variables stood for before changes.
ghost use Rattle.std.specs.Prelude.{◌≡◌, length, slice_set, IfOk};
ghost use Rattle.ty_solve.specs.SlotsOf.{seen, entry_of};
ghost use Rattle.ty_solve.specs.Held.{IsHeld};
ghost use Rattle.ty_solve.specs.Tasks.{MayPut};
ghost use Rattle.ty_solve.specs.Solve.{undo};

use crate::subst::{Slot, Subst};
use mlc_base::memory::NoMemory;
use ty_table::ty_core::mark::Mark;

/// What a variable stood for before a change.
#[derive(Drop)]
pub struct Kept {
    pub variable: usize,
    pub slot: Slot,
}

/// Puts back what was kept of one variable.
fn restore(slots: &mut Vec<Slot>, kept: Kept)
    ensures { slots.new.items ≡ slice_set slots.old.items kept.variable kept.slot }
{
    let Kept { variable, slot } = kept;
    if variable < slots.len() {
        slots[variable] = slot;
    }
}

/// Puts back what was kept, the last first.
pub fn put_back(slots: &mut Vec<Slot>, trail: &mut Vec<Kept>)
    ensures { slots.new.items ≡ undo trail.old.items slots.old.items }
{
    while let Some(kept) = trail.pop() {
        restore(slots, kept);
    }
}

/// Lets a variable stand for something else. What it stood for is kept.
pub fn write(s: &mut Subst, v: usize, slot: Slot, trail: &mut Vec<Kept>) -> Result<(), NoMemory>
    requires held { IsHeld (length s.old.types) slot }
    requires may { MayPut (length s.old.slots.items) (seen s.old.types s.old.slots.items) v (entry_of s.old.types slot) }
    ensures undone { undo trail.new.items s.new.slots.items ≡ undo trail.old.items s.old.slots.items }
    ensures same_length { length s.new.slots.items ≡ length s.old.slots.items }
    ensures types { s.new.types ≡ s.old.types }
    ensures written { IfOk result (λ _. s.new.slots.items ≡ slice_set s.old.slots.items v slot) }
{
    trail.push(Kept {
        variable: v,
        slot: Slot::Open(Mark::Any),
    })?;
    let last = trail.len() - 1;
    let before = s.put(v, slot);
    trail[last] = Kept {
        variable: v,
        slot: before,
    };
    Ok(())
}
