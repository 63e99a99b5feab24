// What falls, where some vertices do, and with each those that rest on it.
ghost use Rattle.std.specs.Prelude.{◌≡◌, ◌<◌, ◌++◌, true, [], map, length, slice_set, IfOk};
ghost use Rattle.datatype_equality.specs.Falling.{resting, IsFall};

use mlc_base::memory::NoMemory;
use std::alloc::Global;
use std::mem;

/// Marks a vertex as fallen, and puts those that rest on it behind the pending ones. Nothing rests on it any more.
fn fell(
    alloc: Global,
    marks: &mut Vec<bool>,
    rests: &mut Vec<Vec<usize>>,
    pending: &mut Vec<usize>,
    v: usize,
) -> Result<(), NoMemory>
    requires within { v < length marks.old.items }
    requires same { length rests.old.items ≡ length marks.old.items }
    ensures marks { IfOk result (λ _. marks.new.items ≡ slice_set marks.old.items v true) }
    ensures rests { IfOk result (λ _. map (λ l. l.items) rests.new.items ≡ slice_set (map (λ l. l.items) rests.old.items) v []) }
    ensures pending { IfOk result (λ _. pending.new.items ≡ pending.old.items ++ resting (map (λ l. l.items) rests.old.items) v) }
{
    marks[v] = true;
    let resting = mem::replace(&mut rests[v], Vec::new(alloc));
    pending.extend_from_slice(resting.as_slice())?;
    Ok(())
}

/// What falls, where `start` does. What is given back says it of each vertex that `rests` has.
pub fn fall(
    alloc: Global,
    mut rests: Vec<Vec<usize>>,
    start: Vec<usize>,
) -> Result<Vec<bool>, NoMemory>
    ensures { IfOk result (λ marks. IsFall (map (λ l. l.items) rests.items) start.items marks.items) }
{
    let mut marks = vec![in alloc; false; rests.len()]?;
    let mut pending = start;
    while let Some(v) = pending.pop() {
        if v < marks.len() && !marks[v] {
            fell(alloc, &mut marks, &mut rests, &mut pending, v)?;
        }
    }
    Ok(marks)
}
