// Numbers of types, each once, with a mark for each.
ghost use Rattle.std.specs.Prelude.{◌≡◌, ◌<◌, ℕ, length, get_or, nat_eq, false, IfOk};
ghost use Rattle.indexmap.specs.IndexSet.{insert_key};
ghost use Rattle.mono_needed.specs.Gathering.{AreMarked, added};

use mlc_base::memory::NoMemory;

/// Makes room for the mark of a number.
fn reach(marks: &mut Vec<bool>, number: usize) -> Result<(), NoMemory>
    ensures reaches { IfOk result (λ _. number < length marks.new.items) }
    ensures same { IfOk result (λ _. (k : ℕ) → get_or marks.new.items k false ≡ get_or marks.old.items k false) }
{
    while marks.len() <= number {
        marks.push(false)?;
    }
    Ok(())
}

/// Puts a number there, if it is new.
fn put(needed: &mut Vec<usize>, marks: &mut Vec<bool>, number: usize) -> Result<(), NoMemory>
    requires { AreMarked needed.old.items marks.old.items }
    ensures marked { IfOk result (λ _. AreMarked needed.new.items marks.new.items) }
    ensures put { IfOk result (λ _. needed.new.items ≡ insert_key nat_eq needed.old.items number) }
{
    reach(marks, number)?;
    let there = marks[number];
    if there {
        return Ok(());
    }
    needed.push(number)?;
    marks[number] = true;
    Ok(())
}

/// Puts those there that are new.
pub fn put_all(
    needed: &mut Vec<usize>,
    marks: &mut Vec<bool>,
    numbers: &[usize],
) -> Result<(), NoMemory>
    requires { AreMarked needed.old.items marks.old.items }
    ensures marked { IfOk result (λ _. AreMarked needed.new.items marks.new.items) }
    ensures added { IfOk result (λ _. needed.new.items ≡ added needed.old.items numbers.now) }
{
    for i in 0..numbers.len() {
        put(needed, marks, numbers[i])?;
    }
    Ok(())
}
