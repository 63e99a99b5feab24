// Going to the place of a tag: by a jump table, by a search, or by tests.

ghost use Rattle.std.specs.Prelude.{◌≡◌, ℕ, suc, ◌<◌, ◌≤◌, List, ◌++◌, length, map, IfOk, OnOk, get_or};
ghost use Rattle.ir_code.specs.declared.instr.Instr.TheVariants.{Jmp};
ghost use Rattle.machine_routines.specs.FindCode.{member_at, or_place, table_code};
ghost use Rattle.emit_code.specs.Tags.{choice_for, choice_of, end_of, rise_from, target_of};

use crate::fault::EmitFault;
use crate::put::put;
use emit_rows::row::jmp;
use ir_code::instr::Instr;
use std::alloc::Global;

/// Where to go for a tag.
#[derive(Clone, Copy)]
pub struct Target {
    pub tag: u32,
    pub place: u32,
}

/// How a switch finds its arm.
#[derive(Clone, Copy, PartialEq, Eq, Debug)]
pub enum Choice {
    Table,
    Search,
    Tests,
}

/// The number behind a tag.
fn behind(tag: usize) -> Result<usize, EmitFault>
    ensures { IfOk result (λ next. next ≡ suc tag) }
{
    match tag.checked_add(1) {
        Some(next) => Ok(next),
        None => Err(EmitFault::NoWord),
    }
}

/// More than all tags.
pub fn tags_end(tags: &[usize]) -> Result<usize, EmitFault>
    ensures { IfOk result (λ end. end ≡ end_of tags.now) }
{
    let mut end: usize = 0;
    for tag in tags {
        let next = behind(*tag)?;
        if next > end {
            end = next;
        }
    }
    Ok(end)
}

/// Whether each tag is above the one before.
fn rise(tags: &[usize]) -> Result<bool, EmitFault>
    ensures { IfOk result (λ yes. yes ≡ rise_from 0 tags.now) }
{
    let mut all = true;
    let mut least: usize = 0;
    for tag in tags {
        all = all && least <= *tag;
        least = behind(*tag)?;
    }
    Ok(all)
}

/// A jump table where the arms are at least half of the tags, else a search where they are many and rise, else a test an arm.
pub fn choose(tags: &[usize]) -> Result<Choice, EmitFault>
    ensures { IfOk result (λ choice. choice_of choice ≡ choice_for tags.now) }
{
    let end = tags_end(tags)?;
    let rises = rise(tags)?;
    if end <= 2 * tags.len() {
        Ok(Choice::Table)
    } else if 4 < tags.len() && rises {
        Ok(Choice::Search)
    } else {
        Ok(Choice::Tests)
    }
}

/// For each tag below n the place of the first target with it, or another.
fn table(alloc: Global, targets: &[Target], other: u32, count: usize) -> Result<Vec<u32>, EmitFault>
    ensures length { IfOk result (λ places. length places.items ≡ count) }
    ensures each { IfOk result (λ places. (t : ℕ) → t < count
        → get_or places.items t 0 ≡ or_place (member_at t (map target_of targets.now)) other) }
{
    let mut places = vec![in alloc; other; count]?;
    let mut left = targets.len();
    while left > 0 {
        left -= 1;
        let tag = targets[left].tag as usize;
        if tag < count {
            places[tag] = targets[left].place;
        }
    }
    Ok(places)
}

/// A jump to each place.
fn push_jumps(code: &mut Vec<Instr>, places: &[u32]) -> Result<(), EmitFault>
    ensures { OnOk result (code.new.items ≡ code.old.items ++ map Jmp places.now) }
{
    for place in places {
        put(code, jmp(*place))?;
    }
    Ok(())
}

/// By a jump table of n tags, with the tag in the slot.
pub fn push_table(
    alloc: Global,
    code: &mut Vec<Instr>,
    targets: &[Target],
    slot: u32,
    other: u32,
    count: u32,
) -> Result<(), EmitFault>
    ensures { OnOk result (code.new.items ≡ code.old.items ++ table_code (map target_of targets.now) slot other count) }
{
    put(
        code,
        Instr::Switch {
            index: slot,
            last: count,
        },
    )?;
    let places = table(alloc, targets, other, count as usize)?;
    push_jumps(code, &places)?;
    put(code, jmp(other))
}
