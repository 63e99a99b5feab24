// A search for the place of a tag.

ghost use Rattle.std.specs.Prelude.{◌≡◌, ℕ, ◌≤◌, List, ◌++◌, length, map, get_or, IfOk, OnOk};
ghost use Rattle.machine_routines.specs.FindCode as find;
ghost use Rattle.machine_routines.specs.FindCode.{leaf, search_code, search_of, search_size as size_of_search};
ghost use Rattle.emit_code.specs.Tags.{each, target_of};
ghost use Rattle.emit_parts.specs.Labels.{no_target};

use emit_code::choice::Target;
use emit_code::emit_rows::row::{brz, equal, jmp, li, ult};
use emit_code::fault::EmitFault;
use emit_code::plain::put_three;
use emit_code::put::{here, put, sum};
use ir_code::instr::Instr;

/// How many instructions each target adds to a search.
fn share(tests: bool) -> usize
    ensures value { result ≡ each tests }
    ensures least { 4 ≤ result }
{
    if tests { 7 } else { 4 }
}

/// How many instructions a search has.
fn search_size(count: usize, tests: bool) -> Result<u32, EmitFault>
    ensures { (fuel other : ℕ) (set : List find.Target) → length set ≡ count → count ≤ fuel →
        IfOk result (λ size. size ≡ size_of_search (search_of tests other fuel set)) }
{
    if count == 0 {
        return Ok(1);
    }
    match count.checked_mul(share(tests)) {
        Some(size) => match u32::try_from(size - 3) {
            Ok(size) => Ok(size),
            Err(_) => Err(EmitFault::NoWord),
        },
        None => Err(EmitFault::NoWord),
    }
}

/// What is found: with a test where other tags may come.
fn push_leaf(
    code: &mut Vec<Instr>,
    target: Target,
    slot: u32,
    free: u32,
    other: u32,
    tests: bool,
) -> Result<(), EmitFault>
    ensures { (pc : ℕ) → OnOk result (code.new.items ≡ code.old.items ++ search_code pc slot free other (leaf tests (target_of target))) }
{
    if tests {
        put_three(
            code,
            li(free, target.tag),
            equal(free, slot, free),
            brz(free, other),
        )?;
    }
    put(code, jmp(target.place))
}

/// The first of targets.
fn first_of(targets: &[Target]) -> Target
    ensures { result ≡ get_or targets.now 0 no_target }
{
    match targets.get(0) {
        Some(target) => *target,
        None => Target { tag: 0, place: 0 },
    }
}

/// By a search, with the tag in the slot and a free slot; tags that are none go to another place.
pub fn push_search(
    code: &mut Vec<Instr>,
    targets: &[Target],
    slot: u32,
    free: u32,
    other: u32,
    tests: bool,
) -> Result<(), EmitFault>
    ensures { (fuel : ℕ) → length targets.now ≤ fuel → OnOk result (code.new.items
        ≡ code.old.items ++ search_code (length code.old.items) slot free other (search_of tests other fuel (map target_of targets.now))) }
{
    if targets.len() == 0 {
        return put(code, jmp(other));
    }
    if targets.len() == 1 {
        return push_leaf(code, first_of(targets), slot, free, other, tests);
    }
    let half = targets.len() / 2;
    let left = &targets[..half];
    let right = &targets[half..];
    let behind = sum(sum(here(code)?, 3)?, search_size(left.len(), tests)?)?;
    let least = first_of(right);
    put_three(
        code,
        li(free, least.tag),
        ult(free, slot, free),
        brz(free, behind),
    )?;
    push_search(code, left, slot, free, other, tests)?;
    push_search(code, right, slot, free, other, tests)
}
