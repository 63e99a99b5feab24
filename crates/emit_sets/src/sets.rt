// For each set of closures the routine that goes to the function of a closure.

ghost use Rattle.std.specs.Prelude.{◌≡◌, ℕ, ◌++◌, length, map, false, IfOk, OnOk, get_or};
ghost use Rattle.first_tables.specs.TablesOf.{member_of, set_of};
ghost use Rattle.ssa_tree.specs.TreeOf.{fun_of};
ghost use Rattle.machine_routines.specs.FindCode as find;
ghost use Rattle.machine_code.specs.Image as image;
ghost use Rattle.emit_code.specs.Tags.{target_of};

use emit_code::choice::{Target, push_table};
use emit_code::fault::EmitFault;
use emit_code::plain::put_two;
use emit_code::put::{here, sum, word};
use emit_parts::search::push_search;
use emit_rows::row::{ld, li};
use first_tables::tables::Member;
use ir_code::instr::Instr;
use ssa_tree::tree::Fun;
use std::alloc::Global;

/// How many parameters a function has.
fn params_of(funs: &[Fun], function: usize) -> usize
    ensures { result ≡ image.params_of (map fun_of funs.now) function }
{
    match funs.get(function) {
        Some(fun) => fun.params.len(),
        None => 0,
    }
}

/// The most parameters of a member, the closure among them.
fn widest(funs: &[Fun], members: &[Member]) -> usize
    ensures { result ≡ image.widest (map fun_of funs.now) (map member_of members.now) }
{
    let mut most: usize = 1;
    for member in members {
        let count = params_of(funs, member.function);
        if count > most {
            most = count;
        }
    }
    most
}

/// More than all tags of members.
fn members_end(members: &[Member]) -> Result<u32, EmitFault>
    ensures { (fun_at : ℕ → ℕ) → IfOk result (λ end. end ≡ image.tags_end (image.placed fun_at (map member_of members.now))) }
{
    let mut end: u32 = 0;
    for member in members {
        let behind = sum(word(member.tag)?, 1)?;
        if behind > end {
            end = behind;
        }
    }
    Ok(end)
}

/// The place of a function, or another.
fn place_of(places: &[u32], function: usize, other: u32) -> u32
    ensures { result ≡ get_or places.now function other }
{
    match places.get(function) {
        Some(place) => *place,
        None => other,
    }
}

/// The places of members, by those of functions.
fn placed(
    alloc: Global,
    funs: &[u32],
    other: u32,
    members: &[Member],
) -> Result<Vec<Target>, EmitFault>
    ensures { IfOk result (λ targets. map target_of targets.items
        ≡ image.placed (λ f. get_or funs.now f other) (map member_of members.now)) }
{
    let mut targets = Vec::new(alloc);
    for member in members {
        let tag = word(member.tag)?;
        let place = place_of(funs, member.function, other);
        targets.push(Target { tag, place })?;
    }
    Ok(targets)
}

/// To the place of the tag in the slot: a jump table where the members are at least half of the tags below n, else a search.
fn push_way(
    alloc: Global,
    code: &mut Vec<Instr>,
    targets: &[Target],
    tag: u32,
    free: u32,
    end: u32,
) -> Result<(), EmitFault>
    ensures { OnOk result (code.new.items ≡ code.old.items ++ find.way_code (map target_of targets.now) (length code.old.items) tag free 0
        (find.way_of false 0 end (map target_of targets.now))) }
{
    if end as usize <= 2 * targets.len() {
        push_table(alloc, code, targets, tag, 0, end)
    } else {
        push_search(code, targets, tag, free, 0, false)
    }
}

/// The routine of a set, with functions at these places.
pub fn push_set(
    alloc: Global,
    code: &mut Vec<Instr>,
    places: &[u32],
    other: u32,
    funs: &[Fun],
    members: &[Member],
) -> Result<(), EmitFault>
    ensures { OnOk result (code.new.items ≡ code.old.items ++ image.set_code (length code.old.items)
        (image.widest (map fun_of funs.now) (map member_of members.now))
        (image.placed (λ f. get_or places.now f other) (map member_of members.now))) }
{
    let tag = sum(word(widest(funs, members))?, 2)?;
    let free = sum(tag, 1)?;
    put_two(code, li(free, 0), ld(tag, 2, 0))?;
    let targets = placed(alloc, places, other, members)?;
    let end = members_end(members)?;
    push_way(alloc, code, &targets, tag, free, end)
}

/// The routines of sets, one behind the other; where each stands, and the place behind the last.
pub fn push_sets(
    alloc: Global,
    code: &mut Vec<Instr>,
    places: &[u32],
    other: u32,
    funs: &[Fun],
    sets: &[Vec<Member>],
) -> Result<(Vec<u32>, u32), EmitFault>
    ensures code { OnOk result (code.new.items ≡ code.old.items
        ++ image.sets_code (map fun_of funs.now) (λ f. get_or places.now f other) (length code.old.items) (map set_of sets.now)) }
    ensures places { IfOk result (λ found. (i : ℕ) → get_or found.0.items i found.1
        ≡ image.set_place (map fun_of funs.now) (λ f. get_or places.now f other) (length code.old.items) (map set_of sets.now) i) }
{
    let mut found = Vec::new(alloc);
    for i in 0..sets.len() {
        found.push(here(code)?)?;
        push_set(alloc, code, places, other, funs, &sets[i])?;
    }
    let end = here(code)?;
    Ok((found, end))
}
