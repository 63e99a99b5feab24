// Calls, jumps, tests and choices, with labels.

ghost use Rattle.std.specs.Prelude.{◌≡◌, ℕ, suc, ◌+◌, true, [], ◌∷◌, ◌++◌, ◌≢◌, length, map, IfErr, IfOk, OnOk};
ghost use Rattle.ir_code.specs.declared.instr.Instr.TheVariants.{Acc, Call as CallRow, Jmp};
ghost use Rattle.first_tables.specs.TablesOf.{callee_of, operands_of, test_of};
ghost use Rattle.machine_code.specs.Code as code_;
ghost use Rattle.machine_code.specs.Code.{args_of, callee_at, choice_code, depth_in, depths_in, goto_code, move_code, push_code, slot, test_arm_code, test_code};
ghost use Rattle.emit_code.specs.of_machine_rows.Table.{rows};
ghost use Rattle.emit_code.specs.of_emit_rows.Shapes.{packet_in};
ghost use Rattle.emit_code.specs.PlacesOf.{places_of};
ghost use Rattle.emit_code.specs.Tags.{choice_for, choice_of, end_of, target_of};
ghost use Rattle.walk_labels.specs.Labels.{blank};
ghost use Rattle.emit_parts.specs.Labels.{label_in, list_of, numbered, spot_of, switch_code, tag_of};
ghost use Rattle.emit_parts.specs.declared.fault.WalkFault.TheVariants.{Unsettled};

use crate::fault::WalkFault;
use crate::pass::{Spot, next_label, number_at, reserve, settle};
use crate::search::push_search;
use emit_code::choice::{Choice, Target, choose, push_table, tags_end};
use emit_code::emit_rows::row::{brz, equal, jmp, ld, li};
use emit_code::fault::EmitFault;
use emit_code::moves::{arguments, leave, move_all, push_all};
use emit_code::places::Places;
use emit_code::plain::{emit_row, emit_test, put_three, put_two};
use emit_code::put::{depths_of, put, slot_at, slot_of, sum, word};
use first_tables::operation::{Callee, Operands, Test};
use first_tables::tables::Tables;
use ir_code::instr::Instr;
use mlc_prims::basis::BasisPrimitive;
use scoped_map::scoped::Scoped;
use ssa_tree::tree::Arm;
use std::alloc::Global;

/// A primitive whose value the rest goes on with: the number of the label for what it raises.
pub fn emit_attempt(
    alloc: Global,
    at: &Places,
    code: &mut Vec<Instr>,
    found: &mut Vec<u32>,
    slots: &Scoped<u32>,
    depth: u32,
    kind: Operands,
    primitive: BasisPrimitive,
    operands: &[usize],
) -> Result<usize, EmitFault>
    ensures number { IfOk result (λ number. number ≡ length found.old.items) }
    ensures found { OnOk result (found.new.items ≡ found.old.items ++ 0 ∷ []) }
    ensures code { IfOk result (λ number. code.new.items ≡ code.old.items
        ++ rows.code (operands_of kind) primitive (packet_in at.now.packets) (length code.old.items) (slot depth) (label_in at.now number)
        (map slot (depths_in operands.now slots.now))) }
{
    let number = reserve(found)?;
    let other = at.label(number);
    emit_row(
        alloc, code, at, slots, depth, kind, primitive, operands, other,
    )?;
    Ok(number)
}

/// A test: the number of the label for where it fails.
pub fn emit_tested(
    alloc: Global,
    tables: &Tables,
    at: &Places,
    code: &mut Vec<Instr>,
    found: &mut Vec<u32>,
    slots: &Scoped<u32>,
    depth: u32,
    test: Test,
    operands: &[usize],
) -> Result<usize, EmitFault>
    ensures number { IfOk result (λ number. number ≡ length found.old.items) }
    ensures found { OnOk result (found.new.items ≡ found.old.items ++ 0 ∷ []) }
    ensures code { IfOk result (λ number. code.new.items ≡ code.old.items
        ++ test_code (places_of tables.now at.now) (length code.old.items) depth (test_of test) (depths_in operands.now slots.now) (label_in at.now number)) }
{
    let number = reserve(found)?;
    let other = at.label(number);
    emit_test(alloc, code, tables, at, slots, depth, test, operands, other)?;
    Ok(number)
}

/// To the arm of a cell's tag, of which the first is the rest: the number of that arm's label.
pub fn emit_case(
    alloc: Global,
    at: &Places,
    sure: bool,
    code: &mut Vec<Instr>,
    found: &mut Vec<u32>,
    slots: &Scoped<u32>,
    depth: u32,
    cell: usize,
    tag: usize,
    others: &[Arm],
) -> Result<usize, WalkFault>
    ensures number { IfOk result (λ first. first ≡ length found.old.items) }
    ensures found { OnOk result (found.new.items ≡ found.old.items ++ ((length code.old.items + length (switch_code (label_in at.now) (length code.old.items)
        depth (depth_in cell slots.now) (length found.old.items) (tag ∷ map tag_of others.now))) ∷ blank (suc (length others.now)))) }
    ensures told { IfErr result (λ fault. (sure ≡ true → label_in at.now (length found.old.items) ≡ length code.old.items + length (switch_code (label_in at.now)
        (length code.old.items) depth (depth_in cell slots.now) (length found.old.items) (tag ∷ map tag_of others.now))) → fault ≢ Unsettled) }
    ensures code { IfOk result (λ first. code.new.items ≡ code.old.items
        ++ (choice_code (length code.old.items) depth (depth_in cell slots.now) (choice_for (tag ∷ map tag_of others.now)) (end_of (tag ∷ map tag_of others.now))
        (numbered (label_in at.now) first (tag ∷ map tag_of others.now)) (label_in at.now (first + length (tag ∷ map tag_of others.now)))
        ++ test_arm_code (choice_for (tag ∷ map tag_of others.now)) depth tag (label_in at.now (suc first)))) }
    ensures begins { IfOk result (λ first. sure ≡ true → label_in at.now first ≡ length code.old.items
        + length (choice_code (length code.old.items) depth (depth_in cell slots.now) (choice_for (tag ∷ map tag_of others.now)) (end_of (tag ∷ map tag_of others.now))
        (numbered (label_in at.now) first (tag ∷ map tag_of others.now)) (label_in at.now (first + length (tag ∷ map tag_of others.now))))) }
{
    let tags = tags_of(alloc, Some(tag), others)?;
    let first = emit_choice(alloc, at, code, found, slots, depth, cell, &tags)?;
    settle(code, found, at, sure, first)?;
    emit_arm_test(code, at, depth, choose(&tags)?, tag, first)?;
    Ok(first)
}

/// A call, whose value goes to the next slot.
pub fn emit_call(
    alloc: Global,
    code: &mut Vec<Instr>,
    tables: &Tables,
    at: &Places,
    slots: &Scoped<u32>,
    depth: u32,
    callee: Callee,
    operands: &[usize],
) -> Result<(), EmitFault>
    ensures { OnOk result (code.new.items ≡ code.old.items
        ++ (push_code (suc (suc depth)) (args_of (callee_of callee) slots.now operands.now)
        ++ (CallRow (callee_at (places_of tables.now at.now) (callee_of callee)) (slot depth) ∷ Acc (slot depth) ∷ []))) }
{
    let words = arguments(alloc, slots, callee, operands)?;
    let frame = slot_at(depth)?;
    push_all(code, sum(depth, 2)?, &words)?;
    let target = at.callee(tables, callee);
    put_two(
        code,
        Instr::Call { target, frame },
        Instr::Acc { dst: frame },
    )
}

/// A call that gives what the function gives.
pub fn emit_tail(
    alloc: Global,
    code: &mut Vec<Instr>,
    tables: &Tables,
    at: &Places,
    slots: &Scoped<u32>,
    depth: u32,
    callee: Callee,
    operands: &[usize],
) -> Result<(), EmitFault>
    ensures { OnOk result (code.new.items ≡ code.old.items
        ++ (move_code depth 0 (args_of (callee_of callee) slots.now operands.now) ++ (Jmp (callee_at (places_of tables.now at.now) (callee_of callee)) ∷ []))) }
{
    let words = arguments(alloc, slots, callee, operands)?;
    move_all(code, depth, 0, &words)?;
    put(code, jmp(at.callee(tables, callee)))
}

/// On to a label.
pub fn emit_goto(
    alloc: Global,
    code: &mut Vec<Instr>,
    slots: &Scoped<u32>,
    depth: u32,
    spot: Spot,
    operands: &[usize],
) -> Result<(), EmitFault>
    ensures { OnOk result (code.new.items ≡ code.old.items ++ goto_code depth (spot_of spot) (depths_in operands.now slots.now)) }
{
    let words = depths_of(alloc, slots, operands)?;
    leave(code, spot.leaves)?;
    move_all(code, depth, spot.depth, &words)?;
    put(code, jmp(spot.place))
}

/// The tags of arms, behind a first one.
pub fn tags_of(alloc: Global, first: Option<usize>, arms: &[Arm]) -> Result<Vec<usize>, EmitFault>
    ensures { IfOk result (λ tags. tags.items ≡ list_of first ++ map tag_of arms.now) }
{
    let mut tags = Vec::new(alloc);
    if let Some(tag) = first {
        tags.push(tag)?;
    }
    for i in 0..arms.len() {
        tags.push(arms[i].tag)?;
    }
    Ok(tags)
}

/// Labels for tags, and one for another place: the number of the first label, and the targets.
fn reserve_all(
    alloc: Global,
    at: &Places,
    found: &mut Vec<u32>,
    tags: &[usize],
) -> Result<(usize, Vec<Target>), EmitFault>
    ensures number { IfOk result (λ made. made.0 ≡ length found.old.items) }
    ensures found { OnOk result (found.new.items ≡ found.old.items ++ blank (suc (length tags.now))) }
    ensures targets { IfOk result (λ made. map target_of made.1.items ≡ numbered (label_in at.now) made.0 tags.now) }
{
    let first = found.len();
    let mut targets = Vec::new(alloc);
    let mut number = first;
    for i in 0..tags.len() {
        reserve(found)?;
        let tag = word(number_at(tags, i))?;
        let place = at.label(number);
        targets.push(Target { tag, place })?;
        number = next_label(number)?;
    }
    reserve(found)?;
    Ok((first, targets))
}

/// To the arm of a cell's tag: the number of the first arm's label; those of the others and of the last are the next.
pub fn emit_choice(
    alloc: Global,
    at: &Places,
    code: &mut Vec<Instr>,
    found: &mut Vec<u32>,
    slots: &Scoped<u32>,
    depth: u32,
    cell: usize,
    tags: &[usize],
) -> Result<usize, EmitFault>
    ensures number { IfOk result (λ first. first ≡ length found.old.items) }
    ensures found { OnOk result (found.new.items ≡ found.old.items ++ blank (suc (length tags.now))) }
    ensures code { IfOk result (λ first. code.new.items ≡ code.old.items
        ++ choice_code (length code.old.items) depth (depth_in cell slots.now) (choice_for tags.now) (end_of tags.now)
        (numbered (label_in at.now) first tags.now) (label_in at.now (first + length tags.now))) }
{
    let (first, targets) = reserve_all(alloc, at, found, tags)?;
    let last = match first.checked_add(tags.len()) {
        Some(last) => last,
        None => return Err(EmitFault::NoWord),
    };
    push_choice(
        alloc,
        code,
        &targets,
        slot_at(depth)?,
        slot_of(slots, cell)?,
        at.label(last),
        choose(tags)?,
        tags_end(tags)?,
    )?;
    Ok(first)
}

/// To the place of the tag of the cell in a slot.
fn push_choice(
    alloc: Global,
    code: &mut Vec<Instr>,
    targets: &[Target],
    slot: u32,
    cell: u32,
    other: u32,
    how: Choice,
    end: usize,
) -> Result<(), EmitFault>
    ensures { (d x : ℕ) → slot ≡ code_.slot d → cell ≡ code_.slot x → OnOk result (code.new.items ≡ code.old.items
        ++ choice_code (length code.old.items) d x (choice_of how) end (map target_of targets.now) other) }
{
    let free = sum(slot, 1)?;
    match how {
        Choice::Table => {
            put(code, ld(slot, cell, 0))?;
            push_table(alloc, code, targets, slot, other, word(end)?)
        }
        Choice::Search => {
            put_two(code, li(free, 0), ld(slot, cell, 0))?;
            push_search(code, targets, slot, free, other, true)
        }
        Choice::Tests => put(code, ld(slot, cell, 0)),
    }
}

/// On to the next arm unless the tag is this, where arms test.
pub fn emit_arm_test(
    code: &mut Vec<Instr>,
    at: &Places,
    depth: u32,
    how: Choice,
    tag: usize,
    number: usize,
) -> Result<(), EmitFault>
    ensures { OnOk result (code.new.items ≡ code.old.items ++ test_arm_code (choice_of how) depth tag (label_in at.now (suc number))) }
{
    let slot = slot_at(depth)?;
    let free = sum(slot, 1)?;
    let next = at.label(next_label(number)?);
    match how {
        Choice::Table => Ok(()),
        Choice::Search => Ok(()),
        Choice::Tests => put_three(
            code,
            li(free, word(tag)?),
            equal(free, slot, free),
            brz(free, next),
        ),
    }
}
