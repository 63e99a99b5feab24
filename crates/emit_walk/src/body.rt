// Bodies.

ghost use Rattle.std.specs.Prelude.{◌≡◌, ◌≢◌, ℕ, List, ◌+◌, true, [], ◌∷◌, ◌++◌, length, map, get_or, IfErr, IfOk, OnOk};
ghost use Rattle.ir_code.specs.declared.instr.Instr.TheVariants.{Acc, PushHandler};
ghost use Rattle.machine_code.specs.Code as code_;
ghost use Rattle.first_tables.specs.TablesOf.{tables_of};
ghost use Rattle.machine_code.specs.Code.{code_at, exit_at, exit_of, guard_size, left_by, no_spot, slot};
ghost use Rattle.machine_rows.specs.Table.{rows};
ghost use Rattle.ssa_tree.specs.TreeOf.{arm_of, step_of, tree_of};
ghost use Rattle.emit_code.specs.PlacesOf.{places_of};
ghost use Rattle.emit_code.specs.Tags.{choice_of};
ghost use Rattle.emit_walk.specs.Walk.{ArmsBefore, BeginAll, Begins, EndAll, Ends, Env, Kept, after, after_all, before, before_all, behind, behind_all};
ghost use Rattle.emit_walk.specs.Walk.{code_in, env_of, spot_in};
ghost use Rattle.emit_walk.specs.Marks.{frame_of, mark_of};
ghost use Rattle.walk_labels.specs.Labels.{Frame, arms_from, arms_within, blank, closed, closed_all, ended, ended_all, entered, entered_all, number_of, numbers_of};
ghost use Rattle.walk_labels.specs.Labels.{opened, opened_all};
ghost use Rattle.walk_labels.specs.Marks.{Foretold, fun_labels, guarded_labels, labels_at, own_labels, past_arms, past_body, past_end, past_ends, past_fun};
ghost use Rattle.walk_labels.specs.Marks.{past_guarded, past_head, past_heads, past_labelled};
ghost use Rattle.emit_parts.specs.declared.fault.WalkFault.TheVariants.{Unsettled};
ghost use Rattle.emit_parts.specs.Labels.{label_in, spot_of, spots_of};

use emit_code::cell::emit_cell;
use emit_code::choice::{Choice, choose};
use emit_code::fault::EmitFault;
use emit_code::places::Places;
use emit_code::plain::{emit_late, emit_plain};
use emit_code::put::{depth_of, here, put, slot_at, slot_of, sum};
use emit_parts::fault::WalkFault;
use emit_parts::parts::{
    emit_arm_test, emit_attempt, emit_call, emit_case, emit_choice, emit_goto, emit_tail,
    emit_tested, tags_of,
};
use emit_parts::pass::{
    Spot, bind, bind_all, leave as leave_scope, next_label, number_at, pop_spot, push_spot,
    reserve, settle, spot_at,
};
use emit_rows::row::jmp;
use first_tables::tables::Tables;
use ir_code::instr::Instr;
use machine_rows::law::rows_are_right;
use scoped_map::scoped::Scoped;
use ssa_tree::tree::{Arm, Body, Fun, Step};
use std::alloc::Global;

/// The code so far, the places of labels in order of their numbers, 0 where one is still to come; the depths of variables, labels with the innermost last, and
/// how many words of the frame are in use.
#[derive(Drop)]
pub struct Pass {
    pub code: Vec<Instr>,
    pub found: Vec<u32>,
    pub slots: Scoped<u32>,
    pub spots: Vec<Spot>,
    pub depth: u32,
}

/// A body.
#[cycle(walk)]
pub fn emit_body(
    alloc: Global,
    tables: &Tables,
    at: &Places,
    sure: bool,
    pass: &mut Pass,
    body: &Body,
) -> Result<(), WalkFault>
    ensures code { OnOk result (sure ≡ true → pass.new.code.items ≡ pass.old.code.items
        ++ code_in (places_of tables.now at.now) (env_of pass.old) (tree_of body.now)) }
    ensures kept { OnOk result (sure ≡ true → Kept (env_of pass.old) (env_of pass.new)) }
    ensures walked { OnOk result (mark_of pass.new ≡ past_body rows (tables_of tables.now).types (tree_of body.now) (mark_of pass.old)) }
    ensures told { IfErr result (λ fault. Foretold sure at.now.labels.items (length pass.old.found.items)
        (labels_at rows (tables_of tables.now).types (mark_of pass.old) (tree_of body.now)) → fault ≢ Unsettled) }
{
    rows_are_right();
    match body {
        Body::Steps(steps, rest) => {
            let numbers = emit_heads(alloc, tables, at, sure, pass, steps)?;
            emit_body(alloc, tables, at, sure, pass, rest)?;
            emit_ends(alloc, tables, at, sure, pass, steps, &numbers)
        }
        Body::Guard {
            label,
            body,
            packet,
            handler,
        } => {
            emit_guarded(alloc, tables, at, sure, pass, *label, body)?;
            put(
                &mut pass.code,
                Instr::Acc {
                    dst: slot_at(pass.depth)?,
                },
            )?;
            bind(&mut pass.slots, &mut pass.depth, *packet)?;
            emit_body(alloc, tables, at, sure, pass, handler)?;
            leave_scope(&mut pass.slots, &mut pass.depth, 1);
            Ok(())
        }
        Body::Switch(cell, arms, last) => {
            let tags = tags_of(alloc, None, arms)?;
            let first = emit_choice(
                alloc,
                at,
                &mut pass.code,
                &mut pass.found,
                &pass.slots,
                pass.depth,
                *cell,
                &tags,
            )?;
            let number = emit_arms(alloc, tables, at, sure, pass, choose(&tags)?, first, arms)?;
            settle(&pass.code, &mut pass.found, at, sure, number)?;
            emit_body(alloc, tables, at, sure, pass, last)
        }
        Body::Goto(label, operands) => {
            let spot = spot_at(&pass.spots, *label);
            emit_goto(
                alloc,
                &mut pass.code,
                &pass.slots,
                pass.depth,
                spot,
                operands,
            )?;
            Ok(())
        }
        Body::Jump(_, label, operands) => {
            let spot = spot_at(&pass.spots, *label);
            emit_goto(
                alloc,
                &mut pass.code,
                &pass.slots,
                pass.depth,
                spot,
                operands,
            )?;
            Ok(())
        }
        Body::Tail(_, callee, operands) => {
            emit_tail(
                alloc,
                &mut pass.code,
                tables,
                at,
                &pass.slots,
                pass.depth,
                *callee,
                operands,
            )?;
            Ok(())
        }
        Body::Ret(variable) => {
            let value = slot_of(&pass.slots, *variable)?;
            put(&mut pass.code, Instr::Ret { value })?;
            Ok(())
        }
        Body::Raise(variable) => {
            let packet = slot_of(&pass.slots, *variable)?;
            put(&mut pass.code, Instr::Raise { packet })?;
            Ok(())
        }
    }
}

/// What is before the rest of a body: for each step the number of the label behind the rest, or 0.
#[cycle(walk)]
fn emit_heads(
    alloc: Global,
    tables: &Tables,
    at: &Places,
    sure: bool,
    pass: &mut Pass,
    steps: &[Step],
) -> Result<Vec<usize>, WalkFault>
    ensures code { IfOk result (λ numbers. sure ≡ true → pass.new.code.items ≡ pass.old.code.items
        ++ before_all (places_of tables.now at.now) (label_in at.now) (env_of pass.old) numbers.items (map step_of steps.now)) }
    ensures scope { IfOk result (λ numbers. sure ≡ true → env_of pass.new ≡ after_all (places_of tables.now at.now) (env_of pass.old) (map step_of steps.now)) }
    ensures begins { IfOk result (λ numbers. sure ≡ true → BeginAll (places_of tables.now at.now) (label_in at.now) (env_of pass.old) numbers.items (map
        step_of steps.now)) }
    ensures walked { OnOk result (mark_of pass.new ≡ past_heads rows (tables_of tables.now).types (map step_of steps.now) (mark_of pass.old)) }
    ensures numbers { IfOk result (λ numbers. numbers.items ≡ numbers_of rows (tables_of tables.now).types (length pass.old.found.items) (length pass.old.code.items)
        (frame_of pass.old) (map step_of steps.now)) }
    ensures told { IfErr result (λ fault. (q : ℕ) → Foretold sure at.now.labels.items (length pass.old.found.items)
        (closed_all rows (tables_of tables.now).types q (length pass.old.code.items) (frame_of pass.old) (map step_of steps.now)) → fault ≢ Unsettled) }
{
    rows_are_right();
    let mut numbers = Vec::new(alloc);
    for i in 0..steps.len() {
        let number = emit_head(alloc, tables, at, sure, pass, &steps[i])?;
        numbers.push(number)?;
    }
    Ok(numbers)
}

/// What is before the rest, for a step: the number of the label behind the rest, or 0.
#[cycle(walk)]
fn emit_head(
    alloc: Global,
    tables: &Tables,
    at: &Places,
    sure: bool,
    pass: &mut Pass,
    step: &Step,
) -> Result<usize, WalkFault>
    ensures code { IfOk result (λ number. sure ≡ true → pass.new.code.items ≡ pass.old.code.items
        ++ before (places_of tables.now at.now) (label_in at.now) (env_of pass.old) number (step_of step.now)) }
    ensures scope { IfOk result (λ number. sure ≡ true → Kept (after (places_of tables.now at.now) (env_of pass.old) (step_of step.now)) (env_of pass.new)) }
    ensures begins { IfOk result (λ number. sure ≡ true → Begins (places_of tables.now at.now) (label_in at.now) (env_of pass.old) number (step_of step.now)) }
    ensures walked { OnOk result (mark_of pass.new ≡ past_head rows (tables_of tables.now).types (step_of step.now) (mark_of pass.old)) }
    ensures number { IfOk result (λ number. number ≡ number_of (length pass.old.found.items) (step_of step.now)) }
    ensures told { IfErr result (λ fault. (q : ℕ) → Foretold sure at.now.labels.items (length pass.old.found.items)
        (closed rows (tables_of tables.now).types q (length pass.old.code.items) (frame_of pass.old) (step_of step.now)) → fault ≢ Unsettled) }
{
    rows_are_right();
    match step {
        Step::Plain(plain, operands, variable) => {
            emit_plain(
                alloc,
                &mut pass.code,
                tables,
                at,
                &pass.slots,
                pass.depth,
                *plain,
                operands,
            )?;
            bind(&mut pass.slots, &mut pass.depth, *variable)?;
            Ok(0)
        }
        Step::Make(tag, pieces, variable) => {
            emit_cell(&mut pass.code, &pass.slots, pass.depth, *tag, pieces)?;
            bind(&mut pass.slots, &mut pass.depth, *variable)?;
            Ok(0)
        }
        Step::Call(_, callee, operands, variable) => {
            emit_call(
                alloc,
                &mut pass.code,
                tables,
                at,
                &pass.slots,
                pass.depth,
                *callee,
                operands,
            )?;
            bind(&mut pass.slots, &mut pass.depth, *variable)?;
            Ok(0)
        }
        Step::Attempt(kind, primitive, operands, variable, _) => {
            let number = emit_attempt(
                alloc,
                at,
                &mut pass.code,
                &mut pass.found,
                &pass.slots,
                pass.depth,
                *kind,
                *primitive,
                operands,
            )?;
            bind(&mut pass.slots, &mut pass.depth, *variable)?;
            Ok(number)
        }
        Step::Turn(_) => {
            let next = sum(here(&pass.code)?, 1)?;
            put(&mut pass.code, jmp(next))?;
            Ok(0)
        }
        Step::Label(params, body) => {
            emit_labelled(alloc, tables, at, sure, pass, body)?;
            bind_all(&mut pass.slots, &mut pass.depth, params)?;
            Ok(0)
        }
        Step::Again(params, body) => {
            let spot = emit_labelled(alloc, tables, at, sure, pass, body)?;
            bind_all(&mut pass.slots, &mut pass.depth, params)?;
            push_spot(&mut pass.spots, spot)?;
            Ok(0)
        }
        Step::When(test, operands, _) => Ok(emit_tested(
            alloc,
            tables,
            at,
            &mut pass.code,
            &mut pass.found,
            &pass.slots,
            pass.depth,
            *test,
            operands,
        )?),
        Step::Unless(test, operands, body) => {
            let number = emit_tested(
                alloc,
                tables,
                at,
                &mut pass.code,
                &mut pass.found,
                &pass.slots,
                pass.depth,
                *test,
                operands,
            )?;
            emit_body(alloc, tables, at, sure, pass, body)?;
            settle(&pass.code, &mut pass.found, at, sure, number)?;
            Ok(0)
        }
        Step::Case {
            cell,
            tag,
            others,
            last: _,
        } => emit_case(
            alloc,
            at,
            sure,
            &mut pass.code,
            &mut pass.found,
            &pass.slots,
            pass.depth,
            *cell,
            *tag,
            others,
        ),
    }
}

/// What stands behind the rest of a body, for the last step first.
#[cycle(walk)]
fn emit_ends(
    alloc: Global,
    tables: &Tables,
    at: &Places,
    sure: bool,
    pass: &mut Pass,
    steps: &[Step],
    numbers: &[usize],
) -> Result<(), WalkFault>
    ensures code { OnOk result (sure ≡ true → (e : Env) → Kept (after_all (places_of tables.now at.now) e (map step_of steps.now)) (env_of pass.old)
        → pass.new.code.items ≡ pass.old.code.items ++ behind_all (places_of tables.now at.now) e (map step_of steps.now) (length pass.old.code.items)) }
    ensures kept { OnOk result (sure ≡ true → (e : Env) → Kept (after_all (places_of tables.now at.now) e (map step_of steps.now)) (env_of pass.old)
        → Kept e (env_of pass.new)) }
    ensures ends { OnOk result (sure ≡ true → (e : Env) → Kept (after_all (places_of tables.now at.now) e (map step_of steps.now)) (env_of pass.old)
        → EndAll (places_of tables.now at.now) (label_in at.now) e numbers.now (map step_of steps.now) (length pass.old.code.items)) }
    ensures walked { OnOk result ((front back : List ℕ) (pc : ℕ) (f : Frame) → frame_of pass.old ≡ entered_all f (map step_of steps.now)
        → pass.old.found.items ≡ front ++ (opened_all rows (tables_of tables.now).types pc f (map step_of steps.now) ++ back)
        → numbers.now ≡ numbers_of rows (tables_of tables.now).types (length front) pc f (map step_of steps.now)
        → mark_of pass.new ≡ past_ends rows (tables_of tables.now).types front back pc (length pass.old.code.items) f (map step_of steps.now)) }
    ensures told { IfErr result (λ fault. (front back : List ℕ) (pc : ℕ) (f : Frame) → frame_of pass.old ≡ entered_all f (map step_of steps.now)
        → pass.old.found.items ≡ front ++ (opened_all rows (tables_of tables.now).types pc f (map step_of steps.now) ++ back)
        → numbers.now ≡ numbers_of rows (tables_of tables.now).types (length front) pc f (map step_of steps.now)
        → Foretold sure at.now.labels.items (length front) (closed_all rows (tables_of tables.now).types (length pass.old.code.items) pc f (map step_of steps.now))
        → Foretold sure at.now.labels.items (length pass.old.found.items) (ended_all rows (tables_of tables.now).types (length pass.old.code.items) f (map step_of steps.now))
        → fault ≢ Unsettled) }
{
    rows_are_right();
    let mut left = steps.len();
    while left > 0 {
        left -= 1;
        let number = number_at(numbers, left);
        emit_end(alloc, tables, at, sure, pass, number, &steps[left])?;
    }
    Ok(())
}

/// What stands behind the rest, for a step, with the number of its label. The scope of the step is left.
#[cycle(walk)]
fn emit_end(
    alloc: Global,
    tables: &Tables,
    at: &Places,
    sure: bool,
    pass: &mut Pass,
    number: usize,
    step: &Step,
) -> Result<(), WalkFault>
    ensures code { OnOk result (sure ≡ true → (e : Env) → Kept (after (places_of tables.now at.now) e (step_of step.now)) (env_of pass.old)
        → pass.new.code.items ≡ pass.old.code.items ++ behind (places_of tables.now at.now) e (step_of step.now) (length pass.old.code.items)) }
    ensures kept { OnOk result (sure ≡ true → (e : Env) → Kept (after (places_of tables.now at.now) e (step_of step.now)) (env_of pass.old)
        → Kept e (env_of pass.new)) }
    ensures ends { OnOk result (sure ≡ true → (e : Env) → Kept (after (places_of tables.now at.now) e (step_of step.now)) (env_of pass.old)
        → Ends (places_of tables.now at.now) (label_in at.now) e number (step_of step.now) (length pass.old.code.items)) }
    ensures walked { OnOk result ((front back : List ℕ) (pc : ℕ) (f : Frame) → frame_of pass.old ≡ entered f (step_of step.now)
        → pass.old.found.items ≡ front ++ (opened rows (tables_of tables.now).types pc f (step_of step.now) ++ back) → number ≡ number_of (length front) (step_of step.now)
        → mark_of pass.new ≡ past_end rows (tables_of tables.now).types front back pc (length pass.old.code.items) f (step_of step.now)) }
    ensures told { IfErr result (λ fault. (front back : List ℕ) (pc : ℕ) (f : Frame) → frame_of pass.old ≡ entered f (step_of step.now)
        → pass.old.found.items ≡ front ++ (opened rows (tables_of tables.now).types pc f (step_of step.now) ++ back) → number ≡ number_of (length front) (step_of step.now)
        → Foretold sure at.now.labels.items (length front) (closed rows (tables_of tables.now).types (length pass.old.code.items) pc f (step_of step.now))
        → Foretold sure at.now.labels.items (length pass.old.found.items) (ended rows (tables_of tables.now).types (length pass.old.code.items) f (step_of step.now))
        → fault ≢ Unsettled) }
{
    rows_are_right();
    match step {
        Step::Plain(_, _, _) | Step::Make(_, _, _) | Step::Call(_, _, _, _) => {
            leave_scope(&mut pass.slots, &mut pass.depth, 1);
            Ok(())
        }
        Step::Attempt(kind, primitive, _, variable, raised) => {
            settle(&pass.code, &mut pass.found, at, sure, number)?;
            let depth = depth_of(&pass.slots, *variable);
            emit_late(&mut pass.code, at, depth, *kind, *primitive)?;
            emit_body(alloc, tables, at, sure, pass, raised)?;
            leave_scope(&mut pass.slots, &mut pass.depth, 1);
            Ok(())
        }
        Step::Turn(_) | Step::Unless(_, _, _) => Ok(()),
        Step::Label(params, _) => {
            leave_scope(&mut pass.slots, &mut pass.depth, params.len());
            Ok(())
        }
        Step::Again(params, _) => {
            pop_spot(&mut pass.spots);
            leave_scope(&mut pass.slots, &mut pass.depth, params.len());
            Ok(())
        }
        Step::When(_, _, other) => {
            settle(&pass.code, &mut pass.found, at, sure, number)?;
            emit_body(alloc, tables, at, sure, pass, other)
        }
        Step::Case {
            cell: _,
            tag,
            others,
            last,
        } => {
            let tags = tags_of(alloc, Some(*tag), others)?;
            let how = choose(&tags)?;
            let first = next_label(number)?;
            let end = emit_arms(alloc, tables, at, sure, pass, how, first, others)?;
            settle(&pass.code, &mut pass.found, at, sure, end)?;
            emit_body(alloc, tables, at, sure, pass, last)
        }
    }
}

/// A body with a label whose block is behind it.
#[cycle(walk)]
fn emit_labelled(
    alloc: Global,
    tables: &Tables,
    at: &Places,
    sure: bool,
    pass: &mut Pass,
    body: &Body,
) -> Result<Spot, WalkFault>
    ensures code { IfOk result (λ spot. sure ≡ true → pass.new.code.items ≡ pass.old.code.items
        ++ code_at (places_of tables.now at.now) (length pass.old.code.items) pass.old.depth pass.old.slots (spot_in (places_of tables.now at.now) (env_of
        pass.old) (tree_of body.now) ∷ spots_of pass.old.spots.items) (tree_of body.now)) }
    ensures spot { IfOk result (λ spot. sure ≡ true → spot_of spot ≡ spot_in (places_of tables.now at.now) (env_of pass.old) (tree_of body.now)) }
    ensures kept { OnOk result (sure ≡ true → Kept (env_of pass.old) (env_of pass.new)) }
    ensures walked { OnOk result (mark_of pass.new ≡ past_labelled rows (tables_of tables.now).types (tree_of body.now) (mark_of pass.old)) }
    ensures exit { IfOk result (λ spot. exit_of (spot_of spot) ≡ exit_at pass.old.depth) }
    ensures told { IfErr result (λ fault. Foretold sure at.now.labels.items (length pass.old.found.items)
        (own_labels rows (tables_of tables.now).types (mark_of pass.old) (tree_of body.now)) → fault ≢ Unsettled) }
{
    rows_are_right();
    let number = reserve(&mut pass.found)?;
    let place = at.label(number);
    let spot = Spot {
        place,
        depth: pass.depth,
        leaves: None,
    };
    push_spot(&mut pass.spots, spot)?;
    emit_body(alloc, tables, at, sure, pass, body)?;
    pop_spot(&mut pass.spots);
    settle(&pass.code, &mut pass.found, at, sure, number)?;
    Ok(spot)
}

/// The only label under a handler whose record is at a depth.
fn left_spot(spot: Spot, depth: u32) -> Spot
    ensures { spot_of result ≡ left_by depth (spot_of spot) }
{
    let leaves = match spot.leaves {
        Some(record) => Some(record),
        None => Some(depth),
    };
    Spot {
        place: spot.place,
        depth: spot.depth,
        leaves,
    }
}

/// One label alone.
fn only_spot(alloc: Global, spot: Spot) -> Result<Vec<Spot>, EmitFault>
    ensures { IfOk result (λ spots. spots_of spots.items ≡ spot_of spot ∷ []) }
{
    let mut spots = Vec::new(alloc);
    push_spot(&mut spots, spot)?;
    Ok(spots)
}

/// A body under a handler that stands behind it, with one label.
#[cycle(walk)]
fn emit_guarded(
    alloc: Global,
    tables: &Tables,
    at: &Places,
    sure: bool,
    pass: &mut Pass,
    label: usize,
    body: &Body,
) -> Result<(), WalkFault>
    ensures code { OnOk result (sure ≡ true → pass.new.code.items ≡ pass.old.code.items
        ++ PushHandler (slot pass.old.depth) (length pass.old.code.items + 1 + guard_size (places_of tables.now at.now) pass.old.depth pass.old.slots
        (spots_of pass.old.spots.items) label (tree_of body.now))
        ∷ code_at (places_of tables.now at.now) (length pass.old.code.items + 1) (pass.old.depth + 3) pass.old.slots
        (left_by pass.old.depth (get_or (spots_of pass.old.spots.items) label no_spot) ∷ []) (tree_of body.now)) }
    ensures kept { OnOk result (sure ≡ true → Kept (env_of pass.old) (env_of pass.new)) }
    ensures walked { OnOk result (mark_of pass.new ≡ past_guarded rows (tables_of tables.now).types label (tree_of body.now) (mark_of pass.old)) }
    ensures told { IfErr result (λ fault. Foretold sure at.now.labels.items (length pass.old.found.items)
        (guarded_labels rows (tables_of tables.now).types label (mark_of pass.old) (tree_of body.now)) → fault ≢ Unsettled) }
{
    rows_are_right();
    let number = reserve(&mut pass.found)?;
    let target = at.label(number);
    let record = slot_at(pass.depth)?;
    put(&mut pass.code, Instr::PushHandler { record, target })?;
    let outer = spot_at(&pass.spots, label);
    let spot = left_spot(outer, pass.depth);
    let inside = only_spot(alloc, spot)?;
    let outside = std::mem::replace(&mut pass.spots, inside);
    let depth = pass.depth;
    let inner = sum(depth, 3)?;
    pass.depth = inner;
    emit_body(alloc, tables, at, sure, pass, body)?;
    pass.depth = depth;
    pass.spots = outside;
    settle(&pass.code, &mut pass.found, at, sure, number)
}

/// Arms, whose labels have the numbers from one on: the number of the label of the last body, which is to stand behind them.
#[cycle(walk)]
fn emit_arms(
    alloc: Global,
    tables: &Tables,
    at: &Places,
    sure: bool,
    pass: &mut Pass,
    how: Choice,
    first: usize,
    arms: &[Arm],
) -> Result<usize, WalkFault>
    ensures arms { IfOk result (λ number. sure ≡ true → ArmsBefore (places_of tables.now at.now) (label_in at.now) (choice_of how) (map arm_of arms.now)
        first number (env_of pass.old) pass.old.code.items pass.new.code.items) }
    ensures kept { OnOk result (sure ≡ true → Kept (env_of pass.old) (env_of pass.new)) }
    ensures walked { IfOk result (λ number. (front back : List ℕ) → first ≡ length front → pass.old.found.items ≡ front ++ (blank (length arms.now) ++ back)
        → (mark_of pass.new ≡ past_arms rows (tables_of tables.now).types (choice_of how) front back (map arm_of arms.now) (mark_of pass.old))
        × (number ≡ first + length arms.now)) }
    ensures told { IfErr result (λ fault. (front back : List ℕ) → first ≡ length front → pass.old.found.items ≡ front ++ (blank (length arms.now) ++ back)
        → Foretold sure at.now.labels.items (length front) (arms_from rows (tables_of tables.now).types (choice_of how) (length pass.old.code.items) (frame_of pass.old) (map
        arm_of arms.now))
        → Foretold sure at.now.labels.items (length pass.old.found.items) (arms_within rows (tables_of tables.now).types (choice_of how) (length pass.old.code.items)
        (frame_of pass.old) (map arm_of arms.now)) → fault ≢ Unsettled) }
{
    rows_are_right();
    let mut number = first;
    for i in 0..arms.len() {
        let arm = &arms[i];
        settle(&pass.code, &mut pass.found, at, sure, number)?;
        emit_arm_test(&mut pass.code, at, pass.depth, how, arm.tag, number)?;
        emit_body(alloc, tables, at, sure, pass, &arm.body)?;
        number = next_label(number)?;
    }
    Ok(number)
}

/// A function's code.
pub fn emit_fun(
    alloc: Global,
    tables: &Tables,
    at: &Places,
    sure: bool,
    pass: &mut Pass,
    fun: &Fun,
) -> Result<(), WalkFault>
    ensures code { OnOk result (sure ≡ true → pass.new.code.items ≡ pass.old.code.items
        ++ code_at (places_of tables.now at.now) (length pass.old.code.items) (pass.old.depth + length fun.now.params.items)
        (code_.with_params fun.now.params.items pass.old.depth pass.old.slots) (spots_of pass.old.spots.items) (tree_of fun.now.body)) }
    ensures kept { OnOk result (sure ≡ true → Kept (env_of pass.old) (env_of pass.new)) }
    ensures walked { OnOk result (mark_of pass.new ≡ past_fun rows (tables_of tables.now).types fun.now.params.items (tree_of fun.now.body) (mark_of pass.old)) }
    ensures told { IfErr result (λ fault. Foretold sure at.now.labels.items (length pass.old.found.items)
        (fun_labels rows (tables_of tables.now).types fun.now.params.items (tree_of fun.now.body) (mark_of pass.old)) → fault ≢ Unsettled) }
{
    bind_all(&mut pass.slots, &mut pass.depth, &fun.params)?;
    emit_body(alloc, tables, at, sure, pass, &fun.body)?;
    leave_scope(&mut pass.slots, &mut pass.depth, fun.params.len());
    Ok(())
}
