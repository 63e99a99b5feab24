// Operations and tests.

ghost use Rattle.std.specs.Prelude.{◌≡◌, ℕ, suc, ◌+◌, ◌<◌, ◌^◌, [], ◌∷◌, ◌++◌, length, map, IfOk, OnOk, get_or};
ghost use Rattle.ir_code.specs.declared.instr.Instr.TheVariants.{Li, Brz, Alloc, St, Eq, SCmp};
ghost use Rattle.first_values.specs.Equality.{opaque};
ghost use Rattle.machine_routines.specs.EqualCode.{is_word};
ghost use Rattle.emit_rows.specs.of_machine_code.Code as code_;
ghost use Rattle.first_tables.specs.TablesOf.{constant_of, operands_of, plain_of, tables_of, test_of};
ghost use Rattle.emit_rows.specs.of_machine_code.Code.{depths_in, slot, equal_call, is_code, plain_code, test_code, word_test_code};
ghost use Rattle.emit_rows.specs.of_machine_code.Rows.{late_code};
ghost use Rattle.emit_rows.specs.of_machine_rows.Table.{rows};
ghost use Rattle.emit_rows.specs.Shapes.{packet_in};
ghost use Rattle.emit_code.specs.PlacesOf.{places_of};

use crate::fault::EmitFault;
use crate::places::{Places, are_words};
use crate::put::{here, operand, put, slot_at, slots_of, sum, word};
use emit_rows::push::{Spot, packet, push_row, push_test};
use emit_rows::row::{alloc as alloc_row, brz, equal, jmp, ld, li, mov, scmp, st};
use emit_rows::sizes::{late_exception, row_size};
use first_tables::operation::{Constant, Operands, Plain, Test};
use first_tables::tables::Tables;
use ir_code::instr::Instr;
use mlc_names::names::Name;
use mlc_prims::basis::BasisPrimitive;
use scoped_map::scoped::Scoped;
use std::alloc::Global;

/// Behind this place eight more are words.
fn has_room(place: u32) -> Result<(), EmitFault>
    ensures { OnOk result (place + 8 < 2 ^ 32) }
{
    sum(place, 8)?;
    Ok(())
}

/// The slot of a result, with three more behind it.
fn free_slot(depth: u32) -> Result<u32, EmitFault>
    ensures { IfOk result (λ found. (found ≡ slot depth) × (found + 3 < 2 ^ 32)) }
{
    sum(depth, 5)?;
    slot_at(depth)
}

/// The code of a primitive, which goes on at another place with what it raises.
pub fn emit_row(
    alloc: Global,
    code: &mut Vec<Instr>,
    at: &Places,
    slots: &Scoped<u32>,
    depth: u32,
    kind: Operands,
    primitive: BasisPrimitive,
    operands: &[usize],
    other: u32,
) -> Result<(), EmitFault>
    ensures { OnOk result (code.new.items ≡ code.old.items
        ++ rows.code (operands_of kind) primitive (packet_in at.now.packets) (length code.old.items) (slot depth) other
        (map slot (depths_in operands.now slots.now))) }
{
    let place = here(code)?;
    has_room(place)?;
    let slot = free_slot(depth)?;
    let operands = slots_of(alloc, slots, operands)?;
    let spot = Spot { place, slot, other };
    push_row(code, at.packets, spot, kind, primitive, &operands)?;
    Ok(())
}

/// Where a primitive goes on with a packet: puts it into the slot, if it isn't there.
pub fn emit_late(
    code: &mut Vec<Instr>,
    at: &Places,
    depth: u32,
    kind: Operands,
    primitive: BasisPrimitive,
) -> Result<(), EmitFault>
    ensures { OnOk result (code.new.items ≡ code.old.items
        ++ late_code (rows.late (operands_of kind) primitive) (packet_in at.now.packets) (slot depth)) }
{
    match late_exception(kind, primitive) {
        None => Ok(()),
        Some(exception) => put(code, li(slot_at(depth)?, packet(at.packets, exception))),
    }
}

/// The code of one that raises nothing.
fn emit_compute(
    alloc: Global,
    code: &mut Vec<Instr>,
    at: &Places,
    slots: &Scoped<u32>,
    depth: u32,
    kind: Operands,
    primitive: BasisPrimitive,
    operands: &[usize],
) -> Result<(), EmitFault>
    ensures { OnOk result (code.new.items ≡ code.old.items
        ++ rows.code (operands_of kind) primitive (packet_in at.now.packets) (length code.old.items) (slot depth)
        (length code.old.items + rows.size (operands_of kind) primitive) (map slot (depths_in operands.now slots.now))) }
{
    let behind = sum(here(code)?, row_size(kind, primitive))?;
    emit_row(
        alloc, code, at, slots, depth, kind, primitive, operands, behind,
    )
}

/// An operation; its result goes to the slot at the depth.
pub fn emit_plain(
    alloc: Global,
    code: &mut Vec<Instr>,
    tables: &Tables,
    at: &Places,
    slots: &Scoped<u32>,
    depth: u32,
    plain: Plain,
    operands: &[usize],
) -> Result<(), EmitFault>
    ensures { OnOk result (code.new.items ≡ code.old.items
        ++ plain_code (places_of tables.now at.now) (length code.old.items) depth (plain_of plain) (depths_in operands.now slots.now)) }
{
    let slot = slot_at(depth)?;
    let x = operand(slots, operands, 0)?;
    let y = operand(slots, operands, 1)?;
    match plain {
        Plain::Same => put(code, mov(slot, x)),
        Plain::Constant(constant) => put(code, li(slot, at.constant(tables, constant))),
        Plain::Field(number) => put(code, ld(slot, x, sum(word(number)?, 1)?)),
        Plain::Refer => put_two(code, alloc_row(slot, 1), st(slot, 0, x)),
        Plain::Content => put(code, ld(slot, x, 0)),
        Plain::Assign => put_two(code, st(x, 0, y), li(slot, 0)),
        Plain::Exception(name) => emit_exception(code, slot, at.name(name)),
        Plain::Initial(number) => put(code, li(slot, at.initial(number)?)),
        Plain::Pack => put_three(code, alloc_row(slot, 2), st(slot, 0, x), st(slot, 1, y)),
        Plain::Argument => put(code, ld(slot, x, 1)),
        Plain::Compute(kind, primitive) => emit_compute(
            alloc, code, at, slots, depth, kind, primitive, operands,
        ),
        Plain::Equal(number) => emit_equal(code, tables, at, depth, number, x, y),
        Plain::Print => put_two(code, Instr::Print { text: x }, li(slot, 0)),
    }
}

pub fn put_two(code: &mut Vec<Instr>, first: Instr, second: Instr) -> Result<(), EmitFault>
    ensures { OnOk result (code.new.items ≡ code.old.items ++ first ∷ second ∷ []) }
{
    put(code, first)?;
    put(code, second)
}

pub fn put_three(
    code: &mut Vec<Instr>,
    first: Instr,
    second: Instr,
    third: Instr,
) -> Result<(), EmitFault>
    ensures { OnOk result (code.new.items ≡ code.old.items ++ first ∷ second ∷ third ∷ []) }
{
    put_two(code, first, second)?;
    put(code, third)
}

/// A new exception, by the address of its text.
fn emit_exception(code: &mut Vec<Instr>, slot: u32, text: u32) -> Result<(), EmitFault>
    ensures { OnOk result (code.new.items ≡ code.old.items ++ Alloc slot 1 ∷ Li (suc slot) text ∷ St slot 0 (suc slot) ∷ []) }
{
    let next = sum(slot, 1)?;
    put_three(code, alloc_row(slot, 1), li(next, text), st(slot, 0, next))
}

/// Whether two values of a type are equal.
fn emit_equal(
    code: &mut Vec<Instr>,
    tables: &Tables,
    at: &Places,
    depth: u32,
    number: usize,
    x: u32,
    y: u32,
) -> Result<(), EmitFault>
    ensures { (left right : ℕ) → x ≡ slot left → y ≡ slot right → OnOk result (code.new.items ≡ code.old.items
        ++ equal_call (places_of tables.now at.now) (is_word (get_or (tables_of tables.now).types number opaque)) depth number left right) }
{
    let slot = slot_at(depth)?;
    if are_words(tables, number) {
        return put(code, equal(slot, x, y));
    }
    put_three(
        code,
        li(sum(slot, 4)?, 0),
        mov(sum(slot, 5)?, x),
        mov(sum(slot, 6)?, y),
    )?;
    let target = at.type_place(number);
    put_two(
        code,
        Instr::Call {
            target,
            frame: slot,
        },
        Instr::Acc { dst: slot },
    )
}

/// Whether a word is this one; where it isn't it goes on at another place.
fn emit_word_test(
    code: &mut Vec<Instr>,
    slot: u32,
    wanted: u32,
    x: u32,
    other: u32,
) -> Result<(), EmitFault>
    ensures { (at : code_.Places) (d y : ℕ) → slot ≡ code_.slot d → x ≡ code_.slot y → OnOk result (code.new.items ≡ code.old.items
        ++ word_test_code at (length code.old.items) d wanted y other) }
{
    if wanted == 0 {
        let behind = sum(here(code)?, 2)?;
        return put_two(code, brz(x, behind), jmp(other));
    }
    put_three(
        code,
        li(slot, wanted),
        equal(slot, slot, x),
        brz(slot, other),
    )
}

/// Whether a text is the one at this address.
fn emit_text_test(
    code: &mut Vec<Instr>,
    slot: u32,
    address: u32,
    x: u32,
    other: u32,
) -> Result<(), EmitFault>
    ensures { OnOk result (code.new.items ≡ code.old.items
        ++ Li slot address ∷ SCmp slot slot x ∷ Li (suc slot) 1 ∷ Eq slot slot (suc slot) ∷ Brz slot other ∷ []) }
{
    let next = sum(slot, 1)?;
    put_three(code, li(slot, address), scmp(slot, slot, x), li(next, 1))?;
    put_two(code, equal(slot, slot, next), brz(slot, other))
}

/// Whether a value is a constant.
fn emit_is(
    code: &mut Vec<Instr>,
    tables: &Tables,
    at: &Places,
    slot: u32,
    constant: Constant,
    x: u32,
    other: u32,
) -> Result<(), EmitFault>
    ensures { (d y : ℕ) → slot ≡ code_.slot d → x ≡ code_.slot y → OnOk result (code.new.items ≡ code.old.items
        ++ is_code (places_of tables.now at.now) (length code.old.items) d (constant_of constant) y other) }
{
    let wanted = at.constant(tables, constant);
    match constant {
        Constant::Text(_) => emit_text_test(code, slot, wanted, x, other),
        Constant::Int(_) => emit_word_test(code, slot, wanted, x, other),
        Constant::Word(_) => emit_word_test(code, slot, wanted, x, other),
        Constant::Char(_) => emit_word_test(code, slot, wanted, x, other),
        Constant::Truth(_) => emit_word_test(code, slot, wanted, x, other),
    }
}

/// A test; where it fails it goes on at another place.
pub fn emit_test(
    alloc: Global,
    code: &mut Vec<Instr>,
    tables: &Tables,
    at: &Places,
    slots: &Scoped<u32>,
    depth: u32,
    test: Test,
    operands: &[usize],
    other: u32,
) -> Result<(), EmitFault>
    ensures { OnOk result (code.new.items ≡ code.old.items
        ++ test_code (places_of tables.now at.now) (length code.old.items) depth (test_of test) (depths_in operands.now slots.now) other) }
{
    let slot = slot_at(depth)?;
    let x = operand(slots, operands, 0)?;
    match test {
        Test::Is(constant) => { emit_is(code, tables, at, slot, constant, x, other) }
        Test::IsOf => {
            let y = operand(slots, operands, 1)?;
            put_three(code, ld(slot, x, 0), equal(slot, slot, y), brz(slot, other))
        }
        Test::Holds(kind, primitive) => emit_holds(
            alloc, code, slots, depth, kind, primitive, operands, other,
        ),
    }
}

/// A primitive that gives a truth value, as a test.
fn emit_holds(
    alloc: Global,
    code: &mut Vec<Instr>,
    slots: &Scoped<u32>,
    depth: u32,
    kind: Operands,
    primitive: BasisPrimitive,
    operands: &[usize],
    other: u32,
) -> Result<(), EmitFault>
    ensures { OnOk result (code.new.items ≡ code.old.items
        ++ rows.test_code (operands_of kind) primitive (length code.old.items) (slot depth) other (map slot (depths_in operands.now slots.now))) }
{
    let place = here(code)?;
    has_room(place)?;
    let slot = free_slot(depth)?;
    let operands = slots_of(alloc, slots, operands)?;
    let spot = Spot { place, slot, other };
    push_test(code, spot, kind, primitive, &operands)?;
    Ok(())
}
