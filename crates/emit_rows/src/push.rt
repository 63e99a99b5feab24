// The code of primitives, behind the code so far.

ghost use Rattle.std.specs.Prelude.{◌≡◌, ℕ, suc, ◌+◌, ◌<◌, ◌^◌, List, [], ◌∷◌, ◌++◌, OnOk, get_or};
ghost use Rattle.ir_code.specs.declared.instr.Instr.TheVariants.{Li, Mov, Jmp, Brz, ULt};
ghost use Rattle.machine_rows.specs.of_machine_primitives.RowCode.{are_same, byte_of, join_of, magnitude, negated, part_of, text_of_one};
ghost use Rattle.first_tables.specs.TablesOf.{operands_of};
ghost use Rattle.machine_rows.specs.Table.{rows};
ghost use Rattle.emit_rows.specs.Shapes.{code_of, operation_of, packet_in, test_code_of};

use crate::row::{
    alloc, alloc_var, brz, copy, equal, ilt, itext, jmp, ld, li, mov, scmp, st, sub, ult, wadd,
    wsub,
};
use crate::rows::{row_shape, test_shape};
use crate::shape::{Operation, Shape, TestShape};
use first_tables::operation::Operands;
use ir_code::instr::Instr;
use mlc_base::memory::NoMemory;
use mlc_prims::basis::BasisPrimitive;
use mlc_prims::prim::PrimExn;

/// The addresses of the packets that primitives raise.
#[derive(Clone, Copy)]
pub struct Packets {
    pub overflow: u32,
    pub divide: u32,
    pub subscript: u32,
    pub size: u32,
    pub chr: u32,
}

/// Where a primitive stands: its own place, the slot for its result, and where it goes on with a packet or where a test fails.
#[derive(Clone, Copy)]
pub struct Spot {
    pub place: u32,
    pub slot: u32,
    pub other: u32,
}

/// The code of a primitive, of operands in these slots.
pub fn push_row(
    out: &mut Vec<Instr>,
    packets: Packets,
    spot: Spot,
    operands: Operands,
    primitive: BasisPrimitive,
    slots: &[u32],
) -> Result<(), NoMemory>
    requires slot { spot.slot + 3 < 2 ^ 32 }
    requires place { spot.place + 8 < 2 ^ 32 }
    ensures { OnOk result (out.new.items
        ≡ out.old.items ++ rows.code (operands_of operands) primitive (packet_in packets) spot.place spot.slot spot.other slots.now) }
{
    let shape = row_shape(operands, primitive);
    push_shape(out, packets, spot, shape, slots)
}

/// Its code as a test.
pub fn push_test(
    out: &mut Vec<Instr>,
    spot: Spot,
    operands: Operands,
    primitive: BasisPrimitive,
    slots: &[u32],
) -> Result<(), NoMemory>
    requires slot { spot.slot + 3 < 2 ^ 32 }
    requires place { spot.place + 8 < 2 ^ 32 }
    ensures { OnOk result (out.new.items
        ≡ out.old.items ++ rows.test_code (operands_of operands) primitive spot.place spot.slot spot.other slots.now) }
{
    let shape = test_shape(operands, primitive);
    push_test_shape(out, spot, shape, slots)
}

fn operand(slots: &[u32], number: usize) -> u32
    ensures { result ≡ get_or slots.now number 0 }
{
    match slots.get(number) {
        Some(slot) => *slot,
        None => 0,
    }
}

/// The address of the packet of an exception.
pub fn packet(packets: Packets, exception: PrimExn) -> u32
    ensures { result ≡ packet_in packets exception }
{
    match exception {
        PrimExn::Overflow => packets.overflow,
        PrimExn::Div => packets.divide,
        PrimExn::Subscript => packets.subscript,
        PrimExn::Size => packets.size,
        PrimExn::Chr => packets.chr,
    }
}

fn apply(operation: Operation, dst: u32, left: u32, right: u32) -> Instr
    ensures { result ≡ operation_of operation dst left right }
{
    match operation {
        Operation::Add => Instr::Add { dst, left, right },
        Operation::Sub => Instr::Sub { dst, left, right },
        Operation::Mul => Instr::Mul { dst, left, right },
        Operation::IDiv => Instr::IDiv { dst, left, right },
        Operation::IMod => Instr::IMod { dst, left, right },
        Operation::IQuot => Instr::IQuot { dst, left, right },
        Operation::IRem => Instr::IRem { dst, left, right },
        Operation::WAdd => Instr::WAdd { dst, left, right },
        Operation::WSub => Instr::WSub { dst, left, right },
        Operation::WMul => Instr::WMul { dst, left, right },
        Operation::WDiv => Instr::WDiv { dst, left, right },
        Operation::WMod => Instr::WMod { dst, left, right },
        Operation::And => Instr::And { dst, left, right },
        Operation::Or => Instr::Or { dst, left, right },
        Operation::Xor => Instr::Xor { dst, left, right },
        Operation::Shl => Instr::Shl { dst, left, right },
        Operation::Shr => Instr::Shr { dst, left, right },
        Operation::Sar => Instr::Sar { dst, left, right },
        Operation::ILt => Instr::ILt { dst, left, right },
        Operation::ULt => Instr::ULt { dst, left, right },
        Operation::Eq => Instr::Eq { dst, left, right },
        Operation::SCmp => Instr::SCmp { dst, left, right },
        Operation::SwappedILt => ilt(dst, right, left),
        Operation::SwappedULt => ult(dst, right, left),
        Operation::SwappedSCmp => scmp(dst, right, left),
    }
}

fn push_shape(
    out: &mut Vec<Instr>,
    packets: Packets,
    spot: Spot,
    shape: Shape,
    slots: &[u32],
) -> Result<(), NoMemory>
    requires slot { spot.slot + 3 < 2 ^ 32 }
    requires place { spot.place + 8 < 2 ^ 32 }
    ensures { OnOk result (out.new.items ≡ out.old.items ++ code_of shape (packet_in packets) spot.place spot.slot spot.other slots.now) }
{
    let x = operand(slots, 0);
    let y = operand(slots, 1);
    let z = operand(slots, 2);
    let d = spot.slot;
    match shape {
        Shape::Nothing => Ok(()),
        Shape::Total(operation) => push_one(out, apply(operation, d, x, y)),
        Shape::Moved => push_one(out, mov(d, x)),
        Shape::Loaded => push_one(out, ld(d, x, 0)),
        Shape::TextOfInt => push_one(out, itext(d, x)),
        Shape::FromWord(value, operation) => push_two(out, li(d, value), apply(operation, d, d, x)),
        Shape::Contrary(operation) => push_three(
            out,
            apply(operation, d, x, y),
            li(d + 1, 0),
            equal(d, d, d + 1),
        ),
        Shape::Against(number, operation, test) => push_three(
            out,
            li(d + 1, number),
            apply(operation, d, x, y),
            apply(test, d, d, d + 1),
        ),
        Shape::Partial(operation) => { push_two(out, apply(operation, d, x, y), jmp(spot.other)) }
        Shape::Negated => push_negated(out, packets, spot, x),
        Shape::Limited(exception, limit) => push_limited(
            out,
            packet(packets, exception),
            spot,
            limit,
            x,
        ),
        Shape::Divided(operation) => push_divided(out, packets, spot, apply(operation, d, x, y), y),
        Shape::Magnitude => push_magnitude(out, packets, spot, x),
        Shape::ByteOf => push_byte(out, packets, spot, x, y),
        Shape::PartOf => push_part(out, packets, spot, x, y, z),
        Shape::JoinOf => push_join(out, packets, spot, x, y),
        Shape::TextOfOne => push_text(out, packets, spot, x),
    }
}

fn push_one(out: &mut Vec<Instr>, first: Instr) -> Result<(), NoMemory>
    ensures { OnOk result (out.new.items ≡ out.old.items ++ first ∷ []) }
{
    out.push(first)?;
    Ok(())
}

fn push_two(out: &mut Vec<Instr>, first: Instr, second: Instr) -> Result<(), NoMemory>
    ensures { OnOk result (out.new.items ≡ out.old.items ++ first ∷ second ∷ []) }
{
    out.extend_from_slice(&[first, second])?;
    Ok(())
}

fn push_three(
    out: &mut Vec<Instr>,
    first: Instr,
    second: Instr,
    third: Instr,
) -> Result<(), NoMemory>
    ensures { OnOk result (out.new.items ≡ out.old.items ++ first ∷ second ∷ third ∷ []) }
{
    out.extend_from_slice(&[first, second, third])?;
    Ok(())
}

fn push_negated(out: &mut Vec<Instr>, packets: Packets, spot: Spot, x: u32) -> Result<(), NoMemory>
    requires slot { spot.slot + 3 < 2 ^ 32 }
    ensures { (slots : List ℕ) → get_or slots 0 0 ≡ x → OnOk result (out.new.items
        ≡ out.old.items ++ negated (packet_in packets) spot.place spot.slot spot.other slots) }
{
    let d = spot.slot;
    out.extend_from_slice(&[
        li(d, packets.overflow),
        li(d + 1, 0),
        sub(d, d + 1, x),
        jmp(spot.other),
    ])?;
    Ok(())
}

fn push_limited(
    out: &mut Vec<Instr>,
    packet: u32,
    spot: Spot,
    limit: u32,
    x: u32,
) -> Result<(), NoMemory>
    requires slot { spot.slot + 3 < 2 ^ 32 }
    ensures { OnOk result (out.new.items ≡ out.old.items
        ++ Li spot.slot packet ∷ Li (suc spot.slot) limit ∷ ULt (suc spot.slot) x (suc spot.slot) ∷ Brz (suc spot.slot) spot.other
        ∷ Mov spot.slot x ∷ []) }
{
    let d = spot.slot;
    out.extend_from_slice(&[
        li(d, packet),
        li(d + 1, limit),
        ult(d + 1, x, d + 1),
        brz(d + 1, spot.other),
        mov(d, x),
    ])?;
    Ok(())
}

fn push_divided(
    out: &mut Vec<Instr>,
    packets: Packets,
    spot: Spot,
    row: Instr,
    y: u32,
) -> Result<(), NoMemory>
    ensures { OnOk result (out.new.items ≡ out.old.items
        ++ Li spot.slot packets.divide ∷ Brz y spot.other ∷ Li spot.slot packets.overflow ∷ row ∷ Jmp spot.other ∷ []) }
{
    let d = spot.slot;
    out.extend_from_slice(&[
        li(d, packets.divide),
        brz(y, spot.other),
        li(d, packets.overflow),
        row,
        jmp(spot.other),
    ])?;
    Ok(())
}

fn push_magnitude(
    out: &mut Vec<Instr>,
    packets: Packets,
    spot: Spot,
    x: u32,
) -> Result<(), NoMemory>
    requires slot { spot.slot + 3 < 2 ^ 32 }
    requires place { spot.place + 8 < 2 ^ 32 }
    ensures { (slots : List ℕ) → get_or slots 0 0 ≡ x → OnOk result (out.new.items
        ≡ out.old.items ++ magnitude (packet_in packets) spot.place spot.slot spot.other slots) }
{
    let d = spot.slot;
    out.extend_from_slice(&[
        li(d + 1, 0),
        ilt(d + 1, x, d + 1),
        mov(d, x),
        brz(d + 1, spot.place + 8),
        li(d, packets.overflow),
        li(d + 1, 0),
        sub(d, d + 1, x),
        jmp(spot.other),
    ])?;
    Ok(())
}

fn push_byte(
    out: &mut Vec<Instr>,
    packets: Packets,
    spot: Spot,
    x: u32,
    y: u32,
) -> Result<(), NoMemory>
    requires slot { spot.slot + 3 < 2 ^ 32 }
    ensures { (slots : List ℕ) → get_or slots 0 0 ≡ x → get_or slots 1 0 ≡ y → OnOk result (out.new.items
        ≡ out.old.items ++ byte_of (packet_in packets) spot.place spot.slot spot.other slots) }
{
    let d = spot.slot;
    out.extend_from_slice(&[
        ld(d + 1, x, 0),
        ult(d + 1, y, d + 1),
        li(d, packets.subscript),
        brz(d + 1, spot.other),
        wadd(d + 1, x, y),
        ld(d, d + 1, 1),
    ])?;
    Ok(())
}

fn push_part(
    out: &mut Vec<Instr>,
    packets: Packets,
    spot: Spot,
    x: u32,
    y: u32,
    z: u32,
) -> Result<(), NoMemory>
    requires slot { spot.slot + 3 < 2 ^ 32 }
    ensures { (slots : List ℕ) → get_or slots 0 0 ≡ x → get_or slots 1 0 ≡ y → get_or slots 2 0 ≡ z → OnOk result (out.new.items
        ≡ out.old.items ++ part_of (packet_in packets) spot.place spot.slot spot.other slots) }
{
    let d = spot.slot;
    out.extend_from_slice(&[
        ld(d + 2, x, 0),
        li(d + 1, 1),
        wadd(d + 2, d + 2, d + 1),
        li(d, packets.subscript),
        ult(d + 1, y, d + 2),
        brz(d + 1, spot.other),
        wsub(d + 2, d + 2, y),
        ult(d + 1, z, d + 2),
        brz(d + 1, spot.other),
        li(d + 1, 1),
        wadd(d + 2, z, d + 1),
        alloc_var(d, d + 2),
        st(d, 0, z),
        wadd(d + 2, x, y),
        wadd(d + 2, d + 2, d + 1),
        wadd(d + 1, d, d + 1),
        copy(d + 1, d + 2, z),
    ])?;
    Ok(())
}

fn push_join(
    out: &mut Vec<Instr>,
    packets: Packets,
    spot: Spot,
    x: u32,
    y: u32,
) -> Result<(), NoMemory>
    requires slot { spot.slot + 3 < 2 ^ 32 }
    ensures { (slots : List ℕ) → get_or slots 0 0 ≡ x → get_or slots 1 0 ≡ y → OnOk result (out.new.items
        ≡ out.old.items ++ join_of (packet_in packets) spot.place spot.slot spot.other slots) }
{
    let d = spot.slot;
    out.extend_from_slice(&[
        ld(d + 3, x, 0),
        ld(d + 1, y, 0),
        wadd(d + 1, d + 3, d + 1),
        li(d + 2, 0x1000_0000),
        ult(d + 2, d + 1, d + 2),
        li(d, packets.size),
        brz(d + 2, spot.other),
        li(d + 2, 1),
        wadd(d + 2, d + 1, d + 2),
        alloc_var(d, d + 2),
        st(d, 0, d + 1),
        li(d + 2, 1),
        wadd(d + 1, d, d + 2),
        wadd(d + 2, x, d + 2),
        copy(d + 1, d + 2, d + 3),
        wadd(d + 1, d + 1, d + 3),
        li(d + 2, 1),
        wadd(d + 2, y, d + 2),
        ld(d + 3, y, 0),
        copy(d + 1, d + 2, d + 3),
    ])?;
    Ok(())
}

fn push_text(out: &mut Vec<Instr>, packets: Packets, spot: Spot, x: u32) -> Result<(), NoMemory>
    requires slot { spot.slot + 3 < 2 ^ 32 }
    ensures { (slots : List ℕ) → get_or slots 0 0 ≡ x → OnOk result (out.new.items
        ≡ out.old.items ++ text_of_one (packet_in packets) spot.place spot.slot spot.other slots) }
{
    let d = spot.slot;
    out.extend_from_slice(&[li(d + 1, 1), alloc(d, 2), st(d, 0, d + 1), st(d, 1, x)])?;
    Ok(())
}

fn push_test_shape(
    out: &mut Vec<Instr>,
    spot: Spot,
    shape: TestShape,
    slots: &[u32],
) -> Result<(), NoMemory>
    requires slot { spot.slot + 3 < 2 ^ 32 }
    requires place { spot.place + 8 < 2 ^ 32 }
    ensures { OnOk result (out.new.items ≡ out.old.items ++ test_code_of shape spot.place spot.slot spot.other slots.now) }
{
    let x = operand(slots, 0);
    let y = operand(slots, 1);
    let d = spot.slot;
    match shape {
        TestShape::Nothing => Ok(()),
        TestShape::Holds(operation) => {
            push_two(out, apply(operation, d, x, y), brz(d, spot.other))
        }
        TestShape::Fails(operation) => push_three(
            out,
            apply(operation, d, x, y),
            brz(d, spot.place + 3),
            jmp(spot.other),
        ),
        TestShape::AreSame => push_same(out, spot, x, y),
    }
}

fn push_same(out: &mut Vec<Instr>, spot: Spot, x: u32, y: u32) -> Result<(), NoMemory>
    requires slot { spot.slot + 3 < 2 ^ 32 }
    ensures { (slots : List ℕ) → get_or slots 0 0 ≡ x → get_or slots 1 0 ≡ y → OnOk result (out.new.items
        ≡ out.old.items ++ are_same spot.place spot.slot spot.other slots) }
{
    let d = spot.slot;
    out.extend_from_slice(&[
        li(d + 1, 1),
        scmp(d, x, y),
        equal(d, d, d + 1),
        brz(d, spot.other),
    ])?;
    Ok(())
}
