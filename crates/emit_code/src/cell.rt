// New cells.

ghost use Rattle.std.specs.Prelude.{◌≡◌, suc, ◌+◌, [], List, ◌∷◌, ◌++◌, map, IfOk, OnOk};
ghost use Rattle.ir_code.specs.declared.instr.Instr.TheVariants.{Li, Alloc, St, WAdd, Copy};
ghost use Rattle.first_values.specs.Values.{Piece as ValuePiece};
ghost use Rattle.first_tables.specs.TablesOf.{piece_of};
ghost use Rattle.emit_rows.specs.of_machine_code.Code.{make_code, pieces_code, pieces_count, slot};

use crate::fault::EmitFault;
use crate::plain::put_three;
use crate::put::{put, slot_at, slot_of, sum, word};
use emit_rows::row::{alloc as alloc_row, copy, li, st, wadd};
use first_tables::operation::Piece;
use ir_code::instr::Instr;
use scoped_map::scoped::Scoped;

/// How many words pieces are.
fn count_words(pieces: &[Piece]) -> Result<u32, EmitFault>
    ensures { IfOk result (λ count. count ≡ pieces_count (map piece_of pieces.now)) }
{
    let mut total: u32 = 0;
    for piece in pieces {
        let more = match *piece {
            Piece::One(_) => 1,
            Piece::Run {
                cell: _,
                from: _,
                count,
            } => word(count)?,
        };
        total = sum(total, more)?;
    }
    Ok(total)
}

/// So many parts of another cell from one on, into the cell in the slot, from its word of this number on.
fn emit_run(
    code: &mut Vec<Instr>,
    slot: u32,
    number: u32,
    cell: u32,
    from: u32,
    count: u32,
) -> Result<(), EmitFault>
    ensures { OnOk result (code.new.items ≡ code.old.items
        ++ Li (suc slot) number ∷ WAdd (suc slot) slot (suc slot) ∷ Li (slot + 2) (suc from) ∷ WAdd (slot + 2) cell (slot + 2)
        ∷ Li (slot + 3) count ∷ Copy (suc slot) (slot + 2) (slot + 3) ∷ []) }
{
    let to = sum(slot, 1)?;
    let source = sum(slot, 2)?;
    let size = sum(slot, 3)?;
    put_three(
        code,
        li(to, number),
        wadd(to, slot, to),
        li(source, sum(from, 1)?),
    )?;
    put_three(
        code,
        wadd(source, cell, source),
        li(size, count),
        copy(to, source, size),
    )
}

/// A piece; the number of the word behind it.
fn emit_piece(
    code: &mut Vec<Instr>,
    slots: &Scoped<u32>,
    depth: u32,
    number: u32,
    piece: Piece,
) -> Result<u32, EmitFault>
    ensures { IfOk result (λ next. (qs : List ValuePiece) → code.new.items ++ pieces_code depth next slots.now qs
        ≡ code.old.items ++ pieces_code depth number slots.now (piece_of piece ∷ qs)) }
{
    let slot = slot_at(depth)?;
    match piece {
        Piece::One(variable) => {
            put(code, st(slot, number, slot_of(slots, variable)?))?;
            sum(number, 1)
        }
        Piece::Run { cell, from, count } => {
            if count == 0 {
                return Ok(number);
            }
            let size = word(count)?;
            emit_run(code, slot, number, slot_of(slots, cell)?, word(from)?, size)?;
            sum(number, size)
        }
    }
}

/// Pieces into the cell in the slot at the depth, from its first part on.
fn emit_pieces(
    code: &mut Vec<Instr>,
    slots: &Scoped<u32>,
    depth: u32,
    pieces: &[Piece],
) -> Result<(), EmitFault>
    ensures { OnOk result (code.new.items ≡ code.old.items ++ pieces_code depth 1 slots.now (map piece_of pieces.now)) }
{
    let mut number: u32 = 1;
    for piece in pieces {
        number = emit_piece(code, slots, depth, number, *piece)?;
    }
    Ok(())
}

/// A new cell.
fn emit_new(
    code: &mut Vec<Instr>,
    slots: &Scoped<u32>,
    depth: u32,
    tag: usize,
    pieces: &[Piece],
) -> Result<(), EmitFault>
    ensures { OnOk result (code.new.items ≡ code.old.items
        ++ Alloc (slot depth) (suc (pieces_count (map piece_of pieces.now))) ∷ Li (slot (suc depth)) tag ∷ St (slot depth) 0 (slot (suc depth))
        ∷ pieces_code depth 1 slots.now (map piece_of pieces.now)) }
{
    let slot = slot_at(depth)?;
    let next = sum(slot, 1)?;
    let words = sum(count_words(pieces)?, 1)?;
    put_three(
        code,
        alloc_row(slot, words),
        li(next, word(tag)?),
        st(slot, 0, next),
    )?;
    emit_pieces(code, slots, depth, pieces)
}

/// A cell with a tag, of these pieces, to the slot at the depth. The constants 0 and 1 are cells of these tags with no parts.
pub fn emit_cell(
    code: &mut Vec<Instr>,
    slots: &Scoped<u32>,
    depth: u32,
    tag: usize,
    pieces: &[Piece],
) -> Result<(), EmitFault>
    ensures { OnOk result (code.new.items ≡ code.old.items ++ make_code depth tag slots.now (map piece_of pieces.now)) }
{
    if pieces.is_empty() && tag < 2 {
        return put(code, li(slot_at(depth)?, tag as u32));
    }
    emit_new(code, slots, depth, tag, pieces)
}
