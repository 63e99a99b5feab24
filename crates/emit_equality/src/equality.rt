// The routine that compares two values of a type.

ghost use Rattle.std.specs.Prelude.{◌≡◌, ℕ, ◌+◌, ◌-◌, ◌<◌, ◌≤◌, ◌^◌, List, [], ◌∷◌, ◌++◌, length, map, IfOk, OnOk, get_or};
ghost use Rattle.ir_code.specs.declared.instr.Instr.TheVariants.{Li, Mov, Jmp, Alloc, Ld, St};
ghost use Rattle.first_tables.specs.TablesOf.{items_of, shape_of};
ghost use Rattle.first_values.specs.Equality.{cells, Shape as ValueShape};
ghost use Rattle.machine_routines.specs.EqualCode as code_;
ghost use Rattle.emit_equality.specs.Ways.{all_shapes, all_tags, ArePlaces, most, way_in};

use emit_code::fault::EmitFault;
use emit_code::places::is_word_shape;
use emit_code::plain::{put_three, put_two};
use emit_code::put::{here, put, sum, word};
use emit_rows::row::{alloc as alloc_row, brz, equal, jmp, ld, li, mov, scmp, st};
use first_tables::tables::Shape;
use ir_code::instr::Instr;
use std::alloc::Global;

/// Where the routine begins, and the place of two values that are not equal.
const START: u32 = 2;

const DIFFER: u32 = START + 7;

/// The place of an offset.
const BEHIND_HEAD: u32 = START + 6;

/// How a part is compared: as a word; as the last part; or with the parts after it pending.
#[derive(Clone, Copy)]
pub enum Way {
    ByWord,
    AsLast,
    AsInner,
}

/// How a part of this type is compared, before these.
fn way_of(shapes: &[Shape], number: usize, rest: &[usize]) -> Way
    ensures { way_in result ≡ code_.way_at (all_shapes shapes.now) number rest.now }
{
    let by_word = match shapes.get(number) {
        Some(shape) => is_word_shape(shape),
        None => false,
    };
    if by_word {
        Way::ByWord
    } else if rest.is_empty() {
        Way::AsLast
    } else {
        Way::AsInner
    }
}

fn way_size(way: Way) -> u32
    ensures { result ≡ code_.way_size (way_in way) }
{
    match way {
        Way::ByWord => 4,
        Way::AsLast => 3,
        Way::AsInner => 10,
    }
}

/// The size of the code of a cell's parts.
fn parts_size(shapes: &[Shape], parts: &[usize]) -> Result<u32, EmitFault>
    ensures { IfOk result (λ size. size ≡ code_.parts_size (all_shapes shapes.now) parts.now) }
{
    let mut size: u32 = 0;
    for i in 0..parts.len() {
        let way = way_of(shapes, parts[i], &parts[i + 1..]);
        size = sum(size, way_size(way))?;
    }
    sum(size, 1)
}

fn tags_size(shapes: &[Shape], tags: &[Vec<usize>]) -> Result<u32, EmitFault>
    ensures { IfOk result (λ size. size ≡ code_.tags_size (all_shapes shapes.now) (all_tags tags.now)) }
{
    let mut size: u32 = 0;
    for i in 0..tags.len() {
        size = sum(size, parts_size(shapes, &tags[i])?)?;
    }
    Ok(size)
}

fn shape_size(shapes: &[Shape], shape: &Shape) -> Result<u32, EmitFault>
    ensures { IfOk result (λ size. size ≡ code_.shape_size (all_shapes shapes.now) (shape_of shape.now)) }
{
    match shape {
        Shape::Numbers | Shape::References => Ok(3),
        Shape::Texts => Ok(5),
        Shape::Cells(tags) => sum(sum(6, word(tags.len())?)?, tags_size(shapes, tags)?),
        Shape::Opaque => Ok(0),
    }
}

/// Where the code of each type stands.
pub fn type_places(alloc: Global, shapes: &[Shape]) -> Result<(Vec<u32>, u32), EmitFault>
    ensures { IfOk result (λ places. ArePlaces (all_shapes shapes.now) places.0.items places.1) }
{
    let mut places = Vec::new(alloc);
    let mut place = BEHIND_HEAD + 2;
    for i in 0..shapes.len() {
        places.push(place)?;
        place = sum(place, shape_size(shapes, &shapes[i])?)?;
    }
    Ok((places, place))
}

/// The place of a type's code.
fn type_at(places: &[u32], end: u32, number: usize) -> u32
    ensures { result ≡ get_or places.now number end }
{
    match places.get(number) {
        Some(place) => *place,
        None => end,
    }
}

/// A part that is compared as a word.
fn push_word(code: &mut Vec<Instr>, number: u32) -> Result<(), EmitFault>
    ensures { (shapes : List ValueShape) (o t : ℕ) → OnOk result (code.new.items ≡ code.old.items ++ code_.way_code shapes 2 most code_.by_word o number t) }
{
    put_two(code, ld(2, 5, number), ld(3, 6, number))?;
    put_two(code, equal(2, 2, 3), brz(2, DIFFER))
}

/// The last part of a cell.
fn push_last(code: &mut Vec<Instr>, number: u32, target: u32) -> Result<(), EmitFault>
    ensures { OnOk result (code.new.items ≡ code.old.items ++ Ld 5 5 number ∷ Ld 6 6 number ∷ Jmp target ∷ []) }
{
    put_three(code, ld(5, 5, number), ld(6, 6, number), jmp(target))
}

/// What is pending goes into the heap, with the offset where it goes on, and then this part.
fn push_pending(code: &mut Vec<Instr>, number: u32, on: u32, target: u32) -> Result<(), EmitFault>
    ensures { OnOk result (code.new.items ≡ code.old.items
        ++ Alloc 2 4 ∷ Li 3 on ∷ St 2 0 3 ∷ St 2 1 5 ∷ St 2 2 6 ∷ St 2 3 4 ∷ Mov 4 2 ∷ Ld 5 5 number ∷ Ld 6 6 number ∷ Jmp target ∷ []) }
{
    put_three(code, alloc_row(2, 4), li(3, on), st(2, 0, 3))?;
    put_three(code, st(2, 1, 5), st(2, 2, 6), st(2, 3, 4))?;
    put(code, mov(4, 2))?;
    push_last(code, number, target)
}

/// A part with those after it pending.
fn push_inner(code: &mut Vec<Instr>, number: u32, target: u32) -> Result<(), EmitFault>
    ensures { (shapes : List ValueShape) (o t : ℕ) → length code.old.items ≡ 8 + o → target ≡ code_.place shapes 2 most (code_.offset_of shapes t)
        → OnOk result (code.new.items ≡ code.old.items ++ code_.way_code shapes 2 most code_.as_inner o number t) }
{
    let behind = sum(here(code)?, 10)?;
    push_pending(code, number, behind - BEHIND_HEAD, target)
}

/// A part, before these.
fn push_part(
    code: &mut Vec<Instr>,
    shapes: &[Shape],
    places: &[u32],
    end: u32,
    number: u32,
    part: usize,
    rest: &[usize],
) -> Result<(), EmitFault>
    ensures { (o : ℕ) → length code.old.items ≡ 8 + o → ArePlaces (all_shapes shapes.now) places.now end → OnOk result (code.new.items
        ≡ code.old.items ++ code_.way_code (all_shapes shapes.now) 2 most (code_.way_at (all_shapes shapes.now) part rest.now) o number part) }
{
    let target = type_at(places, end, part);
    match way_of(shapes, part, rest) {
        Way::ByWord => push_word(code, number),
        Way::AsLast => push_last(code, number, target),
        Way::AsInner => push_inner(code, number, target),
    }
}

/// The parts of two cells.
fn push_parts(
    code: &mut Vec<Instr>,
    shapes: &[Shape],
    places: &[u32],
    end: u32,
    parts: &[usize],
) -> Result<(), EmitFault>
    ensures { (o : ℕ) → length code.old.items ≡ 8 + o → ArePlaces (all_shapes shapes.now) places.now end → OnOk result (code.new.items
        ≡ code.old.items ++ code_.parts_code (all_shapes shapes.now) 2 most o 1 parts.now) }
{
    let mut number: u32 = 1;
    for i in 0..parts.len() {
        push_part(code, shapes, places, end, number, parts[i], &parts[i + 1..])?;
        number = sum(number, 1)?;
    }
    put(code, jmp(START))
}

/// A jump to the code of each tag, of which the first stands here.
fn push_table(
    code: &mut Vec<Instr>,
    shapes: &[Shape],
    tags: &[Vec<usize>],
    first: u32,
) -> Result<(), EmitFault>
    ensures { (o : ℕ) → first ≡ code_.place (all_shapes shapes.now) 2 most o → OnOk result (code.new.items
        ≡ code.old.items ++ code_.tag_table (all_shapes shapes.now) 2 most o (all_tags tags.now)) }
{
    let mut place = first;
    for i in 0..tags.len() {
        put(code, jmp(place))?;
        place = sum(place, parts_size(shapes, &tags[i])?)?;
    }
    Ok(())
}

/// The code of each tag.
fn push_tags(
    code: &mut Vec<Instr>,
    shapes: &[Shape],
    places: &[u32],
    end: u32,
    tags: &[Vec<usize>],
) -> Result<(), EmitFault>
    ensures { (o : ℕ) → length code.old.items ≡ 8 + o → ArePlaces (all_shapes shapes.now) places.now end → OnOk result (code.new.items
        ≡ code.old.items ++ code_.tags_code (all_shapes shapes.now) 2 most o (all_tags tags.now)) }
{
    for i in 0..tags.len() {
        push_parts(code, shapes, places, end, &tags[i])?;
    }
    Ok(())
}

/// Two cells: by the parts of their tag.
fn push_cells(
    code: &mut Vec<Instr>,
    shapes: &[Shape],
    places: &[u32],
    end: u32,
    tags: &[Vec<usize>],
) -> Result<(), EmitFault>
    ensures { (o : ℕ) → length code.old.items ≡ 8 + o → ArePlaces (all_shapes shapes.now) places.now end → OnOk result (code.new.items
        ≡ code.old.items ++ code_.shape_code (all_shapes shapes.now) 2 most o (cells (all_tags tags.now))) }
{
    let count = word(tags.len())?;
    put_two(code, ld(2, 5, 0), ld(3, 6, 0))?;
    put_two(code, equal(2, 2, 3), brz(2, DIFFER))?;
    put(
        code,
        Instr::Switch {
            index: 3,
            last: count,
        },
    )?;
    let first = sum(sum(here(code)?, count)?, 1)?;
    push_table(code, shapes, tags, first)?;
    put(code, jmp(START))?;
    push_tags(code, shapes, places, end, tags)
}

/// Two values of a type.
fn push_shape(
    code: &mut Vec<Instr>,
    shapes: &[Shape],
    places: &[u32],
    end: u32,
    shape: &Shape,
) -> Result<(), EmitFault>
    ensures { (o : ℕ) → length code.old.items ≡ 8 + o → ArePlaces (all_shapes shapes.now) places.now end → OnOk result (code.new.items
        ≡ code.old.items ++ code_.shape_code (all_shapes shapes.now) 2 most o (shape_of shape.now)) }
{
    match shape {
        Shape::Numbers | Shape::References => {
            put_three(code, equal(2, 5, 6), brz(2, DIFFER), jmp(START))
        }
        Shape::Texts => {
            put_three(code, scmp(2, 5, 6), li(3, 1), equal(2, 2, 3))?;
            put_two(code, brz(2, DIFFER), jmp(START))
        }
        Shape::Cells(tags) => push_cells(code, shapes, places, end, tags),
        Shape::Opaque => Ok(()),
    }
}

/// The routine. Its head takes the next pending comparison, by a computed jump; with none the answer is 1.
pub fn push_equality(
    code: &mut Vec<Instr>,
    shapes: &[Shape],
    places: &[u32],
    end: u32,
) -> Result<(), EmitFault>
    ensures { length code.old.items ≡ 2 → ArePlaces (all_shapes shapes.now) places.now end → OnOk result (code.new.items
        ≡ code.old.items ++ code_.equal_code (all_shapes shapes.now) 2 most) }
{
    put_three(code, brz(4, BEHIND_HEAD), ld(2, 4, 0), ld(5, 4, 1))?;
    put_two(code, ld(6, 4, 2), ld(4, 4, 3))?;
    put(
        code,
        Instr::Switch {
            index: 2,
            last: 134_217_728,
        },
    )?;
    put_two(code, li(2, 1), Instr::Ret { value: 2 })?;
    for i in 0..shapes.len() {
        push_shape(code, shapes, places, end, &shapes[i])?;
    }
    Ok(())
}
