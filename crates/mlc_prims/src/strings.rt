// Rows of characters and strings.

ghost use Rattle.std.specs.Prelude.{◌≡◌, ◌∷◌, [], ◌++◌, ◌≤◌, length, IfOk, List, ℕ, ◌+◌};
ghost use Rattle.word_arithmetic.specs.Arithmetic.{signed_text};
ghost use Rattle.mlc_prims.specs.LitOf.{char, string, lits_of};
ghost use Rattle.mlc_prims.specs.PrimOf.{made, joined, Meets, MeetsRow, AreShort};
ghost use Rattle.mlc_prims.specs.Table.{row_of, bytes_from, byte_at, or_subscript, character as character_for};
ghost use Rattle.mlc_prims.specs.declared.basis.BasisPrimitive.TheVariants as rows;

use crate::applied::{Applied, made_char, made_int};
use crate::args::{character, int, ints, only, string, strings};
use crate::lit::Lit;
use crate::prim::PrimExn;
use itoa::Buffer;
use mlc_base::memory::NoMemory;
use std::alloc::Global;

/// The most bytes of a string.
pub const MAX_SIZE: usize = 268_435_455;

/// The string, or want of memory.
fn made_string(text: Result<Vec<u8>, NoMemory>) -> Applied
    ensures { (s : List ℕ) → IfOk text (λ t. t.items ≡ s) → Meets result (made (string s)) }
{
    match text {
        Ok(text) => Applied::Made(Lit::Str(text)),
        Err(NoMemory) => Applied::Memory,
    }
}

/// Both strings one behind the other.
fn joined_bytes(alloc: Global, left: &[u8], right: &[u8]) -> Result<Vec<u8>, NoMemory>
    requires { length left.now + length right.now ≤ 268435455 }
    ensures { IfOk result (λ text. text.items ≡ left.now ++ right.now) }
{
    let mut text = Vec::from_slice(alloc, left)?;
    text.extend_from_slice(right)?;
    Ok(text)
}

/// Both strings one behind the other, or Size where these are too many bytes.
fn join(alloc: Global, left: &[u8], right: &[u8]) -> Applied
    requires left { length left.now ≤ 268435455 }
    requires right { length right.now ≤ 268435455 }
    ensures { Meets result (joined left.now right.now) }
{
    if left.len() + right.len() > MAX_SIZE {
        return Applied::Raises(PrimExn::Size);
    }
    made_string(joined_bytes(alloc, left, right))
}

pub(crate) fn concat(alloc: Global, args: &[Lit]) -> Option<Applied>
    requires { AreShort (lits_of args.now) }
    ensures { MeetsRow result (row_of rows.Concat (lits_of args.now)) }
{
    match strings(args) {
        Some(both) => Some(join(alloc, both.left, both.right)),
        None => None,
    }
}

pub(crate) fn char_code(args: &[Lit]) -> Option<Applied>
    ensures { MeetsRow result (row_of rows.CharCode (lits_of args.now)) }
{
    match only(args) {
        Some(lit) => match character(lit) {
            Some(value) => Some(made_int(i32::from(value))),
            None => None,
        },
        None => None,
    }
}

/// The character of this code, or Chr.
fn char_for(code: i32) -> Applied
    ensures { Meets result (character_for code) }
{
    if 0 <= code && code < 256 {
        made_char(code as u8)
    } else {
        Applied::Raises(PrimExn::Chr)
    }
}

pub(crate) fn char_of(args: &[Lit]) -> Option<Applied>
    ensures { MeetsRow result (row_of rows.CharOf (lits_of args.now)) }
{
    match only(args) {
        Some(lit) => match int(lit) {
            Some(value) => Some(char_for(value)),
            None => None,
        },
        None => None,
    }
}

/// The text of an integer.
fn int_text(alloc: Global, value: i32) -> Result<Vec<u8>, NoMemory>
    ensures { IfOk result (λ text. text.items ≡ signed_text value) }
{
    let mut buffer = Buffer::new();
    let digits = buffer.format(value.unsigned_abs()).as_bytes();
    let mut text = Vec::new(alloc);
    if value < 0 {
        text.push(b'~')?;
    }
    text.extend_from_slice(digits)?;
    Ok(text)
}

pub(crate) fn text_of(alloc: Global, args: &[Lit]) -> Option<Applied>
    ensures { MeetsRow result (row_of rows.TextOf (lits_of args.now)) }
{
    match only(args) {
        Some(lit) => match int(lit) {
            Some(value) => Some(made_string(int_text(alloc, value))),
            None => None,
        },
        None => None,
    }
}

pub(crate) fn size_of(args: &[Lit]) -> Option<Applied>
    requires { AreShort (lits_of args.now) }
    ensures { MeetsRow result (row_of rows.SizeOf (lits_of args.now)) }
{
    match only(args) {
        Some(lit) => match string(lit) {
            Some(text) => Some(made_int(text.len() as i32)),
            None => None,
        },
        None => None,
    }
}

/// The byte at a place, or Subscript.
fn char_in(text: &[u8], place: i32) -> Applied
    requires { length text.now ≤ 268435455 }
    ensures { Meets result (or_subscript char (byte_at text.now place)) }
{
    if 0 <= place && (place as usize) < text.len() {
        made_char(text[place as usize])
    } else {
        Applied::Raises(PrimExn::Subscript)
    }
}

pub(crate) fn char_at(args: &[Lit]) -> Option<Applied>
    requires { AreShort (lits_of args.now) }
    ensures { MeetsRow result (row_of rows.CharAt (lits_of args.now)) }
{
    if args.len() != 2 {
        return None;
    }
    match string(&args[0]) {
        Some(text) => match int(&args[1]) {
            Some(place) => Some(char_in(text, place)),
            None => None,
        },
        None => None,
    }
}

/// The bytes from a place on, so many of them, or Subscript.
fn part_in(alloc: Global, text: &[u8], place: i32, count: i32) -> Applied
    requires { length text.now ≤ 268435455 }
    ensures { Meets result (or_subscript string (bytes_from text.now place count)) }
{
    if place < 0 || count < 0 || place as usize + count as usize > text.len() {
        return Applied::Raises(PrimExn::Subscript);
    }
    let from = place as usize;
    made_string(copied(alloc, &text[from..from + count as usize]))
}

fn copied(alloc: Global, text: &[u8]) -> Result<Vec<u8>, NoMemory>
    ensures { IfOk result (λ copy. copy.items ≡ text.now) }
{
    Ok(Vec::from_slice(alloc, text)?)
}

pub(crate) fn part_of(alloc: Global, args: &[Lit]) -> Option<Applied>
    requires { AreShort (lits_of args.now) }
    ensures { MeetsRow result (row_of rows.PartOf (lits_of args.now)) }
{
    if args.len() != 3 {
        return None;
    }
    match string(&args[0]) {
        Some(text) => match ints(&args[1..]) {
            Some(both) => Some(part_in(alloc, text, both.left, both.right)),
            None => None,
        },
        None => None,
    }
}

fn one_byte(alloc: Global, value: u8) -> Result<Vec<u8>, NoMemory>
    ensures { IfOk result (λ text. text.items ≡ value ∷ []) }
{
    let mut text = Vec::new(alloc);
    text.push(value)?;
    Ok(text)
}

pub(crate) fn string_of(alloc: Global, args: &[Lit]) -> Option<Applied>
    ensures { MeetsRow result (row_of rows.StringOf (lits_of args.now)) }
{
    match only(args) {
        Some(lit) => match character(lit) {
            Some(value) => Some(made_string(one_byte(alloc, value))),
            None => None,
        },
        None => None,
    }
}
