// Rows of words, and of words and integers.

ghost use Rattle.std.specs.Prelude.{◌≡◌, pos};
ghost use Rattle.word_arithmetic.specs.Arithmetic.{shift_left, shift_right, shift_signed};
ghost use Rattle.mlc_prims.specs.LitOf.{lits_of, one_in, word_in};
ghost use Rattle.mlc_prims.specs.PrimOf.{fitting, MeetsRow};
ghost use Rattle.mlc_prims.specs.Table.{row_of};
ghost use Rattle.mlc_prims.specs.declared.basis.BasisPrimitive.TheVariants as rows;

use crate::applied::{Applied, exact_int, made_int, made_word};
use crate::args::{WordPair, int, only, word, words};
use crate::lit::Lit;

fn one_word(args: &[Lit]) -> Option<u32>
    ensures { result ≡ one_in word_in (lits_of args.now) }
{
    match only(args) {
        Some(lit) => word(lit),
        None => None,
    }
}

pub(crate) fn bits_and(args: &[Lit]) -> Option<Applied>
    ensures { MeetsRow result (row_of rows.BitsAnd (lits_of args.now)) }
{
    match words(args) {
        Some(both) => Some(made_word(both.left & both.right)),
        None => None,
    }
}

pub(crate) fn bits_or(args: &[Lit]) -> Option<Applied>
    ensures { MeetsRow result (row_of rows.BitsOr (lits_of args.now)) }
{
    match words(args) {
        Some(both) => Some(made_word(both.left | both.right)),
        None => None,
    }
}

pub(crate) fn bits_xor(args: &[Lit]) -> Option<Applied>
    ensures { MeetsRow result (row_of rows.BitsXor (lits_of args.now)) }
{
    match words(args) {
        Some(both) => Some(made_word(both.left ^ both.right)),
        None => None,
    }
}

pub(crate) fn bits_not(args: &[Lit]) -> Option<Applied>
    ensures { MeetsRow result (row_of rows.BitsNot (lits_of args.now)) }
{
    match one_word(args) {
        Some(value) => Some(made_word(!value)),
        None => None,
    }
}

fn shifted_left(args: WordPair) -> u32
    ensures { result ≡ shift_left args.left args.right }
{
    if args.right < 32 {
        args.left << args.right
    } else {
        0
    }
}

fn shifted_right(args: WordPair) -> u32
    ensures { result ≡ shift_right args.left args.right }
{
    if args.right < 32 {
        args.left >> args.right
    } else {
        0
    }
}

fn shifted_with_sign(args: WordPair) -> u32
    ensures { result ≡ shift_signed args.left args.right }
{
    (args.left.cast_signed() >> args.right.min(31)).cast_unsigned()
}

pub(crate) fn left(args: &[Lit]) -> Option<Applied>
    ensures { MeetsRow result (row_of rows.ShiftLeft (lits_of args.now)) }
{
    match words(args) {
        Some(both) => Some(made_word(shifted_left(both))),
        None => None,
    }
}

pub(crate) fn right(args: &[Lit]) -> Option<Applied>
    ensures { MeetsRow result (row_of rows.ShiftRight (lits_of args.now)) }
{
    match words(args) {
        Some(both) => Some(made_word(shifted_right(both))),
        None => None,
    }
}

pub(crate) fn right_with_sign(args: &[Lit]) -> Option<Applied>
    ensures { MeetsRow result (row_of rows.ShiftSigned (lits_of args.now)) }
{
    match words(args) {
        Some(both) => Some(made_word(shifted_with_sign(both))),
        None => None,
    }
}

/// The unsigned value as an integer, where it has 31 bits.
fn unsigned_int(value: u32) -> Option<i32>
    ensures { result ≡ fitting (pos value) }
{
    if value < 0x8000_0000 {
        Some(value as i32)
    } else {
        None
    }
}

pub(crate) fn to_int(args: &[Lit]) -> Option<Applied>
    ensures { MeetsRow result (row_of rows.ToInt (lits_of args.now)) }
{
    match one_word(args) {
        Some(value) => Some(exact_int(unsigned_int(value))),
        None => None,
    }
}

pub(crate) fn to_int_signed(args: &[Lit]) -> Option<Applied>
    ensures { MeetsRow result (row_of rows.ToIntSigned (lits_of args.now)) }
{
    match one_word(args) {
        Some(value) => Some(made_int(value.cast_signed())),
        None => None,
    }
}

pub(crate) fn from_int(args: &[Lit]) -> Option<Applied>
    ensures { MeetsRow result (row_of rows.FromInt (lits_of args.now)) }
{
    match only(args) {
        Some(lit) => match int(lit) {
            Some(value) => Some(made_word(value.cast_unsigned())),
            None => None,
        },
        None => None,
    }
}
