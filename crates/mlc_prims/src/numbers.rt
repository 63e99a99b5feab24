// Rows of integers, and of integers or words.

ghost use Rattle.std.specs.Prelude.{◌≡◌, ◌<◌, ◌/◌, ◌%◌, pos, int_div, int_rem};
ghost use Rattle.word_arithmetic.specs.Arithmetic.{floor_div, floor_mod, is_opposed};
ghost use Rattle.mlc_prims.specs.LitOf.{int, word, lits_of};
ghost use Rattle.mlc_prims.specs.PrimOf.{made, int_result, fitting, Meets, MeetsRow};
ghost use Rattle.mlc_prims.specs.Table.{row_of, unless_zero, unless_none};
ghost use Rattle.mlc_prims.specs.declared.basis.BasisPrimitive.TheVariants as rows;

use crate::applied::{Applied, exact_int, made_int, made_word};
use crate::args::{IntPair, WordPair, int, ints, only, word, words};
use crate::lit::Lit;
use crate::prim::PrimExn;

pub(crate) fn add(args: &[Lit]) -> Option<Applied>
    ensures { MeetsRow result (row_of rows.Add (lits_of args.now)) }
{
    match ints(args) {
        Some(both) => Some(exact_int(both.left.checked_add(both.right))),
        None => match words(args) {
            Some(both) => Some(made_word(both.left.wrapping_add(both.right))),
            None => None,
        },
    }
}

pub(crate) fn subtract(args: &[Lit]) -> Option<Applied>
    ensures { MeetsRow result (row_of rows.Subtract (lits_of args.now)) }
{
    match ints(args) {
        Some(both) => Some(exact_int(both.left.checked_sub(both.right))),
        None => match words(args) {
            Some(both) => Some(made_word(both.left.wrapping_sub(both.right))),
            None => None,
        },
    }
}

pub(crate) fn multiply(args: &[Lit]) -> Option<Applied>
    ensures { MeetsRow result (row_of rows.Multiply (lits_of args.now)) }
{
    match ints(args) {
        Some(both) => Some(exact_int(both.left.checked_mul(both.right))),
        None => match words(args) {
            Some(both) => Some(made_word(both.left.wrapping_mul(both.right))),
            None => None,
        },
    }
}

/// Whether the remainder has another sign than the divisor.
fn is_opposed_at(args: IntPair) -> bool
    requires { args.right ≡ pos 0 → ⊥ }
    ensures { result ≡ is_opposed (int_rem args.left args.right) args.right }
{
    let remainder = args.left.wrapping_rem(args.right);
    if args.right < 0 {
        remainder > 0
    } else {
        remainder < 0
    }
}

/// The quotient towards zero, where it has 32 bits.
fn quotient_of(args: IntPair) -> Option<i32>
    requires { args.right ≡ pos 0 → ⊥ }
    ensures { result ≡ fitting (int_div args.left args.right) }
{
    args.left.checked_div(args.right)
}

/// The quotient rounded down, where it has 32 bits.
fn floor_quotient(args: IntPair) -> Option<i32>
    requires { args.right ≡ pos 0 → ⊥ }
    ensures { result ≡ fitting (floor_div args.left args.right) }
{
    match quotient_of(args) {
        None => None,
        Some(quotient) => {
            if is_opposed_at(args) {
                Some(quotient.wrapping_sub(1))
            } else {
                Some(quotient)
            }
        }
    }
}

/// The remainder with the divisor's sign.
fn floor_remainder(args: IntPair) -> i32
    requires { args.right ≡ pos 0 → ⊥ }
    ensures { result ≡ floor_mod args.left args.right }
{
    let remainder = args.left.wrapping_rem(args.right);
    if is_opposed_at(args) {
        remainder.wrapping_add(args.right)
    } else {
        remainder
    }
}

fn divide_ints(args: IntPair) -> Applied
    ensures { Meets result (unless_zero args.right (int_result (floor_div args.left args.right))) }
{
    if args.right == 0 {
        return Applied::Raises(PrimExn::Div);
    }
    exact_int(floor_quotient(args))
}

fn modulo_ints(args: IntPair) -> Applied
    ensures { Meets result (unless_zero args.right (made (int (floor_mod args.left args.right)))) }
{
    if args.right == 0 {
        return Applied::Raises(PrimExn::Div);
    }
    made_int(floor_remainder(args))
}

fn quotient_ints(args: IntPair) -> Applied
    ensures { Meets result (unless_zero args.right (int_result (int_div args.left args.right))) }
{
    if args.right == 0 {
        return Applied::Raises(PrimExn::Div);
    }
    exact_int(quotient_of(args))
}

fn remainder_ints(args: IntPair) -> Applied
    ensures { Meets result (unless_zero args.right (made (int (int_rem args.left args.right)))) }
{
    if args.right == 0 {
        return Applied::Raises(PrimExn::Div);
    }
    made_int(args.left.wrapping_rem(args.right))
}

fn divide_words(args: WordPair) -> Applied
    ensures { Meets result (unless_none args.right (made (word (args.left / args.right)))) }
{
    if args.right == 0 {
        return Applied::Raises(PrimExn::Div);
    }
    made_word(args.left / args.right)
}

fn modulo_words(args: WordPair) -> Applied
    ensures { Meets result (unless_none args.right (made (word (args.left % args.right)))) }
{
    if args.right == 0 {
        return Applied::Raises(PrimExn::Div);
    }
    made_word(args.left % args.right)
}

pub(crate) fn divide(args: &[Lit]) -> Option<Applied>
    ensures { MeetsRow result (row_of rows.Divide (lits_of args.now)) }
{
    match ints(args) {
        Some(both) => Some(divide_ints(both)),
        None => match words(args) {
            Some(both) => Some(divide_words(both)),
            None => None,
        },
    }
}

pub(crate) fn modulo(args: &[Lit]) -> Option<Applied>
    ensures { MeetsRow result (row_of rows.Modulo (lits_of args.now)) }
{
    match ints(args) {
        Some(both) => Some(modulo_ints(both)),
        None => match words(args) {
            Some(both) => Some(modulo_words(both)),
            None => None,
        },
    }
}

pub(crate) fn quotient(args: &[Lit]) -> Option<Applied>
    ensures { MeetsRow result (row_of rows.Quotient (lits_of args.now)) }
{
    match ints(args) {
        Some(both) => Some(quotient_ints(both)),
        None => None,
    }
}

pub(crate) fn remainder(args: &[Lit]) -> Option<Applied>
    ensures { MeetsRow result (row_of rows.Remainder (lits_of args.now)) }
{
    match ints(args) {
        Some(both) => Some(remainder_ints(both)),
        None => None,
    }
}

pub(crate) fn negate(args: &[Lit]) -> Option<Applied>
    ensures { MeetsRow result (row_of rows.Negate (lits_of args.now)) }
{
    match only(args) {
        Some(lit) => match int(lit) {
            Some(value) => Some(exact_int(value.checked_neg())),
            None => match word(lit) {
                Some(value) => Some(made_word(value.wrapping_neg())),
                None => None,
            },
        },
        None => None,
    }
}

pub(crate) fn absolute(args: &[Lit]) -> Option<Applied>
    ensures { MeetsRow result (row_of rows.Absolute (lits_of args.now)) }
{
    match only(args) {
        Some(lit) => match int(lit) {
            Some(value) => Some(exact_int(value.checked_abs())),
            None => None,
        },
        None => None,
    }
}
