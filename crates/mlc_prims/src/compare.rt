// Rows that compare two values of one kind.

ghost use Rattle.std.specs.Prelude.{◌≡◌, option_map, true};
ghost use Rattle.std.specs.Ordering.{is_lt, is_le, is_gt, is_ge};
ghost use Rattle.mlc_prims.specs.LitOf.{lit_of, lits_of};
ghost use Rattle.mlc_prims.specs.PrimOf.{MeetsRow};
ghost use Rattle.mlc_prims.specs.Table.{row_of, literal_cmp, literal_eq};
ghost use Rattle.mlc_prims.specs.declared.basis.BasisPrimitive.TheVariants as rows;

use crate::applied::{Applied, made_truth};
use crate::args::{character, int, string, truth, word};
use crate::lit::Lit;
use std::cmp::Ordering;

/// How two values of one kind stand to each other.
fn compare(left: &Lit, right: &Lit) -> Option<Ordering>
    ensures { result ≡ literal_cmp (lit_of left.now) (lit_of right.now) }
{
    match left {
        Lit::Int(a) => Some(a.cmp(&int(right)?)),
        Lit::Word(a) => Some(a.cmp(&word(right)?)),
        Lit::Char(a) => Some(a.cmp(&character(right)?)),
        Lit::Str(a) => Some(a.as_slice().cmp(string(right)?)),
        Lit::Truth(_) => None,
    }
}

/// Whether two values of one kind are the same.
fn equal(left: &Lit, right: &Lit) -> Option<bool>
    ensures { result ≡ literal_eq (lit_of left.now) (lit_of right.now) }
{
    match left {
        Lit::Int(a) => Some(*a == int(right)?),
        Lit::Word(a) => Some(*a == word(right)?),
        Lit::Char(a) => Some(*a == character(right)?),
        Lit::Str(a) => Some(a.as_slice() == string(right)?),
        Lit::Truth(a) => Some(*a == truth(right)?),
    }
}

pub(crate) fn less(args: &[Lit]) -> Option<Applied>
    ensures { MeetsRow result (row_of rows.Less (lits_of args.now)) }
{
    if args.len() != 2 {
        return None;
    }
    match compare(&args[0], &args[1]) {
        Some(order) => Some(made_truth(order.is_lt())),
        None => None,
    }
}

pub(crate) fn less_equal(args: &[Lit]) -> Option<Applied>
    ensures { MeetsRow result (row_of rows.LessEqual (lits_of args.now)) }
{
    if args.len() != 2 {
        return None;
    }
    match compare(&args[0], &args[1]) {
        Some(order) => Some(made_truth(order.is_le())),
        None => None,
    }
}

pub(crate) fn greater(args: &[Lit]) -> Option<Applied>
    ensures { MeetsRow result (row_of rows.Greater (lits_of args.now)) }
{
    if args.len() != 2 {
        return None;
    }
    match compare(&args[0], &args[1]) {
        Some(order) => Some(made_truth(order.is_gt())),
        None => None,
    }
}

pub(crate) fn greater_equal(args: &[Lit]) -> Option<Applied>
    ensures { MeetsRow result (row_of rows.GreaterEqual (lits_of args.now)) }
{
    if args.len() != 2 {
        return None;
    }
    match compare(&args[0], &args[1]) {
        Some(order) => Some(made_truth(order.is_ge())),
        None => None,
    }
}

pub(crate) fn equals(args: &[Lit]) -> Option<Applied>
    ensures { MeetsRow result (row_of rows.Equals (lits_of args.now)) }
{
    if args.len() != 2 {
        return None;
    }
    match equal(&args[0], &args[1]) {
        Some(holds) => Some(made_truth(holds)),
        None => None,
    }
}
