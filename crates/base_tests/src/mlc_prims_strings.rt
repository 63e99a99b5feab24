// Rows of characters and strings.

ghost use Rattle.std.specs.Prelude.{◌≤◌, length};

use crate::mlc_prims_expected::{Expected, gives, gives_string};
use mlc_base::memory::NoMemory;
use mlc_prims::applied::Applied;
use mlc_prims::apply::{apply_prim, try_prim};
use mlc_prims::basis::BasisPrimitive;
use mlc_prims::lit::Lit;
use mlc_prims::prim::PrimExn;
use std::alloc::Global;
use std::test::Fail;

fn of_int(alloc: Global, value: i32) -> Option<Applied> {
    try_prim(alloc, BasisPrimitive::TextOf, &[Lit::Int(value)])
}

#[test]
fn texts_of_integers(rt: HostRuntime) {
    let alloc = rt.alloc();
    assert!(rt; gives_string(&of_int(alloc, 0), Some(b"0".as_slice())));
    assert!(rt; gives_string(&of_int(alloc, -1), Some(b"~1".as_slice())));
    assert!(rt; gives_string(&of_int(alloc, i32::MAX), Some(b"2147483647".as_slice())));
    assert!(rt; gives_string(&of_int(alloc, i32::MIN), Some(b"~2147483648".as_slice())));
}

fn of_char(alloc: Global, prim: BasisPrimitive, value: u8) -> Option<Applied> {
    try_prim(alloc, prim, &[Lit::Char(value)])
}

#[test]
fn one_character(rt: HostRuntime) {
    let alloc = rt.alloc();
    assert!(rt;
        gives(
            &of_char(alloc, BasisPrimitive::CharCode, 0),
            Expected::Int(0)
        )
    );
    assert!(rt;
        gives(
            &of_char(alloc, BasisPrimitive::CharCode, 255),
            Expected::Int(255)
        )
    );
    assert!(rt;
        gives_string(
            &of_char(alloc, BasisPrimitive::StringOf, 0),
            Some(b"\x00".as_slice())
        )
    );
    assert!(rt;
        gives_string(
            &of_char(alloc, BasisPrimitive::StringOf, b'z'),
            Some(b"z".as_slice())
        )
    );
}

fn of_chars(alloc: Global, prim: BasisPrimitive, left: u8, right: u8) -> Option<Applied> {
    try_prim(alloc, prim, &[Lit::Char(left), Lit::Char(right)])
}

#[test]
fn characters_compare_by_code(rt: HostRuntime) {
    let alloc = rt.alloc();
    assert!(rt;
        gives(
            &of_chars(alloc, BasisPrimitive::Less, b'Z', b'a'),
            Expected::Truth(true)
        )
    );
    assert!(rt;
        gives(
            &of_chars(alloc, BasisPrimitive::Less, b'a', b'a'),
            Expected::Truth(false)
        )
    );
    assert!(rt;
        gives(
            &of_chars(alloc, BasisPrimitive::GreaterEqual, 255, 127),
            Expected::Truth(true)
        )
    );
    assert!(rt;
        gives(
            &of_chars(alloc, BasisPrimitive::Equals, 255, 255),
            Expected::Truth(true)
        )
    );
}

/// The length of a string, or what a place in it gives, or a part.
fn of_string(alloc: Global, prim: BasisPrimitive, text: &[u8]) -> Result<Option<Applied>, NoMemory>
    requires { length text.now ≤ 268435455 }
{
    Ok(try_prim(alloc, prim, &[Lit::Str(Vec::from_slice(alloc, text)?)]))
}

fn at(alloc: Global, text: &[u8], place: i32) -> Result<Option<Applied>, NoMemory>
    requires { length text.now ≤ 268435455 }
{
    let text = Lit::Str(Vec::from_slice(alloc, text)?);
    Ok(try_prim(alloc, BasisPrimitive::CharAt, &[text, Lit::Int(place)]))
}

fn part(alloc: Global, text: &[u8], place: i32, count: i32) -> Result<Option<Applied>, NoMemory>
    requires { length text.now ≤ 268435455 }
{
    let text = Lit::Str(Vec::from_slice(alloc, text)?);
    Ok(try_prim(
        alloc,
        BasisPrimitive::PartOf,
        &[text, Lit::Int(place), Lit::Int(count)],
    ))
}

#[test]
fn sizes(rt: HostRuntime) -> Result<(), Fail> {
    let alloc = rt.alloc();
    assert!(rt;
        gives(
            &of_string(alloc, BasisPrimitive::SizeOf, b"")?,
            Expected::Int(0)
        )
    );
    assert!(rt;
        gives(
            &of_string(alloc, BasisPrimitive::SizeOf, b"abc")?,
            Expected::Int(3)
        )
    );
    Ok(())
}

const OUTSIDE: Expected = Expected::Raises(PrimExn::Subscript);

#[test]
fn places_in_a_string(rt: HostRuntime) -> Result<(), Fail> {
    for (place, expected) in [
        (0, Expected::Char(b'a')),
        (2, Expected::Char(b'c')),
        (3, OUTSIDE),
        (-1, OUTSIDE),
        (i32::MIN, OUTSIDE),
        (i32::MAX, OUTSIDE),
    ] {
        assert!(rt; gives(&at(rt.alloc(), b"abc", place)?, expected), "{place}");
    }
    assert!(rt; gives(&at(rt.alloc(), b"", 0)?, OUTSIDE));
    Ok(())
}

#[test]
fn parts_of_a_string(rt: HostRuntime) -> Result<(), Fail> {
    for (place, count, expected) in [
        (0, 3, Some(b"abc".as_slice())),
        (1, 1, Some(b"b".as_slice())),
        (3, 0, Some(b"".as_slice())),
        (0, 0, Some(b"".as_slice())),
        (4, 0, None),
        (3, 1, None),
        (0, 4, None),
        (-1, 1, None),
        (1, -1, None),
        (i32::MAX, i32::MAX, None),
        (i32::MIN, i32::MIN, None),
    ] {
        assert!(rt;
            gives_string(&part(rt.alloc(), b"abc", place, count)?, expected),
            "{place} {count}"
        );
    }
    Ok(())
}

fn of_strings(
    alloc: Global,
    prim: BasisPrimitive,
    left: &[u8],
    right: &[u8],
) -> Result<Option<Applied>, NoMemory>
    requires left { length left.now ≤ 268435455 }
    requires right { length right.now ≤ 268435455 }
{
    let left = Lit::Str(Vec::from_slice(alloc, left)?);
    let right = Lit::Str(Vec::from_slice(alloc, right)?);
    Ok(try_prim(alloc, prim, &[left, right]))
}

#[test]
fn strings_compare_by_bytes(rt: HostRuntime) -> Result<(), Fail> {
    for (prim, left, right, holds) in [
        (BasisPrimitive::Less, b"".as_slice(), b"a".as_slice(), true),
        (
            BasisPrimitive::Less,
            b"ab".as_slice(),
            b"abc".as_slice(),
            true,
        ),
        (
            BasisPrimitive::Less,
            b"b".as_slice(),
            b"abc".as_slice(),
            false,
        ),
        (
            BasisPrimitive::LessEqual,
            b"\xff".as_slice(),
            b"\x7f".as_slice(),
            false,
        ),
        (
            BasisPrimitive::Greater,
            b"".as_slice(),
            b"".as_slice(),
            false,
        ),
        (
            BasisPrimitive::GreaterEqual,
            b"ab".as_slice(),
            b"ab".as_slice(),
            true,
        ),
        (
            BasisPrimitive::Equals,
            b"ab".as_slice(),
            b"ab".as_slice(),
            true,
        ),
        (
            BasisPrimitive::Equals,
            b"ab".as_slice(),
            b"abc".as_slice(),
            false,
        ),
    ] {
        assert!(rt;
            gives(
                &of_strings(rt.alloc(), prim, left, right)?,
                Expected::Truth(holds)
            ),
            "{prim:?} {left:?} {right:?}"
        );
    }
    Ok(())
}

#[test]
fn strings_are_joined_in_order(rt: HostRuntime) -> Result<(), Fail> {
    let alloc = rt.alloc();
    assert!(rt;
        gives_string(
            &of_strings(alloc, BasisPrimitive::Concat, b"ab", b"c")?,
            Some(b"abc".as_slice())
        )
    );
    assert!(rt;
        gives_string(
            &of_strings(alloc, BasisPrimitive::Concat, b"", b"")?,
            Some(b"".as_slice())
        )
    );
    Ok(())
}

/// Two strings of so many bytes, one behind the other.
fn of_sizes(alloc: Global, left: usize, right: usize) -> Result<Applied, NoMemory>
    requires left { left ≤ 134217728 }
    requires right { right ≤ 134217728 }
{
    let left = Lit::Str(vec![in alloc; 0u8; left]?);
    let right = Lit::Str(vec![in alloc; 0u8; right]?);
    Ok(apply_prim(alloc, BasisPrimitive::Concat, &[left, right]))
}

fn size(applied: &Applied) -> Option<usize> {
    match applied {
        Applied::Made(Lit::Str(text)) => Some(text.len()),
        _ => None,
    }
}

#[test]
fn the_longest_string_is_made(rt: HostRuntime) -> Result<(), Fail> {
    let longest = of_sizes(rt.alloc(), 134_217_728, 134_217_727)?;
    assert_eq!(rt; size(&longest), Some(268_435_455));
    Ok(())
}

#[test]
fn a_longer_one_raises_size(rt: HostRuntime) -> Result<(), Fail> {
    let longer = of_sizes(rt.alloc(), 134_217_728, 134_217_728)?;
    assert!(rt; matches!(&longer, Applied::Raises(PrimExn::Size)));
    Ok(())
}

#[test]
fn numbers_are_those_of_the_table(rt: HostRuntime) {
    assert_eq!(rt; BasisPrimitive::Add.number(), 0);
    assert_eq!(rt; BasisPrimitive::Equals.number(), 11);
    assert_eq!(rt; BasisPrimitive::Print.number(), 33);
}

fn of_truths(alloc: Global, prim: BasisPrimitive, left: bool, right: bool) -> Option<Applied> {
    try_prim(alloc, prim, &[Lit::Truth(left), Lit::Truth(right)])
}

#[test]
fn truth_values_are_equal_or_not(rt: HostRuntime) {
    let alloc = rt.alloc();
    assert!(rt;
        gives(
            &of_truths(alloc, BasisPrimitive::Equals, true, true),
            Expected::Truth(true)
        )
    );
    assert!(rt;
        gives(
            &of_truths(alloc, BasisPrimitive::Equals, true, false),
            Expected::Truth(false)
        )
    );
    assert!(rt; of_truths(alloc, BasisPrimitive::Less, false, true).is_none());
    assert!(rt; of_truths(alloc, BasisPrimitive::Print, false, true).is_none());
}
