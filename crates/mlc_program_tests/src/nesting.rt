// Each kind of nesting, as deep as it is accepted: the compiler has stack for it.

use crate::calls::{NOTHING, REFUSED, Row, check, followed};
use mlc_base::memory::NoMemory;
use std::alloc::Global;
use std::test::Fail;

// What stands before, what opens, what stands inside, what closes and what stands behind, and how often it is opened at most.
const KINDS: [(&str, &str, &str, &str, &str, usize); 36] = [
    ("val x = ", "(", "1", ")", "", 399),
    ("val x = ", "let val y = 1 in ", "1", " end", "", 399),
    ("val x = ", "let val y = ", "1", " in y end", "", 399),
    ("val x = ", "let fun f y = y in ", "1", " end", "", 399),
    ("val x = ", "if true then ", "1", " else 2", "", 399),
    ("val x = ", "if true then 1 else ", "2", "", "", 399),
    ("val x = ", "if ", "true", " then true else false", "", 399),
    ("val x = ", "case 1 of y => ", "1", "", "", 399),
    ("val x = ", "(case 1 of 2 => 3 | y => ", "1", ")", "", 199),
    ("val x = ", "fn y => ", "1", "", "", 399),
    ("val x = ", "(", "1", " handle Div => 2)", "", 199),
    ("val x = ", "1 handle Div => ", "2", "", "", 399),
    ("val x = fn () => ", "raise (", "Div", ")", "", 199),
    ("val x = ", "(1, ", "1", ")", "", 399),
    ("val x = ", "[", "1", "]", "", 399),
    ("val x = ", "{a = ", "1", "}", "", 399),
    ("fun f x = x val x = ", "f (", "1", ")", "", 199),
    ("val x = ", "((); ", "1", ")", "", 399),
    ("val x = ", "while false do ", "()", "", "", 399),
    ("val x = ", "(1 + ", "1", ")", "", 199),
    ("val x = ", "(1 :: ", "nil", ")", "", 199),
    ("val x = ", "(true andalso ", "true", ")", "", 199),
    ("val x = ", "(", "1", " : int)", "", 199),
    ("", "local val y = 1 in ", "val x = 1", " end", "", 399),
    ("val ", "(", "x", ")", " = 1", 399),
    ("fun f ", "(1, ", "x", ")", " = 1 | f _ = 2", 399),
    ("fun f ", "(SOME ", "x", ")", " = 1 | f _ = 2", 199),
    ("fun f ", "[", "x", "]", " = 1 | f _ = 2", 399),
    ("fun f ", "(ref ", "x", ")", " = 1", 199),
    ("fun f ", "{a = ", "x", "}", " = 1", 399),
    ("val x : ", "(", "int", ")", " = 1", 398),
    ("type t = ", "(int * ", "int", ")", "", 199),
    ("type t = ", "int -> ", "int", "", "", 399),
    ("type t = ", "(", "int", " -> int)", "", 199),
    ("type t = ", "", "int", " list", "", 399),
    ("type t = ", "{a : ", "int", "}", "", 399),
];

/// A source that is nested so deep.
fn nested(
    alloc: Global,
    (before, open, inside, close, behind): (&str, &str, &str, &str, &str),
    times: usize,
) -> Result<String, NoMemory> {
    let mut opened = followed(alloc, before, open, times)?;
    opened.push_str(inside)?;
    let mut closed = followed(alloc, opened.as_str(), close, times)?;
    closed.push_str(behind)?;
    Ok(closed)
}

#[test]
fn the_deepest_sources_run(rt: HostRuntime) -> Result<(), Fail> {
    for (before, open, inside, close, behind, times) in KINDS.iter() {
        let kind = (*before, *open, *inside, *close, *behind);
        let sml = nested(rt.alloc(), kind, *times)?;
        let row = Row {
            sml: sml.as_str(),
            ..NOTHING
        };
        check(&rt, rt.alloc(), &row)?;
    }
    Ok(())
}

#[test]
fn deeper_brackets_are_refused(rt: HostRuntime) -> Result<(), Fail> {
    let sml = nested(rt.alloc(), ("val x = ", "(", "1", ")", ""), 400)?;
    let row = Row {
        sml: sml.as_str(),
        err: "p.sml:1.409: E14 nested deeper than 400\n",
        ..REFUSED
    };
    check(&rt, rt.alloc(), &row)?;
    Ok(())
}
