// Sources of which one phrase is large.

use crate::calls::{check, good};
use mlc_base::memory::NoMemory;
use std::alloc::Global;
use std::test::Fail;

/// A text, then for each number below `count` another one with the number in it, then an end.
fn numbered(
    alloc: Global,
    before: &str,
    (open, close): (&str, &str),
    count: u32,
    end: &str,
) -> Result<String, NoMemory> {
    let mut text = before.to_string(alloc)?;
    for i in 0..count {
        let part = format!(in alloc; "{open}{i}{close}")?;
        text.push_str(part.as_str())?;
    }
    text.push_str(end)?;
    Ok(text)
}

// What stands before, round each number and behind, how many numbers, and what is printed: functions of one group, rules, constructors, parameters, fields,
// bindings, exceptions.
const LARGE: [(&str, (&str, &str), u32, &str, &str); 7] = [
    (
        "fun f x = g0 x",
        ("\nand g", " x = if x = 0 then f 1 else x"),
        10_000,
        "\nval () = print (Int.toString (f 0 + g9999 5))",
        "6",
    ),
    (
        "fun f x = case x of ~1 => \"b\"",
        ("\n| ", " => \"a\""),
        5_000,
        "\n| _ => \"c\"\nval () = print (f ~1 ^ f 4999 ^ f 5000)",
        "bac",
    ),
    (
        "datatype t = A",
        ("\n| B", " of int"),
        5_000,
        "\nval n = case B4999 3 of B4998 n => 0 | B4999 n => n | _ => 1\nval () = print (Int.toString n)",
        "3",
    ),
    (
        "val f = ",
        ("fn x", " => "),
        390,
        "x0 + x389\nval () = print \"f\"",
        "f",
    ),
    (
        "val r = {a = 1",
        (", b", " = \"x\""),
        5_000,
        "}\nval () = print (#b4999 r)",
        "x",
    ),
    (
        "val x = 1",
        ("\nand y", " = 2"),
        10_000,
        "\nval () = print (Int.toString (x + y9999))",
        "3",
    ),
    (
        "exception A",
        ("\nand B", " of int"),
        10_000,
        "\nval () = print ((raise B9999 1) handle B0 _ => \"0\" | B9999 n => Int.toString n)",
        "1",
    ),
];

#[test]
fn large_phrases_run(rt: HostRuntime) -> Result<(), Fail> {
    for (before, around, count, end, out) in LARGE.iter() {
        let sml = numbered(rt.alloc(), before, *around, *count, end)?;
        check(&rt, rt.alloc(), &good(sml.as_str(), out))?;
    }
    Ok(())
}
