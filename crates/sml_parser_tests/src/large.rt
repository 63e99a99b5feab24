// Long texts and deep ones: that they are read, and (measured by hand) that the time is linear.

ghost use Rattle.std.specs.Prelude.{◌<◌, ◌^◌, ◌+◌, length};

use crate::reading::shown;
use mlc_base::memory::NoMemory;
use std::alloc::Global;
use std::test::Fail;

fn push_number(alloc: Global, text: &mut Vec<u8>, number: u32) -> Result<(), NoMemory> {
    text.extend_from_slice(format!(in alloc; "{number} ")?.as_bytes())?;
    Ok(())
}

// `front`, a number and `back`, for each number below `count`.
fn push_numbered(
    alloc: Global,
    text: &mut Vec<u8>,
    front: &[u8],
    back: &[u8],
    count: u32,
) -> Result<(), NoMemory> {
    for number in 0..count {
        text.extend_from_slice(front)?;
        push_number(alloc, text, number)?;
        text.extend_from_slice(back)?;
    }
    Ok(())
}

fn push_many(text: &mut Vec<u8>, bytes: &[u8], count: u32) -> Result<(), NoMemory> {
    for _ in 0..count {
        text.extend_from_slice(bytes)?;
    }
    Ok(())
}

// What a text is read as, where it is short enough for a file.
fn answer(alloc: Global, text: &[u8]) -> Result<String, NoMemory> {
    if text.len() > 100_000_000 {
        return Err(NoMemory);
    }
    shown(alloc, text)
}

// A constructor of `int u u .. u` where `'a u` is `'a * 'a`.
fn nested(alloc: Global, times: u32) -> Result<Vec<u8>, NoMemory> {
    let mut text = Vec::new(alloc);
    text.extend_from_slice(b"datatype t = C of int")?;
    push_many(&mut text, b" u", times)?;
    text.extend_from_slice(b" withtype 'a u = 'a * 'a")?;
    Ok(text)
}

#[test]
fn abbreviations_are_not_written_out(rt: HostRuntime) -> Result<(), Fail> {
    for (times, want) in [(20, "1"), (200, "1"), (399, "1"), (400, "E14 at 820")] {
        let text = nested(rt.alloc(), times)?;
        let got = answer(rt.alloc(), &text)?;
        assert!(rt; got.as_str() == want, "{times}: {got}");
    }
    Ok(())
}

// A datatype with this many abbreviations.
fn abbreviations(alloc: Global, count: u32) -> Result<Vec<u8>, NoMemory> {
    let mut text = Vec::new(alloc);
    text.extend_from_slice(b"datatype t = C withtype u = int")?;
    push_numbered(alloc, &mut text, b" and a", b"= int", count)?;
    Ok(text)
}

#[test]
fn abbreviations_100000_in_one_declaration(rt: HostRuntime) -> Result<(), Fail> {
    let text = abbreviations(rt.alloc(), 100_000)?;
    let got = answer(rt.alloc(), &text)?;
    assert!(rt; got.as_str() == "1", "{got}");
    Ok(())
}

// This many directives, and a chain with each identifier that they make infix.
fn directives(alloc: Global, count: u32) -> Result<Vec<u8>, NoMemory> {
    let mut text = Vec::new(alloc);
    push_numbered(alloc, &mut text, b"infix a", b"", count)?;
    text.extend_from_slice(b"val x = y ")?;
    push_numbered(alloc, &mut text, b"a", b"y ", count)?;
    Ok(text)
}

#[test]
fn directives_160000_and_as_many_uses(rt: HostRuntime) -> Result<(), Fail> {
    let text = directives(rt.alloc(), 160_000)?;
    let got = answer(rt.alloc(), &text)?;
    assert!(rt; got.as_str() == "1", "{got}");
    Ok(())
}

// Scopes with a directive in each, of a `local` or a `let`.
fn scopes(
    alloc: Global,
    before: &[u8],
    front: &[u8],
    inside: &[u8],
    after: &[u8],
    count: u32,
) -> Result<Vec<u8>, NoMemory> {
    let mut text = Vec::new(alloc);
    text.extend_from_slice(before)?;
    push_numbered(alloc, &mut text, front, b"in ", count)?;
    text.extend_from_slice(inside)?;
    push_many(&mut text, b" end", count)?;
    text.extend_from_slice(after)?;
    Ok(text)
}

// What a text is read as that has `inside` in this many scopes of `local`, and `after` after them.
fn in_locals(alloc: Global, count: u32, inside: &str, after: &str) -> Result<String, NoMemory> {
    let text = scopes(
        alloc,
        b"",
        b"local infix a",
        inside.as_bytes(),
        after.as_bytes(),
        count,
    )?;
    answer(alloc, &text)
}

#[test]
fn local_scopes_399_deep(rt: HostRuntime) -> Result<(), Fail> {
    let rows = [
        (398, "val x = y a0 y a397 y", " val w = a0", "2"),
        (399, "val x = 1 infix b", " val x = y b y", "2"),
        (399, "val x = 1", " val x = y a0 y", "2"),
        (399, "val x = a398", "", "E11 at 7878"),
        (399, "val x = y z", "", "E14 at 7880"),
    ];
    let mut read = 0;
    for (count, inside, after, want) in rows {
        let got = in_locals(rt.alloc(), count, inside, after)?;
        assert!(rt; got.as_str() == want, "{inside}: {got}");
        assert!(rt; read < 1000);
        read += 1;
    }
    assert_eq!(rt; read, 5);
    Ok(())
}

// The same in scopes of `let`.
fn in_lets(alloc: Global, count: u32, inside: &str, after: &str) -> Result<String, NoMemory> {
    let text = scopes(
        alloc,
        b"val x = ",
        b"let infix a",
        inside.as_bytes(),
        after.as_bytes(),
        count,
    )?;
    answer(alloc, &text)
}

#[test]
fn let_scopes_399_deep(rt: HostRuntime) -> Result<(), Fail> {
    let rows = [
        (397, "y a0 y a396 y", " a0", "1"),
        (399, "1", "", "1"),
        (399, "a398", "", "E11 at 7080"),
    ];
    let mut read = 0;
    for (count, inside, after, want) in rows {
        let got = in_lets(rt.alloc(), count, inside, after)?;
        assert!(rt; got.as_str() == want, "{inside}: {got}");
        assert!(rt; read < 1000);
        read += 1;
    }
    assert_eq!(rt; read, 3);
    Ok(())
}
