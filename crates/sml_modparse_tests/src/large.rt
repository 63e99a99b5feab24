// Long texts and deep ones.

ghost use Rattle.std.specs.Prelude.{◌<◌, ◌^◌, ◌+◌, length};

use crate::reading::shown;
use mlc_base::memory::NoMemory;
use std::alloc::Global;
use std::test::Fail;

fn push_many(text: &mut Vec<u8>, bytes: &[u8], count: u32) -> Result<(), NoMemory> {
    for _ in 0..count {
        text.extend_from_slice(bytes)?;
    }
    Ok(())
}

// `front`, this many of `open` and of `close`, and `back`.
fn text_of(
    alloc: Global,
    front: &[u8],
    open: &[u8],
    close: &[u8],
    count: u32,
) -> Result<Vec<u8>, NoMemory> {
    let mut text = Vec::new(alloc);
    text.extend_from_slice(front)?;
    push_many(&mut text, open, count)?;
    push_many(&mut text, close, count)?;
    Ok(text)
}

// Whether a text has so many tops, each of a structure.
fn all_structures(alloc: Global, text: &[u8], count: usize) -> Result<bool, NoMemory> {
    if text.len() > 100_000_000 {
        return Ok(false);
    }
    let got = shown(alloc, text)?;
    Ok(got.len() == count && got.as_bytes().iter().all(|b| *b == b's'))
}

// What a text is read as, where it is short enough for a file.
fn answer(alloc: Global, text: &[u8]) -> Result<String, NoMemory> {
    if text.len() > 100_000_000 {
        return Err(NoMemory);
    }
    shown(alloc, text)
}

#[test]
fn structures_100000_in_a_row(rt: HostRuntime) -> Result<(), Fail> {
    let text = text_of(rt.alloc(), b"", b"structure A = struct end ", b"", 100_000)?;
    let all = all_structures(rt.alloc(), &text, 100_000)?;
    assert!(rt; all);
    Ok(())
}

#[test]
fn specifications_100000_in_a_row(rt: HostRuntime) -> Result<(), Fail> {
    let mut text = text_of(
        rt.alloc(),
        b"signature S = sig ",
        b"val x : int ",
        b"",
        100_000,
    )?;
    text.extend_from_slice(b"end")?;
    let got = answer(rt.alloc(), &text)?;
    assert!(rt; got.as_str() == "g", "{got}");
    Ok(())
}

#[test]
fn structures_are_at_most_400_deep(rt: HostRuntime) -> Result<(), Fail> {
    for (times, want) in [(399, "s"), (400, "s"), (401, "E14 at 8414")] {
        let text = text_of(rt.alloc(), b"", b"structure A = struct ", b"end ", times)?;
        let got = answer(rt.alloc(), &text)?;
        assert!(rt; got.as_str() == want, "{times}: {got}");
    }
    Ok(())
}

#[test]
fn locals_are_at_most_400_deep(rt: HostRuntime) -> Result<(), Fail> {
    for (times, want) in [(399, "l"), (400, "E14 at 2414")] {
        let mut text = text_of(rt.alloc(), b"", b"local ", b"", times)?;
        text.extend_from_slice(b"structure A = B ")?;
        push_many(&mut text, b"in end ", times)?;
        let got = answer(rt.alloc(), &text)?;
        assert!(rt; got.as_str() == want, "{times}: {got}");
    }
    Ok(())
}
