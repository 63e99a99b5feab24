// Limits at their edges, and large sources.

use crate::calls::{NOTHING, REFUSED, Row, check, followed};
use mlc_base::memory::NoMemory;
use std::alloc::Global;
use std::process::Abort;
use std::test::Fail;

/// Carries out the row with this source.
fn check_sml(
    rt: &impl Abort,
    alloc: Global,
    sml: Result<String, NoMemory>,
    row: Row,
) -> Result<(), NoMemory> {
    let sml = sml?;
    let row = Row {
        sml: sml.as_str(),
        ..row
    };
    check(rt, alloc, &row)
}

/// Carries out the row with this ML Basis file.
fn check_mlb(
    rt: &impl Abort,
    alloc: Global,
    mlb: Result<String, NoMemory>,
    row: Row,
) -> Result<(), NoMemory> {
    let mlb = mlb?;
    let row = Row {
        mlb: mlb.as_str(),
        ..row
    };
    check(rt, alloc, &row)
}

const TOO_MANY_FILES: Row = Row {
    err: "p.mlb:4097.1: E24 more than 4096 files\n",
    ..REFUSED
};

#[test]
fn files_have_their_limit(rt: HostRuntime) -> Result<(), Fail> {
    for (count, row) in [(4095, NOTHING), (4096, TOO_MANY_FILES)] {
        let mlb = followed(rt.alloc(), "$(SML_LIB)/basis/basis.mlb\n", "e.sml\n", count);
        check_mlb(&rt, rt.alloc(), mlb, row)?;
    }
    Ok(())
}

const TOO_LARGE: Row = Row {
    err: "p.mlb:1.28: E15 files over size limit\n",
    ..REFUSED
};

#[test]
fn a_larger_source_is_refused(rt: HostRuntime) -> Result<(), Fail> {
    let large = followed(rt.alloc(), "", " ", 16_777_217);
    check_sml(&rt, rt.alloc(), large, TOO_LARGE)?;
    Ok(())
}

/// Declarations of the identifiers x0 to x followed by a number, each one more than the one
/// before, and a print.
fn declarations(alloc: Global, last: u32) -> Result<String, NoMemory> {
    let mut text = "val x0 = 1\n".to_string(alloc)?;
    let mut before = 0;
    for i in 1..last {
        let line = format!(in alloc; "val x{i} = x{before} + 1\n")?;
        text.push_str(line.as_str())?;
        before = i;
    }
    text.push_str("val () = print \"end\"")?;
    Ok(text)
}

#[test]
fn many_declarations_run(rt: HostRuntime) -> Result<(), Fail> {
    let row = Row {
        out: "end",
        ..NOTHING
    };
    check_sml(&rt, rt.alloc(), declarations(rt.alloc(), 20_000), row)?;
    Ok(())
}

/// A print of `a` with the empty string so many times behind it.
fn chain(alloc: Global, count: usize) -> Result<String, NoMemory> {
    let opened = followed(alloc, "val () = print (\"a\"", " ^ \"\"", count)?;
    followed(alloc, opened.as_str(), ")", 1)
}

#[test]
fn a_long_chain_runs(rt: HostRuntime) -> Result<(), Fail> {
    let row = Row {
        words: "exec p.mlb p.mlx 4194304 1048576 1000000000",
        out: "a",
        ..NOTHING
    };
    check_sml(&rt, rt.alloc(), chain(rt.alloc(), 50_000), row)?;
    Ok(())
}

/// A string that leaves room for some eleven hundred nodes beside those of the prelude, and a declaration so many times behind it.
fn behind_a_string(alloc: Global, declaration: &str, times: usize) -> Result<String, NoMemory> {
    let opened = followed(alloc, "val s = \"", "a", 1_046_576)?;
    let closed = followed(alloc, opened.as_str(), "\"\n", 1)?;
    followed(alloc, closed.as_str(), declaration, times)
}

const TOO_MANY_NODES: Row = Row {
    err: "p.mlb:1.1: E41 expansion over 1048576 nodes\n",
    ..REFUSED
};

#[test]
fn declarations_and_heads_of_functions_count(rt: HostRuntime) -> Result<(), Fail> {
    let declaration = "local type t = int in end\n";
    let recursive = "val rec f = fn _ => ()\n";
    let function = "fun f _ _ _ _ _ _ _ = ()\n";
    let inner = "val () = let fun f _ _ _ _ _ _ _ = () in ignore (f 1); ignore (f \"\") end\n";
    for (text, within, over) in [
        (declaration, 500, 1_000),
        (recursive, 100, 200),
        (function, 20, 40),
        (inner, 6, 10),
    ] {
        check_sml(
            &rt,
            rt.alloc(),
            behind_a_string(rt.alloc(), text, within),
            NOTHING,
        )?;
        check_sml(
            &rt,
            rt.alloc(),
            behind_a_string(rt.alloc(), text, over),
            TOO_MANY_NODES,
        )?;
    }
    Ok(())
}
