// Paths and projects, worked out by hand.

use crate::loading::{loaded, of_mlb};
use mlb_reader::path::{clean, path_from};
use mlc_base::memory::NoMemory;
use std::alloc::Global;
use std::process::Abort;
use std::test::Fail;

// A path, and the same one cleaned.
const PATHS: [(&str, &str); 9] = [
    ("./a/../b.sml", "b.sml"),
    ("../a", "../a"),
    ("/x/./y", "/x/y"),
    ("a/b/../../c", "c"),
    ("a/../../c", "../c"),
    ("a//b", "a//b"),
    ("/..", "/.."),
    ("a/..", ""),
    ("", ""),
];

#[test]
fn paths_are_cleaned(rt: HostRuntime) -> Result<(), Fail> {
    for (path, want) in PATHS.iter() {
        let cleaned = clean(rt.alloc(), path)?;
        assert_eq!(rt; cleaned.as_str(), *want, "of {path}");
    }
    Ok(())
}

#[test]
fn words_name_paths_from_their_folder(rt: HostRuntime) -> Result<(), Fail> {
    let inner = path_from(rt.alloc(), "dir/p.mlb", b"../a.sml")?;
    assert_eq!(rt; inner.as_str(), "a.sml");
    Ok(())
}

#[test]
fn rooted_words_name_themselves(rt: HostRuntime) -> Result<(), Fail> {
    let rooted = path_from(rt.alloc(), "dir/p.mlb", b"/b/./a.sml")?;
    assert_eq!(rt; rooted.as_str(), "/b/a.sml");
    Ok(())
}

// An ML Basis file, and what loading it gives.
const LOADED: [(&str, &str); 10] = [
    ("", ""),
    (" \t\r\n", ""),
    (
        "one.sml\n$(SML_LIB)/basis/basis.mlb\n./two.sig",
        "1 basis 2 ",
    ),
    (
        "one.sml one.sml $(SML_LIB)/basis/basis.mlb $(SML_LIB)/basis/basis.mlb",
        "1 1 basis basis ",
    ),
    ("none.fun x/../dir/in.ML", "0 1 "),
    ("plusplus.sml infix.sml", "1 0 "),
    ("plus.sml $(SML_LIB)/basis/basis.mlb", "1 basis "),
    ("top.sml one.sml", "3 1 "),
    ("one.sml cut.sml one.sml", "1 2-2.16 1 "),
    ("inner.sml plusplus.sml", "0-1.0 1 "),
];

// An ML Basis file, and how it is refused.
const BROKEN: [(&str, &str); 12] = [
    (
        "local one.sml in two.sig end",
        "p.mlb:1.1: E20 mlb syntax error",
    ),
    ("one.sml\n(* two *)", "p.mlb:1.1: E20 mlb syntax error"),
    ("one.sml;", "p.mlb:1.1: E20 mlb syntax error"),
    (
        "one.sml\n $(HOME)/one.sml none.sml",
        "p.mlb:2.2: E22 unknown path variable",
    ),
    ("one.sml other.mlb", "p.mlb:1.9: E23 unknown extension"),
    ("one.sml ./missing.sml $(HOME)", "no file missing.sml"),
    (
        "infix.sml plusplus.sml",
        "plusplus.sml:1.5: E11 syntax error",
    ),
    (
        "$(SML_LIB)/basis/basis.mlb plus.sml",
        "plus.sml:1.5: E11 syntax error",
    ),
    (
        "outer.sml plusplus.sml",
        "plusplus.sml:1.5: E11 syntax error",
    ),
    ("one.sml token.sml tree.sml", "token.sml:2.4: E10 no token"),
    ("cut.sml token.sml", "token.sml:2.4: E10 no token"),
    (
        "one.sml tree.sml token.sml",
        "tree.sml:1.5: E11 syntax error",
    ),
];

fn check(rt: &impl Abort, alloc: Global, rows: &[(&str, &str)]) -> Result<(), NoMemory> {
    for (mlb, want) in rows {
        let text = of_mlb(alloc, mlb)?;
        assert_eq!(rt; text.as_str(), *want, "of {mlb}");
    }
    Ok(())
}

#[test]
fn projects_are_loaded(rt: HostRuntime) -> Result<(), Fail> {
    check(&rt, rt.alloc(), &LOADED)?;
    Ok(())
}

#[test]
fn broken_projects_are_refused(rt: HostRuntime) -> Result<(), Fail> {
    check(&rt, rt.alloc(), &BROKEN)?;
    Ok(())
}

#[test]
fn a_missing_file_is_told(rt: HostRuntime) -> Result<(), Fail> {
    let bytes = Vec::new(rt.alloc());
    let told = loaded(rt.alloc(), "p.mlb", bytes, 0, "x/../q.mlb")?;
    assert_eq!(rt; told.as_str(), "no file q.mlb");
    Ok(())
}

#[test]
fn a_file_that_fails_is_told(rt: HostRuntime) -> Result<(), Fail> {
    let bytes = b"../one.sml in.ML".to_vec(rt.alloc())?;
    let told = loaded(rt.alloc(), "dir/p.mlb", bytes, 3, "./dir/p.mlb")?;
    assert_eq!(rt; told.as_str(), "read fault dir/in.ML");
    Ok(())
}

/// What a project gives that names an empty source so often.
fn so_often(alloc: Global, count: usize) -> Result<String, NoMemory> {
    let mlb = "none.fun ".repeat(alloc, count)?;
    of_mlb(alloc, mlb.as_str())
}

#[test]
fn so_many_files_are_read(rt: HostRuntime) -> Result<(), Fail> {
    let most = so_often(rt.alloc(), 4095)?;
    assert_eq!(rt; most.len(), 8190);
    Ok(())
}

#[test]
fn more_files_are_refused(rt: HostRuntime) -> Result<(), Fail> {
    let more = so_often(rt.alloc(), 4096)?;
    assert_eq!(rt; more.as_str(), "p.mlb:1.36856: E24 more than 4096 files");
    Ok(())
}

/// What the ML Basis file at a path gives where this file is one byte over the limit.
fn with_large(alloc: Global, file: &str, byte: u8, path: &str) -> Result<String, NoMemory> {
    let bytes = vec![in alloc; byte; 16_777_217]?;
    loaded(alloc, file, bytes, 0, path)
}

#[test]
fn a_large_mlb_file_is_refused(rt: HostRuntime) -> Result<(), Fail> {
    let mlb = with_large(rt.alloc(), "p.mlb", b'*', "p.mlb")?;
    assert_eq!(rt; mlb.as_str(), "p.mlb:1.1: E15 files over size limit");
    Ok(())
}

#[test]
fn a_large_source_is_refused(rt: HostRuntime) -> Result<(), Fail> {
    let source = with_large(rt.alloc(), "large.sml", b' ', "large.mlb")?;
    assert_eq!(rt; source.as_str(), "large.mlb:1.9: E15 files over size limit");
    Ok(())
}
