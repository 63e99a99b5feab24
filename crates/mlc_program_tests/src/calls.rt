// Calls of `mlc_main` over a store and sinks in memory.

use mlc_base::memory::NoMemory;
use mlc_outside::mem_sink::MemSink;
use mlc_outside::mem_store::MemStore;
use mlc_program::program::mlc_main;
use std::alloc::Global;
use std::collections::BTreeMap;
use std::process::Abort;

/// A call and what it has to give.
#[derive(Clone, Copy)]
pub struct Row<'a> {
    pub words: &'a str,
    pub mlb: &'a str,
    pub sml: &'a str,
    pub store_fails: u64,
    pub out_fails: u64,
    pub status: u8,
    pub out: &'a str,
    pub err: &'a str,
    /// The first four bytes of `p.mlx` afterwards.
    pub image: &'a str,
}

/// A call that compiles no source and runs to its end.
pub const NOTHING: Row = Row {
    words: "exec p.mlb p.mlx 4194304 65536 1000000000",
    mlb: "$(SML_LIB)/basis/basis.mlb p.sml",
    sml: "",
    store_fails: 0,
    out_fails: 0,
    status: 0,
    out: "",
    err: "",
    image: "MLX1",
};

/// A call that is refused.
pub const REFUSED: Row = Row {
    status: 2,
    image: "old",
    ..NOTHING
};

/// The row of a source that runs to its end.
pub fn good<'a>(sml: &'a str, out: &'a str) -> Row<'a> {
    Row {
        sml,
        out,
        ..NOTHING
    }
}

/// The row of a source that is refused.
pub fn bad_sml<'a>(sml: &'a str, err: &'a str) -> Row<'a> {
    Row {
        sml,
        err,
        ..REFUSED
    }
}

/// The row of an ML Basis file that is refused, beside a source that isn't.
pub fn bad_mlb<'a>(mlb: &'a str, err: &'a str) -> Row<'a> {
    Row {
        mlb,
        err,
        sml: "val () = print \"a\"",
        ..REFUSED
    }
}

/// The words of a text, between spaces.
fn words_of(alloc: Global, text: &str) -> Result<Vec<String>, NoMemory> {
    let mut words = Vec::new(alloc);
    for word in text.split_whitespace() {
        words.push(word.to_string(alloc)?)?;
    }
    Ok(words)
}

// The files that every store has beside the row's two: an old image, projects in folders, and sources.
const FILES: [(&str, &str); 13] = [
    ("p.mlx", "old"),
    ("dir/q.mlb", "\n$(SML_LIB)/basis/basis.mlb\tsrc/q.sml\n"),
    ("dir/src/q.sml", "val () = print \"q\""),
    ("dir/r.mlb", "$(SML_LIB)/basis/basis.mlb /abs/r.sml"),
    ("/abs/r.sml", "val () = print \"r\""),
    ("empty.mlb", "$(SML_LIB)/basis/basis.mlb e.sml"),
    ("e.sml", ""),
    ("c.sml", "val () = print \"c\""),
    (
        "two.mlb",
        "$(SML_LIB)/basis/basis.mlb\ntwo_words.sml\ntwo_main.sml\n",
    ),
    (
        "two_words.sml",
        "val greeting = \"hello\"\nval name = \"world\"\n",
    ),
    (
        "two_main.sml",
        "val () = print (greeting ^ \", \" ^ name ^ \"\\n\")\n",
    ),
    ("token.sml", "val x = 1."),
    ("module.sml", "val x = 1\nstructure A = B"),
];

/// Puts a file.
fn put(
    alloc: Global,
    files: &mut BTreeMap<String, Vec<u8>>,
    path: &str,
    text: &str,
) -> Result<(), NoMemory> {
    let path = path.to_string(alloc)?;
    let _ = files.insert(path, text.as_bytes().to_vec(alloc)?)?;
    Ok(())
}

/// The files of all stores and the row's two; there is no empty source.
fn files_of(alloc: Global, row: &Row) -> Result<BTreeMap<String, Vec<u8>>, NoMemory> {
    let mut files = BTreeMap::new(alloc);
    for (path, text) in FILES.iter() {
        put(alloc, &mut files, path, text)?;
    }
    for (path, text) in [("p.mlb", row.mlb), ("p.sml", row.sml)] {
        if path != "p.sml" || !text.is_empty() {
            put(alloc, &mut files, path, text)?;
        }
    }
    Ok(files)
}

/// A store with these files, of which the row's call fails.
fn store_of(alloc: Global, row: &Row) -> Result<MemStore, NoMemory> {
    let fails = [row.store_fails].to_vec(alloc)?;
    MemStore::new(alloc, files_of(alloc, row)?, fails)
}

/// A sink of which the call with this number fails, counted from 1.
fn sink(alloc: Global, fails: u64) -> Result<MemSink, NoMemory> {
    let fails = [fails].to_vec(alloc)?;
    MemSink::new(alloc, 1024, fails)
}

/// As much of a text as a message shows.
fn front(text: &str) -> &str {
    match text.get(..80) {
        Some(front) => front,
        None => text,
    }
}

/// What a call gave: its status, and whether the rest is as the row says.
#[derive(Clone, Copy)]
struct Outcome {
    status: u8,
    is_out: bool,
    is_err: bool,
    is_image: bool,
}

/// Whether the file `p.mlx` begins with the text.
fn has_image(store: &MemStore, text: &str) -> bool {
    match store.file("p.mlx") {
        Some(image) => image.starts_with(text.as_bytes()),
        None => false,
    }
}

/// The status of a row's call.
fn call(
    alloc: Global,
    row: &Row,
    store: &mut MemStore,
    out: &mut MemSink,
    err: &mut MemSink,
) -> Result<u8, NoMemory> {
    let words = words_of(alloc, row.words)?;
    Ok(mlc_main(alloc, &words, store, out, err))
}

/// What a row's call gives over this store.
fn given_by(alloc: Global, row: &Row, store: &mut MemStore) -> Result<Outcome, NoMemory> {
    let mut out = sink(alloc, row.out_fails)?;
    let mut err = sink(alloc, 0)?;
    let status = call(alloc, row, store, &mut out, &mut err)?;
    Ok(Outcome {
        status,
        is_out: out.bytes() == row.out.as_bytes(),
        is_err: err.bytes() == row.err.as_bytes(),
        is_image: has_image(store, row.image),
    })
}

/// What a row's call gives.
fn given(alloc: Global, row: &Row) -> Result<Outcome, NoMemory> {
    let mut store = store_of(alloc, row)?;
    given_by(alloc, row, &mut store)
}

/// This is as the row says.
fn holds(rt: &impl Abort, row: &Row, what: &str, is_so: bool) {
    assert!(rt; is_so, "{what} of {} {}", row.words, front(row.sml));
}

/// Carries a row out and compares; the usage text is not compared.
pub fn check(rt: &impl Abort, alloc: Global, row: &Row) -> Result<(), NoMemory> {
    let given = given(alloc, row)?;
    assert_eq!(rt;
        given.status,
        row.status,
        "of {} {}",
        row.words,
        front(row.sml)
    );
    holds(rt, row, "output", given.is_out);
    holds(rt, row, "line", given.is_err || row.status == 64);
    holds(rt, row, "image", given.is_image);
    Ok(())
}

/// Carries rows out and compares.
pub fn check_all(rt: &impl Abort, alloc: Global, rows: &[Row]) -> Result<(), NoMemory> {
    for row in rows {
        check(rt, alloc, row)?;
    }
    Ok(())
}

/// A text, and another one so many times behind it.
pub fn followed(alloc: Global, text: &str, again: &str, times: usize) -> Result<String, NoMemory> {
    let mut all = text.to_string(alloc)?;
    let more = again.repeat(alloc, times)?;
    all.push_str(more.as_str())?;
    Ok(all)
}
