// Worked examples, and each call that takes memory once with enough of it.

use mlc_base::memory::NoMemory;
use mlc_outside::mem_sink::MemSink;
use mlc_outside::mem_store::MemStore;
use mlc_outside::never_store::NeverStore;
use mlc_outside::sink::{Put, Sink};
use mlc_outside::store::{Read, Store, Wrote};
use std::alloc::Global;
use std::collections::BTreeMap;
use std::process::Abort;
use std::test::Fail;

/// The files `a` with `one` and `b` with nothing.
fn two_files(alloc: Global) -> Result<BTreeMap<String, Vec<u8>>, NoMemory> {
    let mut files = BTreeMap::new(alloc);
    for (path, bytes) in [("a", "one"), ("b", "")] {
        let path = path.to_string(alloc)?;
        let _ = files.insert(path, bytes.as_bytes().to_vec(alloc)?)?;
    }
    Ok(files)
}

/// A store of the two files of which the call with this number fails, counted from 1.
fn mem_store(alloc: Global, fails: u64) -> Result<MemStore, NoMemory> {
    let fails = [fails].to_vec(alloc)?;
    MemStore::new(alloc, two_files(alloc)?, fails)
}

/// A call of a store.
#[derive(Clone, Copy)]
enum Call {
    Read(&'static str),
    Write(&'static str, &'static str),
}

/// The bytes that a call gives, or how it is answered.
fn answer<S: Store>(alloc: Global, store: &mut S, call: Call) -> Result<Vec<u8>, NoMemory> {
    let word = match call {
        Call::Read(path) => match store.read(alloc, path) {
            Read::Bytes(bytes) => return Ok(bytes),
            Read::Missing => "missing",
            Read::Failed => "failed",
            Read::Memory => "memory",
        },
        Call::Write(path, bytes) => match store.write(alloc, path, bytes.as_bytes()) {
            Wrote::Done => "done",
            Wrote::Failed => "failed",
            Wrote::Memory => "memory",
        },
    };
    Ok(word.as_bytes().to_vec(alloc)?)
}

/// The calls, one after the other, are answered like this.
fn assert_answers<S: Store>(
    rt: &impl Abort,
    alloc: Global,
    store: &mut S,
    calls: &[(Call, &'static str)],
) -> Result<(), NoMemory> {
    for (call, want) in calls {
        let got = answer(alloc, store, *call)?;
        assert_eq!(rt; got.as_slice(), want.as_bytes());
    }
    Ok(())
}

/// The file that was found has these bytes.
fn assert_file(rt: &impl Abort, found: Option<&[u8]>, want: &[u8]) {
    match found {
        Some(bytes) => assert_eq!(rt; bytes, want),
        None => assert!(rt; false, "the file is there"),
    }
}

const SECOND_FAILS: [(Call, &str); 5] = [
    (Call::Read("a"), "one"),
    (Call::Write("a", "two"), "failed"),
    (Call::Write("c", "two"), "done"),
    (Call::Read("d"), "missing"),
    (Call::Read("b"), ""),
];

#[test]
fn a_store_fails_at_its_second_call(rt: HostRuntime) -> Result<(), Fail> {
    let mut store = mem_store(rt.alloc(), 2)?;
    assert_answers(&rt, rt.alloc(), &mut store, &SECOND_FAILS)?;
    assert_file(&rt, store.file("a"), b"one");
    assert_file(&rt, store.file("c"), b"two");
    Ok(())
}

const NONE_FAILS: [(Call, &str); 3] = [
    (Call::Read("c"), "missing"),
    (Call::Write("b", "two"), "done"),
    (Call::Read("b"), "two"),
];

/// A store of the two files that never fails.
fn never_store(alloc: Global) -> Result<NeverStore, NoMemory> {
    NeverStore::new(alloc, two_files(alloc)?)
}

#[test]
fn a_store_that_never_fails_reads_what_was_written(rt: HostRuntime) -> Result<(), Fail> {
    let mut store = never_store(rt.alloc())?;
    assert_answers(&rt, rt.alloc(), &mut store, &NONE_FAILS)?;
    assert_file(&rt, store.file("a"), b"one");
    Ok(())
}

// Pieces, one after the other, and what becomes of them.
const PUTS: [(&str, Put); 6] = [
    ("ab", Put::Done),
    ("c", Put::Failed),
    ("cde", Put::Failed),
    ("cd", Put::Done),
    ("", Put::Done),
    ("e", Put::Failed),
];

/// A sink with room for four bytes that fails at its second call.
fn sink(alloc: Global) -> Result<MemSink, NoMemory> {
    let fails = [2].to_vec(alloc)?;
    MemSink::new(alloc, 4, fails)
}

fn assert_puts(rt: &impl Abort, sink: &mut MemSink) {
    for (bytes, put) in PUTS.iter() {
        assert_eq!(rt; sink.put(bytes.as_bytes()), *put, "of {bytes}");
    }
}

#[test]
fn a_sink_fails_where_it_is_full_or_told_to(rt: HostRuntime) -> Result<(), Fail> {
    let mut sink = sink(rt.alloc())?;
    assert_puts(&rt, &mut sink);
    assert_eq!(rt; sink.bytes(), b"abcd".as_slice());
    Ok(())
}

/// Sends a word by any sink.
fn send_word<S: Sink>(sink: &mut S) -> Put {
    sink.put(b"word")
}

#[test]
fn a_generic_caller_takes_the_sink(rt: HostRuntime) -> Result<(), Fail> {
    let mut sink = MemSink::new(rt.alloc(), 8, Vec::new(rt.alloc()))?;
    assert_eq!(rt; send_word(&mut sink), Put::Done);
    Ok(())
}

/// Copies a file in any store.
fn copy_file<S: Store>(alloc: Global, store: &mut S) -> Wrote {
    match store.read(alloc, "a") {
        Read::Bytes(bytes) => store.write(alloc, "b", &bytes),
        _ => Wrote::Memory,
    }
}

#[test]
fn a_generic_caller_takes_the_store(rt: HostRuntime) -> Result<(), Fail> {
    let mut store = mem_store(rt.alloc(), 0)?;
    assert_eq!(rt; copy_file(rt.alloc(), &mut store), Wrote::Done);
    Ok(())
}

#[test]
fn a_generic_caller_takes_the_store_that_never_fails(rt: HostRuntime) -> Result<(), Fail> {
    let mut store = never_store(rt.alloc())?;
    assert_eq!(rt; copy_file(rt.alloc(), &mut store), Wrote::Done);
    Ok(())
}
