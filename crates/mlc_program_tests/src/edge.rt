// The files and streams of the system.

use mlc_outside::sink::{Put, Sink};
use mlc_outside::store::{Read, Store, Wrote};
use mlc_program::file_store::FileStore;
use mlc_program::standard::Stream;
use std::alloc::Global;
use std::io::{self, ErrorKind, Print};
use std::process::Abort;
use std::test::Fail;
use std::{env, fs};

/// The file at a path has these bytes.
fn assert_bytes<S: Store>(rt: &impl Abort, alloc: Global, store: &mut S, path: &str, want: &[u8]) {
    match store.read(alloc, path) {
        Read::Bytes(bytes) => assert_eq!(rt; bytes.as_slice(), want),
        _ => assert!(rt; false, "no bytes"),
    }
}

/// There is no file at a path.
fn assert_missing<S: Store>(rt: &impl Abort, alloc: Global, store: &mut S, path: &str) {
    match store.read(alloc, path) {
        Read::Missing => {}
        _ => assert!(rt; false, "no such file"),
    }
}

/// A file that isn't there is missing, and then has what was written.
fn assert_kept<S: Store>(rt: &impl Abort, alloc: Global, store: &mut S, path: &str) {
    assert_missing(rt, alloc, store, path);
    assert_eq!(rt; store.write(alloc, path, b"bytes"), Wrote::Done);
    assert_bytes(rt, alloc, store, path, b"bytes");
}

#[test]
fn files_of_the_system_are_read_and_written(rt: HostRuntime) -> Result<(), Fail> {
    let folder = env::temp_dir(&rt)?;
    let path = folder.join(rt.alloc(), "mlc_file_store_test")?;
    let path = path.as_path().to_str().ok_or("a path that is text")?;
    let _ = fs::remove_file(&rt, path);
    let mut store = FileStore::new(&rt);
    assert_kept(&rt, rt.alloc(), &mut store, path);
    fs::remove_file(&rt, path)?;
    Ok(())
}

#[test]
fn a_folder_has_no_bytes(rt: HostRuntime) {
    let mut store = FileStore::new(&rt);
    match store.read(rt.alloc(), "/") {
        Read::Failed => {}
        _ => assert!(rt; false, "a folder has no bytes"),
    }
    assert_eq!(rt; store.write(rt.alloc(), "/", b"bytes"), Wrote::Failed);
}

/// A stream that takes nothing.
#[derive(Drop)]
struct Broken;

impl Print for Broken {
    fn print<D: std::fmt::Display + Drop>(&self, value: D) -> io::Result<()> {
        drop(value);
        Err(io::Error::from(ErrorKind::BrokenPipe))
    }

    fn println<D: std::fmt::Display + Drop>(&self, value: D) -> io::Result<()> {
        self.print(value)
    }

    fn write_all(&self, _bytes: &[u8]) -> io::Result<()> {
        Err(io::Error::from(ErrorKind::BrokenPipe))
    }
}

#[test]
fn streams_of_the_system_take_bytes(rt: HostRuntime) {
    let mut out = Stream::new(rt.stdout());
    assert_eq!(rt; out.put(b""), Put::Done);
    let mut err = Stream::new(rt.stderr());
    assert_eq!(rt; err.put(b""), Put::Done);
}

#[test]
fn a_broken_stream_tells_its_fault(rt: HostRuntime) {
    let mut broken = Stream::new(Broken);
    assert_eq!(rt; broken.put(b"a"), Put::Failed);
}
