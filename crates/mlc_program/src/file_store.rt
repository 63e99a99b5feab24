// The files of the system.

ghost use Rattle.std.specs.Prelude.{◌≡◌, None};

use mlc_outside::store::{Read, Store, Wrote};
use std::alloc::Global;
use std::fs;
use std::io::{self, ErrorKind, Read as Reader};
use std::rt::Files;

/// The most bytes of a file that is read.
const MOST_BYTES: usize = 1 << 30;

/// The most bytes of one piece of a read.
const PIECE: usize = 65536;

/// The files that a runtime reaches. It tells nothing of what they hold.
#[derive(Drop)]
pub struct FileStore<'a, R> {
    runtime: &'a R,
    read_faults: u64,
    write_faults: u64,
}

impl<'a, R: Files> FileStore<'a, R> {
    /// The files of this runtime, with no faults so far.
    pub fn new(runtime: &'a R) -> FileStore<'a, R>
        ensures no_read_faults { ⟦<FileStore<'a, R> as Store>⟧.read_faults result ≡ 0 }
        ensures no_write_faults { ⟦<FileStore<'a, R> as Store>⟧.write_faults result ≡ 0 }
    {
        FileStore {
            runtime,
            read_faults: 0,
            write_faults: 0,
        }
    }
}

/// All that a reader gives; a file over the limit is an error.
fn read_whole<F: Reader>(alloc: Global, file: &mut F) -> io::Result<Vec<u8>> {
    let mut bytes = Vec::new(alloc);
    let mut piece = [0u8; PIECE];
    for _ in 0..u64::MAX {
        let count = file.read(&mut piece)?;
        if count == 0 {
            return Ok(bytes);
        }
        if bytes.len() > MOST_BYTES - count {
            return Err(io::Error::from(ErrorKind::FileTooLarge));
        }
        bytes.extend_from_slice(&piece[..count])?;
    }
    Ok(bytes)
}

/// The bytes of a file.
fn read_file<R: Files>(alloc: Global, runtime: &R, path: &str) -> io::Result<Vec<u8>> {
    let mut file = fs::open(runtime, path)?;
    read_whole(alloc, &mut file)
}

impl<R: Files> Store for FileStore<'_, R> {
    ghost files = { λ _. None };

    ghost read_faults = { λ s. s.read_faults };

    ghost write_faults = { λ s. s.write_faults };

    fn read(&mut self, alloc: Global, path: &str) -> Read {
        match read_file(alloc, self.runtime, path) {
            Ok(bytes) => Read::Bytes(bytes),
            Err(error) => match error.kind() {
                ErrorKind::NotFound => Read::Missing,
                ErrorKind::OutOfMemory => Read::Memory,
                _ => {
                    self.read_faults = self.read_faults.saturating_add(1);
                    Read::Failed
                }
            },
        }
    }

    fn write(&mut self, alloc: Global, path: &str, bytes: &[u8]) -> Wrote {
        let _ = alloc;
        match fs::write(self.runtime, path, bytes) {
            Ok(()) => Wrote::Done,
            Err(_) => {
                self.write_faults = self.write_faults.saturating_add(1);
                Wrote::Failed
            }
        }
    }
}
