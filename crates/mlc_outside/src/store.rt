// Where files lie.

ghost use Rattle.std.specs.Prelude.{◌≡◌, ℕ, List, Option};
ghost use Rattle.mlc_outside.specs.Files.{Files};
ghost use Rattle.mlc_outside.specs.Store.{WasRead, WasWritten, CountsRead, CountsWrite};

use std::alloc::Global;

/// What a read gave.
#[derive(Drop)]
pub enum Read {
    /// The file's bytes.
    Bytes(Vec<u8>),
    /// There is no such file.
    Missing,
    /// A fault of reading was counted.
    Failed,
    /// There was no memory for the bytes.
    Memory,
}

/// What became of a write.
#[derive(Clone, Copy, PartialEq, Eq, Debug)]
pub enum Wrote {
    /// The file holds the bytes.
    Done,
    /// A fault of writing was counted, and the file may hold anything.
    Failed,
    /// There was no memory for it, and nothing changed.
    Memory,
}

/// Files by their paths.
pub trait Store {
    /// The files, where the store tells them.
    ghost files: { Self → Option Files };

    /// The faults of reading so far.
    ghost read_faults: { Self → ℕ };

    /// The faults of writing so far.
    ghost write_faults: { Self → ℕ };

    /// Reads a whole file.
    fn read(&mut self, alloc: Global, path: &str) -> Read
        ensures given { WasRead result path.now (files self.old) (files self.new) }
        ensures counted { CountsRead result (read_faults self.old) (read_faults self.new) }
        ensures writes_same { write_faults self.new ≡ write_faults self.old };

    /// Writes a whole file, over what it held.
    fn write(&mut self, alloc: Global, path: &str, bytes: &[u8]) -> Wrote
        ensures kept { WasWritten result path.now bytes.now (files self.old) (files self.new) }
        ensures counted { CountsWrite result (write_faults self.old) (write_faults self.new) }
        ensures reads_same { read_faults self.new ≡ read_faults self.old };
}
