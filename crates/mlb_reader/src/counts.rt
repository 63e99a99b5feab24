// How much was read.

ghost use Rattle.std.specs.Prelude.{◌≡◌, ◌↔◌, ◌+◌, ◌≤◌, ◌<◌, ◌++◌, ◌∷◌, [], length, IfOk, OnOk, IsTrue};
ghost use Rattle.mlb_reader.specs.Counting.{IsCount, IsKept};
ghost use Rattle.mlb_reader.specs.Project.{most_bytes, most_bytes_together, most_reads};

use mlc_base::memory::NoMemory;
use mlc_faults::files::Files;
use std::alloc::Global;

/// The most reads of files, the ML Basis file's among them.
pub const MOST_READS: u32 = 4096;

/// The most bytes of one file.
const MOST_BYTES: usize = 16_777_216;

/// The most bytes of all files together.
const MOST_BYTES_TOGETHER: usize = 268_435_456;

/// How many files were read, and how many bytes they have together.
#[derive(Clone, Copy, PartialEq, Eq, Debug)]
pub struct Counts {
    pub reads: u32,
    pub bytes: usize,
}

/// What became of a file that was read.
#[derive(Clone, Copy, PartialEq, Eq, Debug)]
pub enum Kept {
    /// It has this number.
    Fits(u32),
    TooLarge,
}

/// Whether so many bytes more are within the limits.
fn fits(counts: Counts, len: usize) -> bool
    requires { counts.bytes ≤ most_bytes_together }
    ensures { IsTrue result ↔ ((len ≤ most_bytes) × (counts.bytes + len ≤ most_bytes_together)) }
{
    len <= MOST_BYTES && len <= MOST_BYTES_TOGETHER - counts.bytes
}

/// Keeps one more file, and counts it where it is within the limits.
pub fn keep_file(
    alloc: Global,
    files: &mut Files,
    counts: &mut Counts,
    path: &str,
    bytes: Vec<u8>,
) -> Result<Kept, NoMemory>
    requires count { IsCount counts.old files.old }
    requires room { length files.old < most_reads }
    ensures added { OnOk result (files.new ≡ files.old ++ record { path = path.now; bytes = bytes.items } ∷ []) }
    ensures kept { IfOk result (λ kept. IsKept kept files.old bytes.items counts.new files.new) }
{
    let before = *counts;
    let len = bytes.len();
    let number = files.add(alloc, path, bytes)?;
    if fits(before, len) {
        *counts = Counts {
            reads: before.reads + 1,
            bytes: before.bytes + len,
        };
        Ok(Kept::Fits(number))
    } else {
        Ok(Kept::TooLarge)
    }
}
