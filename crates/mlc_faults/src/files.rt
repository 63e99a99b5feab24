// The files that were read.

ghost use Rattle.std.specs.Prelude.{◌≡◌, ◌+◌, ◌-◌, ◌^◌, ◌<◌, ◌≤◌, ◌∷◌, ◌++◌, [], length, Some, slice_get, IfOk, OnErr, IfSome, option_map};
ghost use Rattle.mlc_faults.specs.Files.{line_of, column_of, is_in_line, LiesIn};
ghost use Rattle.std.specs.List.{suffix_len};

use mlc_base::memory::NoMemory;
use mlc_base::place::Place;
use std::alloc::Global;
use std::marker::Model;

/// One file.
#[derive(Drop)]
struct SourceFile {
    path: String,
    bytes: Vec<u8>,
}

/// Files in the order in which they were read, numbered from 0.
#[derive(Drop)]
pub struct Files {
    files: Vec<SourceFile>,
}

impl Model for Files {
    ghost use Rattle.std.specs.Prelude.{List, map};
    ghost use Rattle.std.specs.String.{string_bytes};
    ghost use Rattle.mlc_faults.specs.File.{File};

    ghost Value = { List File };

    ghost view = { λ f. map (λ file. record { path = string_bytes file.path; bytes = file.bytes.items }) f.files.items };
}

impl Files {
    /// No files.
    pub fn new(alloc: Global) -> Result<Files, NoMemory>
        ensures { IfOk result (λ files. files ≡ []) }
    {
        Ok(Files {
            files: Vec::new(alloc),
        })
    }

    /// Keeps one more file, and gives its number.
    pub fn add(&mut self, alloc: Global, path: &str, bytes: Vec<u8>) -> Result<u32, NoMemory>
        requires { length self.old < 2 ^ 32 }
        ensures number { IfOk result (λ number. number ≡ length self.old) }
        ensures ok { IfOk result (λ _. self.new ≡ self.old ++ record { path = path.now; bytes = bytes.items } ∷ []) }
        ensures err { OnErr result (self.new ≡ self.old) }
    {
        let number = self.files.len() as u32;
        let path = String::from_str(alloc, path)?;
        self.files.push(SourceFile { path, bytes })?;
        Ok(number)
    }

    /// The path of a file.
    pub fn path(&self, file: u32) -> &str
        requires { file < length self.now }
        ensures { option_map (λ f. f.path) (slice_get self.now file) ≡ Some result.now }
    {
        self.files[file as usize].path.as_str()
    }

    /// The bytes of a file.
    pub fn bytes(&self, file: u32) -> &[u8]
        requires { file < length self.now }
        ensures { option_map (λ f. f.bytes) (slice_get self.now file) ≡ Some result.now }
    {
        self.files[file as usize].bytes.as_slice()
    }

    /// The line and the column of a place, both counted from 1, columns in bytes.
    pub fn line_col(&self, place: Place) -> (u32, u32)
        requires { LiesIn place self.now }
        ensures line { IfSome (slice_get self.now place.file) (λ f. result.0 ≡ line_of f.bytes place.byte) }
        ensures column { IfSome (slice_get self.now place.file) (λ f. result.1 ≡ column_of f.bytes place.byte) }
    {
        let bytes = self.files[place.file as usize].bytes.as_slice();
        line_col_of(bytes, place.byte)
    }
}

/// Where the line begins that these bytes end in.
fn line_start(before: &[u8]) -> usize
    ensures { result + suffix_len is_in_line before.now ≡ length before.now }
{
    let mut start = before.len();
    while start > 0 && before[start - 1] != b'\n' {
        start -= 1;
    }
    start
}

/// The line and the column of the byte at this index.
fn line_col_of(bytes: &[u8], at: u32) -> (u32, u32)
    requires inside { at ≤ length bytes.now }
    requires fits { at + 1 < 2 ^ 32 }
    ensures line { result.0 ≡ line_of bytes.now at }
    ensures column { result.1 ≡ column_of bytes.now at }
{
    let before = &bytes[..at as usize];
    let newlines = before.iter().filter(|byte| **byte == b'\n').count();
    let in_line = before.len() - line_start(before);
    (newlines as u32 + 1, in_line as u32 + 1)
}
