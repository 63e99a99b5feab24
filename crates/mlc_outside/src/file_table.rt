// Files in memory.

ghost use Rattle.std.specs.Prelude.{◌≡◌, IfOk, OnOk, OnErr, option_map};
ghost use Rattle.std.specs.FinMap.{get, insert};
ghost use Rattle.mlc_outside.specs.Table.{files_of};

use mlc_base::memory::NoMemory;
use std::alloc::Global;
use std::collections::BTreeMap;
use std::marker::Model;

/// Files by their paths, kept in memory.
#[derive(Drop)]
pub struct FileTable {
    entries: BTreeMap<String, Vec<u8>>,
}

impl Model for FileTable {
    ghost use Rattle.std.specs.Ordering.{nat_cmp};
    ghost use Rattle.std.specs.Cmp.Lexicographic.{slice_cmp};
    ghost use Rattle.std.specs.FinMap as map;
    ghost use Rattle.std.specs.Coded.{coded_ℕ, coded_list};
    ghost use Rattle.mlc_outside.specs.Files.{Files};
    ghost use Rattle.mlc_outside.specs.Table.{files_of};

    ghost Value = { Files };

    ghost coded = { map.code (coded_list coded_ℕ) (coded_list coded_ℕ) };

    ghost view = { λ t. files_of t.entries };
}

impl FileTable {
    /// The table of these files.
    pub fn new(entries: BTreeMap<String, Vec<u8>>) -> FileTable
        ensures { result ≡ files_of entries }
    {
        FileTable { entries }
    }

    /// The bytes at a path.
    pub fn get(&self, path: &str) -> Option<&[u8]>
        ensures { option_map (λ bytes. bytes.now) result ≡ get self.now path.now }
    {
        match self.entries.get(path) {
            None => None,
            Some(bytes) => Some(bytes.as_slice()),
        }
    }

    /// Sets the bytes at a path.
    pub fn set(&mut self, alloc: Global, path: &str, bytes: &[u8]) -> Result<(), NoMemory>
        ensures ok { OnOk result (self.new ≡ insert self.old path.now bytes.now) }
        ensures err { OnErr result (self.new ≡ self.old) }
    {
        let path = String::from_str(alloc, path)?;
        let bytes = Vec::from_slice(alloc, bytes)?;
        let _ = self.entries.insert(path, bytes)?;
        Ok(())
    }
}
