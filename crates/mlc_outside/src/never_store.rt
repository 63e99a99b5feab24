// A store in memory that has no faults at all.

ghost use Rattle.std.specs.Prelude.{◌≡◌, Some, IfOk, option_map};
ghost use Rattle.std.specs.FinMap.{get};
ghost use Rattle.mlc_outside.specs.Table.{files_of};

use crate::file_table::FileTable;
use crate::store::{Read, Store, Wrote};
use mlc_base::memory::NoMemory;
use std::alloc::Global;
use std::collections::BTreeMap;
use std::marker::Model;

/// Keeps its files in memory, and never fails.
#[derive(Drop)]
pub struct NeverStore {
    table: FileTable,
}

impl Model for NeverStore {
    ghost use Rattle.mlc_outside.specs.Files.{Files};
    ghost use Rattle.mlc_outside.specs.StoreContents.{files_code};

    ghost Value = { Files };

    ghost coded = { files_code };

    ghost view = { λ s. s.table };
}

impl NeverStore {
    /// A store of these files.
    pub fn new(alloc: Global, files: BTreeMap<String, Vec<u8>>) -> Result<NeverStore, NoMemory>
        ensures { IfOk result (λ s. s ≡ files_of files) }
    {
        let _ = alloc;
        Ok(NeverStore {
            table: FileTable::new(files),
        })
    }

    /// The bytes of a file.
    pub fn file(&self, path: &str) -> Option<&[u8]>
        ensures { option_map (λ bytes. bytes.now) result ≡ get self.now path.now }
    {
        self.table.get(path)
    }
}

impl Store for NeverStore {
    ghost files = { λ s. Some s };

    ghost read_faults = { λ _. 0 };

    ghost write_faults = { λ _. 0 };

    fn read(&mut self, alloc: Global, path: &str) -> Read {
        match self.table.get(path) {
            None => Read::Missing,
            Some(bytes) => {
                match Vec::from_slice(alloc, bytes) {
                    Ok(copy) => Read::Bytes(copy),
                    Err(_) => Read::Memory,
                }
            }
        }
    }

    fn write(&mut self, alloc: Global, path: &str, bytes: &[u8]) -> Wrote {
        match self.table.set(alloc, path, bytes) {
            Ok(()) => Wrote::Done,
            Err(NoMemory) => Wrote::Memory,
        }
    }
}
