// A store in memory, whose calls may be made to fail.

ghost use Rattle.std.specs.Prelude.{◌≡◌, IfOk, option_map};
ghost use Rattle.std.specs.FinMap.{get};
ghost use Rattle.mlc_outside.specs.Table.{files_of};
ghost use Rattle.mlc_outside.specs.Store.{WasRead, WasWritten, CountsRead, CountsWrite};
ghost use Rattle.mlc_outside.specs.Faults.{counted};
ghost use Rattle.mlc_outside.specs.MemStore.{told, fails_next, after_read, after_write, ReadAnswer, WriteAnswer};

use crate::file_table::FileTable;
use crate::store::{Read, Store, Wrote};
use mlc_base::memory::NoMemory;
use std::alloc::Global;
use std::collections::BTreeMap;
use std::marker::Model;

/// Keeps its files in memory. Of its calls, reads and writes together, those with the listed numbers fail.
#[derive(Drop)]
pub struct MemStore {
    table: FileTable,
    fails: Vec<u64>,
    calls: u64,
    read_faults: u64,
    write_faults: u64,
}

impl Model for MemStore {
    ghost use Rattle.mlc_outside.specs.StoreContents.{StoreContents, store_code};

    ghost Value = { StoreContents };

    ghost coded = { store_code };

    ghost view = { λ s. record { files = s.table; fails = s.fails.items; calls = s.calls; read_faults = s.read_faults; write_faults = s.write_faults } };
}

impl MemStore {
    /// A store of these files, of whose calls those with these numbers are to fail, counted from 1.
    pub fn new(
        alloc: Global,
        files: BTreeMap<String, Vec<u8>>,
        fails: Vec<u64>,
    ) -> Result<MemStore, NoMemory>
        ensures { IfOk result (λ s. s ≡ record { files = files_of files; fails = fails.items; calls = 0; read_faults = 0; write_faults = 0 }) }
    {
        let _ = alloc;
        Ok(MemStore {
            table: FileTable::new(files),
            fails,
            calls: 0,
            read_faults: 0,
            write_faults: 0,
        })
    }

    /// The bytes of a file.
    pub fn file(&self, path: &str) -> Option<&[u8]>
        ensures { option_map (λ bytes. bytes.now) result ≡ get self.now.files path.now }
    {
        self.table.get(path)
    }

    /// Counts a call, and says whether it is to fail.
    fn is_to_fail(&mut self) -> bool
        ensures answer { result ≡ fails_next self.old }
        ensures after { self.new ≡ record self.old { calls = counted self.old.calls } }
    {
        self.calls = self.calls.saturating_add(1);
        self.fails.contains(&self.calls)
    }
}

impl Store for MemStore {
    ghost files = { told };

    ghost read_faults = { λ s. s.read_faults };

    ghost write_faults = { λ s. s.write_faults };

    fn read(&mut self, alloc: Global, path: &str) -> Read
        ensures given { WasRead result path.now (told self.old) (told self.new) }
        ensures counted { CountsRead result self.old.read_faults self.new.read_faults }
        ensures writes_same { self.new.write_faults ≡ self.old.write_faults }
        ensures answer { ReadAnswer self.old result }
        ensures after { self.new ≡ after_read self.old }
    {
        if self.is_to_fail() {
            self.read_faults = self.read_faults.saturating_add(1);
            return Read::Failed;
        }
        match self.table.get(path) {
            None => Read::Missing,
            Some(bytes) => {
                match Vec::from_slice(alloc, bytes) {
                    Ok(copy) => Read::Bytes(copy),
                    Err(_) => Read::Memory,
                }
            }
        }
    }

    fn write(&mut self, alloc: Global, path: &str, bytes: &[u8]) -> Wrote
        ensures kept { WasWritten result path.now bytes.now (told self.old) (told self.new) }
        ensures counted { CountsWrite result self.old.write_faults self.new.write_faults }
        ensures reads_same { self.new.read_faults ≡ self.old.read_faults }
        ensures answer { WriteAnswer self.old result }
        ensures after { self.new ≡ after_write self.old path.now bytes.now result }
    {
        if self.is_to_fail() {
            self.write_faults = self.write_faults.saturating_add(1);
            return Wrote::Failed;
        }
        match self.table.set(alloc, path, bytes) {
            Ok(()) => Wrote::Done,
            Err(NoMemory) => Wrote::Memory,
        }
    }
}
