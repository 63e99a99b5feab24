// A sink in memory.

ghost use Rattle.std.specs.Prelude.{◌≡◌, [], IfOk};
ghost use Rattle.mlc_outside.specs.Sink.{WasPut};
ghost use Rattle.mlc_outside.specs.MemSink.{taken, after_put, put_answer};

use crate::sink::{Put, Sink};
use mlc_base::memory::NoMemory;
use std::alloc::Global;
use std::marker::Model;

/// Keeps what it is given, up to a number of bytes whose room is taken at the start.
#[derive(Drop)]
pub struct MemSink {
    kept: Vec<u8>,
    len: usize,
    fails: Vec<u64>,
    calls: u64,
    faults: u64,
}

impl Model for MemSink {
    ghost use Rattle.std.specs.Prelude.{◌≤◌, length, take};
    ghost use Rattle.mlc_outside.specs.SinkContents.{SinkContents};

    ghost Value = { SinkContents };

    ghost view = { λ s. record { bytes = take s.len s.kept.items; room = length s.kept.items; fails = s.fails.items; calls = s.calls; faults = s.faults } };

    ghost invariant = { λ s. s.len ≤ length s.kept.items };
}

impl MemSink {
    /// An empty sink with room for so many bytes, of whose calls those with these numbers are to fail, counted from 1.
    pub fn new(alloc: Global, room: usize, fails: Vec<u64>) -> Result<MemSink, NoMemory>
        ensures { IfOk result (λ s. s ≡ record { bytes = []; room = room; fails = fails.items; calls = 0; faults = 0 }) }
    {
        let kept = vec![in alloc; 0u8; room]?;
        Ok(MemSink {
            kept,
            len: 0,
            fails,
            calls: 0,
            faults: 0,
        })
    }

    /// What was taken.
    pub fn bytes(&self) -> &[u8]
        ensures { result.now ≡ self.now.bytes }
    {
        &self.kept[..self.len]
    }
}

impl Sink for MemSink {
    ghost written = { taken };

    ghost faults = { λ s. s.faults };

    fn put(&mut self, bytes: &[u8]) -> Put
        ensures was_put { WasPut result bytes.now (taken self.old) (taken self.new) self.old.faults self.new.faults }
        ensures answer { result ≡ put_answer self.old bytes.now }
        ensures after { self.new ≡ after_put self.old bytes.now }
    {
        self.calls = self.calls.saturating_add(1);
        if self.fails.contains(&self.calls) || bytes.len() > self.kept.len() - self.len {
            self.faults = self.faults.saturating_add(1);
            return Put::Failed;
        }
        let end = self.len + bytes.len();
        self.kept[self.len..end].copy_from_slice(bytes);
        self.len = end;
        Put::Done
    }
}
