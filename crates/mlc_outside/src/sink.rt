// What takes bytes.

ghost use Rattle.std.specs.Prelude.{ℕ, List, Option};
ghost use Rattle.mlc_outside.specs.Sink.{WasPut};

/// What became of a piece of output.
#[derive(Clone, Copy, PartialEq, Eq, Debug)]
pub enum Put {
    /// All of it was taken.
    Done,
    /// A prefix of it was taken, and a fault was counted.
    Failed,
}

/// What takes bytes.
pub trait Sink {
    /// The bytes taken so far, where the sink tells them.
    ghost written: { Self → Option (List ℕ) };

    /// The faults so far.
    ghost faults: { Self → ℕ };

    /// Takes a piece.
    fn put(&mut self, bytes: &[u8]) -> Put
        ensures { WasPut result bytes.now (written self.old) (written self.new) (faults self.old) (faults self.new) };
}
