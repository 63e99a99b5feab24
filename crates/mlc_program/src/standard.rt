// The standard output and the standard error.

ghost use Rattle.std.specs.Prelude.{◌≡◌, None};

use mlc_outside::sink::{Put, Sink};
use std::io::Print;

/// A stream of the system. It tells nothing of what it took.
#[derive(Drop)]
pub struct Stream<P> {
    stream: P,
    faults: u64,
}

impl<P: Print> Stream<P> {
    /// This stream, with no faults so far.
    pub fn new(stream: P) -> Stream<P>
        ensures { ⟦<Stream<P> as Sink>⟧.faults result ≡ 0 }
    {
        Stream { stream, faults: 0 }
    }
}

impl<P: Print> Sink for Stream<P> {
    ghost written = { λ _. None };

    ghost faults = { λ s. s.faults };

    fn put(&mut self, bytes: &[u8]) -> Put {
        match self.stream.write_all(bytes) {
            Ok(()) => Put::Done,
            Err(_) => {
                self.faults = self.faults.saturating_add(1);
                Put::Failed
            }
        }
    }
}
