// A string is sent in pieces.

ghost use Rattle.std.specs.Prelude.{◌≡◌, ◌<◌, ◌≤◌, length, take};
ghost use Rattle.std.specs.List.{All};
ghost use Rattle.ir_code.specs.Machine.{string_at};
ghost use Rattle.heap_vm.specs.View.{IsString};
ghost use Rattle.mlc_outside.specs.Sink.{WasPut};

use mlc_outside::sink::{Put, Sink};

/// The most bytes of a piece.
const PIECE: usize = 64;

/// Fills the head of a buffer with words that are bytes.
fn fill(words: &[u32], buf: &mut [u8])
    requires room { length words.now ≤ length buf.old }
    requires bytes { All (λ w. w < 256) words.now }
    ensures { take (length words.now) buf.new ≡ words.now }
{
    for (i, w) in words.iter().enumerate() {
        buf[i] = *w as u8;
    }
}

/// Sends words that are bytes, 64 at a time.
fn send<O: Sink>(words: &[u32], out: &mut O) -> Put
    requires { All (λ w. w < 256) words.now }
    ensures { WasPut result words.now (O.written out.old) (O.written out.new) (O.faults out.old) (O.faults out.new) }
{
    let mut buf = [0u8; PIECE];
    let mut i = 0;
    while i < words.len() {
        let n = (words.len() - i).min(PIECE);
        fill(&words[i..i + n], &mut buf);
        match out.put(&buf[..n]) {
            Put::Failed => return Put::Failed,
            Put::Done => i += n,
        }
    }
    Put::Done
}

/// Sends the string at an address.
#[inline(never)]
pub fn send_string<O: Sink>(memory: &[u32], x: u32, out: &mut O) -> Put
    requires { IsString memory.now x }
    ensures { WasPut result (string_at memory.now x) (O.written out.old) (O.written out.new) (O.faults out.old) (O.faults out.new) }
{
    let at = x as usize + 1;
    let len = memory[x as usize] as usize;
    send(&memory[at..at + len], out)
}
