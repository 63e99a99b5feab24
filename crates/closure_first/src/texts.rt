// Strings. To know that a byte is one, it is read.
ghost use Rattle.std.specs.Prelude.{◌≡◌, map};
ghost use Rattle.std.specs.List.{AllByRecursion};
ghost use Rattle.closure_bodies.specs.of_closure_parts.Indexed.{texts_of};
ghost use Rattle.closure_first.specs.Held.{IsByte, AreBytes};

fn is_byte(byte: u8)
    ensures { IsByte byte }
{}

fn bytes_are_bytes(text: &[u8])
    ensures { AllByRecursion IsByte text.now }
{
    for i in 0..text.len() {
        is_byte(text[i]);
    }
}

/// Strings are of bytes.
pub fn texts_are_bytes(strings: &[Vec<u8>])
    ensures { AreBytes (texts_of strings.now) }
{
    for i in 0..strings.len() {
        let text = &strings[i];
        bytes_are_bytes(text);
    }
}
