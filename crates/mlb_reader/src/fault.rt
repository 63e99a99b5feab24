// Refusals that name no identifier.

ghost use Rattle.std.specs.Prelude.{◌≡◌};
ghost use Rattle.mlb_reader.specs.Broken.{fault_at};

use mlc_base::place::Place;
use mlc_faults::code::Code;
use mlc_faults::fault::Fault;

/// The refusal with this code at a byte of a file.
pub fn fault_at(code: Code, file: u32, byte: u32) -> Fault
    ensures { result ≡ fault_at code file byte }
{
    Fault {
        code,
        place: Place { file, byte },
        name: None,
    }
}
