// A refusal, and the line that tells it.

ghost use Rattle.std.specs.Prelude.{◌≡◌, ◌<◌, ◌++◌, length, map, decimal, slice_get, IfOk};
ghost use Rattle.std.specs.Option.{ForSome};
ghost use Rattle.std.specs.String.{string_bytes};
ghost use Rattle.mlc_faults.specs.Files.{LiesIn};
ghost use Rattle.mlc_faults.specs.FaultLine.{fault_text, place_text, code_part, shown_byte};

use crate::code::Code;
use crate::files::Files;
use itoa::Buffer;
use mlc_base::memory::NoMemory;
use mlc_base::place::Place;
use mlc_names::names::{Name, Names};
use std::alloc::Global;

/// Why and where a project is refused.
#[derive(Clone, Copy, PartialEq, Eq, Debug)]
pub struct Fault {
    pub code: Code,
    pub place: Place,
    /// The identifier that the text ends with, where it ends with one.
    pub name: Option<Name>,
}

/// Puts a decimal number at the end of a text.
fn push_number(text: &mut String, number: u32) -> Result<(), NoMemory>
    ensures { IfOk result (λ _. string_bytes text.new ≡ string_bytes text.old ++ decimal number) }
{
    let mut buffer = Buffer::new();
    text.push_str(buffer.format(number))?;
    Ok(())
}

/// The byte that shows a byte of a name: `?` where it isn't ASCII.
fn shown(byte: u8) -> u8
    ensures shown { result ≡ shown_byte byte }
    ensures ascii { result < 128 }
{
    if byte < 128 { byte } else { b'?' }
}

/// Puts a name at the end of a text.
fn push_name(text: &mut String, name: &[u8]) -> Result<(), NoMemory>
    ensures { IfOk result (λ _. string_bytes text.new ≡ string_bytes text.old ++ map shown_byte name.now) }
{
    for byte in name {
        text.push(char::from(shown(*byte)))?;
    }
    Ok(())
}

/// Puts `FILE:LINE.COL` at the end of a text.
fn push_place(text: &mut String, place: Place, files: &Files) -> Result<(), NoMemory>
    requires { LiesIn place files.now }
    ensures { IfOk result (λ _. string_bytes text.new
        ≡ string_bytes text.old ++ place_text (slice_get files.now place.file) place.byte) }
{
    let (line, column) = files.line_col(place);
    text.push_str(files.path(place.file))?;
    text.push_str(":")?;
    push_number(text, line)?;
    text.push_str(".")?;
    push_number(text, column)?;
    Ok(())
}

/// Puts `: Exx TEXT` at the end of a text.
fn push_code(text: &mut String, code: Code) -> Result<(), NoMemory>
    ensures { IfOk result (λ _. string_bytes text.new ≡ string_bytes text.old ++ code_part code) }
{
    text.push_str(": E")?;
    push_number(text, code.number())?;
    text.push_str(" ")?;
    text.push_str(code.text())?;
    Ok(())
}

/// The line that tells a refusal: `FILE:LINE.COL: Exx TEXT`, with the identifier after it where the fault has one.
pub fn fault_line(
    alloc: Global,
    fault: &Fault,
    files: &Files,
    names: &Names,
) -> Result<String, NoMemory>
    requires place { LiesIn fault.now.place files.now }
    requires name { ForSome fault.now.name (λ name. name < length names.now) }
    ensures { IfOk result (λ line. string_bytes line ≡ fault_text files.now names.now fault.now) }
{
    let mut text = String::new(alloc);
    push_place(&mut text, fault.place, files)?;
    push_code(&mut text, fault.code)?;
    match fault.name {
        None => Ok(text),
        Some(name) => {
            text.push_str(" ")?;
            push_name(&mut text, names.text(name))?;
            Ok(text)
        }
    }
}
