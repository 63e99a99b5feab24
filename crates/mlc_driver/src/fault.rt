// How a project is refused that doesn't elaborate.

ghost use Rattle.std.specs.Prelude.{◌≡◌, ◌<◌, ◌⊎◌, true, length, None, Some, IfOk, IsTrue};
ghost use Rattle.mlc_faults.specs.Files.{LiesIn};
ghost use Rattle.mlc_faults.specs.declared.code.Code.TheVariants.{Unbound, NoTyping};
ghost use Rattle.sml_lexer.specs.NameTable.{Keeps};
ghost use Rattle.mlc_driver.specs.Fault.{code_of, is_of_elaboration, IsThere, IsTold, OnFault, Tells};

use crate::identifier::identifier_at;
use elab_types::refused::Refused as Cause;
use mlc_base::memory::NoMemory;
use mlc_base::place::Place;
use mlc_faults::code::Code;
use mlc_faults::fault::Fault;
use mlc_faults::files::Files;
use mlc_faults::refused::Refused;
use mlc_names::names::Names;
use pat_elab::stopped::Stopped;
use std::alloc::Global;

/// Whether a place lies in the files, of which there are so many.
fn lies(files: &Files, reads: u32, place: Place) -> bool
    requires { reads ≡ length files.now }
    ensures file { IsTrue result → place.file < length files.now }
    ensures lies { IsTrue result → LiesIn place files.now }
{
    place.file < reads
        && place.byte < u32::MAX
        && place.byte as usize <= files.bytes(place.file).len()
}

/// The place, where it lies in the files, and else the first byte of the first one.
fn place_in(files: &Files, reads: u32, place: Place) -> Place
    requires count { reads ≡ length files.now }
    requires some { LiesIn (record { file = 0; byte = 0 }) files.now }
    ensures { LiesIn result files.now }
{
    if lies(files, reads, place) {
        place
    } else {
        Place { file: 0, byte: 0 }
    }
}

/// A fault that names no identifier.
fn fault_at(code: Code, files: &Files, reads: u32, place: Place) -> Fault
    requires code { is_of_elaboration code ≡ true }
    requires count { reads ≡ length files.now }
    requires some { LiesIn (record { file = 0; byte = 0 }) files.now }
    ensures code { result.code ≡ code }
    ensures lies { LiesIn result.place files.now }
    ensures unnamed { result.name ≡ None }
{
    Fault {
        code,
        place: place_in(files, reads, place),
        name: None,
    }
}

/// The same at its own place, where that lies in the files; else that there is no typing.
fn fault_there(code: Code, files: &Files, reads: u32, place: Place) -> Fault
    requires code { is_of_elaboration code ≡ true }
    requires count { reads ≡ length files.now }
    requires some { LiesIn (record { file = 0; byte = 0 }) files.now }
    ensures code { is_of_elaboration result.code ≡ true }
    ensures lies { LiesIn result.place files.now }
    ensures unnamed { result.name ≡ None }
    ensures there { IsThere code place result }
{
    if lies(files, reads, place) {
        Fault {
            code,
            place,
            name: None,
        }
    } else {
        fault_at(Code::NoTyping, files, reads, place)
    }
}

/// That an identifier at a place isn't bound.
fn unbound_at(
    alloc: Global,
    names: &mut Names,
    files: &Files,
    reads: u32,
    place: Place,
) -> Result<Fault, NoMemory>
    requires count { reads ≡ length files.now }
    requires some { LiesIn (record { file = 0; byte = 0 }) files.now }
    ensures kept { Keeps names.old names.new }
    ensures told { IfOk result (λ fault. IsTold names.new files.now fault) }
    ensures there { IfOk result (λ fault. IsThere Unbound place fault) }
{
    if !lies(files, reads, place) {
        return Ok(fault_at(Code::NoTyping, files, reads, place));
    }
    let name = identifier_at(alloc, names, files.bytes(place.file), place)?;
    Ok(Fault {
        code: Code::Unbound,
        place,
        name,
    })
}

/// What elaboration answered, as a refusal: its place is one of the files that were read. That an identifier isn't bound, and that a restriction is broken, are
/// told at their own place alone.
pub fn refused_of(
    alloc: Global,
    names: &mut Names,
    files: &Files,
    reads: u32,
    stopped: Stopped,
) -> Refused
    requires count { reads ≡ length files.now }
    requires some { LiesIn (record { file = 0; byte = 0 }) files.now }
    ensures kept { Keeps names.old names.new }
    ensures told { OnFault result (λ fault. IsTold names.new files.now fault) }
    ensures tells { OnFault result (Tells stopped) }
    ensures coded { OnFault result (λ fault. (code_of stopped ≡ Some fault.code) ⊎ (fault.code ≡ NoTyping)) }
{
    match stopped {
        Stopped::Foreign(place) => Refused::Fault(fault_at(Code::NotCompiled, files, reads, place)),
        Stopped::NotPrincipal(place) => Refused::Fault(fault_at(
            Code::NoPrincipalTyping,
            files,
            reads,
            place,
        )),
        Stopped::Refuses(Cause::Mistyped(place)) => Refused::Fault(fault_at(
            Code::NoTyping,
            files,
            reads,
            place,
        )),
        Stopped::Refuses(Cause::Broken(place)) => Refused::Fault(fault_there(
            Code::Restriction,
            files,
            reads,
            place,
        )),
        Stopped::Refuses(Cause::Large(place)) => Refused::Fault(fault_at(
            Code::TypeTooLarge,
            files,
            reads,
            place,
        )),
        Stopped::Refuses(Cause::Memory) => Refused::Memory,
        Stopped::Refuses(Cause::Unbound(place)) => {
            match unbound_at(alloc, names, files, reads, place) {
                Ok(fault) => Refused::Fault(fault),
                Err(NoMemory) => Refused::Memory,
            }
        }
    }
}
