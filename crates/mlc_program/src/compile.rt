// Compiling the project of a command.

ghost use Rattle.std.specs.Prelude.{◌≡◌, ◌<◌, length, IfOk, IfErr};
ghost use Rattle.std.specs.Option.{ForSome};
ghost use Rattle.std.specs.String.{string_bytes};
ghost use Rattle.mlc_faults.specs.Files.{LiesIn};
ghost use Rattle.mlc_program.specs.CommandOf.{command_of};
ghost use Rattle.mlc_program.specs.Exits.{Unbuilt};
ghost use Rattle.mlc_program.specs.Outside.{disk};
ghost use Rattle.mlc_program.specs.Statuses.{Compiles, refusal};

use crate::command::Command;
use crate::exit::Exit;
use ir_code::image::Image;
use mlb_reader::refused::LoadRefused;
use mlc_base::memory::NoMemory;
use mlc_driver::driver::{check_project, compile};
use mlc_faults::fault::{Fault, fault_line};
use mlc_faults::files::Files;
use mlc_faults::refused::Refused;
use mlc_names::names::Names;
use mlc_outside::store::Store;
use std::alloc::Global;

/// The line that tells a fault.
fn refusal_line(
    alloc: Global,
    fault: &Fault,
    files: &Files,
    names: &Names,
) -> Result<String, NoMemory>
    requires place { LiesIn fault.now.place files.now }
    requires name { ForSome fault.now.name (λ name. name < length names.now) }
    ensures { IfOk result (λ line. string_bytes line ≡ refusal files.now names.now fault.now) }
{
    let mut line = fault_line(alloc, fault, files, names)?;
    line.push_str("\n")?;
    Ok(line)
}

/// The image of a command's project.
pub fn compile_project<S: Store>(
    alloc: Global,
    command: &Command,
    store: &mut S,
) -> Result<Image, Exit>
    ensures files_same { S.files store.new ≡ S.files store.old }
    ensures writes_same { S.write_faults store.new ≡ S.write_faults store.old }
    ensures compiled { IfOk result (λ image. Compiles (S.files store.old) (command_of command.now) image) }
    ensures exit { IfErr result (λ exit. Unbuilt exit
        (disk (S.files store.old) (S.read_faults store.old) (S.write_faults store.old))
        (disk (S.files store.new) (S.read_faults store.new) (S.write_faults store.new))
        (command_of command.now)) }
{
    let mut names = Names::new(alloc)?;
    let mut files = Files::new(alloc)?;
    match check_project(alloc, &mut names, &mut files, store, command.input) {
        Err(refused) => match refused {
            LoadRefused::Fault(fault) => {
                let line = refusal_line(alloc, &fault, &files, &names)?;
                Err(Exit::Refused(line))
            }
            LoadRefused::NoFile(path) => Err(Exit::Missing(path)),
            LoadRefused::ReadFault(path) => Err(Exit::ReadFailed(path)),
            LoadRefused::Memory => Err(Exit::NoMemory),
        },
        Ok(checked) => match compile(alloc, &names, checked) {
            Err(refused) => match refused {
                Refused::Fault(fault) => {
                    let line = refusal_line(alloc, &fault, &files, &names)?;
                    Err(Exit::Refused(line))
                }
                Refused::Memory => Err(Exit::NoMemory),
            },
            Ok(image) => Ok(image),
        },
    }
}
