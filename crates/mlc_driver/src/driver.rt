// Checking a project, and compiling it.

ghost use Rattle.std.specs.Prelude.{◌≡◌, ◌≤◌, ◌<◌, [], List, length, None, IfOk};
ghost use Rattle.std.specs.Option.{ForSome};
ghost use Rattle.std.specs.String.{string_bytes};
ghost use Rattle.mlc_faults.specs.Files.{LiesIn};
ghost use Rattle.mlc_names.specs.StandardWords.{standard_words};
ghost use Rattle.mlc_outside.specs.Faults.{Rose};
ghost use Rattle.sml_lexer.specs.NameTable.{Keeps};
ghost use Rattle.sml_tree.specs.BareTree.{Decs};
ghost use Rattle.mlb_reader.specs.Table.{IsTable};
ghost use Rattle.mlb_reader.specs.Broken.{IsMissing, fault_at};
ghost use Rattle.mlc_faults.specs.declared.refused.Refused.TheVariants as refusal;
ghost use Rattle.mlb_reader.specs.PartOf.{parts_of};
ghost use Rattle.mlb_reader.specs.Project.{IsNeeded};
ghost use Rattle.mlb_reader.specs.Refusals.{IfTold, IfLoadFault, IfNoFile, IfReadFault};
ghost use Rattle.core_rules.specs.Project.{Part};
ghost use Rattle.back_end.specs.of_match_pass.Typed.{IsWellTyped};
ghost use Rattle.mlc_driver.specs.Checked.{Breaks, IsCause, IsChecked, IsOfProject, Outgrows};
ghost use Rattle.mlc_driver.specs.Fault.{IfFault, IsTold};
ghost use Rattle.mlc_driver.specs.Parts.{IsProgramOver};
ghost use Rattle.mlc_driver.specs.Same.{Same};

use crate::checked::Checked;
use crate::elaborate::{elaborate, top_declaration};
use crate::fault::refused_of;
use crate::prelude::read_prelude;
use back_end::compile::compile as image_of;
use back_end::named::is_named;
use back_end::refused::CompileRefused;
use ir_code::image::Image;
use mlb_reader::load::load;
use mlb_reader::project::Project;
use mlb_reader::refused::LoadRefused;
use mlc_base::place::Place;
use mlc_faults::code::Code;
use mlc_faults::fault::Fault;
use mlc_faults::files::Files;
use mlc_faults::refused::Refused;
use mlc_names::names::Names;
use mlc_outside::store::Store;
use refusal_causes::certain::certain;
use std::alloc::Global;

/// The program of a project that was loaded, over the prelude, which is read as one file more. A text that is no identifier is put behind all names, so that
/// its number says how many there are.
fn check_loaded(
    alloc: Global,
    names: &mut Names,
    files: &Files,
    project: &Project,
) -> Result<Checked, Refused>
    requires table { IsTable names.old }
    requires count { project.now.reads ≡ length files.now }
    requires some { LiesIn (record { file = 0; byte = 0 }) files.now }
    ensures kept { Keeps names.old names.new }
    ensures checked { IfOk result (λ c. IsChecked names.old (length files.now) (parts_of project.now) names.new c.program) }
    ensures well_typed { IfOk result (λ c. IsWellTyped c.program) }
    ensures known { IfOk result (λ c. c.known ≤ length names.new) }
    ensures told { IfFault result (λ fault. IsTold names.new files.now fault) }
    ensures cause { IfFault result (λ fault. IsCause names.old (length files.now) (parts_of project.now) names.new fault) }
{
    match read_prelude(alloc, names, project.reads) {
        Err(refused) => Err(refused),
        Ok(prelude) => {
            let known = names.intern(alloc, b" ")?.number();
            match elaborate(alloc, &prelude, &project.parts) {
                Ok(program) => Ok(Checked { program, known }),
                Err(stopped) => {
                    let top = top_declaration(&project.parts, stopped);
                    let certain = certain(alloc, &prelude, &project.parts, stopped, top)?;
                    Err(refused_of(alloc, names, files, project.reads, certain))
                }
            }
        }
    }
}

/// Loads the project of the ML Basis file at a path, and elaborates it.
pub fn check_project<S: Store>(
    alloc: Global,
    names: &mut Names,
    files: &mut Files,
    store: &mut S,
    path: &str,
) -> Result<Checked, LoadRefused>
    requires empty { files.old ≡ [] }
    requires names { names.old ≡ standard_words }
    ensures files_same { S.files store.new ≡ S.files store.old }
    ensures writes_same { S.write_faults store.new ≡ S.write_faults store.old }
    ensures reads_kept { S.read_faults store.old ≤ S.read_faults store.new }
    ensures project { IfOk result (λ c. IsOfProject (S.files store.old) path.now files.new names.new c.program) }
    ensures well_typed { IfOk result (λ c. IsWellTyped c.program) }
    ensures known { IfOk result (λ c. c.known ≤ length names.new) }
    ensures some { IfOk result (λ _. LiesIn (record { file = 0; byte = 0 }) files.new) }
    ensures broken { IfLoadFault result (λ fault. IfTold (S.files store.old) (λ f. Breaks f path.now names.new fault files.new)) }
    ensures fault_lies { IfLoadFault result (λ fault. LiesIn fault.place files.new) }
    ensures fault_name { IfLoadFault result (λ fault. ForSome fault.name (λ name. name < length names.new)) }
    ensures missing { IfNoFile result (λ missing. IfTold (S.files store.old) (λ f. IsMissing f path.now (string_bytes missing))) }
    ensures read_failed { IfReadFault result (λ failed. IfTold (S.files store.old) (λ f. IsNeeded f path.now (string_bytes failed))) }
    ensures read_fault { IfReadFault result (λ _. Rose (S.read_faults store.old) (S.read_faults store.new)) }
{
    match load(alloc, names, files, store, path) {
        Err(refused) => Err(refused),
        Ok(project) => match check_loaded(alloc, names, files, &project) {
            Ok(checked) => Ok(checked),
            Err(Refused::Fault(fault)) => Err(LoadRefused::Fault(fault)),
            Err(Refused::Memory) => Err(LoadRefused::Memory),
        },
    }
}

/// The refusal of a program that is too large for an image.
fn outgrown(code: Code) -> Refused
    ensures { result ≡ refusal.Fault (fault_at code 0 0) }
{
    Refused::Fault(Fault {
        code,
        place: Place { file: 0, byte: 0 },
        name: None,
    })
}

/// Compiles a checked project.
pub fn compile(alloc: Global, names: &Names, checked: Checked) -> Result<Image, Refused>
    requires known { checked.known ≤ length names.now }
    requires well_typed { IsWellTyped checked.program }
    ensures same { IfOk result (λ image. (prelude : Decs) (parts : List Part) → IsProgramOver prelude parts checked.program
        → Same names.now prelude parts image) }
    ensures refused { IfFault result (λ fault. Outgrows names.now checked.program fault) }
    ensures place { IfFault result (λ fault. fault.place ≡ record { file = 0; byte = 0 }) }
    ensures unnamed { IfFault result (λ fault. fault.name ≡ None) }
{
    if !is_named(checked.known, &checked.program) {
        return Err(Refused::Memory);
    }
    match image_of(alloc, names, checked.program) {
        Ok(image) => Ok(image),
        Err(CompileRefused::TooLarge) => Err(outgrown(Code::ExpansionTooLarge)),
        Err(CompileRefused::TooLong) => Err(outgrown(Code::ImageTooLarge)),
        Err(CompileRefused::Memory) => Err(Refused::Memory),
    }
}
