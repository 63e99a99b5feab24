// Loading a project: its ML Basis file, and the sources that it names.

ghost use Rattle.std.specs.Prelude.{◌≡◌, ◌≢◌, ◌<◌, ◌≤◌, ◌↔◌, ℕ, List, [], ◌∷◌, length, None, All, IfOk, OnOk, IsTrue};
ghost use Rattle.std.specs.String.{string_bytes};
ghost use Rattle.mlc_faults.specs.File.{File};
ghost use Rattle.mlc_faults.specs.Files.{LiesIn};
ghost use Rattle.mlc_outside.specs.Faults.{Rose};
ghost use Rattle.mlc_outside.specs.Store.{HasFile};
ghost use Rattle.sml_lexer.specs.NameTable.{Keeps};
ghost use Rattle.mlc_names.specs.StandardWords.{standard_words};
ghost use Rattle.mlb_reader.specs.Basis.{standard_fixities};
ghost use Rattle.mlb_reader.specs.Table.{IsTable};
ghost use Rattle.mlb_reader.specs.Broken.{IsBroken, IsMissing, fault_at};
ghost use Rattle.mlb_reader.specs.Counting.{IsCount};
ghost use Rattle.mlb_reader.specs.Loading.{BreaksAt, BreaksFirst, Grows, IsBegun, IsFetched, IsKnown, IsTooLarge, MissesAt, NeedsAt, loaded_of, path_fault};
ghost use Rattle.mlb_reader.specs.Mlb.{basis_path, has_variable, is_source};
ghost use Rattle.mlb_reader.specs.MlbOf.{item_of, items_of};
ghost use Rattle.mlb_reader.specs.PartOf.{parts_of};
ghost use Rattle.mlb_reader.specs.Path.{clean, path_from};
ghost use Rattle.mlb_reader.specs.Project.{IsNeeded, Loads, MayRead, ProjectOf, most_reads, with_basis};
ghost use Rattle.mlb_reader.specs.Refusals.{IfLoadFault, IfNoFile, IfReadFault, IfTold};
ghost use Rattle.mlb_reader.specs.Within.{AllPlacedIn, HoldsAll};

use crate::basis::standard_fixities;
use crate::counts::{Counts, Kept, MOST_READS, keep_file};
use crate::fault::fault_at;
use crate::mlb::{Item, Mlb, read_mlb};
use crate::path::{clean, path_from};
use crate::project::{Part, Project};
use crate::refused::LoadRefused;
use crate::source::read_source;
use mlc_base::memory::NoMemory;
use mlc_faults::code::Code;
use mlc_faults::fault::Fault;
use mlc_faults::files::Files;
use mlc_faults::refused::Refused;
use mlc_names::names::Names;
use mlc_outside::store::{Read, Store};
use sml_tree::fixity::Fixities;
use std::alloc::Global;

/// What holds throughout: the path of the ML Basis file, cleaned, and the fixities of the standard basis.
#[derive(Drop)]
struct Setting {
    path: String,
    fixities: Fixities,
}

/// What was loaded so far, besides the files.
#[derive(Drop)]
struct Loading {
    fixities: Fixities,
    parts: Vec<Part>,
    counts: Counts,
}

/// The path as a text of its own.
fn copied(alloc: Global, path: &str) -> Result<String, NoMemory>
    ensures { IfOk result (λ copy. string_bytes copy ≡ path.now) }
{
    Ok(String::from_str(alloc, path)?)
}

/// Reads a file that is needed.
fn read_file<S: Store>(alloc: Global, path: &str, store: &mut S) -> Result<Vec<u8>, LoadRefused>
    ensures files_same { S.files store.new ≡ S.files store.old }
    ensures writes_same { S.write_faults store.new ≡ S.write_faults store.old }
    ensures reads_kept { S.read_faults store.old ≤ S.read_faults store.new }
    ensures read { IfOk result (λ bytes. HasFile (S.files store.old) path.now (Some bytes.items)) }
    ensures no_fault { IfLoadFault result (λ _. ⊥) }
    ensures missing { IfNoFile result (λ missing. (string_bytes missing ≡ path.now) × HasFile (S.files store.old) path.now None) }
    ensures read_fault { IfReadFault result (λ failed. (string_bytes failed ≡ path.now) × Rose (S.read_faults store.old) (S.read_faults store.new)) }
{
    match store.read(alloc, path) {
        Read::Bytes(bytes) => Ok(bytes),
        Read::Missing => match copied(alloc, path) {
            Ok(path) => Err(LoadRefused::NoFile(path)),
            Err(NoMemory) => Err(LoadRefused::Memory),
        },
        Read::Failed => match copied(alloc, path) {
            Ok(path) => Err(LoadRefused::ReadFault(path)),
            Err(NoMemory) => Err(LoadRefused::Memory),
        },
        Read::Memory => Err(LoadRefused::Memory),
    }
}

/// Reads the file at a path, which stands at this byte of the ML Basis file, and gives its number.
fn fetch<S: Store>(
    alloc: Global,
    path: &str,
    byte: u32,
    files: &mut Files,
    store: &mut S,
    counts: &mut Counts,
) -> Result<u32, LoadRefused>
    requires count { IsCount counts.old files.old }
    requires room { length files.old < most_reads }
    ensures files_same { S.files store.new ≡ S.files store.old }
    ensures writes_same { S.write_faults store.new ≡ S.write_faults store.old }
    ensures reads_kept { S.read_faults store.old ≤ S.read_faults store.new }
    ensures fetched { IfOk result (λ number. IsFetched (S.files store.old) path.now number counts.new files.old files.new) }
    ensures too_large { IfLoadFault result (λ fault. IsTooLarge (S.files store.old) path.now byte fault files.old files.new) }
    ensures missing { IfNoFile result (λ missing. (string_bytes missing ≡ path.now) × HasFile (S.files store.old) path.now None) }
    ensures read_fault { IfReadFault result (λ failed. (string_bytes failed ≡ path.now) × Rose (S.read_faults store.old) (S.read_faults store.new)) }
{
    match read_file(alloc, path, store) {
        Err(refused) => Err(refused),
        Ok(bytes) => match keep_file(alloc, files, counts, path, bytes) {
            Err(NoMemory) => Err(LoadRefused::Memory),
            Ok(Kept::TooLarge) => Err(LoadRefused::Fault(fault_at(Code::FilesTooLarge, 0, byte))),
            Ok(Kept::Fits(number)) => Ok(number),
        },
    }
}

/// Reads the ML Basis file at a path.
fn load_mlb<S: Store>(
    alloc: Global,
    path: &str,
    files: &mut Files,
    store: &mut S,
    counts: &mut Counts,
) -> Result<Mlb, LoadRefused>
    requires none { files.old ≡ [] }
    requires count { IsCount counts.old files.old }
    ensures files_same { S.files store.new ≡ S.files store.old }
    ensures writes_same { S.write_faults store.new ≡ S.write_faults store.old }
    ensures reads_kept { S.read_faults store.old ≤ S.read_faults store.new }
    ensures begun { IfOk result (λ mlb. IsBegun (S.files store.old) path.now (items_of mlb) files.new) }
    ensures count { IfOk result (λ _. IsCount counts.new files.new) }
    ensures broken { IfLoadFault result (λ fault. BreaksFirst (S.files store.old) path.now fault files.new) }
    ensures fault_lies { IfLoadFault result (λ fault. LiesIn fault.place files.new) }
    ensures fault_unnamed { IfLoadFault result (λ fault. fault.name ≡ None) }
    ensures missing { IfNoFile result (λ missing. (string_bytes missing ≡ path.now) × HasFile (S.files store.old) path.now None) }
    ensures read_fault { IfReadFault result (λ failed. (string_bytes failed ≡ path.now) × Rose (S.read_faults store.old) (S.read_faults store.new)) }
{
    match fetch(alloc, path, 0, files, store, counts) {
        Err(refused) => Err(refused),
        Ok(number) => match read_mlb(alloc, number, files.bytes(number)) {
            Err(Refused::Memory) => Err(LoadRefused::Memory),
            Err(Refused::Fault(fault)) => Err(LoadRefused::Fault(fault)),
            Ok(mlb) => Ok(mlb),
        },
    }
}

/// Puts the standard basis in force.
fn load_basis(fixities: &Fixities, loading: &mut Loading) -> Result<(), NoMemory>
    requires { fixities.now ≡ standard_fixities }
    ensures loaded { OnOk result ((names : List (List ℕ)) (reads : List File)
        → loaded_of names loading.new reads ≡ with_basis (loaded_of names loading.old reads)) }
    ensures counts { loading.new.counts ≡ loading.old.counts }
{
    loading.fixities.add_newest(fixities, 0)?;
    loading.parts.push(Part::StandardBasis)?;
    Ok(())
}

/// Whether this is the path of the standard basis.
fn is_basis(word: &[u8]) -> bool
    ensures { IsTrue result ↔ (word.now ≡ basis_path) }
{
    word == b"$(SML_LIB)/basis/basis.mlb".as_slice()
}

/// Whether a path has a variable.
fn has_variable(word: &[u8]) -> bool
    ensures { result ≡ has_variable word.now }
{
    word.contains(&b'$')
}

/// Whether a path has the extension of a source.
fn is_source(word: &[u8]) -> bool
    ensures { result ≡ is_source word.now }
{
    word.ends_with(b".sml")
        || word.ends_with(b".sig")
        || word.ends_with(b".fun")
        || word.ends_with(b".ML")
}

/// Why a path isn't read that isn't that of the standard basis, after so many reads.
fn path_fault(item: &Item, reads: u32) -> Option<Fault>
    ensures { result ≡ path_fault (item_of item.now) reads }
{
    if has_variable(&item.word) {
        Some(fault_at(Code::PathVariable, 0, item.byte))
    } else if !is_source(&item.word) {
        Some(fault_at(Code::Extension, 0, item.byte))
    } else if reads >= MOST_READS {
        Some(fault_at(Code::TooManyFiles, 0, item.byte))
    } else {
        None
    }
}

/// Loads the source that an item names.
fn load_source<S: Store>(
    alloc: Global,
    setting: &Setting,
    item: &Item,
    names: &mut Names,
    files: &mut Files,
    store: &mut S,
    loading: &mut Loading,
) -> Result<(), LoadRefused>
    requires basis { setting.now.fixities ≡ standard_fixities }
    requires count { IsCount loading.old.counts files.old }
    requires word { All (λ b. b < 128) item.now.word.items }
    requires place { LiesIn (record { file = 0; byte = item.now.byte }) files.old }
    requires known { IsKnown (loaded_of names.old loading.old files.old) }
    requires may { MayRead (loaded_of names.old loading.old files.old) (item_of item.now) }
    ensures kept { Keeps names.old names.new }
    ensures files_same { S.files store.new ≡ S.files store.old }
    ensures writes_same { S.write_faults store.new ≡ S.write_faults store.old }
    ensures reads_kept { S.read_faults store.old ≤ S.read_faults store.new }
    ensures count { IfOk result (λ _. IsCount loading.new.counts files.new) }
    ensures grown { OnOk result (Grows files.old files.new) }
    ensures known { OnOk result (IsKnown (loaded_of names.new loading.new files.new)) }
    ensures loaded { OnOk result (IfTold (S.files store.old)
        (λ f. Loads f (string_bytes setting.now.path) (loaded_of names.old loading.old files.old) (item_of item.now ∷ [])
        (loaded_of names.new loading.new files.new))) }
    ensures broken { IfLoadFault result (λ fault. BreaksAt (S.files store.old) (string_bytes setting.now.path) (loaded_of names.old loading.old files.old)
        (item_of item.now) fault files.new) }
    ensures fault_lies { IfLoadFault result (λ fault. LiesIn fault.place files.new) }
    ensures fault_unnamed { IfLoadFault result (λ fault. fault.name ≡ None) }
    ensures missing { IfNoFile result (λ missing. MissesAt (S.files store.old) (string_bytes setting.now.path) (loaded_of names.old loading.old files.old)
        (item_of item.now) (string_bytes missing)) }
    ensures needed { IfReadFault result (λ failed. NeedsAt (S.files store.old) (string_bytes setting.now.path) (loaded_of names.old loading.old files.old)
        (item_of item.now) (string_bytes failed)) }
    ensures read_fault { IfReadFault result (λ _. Rose (S.read_faults store.old) (S.read_faults store.new)) }
{
    let path = path_from(alloc, setting.path.as_str(), item.word.as_slice())?;
    let number = fetch(
        alloc,
        path.as_str(),
        item.byte,
        files,
        store,
        &mut loading.counts,
    )?;
    let bytes = files.bytes(number);
    let part = read_source(alloc, names, number, bytes, &mut loading.fixities)?;
    loading.parts.push(part)?;
    Ok(())
}

/// Loads what an item names.
fn load_item<S: Store>(
    alloc: Global,
    setting: &Setting,
    item: &Item,
    names: &mut Names,
    files: &mut Files,
    store: &mut S,
    loading: &mut Loading,
) -> Result<(), LoadRefused>
    requires basis { setting.now.fixities ≡ standard_fixities }
    requires count { IsCount loading.old.counts files.old }
    requires word { All (λ b. b < 128) item.now.word.items }
    requires place { LiesIn (record { file = 0; byte = item.now.byte }) files.old }
    requires known { IsKnown (loaded_of names.old loading.old files.old) }
    ensures kept { Keeps names.old names.new }
    ensures files_same { S.files store.new ≡ S.files store.old }
    ensures writes_same { S.write_faults store.new ≡ S.write_faults store.old }
    ensures reads_kept { S.read_faults store.old ≤ S.read_faults store.new }
    ensures count { IfOk result (λ _. IsCount loading.new.counts files.new) }
    ensures grown { OnOk result (Grows files.old files.new) }
    ensures known { OnOk result (IsKnown (loaded_of names.new loading.new files.new)) }
    ensures loaded { OnOk result (IfTold (S.files store.old)
        (λ f. Loads f (string_bytes setting.now.path) (loaded_of names.old loading.old files.old) (item_of item.now ∷ [])
        (loaded_of names.new loading.new files.new))) }
    ensures broken { IfLoadFault result (λ fault. BreaksAt (S.files store.old) (string_bytes setting.now.path) (loaded_of names.old loading.old files.old)
        (item_of item.now) fault files.new) }
    ensures fault_lies { IfLoadFault result (λ fault. LiesIn fault.place files.new) }
    ensures fault_unnamed { IfLoadFault result (λ fault. fault.name ≡ None) }
    ensures missing { IfNoFile result (λ missing. MissesAt (S.files store.old) (string_bytes setting.now.path) (loaded_of names.old loading.old files.old)
        (item_of item.now) (string_bytes missing)) }
    ensures needed { IfReadFault result (λ failed. NeedsAt (S.files store.old) (string_bytes setting.now.path) (loaded_of names.old loading.old files.old)
        (item_of item.now) (string_bytes failed)) }
    ensures read_fault { IfReadFault result (λ _. Rose (S.read_faults store.old) (S.read_faults store.new)) }
{
    if is_basis(item.word.as_slice()) {
        return match load_basis(&setting.fixities, loading) {
            Ok(()) => Ok(()),
            Err(NoMemory) => Err(LoadRefused::Memory),
        };
    }
    match path_fault(item, loading.counts.reads) {
        Some(fault) => Err(LoadRefused::Fault(fault)),
        None => load_source(alloc, setting, item, names, files, store, loading),
    }
}

/// Loads the project at a path: the table of names, which has the standard words, gets those of the sources in their order.
pub fn load<S: Store>(
    alloc: Global,
    names: &mut Names,
    files: &mut Files,
    store: &mut S,
    path: &str,
) -> Result<Project, LoadRefused>
    requires files { files.old ≡ [] }
    requires names { names.old ≡ standard_words }
    ensures store_same { S.files store.new ≡ S.files store.old }
    ensures writes_same { S.write_faults store.new ≡ S.write_faults store.old }
    ensures reads_kept { S.read_faults store.old ≤ S.read_faults store.new }
    ensures kept { Keeps names.old names.new }
    ensures project { IfOk result (λ project. IfTold (S.files store.old) (λ f. ProjectOf f path.now names.new (parts_of project) files.new)) }
    ensures count { IfOk result (λ project. project.reads ≡ length files.new) }
    ensures table { OnOk result (IsTable names.new) }
    ensures held { IfOk result (λ project. HoldsAll (length names.new) (parts_of project)) }
    ensures placed { IfOk result (λ project. AllPlacedIn (λ place. LiesIn place files.new) (parts_of project)) }
    ensures some { OnOk result (LiesIn (record { file = 0; byte = 0 }) files.new) }
    ensures broken { IfLoadFault result (λ fault. IfTold (S.files store.old) (λ f. IsBroken f path.now fault files.new)) }
    ensures fault_lies { IfLoadFault result (λ fault. LiesIn fault.place files.new) }
    ensures fault_unnamed { IfLoadFault result (λ fault. fault.name ≡ None) }
    ensures missing { IfNoFile result (λ missing. IfTold (S.files store.old) (λ f. IsMissing f path.now (string_bytes missing))) }
    ensures needed { IfReadFault result (λ failed. IfTold (S.files store.old) (λ f. IsNeeded f path.now (string_bytes failed))) }
    ensures read_fault { IfReadFault result (λ _. Rose (S.read_faults store.old) (S.read_faults store.new)) }
{
    let fixities = standard_fixities(alloc)?;
    let path = clean(alloc, path)?;
    let setting = Setting { path, fixities };
    let mut loading = Loading {
        fixities: Fixities::new(alloc),
        parts: Vec::new(alloc),
        counts: Counts { reads: 0, bytes: 0 },
    };
    let mlb = load_mlb(
        alloc,
        setting.path.as_str(),
        files,
        store,
        &mut loading.counts,
    )?;
    for item in &mlb.items {
        load_item(alloc, &setting, item, names, files, store, &mut loading)?;
    }
    Ok(Project {
        parts: loading.parts,
        reads: loading.counts.reads,
    })
}
