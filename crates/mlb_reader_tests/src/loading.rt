// What loading a project gives, as text.

use mlb_reader::load::load;
use mlb_reader::project::{Part, Project};
use mlb_reader::refused::LoadRefused;
use mlc_base::memory::NoMemory;
use mlc_faults::fault::fault_line;
use mlc_faults::files::Files;
use mlc_names::names::Names;
use mlc_outside::mem_store::MemStore;
use std::alloc::Global;
use std::collections::BTreeMap;

type Table = BTreeMap<String, Vec<u8>>;

// The sources that the rows name, and a file that names a large one.
const FILES: [(&str, &str); 14] = [
    ("one.sml", "val x = 1"),
    ("two.sig", "val y = x val z = y"),
    ("none.fun", ""),
    ("dir/in.ML", "val w = 1"),
    ("infix.sml", "infix 5 ++"),
    ("plus.sml", "val + = 1"),
    ("plusplus.sml", "val ++ = 1"),
    ("token.sml", "val x =\n  1."),
    ("tree.sml", "val val"),
    ("large.mlb", "one.sml large.sml"),
    ("top.sml", "1 ; val x = 2 ; x ;"),
    ("cut.sml", "val x = 1 ;\n1 ; structure A = B val y = 2"),
    ("inner.sml", "structure A = struct infix 5 ++ end"),
    ("outer.sml", "local structure A = B in infix 5 ++ end"),
];

/// Puts a file into a table.
fn put(alloc: Global, table: &mut Table, path: &str, bytes: Vec<u8>) -> Result<(), NoMemory> {
    let path = path.to_string(alloc)?;
    let _ = table.insert(path, bytes)?;
    Ok(())
}

/// Puts files into a table.
fn put_texts(alloc: Global, table: &mut Table, files: &[(&str, &str)]) -> Result<(), NoMemory> {
    for (path, text) in files {
        let bytes = text.as_bytes().to_vec(alloc)?;
        put(alloc, table, path, bytes)?;
    }
    Ok(())
}

/// A store of these files and one more, of which the call with this number fails.
fn store(alloc: Global, path: &str, bytes: Vec<u8>, fails: u64) -> Result<MemStore, NoMemory> {
    let mut table = BTreeMap::new(alloc);
    put(alloc, &mut table, path, bytes)?;
    put_texts(alloc, &mut table, &FILES)?;
    let fails = [fails].to_vec(alloc)?;
    MemStore::new(alloc, table, fails)
}

/// Each part: `basis`, or how many declarations it has, and where others follow them.
fn push_part(alloc: Global, text: &mut String, part: &Part) -> Result<(), NoMemory> {
    match part {
        Part::StandardBasis => text.push_str("basis ")?,
        Part::Source(decs) => {
            let count = format!(in alloc; "{} ", decs.len())?;
            text.push_str(count.as_str())?;
        }
        Part::Cut(decs, place) => {
            let cut = format!(in alloc; "{}-{}.{} ", decs.len(), place.file, place.byte)?;
            text.push_str(cut.as_str())?;
        }
    }
    Ok(())
}

/// The parts of a project.
fn parts(alloc: Global, project: &Project) -> Result<String, NoMemory> {
    let mut text = String::new(alloc);
    for part in &project.parts {
        push_part(alloc, &mut text, part)?;
    }
    Ok(text)
}

/// A text before a path.
fn of_path(alloc: Global, text: &str, path: &str) -> Result<String, NoMemory> {
    Ok(format!(in alloc; "{text}{path}")?)
}

/// What loading the project at this path gives.
fn shown(alloc: Global, store: &mut MemStore, path: &str) -> Result<String, NoMemory> {
    let mut names = Names::new(alloc)?;
    let mut files = Files::new(alloc)?;
    match load(alloc, &mut names, &mut files, store, path) {
        Ok(project) => parts(alloc, &project),
        Err(LoadRefused::Fault(fault)) => fault_line(alloc, &fault, &files, &names),
        Err(LoadRefused::NoFile(path)) => of_path(alloc, "no file ", path.as_str()),
        Err(LoadRefused::ReadFault(path)) => of_path(alloc, "read fault ", path.as_str()),
        Err(LoadRefused::Memory) => of_path(alloc, "out of memory", ""),
    }
}

/// What loading the project at this path gives, where this file stands beside the others and the call of the store
/// with this number fails, counted from 1.
pub fn loaded(
    alloc: Global,
    file: &str,
    bytes: Vec<u8>,
    fails: u64,
    path: &str,
) -> Result<String, NoMemory> {
    let mut store = store(alloc, file, bytes, fails)?;
    shown(alloc, &mut store, path)
}

/// What loading `p.mlb` with this text gives.
pub fn of_mlb(alloc: Global, mlb: &str) -> Result<String, NoMemory> {
    loaded(alloc, "p.mlb", mlb.as_bytes().to_vec(alloc)?, 0, "p.mlb")
}
