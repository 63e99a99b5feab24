// Paths.

ghost use Rattle.std.specs.Prelude.{◌≡◌, ◌++◌, ◌<◌, IfOk, OnOk, map, reverse};
ghost use Rattle.std.specs.List.{All};
ghost use Rattle.std.specs.String.{string_bytes};
ghost use Rattle.mlb_reader.specs.Path.{is_name, next_segment, joined, clean, folder_of, begins_with_slash, path_from};
ghost use Rattle.mlb_reader.specs.Segments.{texts_of, ends_in_name};

use mlc_base::memory::NoMemory;
use std::alloc::Global;

/// Whether a segment is a folder's name: neither empty nor `.` nor `..`.
fn is_name(segment: &str) -> bool
    ensures { result ≡ is_name segment.now }
{
    !segment.is_empty() && segment != "." && segment != ".."
}

/// Whether the last segment is a folder's name.
fn ends_in_name(kept: &[&str]) -> bool
    ensures { result ≡ ends_in_name (texts_of kept.now) }
{
    match kept.last() {
        None => false,
        Some(last) => is_name(last),
    }
}

/// Takes one more segment of a path: `.` is dropped, and `..` with the name before it.
fn keep<'a>(kept: &mut Vec<&'a str>, segment: &'a str) -> Result<(), NoMemory>
    ensures { OnOk result (reverse (texts_of kept.new.items) ≡ next_segment (reverse (texts_of kept.old.items)) segment.now) }
{
    if segment == "." {
        return Ok(());
    }
    if segment == ".." && ends_in_name(kept.as_slice()) {
        let _ = kept.pop();
        return Ok(());
    }
    kept.push(segment)?;
    Ok(())
}

/// The path of these segments.
fn join(alloc: Global, segments: &[&str]) -> Result<String, NoMemory>
    ensures { IfOk result (λ path. string_bytes path ≡ joined (texts_of segments.now)) }
{
    let mut path = String::new(alloc);
    for (index, segment) in segments.iter().enumerate() {
        if index > 0 {
            path.push_str("/")?;
        }
        path.push_str(segment)?;
    }
    Ok(path)
}

/// The path without `.`, and without `..` behind a name: paths that give the same one name one file.
pub fn clean(alloc: Global, path: &str) -> Result<String, NoMemory>
    ensures { IfOk result (λ cleaned. string_bytes cleaned ≡ clean path.now) }
{
    let mut kept = Vec::new(alloc);
    for segment in path.split('/') {
        keep(&mut kept, segment)?;
    }
    join(alloc, kept.as_slice())
}

/// Whether a path begins with `/`.
fn begins_with_slash(word: &[u8]) -> bool
    ensures { result ≡ begins_with_slash word.now }
{
    match word {
        [] => false,
        [first, ..] => *first == b'/',
    }
}

/// Puts the folder of a path at the end: the path up to its last `/`.
fn push_folder(text: &mut String, path: &str) -> Result<(), NoMemory>
    ensures { OnOk result (string_bytes text.new ≡ string_bytes text.old ++ folder_of path.now) }
{
    match path.rsplit_once('/') {
        None => Ok(()),
        Some((folder, _)) => {
            text.push_str(folder)?;
            text.push_str("/")?;
            Ok(())
        }
    }
}

/// Puts ASCII text at the end.
fn push_ascii(text: &mut String, word: &[u8]) -> Result<(), NoMemory>
    requires { All (λ b. b < 128) word.now }
    ensures { OnOk result (string_bytes text.new ≡ string_bytes text.old ++ word.now) }
{
    for byte in word {
        text.push(char::from(*byte))?;
    }
    Ok(())
}

/// The path that a word in the file at this path names.
pub fn path_from(alloc: Global, mlb: &str, word: &[u8]) -> Result<String, NoMemory>
    requires { All (λ b. b < 128) word.now }
    ensures { IfOk result (λ named. string_bytes named ≡ path_from mlb.now word.now) }
{
    let mut named = String::new(alloc);
    if !begins_with_slash(word) {
        push_folder(&mut named, mlb)?;
    }
    push_ascii(&mut named, word)?;
    clean(alloc, named.as_str())
}
