// What identifiers are written as.

ghost use Rattle.std.specs.Prelude.{◌≡◌, ℕ, ◌<◌, length, map, nat_eq, if◌then◌else◌, All, IfOk, OnOk};
ghost use Rattle.first_tables.specs.TablesOf.{items_of};
ghost use Rattle.machine_code.specs.Image.{text_of};
ghost use Rattle.image_law.specs.ImageOf.{text_in};

use mlc_base::memory::NoMemory;
use mlc_names::names::{Name, Names};
use std::alloc::Global;

/// Makes room for the text of this number.
fn reach(alloc: Global, texts: &mut Vec<Vec<u8>>, number: usize) -> Result<(), NoMemory>
    ensures room { OnOk result (number < length texts.new.items) }
    ensures same { OnOk result ((i : ℕ) → text_of (map items_of texts.new.items) i ≡ text_of (map items_of texts.old.items) i) }
{
    while texts.len() <= number {
        texts.push(Vec::new(alloc))?;
    }
    Ok(())
}

/// Gives an identifier its text.
fn give(alloc: Global, names: &Names, texts: &mut Vec<Vec<u8>>, name: Name) -> Result<(), NoMemory>
    requires { name < length names.now }
    ensures { OnOk result ((i : ℕ) → text_of (map items_of texts.new.items) i
        ≡ (if nat_eq i name then text_of names.now name else text_of (map items_of texts.old.items) i)) }
{
    let number = name.number() as usize;
    reach(alloc, texts, number)?;
    let text = Vec::from_slice(alloc, names.text(name))?;
    texts[number] = text;
    Ok(())
}

/// The texts of these identifiers, by their numbers; all others are empty.
pub fn texts_of(alloc: Global, names: &Names, found: &[Name]) -> Result<Vec<Vec<u8>>, NoMemory>
    requires { All (λ i. i < length names.now) found.now }
    ensures { IfOk result (λ texts. (i : ℕ) → text_of (map items_of texts.items) i ≡ text_in names.now found.now i) }
{
    let mut texts = Vec::new(alloc);
    for i in 0..found.len() {
        give(alloc, names, &mut texts, found[i])?;
    }
    Ok(texts)
}
