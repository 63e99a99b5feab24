// Where labels stand in a list, found at once.
ghost use Rattle.std.specs.Prelude.{◌≡◌, ◌<◌, ◌+◌, ℕ, List, nat_eq, length, take, slice_index_or, MatchOption, IfOk};
ghost use Rattle.indexmap.specs.IndexMap.{get};
ghost use Rattle.ty_solve.specs.Rows.{Among};
ghost use Rattle.ty_solve.specs.Fields.{IsPlace};
ghost use Rattle.ty_solve.specs.Places.{label_key, AreNoted};

use indexmap::IndexMap;
use mlc_base::memory::NoMemory;
use mlc_names::label::Label;
use std::alloc::Global;

/// A number for each label.
fn key(label: Label) -> u64
    ensures { result ≡ label_key label }
{
    match label {
        Label::Number(number) => number as u64 * 2,
        Label::Word(name) => name.number() as u64 * 2 + 1,
    }
}

/// Notes the place of a label.
pub fn note(places: &mut IndexMap<u64, usize>, label: Label, at: usize) -> Result<(), NoMemory>
    ensures { IfOk result (λ _. (ls : List Label) → AreNoted ls at (get nat_eq places.old) → at < length ls → label ≡ slice_index_or ls at label
        → AreNoted ls (at + 1) (get nat_eq places.new)) }
{
    places.insert(key(label), at)?;
    Ok(())
}

/// The place of a label among those that are noted.
pub fn place(places: &IndexMap<u64, usize>, label: Label) -> Option<usize>
    ensures { (ls : List Label) (n : ℕ) → AreNoted ls n (get nat_eq places.now) → MatchOption result (Among label (take n ls) → ⊥) (IsPlace ls n label) }
{
    places.get(&key(label)).copied()
}

/// The places of labels, each the last one where a label comes twice.
pub fn all_places(alloc: Global, labels: &[Label]) -> Result<IndexMap<u64, usize>, NoMemory>
    ensures { IfOk result (λ places. AreNoted labels.now (length labels.now) (get nat_eq places)) }
{
    let mut places = IndexMap::new(alloc);
    for i in 0..labels.len() {
        note(&mut places, labels[i], i)?;
    }
    Ok(places)
}
