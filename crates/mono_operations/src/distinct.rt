// Whether labels are distinct.
ghost use Rattle.std.specs.Prelude.{◌≡◌, ◌↔◌, ◌≤◌, ◌++◌, ℕ, map, IsTrue, IfOk};
ghost use Rattle.plain_tree.specs.Sums.{count_of};
ghost use Rattle.mono_uses.specs.of_mono_fits.Asked.{are_distinct};
ghost use Rattle.mono_operations.specs.Keys.{label_key};

use indexmap::IndexSet;
use mlc_base::memory::NoMemory;
use mlc_names::label::Label;
use std::alloc::Global;

/// The number of a label.
fn label_key(label: &Label) -> usize
    ensures { result ≡ label_key label.now }
{
    match *label {
        Label::Number(number) => number as usize + number as usize,
        Label::Word(name) => name.number() as usize + name.number() as usize + 1,
    }
}

fn push_keys(labels: &[Label], keys: &mut Vec<usize>) -> Result<(), NoMemory>
    ensures { IfOk result (λ _. keys.new.items ≡ keys.old.items ++ map label_key labels.now) }
{
    for i in 0..labels.len() {
        let key = label_key(&labels[i]);
        keys.push(key)?;
    }
    Ok(())
}

/// Whether each number is there once at most.
fn are_once(alloc: Global, numbers: &[usize]) -> Result<bool, NoMemory>
    ensures { IfOk result (λ once. IsTrue once ↔ ((k : ℕ) → count_of k numbers.now ≤ 1)) }
{
    let mut seen: IndexSet<usize> = IndexSet::new(alloc);
    for i in 0..numbers.len() {
        let number = numbers[i];
        let new = seen.insert(number)?;
        if !new {
            return Ok(false);
        }
    }
    Ok(true)
}

/// The numbers of labels.
fn keys_of(alloc: Global, labels: &[Label]) -> Result<Vec<usize>, NoMemory>
    ensures { IfOk result (λ keys. keys.items ≡ map label_key labels.now) }
{
    let mut keys = Vec::new(alloc);
    push_keys(labels, &mut keys)?;
    Ok(keys)
}

/// Whether no two labels are one.
pub fn are_distinct(alloc: Global, labels: &[Label]) -> Result<bool, NoMemory>
    ensures { IfOk result (λ yes. yes ≡ are_distinct labels.now) }
{
    let keys = keys_of(alloc, labels)?;
    let once = are_once(alloc, keys.as_slice())?;
    Ok(once)
}
