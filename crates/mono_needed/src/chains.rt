// The constructors of each datatype, from the last to the first.
ghost use Rattle.std.specs.Prelude.{◌≡◌, nat_eq, None, get_or, IfOk};
ghost use Rattle.indexmap.specs.IndexMap.{get};
ghost use Rattle.mono_needed.specs.Gathering.{IsChained};

use indexmap::IndexMap;
use ir_tables::constructors::Constructor;
use mlc_base::memory::NoMemory;
use std::alloc::Global;

/// The last row of each datatype, by its stamp, and for each row the one of its datatype before it.
#[derive(Drop)]
pub struct Chains {
    pub last: IndexMap<u32, usize>,
    pub before: Vec<Option<usize>>,
}

/// The last row so far of a datatype.
fn last_of(last: &IndexMap<u32, usize>, stamp: u32) -> Option<usize>
    ensures { result ≡ get nat_eq last.now stamp }
{
    match last.get(&stamp) {
        Some(row) => Some(*row),
        None => None,
    }
}

/// The chains of these rows.
pub fn chain_rows(alloc: Global, rows: &[Constructor]) -> Result<Chains, NoMemory>
    ensures { IfOk result (λ chains. IsChained rows.now (get nat_eq chains.last) chains.before.items) }
{
    let mut last: IndexMap<u32, usize> = IndexMap::new(alloc);
    let mut before: Vec<Option<usize>> = Vec::new(alloc);
    for i in 0..rows.len() {
        let stamp = rows[i].datatype.stamp;
        before.push(last_of(&last, stamp))?;
        last.insert(stamp, i)?;
    }
    Ok(Chains { last, before })
}

impl Chains {
    /// The last row of a datatype.
    pub fn last(&self, stamp: u32) -> Option<usize>
        ensures { result ≡ get nat_eq self.now.last stamp }
    {
        last_of(&self.last, stamp)
    }

    /// The row of its datatype before a row.
    pub fn earlier(&self, row: usize) -> Option<usize>
        ensures { result ≡ get_or self.now.before.items row None }
    {
        if row < self.before.len() {
            self.before[row]
        } else {
            None
        }
    }
}
