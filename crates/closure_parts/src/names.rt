// Which variables are names of exceptions, found by hash.
ghost use Rattle.std.specs.Prelude.{◌≡◌, map, IfOk};
ghost use Rattle.mono_bound.specs.Bound.{bound_of};
ghost use Rattle.closure_parts.specs.Named.{is_of_name, AreNames};

use indexmap::IndexMap;
use mlc_base::memory::NoMemory;
use mono_bound::bound::{Bound, What};
use std::alloc::Global;

fn is_of_name(what: What) -> bool
    ensures { result ≡ is_of_name what }
{
    match what {
        What::Name => true,
        What::Value(_) => false,
        What::Parameter(_) => false,
    }
}

/// Whether each variable that is bound is the name of an exception, by the first of its bindings.
pub fn find_names(alloc: Global, found: &[Bound]) -> Result<IndexMap<usize, bool>, NoMemory>
    ensures { IfOk result (λ names. AreNames names.entries (map bound_of found.now)) }
{
    let mut names = IndexMap::new(alloc);
    let mut left = found.len();
    while left > 0 {
        left -= 1;
        let bound = found[left];
        let _ = names.insert(bound.variable, is_of_name(bound.what))?;
    }
    Ok(names)
}
