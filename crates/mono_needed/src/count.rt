// How many types equality needs.
ghost use Rattle.std.specs.Prelude.{◌≡◌, [], map, length, take, IfOk};
ghost use Rattle.std.specs.Option.{option_map};
ghost use Rattle.ty_table.specs.TypeAt.{type_at, AllBelow};
ghost use Rattle.ir_tables.specs.Rows.{constructors_at};
ghost use Rattle.monomorphise.specs.Counting.{needed_within};

use crate::chains::chain_rows;
use crate::marks::put_all;
use crate::open::push_parts;
use indexmap::IndexMap;
use ir_tables::constructors::Constructors;
use mlc_base::memory::NoMemory;
use scoped_map::scoped::Scoped;
use std::alloc::Global;
use ty_table::types::Types;

/// How many types equality at these types needs, each once, if they are no more than the limit. Types of arguments are numbers of `sources`. A type
/// counts as soon as it is found to be needed, before what it needs itself is made.
pub fn count_needed(
    alloc: Global,
    sources: &Types,
    constructors: &Constructors,
    closed: &mut Types,
    roots: &[usize],
    limit: usize,
) -> Result<Option<usize>, NoMemory>
    requires { AllBelow (length closed.old) roots.now }
    ensures is { IfOk result (λ found. found
        ≡ option_map length (needed_within (constructors_at sources.now constructors.now) limit [] (map (type_at closed.old) roots.now))) }
    ensures earlier_stay { take (length closed.old) closed.new ≡ closed.old }
{
    let chains = chain_rows(alloc, constructors.rows())?;
    let mut slots = Scoped::new(alloc);
    let mut known = IndexMap::new(alloc);
    let mut found: Vec<usize> = Vec::new(alloc);
    let mut needed: Vec<usize> = Vec::new(alloc);
    let mut marks: Vec<bool> = Vec::new(alloc);
    put_all(&mut needed, &mut marks, roots)?;
    let _once = closed.len();
    let mut next: usize = 0;
    while next < needed.len() {
        let count = needed.len();
        if count > limit {
            return Ok(None);
        }
        let t = needed[next];
        found.clear();
        push_parts(
            alloc,
            sources,
            constructors,
            &chains,
            &mut slots,
            &mut known,
            closed,
            t,
            &mut found,
        )?;
        let _still_once = closed.len();
        put_all(&mut needed, &mut marks, &found)?;
        next += 1;
    }
    Ok(Some(needed.len()))
}
