// Whether a type is too large, written out as a tree.
ghost use Rattle.std.specs.Prelude.{◌≡◌, ◌↔◌, ◌≤◌, ◌++◌, ℕ, nat_eq, IfOk, IsTrue, map};
ghost use Rattle.indexmap.specs.IndexMap.{get};
ghost use Rattle.ty_table.specs.of_ty_core.Types.{Typ, nodes};
ghost use Rattle.ty_table.specs.TypeAt.{type_at};
ghost use Rattle.ty_solve.specs.Said.{said};
ghost use Rattle.ty_solve.specs.Sizes.{AreSizes, Visited};
ghost use Rattle.ty_solve.specs.Substitution.{Resolves, sub};
ghost use Rattle.ty_solve.specs.SlotsOf.{seen as seen_in};
ghost use Rattle.ty_solve.specs.Solve.{node_limit};
ghost use Rattle.ty_solve.specs.declared.size.Tally.TheVariants.{Visit};

use crate::subst::Subst;
use crate::walk::{is_ground, look_in};
use indexmap::IndexMap;
use mlc_base::memory::NoMemory;
use std::alloc::Global;

/// The nodes that a type may have.
pub const NODE_LIMIT: u64 = 65_536;

/// What is still to be counted.
#[derive(Clone, Copy)]
pub enum Tally {
    /// The nodes of a type.
    Visit(usize),
    /// Nothing: all nodes of the type are counted, and so many were counted before.
    Done(usize, u64),
}

/// Asks for the nodes of types.
fn visit_all(types: &[usize], tasks: &mut Vec<Tally>) -> Result<(), NoMemory>
    ensures { IfOk result (λ _. tasks.new.items ≡ tasks.old.items ++ map Visit types.now) }
{
    for t in types {
        tasks.push(Tally::Visit(*t))?;
    }
    Ok(())
}

/// Counts those nodes of a type that can be counted at once, and asks for the others.
fn open(
    alloc: Global,
    s: &Subst,
    t: usize,
    count: u64,
    tasks: &mut Vec<Tally>,
) -> Result<u64, NoMemory>
    requires { count ≤ node_limit }
    ensures { IfOk result (λ n. Visited s.now.types (said s.now) s.now.acyclic.0 t count tasks.old.items tasks.new.items n) }
{
    let found = s.find(t);
    if is_ground(s, found) {
        return Ok(s.types.size(found));
    }
    let mut parts = Vec::new(alloc);
    look_in(s, found, &mut parts)?;
    tasks.push(Tally::Done(t, count))?;
    visit_all(&parts, tasks)?;
    Ok(1)
}

/// Counts the nodes of a type at once where its size is known.
fn visit(
    alloc: Global,
    s: &Subst,
    sizes: &IndexMap<usize, u64>,
    t: usize,
    count: u64,
    tasks: &mut Vec<Tally>,
) -> Result<u64, NoMemory>
    requires few { count ≤ node_limit }
    requires sizes { AreSizes s.now.types (said s.now) (get nat_eq sizes.now) }
    ensures { IfOk result (λ n. Visited s.now.types (said s.now) s.now.acyclic.0 t count tasks.old.items tasks.new.items n) }
{
    match sizes.get(&t) {
        Some(size) => Ok(*size),
        None => open(alloc, s, t, count, tasks),
    }
}

/// Whether the type that t stands for has at most `NODE_LIMIT` nodes. Each type is opened once.
pub fn is_small(alloc: Global, s: &Subst, t: usize) -> Result<bool, NoMemory>
    ensures { IfOk result (λ small. (f : ℕ → Typ) → Resolves f (seen_in s.now.types s.now.slots.items) → IsTrue small
        ↔ (nodes (sub f (type_at s.now.types t)) ≤ node_limit)) }
{
    let mut sizes: IndexMap<usize, u64> = IndexMap::new(alloc);
    let mut tasks = Vec::new(alloc);
    tasks.push(Tally::Visit(t))?;
    let mut count: u64 = 0;
    while let Some(task) = tasks.pop() {
        match task {
            Tally::Done(k, before) => {
                sizes.insert(k, count - before)?;
            }
            Tally::Visit(k) => {
                let more = visit(alloc, s, &sizes, k, count, &mut tasks)?;
                if more > NODE_LIMIT - count {
                    return Ok(false);
                }
                count += more;
            }
        }
    }
    Ok(true)
}
