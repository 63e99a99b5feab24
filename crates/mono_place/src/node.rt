// Nodes, which are placed.
ghost use Rattle.std.specs.Prelude.{◌≡◌, IfOk, OnErr};
ghost use Rattle.ty_core.specs.Types.{attribute, allowed};
ghost use Rattle.ty_core.specs.TypesOf.{head_of};
ghost use Rattle.ir_mono.specs.Types.{node};
ghost use Rattle.monomorphise.specs.Simple.{all_flagged};
ghost use Rattle.monomorphise.specs.Table.{place};

use mlc_base::memory::NoMemory;
use mono_types::types::Types;
use std::alloc::Global;
use ty_core::name::Equality;
use ty_core::ty::{Head, copy_labels, equality_of};

/// Whether all of these types are said to admit equality.
fn all_flagged(types: &Types, parts: &[usize]) -> bool
    ensures { result ≡ all_flagged types.now parts.now }
{
    for i in 0..parts.len() {
        let admits = types.admits_eq(parts[i]);
        if !admits {
            return false;
        }
    }
    true
}

/// Whether values of a head with parts can be compared.
fn is_compared(types: &Types, head: &Head, parts: &[usize]) -> bool
    ensures { result ≡ allowed (attribute (head_of head.now)) (all_flagged types.now parts.now) }
{
    match equality_of(head) {
        Equality::Always => true,
        Equality::ByArguments => all_flagged(types, parts),
        Equality::Never => false,
    }
}

/// A head in memory of its own.
fn copy_head(alloc: Global, head: &Head) -> Result<Head, NoMemory>
    ensures { IfOk result (λ copy. head_of copy ≡ head_of head.now) }
{
    match head {
        Head::Function => Ok(Head::Function),
        Head::Record(labels) => {
            let copy = copy_labels(alloc, labels)?;
            Ok(Head::Record(copy))
        }
        Head::Named(name) => Ok(Head::Named(*name)),
    }
}

/// The number of a head with parts, which is placed where it isn't there.
pub fn place_node(
    alloc: Global,
    types: &mut Types,
    head: &Head,
    parts: Vec<usize>,
) -> Result<usize, NoMemory>
    ensures ok { IfOk result (λ n. place types.old (node (head_of head.now) parts.items) ≡ (types.new, n)) }
    ensures err { OnErr result (types.new ≡ types.old) }
{
    let _once = types.len();
    let equality = is_compared(types, head, &parts);
    let copy = copy_head(alloc, head)?;
    let n = types.place(alloc, copy, parts, equality)?;
    Ok(n)
}
