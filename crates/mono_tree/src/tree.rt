// What is asked of a tree with simple types as a whole.
ghost use Rattle.std.specs.Prelude.{◌≡◌, ◌↔◌, ◌^◌, ◌-◌, min, IsTrue, IfOk};
ghost use Rattle.ir_plain.specs.Once.{IsOnce};
ghost use Rattle.ir_plain.specs.Weight.{weight};
ghost use Rattle.ir_mono.specs.Mono.{mono};
ghost use Rattle.mono_operations.specs.declared.tables.Tables.{Tables};
ghost use Rattle.mono_tree.specs.Programs.{body_of};

use mlc_base::memory::NoMemory;
use plain_tree::nodes::nodes as nodes_of;
use plain_tree::once::binds_once as is_once;
use plain_tree::tree::Exp;
use std::alloc::Global;

/// How many nodes of the source a tree stands for, or 2^64 - 1 where there are more.
pub fn nodes(body: &Exp) -> usize
    ensures { (t : Tables) → result ≡ min (weight (body_of t body.now)) (2 ^ 64 - 1) }
{
    nodes_of(body)
}

/// Whether each variable is bound once.
pub fn binds_once(alloc: Global, body: &Exp) -> Result<bool, NoMemory>
    ensures { (t : Tables) → IfOk result (λ once. IsTrue once ↔ IsOnce {F = mono t.types} (λ x. x) (body_of t body.now)) }
{
    let once = is_once(alloc, body)?;
    Ok(once)
}
