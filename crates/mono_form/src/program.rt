// Programs of simple types.
ghost use Rattle.std.specs.Prelude.{◌≡◌, ◌↔◌, ◌^◌, ◌-◌, min, IsTrue, IfOk};
ghost use Rattle.ir_plain.specs.Once.{IsOnce};
ghost use Rattle.ir_plain.specs.Weight.{weight};
ghost use Rattle.ir_mono.specs.Mono.{mono};
ghost use Rattle.mono_form.specs.Programs.{body_of};

use mlc_base::memory::NoMemory;
use mono_check::mono_operations::tables::Tables;
use mono_tree::tree::{binds_once, nodes};
use plain_tree::tree::Exp;
use std::alloc::Global;

/// A tree with the tables that its numbers stand in, and how many nodes it has, written out.
#[derive(Drop)]
pub struct Program {
    pub tables: Tables,
    pub expansion: usize,
    pub body: Exp,
}

impl Program {
    /// How many nodes of the source its tree stands for, or 2^64 - 1 where there are more.
    pub fn nodes(&self) -> usize
        ensures { result ≡ min (weight (body_of self.now)) (2 ^ 64 - 1) }
    {
        nodes(&self.body)
    }

    /// Whether each variable is bound once.
    pub fn binds_once(&self, alloc: Global) -> Result<bool, NoMemory>
        ensures { IfOk result (λ once. IsTrue once ↔ IsOnce {F = mono self.now.tables.types} (λ x. x) (body_of self.now)) }
    {
        let once = binds_once(alloc, &self.body)?;
        Ok(once)
    }
}
