// Programs of tests.
ghost use Rattle.std.specs.Prelude.{◌≡◌, ◌↔◌, ◌^◌, ◌-◌, min, IsTrue, IfOk};
ghost use Rattle.ir_plain.specs.Once.{IsOnce};
ghost use Rattle.ir_plain.specs.Weight.{weight};
ghost use Rattle.ir_poly.specs.Tests.{poly};
ghost use Rattle.ir_tests.specs.Programs.{body_of};

use ir_tables::tables::Tables;
use mlc_base::memory::NoMemory;
use plain_tree::nodes::nodes;
use plain_tree::once::binds_once;
use plain_tree::tree::Exp;
use std::alloc::Global;

/// Tests, with the tables that their numbers stand in, and the number of the type of exceptions.
#[derive(Drop)]
pub struct Program {
    pub tables: Tables,
    pub exn: usize,
    pub body: Exp,
}

impl Program {
    /// How many nodes of the source a program stands for, or 2^64 - 1 where there are more.
    pub fn nodes(&self) -> usize
        ensures { result ≡ min (weight (body_of self.now)) (2 ^ 64 - 1) }
    {
        nodes(&self.body)
    }

    /// Whether each variable is bound once.
    pub fn binds_once(&self, alloc: Global) -> Result<bool, NoMemory>
        ensures { IfOk result (λ once. IsTrue once ↔ IsOnce {F = poly} (λ x. x) (body_of self.now)) }
    {
        let once = binds_once(alloc, &self.body)?;
        Ok(once)
    }
}
