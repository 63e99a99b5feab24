// A program.
ghost use Rattle.std.specs.Prelude.{◌≡◌, ◌↔◌, ◌^◌, ◌-◌, min, IsTrue, IfOk};
ghost use Rattle.ir_poly.specs.ProgOnce.{IsOnce};
ghost use Rattle.ir_prog.specs.Programs.{body_in, weight_in};

use ir_tables::tables::Tables;
use mlc_base::memory::NoMemory;
use prog_binders::once::binds_once;
use prog_tree::nodes::nodes;
use prog_tree::tree::Dec;
use std::alloc::Global;

/// Declarations, with the tables that their numbers stand in, and the number of the type of exceptions.
#[derive(Drop)]
pub struct Program {
    pub tables: Tables,
    pub exn: usize,
    pub body: Vec<Dec>,
}

impl Program {
    /// How many nodes of the source a program stands for, or 2^64 - 1 where there are more.
    pub fn nodes(&self) -> u64
        ensures { result ≡ min (weight_in self.now) (2 ^ 64 - 1) }
    {
        nodes(&self.tables, &self.body)
    }

    /// Whether each variable is bound once.
    pub fn binds_once(&self, alloc: Global) -> Result<bool, NoMemory>
        ensures { IfOk result (λ once. IsTrue once ↔ IsOnce (body_in self.now)) }
    {
        let once = binds_once(alloc, &self.body)?;
        Ok(once)
    }
}
