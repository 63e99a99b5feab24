// What is known of a program's types before its body is walked along.
ghost use Rattle.std.specs.Prelude.{◌≡◌, IfOk};
ghost use Rattle.record_order.specs.Order.{AreOrders};

use crate::orders::Orders;
use mlc_base::memory::NoMemory;
use std::alloc::Global;
use ty_table::types::Types;

/// The number of the type of exceptions, and which record types have labels that ascend.
#[derive(Drop)]
pub struct Facts {
    pub exn: usize,
    pub orders: Orders,
}

impl Facts {
    /// Looks at each type of a table once.
    pub fn find(alloc: Global, types: &Types, exn: usize) -> Result<Facts, NoMemory>
        ensures exn { IfOk result (λ facts. facts.exn ≡ exn) }
        ensures orders { IfOk result (λ facts. AreOrders types.now facts.orders) }
    {
        let orders = Orders::find(alloc, types)?;
        Ok(Facts { exn, orders })
    }
}
