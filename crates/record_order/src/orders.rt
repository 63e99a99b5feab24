// Which types of a table are those of records whose labels ascend.
ghost use Rattle.std.specs.Prelude.{◌≡◌, ◌↔◌, List, IsTrue, IfOk};
ghost use Rattle.std.specs.Option.{option_map, option_and_then};
ghost use Rattle.std.specs.Map.{lookup};
ghost use Rattle.ty_core.specs.Types.{Typ};
ghost use Rattle.ty_table.specs.TypeAt.{type_at};
ghost use Rattle.ir_values.specs.Values.{same_label};
ghost use Rattle.ir_uses.specs.of_prog_check.Deciding.{row_in};
ghost use Rattle.ir_uses.specs.Fields.{HasField};
ghost use Rattle.record_order.specs.Order.{is_ordered, AreOrders};

use crate::fields::{field_of, has_order};
use ir_uses::ir_known::ask::same_type;
use mlc_base::memory::NoMemory;
use mlc_names::label::Label;
use std::alloc::Global;
use ty_table::types::Types;

/// For each type of a table, by its number, whether it is that of records whose labels ascend.
#[derive(Drop)]
pub struct Orders {
    ordered: Vec<bool>,
}

impl Orders {
    /// Looks at each type of a table once.
    pub fn find(alloc: Global, types: &Types) -> Result<Orders, NoMemory>
        ensures { IfOk result (λ orders. AreOrders types.now orders) }
    {
        let mut ordered = Vec::new(alloc);
        for i in 0..types.len() {
            ordered.push(has_order(types, i))?;
        }
        Ok(Orders { ordered })
    }

    /// Whether a type is that of records whose labels ascend.
    pub fn has(&self, t: usize) -> bool
        ensures { (ts : List Typ) → AreOrders ts self.now → result ≡ is_ordered (type_at ts t) }
    {
        if t < self.ordered.len() {
            self.ordered[t]
        } else {
            false
        }
    }

    /// The type of a field, if the type is that of records that have it.
    pub fn field(&self, types: &Types, t: usize, label: Label) -> Option<usize>
        requires { AreOrders types.now self.now }
        ensures { option_map (type_at types.now) result ≡ option_and_then (lookup (same_label label)) (row_in (type_at types.now t)) }
    {
        let ordered = self.has(t);
        field_of(types, t, ordered, label)
    }

    /// Whether a type is that of records that have this field, of this type.
    pub fn is_selected(&self, types: &Types, u: usize, label: Label, t: usize) -> bool
        requires { AreOrders types.now self.now }
        ensures { IsTrue result ↔ HasField label (type_at types.now u) (type_at types.now t) }
    {
        match self.field(types, u, label) {
            Some(found) => same_type(types, found, t),
            None => false,
        }
    }
}
