// Whether the fields of records are settled, and the labels of records stand in order.
ghost use Rattle.std.specs.Prelude.{◌≡◌, ◌<◌, ℕ, true, false, List, IsTrue};
ghost use Rattle.ty_core.specs.Types.{Typ};
ghost use Rattle.ty_core.specs.TypesOf.{head_of};
ghost use Rattle.ty_table.specs.TypeAt.{AllBelow, type_at};
ghost use Rattle.ty_solve.specs.SlotsOf.{entry_of};
ghost use Rattle.ir_poly.specs.Types.{ascend};
ghost use Rattle.elab_state.specs.States.{said_in};
ghost use Rattle.elab_steps.specs.Ordered.{begins_in_order, is_ordered};
ghost use Rattle.elab_worlds.specs.Final.{IsOrdered, is_row};

use elab_state::state::State;
use label_rows::sort::stands_before;
use mlc_names::label::Label;
use ty_core::ty::Head;
use ty_solve::subst::Slot;
use ty_table::types::{Types, View};

/// Whether each label stands before the next.
fn do_ascend(labels: &[Label]) -> bool
    ensures { result ≡ ascend labels.now }
{
    for i in 1..labels.len() {
        if !stands_before(labels[i - 1], labels[i]) {
            return false;
        }
    }
    true
}

/// Whether the labels of a symbol do.
fn head_ascends(head: &Head) -> bool
    ensures { result ≡ begins_in_order (head_of head.now) }
{
    match head {
        Head::Function => true,
        Head::Record(labels) => do_ascend(labels),
        Head::Named(_) => true,
    }
}

/// Whether all numbers are below another.
fn are_below(bound: usize, numbers: &[usize]) -> bool
    ensures { IsTrue result → AllBelow bound numbers.now }
{
    for i in 0..numbers.len() {
        if numbers[i] >= bound {
            return false;
        }
    }
    true
}

/// Whether a type has the labels of records in order, where the earlier ones have.
fn is_next_ordered(types: &Types, k: usize) -> bool
    requires { (j : ℕ) → j < k → is_ordered (type_at types.now j) ≡ true }
    ensures { IsTrue result → is_ordered (type_at types.now k) ≡ true }
{
    match types.view(k) {
        View::Var(_) => true,
        View::Apply(head, parts) => head_ascends(head) && are_below(k, parts),
    }
}

/// Whether all types of a table have.
fn are_types_ordered(types: &Types) -> bool
    ensures { IsTrue result → (k : ℕ) → is_ordered (type_at types.now k) ≡ true }
{
    for k in 0..types.len() {
        if !is_next_ordered(types, k) {
            return false;
        }
    }
    true
}

/// Whether a variable stands for a record of which further fields may come to be known.
fn is_partial(slot: &Slot) -> bool
    ensures { (ts : List Typ) → result ≡ is_row (entry_of ts slot.now) }
{
    match slot {
        Slot::Partial(_) => true,
        Slot::Open(_) => false,
        Slot::Full(_) => false,
    }
}

/// Whether no variable does.
pub fn are_settled(state: &State) -> bool
    ensures settled { IsTrue result → (v : ℕ) → is_row (said_in state.now v) ≡ false }
    ensures open { result ≡ false → (v : ℕ) × (is_row (said_in state.now v) ≡ true) }
{
    let slots: &[Slot] = &state.solver.subst.slots;
    for v in 0..slots.len() {
        if is_partial(&slots[v]) {
            return false;
        }
    }
    true
}

/// Where none does, whether all types of a state have the labels of records in order.
pub fn are_ordered(state: &State) -> bool
    requires { (v : ℕ) → is_row (said_in state.now v) ≡ false }
    ensures { IsTrue result → IsOrdered state.now }
{
    are_types_ordered(&state.solver.subst.types)
}
