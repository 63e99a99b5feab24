// What types begin with.
ghost use Rattle.std.specs.Prelude.{◌≡◌, IfOk, IsTrue, ◌↔◌};
ghost use Rattle.ty_core.specs.Types.{attribute};
ghost use Rattle.ty_core.specs.TypesOf.{head_of};

use crate::name::{Equality, TyName};
use mlc_base::memory::NoMemory;
use mlc_names::label::Label;
use std::alloc::Global;

/// What a type that is no variable begins with.
#[derive(Drop)]
pub enum Head {
    /// A function: its arguments are the two types beside the arrow.
    Function,
    /// A record: its arguments are the types of these labels, in this order.
    Record(Vec<Label>),
    /// A type name with its arguments.
    Named(TyName),
}

/// Whether a head's types admit equality.
pub fn equality_of(head: &Head) -> Equality
    ensures { result ≡ attribute (head_of head.now) }
{
    match head {
        Head::Function => Equality::Never,
        Head::Record(_) => Equality::ByArguments,
        Head::Named(name) => name.equality,
    }
}

/// The same labels in memory of their own.
pub fn copy_labels(alloc: Global, labels: &[Label]) -> Result<Vec<Label>, NoMemory>
    ensures { IfOk result (λ to. to.items ≡ labels.now) }
{
    Ok(Vec::from_slice(alloc, labels)?)
}

/// Whether two heads are the same.
pub fn same_head(head: &Head, other: &Head) -> bool
    ensures { IsTrue result ↔ (head_of head.now ≡ head_of other.now) }
{
    match head {
        Head::Function => matches!(other, Head::Function),
        Head::Record(labels) => match other {
            Head::Record(others) => same_labels(labels, others),
            Head::Function => false,
            Head::Named(_) => false,
        },
        Head::Named(name) => match other {
            Head::Named(another) => *name == *another,
            Head::Function => false,
            Head::Record(_) => false,
        },
    }
}

fn same_labels(labels: &[Label], others: &[Label]) -> bool
    ensures { IsTrue result ↔ (labels.now ≡ others.now) }
{
    if labels.len() != others.len() {
        return false;
    }
    for i in 0..labels.len() {
        if labels[i] != others[i] {
            return false;
        }
    }
    true
}
