// Labels of records.

ghost use Rattle.std.specs.Prelude.{◌≡◌};
ghost use Rattle.mlc_names.specs.Labels.{label_cmp, IsHeld};

use crate::names::{Name, Names};
use std::cmp::Ordering;

/// A field's label: a number from 1 on, or an identifier.
#[derive(Clone, Copy, PartialEq, Eq, Debug)]
pub enum Label {
    Number(u32),
    Word(Name),
}

impl Label {
    /// The order of labels: numbers by value, then words by their bytes.
    pub fn compare(self, other: Label, names: &Names) -> Ordering
        requires left { IsHeld names.now self }
        requires right { IsHeld names.now other }
        ensures { result ≡ label_cmp names.now self other }
    {
        match self {
            Label::Number(left) => match other {
                Label::Number(right) => left.cmp(&right),
                Label::Word(_) => Ordering::Less,
            },
            Label::Word(left) => match other {
                Label::Number(_) => Ordering::Greater,
                Label::Word(right) => names.text(left).cmp(names.text(right)),
            },
        }
    }
}
