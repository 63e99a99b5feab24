// Parameters of what is polymorphic.

use crate::mark::Mark;

/// A variable over which a type is generalised, and what is asked of its types.
#[derive(Clone, Copy, PartialEq, Eq, Debug)]
pub struct Quantified {
    pub variable: usize,
    pub mark: Mark,
}
