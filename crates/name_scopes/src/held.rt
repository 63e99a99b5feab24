// What a scope holds under a number.

use crate::bound::Bound;

/// Something that is bound, and how much was bound before it.
#[derive(Clone, Copy)]
pub struct Held {
    pub bound: Bound,
    pub before: usize,
}
