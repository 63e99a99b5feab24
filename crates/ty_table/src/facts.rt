// What is known of a type without looking through it.

use crate::variables::Few;

/// What is known of a type.
#[derive(Clone, Copy)]
pub struct Facts {
    /// The number of its nodes, written out as a tree, or 2^64 - 1 where there are more.
    pub size: u64,
    /// Whether it admits equality whatever its variables stand for.
    pub equality: bool,
    /// Whether it admits equality where all its variables do.
    pub everywhere: bool,
    /// One more than its highest variable, or 0 where it has none.
    pub top: usize,
    /// Its variables, if they are few.
    pub few: Few,
}
