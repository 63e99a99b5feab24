// Parts of patterns, as far as they were elaborated.

use label_rows::sort::Field;
use prog_tree::tree::{Head, Pair, Pat, PatField, PatPart};

/// Fields of a pattern, and their labels with the types of what they are matched with.
#[derive(Drop)]
pub struct Fields {
    pub pats: Vec<PatField>,
    pub row: Vec<Field>,
}

/// What joins two patterns: the constructor, the types of the pair as they are written, and the type of the whole.
#[derive(Clone, Copy)]
pub struct Joined {
    pub head: Head,
    pub pair: Pair,
    pub ty: usize,
}

/// What joins the elements of a list, their type, and that of the list.
#[derive(Clone, Copy)]
pub struct Listed {
    pub head: Head,
    pub pair: Pair,
    pub element: usize,
    pub ty: usize,
}

/// Operands of a chain whose operators associate to the left, and the type of all that is joined.
#[derive(Drop)]
pub struct LeftChain {
    pub first: Pat,
    pub parts: Vec<PatPart>,
    pub ty: usize,
}

/// Operands of a chain whose operators associate to the right: the type of the last one, that which is wanted in its place, and that of the whole.
#[derive(Drop)]
pub struct RightChain {
    pub first: Pat,
    pub parts: Vec<PatPart>,
    pub last: usize,
    pub hole: usize,
    pub whole: usize,
}
