// Parts of chains, as far as they were elaborated.

use mlc_base::place::Place;
use prog_tree::tree::{Exp, Join};
use sml_tree::ident::Vid;

/// An infix identifier and its place.
#[derive(Clone, Copy)]
pub struct Operator {
    pub place: Place,
    pub vid: Vid,
}

/// What joins two operands, and the type of the whole.
#[derive(Drop)]
pub struct Joined {
    pub join: Join,
    pub operator: Exp,
    pub ty: usize,
}

/// Operands of a chain whose operators associate to the left, and the type of all that is joined.
#[derive(Drop)]
pub struct LeftChain {
    pub first: Exp,
    pub parts: Vec<(Join, Exp, Exp)>,
    pub ty: usize,
}

/// Operands of a chain whose operators associate to the right: where the last one begins, its type, that which is wanted in its place, and that of the whole.
#[derive(Drop)]
pub struct RightChain {
    pub first: Exp,
    pub parts: Vec<(Join, Exp, Exp)>,
    pub place: Place,
    pub last: usize,
    pub hole: usize,
    pub whole: usize,
}

/// The types of elements, of lists of such, of a pair of both, and of `::`.
#[derive(Clone, Copy)]
pub struct ListTypes {
    pub element: usize,
    pub list: usize,
    pub pair: usize,
    pub function: usize,
}

/// The types of the elements of a list and of the list, and as they are written: the type of an element, that of `::`, and what joins an element and a list.
#[derive(Clone, Copy)]
pub struct Listed {
    pub element: usize,
    pub ty: usize,
    pub at: usize,
    pub operator: usize,
    pub join: Join,
}
