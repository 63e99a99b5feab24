// Functions that were reserved.

use dec_forms::pat_elab::bound::BoundVariable;

/// The head of a function: its type, and its variables, the innermost first. A head may bind several, as `f as g` does, or none.
#[derive(Drop)]
pub struct Head {
    pub ty: usize,
    pub variables: Vec<BoundVariable>,
}
