// What is still to be done before types are made.

use ty_core::ty::Head;

/// What is still to be done. A type is made where a naming is in force.
#[derive(Drop)]
pub enum Step {
    /// The type's number is found or made, and put behind the others.
    Visit(usize, usize),
    /// The last number is also that of this type.
    Keep(usize, usize),
    /// The type is made of so many of the last numbers.
    Build(usize, usize, Head, usize),
}
