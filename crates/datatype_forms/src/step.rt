// What is still to be done before a type has its number.

/// What is still to be done.
#[derive(Clone, Copy)]
pub enum Step {
    /// The type gets its number, if it has none.
    Visit(usize),
    /// The type is made of its parts, which have theirs.
    Build(usize),
}
