// What is still to be done before an image is made.

/// What is still to be done.
#[derive(Clone, Copy)]
pub enum Step {
    /// The image of the type is made, if there is none.
    Visit(usize),
    /// The image is made of the images of the type's parts.
    Build(usize),
    /// The first type's image is the second one's.
    Same(usize, usize),
}
