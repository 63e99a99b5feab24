// The arguments of constructors.

/// The type of a constructor's argument, by its number, with the place of the constructor's datatype among those that are declared together.
#[derive(Clone, Copy)]
pub struct Argument {
    pub datatype: usize,
    pub ty: usize,
}
