// Types as the tree writes them.

/// A type name of the source has this number in the program, others have what they had in the naming before.
#[derive(Clone, Copy)]
pub struct Naming {
    pub stamp: u32,
    pub number: u32,
    pub before: Option<usize>,
}

/// A type of the solver, and the naming that was in force where it was written.
#[derive(Clone, Copy)]
pub struct Written {
    pub ty: usize,
    pub naming: Option<usize>,
}
