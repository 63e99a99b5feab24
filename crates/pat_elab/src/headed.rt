// What stands before an argument.

use prog_tree::tree::Head;

/// What stands before an argument in a pattern, the number under which the argument's type is written, and the type of the whole.
#[derive(Clone, Copy)]
pub struct Headed {
    pub head: Head,
    pub written: usize,
    pub ty: usize,
}
