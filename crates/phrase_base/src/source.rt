// What the parser knows of the file it reads.

use mlc_names::names::Name;
use std::alloc::Global;

/// The number of the file, and the name of `*`.
#[derive(Clone, Copy, PartialEq, Eq, Debug)]
pub struct Source {
    pub file: u32,
    pub star: Name,
}
