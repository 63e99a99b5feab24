// Projects.

use mlc_base::place::Place;
use sml_tree::tree::Dec;

/// What a path of an ML Basis file stands for.
#[derive(Drop)]
pub enum Part {
    StandardBasis,
    /// The declarations of a source.
    Source(Vec<Dec>),
    /// Those of a source with modules, up to its first declaration that isn't of the core, which stands at this place.
    Cut(Vec<Dec>, Place),
}

/// The parts of a project, in order, and how many files were read.
#[derive(Drop)]
pub struct Project {
    pub parts: Vec<Part>,
    pub reads: u32,
}
