// Declarations that bring into scope what is there already: `open` and datatype replication.
#![tactic(auto)]

pub use dec_forms;
pub use dec_forms::exp_forms;

pub mod members;
pub mod replicate;
pub mod structures;
