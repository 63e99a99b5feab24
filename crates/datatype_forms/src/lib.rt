// Declarations of datatypes.
#![tactic(auto)]

pub use dec_forms;

pub mod attributes;
pub mod chosen;
pub mod closed;
pub mod entries;
pub mod functions;
pub mod in_use;
pub mod law;
pub mod marks;
pub mod names;
pub mod naming;
pub mod program_types;
pub mod reading;
pub mod rows;
pub mod standing;
pub mod step;
