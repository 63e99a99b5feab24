// The conversion of functions to cells, with all that it keeps, and the pass.
#![tactic(auto)]

pub use closure_formed::closure_whole;
pub use mono_form;

pub mod convert;
pub mod exceptions;
pub mod pass;
