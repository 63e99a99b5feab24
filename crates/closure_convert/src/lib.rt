// Closures: what functions capture, and of which pieces their closures are made. Definitions, and laws of them.
#![tactic(auto)]

pub use flow_sets;

pub mod law;
