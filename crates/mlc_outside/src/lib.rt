// The outside: where files lie and where output goes.
#![tactic(auto)]

pub mod file_table;
pub mod mem_sink;
pub mod mem_store;
pub mod never_store;
pub mod sink;
pub mod store;
