// The constants of an image, computed.
#![tactic(auto)]

pub mod constants;
