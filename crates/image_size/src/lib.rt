// How many words an image has.
#![tactic(auto)]

pub use image_law;

pub mod law;
