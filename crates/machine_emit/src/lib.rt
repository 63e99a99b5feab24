// The image of a program in SSA form, computed.
#![tactic(auto)]

pub use image_size;
pub use image_size::image_law;

pub mod assemble;
mod bytes;
pub mod emit;
pub mod refused;
