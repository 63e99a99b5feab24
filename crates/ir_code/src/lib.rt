// The code of the word machine: its instructions, its images, and what a run does.
#![tactic(auto)]

pub mod halt;
pub mod image;
pub mod image_law;
pub mod instr;
pub mod law;
pub mod opcode;
pub mod read;
pub mod refused;
pub mod write;
