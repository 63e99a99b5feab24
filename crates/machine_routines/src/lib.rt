// Routines of images: comparing two values of a type, and going to the place of a tag.
#![tactic(auto)]

pub mod law;
