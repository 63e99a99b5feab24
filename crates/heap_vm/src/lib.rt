// The word machine: it is loaded with an image, and runs it.
#![tactic(auto)]

mod act;
mod compute;
mod control;
mod heap;
pub mod law;
mod registers;
mod send;
mod slots;
pub mod stop;
mod text;
pub mod vm;
mod words;
