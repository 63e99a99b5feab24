// The image of a program with the code of all primitives, and that it does what the program does. Definitions, and laws of them.
#![tactic(auto)]

pub mod law;
