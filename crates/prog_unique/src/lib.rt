// No variable of a program with source matches is bound where it is bound already. A definition, and its law.
#![tactic(auto)]

pub mod law;
