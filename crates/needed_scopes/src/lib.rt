// Scopes of variables, and the lists of types at which what is bound there is needed.
#![tactic(auto)]

pub mod scopes;
