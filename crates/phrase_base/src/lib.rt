// What readers of phrases share: what they give, and what tokens begin with.
#![tactic(auto)]

pub mod got;
pub mod source;
pub mod stop;
pub mod tokens;
pub mod types;
