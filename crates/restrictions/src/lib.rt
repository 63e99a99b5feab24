// Which phrases of a declaration break a syntactic restriction.
#![tactic(auto)]

pub mod binds;
pub mod datas;
pub mod exps;
pub mod first;
pub mod fns;
pub mod keys;
pub mod occurring;
pub mod once;
pub mod pats;
pub mod scope;
pub mod tys;
pub mod walk;
pub mod written;
