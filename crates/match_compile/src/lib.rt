// Source matches to tests in plain order, rule by rule: the pass as a function on trees, and what it keeps.
#![tactic(auto)]

pub mod law;
