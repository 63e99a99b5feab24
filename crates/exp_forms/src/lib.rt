// Forms of expressions, rules and functions, each from its parts.
#![tactic(auto)]

pub use pat_elab;
pub use pat_elab::elab_context;
pub use use_elab;

pub mod annotated;
pub mod begun;
pub mod bind;
pub mod built;
pub mod call;
pub mod called;
pub mod chain;
pub mod choices;
pub mod clauses;
pub mod distinct;
pub mod enter;
pub mod enter_function;
pub mod fields;
pub mod finish;
pub mod finish_function;
pub mod functions_made;
pub mod joints;
pub mod leaf;
pub mod list;
pub mod made;
pub mod parts;
pub mod raising;
pub mod rules;
pub mod rules_made;
pub mod series;
pub mod steps;
