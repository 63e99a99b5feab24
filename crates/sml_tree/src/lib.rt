// The grammar of the core language, its trees and its derived forms.
#![tactic(auto)]

pub mod derive;
pub mod fixity;
pub mod ident;
pub mod law;
pub mod tree;
mod trie;
