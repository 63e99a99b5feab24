// The trees and the grammar of programs with modules.
#![tactic(auto)]
