// The rules of modules, as definitions: syntactic restrictions so far.
#![tactic(auto)]
