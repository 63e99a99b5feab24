// Where the labels of a body stand.
#![tactic(auto)]
