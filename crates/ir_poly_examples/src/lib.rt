// What small programs with explicit instances do in so many turns, by computation. No function: see proofs/.
#![tactic(auto)]
