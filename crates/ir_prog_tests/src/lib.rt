// Tests of the checker of programs with source matches: well formed ones, one or more for each construct; refused ones; large ones.
#![tactic(auto)]

#[cfg(test)]
mod asked;
#[cfg(test)]
mod large;
#[cfg(test)]
mod refused;
#[cfg(test)]
mod typed;
