// Tests of the checker of programs of tests: well formed ones, one for each construct; refused ones; large ones.
#![tactic(auto)]

#[cfg(test)]
mod asked;
#[cfg(test)]
mod large;
#[cfg(test)]
mod refused;
#[cfg(test)]
mod typed;
