// Tests of the pass to simple types: how many copies are made of small programs; programs whose expansion is too large; large ones.
#![tactic(auto)]

#[cfg(test)]
mod answer;
#[cfg(test)]
mod large;
#[cfg(test)]
mod small;
#[cfg(test)]
mod types;
