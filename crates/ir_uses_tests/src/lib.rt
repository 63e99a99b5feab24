// Tests of what a checker asks at the leaves.
#![tactic(auto)]

#[cfg(test)]
mod constructors;
#[cfg(test)]
mod known;
#[cfg(test)]
mod primitives;
#[cfg(test)]
mod records;
#[cfg(test)]
mod tests;
#[cfg(test)]
mod uses;
