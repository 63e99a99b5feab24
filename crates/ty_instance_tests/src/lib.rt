// Tests of instances, and of types under a substitution.
#![tactic(auto)]

#[cfg(test)]
mod fresh;
#[cfg(test)]
mod read;
#[cfg(test)]
mod tests;
