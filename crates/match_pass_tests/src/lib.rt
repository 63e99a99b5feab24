// Tests of match compilation: small programs and long ones.
#![tactic(auto)]

#[cfg(test)]
mod large;
#[cfg(test)]
mod made;
#[cfg(test)]
mod orders;
#[cfg(test)]
mod steps;
