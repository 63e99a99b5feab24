// Tests of the parser of programs with modules.
#![tactic(auto)]

#[cfg(test)]
mod large;
#[cfg(test)]
mod reading;
#[cfg(test)]
mod tests;
