// Tests of the parser.
#![tactic(auto)]

#[cfg(test)]
mod large;
#[cfg(test)]
mod places;
#[cfg(test)]
mod reading;
#[cfg(test)]
mod tests;
