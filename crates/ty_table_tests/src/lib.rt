// Tests of the table of types.
#![tactic(auto)]

#[cfg(test)]
mod facts;
#[cfg(test)]
mod tests;
