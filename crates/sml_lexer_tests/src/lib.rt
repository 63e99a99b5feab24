// Tests of the tokens of texts.
#![tactic(auto)]

#[cfg(test)]
mod shown;
#[cfg(test)]
mod tests;
