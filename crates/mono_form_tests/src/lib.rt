// Tests of whether programs of simple types are well formed.
#![tactic(auto)]

#[cfg(test)]
mod tests;
