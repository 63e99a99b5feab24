// Tests of run_end.
#![tactic(auto)]

#[cfg(test)]
mod tests;
