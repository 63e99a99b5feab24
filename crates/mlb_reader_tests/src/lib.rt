// Tests of paths and of projects that are loaded.
#![tactic(auto)]

#[cfg(test)]
mod loading;
#[cfg(test)]
mod tests;
