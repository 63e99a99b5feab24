// Programs with source matches, compiled and run.
#![tactic(auto)]

#[cfg(test)]
mod passes;
#[cfg(test)]
mod programs;
#[cfg(test)]
mod run;
#[cfg(test)]
mod tests;
#[cfg(test)]
mod types;
