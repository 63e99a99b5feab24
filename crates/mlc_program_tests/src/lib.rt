// Tests of the program: calls of `mlc_main` over a store and sinks in memory, and its edge.
#![tactic(auto)]

#[cfg(test)]
mod accepted;
#[cfg(test)]
mod calls;
#[cfg(test)]
mod core_rows;
#[cfg(test)]
mod edge;
#[cfg(test)]
mod large;
#[cfg(test)]
mod limits;
#[cfg(test)]
mod nesting;
#[cfg(test)]
mod refusals;
#[cfg(test)]
mod refused;
#[cfg(test)]
mod rules;
#[cfg(test)]
mod runs;
#[cfg(test)]
mod sources;
#[cfg(test)]
mod statuses;
