// Tests of elaboration, part by part. A module's name begins with the crate that it tests.
#![tactic(auto)]

#[cfg(test)]
mod datatype_equality_tests;
#[cfg(test)]
mod elab_steps_tests;
#[cfg(test)]
mod elab_types_tests;
#[cfg(test)]
mod initial_types_tests;
#[cfg(test)]
mod vid_scope_tests;
