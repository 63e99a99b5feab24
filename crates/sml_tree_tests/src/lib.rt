// Tests of `sml_tree`.
#![tactic(auto)]

#[cfg(test)]
mod derived_forms;
#[cfg(test)]
mod fixities;
