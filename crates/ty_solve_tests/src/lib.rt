// Tests of making types equal that are numbers of a table.
#![tactic(auto)]

#[cfg(test)]
mod large;
#[cfg(test)]
mod pairs;
#[cfg(test)]
mod read;
#[cfg(test)]
mod rows;
