// Tests of the conversion of functions to cells: functions that go through data, and large programs.
#![tactic(auto)]

#[cfg(test)]
mod answer;
#[cfg(test)]
mod large;
#[cfg(test)]
mod small;
#[cfg(test)]
mod types;
