// Sources with declarations that break syntactic restrictions.
#![tactic(auto)]

#[cfg(test)]
mod run;
#[cfg(test)]
mod sources;
#[cfg(test)]
mod tests;
