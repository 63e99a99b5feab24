// The compiler's driver.
#![tactic(auto)]

pub mod checked;
pub mod driver;
pub mod elaborate;
pub mod fault;
pub mod identifier;
pub mod prelude;
