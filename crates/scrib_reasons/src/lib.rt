//! Why an event may not follow a permitted log: seven reasons, a call that finds the reason, and the law that exactly
//! one holds.
#![tactic(auto)]

mod choice;
pub mod find;
pub mod law;
pub mod reason;
