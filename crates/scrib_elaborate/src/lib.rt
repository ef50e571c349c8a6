//! Elaboration: from declared protocols to the global types that they mean.
#![tactic(auto)]

mod choices;
pub mod elaborate;
pub mod elaborated;
mod exits;
mod first_fault;
mod memo;
mod scope;
mod tasks;
mod typing;
