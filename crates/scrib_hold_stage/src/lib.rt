//! The stage that holds the events of a script back, each conversation's until they may have happened.
#![tactic(auto)]

pub mod closings;
mod conversation;
mod conversations;
mod deadlines;
pub mod law;
pub mod noted;
pub mod stage;
