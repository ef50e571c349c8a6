//! The monitor on one thread: steps and their replies.
#![tactic(auto)]

pub mod conversation_steps;
pub mod ended;
pub mod format;
pub mod law;
pub mod monitor;
pub mod places;
pub mod reply;
pub mod step;
mod verdicts;
