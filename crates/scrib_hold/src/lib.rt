//! Runs a script over one monitor with its events held back, each conversation's until they may have happened.
#![tactic(auto)]

pub mod held_monitor;
mod held_run;
pub mod hold_limits;
pub mod item_sink;
pub mod opening;
mod replies;
pub mod run_held_script;
mod staged;
mod taking;
