//! Runs scripts over one monitor, and writes findings in place of replies.
#![tactic(auto)]

mod conversation_offence;
mod counted_core;
mod kept;
mod outcome;
mod reporter;
mod reporting_monitor;
pub mod run_reported_script;
mod same_offence;
mod step_head;
