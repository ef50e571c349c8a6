//! Runs a script over one monitor, and closes each conversation once it is complete.
#![tactic(auto)]

mod closing;
mod closing_monitor;
mod closing_run;
pub mod completion;
pub mod run_closing_script;
