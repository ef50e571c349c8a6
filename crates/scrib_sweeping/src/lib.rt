//! Runs scripts with labels over a monitor that sweeps before each of their lines.
#![tactic(auto)]

mod edits;
pub mod run_sweeping_script;
mod stale_list;
pub mod sweep_counts;
mod sweeping_monitor;
