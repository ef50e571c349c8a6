//! Runs scripts over one monitor, and the commands of the program.
#![tactic(auto)]

pub mod check;
pub mod commands;
pub mod explain_script;
pub mod explanation;
mod form;
mod full_name;
pub mod gathered;
pub mod id;
pub mod item_output;
mod modules;
pub mod next_lines;
pub mod next_script;
pub mod output_mode;
pub mod printing;
mod projection;
pub mod reading;
pub mod role_query;
mod run;
pub mod run_script;
