//! Reads scripts whose lines have tags and names of conversations, or are JSON objects, and runs them over one monitor.
#![tactic(auto)]

mod checked_core;
pub mod entry_stage;
pub mod exchange_line;
pub mod explain_labelled_script;
pub mod label_options;
mod labelled_line;
pub mod labelled_monitor;
pub mod labelled_run;
mod line_count;
pub mod line_parts;
mod line_reading;
mod monitor_sweeps;
pub mod named_monitor;
pub mod next_labelled_script;
mod object_exchange;
mod object_lines;
mod piece_run;
mod put_text;
pub mod run_labelled_script;
mod script_line;
pub mod session_key;
mod silent_run;
