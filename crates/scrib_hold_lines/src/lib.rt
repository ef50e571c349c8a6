//! Writes the script of what a script lets out with its events held back.
#![tactic(auto)]

mod close_line;
mod event_line;
mod held_lines;
pub mod hold_script;
mod line_reader;
mod line_run;
mod open_text;
mod output;
mod staging;
