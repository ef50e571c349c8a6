//! Writes the lines of a script with labels anew, in the order in which they are let out with its events held back.
#![tactic(auto)]

pub mod hold_labelled_script;
mod line_sink;
mod line_stage;
mod line_texts;
mod waiting_lines;
