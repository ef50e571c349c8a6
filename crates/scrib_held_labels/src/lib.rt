//! Runs scripts with labels over one monitor, with their events held back.
#![tactic(auto)]

mod held_stage;
mod labelled_sink;
pub mod run_held_labelled_script;
mod waiting_labels;
