//! Counts what a script comes to: its conversations, events and refusals, and how its conversations are judged.
#![tactic(auto)]

pub mod open_verdicts;
pub mod summary;
pub mod verdict_counts;
