//! Local types, compiled to machines: labelled transition systems with a row of edges for each state.
#![tactic(auto)]

pub mod compile;
pub mod graph;
pub mod machine;
mod sorted;
