//! Parts of lists of steps, and the law of partition.
#![tactic(auto)]

pub mod law;
pub mod part;
