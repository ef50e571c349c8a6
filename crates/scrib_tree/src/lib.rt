//! Module trees: what a module text declares.
#![tactic(auto)]

pub mod tree;
