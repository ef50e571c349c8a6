//! The commands and options of the command line, and their help.
#![tactic(auto)]

pub mod arguments;
mod help;
