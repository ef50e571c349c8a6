//! Lists the protocols of a module text with their roles.
#![tactic(auto)]

pub mod list;
pub mod listed;
mod protocol_line;
mod protocol_object;
mod read;
