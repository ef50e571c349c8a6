//! Lines of scripts as JSON objects: the line that each object stands for.
#![tactic(auto)]

mod body;
pub mod exchange_members;
pub mod exchange_object;
mod keys;
mod line;
mod members;
pub mod object_line;
pub mod object_options;
pub mod object_reader;
