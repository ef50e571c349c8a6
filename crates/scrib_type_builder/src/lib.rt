//! Builds the types of statements from the last to the first, and checks the rules on them. The bodies of recursions
//! are guarded, and the blocks of a choice form one communication.
#![tactic(auto)]

pub mod build_error;
pub mod built_type;
pub mod choice_branches;
pub mod operators;
pub mod renamed;
mod shift;
