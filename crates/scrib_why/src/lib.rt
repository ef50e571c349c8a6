//! What each kind of refusal means, with an example that gives it and its cure.
#![tactic(auto)]

mod choice_kinds;
pub mod find;
pub mod kind;
mod library_kinds;
pub mod printing;
mod protocol_kinds;
mod reason_kinds;
mod step_kinds;
mod text_kinds;
