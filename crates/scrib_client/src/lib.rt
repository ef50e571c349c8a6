//! A connection to a service: its passes, one for each conversation that it uses, the steps that it makes by them, and
//! the service's replies.
#![tactic(auto)]

mod pass_hints;
pub mod passes;
pub mod service_reply;
pub mod steps;
