//! First-in-first-out queues of items, one for each ordered pair of roles.
#![tactic(auto)]

mod queue;
pub mod queued;
pub mod queues;
