//! The service: one library, and conversations in shards, each behind a lock of its own. Many threads may call it. Each
//! call is one step of the monitor.
#![tactic(auto)]

pub mod gate;
pub mod service;
pub mod settled;
pub mod sweeping;
mod unlocked;

pub use scrib_locked_steps::{
    batch_notes, close_calls, locked_calls, pass, pass_calls, shard, step_results, sweep,
};
pub use scrib_settlement::{ended, fault, settle};
