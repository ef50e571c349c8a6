//! The steps of a service's calls while they hold its locks: on a library, the value of one shard, and passes.
#![tactic(auto)]

pub mod batch_notes;
pub mod close_calls;
pub mod directory;
pub mod index;
pub mod locked_calls;
pub mod pass;
pub mod pass_calls;
pub mod receipt_check;
pub mod record_notes;
pub mod shard;
pub mod step_results;
pub mod sweep;
