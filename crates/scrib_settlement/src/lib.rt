//! The end of a service: the receipts of its passes are compared with the logs of its shards.
#![tactic(auto)]

pub mod ended;
pub mod fault;
pub mod mismatch_place;
pub mod settle;
pub mod shard_mismatches;
mod shard_tallies;
pub mod shares;
mod tally;
