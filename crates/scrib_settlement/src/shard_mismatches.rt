//! The comparison of each shard by itself.

ghost use Rattle.std.specs.Prelude.{◌<◌, IfOk, length};
ghost use Rattle.scrib_settlement.specs.Mismatches.{AreFound, IsFoundMismatch};

use crate::mismatch_place::MismatchPlace;
use crate::shard_tallies::first_in_shard;
use scrib_locked_steps::pass::Pass;
use scrib_locked_steps::shard::Shard;
use std::alloc::{AllocError, Global};

/// The result for one shard: its first mismatch, if any, or `AllocError`.
pub type Found = Result<Option<MismatchPlace>, AllocError>;

/// Returns the result for the shard of this number, from 0. The time is proportional to the shard's events, the
/// receipts of its conversations, and the number of passes.
///
/// # Errors
/// `AllocError` if memory was refused.
pub fn found_in(alloc: Global, shards: &[Shard], passes: &[Pass], at: usize) -> Found
    requires { at < length shards.now }
    ensures { IsFoundMismatch shards.now passes.now at result }
{
    first_in_shard(alloc, &shards[at], shards.len(), at, passes)
}

/// Returns the result for each shard, one after the other.
///
/// # Errors
/// `AllocError` if memory for the list was refused.
pub fn found_in_each(
    alloc: Global,
    shards: &[Shard],
    passes: &[Pass],
) -> Result<Vec<Found>, AllocError>
    ensures { IfOk result (λ found. AreFound shards.now passes.now found.items) }
{
    let mut found = Vec::with_capacity(alloc, shards.len())?;
    for at in 0..shards.len() {
        found.push(found_in(alloc, shards, passes, at))?;
    }
    Ok(found)
}
