//! The books of shards and the shares of passes.

ghost use Rattle.std.specs.Prelude.{◌≡◌, ◌<◌, ◌≤◌, ◌-◌, ◌^◌, ℕ, min, length, slice_index, MatchOption};
ghost use Rattle.scrib_settlement.specs.Shares.{shares_in, AllAddUp, IsFirstIncomplete};

use scrib_locked_steps::pass::Pass;
use scrib_locked_steps::shard::Shard;

/// The maximal number of shards.
pub const MAX_SHARDS: usize = 64;

/// Returns the least shard whose book differs from the sum of its passes' shares.
pub fn first_incomplete(shards: &[Shard], passes: &[Pass]) -> Option<usize>
    requires some { 0 < length shards.now }
    requires most { length shards.now ≤ 64 }
    ensures { MatchOption result (AllAddUp shards.now passes.now) (IsFirstIncomplete shards.now passes.now) }
{
    let shares = shares_of(shards.len(), passes);
    for (at, shard) in shards.iter().enumerate() {
        if shard.book() != shares[at] {
            return Some(at);
        }
    }
    None
}

// Returns the sum of the passes' shares for each of `count` shards. Sums saturate at a number that no book has.
fn shares_of(count: usize, passes: &[Pass]) -> [u64; MAX_SHARDS]
    requires some { 0 < count }
    requires most { count ≤ 64 }
    ensures { (k : ℕ) → k < count → slice_index result k ≡ min (shares_in count k passes.now) (2 ^ 64 - 1) }
{
    let mut shares = [0u64; MAX_SHARDS];
    for pass in passes {
        let own = pass.conversation() as usize % count;
        shares[own] = shares[own].saturating_add(pass.receipts().len() as u64);
    }
    shares
}
