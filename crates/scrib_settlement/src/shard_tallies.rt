//! The first mismatch of a shard.

ghost use Rattle.std.specs.Prelude.{◌≡◌, ◌<◌, ◌++◌, ◌∷◌, ◌%◌, [], ℕ, IfOk, List, Some, length, slice_get};
ghost use Rattle.scrib_record.specs.Stale.{Recorded};
ghost use Rattle.scrib_locked_steps.specs.Passes.{PassHeld};
ghost use Rattle.scrib_settlement.specs.Mismatches.{IsLeast, PlaceAgreesIn, PlaceAgreesInShard, receipts_of};
ghost use Rattle.scrib_settlement.specs.Tallies.{IsTallyOf, AreTallies, placed_in};

use crate::mismatch_place::{MismatchPlace, earlier};
use crate::tally::Tally;
use scrib_locked_steps::pass::Pass;
use scrib_locked_steps::shard::Shard;
use std::alloc::{AllocError, Global};

/// Returns the first mismatch of the conversations of shard number `at`, of `count` shards.
///
/// # Errors
/// `AllocError` if memory was refused.
pub fn first_in_shard(
    alloc: Global,
    shard: &Shard,
    count: usize,
    at: usize,
    passes: &[Pass],
) -> Result<Option<MismatchPlace>, AllocError>
    requires { 0 < count }
    ensures { IfOk result (IsLeast (PlaceAgreesInShard count at shard.now.records passes.now)) }
{
    let mut tallies = new_tallies(alloc, shard)?;
    count_passes(tallies.as_mut_slice(), shard, count, at, passes);
    Ok(least_of(shard, count, at, tallies.as_slice()))
}

// Returns a tally without receipts for each conversation.
fn new_tallies(alloc: Global, shard: &Shard) -> Result<Vec<Tally>, AllocError>
    ensures size { IfOk result (λ ts. length ts.items ≡ length shard.now.records) }
    ensures fresh { IfOk result (λ ts. (count at : ℕ) → AreTallies count at shard.now.records [] ts.items) }
{
    let mut tallies = Vec::with_capacity(alloc, shard.len())?;
    for index in 0..shard.len() {
        let (_, record) = shard.at(index);
        tallies.push(Tally::new(alloc, record.log())?)?;
    }
    Ok(tallies)
}

// Counts the receipts of those passes that belong to the shard.
fn count_passes(tallies: &mut [Tally], shard: &Shard, count: usize, at: usize, passes: &[Pass])
    requires some { 0 < count }
    requires size { length tallies.old ≡ length shard.now.records }
    ensures size { length tallies.new ≡ length tallies.old }
    ensures counted { AreTallies count at shard.now.records [] tallies.old
        → AreTallies count at shard.now.records passes.now tallies.new }
{
    for pass in passes {
        count_pass(tallies, shard, count, at, pass);
    }
}

// Counts the receipts of a pass, if it belongs to the shard.
fn count_pass(tallies: &mut [Tally], shard: &Shard, count: usize, at: usize, pass: &Pass)
    requires some { 0 < count }
    requires size { length tallies.old ≡ length shard.now.records }
    ensures size { length tallies.new ≡ length tallies.old }
    ensures counted { (passes : List PassHeld) → AreTallies count at shard.now.records passes tallies.old
        → AreTallies count at shard.now.records (passes ++ pass.now ∷ []) tallies.new }
{
    let id = pass.conversation();
    if id as usize % count != at {
        return;
    }
    let Some(index) = shard.index_of(id) else {
        return;
    };
    let (_, record) = shard.at(index);
    tallies[index].count_all(record.log(), pass.receipts());
}

// Returns the first mismatch by the tallies.
fn least_of(shard: &Shard, count: usize, at: usize, tallies: &[Tally]) -> Option<MismatchPlace>
    requires some { 0 < count }
    requires size { length tallies.now ≡ length shard.now.records }
    ensures { (passes : List PassHeld) → AreTallies count at shard.now.records passes tallies.now
        → IsLeast (PlaceAgreesInShard count at shard.now.records passes) result }
{
    let mut least = None;
    for (index, tally) in tallies.iter().enumerate() {
        least = earlier(least, first_of(shard, count, at, index, tally));
    }
    least
}

// Returns the first mismatch of the conversation at an index: place 1 if it belongs to another shard, else the tally's.
fn first_of(
    shard: &Shard,
    count: usize,
    at: usize,
    index: usize,
    tally: &Tally,
) -> Option<MismatchPlace>
    requires some { 0 < count }
    requires within { index < length shard.now.records }
    ensures { (passes : List PassHeld) (id : ℕ) (r : Recorded) → slice_get shard.now.records index ≡ Some (id, r)
        → (id % count ≡ at → IsTallyOf r.log (receipts_of id passes) tally.now.due.items tally.now.wrong)
        → IsLeast (λ i place. i ≡ id → PlaceAgreesIn count at passes id place r) result }
{
    let (id, _) = shard.at(index);
    let place = if id as usize % count == at {
        tally.first()
    } else {
        Some(1)
    };
    placed_in(id, place)
}

// Attaches the conversation to a place, if there is one.
fn placed_in(conversation: u32, place: Option<usize>) -> Option<MismatchPlace>
    ensures { result ≡ placed_in conversation place }
{
    match place {
        Some(place) => Some(MismatchPlace {
            conversation,
            place,
        }),
        None => None,
    }
}
