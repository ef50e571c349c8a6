//! Settling.

ghost use Rattle.std.specs.Prelude.{◌≡◌, ◌<◌, ◌≤◌, ℕ, Err, IfOk, IfErr, IsErrAnd, OnOk, IsSome, Some, length};
ghost use Rattle.scrib_settlement.specs.Mismatches.{AreFound, IsLeast, IsThere, PlaceAgrees, conversation_record};
ghost use Rattle.scrib_settlement.specs.Settled.{IsFault, IsSettled, Names};
ghost use Rattle.scrib_settlement.specs.declared.mismatch_place.MismatchPlace.{MismatchPlace};
ghost use Rattle.scrib_settlement.specs.Shares.{AllAddUp, AreDistinct, IsFirstIncomplete};

use crate::ended::{Ended, ended_by_id};
use crate::fault::SettleFault;
use crate::mismatch_place::{MismatchPlace, earlier};
use crate::shard_mismatches::{Found, found_in_each};
use crate::shares::first_incomplete;
use scrib_library::library::Library;
use scrib_locked_steps::pass::Pass;
use scrib_locked_steps::shard::Shard;
use std::alloc::{AllocError, Global};

/// Settles 1 to 64 shards and returns every conversation of them, by rising id. This requires that all passes are
/// given, and that every place of every log has exactly one receipt, equal to its entry. The time is linear in the
/// events and receipts, apart from sorting the list.
///
/// # Errors
/// `PassesMissing` with the least shard whose passes have more or fewer receipts than its logs have events. Else
/// `Mismatch` with the first mismatch of the least such conversation. Else `OutOfMemory`, which may also replace
/// `Mismatch`.
pub fn settle_parts(
    alloc: Global,
    library: &Library,
    shards: &[Shard],
    passes: &[Pass],
) -> Result<Vec<Ended>, SettleFault>
    requires some { 0 < length shards.now }
    requires most { length shards.now ≤ 64 }
    ensures settled { IfOk result (λ list. IsSettled library.now shards.now passes.now list.items) }
    ensures fault { IfErr result (IsFault shards.now passes.now) }
    ensures missing { (k : ℕ) → IsFirstIncomplete shards.now passes.now k → result ≡ Err (SettleFault.PassesMissing k) }
    ensures mismatch { (d : MismatchPlace) → AllAddUp shards.now passes.now
        → IsLeast (PlaceAgrees shards.now passes.now) (Some d) → IsErrAnd result (Names d) }
{
    let found = found_in_each(alloc, shards, passes);
    settle_found(alloc, library, shards, passes, found)
}

/// Settles 1 to 64 shards as `settle_parts` does, given the result for each of them, or `AllocError` if the list did
/// not fit into memory.
///
/// # Errors
/// Those of `settle_parts`.
pub fn settle_found(
    alloc: Global,
    library: &Library,
    shards: &[Shard],
    passes: &[Pass],
    found: Result<Vec<Found>, AllocError>,
) -> Result<Vec<Ended>, SettleFault>
    requires some { 0 < length shards.now }
    requires most { length shards.now ≤ 64 }
    requires found { IfOk found (λ all. AreFound shards.now passes.now all.items) }
    ensures settled { IfOk result (λ list. IsSettled library.now shards.now passes.now list.items) }
    ensures fault { IfErr result (IsFault shards.now passes.now) }
    ensures missing { (k : ℕ) → IsFirstIncomplete shards.now passes.now k → result ≡ Err (SettleFault.PassesMissing k) }
    ensures mismatch { (d : MismatchPlace) → AllAddUp shards.now passes.now
        → IsLeast (PlaceAgrees shards.now passes.now) (Some d) → IsErrAnd result (Names d) }
{
    if let Some(shard) = first_incomplete(shards, passes) {
        return Err(SettleFault::PassesMissing { shard });
    }
    let Ok(found) = found else {
        return Err(SettleFault::OutOfMemory);
    };
    match first_mismatch(shards, passes, found.as_slice()) {
        Err(_) => Err(SettleFault::OutOfMemory),
        Ok(Some(mismatch_place)) => Err(SettleFault::Mismatch {
            conversation: mismatch_place.conversation,
            place: mismatch_place.place,
        }),
        Ok(None) => match ended_by_id(alloc, library, shards) {
            Ok(list) => Ok(list),
            Err(_) => Err(SettleFault::OutOfMemory),
        },
    }
}

// Returns the first mismatch, given the result for each shard.
fn first_mismatch(
    shards: &[Shard],
    passes: &[Pass],
    found: &[Found],
) -> Result<Option<MismatchPlace>, AllocError>
    requires some { 0 < length shards.now }
    requires found { AreFound shards.now passes.now found.now }
    ensures least { IfOk result (IsLeast (PlaceAgrees shards.now passes.now)) }
    ensures distinct { OnOk result (AreDistinct shards.now) }
{
    let mut least = first_missing_conversation(shards, passes);
    for (at, shard) in shards.iter().enumerate() {
        // The contract of `len` provides that the shard's ids are distinct.
        let _conversations = shard.len();
        let own = found[at]?;
        least = earlier(least, own);
    }
    Ok(least)
}

// Returns the least conversation of a pass that its own shard does not have, at place 1.
fn first_missing_conversation(shards: &[Shard], passes: &[Pass]) -> Option<MismatchPlace>
    requires { 0 < length shards.now }
    ensures { IsLeast (IsThere shards.now passes.now) result }
{
    let mut least = None;
    for pass in passes {
        least = earlier(least, missing_conversation(shards, pass));
    }
    least
}

// Returns place 1 of the pass's conversation if its own shard does not have it.
fn missing_conversation(shards: &[Shard], pass: &Pass) -> Option<MismatchPlace>
    requires { 0 < length shards.now }
    ensures { IsLeast (λ id place. place ≡ 1 → pass.now.conversation ≡ id
        → IsSome (conversation_record shards.now id)) result }
{
    let id = pass.conversation();
    match shards[id as usize % shards.len()].record(id) {
        Some(_) => None,
        None => Some(MismatchPlace {
            conversation: id,
            place: 1,
        }),
    }
}
