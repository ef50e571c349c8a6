//! The conversations of a settled service.

ghost use Rattle.std.specs.Prelude.{◌≡◌, IfOk, OnOk, IsPermutation, IsSome, All, map, flat_map};
ghost use Rattle.std.specs.List.Sorted.{IsNonDecreasingBy};
ghost use Rattle.std.specs.Map.{keys_of};
ghost use Rattle.scrib_core.specs.Held.{record_at};
ghost use Rattle.scrib_settlement.specs.Settled.{IsEndedIn, IsEndedOf, AreEnded};

pub use scrib_core::ended::Ended;
use scrib_library::library::Library;
use scrib_locked_steps::shard::Shard;
use scrib_locked_steps::step_results::{Judged, ask_step};
use std::alloc::{AllocError, Global};

/// Returns every conversation of the shards, by rising id.
///
/// # Errors
/// `AllocError` if memory was refused.
pub fn ended_by_id(
    alloc: Global,
    library: &Library,
    shards: &[Shard],
) -> Result<Vec<Ended>, AllocError>
    ensures ids { IfOk result (λ list. IsPermutation (flat_map (λ s. keys_of s.records) shards.now)
        (map (λ e. e.id) list.items)) }
    ensures each { IfOk result (λ list. All (IsEndedOf library.now shards.now) list.items) }
    ensures order { IfOk result (λ list. IsNonDecreasingBy (λ e. e.id) list.items) }
{
    let mut list = Vec::new(alloc);
    for shard in shards {
        push_ended(library, shard, &mut list)?;
    }
    list.sort_unstable_by_key(|ended| ended.id);
    Ok(list)
}

// Appends the conversations of a shard.
fn push_ended(library: &Library, shard: &Shard, list: &mut Vec<Ended>) -> Result<(), AllocError>
    ensures { OnOk result (AreEnded library.now shard.now.records list.old.items list.new.items) }
{
    for index in 0..shard.len() {
        let (id, _) = shard.at(index);
        let ended = ended_of(library, shard, id)?;
        list.push(ended)?;
    }
    Ok(())
}

// Returns the final state of a conversation of the shard.
fn ended_of(library: &Library, shard: &Shard, id: u32) -> Result<Ended, AllocError>
    requires { IsSome (record_at shard.now.records id) }
    ensures id { IfOk result (λ e. e.id ≡ id) }
    ensures ended { IfOk result (IsEndedIn library.now shard.now.records) }
{
    // The conversation exists, so only memory can be refused.
    let Ok(Judged { name, events, told }) = ask_step(library, shard, id) else {
        return Err(AllocError);
    };
    Ok(Ended {
        id,
        name,
        events,
        told,
    })
}
