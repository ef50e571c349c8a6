//! Closes by the passes of a conversation, whose receipts are compared with its log first.

ghost use Rattle.std.specs.Prelude.{◌≡◌, ◌-◌, ◌^◌, min, IfOk, IfErr, OnOk, OnErr, All};
ghost use Rattle.scrib_locked_steps.specs.Closing.{receipts_in, log_for, AreReceipted, IsClosedBy, CloseByFails, IsLeastMismatch};
ghost use Rattle.scrib_locked_steps.specs.Receipts.{IsFirstMismatch};

use crate::locked_calls::stands_locked;
use crate::pass::Pass;
use crate::receipt_check::{first_mismatch, min_place};
use crate::shard::Shard;
use crate::step_results::{Closed, close_step};
use scrib_core::reply::Refusal;
use scrib_library::library::Library;

/// Why a close by passes was refused. A refused close changes nothing.
#[derive(Drop)]
pub enum CloseRefusal {
    /// The passes have fewer or more receipts than the log has events.
    PassesMissing,
    /// A receipt of a pass differs from the conversation's log at this place, and none at a lesser place does.
    Mismatch { conversation: u32, place: usize },
    /// The step is refused.
    Step(Refusal),
}

/// Takes the conversation out of the shard. The passes must be all of it that have receipts: together they have as many
/// as the log has events, and each agrees with the log. Returns the protocol's name, the number of events, the verdict
/// on all of them, and whether the log is complete. The verdict is never stale: what is not judged yet is judged in
/// this call. The other conversations stay, in any order.
///
/// # Errors
/// `NoConversation`, `PassesMissing`, `Mismatch` or `OutOfMemory`, whichever applies first in this order. The shard is
/// unchanged then.
pub fn close_by_passes(
    library: &Library,
    shard: &mut Shard,
    id: u32,
    passes: &[Pass],
) -> Result<Closed, CloseRefusal>
    requires { All (λ p. p.conversation ≡ id) passes.now }
    ensures closed { IfOk result (λ c. IsClosedBy library.now shard.old id passes.now c shard.new) }
    ensures fault { IfErr result (CloseByFails shard.old id passes.now) }
    ensures err { OnErr result (shard.new ≡ shard.old) }
{
    check_receipts(shard, id, passes)?;
    match close_step(library, shard, id) {
        Ok(closed) => Ok(closed),
        Err(refusal) => Err(CloseRefusal::Step(refusal)),
    }
}

// Checks that the conversation is open, and that the passes have as many receipts as its log has events, each of which
// agrees with the log.
fn check_receipts(shard: &Shard, id: u32, passes: &[Pass]) -> Result<(), CloseRefusal>
    ensures ok { OnOk result (AreReceipted shard.now id passes.now) }
    ensures fault { IfErr result (CloseByFails shard.now id passes.now) }
{
    let Some(record) = shard.records.get(&id) else {
        return Err(CloseRefusal::Step(Refusal::NoConversation));
    };
    if count_receipts(passes) != record.log().len() as u64 {
        return Err(CloseRefusal::PassesMissing);
    }
    match least_mismatch(shard, passes) {
        Some(place) => Err(CloseRefusal::Mismatch {
            conversation: id,
            place,
        }),
        None => Ok(()),
    }
}

// Returns the number of receipts of the passes. It saturates at a number that is greater than the length of any log.
fn count_receipts(passes: &[Pass]) -> u64
    ensures { result ≡ min (receipts_in passes.now) (2 ^ 64 - 1) }
{
    let mut count = 0u64;
    for pass in passes {
        count = count.saturating_add(pass.receipts().len() as u64);
    }
    count
}

// Returns the least place of a receipt that differs from the log of its conversation.
fn least_mismatch(shard: &Shard, passes: &[Pass]) -> Option<usize>
    ensures { IsLeastMismatch shard.now passes.now result }
{
    let mut least = None;
    for pass in passes {
        if let Some(place) = mismatch_of(shard, pass) {
            least = Some(min_place(place, least));
        }
    }
    least
}

// Returns the least place of a receipt of the pass that differs from the log of its conversation. No log has the
// receipts of a pass of an earlier opening.
fn mismatch_of(shard: &Shard, pass: &Pass) -> Option<usize>
    ensures { IsFirstMismatch (log_for shard.now pass.now) pass.now.receipts result }
{
    if shard.directory.is_current(pass) {
        stands_locked(shard, pass.conversation(), pass.receipts())
    } else {
        first_mismatch(&[], pass.receipts())
    }
}
