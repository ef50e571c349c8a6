//! Notes and questions by passes, whose receipts are compared with the log first.

ghost use Rattle.std.specs.Prelude.{◌≡◌, [], true, None, IfOk, IfErr, OnOk, OnErr};
ghost use Rattle.scrib_core.specs.Held.{Records, record_at};
ghost use Rattle.scrib_locked_steps.specs.Passes.{PassHeld, IsReceipted, IsAnsweredOn, newest_of};
ghost use Rattle.scrib_locked_steps.specs.Passing.{AnswersBy, IsNotedBy, PassNoteFails, IsAskedBy, PassAskFails, added_notes};
ghost use Rattle.scrib_locked_steps.specs.Openings.{is_current, records_for, HasSameOpenings};

use crate::locked_calls::stands_locked;
use crate::pass::{Pass, Receipt};
use crate::receipt_check::first_mismatch;
use crate::record_notes::{NoteChecks, note_unless_mismatch, present_of};
use crate::shard::Shard;
use crate::step_results::{Noted, ask_step};
use indexmap::IndexMap;
use scrib_core::places::place_at_hint;
use scrib_core::reply::Refusal;
use scrib_library::library::Library;
use scrib_record::comparison::Comparison;
use scrib_record::record::Record;
use scrib_types::event::Told;
use scrib_types::shared_event::SharedEvent;

/// Why a call by a pass was refused. A refused call changes nothing.
#[derive(Drop)]
pub enum PassRefusal {
    /// A receipt of the pass differs from the conversation's log at this place.
    Mismatch { conversation: u32, place: usize },
    /// The receipts agree with the log, but the step is refused.
    Step(Refusal),
}

/// The reply to a note by a pass.
pub type PassReply = Result<Noted, PassRefusal>;

/// Appends the event to the log of the pass's conversation. The pass receives its receipt.
///
/// # Errors
/// `Mismatch` if the newest receipt differs from the log, else `NoConversation`, `LogFull` or `OutOfMemory`, whichever
/// applies first. For a pass of an earlier opening no conversation is open, and no log has its receipts. The shard and
/// the pass are unchanged then.
#[inline(always)]
pub fn note_by_pass(
    library: &Library,
    shard: &mut Shard,
    pass: &mut Pass,
    event: SharedEvent,
) -> PassReply
    ensures noted { IfOk result (λ n. IsNotedBy library.now shard.old pass.old event n shard.new) }
    ensures receipted { IfOk result (λ n. IsReceipted pass.old event n pass.new) }
    ensures current { OnOk result (is_current shard.old.openings pass.old ≡ true) }
    ensures kept { HasSameOpenings shard.old shard.new }
    ensures fault { IfErr result (PassNoteFails (records_for shard.old pass.old) pass.old) }
    ensures shard { OnErr result (shard.new ≡ shard.old) }
    ensures pass { OnErr result (pass.new ≡ pass.old) }
{
    if !shard.directory.is_current(pass) {
        return Err(unopened_refusal(pass.conversation(), pass.newest()));
    }
    let noted = note_in_records(library, &mut shard.records, pass, event);
    shard.book += notes_of(&noted);
    noted
}

/// Returns the verdict on the pass's conversation, whose log has all its receipts, or `Stale`.
///
/// # Errors
/// `Mismatch` with the least place where a receipt differs from the log, else `NoConversation` or `OutOfMemory`. For a
/// pass of an earlier opening no conversation is open, and no log has its receipts.
pub fn ask_by_pass(library: &Library, shard: &Shard, pass: &Pass) -> Result<Told, PassRefusal>
    ensures asked { IfOk result (IsAskedBy library.now shard.now.records pass.now) }
    ensures answered { IfOk result (IsAnsweredOn pass.now.receipts) }
    ensures current { OnOk result (is_current shard.now.openings pass.now ≡ true) }
    ensures fault { IfErr result (PassAskFails (records_for shard.now pass.now) pass.now) }
{
    if !shard.directory.is_current(pass) {
        return Err(unopened_question(pass));
    }
    let id = pass.conversation();
    if let Some(place) = stands_locked(shard, id, pass.receipts()) {
        return Err(PassRefusal::Mismatch {
            conversation: id,
            place,
        });
    }
    match ask_step(library, shard, id) {
        Ok(judged) => Ok(judged.told),
        Err(refusal) => Err(PassRefusal::Step(refusal)),
    }
}

// Looks up the record of the pass's conversation, first where it was last. Appends the event, unless the pass's newest
// receipt differs from the log.
#[inline(always)]
fn note_in_records(
    library: &Library,
    records: &mut IndexMap<u32, Record>,
    pass: &mut Pass,
    event: SharedEvent,
) -> PassReply
    ensures { AnswersBy library.now (records.old.entries, pass.old) event result (records.new.entries, pass.new) }
{
    let id = pass.conversation();
    let Some(at) = place_at_hint(records, pass.hint(), id) else {
        return Err(unopened_refusal(id, pass.newest()));
    };
    pass.set_hint(at);
    let (_, conversation) = records.pair_mut(at);
    let checks = NoteChecks {
        mismatch: first_mismatch(conversation.log(), pass.newest()),
        comparison: Comparison::Whole,
    };
    let present = present_of(library, conversation);
    note_unless_mismatch(checks, present, conversation, pass, event)
}

/// Returns the refusal of a note if no conversation of the id is open.
pub(crate) fn unopened_refusal(id: u32, newest: &[Receipt]) -> PassRefusal
    ensures { (rs : Records) (p : PassHeld) → record_at rs id ≡ None → p.conversation ≡ id
        → newest.now ≡ newest_of p.receipts → PassNoteFails rs p result }
{
    match first_mismatch(&[], newest) {
        Some(place) => PassRefusal::Mismatch {
            conversation: id,
            place,
        },
        None => PassRefusal::Step(Refusal::NoConversation),
    }
}

// Returns the refusal of a question by a pass if no conversation is open for it.
fn unopened_question(pass: &Pass) -> PassRefusal
    ensures { PassAskFails [] pass.now result }
{
    match first_mismatch(&[], pass.receipts()) {
        Some(place) => PassRefusal::Mismatch {
            conversation: pass.conversation(),
            place,
        },
        None => PassRefusal::Step(Refusal::NoConversation),
    }
}

/// Returns the number of entries that the note added to a log.
pub(crate) fn notes_of(noted: &PassReply) -> u64
    ensures { result ≡ added_notes noted.now }
{
    match noted {
        Ok(_) => 1,
        Err(_) => 0,
    }
}
