//! Several notes by a pass under one holding of the locks.

ghost use Rattle.std.specs.Prelude.{◌≡◌, ◌<◌, ◌≤◌, ◌^◌, [], true, false, None, vec_len, vec_capacity};
ghost use Rattle.std.specs.List.{sum_by};
ghost use Rattle.std.specs.Option.{option_copied};
ghost use Rattle.scrib_library.specs.Holdings.{Holdings};
ghost use Rattle.scrib_core.specs.Held.{Records, record_at};
ghost use Rattle.scrib_locked_steps.specs.Noting.{AnswersIn};
ghost use Rattle.scrib_locked_steps.specs.OneByOne.{OneByOne};
ghost use Rattle.scrib_locked_steps.specs.Passing.{AnswersBy, added_notes};
ghost use Rattle.scrib_locked_steps.specs.Openings.{is_current, HasSameOpenings};

use crate::pass::Pass;
use crate::pass_calls::{PassReply, notes_of, unopened_refusal};
use crate::receipt_check::first_mismatch;
use crate::record_notes::{NoteChecks, comparison_for, note_unless_mismatch, present_of};
use crate::shard::Shard;
use indexmap::IndexMap;
use scrib_core::places::place_at_hint;
use scrib_library::library::Library;
use scrib_record::record::Record;
use scrib_record::version::Version;
use scrib_types::shared_event::SharedEvent;

/// Events to note, and an empty list with room for the reply to each.
#[derive(Drop)]
pub struct Batch {
    pub events: Vec<SharedEvent>,
    pub room: Vec<PassReply>,
    pub ghost empty: { vec_len room ≡ 0 },
    pub ghost enough: { vec_len events ≤ vec_capacity room },
}

/// Appends the events one after another to the log of the pass's conversation, as calls of `note_by_pass` would without
/// other calls between them. Returns the reply to each, in order, in the list of the batch. The record and the version
/// are looked up once. The newest receipt is compared once. So is the meaning of the held version with that of the
/// present one, unless the record is stale. For a pass of an earlier opening no conversation is open.
pub fn note_all_by_pass(
    library: &Library,
    shard: &mut Shard,
    pass: &mut Pass,
    batch: Batch,
) -> Vec<PassReply>
    ensures answered { is_current shard.old.openings pass.old ≡ true
        → OneByOne (AnswersBy library.now) (shard.old.records, pass.old) batch.events.items result.items
        (shard.new.records, pass.new) }
    ensures refused { is_current shard.old.openings pass.old ≡ false
        → OneByOne (AnswersBy library.now) ([], pass.old) batch.events.items result.items ([], pass.new) }
    ensures unchanged { is_current shard.old.openings pass.old ≡ false → shard.new ≡ shard.old }
    ensures limit { shard.new.capacity ≡ shard.old.capacity }
    ensures kept { HasSameOpenings shard.old shard.new }
{
    if !shard.directory.is_current(pass) {
        return refuse_all(pass, batch);
    }
    let answers = note_all_in_records(library, &mut shard.records, pass, batch);
    shard.book += notes_in(&answers);
    answers
}

// Looks up the record of the pass's conversation, first where it was last, and appends the events.
fn note_all_in_records(
    library: &Library,
    records: &mut IndexMap<u32, Record>,
    pass: &mut Pass,
    batch: Batch,
) -> Vec<PassReply>
    ensures { OneByOne (AnswersBy library.now) (records.old.entries, pass.old) batch.events.items result.items
        (records.new.entries, pass.new) }
{
    let Some(at) = place_at_hint(records, pass.hint(), pass.conversation()) else {
        return refuse_all(pass, batch);
    };
    pass.set_hint(at);
    let (_, conversation) = records.pair_mut(at);
    let present = present_of(library, conversation);
    note_all_in_record(present, conversation, pass, batch)
}

// Appends the events to the log of the pass's conversation. `present` is the present version of its protocol, if it has
// one.
fn note_all_in_record(
    present: Option<&Version>,
    conversation: &mut Record,
    pass: &mut Pass,
    batch: Batch,
) -> Vec<PassReply>
    ensures { OneByOne (AnswersIn (option_copied present.entry)) (conversation.old, pass.old) batch.events.items
        result.items (conversation.new, pass.new) }
{
    let checks = NoteChecks {
        mismatch: first_mismatch(conversation.log(), pass.newest()),
        comparison: comparison_for(present, conversation),
    };
    let Batch { events, room } = batch;
    let mut answers = room;
    for event in events {
        let answer = note_unless_mismatch(checks, present, conversation, pass, event);
        answers.push_reserved(answer);
    }
    answers
}

// Refuses each event, since no conversation is open for the pass.
fn refuse_all(pass: &Pass, batch: Batch) -> Vec<PassReply>
    ensures { (h : Holdings) (rs : Records) → record_at rs pass.now.conversation ≡ None
        → OneByOne (AnswersBy h) (rs, pass.now) batch.events.items result.items (rs, pass.now) }
{
    let Batch { events, room } = batch;
    let mut answers = room;
    for event in events {
        let answer = refuse(pass, event);
        answers.push_reserved(answer);
    }
    answers
}

// Refuses the event, since no conversation is open for the pass.
fn refuse(pass: &Pass, _event: SharedEvent) -> PassReply
    ensures { (h : Holdings) (rs : Records) → record_at rs pass.now.conversation ≡ None
        → AnswersBy h (rs, pass.now) _event result (rs, pass.now) }
{
    Err(unopened_refusal(pass.conversation(), pass.newest()))
}

// Returns the number of entries that the notes added to a log.
fn notes_in(answers: &[PassReply]) -> u64
    requires { sum_by added_notes answers.now < 2 ^ 64 }
    ensures { result ≡ sum_by added_notes answers.now }
{
    let mut notes = 0;
    for answer in answers {
        notes += notes_of(answer);
    }
    notes
}
