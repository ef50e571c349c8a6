//! The steps of one conversation over a library: open, note, turn, ask and close.

ghost use Rattle.std.specs.Prelude.{◌≡◌, ◌≢◌, ◌⊎◌, true, false, IfOk, IfErr, OnOk, OnErr};
ghost use Rattle.std.specs.Option.{option_copied};
ghost use Rattle.scrib_core.specs.ConversationSteps.{IsOpened, OpenFails, IsNotedAt, NoteFails, IsTurnedAt, IsAskedAt, VerdictFails, IsClosedAt, CloseFails, IsCompleteTest, IsBegun, IsPresent, IsSoundComparison, IsSoundForRecord};
ghost use Rattle.scrib_core.specs.FreshRecords.{FindsUnstale};
ghost use Rattle.scrib_core.specs.Permitted.{IsOutcomeTest};
ghost use Rattle.scrib_record.specs.CompleteRecords.{IsCompleteRecord};
ghost use Rattle.scrib_types.specs.declared.event.Told.TheVariants.{Stale};

use crate::places::{RecordKey, place_at_hint, record_of};
use crate::reply::Refusal;
use crate::verdicts::{is_permitted_answer, verdict_of};
use indexmap::IndexMap;
use scrib_library::library::Library;
use scrib_record::answer::Answer;
use scrib_record::comparison::Comparison;
use scrib_record::numbering::Numbering;
use scrib_record::record::Record;
use scrib_record::version::Version;
use scrib_record::whole_verdict::WholeVerdict;
use scrib_types::event::{Told, Verdict};
use scrib_types::name::Dotted;
use scrib_types::shared_event::SharedEvent;
use std::alloc::{AllocError, Global};

/// A noted event: its place in the log, from 1, and the verdict on the log that ends with it, or `Stale`.
#[derive(Drop)]
pub struct Noted {
    pub place: usize,
    pub told: Told,
}

/// A noted event, and whether its conversation is complete then: permitted, not stale, and at its end.
#[derive(Drop)]
pub struct Tested {
    pub noted: Noted,
    pub complete: bool,
}

/// The verdict on a conversation, or `Stale`, with the protocol's name and the number of events in the log.
#[derive(Drop)]
pub struct Judged {
    pub name: Dotted,
    pub events: usize,
    pub told: Told,
}

/// A closed conversation: the protocol's name, the number of events in the log, and the verdict on all of them.
/// `complete` is whether it is `Permitted`, no role has a further action, and no message is in flight.
#[derive(Drop)]
pub struct Closed {
    pub name: Dotted,
    pub events: usize,
    pub verdict: Verdict,
    pub complete: bool,
}

/// What is opened: a conversation of this id, under the protocol of this name, if fewer than `limit` are open.
#[derive(Clone, Copy)]
pub struct Opening<'a> {
    pub limit: usize,
    pub id: u32,
    pub name: &'a Dotted,
}

/// Opens a conversation of the protocol, if fewer than the limit are open. Returns the protocol's name.
///
/// # Errors
/// `AlreadyOpen`, `UnknownProtocol`, `TooManyConversations` or `OutOfMemory`, whichever applies first. Nothing changes
/// then.
pub fn open(
    library: &Library,
    records: &mut IndexMap<u32, Record>,
    opening: Opening<'_>,
) -> Result<Dotted, Refusal>
    ensures name { IfOk result (λ n. n ≡ opening.entry.name.now) }
    ensures ok { OnOk result (IsOpened opening.entry.limit library.now records.old.entries opening.entry.id
        opening.entry.name.now records.new.entries) }
    ensures fault { IfErr result (OpenFails opening.entry.limit library.now records.old.entries opening.entry.id
        opening.entry.name.now) }
    ensures err { OnErr result (records.new.entries ≡ records.old.entries) }
{
    let alloc = *records.allocator();
    let name = opening.name;
    if records.contains_key(&opening.id) {
        return Err(Refusal::AlreadyOpen);
    }
    let Some((shared, version)) = library.present_shared(name) else {
        return Err(Refusal::UnknownProtocol);
    };
    if records.len() >= opening.limit {
        return Err(Refusal::TooManyConversations);
    }
    let known = library.numbering(name);
    let Ok(reply_name) = shared.copy() else {
        return Err(Refusal::OutOfMemory);
    };
    let Ok(record) = begin(alloc, shared, version, known) else {
        return Err(Refusal::OutOfMemory);
    };
    match records.insert(opening.id, record) {
        Ok(_) => Ok(reply_name),
        Err(_) => Err(Refusal::OutOfMemory),
    }
}

/// Appends the event to the conversation's log.
///
/// # Errors
/// `NoConversation`, `LogFull` or `OutOfMemory`, whichever applies first. Nothing changes then.
#[inline(always)]
pub fn note(
    library: &Library,
    records: &mut IndexMap<u32, Record>,
    comparison: Comparison,
    key: RecordKey,
    event: SharedEvent,
) -> Result<Noted, Refusal>
    requires { IsSoundComparison comparison library.now records.old.entries }
    ensures ok { IfOk result (λ n.
        IsNotedAt library.now records.old.entries key.id event n.place n.told records.new.entries) }
    ensures fault { IfErr result (NoteFails records.old.entries key.id) }
    ensures err { OnErr result (records.new.entries ≡ records.old.entries) }
{
    let Some(at) = place_at_hint(records, key.hint, key.id) else {
        return Err(Refusal::NoConversation);
    };
    let (_, record) = records.pair_mut(at);
    let (hint, present) = present_of(library, record, comparison);
    let verdict = record.note(present, comparison, event)?;
    record.set_hint(hint);
    Ok(Noted {
        place: record.log().len(),
        told: verdict,
    })
}

/// Appends the event as [`note`] does. Returns also whether the conversation is complete then.
///
/// # Errors
/// `NoConversation`, `LogFull` or `OutOfMemory`, whichever applies first. Nothing changes then.
#[inline(always)]
pub fn note_and_test(
    library: &Library,
    records: &mut IndexMap<u32, Record>,
    comparison: Comparison,
    key: RecordKey,
    event: SharedEvent,
) -> Result<Tested, Refusal>
    requires { IsSoundComparison comparison library.now records.old.entries }
    ensures ok { IfOk result (λ t.
        IsNotedAt library.now records.old.entries key.id event t.noted.place t.noted.told records.new.entries) }
    ensures complete { IfOk result (λ t. IsCompleteTest library.now records.new.entries key.id t.complete) }
    ensures fault { IfErr result (NoteFails records.old.entries key.id) }
    ensures err { OnErr result (records.new.entries ≡ records.old.entries) }
{
    let Some(at) = place_at_hint(records, key.hint, key.id) else {
        return Err(Refusal::NoConversation);
    };
    let (_, record) = records.pair_mut(at);
    let (hint, present) = present_of(library, record, comparison);
    let verdict = record.note(present, comparison, event)?;
    record.set_hint(hint);
    let complete = is_complete_then(record, &verdict);
    let place = record.log().len();
    let noted = Noted {
        place,
        told: verdict,
    };
    Ok(Tested { noted, complete })
}

// Returns whether a record with this verdict on its whole log is complete.
#[inline(always)]
fn is_complete_then(conversation: &Record, told: &Told) -> bool
    ensures holds { result ≡ true → IsCompleteRecord conversation.now × (told.now ≢ Stale) }
    ensures fails { result ≡ false → (IsCompleteRecord conversation.now → ⊥) ⊎ (told.now ≡ Stale) }
{
    match told {
        Told::Stale => false,
        Told::Judged(_) => conversation.is_complete(),
    }
}

// Returns the present version of the conversation's protocol, if it has one, and a hint for the next look-up. If
// versions are compared by number, the hinted version with the record's number is taken without comparing names.
#[inline(always)]
fn present_of<'a>(
    library: &'a Library,
    conversation: &Record,
    comparison: Comparison,
) -> (usize, Option<&'a Version>)
    requires { IsSoundForRecord comparison library.now conversation.now }
    ensures { IsPresent library.now conversation.now.name (option_copied result.1) }
{
    if let (Comparison::Numbers, Some(number)) = (comparison, conversation.held_number()) {
        if let Some(version) = library.numbered_at(conversation.hint(), number) {
            return (conversation.hint(), Some(version));
        }
    }
    library.present_at_hint(conversation.hint(), conversation.name())
}

/// Judges up to 256 further events of a conversation with a stale verdict.
///
/// # Errors
/// `NoConversation` or `OutOfMemory`. Nothing changes then.
pub fn turn(
    library: &Library,
    records: &mut IndexMap<u32, Record>,
    comparison: Comparison,
    key: RecordKey,
) -> Result<Judged, Refusal>
    requires { IsSoundComparison comparison library.now records.old.entries }
    ensures ok { IfOk result (λ j.
        IsTurnedAt library.now records.old.entries key.id j.name j.events j.told records.new.entries) }
    ensures fault { IfErr result (VerdictFails records.old.entries key.id) }
    ensures err { OnErr result (records.new.entries ≡ records.old.entries) }
{
    let Some(at) = place_at_hint(records, key.hint, key.id) else {
        return Err(Refusal::NoConversation);
    };
    let (_, record) = records.pair_mut(at);
    let known = numbering_for_turn(library, record);
    let Ok(name) = record.name().copy() else {
        return Err(Refusal::OutOfMemory);
    };
    let (hint, present) = present_of(library, record, comparison);
    match record.turn(present, comparison, known) {
        Ok(verdict) => {
            record.set_hint(hint);
            let events = record.log().len();
            Ok(Judged {
                name,
                events,
                told: verdict,
            })
        }
        Err(_) => Err(Refusal::OutOfMemory),
    }
}

// Returns the library's numbering of the record's protocol. Returns none where the record holds the present version,
// since its turn needs none then.
fn numbering_for_turn(library: &Library, record: &Record) -> Option<Numbering> {
    let held = record.held_number();
    if held.is_some_and(|number| library.numbered_at(record.hint(), number).is_some()) {
        return None;
    }
    library.numbering(record.name())
}

/// Returns the verdict on a conversation, or `Stale`.
///
/// # Errors
/// `NoConversation` or `OutOfMemory`.
pub fn ask(
    library: &Library,
    records: &IndexMap<u32, Record>,
    comparison: Comparison,
    key: RecordKey,
) -> Result<Judged, Refusal>
    requires { IsSoundComparison comparison library.now records.now.entries }
    ensures ok { IfOk result (λ j. IsAskedAt library.now records.now.entries key.id j.name j.events j.told) }
    ensures fault { IfErr result (VerdictFails records.now.entries key.id) }
{
    let Some(record) = record_of(records, key) else {
        return Err(Refusal::NoConversation);
    };
    let Ok(name) = record.name().copy() else {
        return Err(Refusal::OutOfMemory);
    };
    let (_, present) = present_of(library, record, comparison);
    let answer = record.ask(present, comparison);
    match verdict_of(answer) {
        Ok(verdict) => Ok(Judged {
            name,
            events: record.log().len(),
            told: verdict,
        }),
        Err(_) => Err(Refusal::OutOfMemory),
    }
}

/// Returns whether the verdict that [`ask`] returns is `Permitted`. It allocates nothing.
pub fn is_permitted(
    library: &Library,
    records: &IndexMap<u32, Record>,
    comparison: Comparison,
    key: RecordKey,
) -> bool
    requires { IsSoundComparison comparison library.now records.now.entries }
    ensures { IsOutcomeTest library.now records.now.entries key.id result }
{
    let Some(record) = record_of(records, key) else {
        return false;
    };
    // Its clause says that the record is lawful.
    let _log = record.log();
    let (_, present) = present_of(library, record, comparison);
    is_permitted_answer(record.ask(present, comparison))
}

/// Returns the record of a conversation, if it is open and its verdict is not stale. It allocates nothing.
pub fn fresh_record<'a>(
    library: &Library,
    records: &'a IndexMap<u32, Record>,
    comparison: Comparison,
    key: RecordKey,
) -> Option<&'a Record>
    requires { IsSoundComparison comparison library.now records.now.entries }
    ensures { FindsUnstale library.now records.now.entries key.id result }
{
    let record = record_of(records, key)?;
    // Its clause says that the record is lawful.
    let _log = record.log();
    let (_, present) = present_of(library, record, comparison);
    match record.ask(present, comparison) {
        Answer::Stale => None,
        Answer::Permitted | Answer::Offence { .. } | Answer::Withdrawn => Some(record),
    }
}

/// Returns whether the conversation is open, its verdict is not stale, and its log is complete: permitted, no role has a
/// further action, and no message is in flight. It allocates nothing.
#[inline(always)]
pub fn is_complete(
    library: &Library,
    records: &IndexMap<u32, Record>,
    comparison: Comparison,
    key: RecordKey,
) -> bool
    requires { IsSoundComparison comparison library.now records.now.entries }
    ensures { IsCompleteTest library.now records.now.entries key.id result }
{
    let Some(record) = record_of(records, key) else {
        return false;
    };
    // Its clause says that the record is lawful.
    let _log = record.log();
    // Tested first: most logs are not complete, and the protocol need not be looked up then.
    if !record.is_complete() {
        return false;
    }
    let (_, present) = present_of(library, record, comparison);
    match record.ask(present, comparison) {
        Answer::Stale => false,
        _ => true,
    }
}

/// Closes a conversation: takes its record out, and returns the verdict on its whole log under the library. What is not
/// judged yet is judged for this. The last record takes the place of the closed one.
///
/// # Errors
/// `NoConversation` or `OutOfMemory`. Nothing changes then.
pub fn close(
    library: &Library,
    records: &mut IndexMap<u32, Record>,
    comparison: Comparison,
    key: RecordKey,
) -> Result<Closed, Refusal>
    requires { IsSoundComparison comparison library.now records.old.entries }
    ensures ok { IfOk result (λ closed. IsClosedAt library.now records.old.entries key.id closed records.new.entries) }
    ensures fault { IfErr result (CloseFails records.old.entries key.id) }
    ensures err { OnErr result (records.new.entries ≡ records.old.entries) }
{
    let Some(record) = record_of(records, key) else {
        return Err(Refusal::NoConversation);
    };
    let known = numbering_for_turn(library, record);
    let Ok(name) = record.name().copy() else {
        return Err(Refusal::OutOfMemory);
    };
    let (_, present) = present_of(library, record, comparison);
    let Ok(whole) = record.judge_whole(present, comparison, known) else {
        return Err(Refusal::OutOfMemory);
    };
    let WholeVerdict { verdict, complete } = whole;
    let events = record.log().len();
    let _record = records.swap_remove(&key.id);
    Ok(Closed {
        name,
        events,
        verdict,
        complete,
    })
}

// Returns the record of an empty log under the version. `known` is its numbering, or another one, or none.
fn begin(
    alloc: Global,
    name: &Dotted,
    version: &Version,
    known: Option<Numbering>,
) -> Result<Record, AllocError>
    ensures { IfOk result (λ new. IsBegun name.now version.now new) }
{
    let name = name.copy()?;
    let numbering = Numbering::of(alloc, version, known)?;
    Record::with_numbering(alloc, name, numbering)
}
