//! Notes in the records of a shard.

ghost use Rattle.std.specs.Prelude.{◌≡◌, false, None, IfOk, IfErr, IfSome, OnErr, All};
ghost use Rattle.std.specs.Option.{option_copied};
ghost use Rattle.scrib_record.specs.declared.comparison.Comparison.TheVariants.{Numbers};
ghost use Rattle.scrib_record.specs.Comparisons.{ServesFor};
ghost use Rattle.scrib_record.specs.Stale.{is_stale};
ghost use Rattle.scrib_record.specs.Told as record_spec;
ghost use Rattle.scrib_core.specs.Held.{record_at};
ghost use Rattle.scrib_core.specs.ConversationSteps.{IsPresent};
ghost use Rattle.scrib_locked_steps.specs.Noting.{AnswersIn, IsNotedIn};
ghost use Rattle.scrib_locked_steps.specs.Passes.{newest_of};
ghost use Rattle.scrib_locked_steps.specs.Receipts.{IsFirstMismatch, AgreesWith};

use crate::pass::{Pass, Receipt};
use crate::pass_calls::{PassRefusal, PassReply};
use crate::step_results::Noted;
use indexmap::IndexMap;
use scrib_core::reply::Refusal;
use scrib_library::library::Library;
use scrib_record::answer::Answer;
use scrib_record::comparison::Comparison;
use scrib_record::fault::NoteFault;
use scrib_record::record::{MAX_EVENTS, Record};
use scrib_record::version::Version;
use scrib_types::shared_event::SharedEvent;

/// What is compared once before notes by a pass. `mismatch` is the place at which the newest receipt differs from the
/// log, if it does. `comparison` is how the held version is compared with the present one.
#[derive(Clone, Copy)]
pub(crate) struct NoteChecks {
    pub(crate) mismatch: Option<usize>,
    pub(crate) comparison: Comparison,
}

// Appends the event to the record's log. `present` is the present version of its protocol, if it has one. Returns the
// place in the log, from 1, and the verdict.
#[inline(always)]
fn note_in_record(
    present: Option<&Version>,
    comparison: Comparison,
    conversation: &mut Record,
    event: SharedEvent,
) -> Result<Noted, NoteFault>
    requires { ServesFor comparison (option_copied present) conversation.old.held }
    ensures ok { IfOk result (λ n. IsNotedIn (option_copied present.entry) conversation.old event n conversation.new) }
    ensures fault { IfErr result (record_spec.NoteFails conversation.old) }
    ensures err { OnErr result (conversation.new ≡ conversation.old) }
{
    let told = conversation.note(present, comparison, event)?;
    Ok(Noted {
        place: conversation.log().len(),
        told,
    })
}

/// Returns the library's version of the conversation's protocol, if there is one. The index of the last look-up is
/// tried first.
#[inline(always)]
pub(crate) fn present_of<'a>(library: &'a Library, conversation: &mut Record) -> Option<&'a Version>
    ensures present { IsPresent library.now conversation.old.name (option_copied result) }
    ensures same { conversation.new ≡ conversation.old }
{
    let (hint, present) = library.present_at_hint(conversation.hint(), conversation.name());
    conversation.set_hint(hint);
    present
}

/// Returns a comparison that is correct for the version that the record holds and the present one, if there is one. A
/// record that is not stale holds the present version, so their numbers suffice.
pub(crate) fn comparison_for(present: Option<&Version>, conversation: &Record) -> Comparison
    ensures serves { ServesFor result (option_copied present.entry) conversation.now.held }
    ensures numbers { is_stale (option_copied present.entry) conversation.now ≡ false → result ≡ Numbers }
{
    match conversation.ask(present, Comparison::Whole) {
        Answer::Stale => Comparison::Whole,
        _ => Comparison::Numbers,
    }
}

/// Appends the event to the log of the pass's conversation, unless the checks found a mismatch. `present` is the
/// present version of the protocol, if it has one.
///
/// # Errors
/// `Mismatch` with its place, if there is one; else `LogFull` or `OutOfMemory`, whichever applies first, as a `Step`.
/// The record and the pass are unchanged then.
#[inline(always)]
pub(crate) fn note_unless_mismatch(
    checks: NoteChecks,
    present: Option<&Version>,
    conversation: &mut Record,
    pass: &mut Pass,
    event: SharedEvent,
) -> PassReply
    requires mismatch { IsFirstMismatch conversation.old.log (newest_of pass.old.receipts) checks.mismatch }
    requires serves { ServesFor checks.comparison (option_copied present) conversation.old.held }
    ensures answered { AnswersIn (option_copied present.entry) (conversation.old, pass.old) event result
        (conversation.new, pass.new) }
    ensures mismatch { IsFirstMismatch conversation.new.log (newest_of pass.new.receipts) checks.mismatch }
{
    match checks.mismatch {
        Some(place) => Err(PassRefusal::Mismatch {
            conversation: pass.conversation(),
            place,
        }),
        None => note_with_receipt(present, checks.comparison, conversation, pass, event),
    }
}

// Appends the event to the log of the pass's conversation, which has the newest receipt. The pass receives the new
// receipt.
#[inline(always)]
fn note_with_receipt(
    present: Option<&Version>,
    comparison: Comparison,
    conversation: &mut Record,
    pass: &mut Pass,
    event: SharedEvent,
) -> PassReply
    requires agrees { All (AgreesWith conversation.old.log) (newest_of pass.old.receipts) }
    requires serves { ServesFor comparison (option_copied present) conversation.old.held }
    ensures answered { AnswersIn (option_copied present.entry) (conversation.old, pass.old) event result
        (conversation.new, pass.new) }
    ensures agrees { All (AgreesWith conversation.new.log) (newest_of pass.new.receipts) }
{
    let (Ok(kept), Ok(())) = (event.copy(), pass.receipts.reserve(1)) else {
        return Err(PassRefusal::Step(Refusal::from(memory_fault(conversation))));
    };
    match note_in_record(present, comparison, conversation, event) {
        Ok(noted) => {
            pass.receipts.push_reserved(Receipt {
                place: noted.place,
                event: kept,
            });
            Ok(noted)
        }
        Err(fault) => Err(PassRefusal::Step(Refusal::from(fault))),
    }
}

// Returns the fault of a note without memory: `LogFull` precedes `OutOfMemory`.
fn memory_fault(conversation: &Record) -> NoteFault
    ensures { record_spec.NoteFails conversation.now result }
{
    if conversation.log().len() >= MAX_EVENTS {
        NoteFault::LogFull
    } else {
        NoteFault::OutOfMemory
    }
}
