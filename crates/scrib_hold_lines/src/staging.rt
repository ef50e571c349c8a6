//! What a stage does with an entry of a script, and what passes at once.

ghost use Rattle.std.specs.Prelude.{◌≡◌, ℕ, ◌+◌, ◌++◌, IfOk, OnOk};
ghost use Rattle.scrib_script_reader.specs.declared.entry.Entry.TheVariants as entry;
ghost use Rattle.scrib_script_reader.specs.declared.item.Item.TheVariants as item;
ghost use Rattle.scrib_hold_stage.specs.PendingClosings.{closings_in};
ghost use Rattle.scrib_hold_stage.specs.Stages.{IsRead, stage_state};
ghost use Rattle.scrib_hold.specs.HeldScripts.{closing_at, event_in, staged};
ghost use Rattle.scrib_hold_lines.specs.Lines.{GivesLine};
ghost use Rattle.scrib_hold_lines.specs.Progress.{as_line_entry, closing_of, IsPassing, IsStagedAs};

use crate::close_line::CloseLine;
use crate::event_line::EventLine;
use scrib_core::format::Format;
use scrib_core::step::Step;
use scrib_hold_stage::closings::{Closing, PendingClosings};
use scrib_hold_stage::noted::Noted;
use scrib_hold_stage::stage::HoldStage;
use scrib_script_reader::entry::Entry;
use scrib_script_reader::item::Item;
use scrib_types::containers::Items;
use scrib_types::shared_event::SharedEvent;
use std::alloc::AllocError;

/// What passes at once.
#[derive(Drop)]
pub enum Passing {
    /// Nothing.
    Nothing,
    /// The line of the entry, as it is.
    Line,
    /// The put of a module text. The reply to it is printed in this format.
    Put(Format, Items<u8>),
}

/// What a stage does with an entry.
#[derive(Drop)]
pub enum Staged {
    /// It takes an event, the reply to which is printed in this format.
    Event {
        id: u32,
        event: SharedEvent,
        format: Format,
    },
    /// It opens a conversation. The line passes at once.
    Opening {
        id: u32,
    },
    /// It counts the entry. The conversation is closed once its events are released.
    Closing {
        id: u32,
        format: Format,
    },
    /// It counts the entry.
    Other(Passing),
}

// Returns what a stage does with a step.
fn staged_step(format: Format, step: Step) -> Staged
    ensures entry { (n : ℕ) → staged n (entry.Item (item.Step format step)) ≡ as_line_entry n result }
    ensures passing { IsStagedAs (entry.Item (item.Step format step)) result }
    ensures closing { (n : ℕ) → closing_at n (entry.Item (item.Step format step)) ≡ closing_of n result }
{
    match step {
        Step::Note { id, event } => Staged::Event { id, event, format },
        Step::Open { id, name: _name } => Staged::Opening { id },
        Step::Ask { id: _id } => Staged::Other(Passing::Line),
        Step::Turn { id: _id } => Staged::Other(Passing::Line),
        Step::Close { id } => Staged::Closing { id, format },
        Step::Put { text } => Staged::Other(Passing::Put(format, text)),
        Step::Withdraw { name: _name } => Staged::Other(Passing::Line),
        Step::Profile { profile: _profile } => Staged::Other(Passing::Line),
    }
}

// Returns what a stage does with an entry. An end inside a module text waits for the end of the script.
fn staged_of(entry: Entry) -> Staged
    ensures entry { (n : ℕ) → staged n entry ≡ as_line_entry n result }
    ensures passing { IsStagedAs entry result }
    ensures closing { (n : ℕ) → closing_at n entry ≡ closing_of n result }
{
    match entry {
        Entry::Item(Item::Step(format, step)) => staged_step(format, step),
        Entry::Item(Item::Sweep(_format)) => Staged::Other(Passing::Line),
        Entry::Item(Item::BadLine(_number)) => Staged::Other(Passing::Line),
        Entry::Item(Item::EndOfText) => Staged::Other(Passing::Nothing),
        Entry::Skipped => Staged::Other(Passing::Nothing),
    }
}

/// Puts the entry, which this line gives, into the stage. Returns what passes at once. A closing waits from then on.
///
/// # Errors
/// `AllocError` where memory is refused. The stage is then of no more use.
pub(crate) fn read_entry(
    stage: &mut HoldStage<EventLine>,
    pending: &mut PendingClosings<CloseLine>,
    entry: Entry,
    line: &[u8],
    released: &mut Vec<Noted<EventLine>>,
) -> Result<Passing, AllocError>
    requires { GivesLine line.now entry }
    ensures read { OnOk result (IsRead event_in (staged (stage.old.time + 1) entry)
        (stage_state stage.old) (stage_state stage.new) released.old.items released.new.items) }
    ensures passed { IfOk result (IsPassing entry) }
    ensures closing { OnOk result (closings_in pending.new
        ≡ closings_in pending.old ++ closing_at (stage.old.time + 1) entry) }
{
    let alloc = *released.allocator();
    match staged_of(entry) {
        Staged::Event { id, event, format } => {
            let arrival = EventLine::new(alloc, id, event, format, line)?;
            stage.push(id, arrival, released)?;
            Ok(Passing::Nothing)
        }
        Staged::Opening { id } => {
            stage.open(id, released)?;
            Ok(Passing::Line)
        }
        Staged::Closing { id, format } => {
            let Some(time) = stage.next_time() else {
                return Err(AllocError);
            };
            let line = CloseLine::new(alloc, id, format, line)?;
            stage.skip(released)?;
            pending.push(Closing {
                conversation: id,
                time,
                line,
            })?;
            Ok(Passing::Nothing)
        }
        Staged::Other(found) => {
            stage.skip(released)?;
            Ok(found)
        }
    }
}
