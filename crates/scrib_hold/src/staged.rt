//! What a stage does with an entry of a script.

ghost use Rattle.std.specs.Prelude.{◌≡◌, ℕ, ◌+◌, ◌++◌, [], IfOk, IsFalse, IsTrue, OnOk};
ghost use Rattle.scrib_script_reader.specs.declared.entry.Entry.TheVariants as entry;
ghost use Rattle.scrib_script_reader.specs.declared.item.Item.TheVariants as item;
ghost use Rattle.scrib_script_reader.specs.Scripts.{item_list};
ghost use Rattle.scrib_hold_stage.specs.PendingClosings.{closings_in};
ghost use Rattle.scrib_hold_stage.specs.Stages.{IsRead, PassesStageAlone, stage_state};
ghost use Rattle.scrib_hold.specs.HeldScripts.{closing_at, event_in, passing, staged};
ghost use Rattle.scrib_script_reader.specs.ShortLines.{short_entry};
ghost use Rattle.scrib_hold.specs.StagedEntries.{as_entry, closing_of, passing_of};

use scrib_core::format::Format;
use scrib_core::step::Step;
use scrib_hold_stage::closings::{Closing, PendingClosings};
use scrib_hold_stage::noted::Noted;
use scrib_hold_stage::stage::HoldStage;
use scrib_script_reader::entry::Entry;
use scrib_script_reader::item::Item;
use scrib_script_reader::short_line::ShortLine;
use scrib_types::shared_event::SharedEvent;
use std::alloc::AllocError;

/// What a stage does with an entry.
#[derive(Drop)]
pub enum Staged {
    /// It takes an event, the reply to which is asked for in this format.
    Event {
        id: u32,
        event: SharedEvent,
        format: Format,
    },
    /// It opens a conversation. The item passes at once.
    Opening {
        id: u32,
        item: Item,
    },
    /// It counts the entry. The conversation is closed once its events are released. The reply to this is asked for in
    /// this format.
    Closing {
        id: u32,
        format: Format,
    },
    /// It counts the entry. The item, if there is one, passes at once.
    Other(Option<Item>),
}

// Returns what a stage does with a step.
#[inline(always)]
fn staged_step(format: Format, step: Step) -> Staged
    ensures entry { (n : ℕ) → staged n (entry.Item (item.Step format step)) ≡ as_entry n result }
    ensures passing { passing (entry.Item (item.Step format step)) ≡ passing_of result }
    ensures closing { (n : ℕ) → closing_at n (entry.Item (item.Step format step)) ≡ closing_of n result }
{
    match step {
        Step::Note { id, event } => Staged::Event { id, event, format },
        Step::Open { id, name } => Staged::Opening {
            id,
            item: Item::Step(format, Step::Open { id, name }),
        },
        Step::Ask { id } => Staged::Other(Some(Item::Step(format, Step::Ask { id }))),
        Step::Turn { id } => Staged::Other(Some(Item::Step(format, Step::Turn { id }))),
        Step::Close { id } => Staged::Closing { id, format },
        Step::Put { text } => Staged::Other(Some(Item::Step(format, Step::Put { text }))),
        Step::Withdraw { name } => {
            Staged::Other(Some(Item::Step(format, Step::Withdraw { name })))
        }
        Step::Profile { profile } => {
            Staged::Other(Some(Item::Step(format, Step::Profile { profile })))
        }
    }
}

// Returns what a stage does with an entry. An end inside a module text waits for the end of the script.
#[inline(always)]
fn staged_of(entry: Entry) -> Staged
    ensures entry { (n : ℕ) → staged n entry ≡ as_entry n result }
    ensures passing { passing entry ≡ passing_of result }
    ensures closing { (n : ℕ) → closing_at n entry ≡ closing_of n result }
{
    match entry {
        Entry::Item(Item::Step(format, step)) => staged_step(format, step),
        Entry::Item(Item::Sweep(format)) => Staged::Other(Some(Item::Sweep(format))),
        Entry::Item(Item::BadLine(number)) => Staged::Other(Some(Item::BadLine(number))),
        Entry::Item(Item::EndOfText) => Staged::Other(None),
        Entry::Skipped => Staged::Other(None),
    }
}

/// Puts the entry into the stage. Returns the item that passes at once, if there is one. A closing waits from then on.
///
/// # Errors
/// `AllocError` where memory is refused. The stage is then of no more use.
#[inline(always)]
pub(crate) fn read_entry(
    stage: &mut HoldStage<(SharedEvent, Format)>,
    pending: &mut PendingClosings<Format>,
    entry: Entry,
    released: &mut Vec<Noted<(SharedEvent, Format)>>,
) -> Result<Option<Item>, AllocError>
    ensures read { OnOk result (IsRead event_in (staged (stage.old.time + 1) entry)
        (stage_state stage.old) (stage_state stage.new) released.old.items released.new.items) }
    ensures passed { IfOk result (λ passed. item_list passed ≡ passing entry) }
    ensures closing { OnOk result (closings_in pending.new
        ≡ closings_in pending.old ++ closing_at (stage.old.time + 1) entry) }
{
    match staged_of(entry) {
        Staged::Event { id, event, format } => {
            stage.push(id, (event, format), released)?;
            Ok(None)
        }
        Staged::Opening { id, item } => {
            stage.open(id, released)?;
            Ok(Some(item))
        }
        Staged::Closing { id, format } => {
            let Some(time) = stage.next_time() else {
                return Err(AllocError);
            };
            stage.skip(released)?;
            pending.push(Closing {
                conversation: id,
                time,
                line: format,
            })?;
            Ok(None)
        }
        Staged::Other(found) => {
            stage.skip(released)?;
            Ok(found)
        }
    }
}

/// Puts the event into the stage, if the stage releases it at once, and nothing else then, and no closing waits. Its
/// line asks for no format. Returns whether it is so. If not, the stage has read nothing.
#[inline(always)]
pub(crate) fn passes_event(
    pending: &PendingClosings<Format>,
    stage: &mut HoldStage<(SharedEvent, Format)>,
    id: u32,
    event: &SharedEvent,
) -> bool
    ensures passed { IsTrue result → PassesStageAlone event_in id event.now
        (stage_state stage.old) (stage_state stage.new) }
    ensures none_wait { IsTrue result → closings_in pending.now ≡ [] }
    ensures same { IsFalse result → stage_state stage.new ≡ stage_state stage.old }
{
    pending.is_empty() && stage.try_pass(id, event)
}

/// Returns the entry of the line.
#[inline(always)]
pub(crate) fn entry_of(line: ShortLine) -> Entry
    ensures { result ≡ short_entry line }
{
    match line {
        ShortLine::Note { id, event } => {
            Entry::Item(Item::Step(Format::Line, Step::Note { id, event }))
        }
        ShortLine::Ask { id } => Entry::Item(Item::Step(Format::Line, Step::Ask { id })),
        ShortLine::Open { id, name } => {
            Entry::Item(Item::Step(Format::Line, Step::Open { id, name }))
        }
        ShortLine::Bad(number) => Entry::Item(Item::BadLine(number)),
        ShortLine::Skipped => Entry::Skipped,
    }
}
