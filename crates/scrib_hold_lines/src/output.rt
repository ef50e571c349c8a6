//! Adds lines to an output, in order.

ghost use Rattle.std.specs.Prelude.{◌≡◌, ◌++◌, ◌∷◌, [], OnOk, OnErr, codes, map};
ghost use Rattle.scrib_hold_stage.specs.PendingClosings.{closings_in};
ghost use Rattle.scrib_hold.specs.HeldScripts.{closing_item, item_of};
ghost use Rattle.scrib_hold.specs.LetOutSoFar.{closing_items};
ghost use Rattle.scrib_hold_lines.specs.Lines.{WritesItems, IsTail, put_line, AddsBytes};
ghost use Rattle.scrib_hold_lines.specs.Progress.{IsTextOfEvent, IsPartOf, AreWritten, AreWrittenInPart};
ghost use Rattle.scrib_hold_lines.specs.declared.staging.Passing.TheVariants as passed;

use crate::close_line::CloseLine;
use crate::event_line::EventLine;
use crate::staging::Passing;
use scrib_core::format::Format;
use scrib_hold_stage::closings::{Closing, PendingClosings};
use scrib_hold_stage::noted::Noted;
use std::alloc::AllocError;

/// Returns the line before a module text, the reply to whose put is printed in this format.
pub(crate) fn put_line(format: Format) -> &'static [u8]
    ensures { result.now ≡ put_line format }
{
    match format {
        Format::Line => b"put\n".as_slice(),
        Format::Json => b"json put\n".as_slice(),
    }
}

// Returns what is written behind a module text. A text that is cut within a line is too long to be accepted. Its last
// line gets a further byte, so that it is not taken for the end of the text.
fn tail_of(text: &[u8]) -> &'static [u8]
    ensures { IsTail text.now result.now }
{
    let Some((last, _)) = text.split_last() else {
        return b"%%\n".as_slice();
    };
    if *last == b'\n' {
        b"%%\n".as_slice()
    } else {
        b".\n%%\n".as_slice()
    }
}

// Adds the lines of a put. After an error a beginning is added.
fn append_put(output: &mut Vec<u8>, format: Format, text: &[u8]) -> Result<(), AllocError>
    ensures ok { OnOk result
        (AddsBytes (IsTextOfEvent (passed.Put format text.now) []) output.old.items output.new.items) }
    ensures err { OnErr result
        (AddsBytes (IsPartOf (passed.Put format text.now) []) output.old.items output.new.items) }
{
    let tail = tail_of(text);
    output.extend_from_slice(put_line(format))?;
    output.extend_from_slice(text)?;
    output.extend_from_slice(tail)
}

/// Adds what passes at once, where this is the line of the entry. After an error a beginning is added.
///
/// # Errors
/// `AllocError` where memory is refused.
pub(crate) fn append_passing(
    output: &mut Vec<u8>,
    passing: &Passing,
    line: &[u8],
) -> Result<(), AllocError>
    ensures ok { OnOk result (AddsBytes (IsTextOfEvent passing.now line.now) output.old.items output.new.items) }
    ensures err { OnErr result (AddsBytes (IsPartOf passing.now line.now) output.old.items output.new.items) }
{
    match passing {
        Passing::Nothing => Ok(()),
        Passing::Line => output.extend_from_slice(line),
        Passing::Put(format, text) => append_put(output, *format, text.as_slice()),
    }
}

// Adds the line of an event. After an error the output is unchanged.
fn append_event(output: &mut Vec<u8>, noted: &Noted<EventLine>) -> Result<(), AllocError>
    ensures ok { OnOk result (AreWritten (item_of noted.now ∷ []) output.old.items output.new.items) }
    ensures err { OnErr result (output.new.items ≡ output.old.items) }
{
    let arrival = &noted.arrival;
    let Some(text) = arrival.text_in(noted.conversation) else {
        // A stage keeps the conversation of each event.
        return Err(AllocError);
    };
    output.extend_from_slice(text)
}

/// Adds the lines of the events that were released, in order. After an error those of some first ones are added.
///
/// # Errors
/// `AllocError` where memory is refused.
pub(crate) fn append_released(
    output: &mut Vec<u8>,
    released: &mut Vec<Noted<EventLine>>,
) -> Result<(), AllocError>
    ensures ok { OnOk result (AreWritten (map item_of released.old.items) output.old.items output.new.items) }
    ensures err { OnErr result (AreWrittenInPart (map item_of released.old.items) output.old.items output.new.items) }
{
    released.reverse();
    while let Some(noted) = released.pop() {
        append_event(output, &noted)?;
    }
    Ok(())
}

// Adds the line of a closing. After an error the output is unchanged.
fn append_closing(output: &mut Vec<u8>, closing: &Closing<CloseLine>) -> Result<(), AllocError>
    ensures ok { OnOk result (AreWritten (closing_item closing.now ∷ []) output.old.items output.new.items) }
    ensures err { OnErr result (output.new.items ≡ output.old.items) }
{
    let Some(text) = closing.line.text_in(closing.conversation) else {
        // A list of closings keeps the conversation of each.
        return Err(AllocError);
    };
    output.extend_from_slice(text)
}

/// Adds the lines of the events that were released, in order, and then that of a closing. After an error those of some
/// first ones are added.
///
/// # Errors
/// `AllocError` where memory is refused.
pub(crate) fn append_closed(
    output: &mut Vec<u8>,
    released: &mut Vec<Noted<EventLine>>,
    closing: &Closing<CloseLine>,
) -> Result<(), AllocError>
    ensures ok { OnOk result (AreWritten (closing_items closing.now released.old.items)
        output.old.items output.new.items) }
    ensures err { OnErr result (AreWrittenInPart (closing_items closing.now released.old.items)
        output.old.items output.new.items) }
{
    append_released(output, released)?;
    append_closing(output, closing)
}

/// Adds the lines of the closings that wait, in order. After an error those of some first ones are added.
///
/// # Errors
/// `AllocError` where memory is refused.
pub(crate) fn append_closings(
    output: &mut Vec<u8>,
    pending: &mut PendingClosings<CloseLine>,
) -> Result<(), AllocError>
    ensures ok { OnOk result (AreWritten (map closing_item (closings_in pending.old))
        output.old.items output.new.items) }
    ensures err { OnErr result (AreWrittenInPart (map closing_item (closings_in pending.old))
        output.old.items output.new.items) }
{
    while let Some(closing) = pending.pop() {
        append_closing(output, &closing)?;
    }
    Ok(())
}
