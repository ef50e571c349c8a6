//! The notes of a diagram.

ghost use Rattle.std.specs.Prelude.{◌≡◌, ◌++◌, OnOk};
ghost use Rattle.scrib_show.specs.ChartLines as chart;

use crate::events::push_event;
use crate::head::push_offence;
use crate::participants::push_alias;
use scrib_reasons::reason::Reason;
use scrib_types::event::Event;
use scrib_types::text::{push_bytes, push_number};
use std::alloc::AllocError;

// Adds the note of how many messages are left out, if any are, over so many participants. It fails where memory for the
// longer text is refused, as do the functions below.
#[tactic(auto, unfolding(crate::specs::ChartLines::left_out_note))]
pub(crate) fn push_left_out(
    out: &mut Vec<u8>,
    count: usize,
    left_out: usize,
) -> Result<(), AllocError>
    ensures { OnOk result (out.new.items ≡ out.old.items ++ chart.left_out_note count left_out) }
{
    if left_out == 0 {
        return Ok(());
    }
    push_note_head(out, count)?;
    push_bytes(out, b"earlier messages left out: ")?;
    push_number(out, left_out as u64)?;
    push_bytes(out, b"\n")
}

// Adds the note of the offence at this place.
pub(crate) fn push_offence_note(
    out: &mut Vec<u8>,
    count: usize,
    place: usize,
    event: &Event,
    reason: Reason,
) -> Result<(), AllocError>
    ensures { OnOk result
        (out.new.items ≡ out.old.items ++ chart.offence_note count place event.now reason) }
{
    push_note_head(out, count)?;
    push_event(out, event)?;
    push_bytes(out, b", ")?;
    push_offence(out, place, event.subject(), reason)?;
    push_bytes(out, b"\n")
}

// Adds what is in front of a note over all participants.
#[tactic(auto, unfolding(crate::specs::ChartLines::note_head))]
fn push_note_head(out: &mut Vec<u8>, count: usize) -> Result<(), AllocError>
    ensures { OnOk result (out.new.items ≡ out.old.items ++ chart.note_head count) }
{
    push_bytes(out, b"    Note over p1")?;
    push_last(out, count)?;
    push_bytes(out, b": ")
}

// Adds the last participant of a note, where it is not the first.
#[tactic(auto, unfolding(crate::specs::ChartLines::last_text))]
fn push_last(out: &mut Vec<u8>, count: usize) -> Result<(), AllocError>
    ensures { OnOk result (out.new.items ≡ out.old.items ++ chart.last_text count) }
{
    if count == 1 {
        return Ok(());
    }
    push_bytes(out, b",")?;
    push_alias(out, count)
}
