//! The last events of a log, each with the number of the line that noted it.

ghost use Rattle.std.specs.Prelude.{◌≡◌, ◌≤◌, ◌<◌, ◌++◌, OnOk, length};
ghost use Rattle.std.specs.Fmt.{decimal};
ghost use Rattle.scrib_types.specs.Texts.{after_each};
ghost use Rattle.scrib_show.specs.ShownLines as lines;

use itoa::Buffer;
use scrib_report::table::push_right_aligned;
use scrib_types::event::Event;
use scrib_types::name::Role;
use scrib_types::shared_event::SharedEvent;
use scrib_types::shared_message::SharedMessage;
use scrib_types::text::{push_bytes, push_message, push_number};
use std::alloc::AllocError;

// The most events that are shown.
const SHOWN_EVENTS: usize = 10;

// Adds the last ten of the first `last` events, and the mark of an offence where the last is one. It fails where memory
// for the longer text is refused, as do the functions below.
pub(crate) fn push_events(
    out: &mut Vec<u8>,
    last: usize,
    offends: bool,
    numbers: &[u64],
    events: &[SharedEvent],
) -> Result<(), AllocError>
    requires within { last ≤ length events.now }
    requires paired { length numbers.now ≡ length events.now }
    ensures { OnOk result
        (out.new.items ≡ out.old.items ++ lines.events_text last offends numbers.now events.now) }
{
    if last == 0 {
        return Ok(());
    }
    let before = last.saturating_sub(SHOWN_EVENTS);
    push_heading(out, before, last)?;
    push_rows(out, &numbers[before..last], &events[before..last])?;
    push_bytes(out, offence_mark(offends).as_bytes())?;
    push_bytes(out, b"\n")
}

// Adds the line in front of the events after the first ones, without its end.
fn push_heading(out: &mut Vec<u8>, before: usize, last: usize) -> Result<(), AllocError>
    requires { before < last }
    ensures { OnOk result (out.new.items ≡ out.old.items ++ lines.rows_heading before last) }
{
    if last - before == 1 {
        push_bytes(out, b"event ")?;
    } else {
        push_bytes(out, b"events ")?;
        push_number(out, before as u64 + 1)?;
        push_bytes(out, b" to ")?;
    }
    push_number(out, last as u64)?;
    push_bytes(out, b":")
}

// Adds a row for each event, behind a line feed.
fn push_rows(out: &mut Vec<u8>, numbers: &[u64], events: &[SharedEvent]) -> Result<(), AllocError>
    requires { length numbers.now ≡ length events.now }
    ensures { OnOk result (out.new.items ≡ out.old.items
        ++ after_each 10 (lines.rows (lines.most_digits numbers.now) numbers.now events.now)) }
{
    let width = most_digits(numbers);
    for i in 0..numbers.len() {
        push_bytes(out, b"\n")?;
        push_row(out, width, numbers[i], events[i].get())?;
    }
    Ok(())
}

// The most digits of the numbers.
fn most_digits(numbers: &[u64]) -> usize
    ensures { result ≡ lines.most_digits numbers.now }
{
    let mut most = 0;
    for number in numbers {
        most = most.max(digits(*number));
    }
    most
}

// The number of digits.
fn digits(number: u64) -> usize
    ensures { result ≡ length (decimal number) }
{
    let mut buffer = Buffer::new();
    buffer.format(number).len()
}

// Adds the row of an event, whose line has this number.
#[tactic(auto, unfolding(crate::specs::ShownLines::row_text))]
fn push_row(out: &mut Vec<u8>, width: usize, number: u64, event: &Event) -> Result<(), AllocError>
    ensures { OnOk result (out.new.items ≡ out.old.items ++ lines.row_text width number event.now) }
{
    push_bytes(out, b"  line ")?;
    push_right_aligned(out, width, number)?;
    push_bytes(out, b"  ")?;
    push_event(out, event)
}

/// Adds the event as a line spells it, without the id.
///
/// # Errors
/// `AllocError` where memory for the longer text is refused.
#[tactic(auto, unfolding(crate::specs::ShownLines::event_text))]
pub fn push_event(out: &mut Vec<u8>, event: &Event) -> Result<(), AllocError>
    ensures { OnOk result (out.new.items ≡ out.old.items ++ lines.event_text event.now) }
{
    match event {
        Event::Join { role } => {
            push_bytes(out, b"join ")?;
            push_bytes(out, role.as_bytes())
        }
        Event::Sent { from, to, message } => {
            push_bytes(out, b"send ")?;
            push_exchange(out, from, to, message)
        }
        Event::Received { from, to, message } => {
            push_bytes(out, b"recv ")?;
            push_exchange(out, from, to, message)
        }
    }
}

// Adds the sender, the receiver and the message.
fn push_exchange(
    out: &mut Vec<u8>,
    from: &Role,
    to: &Role,
    message: &SharedMessage,
) -> Result<(), AllocError>
    ensures { OnOk result (out.new.items ≡ out.old.items ++ lines.exchange_text from.now to.now message.now) }
{
    push_bytes(out, from.as_bytes())?;
    push_bytes(out, b" ")?;
    push_bytes(out, to.as_bytes())?;
    push_bytes(out, b" ")?;
    push_message(out, message.get())
}

// What is behind the last event.
fn offence_mark(offends: bool) -> &'static str
    ensures { result.now ≡ lines.offence_mark offends }
{
    if offends { "    <- offence" } else { "" }
}
