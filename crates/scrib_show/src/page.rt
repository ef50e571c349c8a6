//! The text of an open conversation.

ghost use Rattle.std.specs.Prelude.{◌≡◌, ◌<◌, ◌++◌, IfOk, IfSome, OnOk, length, slice_get};
ghost use Rattle.scrib_types.specs.Logs.{subject_of};
ghost use Rattle.scrib_cli.specs.NextLines.{are_at_rest, next_lines};
ghost use Rattle.scrib_show.specs.Pages as pages;
ghost use Rattle.scrib_show.specs.ShownLines as lines;
ghost use Rattle.scrib_show.specs.Progress.{conversation_of};

use crate::after::After;
use crate::events::push_events;
use crate::flights::push_flights;
use crate::head::{permitted_text, push_head, push_offence};
use scrib_cli::next_lines::{are_at_rest, push_lines};
use scrib_reasons::reason::Reason;
use scrib_types::name::Dotted;
use scrib_types::shared_event::SharedEvent;
use scrib_types::text::push_bytes;
use std::alloc::{AllocError, Global};

// An open conversation: its protocol's name, whether the reported verdict is stale, its log, and the numbers of the
// lines that noted the events.
#[derive(Clone, Copy)]
pub(crate) struct Page<'a> {
    pub name: &'a Dotted,
    pub stale: bool,
    pub log: &'a [SharedEvent],
    pub numbers: &'a [u64],
}

// The text where the library has no such protocol. It fails where memory is refused, as do the functions below.
pub(crate) fn withdrawn_page(alloc: Global, page: Page<'_>) -> Result<Vec<u8>, AllocError>
    requires { length page.numbers.now ≡ length page.log.now }
    ensures { IfOk result (λ text. text.items
        ≡ pages.withdrawn_page (conversation_of page.entry) page.entry.stale page.entry.numbers.now) }
{
    let mut out = Vec::new(alloc);
    push_head(&mut out, page.name, page.log.len(), page.stale)?;
    push_bytes(&mut out, b"withdrawn")?;
    push_bytes(&mut out, b"\n")?;
    push_events(&mut out, page.log.len(), false, page.numbers, page.log)?;
    Ok(out)
}

// The text where the log is permitted.
pub(crate) fn permitted_page(
    alloc: Global,
    page: Page<'_>,
    after: &After,
) -> Result<Vec<u8>, AllocError>
    requires { length page.numbers.now ≡ length page.log.now }
    ensures { IfOk result (λ text. text.items
        ≡ pages.permitted_page (conversation_of page.entry) page.entry.stale page.entry.numbers.now
        (are_at_rest after.now.roles.items) after.now.flights.items after.now.roles.items) }
{
    let complete = are_at_rest(after.roles.as_slice());
    let mut out = Vec::new(alloc);
    push_head(&mut out, page.name, page.log.len(), page.stale)?;
    push_bytes(&mut out, permitted_text(complete).as_bytes())?;
    push_bytes(&mut out, b"\n")?;
    push_events(&mut out, page.log.len(), false, page.numbers, page.log)?;
    push_after(&mut out, false, after)?;
    Ok(out)
}

// The text where the event at this index is the first offence, for this reason, and this is known after the events
// before it.
pub(crate) fn offence_page(
    alloc: Global,
    page: Page<'_>,
    at: usize,
    reason: Reason,
    before: &After,
) -> Result<Vec<u8>, AllocError>
    requires paired { length page.numbers.now ≡ length page.log.now }
    requires within { at < length page.log.now }
    ensures { IfOk result (λ text. IfSome (slice_get page.entry.log.now at) (λ e. text.items
        ≡ pages.offence_page (conversation_of page.entry) page.entry.stale page.entry.numbers.now
        at (subject_of e) reason before.now.flights.items before.now.roles.items)) }
{
    let mut out = Vec::new(alloc);
    push_head(&mut out, page.name, page.log.len(), page.stale)?;
    push_offence(&mut out, at + 1, page.log[at].get().subject(), reason)?;
    push_bytes(&mut out, b"\n")?;
    push_events(&mut out, at + 1, true, page.numbers, page.log)?;
    push_after(&mut out, true, before)?;
    Ok(out)
}

// Adds the messages in flight, and a line for each role.
fn push_after(out: &mut Vec<u8>, offends: bool, after: &After) -> Result<(), AllocError>
    ensures { OnOk result (out.new.items ≡ out.old.items
        ++ lines.flights_line offends after.now.flights.items ++ next_lines after.now.roles.items) }
{
    push_flights(out, offends, after.flights.as_slice())?;
    push_lines(out, after.roles.as_slice())
}
