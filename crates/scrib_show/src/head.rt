//! The first line of what is shown of a conversation.

ghost use Rattle.std.specs.Prelude.{◌≡◌, ◌++◌, OnOk, codes};
ghost use Rattle.scrib_types.specs.Texts.{dotted_text};
ghost use Rattle.scrib_show.specs.ShownLines as lines;

use scrib_reasons::reason::Reason;
use scrib_types::name::{Dotted, Role};
use scrib_types::text::{push_bytes, push_dotted, push_number};
use std::alloc::AllocError;

// Adds the first line up to how the log is judged: the protocol, the number of events, and whether the verdict is
// stale. It fails where memory for the longer text is refused, as do the functions below.
pub(crate) fn push_head(
    out: &mut Vec<u8>,
    name: &Dotted,
    events: usize,
    stale: bool,
) -> Result<(), AllocError>
    ensures { OnOk result (out.new.items ≡ out.old.items ++ dotted_text name.now ++ codes ", "
        ++ lines.events_count events ++ lines.stale_text stale ++ codes ": ") }
{
    push_dotted(out, name)?;
    push_bytes(out, b", ")?;
    push_count(out, events)?;
    push_bytes(out, stale_text(stale).as_bytes())?;
    push_bytes(out, b": ")
}

// Adds the number of events.
fn push_count(out: &mut Vec<u8>, events: usize) -> Result<(), AllocError>
    ensures { OnOk result (out.new.items ≡ out.old.items ++ lines.events_count events) }
{
    push_number(out, events as u64)?;
    push_bytes(out, b" event")?;
    if events == 1 {
        Ok(())
    } else {
        push_bytes(out, b"s")
    }
}

// What is behind the number of events.
fn stale_text(stale: bool) -> &'static str
    ensures { result.now ≡ lines.stale_text stale }
{
    if stale { ", stale" } else { "" }
}

// How a permitted log is judged.
pub(crate) fn permitted_text(complete: bool) -> &'static str
    ensures { result.now ≡ lines.permitted_text complete }
{
    if complete {
        "permitted, complete"
    } else {
        "permitted"
    }
}

// Adds how a log with an offence at this place is judged.
#[tactic(auto, unfolding(crate::specs::ShownLines::offence_text))]
pub(crate) fn push_offence(
    out: &mut Vec<u8>,
    place: usize,
    role: &Role,
    reason: Reason,
) -> Result<(), AllocError>
    ensures { OnOk result (out.new.items ≡ out.old.items ++ lines.offence_text place role.now reason) }
{
    push_bytes(out, b"offence at event ")?;
    push_number(out, place as u64)?;
    push_bytes(out, b" by ")?;
    push_bytes(out, role.as_bytes())?;
    push_bytes(out, b": ")?;
    push_bytes(out, reason_word(reason).as_bytes())
}

/// Returns the word of a reason.
pub fn reason_word(reason: Reason) -> &'static str
    ensures { result.now ≡ lines.reason_word reason }
{
    match reason {
        Reason::NotDeclared => "NotDeclared",
        Reason::JoinedTwice => "JoinedTwice",
        Reason::NotJoined => "NotJoined",
        Reason::Done => "Done",
        Reason::NotAllowed => "NotAllowed",
        Reason::NotSent => "NotSent",
        Reason::OtherFirst => "OtherFirst",
    }
}
