//! The replies of a service to a connection, and their text.

ghost use Rattle.std.specs.Prelude.{◌≡◌, ◌++◌, OnOk};
ghost use Rattle.scrib_core.specs.declared.reply.Reply.TheVariants.{Refused};
ghost use Rattle.scrib_client.specs.declared.service_reply.ServiceReply.TheVariants as service_reply;
ghost use Rattle.scrib_client.specs.ServiceReplies.{service_reply_text, ask_reply, edit_reply, is_change, is_noted, noted_reply, part_of_reply, profile_reply, refusal_reply, turn_reply};
ghost use Rattle.scrib_report.specs.Parts.{part_of};

use scrib_core::format::Format;
use scrib_core::reply::{Edit, Refusal, Reply};
use scrib_library::changes::Changes;
use scrib_library::fault::EditFault;
use scrib_report::event_line::{push_judged_event, push_permitted};
use scrib_report::part::OutputPart;
use scrib_report::printing::push_part;
use scrib_shards::pass_calls::{PassRefusal, PassReply};
use scrib_shards::step_results::Noted;
use scrib_types::event::{Told, Verdict};
use scrib_types::profile::Profile;
use std::alloc::AllocError;

/// The reply of a service to a step.
#[derive(Drop)]
pub enum ServiceReply {
    /// A reply that a monitor on one thread has too.
    Reply(Reply),
    /// The verdict on a conversation after a turn or a question.
    Judged { id: u32, verdict: Told },
    /// A receipt of the connection's pass differs from the log of this conversation at this place.
    Mismatch { conversation: u32, place: usize },
}

/// Returns the reply to a refused step.
pub fn refused(refusal: Refusal) -> ServiceReply
    ensures { result ≡ service_reply.Reply (Refused refusal) }
{
    ServiceReply::Reply(Reply::Refused(refusal))
}

/// Returns the reply to a refused call by a pass.
pub fn refused_by_pass(refusal: PassRefusal) -> ServiceReply
    ensures { result ≡ refusal_reply refusal }
{
    match refusal {
        PassRefusal::Mismatch {
            conversation,
            place,
        } => ServiceReply::Mismatch {
            conversation,
            place,
        },
        PassRefusal::Step(refusal) => refused(refusal),
    }
}

/// Returns the reply to an edit of this outcome.
pub fn edited(edit: Edit, outcome: Result<Changes, EditFault>) -> ServiceReply
    ensures { result ≡ edit_reply edit outcome }
{
    match outcome {
        Ok(changes) => ServiceReply::Reply(Reply::Edited { edit, changes }),
        Err(fault) => refused(Refusal::Edit(fault)),
    }
}

/// Returns the reply to a change of the profile of this outcome.
pub fn profiled(profile: Profile, outcome: Result<(), EditFault>) -> ServiceReply
    ensures { result ≡ profile_reply profile outcome }
{
    match outcome {
        Ok(()) => ServiceReply::Reply(Reply::Profiled { profile }),
        Err(fault) => refused(Refusal::Edit(fault)),
    }
}

/// Returns the reply to a note of this outcome in the conversation `id`.
#[inline(always)]
pub fn noted(id: u32, outcome: PassReply) -> ServiceReply
    ensures { result ≡ noted_reply id outcome }
{
    match outcome {
        Ok(noted) => ServiceReply::Reply(Reply::Noted {
            id,
            place: noted.place,
            told: noted.told,
        }),
        Err(refusal) => refused_by_pass(refusal),
    }
}

/// Returns the reply to a turn of this outcome in the conversation `id`.
pub fn judged(id: u32, outcome: Result<Told, Refusal>) -> ServiceReply
    ensures { result ≡ turn_reply id outcome }
{
    match outcome {
        Ok(verdict) => ServiceReply::Judged { id, verdict },
        Err(refusal) => refused(refusal),
    }
}

/// Returns the reply to a question of this outcome by a pass of the conversation `id`.
pub fn asked(id: u32, outcome: Result<Told, PassRefusal>) -> ServiceReply
    ensures { result ≡ ask_reply id outcome }
{
    match outcome {
        Ok(verdict) => ServiceReply::Judged { id, verdict },
        Err(refusal) => refused_by_pass(refusal),
    }
}

/// Returns whether the reply is that an event was noted.
pub fn is_noted(service_reply: &ServiceReply) -> bool
    ensures { result ≡ is_noted service_reply.now }
{
    matches!(service_reply, ServiceReply::Reply(Reply::Noted { .. }))
}

/// Returns whether the reply is an edit that changed some protocols.
pub fn is_change(service_reply: &ServiceReply) -> bool
    ensures { result ≡ is_change service_reply.now }
{
    match service_reply {
        ServiceReply::Reply(Reply::Edited { changes, .. }) => !changes.list.is_empty(),
        _ => false,
    }
}

// The part of the output that the reply is.
#[inline(always)]
fn part_of_reply(service_reply: &ServiceReply) -> OutputPart<'_>
    ensures { part_of result ≡ part_of_reply service_reply.now }
{
    match service_reply {
        ServiceReply::Reply(reply) => OutputPart::Reply(reply),
        ServiceReply::Judged { id, verdict } => OutputPart::Judged { id: *id, verdict },
        ServiceReply::Mismatch {
            conversation,
            place,
        } => OutputPart::Mismatch {
            conversation: *conversation,
            place: *place,
        },
    }
}

/// Appends the text of the reply in this format, and an LF.
///
/// # Errors
/// `AllocError` where memory is refused.
pub fn push_service_reply(
    lines: &mut Vec<u8>,
    service_reply: &ServiceReply,
    format: Format,
) -> Result<(), AllocError>
    ensures { OnOk result (lines.new.items ≡ lines.old.items ++ service_reply_text format service_reply.now) }
{
    push_part(lines, &part_of_reply(service_reply), format)
}

/// Appends the text of the reply to a note of this outcome in the conversation `id`, in this format, and an LF.
///
/// # Errors
/// `AllocError` where memory is refused.
#[inline(always)]
pub fn push_noted_reply(
    lines: &mut Vec<u8>,
    id: u32,
    outcome: PassReply,
    format: Format,
) -> Result<(), AllocError>
    ensures { OnOk result (lines.new.items ≡ lines.old.items ++ service_reply_text format (noted_reply id outcome)) }
{
    match (format, outcome) {
        // most replies of a long script
        (
            Format::Line,
            Ok(
                Noted {
                    place,
                    told: Told::Judged(Verdict::Permitted),
                },
            ),
        ) => push_permitted(lines, id, place as u64),
        (
            Format::Line,
            Ok(
                Noted {
                    place,
                    told: Told::Judged(verdict),
                },
            ),
        ) => push_judged_event(lines, id, place as u64, &verdict),
        (format, outcome) => push_service_reply(lines, &noted(id, outcome), format),
    }
}
