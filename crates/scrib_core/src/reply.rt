//! The replies to steps, and the reply to a step of this outcome.

ghost use Rattle.std.specs.Prelude.{◌≡◌};
ghost use Rattle.scrib_core.specs.ReplyValues.{edit_reply_of, profile_reply_of, open_reply_of, note_reply_of, verdict_reply_of, close_reply_of};

use crate::conversation_steps::{Closed, Judged, Noted};
use scrib_library::changes::Changes;
use scrib_library::fault::EditFault;
use scrib_record::fault::NoteFault;
use scrib_types::event::{Told, Verdict};
use scrib_types::name::Dotted;
use scrib_types::profile::Profile;

/// The kind of edit that a reply belongs to.
#[derive(Clone, Copy, Debug, PartialEq, Eq)]
pub enum Edit {
    Put,
    Withdraw,
}

/// Why a step was refused. A refused step changes nothing.
#[derive(Drop)]
pub enum Refusal {
    /// A conversation with this id is already open.
    AlreadyOpen,
    /// The library has no protocol of this name.
    UnknownProtocol,
    /// 65,536 conversations are open.
    TooManyConversations,
    /// No conversation with this id is open.
    NoConversation,
    /// The edit or the change of the profile has this fault.
    Edit(EditFault),
    /// The log has 1,048,576 events.
    LogFull,
    /// Memory was refused.
    OutOfMemory,
}

impl From<NoteFault> for Refusal {
    ghost use Rattle.std.specs.Prelude.{◌≡◌};
    ghost use Rattle.scrib_core.specs.ReplyValues.{note_refusal};

    ghost from_gives = { λ fault refusal. refusal ≡ note_refusal fault };

    fn from(fault: NoteFault) -> Refusal {
        match fault {
            NoteFault::LogFull => Refusal::LogFull,
            NoteFault::OutOfMemory => Refusal::OutOfMemory,
        }
    }
}

/// The reply to a step.
#[derive(Drop)]
pub enum Reply {
    /// The library was edited, with these changes.
    Edited {
        edit: Edit,
        changes: Changes,
    },
    /// Protocols are now accepted under this profile.
    Profiled {
        profile: Profile,
    },
    /// The conversation was opened.
    Opened {
        id: u32,
        name: Dotted,
    },
    /// The event is in the log at this place, counted from 1, and this is the verdict, or `Stale`.
    Noted {
        id: u32,
        place: usize,
        told: Told,
    },
    /// The protocol's name, the number of events in the log, and the verdict, or `Stale`.
    Judged {
        id: u32,
        name: Dotted,
        events: usize,
        told: Told,
    },
    /// The conversation was closed: the protocol's name, the number of events in the log, and the verdict on all of
    /// them. `complete` is whether the log is permitted and complete.
    Closed {
        id: u32,
        name: Dotted,
        events: usize,
        verdict: Verdict,
        complete: bool,
    },
    /// The step was refused and nothing changed.
    Refused(Refusal),
}

/// Returns the reply to an edit of this outcome.
pub fn edit_reply(edit: Edit, outcome: Result<Changes, EditFault>) -> Reply
    ensures { result ≡ edit_reply_of edit outcome }
{
    match outcome {
        Ok(changes) => Reply::Edited { edit, changes },
        Err(EditFault::OutOfMemory) => Reply::Refused(Refusal::OutOfMemory),
        Err(fault) => Reply::Refused(Refusal::Edit(fault)),
    }
}

/// Returns the reply to a change of the profile of this outcome.
pub fn profile_reply(profile: Profile, outcome: Result<(), EditFault>) -> Reply
    ensures { result ≡ profile_reply_of profile outcome }
{
    match outcome {
        Ok(()) => Reply::Profiled { profile },
        Err(EditFault::OutOfMemory) => Reply::Refused(Refusal::OutOfMemory),
        Err(fault) => Reply::Refused(Refusal::Edit(fault)),
    }
}

/// Returns the reply to an opening of the conversation `id` with this outcome.
pub fn open_reply(id: u32, outcome: Result<Dotted, Refusal>) -> Reply
    ensures { result ≡ open_reply_of id outcome }
{
    match outcome {
        Ok(name) => Reply::Opened { id, name },
        Err(refusal) => Reply::Refused(refusal),
    }
}

/// Returns the reply to a note in the conversation `id` with this outcome.
#[inline(always)]
pub fn note_reply(id: u32, outcome: Result<Noted, Refusal>) -> Reply
    ensures { result ≡ note_reply_of id outcome }
{
    match outcome {
        Ok(Noted { place, told }) => Reply::Noted { id, place, told },
        Err(refusal) => Reply::Refused(refusal),
    }
}

/// Returns the reply to a turn or a question in the conversation `id` with this outcome.
pub fn verdict_reply(id: u32, outcome: Result<Judged, Refusal>) -> Reply
    ensures { result ≡ verdict_reply_of id outcome }
{
    match outcome {
        Ok(Judged { name, events, told }) => Reply::Judged {
            id,
            name,
            events,
            told,
        },
        Err(refusal) => Reply::Refused(refusal),
    }
}

/// Returns the reply to a close of the conversation `id` with this outcome.
pub fn close_reply(id: u32, outcome: Result<Closed, Refusal>) -> Reply
    ensures { result ≡ close_reply_of id outcome }
{
    match outcome {
        Ok(
            Closed {
                name,
                events,
                verdict,
                complete,
            },
        ) => Reply::Closed {
            id,
            name,
            events,
            verdict,
            complete,
        },
        Err(refusal) => Reply::Refused(refusal),
    }
}
