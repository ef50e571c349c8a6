//! Actions of roles, events of logs, and verdicts on logs.

ghost use Rattle.std.specs.Prelude.{◌≡◌};
ghost use Rattle.scrib_types.specs.Logs.{subject_of};

use crate::allowed::Allowed;
use crate::name::Role;
use crate::shared_message::SharedMessage;

/// What one role may do next: join, send a message to another role, or receive one from it.
#[derive(Drop)]
pub enum Action {
    Join,
    Sends { to: Role, message: SharedMessage },
    Receives { from: Role, message: SharedMessage },
}

/// One entry of a conversation's log: a role joined, a role sent a message to another, or a role
/// received a message from another. It may name a role that no protocol declares.
#[derive(Drop)]
pub enum Event {
    Join {
        role: Role,
    },
    Sent {
        from: Role,
        to: Role,
        message: SharedMessage,
    },
    Received {
        from: Role,
        to: Role,
        message: SharedMessage,
    },
}

impl Event {
    /// The role that acts: the sender of a send, the receiver of a reception, or the role that joins.
    pub fn subject(&self) -> &Role
        ensures { result.now ≡ subject_of self.now }
    {
        match self {
            Event::Join { role } => role,
            Event::Sent { from, .. } => from,
            Event::Received { to, .. } => to,
        }
    }
}

/// The judgement of a whole log.
#[derive(Drop)]
pub enum Verdict {
    /// The protocol permits the log.
    Permitted,
    /// The first event that broke the protocol: its place in the log, from 1, and its role. `allowed` holds the
    /// actions that the role was allowed there, sorted by their printed text, none twice.
    Offence {
        place: usize,
        role: Role,
        allowed: Allowed,
    },
    /// The library has no such protocol.
    Withdrawn,
}

/// The reported state of a conversation: its verdict, or that the verdict is stale.
#[derive(Drop)]
pub enum Told {
    Stale,
    Judged(Verdict),
}
