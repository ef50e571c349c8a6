//! The reasons why an event may not follow a permitted log.

/// Why an event may not follow a permitted log: of those that apply to its kind, in this order, the first that holds.
/// The subject is the role that acts: the one that joins, the sender of a send, or the receiver of a reception.
#[derive(Clone, Copy, Debug, PartialEq, Eq)]
pub enum Reason {
    /// A role that the event names is not declared.
    NotDeclared,
    /// The role has joined before.
    JoinedTwice,
    /// The subject has not joined.
    NotJoined,
    /// The local type of the subject has ended: it makes no action.
    Done,
    /// The local type of the subject makes actions, but not this one now.
    NotAllowed,
    /// The local type of the receiver offers this reception, and no message from the sender to it is in flight.
    NotSent,
    /// The local type of the receiver offers this reception, and another message from the sender to it is the oldest in
    /// flight.
    OtherFirst,
}
