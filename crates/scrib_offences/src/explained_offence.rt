//! Offences with their reason.

use scrib_global::next::RoleNext;
use scrib_reasons::reason::Reason;
use scrib_types::name::Role;
use scrib_types::shared_event::SharedEvent;

/// What there is to say of the role that made an offending event.
#[derive(Drop)]
pub enum Situation {
    /// This role, which the event names, is not declared.
    Undeclared(Role),
    /// What the role may do next in place of the event.
    Next(RoleNext),
}

/// An offence, which is the first event of a log that may not follow those before it.
#[derive(Drop)]
pub struct ExplainedOffence {
    /// The place of the event in the log, from 1.
    pub place: usize,
    /// The event.
    pub event: SharedEvent,
    /// Why it may not follow.
    pub reason: Reason,
    /// The role that is not declared, or what the subject of the event may do in its place.
    pub situation: Situation,
}
