//! The reason why an event may not follow a log.

ghost use Rattle.std.specs.Prelude.{◌≡◌, IfOk, Some, None, if◌then◌else◌};
ghost use Rattle.scrib_types.specs.LocalView.{local_of};
ghost use Rattle.scrib_types.specs.Meaning.{agreement_of};
ghost use Rattle.scrib_types.specs.Permitted.{IsPermitted};
ghost use Rattle.scrib_types.specs.Logs as logs;
ghost use Rattle.scrib_reasons.specs.declared.reason.Reason.TheVariants.{JoinedTwice};
ghost use Rattle.scrib_reasons.specs.Reasons as reasons;
ghost use Rattle.scrib_reasons.specs.Tests as tests;

use crate::choice::{has_choice, has_ended};
use crate::reason::Reason;
use scrib_global::logs::{has_joined, has_role};
use scrib_global::next::{oldest, type_left};
use scrib_types::event::Event;
use scrib_types::local::Local;
use scrib_types::name::Role;
use scrib_types::protocol::Protocol;
use scrib_types::shared_event::SharedEvent;
use scrib_types::shared_message::SharedMessage;
use std::alloc::{AllocError, Global};

/// The reason why the event may not follow the log, or `None` exactly where the protocol permits the log with the event
/// after it. This holds where the protocol permits the log; after any other log the result has no meaning. The function
/// reads the whole log.
///
/// # Errors
/// `AllocError` where memory is refused.
pub fn reason_of(
    alloc: Global,
    protocol: &Protocol,
    log: &[SharedEvent],
    event: &SharedEvent,
) -> Result<Option<Reason>, AllocError>
    ensures { IfOk result (λ found. IsPermitted (agreement_of protocol.now) log.now
        → reasons.FindsReason (agreement_of protocol.now) log.now event.now found) }
{
    let event = event.get();
    if !names_declared(protocol.roles(), event) {
        return Ok(Some(Reason::NotDeclared));
    }
    let role = event.subject();
    if !is_action(event) {
        return Ok(reason_of_join(role, log));
    }
    if !has_joined(role, log) {
        return Ok(Some(Reason::NotJoined));
    }
    match type_left(alloc, protocol.global(), role, log)? {
        Some(left) => reason_by_type(alloc, &left, log, event),
        // a declared role has a local type after a permitted log
        None => Ok(None),
    }
}

// Whether each role that the event names is declared.
fn names_declared(roles: &[Role], event: &Event) -> bool
    ensures { result ≡ reasons.names_declared roles.now event.now }
{
    match event {
        Event::Join { role } => has_role(role, roles),
        Event::Sent { from, to, .. } => has_role(from, roles) && has_role(to, roles),
        Event::Received { from, to, .. } => has_role(from, roles) && has_role(to, roles),
    }
}

// Whether the event is a send or a reception.
fn is_action(event: &Event) -> bool
    ensures { result ≡ logs.is_action event.now }
{
    !matches!(event, Event::Join { .. })
}

// The reason against the join of a declared role.
fn reason_of_join(role: &Role, log: &[SharedEvent]) -> Option<Reason>
    ensures { result ≡ (if logs.has_joined role.now log.now then Some JoinedTwice else None) }
{
    if has_joined(role, log) {
        Some(Reason::JoinedTwice)
    } else {
        None
    }
}

// The reason against a send or a reception of declared roles, whose subject has joined, with this local type left to
// it. It fails where memory is refused, as does the function below.
fn reason_by_type(
    alloc: Global,
    left: &Local,
    log: &[SharedEvent],
    event: &Event,
) -> Result<Option<Reason>, AllocError>
    ensures { IfOk result (λ found. found ≡ tests.reason_by_type (local_of left.now) log.now event.now) }
{
    if has_ended(left) {
        return Ok(Some(Reason::Done));
    }
    if !has_choice(left, event) {
        return Ok(Some(Reason::NotAllowed));
    }
    reason_by_flights(alloc, log, event)
}

// The reason against an event that the local type makes.
fn reason_by_flights(
    alloc: Global,
    log: &[SharedEvent],
    event: &Event,
) -> Result<Option<Reason>, AllocError>
    ensures { IfOk result (λ found. found ≡ tests.reason_by_flights log.now event.now) }
{
    match event {
        Event::Received { from, to, message } => {
            let first = oldest(alloc, from, to, log)?;
            Ok(reason_by_oldest(message, first))
        }
        _ => Ok(None),
    }
}

// The reason against the reception of the message, where this is the oldest in flight between the same roles.
fn reason_by_oldest(message: &SharedMessage, oldest: Option<SharedMessage>) -> Option<Reason>
    ensures { result ≡ tests.reason_by_oldest message.now oldest }
{
    match oldest {
        None => Some(Reason::NotSent),
        Some(first) => {
            if first.equal(message) {
                None
            } else {
                Some(Reason::OtherFirst)
            }
        }
    }
}
