//! The messages between two roles, as lists computed from the whole log.

ghost use Rattle.std.specs.Prelude.{◌≡◌, ◌↔◌, IsTrue, IfOk};
ghost use Rattle.scrib_types.specs.Queues as queue;
ghost use Rattle.scrib_global.specs.Due.{IsSentFirst};

use scrib_types::event::Event;
use scrib_types::name::Role;
use scrib_types::shared_event::SharedEvent;
use scrib_types::shared_message::SharedMessage;
use std::alloc::{AllocError, Global};

// The message, where the event is a send of it between these roles.
fn sent_message(
    alloc: Global,
    from: &Role,
    to: &Role,
    event: &SharedEvent,
) -> Result<Option<SharedMessage>, AllocError>
    ensures { IfOk result (λ message. message ≡ queue.sent_message from.now to.now event.now) }
{
    match event.get() {
        Event::Sent {
            from: sender,
            to: receiver,
            message,
        } if from.equal(sender) && to.equal(receiver) => Ok(Some(message.copy()?)),
        _ => Ok(None),
    }
}

// The message, where the event is a reception of it between these roles.
fn received_message(
    alloc: Global,
    from: &Role,
    to: &Role,
    event: &SharedEvent,
) -> Result<Option<SharedMessage>, AllocError>
    ensures { IfOk result (λ message. message ≡ queue.received_message from.now to.now event.now) }
{
    match event.get() {
        Event::Received {
            from: sender,
            to: receiver,
            message,
        } if from.equal(sender) && to.equal(receiver) => Ok(Some(message.copy()?)),
        _ => Ok(None),
    }
}

/// The messages that the one role sent to the other, in order.
///
/// # Errors
/// `AllocError` where memory is refused, here and in the functions below.
pub fn sent(
    alloc: Global,
    from: &Role,
    to: &Role,
    log: &[SharedEvent],
) -> Result<Vec<SharedMessage>, AllocError>
    ensures { IfOk result (λ messages. messages.items ≡ queue.sent from.now to.now log.now) }
{
    let mut messages = Vec::new(alloc);
    for event in log {
        match sent_message(alloc, from, to, event)? {
            Some(message) => messages.push(message)?,
            None => {}
        }
    }
    Ok(messages)
}

/// The messages that the other role received from the one, in order.
pub fn received(
    alloc: Global,
    from: &Role,
    to: &Role,
    log: &[SharedEvent],
) -> Result<Vec<SharedMessage>, AllocError>
    ensures { IfOk result (λ messages. messages.items ≡ queue.received from.now to.now log.now) }
{
    let mut messages = Vec::new(alloc);
    for event in log {
        match received_message(alloc, from, to, event)? {
            Some(message) => messages.push(message)?,
            None => {}
        }
    }
    Ok(messages)
}

// Whether the two lists are the same.
fn messages_equal(a: &[SharedMessage], b: &[SharedMessage]) -> bool
    ensures { IsTrue result ↔ (a.now ≡ b.now) }
{
    if a.len() != b.len() {
        return false;
    }
    for i in 0..a.len() {
        if !a[i].equal(&b[i]) {
            return false;
        }
    }
    true
}

// Whether the second list begins with the first.
fn is_prefix(a: &[SharedMessage], b: &[SharedMessage]) -> bool
    ensures { IsTrue result ↔ queue.IsPrefix a.now b.now }
{
    a.len() <= b.len() && messages_equal(a, &b[..a.len()])
}

// Whether the event is no reception, or the messages that were received between its roles are a prefix of those that
// were sent.
fn is_due(alloc: Global, log: &[SharedEvent], event: &SharedEvent) -> Result<bool, AllocError>
    ensures { IfOk result (λ due. IsTrue due ↔ IsSentFirst log.now event.now) }
{
    match event.get() {
        Event::Received { from, to, .. } => {
            let sent = sent(alloc, from, to, log)?;
            let received = received(alloc, from, to, log)?;
            Ok(is_prefix(&received, &sent))
        }
        _ => Ok(true),
    }
}

/// Whether after each event the messages that a role received from another are a prefix of those that were sent.
pub fn is_queued(alloc: Global, log: &[SharedEvent]) -> Result<bool, AllocError>
    ensures { IfOk result (λ queued. IsTrue queued ↔ queue.IsQueued log.now) }
{
    for (i, event) in log.iter().enumerate() {
        if !is_due(alloc, &log[..i + 1], event)? {
            return Ok(false);
        }
    }
    Ok(true)
}
