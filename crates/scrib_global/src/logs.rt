//! The parts of a log: joins, actions and own actions, each computed from the whole log.

ghost use Rattle.std.specs.Prelude.{◌≡◌, ◌↔◌, IsTrue, IfOk};
ghost use Rattle.scrib_types.specs.Logs as logs;
ghost use Rattle.scrib_types.specs.WellFormed as form;

use scrib_types::event::{Action, Event};
use scrib_types::name::Role;
use scrib_types::shared_event::SharedEvent;
use std::alloc::{AllocError, Global};

/// Whether the role is one of these.
pub fn has_role(role: &Role, roles: &[Role]) -> bool
    ensures { result ≡ form.has_role role.now roles.now }
{
    for other in roles {
        if role.equal(other) {
            return true;
        }
    }
    false
}

// Whether the event is the role's join.
fn is_join_of(role: &Role, event: &SharedEvent) -> bool
    ensures { result ≡ logs.is_join_of role.now event.now }
{
    match event.get() {
        Event::Join { role: other } => role.equal(other),
        _ => false,
    }
}

/// Whether the role joined.
pub fn has_joined(role: &Role, log: &[SharedEvent]) -> bool
    ensures { result ≡ logs.has_joined role.now log.now }
{
    for event in log {
        if is_join_of(role, event) {
            return true;
        }
    }
    false
}

// Whether the event, after these, follows the rule of joins. A declared role that hasn't joined may join. The subject
// of a send or a reception has joined.
fn is_joined(roles: &[Role], before: &[SharedEvent], event: &SharedEvent) -> bool
    ensures { IsTrue result ↔ logs.IsJoined roles.now before.now event.now }
{
    match event.get() {
        Event::Join { role } => has_role(role, roles) && !has_joined(role, before),
        Event::Sent { from, .. } => has_joined(from, before),
        Event::Received { to, .. } => has_joined(to, before),
    }
}

/// Whether only declared roles join, each at most once, and each before its own first action.
pub fn all_joined(roles: &[Role], log: &[SharedEvent]) -> bool
    ensures { IsTrue result ↔ logs.AllJoined roles.now log.now }
{
    for (i, event) in log.iter().enumerate() {
        if !is_joined(roles, &log[..i], event) {
            return false;
        }
    }
    true
}

// Whether the event is a send or a reception of the role.
fn is_action_of(role: &Role, event: &SharedEvent) -> bool
    ensures { result ≡ logs.is_action_of role.now event.now }
{
    match event.get() {
        Event::Join { .. } => false,
        Event::Sent { from, .. } => role.equal(from),
        Event::Received { to, .. } => role.equal(to),
    }
}

// The event as an action of its subject. It fails where memory is refused.
fn action_of(alloc: Global, event: &SharedEvent) -> Result<Action, AllocError>
    ensures { IfOk result (λ act. act ≡ logs.action_of event.now) }
{
    match event.get() {
        Event::Join { .. } => Ok(Action::Join),
        Event::Sent { to, message, .. } => {
            let to = to.copy()?;
            let message = message.copy()?;
            Ok(Action::Sends { to, message })
        }
        Event::Received { from, message, .. } => {
            let from = from.copy()?;
            let message = message.copy()?;
            Ok(Action::Receives { from, message })
        }
    }
}

/// The event that is this action of the role.
///
/// # Errors
/// `AllocError` where memory is refused.
pub fn event_of(alloc: Global, role: &Role, action: &Action) -> Result<SharedEvent, AllocError>
    ensures { IfOk result (λ event. event ≡ logs.event_of role.now action.now) }
{
    let role = role.copy()?;
    let event = match action {
        Action::Join => Event::Join { role },
        Action::Sends { to, message } => Event::Sent {
            from: role,
            to: to.copy()?,
            message: message.copy()?,
        },
        Action::Receives { from, message } => Event::Received {
            from: from.copy()?,
            to: role,
            message: message.copy()?,
        },
    };
    SharedEvent::new(alloc, event)
}

/// The role's sends and receptions, in order.
///
/// # Errors
/// `AllocError` where memory is refused.
pub fn own_actions(
    alloc: Global,
    role: &Role,
    log: &[SharedEvent],
) -> Result<Vec<Action>, AllocError>
    ensures { IfOk result (λ acts. acts.items ≡ logs.own_actions role.now log.now) }
{
    let mut acts = Vec::new(alloc);
    for event in log {
        if is_action_of(role, event) {
            acts.push(action_of(alloc, event)?)?;
        }
    }
    Ok(acts)
}
