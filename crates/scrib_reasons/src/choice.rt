//! Whether a local type is at its end, and whether its first choice has an event.

ghost use Rattle.std.specs.Prelude.{◌≡◌};
ghost use Rattle.scrib_types.specs.LocalView.{local_of, local_branches};
ghost use Rattle.scrib_reasons.specs.Tests as tests;

use scrib_types::event::Event;
use scrib_types::local::Local;
use scrib_types::name::Role;
use scrib_types::shared_message::SharedMessage;

/// Whether the local type is at its end.
#[tactic(auto, using(scrib_types::specs::LocalView::local_views))]
pub fn has_ended(local: &Local) -> bool
    ensures { result ≡ tests.is_end (local_of local.now) }
{
    match local {
        Local::End => true,
        Local::Var(_) | Local::Rec(_) | Local::Send { .. } | Local::Recv { .. } => false,
    }
}

/// Whether the first choice of the local type has the event. That of a recursion is that of its body.
#[tactic(auto, using(scrib_types::specs::LocalView::local_views))]
pub fn has_choice(local: &Local, event: &Event) -> bool
    ensures { result ≡ tests.has_choice (local_of local.now) event.now }
{
    match local {
        Local::End | Local::Var(_) => false,
        Local::Rec(body) => has_choice(body.get(), event),
        Local::Send { to, branches } => sends_one(to, branches.as_slice(), event),
        Local::Recv { from, branches } => receives_one(from, branches.as_slice(), event),
    }
}

// Whether the event is a send to the role of some branch's message.
fn sends_one(to: &Role, branches: &[(SharedMessage, Local)], event: &Event) -> bool
    ensures { result ≡ tests.sends_one to.now (local_branches branches.now) event.now }
{
    match event {
        Event::Sent {
            to: role,
            message,
            ..
        } => role.equal(to) && has_message(message, branches),
        _ => false,
    }
}

// Whether the event is a reception from the role of some branch's message.
fn receives_one(from: &Role, branches: &[(SharedMessage, Local)], event: &Event) -> bool
    ensures { result ≡ tests.receives_one from.now (local_branches branches.now) event.now }
{
    match event {
        Event::Received {
            from: role,
            message,
            ..
        } => role.equal(from) && has_message(message, branches),
        _ => false,
    }
}

// Whether some branch has the message.
fn has_message(message: &SharedMessage, branches: &[(SharedMessage, Local)]) -> bool
    ensures { result ≡ tests.has_message message.now (local_branches branches.now) }
{
    for (other, _) in branches {
        if message.equal(other) {
            return true;
        }
    }
    false
}
