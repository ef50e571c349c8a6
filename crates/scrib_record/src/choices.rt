//! The next actions of a role.

ghost use Rattle.std.specs.Prelude.{◌≡◌, ◌↔◌, ◌<◌, List, IsTrue, IfOk, AllPairs, Contains, length, map};
ghost use Rattle.scrib_types.specs.declared.event.Action.{Action};
ghost use Rattle.scrib_types.specs.declared.event.Event.{Event};
ghost use Rattle.scrib_types.specs.Judgement.{ComesBefore, AreAllowed};
ghost use Rattle.scrib_types.specs.Permitted.{IsPermitted};
ghost use Rattle.scrib_record.specs.Configurations as conf;
ghost use Rattle.scrib_record.specs.Versions.{meaning_of};

use crate::configuration::Configuration;
use crate::copies::copy_action;
use crate::role_state::place_of;
use crate::version::Version;
use scrib_machine::machine::Edge;
use scrib_types::containers::Items;
use scrib_types::event::Action;
use scrib_types::name::Role;
use scrib_types::shared_message::SharedMessage;
use std::alloc::{AllocError, Global};

/// Returns the actions that the role may perform next, sorted by their printed texts, without duplicates.
///
/// # Errors
/// `AllocError` where memory was refused.
pub fn choices(
    configuration: &Configuration,
    version: &Version,
    role: &Role,
) -> Result<Items<Action>, AllocError>
    requires { conf.IsReached (meaning_of version.now) version.now.machines configuration.now }
    ensures { IfOk result (λ list. (log : List Event)
        → conf.LeadsTo (meaning_of version.now) version.now.machines log configuration.now
        → IsPermitted (meaning_of version.now) log → AreAllowed (meaning_of version.now) log role.now list) }
{
    let alloc = *configuration.role_states.allocator();
    let roles = version.protocol().roles();
    let Some(at) = place_of(roles, role) else {
        return Ok(Items::new(alloc));
    };
    let role_state = &configuration.role_states[at];
    if !role_state.joined {
        let mut only = Items::new(alloc);
        only.push(Action::Join)?;
        return Ok(only);
    }
    let edges = version.machines()[at].edges(role_state.state);
    let list = allowed_actions(configuration, roles, at, edges)?;
    Ok(list)
}

// Returns those of the edges' actions that the messages in flight allow the role at this place, in order.
fn allowed_actions(
    configuration: &Configuration,
    roles: &[Role],
    at: usize,
    edges: &[Edge],
) -> Result<Items<Action>, AllocError>
    requires roles { configuration.now.queues.roles ≡ length roles.now }
    requires queued { conf.AreQueued (conf.exchanges_of configuration.now.numbering) configuration.now.queues }
    requires place { at < length roles.now }
    requires order { AllPairs ComesBefore (map (λ e. e.action) edges.now) }
    ensures sorted { IfOk result (AllPairs ComesBefore) }
    ensures exact { IfOk result (λ list. (act : Action) → Contains list act
        ↔ (Contains (map (λ e. e.action) edges.now) act × conf.IsEnabled roles.now (conf.in_flight configuration.now) at act)) }
{
    let alloc = *configuration.role_states.allocator();
    let mut list = Items::new(alloc);
    for edge in edges {
        if is_allowed(configuration, roles, at, &edge.action) {
            let action = copy_action(&edge.action)?;
            list.push(action)?;
        }
    }
    Ok(list)
}

// Returns whether the messages in flight allow the role at this place this action. A reception takes the oldest
// message.
fn is_allowed(configuration: &Configuration, roles: &[Role], at: usize, action: &Action) -> bool
    requires roles { configuration.now.queues.roles ≡ length roles.now }
    requires queued { conf.AreQueued (conf.exchanges_of configuration.now.numbering) configuration.now.queues }
    requires place { at < length roles.now }
    ensures { IsTrue result ↔ conf.IsEnabled roles.now (conf.in_flight configuration.now) at action.now }
{
    match action {
        // No machine has a join.
        Action::Join => false,
        Action::Sends { .. } => true,
        Action::Receives { from, message } => match place_of(roles, from) {
            Some(sender) => is_first(configuration, sender, at, message),
            None => false,
        },
    }
}

// Returns whether the message is the oldest from `p` to `q`.
fn is_first(configuration: &Configuration, p: usize, q: usize, message: &SharedMessage) -> bool
    requires queued { conf.AreQueued (conf.exchanges_of configuration.now.numbering) configuration.now.queues }
    requires sender { p < configuration.now.queues.roles }
    requires receiver { q < configuration.now.queues.roles }
    ensures { IsTrue result ↔ conf.IsAtFront p q message.now (conf.in_flight configuration.now) }
{
    let Some(numbering) = &configuration.numbering else {
        return false;
    };
    let Some(number) = configuration.queues.front(p, q) else {
        return false;
    };
    match numbering.exchanges().get(*number) {
        Some(exchange) => exchange.message.equal(message),
        None => false,
    }
}
