//! What a role may do next, from its participant.

ghost use Rattle.std.specs.Prelude.{◌≡◌, ℕ, List, IfOk};
ghost use Rattle.std.specs.Option.{option_copied};
ghost use Rattle.scrib_types.specs.declared.event.Event.{Event};
ghost use Rattle.scrib_types.specs.Permitted.{IsPermitted};
ghost use Rattle.scrib_record.specs.Configurations as conf;
ghost use Rattle.scrib_record.specs.Versions.{meaning_of};
ghost use Rattle.scrib_offences.specs.Participants as spec;

use crate::oldest::oldest;
use crate::participant::Participant;
use scrib_global::next::RoleNext;
use scrib_machine::machine::Edge;
use scrib_record::configuration::Configuration;
use scrib_record::version::Version;
use scrib_types::containers::Items;
use scrib_types::event::Action;
use scrib_types::name::Role;
use scrib_types::shared_message::SharedMessage;
use std::alloc::{AllocError, Global};

/// Returns what the role of the participant may do next.
///
/// # Errors
/// `AllocError` where memory is refused, here and in the functions below.
pub fn next_of(
    alloc: Global,
    version: &Version,
    configuration: &Configuration,
    participant: &Participant,
) -> Result<RoleNext, AllocError>
    requires reached { conf.IsReached (meaning_of version.now) version.now.machines configuration.now }
    requires is_participant { (role : List ℕ) × spec.IsParticipant version.now configuration.now role participant.now }
    ensures { IfOk result (λ next. (log : List Event)
        → conf.LeadsTo (meaning_of version.now) version.now.machines log configuration.now
        → IsPermitted (meaning_of version.now) log
        → (role : List ℕ) → spec.IsParticipant version.now configuration.now role participant.now
        → spec.IsNext (meaning_of version.now) log role next) }
{
    let edges = participant.machine.edges(participant.state.state);
    if !participant.state.joined {
        return Ok(RoleNext::MayJoin {
            acts: !edges.is_empty(),
        });
    }
    let Some(first) = edges.first() else {
        return Ok(RoleNext::Done);
    };
    match &first.action {
        Action::Receives { from, .. } => {
            let message = oldest(version, configuration, from, participant.place);
            next_reception(alloc, from, message, edges)
        }
        _ => Ok(RoleNext::May(actions_of(alloc, edges)?)),
    }
}

// Returns what a role may do next whose edges are receptions from the other, where this is the oldest message in flight
// from the other to it.
fn next_reception(
    alloc: Global,
    from: &Role,
    oldest: Option<&SharedMessage>,
    edges: &[Edge],
) -> Result<RoleNext, AllocError>
    ensures { IfOk result (λ next.
        next ≡ spec.next_reception from.now (option_copied oldest.entry) (spec.actions_of edges.now)) }
{
    match oldest {
        Some(message) => {
            let from = from.copy()?;
            let message = message.copy()?;
            let mut only = Items::new(alloc);
            only.push(Action::Receives { from, message })?;
            Ok(RoleNext::May(only))
        }
        None => Ok(RoleNext::WaitsFor(actions_of(alloc, edges)?)),
    }
}

// Returns the actions of the edges, in order.
fn actions_of(alloc: Global, edges: &[Edge]) -> Result<Items<Action>, AllocError>
    ensures { IfOk result (λ actions. actions ≡ spec.actions_of edges.now) }
{
    let mut actions = Items::new(alloc);
    for edge in edges {
        let action = copy_action(&edge.action)?;
        actions.push(action)?;
    }
    Ok(actions)
}

// Returns a copy of the action.
fn copy_action(action: &Action) -> Result<Action, AllocError>
    ensures { IfOk result (λ copy. copy ≡ action.now) }
{
    match action {
        Action::Join => Ok(Action::Join),
        Action::Sends { to, message } => {
            let to = to.copy()?;
            let message = message.copy()?;
            Ok(Action::Sends { to, message })
        }
        Action::Receives { from, message } => {
            let from = from.copy()?;
            let message = message.copy()?;
            Ok(Action::Receives { from, message })
        }
    }
}
