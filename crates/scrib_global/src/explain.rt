//! The messages in flight after a permitted log.

ghost use Rattle.std.specs.Prelude.{◌≡◌, ◌++◌, OnOk, IfOk};
ghost use Rattle.scrib_types.specs.Meaning.{agreement_of};
ghost use Rattle.scrib_global.specs.Explained as spec;

use crate::fault::ExplainFault;
use crate::permitted::first_offence;
use crate::queues::{received, sent};
use scrib_types::name::Role;
use scrib_types::protocol::Protocol;
use scrib_types::shared_event::SharedEvent;
use scrib_types::shared_message::SharedMessage;
use std::alloc::{AllocError, Global};

/// A message that was sent and not yet received.
#[derive(Drop)]
pub struct Flight {
    pub from: Role,
    pub to: Role,
    pub message: SharedMessage,
}

/// The messages in flight after the log: by sender and then receiver in declared order, and then the oldest first. On
/// every path through the state that the log reaches as a run, exactly these are in flight.
///
/// # Errors
/// `NotPermitted` exactly where the protocol does not permit the log, with the place of the first offence.
/// `OutOfMemory` where memory is refused.
pub fn explain(
    alloc: Global,
    protocol: &Protocol,
    log: &[SharedEvent],
) -> Result<Vec<Flight>, ExplainFault>
    ensures { spec.Explains (agreement_of protocol.now) log.now result }
{
    match first_offence(alloc, protocol, log)? {
        Some(at) => Err(ExplainFault::NotPermitted { place: at + 1 }),
        None => Ok(all_in_flight(alloc, protocol.roles(), log)?),
    }
}

// The messages in flight from each of the roles to each of them. It fails where memory is refused, as do the functions
// below.
fn all_in_flight(
    alloc: Global,
    roles: &[Role],
    log: &[SharedEvent],
) -> Result<Vec<Flight>, AllocError>
    ensures { IfOk result (λ flights. flights.items ≡ spec.all_in_flight roles.now log.now) }
{
    let mut flights = Vec::new(alloc);
    for from in roles {
        push_from(alloc, from, roles, log, &mut flights)?;
    }
    Ok(flights)
}

// Adds the messages in flight from the role to each of the roles.
fn push_from(
    alloc: Global,
    from: &Role,
    roles: &[Role],
    log: &[SharedEvent],
    flights: &mut Vec<Flight>,
) -> Result<(), AllocError>
    ensures { OnOk result (flights.new.items ≡ flights.old.items ++ spec.in_flight_from from.now roles.now log.now) }
{
    for to in roles {
        push_between(alloc, from, to, log, flights)?;
    }
    Ok(())
}

// Adds the messages in flight between two roles: those that were sent after the received ones.
fn push_between(
    alloc: Global,
    from: &Role,
    to: &Role,
    log: &[SharedEvent],
    flights: &mut Vec<Flight>,
) -> Result<(), AllocError>
    ensures { OnOk result (flights.new.items ≡ flights.old.items ++ spec.in_flight from.now to.now log.now) }
{
    let landed = received(alloc, from, to, log)?.len();
    let messages = sent(alloc, from, to, log)?;
    for i in landed..messages.len() {
        flights.push(flight_of(from, to, &messages[i])?)?;
    }
    Ok(())
}

fn flight_of(from: &Role, to: &Role, message: &SharedMessage) -> Result<Flight, AllocError>
    ensures { IfOk result (λ f. f ≡ spec.flight from.now to.now message.now) }
{
    let from = from.copy()?;
    let to = to.copy()?;
    let message = message.copy()?;
    Ok(Flight { from, to, message })
}
