//! What is known of the first offence of a log.

ghost use Rattle.std.specs.Prelude.{◌≡◌, IfOk, IfErr, take};
ghost use Rattle.scrib_types.specs.declared.event.Event.{Event};
ghost use Rattle.scrib_types.specs.Meaning.{agreement_of};
ghost use Rattle.scrib_global.specs.Offences.{Offends};
ghost use Rattle.scrib_show.specs.Offence.{IsOffence};
ghost use Rattle.scrib_show.specs.Shown.{IsAfter};

use crate::after::{After, after_log};
use scrib_global::fault::ExplainFault;
use scrib_reasons::find::reason_of;
use scrib_reasons::reason::Reason;
use scrib_types::protocol::Protocol;
use scrib_types::shared_event::SharedEvent;
use std::alloc::{AllocError, Global};

// What is known before the offence. It fails where memory is refused, as does the function below.
pub(crate) fn before_offence(
    alloc: Global,
    protocol: &Protocol,
    log: &[SharedEvent],
    at: usize,
) -> Result<After, AllocError>
    requires { Offends (agreement_of protocol.now) log.now at }
    ensures { IfOk result (λ after.
        IsAfter (agreement_of protocol.now) (take at log.now) after.flights.items after.roles.items) }
{
    match after_log(alloc, protocol, &log[..at]) {
        Ok(after) => Ok(after),
        Err(ExplainFault::NotPermitted { .. }) => unreachable!(),
        Err(ExplainFault::OutOfMemory) => Err(AllocError),
    }
}

// Why the event may not follow.
pub(crate) fn offence_reason(
    alloc: Global,
    protocol: &Protocol,
    log: &[SharedEvent],
    at: usize,
) -> Result<Reason, AllocError>
    requires { Offends (agreement_of protocol.now) log.now at }
    ensures { IfOk result (λ reason.
        (e : Event) × IsOffence (agreement_of protocol.now) log.now at e reason) }
{
    match reason_of(alloc, protocol, &log[..at], &log[at])? {
        Some(reason) => Ok(reason),
        None => unreachable!(),
    }
}
