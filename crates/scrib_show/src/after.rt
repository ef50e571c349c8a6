//! What is known after a permitted log: the messages in flight, and what each role may do next.

ghost use Rattle.scrib_types.specs.Meaning.{agreement_of};
ghost use Rattle.scrib_show.specs.Progress.{FindsAfter};

use scrib_global::explain::{Flight, explain};
use scrib_global::fault::ExplainFault;
use scrib_global::next::{RoleStatus, next_of_roles};
use scrib_types::protocol::Protocol;
use scrib_types::shared_event::SharedEvent;
use std::alloc::Global;

// The messages in flight after a permitted log, and what each role may do next.
#[derive(Drop)]
pub(crate) struct After {
    pub flights: Vec<Flight>,
    pub roles: Vec<RoleStatus>,
}

// What is known after the log. It fails with `NotPermitted` and the place of the first offence, or where memory is
// refused.
pub(crate) fn after_log(
    alloc: Global,
    protocol: &Protocol,
    log: &[SharedEvent],
) -> Result<After, ExplainFault>
    ensures { FindsAfter (agreement_of protocol.now) log.now result }
{
    let flights = explain(alloc, protocol, log)?;
    let roles = next_of_roles(alloc, protocol, log)?;
    Ok(After { flights, roles })
}
