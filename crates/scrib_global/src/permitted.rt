//! The test whether a protocol permits a log, by the definition: it filters the whole log by role and compares lists of
//! messages.

ghost use Rattle.std.specs.Prelude.{◌↔◌, IsTrue, IfOk};
ghost use Rattle.scrib_types.specs.GlobalView.{global_of};
ghost use Rattle.scrib_types.specs.Meaning.{agreement_of};
ghost use Rattle.scrib_types.specs.Permitted.{IsPermitted};
ghost use Rattle.scrib_global.specs.Offences.{FirstOffence};
ghost use Rattle.scrib_global.specs.Traced.{IsTraced, AllTraced};

use crate::logs::{all_joined, own_actions};
use crate::queues::is_queued;
use crate::trace::is_trace;
use scrib_projection::projection::project_type;
use scrib_types::global::GlobalType;
use scrib_types::name::Role;
use scrib_types::profile::Profile;
use scrib_types::protocol::Protocol;
use scrib_types::shared_event::SharedEvent;
use std::alloc::{AllocError, Global};

/// Whether the protocol permits the log.
///
/// # Errors
/// `AllocError` where memory is refused, here and in the functions below.
pub fn is_permitted(
    alloc: Global,
    protocol: &Protocol,
    log: &[SharedEvent],
) -> Result<bool, AllocError>
    ensures { IfOk result (λ is. IsTrue is ↔ IsPermitted (agreement_of protocol.now) log.now) }
{
    let roles = protocol.roles();
    if !all_joined(roles, log) {
        return Ok(false);
    }
    if !all_traced(alloc, protocol.global(), log, roles)? {
        return Ok(false);
    }
    is_queued(alloc, log)
}

/// The index of the first event with which the log isn't permitted, or `None` where the log is.
pub fn first_offence(
    alloc: Global,
    protocol: &Protocol,
    log: &[SharedEvent],
) -> Result<Option<usize>, AllocError>
    ensures { IfOk result (FirstOffence (agreement_of protocol.now) log.now) }
{
    for i in 0..log.len() {
        if !is_permitted(alloc, protocol, &log[..i + 1])? {
            return Ok(Some(i));
        }
    }
    Ok(None)
}

// Whether what each of the roles did is a trace of its projection.
fn all_traced(
    alloc: Global,
    global: &GlobalType,
    log: &[SharedEvent],
    roles: &[Role],
) -> Result<bool, AllocError>
    ensures { IfOk result (λ are. IsTrue are ↔ AllTraced (global_of global.now) log.now roles.now) }
{
    for role in roles {
        if !is_traced(alloc, global, log, role)? {
            return Ok(false);
        }
    }
    Ok(true)
}

// Whether the role has a projection, and what it did is a trace of that.
fn is_traced(
    alloc: Global,
    global: &GlobalType,
    log: &[SharedEvent],
    role: &Role,
) -> Result<bool, AllocError>
    ensures { IfOk result (λ is. IsTrue is ↔ IsTraced (global_of global.now) log.now role.now) }
{
    let own = own_actions(alloc, role, log)?;
    match project_type(alloc, global, role, Profile::Reception)? {
        Some(local) => is_trace(alloc, local, &own),
        None => Ok(false),
    }
}
