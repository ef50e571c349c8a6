//! What each role may do next after a permitted log.

ghost use Rattle.std.specs.Prelude.{◌≡◌, IfOk};
ghost use Rattle.scrib_types.specs.GlobalView.{global_of};
ghost use Rattle.scrib_types.specs.LocalView.{local_of, local_branches};
ghost use Rattle.scrib_types.specs.Meaning.{agreement_of};
ghost use Rattle.scrib_types.specs.Queues.{flights};
ghost use Rattle.scrib_global.specs.Next as spec;
ghost use Rattle.scrib_global.specs.NextEvents.{DeterminesNext, FindsNext};

use crate::allowed::{receives, sends};
use crate::fault::ExplainFault;
use crate::logs::{has_joined, own_actions};
use crate::permitted::first_offence;
use crate::queues::{received, sent};
use crate::trace::left_after;
use crate::unfold::acts_first;
use scrib_projection::projection::project_type;
use scrib_types::containers::Items;
use scrib_types::event::Action;
use scrib_types::global::GlobalType;
use scrib_types::local::Local;
use scrib_types::name::Role;
use scrib_types::profile::Profile;
use scrib_types::protocol::Protocol;
use scrib_types::shared_event::SharedEvent;
use scrib_types::shared_message::SharedMessage;
use std::alloc::{AllocError, Global};

/// What a role may do next after a log.
#[derive(Drop)]
pub enum RoleNext {
    /// It has not joined, and may join. `acts` is whether it ever sends or receives.
    MayJoin { acts: bool },
    /// It has joined, and its local type is at its end.
    Done,
    /// It may make each of these sends, or this one reception. The reception is of the oldest message in flight from
    /// the role that it awaits.
    May(Items<Action>),
    /// It waits for any of these receptions. No message from their sender is in flight to it.
    WaitsFor(Items<Action>),
}

/// A declared role, and what it may do next.
#[derive(Drop)]
pub struct RoleStatus {
    pub role: Role,
    pub next: RoleNext,
}

/// A law: after a permitted log each declared role may join, is done, may act or waits, and exactly one of these holds
/// of it. It may join exactly where the log with its join is permitted. It is done where it joined and its local type
/// is at its end. It may make exactly the sends and receptions with which the log is permitted, one at least. It waits
/// where there is none: for exactly the receptions that its local type offers.
pub fn determines_next(protocol: &Protocol)
    ensures { DeterminesNext (agreement_of protocol.now) }
{}

/// What each declared role may do next after the log, in declared order.
///
/// # Errors
/// `NotPermitted` exactly where the protocol does not permit the log, with the place of the first offence.
/// `OutOfMemory` where memory is refused.
pub fn next_of_roles(
    alloc: Global,
    protocol: &Protocol,
    log: &[SharedEvent],
) -> Result<Vec<RoleStatus>, ExplainFault>
    ensures { FindsNext (agreement_of protocol.now) log.now result }
{
    match first_offence(alloc, protocol, log)? {
        Some(at) => Err(ExplainFault::NotPermitted { place: at + 1 }),
        None => Ok(all_next(alloc, protocol.global(), protocol.roles(), log)?),
    }
}

// What each of the roles may do next. It fails where memory is refused, as do the functions below.
fn all_next(
    alloc: Global,
    global: &GlobalType,
    roles: &[Role],
    log: &[SharedEvent],
) -> Result<Vec<RoleStatus>, AllocError>
    ensures { IfOk result
        (λ found. spec.AreNextByType (global_of global.now) log.now roles.now found.items) }
{
    let mut found = Vec::new(alloc);
    for role in roles {
        let next = role_next(alloc, global, role, log)?;
        let role = role.copy()?;
        found.push(RoleStatus { role, next })?;
    }
    Ok(found)
}

// What the role may do next, where a local type is left to it.
fn role_next(
    alloc: Global,
    global: &GlobalType,
    role: &Role,
    log: &[SharedEvent],
) -> Result<RoleNext, AllocError>
    ensures { IfOk result (spec.IsNextByType (global_of global.now) log.now role.now) }
{
    match type_left(alloc, global, role, log)? {
        Some(left) if has_joined(role, log) => next_by_type(alloc, &left, role, log),
        Some(left) => Ok(RoleNext::MayJoin {
            acts: acts_first(&left),
        }),
        None => Ok(RoleNext::Done),
    }
}

/// The local type that is left to the role after what it did, or `None` where there is none. A declared role has one
/// after a permitted log.
///
/// # Errors
/// `AllocError` where memory is refused.
pub fn type_left(
    alloc: Global,
    global: &GlobalType,
    role: &Role,
    log: &[SharedEvent],
) -> Result<Option<Local>, AllocError>
    ensures { IfOk result (spec.IsTypeLeft (global_of global.now) log.now role.now) }
{
    let own = own_actions(alloc, role, log)?;
    match project_type(alloc, global, role, Profile::Reception)? {
        Some(local) => left_after(alloc, local, &own),
        None => Ok(None),
    }
}

// What a role that joined may do next, where this type is left to it.
#[tactic(auto, using(scrib_types::specs::LocalView::local_views))]
fn next_by_type(
    alloc: Global,
    left: &Local,
    role: &Role,
    log: &[SharedEvent],
) -> Result<RoleNext, AllocError>
    ensures { IfOk result (λ next. next ≡ spec.next_by_type (local_of left.now) role.now log.now) }
{
    match left {
        Local::End | Local::Var(_) => Ok(RoleNext::Done),
        Local::Rec(body) => next_by_type(alloc, body.get(), role, log),
        Local::Send { to, branches } => {
            let list = sends_of(alloc, to, branches.as_slice())?;
            Ok(RoleNext::May(list))
        }
        Local::Recv { from, branches } => {
            let message = oldest(alloc, from, role, log)?;
            next_reception(alloc, from, message, branches.as_slice())
        }
    }
}

// What a role may do next that awaits one of these messages from the other, where this is the oldest in flight to it.
fn next_reception(
    alloc: Global,
    from: &Role,
    oldest: Option<SharedMessage>,
    branches: &[(SharedMessage, Local)],
) -> Result<RoleNext, AllocError>
    ensures { IfOk result (λ next. next ≡ spec.next_reception from.now oldest (local_branches branches.now)) }
{
    match oldest {
        Some(message) => {
            let mut list = Vec::new(alloc);
            list.push(receives(from, &message)?)?;
            Ok(RoleNext::May(Items::from_vec(list)))
        }
        None => Ok(RoleNext::WaitsFor(receptions_of(alloc, from, branches)?)),
    }
}

/// The oldest message in flight from the one role to the other, or `None` where none is.
///
/// # Errors
/// `AllocError` where memory is refused.
pub fn oldest(
    alloc: Global,
    from: &Role,
    to: &Role,
    log: &[SharedEvent],
) -> Result<Option<SharedMessage>, AllocError>
    ensures { IfOk result (λ message. message ≡ spec.oldest_of (flights from.now to.now log.now)) }
{
    let landed = received(alloc, from, to, log)?.len();
    let messages = sent(alloc, from, to, log)?;
    if landed < messages.len() {
        Ok(Some(messages[landed].copy()?))
    } else {
        Ok(None)
    }
}

// A send to the role of each message of the choice, in order.
fn sends_of(
    alloc: Global,
    to: &Role,
    branches: &[(SharedMessage, Local)],
) -> Result<Items<Action>, AllocError>
    ensures { IfOk result (λ list. list ≡ spec.sends_of to.now (local_branches branches.now)) }
{
    let mut list = Vec::new(alloc);
    for (message, _) in branches {
        list.push(sends(to, message)?)?;
    }
    Ok(Items::from_vec(list))
}

// A reception from the role of each message of the choice, in order.
fn receptions_of(
    alloc: Global,
    from: &Role,
    branches: &[(SharedMessage, Local)],
) -> Result<Items<Action>, AllocError>
    ensures { IfOk result (λ list. list ≡ spec.receptions_of from.now (local_branches branches.now)) }
{
    let mut list = Vec::new(alloc);
    for (message, _) in branches {
        list.push(receives(from, message)?)?;
    }
    Ok(Items::from_vec(list))
}
