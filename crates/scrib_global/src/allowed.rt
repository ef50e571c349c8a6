//! The actions that a role is allowed after a log.

ghost use Rattle.std.specs.Prelude.{◌≡◌, ◌↔◌, ◌⊎◌, [], ◌∷◌, ◌++◌, IsTrue, IfOk, OnOk, AllPairs, Contains};
ghost use Rattle.scrib_types.specs.GlobalView.{global_of};
ghost use Rattle.scrib_types.specs.LocalView.{local_of, local_branches};
ghost use Rattle.scrib_types.specs.Meaning.{agreement_of};
ghost use Rattle.scrib_types.specs.Permitted.{IsPermitted};
ghost use Rattle.scrib_types.specs.Projection.{projection, widest};
ghost use Rattle.scrib_types.specs.Logs.{event_of};
ghost use Rattle.scrib_types.specs.Judgement.{AreAllowed, ComesBefore};
ghost use Rattle.scrib_types.specs.declared.event.Action.{Action};
ghost use Rattle.scrib_types.specs.declared.event.Action.TheVariants as act;
ghost use Rattle.scrib_global.specs.Named as spec;

use crate::logs::event_of;
use crate::permitted::is_permitted;
use crate::sorted::insert;
use scrib_projection::projection::project_type;
use scrib_types::containers::Items;
use scrib_types::event::Action;
use scrib_types::global::GlobalType;
use scrib_types::local::Local;
use scrib_types::name::Role;
use scrib_types::profile::Profile;
use scrib_types::protocol::Protocol;
use scrib_types::shared_event::SharedEvent;
use scrib_types::shared_message::SharedMessage;
use std::alloc::{AllocError, Global};

// A role of a protocol, after a log.
#[derive(Clone, Copy, Drop)]
struct RoleAfterLog<'a> {
    protocol: &'a Protocol,
    log: &'a [SharedEvent],
    role: &'a Role,
}

/// Exactly the actions that the role may make after the log, sorted by their printed text, none twice.
///
/// # Errors
/// `AllocError` where memory is refused.
pub fn allowed(
    alloc: Global,
    protocol: &Protocol,
    before: &[SharedEvent],
    role: &Role,
) -> Result<Items<Action>, AllocError>
    ensures { IfOk result (AreAllowed (agreement_of protocol.now) before.now role.now) }
{
    let candidates = candidates(alloc, protocol.global(), role)?;
    let at = RoleAfterLog {
        protocol,
        log: before,
        role,
    };
    let mut list = Vec::new(alloc);
    for action in candidates {
        add_allowed(alloc, &at, action, &mut list)?;
    }
    Ok(Items::from_vec(list))
}

// Inserts the action into the sorted list, where the role may make it after the log.
fn add_allowed(
    alloc: Global,
    at: &RoleAfterLog,
    action: Action,
    list: &mut Vec<Action>,
) -> Result<(), AllocError>
    requires { AllPairs ComesBefore list.old.items }
    ensures sorted { OnOk result (AllPairs ComesBefore list.new.items) }
    ensures kept { OnOk result ((a : Action) → Contains list.new.items a ↔ (Contains list.old.items a
        ⊎ ((action ≡ a) × IsPermitted (agreement_of at.now.protocol.now)
        (at.now.log.now ++ event_of at.now.role.now action ∷ [])))) }
{
    if may_follow(alloc, at, &action)? {
        insert(alloc, list, action)
    } else {
        Ok(())
    }
}

// Whether the log followed by this action of the role is permitted.
fn may_follow(alloc: Global, at: &RoleAfterLog, action: &Action) -> Result<bool, AllocError>
    ensures { IfOk result (λ may.
        IsTrue may ↔ IsPermitted (agreement_of at.now.protocol.now)
        (at.now.log.now ++ event_of at.now.role.now action.now ∷ [])) }
{
    let mut log = copies(alloc, at.log)?;
    log.push(event_of(alloc, at.role, action)?)?;
    is_permitted(alloc, at.protocol, &log)
}

// A copy of the log.
fn copies(alloc: Global, log: &[SharedEvent]) -> Result<Vec<SharedEvent>, AllocError>
    ensures { IfOk result (λ copies. copies.items ≡ log.now) }
{
    let mut copies = Vec::with_capacity(alloc, log.len())?;
    for event in log {
        copies.push(event.copy()?)?;
    }
    Ok(copies)
}

// The join, and each send and reception in the role's projection. The role is allowed no other action.
fn candidates(alloc: Global, global: &GlobalType, role: &Role) -> Result<Vec<Action>, AllocError>
    ensures { IfOk result (λ list. list.items ≡ act.Join
        ∷ spec.named_by (projection widest role.now (global_of global.now))) }
{
    let mut list = Vec::new(alloc);
    list.push(Action::Join)?;
    if let Some(local) = project_type(alloc, global, role, Profile::Reception)? {
        push_named(alloc, &local, &mut list)?;
    }
    Ok(list)
}

// Adds each send and reception in the type, in order.
#[cycle(push_named)]
#[tactic(auto, using(scrib_types::specs::LocalView::local_views))]
fn push_named(alloc: Global, local: &Local, list: &mut Vec<Action>) -> Result<(), AllocError>
    ensures { OnOk result (list.new.items ≡ list.old.items ++ spec.named (local_of local.now)) }
{
    match local {
        Local::End | Local::Var(_) => Ok(()),
        Local::Rec(body) => push_named(alloc, body.get(), list),
        Local::Send { to, branches } => push_sends(alloc, branches.as_slice(), to, list),
        Local::Recv { from, branches } => push_receptions(alloc, branches.as_slice(), from, list),
    }
}

#[cycle(push_named)]
fn push_sends(
    alloc: Global,
    branches: &[(SharedMessage, Local)],
    to: &Role,
    list: &mut Vec<Action>,
) -> Result<(), AllocError>
    ensures { OnOk result (list.new.items ≡ list.old.items ++ spec.named_sends to.now (local_branches branches.now)) }
{
    for (message, next) in branches {
        list.push(sends(to, message)?)?;
        push_named(alloc, next, list)?;
    }
    Ok(())
}

#[cycle(push_named)]
fn push_receptions(
    alloc: Global,
    branches: &[(SharedMessage, Local)],
    from: &Role,
    list: &mut Vec<Action>,
) -> Result<(), AllocError>
    ensures { OnOk result (list.new.items ≡ list.old.items ++ spec.named_receptions from.now
        (local_branches branches.now)) }
{
    for (message, next) in branches {
        list.push(receives(from, message)?)?;
        push_named(alloc, next, list)?;
    }
    Ok(())
}

/// The send of the message to the role.
///
/// # Errors
/// `AllocError` where memory is refused, here and in the function below.
pub fn sends(to: &Role, message: &SharedMessage) -> Result<Action, AllocError>
    ensures { IfOk result (λ action. action ≡ act.Sends to.now message.now) }
{
    let to = to.copy()?;
    let message = message.copy()?;
    Ok(Action::Sends { to, message })
}

/// The reception of the message from the role.
pub fn receives(from: &Role, message: &SharedMessage) -> Result<Action, AllocError>
    ensures { IfOk result (λ action. action ≡ act.Receives from.now message.now) }
{
    let from = from.copy()?;
    let message = message.copy()?;
    Ok(Action::Receives { from, message })
}
