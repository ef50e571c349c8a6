//! Traces of local types.

ghost use Rattle.std.specs.Prelude.{◌↔◌, IsTrue, IfOk};
ghost use Rattle.scrib_types.specs.LocalView.{local_of, local_branches};
ghost use Rattle.scrib_types.specs.Traces.{IsTrace};
ghost use Rattle.scrib_types.specs.Trees.{Send, Recv};
ghost use Rattle.scrib_global.specs.Steps as spec;

use crate::unfold::{acts_first, unfold};
use scrib_types::event::Action;
use scrib_types::local::Local;
use scrib_types::name::Role;
use scrib_types::shared_message::SharedMessage;
use std::alloc::{AllocError, Global};

/// Whether the local type may make these actions, one after another.
///
/// # Errors
/// `AllocError` where memory is refused, here and in the functions below.
pub fn is_trace(alloc: Global, local: Local, actions: &[Action]) -> Result<bool, AllocError>
    ensures { IfOk result (λ is. IsTrue is ↔ IsTrace (local_of local) actions.now) }
{
    let left = left_after(alloc, local, actions)?;
    Ok(left.is_some())
}

/// What these actions, one after another, leave of the local type, or `None` where the type cannot make them.
pub fn left_after(
    alloc: Global,
    local: Local,
    actions: &[Action],
) -> Result<Option<Local>, AllocError>
    ensures { IfOk result (spec.LeavesAfter (local_of local) actions.now) }
{
    let mut left = local;
    for action in actions {
        match after(alloc, &left, action)? {
            Some(next) => left = next,
            None => return Ok(None),
        }
    }
    Ok(Some(left))
}

// The continuation of the local type after the action, or `None` where the type cannot make it.
#[tactic(auto, using(scrib_types::specs::LocalView::local_views))]
fn after(alloc: Global, local: &Local, action: &Action) -> Result<Option<Local>, AllocError>
    ensures { IfOk result (spec.Leaves (local_of local.now) action.now) }
{
    match local {
        Local::End | Local::Var(_) => Ok(None),
        Local::Rec(body) => {
            if !acts_first(body.get()) {
                return Ok(None);
            }
            let unfolded = unfold(alloc, body.get())?;
            after(alloc, &unfolded, action)
        }
        Local::Send { to, branches } => after_send(alloc, to, branches.as_slice(), action),
        Local::Recv { from, branches } => after_reception(alloc, from, branches.as_slice(), action),
    }
}

// The continuation of a choice of sends to the role after the action.
fn after_send(
    alloc: Global,
    to: &Role,
    branches: &[(SharedMessage, Local)],
    action: &Action,
) -> Result<Option<Local>, AllocError>
    ensures { IfOk result (spec.Leaves (Send to.now (local_branches branches.now)) action.now) }
{
    match action {
        Action::Sends { to: role, message } if role.equal(to) => branch_of(
            alloc, branches, message,
        ),
        _ => Ok(None),
    }
}

// The continuation of a choice of receptions from the role after the action.
fn after_reception(
    alloc: Global,
    from: &Role,
    branches: &[(SharedMessage, Local)],
    action: &Action,
) -> Result<Option<Local>, AllocError>
    ensures { IfOk result (spec.Leaves (Recv from.now (local_branches branches.now)) action.now) }
{
    match action {
        Action::Receives {
            from: role,
            message,
        } if role.equal(from) => branch_of(alloc, branches, message),
        _ => Ok(None),
    }
}

// The continuation of the first branch with the message.
fn branch_of(
    alloc: Global,
    branches: &[(SharedMessage, Local)],
    message: &SharedMessage,
) -> Result<Option<Local>, AllocError>
    ensures { IfOk result (spec.Continues (local_branches branches.now) message.now) }
{
    for (other, next) in branches {
        if message.equal(other) {
            return Ok(Some(Local::copy(alloc, next)?));
        }
    }
    Ok(None)
}
