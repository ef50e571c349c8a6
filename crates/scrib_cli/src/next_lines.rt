//! The text of `next`: a line for each role of a conversation, or a refusal.

ghost use Rattle.std.specs.Prelude.{◌≡◌, ◌++◌, IfOk, IfErr, OnOk};
ghost use Rattle.scrib_core.specs.Held.{state_of};
ghost use Rattle.scrib_cli.specs.NextLines as lines;
ghost use Rattle.scrib_script_io.specs.declared.fault.ScriptFault.TheVariants as fault;

use crate::explanation::{not_permitted, refusal};
use scrib_core::monitor::Core;
use scrib_global::fault::ExplainFault;
use scrib_global::next::{RoleNext, RoleStatus, next_of_roles};
use scrib_script_io::fault::ScriptFault;
use scrib_types::allowed::push_allowed;
use scrib_types::text::push_bytes;
use std::alloc::{AllocError, Global};

/// Returns whether the roles of the conversation are listed, and the text.
///
/// # Errors
/// `OutOfMemory` where there is no memory for the text.
pub fn next_steps(alloc: Global, core: &Core, id: u32) -> Result<(bool, Vec<u8>), ScriptFault>
    ensures steps { IfOk result (λ r. lines.NextSteps (state_of core.now).world id r.0 r.1.items) }
    ensures fault { IfErr result (λ e. e ≡ fault.OutOfMemory) }
{
    let Some((protocol, log)) = core.view(id) else {
        let text = refusal(alloc, b"NoConversation")?;
        return Ok((false, text));
    };
    let Some(protocol) = protocol else {
        let text = refusal(alloc, b"UnknownProtocol")?;
        return Ok((false, text));
    };
    match next_of_roles(alloc, protocol, log) {
        Ok(roles) => Ok((true, roles_text(alloc, roles.as_slice())?)),
        Err(ExplainFault::NotPermitted { place }) => Ok((false, not_permitted(alloc, place)?)),
        Err(ExplainFault::OutOfMemory) => Err(ScriptFault::OutOfMemory),
    }
}

// The line of each role, and behind them `complete` where all are at rest.
fn roles_text(alloc: Global, roles: &[RoleStatus]) -> Result<Vec<u8>, AllocError>
    ensures { IfOk result (λ text.
        text.items ≡ lines.next_lines roles.now ++ lines.complete_line (lines.are_at_rest roles.now)) }
{
    let mut text = Vec::new(alloc);
    push_lines(&mut text, roles)?;
    push_complete(&mut text, are_at_rest(roles))?;
    Ok(text)
}

/// Adds the line of each role.
///
/// # Errors
/// `AllocError` where memory for the longer text is refused.
pub fn push_lines(out: &mut Vec<u8>, roles: &[RoleStatus]) -> Result<(), AllocError>
    ensures { OnOk result (out.new.items ≡ out.old.items ++ lines.next_lines roles.now) }
{
    for status in roles {
        push_line(out, status)?;
    }
    Ok(())
}

// Adds the line of a role.
fn push_line(out: &mut Vec<u8>, status: &RoleStatus) -> Result<(), AllocError>
    ensures { OnOk result (out.new.items ≡ out.old.items ++ lines.next_line status.now) }
{
    push_bytes(out, status.role.as_bytes())?;
    push_bytes(out, b": ")?;
    push_next(out, &status.next)?;
    push_bytes(out, b"\n")
}

// Adds what a role may do next.
fn push_next(out: &mut Vec<u8>, next: &RoleNext) -> Result<(), AllocError>
    ensures { OnOk result (out.new.items ≡ out.old.items ++ lines.next_text next.now) }
{
    match next {
        RoleNext::MayJoin { acts: true } => push_bytes(out, b"may join"),
        RoleNext::MayJoin { acts: false } => push_bytes(out, b"may join, done"),
        RoleNext::Done => push_bytes(out, b"done"),
        RoleNext::May(actions) => {
            push_bytes(out, b"may ")?;
            push_allowed(out, actions.as_slice())
        }
        RoleNext::WaitsFor(actions) => {
            push_bytes(out, b"waits for ")?;
            push_allowed(out, actions.as_slice())
        }
    }
}

// Adds the last line, which a complete log alone has.
fn push_complete(out: &mut Vec<u8>, is_complete: bool) -> Result<(), AllocError>
    ensures { OnOk result (out.new.items ≡ out.old.items ++ lines.complete_line is_complete) }
{
    if is_complete {
        push_bytes(out, b"complete\n")
    } else {
        Ok(())
    }
}

/// Returns whether each role is at rest: done, or not joined and without any action. After a permitted log this holds
/// exactly where the log is complete.
pub fn are_at_rest(roles: &[RoleStatus]) -> bool
    ensures { result ≡ lines.are_at_rest roles.now }
{
    for status in roles {
        if !is_at_rest(&status.next) {
            return false;
        }
    }
    true
}

// Whether the role is done, or has not joined and never acts.
fn is_at_rest(next: &RoleNext) -> bool
    ensures { result ≡ lines.is_at_rest next.now }
{
    match next {
        RoleNext::MayJoin { acts } => !*acts,
        RoleNext::Done => true,
        RoleNext::May(_) | RoleNext::WaitsFor(_) => false,
    }
}
