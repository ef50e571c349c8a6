//! The printed text of a local type.

ghost use Rattle.std.specs.Prelude.{◌≡◌, ◌≤◌, ◌++◌, length, IfOk, OnOk};
ghost use Rattle.scrib_types.specs.LocalView.{local_of, local_branches};
ghost use Rattle.scrib_types.specs.Texts.{joined_by};
ghost use Rattle.scrib_projection.specs.Text as spec;

use scrib_types::local::Local;
use scrib_types::shared_message::SharedMessage;
use scrib_types::text::{push_bytes, push_message, push_number};
use std::alloc::{AllocError, Global};

/// The local type's text, in ASCII: `end`; `Xn` for a variable, where n recursions enclose its own; `rec Xn.L`; `B!m.L`
/// or `A?m.L` for one branch, and `B!{m.L,n.K}` or `A?{m.L,n.K}` for several.
///
/// # Errors
/// `AllocError` where memory is refused.
pub fn text(alloc: Global, local: &Local) -> Result<Vec<u8>, AllocError>
    ensures { IfOk result (λ written. written.items ≡ spec.local_text 0 (local_of local.now)) }
{
    let mut out = Vec::new(alloc);
    push_local(&mut out, local, 0)?;
    Ok(out)
}

// Adds the text of a type inside `depth` recursions.
#[cycle(text)]
#[tactic(auto, using(scrib_types::specs::LocalView::local_views))]
fn push_local(out: &mut Vec<u8>, local: &Local, depth: u64) -> Result<(), AllocError>
    requires { depth ≤ length out.old.items }
    ensures { OnOk result (out.new.items ≡ out.old.items ++ spec.local_text depth (local_of local.now)) }
{
    match local {
        Local::End => {
            push_bytes(out, b"end")?;
            Ok(())
        }
        Local::Var(i) => {
            push_bytes(out, b"X")?;
            push_number(out, depth.saturating_sub(1).saturating_sub(u64::from(*i)))?;
            Ok(())
        }
        Local::Rec(body) => {
            push_bytes(out, b"rec X")?;
            push_number(out, depth)?;
            push_bytes(out, b".")?;
            push_local(out, body.get(), depth + 1)?;
            Ok(())
        }
        Local::Send { to, branches } => {
            push_bytes(out, to.as_bytes())?;
            push_bytes(out, b"!")?;
            push_braced(out, branches.as_slice(), depth)?;
            Ok(())
        }
        Local::Recv { from, branches } => {
            push_bytes(out, from.as_bytes())?;
            push_bytes(out, b"?")?;
            push_braced(out, branches.as_slice(), depth)?;
            Ok(())
        }
    }
}

// Adds one branch alone, or several in braces.
#[cycle(text)]
fn push_braced(
    out: &mut Vec<u8>,
    branches: &[(SharedMessage, Local)],
    depth: u64,
) -> Result<(), AllocError>
    requires { depth ≤ length out.old.items }
    ensures { OnOk result (out.new.items ≡ out.old.items
        ++ spec.braced (spec.is_one (local_branches branches.now))
        (joined_by 44 (spec.branch_texts depth (local_branches branches.now)))) }
{
    if is_one(branches) {
        push_branches(out, branches, depth)?;
        return Ok(());
    }
    push_bytes(out, b"{")?;
    push_branches(out, branches, depth)?;
    push_bytes(out, b"}")?;
    Ok(())
}

#[tactic(auto, using(crate::proofs::Texts::one, crate::proofs::Texts::not_one))]
fn is_one(branches: &[(SharedMessage, Local)]) -> bool
    ensures { result ≡ spec.is_one (local_branches branches.now) }
{
    if branches.len() == 1 {
        return true;
    }
    false
}

// Adds the branches with commas between them.
#[cycle(text)]
fn push_branches(
    out: &mut Vec<u8>,
    branches: &[(SharedMessage, Local)],
    depth: u64,
) -> Result<(), AllocError>
    requires { depth ≤ length out.old.items }
    ensures { OnOk result (out.new.items ≡ out.old.items
        ++ joined_by 44 (spec.branch_texts depth (local_branches branches.now))) }
{
    for (i, (message, local)) in branches.iter().enumerate() {
        if i > 0 {
            push_bytes(out, b",")?;
        }
        push_message(out, message.get())?;
        push_bytes(out, b".")?;
        push_local(out, local, depth)?;
    }
    Ok(())
}
