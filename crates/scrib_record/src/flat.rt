//! The flat form of a protocol's meaning.

ghost use Rattle.std.specs.Prelude.{◌≡◌, ◌++◌, IfOk, OnOk};
ghost use Rattle.scrib_types.specs.GlobalView.{global_of, global_branches};
ghost use Rattle.scrib_types.specs.Meaning.{agreement_of};
ghost use Rattle.scrib_record.specs.Flat as flat;

use scrib_types::containers::Items;
use scrib_types::flat::{push_name, push_names, push_number};
use scrib_types::global::GlobalType;
use scrib_types::protocol::Protocol;
use scrib_types::shared_message::SharedMessage;
use scrib_types::text::push_bytes;
use std::alloc::{AllocError, Global};

/// Returns the flat form of the protocol's meaning.
///
/// # Errors
/// `AllocError` where memory was refused.
#[tactic(auto, unfolding(crate::specs::Flat::flat_form))]
pub fn flat_form(alloc: Global, protocol: &Protocol) -> Result<Items<u8>, AllocError>
    ensures { IfOk result (λ bytes. bytes ≡ flat.flat_form (agreement_of protocol.now)) }
{
    let mut out = Vec::new(alloc);
    push_names(&mut out, protocol.roles())?;
    push_global(&mut out, protocol.global())?;
    Ok(Items::from_vec(out))
}

// Appends the number of the type's form, and its parts.
#[cycle(flat)]
#[tactic(auto, using(scrib_types::specs::GlobalView::global_views))]
fn push_global(out: &mut Vec<u8>, global: &GlobalType) -> Result<(), AllocError>
    ensures { OnOk result (out.new.items ≡ out.old.items ++ flat.global_bytes (global_of global.now)) }
{
    match global {
        GlobalType::End => {
            out.push(0)?;
            Ok(())
        }
        GlobalType::Var(i) => {
            out.push(1)?;
            push_number(out, u64::from(*i))?;
            Ok(())
        }
        GlobalType::Rec(body) => {
            out.push(2)?;
            push_global(out, body.get())?;
            Ok(())
        }
        GlobalType::Comm { from, to, branches } => {
            out.push(3)?;
            push_name(out, from)?;
            push_name(out, to)?;
            push_branches(out, branches.as_slice())?;
            Ok(())
        }
    }
}

// Appends each of the branches after a 1, and a 0 at the end.
#[cycle(flat)]
fn push_branches(
    out: &mut Vec<u8>,
    branches: &[(SharedMessage, GlobalType)],
) -> Result<(), AllocError>
    ensures { OnOk result (out.new.items ≡ out.old.items ++ flat.branches_bytes (global_branches branches.now)) }
{
    for (message, global) in branches {
        out.push(1)?;
        push_bytes(out, message.flat())?;
        push_global(out, global)?;
    }
    out.push(0)?;
    Ok(())
}
