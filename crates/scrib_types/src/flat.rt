//! The flat form of names and messages: an encoding as bytes, by which two of them are compared.

ghost use Rattle.std.specs.Prelude.{◌≡◌, ◌++◌, OnOk};
ghost use Rattle.scrib_types.specs.Flat as flat;

use crate::message::Message;
use crate::name::{Dotted, Name};
use crate::text::push_bytes;
use std::alloc::AllocError;

/// Adds the number: a byte 255 for each 255 in it, and then the remainder.
///
/// # Errors
/// `AllocError` where memory for the longer bytes is refused, here and in the functions below.
#[tactic(auto, unfolding(crate::specs::Flat::number_bytes))]
pub fn push_number(out: &mut Vec<u8>, number: u64) -> Result<(), AllocError>
    ensures { OnOk result (out.new.items ≡ out.old.items ++ flat.number_bytes number) }
{
    for _ in 0..number / 255 {
        out.push(255)?;
    }
    out.push((number % 255) as u8)?;
    Ok(())
}

/// Adds the name after its length.
#[tactic(auto, unfolding(crate::specs::Flat::name_bytes))]
pub fn push_name(out: &mut Vec<u8>, name: &Name) -> Result<(), AllocError>
    ensures { OnOk result (out.new.items ≡ out.old.items ++ flat.name_bytes name.now) }
{
    let bytes = name.as_bytes();
    push_number(out, bytes.len() as u64)?;
    push_bytes(out, bytes)
}

/// Adds each of the names after a 1, and a 0 at the end.
pub fn push_names(out: &mut Vec<u8>, names: &[Name]) -> Result<(), AllocError>
    ensures { OnOk result (out.new.items ≡ out.old.items ++ flat.names_bytes names.now) }
{
    for name in names {
        out.push(1)?;
        push_name(out, name)?;
    }
    out.push(0)?;
    Ok(())
}

// Adds each of the types after a 1, and a 0 at the end.
fn push_payload(out: &mut Vec<u8>, sorts: &[Dotted]) -> Result<(), AllocError>
    ensures { OnOk result (out.new.items ≡ out.old.items ++ flat.payload_bytes sorts.now) }
{
    for sort in sorts {
        out.push(1)?;
        push_names(out, sort.as_slice())?;
    }
    out.push(0)?;
    Ok(())
}

// Adds the operator after a 1, or 0 where there is none.
fn push_operator(out: &mut Vec<u8>, op: &Option<Name>) -> Result<(), AllocError>
    ensures { OnOk result (out.new.items ≡ out.old.items ++ flat.operator_bytes op.now) }
{
    match op {
        Some(name) => {
            out.push(1)?;
            push_name(out, name)
        }
        None => {
            out.push(0)?;
            Ok(())
        }
    }
}

/// Adds the operator, and then the types of the payload.
#[tactic(auto, unfolding(crate::specs::Flat::message_bytes))]
pub fn push_message(out: &mut Vec<u8>, message: &Message) -> Result<(), AllocError>
    ensures { OnOk result (out.new.items ≡ out.old.items ++ flat.message_bytes message.now) }
{
    push_operator(out, &message.op)?;
    push_payload(out, message.payload.as_slice())
}
