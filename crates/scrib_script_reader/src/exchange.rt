//! Parses a sender, a receiver and a message from the fields of a line.

ghost use Rattle.std.specs.Prelude.{◌≡◌, ◌&&◌, if◌then◌else◌, IfOk, Some, None, map};
ghost use Rattle.scrib_types.specs.Names.{is_name};
ghost use Rattle.scrib_script_reader.specs.Fields.{Finds};
ghost use Rattle.scrib_script_reader.specs.Steps.{IsExchange};

use crate::text::message_of;
use scrib_types::name::{Name, Role};
use scrib_types::shared_message::SharedMessage;
use std::alloc::{AllocError, Global};

// A message with its sender and its receiver.
#[derive(Drop)]
pub(crate) struct Exchange {
    pub from: Role,
    pub to: Role,
    pub message: SharedMessage,
}

// The exchange that the fields spell, if they spell one.
pub(crate) fn exchange_of(alloc: Global, fields: &[&[u8]]) -> Result<Option<Exchange>, AllocError>
    ensures { IfOk result (Finds (λ e. IsExchange (map (λ field. field.now) fields.now) e.from e.to e.message)) }
{
    let [from, to, text] = fields else {
        return Ok(None);
    };
    let Some((from, to)) = names_of(alloc, from, to)? else {
        return Ok(None);
    };
    let Some(message) = message_of(alloc, text)? else {
        return Ok(None);
    };
    Ok(Some(Exchange { from, to, message }))
}

// Both names, if the fields are names.
fn names_of(alloc: Global, from: &[u8], to: &[u8]) -> Result<Option<(Role, Role)>, AllocError>
    ensures { IfOk result (λ roles.
        roles ≡ (if is_name from.now && is_name to.now then Some (from.now, to.now) else None)) }
{
    let Some(from) = Name::from_bytes(alloc, from)? else {
        return Ok(None);
    };
    match Name::from_bytes(alloc, to)? {
        Some(to) => Ok(Some((from, to))),
        None => Ok(None),
    }
}
