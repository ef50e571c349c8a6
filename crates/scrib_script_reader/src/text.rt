//! Parses single fields: numbers, dotted names and messages.

ghost use Rattle.std.specs.Prelude.{ℕ, List, IfOk, MatchOption};
ghost use Rattle.scrib_script_reader.specs.Fields.{Finds, IsNumberText, IsDottedText, IsOperatorText, IsPayloadText, IsMessageText, IsCut};

use scrib_types::message::{Message, Payload};
use scrib_types::name::{Dotted, Name};
use scrib_types::shared_message::SharedMessage;
use std::alloc::{AllocError, Global};

// The most digits of a number.
pub(crate) const MAX_DIGITS: usize = 10;

// The number of 1 to 10 decimal digits, if the bytes are such and it fits in 32 bits.
pub(crate) fn number_of(bytes: &[u8]) -> Option<u32>
    ensures { Finds (IsNumberText bytes.now) result }
{
    if bytes.is_empty() || bytes.len() > MAX_DIGITS {
        return None;
    }
    let mut value = 0u64;
    for byte in bytes {
        if *byte < b'0' || *byte > b'9' {
            return None;
        }
        value = value * 10 + u64::from(*byte - b'0');
    }
    u32::try_from(value).ok()
}

// The dotted name that the text is, if it is one.
pub(crate) fn dotted_of(alloc: Global, bytes: &[u8]) -> Result<Option<Dotted>, AllocError>
    ensures { IfOk result (Finds (IsDottedText bytes.now)) }
{
    let mut names = Vec::new(alloc);
    for piece in bytes.split(|byte| *byte == b'.') {
        let Some(name) = Name::from_bytes(alloc, piece)? else {
            return Ok(None);
        };
        names.push(name)?;
    }
    Ok(Some(Dotted::from_vec(alloc, names)?))
}

// The operator that the text before a message's parenthesis is; an empty text is no operator.
fn operator_of(alloc: Global, bytes: &[u8]) -> Result<Option<Option<Name>>, AllocError>
    ensures { IfOk result (Finds (IsOperatorText bytes.now)) }
{
    if bytes.is_empty() {
        return Ok(Some(None));
    }
    Ok(Name::from_bytes(alloc, bytes)?.map(Some))
}

// The payload that the text between a message's parentheses is.
fn payload_of(alloc: Global, bytes: &[u8]) -> Result<Option<Payload>, AllocError>
    ensures { IfOk result (Finds (IsPayloadText bytes.now)) }
{
    let mut sorts = Vec::new(alloc);
    if bytes.is_empty() {
        return Ok(Some(Payload::from_vec(sorts)));
    }
    for piece in bytes.split(|byte| *byte == b',') {
        let Some(sort) = dotted_of(alloc, piece)? else {
            return Ok(None);
        };
        sorts.push(sort)?;
    }
    Ok(Some(Payload::from_vec(sorts)))
}

// The text before the parentheses of a message, and the text between them.
fn parts_of(bytes: &[u8]) -> Option<(&[u8], &[u8])>
    ensures { MatchOption result
        ((before between : List ℕ) → IsCut bytes.now before between → ⊥)
        (λ parts. IsCut bytes.now parts.0.now parts.1.now) }
{
    let front = bytes.strip_suffix(b")")?;
    let open = front.iter().position(|byte| *byte == b'(')?;
    Some((&front[..open], &front[open + 1..]))
}

// The message whose printed text this is, if there is one.
pub(crate) fn message_of(alloc: Global, bytes: &[u8]) -> Result<Option<SharedMessage>, AllocError>
    ensures { IfOk result (Finds (IsMessageText bytes.now)) }
{
    let Some((before, between)) = parts_of(bytes) else {
        return Ok(None);
    };
    let Some(op) = operator_of(alloc, before)? else {
        return Ok(None);
    };
    let Some(payload) = payload_of(alloc, between)? else {
        return Ok(None);
    };
    Ok(Some(SharedMessage::new(alloc, Message { op, payload })?))
}
