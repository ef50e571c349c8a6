//! The printed text of names, messages and actions, added to a vector of bytes.

ghost use Rattle.std.specs.Prelude.{◌≡◌, ◌++◌, OnOk};
ghost use Rattle.std.specs.Fmt.{decimal};
ghost use Rattle.scrib_types.specs.Texts as texts;

use crate::event::Action;
use crate::message::Message;
use crate::name::{Dotted, Name};
use itoa::Buffer;
use std::alloc::AllocError;

/// Adds the bytes.
///
/// # Errors
/// `AllocError` where memory for the longer text is refused, here and in the functions below.
#[inline(always)]
pub fn push_bytes(out: &mut Vec<u8>, bytes: &[u8]) -> Result<(), AllocError>
    ensures { OnOk result (out.new.items ≡ out.old.items ++ bytes.now) }
{
    out.extend_from_slice(bytes)
}

/// Adds the number in decimal digits.
#[inline(always)]
pub fn push_number(out: &mut Vec<u8>, number: u64) -> Result<(), AllocError>
    ensures { OnOk result (out.new.items ≡ out.old.items ++ decimal number) }
{
    let mut buffer = Buffer::new();
    out.extend_from_slice(buffer.format(number).as_bytes())
}

/// Adds the names with dots between them, as `a.b`.
pub fn push_dotted(out: &mut Vec<u8>, dotted: &Dotted) -> Result<(), AllocError>
    ensures { OnOk result (out.new.items ≡ out.old.items ++ texts.dotted_text dotted.now) }
{
    let names = dotted.as_slice();
    push_bytes(out, names[0].as_bytes())?;
    push_names(out, &names[1..])
}

fn push_names(out: &mut Vec<u8>, names: &[Name]) -> Result<(), AllocError>
    ensures { OnOk result (out.new.items ≡ out.old.items ++ texts.after_each 46 names.now) }
{
    for name in names {
        push_bytes(out, b".")?;
        push_bytes(out, name.as_bytes())?;
    }
    Ok(())
}

fn push_sorts(out: &mut Vec<u8>, sorts: &[Dotted]) -> Result<(), AllocError>
    ensures { OnOk result (out.new.items ≡ out.old.items ++ texts.after_each 44 (texts.dotted_texts sorts.now)) }
{
    for sort in sorts {
        push_bytes(out, b",")?;
        push_dotted(out, sort)?;
    }
    Ok(())
}

fn push_payload(out: &mut Vec<u8>, sorts: &[Dotted]) -> Result<(), AllocError>
    ensures { OnOk result (out.new.items ≡ out.old.items ++ texts.joined_by 44 (texts.dotted_texts sorts.now)) }
{
    match sorts {
        [] => Ok(()),
        [first, others @ ..] => {
            push_dotted(out, first)?;
            push_sorts(out, others)
        }
    }
}

fn push_operator(out: &mut Vec<u8>, op: &Option<Name>) -> Result<(), AllocError>
    ensures { OnOk result (out.new.items ≡ out.old.items ++ texts.operator_text op.now) }
{
    match op {
        Some(name) => push_bytes(out, name.as_bytes()),
        None => Ok(()),
    }
}

/// Adds the message, as `hello()` or `a(Int,b.Str)`.
#[tactic(auto, unfolding(crate::specs::Texts::message_text))]
pub fn push_message(out: &mut Vec<u8>, message: &Message) -> Result<(), AllocError>
    ensures { OnOk result (out.new.items ≡ out.old.items ++ texts.message_text message.now) }
{
    push_operator(out, &message.op)?;
    push_bytes(out, b"(")?;
    push_payload(out, message.payload.as_slice())?;
    push_bytes(out, b")")
}

/// Adds the action: `join`, `B!hello()` for a send to B, `A?hello()` for a reception from A.
#[tactic(auto, unfolding(crate::specs::Texts::action_text))]
pub fn push_action(out: &mut Vec<u8>, action: &Action) -> Result<(), AllocError>
    ensures { OnOk result (out.new.items ≡ out.old.items ++ texts.action_text action.now) }
{
    match action {
        Action::Join => push_bytes(out, b"join"),
        Action::Sends { to, message } => {
            push_bytes(out, to.as_bytes())?;
            push_bytes(out, b"!")?;
            push_message(out, message.get())
        }
        Action::Receives { from, message } => {
            push_bytes(out, from.as_bytes())?;
            push_bytes(out, b"?")?;
            push_message(out, message.get())
        }
    }
}
