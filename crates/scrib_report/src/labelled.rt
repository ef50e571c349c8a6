//! The texts of replies with the label of their line.

ghost use Rattle.std.specs.Prelude.{◌≡◌, ◌++◌, ◌∷◌, [], false, OnOk, IfOk, codes};
ghost use Rattle.serde_json.specs.Data.{string};
ghost use Rattle.serde_json.specs.View.{members_view, view};
ghost use Rattle.serde_json.specs.Written.{compact_text, has_float};
ghost use Rattle.scrib_report.specs.PutBack.{ReplyLabel, bytes_of, put_back_by};
ghost use Rattle.scrib_report.specs.LabelledReplies as spec;

use crate::json::{reply_value, text_value};
use crate::label::Label;
use crate::part::OutputPart;
use crate::printing::text_of_part;
use crate::put_back::push_labelled_line;
use scrib_core::format::Format;
use scrib_core::reply::Reply;
use scrib_types::text::push_bytes;
use serde_json::{Map, Value, json, put};
use std::alloc::{AllocError, Global};

/// Appends the text of the reply in this format and with this label: one line with its LF.
///
/// # Errors
/// `AllocError` where memory is refused.
pub fn push_labelled_reply(
    out: &mut Vec<u8>,
    reply: &Reply,
    format: Format,
    label: Label<'_>,
) -> Result<(), AllocError>
    ensures { OnOk result (out.new.items ≡ out.old.items
        ++ spec.labelled_reply format (put_back_by label.entry) reply.now) }
{
    match format {
        Format::Line => push_labelled_part(out, &OutputPart::Reply(reply), label),
        Format::Json => push_labelled_json(out, reply, label),
    }
}

/// Appends the reply to a sweep that judged so many conversations, in this format and with this label, without a name.
///
/// # Errors
/// `AllocError` where memory is refused.
pub fn push_labelled_swept(
    out: &mut Vec<u8>,
    judged: u64,
    format: Format,
    label: Label<'_>,
) -> Result<(), AllocError>
    ensures { OnOk result (out.new.items ≡ out.old.items
        ++ spec.labelled_swept format (put_back_by label.entry) judged) }
{
    let label = Label {
        name: None,
        ..label
    };
    match format {
        Format::Line => push_labelled_part(out, &OutputPart::Swept(judged), label),
        Format::Json => {
            let alloc = *out.allocator();
            let value = json!(in alloc; {"judged": judged, "swept": true})?;
            push_labelled_object(out, value, label)
        }
    }
}

/// Appends the report of a bad line of this number in this format and with this label, without a name.
///
/// # Errors
/// `AllocError` where memory is refused.
pub fn push_labelled_bad_line(
    out: &mut Vec<u8>,
    number: u64,
    format: Format,
    label: Label<'_>,
) -> Result<(), AllocError>
    ensures { OnOk result (out.new.items ≡ out.old.items
        ++ spec.labelled_bad_line format (put_back_by label.entry) number) }
{
    let label = Label {
        name: None,
        ..label
    };
    match format {
        Format::Line => push_labelled_part(out, &OutputPart::BadLine(number), label),
        Format::Json => {
            let alloc = *out.allocator();
            let value = json!(in alloc; {"line": number, "refused": "BadLine"})?;
            push_labelled_object(out, value, label)
        }
    }
}

/// Appends the report of an end inside a module text in this format and with this label, without a name.
///
/// # Errors
/// `AllocError` where memory is refused.
pub fn push_labelled_end(
    out: &mut Vec<u8>,
    format: Format,
    label: Label<'_>,
) -> Result<(), AllocError>
    ensures { OnOk result (out.new.items ≡ out.old.items ++ spec.labelled_end format (put_back_by label.entry)) }
{
    let label = Label {
        name: None,
        ..label
    };
    match format {
        Format::Line => push_labelled_part(out, &OutputPart::EndOfText, label),
        Format::Json => {
            let alloc = *out.allocator();
            let value = json!(in alloc; {"refused": "EndOfText"})?;
            push_labelled_object(out, value, label)
        }
    }
}

// Appends the line of the part with this label.
fn push_labelled_part(
    out: &mut Vec<u8>,
    part: &OutputPart<'_>,
    label: Label<'_>,
) -> Result<(), AllocError>
    ensures { OnOk result (out.new.items ≡ out.old.items
        ++ spec.labelled_part (put_back_by label.entry) part.now) }
{
    let line = text_of_part(*out.allocator(), part, Format::Line)?;
    push_labelled_line(out, line.as_slice(), label)
}

// Appends the JSON of the reply with this label, and an LF.
fn push_labelled_json(out: &mut Vec<u8>, reply: &Reply, label: Label<'_>) -> Result<(), AllocError>
    ensures { OnOk result (out.new.items ≡ out.old.items ++ spec.labelled_json (put_back_by label.entry) reply.now) }
{
    let value = object_of(*out.allocator(), reply, label.conversation)?;
    if has_conversation(reply, label.conversation) {
        push_labelled_object(out, value, label)
    } else {
        push_labelled_object(
            out,
            value,
            Label {
                name: None,
                ..label
            },
        )
    }
}

// Returns the object of the reply. That of a refusal has this conversation, if there is one.
fn object_of(alloc: Global, reply: &Reply, conversation: Option<u32>) -> Result<Value, AllocError>
    ensures { IfOk result (λ value. (label : ReplyLabel) → label.conversation ≡ conversation
        → view value ≡ spec.reply_object label reply.now) }
{
    let value = reply_value(alloc, reply)?;
    match reply {
        Reply::Refused(_) => with_conversation(alloc, value, conversation),
        _ => Ok(value),
    }
}

// Returns the object with the number of this conversation, if there is one.
fn with_conversation(
    alloc: Global,
    value: Value,
    conversation: Option<u32>,
) -> Result<Value, AllocError>
    ensures { IfOk result (λ changed. view changed ≡ spec.with_conversation conversation (view value)) }
{
    match value {
        Value::Object(mut members) => {
            put_number(
                &mut members,
                alloc,
                "conversation",
                conversation.map(u64::from),
            )?;
            Ok(Value::Object(members))
        }
        other => Ok(other),
    }
}

// Returns whether the object of the reply is about one conversation, and has its number. A refusal may have this one.
fn has_conversation(reply: &Reply, conversation: Option<u32>) -> bool
    ensures { (label : ReplyLabel) → label.conversation ≡ conversation
        → result ≡ spec.has_conversation label reply.now }
{
    match reply {
        Reply::Opened { .. } | Reply::Noted { .. } | Reply::Judged { .. } | Reply::Closed { .. } =>
            { true }
        Reply::Refused(_) => conversation.is_some(),
        _ => false,
    }
}

// Appends the object with the members of the label, and an LF.
fn push_labelled_object(out: &mut Vec<u8>, value: Value, label: Label<'_>) -> Result<(), AllocError>
    requires { has_float (view value) ≡ false }
    ensures { OnOk result (out.new.items ≡ out.old.items
        ++ (compact_text (spec.with_label (put_back_by label.entry) (view value)) ++ 10 ∷ [])) }
{
    let text = labelled_text(*out.allocator(), value, label)?;
    push_bytes(out, text.as_slice())?;
    push_bytes(out, b"\n")
}

// Returns the text of the object with the members of the label.
fn labelled_text(alloc: Global, value: Value, label: Label<'_>) -> Result<Vec<u8>, AllocError>
    requires { has_float (view value) ≡ false }
    ensures { IfOk result (λ text. text.items
        ≡ compact_text (spec.with_label (put_back_by label.entry) (view value))) }
{
    labelled_value(alloc, value, label)?.to_vec(alloc)
}

// Returns the object with the members of the label: its name as the conversation, its line and its tag.
fn labelled_value(alloc: Global, value: Value, label: Label<'_>) -> Result<Value, AllocError>
    ensures { IfOk result (λ labelled. view labelled
        ≡ spec.with_label (put_back_by label.entry) (view value)) }
{
    match value {
        Value::Object(mut members) => {
            put_text(&mut members, alloc, "conversation", label.name)?;
            put_number(&mut members, alloc, "line", label.line)?;
            put_text(&mut members, alloc, "tag", label.tag)?;
            Ok(Value::Object(members))
        }
        other => Ok(other),
    }
}

// Puts the text under this key, if there is a text.
fn put_text(
    members: &mut Map<String, Value>,
    alloc: Global,
    key: &str,
    text: Option<&[u8]>,
) -> Result<(), AllocError>
    ensures { OnOk result (members_view members.new.entries
        ≡ spec.with_text key.now (bytes_of text.entry) (members_view members.old.entries)) }
{
    match text {
        Some(text) => put(
            members,
            alloc,
            key,
            text_value(Vec::from_slice(alloc, text)?)?,
        ),
        None => Ok(()),
    }
}

// Puts the number under this key, if there is a number.
fn put_number(
    members: &mut Map<String, Value>,
    alloc: Global,
    key: &str,
    number: Option<u64>,
) -> Result<(), AllocError>
    ensures { OnOk result (members_view members.new.entries
        ≡ spec.with_number key.now number (members_view members.old.entries)) }
{
    match number {
        Some(number) => put(members, alloc, key, Value::from(number)),
        None => Ok(()),
    }
}
