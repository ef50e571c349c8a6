//! Texts, actions and events as JSON values.

ghost use Rattle.std.specs.Prelude.{◌≡◌, IfOk};
ghost use Rattle.serde_json.specs.Data.{string};
ghost use Rattle.serde_json.specs.View.{view};
ghost use Rattle.scrib_types.specs.Texts.{dotted_text, message_text};
ghost use Rattle.scrib_report.specs.Json.{action_item, actions_array};
ghost use Rattle.scrib_findings.specs.FindingObjects as objects;

use scrib_types::event::{Action, Event};
use scrib_types::message::Message;
use scrib_types::name::{Dotted, Role};
use scrib_types::shared_message::SharedMessage;
use scrib_types::text::{push_action, push_dotted, push_message};
use serde_json::{Value, json};
use std::alloc::{AllocError, Global};

// Returns the text as a JSON string. It fails where the text is not UTF-8, and the functions below also where memory is
// refused.
fn text_value(text: Vec<u8>) -> Result<Value, AllocError>
    ensures { IfOk result (λ value. view value ≡ string text.items) }
{
    match String::from_utf8(text) {
        Ok(text) => Ok(Value::String(text)),
        Err(_) => Err(AllocError),
    }
}

// Returns the bytes as a JSON string.
pub(crate) fn bytes_value(alloc: Global, bytes: &[u8]) -> Result<Value, AllocError>
    ensures { IfOk result (λ value. view value ≡ string bytes.now) }
{
    text_value(Vec::from_slice(alloc, bytes)?)
}

// Returns the dotted name as a JSON string.
pub(crate) fn dotted_value(alloc: Global, name: &Dotted) -> Result<Value, AllocError>
    ensures { IfOk result (λ value. view value ≡ string (dotted_text name.now)) }
{
    let mut text = Vec::new(alloc);
    push_dotted(&mut text, name)?;
    text_value(text)
}

// Returns the message as a JSON string.
fn message_value(alloc: Global, message: &Message) -> Result<Value, AllocError>
    ensures { IfOk result (λ value. view value ≡ string (message_text message.now)) }
{
    let mut text = Vec::new(alloc);
    push_message(&mut text, message)?;
    text_value(text)
}

// Returns the action as a JSON string.
fn action_value(alloc: Global, action: &Action) -> Result<Value, AllocError>
    ensures { IfOk result (λ value. view value ≡ action_item action.now) }
{
    let mut text = Vec::new(alloc);
    push_action(&mut text, action)?;
    text_value(text)
}

// Returns the actions as a JSON array.
pub(crate) fn actions_value(alloc: Global, actions: &[Action]) -> Result<Value, AllocError>
    ensures { IfOk result (λ value. view value ≡ actions_array actions.now) }
{
    let mut values = Vec::new(alloc);
    for action in actions {
        values.push(action_value(alloc, action)?)?;
    }
    Ok(Value::Array(values))
}

// Returns the event as a JSON object.
#[tactic(auto, unfolding(crate::specs::FindingObjects::event_object))]
pub(crate) fn event_value(alloc: Global, event: &Event) -> Result<Value, AllocError>
    ensures { IfOk result (λ value. view value ≡ objects.event_object event.now) }
{
    match event {
        Event::Join { role } => {
            let role = bytes_value(alloc, role.as_bytes())?;
            json!(in alloc; {"do": "join", "role": role})
        }
        Event::Sent { from, to, message } => exchange_value(alloc, "send", from, to, message),
        Event::Received { from, to, message } => exchange_value(alloc, "recv", from, to, message),
    }
}

// Returns a send or a reception as a JSON object.
#[tactic(auto, unfolding(crate::specs::FindingObjects::exchange_object))]
fn exchange_value(
    alloc: Global,
    word: &str,
    from: &Role,
    to: &Role,
    message: &SharedMessage,
) -> Result<Value, AllocError>
    ensures { IfOk result
        (λ value. view value ≡ objects.exchange_object word.now from.now to.now message.now) }
{
    let from = bytes_value(alloc, from.as_bytes())?;
    let message = message_value(alloc, message.get())?;
    let to = bytes_value(alloc, to.as_bytes())?;
    json!(in alloc; {"do": word, "from": from, "message": message, "to": to})
}
