//! The JSON of replies, among them those that only a service returns.

ghost use Rattle.std.specs.Prelude.{◌≡◌, IfOk};
ghost use Rattle.serde_json.specs.Data.{string};
ghost use Rattle.serde_json.specs.View.{view, members_view};
ghost use Rattle.scrib_types.specs.declared.event.Told.TheVariants.{Stale, Judged};
ghost use Rattle.scrib_types.specs.Texts.{dotted_text};
ghost use Rattle.scrib_core.specs.declared.reply.Reply.TheVariants as replies;
ghost use Rattle.scrib_report.specs.Lines.{refusal_text};
ghost use Rattle.scrib_report.specs.Json as objects;

use crate::edit::{edit_word, push_change};
use crate::fault::push_refusal;
use crate::verdict::judged_word;
use scrib_core::ended::Ended;
use scrib_core::reply::{Edit, Refusal, Reply};
use scrib_library::changes::{Change, Changes};
use scrib_types::event::{Action, Told, Verdict};
use scrib_types::name::{Dotted, Role};
use scrib_types::text::{push_action, push_dotted};
use serde_json::{Map, Value, json, put};
use std::alloc::{AllocError, Global};

// A text as a JSON string. Each text here is ASCII, since names are. No contract of a name has that fact, so the text
// is checked to be UTF-8.
pub(crate) fn text_value(text: Vec<u8>) -> Result<Value, AllocError>
    ensures { IfOk result (λ value. view value ≡ string text.items) }
{
    match String::from_utf8(text) {
        Ok(text) => Ok(Value::String(text)),
        Err(_) => Err(AllocError),
    }
}

fn role_value(alloc: Global, role: &Role) -> Result<Value, AllocError>
    ensures { IfOk result (λ value. view value ≡ string role.now) }
{
    text_value(Vec::from_slice(alloc, role.as_bytes())?)
}

fn dotted_value(alloc: Global, name: &Dotted) -> Result<Value, AllocError>
    ensures { IfOk result (λ value. view value ≡ string (dotted_text name.now)) }
{
    let mut text = Vec::new(alloc);
    push_dotted(&mut text, name)?;
    text_value(text)
}

fn refusal_value(alloc: Global, refusal: &Refusal) -> Result<Value, AllocError>
    ensures { IfOk result (λ value. view value ≡ string (refusal_text refusal.now)) }
{
    let mut text = Vec::new(alloc);
    push_refusal(&mut text, refusal)?;
    text_value(text)
}

fn change_value(alloc: Global, change: &Change) -> Result<Value, AllocError>
    ensures { IfOk result (λ value. view value ≡ objects.change_item change.now) }
{
    let mut text = Vec::new(alloc);
    push_change(&mut text, change)?;
    text_value(text)
}

fn changes_value(alloc: Global, changes: &[Change]) -> Result<Value, AllocError>
    ensures { IfOk result (λ value. view value ≡ objects.changes_array changes.now) }
{
    let mut values = Vec::new(alloc);
    for change in changes {
        values.push(change_value(alloc, change)?)?;
    }
    Ok(Value::Array(values))
}

fn action_value(alloc: Global, action: &Action) -> Result<Value, AllocError>
    ensures { IfOk result (λ value. view value ≡ objects.action_item action.now) }
{
    let mut text = Vec::new(alloc);
    push_action(&mut text, action)?;
    text_value(text)
}

fn actions_value(alloc: Global, actions: &[Action]) -> Result<Value, AllocError>
    ensures { IfOk result (λ value. view value ≡ objects.actions_array actions.now) }
{
    let mut values = Vec::new(alloc);
    for action in actions {
        values.push(action_value(alloc, action)?)?;
    }
    Ok(Value::Array(values))
}

// The members of a verdict, and of an offence its place, its role and the allowed actions.
fn judged_members(alloc: Global, verdict: &Verdict) -> Result<Map<String, Value>, AllocError>
    ensures { IfOk result (λ members. members_view members.entries
        ≡ objects.offence_then (Judged verdict.now) (objects.verdict_member (Judged verdict.now))) }
{
    let mut members = Map::new(alloc);
    if let Verdict::Offence {
        place,
        role,
        allowed,
    } = verdict
    {
        let allowed = actions_value(alloc, allowed.as_slice())?;
        put(&mut members, alloc, "allowed", allowed)?;
        put(&mut members, alloc, "at", Value::from(*place))?;
        put(&mut members, alloc, "by", role_value(alloc, role)?)?;
    }
    let word = Value::try_from_str(alloc, judged_word(verdict))?;
    put(&mut members, alloc, "verdict", word)?;
    Ok(members)
}

// The members of a verdict that is not up to date: one word.
fn stale_members(alloc: Global) -> Result<Map<String, Value>, AllocError>
    ensures { IfOk result (λ members. members_view members.entries ≡ objects.verdict_member Stale) }
{
    let mut members = Map::new(alloc);
    let word = Value::try_from_str(alloc, "stale")?;
    put(&mut members, alloc, "verdict", word)?;
    Ok(members)
}

// The members of what is reported: of a verdict, or one word.
fn verdict_members(alloc: Global, told: &Told) -> Result<Map<String, Value>, AllocError>
    ensures { IfOk result (λ members. members_view members.entries
        ≡ objects.offence_then told.now (objects.verdict_member told.now)) }
{
    match told {
        Told::Stale => stale_members(alloc),
        Told::Judged(verdict) => judged_members(alloc, verdict),
    }
}

#[tactic(auto, using(crate::proofs::Members::noted_in_order))]
fn noted_value(alloc: Global, id: u32, place: usize, verdict: &Told) -> Result<Value, AllocError>
    ensures { IfOk result (λ value. view value ≡ objects.noted_object id place verdict.now) }
{
    let mut members = verdict_members(alloc, verdict)?;
    put(&mut members, alloc, "conversation", Value::from(id))?;
    put(&mut members, alloc, "place", Value::from(place))?;
    Ok(Value::Object(members))
}

#[tactic(auto, using(crate::proofs::Members::judged_in_order))]
fn judged_value(
    alloc: Global,
    id: u32,
    name: &Dotted,
    events: usize,
    verdict: &Told,
) -> Result<Value, AllocError>
    ensures { IfOk result (λ value. view value ≡ objects.judged_object id name.now events verdict.now) }
{
    let mut members = verdict_members(alloc, verdict)?;
    put(&mut members, alloc, "conversation", Value::from(id))?;
    put(&mut members, alloc, "events", Value::from(events))?;
    put(&mut members, alloc, "protocol", dotted_value(alloc, name)?)?;
    Ok(Value::Object(members))
}

#[tactic(auto, using(crate::proofs::Members::closed_in_order))]
fn closed_value(
    alloc: Global,
    id: u32,
    name: &Dotted,
    events: usize,
    concluded: (&Verdict, bool),
) -> Result<Value, AllocError>
    ensures { IfOk result (λ value. view value
        ≡ objects.closed_object id name.now events concluded.entry.0.now concluded.entry.1) }
{
    let (verdict, complete) = concluded;
    let mut members = judged_members(alloc, verdict)?;
    put(&mut members, alloc, "closed", dotted_value(alloc, name)?)?;
    put(&mut members, alloc, "complete", Value::from(complete))?;
    put(&mut members, alloc, "conversation", Value::from(id))?;
    put(&mut members, alloc, "events", Value::from(events))?;
    Ok(Value::Object(members))
}

#[tactic(auto, using(crate::proofs::Members::verdict_in_order))]
fn verdict_value(alloc: Global, id: u32, verdict: &Told) -> Result<Value, AllocError>
    ensures { IfOk result (λ value. view value ≡ objects.verdict_object id verdict.now) }
{
    let mut members = verdict_members(alloc, verdict)?;
    put(&mut members, alloc, "conversation", Value::from(id))?;
    Ok(Value::Object(members))
}

#[tactic(auto, unfolding(crate::specs::Json::mismatch_object))]
fn mismatch_value(alloc: Global, conversation: u32, place: usize) -> Result<Value, AllocError>
    ensures { IfOk result (λ value. view value ≡ objects.mismatch_object conversation place) }
{
    json!(in alloc; {"conversation": conversation, "place": place, "refused": "Mismatch"})
}

#[tactic(auto, unfolding(crate::specs::Json::json_of))]
fn edited_value(alloc: Global, edit: Edit, changes: &Changes) -> Result<Value, AllocError>
    ensures { IfOk result (λ value. view value ≡ objects.json_of (replies.Edited edit changes.now)) }
{
    let list = changes_value(alloc, changes.list.as_slice())?;
    let module = dotted_value(alloc, &changes.module)?;
    json!(in alloc; {"changes": list, "edit": edit_word(edit), "module": module})
}

#[tactic(auto, unfolding(crate::specs::Json::json_of))]
fn opened_value(alloc: Global, id: u32, name: &Dotted) -> Result<Value, AllocError>
    ensures { IfOk result (λ value. view value ≡ objects.json_of (replies.Opened id name.now)) }
{
    let name = dotted_value(alloc, name)?;
    json!(in alloc; {"conversation": id, "opened": name})
}

#[tactic(auto, unfolding(crate::specs::Json::json_of))]
fn refused_value(alloc: Global, refusal: &Refusal) -> Result<Value, AllocError>
    ensures { IfOk result (λ value. view value ≡ objects.json_of (replies.Refused refusal.now)) }
{
    let text = refusal_value(alloc, refusal)?;
    json!(in alloc; {"refused": text})
}

#[tactic(auto, unfolding(crate::specs::Json::json_of))]
pub(crate) fn reply_value(alloc: Global, reply: &Reply) -> Result<Value, AllocError>
    ensures { IfOk result (λ value. view value ≡ objects.json_of reply.now) }
{
    match reply {
        Reply::Edited { edit, changes } => edited_value(alloc, *edit, changes),
        Reply::Profiled { profile } => json!(in alloc; {"profile": profile.word()}),
        Reply::Opened { id, name } => opened_value(alloc, *id, name),
        Reply::Noted { id, place, told } => noted_value(alloc, *id, *place, told),
        Reply::Judged {
            id,
            name,
            events,
            told,
        } => judged_value(alloc, *id, name, *events, told),
        Reply::Closed {
            id,
            name,
            events,
            verdict,
            complete,
        } => closed_value(alloc, *id, name, *events, (verdict, *complete)),
        Reply::Refused(refusal) => refused_value(alloc, refusal),
    }
}

/// Returns the reply as one compact JSON object in ASCII bytes, without a line feed. The keys are in the order of
/// their bytes.
///
/// # Errors
/// `AllocError` where memory for the text is refused.
#[tactic(auto, using(crate::proofs::Members::json_has_no_float))]
pub fn json(alloc: Global, reply: &Reply) -> Result<Vec<u8>, AllocError>
    ensures { IfOk result (λ text. text.items ≡ objects.json_text reply.now) }
{
    reply_value(alloc, reply)?.to_vec(alloc)
}

// A service's reply to a turn or a question about the conversation `id`, in the form of `json`:
// `{"conversation":3,"verdict":"permitted"}`.
#[tactic(auto, using(crate::proofs::Members::verdict_object_has_no_float))]
pub(crate) fn judged_json(alloc: Global, id: u32, verdict: &Told) -> Result<Vec<u8>, AllocError>
    ensures { IfOk result (λ text. text.items ≡ objects.judged_json id verdict.now) }
{
    verdict_value(alloc, id, verdict)?.to_vec(alloc)
}

// The refusal of a pass whose receipt differs from the log of `conversation` at `place`, in the form of `json`:
// `{"conversation":1,"place":3,"refused":"Mismatch"}`.
#[tactic(auto, using(crate::proofs::Members::mismatch_has_no_float))]
pub(crate) fn mismatch_json(
    alloc: Global,
    conversation: u32,
    place: usize,
) -> Result<Vec<u8>, AllocError>
    ensures { IfOk result (λ text. text.items ≡ objects.mismatch_json conversation place) }
{
    mismatch_value(alloc, conversation, place)?.to_vec(alloc)
}

// The settled conversation, in the form that `json` has for the reply to a question about it:
// `{"conversation":1,"events":2,"protocol":"demo.Hello","verdict":"permitted"}`.
#[tactic(auto, using(crate::proofs::Members::ended_has_no_float))]
pub(crate) fn ended_json(alloc: Global, ended: &Ended) -> Result<Vec<u8>, AllocError>
    ensures { IfOk result (λ text. text.items ≡ objects.ended_json ended.now) }
{
    let value = judged_value(alloc, ended.id, &ended.name, ended.events, &ended.told)?;
    value.to_vec(alloc)
}
