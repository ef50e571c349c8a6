//! The JSON objects of findings.

ghost use Rattle.std.specs.Prelude.{◌≡◌, ◌++◌, ◌∷◌, [], IfOk, OnOk, codes};
ghost use Rattle.serde_json.specs.View.{members_view, view};
ghost use Rattle.serde_json.specs.Written.{compact_text};
ghost use Rattle.scrib_report.specs.LabelledReplies.{with_text};
ghost use Rattle.scrib_report.specs.PutBack.{bytes_of};
ghost use Rattle.scrib_findings.specs.FindingObjects as objects;

use crate::finding::{
    ConversationId, Finding, FoundOffence, OffenceEnd, RefusedStep, ReportedOffence,
};
use crate::finding_line::clean_word;
use crate::json_values::{actions_value, bytes_value, dotted_value, event_value};
use crate::refusal_words::refusal_words;
use scrib_global::next::RoleNext;
use scrib_offences::explained_offence::Situation;
use scrib_show::head::reason_word;
use scrib_types::event::Action;
use scrib_types::name::Dotted;
use scrib_types::text::push_bytes;
use serde_json::{Map, Value, put};
use std::alloc::{AllocError, Global};

// Appends the object of the finding with this tag, and an LF. It fails where memory is refused, and where the tag or a
// name is not UTF-8, as do the functions below.
pub(crate) fn push_finding_object(
    out: &mut Vec<u8>,
    finding: Finding<'_>,
    tag: Option<&[u8]>,
) -> Result<(), AllocError>
    ensures { OnOk result (out.new.items ≡ out.old.items
        ++ (compact_text (objects.finding_object (bytes_of tag.entry) finding.entry) ++ 10 ∷ [])) }
{
    let text = finding_json(*out.allocator(), finding, tag)?;
    push_bytes(out, text.as_slice())?;
    push_bytes(out, b"\n")
}

// Returns the text of the finding's object.
#[tactic(auto, using(crate::proofs::NoFloats::finding_has_no_float))]
fn finding_json(
    alloc: Global,
    finding: Finding<'_>,
    tag: Option<&[u8]>,
) -> Result<Vec<u8>, AllocError>
    ensures { IfOk result (λ text. text.items
        ≡ compact_text (objects.finding_object (bytes_of tag.entry) finding.entry)) }
{
    finding_value(alloc, finding, tag)?.to_vec(alloc)
}

// Returns the finding's object.
fn finding_value(
    alloc: Global,
    finding: Finding<'_>,
    tag: Option<&[u8]>,
) -> Result<Value, AllocError>
    ensures { IfOk result (λ value. view value ≡ objects.finding_object (bytes_of tag.entry) finding.entry) }
{
    let mut members = finding_members(alloc, finding)?;
    put_tag(&mut members, alloc, tag)?;
    Ok(Value::Object(members))
}

// Puts the tag, if there is one.
fn put_tag(
    members: &mut Map<String, Value>,
    alloc: Global,
    tag: Option<&[u8]>,
) -> Result<(), AllocError>
    ensures { OnOk result (members_view members.new.entries
        ≡ with_text (codes "tag") (bytes_of tag.entry) (members_view members.old.entries)) }
{
    match tag {
        Some(tag) => put(members, alloc, "tag", bytes_value(alloc, tag)?),
        None => Ok(()),
    }
}

// Returns the members of the finding's object without a tag.
fn finding_members(alloc: Global, finding: Finding<'_>) -> Result<Map<String, Value>, AllocError>
    ensures { IfOk result (λ members. members_view members.entries
        ≡ objects.finding_members finding.entry) }
{
    match finding {
        Finding::Offence(found) => found_members(alloc, found),
        Finding::OffenceEnd(end) => end_members(alloc, end),
        Finding::Refusal(step) => refusal_members(alloc, step),
    }
}

// Returns the members of an offence that was found.
fn found_members(alloc: Global, found: FoundOffence<'_>) -> Result<Map<String, Value>, AllocError>
    ensures { IfOk result (λ members. members_view members.entries ≡ objects.found_members found.entry) }
{
    let mut members = offence_members(alloc, found.offence)?;
    put_found(
        &mut members,
        alloc,
        found.conversation,
        found.protocol,
        found.found,
    )?;
    Ok(members)
}

// Returns the members of the end of an offence.
#[tactic(auto, unfolding(crate::specs::FindingObjects::end_members))]
fn end_members(alloc: Global, end: OffenceEnd<'_>) -> Result<Map<String, Value>, AllocError>
    ensures { IfOk result (λ members. members_view members.entries ≡ objects.end_members end.entry) }
{
    let mut members = Map::new(alloc);
    let verdict = Value::try_from_str(alloc, clean_word(end.verdict))?;
    put(&mut members, alloc, "verdict", verdict)?;
    let was = offence_members(alloc, end.was)?;
    put(&mut members, alloc, "was", Value::Object(was))?;
    put_found(
        &mut members,
        alloc,
        end.conversation,
        end.protocol,
        end.found,
    )?;
    Ok(members)
}

// Returns the members of a refusal.
#[tactic(auto, unfolding(crate::specs::FindingObjects::refusal_members))]
fn refusal_members(alloc: Global, step: RefusedStep<'_>) -> Result<Map<String, Value>, AllocError>
    ensures { IfOk result (λ members. members_view members.entries ≡ objects.refusal_members step.entry) }
{
    let mut members = Map::new(alloc);
    put(&mut members, alloc, "line", Value::from(step.line))?;
    let words = refusal_words(alloc, step.refusal)?;
    put(
        &mut members,
        alloc,
        "refused",
        bytes_value(alloc, words.as_slice())?,
    )?;
    put_concerned(&mut members, alloc, step.conversation)?;
    Ok(members)
}

// Puts the conversation that a refused step concerns, if it concerns one.
fn put_concerned(
    members: &mut Map<String, Value>,
    alloc: Global,
    conversation: Option<ConversationId<'_>>,
) -> Result<(), AllocError>
    ensures { OnOk result (members_view members.new.entries
        ≡ objects.with_concerned conversation.entry (members_view members.old.entries)) }
{
    match conversation {
        Some(conversation) => {
            let id = conversation_value(alloc, conversation)?;
            put(members, alloc, "conversation", id)
        }
        None => Ok(()),
    }
}

// Puts the conversation, the line of the step that found something of it, and its protocol.
fn put_found(
    members: &mut Map<String, Value>,
    alloc: Global,
    conversation: ConversationId<'_>,
    protocol: &Dotted,
    found: u64,
) -> Result<(), AllocError>
    ensures { OnOk result (members_view members.new.entries
        ≡ objects.with_found conversation.entry protocol.now found (members_view members.old.entries)) }
{
    let id = conversation_value(alloc, conversation)?;
    put(members, alloc, "conversation", id)?;
    put(members, alloc, "found", Value::from(found))?;
    put(members, alloc, "protocol", dotted_value(alloc, protocol)?)
}

// Returns the conversation's name, or its number.
fn conversation_value(alloc: Global, conversation: ConversationId<'_>) -> Result<Value, AllocError>
    ensures { IfOk result (λ value. view value ≡ objects.conversation_item conversation.entry) }
{
    match conversation.name {
        Some(name) => bytes_value(alloc, name),
        None => Ok(Value::from(conversation.number)),
    }
}

// Returns the members of an offence without its conversation.
#[tactic(auto, unfolding(crate::specs::FindingObjects::offence_members))]
fn offence_members(
    alloc: Global,
    offence: &ReportedOffence,
) -> Result<Map<String, Value>, AllocError>
    ensures { IfOk result (λ members. members_view members.entries ≡ objects.offence_members offence.now) }
{
    let explained = &offence.explained;
    let event = explained.event.get();
    let mut members = Map::new(alloc);
    let allowed = actions_value(alloc, offence.allowed.as_slice())?;
    put(&mut members, alloc, "allowed", allowed)?;
    put(&mut members, alloc, "at", Value::from(explained.place))?;
    let because = Value::try_from_str(alloc, reason_word(explained.reason))?;
    put(&mut members, alloc, "because", because)?;
    let by = bytes_value(alloc, event.subject().as_bytes())?;
    put(&mut members, alloc, "by", by)?;
    put(&mut members, alloc, "event", event_value(alloc, event)?)?;
    put(&mut members, alloc, "line", Value::from(offence.line))?;
    put_situation(&mut members, alloc, &explained.situation)?;
    Ok(members)
}

// Puts the role that is not declared, or what a role may do or waits for.
fn put_situation(
    members: &mut Map<String, Value>,
    alloc: Global,
    situation: &Situation,
) -> Result<(), AllocError>
    ensures { OnOk result (members_view members.new.entries
        ≡ objects.with_situation situation.now (members_view members.old.entries)) }
{
    match situation {
        Situation::Undeclared(role) => {
            let role = bytes_value(alloc, role.as_bytes())?;
            put(members, alloc, "undeclared", role)
        }
        Situation::Next(next) => put_next(members, alloc, next),
    }
}

// Puts what a role may do or waits for, unless it is done.
fn put_next(
    members: &mut Map<String, Value>,
    alloc: Global,
    next: &RoleNext,
) -> Result<(), AllocError>
    ensures { OnOk result (members_view members.new.entries
        ≡ objects.with_next next.now (members_view members.old.entries)) }
{
    match next {
        RoleNext::MayJoin { .. } => {
            let join = actions_value(alloc, &[Action::Join])?;
            put(members, alloc, "may", join)
        }
        RoleNext::Done => Ok(()),
        RoleNext::May(actions) => {
            let actions = actions_value(alloc, actions.as_slice())?;
            put(members, alloc, "may", actions)
        }
        RoleNext::WaitsFor(actions) => {
            let actions = actions_value(alloc, actions.as_slice())?;
            put(members, alloc, "waits", actions)
        }
    }
}
