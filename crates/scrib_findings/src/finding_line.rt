//! The lines of findings.

ghost use Rattle.std.specs.Prelude.{◌≡◌, ◌++◌, OnOk};
ghost use Rattle.scrib_findings.specs.FindingLines as lines;

use crate::finding::{
    CleanVerdict, ConversationId, Finding, FoundOffence, OffenceEnd, RefusedStep,
};
use crate::refusal_words::refusal_words;
use scrib_global::next::RoleNext;
use scrib_offences::explained_offence::{ExplainedOffence, Situation};
use scrib_show::events::push_event;
use scrib_show::head::reason_word;
use scrib_types::allowed::push_allowed;
use scrib_types::name::Role;
use scrib_types::text::{push_bytes, push_number};
use std::alloc::AllocError;

// Appends the line of the finding, with its LF. It fails where memory for the longer text is refused, as do the
// functions below. A part may be appended then.
pub(crate) fn push_finding_line(out: &mut Vec<u8>, finding: Finding<'_>) -> Result<(), AllocError>
    ensures { OnOk result (out.new.items ≡ out.old.items ++ lines.finding_line finding.entry) }
{
    match finding {
        Finding::Offence(found) => push_offence_line(out, found),
        Finding::OffenceEnd(end) => push_end_line(out, end),
        Finding::Refusal(step) => push_refusal_line(out, step),
    }
}

// Appends the line of an offence.
#[tactic(auto, unfolding(crate::specs::FindingLines::offence_line))]
fn push_offence_line(out: &mut Vec<u8>, found: FoundOffence<'_>) -> Result<(), AllocError>
    ensures { OnOk result (out.new.items ≡ out.old.items ++ lines.offence_line found.entry) }
{
    push_bytes(out, b"offence in ")?;
    push_conversation(out, found.conversation)?;
    push_bytes(out, b" at event ")?;
    push_number(out, found.offence.explained.place as u64)?;
    push_bytes(out, b", line ")?;
    push_number(out, found.offence.line)?;
    push_bytes(out, b": ")?;
    push_explained(out, &found.offence.explained)?;
    push_bytes(out, b"\n")
}

// Appends the line of the end of an offence.
#[tactic(auto, unfolding(crate::specs::FindingLines::end_line))]
fn push_end_line(out: &mut Vec<u8>, end: OffenceEnd<'_>) -> Result<(), AllocError>
    ensures { OnOk result (out.new.items ≡ out.old.items ++ lines.end_line end.entry) }
{
    push_bytes(out, b"no offence any more in ")?;
    push_conversation(out, end.conversation)?;
    push_bytes(out, b", line ")?;
    push_number(out, end.found)?;
    push_bytes(out, b": ")?;
    push_bytes(out, clean_word(end.verdict).as_bytes())?;
    push_bytes(out, b"\n")
}

// Appends the line of a refusal.
#[tactic(auto, unfolding(crate::specs::FindingLines::refusal_line))]
fn push_refusal_line(out: &mut Vec<u8>, step: RefusedStep<'_>) -> Result<(), AllocError>
    ensures { OnOk result (out.new.items ≡ out.old.items ++ lines.refusal_line step.entry) }
{
    push_bytes(out, b"refused in line ")?;
    push_number(out, step.line)?;
    push_concerned(out, step.conversation)?;
    push_bytes(out, b": ")?;
    let words = refusal_words(*out.allocator(), step.refusal)?;
    push_bytes(out, words.as_slice())?;
    push_bytes(out, b"\n")
}

// Appends the conversation that a refused step concerns, if it concerns one.
fn push_concerned(
    out: &mut Vec<u8>,
    conversation: Option<ConversationId<'_>>,
) -> Result<(), AllocError>
    ensures { OnOk result (out.new.items ≡ out.old.items ++ lines.concerned_text conversation.entry) }
{
    let Some(conversation) = conversation else {
        return Ok(());
    };
    push_bytes(out, b", ")?;
    push_conversation(out, conversation)
}

// Appends the conversation, by its name or its number.
#[tactic(auto, unfolding(crate::specs::FindingLines::conversation_text))]
fn push_conversation(out: &mut Vec<u8>, conversation: ConversationId<'_>) -> Result<(), AllocError>
    ensures { OnOk result (out.new.items ≡ out.old.items ++ lines.conversation_text conversation.entry) }
{
    push_bytes(out, b"conversation ")?;
    match conversation.name {
        Some(name) => push_bytes(out, name),
        None => push_number(out, u64::from(conversation.number)),
    }
}

// Appends the event of an offence, the reason, and what its role may do in its place.
#[tactic(auto, unfolding(crate::specs::FindingLines::explained_text))]
fn push_explained(out: &mut Vec<u8>, offence: &ExplainedOffence) -> Result<(), AllocError>
    ensures { OnOk result (out.new.items ≡ out.old.items ++ lines.explained_text offence.now) }
{
    let event = offence.event.get();
    push_event(out, event)?;
    push_bytes(out, b": ")?;
    push_bytes(out, reason_word(offence.reason).as_bytes())?;
    push_bytes(out, b"; ")?;
    push_situation(out, event.subject(), &offence.situation)
}

// Appends the role that is not declared, or what this role may do.
fn push_situation(out: &mut Vec<u8>, role: &Role, situation: &Situation) -> Result<(), AllocError>
    ensures { OnOk result (out.new.items ≡ out.old.items ++ lines.situation_text role.now situation.now) }
{
    match situation {
        Situation::Undeclared(undeclared) => {
            push_bytes(out, undeclared.as_bytes())?;
            push_bytes(out, b" is not declared")
        }
        Situation::Next(next) => {
            push_bytes(out, role.as_bytes())?;
            push_bytes(out, b" ")?;
            push_next(out, next)
        }
    }
}

// Appends what a role may do, behind the role.
fn push_next(out: &mut Vec<u8>, next: &RoleNext) -> Result<(), AllocError>
    ensures { OnOk result (out.new.items ≡ out.old.items ++ lines.next_words next.now) }
{
    match next {
        RoleNext::MayJoin { acts: true } => push_bytes(out, b"may join"),
        RoleNext::MayJoin { acts: false } => push_bytes(out, b"may join, done"),
        RoleNext::Done => push_bytes(out, b"is done"),
        RoleNext::May(actions) => {
            push_bytes(out, b"may ")?;
            push_allowed(out, actions.as_slice())
        }
        RoleNext::WaitsFor(actions) => {
            push_bytes(out, b"waits for ")?;
            push_allowed(out, actions.as_slice())
        }
    }
}

// Returns the word of the verdict.
pub(crate) fn clean_word(verdict: CleanVerdict) -> &'static str
    ensures { result.now ≡ lines.clean_word verdict }
{
    match verdict {
        CleanVerdict::Permitted => "permitted",
        CleanVerdict::Withdrawn => "withdrawn",
    }
}
