//! Reports the replies to steps.

ghost use Rattle.scrib_reported.specs.Monitors.{line_of};
ghost use Rattle.scrib_reported.specs.ReportedReplies.{IsOf, IsOfAny};

use crate::conversation_offence::{ConversationOffence, offence_of};
use crate::kept::KeptConversations;
use crate::same_offence::is_same_offence;
use crate::step_head::StepHead;
use scrib_core::conversation_steps::Noted;
use scrib_core::monitor::Core;
use scrib_core::reply::{Refusal, Reply};
use scrib_findings::finding::{
    CleanVerdict, ConversationId, Finding, FoundOffence, OffenceEnd, RefusedStep, ReportedOffence,
};
use scrib_findings::finding_text::push_finding;
use scrib_labelled::labelled_monitor::Change;
use scrib_report::labelled::push_labelled_reply;
use scrib_types::allowed::Allowed;
use scrib_types::event::{Told, Verdict};
use scrib_types::name::Dotted;
use std::alloc::{AllocError, Global};

/// What is kept of the conversations, and the text of one item. After an error neither counts for anything.
#[derive(Drop)]
pub(crate) struct Reporter {
    alloc: Global,
    pub(crate) kept: KeptConversations,
    pub(crate) text: Vec<u8>,
}

/// A turn's verdict, and the full name of the conversation's protocol.
#[derive(Drop)]
pub(crate) struct Turned {
    pub(crate) name: Dotted,
    pub(crate) told: Told,
}

impl Reporter {
    ghost use Rattle.std.specs.Prelude.{◌≡◌, ◌++◌, ℕ, List, None, Some, true, IfOk, IsFalse, IsTrue, OnOk};
    ghost use Rattle.scrib_types.specs.declared.event.Event.{Event};
    ghost use Rattle.scrib_types.specs.declared.event.Told.TheVariants as tell;
    ghost use Rattle.scrib_types.specs.declared.event.Verdict.{Verdict};
    ghost use Rattle.scrib_types.specs.declared.event.Verdict.TheVariants as verdict;
    ghost use Rattle.scrib_core.specs.Answers.{IsAnswered, IsReportedIn, State};
    ghost use Rattle.scrib_core.specs.Held.{state_of};
    ghost use Rattle.scrib_core.specs.ReplyValues.{note_reply_of};
    ghost use Rattle.scrib_core.specs.declared.reply.Reply.TheVariants as reply;
    ghost use Rattle.scrib_core.specs.declared.step.Step.{Step};
    ghost use Rattle.scrib_core.specs.declared.step.Step.TheVariants as step;
    ghost use Rattle.scrib_closing.specs.ClosingScripts.{is_accepted, judged_by};
    ghost use Rattle.scrib_labelled.specs.Changes.{change_by};
    ghost use Rattle.scrib_labelled.specs.LabelledRuns.{concerned};
    ghost use Rattle.scrib_findings.specs.declared.finding.ReportedOffence.{ReportedOffence};
    ghost use Rattle.scrib_reported.specs.FoundOffences.{IsSame};
    ghost use Rattle.scrib_reported.specs.Kept.{keeping, nothing_kept};
    ghost use Rattle.scrib_reported.specs.Monitors.{Adds, AddsOffence};
    ghost use Rattle.scrib_reported.specs.ReportedReplies.{IsClean, reply_as_ever};

    /// Keeps nothing, and has no text.
    pub(crate) fn new(alloc: Global) -> Reporter
        ensures { (id : ℕ) → keeping result.kept id ≡ nothing_kept }
    {
        Reporter {
            alloc,
            kept: KeptConversations::new(alloc),
            text: Vec::new(alloc),
        }
    }

    /// Reports the outcome of a note in the conversation, in the state behind it.
    ///
    /// # Errors
    /// `AllocError` where memory is refused, here and in the functions below.
    pub(crate) fn push_noted(
        &mut self,
        core: &Core,
        id: u32,
        noted: Result<Noted, Refusal>,
        head: StepHead<'_>,
    ) -> Result<(), AllocError>
        requires { IfOk noted (λ n. IsReportedIn (state_of core.now) id n.told) }
        ensures { OnOk result ((e : Event) → Adds head.entry (state_of core.now) self.old self.new
            (step.Note id e) (note_reply_of id noted)) }
    {
        match noted {
            Ok(Noted { told, .. }) => self.push_event(core, id, told, head),
            Err(refusal) => self.push_refusal(Some(id), refusal, head),
        }
    }

    // Keeps the line of an event. Reports its verdict where that is an offence and none was reported.
    fn push_event(
        &mut self,
        core: &Core,
        id: u32,
        told: Told,
        head: StepHead<'_>,
    ) -> Result<(), AllocError>
        requires { IsReportedIn (state_of core.now) id told }
        ensures { OnOk result ((e : Event) (place : ℕ) → Adds head.entry (state_of core.now) self.old self.new
            (step.Note id e) (reply.Noted id place told)) }
    {
        let reported = self.kept.offence(id).is_some();
        self.kept.add_line(id, head.number)?;
        if reported {
            return Ok(());
        }
        match told {
            Told::Judged(Verdict::Offence { allowed, .. }) => {
                let found = offence_of(self.alloc, core, &self.kept, id, allowed)?;
                self.push_offence(id, found, head)
            }
            Told::Stale => Ok(()),
            Told::Judged(Verdict::Permitted) => Ok(()),
            Told::Judged(Verdict::Withdrawn) => Ok(()),
        }
    }

    /// Reports the verdict of a turn, where what is said of the conversation changes by it.
    pub(crate) fn push_turned(
        &mut self,
        core: &Core,
        id: u32,
        turned: Turned,
        head: StepHead<'_>,
    ) -> Result<(), AllocError>
        requires { IsReportedIn (state_of core.now) id turned.told }
        ensures { OnOk result ((i events : ℕ) → Adds head.entry (state_of core.now) self.old self.new
            (step.Turn id) (reply.Judged i turned.name events turned.told)) }
    {
        let Turned { name, told } = turned;
        match told {
            Told::Stale => Ok(()),
            Told::Judged(Verdict::Permitted) => {
                self.push_clean(id, &name, CleanVerdict::Permitted, head)
            }
            Told::Judged(Verdict::Withdrawn) => {
                self.push_clean(id, &name, CleanVerdict::Withdrawn, head)
            }
            Told::Judged(Verdict::Offence { allowed, .. }) => {
                self.push_turned_offence(core, id, allowed, head)
            }
        }
    }

    // Reports the end of an offence, if one was reported, at a turn with this verdict.
    fn push_clean(
        &mut self,
        id: u32,
        name: &Dotted,
        verdict: CleanVerdict,
        head: StepHead<'_>,
    ) -> Result<(), AllocError>
        ensures { OnOk result ((s : State) (i events : ℕ) (v : Verdict) → IsClean v verdict
            → Adds head.entry s self.old self.new (step.Turn id) (reply.Judged i name.now events (tell.Judged v))) }
    {
        let Some(was) = self.kept.offence(id) else {
            return Ok(());
        };
        let end = OffenceEnd {
            conversation: conversation_of(id, head),
            protocol: name,
            was,
            verdict,
            found: head.number,
        };
        push_finding(
            &mut self.text,
            Finding::OffenceEnd(end),
            head.format,
            head.label.tag,
        )?;
        self.kept.set_offence(id, None)
    }

    // Reports the offence that a turn found, unless it is the one that was reported last.
    fn push_turned_offence(
        &mut self,
        core: &Core,
        id: u32,
        allowed: Allowed,
        head: StepHead<'_>,
    ) -> Result<(), AllocError>
        requires { (place : ℕ) × (role : List ℕ) × IsReportedIn (state_of core.now) id
            (tell.Judged (verdict.Offence place role allowed)) }
        ensures { OnOk result ((i place events : ℕ) (role : List ℕ) (name : List (List ℕ))
            → IsReportedIn (state_of core.now) id (tell.Judged (verdict.Offence place role allowed))
            → Adds head.entry (state_of core.now) self.old self.new (step.Turn id)
            (reply.Judged i name events (tell.Judged (verdict.Offence place role allowed)))) }
    {
        let found = offence_of(self.alloc, core, &self.kept, id, allowed)?;
        if self.is_reported(id, &found.offence) {
            return Ok(());
        }
        self.push_offence(id, found, head)
    }

    // Returns whether the offence is the one that was reported last.
    fn is_reported(&self, id: u32, offence: &ReportedOffence) -> bool
        ensures same { IsTrue result → (was : ReportedOffence) × ((keeping self.now.kept id).offence ≡ Some was)
            × IsSame was offence.now }
        ensures other { IsFalse result → (was : ReportedOffence) → (keeping self.now.kept id).offence ≡ Some was
            → IsSame was offence.now → ⊥ }
    {
        match self.kept.offence(id) {
            Some(was) => is_same_offence(was, offence),
            None => false,
        }
    }

    // Reports the offence, and keeps it as the last.
    fn push_offence(
        &mut self,
        id: u32,
        found: ConversationOffence,
        head: StepHead<'_>,
    ) -> Result<(), AllocError>
        ensures { OnOk result (AddsOffence head.entry id self.old self.new found) }
    {
        let ConversationOffence { protocol, offence } = found;
        let finding = FoundOffence {
            conversation: conversation_of(id, head),
            protocol: &protocol,
            offence: &offence,
            found: head.number,
        };
        push_finding(
            &mut self.text,
            Finding::Offence(finding),
            head.format,
            head.label.tag,
        )?;
        self.kept.set_offence(id, Some(offence))
    }

    /// Reports that a step of this conversation, if it has one, was refused.
    pub(crate) fn push_refusal(
        &mut self,
        id: Option<u32>,
        refusal: Refusal,
        head: StepHead<'_>,
    ) -> Result<(), AllocError>
        ensures { OnOk result ((s : State) (made : Step) → concerned made ≡ id
            → Adds head.entry s self.old self.new made (reply.Refused refusal)) }
    {
        let step = RefusedStep {
            line: head.number,
            conversation: conversation_of_step(id, head),
            refusal,
        };
        push_finding(
            &mut self.text,
            Finding::Refusal(step),
            head.format,
            head.label.tag,
        )
    }

    /// Reports the reply to an accepted step of this conversation, if it has one, which notes no event and makes no
    /// turn. Returns what changed.
    pub(crate) fn push_accepted(
        &mut self,
        id: Option<u32>,
        reply: &Reply,
        head: StepHead<'_>,
    ) -> Result<Change, AllocError>
        requires { is_accepted reply.now ≡ true }
        ensures ok { IfOk result (λ c. (w s : State) (made : Step) → concerned made ≡ id → judged_by made ≡ None
            → IsAnswered w made reply.now s → Adds head.entry s self.old self.new made reply.now) }
        ensures change { IfOk result (λ c. c ≡ change_by reply.now) }
    {
        match reply {
            Reply::Opened { .. } => Ok(Change::Opened),
            Reply::Closed { .. } => {
                self.push_reply(reply, head)?;
                if let Some(id) = id {
                    self.kept.remove(id);
                }
                Ok(Change::Closed)
            }
            _ => {
                self.push_reply(reply, head)?;
                Ok(Change::Unchanged)
            }
        }
    }

    // Appends the reply as it is printed without reports.
    fn push_reply(&mut self, reply: &Reply, head: StepHead<'_>) -> Result<(), AllocError>
        ensures kept { self.new.kept ≡ self.old.kept }
        ensures ok { OnOk result
            (self.new.text.items ≡ self.old.text.items ++ reply_as_ever (line_of head.entry) reply.now) }
    {
        push_labelled_reply(&mut self.text, reply, head.format, head.label)
    }
}

// Returns the conversation, as the findings of a line name it.
fn conversation_of(id: u32, head: StepHead<'_>) -> ConversationId<'_>
    ensures { IsOf (line_of head.entry) id result }
{
    ConversationId {
        number: id,
        name: head.label.name,
    }
}

// Returns the conversation of a step, if it has one.
fn conversation_of_step(id: Option<u32>, head: StepHead<'_>) -> Option<ConversationId<'_>>
    ensures { IsOfAny (line_of head.entry) id result }
{
    match id {
        Some(id) => Some(conversation_of(id, head)),
        None => None,
    }
}
