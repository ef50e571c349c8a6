//! A monitor that writes findings in place of replies, and whose conversations may have names.

ghost use Rattle.std.specs.Prelude.{◌≡◌, option_map, string_bytes};
ghost use Rattle.scrib_report.specs.PutBack.{bytes_of};
ghost use Rattle.scrib_labelled.specs.LabelledRuns.{session_name};
ghost use Rattle.scrib_labelled.specs.NamedLines.{session_of};
ghost use Rattle.scrib_reported.specs.Monitors.{is_permitted_note};

use crate::counted_core::CountedCore;
use crate::outcome::Outcome;
use crate::reporter::{Reporter, Turned};
use crate::step_head::StepHead;
use scrib_cli::gathered::Gathered;
use scrib_closing::completion::{completed, is_send, judged_by};
use scrib_core::conversation_steps::Noted;
use scrib_core::format::Format;
use scrib_core::reply::{Refusal, Reply};
use scrib_core::step::Step;
use scrib_labelled::entry_stage::EntryStage;
use scrib_labelled::exchange_line::ExchangeLine;
use scrib_labelled::label_options::LabelledStyle;
use scrib_labelled::labelled_monitor::{Change, concerned};
use scrib_labelled::line_parts::{LineParts, Session};
use scrib_labels::session_names::SessionNames;
use scrib_report::label::Label;
use scrib_report::labelled::{push_labelled_bad_line, push_labelled_end, push_labelled_swept};
use scrib_report::printing::reply_format;
use scrib_script_io::fault::ScriptFault;
use scrib_script_reader::entry::Entry;
use scrib_script_reader::item::Item;
use scrib_summary::summary::Summary;
use scrib_sweep::stale::stale_conversations;
use scrib_types::event::{Told, Verdict};
use scrib_types::shared_event::SharedEvent;
use std::alloc::{AllocError, Global};
use std::io::Write;

/// A monitor, the numbers that stand for the names of its conversations, and the findings that are not written yet.
#[derive(Drop)]
pub(crate) struct ReportingMonitor {
    core: CountedCore,
    style: LabelledStyle,
    names: SessionNames,
    reporter: Reporter,
    gathered: Gathered,
}

impl ReportingMonitor {
    ghost use Rattle.std.specs.Prelude.{◌≡◌, ◌≢◌, ◌&&◌, ℕ, List, None, Some, true, not, option_map, string_bytes};
    ghost use Rattle.std.specs.Prelude.{IfOk, IfSome, MatchOption, OnErr, OnOk};
    ghost use Rattle.scrib_core.specs.Answers.{IsCompleteIn, IsReportedIn, initial};
    ghost use Rattle.scrib_core.specs.declared.format.Format.TheVariants as format;
    ghost use Rattle.scrib_core.specs.declared.step.Step.TheVariants.{Note, Turn};
    ghost use Rattle.scrib_core.specs.ReplyValues.{note_reply_of};
    ghost use Rattle.scrib_types.specs.declared.event.Event.{Event};
    ghost use Rattle.scrib_script_reader.specs.declared.item.Item.TheVariants as item;
    ghost use Rattle.scrib_sweep.specs.ConversationTurns.{AreEnough};
    ghost use Rattle.scrib_sweep.specs.Sweeps.{AreStale, IsAllFresh, IsFirstStale};
    ghost use Rattle.scrib_closing.specs.ClosingScripts.{is_send, judged_by};
    ghost use Rattle.scrib_labels.specs.Naming.{number_of};
    ghost use Rattle.scrib_labels.specs.SessionNames.{is_session_name};
    ghost use Rattle.scrib_labelled.specs.Changes.{after_change};
    ghost use Rattle.scrib_labelled.specs.declared.labelled_monitor.Change.TheVariants as changes;
    ghost use Rattle.scrib_labelled.specs.ExchangeLines.{exchange_label, named_id};
    ghost use Rattle.scrib_labelled.specs.NamedLines.{IsNumbersOf, label_of, session_of};
    ghost use Rattle.scrib_report.specs.PutBack.{bytes_of, put_back_by};
    ghost use Rattle.scrib_report.specs.ReplyTexts as spec;
    ghost use Rattle.scrib_reported.specs.Kept.{nothing_kept};
    ghost use Rattle.scrib_reported.specs.ReportedRuns.{IsNameOf, IsTotal};
    ghost use Rattle.scrib_summary.specs.Summaries.{no_replies};
    ghost use Rattle.scrib_reported.specs.Monitors.{CarriesItem, CarriesOut, GathersReply, MakesAll, MakesStep};
    ghost use Rattle.scrib_reported.specs.Monitors.{MakesSweep, MakesTurns, RenewsConversation};
    ghost use Rattle.scrib_reported.specs.Monitors.{counted_in, gathered_by, kept_in, label_with, line_of, state_in};

    /// Returns a new monitor, without names.
    pub(crate) fn new(alloc: Global, style: LabelledStyle) -> ReportingMonitor
        ensures state { state_in result ≡ initial }
        ensures style { result.style ≡ style }
        ensures names { (name : List ℕ) → number_of result.names name ≡ None }
        ensures kept { (id : ℕ) → kept_in result id ≡ nothing_kept }
        ensures counted { counted_in result ≡ no_replies }
    {
        ReportingMonitor {
            core: CountedCore::new(alloc),
            style,
            names: SessionNames::new(alloc),
            reporter: Reporter::new(alloc),
            gathered: Gathered::new(alloc),
        }
    }

    /// Returns what the script so far comes to, together with the verdicts on the conversations that are open.
    ///
    /// # Errors
    /// `AllocError` where memory is refused.
    pub(crate) fn total(&self) -> Result<Summary, AllocError>
        ensures { IfOk result (IsTotal (state_in self.now) (counted_in self.now)) }
    {
        self.core.total()
    }

    // Carries the item of a line with this label out, and gathers what is written for it. Where there is no memory for
    // this or its name, nothing is gathered.
    fn carry_out(&mut self, item: Item, parts: LineParts<'_>) -> Result<(), AllocError>
        requires { IsNumbersOf self.old.names (session_of parts.session) }
        ensures ok { OnOk result (CarriesOut self.old self.new (label_of parts.entry) item) }
        ensures err { OnErr result (gathered_by self.new ≡ gathered_by self.old) }
    {
        let change = self.push_item(item, parts)?;
        self.rename(parts.session, change)?;
        self.gathered.add_bytes(self.reporter.text.as_slice())
    }

    // Carries the item out, and makes the text of it. Returns what changed.
    fn push_item(&mut self, item: Item, parts: LineParts<'_>) -> Result<Change, AllocError>
        ensures ok { IfOk result (CarriesItem self.old self.new (label_of parts.entry) item) }
        ensures same { self.new ≡ record self.old { core = self.new.core; reporter = self.new.reporter } }
    {
        self.reporter.text.clear();
        let label = self.label(parts.line, parts.tag, name_of(parts.session));
        match item {
            Item::Step(asked, step) => {
                let head = self.head(parts.line, label, asked);
                self.push_all(step, head)
            }
            Item::Sweep(asked) => {
                let head = self.head(parts.line, label, asked);
                self.push_sweep(head.named(None))?;
                Ok(Change::Unchanged)
            }
            Item::BadLine(number) => {
                self.core.count_bad_line();
                push_labelled_bad_line(&mut self.reporter.text, number, self.style.format, label)?;
                Ok(Change::Unchanged)
            }
            Item::EndOfText => {
                self.core.count_bad_line();
                push_labelled_end(&mut self.reporter.text, self.style.format, label)?;
                Ok(Change::Unchanged)
            }
        }
    }

    // Returns what is put back into the replies to a line with this number, this tag and this name.
    fn label<'a>(&self, number: u64, tag: Option<&'a [u8]>, name: Option<&'a [u8]>) -> Label<'a>
        ensures { put_back_by result ≡ label_with self.now.style number (bytes_of tag.entry) (bytes_of name.entry) }
    {
        Label {
            tag,
            name,
            line: if self.style.lines { Some(number) } else { None },
            conversation: None,
        }
    }

    // Returns the line of a step with this number and this label, which asks for this format.
    fn head<'a>(&self, number: u64, label: Label<'a>, asked: Format) -> StepHead<'a>
        ensures { line_of result ≡ record {
          number = number;
          label = put_back_by label.entry;
          format = spec.reply_format self.now.style.format asked;
        } }
    {
        StepHead {
            number,
            label,
            format: reply_format(self.style.format, asked),
        }
    }

    // Makes the step, and reports its reply. Where it completes a conversation that is to be closed, closes that and
    // reports this reply too. Returns what changed.
    fn push_all(&mut self, step: Step, head: StepHead<'_>) -> Result<Change, AllocError>
        ensures ok { IfOk result (MakesAll head.entry self.old self.new step) }
        ensures same { self.new ≡ record self.old { core = self.new.core; reporter = self.new.reporter } }
    {
        let judged = judged_by(&step);
        let made = self.push_step(step, head)?;
        match self.to_close(judged, made.accepted) {
            Some(id) => {
                let closed = self.push_step(Step::Close { id }, head)?;
                Ok(closed.change)
            }
            None => Ok(made.change),
        }
    }

    // Returns the conversation in which an accepted step noted an event or made a turn, if it is complete and complete
    // conversations are closed.
    fn to_close(&self, judged: Option<u32>, accepted: bool) -> Option<u32>
        ensures { MatchOption result (self.now.style.closes ≡ true
            → (id : ℕ) → judged ≡ Some id → accepted ≡ true → IsCompleteIn (state_in self.now) id → ⊥)
            (λ id. (self.now.style.closes ≡ true)
            × ((judged ≡ Some id) × (accepted ≡ true) × IsCompleteIn (state_in self.now) id)) }
    {
        if !self.style.closes {
            return None;
        }
        completed(&self.core.core, judged, accepted)
    }

    // Makes the step, and reports its reply.
    fn push_step(&mut self, step: Step, head: StepHead<'_>) -> Result<Outcome, AllocError>
        ensures ok { IfOk result (MakesStep head.entry self.old self.new step) }
        ensures same { self.new ≡ record self.old { core = self.new.core; reporter = self.new.reporter } }
    {
        match step {
            Step::Note { id, event } => self.push_note(id, event, head),
            Step::Turn { id } => self.push_turn(id, head),
            step => self.push_other(step, head),
        }
    }

    // Notes the event, and reports the reply.
    fn push_note(
        &mut self,
        id: u32,
        event: SharedEvent,
        head: StepHead<'_>,
    ) -> Result<Outcome, AllocError>
        ensures ok { IfOk result (MakesStep head.entry self.old self.new (Note id event)) }
        ensures same { self.new ≡ record self.old { core = self.new.core; reporter = self.new.reporter } }
    {
        let noted = self.core.note_event(id, event);
        let accepted = noted.is_ok();
        self.reporter.push_noted(&self.core.core, id, noted, head)?;
        Ok(Outcome {
            change: Change::Unchanged,
            accepted,
        })
    }

    // Makes a turn, and reports the reply.
    fn push_turn(&mut self, id: u32, head: StepHead<'_>) -> Result<Outcome, AllocError>
        ensures ok { IfOk result (MakesStep head.entry self.old self.new (Turn id)) }
        ensures same { self.new ≡ record self.old { core = self.new.core; reporter = self.new.reporter } }
    {
        match self.core.apply(Step::Turn { id }) {
            Reply::Judged { name, told, .. } => {
                let turned = Turned { name, told };
                self.reporter
                    .push_turned(&self.core.core, id, turned, head)?;
                Ok(Outcome {
                    change: Change::Unchanged,
                    accepted: true,
                })
            }
            Reply::Refused(refusal) => {
                self.reporter.push_refusal(Some(id), refusal, head)?;
                Ok(Outcome {
                    change: Change::Unchanged,
                    accepted: false,
                })
            }
            // a turn has no other reply
            _ => unreachable!(),
        }
    }

    // Makes and reports turns of the stale conversations, by rising ids, until none is stale, and appends how many
    // were. A turn that is refused ends the sweep, and nothing is appended behind its report.
    fn push_sweep(&mut self, head: StepHead<'_>) -> Result<(), AllocError>
        ensures ok { OnOk result (MakesSweep head.entry self.old self.new) }
        ensures same { self.new ≡ record self.old { core = self.new.core; reporter = self.new.reporter } }
    {
        let alloc = *self.reporter.text.allocator();
        let stale = stale_conversations(alloc, &self.core.core)?;
        let ids = stale.as_slice();
        if !self.push_turns(ids, head)? {
            return Ok(());
        }
        push_labelled_swept(
            &mut self.reporter.text,
            ids.len() as u64,
            head.format,
            head.label,
        )
    }

    // Makes and reports turns of the stale conversations, which have these ids, until none is stale, or a turn is
    // refused. Returns whether each turn was accepted.
    fn push_turns(&mut self, stale: &[u32], head: StepHead<'_>) -> Result<bool, AllocError>
        requires { AreStale (state_in self.old) stale.now }
        ensures ok { IfOk result (λ accepted. MakesTurns head.entry self.old self.new accepted) }
        ensures fresh { IfOk result (λ accepted. accepted ≡ true → IsAllFresh (state_in self.new)) }
        ensures same { self.new ≡ record self.old { core = self.new.core; reporter = self.new.reporter } }
    {
        for id in stale {
            if !self.push_turns_of(*id, head)? {
                return Ok(false);
            }
        }
        Ok(true)
    }

    // Makes and reports turns of the first stale conversation, by its name if it has one, until it is not stale, or a
    // turn is refused. Returns whether each turn was accepted.
    fn push_turns_of(&mut self, id: u32, head: StepHead<'_>) -> Result<bool, AllocError>
        requires { IsFirstStale (state_in self.old) id }
        ensures ok { IfOk result (λ accepted. MakesTurns head.entry self.old self.new accepted) }
        ensures renewed { IfOk result
            (λ accepted. accepted ≡ true → RenewsConversation (state_in self.old) id (state_in self.new)) }
        ensures same { self.new ≡ record self.old { core = self.new.core; reporter = self.new.reporter } }
    {
        let name = self.copied_name(id)?;
        let turn = head.named(bytes_in(&name));
        let limit = self.enough_turns(id);
        for made in 0..limit {
            let outcome = self.push_turn(id, turn)?;
            if !outcome.accepted {
                return Ok(false);
            }
            if self.core.core.fresh_record(id).is_some() {
                return Ok(true);
            }
        }
        // so many turns leave no conversation stale
        unreachable!()
    }

    // Returns a copy of the conversation's name, if it has one.
    fn copied_name(&self, id: u32) -> Result<Option<String>, AllocError>
        ensures { IfOk result (λ name. IsNameOf (number_of self.now.names) id (option_map string_bytes name)) }
    {
        match self.names.name_of(id) {
            Some(name) => {
                let alloc = *self.reporter.text.allocator();
                Ok(Some(String::from_str(alloc, name)?))
            }
            None => Ok(None),
        }
    }

    // Returns a number of turns that cover the log of the conversation: each turn judges at least one event.
    fn enough_turns(&self, id: u32) -> usize
        ensures { AreEnough (state_in self.now) id result }
    {
        match self.core.core.view(id) {
            Some((_, log)) => log.len() + 1,
            None => 1,
        }
    }

    // Makes a step that notes no event and makes no turn, and reports the reply.
    fn push_other(&mut self, step: Step, head: StepHead<'_>) -> Result<Outcome, AllocError>
        requires { judged_by step ≡ None }
        ensures ok { IfOk result (MakesStep head.entry self.old self.new step) }
        ensures same { self.new ≡ record self.old { core = self.new.core; reporter = self.new.reporter } }
    {
        let id = concerned(&step);
        match self.core.apply(step) {
            Reply::Refused(refusal) => {
                self.reporter.push_refusal(id, refusal, head)?;
                Ok(Outcome {
                    change: Change::Unchanged,
                    accepted: false,
                })
            }
            reply => {
                let change = self.reporter.push_accepted(id, &reply, head)?;
                Ok(Outcome {
                    change,
                    accepted: true,
                })
            }
        }
    }

    // Notes the event of a line, and gathers what is written for its replies. Where there is no memory for this,
    // nothing is gathered.
    #[inline(always)]
    fn note_line(&mut self, line: ExchangeLine<'_>) -> Result<(), AllocError>
        requires { IsNumbersOf self.old.names (exchange_label line).session }
        ensures ok { OnOk result (CarriesOut self.old self.new (exchange_label line.entry)
            (item.Step format.Line (Note line.entry.id line.entry.event))) }
        ensures err { OnErr result (gathered_by self.new ≡ gathered_by self.old) }
    {
        if self.may_close(&line.event) {
            return self.note_and_close(line);
        }
        let ExchangeLine {
            line: number,
            tag,
            name,
            id,
            event,
            ..
        } = line;
        let noted = self.core.note_event(id, event);
        // as most events of a long script are
        if is_permitted(&noted) {
            return self.reporter.kept.add_line(id, number);
        }
        let label = self.label(number, tag, name);
        let head = self.head(number, label, Format::Line);
        self.gather_noted(id, noted, head)
    }

    // Returns whether the conversation may be complete behind a note of the event, and is to be closed then. Behind a
    // send it is not complete: the message is in flight.
    #[inline(always)]
    fn may_close(&self, event: &SharedEvent) -> bool
        ensures { result ≡ (self.now.style.closes && not (is_send event.now)) }
    {
        self.style.closes && !is_send(event)
    }

    // Gathers what is written for a note with this outcome.
    #[inline(never)]
    fn gather_noted(
        &mut self,
        id: u32,
        noted: Result<Noted, Refusal>,
        head: StepHead<'_>,
    ) -> Result<(), AllocError>
        requires { IfOk noted (λ n. IsReportedIn (state_in self.old) id n.told) }
        ensures ok { OnOk result ((e : Event)
            → GathersReply head.entry self.old self.new (Note id e) (note_reply_of id noted)) }
        ensures err { OnErr result (gathered_by self.new ≡ gathered_by self.old) }
        ensures same { self.new ≡ record self.old { reporter = self.new.reporter; gathered = self.new.gathered } }
    {
        self.reporter.text.clear();
        self.reporter.push_noted(&self.core.core, id, noted, head)?;
        self.gathered.add_bytes(self.reporter.text.as_slice())
    }

    // The same as `note_line`, where complete conversations are closed.
    #[inline(never)]
    fn note_and_close(&mut self, line: ExchangeLine<'_>) -> Result<(), AllocError>
        requires { IsNumbersOf self.old.names (exchange_label line).session }
        ensures ok { OnOk result (CarriesOut self.old self.new (exchange_label line.entry)
            (item.Step format.Line (Note line.entry.id line.entry.event))) }
        ensures err { OnErr result (gathered_by self.new ≡ gathered_by self.old) }
    {
        let ExchangeLine {
            line: number,
            tag,
            name,
            id,
            event,
            ..
        } = line;
        let label = self.label(number, tag, name);
        let head = self.head(number, label, Format::Line);
        self.reporter.text.clear();
        let change = self.push_all(Step::Note { id, event }, head)?;
        self.release(name, change);
        self.gathered.add_bytes(self.reporter.text.as_slice())
    }

    // Takes the number of the name away, if there is a name, and its conversation was closed.
    fn release(&mut self, name: Option<&[u8]>, change: Change)
        requires { IfSome name (λ name. is_session_name name.now ≡ true) }
        ensures same { self.new ≡ record self.old { names = self.new.names } }
        ensures named { change ≢ changes.Opened → (id : ℕ) (other : List ℕ) → number_of self.new.names other
            ≡ after_change (number_of self.old.names) (named_id name.entry id) change other }
    {
        match change {
            Change::Closed => self.forget(name),
            Change::Opened | Change::Unchanged => {}
        }
    }

    // Takes the number of the name away, if there is a name.
    fn forget(&mut self, name: Option<&[u8]>)
        requires { IfSome name (λ name. is_session_name name.now ≡ true) }
        ensures same { self.new ≡ record self.old { names = self.new.names } }
        ensures named { (id : ℕ) (other : List ℕ) → number_of self.new.names other
            ≡ after_change (number_of self.old.names) (named_id name.entry id) changes.Closed other }
    {
        let Some(name) = name else {
            return;
        };
        let Ok(name) = str::from_utf8(name) else {
            // names are ASCII
            unreachable!()
        };
        self.names.remove(name);
    }

    // Gives the name of the session, if there is one, its number where its conversation was opened, and takes it away
    // where that was closed.
    fn rename(&mut self, session: Option<Session<'_>>, change: Change) -> Result<(), AllocError>
        requires { IsNumbersOf self.old.names (session_of session) }
        ensures same { self.new ≡ record self.old { names = self.new.names } }
        ensures named { OnOk result ((name : List ℕ) → number_of self.new.names name
            ≡ after_change (number_of self.old.names) (session_of session.entry) change name) }
    {
        let Some(session) = session else {
            return Ok(());
        };
        match change {
            Change::Opened => self.names.keep(session.name, session.number)?,
            Change::Closed => self.names.remove(session.name),
            Change::Unchanged => {}
        }
        Ok(())
    }
}

// Returns whether the event was accepted, and its verdict is `Permitted`.
#[inline(always)]
fn is_permitted(noted: &Result<Noted, Refusal>) -> bool
    ensures { result ≡ is_permitted_note noted.now }
{
    matches!(
        noted,
        Ok(Noted {
            told: Told::Judged(Verdict::Permitted),
            ..
        },)
    )
}

// Returns the name of the session, if there is one.
fn name_of(session: Option<Session<'_>>) -> Option<&[u8]>
    ensures { bytes_of result ≡ session_name (session_of session.entry) }
{
    match session {
        Some(session) => Some(session.name.as_bytes()),
        None => None,
    }
}

// Returns the bytes of the name, if there is one.
fn bytes_in(name: &Option<String>) -> Option<&[u8]>
    ensures { bytes_of result ≡ option_map string_bytes name.now }
{
    match name {
        Some(name) => Some(name.as_bytes()),
        None => None,
    }
}

impl EntryStage for ReportingMonitor {
    ghost use Rattle.scrib_reported.specs.Monitors.{BeginsOutput, RanEntries, gathered_by};
    ghost use Rattle.scrib_reported.specs.StageLaws.{less_begins, ran_begins};

    ghost gathered = { gathered_by };

    ghost names = { λ m. m.names };

    ghost Took = { RanEntries };

    ghost TookAll = { RanEntries };

    ghost TookPart = { BeginsOutput };

    #[inline(always)]
    fn names(&self) -> &SessionNames {
        &self.names
    }

    #[inline(always)]
    fn take(&mut self, entry: Entry, parts: LineParts<'_>) -> Result<(), AllocError> {
        match entry {
            Entry::Skipped => Ok(()),
            Entry::Item(item) => self.carry_out(item, parts),
        }
    }

    #[inline(always)]
    fn note(&mut self, line: ExchangeLine<'_>) -> Result<(), AllocError> {
        self.note_line(line)
    }

    fn finish(&mut self) -> Result<(), AllocError> {
        Ok(())
    }

    fn clear(&mut self) {
        self.gathered.clear();
    }

    fn write_all<W: Write>(&mut self, writer: &mut W) -> Result<(), ScriptFault> {
        self.gathered.write_all(writer)
    }

    #[inline(always)]
    fn write_long<W: Write>(&mut self, writer: &mut W) -> Result<(), ScriptFault> {
        self.gathered.write_long(writer)
    }

    ghost is_part = { ran_begins };

    ghost all_is_part = { ran_begins };

    ghost less_is_part = { less_begins };
}
