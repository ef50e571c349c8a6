//! Carries out the entries of a script, and gathers their replies with the labels of their lines.

ghost use Rattle.std.specs.Prelude.{◌≡◌};
ghost use Rattle.scrib_report.specs.PutBack.{bytes_of, put_back_by};
ghost use Rattle.scrib_labelled.specs.Changes.{change_by, put_back_in_text};
ghost use Rattle.scrib_labelled.specs.LabelledRuns.{concerned, of_step};

use crate::checked_core::CheckedCore;
use crate::exchange_line::ExchangeLine;
use crate::label_options::LabelledStyle;
use scrib_cli::gathered::Gathered;
use scrib_closing::completion::{completed, is_accepted, is_send, judged_by};
use scrib_core::conversation_steps::{Noted, Tested};
use scrib_core::format::Format;
use scrib_core::reply::{Refusal, Reply, close_reply, note_reply};
use scrib_core::step::Step;
use scrib_report::label::Label;
use scrib_report::labelled::{
    push_labelled_bad_line, push_labelled_end, push_labelled_reply, push_labelled_swept,
};
use scrib_report::printing::reply_format;
use scrib_report::reply_head::ReplyHead;
use scrib_script_reader::item::Item;
use scrib_types::event::{Told, Verdict};
use scrib_types::shared_event::SharedEvent;
use std::alloc::{AllocError, Global};

/// What an entry changes in which conversations are open.
#[derive(Clone, Copy, Debug, PartialEq, Eq)]
pub enum Change {
    /// A conversation was opened.
    Opened,
    /// A conversation was closed.
    Closed,
    /// Nothing.
    Unchanged,
}

/// A monitor, the style of its script, and the replies that are not written yet.
#[derive(Drop)]
pub struct LabelledMonitor {
    pub(crate) core: CheckedCore,
    style: LabelledStyle,
    // The text of one item. Where memory is refused in the midst of it, the gathered texts stay whole.
    text: Vec<u8>,
    /// The replies that are not written yet.
    pub gathered: Gathered,
}

impl LabelledMonitor {
    ghost use Rattle.std.specs.Prelude.{◌≡◌, ◌≢◌, ◌++◌, ◌&&◌, ℕ, List, [], None, Option, Some, true, false, not, if◌then◌else◌, IfOk, IsFalse, IsTrue, MatchOption, OnErr, OnOk};
    ghost use Rattle.scrib_core.specs.Answers.{IsAnswered, IsCompleteIn, initial};
    ghost use Rattle.scrib_core.specs.World.{conversation};
    ghost use Rattle.scrib_labelled.specs.CheckedCores.{GotMemory, state_of};
    ghost use Rattle.scrib_core.specs.ReplyValues.{note_reply_of};
    ghost use Rattle.scrib_core.specs.declared.format.Format.TheVariants as format;
    ghost use Rattle.scrib_core.specs.declared.reply.Reply.{Reply};
    ghost use Rattle.scrib_core.specs.declared.step.Step.TheVariants.{Close};
    ghost use Rattle.scrib_report.specs.LabelledReplies.{labelled_reply};
    ghost use Rattle.scrib_report.specs.PutBack as spec;
    ghost use Rattle.scrib_report.specs.PutBack.{bytes_of, put_back_by};
    ghost use Rattle.scrib_report.specs.ReplyTexts.{reply_format};
    ghost use Rattle.scrib_sweep.specs.Sweeps.{IsSwept};
    ghost use Rattle.scrib_script_reader.specs.declared.item.Item.TheVariants as item;
    ghost use Rattle.scrib_closing.specs.ClosingScripts.{is_send};
    ghost use Rattle.scrib_labelled.specs.ExchangeLines.{exchange_label};
    ghost use Rattle.scrib_labelled.specs.LabelledRuns.{Takes, labelled_sweep, put_back};
    ghost use Rattle.scrib_labelled.specs.Changes.{IsChangeBy, NotesEvent, TakesItem, change_by, put_back_in_text};
    ghost use Rattle.scrib_labelled.specs.declared.labelled_monitor.Change.TheVariants as change;

    /// Returns a new monitor.
    pub fn new(alloc: Global, style: LabelledStyle) -> LabelledMonitor
        ensures state { state_of result.core ≡ initial }
        ensures style { result.style ≡ style }
    {
        LabelledMonitor {
            core: CheckedCore::new(alloc),
            style,
            text: Vec::new(alloc),
            gathered: Gathered::new(alloc),
        }
    }

    /// Carries the item out, and keeps the text of its replies with this label until [`LabelledMonitor::gather`].
    /// Returns what changed.
    ///
    /// # Errors
    /// `AllocError` where there is no memory for the text.
    pub fn take(&mut self, item: Item, label: Label<'_>) -> Result<Change, AllocError>
        ensures ok { IfOk result
            (TakesItem self.old self.new (put_back_by label.entry) item self.new.text.items) }
        ensures same { self.new.gathered ≡ self.old.gathered }
    {
        self.text.clear();
        match item {
            Item::Step(asked, step) => self.push_step(asked, step, label),
            Item::Sweep(asked) => self.push_sweep(asked, label),
            Item::BadLine(number) => {
                push_labelled_bad_line(&mut self.text, number, self.style.format, label)?;
                Ok(Change::Unchanged)
            }
            Item::EndOfText => {
                push_labelled_end(&mut self.text, self.style.format, label)?;
                Ok(Change::Unchanged)
            }
        }
    }

    /// Returns the number of a line where objects have it.
    #[inline(always)]
    pub fn printed(&self, line: u64) -> Option<u64>
        ensures { result ≡ (if self.now.style.lines then Some line else None) }
    {
        if self.style.lines { Some(line) } else { None }
    }

    /// Returns whether the conversation is open.
    #[inline(always)]
    pub fn is_open(&self, id: u32) -> bool
        ensures { IsFalse result → conversation (state_of self.now.core).world id ≡ None }
    {
        self.core.core.view(id).is_some()
    }

    // Makes the step, whose line asks for the format `asked`, and appends the reply with this label. Where it completes
    // a conversation that is to be closed, closes that and appends this reply too. Returns what changed.
    fn push_step(
        &mut self,
        asked: Format,
        step: Step,
        label: Label<'_>,
    ) -> Result<Change, AllocError>
        ensures ok { IfOk result (λ c. (replies : List Reply) × (more : List ℕ)
            × Takes self.old.style (put_back_by label.entry) (state_of self.old.core)
            (item.Step asked step) (state_of self.new.core) replies more × IsChangeBy replies c
            × (self.old.style.closes ≡ false → GotMemory self.old.core self.new.core replies)
            × (self.new.text.items ≡ self.old.text.items ++ more)) }
        ensures same { self.new ≡ record self.old { core = self.new.core; text = self.new.text } }
    {
        let format = reply_format(self.style.format, asked);
        let label = of_step(label, &step);
        let judged = judged_by(&step);
        let reply = self.core.apply(step);
        push_labelled_reply(&mut self.text, &reply, format, label)?;
        match self.to_close(judged, is_accepted(&reply)) {
            Some(id) => self.push_close(id, format, label),
            None => Ok(change_by(&reply)),
        }
    }

    // Sweeps the stale conversations, and appends the reply with this label. The line asks for the format `asked`.
    fn push_sweep(&mut self, asked: Format, label: Label<'_>) -> Result<Change, AllocError>
        ensures ok { IfOk result (λ c. (c ≡ change.Unchanged) × (judged : Option ℕ)
            × IsSwept (state_of self.old.core) judged (state_of self.new.core)
            × GotMemory self.old.core self.new.core [] × (self.new.text.items
            ≡ self.old.text.items
            ++ labelled_sweep (reply_format self.old.style.format asked) (put_back_by label.entry) judged)) }
        ensures same { self.new ≡ record self.old { core = self.new.core; text = self.new.text } }
    {
        let format = reply_format(self.style.format, asked);
        match self.core.sweep(*self.text.allocator()) {
            Ok(judged) => push_labelled_swept(&mut self.text, judged as u64, format, label)?,
            Err(_) => {
                let refused = Reply::Refused(Refusal::OutOfMemory);
                push_labelled_reply(
                    &mut self.text,
                    &refused,
                    format,
                    Label {
                        name: None,
                        ..label
                    },
                )?;
            }
        }
        Ok(Change::Unchanged)
    }

    // Returns the conversation in which an accepted step noted an event or made a turn, if it is complete and complete
    // conversations are closed.
    fn to_close(&self, judged: Option<u32>, accepted: bool) -> Option<u32>
        ensures { MatchOption result (self.now.style.closes ≡ true
            → (id : ℕ) → judged ≡ Some id → accepted ≡ true → IsCompleteIn (state_of self.now.core) id → ⊥)
            (λ id. (self.now.style.closes ≡ true)
            × ((judged ≡ Some id) × (accepted ≡ true) × IsCompleteIn (state_of self.now.core) id)) }
    {
        if !self.style.closes {
            return None;
        }
        completed(&self.core.core, judged, accepted)
    }

    // Closes the conversation, and appends the reply in this format with this label. Returns what changed.
    fn push_close(
        &mut self,
        id: u32,
        format: Format,
        label: Label<'_>,
    ) -> Result<Change, AllocError>
        ensures ok { IfOk result (λ c. (r : Reply)
            × IsAnswered (state_of self.old.core) (Close id) r (state_of self.new.core) × (c ≡ change_by r)
            × (self.new.text.items ≡ self.old.text.items
            ++ labelled_reply format (put_back_by label.entry) r)) }
        ensures opens { IfOk result (λ c. c ≢ change.Opened) }
        ensures same { self.new ≡ record self.old { core = self.new.core; text = self.new.text } }
    {
        let closed = self.core.core.close_conversation(id);
        let reply = close_reply(id, closed);
        push_labelled_reply(&mut self.text, &reply, format, label)?;
        Ok(change_by(&reply))
    }

    /// Notes the event of the line, and gathers its reply with the line's label. Where the conversation is complete then
    /// and is to be closed, closes it and gathers this reply too. Returns what changed.
    ///
    /// # Errors
    /// `AllocError` where there is no memory for the text. The gathered texts are then unchanged.
    #[inline(always)]
    pub fn note(&mut self, line: ExchangeLine<'_>) -> Result<Change, AllocError>
        requires { line.tag_text.now ≡ spec.tag_text (bytes_of line.tag) }
        ensures ok { IfOk result (NotesEvent self.old self.new (put_back self.old.style (exchange_label line.entry))
            line.entry.id line.entry.event) }
        ensures err { OnErr result (self.new.gathered.bytes.items ≡ self.old.gathered.bytes.items) }
    {
        let ExchangeLine {
            line: number,
            tag,
            tag_text,
            name,
            id,
            event,
            ..
        } = line;
        if !self.prints_lines() {
            let label = Label {
                tag,
                name,
                line: self.printed(number),
                conversation: None,
            };
            return self.note_as_object(id, event, label);
        }
        if self.may_close(&event) {
            return self.note_and_close(id, event, tag, ReplyHead { tag_text, name });
        }
        let noted = self.core.note_event(id, event);
        self.gather_noted(id, noted, tag, ReplyHead { tag_text, name })?;
        Ok(Change::Unchanged)
    }

    // The same as `note`, where replies are printed as objects with this label.
    #[inline(never)]
    fn note_as_object(
        &mut self,
        id: u32,
        event: SharedEvent,
        label: Label<'_>,
    ) -> Result<Change, AllocError>
        ensures ok { IfOk result (NotesEvent self.old self.new (put_back_by label.entry) id event) }
        ensures err { OnErr result (self.new.gathered.bytes.items ≡ self.old.gathered.bytes.items) }
    {
        let step = Step::Note { id, event };
        let change = self.take(Item::Step(Format::Line, step), label)?;
        self.gather()?;
        Ok(change)
    }

    // Returns whether the conversation may be complete behind a note of the event, and is to be closed then. Behind a
    // send it is not complete: the message is in flight.
    #[inline(always)]
    fn may_close(&self, event: &SharedEvent) -> bool
        ensures { result ≡ (self.now.style.closes && not (is_send event.now)) }
    {
        self.style.closes && !is_send(event)
    }

    // Notes the event, and gathers its reply as a line of text with this tag and this head. Where the conversation is
    // complete then, closes it and gathers this reply too. Returns what changed.
    #[inline(never)]
    fn note_and_close(
        &mut self,
        id: u32,
        event: SharedEvent,
        tag: Option<&[u8]>,
        head: ReplyHead<'_>,
    ) -> Result<Change, AllocError>
        requires tag { head.tag_text.now ≡ spec.tag_text (bytes_of tag) }
        requires lines { self.old.style.format ≡ format.Line }
        requires closes { self.old.style.closes ≡ true }
        ensures ok { IfOk result
            (NotesEvent self.old self.new (put_back_in_text (bytes_of tag.entry) (bytes_of head.entry.name)) id event) }
        ensures err { OnErr result (self.new.gathered.bytes.items ≡ self.old.gathered.bytes.items) }
    {
        match self.core.core.note_and_test(id, event) {
            Ok(Tested { noted, complete }) => {
                if complete {
                    return self.gather_closing(id, noted, text_label(tag, head.name));
                }
                self.gather_noted(id, Ok(noted), tag, head)?;
                Ok(Change::Unchanged)
            }
            Err(refusal) => {
                self.gather_noted(id, Err(refusal), tag, head)?;
                Ok(Change::Unchanged)
            }
        }
    }

    // Closes the conversation in which an event was noted with this outcome, and gathers both replies as lines of text
    // with this label. They are gathered together, so that after an error the gathered texts are unchanged. Returns what
    // changed.
    #[inline(never)]
    fn gather_closing(
        &mut self,
        id: u32,
        noted: Noted,
        label: Label<'_>,
    ) -> Result<Change, AllocError>
        ensures ok { IfOk result (λ c. (r : Reply)
            × IsAnswered (state_of self.old.core) (Close id) r (state_of self.new.core) × (c ≡ change_by r)
            × (self.new.gathered.bytes.items ≡ self.old.gathered.bytes.items
            ++ (labelled_reply format.Line (put_back_by label.entry) (note_reply_of id (Ok noted))
            ++ labelled_reply format.Line (put_back_by label.entry) r))) }
        ensures opens { IfOk result (λ c. c ≢ change.Opened) }
        ensures style { self.new.style ≡ self.old.style }
        ensures err { OnErr result (self.new.gathered.bytes.items ≡ self.old.gathered.bytes.items) }
    {
        self.text.clear();
        push_labelled_reply(
            &mut self.text,
            &note_reply(id, Ok(noted)),
            Format::Line,
            label,
        )?;
        let change = self.push_close(id, Format::Line, label)?;
        self.gather()?;
        Ok(change)
    }

    // Gathers the reply to a note with this outcome as a line of text with this tag and this head. After an error the
    // gathered texts are unchanged.
    #[inline(always)]
    fn gather_noted(
        &mut self,
        id: u32,
        noted: Result<Noted, Refusal>,
        tag: Option<&[u8]>,
        head: ReplyHead<'_>,
    ) -> Result<(), AllocError>
        requires { head.tag_text.now ≡ spec.tag_text (bytes_of tag) }
        ensures core { self.new.core ≡ self.old.core }
        ensures style { self.new.style ≡ self.old.style }
        ensures ok { OnOk result (self.new.gathered.bytes.items ≡ self.old.gathered.bytes.items
            ++ labelled_reply format.Line (put_back_in_text (bytes_of tag.entry) (bytes_of head.entry.name))
            (note_reply_of id noted)) }
        ensures err { OnErr result (self.new.gathered.bytes.items ≡ self.old.gathered.bytes.items) }
    {
        match noted {
            // most replies of a long script
            Ok(
                Noted {
                    place,
                    told: Told::Judged(Verdict::Permitted),
                },
            ) => self.gathered.add_headed_permitted(id, place as u64, head),
            noted => self.gather_line(&note_reply(id, noted), tag, head.name),
        }
    }

    // Gathers the line of the reply with this tag and this name.
    #[inline(never)]
    fn gather_line(
        &mut self,
        reply: &Reply,
        tag: Option<&[u8]>,
        name: Option<&[u8]>,
    ) -> Result<(), AllocError>
        ensures core { self.new.core ≡ self.old.core }
        ensures style { self.new.style ≡ self.old.style }
        ensures ok { OnOk result (self.new.gathered.bytes.items ≡ self.old.gathered.bytes.items
            ++ labelled_reply format.Line (put_back_in_text (bytes_of tag.entry) (bytes_of name.entry)) reply.now) }
        ensures err { OnErr result (self.new.gathered.bytes.items ≡ self.old.gathered.bytes.items) }
    {
        self.text.clear();
        push_labelled_reply(&mut self.text, reply, Format::Line, text_label(tag, name))?;
        self.gather()
    }

    // Returns whether replies are printed as lines of text, where a line asks for no format.
    #[inline(always)]
    fn prints_lines(&self) -> bool
        ensures { IsTrue result → self.now.style.format ≡ format.Line }
    {
        matches!(self.style.format, Format::Line)
    }

    /// Gathers the text of the last item.
    ///
    /// # Errors
    /// `AllocError` where there is no memory for it. The gathered texts are then unchanged.
    pub fn gather(&mut self) -> Result<(), AllocError>
        ensures same { self.new ≡ record self.old { gathered = self.new.gathered } }
        ensures ok { OnOk result
            (self.new.gathered.bytes.items ≡ self.old.gathered.bytes.items ++ self.old.text.items) }
        ensures err { OnErr result (self.new.gathered.bytes.items ≡ self.old.gathered.bytes.items) }
    {
        self.gathered.add_bytes(self.text.as_slice())
    }
}

// Returns what the reply changes.
fn change_by(reply: &Reply) -> Change
    ensures { result ≡ change_by reply.now }
{
    match reply {
        Reply::Opened { .. } => Change::Opened,
        Reply::Closed { .. } => Change::Closed,
        _ => Change::Unchanged,
    }
}

// Returns the label of a reply that is printed as a line of text. Such lines have no numbers.
fn text_label<'a>(tag: Option<&'a [u8]>, name: Option<&'a [u8]>) -> Label<'a>
    ensures { put_back_by result ≡ put_back_in_text (bytes_of tag.entry) (bytes_of name.entry) }
{
    Label {
        tag,
        name,
        line: None,
        conversation: None,
    }
}

// Returns the label of the replies to the step: with the number of the line also that of its conversation.
fn of_step<'a>(label: Label<'a>, step: &Step) -> Label<'a>
    ensures { put_back_by result ≡ of_step (put_back_by label.entry) step.now }
{
    let conversation = match label.line {
        Some(_) => concerned(step),
        None => None,
    };
    Label {
        conversation,
        ..label
    }
}

/// Returns the conversation of the step, if it has one.
pub fn concerned(step: &Step) -> Option<u32>
    ensures { result ≡ concerned step.now }
{
    match step {
        Step::Put { .. } | Step::Withdraw { .. } | Step::Profile { .. } => None,
        Step::Open { id, .. }
        | Step::Note { id, .. }
        | Step::Turn { id }
        | Step::Ask { id }
        | Step::Close { id } => Some(*id),
    }
}
