//! A connection to a service.

ghost use Rattle.std.specs.Prelude.{◌≡◌, ◌<◌, true, vec_len, vec_capacity};

use crate::common::Common;
use crate::notices::name_shards;
use crossbeam_channel::Sender;
use scrib_client::passes::Passes;
use scrib_client::service_reply::{
    ServiceReply, is_change, is_noted, push_noted_reply, push_service_reply,
};
use scrib_client::steps::make_step;
use scrib_core::format::Format;
use scrib_core::step::Step;
use scrib_rejudge::notices::Notice;
use scrib_report::part::OutputPart;
use scrib_report::printing::{push_part, reply_format};
use scrib_script_io::fault::ScriptFault;
use scrib_script_reader::item::Item;
use scrib_shards::batch_notes::Batch;
use scrib_shards::pass::Pass;
use scrib_shards::pass_calls::PassReply;
use scrib_shards::service::Service;
use scrib_types::shared_event::SharedEvent;
use std::alloc::{AllocError, Global};
use std::mem::replace;
use std::sync::Wait;

// The most events of a conversation that are buffered, and so noted by one call.
const MAX_PENDING: usize = 64;

/// A connection to a service: its pass to each conversation that it used, and the lines of its replies.
#[derive(Drop)]
pub(crate) struct Connection<'a> {
    alloc: Global,
    service: &'a Service,
    // Receives a notice for each shard after an edit, which may leave verdicts there stale.
    outbox: Option<&'a Sender<Notice>>,
    format: Format,
    passes: Passes,
    lines: Vec<u8>,
    // Events that are not yet noted, all of the conversation `pending_id`.
    pending: Vec<SharedEvent>,
    pending_id: u32,
    // How many events were noted since the last `take_noted`.
    noted: u64,
}

/// What is left of a connection at its end: its passes and its lines.
#[derive(Drop)]
pub(crate) struct Closed {
    pub(crate) passes: Vec<Pass>,
    pub(crate) lines: Vec<u8>,
}

impl<'a> Connection<'a> {
    ghost use Rattle.std.specs.Prelude.{◌≡◌, ◌≤◌, ◌++◌, [], ◌∷◌, false, OnOk, IfOk, IfErr, vec_len};
    ghost use Rattle.std.specs.HashMap.{values};
    ghost use Rattle.scrib_core.specs.declared.format.Format.TheVariants as format;
    ghost use Rattle.scrib_script_reader.specs.declared.item.Item.TheVariants as item;
    ghost use Rattle.scrib_script_io.specs.declared.fault.ScriptFault.TheVariants as fault;
    ghost use Rattle.scrib_client.specs.ServiceReplies.{noted_reply};
    ghost use Rattle.scrib_run_service.specs.Outcomes.{replied, bad, ended, Adds, Yields, TakesItems, is_bad_step, note_items, noted_outcomes};
    ghost use Rattle.scrib_report.specs.ReplyTexts.{read_fault_line};

    /// Returns a connection with no passes and no lines. Its replies are in the format of the run.
    pub(crate) fn new<P>(
        common: &Common<'a, P>,
        outbox: Option<&'a Sender<Notice>>,
    ) -> Connection<'a>
        ensures format { result.format ≡ common.now.format }
        ensures passes { result.passes.by_id.entries ≡ [] }
        ensures lines { result.lines.items ≡ [] }
        ensures pending { result.pending.items ≡ [] }
        ensures noted { result.noted ≡ 0 }
    {
        Connection {
            alloc: common.alloc,
            service: common.service,
            outbox,
            format: common.format,
            passes: Passes::new(common.alloc),
            lines: Vec::new(common.alloc),
            pending: Vec::new(common.alloc),
            pending_id: 0,
            noted: 0,
        }
    }

    /// Returns how many events were noted since the last call, and counts from 0 again.
    pub(crate) fn take_noted(&mut self) -> u64
        ensures count { result ≡ self.old.noted }
        ensures none { self.new.noted ≡ 0 }
        ensures format { self.new.format ≡ self.old.format }
        ensures lines { self.new.lines.items ≡ self.old.lines.items }
        ensures pending { self.new.pending.items ≡ self.old.pending.items }
        ensures pending_id { self.new.pending_id ≡ self.old.pending_id }
    {
        let noted = self.noted;
        self.noted = 0;
        noted
    }

    /// Returns the passes and the lines. Events that are still buffered are dropped.
    ///
    /// # Errors
    /// `AllocError` where memory is refused.
    pub(crate) fn close(self) -> Result<Closed, AllocError>
        ensures passes { IfOk result (λ closed. closed.passes.items ≡ values self.entry.passes.by_id) }
        ensures lines { IfOk result (λ closed. closed.lines ≡ self.entry.lines) }
    {
        let passes = self.passes.into_vec(self.alloc)?;
        Ok(Closed {
            passes,
            lines: self.lines,
        })
    }

    /// Makes the step of an item, which is at this line of the script, and appends the line of its reply.
    ///
    /// For a bad line, and for an end inside a module text, it appends the line that reports this. A close is a bad
    /// line, and so is a turn or a question whose line asks for JSON. Events of one conversation that follow one another
    /// are noted together, so that the service's locks are taken once for many: all but the first are buffered. `flush`
    /// notes those that are left.
    ///
    /// # Errors
    /// `OutOfMemory` where memory is refused.
    #[inline(always)]
    pub(crate) fn submit(
        &mut self,
        rt: &impl Wait,
        item: Item,
        number: u64,
    ) -> Result<(), ScriptFault>
        ensures took { OnOk result (TakesItems self.old self.new (item ∷ [])) }
        ensures fault { IfErr result (λ e. e ≡ fault.OutOfMemory) }
    {
        match item {
            Item::Step(Format::Line, Step::Note { id, event }) => self.submit_note(rt, id, event),
            item => self.submit_alone(rt, item, number),
        }
    }

    // As `submit`, for an item that is not buffered.
    fn submit_alone(&mut self, rt: &impl Wait, item: Item, number: u64) -> Result<(), ScriptFault>
        ensures took { OnOk result (TakesItems self.old self.new (item ∷ [])) }
        ensures fault { IfErr result (λ e. e ≡ fault.OutOfMemory) }
    {
        self.flush(rt)?;
        self.submit_now(rt, item, number)
    }

    /// Notes the buffered events, and appends the lines of their replies.
    ///
    /// # Errors
    /// `OutOfMemory` where memory is refused.
    #[inline(always)]
    pub(crate) fn flush(&mut self, rt: &impl Wait) -> Result<(), ScriptFault>
        ensures took { OnOk result (TakesItems self.old self.new []) }
        ensures none { OnOk result (self.new.pending.items ≡ []) }
        ensures fault { IfErr result (λ e. e ≡ fault.OutOfMemory) }
    {
        if self.pending.is_empty() {
            return Ok(());
        }
        self.flush_some(rt)
    }

    // As `flush`, where an event is buffered.
    #[inline(never)]
    fn flush_some(&mut self, rt: &impl Wait) -> Result<(), ScriptFault>
        ensures took { OnOk result (TakesItems self.old self.new []) }
        ensures none { OnOk result (self.new.pending.items ≡ []) }
        ensures fault { IfErr result (λ e. e ≡ fault.OutOfMemory) }
    {
        if self.pending.len() > 1 {
            return self.flush_together(rt);
        }
        // One event needs no lists of a batch.
        match self.pending.pop() {
            Some(event) => self.note_now(rt, self.pending_id, event),
            None => Ok(()),
        }
    }

    // As `flush`. Notes the events by one call, or one by one where memory for the list of replies is refused.
    fn flush_together(&mut self, rt: &impl Wait) -> Result<(), ScriptFault>
        ensures took { OnOk result (TakesItems self.old self.new []) }
        ensures none { OnOk result (self.new.pending.items ≡ []) }
        ensures fault { IfErr result (λ e. e ≡ fault.OutOfMemory) }
    {
        let events = replace(&mut self.pending, Vec::new(self.alloc));
        match Vec::with_capacity(self.alloc, events.len()) {
            Ok(room) => self.note_all(rt, self.pending_id, Batch { events, room }),
            Err(_) => self.note_each(rt, self.pending_id, events),
        }
    }

    /// As `submit`, for the step that notes the event in the conversation `id`, whose line asks for no format.
    ///
    /// # Errors
    /// `OutOfMemory` where memory is refused.
    #[inline(always)]
    pub(crate) fn submit_note(
        &mut self,
        rt: &impl Wait,
        id: u32,
        event: SharedEvent,
    ) -> Result<(), ScriptFault>
        ensures took { OnOk result (TakesItems self.old self.new (note_items id (event ∷ []))) }
        ensures fault { IfErr result (λ e. e ≡ fault.OutOfMemory) }
    {
        // Where conversations take turns, an event is alone, and is not put into a buffer for one.
        if self.pending_id != id {
            return self.flush_and_note(rt, id, event);
        }
        if !make_room(&mut self.pending) {
            return self.flush_and_note(rt, id, event);
        }
        self.pending.push_reserved(event);
        Ok(())
    }

    // Notes the buffered events, and then this one in the conversation `id`.
    fn flush_and_note(
        &mut self,
        rt: &impl Wait,
        id: u32,
        event: SharedEvent,
    ) -> Result<(), ScriptFault>
        ensures took { OnOk result (TakesItems self.old self.new (note_items id (event ∷ []))) }
        ensures fault { IfErr result (λ e. e ≡ fault.OutOfMemory) }
    {
        self.flush(rt)?;
        self.pending_id = id;
        self.note_now(rt, id, event)
    }

    // Notes the events of the conversation by one call.
    fn note_all(&mut self, rt: &impl Wait, id: u32, batch: Batch) -> Result<(), ScriptFault>
        ensures yielded { OnOk result (Yields self.old self.new (note_items id batch.events.items)) }
        ensures fault { IfErr result (λ e. e ≡ fault.OutOfMemory) }
    {
        match self.passes.note_all(rt, self.service, id, batch) {
            Ok(replies) => self.append_replies(id, replies),
            Err(Batch { events, .. }) => self.note_each(rt, id, events),
        }
    }

    // Appends the lines of the replies to notes in the conversation.
    fn append_replies(&mut self, id: u32, replies: Vec<PassReply>) -> Result<(), ScriptFault>
        ensures added { OnOk result (Adds self.old self.new (noted_outcomes id replies.items)) }
        ensures fault { IfErr result (λ e. e ≡ fault.OutOfMemory) }
    {
        for reply in replies {
            self.append_noted(id, reply)?;
        }
        Ok(())
    }

    // Appends the line of the reply to a note in the conversation, and counts a noted event.
    #[inline(always)]
    fn append_noted(&mut self, id: u32, reply: PassReply) -> Result<(), ScriptFault>
        ensures added { OnOk result (Adds self.old self.new (replied format.Line (noted_reply id reply) ∷ [])) }
        ensures fault { IfErr result (λ e. e ≡ fault.OutOfMemory) }
    {
        if reply.is_ok() {
            self.noted = self.noted.saturating_add(1);
        }
        let format = reply_format(self.format, Format::Line);
        push_noted_reply(&mut self.lines, id, reply, format)?;
        Ok(())
    }

    // Notes the events of the conversation one by one.
    fn note_each(
        &mut self,
        rt: &impl Wait,
        id: u32,
        events: Vec<SharedEvent>,
    ) -> Result<(), ScriptFault>
        ensures yielded { OnOk result (Yields self.old self.new (note_items id events.items)) }
        ensures fault { IfErr result (λ e. e ≡ fault.OutOfMemory) }
    {
        for event in events {
            self.note_now(rt, id, event)?;
        }
        Ok(())
    }

    // Notes the event, and appends the line of its reply.
    fn note_now(&mut self, rt: &impl Wait, id: u32, event: SharedEvent) -> Result<(), ScriptFault>
        ensures yielded { OnOk result (Yields self.old self.new (note_items id (event ∷ []))) }
        ensures fault { IfErr result (λ e. e ≡ fault.OutOfMemory) }
    {
        let reply = self.passes.note(rt, self.service, id, event);
        self.append_noted(id, reply)
    }

    // Appends the line of the reply to a step whose line asks for the format `asked`, and counts a noted event.
    fn append_reply(&mut self, reply: &ServiceReply, asked: Format) -> Result<(), ScriptFault>
        ensures added { OnOk result (Adds self.old self.new (replied asked reply.now ∷ [])) }
        ensures fault { IfErr result (λ e. e ≡ fault.OutOfMemory) }
    {
        if is_noted(reply) {
            self.noted = self.noted.saturating_add(1);
        }
        let format = reply_format(self.format, asked);
        push_service_reply(&mut self.lines, reply, format)?;
        Ok(())
    }

    // As `submit`, where no event is buffered.
    fn submit_now(&mut self, rt: &impl Wait, item: Item, number: u64) -> Result<(), ScriptFault>
        ensures yielded { OnOk result (Yields self.old self.new (item ∷ [])) }
        ensures fault { IfErr result (λ e. e ≡ fault.OutOfMemory) }
    {
        match item {
            Item::Step(_, Step::Close { .. })
            | Item::Step(Format::Json, Step::Turn { .. } | Step::Ask { .. })
            | Item::Sweep(_) => self.append_bad_line(number),
            Item::Step(asked, step) => self.make(rt, asked, step),
            Item::BadLine(number) => self.append_bad_line(number),
            Item::EndOfText => self.append_end_of_text(),
        }
    }

    // Makes the step of a line that asks for the format `asked`, and appends the line of its reply. Sends the notices
    // if the step changed a protocol.
    fn make(&mut self, rt: &impl Wait, asked: Format, step: Step) -> Result<(), ScriptFault>
        requires { is_bad_step asked step ≡ false }
        ensures yielded { OnOk result (Yields self.old self.new (item.Step asked step ∷ [])) }
        ensures fault { IfErr result (λ e. e ≡ fault.OutOfMemory) }
    {
        let reply = make_step(rt, self.service, &mut self.passes, step);
        if is_change(&reply) {
            self.send_notices(rt);
        }
        self.append_reply(&reply, asked)
    }

    /// Appends the line that reports a failed reader.
    ///
    /// # Errors
    /// `AllocError` where memory is refused.
    pub(crate) fn append_read_fault(&mut self) -> Result<(), AllocError>
        ensures { OnOk result (self.new.lines.items ≡ self.old.lines.items ++ read_fault_line self.old.format) }
    {
        push_part(&mut self.lines, &OutputPart::ReadFault, self.format)
    }

    // Appends the line that reports a bad line of this number.
    fn append_bad_line(&mut self, number: u64) -> Result<(), ScriptFault>
        ensures added { OnOk result (Adds self.old self.new (bad number ∷ [])) }
        ensures fault { IfErr result (λ e. e ≡ fault.OutOfMemory) }
    {
        push_part(&mut self.lines, &OutputPart::BadLine(number), self.format)?;
        Ok(())
    }

    // Appends the line that reports an end inside a module text.
    fn append_end_of_text(&mut self) -> Result<(), ScriptFault>
        ensures added { OnOk result (Adds self.old self.new (ended ∷ [])) }
        ensures fault { IfErr result (λ e. e ≡ fault.OutOfMemory) }
    {
        push_part(&mut self.lines, &OutputPart::EndOfText, self.format)?;
        Ok(())
    }

    // Sends a notice for each shard to the workers. A notice that cannot be sent is left out, since the last sweep
    // reaches every shard.
    fn send_notices(&self, rt: &impl Wait) {
        if let Some(outbox) = self.outbox {
            name_shards(self.service, |shard| {
                let _ = outbox.send(rt, Notice { shard });
            });
        }
    }
}

// Reserves room in the buffer for one more event. Returns false where it is full or memory is refused.
#[inline(always)]
fn make_room(pending: &mut Vec<SharedEvent>) -> bool
    ensures room { result ≡ true → vec_len pending.new < vec_capacity pending.new }
    ensures items { pending.new.items ≡ pending.old.items }
{
    pending.len() < MAX_PENDING && pending.reserve(1).is_ok()
}
