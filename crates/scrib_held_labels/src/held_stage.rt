//! A stage that holds the events of a script with labels back, over one monitor.

ghost use Rattle.std.specs.Prelude.{◌≡◌, ◌↔◌, IsTrue, IfSome, true};
ghost use Rattle.scrib_labels.specs.SessionNames.{is_session_name};
ghost use Rattle.scrib_labelled.specs.NamedLines.{session_of};
ghost use Rattle.scrib_labelled.specs.ExchangeLines.{named_id};
ghost use Rattle.scrib_script_reader.specs.declared.entry.Entry.TheVariants as entries;

use crate::labelled_sink::LabelledSink;
use crate::waiting_labels::KeptLabel;
use scrib_core::format::Format;
use scrib_core::step::Step;
use scrib_hold::held_monitor::HeldMonitor;
use scrib_hold_stage::stage::Counts;
use scrib_labelled::entry_stage::EntryStage;
use scrib_labelled::exchange_line::ExchangeLine;
use scrib_labelled::label_options::LabelledStyle;
use scrib_labelled::line_parts::{LineParts, Session};
use scrib_labels::session_names::SessionNames;
use scrib_script_io::fault::ScriptFault;
use scrib_script_reader::entry::Entry;
use scrib_script_reader::item::Item;
use std::alloc::{AllocError, Global};
use std::io::Write;

/// The stage, and the numbers that stand for the names of conversations.
#[derive(Drop)]
pub(crate) struct HeldStage {
    alloc: Global,
    names: SessionNames,
    held: HeldMonitor<LabelledSink>,
    /// The counts of the events, once the script has ended.
    pub(crate) counts: Option<Counts>,
}

impl HeldStage {
    ghost use Rattle.std.specs.Prelude.{◌≡◌, ◌≢◌, [], ℕ, List, None, Some, true, IsFalse, IsTrue, OnErr, OnOk};
    ghost use Rattle.scrib_core.specs.World.{conversation};
    ghost use Rattle.scrib_hold.specs.HeldMonitors as monitors;
    ghost use Rattle.scrib_labelled.specs.NamedLines.{IsNumbersOf, label_of, session_of};
    ghost use Rattle.scrib_labelled.specs.Stages.{FailsEnd, FailsEntry, TakesEnd, TakesEntry};
    ghost use Rattle.scrib_held_labels.specs.HeldRuns.{KeepsNames, with_session};
    ghost use Rattle.scrib_held_labels.specs.Sinks as sinks;
    ghost use Rattle.scrib_held_labels.specs.Stages.{HasGone, HeldAll, HeldEntries, HeldPart, LabelsEntry, bound_of, gathered_in, naming_of, state_of, style_of};

    /// Returns a stage before the first entry. An event waits while at most `bound` further entries are taken.
    pub(crate) fn new(alloc: Global, style: LabelledStyle, bound: u64) -> HeldStage
        ensures taken { HeldEntries result result [] [] }
        ensures style { style_of result ≡ style }
        ensures bound { bound_of result ≡ bound }
    {
        HeldStage {
            alloc,
            names: SessionNames::new(alloc),
            held: HeldMonitor::new(alloc, bound, LabelledSink::new(alloc, style)),
            counts: None,
        }
    }

    // Takes the entry of a line with this label, and gathers the replies to what the stage lets out.
    fn take_entry(&mut self, entry: Entry, parts: LineParts<'_>) -> Result<(), AllocError>
        requires { IsNumbersOf self.old.names (session_of parts.session) }
        ensures ok { OnOk result (TakesEntry HeldEntries gathered_in self.old self.new (label_of parts.entry) entry) }
        ensures err { OnErr result
            (FailsEntry HeldEntries HeldPart gathered_in self.old self.new (label_of parts.entry) entry) }
    {
        self.put_label(&entry, parts)?;
        let Ok(()) = self.held.take(entry) else {
            return Err(AllocError);
        };
        self.keep_name(parts.session)?;
        self.drop_names();
        Ok(())
    }

    // Keeps the label of the next entry, unless it is skipped.
    fn put_label(&mut self, entry: &Entry, parts: LineParts<'_>) -> Result<(), AllocError>
        ensures same { self.new ≡ record self.old {
          held = record self.old.held {
            sink = record self.old.held.sink { waiting = self.new.held.sink.waiting };
          };
        } }
        ensures ok { OnOk result (LabelsEntry self.old self.new (label_of parts.entry) entry.now) }
    {
        if is_skipped(entry) {
            return Ok(());
        }
        let Some(number) = self.held.entries_taken().checked_add(1) else {
            return Err(AllocError);
        };
        let kept = KeptLabel::new(self.alloc, parts)?;
        self.held.sink.waiting.put(number, kept)
    }

    // Returns whether something is left of the conversation: it is open, or the stage has met it since its last close, or
    // a close of it waits. Of a refused opening the stage knows only that it came.
    fn has_left(&self, id: u32) -> bool
        ensures { IsFalse result → HasGone self.now id }
    {
        self.held.sink.monitor.is_open(id) || self.held.has_left(id)
    }

    // Keeps the number of the line's name where something is left of its conversation.
    fn keep_name(&mut self, session: Option<Session<'_>>) -> Result<(), AllocError>
        requires { IsNumbersOf self.old.names (session_of session) }
        ensures same { self.new ≡ record self.old { names = self.new.names } }
        ensures kept { OnOk result (KeepsNames (with_session (naming_of self.old) (session_of session.entry))
            (naming_of self.new) (HasGone self.old)) }
    {
        let Some(session) = session else {
            return Ok(());
        };
        if self.has_left(session.number) {
            return self.names.keep(session.name, session.number);
        }
        self.names.remove(session.name);
        Ok(())
    }

    // Takes the numbers away of the names of which an item was carried out, and nothing is left.
    fn drop_names(&mut self)
        ensures same { self.new ≡ record self.old {
          names = self.new.names;
          held = record self.old.held {
            sink = record self.old.held.sink { met = self.new.held.sink.met };
          };
        } }
        ensures kept { KeepsNames (naming_of self.old) (naming_of self.new) (HasGone self.old) }
    {
        while let Some(session) = self.held.sink.met.pop() {
            self.drop_name(session.name.as_str());
        }
    }

    // Takes the number of the name away, where nothing is left of its conversation.
    fn drop_name(&mut self, name: &str)
        ensures same { self.new ≡ record self.old { names = self.new.names } }
        ensures kept { KeepsNames (naming_of self.old) (naming_of self.new) (HasGone self.old) }
    {
        if let Some(number) = self.names.number_of(name)
            && !self.has_left(number)
        {
            self.names.remove(name);
        }
    }

    // Lets out what waits at the end of the script, and gathers the replies.
    fn end(&mut self) -> Result<(), AllocError>
        ensures ok { OnOk result (TakesEnd HeldEntries HeldAll gathered_in self.old self.new) }
        ensures err { OnErr result (FailsEnd HeldEntries HeldPart gathered_in self.old self.new) }
    {
        match self.held.finish() {
            Ok(counts) => {
                self.counts = Some(counts);
                Ok(())
            }
            Err(_) => Err(AllocError),
        }
    }
}

// Returns whether the entry is a line that is skipped.
fn is_skipped(entry: &Entry) -> bool
    ensures { IsTrue result ↔ (entry.now ≡ entries.Skipped) }
{
    matches!(entry, Entry::Skipped)
}

// Returns the conversation of this name and number, if there is a name.
fn session_with(name: Option<&[u8]>, number: u32) -> Option<Session<'_>>
    requires { IfSome name (λ name. is_session_name name.now ≡ true) }
    ensures { session_of result ≡ named_id name.entry number }
{
    let Ok(name) = str::from_utf8(name?) else {
        // names are ASCII
        unreachable!()
    };
    Some(Session { name, number })
}

impl EntryStage for HeldStage {
    ghost use Rattle.scrib_held_labels.specs.Stages.{HeldAll, HeldEntries, HeldPart, gathered_in};
    ghost use Rattle.scrib_held_labels.specs.StageLaws.{all_is_part, entries_are_part, less_is_part};

    ghost gathered = { gathered_in };

    ghost names = { λ s. s.names };

    ghost Took = { HeldEntries };

    ghost TookAll = { HeldAll };

    ghost TookPart = { HeldPart };

    fn names(&self) -> &SessionNames {
        &self.names
    }

    fn take(&mut self, entry: Entry, parts: LineParts<'_>) -> Result<(), AllocError> {
        self.take_entry(entry, parts)
    }

    fn note(&mut self, line: ExchangeLine<'_>) -> Result<(), AllocError> {
        let ExchangeLine {
            line,
            text,
            tag,
            name,
            id,
            event,
            ..
        } = line;
        let parts = LineParts {
            line,
            text,
            tag,
            session: session_with(name, id),
        };
        let note = Step::Note { id, event };
        self.take_entry(Entry::Item(Item::Step(Format::Line, note)), parts)
    }

    fn finish(&mut self) -> Result<(), AllocError> {
        self.end()
    }

    fn clear(&mut self) {
        self.held.sink.monitor.gathered.clear();
    }

    fn write_all<W: Write>(&mut self, writer: &mut W) -> Result<(), ScriptFault> {
        self.held.sink.monitor.gathered.write_all(writer)
    }

    fn write_long<W: Write>(&mut self, writer: &mut W) -> Result<(), ScriptFault> {
        self.held.sink.monitor.gathered.write_long(writer)
    }

    ghost is_part = { entries_are_part };

    ghost all_is_part = { all_is_part };

    ghost less_is_part = { less_is_part };
}
