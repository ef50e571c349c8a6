//! A stage that holds the events of a script with labels back, and writes the lines that it lets out.

ghost use Rattle.std.specs.Prelude.{◌≡◌, IfSome, true};
ghost use Rattle.scrib_labels.specs.SessionNames.{is_session_name};
ghost use Rattle.scrib_labelled.specs.NamedLines.{session_of};
ghost use Rattle.scrib_labelled.specs.ExchangeLines.{named_id};

use crate::line_sink::LineSink;
use crate::line_texts::{closed_name, is_one_line, lines_of, push_end};
use crate::waiting_lines::KeptLines;
use scrib_core::format::Format;
use scrib_core::step::Step;
use scrib_hold::held_monitor::HeldMonitor;
use scrib_hold_stage::stage::Counts;
use scrib_labelled::entry_stage::EntryStage;
use scrib_labelled::exchange_line::ExchangeLine;
use scrib_labelled::line_parts::{LineParts, Session};
use scrib_labels::session_names::SessionNames;
use scrib_script_io::fault::ScriptFault;
use scrib_script_reader::entry::Entry;
use scrib_script_reader::item::Item;
use std::alloc::{AllocError, Global};
use std::io::Write;

/// The stage, and the numbers that stand for the names of conversations.
#[derive(Drop)]
pub(crate) struct LineStage {
    alloc: Global,
    // Whether lines are objects.
    objects: bool,
    names: SessionNames,
    held: HeldMonitor<LineSink>,
    // The line of the put whose text the script ends in, once it has ended.
    last: Vec<u8>,
    /// The counts of the events, once the script has ended.
    pub(crate) counts: Option<Counts>,
}

impl LineStage {
    ghost use Rattle.std.specs.Prelude.{◌≡◌, [], ℕ, List, OnErr, OnOk};
    ghost use Rattle.scrib_script_reader.specs.declared.entry.Entry.TheVariants as entry;
    ghost use Rattle.scrib_labelled.specs.NamedLines.{IsNumbersOf, label_of, session_of};
    ghost use Rattle.scrib_labelled.specs.Stages.{FailsEnd, FailsEntry, TakesEnd, TakesEntry};
    ghost use Rattle.scrib_held_labels.specs.HeldRuns.{KeepsNames, with_session};
    ghost use Rattle.scrib_hold_labelled.specs.Stages.{HasGone, KeepsLines, WroteAll, WroteEntries, WrotePart, bound_of, gathered_in, naming_of};

    /// Returns a stage before the first entry. An event waits while at most `bound` further entries are taken.
    pub(crate) fn new(alloc: Global, objects: bool, bound: u64) -> LineStage
        ensures taken { WroteEntries result result [] [] }
        ensures objects { result.objects ≡ objects }
        ensures bound { bound_of result ≡ bound }
    {
        LineStage {
            alloc,
            objects,
            names: SessionNames::new(alloc),
            held: HeldMonitor::new(alloc, bound, LineSink::new(alloc)),
            last: Vec::new(alloc),
            counts: None,
        }
    }

    // Takes the entry of a line with this label, and gathers the lines of what the stage lets out.
    fn take_entry(&mut self, entry: Entry, parts: LineParts<'_>) -> Result<(), AllocError>
        requires { IsNumbersOf self.old.names (session_of parts.session) }
        ensures ok { OnOk result
            (TakesEntry WroteEntries gathered_in self.old self.new (label_of parts.entry) entry) }
        ensures err { OnErr result
            (FailsEntry WroteEntries WrotePart gathered_in self.old self.new (label_of parts.entry) entry) }
    {
        self.keep_lines(&entry, parts)?;
        let Ok(()) = self.held.take(entry) else {
            return Err(AllocError);
        };
        self.keep_name(parts.session)?;
        self.drop_names();
        Ok(())
    }

    // Keeps the lines of the next entry, unless it is skipped.
    fn keep_lines(&mut self, entry: &Entry, parts: LineParts<'_>) -> Result<(), AllocError>
        ensures same { self.new ≡ record self.old {
          held = record self.old.held {
            sink = record self.old.held.sink { waiting = self.new.held.sink.waiting };
          };
          last = self.new.last;
        } }
        ensures ok { OnOk result (KeepsLines self.old self.new (label_of parts.entry) entry.now) }
    {
        match entry {
            Entry::Item(item) => self.keep_item(item, parts),
            Entry::Skipped => Ok(()),
        }
    }

    // The same of an entry with this item.
    fn keep_item(&mut self, item: &Item, parts: LineParts<'_>) -> Result<(), AllocError>
        ensures same { self.new ≡ record self.old {
          held = record self.old.held {
            sink = record self.old.held.sink { waiting = self.new.held.sink.waiting };
          };
          last = self.new.last;
        } }
        ensures ok { OnOk result (KeepsLines self.old self.new (label_of parts.entry) (entry.Item item.now)) }
    {
        if !is_one_line(parts.text) {
            // what is read of a line has no LF
            return Err(AllocError);
        }
        let Some(number) = self.held.entries_taken().checked_add(1) else {
            return Err(AllocError);
        };
        let lines = lines_of(self.alloc, self.objects, parts.text, item)?;
        push_end(&mut self.last, parts.text, item)?;
        let closes = closed_name(self.alloc, item, parts.session)?;
        self.held
            .sink
            .waiting
            .put(number, KeptLines { lines, closes })
    }

    // Keeps the number of the line's name where something is left of its conversation.
    fn keep_name(&mut self, session: Option<Session<'_>>) -> Result<(), AllocError>
        requires { IsNumbersOf self.old.names (session_of session) }
        ensures same { self.new ≡ record self.old { names = self.new.names } }
        ensures kept { OnOk result (KeepsNames (with_session (naming_of self.old) (session_of session.entry))
            (naming_of self.new) (HasGone self.old)) }
    {
        let Some(session) = session else {
            return Ok(());
        };
        if self.held.has_left(session.number) {
            return self.names.keep(session.name, session.number);
        }
        self.names.remove(session.name);
        Ok(())
    }

    // Takes the numbers away of the names of which a closing was let out, and nothing is left.
    fn drop_names(&mut self)
        ensures same { self.new ≡ record self.old {
          names = self.new.names;
          held = record self.old.held {
            sink = record self.old.held.sink { closed = self.new.held.sink.closed };
          };
        } }
        ensures kept { KeepsNames (naming_of self.old) (naming_of self.new) (HasGone self.old) }
    {
        while let Some(name) = self.held.sink.closed.pop() {
            self.drop_name(name.as_str());
        }
    }

    // Takes the number of the name away, where nothing is left of its conversation.
    fn drop_name(&mut self, name: &str)
        ensures same { self.new ≡ record self.old { names = self.new.names } }
        ensures kept { KeepsNames (naming_of self.old) (naming_of self.new) (HasGone self.old) }
    {
        if let Some(number) = self.names.number_of(name)
            && !self.held.has_left(number)
        {
            self.names.remove(name);
        }
    }

    // Lets out what waits at the end of the script, and gathers the lines.
    fn end(&mut self) -> Result<(), AllocError>
        ensures ok { OnOk result (TakesEnd WroteEntries WroteAll gathered_in self.old self.new) }
        ensures err { OnErr result (FailsEnd WroteEntries WrotePart gathered_in self.old self.new) }
    {
        let Ok(counts) = self.held.finish() else {
            return Err(AllocError);
        };
        self.held.sink.gathered.add_bytes(self.last.as_slice())?;
        self.counts = Some(counts);
        Ok(())
    }
}

// Returns the conversation of this name and number, if there is a name.
fn session_with(name: Option<&[u8]>, number: u32) -> Option<Session<'_>>
    requires { IfSome name (λ name. is_session_name name.now ≡ true) }
    ensures { session_of result ≡ named_id name.entry number }
{
    let Ok(name) = str::from_utf8(name?) else {
        // names are ASCII
        unreachable!()
    };
    Some(Session { name, number })
}

impl EntryStage for LineStage {
    ghost use Rattle.scrib_hold_labelled.specs.Stages.{WroteAll, WroteEntries, WrotePart, gathered_in};
    ghost use Rattle.scrib_hold_labelled.specs.StageLaws.{all_is_part, entries_are_part, less_is_part};

    ghost gathered = { gathered_in };

    ghost names = { λ s. s.names };

    ghost Took = { WroteEntries };

    ghost TookAll = { WroteAll };

    ghost TookPart = { WrotePart };

    fn names(&self) -> &SessionNames {
        &self.names
    }

    fn take(&mut self, entry: Entry, parts: LineParts<'_>) -> Result<(), AllocError> {
        self.take_entry(entry, parts)
    }

    fn note(&mut self, line: ExchangeLine<'_>) -> Result<(), AllocError> {
        let ExchangeLine {
            line,
            text,
            tag,
            name,
            id,
            event,
            ..
        } = line;
        let parts = LineParts {
            line,
            text,
            tag,
            session: session_with(name, id),
        };
        let note = Step::Note { id, event };
        self.take_entry(Entry::Item(Item::Step(Format::Line, note)), parts)
    }

    fn finish(&mut self) -> Result<(), AllocError> {
        self.end()
    }

    fn clear(&mut self) {
        self.held.sink.gathered.clear();
    }

    fn write_all<W: Write>(&mut self, writer: &mut W) -> Result<(), ScriptFault> {
        self.held.sink.gathered.write_all(writer)
    }

    fn write_long<W: Write>(&mut self, writer: &mut W) -> Result<(), ScriptFault> {
        self.held.sink.gathered.write_long(writer)
    }

    ghost is_part = { entries_are_part };

    ghost all_is_part = { all_is_part };

    ghost less_is_part = { less_is_part };
}
