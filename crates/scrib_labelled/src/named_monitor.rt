//! A monitor whose conversations may have names.

use crate::entry_stage::EntryStage;
use crate::exchange_line::ExchangeLine;
use crate::label_options::LabelledStyle;
use crate::labelled_monitor::{Change, LabelledMonitor};
use crate::line_parts::{LineParts, Session};
use scrib_labels::session_names::SessionNames;
use scrib_report::label::Label;
use scrib_script_io::fault::ScriptFault;
use scrib_script_reader::entry::Entry;
use scrib_script_reader::item::Item;
use std::alloc::{AllocError, Global};
use std::io::Write;

/// A monitor, and the numbers that stand for the names of its conversations.
#[derive(Drop)]
pub struct NamedMonitor {
    /// The numbers that stand for names.
    pub names: SessionNames,
    /// The monitor.
    pub monitor: LabelledMonitor,
}

impl NamedMonitor {
    ghost use Rattle.std.specs.Prelude.{◌≡◌, ℕ, List, IfSome, OnErr, OnOk, None, Some, true};
    ghost use Rattle.scrib_core.specs.Answers.{initial};
    ghost use Rattle.scrib_core.specs.declared.format.Format.TheVariants as format;
    ghost use Rattle.scrib_core.specs.declared.step.Step.TheVariants.{Note};
    ghost use Rattle.scrib_script_reader.specs.declared.item.Item.TheVariants as item;
    ghost use Rattle.scrib_report.specs.PutBack.{bytes_of, tag_text};
    ghost use Rattle.scrib_labels.specs.Naming.{number_of};
    ghost use Rattle.scrib_labelled.specs.CheckedCores.{state_of};
    ghost use Rattle.scrib_labels.specs.SessionNames.{is_session_name};
    ghost use Rattle.scrib_labelled.specs.ExchangeLines.{exchange_label, named_id};
    ghost use Rattle.scrib_labelled.specs.NamedLines.{IsNumbersOf, label_of, session_of};
    ghost use Rattle.scrib_labelled.specs.Behind.{CarriesOut};
    ghost use Rattle.scrib_labelled.specs.Changes.{after_change};
    ghost use Rattle.scrib_labelled.specs.declared.labelled_monitor.Change.TheVariants as change;

    /// Returns a new monitor, without names.
    pub fn new(alloc: Global, style: LabelledStyle) -> NamedMonitor
        ensures state { state_of result.monitor.core ≡ initial }
        ensures style { result.monitor.style ≡ style }
        ensures names { (name : List ℕ) → number_of result.names name ≡ None }
    {
        NamedMonitor {
            names: SessionNames::new(alloc),
            monitor: LabelledMonitor::new(alloc, style),
        }
    }

    /// Carries the item of a line with this label out, and gathers its output.
    ///
    /// # Errors
    /// `AllocError` where there is no memory for its text or its name. Nothing is gathered then.
    pub fn carry_out(&mut self, item: Item, parts: LineParts<'_>) -> Result<(), AllocError>
        requires { IsNumbersOf self.old.names (session_of parts.session) }
        ensures ok { OnOk result (CarriesOut self.old self.new (label_of parts.entry) item) }
        ensures err { OnErr result
            (self.new.monitor.gathered.bytes.items ≡ self.old.monitor.gathered.bytes.items) }
    {
        let name = match parts.session {
            Some(session) => Some(session.name.as_bytes()),
            None => None,
        };
        let label = Label {
            tag: parts.tag,
            name,
            line: self.monitor.printed(parts.line),
            conversation: None,
        };
        let change = self.monitor.take(item, label)?;
        if let Some(session) = parts.session {
            self.rename(session, change)?;
        }
        self.monitor.gather()
    }

    /// Notes the event of a line, and gathers its replies.
    ///
    /// # Errors
    /// `AllocError` where there is no memory for the text. Nothing is gathered then.
    #[inline(always)]
    pub fn note_line(&mut self, line: ExchangeLine<'_>) -> Result<(), AllocError>
        requires tag { line.tag_text.now ≡ tag_text (bytes_of line.tag) }
        requires numbers { IsNumbersOf self.old.names (exchange_label line).session }
        ensures ok { OnOk result (CarriesOut self.old self.new (exchange_label line.entry)
            (item.Step format.Line (Note line.entry.id line.entry.event))) }
        ensures err { OnErr result
            (self.new.monitor.gathered.bytes.items ≡ self.old.monitor.gathered.bytes.items) }
    {
        let name = line.name;
        let change = self.monitor.note(line)?;
        match change {
            Change::Closed => self.forget(name),
            Change::Opened | Change::Unchanged => {}
        }
        Ok(())
    }

    // Takes the number of the name away, if there is a name.
    #[inline(never)]
    fn forget(&mut self, name: Option<&[u8]>)
        requires { IfSome name (λ name. is_session_name name.now ≡ true) }
        ensures same { self.new ≡ record self.old { names = self.new.names } }
        ensures named { (id : ℕ) (other : List ℕ) → number_of self.new.names other
            ≡ after_change (number_of self.old.names) (named_id name.entry id) change.Closed other }
    {
        let Some(name) = name else {
            return;
        };
        let Ok(name) = str::from_utf8(name) else {
            // names are ASCII
            unreachable!()
        };
        self.names.remove(name);
    }

    // Gives the name its number where its conversation was opened, and takes it away where that was closed.
    fn rename(&mut self, session: Session<'_>, change: Change) -> Result<(), AllocError>
        requires { IsNumbersOf self.old.names (Some (session.name.now, session.number)) }
        ensures same { self.new ≡ record self.old { names = self.new.names } }
        ensures named { OnOk result ((name : List ℕ) → number_of self.new.names name
            ≡ after_change (number_of self.old.names)
            (Some (session.entry.name.now, session.entry.number)) change name) }
    {
        match change {
            Change::Opened => self.names.keep(session.name, session.number)?,
            Change::Closed => self.names.remove(session.name),
            Change::Unchanged => {}
        }
        Ok(())
    }
}

impl EntryStage for NamedMonitor {
    ghost use Rattle.scrib_labelled.specs.Behind.{BeginsOutput, RanEntries, gathered_by, less_begins, ran_begins};

    ghost gathered = { gathered_by };

    ghost names = { λ n. n.names };

    ghost Took = { RanEntries };

    ghost TookAll = { RanEntries };

    ghost TookPart = { BeginsOutput };

    #[inline(always)]
    fn names(&self) -> &SessionNames {
        &self.names
    }

    #[inline(always)]
    fn take(&mut self, entry: Entry, parts: LineParts<'_>) -> Result<(), AllocError> {
        match entry {
            Entry::Skipped => Ok(()),
            Entry::Item(item) => self.carry_out(item, parts),
        }
    }

    #[inline(always)]
    fn note(&mut self, line: ExchangeLine<'_>) -> Result<(), AllocError> {
        self.note_line(line)
    }

    fn finish(&mut self) -> Result<(), AllocError> {
        Ok(())
    }

    fn clear(&mut self) {
        self.monitor.gathered.clear();
    }

    fn write_all<W: Write>(&mut self, writer: &mut W) -> Result<(), ScriptFault> {
        self.monitor.gathered.write_all(writer)
    }

    #[inline(always)]
    fn write_long<W: Write>(&mut self, writer: &mut W) -> Result<(), ScriptFault> {
        self.monitor.gathered.write_long(writer)
    }

    ghost is_part = { ran_begins };

    ghost all_is_part = { ran_begins };

    ghost less_is_part = { less_begins };
}
