//! A stage that sweeps its monitor before each entry of a script with labels.

ghost use Rattle.std.specs.Option.{ForSome};
ghost use Rattle.std.specs.List.Sorted.{IsStrictlyIncreasing};
ghost use Rattle.scrib_labelled.specs.CheckedCores.{state_of};
ghost use Rattle.scrib_sweeping.specs.StaleLists.{AreAmong, left_in};

use crate::edits::is_edit;
use crate::stale_list::StaleList;
use crate::sweep_counts::SweepCounts;
use scrib_labelled::entry_stage::EntryStage;
use scrib_labelled::exchange_line::ExchangeLine;
use scrib_labelled::label_options::LabelledStyle;
use scrib_labelled::line_parts::LineParts;
use scrib_labelled::named_monitor::NamedMonitor;
use scrib_labels::session_names::SessionNames;
use scrib_script_io::fault::ScriptFault;
use scrib_script_reader::entry::Entry;
use scrib_script_reader::item::Item;
use scrib_sweep::sweep::Progress;
use std::alloc::{AllocError, Global};
use std::io::Write;

/// A monitor with names, and the conversations that may be stale.
#[derive(Drop)]
pub(crate) struct SweepingMonitor {
    alloc: Global,
    named: NamedMonitor,
    // None where an edit was carried out since the list was made.
    listed: Option<StaleList>,
    /// What the sweeps came to so far.
    pub(crate) counts: SweepCounts,
    ghost rising: { ForSome listed (λ l. IsStrictlyIncreasing (left_in l)) },
    ghost covered: { ForSome listed (λ l. AreAmong (state_of named.monitor.core) (left_in l)) },
}

impl SweepingMonitor {
    ghost use Rattle.std.specs.Prelude.{◌≡◌, [], IfSome, IsTrue, None, OnErr, OnOk};
    ghost use Rattle.scrib_core.specs.declared.format.Format.TheVariants as format;
    ghost use Rattle.scrib_core.specs.declared.step.Step.TheVariants.{Note};
    ghost use Rattle.scrib_script_reader.specs.declared.item.Item.TheVariants as item;
    ghost use Rattle.scrib_report.specs.PutBack.{bytes_of, tag_text};
    ghost use Rattle.scrib_sweep.specs.Sweeps.{Covers, IsAllFresh};
    ghost use Rattle.scrib_labelled.specs.ExchangeLines.{exchange_label};
    ghost use Rattle.scrib_labelled.specs.NamedLines.{IsNumbersOf, label_of, session_of};
    ghost use Rattle.scrib_sweeping.specs.SweepingMonitors.{CarriesItem, SweptEntries, Sweeps, SweepsRest, gathered_in, state_in, style_of};

    /// Returns a new monitor, which has taken no entry.
    pub(crate) fn new(alloc: Global, style: LabelledStyle) -> SweepingMonitor
        ensures taken { SweptEntries result result [] [] }
        ensures style { style_of result ≡ style }
    {
        SweepingMonitor {
            alloc,
            named: NamedMonitor::new(alloc, style),
            listed: Some(StaleList::none(alloc)),
            counts: SweepCounts::none(),
        }
    }

    // Makes at most 64 turns of the stale conversations, by rising ids.
    #[inline(always)]
    fn sweep_before(&mut self)
        ensures { Sweeps self.old self.new }
    {
        if !self.is_done() {
            self.sweep_some();
        }
    }

    // Returns whether it is known that no conversation is stale.
    #[inline(always)]
    fn is_done(&self) -> bool
        ensures { IsTrue result → IsAllFresh (state_in self.now) }
    {
        match &self.listed {
            Some(list) => list.is_done(),
            None => false,
        }
    }

    // The same as `sweep_before`, where a conversation may be stale.
    #[inline(never)]
    fn sweep_some(&mut self)
        ensures { Sweeps self.old self.new }
    {
        let Some(mut list) = self.take_list() else {
            self.counts.count(0, true);
            return;
        };
        let Progress {
            judged,
            left,
            refused,
        } = self.named.monitor.sweep_some(list.left());
        let first = left.first().copied();
        list.leave_from(first);
        self.listed = Some(list);
        self.counts.count(judged, refused);
    }

    // Takes the list of the conversations that may be stale, or makes one. None where memory is refused.
    fn take_list(&mut self) -> Option<StaleList>
        ensures covers { IfSome result (λ list. Covers (state_in self.old) (left_in list)) }
        ensures none { self.new.listed ≡ None }
        ensures named { self.new.named ≡ self.old.named }
        ensures counts { self.new.counts ≡ self.old.counts }
    {
        match self.listed.take() {
            Some(list) => Some(list),
            None => match self.named.monitor.stale_conversations(self.alloc) {
                Ok(ids) => Some(StaleList::of(ids)),
                Err(_) => None,
            },
        }
    }

    // Carries the item of a line with this label out, and gathers its output.
    fn carry_out(&mut self, item: Item, parts: LineParts<'_>) -> Result<(), AllocError>
        requires { IsNumbersOf self.old.named.names (session_of parts.session) }
        ensures ok { OnOk result (CarriesItem self.old self.new (label_of parts.entry) item) }
        ensures err { OnErr result (gathered_in self.new ≡ gathered_in self.old) }
    {
        let edits = is_edit(&item);
        let carried = self.named.carry_out(item, parts);
        if edits || carried.is_err() {
            self.listed = None;
        }
        carried
    }

    // Notes the event of a line, and gathers its replies.
    #[inline(always)]
    fn note_line(&mut self, line: ExchangeLine<'_>) -> Result<(), AllocError>
        requires tag { line.tag_text.now ≡ tag_text (bytes_of line.tag) }
        requires numbers { IsNumbersOf self.old.named.names (exchange_label line).session }
        ensures ok { OnOk result (CarriesItem self.old self.new (exchange_label line.entry)
            (item.Step format.Line (Note line.entry.id line.entry.event))) }
        ensures err { OnErr result (gathered_in self.new ≡ gathered_in self.old) }
    {
        let noted = self.named.note_line(line);
        if noted.is_err() {
            self.listed = None;
        }
        noted
    }

    // Makes turns of the conversations that are left, until none is stale, and counts what they came to.
    fn sweep_rest(&mut self)
        ensures { SweepsRest self.old self.new }
    {
        if self.is_done() {
            return;
        }
        self.listed = None;
        match self.named.monitor.sweep_all(self.alloc) {
            Ok(judged) => self.counts.count(judged, false),
            Err(_) => self.counts.count(0, true),
        }
    }
}

impl EntryStage for SweepingMonitor {
    ghost use Rattle.scrib_sweeping.specs.SweepingMonitors.{SweptAll, SweptEntries, SweptPart, all_is_part, entries_are_part, gathered_in, less_is_part};

    ghost gathered = { gathered_in };

    ghost names = { λ s. s.named.names };

    ghost Took = { SweptEntries };

    ghost TookAll = { SweptAll };

    ghost TookPart = { SweptPart };

    #[inline(always)]
    fn names(&self) -> &SessionNames {
        &self.named.names
    }

    #[inline(always)]
    fn take(&mut self, entry: Entry, parts: LineParts<'_>) -> Result<(), AllocError> {
        self.sweep_before();
        match entry {
            Entry::Skipped => Ok(()),
            Entry::Item(item) => self.carry_out(item, parts),
        }
    }

    #[inline(always)]
    fn note(&mut self, line: ExchangeLine<'_>) -> Result<(), AllocError> {
        self.sweep_before();
        self.note_line(line)
    }

    fn finish(&mut self) -> Result<(), AllocError> {
        self.sweep_rest();
        Ok(())
    }

    fn clear(&mut self) {
        self.named.monitor.gathered.clear();
    }

    fn write_all<W: Write>(&mut self, writer: &mut W) -> Result<(), ScriptFault> {
        self.named.monitor.gathered.write_all(writer)
    }

    #[inline(always)]
    fn write_long<W: Write>(&mut self, writer: &mut W) -> Result<(), ScriptFault> {
        self.named.monitor.gathered.write_long(writer)
    }

    ghost is_part = { entries_are_part };

    ghost all_is_part = { all_is_part };

    ghost less_is_part = { less_is_part };
}
