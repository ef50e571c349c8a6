//! A monitor behind a stage that holds the events of a script back.

ghost use Rattle.std.specs.Prelude.{◌≡◌, true, if◌then◌else◌};
ghost use Rattle.scrib_script_reader.specs.Scripts.{item_list};
ghost use Rattle.scrib_hold.specs.HeldScripts.{end_item, is_end_inside};

use crate::item_sink::ItemSink;
use crate::opening::opened_by;
use crate::staged::{entry_of, passes_event, read_entry};
use crate::taking::{take_closed, take_end, take_let_out, take_released};
use scrib_core::format::Format;
use scrib_hold_stage::closings::{Closing, PendingClosings};
use scrib_hold_stage::noted::Noted;
use scrib_hold_stage::stage::{Counts, HoldStage};
use scrib_script_io::fault::ScriptFault;
use scrib_script_reader::entry::Entry;
use scrib_script_reader::item::Item;
use scrib_script_reader::short_line::ShortLine;
use scrib_types::shared_event::SharedEvent;
use std::alloc::Global;
use std::mem::replace;

/// A stage, and a sink that carries out what the stage lets out. The sink may be changed between two entries.
#[derive(Drop)]
pub struct HeldMonitor<S> {
    alloc: Global,
    stage: HoldStage<(SharedEvent, Format)>,
    // The closings that wait for the events of their conversations.
    pending: PendingClosings<Format>,
    // What the stage released for the last entry, or the last closing.
    released: Vec<Noted<(SharedEvent, Format)>>,
    /// What carries the items out.
    pub sink: S,
    // Whether the script ended inside a module text.
    ended_inside: bool,
}

impl<S: ItemSink> HeldMonitor<S> {
    ghost use Rattle.std.specs.Prelude.{◌≡◌, [], true, None, is_some, IfOk, IfErr, IfSome, IsFalse, IsTrue, OnOk, OnErr};
    ghost use Rattle.std.specs.List.{AllByRecursion};
    ghost use Rattle.scrib_script_io.specs.Faults.{of_output};
    ghost use Rattle.scrib_script_reader.specs.ShortLines.{short_entry};
    ghost use Rattle.scrib_script_reader.specs.declared.short_line.ShortLine.TheVariants as short;
    ghost use Rattle.scrib_hold_stage.specs.PendingClosings.{IsApart, IsNotReady, IsOf, IsReady, closings_in};
    ghost use Rattle.scrib_hold_stage.specs.Stages.{stage_state};
    ghost use Rattle.scrib_hold.specs.NumberedItems.{numbered_closed};
    ghost use Rattle.scrib_hold.specs.Sinks.{FailsWithin, GathersItems};
    ghost use Rattle.scrib_hold.specs.HeldMonitors.{EndFails, Ends, FailsAtEntry, HasNoneLeft, HasNoneWaiting, HasSomeWaiting, HasTaken, IsCount, TakesEntry};
    ghost use Rattle.scrib_hold.specs.EntrySteps.{CloseFails, CloseReadyFails, ClosesBefore, ClosesOne, ClosesReady, IsSameButReleased, ReadFails, ReadsEntry};

    /// Returns a new monitor over this sink. An event waits while at most `bound` further entries are taken.
    pub fn new(alloc: Global, bound: u64, sink: S) -> HeldMonitor<S>
        ensures taken { HasTaken bound result [] [] }
        ensures sink { result.sink ≡ sink }
    {
        HeldMonitor {
            alloc,
            stage: HoldStage::new(alloc, bound),
            pending: PendingClosings::new(alloc),
            released: Vec::new(alloc),
            sink,
            ended_inside: false,
        }
    }

    /// Returns how many entries were taken.
    #[inline(always)]
    pub fn entries_taken(&self) -> u64
        ensures { IsCount self.now result }
    {
        self.stage.time()
    }

    /// Whether an event of the conversation waits, or a closing of it.
    pub fn waits(&self, id: u32) -> bool
        ensures some { IsTrue result → HasSomeWaiting id self.now }
        ensures none { IsFalse result → HasNoneWaiting id self.now }
    {
        self.stage.waits(id) || self.pending.has_of(id)
    }

    /// Whether the stage has met the conversation since it was last closed, or a closing of it waits.
    pub fn has_left(&self, id: u32) -> bool
        ensures { IsFalse result → HasNoneLeft id self.now }
    {
        self.stage.has_met(id) || self.pending.has_of(id)
    }

    /// Takes the entry of the next line, as [`HeldMonitor::take`] does. An event that is released at once, which most
    /// are, does not go through the stage's lists.
    ///
    /// # Errors
    /// As those of [`HeldMonitor::take`].
    #[inline(always)]
    pub fn take_short(&mut self, line: ShortLine) -> Result<(), ScriptFault>
        ensures ok { OnOk result (TakesEntry S.carries S.gathered self.old self.new (short_entry line)) }
        ensures err { OnErr result (FailsAtEntry S.carries S.gathered self.old self.new (short_entry line)) }
        ensures fault { IfErr result (λ e. of_output e ≡ true) }
    {
        match line {
            // most lines of a long script
            ShortLine::Note { id, event } => self.take_event(id, event),
            other => self.take_other(other),
        }
    }

    // Takes an event, whose line asks for no format.
    #[inline(always)]
    fn take_event(&mut self, id: u32, event: SharedEvent) -> Result<(), ScriptFault>
        ensures ok { OnOk result (TakesEntry S.carries S.gathered self.old self.new
            (short_entry (short.Note id event))) }
        ensures err { OnErr result (FailsAtEntry S.carries S.gathered self.old self.new
            (short_entry (short.Note id event))) }
        ensures fault { IfErr result (λ e. of_output e ≡ true) }
    {
        let Some(number) = self.stage.next_time() else {
            return Err(ScriptFault::OutOfMemory);
        };
        if passes_event(&self.pending, &mut self.stage, id, &event) {
            return self.sink.note(number, id, event);
        }
        self.take_other(ShortLine::Note { id, event })
    }

    // Takes the entry of a line that the stage does not let out at once, and alone.
    #[inline(never)]
    fn take_other(&mut self, line: ShortLine) -> Result<(), ScriptFault>
        ensures ok { OnOk result (TakesEntry S.carries S.gathered self.old self.new (short_entry line)) }
        ensures err { OnErr result (FailsAtEntry S.carries S.gathered self.old self.new (short_entry line)) }
        ensures fault { IfErr result (λ e. of_output e ≡ true) }
    {
        self.take(entry_of(line))
    }

    /// Takes the next entry of a script. The sink carries out what passes at once, and what the stage then releases. A
    /// closing of the conversation that the entry opens is carried out before. Behind it those are that are due, or for
    /// which no event waits.
    ///
    /// # Errors
    /// `OutOfMemory` where there is no memory for the stage or for the sink, and after 2^64 - 1 entries. The output of
    /// some first items is then gathered.
    #[inline(always)]
    pub fn take(&mut self, entry: Entry) -> Result<(), ScriptFault>
        ensures ok { OnOk result (TakesEntry S.carries S.gathered self.old self.new entry) }
        ensures err { OnErr result (FailsAtEntry S.carries S.gathered self.old self.new entry) }
        ensures fault { IfErr result (λ e. of_output e ≡ true) }
    {
        self.close_before(&entry)?;
        self.read(entry)?;
        self.close_ready()
    }

    // Reads the next entry, and carries out what passes at once, and what the stage then releases.
    #[inline(always)]
    fn read(&mut self, entry: Entry) -> Result<(), ScriptFault>
        ensures ok { OnOk result (ReadsEntry S.carries S.gathered self.old self.new entry) }
        ensures err { OnErr result (ReadFails S.carries S.gathered self.old self.new entry) }
        ensures fault { IfErr result (λ e. of_output e ≡ true) }
    {
        let Some(number) = self.stage.next_time() else {
            return Err(ScriptFault::OutOfMemory);
        };
        self.released.clear();
        let inside = stays_inside(self.ended_inside, &entry);
        let passing = read_entry(
            &mut self.stage,
            &mut self.pending,
            entry,
            &mut self.released,
        )?;
        take_let_out(&mut self.sink, number, passing, &mut self.released)?;
        self.ended_inside = inside;
        Ok(())
    }

    // Carries out the closings that wait of the conversation that the entry opens, if it opens one.
    #[inline(always)]
    fn close_before(&mut self, entry: &Entry) -> Result<(), ScriptFault>
        ensures ok { OnOk result (ClosesBefore S.carries S.gathered self.old self.new entry.now) }
        ensures err { OnErr result (FailsAtEntry S.carries S.gathered self.old self.new entry.now) }
        ensures fault { IfErr result (λ e. of_output e ≡ true) }
    {
        if self.pending.is_empty() {
            return Ok(());
        }
        self.close_opened(entry)
    }

    // The same where closings wait.
    #[inline(never)]
    fn close_opened(&mut self, entry: &Entry) -> Result<(), ScriptFault>
        ensures ok { OnOk result (ClosesBefore S.carries S.gathered self.old self.new entry.now) }
        ensures err { OnErr result (FailsAtEntry S.carries S.gathered self.old self.new entry.now) }
        ensures fault { IfErr result (λ e. of_output e ≡ true) }
    {
        let Some(id) = opened_by(entry) else {
            return Ok(());
        };
        while self.close_next_of(id)? {}
        Ok(())
    }

    // Carries out the first closing that waits of the conversation. Returns whether there was one.
    fn close_next_of(&mut self, id: u32) -> Result<bool, ScriptFault>
        ensures closed { IfOk result (λ some. IsTrue some
            → ClosesOne S.carries S.gathered (IsOf id) (IsApart id) self.old self.new) }
        ensures none { IfOk result (λ some. IsFalse some → AllByRecursion (IsApart id) (closings_in self.old.pending)) }
        ensures same { IfOk result (λ some. IsFalse some → IsSameButReleased self.old self.new) }
        ensures err { OnErr result (CloseFails S.carries S.gathered (IsOf id) (IsApart id) self.old self.new) }
        ensures fault { IfErr result (λ e. of_output e ≡ true) }
    {
        self.released.clear();
        let made = self
            .pending
            .close_of(id, &mut self.stage, &mut self.released)?;
        self.take_made(made)
    }

    // Carries out the closings that are due, or for which no event waits.
    #[inline(always)]
    fn close_ready(&mut self) -> Result<(), ScriptFault>
        ensures ok { OnOk result (ClosesReady S.carries S.gathered self.old self.new) }
        ensures err { OnErr result (CloseReadyFails S.carries S.gathered self.old self.new) }
        ensures fault { IfErr result (λ e. of_output e ≡ true) }
    {
        if self.pending.is_empty() {
            return Ok(());
        }
        self.close_each_ready()
    }

    // The same where closings wait.
    #[inline(never)]
    fn close_each_ready(&mut self) -> Result<(), ScriptFault>
        ensures ok { OnOk result (ClosesReady S.carries S.gathered self.old self.new) }
        ensures err { OnErr result (CloseReadyFails S.carries S.gathered self.old self.new) }
        ensures fault { IfErr result (λ e. of_output e ≡ true) }
    {
        while self.close_next_ready()? {}
        Ok(())
    }

    // Carries out the first closing that is due, or for which no event waits. Returns whether there was one.
    fn close_next_ready(&mut self) -> Result<bool, ScriptFault>
        ensures closed { IfOk result (λ some. IsTrue some → ClosesOne S.carries S.gathered
            (λ c. IsReady c (stage_state self.old.stage)) (λ c. IsNotReady c (stage_state self.old.stage))
            self.old self.new) }
        ensures none { IfOk result (λ some. IsFalse some
            → AllByRecursion (λ c. IsNotReady c (stage_state self.old.stage)) (closings_in self.old.pending)) }
        ensures same { IfOk result (λ some. IsFalse some → IsSameButReleased self.old self.new) }
        ensures err { OnErr result (CloseFails S.carries S.gathered
            (λ c. IsReady c (stage_state self.old.stage)) (λ c. IsNotReady c (stage_state self.old.stage))
            self.old self.new) }
        ensures fault { IfErr result (λ e. of_output e ≡ true) }
    {
        self.released.clear();
        let made = self
            .pending
            .close_ready(&mut self.stage, &mut self.released)?;
        self.take_made(made)
    }

    // Carries out what was released for a closing that was made, and the closing. Returns whether there was one.
    fn take_made(&mut self, made: Option<Closing<Format>>) -> Result<bool, ScriptFault>
        ensures some { IfOk result (λ some. some ≡ is_some made) }
        ensures ok { OnOk result (IfSome made (λ c. GathersItems S.carries S.gathered self.old.sink self.new.sink
            (numbered_closed c self.old.released.items))) }
        ensures others { self.new ≡ record self.old { released = self.new.released; sink = self.new.sink } }
        ensures none { made ≡ None → self.new ≡ self.old }
        ensures err { OnErr result (IfSome made (λ c. FailsWithin S.carries S.gathered self.old.sink self.new.sink
            (numbered_closed c self.old.released.items))) }
        ensures fault { IfErr result (λ e. of_output e ≡ true) }
    {
        let Some(closing) = made else {
            return Ok(false);
        };
        take_closed(&mut self.sink, &mut self.released, closing)?;
        Ok(true)
    }

    /// Carries out what waits at the end of the script, and then the closings that wait. Then carries out an end inside
    /// a module text, with the number of entries. Returns the counts of the events.
    ///
    /// # Errors
    /// `OutOfMemory` where there is no memory for the stage or for the sink. The output of some first items is then
    /// gathered.
    pub fn finish(&mut self) -> Result<Counts, ScriptFault>
        ensures ok { IfOk result (λ counts. Ends S.carries S.gathered self.old self.new counts) }
        ensures err { OnErr result (EndFails S.carries S.gathered self.old self.new) }
        ensures fault { IfErr result (λ e. of_output e ≡ true) }
    {
        self.released.clear();
        let number = self.stage.time();
        let stage = replace(&mut self.stage, HoldStage::new(self.alloc, 0));
        let counts = stage.finish(&mut self.released)?;
        take_released(&mut self.sink, &mut self.released)?;
        take_end(
            &mut self.sink,
            &mut self.pending,
            number,
            end_of(self.ended_inside),
        )?;
        Ok(counts)
    }
}

// Whether the entry is an end inside a module text.
fn ends_text(entry: &Entry) -> bool
    ensures { result ≡ is_end_inside entry.now }
{
    match entry {
        Entry::Item(Item::EndOfText) => true,
        _ => false,
    }
}

// Whether a script has ended inside a module text, with this entry.
fn stays_inside(ended: bool, entry: &Entry) -> bool
    ensures { result ≡ (if ended then true else is_end_inside entry.now) }
{
    if ended { true } else { ends_text(entry) }
}

// The item of an end inside a module text, where there is one.
fn end_of(inside: bool) -> Option<Item>
    ensures { item_list result ≡ end_item inside }
{
    if inside { Some(Item::EndOfText) } else { None }
}
