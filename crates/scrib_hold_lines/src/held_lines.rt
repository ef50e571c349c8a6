//! A stage that holds the events of a script back, and the lines that it lets out.

ghost use Rattle.std.specs.Prelude.{◌≡◌, true, None, OnOk, OnErr, if◌then◌else◌};
ghost use Rattle.scrib_script_reader.specs.Scripts.{lines};
ghost use Rattle.scrib_hold.specs.HeldScripts.{end_item, is_end_inside};
ghost use Rattle.scrib_hold_lines.specs.Lines.{SpellsAnew, EndsInside, AddsBytes};

use crate::close_line::CloseLine;
use crate::event_line::EventLine;
use crate::output::{append_closed, append_closings, append_passing, append_released};
use crate::staging::read_entry;
use scrib_hold::opening::opened_by;
use scrib_hold_stage::closings::{Closing, PendingClosings};
use scrib_hold_stage::noted::Noted;
use scrib_hold_stage::stage::{Counts, HoldStage};
use scrib_script_io::fault::ScriptFault;
use scrib_script_reader::entry::Entry;
use scrib_script_reader::item::Item;
use std::alloc::{AllocError, Global};
use std::mem::replace;

/// A stage, and the lines that it let out.
#[derive(Drop)]
pub struct HeldLines {
    alloc: Global,
    stage: HoldStage<EventLine>,
    // The closings that wait for the events of their conversations.
    pending: PendingClosings<CloseLine>,
    // What the stage released for the last entry, or the last closing.
    released: Vec<Noted<EventLine>>,
    // The lines that are not written yet.
    pub(crate) output: Vec<u8>,
    // Whether the script ended inside a module text.
    ended_inside: bool,
}

impl HeldLines {
    ghost use Rattle.std.specs.Prelude.{◌≡◌, [], true, None, is_some, IfOk, IfErr, IfSome, IsFalse, IsTrue, OnOk, OnErr};
    ghost use Rattle.std.specs.List.{AllByRecursion};
    ghost use Rattle.scrib_hold_stage.specs.PendingClosings.{IsApart, IsNotReady, IsOf, IsReady, closings_in};
    ghost use Rattle.scrib_hold_stage.specs.Stages.{stage_state};
    ghost use Rattle.scrib_hold.specs.LetOutSoFar.{closing_items};
    ghost use Rattle.scrib_script_io.specs.Faults.{of_script};
    ghost use Rattle.scrib_hold_lines.specs.Lines.{EndsInside, GivesLine};
    ghost use Rattle.scrib_hold_lines.specs.Progress.{AreWritten, AreWrittenInPart, HasTakenLines, TakesLineEntry, LinesFailAt, LinesEnd, LinesEndFails};
    ghost use Rattle.scrib_hold_lines.specs.Progress.{AreSameLines, LineReadFails, LinesCloseBefore, LinesCloseFails, LinesCloseOne, LinesCloseReady, LinesReadyFail, ReadsLineEntry};

    /// Returns a new stage. An event waits while at most this many further entries are taken.
    pub(crate) fn new(alloc: Global, bound: u64) -> HeldLines
        ensures { HasTakenLines bound result [] [] }
    {
        HeldLines {
            alloc,
            stage: HoldStage::new(alloc, bound),
            pending: PendingClosings::new(alloc),
            released: Vec::new(alloc),
            output: Vec::new(alloc),
            ended_inside: false,
        }
    }

    /// Takes the next entry of a script, which this line gives. Gathers what passes at once, and what the stage then
    /// releases. A closing of the conversation that the entry opens is gathered before. Behind it those are that are due,
    /// or for which no event waits.
    ///
    /// # Errors
    /// `OutOfMemory` where there is no memory for the stage or for a line. A beginning is then gathered.
    pub(crate) fn take(&mut self, entry: Entry, line: &[u8]) -> Result<(), ScriptFault>
        requires { GivesLine line.now entry }
        ensures ok { OnOk result (TakesLineEntry self.old self.new entry) }
        ensures err { OnErr result (LinesFailAt self.old self.new entry) }
        ensures fault { IfErr result (λ e. of_script e ≡ true) }
    {
        self.close_before(&entry)?;
        self.read(entry, line)?;
        self.close_ready()
    }

    // Reads the next entry, which this line gives. Gathers what passes at once, and what the stage then releases.
    fn read(&mut self, entry: Entry, line: &[u8]) -> Result<(), ScriptFault>
        requires { GivesLine line.now entry }
        ensures ok { OnOk result (ReadsLineEntry self.old self.new entry) }
        ensures err { OnErr result (LineReadFails self.old self.new entry) }
        ensures fault { IfErr result (λ e. of_script e ≡ true) }
    {
        self.released.clear();
        let inside = stays_inside(self.ended_inside, &entry);
        let passing = read_entry(
            &mut self.stage,
            &mut self.pending,
            entry,
            line,
            &mut self.released,
        )?;
        append_passing(&mut self.output, &passing, line)?;
        append_released(&mut self.output, &mut self.released)?;
        self.ended_inside = inside;
        Ok(())
    }

    // Gathers the closings that wait of the conversation that the entry opens, if it opens one.
    fn close_before(&mut self, entry: &Entry) -> Result<(), ScriptFault>
        ensures ok { OnOk result (LinesCloseBefore self.old self.new entry.now) }
        ensures err { OnErr result (LinesFailAt self.old self.new entry.now) }
        ensures fault { IfErr result (λ e. of_script e ≡ true) }
    {
        if self.pending.is_empty() {
            return Ok(());
        }
        self.close_opened(entry)
    }

    // The same where closings wait.
    fn close_opened(&mut self, entry: &Entry) -> Result<(), ScriptFault>
        ensures ok { OnOk result (LinesCloseBefore self.old self.new entry.now) }
        ensures err { OnErr result (LinesFailAt self.old self.new entry.now) }
        ensures fault { IfErr result (λ e. of_script e ≡ true) }
    {
        let Some(id) = opened_by(entry) else {
            return Ok(());
        };
        while self.close_next_of(id)? {}
        Ok(())
    }

    // Gathers the first closing that waits of the conversation. Returns whether there was one.
    fn close_next_of(&mut self, id: u32) -> Result<bool, ScriptFault>
        ensures closed { IfOk result (λ some. IsTrue some → LinesCloseOne (IsOf id) (IsApart id) self.old self.new) }
        ensures none { IfOk result (λ some. IsFalse some → AllByRecursion (IsApart id) (closings_in self.old.pending)) }
        ensures same { IfOk result (λ some. IsFalse some → AreSameLines self.old self.new) }
        ensures err { OnErr result (LinesCloseFails (IsOf id) (IsApart id) self.old self.new) }
        ensures fault { IfErr result (λ e. of_script e ≡ true) }
    {
        self.released.clear();
        let made = self
            .pending
            .close_of(id, &mut self.stage, &mut self.released)?;
        self.gather_closing(made)
    }

    // Gathers the closings that are due, or for which no event waits.
    fn close_ready(&mut self) -> Result<(), ScriptFault>
        ensures ok { OnOk result (LinesCloseReady self.old self.new) }
        ensures err { OnErr result (LinesReadyFail self.old self.new) }
        ensures fault { IfErr result (λ e. of_script e ≡ true) }
    {
        if self.pending.is_empty() {
            return Ok(());
        }
        self.close_each_ready()
    }

    // The same where closings wait.
    fn close_each_ready(&mut self) -> Result<(), ScriptFault>
        ensures ok { OnOk result (LinesCloseReady self.old self.new) }
        ensures err { OnErr result (LinesReadyFail self.old self.new) }
        ensures fault { IfErr result (λ e. of_script e ≡ true) }
    {
        while self.close_next_ready()? {}
        Ok(())
    }

    // Gathers the first closing that is due, or for which no event waits. Returns whether there was one.
    fn close_next_ready(&mut self) -> Result<bool, ScriptFault>
        ensures closed { IfOk result (λ some. IsTrue some → LinesCloseOne (λ c. IsReady c (stage_state self.old.stage))
            (λ c. IsNotReady c (stage_state self.old.stage)) self.old self.new) }
        ensures none { IfOk result (λ some. IsFalse some
            → AllByRecursion (λ c. IsNotReady c (stage_state self.old.stage)) (closings_in self.old.pending)) }
        ensures same { IfOk result (λ some. IsFalse some → AreSameLines self.old self.new) }
        ensures err { OnErr result (LinesCloseFails (λ c. IsReady c (stage_state self.old.stage))
            (λ c. IsNotReady c (stage_state self.old.stage)) self.old self.new) }
        ensures fault { IfErr result (λ e. of_script e ≡ true) }
    {
        self.released.clear();
        let made = self
            .pending
            .close_ready(&mut self.stage, &mut self.released)?;
        self.gather_closing(made)
    }

    // Gathers what was released for a closing that was made, and the closing. Returns whether there was one.
    fn gather_closing(&mut self, made: Option<Closing<CloseLine>>) -> Result<bool, ScriptFault>
        ensures some { IfOk result (λ some. some ≡ is_some made) }
        ensures ok { OnOk result (IfSome made (λ c. AreWritten (closing_items c self.old.released.items)
            self.old.output.items self.new.output.items)) }
        ensures others { self.new ≡ record self.old { released = self.new.released; output = self.new.output } }
        ensures none { made ≡ None → self.new ≡ self.old }
        ensures err { OnErr result (IfSome made (λ c. AreWrittenInPart (closing_items c self.old.released.items)
            self.old.output.items self.new.output.items)) }
        ensures fault { IfErr result (λ e. of_script e ≡ true) }
    {
        let Some(closing) = made else {
            return Ok(false);
        };
        append_closed(&mut self.output, &mut self.released, &closing)?;
        Ok(true)
    }

    /// Gathers what waits at the end of the script, then the closings that wait, and then `last`, where the script ended
    /// inside a module text. Returns the counts of the events.
    ///
    /// # Errors
    /// `OutOfMemory` where there is no memory for the stage or for a line. A beginning is then gathered.
    pub(crate) fn finish(&mut self, last: &[u8]) -> Result<Counts, ScriptFault>
        requires { EndsInside last.now }
        ensures ok { IfOk result (λ counts. LinesEnd self.old self.new counts) }
        ensures err { OnErr result (LinesEndFails self.old self.new) }
        ensures fault { IfErr result (λ e. of_script e ≡ true) }
    {
        self.released.clear();
        let stage = replace(&mut self.stage, HoldStage::new(self.alloc, 0));
        let counts = stage.finish(&mut self.released)?;
        append_released(&mut self.output, &mut self.released)?;
        append_closings(&mut self.output, &mut self.pending)?;
        append_end(&mut self.output, self.ended_inside, last)?;
        Ok(counts)
    }
}

// Whether the entry is an end inside a module text.
fn ends_text(entry: &Entry) -> bool
    ensures { result ≡ is_end_inside entry.now }
{
    match entry {
        Entry::Item(Item::EndOfText) => true,
        _ => false,
    }
}

// Whether a script has ended inside a module text, with this entry.
fn stays_inside(ended: bool, entry: &Entry) -> bool
    ensures { result ≡ (if ended then true else is_end_inside entry.now) }
{
    if ended { true } else { ends_text(entry) }
}

// Adds `last` where the script ended inside a module text. After an error the output is unchanged.
fn append_end(output: &mut Vec<u8>, inside: bool, last: &[u8]) -> Result<(), AllocError>
    requires { EndsInside last.now }
    ensures ok { OnOk result (AddsBytes (λ out. SpellsAnew None (lines out) (end_item inside))
        output.old.items output.new.items) }
    ensures err { OnErr result (output.new.items ≡ output.old.items) }
{
    if inside {
        output.extend_from_slice(last)
    } else {
        Ok(())
    }
}
