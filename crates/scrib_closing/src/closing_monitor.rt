//! A monitor that closes each conversation once it is complete.

use crate::closing::{gather_note, gather_step};
use scrib_cli::gathered::Gathered;
use scrib_cli::item_output::{gather_item, gather_short};
use scrib_cli::output_mode::OutputMode;
use scrib_core::format::Format;
use scrib_core::monitor::Core;
use scrib_script_io::fault::ScriptFault;
use scrib_script_reader::entry::Entry;
use scrib_script_reader::item::Item;
use scrib_script_reader::short_line::ShortLine;
use std::alloc::Global;

/// A monitor, the format of its output, and the replies that are not written yet.
#[derive(Drop)]
pub struct ClosingMonitor {
    core: Core,
    format: Format,
    pub(crate) gathered: Gathered,
}

impl ClosingMonitor {
    ghost use Rattle.std.specs.Prelude.{◌≡◌, [], true, IfErr, OnOk, OnErr};
    ghost use Rattle.scrib_script_io.specs.Faults.{of_output};
    ghost use Rattle.scrib_script_reader.specs.ShortLines.{short_entry};
    ghost use Rattle.scrib_closing.specs.Progress.{HasTaken, TakesEntry, FailsAtEntry};

    /// Returns a new monitor.
    pub fn new(alloc: Global, format: Format) -> ClosingMonitor
        ensures { HasTaken format result [] [] }
    {
        ClosingMonitor {
            core: Core::new(alloc),
            format,
            gathered: Gathered::new(alloc),
        }
    }

    /// Takes the entry of the next line, as [`ClosingMonitor::take`] does.
    ///
    /// # Errors
    /// `OutOfMemory` where there is no memory for a text. A beginning is then gathered.
    #[inline(always)]
    pub fn take_short(&mut self, line: ShortLine) -> Result<(), ScriptFault>
        ensures ok { OnOk result (TakesEntry self.old self.new (short_entry line)) }
        ensures err { OnErr result (FailsAtEntry self.old self.new (short_entry line)) }
        ensures fault { IfErr result (λ e. of_output e ≡ true) }
    {
        match line {
            // most lines of a long script
            ShortLine::Note { id, event } => gather_note(
                &mut self.gathered,
                &mut self.core,
                id,
                event,
                self.format,
            ),
            other => gather_short(
                &mut self.gathered,
                &mut self.core,
                other,
                OutputMode::Printed(self.format),
            ),
        }
    }

    /// Takes the next entry of a script: carries it out, gathers its output, and closes the conversation that it completes.
    ///
    /// # Errors
    /// `OutOfMemory` where there is no memory for a text. A beginning is then gathered.
    pub fn take(&mut self, entry: Entry) -> Result<(), ScriptFault>
        ensures ok { OnOk result (TakesEntry self.old self.new entry) }
        ensures err { OnErr result (FailsAtEntry self.old self.new entry) }
        ensures fault { IfErr result (λ e. of_output e ≡ true) }
    {
        match entry {
            Entry::Item(Item::Step(asked, step)) => gather_step(
                &mut self.gathered,
                &mut self.core,
                asked,
                step,
                self.format,
            ),
            Entry::Item(Item::BadLine(number)) => gather_item(
                &mut self.gathered,
                &mut self.core,
                Item::BadLine(number),
                OutputMode::Printed(self.format),
            ),
            Entry::Item(Item::EndOfText) => gather_item(
                &mut self.gathered,
                &mut self.core,
                Item::EndOfText,
                OutputMode::Printed(self.format),
            ),
            Entry::Item(Item::Sweep(asked)) => gather_item(
                &mut self.gathered,
                &mut self.core,
                Item::Sweep(asked),
                OutputMode::Printed(self.format),
            ),
            Entry::Skipped => Ok(()),
        }
    }
}
