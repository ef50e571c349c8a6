//! Gathers the lines of the items that a stage lets out.

use crate::waiting_lines::{KeptLines, WaitingLines};
use scrib_cli::gathered::Gathered;
use scrib_hold::item_sink::ItemSink;
use scrib_script_io::fault::ScriptFault;
use scrib_script_reader::item::Item;
use std::alloc::{AllocError, Global};

/// The lines of the entries whose items were not let out yet, and those that are to be written.
#[derive(Drop)]
pub(crate) struct LineSink {
    pub(crate) waiting: WaitingLines,
    pub(crate) gathered: Gathered,
    /// The names of the conversations whose closings were let out since it was emptied.
    pub(crate) closed: Vec<String>,
}

impl LineSink {
    ghost use Rattle.std.specs.Prelude.{◌≡◌, ℕ, None, OnErr, OnOk};
    ghost use Rattle.scrib_script_reader.specs.declared.item.Item.{Item};
    ghost use Rattle.scrib_hold.specs.Sinks.{GathersItem};
    ghost use Rattle.scrib_hold_labelled.specs.Sinks.{CarriesLines, gathered_in};
    ghost use Rattle.scrib_hold_labelled.specs.WaitingLines.{kept_at};

    /// Returns a sink without lines.
    pub(crate) fn new(alloc: Global) -> LineSink
        ensures { (n : ℕ) → kept_at result.waiting n ≡ None }
    {
        LineSink {
            waiting: WaitingLines::new(alloc),
            gathered: Gathered::new(alloc),
            closed: Vec::new(alloc),
        }
    }

    // Notes the name of a conversation that is closed, if there is one.
    fn note_closing(&mut self, name: Option<String>) -> Result<(), AllocError>
        ensures { self.new ≡ record self.old { closed = self.new.closed } }
    {
        if let Some(name) = name {
            self.closed.push(name)?;
        }
        Ok(())
    }

    // Gathers the lines of the entry of this number.
    fn write(&mut self, number: u64) -> Result<(), AllocError>
        ensures ok { (item : Item) → OnOk result
            (GathersItem CarriesLines gathered_in self.old self.new number item) }
        ensures err { OnErr result (gathered_in self.new ≡ gathered_in self.old) }
    {
        let Some(kept) = self.waiting.take(number) else {
            // a stage lets each entry out once
            return Err(AllocError);
        };
        let KeptLines { lines, closes } = kept;
        self.note_closing(closes)?;
        self.gathered.add_bytes(lines.as_slice())
    }
}

impl ItemSink for LineSink {
    ghost use Rattle.scrib_hold_labelled.specs.Sinks.{CarriesLines, gathered_in};

    ghost carries = { CarriesLines };

    ghost gathered = { gathered_in };

    fn take(&mut self, number: u64, _item: Item) -> Result<(), ScriptFault> {
        self.write(number)?;
        Ok(())
    }
}
