//! Carries items out over a monitor, and gathers the replies.

use crate::item_sink::ItemSink;
use scrib_cli::gathered::Gathered;
use scrib_cli::item_output::{gather_item, gather_short};
use scrib_cli::output_mode::OutputMode;
use scrib_core::format::Format;
use scrib_core::monitor::Core;
use scrib_script_io::fault::ScriptFault;
use scrib_script_reader::item::Item;
use scrib_script_reader::short_line::ShortLine;
use scrib_types::shared_event::SharedEvent;
use std::alloc::Global;

/// A monitor, and its replies in a format.
#[derive(Drop)]
pub struct Replies {
    core: Core,
    format: Format,
    // The replies that are not written yet.
    pub(crate) gathered: Gathered,
}

impl Replies {
    ghost use Rattle.std.specs.Prelude.{◌≡◌};
    ghost use Rattle.scrib_core.specs.Answers.{initial};
    ghost use Rattle.scrib_core.specs.Held.{state_of};

    /// Returns a new monitor with no replies. It replies in this format.
    pub(crate) fn new(alloc: Global, format: Format) -> Replies
        ensures initial { state_of result.core ≡ initial }
        ensures format { result.format ≡ format }
    {
        Replies {
            core: Core::new(alloc),
            format,
            gathered: Gathered::new(alloc),
        }
    }
}

impl ItemSink for Replies {
    ghost use Rattle.scrib_hold.specs.Replies.{IsReplied};

    ghost carries = { IsReplied };

    ghost gathered = { λ replies. replies.gathered.bytes.items };

    fn take(&mut self, _number: u64, item: Item) -> Result<(), ScriptFault> {
        gather_item(
            &mut self.gathered,
            &mut self.core,
            item,
            OutputMode::Printed(self.format),
        )
    }

    #[inline(always)]
    fn note(&mut self, _number: u64, id: u32, event: SharedEvent) -> Result<(), ScriptFault> {
        gather_short(
            &mut self.gathered,
            &mut self.core,
            ShortLine::Note { id, event },
            OutputMode::Printed(self.format),
        )
    }
}
