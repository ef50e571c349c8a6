//! A monitor that keeps the numbers of the lines that noted the events of one conversation.

use crate::kept_lines::keep_line;
use scrib_core::monitor::Core;
use scrib_script_io::fault::ScriptFault;
use scrib_script_reader::entry::Entry;
use scrib_script_reader::item::Item;
use scrib_sweep::sweep::sweep;
use std::alloc::Global;

/// A monitor, and the numbers of the lines that noted the events of the conversation `id` since it was last opened.
#[derive(Drop)]
pub(crate) struct LineMonitor {
    pub core: Core,
    pub id: u32,
    pub numbers: Vec<u64>,
}

impl LineMonitor {
    ghost use Rattle.std.specs.Prelude.{◌≡◌, [], IfErr, OnOk};
    ghost use Rattle.scrib_core.specs.Answers.{initial};
    ghost use Rattle.scrib_core.specs.Held.{state_of};
    ghost use Rattle.scrib_script_io.specs.declared.fault.ScriptFault.TheVariants.{OutOfMemory};
    ghost use Rattle.scrib_show.specs.Progress.{Takes};

    // A new monitor, which keeps the lines of this conversation.
    pub fn new(alloc: Global, id: u32) -> LineMonitor
        ensures state { state_of result.core ≡ initial }
        ensures id { result.id ≡ id }
        ensures none { result.numbers.items ≡ [] }
    {
        LineMonitor {
            core: Core::new(alloc),
            id,
            numbers: Vec::new(alloc),
        }
    }

    // Makes the step or the sweep of an entry that the line of this number gives. It fails where memory for it or for
    // the number is refused.
    pub fn take(&mut self, entry: Entry, number: u64) -> Result<(), ScriptFault>
        ensures id { self.new.id ≡ self.old.id }
        ensures took { OnOk result (Takes self.old self.new number entry) }
        ensures fault { IfErr result (λ e. e ≡ OutOfMemory) }
    {
        match entry {
            Entry::Item(Item::Step(_, step)) => {
                let reply = self.core.apply(step);
                keep_line(&mut self.numbers, self.id, number, &reply)
            }
            Entry::Item(Item::Sweep(_)) => match sweep(*self.numbers.allocator(), &mut self.core) {
                Ok(_judged) => Ok(()),
                Err(_) => Err(ScriptFault::OutOfMemory),
            },
            Entry::Item(Item::BadLine(_)) | Entry::Item(Item::EndOfText) | Entry::Skipped => Ok(()),
        }
    }
}
