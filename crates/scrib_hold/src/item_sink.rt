//! What carries out the items that a stage lets out.

use scrib_core::format::Format;
use scrib_core::step::Step;
use scrib_script_io::fault::ScriptFault;
use scrib_script_reader::item::Item;
use scrib_types::shared_event::SharedEvent;

/// A sink of items. It carries each item out, and gathers the output until that is written. An item comes with the
/// number of its entry in the script, so that what is kept of the entry can be found.
pub trait ItemSink: Drop {
    ghost use Rattle.std.specs.Prelude.{◌≡◌, ℕ, List, true, IfErr, OnErr, OnOk};
    ghost use Rattle.scrib_core.specs.declared.format.Format.TheVariants.{Line};
    ghost use Rattle.scrib_core.specs.declared.step.Step.TheVariants as step;
    ghost use Rattle.scrib_script_io.specs.Faults.{of_output};
    ghost use Rattle.scrib_script_reader.specs.declared.item.Item.{Item};
    ghost use Rattle.scrib_script_reader.specs.declared.item.Item.TheVariants as item;
    ghost use Rattle.scrib_hold.specs.Sinks.{GathersItem};

    // The sinks before and behind an item, its number, and the output that it adds.
    ghost carries: { Self → Self → ℕ → Item → List ℕ → Type 0 };

    // The output that is not written yet.
    ghost gathered: { Self → List ℕ };

    /// Carries out the item, which comes from the entry of this number, and gathers its output.
    ///
    /// # Errors
    /// `OutOfMemory` where there is no memory for the output. What is gathered is then unchanged.
    fn take(&mut self, number: u64, item: Item) -> Result<(), ScriptFault>
        ensures ok { OnOk result (GathersItem carries gathered self.old self.new number item) }
        ensures err { OnErr result (gathered self.new ≡ gathered self.old) }
        ensures fault { IfErr result (λ e. of_output e ≡ true) };

    /// Does the same with an event, whose line asks for no format.
    ///
    /// # Errors
    /// As those of [`ItemSink::take`].
    #[inline(always)]
    fn note(&mut self, number: u64, id: u32, event: SharedEvent) -> Result<(), ScriptFault>
        ensures ok { OnOk result (GathersItem carries gathered self.old self.new number
            (item.Step Line (step.Note id event))) }
        ensures err { OnErr result (gathered self.new ≡ gathered self.old) }
        ensures fault { IfErr result (λ e. of_output e ≡ true) }
    {
        self.take(number, Item::Step(Format::Line, Step::Note { id, event }))
    }
}
